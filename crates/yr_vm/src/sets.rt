//! Instructions that ask how many members of a set hold.

ghost use Rattle.std.specs.Prelude.{◌≡◌, ◌+◌, ◌<◌, ◌≤◌, true, List, length, take, option_map};
ghost use Rattle.yr_rows.specs.Nodes.{outputs_of};
ghost use Rattle.yr_values.specs.Values.{shown};
ghost use Rattle.yr_answer.specs.Truths.{truths_shown};
ghost use Rattle.yr_answer.specs.Turns.{Turn};
ghost use Rattle.yr_machine.specs.Operations.{Context, of_value};
ghost use Rattle.yr_machine.specs.Roles.{quantity, of_wants};
ghost use Rattle.yr_machine.specs.declared.block.Want.{Want};
ghost use Rattle.yr_vm.specs.Given.{given};
ghost use Rattle.yr_vm.specs.Members.{members_in, are_there};
ghost use Rattle.yr_vm.specs.Strings.{asked_shown};
ghost use Rattle.yr_vm.specs.Sets.{strings_value, rules_value, set_bound};

use crate::asked::{Asked, asked_at, asked_within};
use crate::members::{rules_found, strings_found};
use crate::quantity::{quantifier, quantity};
use crate::stack::Stack;
use yr_answer::Matches;
use yr_base::{Truth, Value};
use yr_image::{OfForm, QuantifierKind};
use yr_values::Quantifier;

// Whether enough strings of a set have a match that is asked for.
fn judge_strings(
    quantifier: Option<Quantifier>,
    asked: Option<Asked>,
    lists: &[u8],
    first: u32,
    rows: u64,
    matches: &Matches,
) -> Value<'static>
    requires { are_there (outputs_of lists.now) first rows (length matches.now.lists) ≡ true }
    ensures { shown result ≡ strings_value matches.now.lists (members_in (outputs_of lists.now) first rows) quantifier (option_map asked_shown asked) }
{
    match (quantifier, asked) {
        (Some(quantifier), Some(asked)) => {
            let found = strings_found(lists, first, rows, matches, asked);
            Value::Flag(quantifier.meets(found, rows))
        }
        _ => Value::Undefined,
    }
}

// Whether enough rules of a set hold.
fn judge_rules(
    quantifier: Option<Quantifier>,
    lists: &[u8],
    first: u32,
    rows: u64,
    truths: &[Truth],
) -> Value<'static>
    requires { are_there (outputs_of lists.now) first rows (length truths.now) ≡ true }
    ensures { shown result ≡ rules_value (truths_shown truths.now) (members_in (outputs_of lists.now) first rows) quantifier }
{
    match quantifier {
        Some(quantifier) => {
            let found = rules_found(lists, first, rows, truths);
            Value::Flag(quantifier.meets(found, rows))
        }
        None => Value::Undefined,
    }
}

// What a set gives for the operands on top of the stack.
fn set_value(
    stack: &Stack<'_>,
    form: OfForm,
    kind: QuantifierKind,
    lists: &[u8],
    first: u32,
    rows: u64,
    matches: &Matches,
    truths: &[Truth],
) -> Value<'static>
    requires there { length (of_wants form (quantity kind)) ≤ length stack.now }
    requires members { are_there (outputs_of lists.now) first rows (set_bound form (length matches.now.lists) (length truths.now)) ≡ true }
    ensures { (context : Context) (turns : List Turn) → context.lists ≡ matches.now.lists →
        shown result ≡ of_value context (truths_shown truths.now) turns form kind (members_in (outputs_of lists.now) first rows)
        (take (length (of_wants form (quantity kind))) stack.now) }
{
    match form {
        OfForm::Match => {
            let quantifier = quantifier(stack, 0, kind);
            let asked = Some(Asked::Anywhere);
            judge_strings(quantifier, asked, lists, first, rows, matches)
        }
        OfForm::MatchAt => {
            let quantifier = quantifier(stack, 1, kind);
            let asked = asked_at(stack.one());
            judge_strings(quantifier, asked, lists, first, rows, matches)
        }
        OfForm::MatchIn => {
            let quantifier = quantifier(stack, 2, kind);
            let (v, w) = stack.two();
            let asked = asked_within(v, w);
            judge_strings(quantifier, asked, lists, first, rows, matches)
        }
        OfForm::Rules => {
            let quantifier = quantifier(stack, 0, kind);
            judge_rules(quantifier, lists, first, rows, truths)
        }
    }
}

// How many values the form of a set takes, above the quantifier's number.
fn places(form: OfForm) -> usize
    ensures count { (rest : List Want) → length (of_wants form rest) ≡ result + length rest }
    ensures few { result ≤ 2 }
{
    match form {
        OfForm::Match | OfForm::Rules => 0,
        OfForm::MatchAt => 1,
        OfForm::MatchIn => 2,
    }
}

/// Whether enough members of a set hold.
pub fn judge(
    stack: &mut Stack<'_>,
    form: OfForm,
    kind: QuantifierKind,
    lists: &[u8],
    first: u32,
    rows: u64,
    matches: &Matches,
    truths: &[Truth],
)
    requires there { length (of_wants form (quantity kind)) ≤ length stack.old }
    requires room { length stack.old < 4096 + length (of_wants form (quantity kind)) }
    requires members { are_there (outputs_of lists.now) first rows (set_bound form (length matches.now.lists) (length truths.now)) ≡ true }
    ensures { (context : Context) (turns : List Turn) → context.lists ≡ matches.now.lists →
        stack.new ≡ given (length (of_wants form (quantity kind)))
        (of_value context (truths_shown truths.now) turns form kind (members_in (outputs_of lists.now) first rows)) stack.old }
{
    let value = set_value(stack, form, kind, lists, first, rows, matches, truths);
    stack.put(places(form) + quantity(kind), value);
}
