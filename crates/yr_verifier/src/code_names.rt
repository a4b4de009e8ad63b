//! Whether what an instruction names is there.

ghost use Rattle.std.specs.Prelude.{◌≡◌, ◌+◌, ◌≤◌, ◌<◌, ◌^◌, [], true, false, length};
ghost use Rattle.std.specs.Option.{option_map_or};
ghost use Rattle.yr_values.specs.Comparisons.{flag_eq};
ghost use Rattle.yr_image.specs.ModuleTable.{field_row_of, call_row_of};
ghost use Rattle.yr_image.specs.Image.{in_pool, members_of};
ghost use Rattle.yr_image.specs.Views.{image_of};
ghost use Rattle.yr_verifier.specs.Blocks.{AreMost};
ghost use Rattle.yr_machine.specs.Named.{string_there, list_there, of_bound, names_there};

use crate::counting::{count_externals, count_lists, count_pool, count_programs, count_strings};
use crate::effect::{call, field};
use crate::lists::Lists;
use crate::members::all_below;
use crate::stacks::Loops;
use yr_image::{ImageView, Instruction, NamedString, OfForm};

/// Whether a range lies in the pool.
pub fn in_pool(view: &ImageView, place: u64, length: u64) -> bool
    ensures { result ≡ in_pool (image_of view.now) place length }
{
    u128::from(place) + u128::from(length) <= u128::from(count_pool(view))
}

// Whether the list rows are there, and their members below a bound.
fn list_there(view: &ImageView, lists: &Lists, first: u64, rows: u64, bound: u32) -> bool
    requires { AreMost (image_of view.now) lists.now }
    ensures { result ≡ list_there (image_of view.now) 0 [] first rows bound }
{
    if rows == 0 {
        return true;
    }
    if u128::from(first) + u128::from(rows) <= u128::from(count_lists(view)) {
        all_below(view, lists, first as u32, rows as u32, bound)
    } else {
        false
    }
}

fn string_there(view: &ImageView, loops: &Loops, named: NamedString) -> bool
    ensures { result ≡ string_there (image_of view.now) 0 loops.now named }
{
    match named {
        NamedString::Known(c) => c < count_strings(view),
        NamedString::Current(c) => loops.has(true, c),
    }
}

fn is_field(indexed: bool, id: u32) -> bool
    ensures { result ≡ option_map_or (λ row. flag_eq indexed row.0) (field_row_of id) false }
{
    match field(id) {
        Some((takes, _)) => indexed == takes,
        None => false,
    }
}

fn is_call(id: u32) -> bool
    ensures { result ≡ option_map_or (λ k. true) (call_row_of id) false }
{
    match call(id) {
        Some(_) => true,
        None => false,
    }
}

// What the members of a set are below: the strings of the image, or this rule.
fn of_bound(view: &ImageView, rule: u32, form: OfForm) -> u32
    ensures { result ≡ of_bound (image_of view.now) rule [] form }
{
    match form {
        OfForm::Match => count_strings(view),
        OfForm::MatchAt => count_strings(view),
        OfForm::MatchIn => count_strings(view),
        OfForm::Rules => rule,
    }
}

/// Whether the rows of the image, the rules before this one and the open loops are there that an instruction names.
pub fn names_there(
    view: &ImageView,
    lists: &Lists,
    rule: u32,
    loops: &Loops,
    instruction: Instruction,
) -> bool
    requires { AreMost (image_of view.now) lists.now }
    ensures { result ≡ names_there (image_of view.now) rule loops.now instruction }
{
    match instruction {
        Instruction::Text { place, length } => in_pool(view, u64::from(place), length),
        Instruction::External(c) => c < count_externals(view),
        Instruction::Rule(c) => c < rule,
        Instruction::Var(c) => loops.has(false, c),
        Instruction::Field { indexed, id } => is_field(indexed, id),
        Instruction::Call(id) => is_call(id),
        Instruction::Has(named) => string_there(view, loops, named),
        Instruction::HasAt(named) => string_there(view, loops, named),
        Instruction::HasIn(named) => string_there(view, loops, named),
        Instruction::Count(named) => string_there(view, loops, named),
        Instruction::CountIn(named) => string_there(view, loops, named),
        Instruction::Offset(named) => string_there(view, loops, named),
        Instruction::Length(named) => string_there(view, loops, named),
        Instruction::Of {
            form,
            first,
            rows,
            ..
        } => list_there(
            view,
            lists,
            u64::from(first),
            rows,
            of_bound(view, rule, form),
        ),
        Instruction::Matches(c) => c < count_programs(view),
        Instruction::LoopStrings { first, rows, .. } => list_there(
            view,
            lists,
            first,
            rows,
            count_strings(view),
        ),
        _ => true,
    }
}
