//! What a condition uses, in the order of its text.

ghost use Rattle.std.specs.Prelude.{◌≡◌, ◌++◌, ◌∷◌, [], IfOk, OnOk, map};
ghost use Rattle.std.specs.Option.{option_map};
ghost use Rattle.yr_syntax.specs.Condition.{tree_of, asked_of, where_of, domain_of, bounds_of, links_of, link_of, items_of, item_of, set_of, step_of, steps_of, boxed};
ghost use Rattle.yr_conditions.specs.Around.{around_of};
ghost use Rattle.yr_conditions.specs.Uses as spec;
ghost use Rattle.yr_conditions.specs.UseParts.{index_uses, range_uses, one_uses};
ghost use Rattle.yr_conditions.specs.Paths.{step_meaning};
ghost use Rattle.yr_conditions.specs.UseViews.{shown};

use crate::around::Around;
use crate::meaning::{Meaning, then_call, then_index, then_name};
use crate::path::{count, opened};
use crate::scopes::{Scope, Scopes};
use crate::use_prefix::behind_prefixes;
use crate::uses::{Use, Uses};
use crate::word::word_meaning;
use std::alloc::Global;
use yr_base::NoMemory;
use yr_syntax::{Cond, Link, Over, PathStep, Place, Quant, Range, SetItem, SetRef};

/// A string by its sign and its name.
fn add_string<'a>(
    sign: u8,
    name: &'a [u8],
    scopes: &Scopes<'a>,
    uses: &mut Uses<'a>,
) -> Result<(), NoMemory>
    ensures { OnOk result (uses.new ≡ uses.old ++ spec.string_uses sign name.now scopes.now) }
{
    if !name.is_empty() {
        return uses.push(Use::String(sign, name));
    }
    match scopes.current() {
        Some(_) => Ok(()),
        None => uses.push(Use::Nameless(sign)),
    }
}

fn add_members<'a>(items: &'a [SetItem], uses: &mut Uses<'a>) -> Result<(), NoMemory>
    ensures { OnOk result (uses.new ≡ uses.old ++ map spec.member_use (map item_of items.now)) }
{
    for item in items {
        uses.push(Use::Member(&item.name, item.wild))?;
    }
    Ok(())
}

fn add_earlier<'a>(items: &'a [SetItem], uses: &mut Uses<'a>) -> Result<(), NoMemory>
    ensures { OnOk result (uses.new ≡ uses.old ++ map spec.earlier_use (map item_of items.now)) }
{
    for item in items {
        uses.push(Use::Earlier(&item.name, item.wild))?;
    }
    Ok(())
}

fn add_set<'a>(set: &'a SetRef, uses: &mut Uses<'a>) -> Result<(), NoMemory>
    ensures { OnOk result (uses.new ≡ uses.old ++ spec.set_uses (set_of set.now)) }
{
    match set {
        SetRef::Them => uses.push(Use::Everything),
        SetRef::Strings(items) => add_members(items, uses),
        SetRef::Rules(items) => add_earlier(items, uses),
    }
}

/// A word, where it has no meaning.
fn add_word<'a>(word: &'a [u8], meaning: Meaning<'a>, uses: &mut Uses<'a>) -> Result<(), NoMemory>
    ensures { OnOk result (uses.new ≡ uses.old ++ spec.word_uses word.now (shown meaning.entry)) }
{
    match meaning {
        Meaning::Unknown => uses.push(Use::Unknown(word)),
        _ => Ok(()),
    }
}

/// Adds what the condition uses where these loops are open.
#[cycle(uses)]
fn add_uses<'a>(
    around: &Around<'_, 'a>,
    condition: &'a Cond,
    scopes: &mut Scopes<'a>,
    uses: &mut Uses<'a>,
) -> Result<(), NoMemory>
    ensures scopes { OnOk result (scopes.new ≡ scopes.old) }
    ensures uses { OnOk result (uses.new ≡ uses.old ++ spec.uses_of (around_of around.now) (tree_of condition.now) scopes.old) }
{
    match condition {
        Cond::Number(_) | Cond::Text(_) | Cond::Flag(_) | Cond::FileSize => Ok(()),
        Cond::Path(steps) => add_path_uses(around, steps, scopes, uses),
        Cond::Found { name, place } => {
            add_string(b'$', name, scopes, uses)?;
            add_place_uses(around, place, scopes, uses)
        }
        Cond::Count { name, range } => {
            add_string(b'#', name, scopes, uses)?;
            add_range_uses(around, range, scopes, uses)
        }
        Cond::Offset { name, index } => {
            add_string(b'@', name, scopes, uses)?;
            add_index_uses(around, index, scopes, uses)
        }
        Cond::Length { name, index } => {
            add_string(b'!', name, scopes, uses)?;
            add_index_uses(around, index, scopes, uses)
        }
        Cond::Read { at, .. } => add_uses(around, at, scopes, uses),
        Cond::Prefix { inner, .. } => add_uses(around, behind_prefixes(inner), scopes, uses),
        Cond::Chain { first, rest } => {
            add_uses(around, first, scopes, uses)?;
            add_link_uses(around, rest, scopes, uses)
        }
        Cond::Matches { text, regex } => {
            add_uses(around, text, scopes, uses)?;
            uses.push(Use::Expression(regex))
        }
        Cond::Of { quant, set, place } => {
            add_asked_uses(around, quant, scopes, uses)?;
            add_set(set, uses)?;
            add_place_uses(around, place, scopes, uses)
        }
        Cond::ForOf { quant, set, body } => {
            uses.push(Use::Loop(scopes.count()))?;
            add_asked_uses(around, quant, scopes, uses)?;
            add_set(set, uses)?;
            scopes.enter(Scope::Members)?;
            add_uses(around, body, scopes, uses)?;
            scopes.leave();
            Ok(())
        }
        Cond::ForIn {
            quant,
            name,
            over,
            body,
        } => {
            uses.push(Use::Loop(scopes.count()))?;
            add_asked_uses(around, quant, scopes, uses)?;
            add_domain_uses(around, over, scopes, uses)?;
            let inner = opened(around, name, over, scopes);
            scopes.enter(inner)?;
            add_uses(around, body, scopes, uses)?;
            scopes.leave();
            Ok(())
        }
    }
}

#[cycle(uses)]
fn add_link_uses<'a>(
    around: &Around<'_, 'a>,
    links: &'a [Link],
    scopes: &mut Scopes<'a>,
    uses: &mut Uses<'a>,
) -> Result<(), NoMemory>
    ensures scopes { OnOk result (scopes.new ≡ scopes.old) }
    ensures uses { OnOk result (uses.new ≡ uses.old ++ spec.link_uses (around_of around.now) (links_of (map link_of links.now)) scopes.old) }
{
    for link in links {
        add_uses(around, &link.operand, scopes, uses)?;
    }
    Ok(())
}

#[cycle(uses)]
fn add_path_uses<'a>(
    around: &Around<'_, 'a>,
    steps: &'a [PathStep],
    scopes: &mut Scopes<'a>,
    uses: &mut Uses<'a>,
) -> Result<(), NoMemory>
    ensures scopes { OnOk result (scopes.new ≡ scopes.old) }
    ensures uses { OnOk result (uses.new ≡ uses.old ++ spec.path_uses (around_of around.now) (steps_of (map step_of steps.now)) scopes.old) }
{
    match steps {
        [PathStep::Name(word), rest @ ..] => {
            let meaning = word_meaning(around, word, scopes);
            add_word(word, meaning, uses)?;
            add_step_uses(around, rest, meaning, scopes, uses)
        }
        _ => add_step_uses(around, steps, Meaning::Wrong, scopes, uses),
    }
}

/// Adds what stands behind a path that means this.
#[cycle(uses)]
fn add_step_uses<'a>(
    around: &Around<'_, 'a>,
    steps: &'a [PathStep],
    start: Meaning<'a>,
    scopes: &mut Scopes<'a>,
    uses: &mut Uses<'a>,
) -> Result<(), NoMemory>
    ensures scopes { OnOk result (scopes.new ≡ scopes.old) }
    ensures uses { OnOk result (uses.new ≡ uses.old ++ spec.step_uses (around_of around.now) (steps_of (map step_of steps.now)) (shown start.entry) scopes.old) }
{
    let mut meaning = start;
    for step in steps {
        meaning = add_one_step(around, step, meaning, scopes, uses)?;
    }
    Ok(())
}

/// Adds one part of a path, and says what the path means with it.
#[cycle(uses)]
fn add_one_step<'a>(
    around: &Around<'_, 'a>,
    step: &'a PathStep,
    before: Meaning<'a>,
    scopes: &mut Scopes<'a>,
    uses: &mut Uses<'a>,
) -> Result<Meaning<'a>, NoMemory>
    ensures scopes { OnOk result (scopes.new ≡ scopes.old) }
    ensures uses { OnOk result (uses.new ≡ uses.old ++ one_uses (around_of around.now) (step_of step.now) (shown before.entry) scopes.old) }
    ensures meaning { IfOk result (λ m. shown m ≡ step_meaning (step_of step.now) (shown before.entry)) }
{
    match step {
        PathStep::Name(word) => {
            let meaning = then_name(before, word);
            add_word(word, meaning, uses)?;
            Ok(meaning)
        }
        PathStep::Index(index) => {
            add_uses(around, index, scopes, uses)?;
            Ok(then_index(before))
        }
        PathStep::Call(arguments) => {
            add_item_uses(around, arguments, scopes, uses)?;
            Ok(then_call(before, count(arguments)))
        }
    }
}

#[cycle(uses)]
fn add_item_uses<'a>(
    around: &Around<'_, 'a>,
    items: &'a [Cond],
    scopes: &mut Scopes<'a>,
    uses: &mut Uses<'a>,
) -> Result<(), NoMemory>
    ensures scopes { OnOk result (scopes.new ≡ scopes.old) }
    ensures uses { OnOk result (uses.new ≡ uses.old ++ spec.item_uses (around_of around.now) (items_of (map tree_of items.now)) scopes.old) }
{
    for item in items {
        add_uses(around, item, scopes, uses)?;
    }
    Ok(())
}

#[cycle(uses)]
fn add_bounds_uses<'a>(
    around: &Around<'_, 'a>,
    range: &'a Range,
    scopes: &mut Scopes<'a>,
    uses: &mut Uses<'a>,
) -> Result<(), NoMemory>
    ensures scopes { OnOk result (scopes.new ≡ scopes.old) }
    ensures uses { OnOk result (uses.new ≡ uses.old ++ (spec.uses_of (around_of around.now) (bounds_of range.now).low scopes.old ++ spec.uses_of (around_of around.now) (bounds_of range.now).high scopes.old)) }
{
    add_uses(around, &range.low, scopes, uses)?;
    add_uses(around, &range.high, scopes, uses)
}

#[cycle(uses)]
fn add_range_uses<'a>(
    around: &Around<'_, 'a>,
    range: &'a Option<Range>,
    scopes: &mut Scopes<'a>,
    uses: &mut Uses<'a>,
) -> Result<(), NoMemory>
    ensures scopes { OnOk result (scopes.new ≡ scopes.old) }
    ensures uses { OnOk result (uses.new ≡ uses.old ++ range_uses (around_of around.now) (option_map bounds_of range.now) scopes.old) }
{
    match range {
        None => Ok(()),
        Some(range) => add_bounds_uses(around, range, scopes, uses),
    }
}

#[cycle(uses)]
fn add_index_uses<'a>(
    around: &Around<'_, 'a>,
    index: &'a Option<Box<Cond>>,
    scopes: &mut Scopes<'a>,
    uses: &mut Uses<'a>,
) -> Result<(), NoMemory>
    ensures scopes { OnOk result (scopes.new ≡ scopes.old) }
    ensures uses { OnOk result (uses.new ≡ uses.old ++ index_uses (around_of around.now) (option_map tree_of (boxed index.now)) scopes.old) }
{
    match index {
        None => Ok(()),
        Some(index) => add_uses(around, index, scopes, uses),
    }
}

#[cycle(uses)]
fn add_place_uses<'a>(
    around: &Around<'_, 'a>,
    place: &'a Place,
    scopes: &mut Scopes<'a>,
    uses: &mut Uses<'a>,
) -> Result<(), NoMemory>
    ensures scopes { OnOk result (scopes.new ≡ scopes.old) }
    ensures uses { OnOk result (uses.new ≡ uses.old ++ spec.place_uses (around_of around.now) (where_of place.now) scopes.old) }
{
    match place {
        Place::Anywhere => Ok(()),
        Place::At(at) => add_uses(around, at, scopes, uses),
        Place::Within(range) => add_bounds_uses(around, range, scopes, uses),
    }
}

#[cycle(uses)]
fn add_asked_uses<'a>(
    around: &Around<'_, 'a>,
    quant: &'a Quant,
    scopes: &mut Scopes<'a>,
    uses: &mut Uses<'a>,
) -> Result<(), NoMemory>
    ensures scopes { OnOk result (scopes.new ≡ scopes.old) }
    ensures uses { OnOk result (uses.new ≡ uses.old ++ spec.asked_uses (around_of around.now) (asked_of quant.now) scopes.old) }
{
    match quant {
        Quant::All | Quant::Any | Quant::Nil => Ok(()),
        Quant::Number(asked) | Quant::Percent(asked) => add_uses(around, asked, scopes, uses),
    }
}

#[cycle(uses)]
fn add_domain_uses<'a>(
    around: &Around<'_, 'a>,
    over: &'a Over,
    scopes: &mut Scopes<'a>,
    uses: &mut Uses<'a>,
) -> Result<(), NoMemory>
    ensures scopes { OnOk result (scopes.new ≡ scopes.old) }
    ensures uses { OnOk result (uses.new ≡ uses.old ++ spec.domain_uses (around_of around.now) (domain_of over.now) scopes.old) }
{
    match over {
        Over::Range(range) => add_bounds_uses(around, range, scopes, uses),
        Over::List(items) => {
            uses.push(Use::Listed(count(items)))?;
            add_item_uses(around, items, scopes, uses)
        }
        Over::Path(steps) => add_path_uses(around, steps, scopes, uses),
    }
}

/// What a whole condition uses.
pub fn condition_uses<'a>(
    alloc: Global,
    around: &Around<'_, 'a>,
    condition: &'a Cond,
) -> Result<Uses<'a>, NoMemory>
    ensures { IfOk result (λ uses. uses ≡ spec.uses_of (around_of around.now) (tree_of condition.now) []) }
{
    let mut uses = Uses::new(alloc);
    let mut scopes = Scopes::new(alloc);
    add_uses(around, condition, &mut scopes, &mut uses)?;
    Ok(uses)
}
