//! When names are brought into alphabetical order, in which those that an item of a set means are found without a walk over all
//! names. The order decides only how long the checks take, so that nothing is promised of these answers.

ghost use Rattle.std.specs.Prelude.{◌≡◌, IfOk, IfSome};

use std::alloc::Global;
use yr_base::NoMemory;
use yr_conditions::{Use, Uses};
use yr_name_tables::Numbered;

/// The names are walked for so many items in less time than it takes to sort them.
const FEW_ITEMS: usize = 8;

/// Where there are more strings, the rule is refused.
const MANY_STRINGS: usize = 65_535;

/// Whether it is an item of a set of strings.
fn is_string_item(used: &Use<'_>) -> bool {
    matches!(used, Use::Member(..))
}

/// Whether it is an item of a set of rules.
fn is_rule_item(used: &Use<'_>) -> bool {
    matches!(used, Use::Earlier(..))
}

/// Whether the condition with these uses looks often enough for strings with these names.
fn is_worth(names: &Numbered<'_>, uses: &Uses<'_>) -> bool {
    let used = uses.items();
    names.len() <= MANY_STRINGS
        && used.iter().filter(|used| is_string_item(used)).count() > FEW_ITEMS
}

/// Whether the condition with these uses has a set of rules.
pub fn has_rule_items(uses: &Uses<'_>) -> bool {
    uses.items().iter().any(|used| is_rule_item(used))
}

/// Whether the condition with these uses looks often enough for rules with these names, and they are in no order.
fn is_worth_copying(names: &Numbered<'_>, uses: &Uses<'_>) -> bool {
    let used = uses.items();
    !names.is_sorted() && used.iter().filter(|used| is_rule_item(used)).count() > FEW_ITEMS
}

fn copy_names<'a>(alloc: Global, names: &Numbered<'a>) -> Result<Numbered<'a>, NoMemory>
    ensures { IfOk result (λ all. all ≡ names.now) }
{
    let mut all = Numbered::new(alloc);
    for number in 0..names.len() {
        all.add(names.name(number))?;
    }
    Ok(all)
}

/// The names of rules in order, where they are in none and it is worth the time for the condition with these uses: so for the
/// first condition of a namespace that has sets of rules.
pub fn sorted_rules<'a>(
    alloc: Global,
    names: &Numbered<'a>,
    uses: &Uses<'_>,
) -> Result<Option<Numbered<'a>>, NoMemory>
    ensures { IfOk result (λ o. IfSome o (λ all. all ≡ names.now)) }
{
    if !is_worth_copying(names, uses) {
        return Ok(None);
    }
    let mut all = copy_names(alloc, names)?;
    all.sort()?;
    Ok(Some(all))
}

/// Brings the names of a rule's strings into order, where it is worth the time for the condition with these uses.
pub fn sort_strings(names: &mut Numbered<'_>, uses: &Uses<'_>) -> Result<(), NoMemory>
    ensures { names.new ≡ names.old }
{
    if is_worth(names, uses) {
        names.sort()?;
    }
    Ok(())
}
