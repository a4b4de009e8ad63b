//! The checked condition of a rule, made only as far as the rule may be light: a set takes four bytes for each member, and a condition of a few bytes for each set
//! may have sets of all strings.

ghost use Rattle.std.specs.Prelude.{◌≡◌, ◌≤◌, [], IfOk, MatchOption, None, Some, true};
ghost use Rattle.std.specs.Option.{option_map};
ghost use Rattle.yr_conditions.specs.Fixed.{the_readers};
ghost use Rattle.yr_conditions.specs.Room.{IsRoomy};
ghost use Rattle.yr_conditions.specs.Shapes.{shape_of};
ghost use Rattle.yr_rules.specs.NodeTree.{tree_of as node_tree};
ghost use Rattle.yr_name_tables.specs.Names.{first};
ghost use Rattle.yr_syntax.specs.Forms.{RuleHasForms};
ghost use Rattle.yr_conditions.specs.Around.{around_of};
ghost use Rattle.yr_checks.specs.Given.{around as round, rule_node};
ghost use Rattle.yr_checks.specs.Refusals.{checks};
ghost use Rattle.yr_checking.specs.AtHand.{given_at, placed_at};
ghost use Rattle.yr_checking.specs.Judged.{IsTooHeavy};
ghost use Rattle.yr_checking.specs.Sets.{is_at_once, is_few, is_made};
ghost use Rattle.yr_checking.specs.Stages.{late_fault};

use crate::at_hand::AtHand;
use std::alloc::Global;
use yr_base::NoMemory;
use yr_conditions::{Around, Use, Uses, condition_node, sets_weight};
use yr_rules::Node;

/// The heaviest that rules may be.
pub const WEIGHT_LIMIT: u64 = 33_554_432;

/// Where sets may have more members than this, they are counted before they are made.
const MANY_MEMBERS: usize = 4_000_000;

/// When the sets of a condition are made.
#[derive(Clone, Copy)]
pub enum Sets {
    /// With the condition.
    AtOnce,
    /// Where no other check fails, and the sets are light enough.
    Counted,
    /// Never: there are too many strings, or the externals are too heavy.
    Never,
}

/// Whether strings and externals are few enough to be numbered.
fn few(around: &Around<'_, '_>) -> bool
    requires { around.now.first_string ≤ 65535 }
    ensures { result ≡ is_few (around_of around.now) }
{
    around.strings.len() <= 65535 - around.first_string as usize
        && around.externals.len() <= 1_048_576
}

/// Whether it is an item of a set, or all strings.
fn is_set_item(used: &Use<'_>) -> bool {
    matches!(used, Use::Member(..) | Use::Everything | Use::Earlier(..))
}

/// Whether sets may have many members. The answer decides only when the sets are made, so that nothing is promised of it.
fn may_be_many(around: &Around<'_, '_>, uses: &Uses<'_>) -> bool {
    let items = uses.items().iter().filter(|used| is_set_item(used)).count();
    let members = around.strings.len().max(around.rules.len());
    items.saturating_mul(members) > MANY_MEMBERS
}

/// When the sets of the condition with these uses are made.
pub fn when_made(around: &Around<'_, '_>, uses: &Uses<'_>) -> Sets
    requires { around.now.first_string ≤ 65535 }
    ensures { is_made result ≡ is_few (around_of around.now) }
{
    if !few(around) {
        return Sets::Never;
    }
    if may_be_many(around, uses) {
        Sets::Counted
    } else {
        Sets::AtOnce
    }
}

fn at_once(sets: Sets) -> bool
    ensures { result ≡ is_at_once sets }
{
    matches!(sets, Sets::AtOnce)
}

/// What is made of the condition at first: without its sets where they aren't made at once.
pub fn first_node(
    alloc: Global,
    at: &AtHand<'_, '_>,
    around: &Around<'_, '_>,
    sets: Sets,
) -> Result<Option<Node>, NoMemory>
    requires forms { RuleHasForms (placed_at at.now).rule }
    requires around { around_of around.now ≡ round (given_at at.now) (placed_at at.now) }
    requires sets { is_made sets ≡ is_few (around_of around.now) }
    ensures { IfOk result (λ o. option_map node_tree o ≡ shape_of (is_at_once sets) the_readers (round (given_at at.now) (placed_at at.now)) (placed_at at.now).rule.condition []) }
{
    condition_node(alloc, at_once(sets), around, &at.rule.condition)
}

/// The checked condition where its sets are light enough.
fn counted_node(
    alloc: Global,
    at: &AtHand<'_, '_>,
    around: &Around<'_, '_>,
) -> Result<Option<Node>, NoMemory>
    requires forms { RuleHasForms (placed_at at.now).rule }
    requires around { around_of around.now ≡ round (given_at at.now) (placed_at at.now) }
    requires room { IsRoomy true around.now }
    requires passed { first (late_fault (given_at at.now) (placed_at at.now)) checks ≡ None }
    ensures { IfOk result (λ o. MatchOption o (IsTooHeavy (given_at at.now) (placed_at at.now)) (λ n. rule_node (given_at at.now) (placed_at at.now) ≡ Some (node_tree n))) }
{
    let weight = sets_weight(alloc, around, &at.rule.condition, WEIGHT_LIMIT + 1)?;
    if weight > WEIGHT_LIMIT {
        return Ok(None);
    }
    condition_node(alloc, true, around, &at.rule.condition)
}

/// The checked condition of a rule at which no check but the weight can fail, or none where the rule is seen to be too heavy before its sets are made. `node` is what
/// was made of the condition at first.
pub fn light_node(
    alloc: Global,
    at: &AtHand<'_, '_>,
    around: &Around<'_, '_>,
    sets: Sets,
    node: Option<Node>,
) -> Result<Option<Node>, NoMemory>
    requires forms { RuleHasForms (placed_at at.now).rule }
    requires around { around_of around.now ≡ round (given_at at.now) (placed_at at.now) }
    requires sets { is_made sets ≡ is_few (around_of around.now) }
    requires node { option_map node_tree node ≡ shape_of (is_at_once sets) the_readers (round (given_at at.now) (placed_at at.now)) (placed_at at.now).rule.condition [] }
    requires passed { first (late_fault (given_at at.now) (placed_at at.now)) checks ≡ None }
    ensures { IfOk result (λ o. MatchOption o (IsTooHeavy (given_at at.now) (placed_at at.now)) (λ n. rule_node (given_at at.now) (placed_at at.now) ≡ Some (node_tree n))) }
{
    match sets {
        Sets::AtOnce => Ok(node),
        Sets::Counted => {
            drop(node);
            counted_node(alloc, at, around)
        }
        Sets::Never => {
            drop(node);
            Ok(None)
        }
    }
}
