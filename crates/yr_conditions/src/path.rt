//! What paths lead to.

ghost use Rattle.std.specs.Prelude.{◌≡◌, map};
ghost use Rattle.yr_syntax.specs.Condition.{tree_of, items_of, step_of, steps_of, domain_of};
ghost use Rattle.yr_conditions.specs.Around.{around_of};
ghost use Rattle.yr_conditions.specs.Meanings as spec;
ghost use Rattle.yr_conditions.specs.Paths.{start_meaning, step_meaning};
ghost use Rattle.yr_conditions.specs.UseViews.{scope_of, shown};

use crate::around::Around;
use crate::meaning::{Meaning, then_call, then_index, then_name};
use crate::scopes::{Scope, Scopes};
use crate::word::word_meaning;
use yr_syntax::{Cond, Over, PathStep};

/// How many arguments there are, or items of a list.
pub fn count(conditions: &[Cond]) -> usize
    ensures { result ≡ spec.count_of (items_of (map tree_of conditions.now)) }
{
    conditions.len()
}

/// What a path leads to with one more part behind it.
pub fn then_step<'a>(before: Meaning<'a>, step: &PathStep) -> Meaning<'a>
    ensures { shown result ≡ step_meaning (step_of step.now) (shown before.entry) }
{
    match step {
        PathStep::Name(word) => then_name(before, word),
        PathStep::Index(_) => then_index(before),
        PathStep::Call(arguments) => then_call(before, count(arguments)),
    }
}

/// What a path leads to from here.
fn steps_meaning<'a>(steps: &[PathStep], start: Meaning<'a>) -> Meaning<'a>
    ensures { shown result ≡ spec.steps_meaning (steps_of (map step_of steps.now)) (shown start.entry) }
{
    let mut meaning = start;
    for step in steps {
        meaning = then_step(meaning, step);
    }
    meaning
}

/// What the first part of a path leads to: it is a word.
fn head_meaning<'a>(around: &Around<'_, 'a>, head: &PathStep, scopes: &Scopes<'a>) -> Meaning<'a>
    ensures { shown result ≡ start_meaning (around_of around.now) (step_of head.now) scopes.now }
{
    match head {
        PathStep::Name(word) => word_meaning(around, word, scopes),
        _ => Meaning::Wrong,
    }
}

/// What a path leads to.
pub fn path_meaning<'a>(
    around: &Around<'_, 'a>,
    steps: &[PathStep],
    scopes: &Scopes<'a>,
) -> Meaning<'a>
    ensures { shown result ≡ spec.path_meaning (around_of around.now) (steps_of (map step_of steps.now)) scopes.now }
{
    match steps {
        [] => Meaning::Wrong,
        [head, rest @ ..] => steps_meaning(rest, head_meaning(around, head, scopes)),
    }
}

/// The loop that a variable goes through.
pub fn opened<'a>(
    around: &Around<'_, 'a>,
    variable: &'a [u8],
    over: &Over,
    scopes: &Scopes<'a>,
) -> Scope<'a>
    ensures { scope_of result ≡ spec.opened (around_of around.now) variable.now (domain_of over.now) scopes.now }
{
    match over {
        Over::Path(steps) => match path_meaning(around, steps, scopes) {
            Meaning::Array { module, path, .. } => Scope::Entries(variable, module, path),
            _ => Scope::Numbers(variable),
        },
        _ => Scope::Numbers(variable),
    }
}
