//! Which rules are reported, and how many.

ghost use Rattle.std.specs.Prelude.{◌≡◌, ◌+◌, ◌<◌, ◌≤◌, ◌^◌, Bool, cond, not, length};
ghost use Rattle.std.specs.List.{list_any};
ghost use Rattle.yr_answer.specs.Reported.{shuts, is_reported, reported_of};
ghost use Rattle.yr_values.specs.Comparisons.{flag_eq};
ghost use Rattle.yr_answer.specs.Truths.{is_yes, truths_shown};
ghost use Rattle.yr_image.specs.Image.{namespace_of};
ghost use Rattle.yr_image.specs.Views.{image_of};
ghost use Rattle.yr_machine.specs.Listing.{listed_rule, listed_rules};
ghost use Rattle.yr_report.specs.Scenes.{judged_of, AreShut, IsGoodScene};

use crate::gate::{has_flag, is_shut, is_yes};
use crate::scene::Scene;
use crate::text::namespace;
use yr_base::Truth;
use yr_image::RuleRow;

fn is_asked(truth: bool, negate: bool) -> bool
    ensures { result ≡ flag_eq truth (not negate) }
{
    if truth { !negate } else { negate }
}

// Whether a false global rule shuts the rule's namespace.
fn is_rule_shut(scene: &Scene<'_, '_>, names: &[&[u8]], rule: &RuleRow) -> bool
    requires shut { AreShut scene.now names.now }
    ensures { result ≡ list_any (shuts (namespace_of (image_of scene.now.view) rule.now)) (judged_of scene.now) }
{
    is_shut(names, namespace(&scene.view, rule))
}

/// Whether a rule with this truth is reported, where these namespaces are shut.
pub fn is_reported(scene: &Scene<'_, '_>, names: &[&[u8]], rule: &RuleRow, truth: Truth) -> bool
    requires shut { AreShut scene.now names.now }
    ensures { result ≡ is_reported scene.now.options.negate (judged_of scene.now) (listed_rule (image_of scene.now.view) rule.now, is_yes truth) }
{
    is_asked(is_yes(truth), scene.options.negate)
        && !has_flag(u32::from(rule.flags), 2)
        && !is_rule_shut(scene, names, rule)
}

// One more where it is so.
fn plus(count: u64, more: bool) -> u64
    requires { count + 1 < 2 ^ 64 }
    ensures value { result ≡ cond more 1 0 + count }
    ensures within { result ≤ count + 1 }
{
    if more { count + 1 } else { count }
}

/// How many rules are reported.
pub fn count_reported(scene: &Scene<'_, '_>, names: &[&[u8]]) -> u64
    requires good { IsGoodScene scene.now }
    requires shut { AreShut scene.now names.now }
    ensures { result ≡ length (reported_of scene.now.options.negate (listed_rules (image_of scene.now.view)) (truths_shown scene.now.results.now)) }
{
    let mut count = 0;
    for k in 0..scene.results.len() {
        let rule = scene.view.rule(k as u32);
        let reported = is_reported(scene, names, &rule, scene.results[k]);
        count = plus(count, reported);
    }
    count
}
