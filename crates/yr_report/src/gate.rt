//! Namespaces that a false global rule shuts.

ghost use Rattle.std.specs.Prelude.{◌≡◌, ◌<◌, ◌≤◌, ◌+◌, ◌/◌, ◌%◌, ◌&&◌, ◌||◌, ℕ, Bool, false, not, List, length, take};
ghost use Rattle.std.specs.List.{list_any};
ghost use Rattle.std.specs.Str.{bytes_eq};
ghost use Rattle.yr_answer.specs.Reported.{shuts};
ghost use Rattle.yr_answer.specs.Truths.{is_yes};
ghost use Rattle.yr_image.specs.Views.{image_of};
ghost use Rattle.yr_machine.specs.Listing.{has_flag};
ghost use Rattle.yr_report.specs.Scenes.{judged_of, is_text, AreSorted, AreShut, IsGoodScene};

use crate::scene::Scene;
use crate::text::namespace;
use yr_base::Truth;
use yr_image::RuleRow;

/// Whether a flag is set among others.
pub fn has_flag(flags: u32, flag: u32) -> bool
    requires { 0 < flag }
    ensures { result ≡ has_flag flag flags }
{
    flags / flag % 2 == 1
}

/// Whether the truth is Yes.
pub fn is_yes(truth: Truth) -> bool
    ensures { result ≡ is_yes truth }
{
    match truth {
        Truth::No => false,
        Truth::Yes => true,
    }
}

fn is_false_global(rule: &RuleRow, truth: Truth) -> bool
    ensures { result ≡ has_flag 1 rule.now.flags && not (is_yes truth) }
{
    has_flag(u32::from(rule.flags), 1) && !is_yes(truth)
}

/// Whether some global rule is false.
pub fn some_false_global(scene: &Scene<'_, '_>) -> bool
    requires good { IsGoodScene scene.now }
    ensures { (name : List ℕ) → result ≡ false → list_any (shuts name) (judged_of scene.now) ≡ false }
{
    for k in 0..scene.results.len() {
        let rule = scene.view.rule(k as u32);
        if is_false_global(&rule, scene.results[k]) {
            return true;
        }
    }
    false
}

// Adds a name to the first of them, where it is so.
fn add_name<'a>(names: &mut [&'a [u8]; 65_536], count: usize, name: &'a [u8], more: bool) -> usize
    requires { count < 65536 }
    ensures within { result ≤ count + 1 }
    ensures len { length names.new ≡ 65536 }
    ensures same { (asked : List ℕ) → list_any (is_text asked) (take result names.new) ≡
        (list_any (is_text asked) (take count names.old) || (more && bytes_eq name.now asked)) }
{
    if more {
        names[count] = name;
        return count + 1;
    }
    count
}

// Gathers the namespaces of the false global rules, and returns how many there are.
fn gather<'a>(scene: &Scene<'a, '_>, names: &mut [&'a [u8]; 65_536]) -> usize
    requires good { IsGoodScene scene.now }
    ensures within { result ≤ 65536 }
    ensures len { length names.new ≡ 65536 }
    ensures same { (name : List ℕ) → list_any (shuts name) (judged_of scene.now) ≡ list_any (is_text name) (take result names.new) }
{
    let mut count = 0;
    for k in 0..scene.results.len() {
        let rule = scene.view.rule(k as u32);
        let more = is_false_global(&rule, scene.results[k]);
        count = add_name(names, count, namespace(&scene.view, &rule), more);
    }
    count
}

// Puts names in their order.
fn sort(names: &mut [&[u8]])
    ensures sorted { AreSorted names.new }
    ensures len { length names.new ≡ length names.old }
    ensures same { (name : List ℕ) → list_any (is_text name) names.new ≡ list_any (is_text name) names.old }
{
    names.sort_unstable();
}

/// Gathers the namespaces of the false global rules in their order, and returns how many there are.
pub fn shut_namespaces<'a>(scene: &Scene<'a, '_>, names: &mut [&'a [u8]; 65_536]) -> usize
    requires good { IsGoodScene scene.now }
    ensures within { result ≤ length names.new }
    ensures shut { AreShut scene.now (take result names.new) }
{
    let count = gather(scene, names);
    sort(&mut names[..count]);
    count
}

/// Whether a namespace is one of these.
pub fn is_shut(names: &[&[u8]], name: &[u8]) -> bool
    requires sorted { AreSorted names.now }
    ensures { result ≡ list_any (is_text name.now) names.now }
{
    names.binary_search(&name).is_ok()
}
