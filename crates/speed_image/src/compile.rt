//! The compiler, on rules of one text each and on rules of four modifiers.

mod making;
mod texts;
mod timing;

use texts::Form;
use timing::{say, time};

/// Prints how large the images of few rules are.
pub fn show_all(rt: HostRuntime) -> anyhow::Result<()> {
    say(rt, "rules of one text", Form::OneText, 100)?;
    say(rt, "rules of four modifiers", Form::FourModifiers, 8)
}

/// Prints how long the compiling of many rules takes: of both kinds, or of those of one text, or of
/// four modifiers alone.
pub fn time_all(rt: HostRuntime, chosen: Option<&str>) -> anyhow::Result<()> {
    if is_asked(chosen, "text") {
        time(rt, "rules of one text", Form::OneText, 10_000)?;
    }
    if is_asked(chosen, "modifiers") {
        time(rt, "rules of four modifiers", Form::FourModifiers, 1_000)?;
    }
    Ok(())
}

// Whether no kind of rules is chosen, or this one.
fn is_asked(chosen: Option<&str>, kind: &str) -> bool {
    match chosen {
        Some(word) => word == kind,
        None => true,
    }
}
