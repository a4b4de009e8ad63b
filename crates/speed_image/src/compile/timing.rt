//! Rules, compiled and timed.

ghost use Rattle.yr_rules.specs.Rules.{rules_of};
ghost use Rattle.yr_preserves.specs.RuleIds.{HaveIds};

use crate::compile::making::make;
use crate::compile::texts::Form;
use crate::stopwatch::{RUNS, Stopwatch};
use anyhow::bail;
use std::alloc::Global;
use yr_base::NoMemory;
use yr_compiler::compile;
use yr_image::encode;
use yr_rules::CheckedRules;

// The bytes of the image, if there is memory.
fn image_of(alloc: Global, rules: &CheckedRules) -> Result<Vec<u8>, NoMemory>
    requires { HaveIds (rules_of rules.now) }
{
    let tables = compile(alloc, rules)?;
    encode(alloc, &tables)
}

/// Says how large the image of so many rules is.
pub fn say(rt: HostRuntime, name: &str, form: Form, count: u32) -> anyhow::Result<()> {
    let Ok(rules) = make(rt.alloc(), form, count) else {
        bail!("no memory");
    };
    let Ok(image) = image_of(rt.alloc(), &rules) else {
        bail!("no memory");
    };
    let length = image.len();
    println!(rt; "{count} {name}: {length} bytes")?;
    Ok(())
}

/// Says how large the image of so many rules is, and how long it takes to make it.
pub fn time(rt: HostRuntime, name: &str, form: Form, count: u32) -> anyhow::Result<()> {
    let Ok(rules) = make(rt.alloc(), form, count) else {
        bail!("no memory");
    };
    let mut watch = Stopwatch::new();
    let mut length = 0;
    for _ in 0..RUNS {
        watch.start(rt)?;
        let Ok(image) = image_of(rt.alloc(), &rules) else {
            bail!("no memory");
        };
        watch.stop(rt)?;
        length = image.len();
    }
    let seconds = watch.least;
    println!(rt; "{count} {name}: {length} bytes in {seconds:.3} s")?;
    Ok(())
}
