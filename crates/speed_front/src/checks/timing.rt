//! The checks on a text, timed.

use crate::checks::checking::{checked, declarations};
use crate::stopwatch::{RUNS, Stopwatch};

/// Prints how long the checks on a text take, and how many MB of it a second.
pub fn time_checks(rt: HostRuntime, name: &str, count: usize, text: &[u8]) -> anyhow::Result<()> {
    let mut watch = Stopwatch::new();
    for _ in 0..RUNS {
        let unit = declarations(rt.alloc(), text)?;
        watch.start(rt)?;
        let _rules = checked(rt.alloc(), unit)?;
        watch.stop(rt)?;
    }
    let bytes = text.len();
    let (seconds, rate) = (watch.least, watch.millions(bytes));
    println!(rt;
        "{name}: {count} in {bytes} bytes, {seconds:.3} s of processor time, {rate:.1} MB/s"
    )?;
    Ok(())
}
