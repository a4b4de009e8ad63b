//! A command line, timed.

use crate::running::run;
use std::time::CpuClock;
use yr_base::MemoryStore;

/// How often each command line runs; the fastest run counts.
const RUNS: usize = 3;

/// Prints how long a command line takes.
pub fn time(
    rt: HostRuntime,
    line: &str,
    count: usize,
    size: usize,
    store: &mut MemoryStore,
) -> anyhow::Result<()> {
    let mut least = f64::MAX;
    let mut last = (0, 0);
    for _ in 0..RUNS {
        let start = rt.thread_cpu_time()?.as_secs_f64();
        last = run(rt.alloc(), line, store)?;
        least = least.min(rt.thread_cpu_time()?.as_secs_f64() - start);
    }
    let (status, written) = last;
    let megabytes = std::num::nearest_usize_to_f64(size) / 1e6;
    let (thousandths, speed) = (least * 1e3, megabytes / least);
    println!(rt;
        "{line}: {count} rules, {megabytes:.1} MB: {thousandths:.2} ms, {speed:.0} MB/s (status {status}, {written} bytes)"
    )?;
    Ok(())
}
