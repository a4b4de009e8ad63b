//! Times the whole program, from the words to the report, over files in memory. With no argument it
//! says only what it answers on small ones.
#![tactic(auto)]

mod making;
mod running;
mod timing;

use making::{rules, target};
use running::{files, run};
use std::env;
use timing::time;

/// The command lines that are timed, with how many rules there are and how many bytes the target
/// has.
const CASES: [(&str, usize, usize); 5] = [
    ("scan r.yar t.bin", 1_000, 100_000_000),
    ("scan -C r.img t.bin", 1_000, 100_000_000),
    ("scan r.yar t.bin", 5_000, 0),
    ("scan -C r.img t.bin", 5_000, 0),
    ("scan -C r.img t.bin", 1, 0),
];

fn main(rt: HostRuntime) -> anyhow::Result<()> {
    let timed = env::args(&rt)?.count() > 1;
    for (line, count, size) in CASES {
        show(rt, timed, line, count, size)?;
    }
    Ok(())
}

// What a command line answers on small files, or how long it takes on large ones.
fn show(rt: HostRuntime, timed: bool, line: &str, count: usize, size: usize) -> anyhow::Result<()> {
    let alloc = rt.alloc();
    let (count, size) = if timed {
        (count, size)
    } else {
        (2, size / 100_000)
    };
    let rules = rules(alloc, count)?;
    let target = target(alloc, size)?;
    let mut store = files(alloc, &rules, &target)?;
    if timed {
        return time(rt, line, count, size, &mut store);
    }
    let (status, written) = run(alloc, line, &mut store)?;
    println!(rt; "{line}: status {status}, {written} bytes")?;
    Ok(())
}
