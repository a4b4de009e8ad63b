//! The least processor time of several runs.

use std::time::CpuClock;

/// How often each piece of work is done; the fastest run counts.
pub const RUNS: usize = 5;

/// Takes the time of runs, one after another.
#[derive(Clone, Copy)]
pub struct Stopwatch {
    since: f64,
    /// Seconds of this thread's processor time that the fastest run took.
    pub least: f64,
}

impl Stopwatch {
    /// Before the first run.
    pub fn new() -> Stopwatch {
        Stopwatch {
            since: 0.0,
            least: f64::MAX,
        }
    }

    /// Begins a run.
    pub fn start(&mut self, rt: HostRuntime) -> anyhow::Result<()> {
        self.since = rt.thread_cpu_time()?.as_secs_f64();
        Ok(())
    }

    /// Ends a run.
    pub fn stop(&mut self, rt: HostRuntime) -> anyhow::Result<()> {
        let taken = rt.thread_cpu_time()?.as_secs_f64() - self.since;
        self.least = self.least.min(taken);
        Ok(())
    }

    /// Millions a second, where so many things take as long as the fastest run; of bytes these are
    /// megabytes.
    pub fn millions(&self, count: usize) -> f64 {
        std::num::nearest_usize_to_f64(count) / self.least / 1e6
    }
}
