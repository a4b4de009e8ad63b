//! Calls that fail.

ghost use Rattle.std.specs.Prelude.{◌≡◌, ◌≤◌, None};
ghost use Rattle.yr_base.specs.Causes.{one_more};

/// How often a call is made that is interrupted each time.
pub const MOST_TRIES: u32 = 1_000;

/// One fault more, and no bytes.
pub fn refuse(faults: &mut u64) -> Option<usize>
    ensures none { result ≡ None }
    ensures later { faults.old ≤ faults.new }
    ensures counted { faults.new ≡ one_more faults.old }
{
    *faults = faults.saturating_add(1);
    None
}
