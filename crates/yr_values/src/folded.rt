//! The search for a part of a text in either case: Two-Way (Crochemore and Perrin), after the crate `memchr`, over
//! letters as the small ones. Its time is linear in text and part, and it takes no memory.

ghost use Rattle.std.specs.Prelude.{◌≡◌, ◌≢◌, ◌↔◌, ℕ, ◌+◌, ◌<◌, ◌≤◌, length, IsTrue};
ghost use Rattle.std.specs.declared.cmp.Ordering.{Ordering};
ghost use Rattle.memchr.specs.Find.{IsFirst};
ghost use Rattle.memchr.specs.Critical.{IsSuffixAt, IsCutPlace};
ghost use Rattle.yr_values.specs.Texts.{has_inside, in_either_case};
ghost use Rattle.yr_values.specs.Folded.{folded_at, StandsFolded, Comes, IsCutOf};

use std::cmp::Ordering;

/// Whether a part stands in a text in either case.
pub(crate) fn has_inside_in_either_case(text: &[u8], part: &[u8]) -> bool
    ensures { result ≡ in_either_case has_inside text.now part.now }
{
    if part.is_empty() {
        return true;
    }
    find(text, part, cut_of(part)).is_some()
}

// The byte at a place, a letter as the small one.
fn folded(bytes: &[u8], at: usize) -> u8
    requires { at < length bytes.now }
    ensures { result ≡ folded_at bytes.now at }
{
    bytes[at].to_ascii_lowercase()
}

// By which order a suffix is the greatest.
#[derive(Clone, Copy, Debug)]
pub(crate) enum SuffixOrder {
    Minimal,
    Maximal,
}

// How two bytes stand in an order.
fn compared(order: SuffixOrder, a: u8, b: u8) -> Ordering
    ensures less { (result ≡ Ordering.Less) → Comes order a b }
    ensures greater { (result ≡ Ordering.Greater) → Comes order b a }
    ensures equal { (result ≡ Ordering.Equal) → a ≡ b }
{
    match order {
        SuffixOrder::Minimal => b.cmp(&a),
        SuffixOrder::Maximal => a.cmp(&b),
    }
}

#[derive(Clone, Copy, Debug)]
struct Suffix {
    at: usize,
    period: usize,
}

// The greatest suffix by an order, and its period.
fn greatest_suffix(part: &[u8], order: SuffixOrder) -> Suffix
    requires { 0 < length part.now }
    ensures { IsSuffixAt (Comes order) (folded_at part.now) (length part.now) result.at result.period }
{
    let (mut at, mut period) = (0, 1);
    let (mut candidate, mut offset) = (1, 0);
    while candidate + offset < part.len() {
        let current = folded(part, at + offset);
        let other = folded(part, candidate + offset);
        match compared(order, current, other) {
            Ordering::Less => {
                at = candidate;
                period = 1;
                candidate += 1;
                offset = 0;
            }
            Ordering::Greater => {
                candidate += offset + 1;
                offset = 0;
                period = candidate - at;
            }
            Ordering::Equal => {
                if offset + 1 == period {
                    candidate += period;
                    offset = 0;
                } else {
                    offset += 1;
                }
            }
        }
    }
    Suffix { at, period }
}

// Whether the bytes before the cut repeat a period on.
fn repeats_before(part: &[u8], critical: usize, period: usize) -> bool
    requires { critical + period ≤ length part.now }
    ensures { IsTrue result ↔ ((k : ℕ) → k < critical →
        folded_at part.now k ≡ folded_at part.now (k + period)) }
{
    for k in 0..critical {
        if folded(part, k) != folded(part, k + period) {
            return false;
        }
    }
    true
}

// Where a part is cut, how far a mismatch before the cut moves the search, and how many bytes are known after that.
#[derive(Clone, Copy, Debug)]
struct Cut {
    critical: usize,
    shift: usize,
    kept: usize,
}

// A part is cut at the later of its greatest suffixes by the two orders.
fn cut_of(part: &[u8]) -> Cut
    requires { 0 < length part.now }
    ensures { IsCutOf (folded_at part.now) (length part.now) result.critical result.shift result.kept }
{
    let least = greatest_suffix(part, SuffixOrder::Minimal);
    let most = greatest_suffix(part, SuffixOrder::Maximal);
    if least.at > most.at {
        cut_at(part, least.at, least.period)
    } else {
        cut_at(part, most.at, most.period)
    }
}

fn cut_at(part: &[u8], critical: usize, period: usize) -> Cut
    requires { IsCutPlace (folded_at part.now) (length part.now) critical period }
    ensures { IsCutOf (folded_at part.now) (length part.now) result.critical result.shift result.kept }
{
    let m = part.len();
    let shift = critical.max(m - critical);
    if critical * 2 >= m {
        return Cut {
            critical,
            shift,
            kept: 0,
        };
    }
    if !repeats_before(part, critical, period) {
        return Cut {
            critical,
            shift,
            kept: 0,
        };
    }
    Cut {
        critical,
        shift: period,
        kept: m - period,
    }
}

// The end of the bytes of the part, from `start` on, that stand at a place.
fn matched_to(text: &[u8], part: &[u8], at: usize, start: usize) -> usize
    requires fits { at + length part.now ≤ length text.now }
    requires from { start ≤ length part.now }
    ensures low { start ≤ result }
    ensures high { result ≤ length part.now }
    ensures same { (k : ℕ) → start ≤ k → k < result → folded_at part.now k ≡ folded_at text.now (at + k) }
    ensures differs { result < length part.now → folded_at part.now result ≢ folded_at text.now (at + result) }
{
    let m = part.len();
    let mut i = start;
    while i < m && folded(part, i) == folded(text, at + i) {
        i += 1;
    }
    i
}

// Whether the bytes of the part from `low` up to `high` stand at a place.
fn matches_between(text: &[u8], part: &[u8], at: usize, low: usize, high: usize) -> bool
    requires fits { at + length part.now ≤ length text.now }
    requires top { high ≤ length part.now }
    ensures { IsTrue result ↔ ((k : ℕ) → low ≤ k → k < high →
        folded_at part.now k ≡ folded_at text.now (at + k)) }
{
    let mut j = high;
    while low < j {
        j -= 1;
        if folded(part, j) != folded(text, at + j) {
            return false;
        }
    }
    true
}

// The first place at which the part stands.
fn find(text: &[u8], part: &[u8], cut: Cut) -> Option<usize>
    requires some { 0 < length part.now }
    requires cut { IsCutOf (folded_at part.now) (length part.now) cut.critical cut.shift cut.kept }
    ensures { IsFirst (StandsFolded text.now part.now) 0 (length text.now + 1) result }
{
    let m = part.len();
    let (mut at, mut known) = (0, 0);
    while at + m <= text.len() {
        let matched = matched_to(text, part, at, cut.critical.max(known));
        if matched < m {
            at += matched - cut.critical + 1;
            known = 0;
            continue;
        }
        if matches_between(text, part, at, known, cut.critical) {
            return Some(at);
        }
        at += cut.shift;
        known = cut.kept;
    }
    None
}
