//! Classes of bytes, as `[^a-f\d_]`.

ghost use Rattle.std.specs.Prelude.{◌≡◌, true, length, None};
ghost use Rattle.yr_pattern.specs.Set.{bytes_of, only};
ghost use Rattle.yr_regex.specs.Classes as classes;
ghost use Rattle.yr_regex.specs.Expressions as raw;
ghost use Rattle.yr_regex.specs.Parts.{bytes_read};
ghost use Rattle.yr_regex.specs.Reading as spec;
ghost use Rattle.yr_regex.specs.Reading.{Finds};

use crate::cursor::Cursor;
use crate::escape::{between, read_escaped, read_set};
use yr_pattern::ByteSet;

/// Bytes, and how many bytes of the text are left at the first bad range among them.
#[derive(Clone, Copy)]
pub struct Bytes {
    pub set: ByteSet,
    pub bad: Option<usize>,
}

/// The place that stands first: the one with more bytes left.
pub fn first_of(a: Option<usize>, b: Option<usize>) -> Option<usize>
    ensures { result ≡ spec.first_of a b }
{
    match (a, b) {
        (None, b) => b,
        (Some(a), None) => Some(a),
        (Some(a), Some(b)) => Some(a.max(b)),
    }
}

impl Bytes {
    fn of(set: ByteSet) -> Bytes
        ensures set { bytes_of result.set ≡ bytes_of set }
        ensures good { result.bad ≡ None }
    {
        Bytes { set, bad: None }
    }

    fn range(left: usize, from: u8, to: u8) -> Bytes
        ensures { bytes_read result ≡ spec.member_read (raw.Range left from to) }
    {
        Bytes {
            set: between(from, to),
            bad: if from <= to { None } else { Some(left) },
        }
    }

    /// The bytes of both.
    fn and(&self, other: &Bytes) -> Bytes
        ensures { bytes_read result ≡ spec.all_bytes (bytes_read self.now) (bytes_read other.now) }
    {
        Bytes {
            set: self.set.union(&other.set),
            bad: first_of(self.bad, other.bad),
        }
    }
}

#[tactic(auto, unfolding(crate::specs::Reading::read_single))]
fn read_single(text: &mut Cursor<'_>, first: bool) -> Option<u8>
    ensures { Finds (λ x. x) (spec.read_single first text.old) result text.new }
{
    let [b, rest @ ..] = text.rest() else {
        return None;
    };
    text.set(rest);
    if *b == b'\\' {
        return read_escaped(text);
    }
    if *b == b']' && !first {
        return None;
    }
    Some(*b)
}

/// Whether a `-` and something other than a `]` follow.
fn goes_on(rest: &[u8]) -> bool
    ensures { result ≡ classes.goes_on rest.now }
{
    match rest {
        [b, c, ..] => *b == b'-' && *c != b']',
        _ => false,
    }
}

/// After a byte at which so many bytes were left.
#[tactic(auto, unfolding(crate::specs::Reading::range_at))]
fn range(text: &mut Cursor<'_>, left: usize, from: u8) -> Option<Bytes>
    ensures { Finds bytes_read (spec.range_at left from text.old) result text.new }
{
    if goes_on(text.rest()) {
        text.skip();
        let to = read_single(text, false)?;
        return Some(Bytes::range(left, from, to));
    }
    Some(Bytes::of(ByteSet::one(from)))
}

#[tactic(auto, unfolding(crate::specs::Reading::bytes_at))]
fn byte_or_range(text: &mut Cursor<'_>, first: bool) -> Option<Bytes>
    ensures { Finds bytes_read (spec.bytes_at first text.old) result text.new }
{
    let left = text.left();
    let from = read_single(text, first)?;
    range(text, left, from)
}

#[tactic(auto, unfolding(crate::specs::Reading::member_at))]
fn member(text: &mut Cursor<'_>, first: bool) -> Option<Bytes>
    ensures { Finds bytes_read (spec.member_at first text.old) result text.new }
{
    let mut ahead = Cursor::new(text.rest());
    if let Some(set) = read_set(&mut ahead) {
        text.set(ahead.rest());
        return Some(Bytes::of(set));
    }
    byte_or_range(text, first)
}

/// The members, and the `]` behind them.
#[tactic(auto, unfolding(crate::specs::Reading::members_at))]
pub fn members(text: &mut Cursor<'_>) -> Option<Bytes>
    ensures { Finds bytes_read (spec.members_at (length text.old) true spec.no_bytes text.old) result text.new }
{
    let mut all = Bytes::of(ByteSet::none());
    let mut first = true;
    for _turn in 0..text.left() {
        let more = member(text, first)?;
        all = all.and(&more);
        first = false;
        if text.eat(b']') {
            return Some(all);
        }
    }
    None
}
