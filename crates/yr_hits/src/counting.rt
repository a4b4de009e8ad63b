//! Hits in order.

ghost use Rattle.std.specs.Prelude.{◌≡◌, ◌+◌, ◌-◌, ◌<◌, ◌≤◌, ◌^◌, length};
ghost use Rattle.std.specs.List.Sorted.{IsNonDecreasing};
ghost use Rattle.yr_hits.specs.Spans.{IsGoodHit};
ghost use Rattle.yr_hits.specs.Sweeps.{IsCountBelow, hit_after};

use crate::Hit;

/// The hit of the same split after so many bytes.
pub fn moved<'a>(hit: &Hit<'a>, at: u32) -> Hit<'a>
    ensures { result ≡ hit_after hit.now at }
{
    Hit {
        at: at as usize,
        ..*hit
    }
}

/// The length of the atom.
pub fn atom_of(hit: &Hit<'_>) -> u32
    ensures { result ≡ hit.now.row.atom_length }
{
    u32::from(hit.row.atom_length)
}

/// The end of an atom that begins one place down.
pub fn end_of_atom(hit: &Hit<'_>, place: u32) -> u32
    requires some { 0 < place }
    requires small { place + hit.now.row.atom_length ≤ 2 ^ 28 + 1 }
    ensures { result + 1 ≡ place + hit.now.row.atom_length }
{
    place - 1 + atom_of(hit)
}

/// The place above the last at which an atom may begin.
pub fn top_of(hit: &Hit<'_>) -> u32
    requires good { IsGoodHit hit.now }
    ensures { result ≡ length hit.now.file.now + 1 - hit.now.row.atom_length }
{
    hit.file.len() as u32 + 1 - atom_of(hit)
}

/// How many of the hits lie below a place, where `count` lie below the next.
pub fn count_below(hits: &[u32], count: usize, place: u32) -> usize
    requires ascending { IsNonDecreasing hits.now }
    requires below { IsCountBelow hits.now (place + 1) count }
    ensures below { IsCountBelow hits.now place result }
    ensures falls { result ≤ count }
{
    let mut left = count;
    'down: while left > 0 && hits[left - 1] == place {
        left -= 1;
    }
    left
}
