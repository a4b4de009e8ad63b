//! Lists of matches in the order of their offsets, with the best length at each.

ghost use Rattle.std.specs.Prelude.{◌≡◌, true, false, IsTrue};
ghost use Rattle.std.specs.List.{dedup};
ghost use Rattle.std.specs.List.Sorted.{IsPermutation, IsNonDecreasingBy};
ghost use Rattle.yr_answer.specs.MatchList.{RisesFrom};
ghost use Rattle.yr_hits.specs.Gathering.{IsSettled, AreShort, has_same_offset, order_of};

/// How far one offset is from the next in the order of matches.
const NEXT_OFFSET: u64 = 0x1_0000_0000;

// Whether each offset is above the one before.
fn rises(list: &[(u32, u32)]) -> bool
    ensures { IsTrue result → RisesFrom 0 list.now }
{
    let mut least = 0u64;
    for m in list {
        if u64::from(m.0) < least {
            return false;
        }
        least = u64::from(m.0) + 1;
    }
    true
}

// Where a match stands if the shortest comes first of those at one offset.
fn shortest_first(m: (u32, u32)) -> u64
    ensures { result ≡ order_of false m }
{
    u64::from(m.0) * NEXT_OFFSET + u64::from(m.1)
}

// Where it stands if the longest comes first.
fn longest_first(m: (u32, u32)) -> u64
    ensures { result ≡ order_of true m }
{
    u64::from(m.0) * NEXT_OFFSET + u64::from(u32::MAX - m.1)
}

// Sorts the matches, the best first of those at one offset.
fn sort(list: &mut Vec<(u32, u32)>, greatest: bool)
    ensures permutation { IsPermutation list.old.items list.new.items }
    ensures sorted { IsNonDecreasingBy (order_of greatest) list.new.items }
{
    if greatest {
        list.sort_unstable_by_key(|m| longest_first(*m));
        return;
    }
    list.sort_unstable_by_key(|m| shortest_first(*m));
}

// Keeps the first of those at one offset.
fn keep_first(list: &mut Vec<(u32, u32)>)
    ensures { list.new.items ≡ dedup has_same_offset list.old.items }
{
    list.dedup_by_key(|m| m.0);
}

/// Sorts the matches, unless they are, and keeps the best of those at one offset.
pub fn settle(list: &mut Vec<(u32, u32)>, greatest: bool)
    requires { AreShort list.old.items }
    ensures { IsSettled greatest list.old.items list.new.items }
{
    if rises(list) {
        return;
    }
    sort(list, greatest);
    keep_first(list);
}
