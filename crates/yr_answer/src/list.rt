//! What is asked of one list, whose offsets rise.

ghost use Rattle.std.specs.Prelude.{◌≡◌, ◌≤◌, length, filter, option_map, pos, int_lt, int_le};
ghost use Rattle.std.specs.List.{list_any};
ghost use Rattle.yr_answer.specs.MatchList.{RisesFrom};
ghost use Rattle.yr_answer.specs.Lookups.{is_at, is_within, nth_match};

/// How many matches begin before the offset.
fn count_before(list: &[(u32, u32)], offset: i64) -> usize
    requires { RisesFrom 0 list.now }
    ensures count { result ≡ length (filter (λ m. int_lt (pos m.0) offset) list.now) }
    ensures inside { result ≤ length list.now }
{
    list.partition_point(|m| i64::from(m.0) < offset)
}

/// How many begin up to the offset.
fn count_up_to(list: &[(u32, u32)], offset: i64) -> usize
    requires { RisesFrom 0 list.now }
    ensures count { result ≡ length (filter (λ m. int_le (pos m.0) offset) list.now) }
    ensures inside { result ≤ length list.now }
{
    list.partition_point(|m| i64::from(m.0) <= offset)
}

/// Whether a match begins at the offset.
pub fn begins_at(list: &[(u32, u32)], offset: i64) -> bool
    requires { RisesFrom 0 list.now }
    ensures { result ≡ list_any (is_at offset) list.now }
{
    count_before(list, offset) < count_up_to(list, offset)
}

/// How many begin in a range, both ends included.
pub fn count_within(list: &[(u32, u32)], low: i64, high: i64) -> usize
    requires { RisesFrom 0 list.now }
    ensures count { result ≡ length (filter (is_within low high) list.now) }
    ensures inside { result ≤ length list.now }
{
    if high < low {
        return 0;
    }
    let before = count_before(list, low);
    count_up_to(list, high).saturating_sub(before)
}

/// Match k, numbered from 1.
pub fn nth(list: &[(u32, u32)], k: i64) -> Option<(u32, u32)>
    ensures { result ≡ nth_match list.now k }
{
    if k < 1 {
        return None;
    }
    list.get(k.cast_unsigned() as usize - 1).copied()
}
