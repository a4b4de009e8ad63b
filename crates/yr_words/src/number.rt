//! Numbers in words.

ghost use Rattle.std.specs.Prelude.{◌≡◌, ◌≤◌, ◌-◌, ◌^◌, pos, neg_ℤ, IfSome};
ghost use Rattle.std.specs.List.{list_all};
ghost use Rattle.std.specs.Option.{option_map};
ghost use Rattle.yr_base.specs.Bytes.{is_digit};
ghost use Rattle.yr_words.specs.Values.{is_number, number_up_to, signed_number};

const LEAST: u64 = 1 << 63;

fn are_digits(bytes: &[u8]) -> bool
    ensures { result ≡ list_all is_digit bytes.now }
{
    bytes.iter().all(|b| b.is_ascii_digit())
}

fn is_number(word: &str) -> bool
    ensures { result ≡ is_number word.now }
{
    !word.is_empty() && are_digits(word.as_bytes())
}

/// The number that a word of digits spells, where it is at most this.
pub fn number_up_to(most: u64, word: &str) -> Option<u64>
    ensures number { result ≡ number_up_to most word.now }
    ensures within { IfSome result (λ n. n ≤ most) }
{
    if !is_number(word) {
        return None;
    }
    match word.parse::<u64>() {
        Ok(n) if n <= most => Some(n),
        _ => None,
    }
}

fn negative(n: u64) -> i64
    requires { n ≤ 2 ^ 63 }
    ensures { result ≡ neg_ℤ (pos n) }
{
    if n == LEAST { i64::MIN } else { -(n as i64) }
}

fn below_zero(digits: &str) -> Option<i64>
    ensures { result ≡ option_map (λ n. neg_ℤ (pos n)) (number_up_to (2 ^ 63) digits.now) }
{
    let n = number_up_to(LEAST, digits)?;
    Some(negative(n))
}

fn from_zero(digits: &str) -> Option<i64>
    ensures { result ≡ option_map pos (number_up_to (2 ^ 63 - 1) digits.now) }
{
    let n = number_up_to(LEAST - 1, digits)?;
    Some(n as i64)
}

/// The number that a word spells: digits, perhaps after a `-`, whose value has 64 signed bits.
pub fn signed_number(word: &str) -> Option<i64>
    ensures { result ≡ signed_number word.now }
{
    match word.strip_prefix('-') {
        Some(digits) => below_zero(digits),
        None => from_zero(word),
    }
}
