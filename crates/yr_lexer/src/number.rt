//! Numbers.

ghost use Rattle.std.specs.Prelude.{◌≡◌, ◌≤◌, ◌<◌, ◌^◌, ◌*◌, ◌+◌, min, length, Some, None, MatchOption};
ghost use Rattle.yr_lexer.specs.Texts.{digit_of};
ghost use Rattle.yr_lexer.specs.Reading as reading;

/// The first value that is too large.
pub const TOO_LARGE: u64 = 1 << 63;

/// The value of a digit, 16 for a byte that is no digit.
pub fn digit_of(b: u8) -> u8
    ensures value { result ≡ digit_of b }
    ensures within { result ≤ 16 }
{
    match b {
        b'0'..=b'9' => b - b'0',
        b'a'..=b'f' => b - b'a' + 10,
        b'A'..=b'F' => b - b'A' + 10,
        _ => 16,
    }
}

/// A number with one more digit, `TOO_LARGE` where it would pass it.
fn next_number(base: u8, number: u64, digit: u8) -> u64
    requires base { base ≤ 16 }
    requires number { number ≤ 2 ^ 63 }
    ensures { result ≡ min (base * number + digit) (2 ^ 63) }
{
    let larger = u128::from(base) * u128::from(number) + u128::from(digit);
    larger.min(u128::from(TOO_LARGE)) as u64
}

/// The number that the digits in front spell, `TOO_LARGE` where it would pass it, and what follows them.
#[tactic(auto, unfolding(crate::specs::Reading::past_digits))]
fn past_digits(base: u8, text: &[u8]) -> (u64, &[u8])
    requires { base ≤ 16 }
    ensures value { (result.0, result.1.now) ≡ reading.past_digits base 0 text.now }
    ensures within { result.0 ≤ 2 ^ 63 }
{
    let mut rest = text;
    let mut number = 0u64;
    while let [b, more @ ..] = rest {
        let digit = digit_of(*b);
        if digit >= base {
            return (number, rest);
        }
        number = next_number(base, number, digit);
        rest = more;
    }
    (number, rest)
}

fn base_after<'a>(whole: &'a [u8], behind: &'a [u8]) -> (u8, &'a [u8])
    ensures { (result.0, result.1.now) ≡ reading.base_after whole.now behind.now }
{
    match behind {
        [b'x', digits @ ..] => (16, digits),
        [b'o', digits @ ..] => (8, digits),
        _ => (10, whole),
    }
}

fn base_of(run: &[u8]) -> (u8, &[u8])
    ensures base { (result.0, result.1.now) ≡ reading.base_of run.now }
    ensures within { result.0 ≤ 16 }
{
    match run {
        [b'0', behind @ ..] => base_after(run, behind),
        _ => (10, run),
    }
}

fn is_b(text: &[u8]) -> bool
    ensures { result ≡ reading.is_one 66 text.now }
{
    match text {
        [b] => *b == b'B',
        _ => false,
    }
}

fn scale_of(text: &[u8]) -> Option<u64>
    ensures scale { MatchOption result (reading.scale_of text.now ≡ None)
        (λ x. (reading.scale_of text.now ≡ Some x) × (x ≤ 1048576)) }
{
    match text {
        [] => Some(1),
        [b'K', more @ ..] if is_b(more) => Some(1024),
        [b'M', more @ ..] if is_b(more) => Some(1_048_576),
        _ => None,
    }
}

/// Whether decimal digits are followed by a dot and a digit.
pub fn is_float(text: &[u8]) -> bool
    ensures { result ≡ reading.is_fraction (reading.past_digits 10 0 text.now).1 }
{
    is_fraction(past_digits(10, text).1)
}

fn begins_digit(text: &[u8]) -> bool
    ensures { result ≡ reading.begins_digit text.now }
{
    match text {
        [b, ..] => digit_of(*b) < 10,
        [] => false,
    }
}

fn is_fraction(text: &[u8]) -> bool
    ensures { result ≡ reading.is_fraction text.now }
{
    match text {
        [b'.', more @ ..] => begins_digit(more),
        _ => false,
    }
}

/// A number in units, `TOO_LARGE` where it would pass it.
fn scaled(number: u64, behind: &[u8]) -> Option<u64>
    requires { number ≤ 2 ^ 63 }
    ensures { MatchOption result (reading.scaled number (reading.scale_of behind.now) ≡ None)
        (λ x. reading.scaled number (reading.scale_of behind.now) ≡ Some x) }
{
    match scale_of(behind) {
        Some(scale) => {
            let product = u128::from(number) * u128::from(scale);
            Some(product.min(u128::from(TOO_LARGE)) as u64)
        }
        None => None,
    }
}

/// The value of a number whose digits are read, if nothing stands behind them but a unit of decimal numbers.
fn value_of(base: u8, number: u64, behind: &[u8]) -> Option<u64>
    requires { number ≤ 2 ^ 63 }
    ensures { MatchOption result (reading.value_of base number behind.now ≡ None)
        (λ x. reading.value_of base number behind.now ≡ Some x) }
{
    if base == 10 {
        return scaled(number, behind);
    }
    match behind {
        [] => Some(number),
        _ => None,
    }
}

fn value_in(base: u8, digits: &[u8]) -> Option<u64>
    requires { base ≤ 16 }
    ensures { MatchOption result (reading.value_in base digits.now ≡ None)
        (λ x. reading.value_in base digits.now ≡ Some x) }
{
    let (number, behind) = past_digits(base, digits);
    if behind.len() == digits.len() {
        None
    } else {
        value_of(base, number, behind)
    }
}

/// The value of a number, `TOO_LARGE` where it would pass it.
pub fn number_in(run: &[u8]) -> Option<u64>
    ensures { MatchOption result (reading.number_in run.now ≡ None)
        (λ x. reading.number_in run.now ≡ Some x) }
{
    let (base, digits) = base_of(run);
    value_in(base, digits)
}
