//! Signs and the flags of expressions.

ghost use Rattle.std.specs.Prelude.{◌≡◌, Some, None, MatchOption};
ghost use Rattle.yr_lexer.specs.Reading as reading;

fn is_sign_byte(b: u8) -> bool
    ensures { result ≡ reading.is_one_of reading.sign_bytes b }
{
    matches!(
        b,
        b'{' | b'}'
            | b'('
            | b')'
            | b'['
            | b']'
            | b':'
            | b','
            | b'.'
            | b'='
            | b'<'
            | b'>'
            | b'+'
            | b'-'
            | b'*'
            | b'\\'
            | b'%'
            | b'&'
            | b'^'
            | b'|'
            | b'~'
    )
}

fn is_sign_pair(b: u8, c: u8) -> bool
    ensures { result ≡ reading.is_pair_of reading.sign_pairs b c }
{
    match b {
        b'.' => c == b'.',
        b'=' | b'!' => c == b'=',
        b'<' => c == b'=' || c == b'<',
        b'>' => c == b'=' || c == b'>',
        _ => false,
    }
}

fn past_sign_byte(b: u8, rest: &[u8]) -> Option<&[u8]>
    ensures { MatchOption result (reading.past_sign_byte b rest.now ≡ None)
        (λ x. reading.past_sign_byte b rest.now ≡ Some x.now) }
{
    if is_sign_byte(b) { Some(rest) } else { None }
}

/// What follows the longest sign that begins with this byte.
pub fn past_sign(b: u8, rest: &[u8]) -> Option<&[u8]>
    ensures { MatchOption result (reading.past_sign b rest.now ≡ None)
        (λ x. reading.past_sign b rest.now ≡ Some x.now) }
{
    match rest {
        [c, more @ ..] if is_sign_pair(b, *c) => Some(more),
        _ => past_sign_byte(b, rest),
    }
}

/// Whether this byte stands next, and what follows it.
pub fn past_byte(byte: u8, text: &[u8]) -> (bool, &[u8])
    ensures { (result.0, result.1.now) ≡ reading.past_byte byte text.now }
{
    match text {
        [b, rest @ ..] if *b == byte => (true, rest),
        _ => (false, text),
    }
}

/// The flags of an expression, and what follows them.
#[derive(Clone, Copy)]
pub struct Flags<'a> {
    pub nocase: bool,
    pub dot_all: bool,
    pub rest: &'a [u8],
}

/// The flags in front of a text: `i` and `s`, in either order.
pub fn flags_of(text: &[u8]) -> Flags<'_>
    ensures { record { nocase = result.nocase; dot_all = result.dot_all; rest = result.rest.now } ≡ reading.flags_of text.now }
{
    match text {
        [b'i', more @ ..] => {
            let (dot_all, rest) = past_byte(b's', more);
            Flags {
                nocase: true,
                dot_all,
                rest,
            }
        }
        [b's', more @ ..] => {
            let (nocase, rest) = past_byte(b'i', more);
            Flags {
                nocase,
                dot_all: true,
                rest,
            }
        }
        _ => Flags {
            nocase: false,
            dot_all: false,
            rest: text,
        },
    }
}
