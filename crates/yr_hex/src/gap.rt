//! Blanks and comments.

ghost use Rattle.std.specs.Prelude.{◌≡◌, length, Some, None, MatchOption, false};
ghost use Rattle.yr_base.specs.Bytes.{is_blank};
ghost use Rattle.yr_hex.specs.Gaps.{Gap};
ghost use Rattle.yr_hex.specs.Reading as reading;

fn is_blank(b: u8) -> bool
    ensures { result ≡ is_blank b }
{
    b == b' ' || b == b'\t' || b == b'\r' || b == b'\n'
}

#[tactic(auto, unfolding(crate::specs::Reading::past_line))]
fn past_line(text: &[u8]) -> &[u8]
    ensures { result.now ≡ reading.past_line text.now }
{
    let mut rest = text;
    while let [b, more @ ..] = rest {
        if *b == b'\n' {
            return rest;
        }
        rest = more;
    }
    rest
}

#[tactic(auto, unfolding(crate::specs::Reading::past_block))]
fn past_block(text: &[u8]) -> Option<&[u8]>
    ensures { MatchOption result (reading.past_block false text.now ≡ None) (λ x. reading.past_block false text.now ≡ Some x.now) }
{
    let mut rest = text;
    let mut star = false;
    while let [b, more @ ..] = rest {
        if star && *b == b'/' {
            return Some(more);
        }
        star = *b == b'*';
        rest = more;
    }
    None
}

/// What follows the comment that the bytes behind a `/` go on with.
pub fn past_comment(behind: &[u8]) -> Option<&[u8]>
    ensures { MatchOption result (reading.past_comment behind.now ≡ None) (λ x. reading.past_comment behind.now ≡ Some x.now) }
{
    match behind {
        [b'/', more @ ..] => Some(past_line(more)),
        [b'*', more @ ..] => past_block(more),
        _ => None,
    }
}

#[tactic(auto, unfolding(crate::specs::Reading::past_piece))]
fn past_piece(text: &[u8]) -> Option<&[u8]>
    ensures { MatchOption result (reading.past_piece text.now ≡ None) (λ x. reading.past_piece text.now ≡ Some x.now) }
{
    match text {
        [] => None,
        [b, rest @ ..] => {
            if is_blank(*b) {
                Some(rest)
            } else if *b == b'/' {
                past_comment(rest)
            } else {
                None
            }
        }
    }
}

/// What follows the blanks and comments.
pub fn past_gap(text: &[u8]) -> &[u8]
    ensures { Gap text.now result.now }
{
    let mut rest = text;
    while let Some(more) = past_piece(rest) {
        rest = more;
    }
    rest
}
