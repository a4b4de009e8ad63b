//! Draws from a number, and the words that they give.

ghost use Rattle.std.specs.Prelude.{◌≡◌, ◌+◌, ◌/◌, ◌%◌, ◌^◌, ◌<◌};
ghost use Rattle.yr_workload.specs.Workload.{next, after_draws, word, word_after};

/// The number after one draw.
pub(crate) fn next(x: u64) -> u64
    ensures { result ≡ next x }
{
    x.wrapping_mul(6_364_136_223_846_793_005)
        .wrapping_add(1_442_695_040_888_963_407)
}

// The letter that a draw gives, by the number after it.
fn letter(drawn: u64) -> u8
    ensures { result ≡ 97 + drawn / 2 ^ 33 % 26 }
{
    b'a' + ((drawn >> 33) % 26) as u8
}

// Word i, by the number after the draws of the words before it.
fn draw_word(before: u64, i: u8) -> [u8; 8]
    requires { i < 16 }
    ensures { result ≡ word_after before i }
{
    let a = next(before);
    let b = next(a);
    let c = next(b);
    let d = next(c);
    let e = next(d);
    let f = next(e);
    [
        b'a' + i,
        b'q',
        letter(a),
        letter(b),
        letter(c),
        letter(d),
        letter(e),
        letter(f),
    ]
}

/// The number after so many draws.
#[tactic(auto, using(crate::proofs::DrawLemmas::draw_next))]
pub(crate) fn skip(number: u64, draws: u32) -> u64
    ensures { result ≡ after_draws number draws }
{
    let mut after = number;
    for _draw in 0..draws {
        after = next(after);
    }
    after
}

/// Word i of a number.
#[tactic(auto, using(crate::proofs::DrawLemmas::word_by))]
pub(crate) fn word_of(number: u64, i: u8) -> [u8; 8]
    requires { i < 16 }
    ensures { result ≡ word number i }
{
    draw_word(skip(number, 6 * u32::from(i)), i)
}
