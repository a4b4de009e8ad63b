//! Words that give values to names.

ghost use Rattle.std.specs.Prelude.{◌≡◌};
ghost use Rattle.std.specs.Option.{option_map};
ghost use Rattle.yr_words.specs.Values as plain;
ghost use Rattle.yr_words.specs.Shown.{value_shown, given_shown};

use crate::name::is_name;
use crate::number::signed_number;

/// A value that a word spells.
#[derive(Clone, Copy, Debug, PartialEq, Eq)]
pub enum GivenValue<'a> {
    Number(i64),
    Flag(bool),
    Text(&'a str),
}

/// A name, and the value that a word gives it.
#[derive(Clone, Copy, Debug, PartialEq, Eq)]
pub struct Given<'a> {
    pub name: &'a str,
    pub value: GivenValue<'a>,
}

/// What stands before the first `=`, and what stands after it.
fn halves(word: &str) -> Option<(&str, &str)>
    ensures { option_map (λ p. record { front = p.0.now; back = p.1.now }) result ≡ plain.cut_at 61 word.now }
{
    word.split_once('=')
}

/// The value that a word spells.
pub fn value_of(word: &str) -> GivenValue<'_>
    ensures { value_shown result ≡ plain.value_of word.now }
{
    if word == "true" {
        return GivenValue::Flag(true);
    }
    if word == "false" {
        return GivenValue::Flag(false);
    }
    match signed_number(word) {
        Some(n) => GivenValue::Number(n),
        None => GivenValue::Text(word),
    }
}

/// The name and the value of a word, if it gives one.
pub fn given_of(word: &str) -> Option<Given<'_>>
    ensures { option_map given_shown result ≡ plain.given_of word.now }
{
    let (name, value) = halves(word)?;
    if is_name(name) {
        Some(Given {
            name,
            value: value_of(value),
        })
    } else {
        None
    }
}
