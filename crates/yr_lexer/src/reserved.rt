//! Reserved words.

ghost use Rattle.std.specs.Prelude.{◌≡◌, ◌↔◌, IsTrue, map};
ghost use Rattle.std.specs.List.{list_any};
ghost use Rattle.std.specs.Str.{bytes_eq};
ghost use Rattle.yr_base.specs.Words.{IsReserved, reserved_words};

static RESERVED: [&[u8]; 51] = [
    b"all",
    b"and",
    b"any",
    b"ascii",
    b"at",
    b"base64",
    b"base64wide",
    b"condition",
    b"contains",
    b"defined",
    b"endswith",
    b"entrypoint",
    b"false",
    b"filesize",
    b"for",
    b"fullword",
    b"global",
    b"icontains",
    b"iendswith",
    b"iequals",
    b"import",
    b"in",
    b"include",
    b"int16",
    b"int16be",
    b"int32",
    b"int32be",
    b"int8",
    b"int8be",
    b"istartswith",
    b"matches",
    b"meta",
    b"nocase",
    b"none",
    b"not",
    b"of",
    b"or",
    b"private",
    b"rule",
    b"startswith",
    b"strings",
    b"them",
    b"true",
    b"uint16",
    b"uint16be",
    b"uint32",
    b"uint32be",
    b"uint8",
    b"uint8be",
    b"wide",
    b"xor",
];

fn is_among(words: &[&[u8]], word: &[u8]) -> bool
    ensures { result ≡ list_any (λ w. bytes_eq w.now word.now) words.now }
{
    words.iter().any(|w| *w == word)
}

fn reserved_words() -> &'static [&'static [u8]]
    ensures { map (λ w. w.now) result.now ≡ reserved_words }
{
    &RESERVED
}

/// Whether a word is reserved.
pub fn is_reserved(word: &[u8]) -> bool
    ensures { IsTrue result ↔ IsReserved word.now }
{
    is_among(reserved_words(), word)
}
