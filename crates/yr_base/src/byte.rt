//! Classes of bytes.

ghost use Rattle.std.specs.Prelude.{◌≡◌};
ghost use Rattle.yr_base.specs.Bytes.{is_word_byte, is_word_start, is_alphanumeric, is_blank, is_digit, lowered};

/// Whether a byte is an ASCII letter, a digit or `_`.
pub fn is_word_byte(b: u8) -> bool
    ensures { result ≡ is_word_byte b }
{
    b.is_ascii_alphanumeric() || b == b'_'
}

/// Whether a byte is an ASCII letter or a digit.
pub fn is_alphanumeric(b: u8) -> bool
    ensures { result ≡ is_alphanumeric b }
{
    b.is_ascii_alphanumeric()
}
