//! The lines of the rules.

ghost use Rattle.std.specs.Prelude.{◌≡◌, ◌++◌, decimal, OnOk};
ghost use Rattle.yr_workload.specs.Workload.{modifiers, line_with};

use itoa::Buffer;
use yr_base::NoMemory;

// The modifiers of rule i.
fn modifiers(i: u8) -> &'static [u8]
    ensures { result.now ≡ modifiers i }
{
    match i % 4 {
        0 => b"ascii",
        1 => b"wide nocase",
        2 => b"xor(0x01-0xff)",
        _ => b"base64",
    }
}

// Adds the modifiers of rule i.
fn put_modifiers(rules: &mut Vec<u8>, i: u8) -> Result<(), NoMemory>
    ensures { OnOk result (rules.new.items ≡ rules.old.items ++ modifiers i) }
{
    rules.extend_from_slice(modifiers(i))?;
    Ok(())
}

// Adds a number in decimal.
fn put_digits(rules: &mut Vec<u8>, i: u8) -> Result<(), NoMemory>
    ensures { OnOk result (rules.new.items ≡ rules.old.items ++ decimal i) }
{
    let mut buffer = Buffer::new();
    rules.extend_from_slice(buffer.format(i).as_bytes())?;
    Ok(())
}

/// Adds the line of rule i, which looks for a word.
pub(crate) fn put_rule(rules: &mut Vec<u8>, word: &[u8], i: u8) -> Result<(), NoMemory>
    ensures { OnOk result (rules.new.items ≡ rules.old.items ++ line_with word.now i) }
{
    rules.extend_from_slice(b"rule r")?;
    put_digits(rules, i)?;
    rules.extend_from_slice(b" { strings: $a = \"")?;
    rules.extend_from_slice(word)?;
    rules.extend_from_slice(b"\" ")?;
    put_modifiers(rules, i)?;
    rules.extend_from_slice(b" condition: $a }\n")?;
    Ok(())
}
