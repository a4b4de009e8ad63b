//! What checks find.

ghost use Rattle.std.specs.Prelude.{◌≡◌, ◌∷◌, [], IfOk, None, Some, length};
ghost use Rattle.std.specs.Option.{option_map};
ghost use Rattle.yr_checking.specs.Findings.{finding_of, named_of};
ghost use Rattle.yr_checks.specs.Given as spec;

use std::alloc::Global;
use yr_base::NoMemory;
use yr_checks::Code;

/// What a check names.
#[derive(Clone, Copy)]
pub enum Named<'a> {
    Nothing,
    Word(&'a [u8]),
    /// A sign, a name, and whether a `*` follows.
    Token(u8, &'a [u8], bool),
}

/// What a check finds: its code, what it names, and the place in a pattern.
#[derive(Clone, Copy)]
pub struct Finding<'a> {
    pub code: Code,
    pub named: Named<'a>,
    pub place: Option<u32>,
}

/// A string's name with its sign.
pub fn string_name(name: &[u8]) -> Named<'_>
    ensures { named_of result ≡ 36 ∷ name.now }
{
    Named::Token(b'$', name, false)
}

/// A finding without a place.
pub fn found(code: Code, named: Named<'_>) -> Finding<'_>
    ensures { finding_of result ≡ spec.finding code (named_of named.entry) }
{
    Finding {
        code,
        named,
        place: None,
    }
}

/// A finding that names nothing, where the test holds.
pub fn where_true<'a>(test: bool, code: Code) -> Option<Finding<'a>>
    ensures { option_map finding_of result ≡ spec.where_true test code }
{
    if test {
        Some(found(code, Named::Nothing))
    } else {
        None
    }
}

/// The bytes of what is named.
pub fn named_bytes(alloc: Global, named: Named<'_>) -> Result<Vec<u8>, NoMemory>
    ensures { IfOk result (λ all. all.items ≡ named_of named.entry) }
{
    let mut all = Vec::new(alloc);
    match named {
        Named::Nothing => {}
        Named::Word(word) => all.extend_from_slice(word)?,
        Named::Token(sign, name, wild) => {
            all.push(sign)?;
            all.extend_from_slice(name)?;
            if wild {
                all.push(b'*')?;
            }
        }
    }
    Ok(all)
}
