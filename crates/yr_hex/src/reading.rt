//! The reader of hex strings.

ghost use Rattle.std.specs.Prelude.{◌≡◌, ℕ, ◌<◌, ◌^◌, length, Err, IfOk};
ghost use Rattle.yr_pattern.specs.Tree.{tree_of};
ghost use Rattle.yr_hex.specs.declared.fault.HexFault.TheVariants.{HexSyntax, HexJump};
ghost use Rattle.yr_hex.specs.Answers.{IsPattern, HasNoReading, IsFirstBadJump};

use crate::cursor::Cursor;
use crate::fault::HexFault;
use crate::item::list;
use std::alloc::Global;
use yr_pattern::Pattern;

/// How deep brackets may nest.
const DEPTH: u32 = 64;

/// The pattern of a hex string, given what stands between its braces.
pub fn read_hex(alloc: Global, text: &[u8]) -> Result<Pattern, HexFault>
    requires { length text.now < 2 ^ 32 }
    ensures pattern { IfOk result (λ p. IsPattern text.now (tree_of p)) }
    ensures syntax { result ≡ Err HexSyntax → HasNoReading text.now }
    ensures jump { (place : ℕ) → result ≡ Err (HexJump place) → IsFirstBadJump text.now place }
{
    let mut rest = Cursor::new(text);
    let whole = list(alloc, &mut rest, DEPTH, false)?;
    if rest.left() > 0 {
        return Err(HexFault::HexSyntax);
    }
    match whole.bad {
        None => Ok(whole.pattern),
        Some(left) => Err(HexFault::HexJump((text.len() - left) as u32)),
    }
}
