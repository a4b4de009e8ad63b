//! The short texts that one automaton looks for.

ghost use Rattle.std.specs.Prelude.{◌≤◌};

/// Up to four bytes as they stand in a file: the first `len` of `bytes`.
#[derive(Clone, Copy, Debug)]
pub struct Atom {
    pub bytes: [u8; 4],
    pub len: u8,
    ghost few: { len ≤ 4 },
}
