//! Quantifiers of sets and loops.

ghost use Rattle.std.specs.Prelude.{◌≡◌};
ghost use Rattle.yr_values.specs.Quantifiers.{meets};

/// How many members of a set, or turns of a loop, are to hold.
#[derive(Clone, Copy, Debug, PartialEq, Eq)]
pub enum Quantifier {
    All,
    Any,
    Nil,
    Number(i64),
    Percent(i64),
}

impl Quantifier {
    /// Whether `found` of `total` are enough.
    pub fn meets(self, found: u64, total: u64) -> bool
        ensures { result ≡ meets self found total }
    {
        match self {
            Quantifier::All => found == total,
            Quantifier::Any => found >= 1,
            Quantifier::Nil => found == 0,
            Quantifier::Number(n) => reaches(found, n),
            Quantifier::Percent(n) => n as i128 * total as i128 <= found as i128 * 100,
        }
    }
}

// Whether a number of members is reached; 0 asks for none.
fn reaches(found: u64, n: i64) -> bool
    ensures { result ≡ meets (Quantifier.Number n) found 0 }
{
    if n < 0 {
        true
    } else if n == 0 {
        found == 0
    } else {
        found >= n as u64
    }
}
