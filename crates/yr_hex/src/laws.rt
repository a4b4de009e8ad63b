//! What a reader of the definitions may expect of them. Each function's contract is a law.

ghost use Rattle.std.specs.Prelude.{◌≡◌, ℕ, codes};
ghost use Rattle.yr_pattern.specs.Tree.{Tree};
ghost use Rattle.yr_hex.specs.Gaps.{Text};
ghost use Rattle.yr_hex.specs.Items.{Items};
ghost use Rattle.yr_hex.specs.Grammar.{SpellsHex};
ghost use Rattle.yr_hex.specs.Answers.{IsPattern, HasNoReading, IsFirstBadJump};

/// A text has at most one reading.
pub fn one_reading()
    ensures { (t : Text) (a b : Items) → SpellsHex t a → SpellsHex t b → a ≡ b }
{}

/// A text has at most one pattern or one first bad jump, and not both.
pub fn one_answer()
    ensures pattern { (t : Text) (a b : Tree) → IsPattern t a → IsPattern t b → a ≡ b }
    ensures jump { (t : Text) (p q : ℕ) → IsFirstBadJump t p → IsFirstBadJump t q → p ≡ q }
    ensures apart { (t : Text) (a : Tree) (p : ℕ) → IsPattern t a → ¬ IsFirstBadJump t p }
{}

/// In ` 01 [2-] ` the jump stands last.
pub fn last_jump_row()
    ensures { IsFirstBadJump (codes " 01 [2-] ") 4 }
{}

/// Half of a byte alone has no reading.
pub fn half_row()
    ensures { HasNoReading (codes "0") }
{}
