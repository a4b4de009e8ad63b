//! What follows from the definitions.

ghost use Rattle.std.specs.Prelude.{◌≡◌, ◌↔◌, ℕ, List, true};
ghost use Rattle.yr_base.specs.Words.{IsWord, is_word};

/// The words are exactly those that pass the test.
pub fn words_pass()
    ensures { (word : List ℕ) → (is_word word ≡ true) ↔ IsWord word }
{}
