//! What a reader of the definitions may expect of them. Each function's contract is a law.

ghost use Rattle.std.specs.Prelude.{◌≡◌, ℕ, ◌+◌, ◌*◌, ◌/◌, ◌<◌, ◌≤◌, ◌↔◌, [], codes};
ghost use Rattle.yr_text.specs.Arguments.{usual_alphabet};
ghost use Rattle.yr_text.specs.Encoding.{encoded};

/// Group k ends within a text of m bytes after p others exactly where it is one of the whole groups.
pub fn whole_groups_end_in_text()
    ensures { (p m k : ℕ) → (k < (8 * p + 8 * m) / 6) ↔ (6 * k + 6 ≤ 8 * p + 8 * m) }
{}

/// The letters of the text `a`: no group is known wholly where one byte stands before it.
#[tactic(auto, unfolding(crate::specs::Encoding::group_letter))]
pub fn letters_of_one_byte()
    ensures none_before { encoded usual_alphabet (codes "a") 0 ≡ codes "Y" }
    ensures one_before { encoded usual_alphabet (codes "a") 1 ≡ [] }
    ensures two_before { encoded usual_alphabet (codes "a") 2 ≡ codes "h" }
{}
