//! Laws of the definitions, and rows of them that compute.

ghost use Rattle.std.specs.Prelude.{◌≡◌, ℕ, ℤ, pos, negsuc, Bool, true, false, List, [], ◌∷◌, codes};
ghost use Rattle.yr_values.specs.Values.{Value, Undefined, Number, Flag, Text};
ghost use Rattle.yr_values.specs.Operators.{on_numbers, on_texts, contrary_of, definedness_of, conjunction_of, disjunction_of};
ghost use Rattle.yr_values.specs.Numbers.{sum_of, difference_of, product_of, negation_of, quotient_of, remainder_of, left_shift_of, right_shift_of, complement_of, bit_and_of, bit_or_of, bit_xor_of};
ghost use Rattle.yr_values.specs.Comparisons.{less_of, greater_of, at_most_of, at_least_of, equal_of, unequal_of};
ghost use Rattle.yr_values.specs.Texts.{contains_of, icontains_of, startswith_of, endswith_of};
ghost use Rattle.yr_values.specs.Readers.{read_at, uint8_of, uint16_of, uint16be_of, int8_of};
ghost use Rattle.yr_values.specs.Quantifiers.{meets};
ghost use Rattle.yr_values.specs.Modules.{SuitsNumber, SuitsFlag};

use crate::quantifier::Quantifier;

/// Each operator on numbers, and each reader, gives a number or undefined, whatever its operands are.
pub fn operators_give_numbers()
    ensures sums { (v w : Value) → SuitsNumber (sum_of v w) × SuitsNumber (difference_of v w) }
    ensures products { (v w : Value) → SuitsNumber (product_of v w) × SuitsNumber (negation_of v) }
    ensures quotients { (v w : Value) → SuitsNumber (quotient_of v w) × SuitsNumber (remainder_of v w) }
    ensures bits { (v w : Value) → SuitsNumber (complement_of v) × SuitsNumber (bit_and_of v w)
        × SuitsNumber (bit_or_of v w) × SuitsNumber (bit_xor_of v w) }
    ensures shifts { (v w : Value) → SuitsNumber (left_shift_of v w) × SuitsNumber (right_shift_of v w) }
    ensures readers { (n : ℕ) (number : List ℕ → ℤ) (file : List ℕ) (v : Value) → SuitsNumber (read_at n number file v) }
{}

/// All other operators give a flag or undefined.
pub fn operators_give_flags()
    ensures orders { (v w : Value) → SuitsFlag (less_of v w) × SuitsFlag (greater_of v w)
        × SuitsFlag (at_most_of v w) × SuitsFlag (at_least_of v w) }
    ensures equalities { (v w : Value) → SuitsFlag (equal_of v w) × SuitsFlag (unequal_of v w) }
    ensures texts { (test : List ℕ → List ℕ → Bool) (v w : Value) → SuitsFlag (on_texts test v w) }
    ensures contrary { (v : Value) → SuitsFlag (contrary_of v) }
{}

/// An undefined operand of a number's or a text's operator, and of a comparison, gives undefined.
pub fn undefined_in_gives_undefined()
    ensures numbers { (f : ℤ → ℤ → Value) (v : Value) →
        (on_numbers f Undefined v ≡ Undefined) × (on_numbers f v Undefined ≡ Undefined) }
    ensures texts { (test : List ℕ → List ℕ → Bool) (v : Value) →
        (on_texts test Undefined v ≡ Undefined) × (on_texts test v Undefined ≡ Undefined) }
    ensures orders { (v : Value) → (less_of Undefined v ≡ Undefined) × (less_of v Undefined ≡ Undefined) }
    ensures equalities { (v : Value) → (equal_of Undefined v ≡ Undefined) × (equal_of v Undefined ≡ Undefined) }
{}

/// The greatest number and 1 is the least, and the least number is its own quotient by -1, with nothing left.
pub fn numbers_wrap()
    ensures sum { sum_of (Number (pos 9223372036854775807)) (Number (pos 1)) ≡
        Number (negsuc 9223372036854775807) }
    ensures quotient { quotient_of (Number (negsuc 9223372036854775807)) (Number (negsuc 0)) ≡
        Number (negsuc 9223372036854775807) }
    ensures remainder { remainder_of (Number (negsuc 9223372036854775807)) (Number (negsuc 0)) ≡ Number (pos 0) }
    ensures negation { negation_of (Number (negsuc 9223372036854775807)) ≡ Number (negsuc 9223372036854775807) }
{}

/// Quotients round towards zero, and what they leave has the dividend's sign; by zero both are undefined.
pub fn quotients_round_towards_zero()
    ensures quotient { quotient_of (Number (negsuc 6)) (Number (pos 2)) ≡ Number (negsuc 2) }
    ensures remainder { remainder_of (Number (negsuc 6)) (Number (pos 2)) ≡ Number (negsuc 0) }
    ensures positive { remainder_of (Number (pos 7)) (Number (negsuc 1)) ≡ Number (pos 1) }
    ensures by_zero { quotient_of (Number (pos 1)) (Number (pos 0)) ≡ Undefined }
    ensures left_by_zero { remainder_of (Number (pos 1)) (Number (pos 0)) ≡ Undefined }
{}

/// A shift to the right keeps the sign, one by 64 or more is 0, and one by a negative number is undefined.
pub fn shifts_at_their_ends()
    ensures sign { right_shift_of (Number (negsuc 0)) (Number (pos 63)) ≡ Number (negsuc 0) }
    ensures right { right_shift_of (Number (negsuc 0)) (Number (pos 64)) ≡ Number (pos 0) }
    ensures top { left_shift_of (Number (pos 1)) (Number (pos 63)) ≡ Number (negsuc 9223372036854775807) }
    ensures left { left_shift_of (Number (pos 1)) (Number (pos 64)) ≡ Number (pos 0) }
    ensures negative { right_shift_of (Number (pos 1)) (Number (negsuc 0)) ≡ Undefined }
    ensures bits { complement_of (Number (pos 0)) ≡ Number (negsuc 0) }
{}

/// `not` of what is undefined is undefined; `and`, `or` and `defined` never are.
pub fn undefined_operands()
    ensures contrary { contrary_of Undefined ≡ Undefined }
    ensures conjunction { conjunction_of Undefined (Flag true) ≡ Flag false }
    ensures disjunction { disjunction_of Undefined (Flag true) ≡ Flag true }
    ensures definedness { definedness_of Undefined ≡ Flag false }
    ensures equal { equal_of Undefined Undefined ≡ Undefined }
    ensures kinds { less_of (Flag false) (Flag true) ≡ Undefined }
{}

/// Texts stand in the order of their bytes, and letters are the same in either case for the forms with `i`.
pub fn texts_by_their_bytes()
    ensures high { less_of (Text (127 ∷ [])) (Text (128 ∷ [])) ≡ Flag true }
    ensures front { less_of (Text (codes "ab")) (Text (codes "abc")) ≡ Flag true }
    ensures inside { contains_of (Text (codes "xab")) (Text (codes "ab")) ≡ Flag true }
    ensures letters { icontains_of (Text (codes "xAb")) (Text (codes "aB")) ≡ Flag true }
    ensures case { contains_of (Text (codes "xAb")) (Text (codes "aB")) ≡ Flag false }
    ensures ends { endswith_of (Text (codes "b")) (Text (codes "ab")) ≡ Flag false }
{}

/// A reader reads up to the file's last byte and no further, and its bytes in its order.
pub fn readers_of_two_bytes()
    ensures low { uint16_of (1 ∷ 2 ∷ []) (Number (pos 0)) ≡ Number (pos 513) }
    ensures high { uint16be_of (1 ∷ 2 ∷ []) (Number (pos 0)) ≡ Number (pos 258) }
    ensures last { uint8_of (1 ∷ 2 ∷ []) (Number (pos 1)) ≡ Number (pos 2) }
    ensures beyond { uint8_of (1 ∷ 2 ∷ []) (Number (pos 2)) ≡ Undefined }
    ensures before { uint8_of (1 ∷ 2 ∷ []) (Number (negsuc 0)) ≡ Undefined }
    ensures signed { int8_of (255 ∷ []) (Number (pos 0)) ≡ Number (negsuc 0) }
{}

/// Percentages are exact, 0 asks for none, and a negative number for nothing.
pub fn quantifiers_at_their_ends()
    ensures half { meets (Quantifier.Percent (pos 50)) 1 2 ≡ true }
    ensures third { meets (Quantifier.Percent (pos 34)) 1 3 ≡ false }
    ensures none { meets (Quantifier.Number (pos 0)) 1 2 ≡ false }
    ensures nothing { meets (Quantifier.Number (negsuc 0)) 0 2 ≡ true }
    ensures all_of_none { meets Quantifier.All 0 0 ≡ true }
    ensures any_of_none { meets Quantifier.Any 0 0 ≡ false }
{}
