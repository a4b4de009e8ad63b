//! Laws of the definitions.

ghost use Rattle.std.specs.Prelude.{◌≡◌, ℕ, List, Result};
ghost use Rattle.yr_lexer.specs.declared.token.Token.{Token};
ghost use Rattle.yr_lexer.specs.declared.fault.LexFault.{LexFault};
ghost use Rattle.yr_lexer.specs.Gaps.{Text};
ghost use Rattle.yr_lexer.specs.Texts.{Unescapes};
ghost use Rattle.yr_lexer.specs.Tokens.{Lexes};
ghost use Rattle.yr_lexer.specs.Includes.{IsLexing, IsUnescaping};

/// A text has one list of tokens, or one fault.
pub fn one_answer()
    ensures { (text : Text) (a b : Result (List Token) LexFault) → Lexes text a → Lexes text b → a ≡ b }
{}

/// The inside of a text stands for one list of bytes.
pub fn one_meaning()
    ensures { (inside : Text) (a b : List ℕ) → Unescapes inside a → Unescapes inside b → a ≡ b }
{}

/// Each text has an answer: there is a function that gives them, as the clause of `gather` takes it.
pub fn each_text_has_an_answer()
    ensures { (lexed : Text → Result (List Token) LexFault) × IsLexing lexed }
{}

/// There is a function that gives each inside of a text what it stands for, as the clause of `gather` takes it.
pub fn each_text_has_a_meaning()
    ensures { (unescaped : List ℕ → List ℕ) × IsUnescaping unescaped }
{}
