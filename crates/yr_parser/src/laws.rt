//! Laws of the definitions.

ghost use Rattle.std.specs.Prelude.{◌≡◌, ℕ, List, All, true};
ghost use Rattle.std.specs.Option.{is_some};
ghost use Rattle.yr_base.specs.Words.{reserved_words};
ghost use Rattle.yr_lexer.specs.Forms as lexer;
ghost use Rattle.yr_lexer.specs.Texts.{Unescapes};
ghost use Rattle.yr_parser.specs.Declarations.{Places};
ghost use Rattle.yr_parser.specs.Examples.{Examples};
ghost use Rattle.yr_parser.specs.Refusals.{OneAnswer};
ghost use Rattle.yr_parser.specs.Spelling.{unescaped, lookup, words, signs};
ghost use Rattle.yr_parser.specs.Terminals.{Terminals};

/// Terminals have one reading or one refusal.
pub fn one_answer()
    ensures { (places : Places) (k : Terminals) → OneAnswer places k }
{}

/// The text that a terminal holds is what the inside of its token stands for.
pub fn unescaped_texts()
    ensures { (inside bytes : List ℕ) → Unescapes inside bytes → unescaped inside ≡ bytes }
{}

/// Small conditions have the trees that they are to have, and six small texts are no conditions.
pub fn small_conditions()
    ensures { Examples }
{}

/// Each reserved word and each sign of the lexer stands in the tables of terminals.
pub fn all_have_terminals()
    ensures words { All (λ word. is_some (lookup word words) ≡ true) reserved_words }
    ensures signs { All (λ sign. is_some (lookup sign signs) ≡ true) lexer.signs }
{}
