//! The law that the grammar has an answer to whatever tokens there are.

ghost use Rattle.std.specs.Prelude.{List, Result};
ghost use Rattle.yr_lexer.specs.Sources.{Gathered};
ghost use Rattle.yr_syntax.specs.Declaration.{Declaration};
ghost use Rattle.yr_parser.specs.Parsing.{GrammarFault, IsParsed};

/// Gathered tokens have an answer: there is a function that gives it, the declarations that they spell or the refusal.
pub fn tokens_have_an_answer()
    ensures { (parsed : Gathered → Result (List Declaration) GrammarFault) × ((g : Gathered) → IsParsed g (parsed g)) }
{}
