//! What follows from the definitions, for callers and for readers.

ghost use Rattle.std.specs.Prelude.{◌≡◌, Bool, true, false, Result};
ghost use Rattle.yr_pattern.specs.Fold.{fold_tree};
ghost use Rattle.yr_regex.specs.Answers.{Answers, Agree};
ghost use Rattle.yr_regex.specs.Escapes.{Text};
ghost use Rattle.yr_regex.specs.Expressions.{Branches};
ghost use Rattle.yr_regex.specs.Grammar.{SpellsRegex};
ghost use Rattle.yr_regex.specs.Meaning.{meaning, has_complement};
ghost use Rattle.yr_regex.specs.declared.fault.RegexFault.{RegexFault};
ghost use Rattle.yr_regex.specs.declared.regex.Regex.{Regex};

/// A text has one reading.
pub fn one_reading()
    ensures { (t : Text) (a b : Branches) → SpellsRegex t a → SpellsRegex t b → a ≡ b }
{}

/// The pattern without regard to letter case is the folded pattern, where no class has a `^`.
pub fn folded_pattern()
    ensures { (t : Text) (dot_all : Bool) (branches : Branches) → SpellsRegex t branches → has_complement branches ≡ false
        → fold_tree (meaning false dot_all branches) ≡ meaning true dot_all branches }
{}

/// A text has one answer, memory apart: each answer of `read_regex` comes exactly where its definition holds.
pub fn one_answer()
    ensures { (t : Text) (nocase dot_all : Bool) (r s : Result Regex RegexFault)
        → Answers t nocase dot_all r → Answers t nocase dot_all s → Agree r s }
{}
