//! Why rules are refused.

use thiserror::Error;
use yr_base::NoMemory;

/// What a check finds.
#[derive(Clone, Copy, Debug, PartialEq, Eq)]
pub enum Code {
    /// An import names no module.
    UnknownModule,
    /// An earlier rule of the namespace or an external has the rule's name.
    DuplicateRule,
    /// The rule's name begins as a wildcard in an earlier rule of the namespace.
    WildcardRule,
    /// A tag stands twice.
    DuplicateTag,
    /// A string's name is declared twice.
    DuplicateString,
    /// A text string has no byte.
    EmptyString,
    /// The modifiers of a string have a fault.
    BadModifiers,
    /// A hex string has no reading.
    HexSyntax,
    /// A jump of a hex string breaks a rule.
    HexJump,
    /// An expression has no reading.
    RegexSyntax,
    /// A quantifier or a range of an expression is not allowed.
    RegexRange,
    /// An expression has quantifiers of both greeds.
    MixedGreed,
    /// A string or an expression has too large a pattern.
    PatternTooLarge,
    /// No string has the name, or no loop gives the sign a string.
    UnknownString,
    /// A word has no meaning, a module lacks the field, or no earlier rule of the namespace is meant.
    UnknownName,
    /// An operand has the wrong kind.
    WrongType,
    /// The condition does not use the string.
    UnusedString,
    /// Loops nest too deep.
    LoopDepth,
    /// A loop's list has too many items.
    ListTooLong,
    /// There are too many rules or strings.
    TooMany,
    /// The rules weigh too much.
    TooHeavy,
}

/// Why rules are refused: the first rule that a check fails at, and the first check that does. Unit, file and line are
/// those of the rule, of an import that names no module, or 0 past the last rule.
#[derive(Debug, PartialEq, Eq, Drop)]
pub struct Refusal {
    /// The number of the check, from 1.
    pub check: u8,
    pub code: Code,
    pub unit: u32,
    pub file: u32,
    pub line: u32,
    /// The number of the rule, where one is refused.
    pub rule: Option<u32>,
    /// The token that the check names.
    pub named: Vec<u8>,
    /// The place in a hex string or an expression.
    pub place: Option<u32>,
}

/// Why there are no checked rules.
#[derive(Debug, PartialEq, Eq, Drop, Error)]
pub enum ResolveFault {
    /// A check fails.
    #[error("the rules are refused")]
    Refused(Refusal),
    /// There was no memory.
    #[error("out of memory")]
    NoMemory,
}

impl From<NoMemory> for ResolveFault {
    ghost use Rattle.std.specs.Prelude.{◌≡◌};
    ghost use Rattle.yr_checks.specs.declared.refusal.ResolveFault.TheVariants as resolve_fault;

    ghost from_gives = { λ _ e. e ≡ resolve_fault.NoMemory };

    fn from(_e: NoMemory) -> ResolveFault {
        ResolveFault::NoMemory
    }
}
