//! The output rows of a split.

ghost use Rattle.std.specs.Prelude.{◌≡◌};
ghost use Rattle.yr_cert.specs.Tries.{is_many_outputs, with_output};

use yr_base::Atom;

/// How many output rows a split has, and the word of the node that has it if it is one.
#[derive(Clone, Copy, Debug)]
pub(crate) enum Home {
    NoOutput,
    OneOutput(Atom),
    ManyOutputs,
}

impl Home {
    /// Whether they are more than one.
    pub(crate) fn is_many(self) -> bool
        ensures { result ≡ is_many_outputs self }
    {
        match self {
            Home::ManyOutputs => true,
            _ => false,
        }
    }

    /// One output row more, at the node of a word.
    pub(crate) fn with(self, word: Atom) -> Home
        ensures { result ≡ with_output self word }
    {
        match self {
            Home::NoOutput => Home::OneOutput(word),
            _ => Home::ManyOutputs,
        }
    }
}
