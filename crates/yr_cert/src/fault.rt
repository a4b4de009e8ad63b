//! Why an image is not certified.

use yr_base::NoMemory;

/// The first shape that an automaton has not, with the least number.
#[derive(Clone, Copy, Debug, PartialEq, Eq, thiserror::Error)]
pub enum CertFault {
    /// A node other than node 0 is not the target of exactly one edge.
    #[error("node {0} has not one parent")]
    Parent(u32),
    /// A node's failure node is not that of the longest proper suffix of its word.
    #[error("node {0} links elsewhere")]
    Link(u32),
    /// A split has more than one output row.
    #[error("split {0} has two outputs")]
    Twice(u32),
    /// There is no memory for the work.
    #[error("out of memory")]
    NoMemory,
}

impl From<NoMemory> for CertFault {
    ghost use Rattle.std.specs.Prelude.{◌≡◌};
    ghost use Rattle.yr_cert.specs.declared.fault.CertFault.TheVariants as fault;

    ghost from_gives = { λ _ e. e ≡ fault.NoMemory };

    fn from(_: NoMemory) -> CertFault {
        CertFault::NoMemory
    }
}
