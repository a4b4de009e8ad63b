//! The edges that lead to a node.

ghost use Rattle.std.specs.Prelude.{◌≡◌};
ghost use Rattle.yr_cert.specs.Tries.{is_one_edge, with_edge};

/// An edge: the node that it comes from, and its byte.
#[derive(Clone, Copy)]
pub(crate) struct Step {
    pub(crate) source: u32,
    pub(crate) byte: u8,
}

/// How many edges lead to a node, and which if it is one.
#[derive(Clone, Copy)]
pub(crate) enum Parent {
    NoEdge,
    OneEdge(Step),
    ManyEdges,
}

impl Parent {
    /// Whether it is one.
    pub(crate) fn is_one(self) -> bool
        ensures { result ≡ is_one_edge self }
    {
        match self {
            Parent::OneEdge(_) => true,
            _ => false,
        }
    }

    /// One edge more.
    pub(crate) fn with(self, step: Step) -> Parent
        ensures { result ≡ with_edge self step }
    {
        match self {
            Parent::NoEdge => Parent::OneEdge(step),
            _ => Parent::ManyEdges,
        }
    }
}
