//! The automaton of atoms, as the bytes of its rows.

ghost use Rattle.std.specs.Prelude.{◌≡◌};
ghost use Rattle.yr_rows.specs.Nodes.{nodes_of, edges_of, outputs_of, AreWhole};

use crate::rows::AutomatonRows;
use std::marker::Model;

/// The rows of an automaton, as an image holds them.
#[derive(Drop)]
pub struct Automaton {
    pub(crate) nodes: Vec<u8>,
    pub(crate) edges: Vec<u8>,
    pub(crate) outputs: Vec<u8>,
}

impl Model for Automaton {
    ghost use Rattle.yr_rows.specs.Nodes.{nodes_of, edges_of, outputs_of, AreWhole};
    ghost use Rattle.yr_automaton.specs.Automaton.{Rows};

    ghost Value = { Rows };

    ghost view = { λ a. record {
      nodes = nodes_of a.nodes.items;
      edges = edges_of a.edges.items;
      outputs = outputs_of a.outputs.items;
    } };

    ghost invariant = { λ a.
        AreWhole 24 a.nodes.items × AreWhole 8 a.edges.items × AreWhole 4 a.outputs.items };
}

impl Automaton {
    /// Lends the rows' bytes.
    pub fn rows(&self) -> AutomatonRows<'_>
        ensures nodes { nodes_of result.nodes.now ≡ self.now.nodes }
        ensures edges { edges_of result.edges.now ≡ self.now.edges }
        ensures outputs { outputs_of result.outputs.now ≡ self.now.outputs }
    {
        AutomatonRows {
            nodes: &self.nodes,
            edges: &self.edges,
            outputs: &self.outputs,
        }
    }
}
