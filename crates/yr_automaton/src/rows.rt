//! The rows of an automaton, whoever made them, and the walk over them.

ghost use Rattle.std.specs.Prelude.{◌≡◌, ◌≢◌, ◌+◌, ◌-◌, ◌<◌, ◌≤◌, IfSome};
ghost use Rattle.yr_rows.specs.Nodes.{AreWhole};
ghost use Rattle.yr_rows.specs.Walk.{Asks, AreOutputs};

use crate::listing::{Outputs, list};
use crate::search::target;
use std::sync::ledger::Ledger;
use yr_base::Steps;
use yr_rows::node_at;

/// The bytes of nodes, edges and outputs, each of them whole rows.
#[derive(Clone, Copy)]
pub struct AutomatonRows<'a> {
    pub nodes: &'a [u8],
    pub edges: &'a [u8],
    pub outputs: &'a [u8],
    ghost whole_nodes: { AreWhole 24 nodes.now },
    ghost whole_edges: { AreWhole 8 edges.now },
    ghost whole_outputs: { AreWhole 4 outputs.now },
}

impl<'a> AutomatonRows<'a> {
    ghost use Rattle.yr_automaton.specs.Rows.{node_count, edge, link, own, AreWellformedRows};

    /// The rows in these bytes, which are not looked at.
    pub fn over(nodes: &'a [u8], edges: &'a [u8], outputs: &'a [u8]) -> AutomatonRows<'a>
        requires nodes { AreWhole 24 nodes.now }
        requires edges { AreWhole 8 edges.now }
        requires outputs { AreWhole 4 outputs.now }
        ensures nodes { result.nodes.now ≡ nodes.now }
        ensures edges { result.edges.now ≡ edges.now }
        ensures outputs { result.outputs.now ≡ outputs.now }
    {
        AutomatonRows {
            nodes,
            edges,
            outputs,
        }
    }

    /// Where the edge of a node with a byte leads, if there is one.
    pub fn edge(&self, node: u32, byte: u8) -> Option<u32>
        requires wellformed { AreWellformedRows self.now }
        requires inside { node < node_count self.now }
        ensures value { result ≡ edge self.now node byte }
        ensures inside { IfSome result (λ target. target < node_count self.now) }
    {
        target(self.edges, &node_at(self.nodes, node as usize), byte)
    }

    /// The failure node of a node.
    pub fn failure(&self, node: u32) -> u32
        requires wellformed { AreWellformedRows self.now }
        requires inside { node < node_count self.now }
        ensures value { result ≡ link self.now node }
        ensures below { node ≢ 0 → result < node }
    {
        node_at(self.nodes, node as usize).failure
    }

    /// The node that a byte leads to. Each node that is asked takes one step.
    pub fn step<L: Ledger>(&self, node: u32, byte: u8, steps: &mut Steps<L>) -> u32
        requires wellformed { AreWellformedRows self.now }
        requires inside { node < node_count self.now }
        ensures asks { Asks (edge self.now) (link self.now) (steps.new - steps.old) node byte result }
        ensures least { steps.old + 1 ≤ steps.new }
        ensures most { steps.new ≤ steps.old + 5 }
        ensures inside { result < node_count self.now }
    {
        let mut at = node;
        loop {
            steps.tick();
            let row = node_at(self.nodes, at as usize);
            if let Some(target) = target(self.edges, &row, byte) {
                return target;
            }
            if at == 0 {
                return 0;
            }
            at = row.failure;
        }
    }

    /// The outputs at a node: its own, then those of the nodes along its failure links.
    pub fn outputs(&self, node: u32) -> Outputs<'_>
        requires wellformed { AreWellformedRows self.now }
        requires inside { node < node_count self.now }
        ensures { AreOutputs (link self.now) (own self.now) node result }
    {
        list(self.nodes, self.outputs, node)
    }
}
