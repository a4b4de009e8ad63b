//! The outputs at a node, one after another.

ghost use Rattle.std.specs.Prelude.{◌≡◌, ◌+◌, ◌<◌, ◌≤◌, ◌++◌, length, option_to_list, IfNone, [], Some, slice_get};
ghost use Rattle.std.specs.Iterator.{YieldsFirst, item_count};
ghost use Rattle.yr_rows.specs.Nodes.{nodes_of, outputs_of, link_of, own_of};
ghost use Rattle.yr_rows.specs.Walk.{AreOutputs};

use std::marker::Model;
use yr_rows::{node_at, output_at};

/// Where a listing stands: at a node, before the place of the next of the node's own outputs.
#[derive(Clone, Copy)]
pub struct Place {
    node: u32,
    next: usize,
    end: usize,
}

/// The outputs at a node that are left.
#[derive(Drop)]
pub struct Outputs<'a> {
    nodes: &'a [u8],
    outputs: &'a [u8],
    place: Place,
}

impl<'a> Model for Outputs<'a> {
    ghost use Rattle.std.specs.Prelude.{ℕ, List};
    ghost use Rattle.yr_automaton.specs.Outputs.{left_at, AreListableBytes, IsPlaceIn};

    ghost Value = { List ℕ };

    ghost view = { λ s. left_at s.nodes.now s.outputs.now s.place };

    ghost invariant = { λ s.
        AreListableBytes s.nodes.now s.outputs.now × IsPlaceIn s.nodes.now s.outputs.now s.place };
}

impl<'a> Iterator for Outputs<'a> {
    type Item = u32;

    ghost next_gives = { YieldsFirst (λ s. s) };

    ghost remaining = { item_count (λ s. s) };

    fn next(&mut self) -> Option<u32> {
        let mut place = self.place;
        let output = next_output(self.nodes, self.outputs, &mut place);
        self.place = place;
        output
    }
}

ghost use Rattle.yr_automaton.specs.Outputs.{left_at, AreListableBytes, IsPlaceIn, IsStartOf};

/// The outputs at a node: its own, then those of the nodes along its failure links.
pub fn list<'a>(nodes: &'a [u8], outputs: &'a [u8], node: u32) -> Outputs<'a>
    requires listable { AreListableBytes nodes.now outputs.now }
    requires inside { node < length (nodes_of nodes.now) }
    ensures { let rows = nodes_of nodes.now in
        AreOutputs (link_of rows) (own_of rows (outputs_of outputs.now)) node result }
{
    let place = place_at(nodes, node);
    Outputs {
        nodes,
        outputs,
        place,
    }
}

// The place before the first of the node's own outputs.
fn place_at(nodes: &[u8], node: u32) -> Place
    requires { node < length (nodes_of nodes.now) }
    ensures { IsStartOf (nodes_of nodes.now) node result }
{
    let row = node_at(nodes, node as usize);
    let next = row.first_output as usize;
    Place {
        node,
        next,
        end: next + row.outputs as usize,
    }
}

// The next of the node's own outputs.
fn own_output(outputs: &[u8], place: &mut Place) -> u32
    requires some { place.old.next < place.old.end }
    requires inside { place.old.end ≤ length (outputs_of outputs.now) }
    ensures output { slice_get (outputs_of outputs.now) place.old.next ≡ Some result }
    ensures place { place.new ≡ record place.old { next = place.old.next + 1 } }
{
    let output = output_at(outputs, place.next);
    place.next += 1;
    output
}

// The next output, if there is one.
fn next_output(nodes: &[u8], outputs: &[u8], place: &mut Place) -> Option<u32>
    requires listable { AreListableBytes nodes.now outputs.now }
    requires place { IsPlaceIn nodes.now outputs.now place.old }
    ensures item { left_at nodes.now outputs.now place.old
        ≡ option_to_list result ++ left_at nodes.now outputs.now place.new }
    ensures none { IfNone result (left_at nodes.now outputs.now place.new ≡ []) }
    ensures place { IsPlaceIn nodes.now outputs.now place.new }
{
    loop {
        if place.next < place.end {
            return Some(own_output(outputs, place));
        }
        if place.node == 0 {
            return None;
        }
        let up = node_at(nodes, place.node as usize).failure;
        *place = place_at(nodes, up);
    }
}
