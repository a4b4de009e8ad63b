//! The edge of a node with a byte.

ghost use Rattle.std.specs.Prelude.{◌≡◌, ◌+◌, ◌<◌, ◌≤◌, length};
ghost use Rattle.yr_rows.specs.Nodes.{edges_of, edges_end, edges_at, target_in, BytesRise};
ghost use Rattle.yr_automaton.specs.Search.{AreLessBefore, AreGreaterFrom};

use yr_rows::{NodeRow, edge_at};

/// The target of the node's edge with the byte. The edges are halved until one is left, and that one
/// is compared.
pub fn target(edges: &[u8], row: &NodeRow, byte: u8) -> Option<u32>
    requires inside { edges_end row.now ≤ length (edges_of edges.now) }
    requires rise { BytesRise (edges_at (edges_of edges.now) row.now) }
    ensures { result ≡ target_in (edges_at (edges_of edges.now) row.now) byte }
{
    if row.edges == 0 {
        return None;
    }
    let edge = edge_at(edges, last_up_to(edges, row, byte));
    if edge.byte == u32::from(byte) {
        Some(edge.target)
    } else {
        None
    }
}

// The place of the node's last edge whose byte is at most this one, or else of its first edge.
fn last_up_to(edges: &[u8], row: &NodeRow, byte: u8) -> usize
    requires inside { edges_end row.now ≤ length (edges_of edges.now) }
    requires rise { BytesRise (edges_at (edges_of edges.now) row.now) }
    requires some { 0 < row.now.edges }
    ensures from { row.now.first_edge ≤ result }
    ensures to { result < edges_end row.now }
    ensures before { AreLessBefore (edges_of edges.now) row.now byte result }
    ensures after { AreGreaterFrom (edges_of edges.now) row.now byte (result + 1) }
{
    let mut low = row.first_edge as usize;
    let mut high = low + row.edges as usize;
    while high - low > 1 {
        let middle = low + (high - low) / 2;
        if edge_at(edges, middle).byte <= u32::from(byte) {
            low = middle;
        } else {
            high = middle;
        }
    }
    low
}
