//! The check of the automaton's nodes.

ghost use Rattle.std.specs.Prelude.{◌≡◌, ◌↔◌, ◌<◌, ◌≤◌, ◌+◌, IsTrue, length, take, drop};
ghost use Rattle.yr_rows.specs.Nodes.{end_before, edges_end, outputs_end, BytesRise};
ghost use Rattle.yr_image.specs.Views.{image_of, shown_bytes};
ghost use Rattle.yr_machine.specs.Automaton.{HasAtomOf, IsNode, NodePasses};
ghost use Rattle.yr_verifier.specs.Firsts.{Reaches, Checked};
ghost use Rattle.yr_verifier.specs.Nodes.{HasRanges, HasDepth, LeadsDeeper, AllLeadDeeper, HaveAtoms};

use crate::counting::{count_edges, count_nodes, count_outputs, count_splits};
use crate::reading::{edge, node, output};
use crate::rows::end_of;
use yr_image::{EdgeRow, ImageFault, ImageView, NodeRow};

// Where the edges and the outputs of the node before node n end.

fn edges_before(view: &ImageView, n: u32) -> u64
    requires { n ≤ length (image_of view.now).nodes }
    ensures { result ≡ end_before edges_end (image_of view.now).nodes n }
{
    if n == 0 {
        return 0;
    }
    let row = node(view, n - 1);
    end_of(row.first_edge, row.edges)
}

fn outputs_before(view: &ImageView, n: u32) -> u64
    requires { n ≤ length (image_of view.now).nodes }
    ensures { result ≡ end_before outputs_end (image_of view.now).nodes n }
{
    if n == 0 {
        return 0;
    }
    let row = node(view, n - 1);
    end_of(row.first_output, row.outputs)
}

fn has_ranges(view: &ImageView, n: u32, row: NodeRow) -> bool
    requires { n < length (image_of view.now).nodes }
    ensures { IsTrue result ↔ HasRanges (image_of view.now) n row }
{
    if u64::from(row.first_edge) != edges_before(view, n) {
        return false;
    }
    if u64::from(row.first_output) != outputs_before(view, n) {
        return false;
    }
    let edges = end_of(row.first_edge, row.edges);
    let outputs = end_of(row.first_output, row.outputs);
    let all_edges = u64::from(count_edges(view));
    let all_outputs = u64::from(count_outputs(view));
    if u64::from(n) + 1 == u64::from(count_nodes(view)) {
        edges == all_edges && outputs == all_outputs
    } else {
        edges <= all_edges && outputs <= all_outputs
    }
}

fn has_depth(view: &ImageView, n: u32, row: NodeRow) -> bool
    requires { n < length (image_of view.now).nodes }
    ensures { IsTrue result ↔ HasDepth (image_of view.now) n row }
{
    if row.depth > 4 {
        return false;
    }
    if n == 0 {
        return row.depth == 0 && row.failure == 0;
    }
    if row.depth == 0 || row.failure >= n {
        return false;
    }
    node(view, row.failure).depth < row.depth
}

// Whether the bytes of so many edges rise.
fn bytes_rise(view: &ImageView, first: u32, count: u32) -> bool
    requires { first + count ≤ length (image_of view.now).edges }
    ensures { IsTrue result ↔ BytesRise (take count (drop first (image_of view.now).edges)) }
{
    let _all = count_edges(view);
    for k in 1..count {
        if edge(view, first + k - 1).byte >= edge(view, first + k).byte {
            return false;
        }
    }
    true
}

fn leads_deeper(view: &ImageView, depth: u32, row: EdgeRow) -> bool
    ensures { IsTrue result ↔ LeadsDeeper (image_of view.now) depth row }
{
    if row.target < count_nodes(view) {
        u64::from(node(view, row.target).depth) == u64::from(depth) + 1
    } else {
        true
    }
}

// Whether so many edges lead one deeper.
fn all_lead_deeper(view: &ImageView, depth: u32, first: u32, count: u32) -> bool
    requires { first + count ≤ length (image_of view.now).edges }
    ensures { IsTrue result ↔ AllLeadDeeper (image_of view.now) depth (take count (drop first (image_of view.now).edges)) }
{
    let _all = count_edges(view);
    for k in 0..count {
        if !leads_deeper(view, depth, edge(view, first + k)) {
            return false;
        }
    }
    true
}

fn has_atom(view: &ImageView, depth: u32, split: u32) -> bool
    ensures { IsTrue result ↔ HasAtomOf (image_of view.now) depth split }
{
    if split < count_splits(view) {
        u32::from(view.split(split).atom_length) == depth
    } else {
        true
    }
}

// Whether the atoms of so many outputs have a depth as their length.
fn have_atoms(view: &ImageView, depth: u32, first: u32, count: u32) -> bool
    requires { first + count ≤ length (image_of view.now).outputs }
    ensures { IsTrue result ↔ HaveAtoms (image_of view.now) depth (take count (drop first (image_of view.now).outputs)) }
{
    let _all = count_outputs(view);
    for k in 0..count {
        if !has_atom(view, depth, output(view, first + k)) {
            return false;
        }
    }
    true
}

fn is_node(view: &ImageView, n: u32, row: NodeRow) -> bool
    requires { n < length (image_of view.now).nodes }
    ensures { IsTrue result ↔ IsNode (image_of view.now) n row }
{
    if !has_ranges(view, n, row) {
        return false;
    }
    if !has_depth(view, n, row) {
        return false;
    }
    if !bytes_rise(view, row.first_edge, row.edges) {
        return false;
    }
    if !all_lead_deeper(view, row.depth, row.first_edge, row.edges) {
        return false;
    }
    have_atoms(view, row.depth, row.first_output, row.outputs)
}

/// The tenth check.
pub fn check_nodes(view: &ImageView) -> Result<(), ImageFault>
    requires { Reaches (shown_bytes view.now) 10 0 }
    ensures { Checked (shown_bytes view.now) 11 result }
{
    for n in 0..count_nodes(view) {
        if !is_node(view, n, node(view, n)) {
            return Err(ImageFault::Node(n));
        }
    }
    Ok(())
}
