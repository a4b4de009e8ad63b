//! The rows of the automaton: nodes, edges and outputs, read from bytes.

ghost use Rattle.std.specs.Prelude.{◌≡◌, ◌+◌, ◌*◌, ◌<◌, ◌≤◌, length, Some, slice_get};
ghost use Rattle.yr_rows.specs.Nodes.{number_in, nodes_of, edges_of, outputs_of};

/// A node of the automaton.
#[derive(Clone, Copy, Debug, PartialEq, Eq)]
pub struct NodeRow {
    pub first_edge: u32,
    pub edges: u32,
    pub failure: u32,
    pub depth: u32,
    pub first_output: u32,
    pub outputs: u32,
}

/// An edge of a node: the byte that it has, and the node that it leads to.
#[derive(Clone, Copy, Debug, PartialEq, Eq)]
pub struct EdgeRow {
    pub byte: u32,
    pub target: u32,
}

fn number_at(bytes: &[u8], k: usize) -> u32
    requires { 4 * k + 4 ≤ length bytes.now }
    ensures { result ≡ number_in bytes.now k }
{
    let at = 4 * k;
    u32::from_le_bytes([bytes[at], bytes[at + 1], bytes[at + 2], bytes[at + 3]])
}

// The place among the bytes' numbers where node `n` begins.
fn node_start(bytes: &[u8], n: usize) -> usize
    requires { n < length (nodes_of bytes.now) }
    ensures place { result ≡ 6 * n }
    ensures room { 4 * result + 24 ≤ length bytes.now }
{
    6 * n
}

// The place among the bytes' numbers where edge `k` begins.
fn edge_start(bytes: &[u8], k: usize) -> usize
    requires { k < length (edges_of bytes.now) }
    ensures place { result ≡ 2 * k }
    ensures room { 4 * result + 8 ≤ length bytes.now }
{
    2 * k
}

/// Node `n` of bytes that hold nodes.
pub fn node_at(bytes: &[u8], n: usize) -> NodeRow
    requires { n < length (nodes_of bytes.now) }
    ensures { slice_get (nodes_of bytes.now) n ≡ Some result }
{
    let first = node_start(bytes, n);
    NodeRow {
        first_edge: number_at(bytes, first),
        edges: number_at(bytes, first + 1),
        failure: number_at(bytes, first + 2),
        depth: number_at(bytes, first + 3),
        first_output: number_at(bytes, first + 4),
        outputs: number_at(bytes, first + 5),
    }
}

/// Edge `k` of bytes that hold edges.
pub fn edge_at(bytes: &[u8], k: usize) -> EdgeRow
    requires { k < length (edges_of bytes.now) }
    ensures { slice_get (edges_of bytes.now) k ≡ Some result }
{
    let first = edge_start(bytes, k);
    EdgeRow {
        byte: number_at(bytes, first),
        target: number_at(bytes, first + 1),
    }
}

/// Output `k` of bytes that hold outputs.
pub fn output_at(bytes: &[u8], k: usize) -> u32
    requires { k < length (outputs_of bytes.now) }
    ensures { slice_get (outputs_of bytes.now) k ≡ Some result }
{
    number_at(bytes, k)
}
