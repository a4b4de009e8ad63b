//! What the checks read of an image: the rows of its automaton.

ghost use Rattle.std.specs.Prelude.{◌≡◌, length};
ghost use Rattle.yr_image.specs.Views.{image_of, shown_bytes};
ghost use Rattle.yr_machine.specs.Wellformed.{IsWellformed};
ghost use Rattle.yr_cert.specs.Tries.{IsReadable, nodes_in, edges_in, outputs_in};

use yr_automaton::AutomatonRows;
use yr_image::ImageView;
use yr_verifier::counting::{count_nodes, count_splits};

/// The rows of an automaton, and how many nodes and splits there are.
#[derive(Clone, Copy)]
pub(crate) struct Trie<'a> {
    pub(crate) rows: AutomatonRows<'a>,
    pub(crate) nodes: u32,
    pub(crate) splits: u32,
}

/// The automaton of a wellformed image.
pub(crate) fn trie_of<'a>(view: &ImageView<'a>) -> Trie<'a>
    requires { IsWellformed (shown_bytes view.now) }
    ensures readable { IsReadable result }
    ensures nodes { nodes_in result ≡ (image_of view.now).nodes }
    ensures edges { edges_in result ≡ (image_of view.now).edges }
    ensures outputs { outputs_in result ≡ (image_of view.now).outputs }
    ensures splits { result.splits ≡ length (image_of view.now).splits }
{
    let rows = view.automaton();
    Trie {
        rows: AutomatonRows::over(rows.nodes, rows.edges, rows.outputs),
        nodes: count_nodes(view),
        splits: count_splits(view),
    }
}
