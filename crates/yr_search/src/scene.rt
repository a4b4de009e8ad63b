//! The image and the file, as the search reads them.

ghost use Rattle.std.specs.Prelude.{◌≡◌, ◌^◌, ◌≤◌, length};
ghost use Rattle.yr_image.specs.Views.{shown_bytes};
ghost use Rattle.yr_machine.specs.Wellformed.{IsWellformed};
ghost use Rattle.yr_search.specs.Taking.{IsGoodScene};

use yr_automaton::AutomatonRows;
use yr_image::ImageView;

/// What a search reads: an image, with the rows of its automaton, and a file.
#[derive(Clone, Copy)]
pub(crate) struct Scene<'a> {
    pub(crate) view: &'a ImageView<'a>,
    pub(crate) automaton: AutomatonRows<'a>,
    pub(crate) file: &'a [u8],
}

/// An image, whose bytes are wellformed, and a file.
pub(crate) fn scene_of<'a>(view: &'a ImageView<'a>, file: &'a [u8]) -> Scene<'a>
    requires wellformed { IsWellformed (shown_bytes view.now) }
    requires small { length file.now ≤ 2 ^ 28 }
    ensures good { IsGoodScene result }
    ensures view { result.view.now ≡ view.now }
    ensures file { result.file.now ≡ file.now }
{
    let rows = view.automaton();
    Scene {
        view,
        automaton: AutomatonRows::over(rows.nodes, rows.edges, rows.outputs),
        file,
    }
}
