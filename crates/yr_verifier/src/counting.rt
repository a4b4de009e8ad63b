//! How many rows the sections of an image have.

ghost use Rattle.std.specs.Prelude.{◌≡◌, length};
ghost use Rattle.yr_image.specs.Views.{image_of};

use yr_image::ImageView;

/// The number of rules.
pub fn count_rules(view: &ImageView) -> u32
    ensures { result ≡ length (image_of view.now).rules }
{
    view.rows(0)
}

/// The number of notes.
pub fn count_notes(view: &ImageView) -> u32
    ensures { result ≡ length (image_of view.now).notes }
{
    view.rows(1)
}

/// The number of external variables.
pub fn count_externals(view: &ImageView) -> u32
    ensures { result ≡ length (image_of view.now).externals }
{
    view.rows(2)
}

/// The number of strings.
pub fn count_strings(view: &ImageView) -> u32
    ensures { result ≡ length (image_of view.now).strings }
{
    view.rows(3)
}

/// The number of splits.
pub fn count_splits(view: &ImageView) -> u32
    ensures { result ≡ length (image_of view.now).splits }
{
    view.rows(4)
}

/// The number of programs.
pub fn count_programs(view: &ImageView) -> u32
    ensures { result ≡ length (image_of view.now).programs }
{
    view.rows(6)
}

/// The number of nodes.
pub fn count_nodes(view: &ImageView) -> u32
    ensures { result ≡ length (image_of view.now).nodes }
{
    view.rows(8)
}

/// The number of edges.
pub fn count_edges(view: &ImageView) -> u32
    ensures { result ≡ length (image_of view.now).edges }
{
    view.rows(9)
}

/// The number of outputs.
pub fn count_outputs(view: &ImageView) -> u32
    ensures { result ≡ length (image_of view.now).outputs }
{
    view.rows(10)
}

/// The number of list rows.
pub fn count_lists(view: &ImageView) -> u32
    ensures { result ≡ length (image_of view.now).lists }
{
    view.rows(11)
}

/// The number of rows of code.
pub fn count_code(view: &ImageView) -> u32
    ensures { result ≡ length (image_of view.now).code }
{
    view.rows(12)
}

/// The number of bytes of the pool.
pub fn count_pool(view: &ImageView) -> u32
    ensures { result ≡ length (image_of view.now).pool }
{
    view.rows(13)
}
