//! The names of external variables.

ghost use Rattle.std.specs.Prelude.{◌≡◌, ◌↔◌, ◌<◌, IsTrue, length, min};
ghost use Rattle.yr_image.specs.Image.{pool_text};
ghost use Rattle.yr_image.specs.Views.{image_of};
ghost use Rattle.yr_verifier.specs.Names.{name_at};

use yr_image::ImageView;

fn least(a: usize, b: usize) -> usize
    ensures { result ≡ min a b }
{
    if a < b { a } else { b }
}

/// The bytes of a range of the pool that are there.
pub fn text<'a>(view: &ImageView<'a>, place: u32, length: u32) -> &'a [u8]
    ensures { result.now ≡ pool_text (image_of view.now) place length }
{
    let pool = view.bytes_of(13);
    let start = least(place as usize, pool.len());
    let count = least(length as usize, pool.len() - start);
    &pool[start..start + count]
}

/// The name of external variable k.
pub fn name_at<'a>(view: &ImageView<'a>, k: u32) -> &'a [u8]
    requires { k < length (image_of view.now).externals }
    ensures { result.now ≡ name_at (image_of view.now) k }
{
    let row = view.external(k);
    text(view, row.name_place, row.name_length)
}

pub fn same(a: &[u8], b: &[u8]) -> bool
    ensures { IsTrue result ↔ (a.now ≡ b.now) }
{
    a == b
}
