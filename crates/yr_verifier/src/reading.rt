//! Rows and names of an image that a view gives no reader for.

ghost use Rattle.std.specs.Prelude.{◌≡◌, ◌<◌, ◌≤◌, ◌+◌, length, drop, slice_get, Some};
ghost use Rattle.yr_image.specs.Image.{namespace_of};
ghost use Rattle.yr_image.specs.Views.{image_of, shown_bytes};
ghost use Rattle.yr_image.specs.Reading.{zeros_in, split_zeros};

use crate::text;
use yr_image::{EdgeRow, ImageView, NodeRow, RuleRow};
use yr_rows::{edge_at, node_at, number_at, output_at};

/// Node n.
pub fn node(view: &ImageView, n: u32) -> NodeRow
    requires { n < length (image_of view.now).nodes }
    ensures { slice_get (image_of view.now).nodes n ≡ Some result }
{
    node_at(view.bytes_of(8), n as usize)
}

/// Edge k.
pub fn edge(view: &ImageView, k: u32) -> EdgeRow
    requires { k < length (image_of view.now).edges }
    ensures { slice_get (image_of view.now).edges k ≡ Some result }
{
    edge_at(view.bytes_of(9), k as usize)
}

/// Output k.
pub fn output(view: &ImageView, k: u32) -> u32
    requires { k < length (image_of view.now).outputs }
    ensures { slice_get (image_of view.now).outputs k ≡ Some result }
{
    output_at(view.bytes_of(10), k as usize)
}

/// The sum of the fields of split k that are always 0.
pub fn unused_of(view: &ImageView, k: u32) -> u64
    requires { k < length (zeros_in (shown_bytes view.now)) }
    ensures { slice_get (zeros_in (shown_bytes view.now)) k ≡ Some result }
{
    zeros(from(view.bytes_of(4), 32 * k as usize))
}

fn from(bytes: &[u8], at: usize) -> &[u8]
    requires { at ≤ length bytes.now }
    ensures { result.now ≡ drop at bytes.now }
{
    &bytes[at..]
}

// The sum of the two fields in a split's row.
fn zeros(row: &[u8]) -> u64
    requires { 32 ≤ length row.now }
    ensures { result ≡ split_zeros row.now }
{
    u64::from(row[10]) + u64::from(row[11]) * 0x100 + u64::from(number_at(row, 28))
}

/// The namespace of a rule.
pub fn namespace<'a>(view: &ImageView<'a>, row: &RuleRow) -> &'a [u8]
    ensures { result.now ≡ namespace_of (image_of view.now) row.now }
{
    if view.version() == 1 {
        b"default"
    } else {
        text(view, row.namespace_place, row.namespace_length)
    }
}
