//! The items of loops over lists.

ghost use Rattle.std.specs.Prelude.{◌≡◌, ◌≤◌, length, map, take};
ghost use Rattle.yr_values.specs.Values.{shown};
ghost use Rattle.yr_vm.specs.Turns.{item_shown};
ghost use Rattle.yr_vm.specs.Items.{IsItem, AreItems};

use crate::open_loop::MOST_ITEMS;
use yr_base::Value;

// The item that a value is: a number, or undefined.
#[inline]
fn item(v: &Value<'_>) -> Option<i64>
    requires { IsItem (shown v.now) }
    ensures { item_shown result ≡ shown v.now }
{
    match v {
        Value::Number(n) => Some(*n),
        _ => None,
    }
}

/// Copies values to the first items.
pub fn copy_items(items: &mut [Option<i64>; MOST_ITEMS], values: &[Value<'_>])
    requires few { length values.now ≤ 128 }
    requires items { AreItems (map shown values.now) }
    ensures { map item_shown (take (length values.now) items.new) ≡ map shown values.now }
{
    for k in 0..values.len() {
        items[k] = item(&values[k]);
    }
}
