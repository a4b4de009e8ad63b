//! What the items of a set mean.

ghost use Rattle.std.specs.Prelude.{◌≡◌};
ghost use Rattle.yr_name_tables.specs.Names as spec;

/// Whether the name begins with the front.
pub fn begins(front: &[u8], name: &[u8]) -> bool
    ensures { result ≡ spec.begins front.now name.now }
{
    name.starts_with(front)
}

/// Whether a name of a set, or with a `*` a beginning, means the name.
pub fn means(item: &[u8], wild: bool, name: &[u8]) -> bool
    ensures { result ≡ spec.means item.now wild name.now }
{
    if wild {
        begins(item, name)
    } else {
        item == name
    }
}
