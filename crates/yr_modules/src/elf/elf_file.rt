//! An ELF file as a module.

use crate::elf::field::Field;
use crate::elf::layout::Layout;
use std::marker::Model;
use yr_base::Value;
use yr_values::Modules;

/// The fields of a file, which give undefined where it is no ELF file. It lends from the file; each field is read when
/// it is asked for. In clauses it is the file's bytes.
#[derive(Drop)]
pub struct Elf<'a> {
    file: &'a [u8],
    layout: Option<Layout>,
}

impl<'a> Model for Elf<'a> {
    ghost use Rattle.std.specs.Prelude.{◌≡◌, ℕ, List};
    ghost use Rattle.yr_modules.specs.Elf.Layout.{layout_of};

    ghost Value = { List ℕ };

    ghost view = { λ e. e.file.now };

    ghost invariant = { λ e. e.layout ≡ layout_of e.file.now };
}

impl<'a> Elf<'a> {
    ghost use Rattle.std.specs.Prelude.{◌≡◌};

    /// The fields of this file.
    pub fn read(file: &'a [u8]) -> Elf<'a>
        ensures { result ≡ file.now }
    {
        Elf {
            file,
            layout: Layout::of(file),
        }
    }
}

impl<'a> Modules for Elf<'a> {
    ghost use Rattle.std.specs.Prelude.{None};
    ghost use Rattle.yr_values.specs.Values.{Undefined};
    ghost use Rattle.yr_modules.specs.Elf.Fields.{elf_field, elf_kind};

    ghost field_of = { λ file id index. elf_field file id index };

    ghost call_of = { λ file id from size. Undefined };

    ghost field_kind = { elf_kind };

    ghost call_kind = { λ id. None };

    fn field(&self, id: u16, index: i64) -> Value<'_> {
        match (self.layout, Field::with(id)) {
            (Some(layout), Some(field)) => layout.value_in(self.file, index, field),
            _ => Value::Undefined,
        }
    }

    fn call(&self, _id: u16, _from: i64, _size: i64) -> Value<'_> {
        Value::Undefined
    }
}
