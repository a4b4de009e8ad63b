//! The fields by their ids, and their values.

ghost use Rattle.std.specs.Prelude.{◌≡◌, ◌≤◌, length, IfSome};
ghost use Rattle.std.specs.Option.{option_map};
ghost use Rattle.yr_values.specs.Values.{shown};
ghost use Rattle.yr_modules.specs.Elf.Layout.{header_size};
ghost use Rattle.yr_modules.specs.Elf.Rows.{LiesInside, section_size, segment_size, number_at};
ghost use Rattle.yr_modules.specs.Elf.Entries.{section_place, segment_place};
ghost use Rattle.yr_modules.specs.Elf.Fields.{IsWithin, file_field, section_field, segment_field, field_with, number_value, text_value, value_in};

use crate::elf::layout::Layout;
use crate::elf::row::*;
use yr_base::Value;

/// What a field is: a number of the ELF header, the entry point, the name of a section, or a number of an entry.
#[derive(Clone, Copy)]
pub(crate) enum Field {
    Header(Row),
    EntryPoint,
    SectionName,
    Section(Row),
    Segment(Row),
}

impl Field {
    fn of_file(id: u16) -> Option<Field>
        ensures field { result ≡ file_field id }
        ensures within { IfSome result IsWithin }
    {
        match id {
            1 => Some(Field::Header(E_TYPE)),
            2 => Some(Field::Header(E_MACHINE)),
            3 => Some(Field::EntryPoint),
            4 => Some(Field::Header(E_SHNUM)),
            5 => Some(Field::Header(E_PHNUM)),
            _ => None,
        }
    }

    fn of_section(id: u16) -> Option<Field>
        ensures field { result ≡ section_field id }
        ensures within { IfSome result IsWithin }
    {
        match id {
            16 => Some(Field::SectionName),
            17 => Some(Field::Section(SH_TYPE)),
            18 => Some(Field::Section(SH_FLAGS)),
            19 => Some(Field::Section(SH_ADDR)),
            20 => Some(Field::Section(SH_OFFSET)),
            21 => Some(Field::Section(SH_SIZE)),
            _ => None,
        }
    }

    fn of_segment(id: u16) -> Option<Field>
        ensures field { result ≡ segment_field id }
        ensures within { IfSome result IsWithin }
    {
        match id {
            32 => Some(Field::Segment(P_TYPE)),
            33 => Some(Field::Segment(P_FLAGS)),
            34 => Some(Field::Segment(P_OFFSET)),
            35 => Some(Field::Segment(P_VADDR)),
            36 => Some(Field::Segment(P_PADDR)),
            37 => Some(Field::Segment(P_FILESZ)),
            38 => Some(Field::Segment(P_MEMSZ)),
            39 => Some(Field::Segment(P_ALIGN)),
            _ => None,
        }
    }

    /// The field with an id.
    pub(crate) fn with(id: u16) -> Option<Field>
        ensures field { result ≡ field_with id }
        ensures within { IfSome result IsWithin }
    {
        Field::of_file(id)
            .or(Field::of_section(id))
            .or(Field::of_segment(id))
    }
}

fn number_value(n: Option<u64>) -> Value<'static>
    ensures { shown result ≡ number_value n }
{
    match n {
        Some(n) => Value::Number(n.cast_signed()),
        None => Value::Undefined,
    }
}

fn text_value(text: Option<&[u8]>) -> Value<'_>
    ensures { shown result ≡ text_value (option_map (λ t. t.now) text.entry) }
{
    match text {
        Some(text) => Value::Text(text),
        None => Value::Undefined,
    }
}

impl Layout {
    fn of_section(self, file: &[u8], index: i64, row: Row) -> Option<u64>
        requires room { header_size self.class ≤ length file.now }
        requires within { LiesInside section_size row }
        ensures { result ≡ number_at self file.now row (section_place self file.now index) }
    {
        let at = self.sections(file).indexed_place(file.len(), index)?;
        Some(self.number_in(file, at, row))
    }

    fn of_segment(self, file: &[u8], index: i64, row: Row) -> Option<u64>
        requires room { header_size self.class ≤ length file.now }
        requires within { LiesInside segment_size row }
        ensures { result ≡ number_at self file.now row (segment_place self file.now index) }
    {
        let at = self.segments(file).indexed_place(file.len(), index)?;
        Some(self.number_in(file, at, row))
    }

    /// The value of a field.
    pub(crate) fn value_in(self, file: &[u8], index: i64, field: Field) -> Value<'_>
        requires room { header_size self.class ≤ length file.now }
        requires within { IsWithin field }
        ensures { shown result ≡ value_in self file.now index field }
    {
        match field {
            Field::Header(row) => number_value(Some(self.number_in(file, 0, row))),
            Field::EntryPoint => number_value(self.entry_point(file)),
            Field::SectionName => text_value(self.section_name(file, index)),
            Field::Section(row) => number_value(self.of_section(file, index, row)),
            Field::Segment(row) => number_value(self.of_segment(file, index, row)),
        }
    }
}
