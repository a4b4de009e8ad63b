//! The fields by their ids, and their values.

ghost use Rattle.std.specs.Prelude.{◌≡◌, ◌+◌, ◌≤◌, ◌<◌, ◌^◌, length, IfSome};
ghost use Rattle.std.specs.Option.{option_map};
ghost use Rattle.yr_values.specs.Values.{shown};
ghost use Rattle.yr_modules.specs.Pe.Header.{LiesInside, header_size};
ghost use Rattle.yr_modules.specs.Pe.Sections.{section_size, indexed_place, number_by, name_at};
ghost use Rattle.yr_modules.specs.Pe.Fields.{IsWithin, file_field, section_field, field_with, number_value, text_value, value_in};

use crate::pe::entry_point::entry_point;
use crate::pe::row::*;
use crate::pe::section::{indexed_place, name_at};
use yr_base::Value;

/// What a field is: a number of the file header, the entry point, the name of a section, or a number of a section.
#[derive(Clone, Copy)]
pub(crate) enum Field {
    Header(Row),
    EntryPoint,
    SectionName,
    Section(Row),
}

impl Field {
    fn of_file(id: u16) -> Option<Field>
        ensures field { result ≡ file_field id }
        ensures within { IfSome result IsWithin }
    {
        match id {
            80 => Some(Field::Header(MACHINE)),
            81 => Some(Field::Header(NUMBER_OF_SECTIONS)),
            82 => Some(Field::Header(TIMESTAMP)),
            83 => Some(Field::Header(CHARACTERISTICS)),
            84 => Some(Field::EntryPoint),
            _ => None,
        }
    }

    fn of_section(id: u16) -> Option<Field>
        ensures field { result ≡ section_field id }
        ensures within { IfSome result IsWithin }
    {
        match id {
            96 => Some(Field::SectionName),
            97 => Some(Field::Section(VIRTUAL_ADDRESS)),
            98 => Some(Field::Section(VIRTUAL_SIZE)),
            99 => Some(Field::Section(RAW_DATA_OFFSET)),
            100 => Some(Field::Section(RAW_DATA_SIZE)),
            101 => Some(Field::Section(SECTION_CHARACTERISTICS)),
            _ => None,
        }
    }

    /// The field with an id.
    pub(crate) fn with(id: u16) -> Option<Field>
        ensures field { result ≡ field_with id }
        ensures within { IfSome result IsWithin }
    {
        Field::of_file(id).or(Field::of_section(id))
    }
}

fn number_value(n: Option<u64>) -> Value<'static>
    requires { IfSome n (λ n. n < 2 ^ 63) }
    ensures { shown result ≡ number_value n }
{
    match n {
        Some(n) => Value::Number(n as i64),
        None => Value::Undefined,
    }
}

fn section_number(file: &[u8], p: usize, index: i64, row: Row) -> Option<u64>
    requires room { p + header_size ≤ length file.now }
    requires within { LiesInside section_size row }
    ensures number { result ≡ number_by file.now row (indexed_place file.now p index) }
    ensures small { IfSome result (λ n. n < 2 ^ 63) }
{
    let at = indexed_place(file, p, index)?;
    Some(u64::from(row.number_in(file, at)))
}

fn section_name(file: &[u8], p: usize, index: i64) -> Value<'_>
    requires { p + header_size ≤ length file.now }
    ensures { shown result ≡ text_value (option_map (name_at file.now) (indexed_place file.now p index)) }
{
    match indexed_place(file, p, index) {
        Some(at) => Value::Text(name_at(file, at)),
        None => Value::Undefined,
    }
}

/// The value of a field in a file whose signature stands at p.
pub(crate) fn value_in(file: &[u8], p: usize, index: i64, field: Field) -> Value<'_>
    requires room { p + header_size ≤ length file.now }
    requires within { IsWithin field }
    ensures { shown result ≡ value_in file.now p index field }
{
    match field {
        Field::Header(row) => number_value(Some(u64::from(row.number_in(file, p)))),
        Field::EntryPoint => number_value(entry_point(file, p)),
        Field::SectionName => section_name(file, p, index),
        Field::Section(row) => number_value(section_number(file, p, index, row)),
    }
}
