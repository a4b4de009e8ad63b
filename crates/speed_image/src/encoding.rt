//! Tables with rows of code and of notes, encoded and read back.

ghost use Rattle.std.specs.Prelude.{◌≡◌, ◌+◌, ◌*◌, ◌≤◌, ◌<◌, ◌^◌, IfOk, length};
ghost use Rattle.yr_image.specs.Image.{shown};
ghost use Rattle.yr_image.specs.Encoding.{encoded, encoded_length};
ghost use Rattle.yr_image.specs.Fits.{Fits};
ghost use Rattle.yr_image.specs.Sections.{most_bytes};
ghost use Rattle.yr_image.specs.Views.{image_of};

use crate::stopwatch::Stopwatch;
use anyhow::bail;
use std::alloc::{AllocError, Global};
use yr_image::laws::{encodings_have_sections, tables_come_back};
use yr_image::{CodeRow, ImageView, NodeRow, NoteRow, Tables, encode};

/// Prints the mixed numbers of rows that were read back.
pub fn show_all(rt: HostRuntime) -> anyhow::Result<()> {
    let sum = sum_after_encoding(rt.alloc(), 10_000)?;
    println!(rt; "10000 rows of code and of notes, read back: {sum}")?;
    Ok(())
}

/// Prints how fast an image in the cache and one of 200 MB are encoded and read.
pub fn time_all(rt: HostRuntime) -> anyhow::Result<()> {
    time_rows(rt, 100_000)?;
    time_rows(rt, 5_000_000)
}

const NODE: NodeRow = NodeRow {
    first_edge: 0,
    edges: 0,
    failure: 0,
    depth: 0,
    first_output: 0,
    outputs: 0,
};

// So many rows of code, whose numbers differ.
fn make_code(alloc: Global, rows: u32) -> Result<Vec<CodeRow>, AllocError>
    ensures { IfOk result (λ code. length code.items ≡ rows) }
{
    let mut code = Vec::new(alloc);
    for i in 0..rows {
        code.push(CodeRow {
            op: (i % 7) as u8,
            a: (i % 5) as u8,
            b: (i % 1000) as u16,
            c: i,
            d: u64::from(i) << 20,
        })?;
    }
    Ok(code)
}

// So many notes, whose numbers differ.
fn make_notes(alloc: Global, rows: u32) -> Result<Vec<NoteRow>, AllocError>
    ensures { IfOk result (λ notes. length notes.items ≡ rows) }
{
    let mut notes = Vec::new(alloc);
    for i in 0..rows {
        notes.push(NoteRow {
            kind: i % 4,
            name_place: i,
            name_length: i % 100,
            value_length: i % 9,
            value: u64::from(i) << 7,
        })?;
    }
    Ok(notes)
}

// So many rows of code and of notes, and one node.
fn make_tables(alloc: Global, rows: u32) -> Result<Tables, AllocError>
    requires { rows ≤ 50000000 }
    ensures short { IfOk result (λ tables. encoded_length (shown tables) ≤ most_bytes) }
    ensures no_rules { IfOk result (λ tables. length tables.rules.items ≡ 0) }
    ensures no_strings { IfOk result (λ tables. length tables.strings.items ≡ 0) }
    ensures a_node { IfOk result (λ tables. length tables.nodes.items ≡ 1) }
    ensures code { IfOk result (λ tables. length tables.code.items ≡ rows) }
    ensures notes { IfOk result (λ tables. length tables.notes.items ≡ rows) }
{
    let notes = make_notes(alloc, rows)?;
    let code = make_code(alloc, rows)?;
    Ok(Tables {
        rules: Vec::new(alloc),
        notes,
        externals: Vec::new(alloc),
        strings: Vec::new(alloc),
        splits: Vec::new(alloc),
        sets: Vec::new(alloc),
        programs: Vec::new(alloc),
        moves: Vec::new(alloc),
        nodes: vec![in alloc; NODE]?,
        edges: Vec::new(alloc),
        outputs: Vec::new(alloc),
        lists: Vec::new(alloc),
        code,
        pool: Vec::new(alloc),
    })
}

// The numbers of a row of code and of a note, mixed.
fn mixed(code: CodeRow, note: NoteRow) -> u64 {
    (code.d ^ note.value)
        .wrapping_add(u64::from(code.op ^ code.a))
        .wrapping_add(u64::from(code.c ^ note.name_place))
        .wrapping_add(u64::from(code.b))
        .wrapping_add(u64::from(note.kind ^ note.name_length ^ note.value_length))
}

// The numbers of all rows, mixed.
fn sum_of_rows(view: &ImageView<'_>, rows: u32) -> u64
    requires code { rows ≤ length (image_of view.now).code }
    requires notes { rows ≤ length (image_of view.now).notes }
{
    let mut sum = 0u64;
    for k in 0..rows {
        sum = sum.wrapping_add(mixed(view.code(k), view.note(k)));
    }
    sum
}

// The numbers of all rows of the encoding of tables, mixed.
fn sum_of_image(bytes: &[u8], tables: &Tables, rows: u32) -> u64
    requires encoding { bytes.now ≡ encoded (shown tables.now) }
    requires fits { Fits (shown tables.now) }
    requires short { encoded_length (shown tables.now) ≤ most_bytes }
    requires no_rules { length tables.now.rules.items ≡ 0 }
    requires no_strings { length tables.now.strings.items ≡ 0 }
    requires a_node { length tables.now.nodes.items ≡ 1 }
    requires code { length tables.now.code.items ≡ rows }
    requires notes { length tables.now.notes.items ≡ rows }
{
    tables_come_back();
    encodings_have_sections();
    sum_of_rows(&ImageView::over(bytes), rows)
}

// The numbers of all rows, after the tables were encoded.
fn sum_after_encoding(alloc: Global, rows: u32) -> anyhow::Result<u64>
    requires { rows ≤ 50000000 }
{
    let tables = make_tables(alloc, rows)?;
    let Ok(bytes) = encode(alloc, &tables) else {
        bail!("no memory");
    };
    Ok(sum_of_image(&bytes, &tables, rows))
}

// How fast so many rows of each are encoded and read.
fn time_rows(rt: HostRuntime, rows: u32) -> anyhow::Result<()>
    requires { rows ≤ 50000000 }
{
    let alloc = rt.alloc();
    let tables = make_tables(alloc, rows)?;
    let (mut writing, mut reading) = (Stopwatch::new(), Stopwatch::new());
    writing.start(rt)?;
    let Ok(bytes) = encode(alloc, &tables) else {
        bail!("no memory");
    };
    writing.stop(rt)?;
    reading.start(rt)?;
    let sum = sum_of_image(&bytes, &tables, rows);
    reading.stop(rt)?;
    let count = bytes.len();
    let (written, lent) = (writing.millions(count), reading.millions(count));
    println!(rt;
        "{count} bytes (sum {sum}): encoded at {written:.0} MB/s, all rows read at {lent:.0} MB/s"
    )?;
    Ok(())
}
