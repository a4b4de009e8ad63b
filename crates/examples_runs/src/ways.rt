//! A scan through `check`, and through an image.

use crate::row::Row;
use crate::running::{NO_FAULT, World, run_line, world_of};
use std::alloc::Global;
use yr_base::NoMemory;

/// How the words of a scan are put into another command.
#[derive(Clone, Copy)]
struct Form {
    front: &'static str,
    flags: bool,
    names: bool,
    target: bool,
    /// What stands in the place of the target, where the target does not.
    output: &'static str,
}

const CHECK: Form = Form {
    front: "check",
    flags: false,
    names: true,
    target: false,
    output: "",
};

const COMPILE: Form = Form {
    front: "compile",
    flags: false,
    names: true,
    target: false,
    output: "saved.img",
};

const SCAN: Form = Form {
    front: "scan -C saved.img",
    flags: true,
    names: false,
    target: true,
    output: "",
};

// The last word that is no external.
fn target_of(line: &str) -> &str {
    let mut target = None;
    for word in line.split_whitespace() {
        if !word.contains('=') {
            target = Some(word);
        }
    }
    target.unwrap_or("")
}

// What a word of a scan of this target becomes.
fn respelt<'w>(form: Form, word: &'w str, target: &str) -> &'w str {
    let is_flags = word.starts_with('-');
    let is_target = word == target;
    if (is_flags && form.flags)
        || (is_target && form.target)
        || (!is_flags && !is_target && form.names)
    {
        word
    } else if is_target {
        form.output
    } else {
        ""
    }
}

// Another command line with the words of a scan.
fn form_of(alloc: Global, form: Form, line: &str) -> Result<String, NoMemory> {
    let target = target_of(line);
    let mut text = String::from_str(alloc, form.front)?;
    for word in line.split_whitespace() {
        text.push_str(" ")?;
        text.push_str(respelt(form, word, target))?;
    }
    Ok(text)
}

// What a run in another form answers.
fn run_form(alloc: Global, form: Form, line: &str, world: &mut World) -> Result<u8, NoMemory> {
    let line = form_of(alloc, form, line)?;
    run_line(alloc, line.as_str(), world)
}

// Whether a text says that a file cannot be read.
fn is_of_reading(said: &[u8], name: &str) -> bool {
    match said.strip_prefix(b"cannot read ".as_slice()) {
        Some(rest) => rest.strip_suffix(b"\n".as_slice()) == Some(name.as_bytes()),
        None => false,
    }
}

// Whether the row's answer is one on the rules, and not on the target.
fn refuses_rules(row: &Row<'_>, line: &str) -> bool {
    row.status != 0 && row.status != 7 && !is_of_reading(&row.err, target_of(line))
}

// Whether `check` and `compile` answer as the row does of the rules: with nothing to say where it has an answer on the target.
fn agrees(row: &Row<'_>, line: &str, status: u8, world: &World) -> bool {
    if refuses_rules(row, line) {
        row.is_answered(status, world)
    } else {
        status == 0 && world.err.bytes().is_empty()
    }
}

// Whether the second field of an image is its length.
fn has_its_length(image: &[u8]) -> bool {
    match image {
        [_, _, _, _, a, b, c, d, ..] => {
            u32::from_le_bytes([*a, *b, *c, *d]) as usize == image.len()
        }
        _ => false,
    }
}

// The saved image without its last byte, nothing where it does not have its length in it.
fn cut_image(alloc: Global, world: &World) -> Result<Vec<u8>, NoMemory> {
    let image = world.store.get("saved.img").unwrap_or(b"".as_slice());
    if !has_its_length(image) {
        return Ok(Vec::new(alloc));
    }
    let mut cut = Vec::from_slice(alloc, image)?;
    cut.pop();
    Ok(cut)
}

// Whether a scan of the saved image without its last byte is refused.
fn refuses_cut(alloc: Global, row: &Row<'_>, line: &str, saved: &World) -> Result<bool, NoMemory> {
    let image = cut_image(alloc, saved)?;
    let mut world = world_of(alloc, &row.files, NO_FAULT)?;
    world.store.add(alloc, "saved.img", &image)?;
    let status = run_form(alloc, SCAN, line, &mut world)?;
    Ok(status == 3 && world.err.bytes() == b"saved.img: Length\n".as_slice())
}

// What is wrong with `compile`, and with scans of the image.
fn fault_of_image(alloc: Global, row: &Row<'_>, line: &str) -> Result<&'static str, NoMemory> {
    let mut world = world_of(alloc, &row.files, NO_FAULT)?;
    let status = run_form(alloc, COMPILE, line, &mut world)?;
    if !agrees(row, line, status, &world) || !world.out.bytes().is_empty() {
        return Ok("another answer of `compile`");
    }
    if refuses_rules(row, line) {
        return Ok(match world.store.get("saved.img") {
            Some(_) => "an image of refused rules",
            None => "",
        });
    }
    if !refuses_cut(alloc, row, line, &world)? {
        return Ok("another answer on a cut image");
    }
    let status = run_form(alloc, SCAN, line, &mut world)?;
    Ok(if row.is_answered(status, &world) {
        ""
    } else {
        "another answer through an image"
    })
}

/// What is wrong with the other ways of a scan: `check` and `compile` with its rules, and the scan of the image.
pub fn fault_of_ways(alloc: Global, row: &Row<'_>, line: &str) -> Result<&'static str, NoMemory> {
    let mut world = world_of(alloc, &row.files, NO_FAULT)?;
    let status = run_form(alloc, CHECK, line, &mut world)?;
    if agrees(row, line, status, &world) {
        fault_of_image(alloc, row, line)
    } else {
        Ok("another answer of `check`")
    }
}
