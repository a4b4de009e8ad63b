//! Rows that are put at the end of a rule's code.

ghost use Rattle.std.specs.Prelude.{◌≡◌, pos, IfOk, OnOk};
ghost use Rattle.yr_pattern.specs.Tree.{tree_of as pattern_of};
ghost use Rattle.yr_rules.specs.NodeTree.{set_of};
ghost use Rattle.yr_image.specs.Image.{Image};
ghost use Rattle.yr_emission.specs.Parts.{one, both, text_part, pattern_part, set_part, entries_part, numbers_of};
ghost use Rattle.yr_image.specs.Sayable.{IsNarrow};
ghost use Rattle.yr_emission.specs.Written.{SaysIf, HasRow, Written};

use std::alloc::Global;
use yr_base::NoMemory;
use yr_draft::ImageDraft;
use yr_image::{Arithmetic, CodeRow, Instruction, OfForm, QuantifierKind, row_of};
use yr_pattern::size;
use yr_program::assemble;
use yr_rules::{Members, Pattern};

/// The most moves of a program.
const MOST_SIZE: u64 = 65535;

/// A place in four bytes. A rule's code never has so many rows that its places need more.
pub fn place(n: usize) -> Result<u32, NoMemory>
    ensures { IfOk result (λ k. k ≡ n) }
{
    u32::try_from(n).map_err(|_| NoMemory)
}

/// The row that says an instruction.
pub fn saying(instruction: Instruction) -> CodeRow
    requires { IsNarrow instruction }
    ensures { SaysIf instruction result }
{
    row_of(instruction)
}

/// One more row.
pub fn put(rows: &mut Vec<CodeRow>, instruction: Instruction) -> Result<(), NoMemory>
    requires { IsNarrow instruction }
    ensures { OnOk result (HasRow instruction rows.old.items rows.new.items) }
{
    rows.push(saying(instruction))?;
    Ok(())
}

/// A text.
pub fn put_text(
    draft: &mut ImageDraft,
    rows: &mut Vec<CodeRow>,
    text: &[u8],
) -> Result<(), NoMemory>
    ensures { OnOk result (Written (text_part text.now) rows.old.items rows.new.items draft.old draft.new) }
{
    let place = draft.put_text(text)?;
    put(
        rows,
        Instruction::Text {
            place,
            length: text.len() as u64,
        },
    )
}

/// Whether a pattern occurs. A checked condition has none that is too large.
pub fn put_pattern(
    alloc: Global,
    draft: &mut ImageDraft,
    rows: &mut Vec<CodeRow>,
    pattern: &Pattern,
) -> Result<(), NoMemory>
    ensures { OnOk result (Written (pattern_part (pattern_of pattern.now)) rows.old.items rows.new.items draft.old draft.new) }
{
    if size(pattern) > MOST_SIZE {
        return Err(NoMemory);
    }
    let program = assemble(alloc, pattern, false)?;
    let number = draft.put_program(&program)?;
    put(rows, Instruction::Matches(number))
}

/// The members of a set.
pub fn members_of(set: &Members) -> &[u32]
    ensures { result.now ≡ numbers_of (set_of set.now) }
{
    match set {
        Members::Strings(numbers) | Members::Rules(numbers) => numbers,
    }
}

/// What is asked of a set.
pub fn put_set(
    draft: &mut ImageDraft,
    rows: &mut Vec<CodeRow>,
    form: OfForm,
    quantifier: QuantifierKind,
    members: &[u32],
) -> Result<(), NoMemory>
    ensures { OnOk result (Written (set_part form quantifier members.now) rows.old.items rows.new.items draft.old draft.new) }
{
    let first = draft.put_members(members)?;
    put(
        rows,
        Instruction::Of {
            form,
            quantifier,
            first,
            rows: members.len() as u64,
        },
    )
}

/// A field of a module.
pub fn field(indexed: bool, id: u16) -> Instruction
    ensures { result ≡ Instruction.Field indexed id }
{
    Instruction::Field {
        indexed,
        id: u32::from(id),
    }
}

/// What is asked of a string's first match.
pub fn put_first(rows: &mut Vec<CodeRow>, instruction: Instruction) -> Result<(), NoMemory>
    requires { IsNarrow instruction }
    ensures { (image : Image) → OnOk result (Written (both (one (Instruction.Number (pos 1))) (one instruction)) rows.old.items rows.new.items image image) }
{
    put(rows, Instruction::Number(1))?;
    put(rows, instruction)
}

/// The entries of an array: from 0 to their number less 1.
pub fn put_entries(rows: &mut Vec<CodeRow>, id: u16) -> Result<(), NoMemory>
    ensures { (image : Image) → OnOk result (Written (entries_part id) rows.old.items rows.new.items image image) }
{
    put(rows, Instruction::Number(0))?;
    put(rows, field(false, id))?;
    put(rows, Instruction::Number(1))?;
    put(rows, Instruction::Arith(Arithmetic::Subtract))
}
