//! The code of rules.

ghost use Rattle.std.specs.Prelude.{map, IfOk};
ghost use Rattle.yr_rules.specs.NodeTree.{tree_of};
ghost use Rattle.yr_rules.specs.Rules.{external_of};
ghost use Rattle.yr_emission.specs.Emitted.{Emitted};

use crate::emission::emit;
use crate::putting::{place, put};
use std::alloc::Global;
use yr_base::NoMemory;
use yr_draft::ImageDraft;
use yr_image::Instruction;
use yr_rules::{External, Node};

/// Rows of code of an image.
#[derive(Clone, Copy, Debug, PartialEq, Eq)]
pub struct CodeRange {
    pub first: u32,
    pub count: u32,
}

/// Adds the code of a rule's condition, with its list rows, texts and programs. Of a condition that is not checked the rows mean nothing.
pub fn emit_rule(
    alloc: Global,
    draft: &mut ImageDraft,
    externals: &[External],
    condition: &Node,
) -> Result<CodeRange, NoMemory>
    ensures { IfOk result (λ range. Emitted (map external_of externals.now) (tree_of condition.now) draft.old draft.new range.first range.count) }
{
    let mut rows = Vec::new(alloc);
    emit(alloc, draft, &mut rows, externals, condition)?;
    put(&mut rows, Instruction::End)?;
    let count = place(rows.len())?;
    let first = draft.put_code(&rows)?;
    Ok(CodeRange { first, count })
}
