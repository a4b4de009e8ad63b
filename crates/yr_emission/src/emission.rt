//! From conditions to rows.

ghost use Rattle.std.specs.Prelude.{◌≡◌, map, length, OnOk};
ghost use Rattle.yr_rules.specs.NodeTree.{tree_of, where_of, asked_of, domain_of, bounds_of, link_of, links_of, items_of};
ghost use Rattle.yr_rules.specs.Rules.{external_of};
ghost use Rattle.yr_emission.specs.Parts.{one, both, prefix_row, skipping, skip_row, looping, link_part, part_of, place_part, asked_part, domain_part, items_part, links_part};
ghost use Rattle.yr_image.specs.Sayable.{IsNarrow};
ghost use Rattle.yr_emission.specs.Starts.{begin_of};
ghost use Rattle.yr_emission.specs.Written.{Written};

use crate::choosing::{
    form_of, found_row, infix_answer, infix_row, name_of, prefix_row, quantifier_row, reader_row,
    skip_row, skips_at,
};
use crate::kind::value_kind;
use crate::looping::{LoopStart, begin_row, start_of};
use crate::prefixes::{go_under, put_prefixes};
use crate::putting::{
    field, members_of, place, put, put_entries, put_first, put_pattern, put_set, put_text, saying,
};
use std::alloc::Global;
use yr_base::{Kind, NoMemory};
use yr_draft::ImageDraft;
use yr_image::{CodeRow, Instruction};
use yr_rules::{External, Node, NodeLink, NodeOver, NodePlace, NodeQuant, NodeRange, PrefixOp};

/// The rows of a condition.
#[cycle(emit)]
pub fn emit(
    alloc: Global,
    draft: &mut ImageDraft,
    rows: &mut Vec<CodeRow>,
    externals: &[External],
    node: &Node,
) -> Result<(), NoMemory>
    ensures { OnOk result (Written (part_of (map external_of externals.now) (tree_of node.now)) rows.old.items rows.new.items draft.old draft.new) }
{
    match node {
        Node::Number(n) => put(rows, Instruction::Number(*n)),
        Node::Text(text) => put_text(draft, rows, text),
        Node::Flag(b) => put(rows, Instruction::Flag(*b)),
        Node::FileSize => put(rows, Instruction::FileSize),
        Node::External(k) => put(rows, Instruction::External(*k)),
        Node::RuleTruth(k) => put(rows, Instruction::Rule(*k)),
        Node::Var(k) => put(rows, Instruction::Var(*k)),
        Node::Field {
            id,
            index: None,
            ..
        } => put(rows, field(false, *id)),
        Node::Field {
            id,
            index: Some(index),
            ..
        } => emit_one(alloc, draft, rows, externals, index, field(true, *id)),
        Node::Call { id, from, size, .. } => {
            emit(alloc, draft, rows, externals, from)?;
            emit(alloc, draft, rows, externals, size)?;
            put(rows, Instruction::Call(u32::from(*id)))
        }
        Node::Found { string, place } => {
            emit_place(alloc, draft, rows, externals, place)?;
            put(rows, found_row(place, name_of(*string)))
        }
        Node::Count { string, range } => match range {
            None => put(rows, Instruction::Count(name_of(*string))),
            Some(range) => {
                emit_range(alloc, draft, rows, externals, range)?;
                put(rows, Instruction::CountIn(name_of(*string)))
            }
        },
        Node::Offset {
            string,
            index: None,
        } => put_first(rows, Instruction::Offset(name_of(*string))),
        Node::Offset {
            string,
            index: Some(index),
        } => emit_one(
            alloc,
            draft,
            rows,
            externals,
            index,
            Instruction::Offset(name_of(*string)),
        ),
        Node::Length {
            string,
            index: None,
        } => put_first(rows, Instruction::Length(name_of(*string))),
        Node::Length {
            string,
            index: Some(index),
        } => emit_one(
            alloc,
            draft,
            rows,
            externals,
            index,
            Instruction::Length(name_of(*string)),
        ),
        Node::Read { reader, at } => emit_one(
            alloc,
            draft,
            rows,
            externals,
            at,
            Instruction::Read(reader_row(*reader)),
        ),
        Node::Prefix { op, inner } => emit_prefixes(alloc, draft, rows, externals, *op, inner),
        Node::Chain { first, rest } => {
            emit(alloc, draft, rows, externals, first)?;
            emit_links(
                alloc,
                draft,
                rows,
                externals,
                value_kind(externals, first),
                rest,
            )
        }
        Node::Matches { text, pattern } => {
            emit(alloc, draft, rows, externals, text)?;
            put_pattern(alloc, draft, rows, pattern)
        }
        Node::Of { quant, set, place } => {
            emit_asked(alloc, draft, rows, externals, quant)?;
            emit_place(alloc, draft, rows, externals, place)?;
            put_set(
                draft,
                rows,
                form_of(set, place),
                quantifier_row(quant),
                members_of(set),
            )
        }
        Node::ForOf { quant, set, body } => {
            emit_asked(alloc, draft, rows, externals, quant)?;
            emit_looping(
                alloc,
                draft,
                rows,
                externals,
                LoopStart::Strings(quantifier_row(quant)),
                members_of(set),
                body,
            )
        }
        Node::ForIn {
            quant,
            over,
            body,
            ..
        } => {
            emit_asked(alloc, draft, rows, externals, quant)?;
            emit_over(alloc, draft, rows, externals, over)?;
            emit_looping(
                alloc,
                draft,
                rows,
                externals,
                start_of(quant, over),
                &[],
                body,
            )
        }
    }
}

// An operand, and an instruction that takes it.
#[cycle(emit)]
fn emit_one(
    alloc: Global,
    draft: &mut ImageDraft,
    rows: &mut Vec<CodeRow>,
    externals: &[External],
    operand: &Node,
    instruction: Instruction,
) -> Result<(), NoMemory>
    requires { IsNarrow instruction }
    ensures { OnOk result (Written (both (part_of (map external_of externals.now) (tree_of operand.now)) (one instruction)) rows.old.items rows.new.items draft.old draft.new) }
{
    emit(alloc, draft, rows, externals, operand)?;
    put(rows, instruction)
}

// A run of prefix operators: the operand that is none, and the operators from the innermost out.
#[cycle(emit)]
fn emit_prefixes(
    alloc: Global,
    draft: &mut ImageDraft,
    rows: &mut Vec<CodeRow>,
    externals: &[External],
    op: PrefixOp,
    inner: &Node,
) -> Result<(), NoMemory>
    ensures { OnOk result (Written (both (part_of (map external_of externals.now) (tree_of inner.now)) (one (prefix_row op))) rows.old.items rows.new.items draft.old draft.new) }
{
    let mut ops = Vec::new(alloc);
    ops.push(op)?;
    let mut operand = inner;
    while let Node::Prefix { op, inner } = operand {
        go_under(&mut ops, *op)?;
        operand = inner;
    }
    emit(alloc, draft, rows, externals, operand)?;
    put_prefixes(rows, ops)
}

// The ends of a range.
#[cycle(emit)]
fn emit_range(
    alloc: Global,
    draft: &mut ImageDraft,
    rows: &mut Vec<CodeRow>,
    externals: &[External],
    range: &NodeRange,
) -> Result<(), NoMemory>
    ensures { OnOk result (Written (both (part_of (map external_of externals.now) (bounds_of range.now).low) (part_of (map external_of externals.now) (bounds_of range.now).high)) rows.old.items rows.new.items draft.old draft.new) }
{
    emit(alloc, draft, rows, externals, &range.low)?;
    emit(alloc, draft, rows, externals, &range.high)
}

// Where a string is looked for.
#[cycle(emit)]
fn emit_place(
    alloc: Global,
    draft: &mut ImageDraft,
    rows: &mut Vec<CodeRow>,
    externals: &[External],
    place: &NodePlace,
) -> Result<(), NoMemory>
    ensures { OnOk result (Written (place_part (map external_of externals.now) (where_of place.now)) rows.old.items rows.new.items draft.old draft.new) }
{
    match place {
        NodePlace::Anywhere => Ok(()),
        NodePlace::At(at) => emit(alloc, draft, rows, externals, at),
        NodePlace::Within(range) => emit_range(alloc, draft, rows, externals, range),
    }
}

// The number of a quantifier that has one.
#[cycle(emit)]
fn emit_asked(
    alloc: Global,
    draft: &mut ImageDraft,
    rows: &mut Vec<CodeRow>,
    externals: &[External],
    quant: &NodeQuant,
) -> Result<(), NoMemory>
    ensures { OnOk result (Written (asked_part (map external_of externals.now) (asked_of quant.now)) rows.old.items rows.new.items draft.old draft.new) }
{
    match quant {
        NodeQuant::All | NodeQuant::Any | NodeQuant::Nil => Ok(()),
        NodeQuant::Number(n) => emit(alloc, draft, rows, externals, n),
        NodeQuant::Percent(n) => emit(alloc, draft, rows, externals, n),
    }
}

// What a loop over numbers goes over.
#[cycle(emit)]
fn emit_over(
    alloc: Global,
    draft: &mut ImageDraft,
    rows: &mut Vec<CodeRow>,
    externals: &[External],
    over: &NodeOver,
) -> Result<(), NoMemory>
    ensures { OnOk result (Written (domain_part (map external_of externals.now) (domain_of over.now)) rows.old.items rows.new.items draft.old draft.new) }
{
    match over {
        NodeOver::Range(range) => emit_range(alloc, draft, rows, externals, range),
        NodeOver::List(items) => emit_items(alloc, draft, rows, externals, items),
        NodeOver::Entries(id) => put_entries(rows, *id),
    }
}

// The items of a list.
#[cycle(emit)]
fn emit_items(
    alloc: Global,
    draft: &mut ImageDraft,
    rows: &mut Vec<CodeRow>,
    externals: &[External],
    items: &[Node],
) -> Result<(), NoMemory>
    ensures { OnOk result (Written (items_part (map external_of externals.now) (items_of (map tree_of items.now))) rows.old.items rows.new.items draft.old draft.new) }
{
    for i in 0..items.len() {
        emit(alloc, draft, rows, externals, &items[i])?;
    }
    Ok(())
}

// The operators of one level, the first operand of which is of this kind.
#[cycle(emit)]
fn emit_links(
    alloc: Global,
    draft: &mut ImageDraft,
    rows: &mut Vec<CodeRow>,
    externals: &[External],
    before: Kind,
    links: &[NodeLink],
) -> Result<(), NoMemory>
    ensures { OnOk result (Written (links_part (map external_of externals.now) (links_of (map link_of links.now)) before) rows.old.items rows.new.items draft.old draft.new) }
{
    let mut kind = before;
    for i in 0..links.len() {
        emit_link(alloc, draft, rows, externals, kind, &links[i])?;
        kind = infix_answer(links[i].op);
    }
    Ok(())
}

// An operator and its second operand.
#[cycle(emit)]
fn emit_link(
    alloc: Global,
    draft: &mut ImageDraft,
    rows: &mut Vec<CodeRow>,
    externals: &[External],
    before: Kind,
    link: &NodeLink,
) -> Result<(), NoMemory>
    ensures { OnOk result (Written (link_part link.now.op before (part_of (map external_of externals.now) (tree_of link.now.operand))) rows.old.items rows.new.items draft.old draft.new) }
{
    match skips_at(link.op) {
        Some(truth) => emit_skipping(alloc, draft, rows, externals, truth, &link.operand),
        None => emit_one(
            alloc,
            draft,
            rows,
            externals,
            &link.operand,
            infix_row(link.op, before),
        ),
    }
}

// A skip past the second operand, and that operand as a settled flag.
#[cycle(emit)]
fn emit_skipping(
    alloc: Global,
    draft: &mut ImageDraft,
    rows: &mut Vec<CodeRow>,
    externals: &[External],
    truth: bool,
    operand: &Node,
) -> Result<(), NoMemory>
    ensures { OnOk result (Written (skipping (skip_row truth) (part_of (map external_of externals.now) (tree_of operand.now))) rows.old.items rows.new.items draft.old draft.new) }
{
    put(rows, Instruction::Truth)?;
    let at = rows.len();
    put(rows, Instruction::End)?;
    emit(alloc, draft, rows, externals, operand)?;
    put(rows, Instruction::Truth)?;
    put(rows, Instruction::Settle)?;
    let end = place(rows.len())?;
    rows[at] = saying(skip_row(truth, end));
    Ok(())
}

// A loop over these members, or over numbers that stand on the stack.
#[cycle(emit)]
fn emit_looping(
    alloc: Global,
    draft: &mut ImageDraft,
    rows: &mut Vec<CodeRow>,
    externals: &[External],
    start: LoopStart,
    members: &[u32],
    body: &Node,
) -> Result<(), NoMemory>
    ensures { OnOk result (Written (looping (begin_of start (length members.now)) members.now (part_of (map external_of externals.now) (tree_of body.now))) rows.old.items rows.new.items draft.old draft.new) }
{
    let count = place(members.len())?;
    let at = place(rows.len())?;
    let first = draft.put_members(members)?;
    put(rows, Instruction::End)?;
    emit(alloc, draft, rows, externals, body)?;
    put(rows, Instruction::Truth)?;
    put(rows, Instruction::LoopEnd(at))?;
    let end = place(rows.len())?;
    rows[at as usize] = saying(begin_row(start, end, first, count));
    Ok(())
}
