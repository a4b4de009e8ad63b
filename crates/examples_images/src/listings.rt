//! The rows of a small rule and of some externals.

ghost use Rattle.std.specs.Prelude.{IfOk};
ghost use Rattle.yr_rules.specs.Rules.{rule_of};
ghost use Rattle.yr_compiler.specs.Rules.{HasShortTexts};

use std::alloc::Global;
use std::test::Fail;
use yr_base::NoMemory;
use yr_compiler::{CodeRange, put_externals, put_rule};
use yr_draft::ImageDraft;
use yr_image::Tables;
use yr_rules::{CheckedRule, External, ExternalValue, Meta, Node};
use yr_syntax::MetaValue;

// global rule : tag { meta: key = -1 condition: true }, without a name
fn rule(alloc: Global) -> Result<CheckedRule, NoMemory>
    ensures { IfOk result (λ rule. HasShortTexts (rule_of rule)) }
{
    let meta = Meta {
        key: vec![in alloc; b'k']?,
        value: MetaValue::Number(-1),
    };
    Ok(CheckedRule {
        namespace: Vec::new(alloc),
        name: Vec::new(alloc),
        global: true,
        hidden: false,
        tags: vec![in alloc; vec![in alloc; b't']?]?,
        meta: vec![in alloc; meta]?,
        first_string: 0,
        string_count: 0,
        condition: Node::Flag(true),
    })
}

fn external(alloc: Global, value: ExternalValue) -> Result<External, NoMemory> {
    let name = String::from_str(alloc, "x")?;
    Ok(External { name, value })
}

fn tables(alloc: Global) -> Result<Tables, NoMemory> {
    let one = rule(alloc)?;
    let text = vec![in alloc; b'a', b'b']?;
    let externals = vec![in alloc;
        external(alloc, ExternalValue::Flag(true))?,
        external(alloc, ExternalValue::Text(text))?,
    ]?;
    let mut draft = ImageDraft::new(alloc);
    put_externals(&mut draft, &externals)?;
    put_rule(&mut draft, &one, 0, CodeRange { first: 0, rows: 2 })?;
    Ok(draft.finish())
}

// Kind and value of each row of notes.
fn seen(t: &Tables) -> (usize, usize, u16, u32, u64) {
    let flags = match t.rules.first() {
        Some(row) => row.flags,
        None => 9,
    };
    match t.notes.last() {
        Some(row) => (t.notes.len(), t.pool.len(), flags, row.kind, row.value),
        None => (0, 0, flags, 9, 0),
    }
}

#[test]
fn rows_of_a_rule(rt: HostRuntime) -> Result<(), Fail> {
    let t = tables(rt.alloc())?;
    assert_eq!(rt; seen(&t), (2, 6, 1, 2, u64::MAX));
    assert_eq!(rt; t.externals.len(), 2);
    Ok(())
}
