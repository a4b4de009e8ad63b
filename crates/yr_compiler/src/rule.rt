//! Rows of rules.

ghost use Rattle.std.specs.Prelude.{◌≡◌, ◌<◌, ◌≤◌, ◌+◌, ℕ, List, [], ◌∷◌, ◌++◌, length, map, All, IfOk, OnOk, Some, slice_get};
ghost use Rattle.yr_rules.specs.Rules.{PlainRule, rule_of};
ghost use Rattle.yr_image.specs.Image.{Image};
ghost use Rattle.yr_compiler.specs.declared.code_range.CodeRange.{CodeRange};
ghost use Rattle.yr_compiler.specs.Rules.{HasShortTexts};
ghost use Rattle.yr_compiler.specs.Putting.{PutsRules};

use crate::code_range::CodeRange;
use crate::note::{one_if, put_notes};
use yr_base::NoMemory;
use yr_draft::ImageDraft;
use yr_image::RuleRow;
use yr_rules::CheckedRule;

/// The place behind so many rows, in four bytes.
fn after(first: u32, count: u32) -> Result<u32, NoMemory>
    ensures { IfOk result (λ end. end ≡ first + count) }
{
    u32::try_from(u64::from(first) + u64::from(count)).map_err(|_| NoMemory)
}

/// Puts the next rule, whose code stands in this range and whose notes begin here: its notes, its texts, and its row. Tells where its notes end.
pub fn put_rule(
    draft: &mut ImageDraft,
    rule: &CheckedRule,
    first_note: u32,
    code: CodeRange,
) -> Result<u32, NoMemory>
    requires short { HasShortTexts (rule_of rule.now) }
    requires first { first_note ≡ length draft.old.notes }
    ensures rule { OnOk result ((start : Image) (rules : List PlainRule) (codes : List CodeRange)
        → slice_get codes (length rules) ≡ Some code → PutsRules start draft.old rules codes
        → PutsRules start draft.new (rules ++ rule_of rule.now ∷ []) codes) }
    ensures end { IfOk result (λ end. end ≡ length draft.new.notes) }
{
    let notes = put_notes(draft, rule)?;
    let name: &[u8] = &rule.name;
    let space: &[u8] = &rule.namespace;
    let name_place = draft.put_text(name)?;
    let namespace_place = draft.put_text(space)?;
    draft.put_rule(RuleRow {
        name_place,
        name_length: name.len() as u16,
        flags: u16::from(one_if(rule.global)) + 2 * u16::from(one_if(rule.hidden)),
        first_note,
        notes,
        first_string: rule.first_string,
        strings: rule.string_count,
        first_code: code.first,
        code_rows: code.rows,
        namespace_place,
        namespace_length: space.len() as u32,
    })?;
    let end = after(first_note, notes)?;
    Ok(end)
}

/// The code range of rule k.
fn code_at(codes: &[CodeRange], k: usize) -> CodeRange
    requires { k < length codes.now }
    ensures { slice_get codes.now k ≡ Some result }
{
    codes[k]
}

/// Puts rules into an image that has none, and no notes. Rule k has code range k.
pub fn put_rules(
    draft: &mut ImageDraft,
    rules: &[CheckedRule],
    codes: &[CodeRange],
) -> Result<(), NoMemory>
    requires short { All HasShortTexts (map rule_of rules.now) }
    requires enough { length rules.now ≤ length codes.now }
    requires no_rules { draft.old.rules ≡ [] }
    requires no_notes { draft.old.notes ≡ [] }
    ensures { OnOk result (PutsRules draft.old draft.new (map rule_of rules.now) codes.now) }
{
    let mut first_note = 0;
    for (k, rule) in rules.iter().enumerate() {
        let code = code_at(codes, k);
        first_note = put_rule(draft, rule, first_note, code)?;
    }
    Ok(())
}
