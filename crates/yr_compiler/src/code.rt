//! The code of rules.

ghost use Rattle.std.specs.Prelude.{◌≡◌, [], map, All, IfOk};
ghost use Rattle.yr_rules.specs.Rules.{rule_of, external_of};
ghost use Rattle.yr_compiler.specs.Built.{HasKind, PutsCodes};

use crate::CodeRange;
use std::alloc::Global;
use yr_base::NoMemory;
use yr_draft::ImageDraft;
use yr_emission::emit_rule;
use yr_rules::{CheckedRule, External};

/// Puts the code of rules into an image that has none, and tells the range of each.
pub fn put_codes(
    alloc: Global,
    draft: &mut ImageDraft,
    externals: &[External],
    rules: &[CheckedRule],
) -> Result<Vec<CodeRange>, NoMemory>
    requires kinds { All (HasKind (map external_of externals.now)) (map rule_of rules.now) }
    requires no_code { draft.old.code ≡ [] }
    ensures { IfOk result (λ codes.
        PutsCodes draft.old draft.new (map external_of externals.now) (map rule_of rules.now) codes.items) }
{
    let mut codes = Vec::new(alloc);
    for rule in rules {
        let range = emit_rule(alloc, draft, externals, &rule.condition)?;
        let code = CodeRange {
            first: range.first,
            rows: range.count,
        };
        codes.push(code)?;
    }
    Ok(codes)
}
