//! What a string is read as: its variants and its greed, or why its pattern cannot be read.

ghost use Rattle.std.specs.Prelude.{◌≡◌, ◌<◌, ◌++◌, IfOk, IfSome, length, is_none, map, false, None};
ghost use Rattle.std.specs.Option.{option_map};
ghost use Rattle.yr_pattern.specs.Tree.{tree_of};
ghost use Rattle.yr_pattern.specs.Variants.{variant_of, Shape};
ghost use Rattle.yr_text.specs.Forms as forms;
ghost use Rattle.yr_syntax.specs.Condition.{regex_of};
ghost use Rattle.yr_syntax.specs.Declaration.{string_of, body_of, kind_of, modifier_of};
ghost use Rattle.yr_syntax.specs.Forms.{StringHasForms, IsShortText};
ghost use Rattle.yr_text.specs.Checked.{checked};
ghost use Rattle.yr_checking.specs.Findings.{finding_of, named_of};
ghost use Rattle.yr_conditions.specs.Fixed.{the_readers};
ghost use Rattle.yr_conditions.specs.Answers.{regex_answer_of};
ghost use Rattle.yr_checks.specs.Patterns.{bad_hex, bad_regex, hex_finding, regex_finding, is_empty_text, is_refused};
ghost use Rattle.yr_conditions.specs.Readers as spec;
ghost use Rattle.yr_name_tables.specs.Names.{with_sign};

use crate::finding::{Finding, Named, found, string_name};
use std::alloc::Global;
use yr_base::{Border, NoMemory};
use yr_checks::Code;
use yr_conditions::{HexAnswer, RegexAnswer, hex_answer, regex_answer};
use yr_pattern::{Pattern, Variant, VariantBody, widen};
use yr_syntax::{RegexText, StringBody, StringDecl};
use yr_text::{Modifiers, check_modifiers, variants};

/// A string as it is read.
#[derive(Drop)]
pub struct PatternRead<'a> {
    /// Why the pattern of a hex string cannot be read.
    pub bad_hex: Option<Finding<'a>>,
    /// The same of an expression.
    pub bad_regex: Option<Finding<'a>>,
    pub greedy: bool,
    pub variants: Vec<Variant>,
}

/// What the modifiers of a string say, where they have no fault.
#[tactic(auto, using(crate::proofs::ModifierLemmas::checked_said))]
pub fn string_modifiers(string: &StringDecl) -> Option<Modifiers>
    ensures said { IfSome result (λ m. m ≡ spec.modifiers_of (string_of string.now)) }
    ensures refused { is_none result ≡ is_refused (checked (map modifier_of string.now.modifiers.items) (kind_of (body_of string.now.body))) }
{
    match check_modifiers(&string.modifiers, string.body.kind()) {
        Ok(modifiers) => Some(modifiers),
        Err(_) => None,
    }
}

fn shape(pattern: Pattern, border: Border) -> Variant
    ensures { variant_of result ≡ record { body = Shape (tree_of pattern); border = border } }
{
    Variant {
        body: VariantBody::Shape(pattern),
        border,
    }
}

/// The variants of an expression: plain, then wide.
fn shapes(alloc: Global, pattern: Pattern, modifiers: &Modifiers) -> Result<Vec<Variant>, NoMemory>
    ensures { IfOk result (λ all. map variant_of all.items ≡ spec.plain_shape (tree_of pattern) modifiers.now ++ spec.wide_shape (tree_of pattern) modifiers.now) }
{
    let mut all = Vec::new(alloc);
    if !modifiers.wide {
        all.push(shape(pattern, plain_border(modifiers)))?;
        return Ok(all);
    }
    let wide = widen(alloc, &pattern)?;
    if modifiers.ascii {
        all.push(shape(pattern, plain_border(modifiers)))?;
    }
    all.push(shape(wide, wide_border(modifiers)))?;
    Ok(all)
}

fn plain_border(modifiers: &Modifiers) -> Border
    ensures { result ≡ forms.plain_border modifiers.now }
{
    if modifiers.full {
        Border::Plain
    } else {
        Border::Free
    }
}

fn wide_border(modifiers: &Modifiers) -> Border
    ensures { result ≡ forms.wide_border modifiers.now }
{
    if modifiers.full {
        Border::Wide
    } else {
        Border::Free
    }
}

/// What a hex string is read as.
fn read_hex_string<'a>(
    alloc: Global,
    name: &'a [u8],
    text: &[u8],
) -> Result<PatternRead<'a>, NoMemory>
    requires { IsShortText text.now }
    ensures bad_hex { IfOk result (λ r. option_map finding_of r.bad_hex ≡ hex_finding (with_sign name.now) (the_readers.hex text.now)) }
    ensures bad_regex { IfOk result (λ r. r.bad_regex ≡ None) }
    ensures greedy { IfOk result (λ r. r.greedy ≡ false) }
    ensures variants { IfOk result (λ r. map variant_of r.variants.items ≡ spec.hex_variants the_readers (the_readers.hex text.now)) }
{
    let mut variants = Vec::new(alloc);
    let bad_hex = match hex_answer(alloc, text)? {
        HexAnswer::Pattern(pattern) => {
            variants.push(shape(pattern, Border::Free))?;
            None
        }
        HexAnswer::Syntax => Some(found(Code::HexSyntax, string_name(name))),
        HexAnswer::Jump(place) => Some(Finding {
            code: Code::HexJump,
            named: string_name(name),
            place: Some(place),
        }),
    };
    Ok(PatternRead {
        bad_hex,
        bad_regex: None,
        greedy: false,
        variants,
    })
}

/// What an expression is found to be, by its name.
pub fn regex_fault<'a>(name: Named<'a>, answer: &RegexAnswer) -> Option<Finding<'a>>
    ensures { option_map finding_of result ≡ regex_finding (named_of name.entry) (regex_answer_of answer.now) }
{
    match answer {
        RegexAnswer::Expression { .. } => None,
        RegexAnswer::Syntax => Some(found(Code::RegexSyntax, name)),
        RegexAnswer::Range(place) => Some(Finding {
            code: Code::RegexRange,
            named: name,
            place: Some(*place),
        }),
        RegexAnswer::Mixed => Some(found(Code::MixedGreed, name)),
    }
}

/// What an expression is read as; the flag `i` and the modifier `nocase` mean the same.
fn read_regex_string<'a>(
    alloc: Global,
    name: &'a [u8],
    regex: &RegexText,
    modifiers: &Modifiers,
) -> Result<PatternRead<'a>, NoMemory>
    requires { IsShortText regex.now.text.items }
    ensures bad_hex { IfOk result (λ r. r.bad_hex ≡ None) }
    ensures bad_regex { IfOk result (λ r. option_map finding_of r.bad_regex ≡ regex_finding (with_sign name.now) (spec.string_expression the_readers (regex_of regex.now) modifiers.now)) }
    ensures greedy { IfOk result (λ r. r.greedy ≡ spec.is_greedy the_readers (spec.string_expression the_readers (regex_of regex.now) modifiers.now)) }
    ensures variants { IfOk result (λ r. map variant_of r.variants.items ≡ spec.regex_variants the_readers (spec.string_expression the_readers (regex_of regex.now) modifiers.now) modifiers.now) }
{
    let nocase = regex.nocase || modifiers.nocase;
    let answer = regex_answer(alloc, &regex.text, nocase, regex.dot_all)?;
    let bad_regex = regex_fault(string_name(name), &answer);
    let (greedy, variants) = match answer {
        RegexAnswer::Expression { pattern, greedy } => (greedy, shapes(alloc, pattern, modifiers)?),
        _ => (false, Vec::new(alloc)),
    };
    Ok(PatternRead {
        bad_hex: None,
        bad_regex,
        greedy,
        variants,
    })
}

/// What a string is read as, whose modifiers say this.
pub fn read_string<'a>(
    alloc: Global,
    string: &'a StringDecl,
    modifiers: &Modifiers,
) -> Result<PatternRead<'a>, NoMemory>
    requires forms { StringHasForms (string_of string.now) }
    requires modifiers { modifiers.now ≡ spec.modifiers_of (string_of string.now) }
    requires text { is_empty_text (body_of string.now.body) ≡ false }
    ensures bad_hex { IfOk result (λ r. option_map finding_of r.bad_hex ≡ bad_hex the_readers (string_of string.now)) }
    ensures bad_regex { IfOk result (λ r. option_map finding_of r.bad_regex ≡ bad_regex the_readers (string_of string.now)) }
    ensures greedy { IfOk result (λ r. r.greedy ≡ spec.string_greed the_readers (string_of string.now)) }
    ensures variants { IfOk result (λ r. map variant_of r.variants.items ≡ spec.string_variants the_readers (string_of string.now)) }
{
    match &string.body {
        StringBody::Text(text) => Ok(PatternRead {
            bad_hex: None,
            bad_regex: None,
            greedy: false,
            variants: variants(alloc, text, modifiers)?,
        }),
        StringBody::Hex(text) => read_hex_string(alloc, &string.name, text),
        StringBody::Regex(regex) => read_regex_string(alloc, &string.name, regex, modifiers),
    }
}
