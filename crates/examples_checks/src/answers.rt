//! What the parser and the checks say of rule files.

ghost use Rattle.std.specs.Prelude.{◌≡◌, IfOk, OnOk, map};
ghost use Rattle.yr_rules.specs.Rules.{external_of};
ghost use Rattle.yr_rules.specs.Wellformed.{IsShortWord};
ghost use Rattle.yr_checks.specs.Resolving.{AreExternals, AreUnits, IsUnit};
ghost use Rattle.yr_checks.specs.Sources.{unit_of};

use crate::texts::spread;
use std::alloc::Global;
use std::test::Fail;
use yr_base::MemoryStore;
use yr_checking::resolve;
use yr_checks::{External, ExternalValue, Refusal, ResolveFault, Unit};
use yr_lexer::gather;
use yr_modules::elf::elf_names;
use yr_parser::parse;

const NAME: &str = "r.yar";

fn external(alloc: Global, name: &str, value: ExternalValue) -> Result<External, Fail>
    ensures { IfOk result (λ e. (external_of e).name ≡ name.now) }
{
    let name = String::from_str(alloc, name)?;
    Ok(External { name, value })
}

/// The externals `n` and `elf`, numbers, and `name`, a text.
#[tactic(auto, using(crate::proofs::RowLemmas::three_fit))]
pub fn externals(alloc: Global) -> Result<Vec<External>, Fail>
    ensures { IfOk result (λ all. AreExternals (map external_of all.items)) }
{
    let text = Vec::from_slice(alloc, b"abc")?;
    let first = external(alloc, "n", ExternalValue::Number(5))?;
    let second = external(alloc, "name", ExternalValue::Text(text))?;
    let third = external(alloc, "elf", ExternalValue::Number(7))?;
    let mut all = Vec::new(alloc);
    all.push(first)?;
    all.push(second)?;
    all.push(third)?;
    Ok(all)
}

// The namespace before `::`, and the text behind it.
#[tactic(auto, using(crate::proofs::RowLemmas::default_word, crate::proofs::RowLemmas::d_word, crate::proofs::RowLemmas::e_word))]
fn parted(row: &str) -> (&'static [u8], &str)
    ensures { IsShortWord result.0.now }
{
    match row.split_once("::") {
        Some(("e", text)) => (b"e", text),
        Some((_, text)) => (b"d", text),
        None => (b"default", row),
    }
}

// The declarations of a rule file, or its fault.
fn unit(alloc: Global, space: &[u8], text: &[u8]) -> Result<Result<Unit, String>, Fail>
    requires { IsShortWord space.now }
    ensures { IfOk result (λ r. IfOk r (λ u. IsUnit (unit_of u))) }
{
    let mut store = MemoryStore::new(alloc)?;
    store.add(alloc, NAME, text)?;
    let tokens = match gather(alloc, &mut store, NAME) {
        Ok(tokens) => tokens,
        Err(fault) => return Ok(Err(format!(in alloc; "{fault:?}")?)),
    };
    let decls = match parse(alloc, &tokens) {
        Ok(decls) => decls,
        Err(fault) => return Ok(Err(format!(in alloc; "{fault:?}")?)),
    };
    let namespace = Vec::from_slice(alloc, space)?;
    Ok(Ok(Unit { namespace, decls }))
}

// The check, the code, unit and line, the rule's number, what is named and the place.
fn refused(alloc: Global, refusal: &Refusal) -> Result<String, Fail> {
    let mut text = format!(in alloc;
        "{} {:?} {}:{}",
        refusal.check, refusal.code, refusal.unit, refusal.line
    )?;
    if let Some(rule) = refusal.rule {
        text.push_str(format!(in alloc; " {rule}")?.as_str())?;
    }
    if !refusal.named.is_empty() {
        text.push(' ')?;
    }
    for byte in &refusal.named {
        text.push(*byte as char)?;
    }
    if let Some(place) = refusal.place {
        text.push_str(format!(in alloc; " at {place}")?.as_str())?;
    }
    Ok(text)
}

// The counts of rules and strings, or the refusal.
fn said(alloc: Global, units: &[Unit], externals: &[External]) -> Result<String, Fail>
    requires units { AreUnits (map unit_of units.now) }
    requires externals { AreExternals (map external_of externals.now) }
{
    let names = elf_names(alloc)?;
    match resolve(alloc, units, &names, externals) {
        Ok(rules) => {
            let (rule_count, string_count) = (rules.rules().len(), rules.strings().len());
            Ok(format!(in alloc; "{rule_count} {string_count}")?)
        }
        Err(ResolveFault::NoMemory) => Ok(String::from_str(alloc, "no memory")?),
        Err(ResolveFault::Refused(refusal)) => refused(alloc, &refusal),
    }
}

// Adds a rule file, where there are not too many.
#[tactic(auto, using(crate::proofs::RowLemmas::unit_added))]
fn add(units: &mut Vec<Unit>, unit: Unit) -> Result<(), Fail>
    requires units { AreUnits (map unit_of units.old.items) }
    requires unit { IsUnit (unit_of unit) }
    ensures { OnOk result (AreUnits (map unit_of units.new.items)) }
{
    if units.len() < 16 {
        units.push(unit)?;
    }
    Ok(())
}

/// What is said of the rule files that stand in a row between `&&`: the counts of rules and strings, or the first
/// fault.
pub fn answer(alloc: Global, row: &str, externals: &[External]) -> Result<String, Fail>
    requires { AreExternals (map external_of externals.now) }
{
    let mut units = Vec::new(alloc);
    for part in row.split("&&") {
        let (space, part) = parted(part.trim());
        let text = spread(alloc, part)?;
        match unit(alloc, space, &text)? {
            Ok(unit) => add(&mut units, unit)?,
            Err(fault) => return Ok(fault),
        }
    }
    said(alloc, &units, externals)
}
