//! The checks on a text.

use crate::gathering::gathered;
use anyhow::bail;
use std::alloc::Global;
use yr_checking::resolve;
use yr_checks::{ResolveFault, Unit};
use yr_modules::elf::elf_names;
use yr_parser::parse;

/// Whether the checks pass, or the one that refuses the text.
#[tactic(auto, using(crate::proofs::UnitLemmas::default_word, crate::proofs::UnitLemmas::one_unit, crate::proofs::UnitLemmas::no_externals))]
pub fn said(alloc: Global, text: &[u8]) -> anyhow::Result<String> {
    let tokens = gathered(alloc, text)?;
    let Ok(names) = elf_names(alloc) else {
        bail!("no memory");
    };
    let decls = parse(alloc, &tokens)?;
    let mut units = Vec::new(alloc);
    units.push(Unit {
        namespace: Vec::from_slice(alloc, b"default")?,
        decls,
    })?;
    match resolve(alloc, &units, &names, &[]) {
        Ok(_) => Ok(String::from_str(alloc, "checked")?),
        Err(ResolveFault::Refused(refusal)) => {
            let check = refusal.check;
            Ok(format!(in alloc; "refused by check {check}")?)
        }
        Err(ResolveFault::NoMemory) => bail!("no memory"),
    }
}
