//! Copies of what a rule and the externals lend.

ghost use Rattle.std.specs.Prelude.{◌≡◌, IfOk, map};
ghost use Rattle.yr_rules.specs.Rules.{external_of};
ghost use Rattle.yr_rules.specs.Rules as spec;
ghost use Rattle.yr_syntax.specs.Declaration.{bytes_of, meta_of, value_of};

use std::alloc::Global;
use yr_base::NoMemory;
use yr_rules::{External, ExternalValue};
use yr_syntax::{Meta, MetaValue};

pub fn copy_bytes(alloc: Global, bytes: &[u8]) -> Result<Vec<u8>, NoMemory>
    ensures { IfOk result (λ copy. copy.items ≡ bytes.now) }
{
    let copy = Vec::from_slice(alloc, bytes)?;
    Ok(copy)
}

pub fn copy_tags(alloc: Global, tags: &[Vec<u8>]) -> Result<Vec<Vec<u8>>, NoMemory>
    ensures { IfOk result (λ copy. map bytes_of copy.items ≡ map bytes_of tags.now) }
{
    let mut all = Vec::new(alloc);
    for tag in tags {
        all.push(copy_bytes(alloc, tag)?)?;
    }
    Ok(all)
}

fn copy_value(alloc: Global, value: &MetaValue) -> Result<MetaValue, NoMemory>
    ensures { IfOk result (λ copy. value_of copy ≡ value_of value.now) }
{
    match value {
        MetaValue::Text(text) => Ok(MetaValue::Text(copy_bytes(alloc, text)?)),
        MetaValue::Number(number) => Ok(MetaValue::Number(*number)),
        MetaValue::Flag(flag) => Ok(MetaValue::Flag(*flag)),
    }
}

fn copy_entry(alloc: Global, entry: &Meta) -> Result<Meta, NoMemory>
    ensures { IfOk result (λ copy. meta_of copy ≡ meta_of entry.now) }
{
    let key = copy_bytes(alloc, &entry.key)?;
    let value = copy_value(alloc, &entry.value)?;
    Ok(Meta { key, value })
}

pub fn copy_meta(alloc: Global, meta: &[Meta]) -> Result<Vec<Meta>, NoMemory>
    ensures { IfOk result (λ copy. map meta_of copy.items ≡ map meta_of meta.now) }
{
    let mut all = Vec::new(alloc);
    for entry in meta {
        all.push(copy_entry(alloc, entry)?)?;
    }
    Ok(all)
}

fn copy_external_value(alloc: Global, value: &ExternalValue) -> Result<ExternalValue, NoMemory>
    ensures { IfOk result (λ copy. spec.external_value copy ≡ spec.external_value value.now) }
{
    match value {
        ExternalValue::Text(text) => Ok(ExternalValue::Text(copy_bytes(alloc, text)?)),
        ExternalValue::Number(number) => Ok(ExternalValue::Number(*number)),
        ExternalValue::Flag(flag) => Ok(ExternalValue::Flag(*flag)),
    }
}

fn copy_external(alloc: Global, external: &External) -> Result<External, NoMemory>
    ensures { IfOk result (λ copy. external_of copy ≡ external_of external.now) }
{
    let name = String::from_str(alloc, external.name.as_str())?;
    let value = copy_external_value(alloc, &external.value)?;
    Ok(External { name, value })
}

pub fn copy_externals(alloc: Global, externals: &[External]) -> Result<Vec<External>, NoMemory>
    ensures { IfOk result (λ copy. map external_of copy.items ≡ map external_of externals.now) }
{
    let mut all = Vec::new(alloc);
    for external in externals {
        all.push(copy_external(alloc, external)?)?;
    }
    Ok(all)
}
