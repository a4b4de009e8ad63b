//! The values that words give, as externals of rules.

ghost use Rattle.std.specs.Prelude.{◌≡◌, IfOk, map};
ghost use Rattle.yr_rules.specs.Rules as rules;
ghost use Rattle.yr_words.specs.Shown.{value_shown, given_shown};
ghost use Rattle.yr_outcome.specs.Front as front;

use std::alloc::Global;
use yr_base::NoMemory;
use yr_rules::{External, ExternalValue};
use yr_words::{Given, GivenValue};

fn value_of(alloc: Global, value: &GivenValue<'_>) -> Result<ExternalValue, NoMemory>
    ensures { IfOk result (λ v. rules.external_value v ≡ value_shown value.now) }
{
    match value {
        GivenValue::Number(number) => Ok(ExternalValue::Number(*number)),
        GivenValue::Flag(flag) => Ok(ExternalValue::Flag(*flag)),
        GivenValue::Text(text) => Ok(ExternalValue::Text(Vec::from_slice(alloc, text.as_bytes())?)),
    }
}

fn external_of(alloc: Global, given: &Given<'_>) -> Result<External, NoMemory>
    ensures { IfOk result (λ e. rules.external_of e ≡ front.external_of (given_shown given.now)) }
{
    let name = String::from_str(alloc, given.name)?;
    let value = value_of(alloc, &given.value)?;
    Ok(External { name, value })
}

/// The externals that these words give.
pub fn externals_of(alloc: Global, givens: &[Given<'_>]) -> Result<Vec<External>, NoMemory>
    ensures { IfOk result (λ es. map rules.external_of es.items ≡ map front.external_of (map given_shown givens.now)) }
{
    let mut externals = Vec::new(alloc);
    for given in givens {
        externals.push(external_of(alloc, given)?)?;
    }
    Ok(externals)
}
