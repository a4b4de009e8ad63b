//! What words mean.

ghost use Rattle.std.specs.Prelude.{◌≡◌, length};
ghost use Rattle.std.specs.Option.{option_map};
ghost use Rattle.yr_conditions.specs.Around.{around_of};
ghost use Rattle.yr_conditions.specs.Meanings as spec;
ghost use Rattle.yr_conditions.specs.UseViews.{earlier_rules, shown};

use crate::around::Around;
use crate::meaning::Meaning;
use crate::module::find_module;
use crate::scopes::Scopes;
use yr_name_tables::Numbered;

/// The first module of that name, where it is imported.
fn imported_module<'a>(around: &Around<'_, 'a>, word: &[u8]) -> Option<Meaning<'a>>
    ensures { option_map shown result ≡ option_map spec.Module (spec.module_named (around_of around.now).modules word.now) }
{
    if !around.imports.has(word) {
        return None;
    }
    match find_module(around.modules, word) {
        Some(module) => Some(Meaning::Module(module)),
        None => None,
    }
}

/// The number of the earlier rule of that name.
pub fn earlier_rule(rules: &Numbered<'_>, numbers: &[u32], word: &[u8]) -> Option<u32>
    requires { length numbers.now ≡ length rules.now }
    ensures { result ≡ spec.rule_named (earlier_rules rules.now numbers.now) word.now }
{
    match rules.number(word) {
        Some(place) => Some(numbers[place]),
        None => None,
    }
}

/// What a word means, in this order: the innermost loop variable, an imported module, an external, an earlier rule of the namespace.
pub fn word_meaning<'a>(around: &Around<'_, 'a>, word: &[u8], scopes: &Scopes<'a>) -> Meaning<'a>
    ensures { shown result ≡ spec.meaning_of (around_of around.now) word.now scopes.now }
{
    if let Some(variable) = scopes.variable(word) {
        return variable;
    }
    if let Some(module) = imported_module(around, word) {
        return module;
    }
    if let Some(number) = around.external_names.number(word) {
        return Meaning::External(number);
    }
    match earlier_rule(around.rules, around.rule_numbers, word) {
        Some(number) => Meaning::RuleTruth(number),
        None => Meaning::Unknown,
    }
}
