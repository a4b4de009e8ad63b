//! What stands round a rule.

ghost use Rattle.std.specs.Prelude.{◌≡◌, length, map};
ghost use Rattle.yr_rules.specs.Rules.{external_of};

use yr_name_tables::Numbered;
use yr_rules::External;
use yr_values::Module;

/// What a rule's names are looked up in.
#[derive(Drop)]
pub struct Around<'c, 'a> {
    pub modules: &'a [Module],
    /// The names of the imported modules.
    pub imports: &'c Numbered<'a>,
    pub externals: &'a [External],
    pub external_names: &'c Numbered<'a>,
    /// The earlier rules of the namespace, and their numbers.
    pub rules: &'c Numbered<'a>,
    pub rule_numbers: &'c [u32],
    pub strings: &'c Numbered<'a>,
    /// The number of the first string.
    pub first_string: u32,
    ghost named: { external_names.now ≡ map (λ e. e.name) (map external_of externals.now) },
    ghost numbered: { length rule_numbers.now ≡ length rules.now },
}
