//! A rule with what stands before it.

use crate::Placed;
use crate::space::Space;
use yr_name_tables::Numbered;
use yr_rules::External;
use yr_syntax::Rule;
use yr_values::ModuleNames;

/// A rule, where it stands, and what the checks look at.
#[derive(Drop)]
pub struct AtHand<'c, 'a> {
    pub names: &'a ModuleNames,
    pub externals: &'a [External],
    pub external_names: &'c Numbered<'a>,
    /// The imports and rules of all units.
    pub items: &'c [Placed<'a>],
    /// The rule's place among them.
    pub place: usize,
    pub unit: u32,
    pub namespace: &'a [u8],
    pub rule: &'a Rule,
    /// What is kept of the namespace.
    pub space: &'c Space<'a>,
}
