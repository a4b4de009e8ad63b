//! The checks on rule files in their order, what each finds, and the checked rules where none fails.
#![tactic(auto)]

mod at_hand;
mod copying;
mod early;
mod expressions;
mod finding;
mod items;
mod judging;
mod known;
mod late;
mod light;
mod names_twice;
mod read_string;
mod refusing;
mod resolving;
mod sorting;
mod space;
mod stages;
mod strings;
mod tables;
mod text_sizes;
mod texts;
mod unused;
mod used;
mod walking;

pub use copying::{copy_bytes, copy_externals, copy_meta, copy_tags};
pub use expressions::{ExpressionFindings, first_expression_findings};
pub use finding::{Finding, Named, found, named_bytes, string_name, where_true};
pub use items::{Placed, placed_items};
pub use names_twice::{string_twice, tag_twice};
pub use resolving::resolve;
pub use strings::{StringFindings, checked_strings, string_findings};
pub use tables::{external_names, string_names, wildcards};
pub use texts::{first_bad_modifiers, first_empty};
pub use unused::first_unused;
pub use used::{first_unknown_name, first_unknown_string, some_deep, some_long};
pub use yr_name_tables::has_front;
