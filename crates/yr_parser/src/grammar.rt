//! The reader of conditions.

use std::alloc::Global;

/// Reads the parts of a condition. What stands between brackets is read by a function that is passed in, so that each part is
/// proved by itself.
#[derive(Clone, Copy)]
pub struct Grammar<F> {
    pub alloc: Global,
    /// How deep brackets may still nest.
    pub depth: usize,
    pub inner: F,
}
