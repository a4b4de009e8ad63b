//! What is gathered while hits come.

/// The matches of each string and, for each split, the hits that are left for later, each the number of bytes up to its
/// atom's end, and how many moves the runs of its other hits looked at.
#[derive(Drop)]
pub(crate) struct Gathered {
    pub(crate) lists: Vec<Vec<(u32, u32)>>,
    pub(crate) later: Vec<Vec<u32>>,
    pub(crate) spent: Vec<u64>,
}
