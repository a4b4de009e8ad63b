//! What a search may pass over or look up, made once for an image.

/// Pairs of bytes at node 0, nodes without outputs, and where each byte leads from each of the first nodes.
#[derive(Drop)]
pub(crate) struct Skips {
    pub(crate) live: Vec<bool>,
    pub(crate) flags: Vec<bool>,
    pub(crate) rows: Vec<u32>,
}
