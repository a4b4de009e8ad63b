//! The tokens of a text as those of a rule file.

use anyhow::bail;
use std::alloc::Global;
use yr_base::MemoryStore;
use yr_lexer::{Tokens, gather};

const NAME: &str = "made.yar";

/// The tokens of a text as those of a file.
pub fn gathered(alloc: Global, text: &[u8]) -> anyhow::Result<Tokens> {
    let Ok(mut store) = MemoryStore::new(alloc) else {
        bail!("no memory");
    };
    let Ok(()) = store.add(alloc, NAME, text) else {
        bail!("no memory");
    };
    let tokens = gather(alloc, &mut store, NAME)?;
    Ok(tokens)
}
