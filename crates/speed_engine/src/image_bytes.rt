//! Images as bytes.

use std::alloc::{AllocError, Global};

/// Puts numbers of four bytes, the lowest byte first.
pub fn put(bytes: &mut Vec<u8>, numbers: &[u32]) -> Result<(), AllocError> {
    for n in numbers {
        bytes.extend_from_slice(&n.to_le_bytes())?;
    }
    Ok(())
}

/// An image: the header with how many rows each section has, and the rows behind it.
pub fn with_header(alloc: Global, counts: &[u32; 14], rows: &[u8]) -> Result<Vec<u8>, AllocError> {
    let mut bytes = Vec::new(alloc);
    bytes.extend_from_slice(&[0x59, 0x52, 0x49, 2])?;
    let length = (rows.len() as u64).wrapping_add(64);
    bytes.extend_from_slice(&length.to_le_bytes()[..4])?;
    put(&mut bytes, counts)?;
    bytes.extend_from_slice(rows)?;
    Ok(bytes)
}
