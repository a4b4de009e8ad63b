//! Images that are made row by row.

use std::alloc::{AllocError, Global};

/// The sections of an image, and how many rows each has.
#[derive(Drop)]
pub struct Draft {
    pub counts: [u32; 14],
    pub rows: Vec<u8>,
}

impl Draft {
    /// No rows.
    pub fn new(alloc: Global) -> Draft {
        Draft {
            counts: [0; 14],
            rows: Vec::new(alloc),
        }
    }

    /// Puts numbers of four bytes, the lowest byte first.
    pub fn put(&mut self, numbers: &[u32]) -> Result<(), AllocError> {
        for n in numbers {
            self.rows.extend_from_slice(&n.to_le_bytes())?;
        }
        Ok(())
    }

    /// Puts eight letters that spell a number.
    pub fn put_letters(&mut self, number: u32) -> Result<(), AllocError> {
        for place in 0..8u32 {
            let digit = number >> (place * 4) & 15;
            self.rows.push(b'a' + (digit as u8 & 15))?;
        }
        Ok(())
    }

    /// The bytes of the image: the header, and the rows behind it.
    pub fn image(&self, alloc: Global) -> Result<Vec<u8>, AllocError> {
        let mut bytes = Vec::new(alloc);
        bytes.extend_from_slice(&[0x59, 0x52, 0x49, 2])?;
        let length = (self.rows.len() as u64).wrapping_add(64);
        bytes.extend_from_slice(&length.to_le_bytes()[..4])?;
        for count in &self.counts {
            bytes.extend_from_slice(&count.to_le_bytes())?;
        }
        bytes.extend_from_slice(&self.rows)?;
        Ok(bytes)
    }
}
