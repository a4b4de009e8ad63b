//! The greatest members of blocks of list rows.

ghost use Rattle.std.specs.Prelude.{◌<◌, ◌≤◌};

/// The greatest member of each block of list rows.
#[derive(Drop)]
pub struct Lists {
    pub size: u32,
    pub blocks: u32,
    pub most: [u32; 32_768],
    ghost some: { 0 < size },
    ghost room: { blocks ≤ 32768 },
}
