//! Images by their bytes.

use yr_image::ImageFault;

/// Bytes that are changed, each by itself, and the fault that comes.
pub const CHANGES: [(usize, u8, ImageFault); 12] = [
    (0, 0x58, ImageFault::Magic),
    (3, 2, ImageFault::Section(12)),
    (3, 3, ImageFault::Version),
    (4, 0x98, ImageFault::Length),
    (40, 0, ImageFault::Section(8)),
    (56, 3, ImageFault::Section(12)),
    (56, 1, ImageFault::Section(13)),
    (68, 2, ImageFault::Index(0, 0)),
    (70, 4, ImageFault::Index(0, 0)),
    (152, 0x31, ImageFault::Name(0, 0)),
    (120, 6, ImageFault::Code(0, 0)),
    (108, 1, ImageFault::Node(0)),
];

/// The image of version 1 with one rule `a` that is true of every file.
pub fn sample() -> [u8; 153] {
    let mut bytes = [0; 153];
    bytes[0] = 0x59;
    bytes[1] = 0x52;
    bytes[2] = 0x49;
    bytes[3] = 1;
    bytes[4] = 153;
    bytes[8] = 1;
    bytes[40] = 1;
    bytes[56] = 2;
    bytes[60] = 1;
    bytes[68] = 1;
    bytes[92] = 2;
    bytes[120] = 3;
    bytes[121] = 1;
    bytes[152] = b'a';
    bytes
}

/// The same in version 2, with a namespace of one byte.
pub fn spaced(name: u8) -> [u8; 162] {
    let mut bytes = [0; 162];
    bytes[0] = 0x59;
    bytes[1] = 0x52;
    bytes[2] = 0x49;
    bytes[3] = 2;
    bytes[4] = 162;
    bytes[8] = 1;
    bytes[40] = 1;
    bytes[56] = 2;
    bytes[60] = 2;
    bytes[68] = 1;
    bytes[92] = 2;
    bytes[96] = 1;
    bytes[100] = 1;
    bytes[128] = 3;
    bytes[129] = 1;
    bytes[160] = b'a';
    bytes[161] = name;
    bytes
}
