//! An image with four rules in two namespaces, its matches, and reports on it.

use std::alloc::{AllocError, Global};

/// The first bytes of its pool: the names. Behind them stands every byte, from 00 to ff.
const NAMES: &[u8] = b"defaultnagptuk";

/// The rows of its sections as numbers of 32 bits: rules, notes, strings, a node, and code.
const RULES: [u32; 40] = [
    8,
    1,
    0,
    7,
    0,
    2,
    0,
    2,
    0,
    7, // a
    9,
    0x0001_0001,
    7,
    0,
    2,
    1,
    2,
    2,
    7,
    1, // g, global, in n
    10,
    0x0002_0001,
    7,
    0,
    3,
    0,
    4,
    2,
    0,
    7, // p, private
    11,
    1,
    7,
    0,
    3,
    0,
    6,
    2,
    7,
    1, // t, in n
];

const NOTES: [u32; 42] = [
    0,
    11,
    1,
    0,
    0,
    0, // the tag t
    1,
    13,
    1,
    256,
    14,
    0, // k, every byte
    0,
    12,
    1,
    0,
    0,
    0, // the tag u
    2,
    13,
    1,
    0,
    0,
    0x8000_0000, // k, the least number
    2,
    13,
    1,
    0,
    0xffff_ffff,
    0x7fff_ffff, // k, the greatest
    3,
    13,
    1,
    0,
    1,
    0, // k, true
    3,
    13,
    1,
    0,
    0,
    0, // k, false
];

const STRINGS: [u32; 12] = [
    8, 1, 0, 0, // $a of a
    10, 1, 1, 0, // $p of a, private
    0, 0, 0, 1, // $ of g
];

const NODE: [u32; 6] = [0; 6];

const CODE: [u32; 8] = [0x0103, 0, 0, 0, 0, 0, 0, 0];

const LENGTH: u32 = 862;

const COUNTS: [u32; 14] = [4, 7, 0, 3, 0, 0, 0, 0, 1, 0, 0, 0, 8, 270];

/// The text of every byte between quotes.
pub const EVERY_BYTE: &str =
    "\"\\x00\\x01\\x02\\x03\\x04\\x05\\x06\\x07\\x08\\x09\\x0a\\x0b\\x0c\\x0d\\x0e\\x0f\
    \\x10\\x11\\x12\\x13\\x14\\x15\\x16\\x17\\x18\\x19\\x1a\\x1b\\x1c\\x1d\\x1e\\x1f !\
    \\\"#$%&'()*+,-./0123456789:;<=>?@ABCDEFGHIJKLMNOPQRSTUVWXYZ[\\\\]^_`abcdefghijklmno\
    pqrstuvwxyz{|}~\\x7f\\x80\\x81\\x82\\x83\\x84\\x85\\x86\\x87\\x88\\x89\\x8a\\x8b\
    \\x8c\\x8d\\x8e\\x8f\\x90\\x91\\x92\\x93\\x94\\x95\\x96\\x97\\x98\\x99\\x9a\\x9b\
    \\x9c\\x9d\\x9e\\x9f\\xa0\\xa1\\xa2\\xa3\\xa4\\xa5\\xa6\\xa7\\xa8\\xa9\\xaa\\xab\
    \\xac\\xad\\xae\\xaf\\xb0\\xb1\\xb2\\xb3\\xb4\\xb5\\xb6\\xb7\\xb8\\xb9\\xba\\xbb\
    \\xbc\\xbd\\xbe\\xbf\\xc0\\xc1\\xc2\\xc3\\xc4\\xc5\\xc6\\xc7\\xc8\\xc9\\xca\\xcb\
    \\xcc\\xcd\\xce\\xcf\\xd0\\xd1\\xd2\\xd3\\xd4\\xd5\\xd6\\xd7\\xd8\\xd9\\xda\\xdb\
    \\xdc\\xdd\\xde\\xdf\\xe0\\xe1\\xe2\\xe3\\xe4\\xe5\\xe6\\xe7\\xe8\\xe9\\xea\\xeb\
    \\xec\\xed\\xee\\xef\\xf0\\xf1\\xf2\\xf3\\xf4\\xf5\\xf6\\xf7\\xf8\\xf9\\xfa\\xfb\
    \\xfc\\xfd\\xfe\\xff\"";

/// The matches of its strings.
pub const LISTS: [&[(u32, u32)]; 3] = [
    &[(0, 1), (0x1a, 2), (u32::MAX, u32::MAX)],
    &[(5, 1)],
    &[(16, 10)],
];

// Numbers, the lowest byte first.
fn put(bytes: &mut Vec<u8>, numbers: &[u32]) -> Result<(), AllocError> {
    for n in numbers {
        bytes.extend_from_slice(&n.to_le_bytes())?;
    }
    Ok(())
}

/// Its bytes.
pub fn sample(alloc: Global) -> Result<Vec<u8>, AllocError> {
    let mut bytes = Vec::from_slice(alloc, &[0x59, 0x52, 0x49, 2])?;
    put(&mut bytes, &[LENGTH])?;
    for rows in [
        COUNTS.as_slice(),
        RULES.as_slice(),
        NOTES.as_slice(),
        STRINGS.as_slice(),
        NODE.as_slice(),
    ] {
        put(&mut bytes, rows)?;
    }
    for _ in 0..4 {
        put(&mut bytes, &CODE)?;
    }
    bytes.extend_from_slice(NAMES)?;
    for byte in 0..=255u8 {
        bytes.push(byte)?;
    }
    Ok(bytes)
}
