//! A continuation point, and changes of its bytes.

use std::alloc::{AllocError, Global};

/// Of ns=1;s=T, from 5:00 to 5:07, two a page: the place behind 5:02, of five records of replica 1.
pub static POINT: [u8; 81] = [
    3, 0, 0, 0, 0, 0, 0, 0, 0, 0, 0, 0, 0, 0, 0, 0, 0, 3, 1, 0, 1, 0, 0, 0, 0x54, 0, 0, 8, 0xD6,
    0xE8, 0x29, 0, 0, 0, 0, 0xF2, 0x2C, 0xE3, 0x2A, 0, 0, 0, 2, 0, 0, 0, 0, 2, 0, 0x94, 0x5C, 0x30,
    0x2A, 0, 0, 0, 0, 0, 0, 0, 0, 0, 0, 0, 0, 0, 0, 0, 0, 0, 0, 1, 1, 5, 0, 0, 0, 0, 0, 0, 0,
];

/// The bytes from one index to another are this one.
pub type Patch = (usize, usize, u8);

/// No byte is changed.
pub const NONE: Patch = (0, 0, 0);

/// The point with two changes.
pub fn patched(alloc: Global, first: Patch, second: Patch) -> Result<Vec<u8>, AllocError> {
    let mut bytes = Vec::new(alloc);
    for (i, byte) in POINT.iter().enumerate() {
        if first.0 <= i && i < first.1 {
            bytes.push(first.2)?;
        } else if second.0 <= i && i < second.1 {
            bytes.push(second.2)?;
        } else {
            bytes.push(*byte)?;
        }
    }
    Ok(bytes)
}
