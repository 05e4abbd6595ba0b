//! The bytes of a record.

use records::{Record, read_record};
use std::alloc::Global;

/// Insert 7 at source time 10 of node ns=1;s=T, the first record of replica 1, with tick 100.
pub const INSERT_7: [u8; 50] = [
    2, 1, 1, 0, 0, 0, 0, 0, 0, 0, 100, 0, 0, 0, 0, 0, 0, 0, 3, 1, 0, 1, 0, 0, 0, b'T', 10, 0, 0, 0,
    0, 0, 0, 0, 0, 0, 1, 3, 0, 0, 0, b'a', b'n', b'n', 1, 6, 7, 0, 0, 0,
];

/// Whether the bytes are read as this record.
fn is_read_as(alloc: Global, bytes: &[u8], wanted: &Record) -> bool {
    match read_record(alloc, bytes) {
        Ok(r) => r == *wanted,
        Err(_) => false,
    }
}

/// Whether a record is the one that the bytes of Insert 7 are read as.
pub fn is_insert_7(alloc: Global, held: &Record) -> bool {
    is_read_as(alloc, &INSERT_7, held)
}
