//! Continuation points: which bytes are one, and that each has one spelling.

use hist_read::{put_continuation, read_continuation};
use history_rows::points::{NONE, POINT, Patch, patched};
use std::alloc::{AllocError, Global};
use std::test::Fail;

/// Changes of the bytes, and whether they are a point still.
static PATCHED: [(Patch, Patch, bool); 33] = [
    (NONE, NONE, true),
    ((0, 1, 0), NONE, false),
    ((0, 1, 1), NONE, false),
    ((0, 1, 2), NONE, false),
    ((0, 1, 4), NONE, false),
    ((71, 72, 0), NONE, false),
    ((71, 72, 2), NONE, false),
    ((72, 73, 0), NONE, false),
    ((72, 73, 64), NONE, true),
    ((72, 73, 65), NONE, false),
    ((73, 74, 0), NONE, false),
    ((80, 81, 0x40), NONE, false),
    ((1, 17, 9), NONE, true),
    ((17, 18, 6), NONE, false),
    ((17, 18, 5), NONE, true),
    ((20, 21, 2), NONE, false),
    ((24, 25, 0xFF), NONE, false),
    ((25, 26, 1), NONE, false),
    ((25, 26, 2), NONE, false),
    ((25, 26, 1), (62, 67, 1), true),
    ((46, 47, 1), NONE, true),
    ((46, 47, 2), NONE, false),
    ((47, 48, 0), NONE, false),
    ((47, 48, 1), NONE, false),
    ((47, 48, 1), (46, 47, 1), true),
    ((47, 48, 3), NONE, false),
    ((48, 56, 0), NONE, false),
    ((55, 56, 0x80), NONE, false),
    ((58, 59, 1), (66, 67, 1), false),
    ((58, 59, 1), (25, 26, 1), false),
    ((66, 67, 65), (25, 59, 1), false),
    ((67, 68, 1), NONE, false),
    ((67, 68, 1), (26, 34, 0), true),
];

/// Whether a point in these bytes is written as they are.
fn is_rewritten(alloc: Global, bytes: &[u8]) -> bool {
    let Some(place) = read_continuation(bytes) else {
        return false;
    };
    let mut out = Vec::new(alloc);
    place.is_well_formed() && put_continuation(&mut out, &place).is_ok() && out.as_slice() == bytes
}

#[test]
fn points_are_read_and_written(rt: HostRuntime) -> Result<(), Fail> {
    for (first, second, there) in &PATCHED {
        let bytes = patched(rt.alloc(), *first, *second)?;
        assert_eq!(rt;
            read_continuation(&bytes).is_some(),
            *there,
            "{first:?} {second:?}"
        );
        assert_eq!(rt;
            is_rewritten(rt.alloc(), &bytes),
            *there,
            "{first:?} {second:?}"
        );
    }
    Ok(())
}

/// Other spellings of the node, and whether each is the one that is written.
static NODES: [(&[u8], bool); 12] = [
    (&[0, 0x55], true),
    (&[1, 0, 0x55, 0], false),
    (&[1, 1, 0x55, 0], true),
    (&[2, 1, 0, 0x55, 0, 0, 0], false),
    (&[2, 0, 1, 0x55, 0, 0, 0], true),
    (&[3, 1, 0, 0xFF, 0xFF, 0xFF, 0xFF], false),
    (&[3, 1, 0, 0, 0, 0, 0], true),
    (
        &[
            4, 1, 0, 1, 2, 3, 4, 5, 6, 7, 8, 9, 10, 11, 12, 13, 14, 15, 16,
        ],
        true,
    ),
    (&[5, 1, 0, 0xFF, 0xFF, 0xFF, 0xFF], false),
    (&[5, 1, 0, 0, 0, 0, 0], true),
    (&[5, 1, 0, 2, 0, 0, 0, 0x80, 0xFF], true),
    (&[6, 0x55], false),
];

/// The point with these bytes as its node.
fn with_node(alloc: Global, node: &[u8]) -> Result<Vec<u8>, AllocError> {
    let mut bytes = Vec::new(alloc);
    bytes.extend_from_slice(&POINT[..17])?;
    bytes.extend_from_slice(node)?;
    bytes.extend_from_slice(&POINT[25..])?;
    Ok(bytes)
}

#[test]
fn nodes_have_one_spelling(rt: HostRuntime) -> Result<(), Fail> {
    for (node, there) in &NODES {
        let bytes = with_node(rt.alloc(), node)?;
        assert_eq!(rt; read_continuation(&bytes).is_some(), *there, "{node:?}");
        assert_eq!(rt; is_rewritten(rt.alloc(), &bytes), *there, "{node:?}");
    }
    Ok(())
}

#[test]
fn points_are_whole(rt: HostRuntime) {
    for end in 0..POINT.len() {
        assert!(rt; read_continuation(&POINT[..end]).is_none(), "{end}");
    }
}
