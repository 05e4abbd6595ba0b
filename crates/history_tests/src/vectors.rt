//! Version vectors and stamps.

use stamp::{GREATEST_NUMBER, ReplicaNo, Vector, VectorFault, lift};
use std::alloc::{AllocError, Global};
use ua_binary::{Cursor, TryClone};

/// The vector of these replicas and numbers; a pair outside the limits is left out.
fn vector_of(entries: &[(u8, u64)]) -> Vector {
    let mut vector = Vector::new();
    for (replica, number) in entries {
        if let Some(replica) = ReplicaNo::new(*replica)
            && *number <= GREATEST_NUMBER
        {
            vector.raise(replica, *number);
        }
    }
    vector
}

/// Whether a vector is written as these bytes and read again from them, all of them.
fn there_and_back(alloc: Global, vector: &Vector, bytes: &[u8]) -> bool {
    let mut out = Vec::new(alloc);
    let written = vector.put(&mut out).is_ok() && out.as_slice() == bytes;
    let mut cursor = Cursor::new(bytes);
    let read = Vector::read(&mut cursor).is_ok_and(|v| v == *vector);
    written && read && cursor.rest().is_empty()
}

#[test]
fn vectors(rt: HostRuntime) {
    let alloc = rt.alloc();
    assert!(rt; there_and_back(alloc, &Vector::new(), &[0]));
    let two = [2u8, 1, 1, 0, 0, 0, 0, 0, 0, 0, 2, 3, 0, 0, 0, 0, 0, 0, 0];
    assert!(rt; there_and_back(alloc, &vector_of(&[(2, 3), (1, 1)]), &two));
    let last = [1u8, 64, 255, 255, 255, 255, 255, 255, 255, 63];
    assert!(rt; there_and_back(alloc, &vector_of(&[(64, GREATEST_NUMBER)]), &last));
}

#[test]
fn refused_vectors(rt: HostRuntime) {
    let refused = [
        (
            [2u8, 2, 3, 0, 0, 0, 0, 0, 0, 0, 1, 1, 0, 0, 0, 0, 0, 0, 0].as_slice(),
            VectorFault::NotAscending,
        ),
        (
            &[2, 1, 3, 0, 0, 0, 0, 0, 0, 0, 1],
            VectorFault::NotAscending,
        ),
        (&[0x41], VectorFault::BadNumber),
        (&[1, 0, 1, 0, 0, 0, 0, 0, 0, 0], VectorFault::BadNumber),
        (&[1, 65], VectorFault::BadNumber),
        (&[1, 1, 0, 0, 0, 0, 0, 0, 0, 0], VectorFault::BadNumber),
        (&[1, 1, 0, 0, 0, 0, 0, 0, 0, 64], VectorFault::BadNumber),
        (&[], VectorFault::Binary),
        (&[1], VectorFault::Binary),
        (&[1, 1], VectorFault::Binary),
        (&[1, 1, 1, 0, 0, 0, 0, 0, 0], VectorFault::Binary),
    ];
    for (bytes, fault) in refused {
        let mut cursor = Cursor::new(bytes);
        assert!(rt; Vector::read(&mut cursor) == Err(fault), "at {bytes:?}");
        assert_eq!(rt; cursor.rest(), bytes);
    }
}

#[test]
fn lifted(rt: HostRuntime) {
    let told = [
        (100i64, 0i64, Some(100i64)),
        (100, 864_000_000_100, Some(864_000_000_101)),
        (-5, 0, Some(1)),
        (i64::MAX, 0, Some(4_611_686_018_427_387_903)),
        (
            0,
            4_611_686_018_427_387_902,
            Some(4_611_686_018_427_387_903),
        ),
        (0, 4_611_686_018_427_387_903, None),
        (0, i64::MAX, None),
    ];
    for (now, top, tick) in told {
        assert!(rt; lift(now, top) == tick);
    }
}

#[test]
fn copies_and_faults(rt: HostRuntime) {
    let vector = vector_of(&[(1, 4)]);
    let copied: Result<Vector, AllocError> = vector.try_clone();
    assert!(rt; copied.is_ok_and(|v| v == vector));
    let faults = [
        VectorFault::NotAscending,
        VectorFault::BadNumber,
        VectorFault::Binary,
        VectorFault::OutOfMemory,
    ];
    for i in 0..4 {
        assert!(rt; faults[i].number() as usize == i + 1);
    }
}
