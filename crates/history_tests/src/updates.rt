//! Updates over lists in memory: what is judged, limits of lists, and a script of failures.

use archive::{Archive, Failure, StoreFault};
use history_rows::archives::{list_archive, scripted_archive};
use history_rows::codes::{
    BAD_OPERATION, BAD_TIME, EXISTS, GOOD, INSERTED, NONE_EXISTS, NOTHING_TO_DO, OTHER_TYPE,
    OUT_OF_MEMORY, REPLACED, TOO_LARGE, TOO_MANY, UNAVAILABLE,
};
use history_rows::updates::{
    INT32, Row, Stretch, code_of, delete, erase, erases, int, is_told, operates, operates_all,
    rises, tells_picoseconds_apart, update, value,
};
use std::alloc::{AllocError, Global};
use std::test::Fail;
use ua_binary::{Bytes, Status, Ticks};
use ua_services::HistoryUpdateResult;
use ua_variant::{DataValue, Scalar, ValueType, Variant};

const INT32_ARRAY: ValueType = ValueType {
    number: 6,
    array: true,
};

const BYTE_STRING: ValueType = ValueType {
    number: 15,
    array: false,
};

#[test]
fn operations_have_their_codes(rt: HostRuntime) -> Result<(), Fail> {
    let mut archive = list_archive(rt.alloc())?;
    assert!(rt; operates_all(rt.alloc(), &mut archive)?);
    Ok(())
}

#[test]
fn ticks_rise(rt: HostRuntime) -> Result<(), Fail> {
    let mut archive = list_archive(rt.alloc())?;
    assert!(rt; rises(rt.alloc(), &mut archive)?);
    Ok(())
}

#[test]
fn picoseconds_tell_values_apart(rt: HostRuntime) -> Result<(), Fail> {
    let mut archive = list_archive(rt.alloc())?;
    assert!(rt; tells_picoseconds_apart(rt.alloc(), &mut archive)?);
    Ok(())
}

/// What is written.
#[derive(Clone, Copy, Debug)]
enum Written {
    Int,
    Boolean,
    Null,
    Nothing,
    Bytes(usize),
}

fn variant(alloc: Global, written: Written) -> Result<Option<Variant>, AllocError> {
    Ok(match written {
        Written::Int => int(7),
        Written::Boolean => Some(Variant::Scalar(Scalar::Boolean(true))),
        Written::Null => Some(Variant::Null),
        Written::Nothing => None,
        Written::Bytes(count) => {
            let bytes = Bytes::new(vec![in alloc; 0; count]?);
            Some(Variant::Scalar(Scalar::ByteString(Some(bytes))))
        }
    })
}

/// Inserts: the node's type, the value, its source time, the code.
static INSERTS: [(ValueType, Written, Option<i64>, Status); 13] = [
    (INT32, Written::Int, None, BAD_TIME),
    (INT32, Written::Int, Some(0), BAD_TIME),
    (INT32, Written::Int, Some(-5), BAD_TIME),
    (INT32, Written::Boolean, Some(0), BAD_TIME),
    (INT32, Written::Boolean, Some(10), OTHER_TYPE),
    (INT32_ARRAY, Written::Int, Some(10), OTHER_TYPE),
    (INT32, Written::Bytes(1_048_576), Some(10), OTHER_TYPE),
    (BYTE_STRING, Written::Bytes(1_048_576), Some(10), TOO_LARGE),
    (BYTE_STRING, Written::Bytes(1_048_529), Some(10), TOO_LARGE),
    (BYTE_STRING, Written::Bytes(1_048_528), Some(10), INSERTED),
    (BYTE_STRING, Written::Bytes(1_048_576), Some(10), TOO_LARGE),
    (INT32, Written::Null, Some(11), INSERTED),
    (INT32, Written::Nothing, Some(12), INSERTED),
];

fn inserts<A: Archive>(
    alloc: Global,
    archive: &mut A,
    value_type: ValueType,
    written: Written,
    time: Option<i64>,
) -> Result<Status, AllocError> {
    let values = [value(variant(alloc, written)?, time)];
    let told = update(alloc, archive, 100, value_type, 1, &values)?;
    Ok(code_of(&told))
}

#[test]
fn values_are_judged(rt: HostRuntime) -> Result<(), Fail> {
    let alloc = rt.alloc();
    let mut archive = list_archive(alloc)?;
    let mut added: u64 = 0;
    for (value_type, written, time, code) in &INSERTS {
        let told = inserts(alloc, &mut archive, *value_type, *written, *time)?;
        assert!(rt; told == *code, "{written:?} {time:?}: {told:?}");
        if *code == INSERTED {
            added = added.saturating_add(1);
        }
        assert!(rt;
            archive.vector()?.get(archive.number()) == added,
            "{written:?} {time:?}"
        );
    }
    Ok(())
}

fn values(alloc: Global, first: i64, count: i64) -> Result<Vec<DataValue>, AllocError> {
    let mut values = Vec::new(alloc);
    for i in 0..count {
        values.push(value(int(1), Some(first.wrapping_add(i))))?;
    }
    Ok(values)
}

fn times(alloc: Global, first: i64, count: i64) -> Result<Vec<Ticks>, AllocError> {
    let mut times = Vec::new(alloc);
    for i in 0..count {
        times.push(Ticks(first.wrapping_add(i)))?;
    }
    Ok(times)
}

/// Lists: the number of the update (4 for a delete), the first source time, how many, the status, how
/// many codes, and the last of them.
static LISTS: [(i32, i64, i64, Status, usize, Status); 12] = [
    (1, 1, 0, NOTHING_TO_DO, 0, GOOD),
    (4, 1, 0, NOTHING_TO_DO, 0, GOOD),
    (0, 1, 1, BAD_OPERATION, 0, GOOD),
    (5, 1, 0, BAD_OPERATION, 0, GOOD),
    (-1, 1, 1001, BAD_OPERATION, 0, GOOD),
    (1, 1, 1001, TOO_MANY, 0, GOOD),
    (4, 1, 1001, TOO_MANY, 0, GOOD),
    (1, 1, 1000, GOOD, 1000, INSERTED),
    (1, 1000, 2, GOOD, 2, INSERTED),
    (2, 1000, 1, GOOD, 1, REPLACED),
    (4, 1001, 2, GOOD, 2, NONE_EXISTS),
    (1, 1001, 1, GOOD, 1, INSERTED),
];

fn list<A: Archive>(
    alloc: Global,
    archive: &mut A,
    perform: i32,
    first: i64,
    count: i64,
) -> Result<HistoryUpdateResult, AllocError> {
    if perform == 4 {
        delete(alloc, archive, 100, &times(alloc, first, count)?)
    } else {
        update(
            alloc,
            archive,
            100,
            INT32,
            perform,
            &values(alloc, first, count)?,
        )
    }
}

/// Of 1,001 live values.
static MANY: [Stretch; 4] = [
    (false, 1, 2000, TOO_MANY, 0),
    (false, 1, 1002, TOO_MANY, 0),
    (false, 1001, 1001, GOOD, 1),
    (false, 1, 201, GOOD, 200),
];

#[test]
fn lists_have_their_limits(rt: HostRuntime) -> Result<(), Fail> {
    let alloc = rt.alloc();
    let mut archive = list_archive(alloc)?;
    for (perform, first, count, status, codes, last) in &LISTS {
        let told = list(alloc, &mut archive, *perform, *first, *count)?;
        assert!(rt;
            is_told(&told, *status, *codes, *last),
            "{perform} {first} {count}"
        );
    }
    assert!(rt; erases(alloc, &mut archive, &MANY)?);
    Ok(())
}

/// Which call of the archive fails, how, and the codes of inserts at 10, at 10 again and at 20.
static FAILURES: [(u64, Failure, &[Status]); 9] = [
    (0, Failure::Refused, &[INSERTED, EXISTS, INSERTED]),
    (
        1,
        Failure::OutOfMemory,
        &[OUT_OF_MEMORY, INSERTED, INSERTED],
    ),
    (2, Failure::Refused, &[UNAVAILABLE, INSERTED, INSERTED]),
    (3, Failure::Refused, &[UNAVAILABLE, INSERTED, INSERTED]),
    (
        4,
        Failure::OutOfMemory,
        &[OUT_OF_MEMORY, INSERTED, INSERTED],
    ),
    (4, Failure::Refused, &[UNAVAILABLE, INSERTED, INSERTED]),
    (
        4,
        Failure::BrokenBefore,
        &[UNAVAILABLE, UNAVAILABLE, UNAVAILABLE],
    ),
    (
        4,
        Failure::BrokenAfter,
        &[UNAVAILABLE, UNAVAILABLE, UNAVAILABLE],
    ),
    (8, Failure::OutOfMemory, &[INSERTED, EXISTS, OUT_OF_MEMORY]),
];

fn inserts_three(
    alloc: Global,
    call: u64,
    failure: Failure,
) -> Result<HistoryUpdateResult, StoreFault> {
    let mut archive = scripted_archive(alloc, call, failure)?;
    let values = [
        value(int(1), Some(10)),
        value(int(2), Some(10)),
        value(int(3), Some(20)),
    ];
    Ok(update(alloc, &mut archive, 100, INT32, 1, &values)?)
}

#[test]
fn faults_have_their_codes(rt: HostRuntime) -> Result<(), Fail> {
    for (call, failure, codes) in &FAILURES {
        let told = inserts_three(rt.alloc(), *call, *failure)?;
        assert!(rt;
            told.status == GOOD && told.operation_results.as_slice() == *codes,
            "{call} {failure:?}"
        );
    }
    Ok(())
}

/// Over two values that were inserted by 8 calls: which call fails, how, the status of a delete of all,
/// and how many codes. The first two calls of it are its listing, and each delete has four.
static FAILED_STRETCHES: [(u64, Failure, Status, usize); 8] = [
    (9, Failure::OutOfMemory, OUT_OF_MEMORY, 0),
    (9, Failure::BrokenBefore, UNAVAILABLE, 0),
    (10, Failure::OutOfMemory, OUT_OF_MEMORY, 0),
    (10, Failure::Refused, UNAVAILABLE, 0),
    (11, Failure::Refused, UNAVAILABLE, 2),
    (14, Failure::BrokenAfter, UNAVAILABLE, 2),
    (18, Failure::OutOfMemory, OUT_OF_MEMORY, 2),
    (99, Failure::Refused, GOOD, 2),
];

static TWO: [Row; 2] = [(100, 1, 10, 1, INSERTED), (100, 1, 20, 2, INSERTED)];

fn erases_two(
    alloc: Global,
    call: u64,
    failure: Failure,
) -> Result<HistoryUpdateResult, StoreFault> {
    let mut archive = scripted_archive(alloc, call, failure)?;
    if !operates(alloc, &mut archive, &TWO)? {
        return Err(StoreFault::Refused);
    }
    Ok(erase(alloc, &mut archive, false, 1, 100)?)
}

#[test]
fn failed_deletes_have_their_status(rt: HostRuntime) -> Result<(), Fail> {
    for (call, failure, status, count) in &FAILED_STRETCHES {
        let told = erases_two(rt.alloc(), *call, *failure)?;
        assert!(rt;
            told.status == *status && told.operation_results.len() == *count,
            "{call} {failure:?}"
        );
    }
    Ok(())
}
