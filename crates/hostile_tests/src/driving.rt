//! The one function that makes a row of the table, and a test for each row. With ample memory each is answered at once. The
//! script `tests/hostile.py` runs each of these tests with each growth of memory refused in turn: then they come to the same.

use crate::calls::is_called;
use crate::machines::is_script;
use crate::rows::{Row, Shown, TABLES, table};
use crate::streams::is_stream;
use std::alloc::Global;

/// Whether a row comes to what it says, where the `call`-th call of the first or of the second machine's store is refused for want
/// of memory (0: none), and how many were. There is nothing where memory was wanting before its calls.
fn is_shown(alloc: Global, shown: &Shown, calls: (u64, u64)) -> Option<(bool, u64)> {
    match shown {
        Shown::Stream(input, want, ending, ends) => {
            is_stream(alloc, input, want, *ending, ends, calls.0)
        }
        Shown::Script(script) => is_script(alloc, script, calls),
        Shown::Call(call) => Some((is_called(alloc, call), 0)),
    }
}

/// The same with ample memory; where memory was wanting before its calls it is made anew.
fn is_answered(alloc: Global, shown: &Shown) -> bool {
    match is_shown(alloc, shown, (0, 0)) {
        Some((same, _)) => same,
        None => matches!(is_shown(alloc, shown, (0, 0)), Some((true, _))),
    }
}

/// How many rows of a number are in a table, where they come to what they say.
fn count_answered(alloc: Global, rows: &[Row], number: u8) -> Option<u64> {
    let mut found: u64 = 0;
    for (row, _, shown) in rows {
        if *row == number {
            if !is_answered(alloc, shown) {
                return None;
            }
            found = found.saturating_add(1);
        }
    }
    Some(found)
}

/// The rows of a number, of which there is one at least, come to what they say.
fn are_answered(alloc: Global, number: u8) -> bool {
    let mut found: u64 = 0;
    for at in 0..TABLES {
        match count_answered(alloc, table(at), number) {
            Some(more) => found = found.saturating_add(more),
            None => return false,
        }
    }
    found > 0
}

/// More calls than a row makes of a store.
const MOST: u64 = 1000;

/// Refuses each call of a machine's store in turn; how many that were, or the first one behind which the row comes to anything else.
fn refused(alloc: Global, shown: &Shown, second: bool) -> Result<u64, u64> {
    for call in 1..MOST {
        let calls = if second { (0, call) } else { (call, 0) };
        match is_shown(alloc, shown, calls) {
            Some((true, 0)) => return Ok(call - 1),
            Some((true, _)) => {}
            _ => return Err(call),
        }
    }
    Err(MOST)
}

/// Each call of a store is refused in turn, over all rows.
#[test]
fn each_call_of_a_store_is_refused(rt: HostRuntime) {
    let mut calls: u64 = 0;
    for at in 0..TABLES {
        for (row, what, shown) in table(at) {
            for second in [false, true] {
                let told = refused(rt.alloc(), shown, second);
                assert!(rt; told.is_ok(), "{row}, {what}: {told:?}");
                calls = calls.saturating_add(told.unwrap_or(0));
            }
        }
    }
    assert_eq!(rt; calls, 607);
}

#[test]
fn row_1(rt: HostRuntime) {
    assert!(rt; are_answered(rt.alloc(), 1));
}

#[test]
fn row_2(rt: HostRuntime) {
    assert!(rt; are_answered(rt.alloc(), 2));
}

#[test]
fn row_3(rt: HostRuntime) {
    assert!(rt; are_answered(rt.alloc(), 3));
}

#[test]
fn row_4(rt: HostRuntime) {
    assert!(rt; are_answered(rt.alloc(), 4));
}

#[test]
fn row_5(rt: HostRuntime) {
    assert!(rt; are_answered(rt.alloc(), 5));
}

#[test]
fn row_6(rt: HostRuntime) {
    assert!(rt; are_answered(rt.alloc(), 6));
}

#[test]
fn row_7(rt: HostRuntime) {
    assert!(rt; are_answered(rt.alloc(), 7));
}

#[test]
fn row_8(rt: HostRuntime) {
    assert!(rt; are_answered(rt.alloc(), 8));
}

#[test]
fn row_9(rt: HostRuntime) {
    assert!(rt; are_answered(rt.alloc(), 9));
}

#[test]
fn row_10(rt: HostRuntime) {
    assert!(rt; are_answered(rt.alloc(), 10));
}

#[test]
fn row_11(rt: HostRuntime) {
    assert!(rt; are_answered(rt.alloc(), 11));
}

#[test]
fn row_12(rt: HostRuntime) {
    assert!(rt; are_answered(rt.alloc(), 12));
}

#[test]
fn row_13(rt: HostRuntime) {
    assert!(rt; are_answered(rt.alloc(), 13));
}

#[test]
fn row_14(rt: HostRuntime) {
    assert!(rt; are_answered(rt.alloc(), 14));
}

#[test]
fn row_15(rt: HostRuntime) {
    assert!(rt; are_answered(rt.alloc(), 15));
}

#[test]
fn row_16(rt: HostRuntime) {
    assert!(rt; are_answered(rt.alloc(), 16));
}

#[test]
fn row_17(rt: HostRuntime) {
    assert!(rt; are_answered(rt.alloc(), 17));
}

#[test]
fn row_18(rt: HostRuntime) {
    assert!(rt; are_answered(rt.alloc(), 18));
}

#[test]
fn row_19(rt: HostRuntime) {
    assert!(rt; are_answered(rt.alloc(), 19));
}

#[test]
fn row_20(rt: HostRuntime) {
    assert!(rt; are_answered(rt.alloc(), 20));
}

#[test]
fn row_21(rt: HostRuntime) {
    assert!(rt; are_answered(rt.alloc(), 21));
}

#[test]
fn row_22(rt: HostRuntime) {
    assert!(rt; are_answered(rt.alloc(), 22));
}

#[test]
fn row_23(rt: HostRuntime) {
    assert!(rt; are_answered(rt.alloc(), 23));
}

#[test]
fn row_24(rt: HostRuntime) {
    assert!(rt; are_answered(rt.alloc(), 24));
}

#[test]
fn row_25(rt: HostRuntime) {
    assert!(rt; are_answered(rt.alloc(), 25));
}

#[test]
fn row_26(rt: HostRuntime) {
    assert!(rt; are_answered(rt.alloc(), 26));
}

#[test]
fn row_27(rt: HostRuntime) {
    assert!(rt; are_answered(rt.alloc(), 27));
}

#[test]
fn row_28(rt: HostRuntime) {
    assert!(rt; are_answered(rt.alloc(), 28));
}

#[test]
fn row_29(rt: HostRuntime) {
    assert!(rt; are_answered(rt.alloc(), 29));
}

#[test]
fn row_30(rt: HostRuntime) {
    assert!(rt; are_answered(rt.alloc(), 30));
}
