//! What is said of a row is what its fault says.

use history_csv::RowFault;
use history_import::{text_words, why_words};
use history_text::TextFault;
use std::alloc::{AllocError, Global};
use std::fmt::Write as _;

/// Why texts are not read.
static TEXTS: [TextFault; 10] = [
    TextFault::NoTime,
    TextFault::NoStatus,
    TextFault::NoBoolean,
    TextFault::NoInteger,
    TextFault::NoFloat,
    TextFault::NoGuid,
    TextFault::NoBytes,
    TextFault::NoArray,
    TextFault::NoText,
    TextFault::OutOfMemory,
];

/// Whether a fault of a text is told in its own words.
fn is_told_so(alloc: Global, fault: TextFault) -> Result<bool, AllocError> {
    let mut said = String::new(alloc);
    write!(said, "{fault}")?;
    Ok(said.as_str() == text_words(fault))
}

#[test]
fn texts_are_told_in_their_words(rt: HostRuntime) {
    let alloc = rt.alloc();
    for fault in &TEXTS {
        let good = is_told_so(alloc, *fault);
        assert!(rt; good == Ok(true), "{fault}");
    }
}

/// Why rows are not read.
static ROWS: [RowFault; 6] = [
    RowFault::Fields,
    RowFault::Node,
    RowFault::Time(TextFault::NoTime),
    RowFault::Value(TextFault::NoInteger),
    RowFault::Status(TextFault::NoStatus),
    RowFault::OutOfMemory,
];

/// Whether a fault of a row ends in what is said of it.
fn ends_so(alloc: Global, fault: RowFault) -> Result<bool, AllocError> {
    let mut said = String::new(alloc);
    write!(said, "{fault}")?;
    Ok(said.as_str().ends_with(why_words(fault)))
}

#[test]
fn rows_are_told_in_their_words(rt: HostRuntime) {
    let alloc = rt.alloc();
    for fault in &ROWS {
        let good = ends_so(alloc, *fault);
        assert!(rt; good == Ok(true), "{fault}");
    }
}
