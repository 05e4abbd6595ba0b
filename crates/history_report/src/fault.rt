//! What ended a report, or a part of one, before its end.

use archive::StoreFault;
use thiserror::Error;

/// What ended a report before its end.
#[derive(Clone, Copy, Debug, PartialEq, Eq, Error)]
pub enum ReportFault {
    /// The archive met this fault of its store.
    #[error("{0}")]
    Store(StoreFault),
    /// The next value is of a type that has no text.
    #[error("values of this type are not written as text")]
    NoText,
    /// A write failed, or took nothing.
    #[error("a write failed")]
    Write,
    /// Memory ran out.
    #[error("out of memory")]
    OutOfMemory,
}

/// What ended the first part of a report before its end.
#[derive(Clone, Copy, Debug, PartialEq, Eq, Error)]
pub enum PartFault {
    /// The report met this fault.
    #[error("{0}")]
    Report(ReportFault),
    /// The first 501 modifications are of one moment, and a page has at most 500 rows.
    #[error("more than 500 modifications of one moment")]
    Crowded,
}
