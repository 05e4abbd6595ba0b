//! What ended a check before its end.

use archive::StoreFault;
use thiserror::Error;

/// What ended a check before its end.
#[derive(Clone, Copy, Debug, PartialEq, Eq, Error)]
pub enum CheckFault {
    /// The archive met this fault of its store.
    #[error("{0}")]
    Store(StoreFault),
    /// A write failed, or took nothing.
    #[error("a write failed")]
    Write,
    /// Memory ran out.
    #[error("out of memory")]
    OutOfMemory,
}
