//! What ended an import before its end.

use thiserror::Error;

/// What ended an import before its end.
#[derive(Clone, Copy, Debug, PartialEq, Eq, Error)]
pub enum ImportFault {
    /// The text doesn't begin by the header.
    #[error("expected the header node,time,value,status")]
    Header,
    /// A read failed.
    #[error("a read failed")]
    Read,
    /// A write failed, or took nothing.
    #[error("a write failed")]
    Write,
    /// Memory ran out.
    #[error("out of memory")]
    OutOfMemory,
}
