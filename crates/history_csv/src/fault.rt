//! Why a row was not read.

ghost use Rattle.std.specs.Prelude.{◌≡◌};
ghost use Rattle.history_csv.specs.declared.fault.RowFault.TheVariants.{OutOfMemory};

use history_text::TextFault;
use std::alloc::{AllocError, AllocFailed};
use thiserror::Error;

/// Why a row was not read: the field that is wrong, and what was expected in its place.
#[derive(Clone, Copy, Debug, PartialEq, Eq, Error)]
pub enum RowFault {
    /// The row hasn't four fields.
    #[error("expected four fields: node, time, value and status")]
    Fields,
    /// The node is no node id.
    #[error("node: expected a node id, as ns=1;s=Temperature or i=2258")]
    Node,
    /// The time is no moment.
    #[error("time: {0}")]
    Time(TextFault),
    /// The value is none of its type.
    #[error("value: {0}")]
    Value(TextFault),
    /// The status is no status code.
    #[error("status: {0}")]
    Status(TextFault),
    /// Memory ran out.
    #[error("out of memory")]
    OutOfMemory,
}

impl From<AllocError> for RowFault {
    ghost from_gives = { λ _ e. e ≡ OutOfMemory };

    fn from(_e: AllocError) -> RowFault {
        RowFault::OutOfMemory
    }
}

impl<T: Drop> From<AllocFailed<T>> for RowFault {
    ghost from_gives = { λ _ e. e ≡ OutOfMemory };

    fn from(_e: AllocFailed<T>) -> RowFault {
        RowFault::OutOfMemory
    }
}
