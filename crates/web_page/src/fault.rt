//! What ended a page before its end.

use archive::StoreFault;
use thiserror::Error;

/// What ended a page before its end.
#[derive(Clone, Copy, Debug, PartialEq, Eq, Error)]
pub enum PageFault {
    /// The archive met this fault of its store.
    #[error("{0}")]
    Store(StoreFault),
    /// Memory ran out.
    #[error("out of memory")]
    OutOfMemory,
}
