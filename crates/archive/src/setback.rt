//! What may come in the way of a step over an archive.

ghost use Rattle.std.specs.Prelude.{◌≡◌};
ghost use Rattle.archive.specs.declared.setback.StepError.TheVariants as setback;

use crate::fault::StoreFault;
use std::alloc::AllocError;
use thiserror::Error;
use ua_binary::Status;

/// What came in the way of a step over an archive.
#[derive(Clone, Copy, Debug, PartialEq, Eq, Error)]
pub enum StepError {
    /// Memory ran out outside the store.
    #[error("out of memory")]
    OutOfMemory,
    /// The store gave no answer.
    #[error("{0}")]
    Store(StoreFault),
}

impl StepError {
    ghost use Rattle.archive.specs.Fault.{step_error_status};

    /// What an answer tells of it: `BAD_OUT_OF_MEMORY` where memory ran out, here or in the store, and else
    /// `BAD_RESOURCE_UNAVAILABLE`.
    pub fn status(self) -> Status
        ensures { result ≡ step_error_status self }
    {
        match self {
            StepError::OutOfMemory | StepError::Store(StoreFault::OutOfMemory) =>
                Status::BAD_OUT_OF_MEMORY,
            StepError::Store(_) => Status::BAD_RESOURCE_UNAVAILABLE,
        }
    }
}

impl From<AllocError> for StepError {
    ghost from_gives = { λ cause told. told ≡ setback.OutOfMemory };

    fn from(_: AllocError) -> StepError {
        StepError::OutOfMemory
    }
}

impl From<StoreFault> for StepError {
    ghost from_gives = { λ cause told. told ≡ setback.Store cause };

    fn from(cause: StoreFault) -> StepError {
        StepError::Store(cause)
    }
}
