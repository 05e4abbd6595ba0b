//! Why a text was not read.

ghost use Rattle.std.specs.Prelude.{◌≡◌};
ghost use Rattle.history_text.specs.declared.fault.TextFault.TheVariants.{OutOfMemory};

use std::alloc::{AllocError, AllocFailed};
use thiserror::Error;

/// Why a text was not read: what was expected in its place.
#[derive(Clone, Copy, Debug, PartialEq, Eq, Error)]
pub enum TextFault {
    /// The text is no moment.
    #[error("expected a time, as 2026-03-01T12:00:00.5Z or @134168400000000000")]
    NoTime,
    /// The text is no status code.
    #[error("expected a status code: eight hex digits, or Good, or nothing")]
    NoStatus,
    /// The text is no Boolean.
    #[error("expected true or false")]
    NoBoolean,
    /// The text is no whole number, or none of its type.
    #[error("expected a whole number of the type's range")]
    NoInteger,
    /// The text is no number.
    #[error("expected a number, inf, -inf or NaN")]
    NoFloat,
    /// The text is no Guid.
    #[error("expected a Guid, as 72962b91-fa75-4ae6-8d28-b404dc7daf63")]
    NoGuid,
    /// The text is no bytes.
    #[error("expected bytes, two hex digits each")]
    NoBytes,
    /// The text is no JSON array of values.
    #[error("expected a JSON array of values, as [1, 2] or [\"on\", \"off\"]")]
    NoArray,
    /// Values of the type aren't written as text.
    #[error("values of this type are not written as text")]
    NoText,
    /// Memory ran out.
    #[error("out of memory")]
    OutOfMemory,
}

impl From<AllocError> for TextFault {
    ghost from_gives = { λ _ e. e ≡ OutOfMemory };

    fn from(_e: AllocError) -> TextFault {
        TextFault::OutOfMemory
    }
}

impl<T: Drop> From<AllocFailed<T>> for TextFault {
    ghost from_gives = { λ _ e. e ≡ OutOfMemory };

    fn from(_e: AllocFailed<T>) -> TextFault {
        TextFault::OutOfMemory
    }
}
