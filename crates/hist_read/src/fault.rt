//! What may come in the way of a page.

ghost use Rattle.std.specs.Prelude.{◌≡◌};
ghost use Rattle.archive.specs.declared.setback.StepError.TheVariants as setback;
ghost use Rattle.hist_read.specs.declared.fault.PageFault.TheVariants as page;

use archive::{StepError, StoreFault};
use std::alloc::AllocError;

/// What may come in the way of a page.
#[derive(Clone, Copy, Debug, PartialEq, Eq)]
pub(crate) enum PageFault {
    /// Memory ran out, or the store gave no answer.
    Step(StepError),
    /// The page shows more than may be carried.
    TooLong,
}

impl From<AllocError> for PageFault {
    ghost from_gives = { λ cause told. told ≡ page.Step setback.OutOfMemory };

    fn from(_: AllocError) -> PageFault {
        PageFault::Step(StepError::OutOfMemory)
    }
}

impl From<StoreFault> for PageFault {
    ghost from_gives = { λ cause told. told ≡ page.Step (setback.Store cause) };

    fn from(cause: StoreFault) -> PageFault {
        PageFault::Step(StepError::Store(cause))
    }
}
