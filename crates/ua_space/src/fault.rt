//! Why a plan makes no space.

ghost use Rattle.std.specs.Prelude.{◌≡◌};
ghost use Rattle.ua_space.specs.declared.fault.BuildFault.TheVariants.{OutOfMemory};

use std::alloc::{AllocError, AllocFailed};
use thiserror::Error;

/// Why a plan makes no address space.
#[derive(Clone, Copy, Debug, PartialEq, Eq, Error)]
pub enum BuildFault {
    /// Two folders or variables have the same id.
    #[error("two nodes have the same id")]
    DuplicateNode,
    /// A variable's type is none that a variable may have.
    #[error("unknown type name")]
    BadType,
    /// There are more than 1,000 folders and variables.
    #[error("too many nodes")]
    TooMany,
    /// Memory ran out.
    #[error("out of memory")]
    OutOfMemory,
}

impl BuildFault {
    ghost use Rattle.ua_space.specs.Fault.{build_fault_number};

    /// The fault's number, from 1 to 4 in the order of the variants.
    pub fn number(self) -> u8
        ensures { result ≡ build_fault_number self }
    {
        match self {
            BuildFault::DuplicateNode => 1,
            BuildFault::BadType => 2,
            BuildFault::TooMany => 3,
            BuildFault::OutOfMemory => 4,
        }
    }
}

impl From<AllocError> for BuildFault {
    ghost from_gives = { λ _ fault. fault ≡ OutOfMemory };

    fn from(_cause: AllocError) -> BuildFault {
        BuildFault::OutOfMemory
    }
}

impl<T: Drop> From<AllocFailed<T>> for BuildFault {
    ghost from_gives = { λ _ fault. fault ≡ OutOfMemory };

    fn from(_cause: AllocFailed<T>) -> BuildFault {
        BuildFault::OutOfMemory
    }
}
