//! Why an archive could not answer.

ghost use Rattle.std.specs.Prelude.{◌≡◌};
ghost use Rattle.archive.specs.declared.fault.StoreFault.TheVariants as store;

use records::RecordFault;
use std::alloc::AllocError;
use thiserror::Error;

/// Why a store could not be opened, or a call of it gave no answer.
#[derive(Clone, Copy, Debug, PartialEq, Eq, Error)]
pub enum StoreFault {
    /// Memory ran out.
    #[error("out of memory")]
    OutOfMemory,
    /// The store refused for another cause, or its tables are not an archive's.
    #[error("the store refused")]
    Refused,
    /// The store is of another replica. It comes from opening alone.
    #[error("the store is of another replica")]
    WrongReplica,
    /// The store is of another archive. It comes from opening alone.
    #[error("the store is of another archive")]
    WrongArchive,
    /// The store can't be used until it is opened again.
    #[error("the store is broken until it is opened again")]
    Broken,
}

impl StoreFault {
    ghost use Rattle.archive.specs.Fault.{store_number};

    /// Its number, from 1 to 5, which scripts and logs show.
    pub fn number(self) -> u8
        ensures { result ≡ store_number self }
    {
        match self {
            StoreFault::OutOfMemory => 1,
            StoreFault::Refused => 2,
            StoreFault::WrongReplica => 3,
            StoreFault::WrongArchive => 4,
            StoreFault::Broken => 5,
        }
    }
}

/// Why a record was not learned.
#[derive(Clone, Copy, Debug, PartialEq, Eq, Error)]
pub enum LearnFault {
    /// Records of its origin between the last that is held and this one are missing.
    #[error("the archive holds {held} records of the origin and got number {got}")]
    Gap {
        /// The number of the origin's last record.
        held: u64,
        /// The record's number.
        got: u64,
    },
    /// Another record of its name is held.
    #[error("another record of this name is held")]
    Clash,
    /// Its tick is not above that of its origin's last record.
    #[error("the tick does not rise")]
    TickNotRising,
    /// Its tick is above 2^62 - 1.
    #[error("the tick is too great")]
    TickTooFar,
    /// The store gave no answer.
    #[error("{0}")]
    Store(#[from] StoreFault),
}

impl LearnFault {
    ghost use Rattle.archive.specs.Fault.{learn_number};

    /// Its number, from 1 to 5, which scripts and logs show.
    pub fn number(self) -> u8
        ensures { result ≡ learn_number self }
    {
        match self {
            LearnFault::Gap { .. } => 1,
            LearnFault::Clash => 2,
            LearnFault::TickNotRising => 3,
            LearnFault::TickTooFar => 4,
            LearnFault::Store(_) => 5,
        }
    }
}

impl From<AllocError> for StoreFault {
    ghost from_gives = { λ cause told. told ≡ store.OutOfMemory };

    fn from(_: AllocError) -> StoreFault {
        StoreFault::OutOfMemory
    }
}

/// Want of memory stays what it is, and every other fault is `Refused`.
impl From<RecordFault> for StoreFault {
    ghost use Rattle.archive.specs.Fault.{of_record};

    ghost from_gives = { λ cause told. told ≡ of_record cause };

    fn from(cause: RecordFault) -> StoreFault {
        match cause {
            RecordFault::OutOfMemory => StoreFault::OutOfMemory,
            _ => StoreFault::Refused,
        }
    }
}
