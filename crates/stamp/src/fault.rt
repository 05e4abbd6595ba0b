//! Why a vector could not be read or written.

ghost use Rattle.std.specs.Prelude.{◌≡◌};

use thiserror::Error;
use ua_binary::BinaryFault;

/// Why bytes were not read as a vector, by the leftmost field that is not spelled there, or why a
/// vector was not written.
#[derive(Clone, Copy, Debug, PartialEq, Eq, Error)]
pub enum VectorFault {
    /// A replica is not above the one before it.
    #[error("the replicas do not ascend")]
    NotAscending,
    /// A count is above 64, a replica outside 1 to 64, or a number outside 1 to 2^62 - 1.
    #[error("a number is outside its limits")]
    BadNumber,
    /// A field passes the end of the bytes.
    #[error("the bytes end inside a field")]
    Binary,
    /// Memory ran out: only of what writes.
    #[error("out of memory")]
    OutOfMemory,
}

impl VectorFault {
    ghost use Rattle.stamp.specs.Fault.{fault_number};

    /// Its number, from 1 to 4, which scripts and logs show.
    pub fn number(self) -> u8
        ensures { result ≡ fault_number self }
    {
        match self {
            VectorFault::NotAscending => 1,
            VectorFault::BadNumber => 2,
            VectorFault::Binary => 3,
            VectorFault::OutOfMemory => 4,
        }
    }
}

/// A fault of the encoding. Want of memory stays what it is, and every other one is `Binary`.
impl From<BinaryFault> for VectorFault {
    ghost use Rattle.stamp.specs.Fault.{vector_fault};

    ghost from_gives = { λ cause fault. fault ≡ vector_fault cause };

    fn from(cause: BinaryFault) -> VectorFault {
        match cause {
            BinaryFault::OutOfMemory => VectorFault::OutOfMemory,
            _ => VectorFault::Binary,
        }
    }
}
