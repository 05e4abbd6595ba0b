//! Why a record could not be read, written or copied.

ghost use Rattle.std.specs.Prelude.{◌≡◌};
ghost use Rattle.records.specs.declared.fault.RecordFault.TheVariants as fault;

use std::alloc::AllocError;
use thiserror::Error;
use ua_binary::BinaryFault;
use ua_variant::VariantFault;

/// Why a record was not read, written or copied.
#[derive(Clone, Copy, Debug, PartialEq, Eq, Error)]
pub enum RecordFault {
    /// The bytes break the binary encoding, or go on behind the record.
    #[error("the bytes are not a record in the binary encoding")]
    Binary,
    /// A field is outside its limits, or the record is longer than 1,048,578 bytes.
    #[error("a field of the record is outside its limits")]
    BadField,
    /// The record is not spelled as it is written.
    #[error("the record is not spelled as it is written")]
    NotCanonical,
    /// Memory ran out.
    #[error("out of memory")]
    OutOfMemory,
}

impl RecordFault {
    ghost use Rattle.records.specs.Fault.{fault_number};

    /// Its number, from 1 to 4, which scripts and logs show.
    pub fn number(self) -> u8
        ensures { result ≡ fault_number self }
    {
        match self {
            RecordFault::Binary => 1,
            RecordFault::BadField => 2,
            RecordFault::NotCanonical => 3,
            RecordFault::OutOfMemory => 4,
        }
    }
}

impl From<AllocError> for RecordFault {
    ghost from_gives = { λ cause told. told ≡ fault.OutOfMemory };

    fn from(_: AllocError) -> RecordFault {
        RecordFault::OutOfMemory
    }
}

/// A fault of the encoding. Want of memory stays what it is, and every other one is `Binary`.
impl From<BinaryFault> for RecordFault {
    ghost use Rattle.records.specs.Fault.{binary_fault};

    ghost from_gives = { λ cause told. told ≡ binary_fault cause };

    fn from(cause: BinaryFault) -> RecordFault {
        match cause {
            BinaryFault::OutOfMemory => RecordFault::OutOfMemory,
            _ => RecordFault::Binary,
        }
    }
}

/// The same of a value's fault.
impl From<VariantFault> for RecordFault {
    ghost use Rattle.records.specs.Fault.{value_fault};

    ghost from_gives = { λ cause told. told ≡ value_fault cause };

    fn from(cause: VariantFault) -> RecordFault {
        match cause {
            VariantFault::OutOfMemory => RecordFault::OutOfMemory,
            _ => RecordFault::Binary,
        }
    }
}
