//! Why a value could not be read.

ghost use Rattle.std.specs.Prelude.{◌≡◌};
ghost use Rattle.ua_variant.specs.Raise.{variant_fault};

use thiserror::Error;
use ua_binary::{BinaryFault, Fault, Status};

/// Why a value was not read, by the leftmost field that is not spelled there, or why it was not
/// written.
#[derive(Clone, Copy, Debug, PartialEq, Eq, Error)]
pub enum VariantFault {
    /// A field passes the end of the bytes.
    #[error("the bytes end inside a field")]
    Short,
    /// A count is below -1.
    #[error("a count is below -1")]
    BadLength,
    /// A text isn't UTF-8.
    #[error("a text is not UTF-8")]
    BadUtf8,
    /// A first byte or a mask has no meaning.
    #[error("an encoding byte has no meaning")]
    BadEncodingByte,
    /// Memory ran out.
    #[error("out of memory")]
    OutOfMemory,
    /// A matrix, an array of null, or a type that is left out.
    #[error("a type is not supported")]
    TypeUnsupported,
}

impl VariantFault {
    ghost use Rattle.ua_variant.specs.Raise.{variant_fault_number};

    /// Its number, from 1 to 6, which scripts and logs show. A fault of the encoding keeps its own.
    pub fn number(self) -> u8
        ensures { result ≡ variant_fault_number self }
    {
        match self {
            VariantFault::Short => 1,
            VariantFault::BadLength => 2,
            VariantFault::BadUtf8 => 3,
            VariantFault::BadEncodingByte => 4,
            VariantFault::OutOfMemory => 5,
            VariantFault::TypeUnsupported => 6,
        }
    }
}

impl From<BinaryFault> for VariantFault {
    ghost from_gives = { λ e f. f ≡ variant_fault e };

    fn from(e: BinaryFault) -> VariantFault {
        match e {
            BinaryFault::Short => VariantFault::Short,
            BinaryFault::BadLength => VariantFault::BadLength,
            BinaryFault::BadUtf8 => VariantFault::BadUtf8,
            BinaryFault::BadEncodingByte => VariantFault::BadEncodingByte,
            BinaryFault::OutOfMemory => VariantFault::OutOfMemory,
        }
    }
}

impl Fault for VariantFault {
    ghost told = { variant_fault };

    fn tell(fault: BinaryFault) -> VariantFault {
        VariantFault::from(fault)
    }
}

/// Want of memory stays what it is, and every other fault of the encoding is Bad_DecodingError.
impl From<VariantFault> for Status {
    ghost use Rattle.ua_variant.specs.Raise.{variant_fault_status};

    ghost from_gives = { λ fault status. status ≡ variant_fault_status fault };

    fn from(fault: VariantFault) -> Status {
        match fault {
            VariantFault::OutOfMemory => Status::BAD_OUT_OF_MEMORY,
            _ => Status::BAD_DECODING_ERROR,
        }
    }
}
