//! Why a connection ended.

ghost use Rattle.std.specs.Prelude.{◌≡◌};
ghost use Rattle.counted_io.specs.Fault.{serve_fault_number};

use thiserror::Error;

/// Why a connection ended before its answer was whole.
#[derive(Clone, Copy, Debug, PartialEq, Eq, Error)]
pub enum ServeFault {
    /// A read failed.
    #[error("a read failed")]
    Read,
    /// A write failed, or took nothing.
    #[error("a write failed")]
    Write,
    /// The connection had its 1,000,000 chunks, and one more came.
    #[error("the connection is too long")]
    TooLong,
    /// Memory ran out, and even the message that tells it could not be made.
    #[error("memory ran out")]
    OutOfMemory,
}

impl ServeFault {
    /// The number that the program prints: 1 to 4, in the order above.
    pub fn number(self) -> u8
        ensures { result ≡ serve_fault_number self }
    {
        match self {
            ServeFault::Read => 1,
            ServeFault::Write => 2,
            ServeFault::TooLong => 3,
            ServeFault::OutOfMemory => 4,
        }
    }
}
