//! Why a request wasn't answered.

ghost use Rattle.std.specs.Prelude.{◌≡◌};
ghost use Rattle.ua_client.specs.declared.fault.ClientFault.TheVariants.{Connection, OutOfMemory};
ghost use Rattle.ua_client.specs.Faults.{fault_of};

use counted_io::ServeFault;
use std::alloc::AllocError;
use thiserror::Error;
use ua_binary::{BinaryFault, Status};

/// Why a server didn't do what it was asked.
#[derive(Clone, Copy, Debug, PartialEq, Eq, Error)]
pub enum ClientFault {
    /// The connection met this fault.
    #[error("{0}")]
    Connection(ServeFault),
    /// The server refused it by this code: by an Error, by a ServiceFault, or in the header of its response.
    #[error("the server refused it")]
    Refused(Status),
    /// What came is no answer to what was asked.
    #[error("what came is no answer")]
    Format,
    /// The input was over before the answer was.
    #[error("the connection was closed")]
    Closed,
    /// It is longer than can be asked.
    #[error("the request is too long")]
    TooLarge,
    /// Memory ran out.
    #[error("out of memory")]
    OutOfMemory,
}

impl From<ServeFault> for ClientFault {
    ghost from_gives = { λ cause told. told ≡ Connection cause };

    fn from(cause: ServeFault) -> ClientFault {
        ClientFault::Connection(cause)
    }
}

/// A fault of an encoding. Want of memory stays what it is, and every other one is `Format`.
impl From<BinaryFault> for ClientFault {
    ghost from_gives = { λ cause told. told ≡ fault_of cause };

    fn from(cause: BinaryFault) -> ClientFault {
        match cause {
            BinaryFault::OutOfMemory => ClientFault::OutOfMemory,
            _ => ClientFault::Format,
        }
    }
}

impl From<AllocError> for ClientFault {
    ghost from_gives = { λ _ told. told ≡ OutOfMemory };

    fn from(_cause: AllocError) -> ClientFault {
        ClientFault::OutOfMemory
    }
}
