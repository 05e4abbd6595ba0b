//! Why a session service is refused.

ghost use Rattle.std.specs.Prelude.{◌≡◌};
ghost use Rattle.ua_session.specs.declared.fault.SessionFault.TheVariants.{OutOfMemory};

use std::alloc::{AllocError, AllocFailed};
use thiserror::Error;
use ua_binary::Status;

/// Why a call of a session service is refused (Part 4, 5.7). Each leaves the sessions as they were.
#[derive(Clone, Copy, Debug, PartialEq, Eq, Error)]
pub enum SessionFault {
    /// 16 sessions are open, or 1,000,000 were made.
    #[error("too many sessions")]
    TooMany,
    /// The token is not that of a session that is open.
    #[error("no such session")]
    IdInvalid,
    /// The session has no user yet.
    #[error("the session is not activated")]
    NotActivated,
    /// The identity token is of a kind that is not served.
    #[error("the identity token is not served")]
    IdentityInvalid,
    /// No user has this name and password, or an anonymous one is not allowed.
    #[error("the identity is rejected")]
    IdentityRejected,
    /// Memory ran out.
    #[error("out of memory")]
    OutOfMemory,
}

impl SessionFault {
    ghost use Rattle.ua_session.specs.Fault.{session_fault_number, session_fault_status};

    /// The fault's number, from 1 to 6 in the order of the variants.
    pub fn number(self) -> u8
        ensures { result ≡ session_fault_number self }
    {
        match self {
            SessionFault::TooMany => 1,
            SessionFault::IdInvalid => 2,
            SessionFault::NotActivated => 3,
            SessionFault::IdentityInvalid => 4,
            SessionFault::IdentityRejected => 5,
            SessionFault::OutOfMemory => 6,
        }
    }

    /// The status code that a response tells the client (Part 4, StatusCode).
    pub fn code(self) -> Status
        ensures { result ≡ session_fault_status self }
    {
        match self {
            SessionFault::TooMany => Status::BAD_TOO_MANY_SESSIONS,
            SessionFault::IdInvalid => Status::BAD_SESSION_ID_INVALID,
            SessionFault::NotActivated => Status::BAD_SESSION_NOT_ACTIVATED,
            SessionFault::IdentityInvalid => Status::BAD_IDENTITY_TOKEN_INVALID,
            SessionFault::IdentityRejected => Status::BAD_IDENTITY_TOKEN_REJECTED,
            SessionFault::OutOfMemory => Status::BAD_OUT_OF_MEMORY,
        }
    }
}

impl From<AllocError> for SessionFault {
    ghost from_gives = { λ _ fault. fault ≡ OutOfMemory };

    fn from(_cause: AllocError) -> SessionFault {
        SessionFault::OutOfMemory
    }
}

impl<T: Drop> From<AllocFailed<T>> for SessionFault {
    ghost from_gives = { λ _ fault. fault ≡ OutOfMemory };

    fn from(_cause: AllocFailed<T>) -> SessionFault {
        SessionFault::OutOfMemory
    }
}

/// The code that a response tells.
impl From<SessionFault> for Status {
    ghost use Rattle.ua_session.specs.Fault.{session_fault_status};

    ghost from_gives = { λ fault status. status ≡ session_fault_status fault };

    fn from(fault: SessionFault) -> Status {
        fault.code()
    }
}
