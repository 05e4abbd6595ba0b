//! Status codes (Part 4, 7.39; their numbers are in Part 6, A.2).

use crate::fault::BinaryFault;
use crate::try_clone::TryClone;
use std::alloc::{AllocError, AllocFailed};

/// A status code (Part 6, 5.2.2.11), as its 32 bits. Its two highest bits are its severity: 00 is good,
/// 01 uncertain, 10 bad.
#[derive(Clone, Copy, Debug, PartialEq, Eq)]
pub struct Status(pub u32);

impl Status {
    /// Good.
    pub const GOOD: Status = Status(0x0000_0000);
    /// Good_EntryInserted.
    pub const GOOD_ENTRY_INSERTED: Status = Status(0x00A2_0000);
    /// Good_EntryReplaced.
    pub const GOOD_ENTRY_REPLACED: Status = Status(0x00A3_0000);
    /// Good_NoData.
    pub const GOOD_NO_DATA: Status = Status(0x00A5_0000);
    /// Bad_OutOfMemory.
    pub const BAD_OUT_OF_MEMORY: Status = Status(0x8003_0000);
    /// Bad_ResourceUnavailable.
    pub const BAD_RESOURCE_UNAVAILABLE: Status = Status(0x8004_0000);
    /// Bad_DecodingError.
    pub const BAD_DECODING_ERROR: Status = Status(0x8007_0000);
    /// Bad_EncodingLimitsExceeded.
    pub const BAD_ENCODING_LIMITS_EXCEEDED: Status = Status(0x8008_0000);
    /// Bad_ServiceUnsupported.
    pub const BAD_SERVICE_UNSUPPORTED: Status = Status(0x800B_0000);
    /// Bad_NothingToDo.
    pub const BAD_NOTHING_TO_DO: Status = Status(0x800F_0000);
    /// Bad_TooManyOperations.
    pub const BAD_TOO_MANY_OPERATIONS: Status = Status(0x8010_0000);
    /// Bad_UserAccessDenied.
    pub const BAD_USER_ACCESS_DENIED: Status = Status(0x801F_0000);
    /// Bad_IdentityTokenInvalid.
    pub const BAD_IDENTITY_TOKEN_INVALID: Status = Status(0x8020_0000);
    /// Bad_IdentityTokenRejected.
    pub const BAD_IDENTITY_TOKEN_REJECTED: Status = Status(0x8021_0000);
    /// Bad_SecureChannelIdInvalid.
    pub const BAD_SECURE_CHANNEL_ID_INVALID: Status = Status(0x8022_0000);
    /// Bad_InvalidTimestamp.
    pub const BAD_INVALID_TIMESTAMP: Status = Status(0x8023_0000);
    /// Bad_SessionIdInvalid.
    pub const BAD_SESSION_ID_INVALID: Status = Status(0x8025_0000);
    /// Bad_SessionNotActivated.
    pub const BAD_SESSION_NOT_ACTIVATED: Status = Status(0x8027_0000);
    /// Bad_TimestampsToReturnInvalid.
    pub const BAD_TIMESTAMPS_TO_RETURN_INVALID: Status = Status(0x802B_0000);
    /// Bad_WaitingForInitialData.
    pub const BAD_WAITING_FOR_INITIAL_DATA: Status = Status(0x8032_0000);
    /// Bad_NodeIdUnknown.
    pub const BAD_NODE_ID_UNKNOWN: Status = Status(0x8034_0000);
    /// Bad_AttributeIdInvalid.
    pub const BAD_ATTRIBUTE_ID_INVALID: Status = Status(0x8035_0000);
    /// Bad_IndexRangeInvalid.
    pub const BAD_INDEX_RANGE_INVALID: Status = Status(0x8036_0000);
    /// Bad_DataEncodingUnsupported.
    pub const BAD_DATA_ENCODING_UNSUPPORTED: Status = Status(0x8039_0000);
    /// Bad_ContinuationPointInvalid.
    pub const BAD_CONTINUATION_POINT_INVALID: Status = Status(0x804A_0000);
    /// Bad_ReferenceTypeIdInvalid.
    pub const BAD_REFERENCE_TYPE_ID_INVALID: Status = Status(0x804C_0000);
    /// Bad_BrowseDirectionInvalid.
    pub const BAD_BROWSE_DIRECTION_INVALID: Status = Status(0x804D_0000);
    /// Bad_RequestTypeInvalid.
    pub const BAD_REQUEST_TYPE_INVALID: Status = Status(0x8053_0000);
    /// Bad_SecurityModeRejected.
    pub const BAD_SECURITY_MODE_REJECTED: Status = Status(0x8054_0000);
    /// Bad_SecurityPolicyRejected.
    pub const BAD_SECURITY_POLICY_REJECTED: Status = Status(0x8055_0000);
    /// Bad_TooManySessions.
    pub const BAD_TOO_MANY_SESSIONS: Status = Status(0x8056_0000);
    /// Bad_HistoryOperationInvalid.
    pub const BAD_HISTORY_OPERATION_INVALID: Status = Status(0x8071_0000);
    /// Bad_HistoryOperationUnsupported.
    pub const BAD_HISTORY_OPERATION_UNSUPPORTED: Status = Status(0x8072_0000);
    /// Bad_TypeMismatch.
    pub const BAD_TYPE_MISMATCH: Status = Status(0x8074_0000);
    /// Bad_TcpMessageTypeInvalid.
    pub const BAD_TCP_MESSAGE_TYPE_INVALID: Status = Status(0x807E_0000);
    /// Bad_TcpMessageTooLarge.
    pub const BAD_TCP_MESSAGE_TOO_LARGE: Status = Status(0x8080_0000);
    /// Bad_SecureChannelTokenUnknown.
    pub const BAD_SECURE_CHANNEL_TOKEN_UNKNOWN: Status = Status(0x8087_0000);
    /// Bad_SequenceNumberInvalid.
    pub const BAD_SEQUENCE_NUMBER_INVALID: Status = Status(0x8088_0000);
    /// Bad_NoData.
    pub const BAD_NO_DATA: Status = Status(0x809B_0000);
    /// Bad_EntryExists.
    pub const BAD_ENTRY_EXISTS: Status = Status(0x809F_0000);
    /// Bad_NoEntryExists.
    pub const BAD_NO_ENTRY_EXISTS: Status = Status(0x80A0_0000);
    /// Bad_InvalidArgument.
    pub const BAD_INVALID_ARGUMENT: Status = Status(0x80AB_0000);
    /// Bad_ConnectionRejected.
    pub const BAD_CONNECTION_REJECTED: Status = Status(0x80AC_0000);
    /// Bad_ResponseTooLarge.
    pub const BAD_RESPONSE_TOO_LARGE: Status = Status(0x80B9_0000);
    /// Bad_InvalidTimestampArgument.
    pub const BAD_INVALID_TIMESTAMP_ARGUMENT: Status = Status(0x80BD_0000);
    /// Bad_BoundNotFound.
    pub const BAD_BOUND_NOT_FOUND: Status = Status(0x80D7_0000);
}

impl TryClone for Status {
    fn try_clone(&self) -> Result<Status, AllocError> {
        Ok(*self)
    }
}

impl From<AllocError> for Status {
    ghost use Rattle.std.specs.Prelude.{◌≡◌};
    ghost use Rattle.ua_binary.specs.declared.codes.TheConstants.Status.{BAD_OUT_OF_MEMORY};

    ghost from_gives = { λ _ told. told ≡ BAD_OUT_OF_MEMORY };

    fn from(_cause: AllocError) -> Status {
        Status::BAD_OUT_OF_MEMORY
    }
}

impl<T: Drop> From<AllocFailed<T>> for Status {
    ghost use Rattle.std.specs.Prelude.{◌≡◌};
    ghost use Rattle.ua_binary.specs.declared.codes.TheConstants.Status.{BAD_OUT_OF_MEMORY};

    ghost from_gives = { λ _ told. told ≡ BAD_OUT_OF_MEMORY };

    fn from(_cause: AllocFailed<T>) -> Status {
        Status::BAD_OUT_OF_MEMORY
    }
}

/// Want of memory stays what it is, and every other fault of the encoding is Bad_DecodingError.
impl From<BinaryFault> for Status {
    ghost use Rattle.std.specs.Prelude.{◌≡◌};
    ghost use Rattle.ua_binary.specs.Fault.{binary_fault_status};

    ghost from_gives = { λ cause told. told ≡ binary_fault_status cause };

    fn from(cause: BinaryFault) -> Status {
        match cause {
            BinaryFault::OutOfMemory => Status::BAD_OUT_OF_MEMORY,
            _ => Status::BAD_DECODING_ERROR,
        }
    }
}
