//! Why a secure channel refuses a chunk.

ghost use Rattle.std.specs.Prelude.{◌≡◌};
ghost use Rattle.ua_channel.specs.declared.fault.ChannelFault.TheVariants.{OutOfMemory};

use std::alloc::AllocError;
use thiserror::Error;
use ua_binary::Status;

/// Why a chunk is refused. All but `OutOfMemory` end the channel.
#[derive(Clone, Copy, Debug, PartialEq, Eq, Error)]
pub enum ChannelFault {
    /// The security policy isn't None.
    #[error("the security policy is not served")]
    Policy,
    /// The security mode isn't None.
    #[error("the security mode is not served")]
    Mode,
    /// Issue for a channel that stands, Renew for one that doesn't, or neither.
    #[error("the request type does not fit the channel")]
    RequestType,
    /// The channel's id is another one, no channel stands, or the channel has ended.
    #[error("no such channel")]
    ChannelId,
    /// The token is neither the newest nor the one before it, or no token is left.
    #[error("no such token")]
    Token,
    /// The sequence number doesn't follow, or the chunk isn't of the message that is open.
    #[error("the sequence is broken")]
    Sequence,
    /// The message has more than 64 chunks.
    #[error("the message has too many chunks")]
    TooManyChunks,
    /// The message has more than 4,194,304 bytes.
    #[error("the message is too large")]
    TooLarge,
    /// A header or the request for a channel is malformed.
    #[error("the chunk cannot be decoded")]
    Decoding,
    /// Memory ran out.
    #[error("out of memory")]
    OutOfMemory,
}

impl ChannelFault {
    ghost use Rattle.ua_channel.specs.Fault.{channel_fault_number, channel_fault_status};

    /// The fault's number, from 1 to 10 in the order of the variants.
    pub fn number(self) -> u8
        ensures { result ≡ channel_fault_number self }
    {
        match self {
            ChannelFault::Policy => 1,
            ChannelFault::Mode => 2,
            ChannelFault::RequestType => 3,
            ChannelFault::ChannelId => 4,
            ChannelFault::Token => 5,
            ChannelFault::Sequence => 6,
            ChannelFault::TooManyChunks => 7,
            ChannelFault::TooLarge => 8,
            ChannelFault::Decoding => 9,
            ChannelFault::OutOfMemory => 10,
        }
    }

    /// The status code that an Error tells the client (Part 6, 7.1.2.5).
    pub fn code(self) -> Status
        ensures { result ≡ channel_fault_status self }
    {
        match self {
            ChannelFault::Policy => Status::BAD_SECURITY_POLICY_REJECTED,
            ChannelFault::Mode => Status::BAD_SECURITY_MODE_REJECTED,
            ChannelFault::RequestType => Status::BAD_REQUEST_TYPE_INVALID,
            ChannelFault::ChannelId => Status::BAD_SECURE_CHANNEL_ID_INVALID,
            ChannelFault::Token => Status::BAD_SECURE_CHANNEL_TOKEN_UNKNOWN,
            ChannelFault::Sequence => Status::BAD_SEQUENCE_NUMBER_INVALID,
            ChannelFault::TooManyChunks | ChannelFault::TooLarge =>
                Status::BAD_TCP_MESSAGE_TOO_LARGE,
            ChannelFault::Decoding => Status::BAD_DECODING_ERROR,
            ChannelFault::OutOfMemory => Status::BAD_OUT_OF_MEMORY,
        }
    }
}

impl From<AllocError> for ChannelFault {
    ghost from_gives = { λ _ fault. fault ≡ OutOfMemory };

    fn from(_cause: AllocError) -> ChannelFault {
        ChannelFault::OutOfMemory
    }
}
