//! What a channel answers to a chunk.

use crate::message::MessageBytes;

/// A request that opens the channel or renews its token (Part 4, 5.6.2).
#[derive(Clone, Copy, Debug, PartialEq, Eq)]
pub struct OpenRequest {
    /// The request id of its chunk.
    pub request_id: u32,
    /// What the client calls it.
    pub handle: u32,
    /// The lifetime that is asked for, in milliseconds.
    pub lifetime: u32,
    /// The token id that it is given: 1, 2, 3 and so on.
    pub token: u32,
}

/// What a chunk came to.
#[derive(Debug, Drop)]
pub enum Taken<'a> {
    /// More chunks of its message follow.
    Nothing,
    /// A request to open or renew the channel, to be answered by `put_opened`.
    Opening(OpenRequest),
    /// The last chunk of a message: its request id, and the bodies of its chunks, joined.
    Message(u32, MessageBytes<'a>),
    /// The message with this request id, if one was open, is given up.
    Aborted(u32),
    /// The client closed the channel.
    Closed,
}
