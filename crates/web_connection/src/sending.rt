//! What of a history is still to be sent.

use history_report::Portions;

/// What of a history is still to be sent.
#[derive(Drop)]
pub(crate) struct Sending {
    /// The portions that are still to be made.
    pub(crate) portions: Portions,
    /// Each portion is sent as a chunk; else as it is, up to the connection's end.
    pub(crate) chunked: bool,
}

/// What is after what a step tells.
#[derive(Drop)]
pub(crate) enum Rest {
    /// What is still to be sent.
    Sending(Sending),
    /// Nothing: the answer is over.
    Over,
    /// Nothing: the answer is over, and who asked was told that the credentials let nobody in.
    Denied,
}

/// What a step tells: bytes, and what is after them.
#[derive(Drop)]
pub(crate) struct Told {
    /// The bytes.
    pub(crate) text: Vec<u8>,
    /// What is after them.
    pub(crate) rest: Rest,
}
