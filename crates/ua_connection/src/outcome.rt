//! How a connection ends.

use ua_binary::Status;

/// How a connection ended that met no fault.
#[derive(Clone, Copy, Debug, PartialEq, Eq)]
pub enum Served {
    /// The input was over.
    EndOfInput,
    /// The client closed its channel.
    Closed,
    /// The connection was refused by an Error message with this status code (Part 6, 7.1.2.5).
    Refused(Status),
}
