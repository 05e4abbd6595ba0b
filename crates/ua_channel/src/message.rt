//! The bytes of a message.

use std::marker::Model;
use ua_binary::Bytes;

/// Where the bytes of a message lie.
#[derive(Debug, Drop)]
pub(crate) enum Lies<'a> {
    /// In its only chunk.
    InChunk(&'a [u8]),
    /// Joined from its chunks.
    Joined(Bytes),
}

/// The bytes of a message, which contracts see as their list. Those of a message of one chunk are lent
/// by the chunk.
#[derive(Debug, Drop)]
pub struct MessageBytes<'a> {
    lies: Lies<'a>,
}

impl<'a> Model for MessageBytes<'a> {
    ghost use Rattle.std.specs.Prelude.{List, ℕ};
    ghost use Rattle.ua_channel.specs.Message.{bytes_in};

    ghost Value = { List ℕ };

    ghost view = { λ m. bytes_in m.lies };
}

impl<'a> MessageBytes<'a> {
    ghost use Rattle.std.specs.Prelude.{◌≡◌};
    ghost use Rattle.ua_channel.specs.Message.{bytes_in};

    pub(crate) fn new(lies: Lies<'a>) -> Self
        ensures { result ≡ bytes_in lies.entry }
    {
        MessageBytes { lies }
    }

    /// The bytes.
    pub fn as_slice(&self) -> &[u8]
        ensures { result.now ≡ self.now }
    {
        match &self.lies {
            Lies::InChunk(bytes) => bytes,
            Lies::Joined(bytes) => bytes.as_slice(),
        }
    }
}
