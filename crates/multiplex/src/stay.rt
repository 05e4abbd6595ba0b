//! What is known of a connection beside what is said on it.

ghost use Rattle.std.specs.Prelude.{◌≡◌};
ghost use Rattle.multiplex.specs.Slots.{begun, answered_once_more};

use std::net::SocketAddr;

/// Where a connection came from.
#[derive(Clone, Copy, Debug, PartialEq, Eq)]
pub struct Origin {
    /// The number of the listener that it came to.
    pub listener: usize,
    /// The address of its other end, where that is known.
    pub address: Option<SocketAddr>,
}

/// Whose a connection is.
#[derive(Clone, Copy, Debug, PartialEq, Eq)]
pub enum Party {
    /// It was accepted, and came from there.
    Accepted(Origin),
    /// It is a call of the callee of this number.
    Called(usize),
}

/// What is known of a connection beside what is said on it.
#[derive(Clone, Copy, Debug, PartialEq, Eq)]
pub struct Stay {
    /// Whose it is.
    pub party: Party,
    /// When it began, in milliseconds.
    pub began: u64,
    /// How many times what it brought was answered, at most 2^64 - 1.
    pub answered: u64,
}

impl Stay {
    /// That of a connection that begins now.
    pub(crate) fn begin(party: Party, now: u64) -> Stay
        ensures { result ≡ begun party now }
    {
        Stay {
            party,
            began: now,
            answered: 0,
        }
    }

    /// The same, answered once more.
    pub(crate) fn answered_once_more(self) -> Stay
        ensures { result ≡ answered_once_more self }
    {
        Stay {
            answered: self.answered.saturating_add(1),
            ..self
        }
    }
}
