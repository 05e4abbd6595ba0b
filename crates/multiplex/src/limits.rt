//! What a server takes at most, and what came of it.

ghost use Rattle.std.specs.Prelude.{◌≡◌};

use std::alloc::Global;

/// What a server takes at most.
#[derive(Clone, Copy, Debug, PartialEq, Eq)]
pub struct Limits {
    /// So many connections are accepted, and then no more; none: no number ends it.
    pub connections: Option<u64>,
    /// The first so many slots are for connections that are accepted, the others for calls.
    pub accept_slots: usize,
    /// No connection is answered while so many bytes wait to be written at all of them together.
    pub waiting_bytes: usize,
    /// So many rounds are served, and then no more.
    pub rounds: u64,
}

/// What came of serving.
#[derive(Clone, Copy, Debug, PartialEq, Eq)]
pub struct ServeReport {
    /// Whether all connections were accepted and closed; else the world or the rounds were over before.
    pub is_done: bool,
    /// Whether the world was over before.
    pub is_over: bool,
    /// How many connections were accepted, failed ones counted.
    pub accepted: u64,
    /// The longest time that one turn of a connection took, in milliseconds, by the source's clock.
    pub longest_turn: u64,
}

impl Limits {
    /// How many rounds are served.
    pub(crate) fn rounds(self) -> u64
        ensures { result ≡ self.rounds }
    {
        self.rounds
    }
}

/// What one round of turns goes by.
#[derive(Clone, Copy)]
pub(crate) struct Round {
    pub(crate) alloc: Global,
    pub(crate) limits: Limits,
    /// Whether calls may begin: not once all connections are accepted and closed.
    pub(crate) may_call: bool,
    /// The time at its begin, in milliseconds.
    pub(crate) now: u64,
}
