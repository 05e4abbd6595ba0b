//! What connections come from.

ghost use Rattle.multiplex.specs.Effects.{Effects};

use crate::stay::Origin;
use crate::transfer::{NonBlockingRead, NonBlockingWrite};

/// Who came to a listener.
pub enum Arrival<R, W> {
    /// Nobody waits at any listener.
    Nobody,
    /// A connection came, and failed before it could be used.
    Failed,
    /// A connection came.
    Connection {
        /// Where it came from.
        origin: Origin,
        /// What its other end writes.
        reader: R,
        /// What its other end reads.
        writer: W,
    },
}

/// A call that was begun.
#[derive(Drop)]
pub struct Call<R, W> {
    /// Whose it is, by a number that the source gives it.
    pub callee: usize,
    /// What the other end writes.
    pub reader: R,
    /// What the other end reads.
    pub writer: W,
}

/// What gives connections as they come to its listeners, begins calls of its own, and takes each back when it is over.
/// `wait` alone waits; its other calls, and the reads and writes of its connections, don't.
pub trait Source {
    /// What the other end of a connection writes.
    type Reader: NonBlockingRead;

    /// What the other end of a connection reads.
    type Writer: NonBlockingWrite;

    /// What its calls do.
    ghost effects: { Effects Self Self.Reader Self.Writer };

    /// Waits until something may be done, or some time is over; not at all where it is `busy`: something is to be done
    /// at once. Gives the time, in milliseconds.
    fn wait(&mut self, busy: bool) -> u64
        ensures { effects.waited self.old busy result self.new };

    /// The time now, in milliseconds, by which turns are measured.
    fn clock(&self) -> u64;

    /// Who came next to a listener; a connection gets this slot.
    fn accept(&mut self, slot: usize) -> Arrival<Self::Reader, Self::Writer>
        ensures { effects.accepted self.old result self.new };

    /// The connection of a call that is due at this time, if one is; it gets this slot. It needn't stand yet: till then
    /// its reads and writes would block.
    fn call(&mut self, slot: usize, now: u64) -> Option<Call<Self::Reader, Self::Writer>>
        ensures { effects.called self.old result self.new };

    /// Whether the connection of this slot may be ready to be read or written, as the last wait found. It is a hint: no
    /// promise rests on it.
    fn is_ready(&self, slot: usize) -> bool;

    /// Whether somebody may wait at a listener, as the last wait found. It is a hint: no promise rests on it.
    fn is_coming(&self) -> bool;

    /// Takes back the connection of this slot.
    fn close(&mut self, slot: usize, reader: Self::Reader, writer: Self::Writer)
        ensures { effects.closed self.old reader writer self.new };
}
