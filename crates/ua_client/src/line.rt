//! A connection, as a client has it.

ghost use Rattle.std.specs.Prelude.{◌≡◌};

use counted_io::Counted;
use std::alloc::Global;

/// The two ends of a connection, and where memory for what goes over it is had.
#[derive(Drop)]
pub struct Line<R, W> {
    pub alloc: Global,
    /// What the server writes.
    pub reader: Counted<R>,
    /// What the server reads.
    pub writer: Counted<W>,
}

impl<R, W> Line<R, W> {
    /// A line over these ends.
    pub fn new(alloc: Global, reader: Counted<R>, writer: Counted<W>) -> Self
        ensures { result ≡ record { alloc = alloc; reader = reader; writer = writer } }
    {
        Line {
            alloc,
            reader,
            writer,
        }
    }

    /// Its ends.
    pub fn into_ends(self) -> (Counted<R>, Counted<W>)
        ensures { result ≡ (self.reader, self.writer) }
    {
        (self.reader, self.writer)
    }
}
