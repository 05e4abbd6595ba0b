//! Reads and writes that don't wait.

ghost use Rattle.std.specs.Prelude.{◌<◌, length};
ghost use Rattle.multiplex.specs.Input.{Input, HasRead};
ghost use Rattle.multiplex.specs.Output.{Output, HasWritten};

/// What a read that doesn't wait comes to.
#[derive(Clone, Copy, Debug, PartialEq, Eq)]
pub enum ReadAttempt {
    /// So many bytes were read, one at least.
    Read(usize),
    /// Nothing more will come.
    EndOfInput,
    /// Nothing is there now.
    WouldBlock,
    /// It failed.
    Failed,
}

/// What a write that doesn't wait comes to.
#[derive(Clone, Copy, Debug, PartialEq, Eq)]
pub enum WriteAttempt {
    /// So many bytes were written, one at least.
    Written(usize),
    /// Nothing can be written now.
    WouldBlock,
    /// It failed.
    Failed,
}

/// What the other end of a connection writes.
pub trait NonBlockingRead: Drop {
    /// What is known of it.
    ghost input: { Input Self };

    /// Reads the next bytes into `piece`, which isn't empty, if some are there, and never waits.
    fn try_read(&mut self, piece: &mut [u8]) -> ReadAttempt
        requires { 0 < length piece.old }
        ensures { HasRead input self.old piece.new result self.new };
}

/// What the other end of a connection reads.
pub trait NonBlockingWrite: Drop {
    /// What is known of it.
    ghost output: { Output Self };

    /// Writes a first part of `bytes`, of which there is one at least, if that can be done now, and never waits.
    fn try_write(&mut self, bytes: &[u8]) -> WriteAttempt
        requires { 0 < length bytes.now }
        ensures { HasWritten output self.old bytes.now result self.new };
}
