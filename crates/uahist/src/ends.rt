//! The two ends of a connection over TCP, whose reads and writes don't wait.

use mio::net::TcpStream;
use multiplex::{NonBlockingRead, NonBlockingWrite, ReadAttempt, WriteAttempt};
use std::io::{ErrorKind, Read, Write};
use std::rc::Rc;

/// What the other end of a connection writes, or nobody, where a call couldn't even begin. Nothing is known of it.
#[derive(Drop)]
pub(crate) struct Incoming(pub Option<Rc<TcpStream>>);

impl NonBlockingRead for Incoming {
    ghost use Rattle.std.specs.Prelude.{None};

    ghost input = { record {
      unread = λ reader. None;
      is_empty = λ reader. Unit {0};
      has_failed = λ reader. Unit {0};
    } };

    /// A read that was interrupted is tried again.
    fn try_read(&mut self, piece: &mut [u8]) -> ReadAttempt {
        let Some(shared) = &self.0 else {
            return ReadAttempt::Failed;
        };
        for _ in 0..u64::MAX {
            let mut stream: &TcpStream = shared;
            match stream.read(piece) {
                Ok(0) => return ReadAttempt::EndOfInput,
                Ok(n) => return ReadAttempt::Read(n),
                Err(error) if error.kind() == ErrorKind::WouldBlock => {
                    return ReadAttempt::WouldBlock;
                }
                Err(error) if error.kind() == ErrorKind::Interrupted => {}
                Err(_) => return ReadAttempt::Failed,
            }
        }
        ReadAttempt::Failed
    }
}

/// What the other end of a connection reads, or nobody, where a call couldn't even begin. Nothing is known of it.
#[derive(Drop)]
pub(crate) struct Outgoing(pub Option<Rc<TcpStream>>);

impl NonBlockingWrite for Outgoing {
    ghost use Rattle.std.specs.Prelude.{None};

    ghost output = { record {
      written = λ writer. None;
      is_full = λ writer. Unit {0};
      has_failed = λ writer. Unit {0};
    } };

    /// A write that was interrupted is tried again; one that takes nothing has failed.
    fn try_write(&mut self, bytes: &[u8]) -> WriteAttempt {
        let Some(shared) = &self.0 else {
            return WriteAttempt::Failed;
        };
        for _ in 0..u64::MAX {
            let mut stream: &TcpStream = shared;
            match stream.write(bytes) {
                Ok(0) => return WriteAttempt::Failed,
                Ok(n) => return WriteAttempt::Written(n),
                Err(error) if error.kind() == ErrorKind::WouldBlock => {
                    return WriteAttempt::WouldBlock;
                }
                Err(error) if error.kind() == ErrorKind::Interrupted => {}
                Err(_) => return WriteAttempt::Failed,
            }
        }
        WriteAttempt::Failed
    }
}
