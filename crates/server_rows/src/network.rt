//! Connections in memory: the clients that come, and what each of them is written.

use crate::ends::{Narrow, Slow};
use conversation::{Parting, connection_fault};
use counted_io::ServeFault;
use multiplex::{
    Arrival, Call, NonBlockingRead, NonBlockingWrite, Origin, ReadAttempt, Source, Stay,
    WriteAttempt,
};
use peer_check::Clash;
use std::alloc::Global;
use std::io::{Read, Write};
use ua_server::{Log, SyncFault, Synced};
use ua_session::AuditEvent;

/// A client: what it writes, whether its connection breaks behind that, and how many bytes it takes.
#[derive(Clone, Copy)]
pub struct Client<'a> {
    pub bytes: &'a [u8],
    pub breaks: bool,
    pub room: usize,
}

impl<'a> Client<'a> {
    /// What it writes, and what it reads.
    pub fn ends(&self, alloc: Global) -> (Slow<'a>, Narrow) {
        let reader = Slow {
            bytes: self.bytes,
            size: 40,
            fails: self.breaks,
        };
        let writer = Narrow {
            bytes: Vec::new(alloc),
            room: self.room,
        };
        (reader, writer)
    }
}

/// What a client writes, without waiting.
#[derive(Drop)]
pub struct Mouth<'a>(Slow<'a>);

impl NonBlockingRead for Mouth<'_> {
    ghost use Rattle.std.specs.Prelude.{None};

    ghost input = { record { unread = λ m. None; is_empty = λ m. Unit {0}; has_failed = λ m. Unit {0} } };

    fn try_read(&mut self, piece: &mut [u8]) -> ReadAttempt {
        match self.0.read(piece) {
            Ok(0) => ReadAttempt::EndOfInput,
            Ok(n) => ReadAttempt::Read(n),
            Err(_) => ReadAttempt::Failed,
        }
    }
}

/// What the client of a number reads, without waiting.
#[derive(Drop)]
pub struct Ear {
    number: usize,
    end: Narrow,
}

impl NonBlockingWrite for Ear {
    ghost use Rattle.std.specs.Prelude.{None};

    ghost output = { record { written = λ m. None; is_full = λ m. Unit {0}; has_failed = λ m. Unit {0} } };

    fn try_write(&mut self, bytes: &[u8]) -> WriteAttempt {
        match self.end.write(bytes) {
            Ok(0) => WriteAttempt::Failed,
            Ok(n) => WriteAttempt::Written(n),
            Err(_) => WriteAttempt::Failed,
        }
    }
}

/// Gives these clients, one after the other, where one is there, and keeps what each of them was written.
#[derive(Drop)]
pub struct Clients<'a> {
    pub alloc: Global,
    pub clients: &'a [Option<Client<'a>>],
    pub taken: usize,
    pub written: Vec<(usize, Vec<u8>)>,
}

impl<'a> Clients<'a> {
    /// Of these none came yet.
    pub fn new(alloc: Global, clients: &'a [Option<Client<'a>>]) -> Self {
        Clients {
            alloc,
            clients,
            taken: 0,
            written: Vec::new(alloc),
        }
    }

    /// What the client of this number was written, once its connection was closed.
    pub fn written_to(&self, number: usize) -> Option<&[u8]> {
        let (_, bytes) = self.written.iter().find(|(other, _)| *other == number)?;
        Some(bytes.as_slice())
    }
}

impl<'a> Source for Clients<'a> {
    type Reader = Mouth<'a>;

    type Writer = Ear;

    ghost effects = { record {
      waited = λ old busy now new. Unit {0};
      accepted = λ old came new. Unit {0};
      called = λ old came new. Unit {0};
      closed = λ old reader writer new. Unit {0};
    } };

    fn wait(&mut self, _busy: bool) -> u64 {
        0
    }

    fn clock(&self) -> u64 {
        0
    }

    fn accept(&mut self, _slot: usize) -> Arrival<Mouth<'a>, Ear> {
        let number = self.taken;
        self.taken = number.saturating_add(1);
        match self.clients.get(number) {
            Some(Some(client)) => {
                let (reader, end) = client.ends(self.alloc);
                Arrival::Connection {
                    origin: Origin {
                        listener: 0,
                        address: None,
                    },
                    reader: Mouth(reader),
                    writer: Ear { number, end },
                }
            }
            Some(None) | None => Arrival::Failed,
        }
    }

    fn call(&mut self, _slot: usize, _now: u64) -> Option<Call<Mouth<'a>, Ear>> {
        None
    }

    fn is_ready(&self, _slot: usize) -> bool {
        true
    }

    fn is_coming(&self) -> bool {
        true
    }

    fn close(&mut self, _slot: usize, reader: Mouth<'a>, writer: Ear)
        ensures { Unit {0} }
    {
        drop(reader);
        let _ = self.written.push((writer.number, writer.end.bytes));
    }
}

/// Keeps what it is told; a connection that failed before it could be used is one of reading.
#[derive(Drop)]
pub struct Faults {
    pub told: Vec<ServeFault>,
}

impl Log for Faults {
    ghost told = { λ old event new. Unit {0} };

    fn tell_connected(&mut self, _origin: Origin) {}

    fn tell_audit(&mut self, _stay: Stay, _event: &AuditEvent) {}

    fn tell_denied(&mut self, _stay: Stay) {}

    fn tell_parted(&mut self, parting: Parting) {
        if let Some(fault) = connection_fault(parting.ending) {
            let _ = self.told.push(fault);
        }
    }

    fn tell_failed(&mut self, _now: u64) {
        let _ = self.told.push(ServeFault::Read);
    }

    fn tell_call(
        &mut self,
        _callee: usize,
        _address: &str,
        _outcome: Result<(), SyncFault>,
        _moved: Synced,
    ) {}

    fn tell_clash(&mut self, _callee: usize, _clash: &Clash) {}

    fn tell_turn(&mut self, _longest: u64) {}
}
