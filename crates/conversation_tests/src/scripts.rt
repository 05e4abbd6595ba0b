//! Connections that a script gives over one server: what callers write, in which pieces, and what each of them reads.

use crate::shared::{Shared, Talk, shared_over_nothing};
use archive::ListArchive;
use conversation::{Door, Network};
use multiplex::{
    Arrival, Call, Handler, Limits, NonBlockingRead, NonBlockingWrite, Origin, ReadAttempt, Slot,
    Source, WriteAttempt, serve,
};
use server_rows::plant::plant;
use std::alloc::Global;
use std::net::SocketAddr;
use std::test::Fail;
use ua_binary::Listing;
use ua_settings::Settings;

/// Who calls, where, and what it writes.
#[derive(Clone, Copy)]
pub struct Caller<'a> {
    pub door: Door,
    /// Where it comes from, where that is known.
    pub address: Option<SocketAddr>,
    pub text: &'a [u8],
    /// A read or a write moves so many bytes at most.
    pub each: usize,
    /// A read or a write would block but for each so-many-th call.
    pub pace: usize,
}

/// What a caller writes.
#[derive(Drop)]
pub struct Mouth<'a> {
    caller: Caller<'a>,
    taken: usize,
    calls: usize,
}

impl NonBlockingRead for Mouth<'_> {
    ghost use Rattle.std.specs.Prelude.{None};

    ghost input = { record { unread = λ m. None; is_empty = λ m. Unit {0}; has_failed = λ m. Unit {0} } };

    fn try_read(&mut self, piece: &mut [u8]) -> ReadAttempt {
        self.calls = self.calls.saturating_add(1);
        if self.calls.checked_rem(self.caller.pace) != Some(0) {
            return ReadAttempt::WouldBlock;
        }
        let rest = self.caller.text.get(self.taken..).unwrap_or(b"");
        if rest.is_empty() {
            return ReadAttempt::EndOfInput;
        }
        let n = rest.len().min(piece.len()).min(self.caller.each.max(1));
        piece[..n].copy_from_slice(&rest[..n]);
        self.taken = self.taken.saturating_add(n);
        ReadAttempt::Read(n)
    }
}

/// What a caller reads.
#[derive(Drop)]
pub struct Ear {
    number: usize,
    each: usize,
    pace: usize,
    text: Vec<u8>,
    calls: usize,
}

impl NonBlockingWrite for Ear {
    ghost use Rattle.std.specs.Prelude.{None};

    ghost output = { record { written = λ m. None; is_full = λ m. Unit {0}; has_failed = λ m. Unit {0} } };

    fn try_write(&mut self, bytes: &[u8]) -> WriteAttempt {
        self.calls = self.calls.saturating_add(1);
        if self.calls.checked_rem(self.pace) != Some(0) {
            return WriteAttempt::WouldBlock;
        }
        let n = bytes.len().min(self.each.max(1));
        match self.text.extend_from_slice(&bytes[..n]) {
            Ok(()) => WriteAttempt::Written(n),
            Err(_) => WriteAttempt::Failed,
        }
    }
}

/// The number of a caller, and what it read.
pub type Heard = (usize, Vec<u8>);

/// A script: its callers come at once, in their order.
#[derive(Drop)]
struct Script<'a> {
    alloc: Global,
    callers: &'a [Caller<'a>],
    next: usize,
    clock: u64,
    /// What each caller whose connection was closed had read, with its number.
    closed: Vec<Heard>,
}

impl<'a> Script<'a> {
    /// None of these callers came yet.
    fn new(alloc: Global, callers: &'a [Caller<'a>]) -> Self {
        Script {
            alloc,
            callers,
            next: 0,
            clock: 0,
            closed: Vec::new(alloc),
        }
    }

    /// What the callers had read.
    fn into_closed(self) -> Vec<Heard> {
        self.closed
    }
}

impl<'a> Source for Script<'a> {
    type Reader = Mouth<'a>;

    type Writer = Ear;

    ghost effects = { record {
      waited = λ old busy now new. Unit {0};
      accepted = λ old came new. Unit {0};
      called = λ old came new. Unit {0};
      closed = λ old reader writer new. Unit {0};
    } };

    fn wait(&mut self, busy: bool) -> u64 {
        if !busy {
            self.clock = self.clock.saturating_add(1);
        }
        self.clock
    }

    fn clock(&self) -> u64 {
        self.clock
    }

    fn accept(&mut self, _slot: usize) -> Arrival<Mouth<'a>, Ear> {
        match self.callers.get(self.next) {
            Some(caller) => {
                let number = self.next;
                self.next = self.next.saturating_add(1);
                Arrival::Connection {
                    origin: Origin {
                        listener: caller.door.listener(),
                        address: caller.address,
                    },
                    reader: Mouth {
                        caller: *caller,
                        taken: 0,
                        calls: 0,
                    },
                    writer: Ear {
                        number,
                        each: caller.each,
                        pace: caller.pace,
                        text: Vec::new(self.alloc),
                        calls: 0,
                    },
                }
            }
            None => Arrival::Nobody,
        }
    }

    fn call(&mut self, _slot: usize, _now: u64) -> Option<Call<Mouth<'a>, Ear>> {
        None
    }

    fn is_ready(&self, _slot: usize) -> bool {
        true
    }

    fn is_coming(&self) -> bool {
        self.next < self.callers.len()
    }

    fn close(&mut self, _slot: usize, _reader: Mouth<'a>, writer: Ear) {
        let _ = self.closed.push((writer.number, writer.text));
    }
}

/// Peers are taken from these networks at a door of their own.
fn take_from<A>(world: &mut Shared<A>, from: Option<Listing<Network>>) {
    world.from = from;
}

/// Serves the callers of a script, twenty of them at a time.
fn serve_script<'a, H: Handler>(source: &mut Script<'a>, world: &mut H::World) -> Result<(), Fail> {
    let alloc = source.alloc;
    let limits = Limits {
        connections: Some(source.callers.len() as u64),
        accept_slots: 20,
        waiting_bytes: 1_000_000,
        rounds: 1_000_000,
    };
    let mut slots: Vec<Option<Slot<H, Mouth<'a>, Ear, H::End>>> = Vec::new(alloc);
    for _ in 0..20 {
        slots.push(None)?;
    }
    let _ = serve::<Script<'a>, H>(alloc, source, world, slots.as_mut_slice(), limits);
    Ok(())
}

/// What each of these callers reads of a server of these settings that holds nothing, and takes peers from these networks at a
/// door of their own, with its number, in the order of their ends.
pub fn heard_by(
    alloc: Global,
    settings: Settings,
    callers: &[Caller<'_>],
    from: Option<Listing<Network>>,
) -> Result<Vec<Heard>, Fail> {
    let mut source = Script::new(alloc, callers);
    let mut world = shared_over_nothing(alloc, settings);
    take_from(&mut world, from);
    serve_script::<Talk<ListArchive>>(&mut source, &mut world)?;
    Ok(source.into_closed())
}

/// The same of the plant.
pub fn heard_in_plant(
    alloc: Global,
    callers: &[Caller<'_>],
    from: Option<Listing<Network>>,
) -> Result<Vec<Heard>, Fail> {
    let settings = plant(alloc)?;
    heard_by(alloc, settings, callers, from)
}
