//! Connections that a script gives: what clients write, how they read, when they break; and a handler that answers
//! lines.

ghost use Rattle.std.specs.Prelude.{◌<◌, ◌≤◌, None};

use multiplex::{
    Arrival, Call, Handler, Limits, NonBlockingRead, NonBlockingWrite, Origin, Party, Progress,
    ReadAttempt, ServeReport, Slot, SlotEnd, Source, Stay, WriteAttempt, serve,
};
use std::alloc::{AllocError, Global};

/// A client of a script.
#[derive(Clone, Copy, Debug)]
pub struct Client {
    /// The time at which it comes, and the listener that it comes to.
    pub comes: u64,
    pub listener: usize,
    /// It comes, and fails at once.
    pub fails: bool,
    /// What it writes, and whether it ends behind that.
    pub text: &'static [u8],
    pub ends: bool,
    /// A read or a write moves so many bytes at most.
    pub each: usize,
    /// A read would block but for each so-many-th call, and a write so; always where the number is 0.
    pub pace: usize,
    pub hears: usize,
    /// Reads and writes fail behind so many bytes.
    pub reads: usize,
    pub writes: usize,
}

/// A client that comes at once, and reads and writes all without breaking.
pub const PLAIN: Client = Client {
    comes: 0,
    listener: 0,
    fails: false,
    text: b"",
    ends: true,
    each: 1000,
    pace: 1,
    hears: 1,
    reads: 1000,
    writes: 1000,
};

/// What a client writes.
#[derive(Drop)]
pub struct Mouth {
    client: Client,
    taken: usize,
    calls: usize,
}

impl NonBlockingRead for Mouth {
    ghost use Rattle.std.specs.Prelude.{None};

    ghost input = { record { unread = λ m. None; is_empty = λ m. Unit {0}; has_failed = λ m. Unit {0} } };

    fn try_read(&mut self, piece: &mut [u8]) -> ReadAttempt {
        self.calls = self.calls.saturating_add(1);
        if self.calls.checked_rem(self.client.pace) != Some(0) {
            return ReadAttempt::WouldBlock;
        }
        let may = self.client.reads.saturating_sub(self.taken);
        let rest = self.client.text.get(self.taken..).unwrap_or(b"");
        if may == 0 {
            ReadAttempt::Failed
        } else if !rest.is_empty() {
            let n = rest
                .len()
                .min(piece.len())
                .min(self.client.each.max(1))
                .min(may);
            piece[..n].copy_from_slice(&rest[..n]);
            self.taken = self.taken.saturating_add(n);
            ReadAttempt::Read(n)
        } else if self.client.ends {
            ReadAttempt::EndOfInput
        } else {
            ReadAttempt::WouldBlock
        }
    }
}

/// What a client read.
#[derive(Drop)]
pub struct Ear {
    client: Client,
    number: usize,
    text: Vec<u8>,
    calls: usize,
}

impl NonBlockingWrite for Ear {
    ghost use Rattle.std.specs.Prelude.{None};

    ghost output = { record { written = λ m. None; is_full = λ m. Unit {0}; has_failed = λ m. Unit {0} } };

    fn try_write(&mut self, bytes: &[u8]) -> WriteAttempt {
        self.calls = self.calls.saturating_add(1);
        if self.calls.checked_rem(self.client.hears) != Some(0) {
            return WriteAttempt::WouldBlock;
        }
        let may = self.client.writes.saturating_sub(self.text.len());
        if may == 0 {
            return WriteAttempt::Failed;
        }
        let n = bytes.len().min(self.client.each.max(1)).min(may);
        match self.text.extend_from_slice(&bytes[..n]) {
            Ok(()) => WriteAttempt::Written(n),
            Err(_) => WriteAttempt::Failed,
        }
    }
}

/// A script: its clients come in their order, each at its time or later; calls are due as often as it says.
#[derive(Drop)]
pub struct Script<'a> {
    alloc: Global,
    clients: &'a [Client],
    next: usize,
    calls: usize,
    clock: u64,
    tick: u64,
    /// What each connection that was closed had read: its client's number, its slot and the text. A call has number
    /// 100.
    pub closed: Vec<(usize, usize, Vec<u8>)>,
}

impl<'a> Script<'a> {
    fn ends_of(&self, client: Client, number: usize) -> (Mouth, Ear) {
        let mouth = Mouth {
            client,
            taken: 0,
            calls: 0,
        };
        let ear = Ear {
            client,
            number,
            text: Vec::new(self.alloc),
            calls: 0,
        };
        (mouth, ear)
    }
}

impl<'a> Source for Script<'a> {
    type Reader = Mouth;

    type Writer = Ear;

    ghost effects = { record {
      waited = λ old busy now new. Unit {0};
      accepted = λ old came new. Unit {0};
      called = λ old came new. Unit {0};
      closed = λ old reader writer new. Unit {0};
    } };

    fn wait(&mut self, busy: bool) -> u64 {
        if !busy {
            self.clock = self.clock.saturating_add(self.tick);
        }
        self.clock
    }

    fn clock(&self) -> u64 {
        self.clock
    }

    fn accept(&mut self, _slot: usize) -> Arrival<Mouth, Ear> {
        match self.clients.get(self.next) {
            Some(client) if client.comes <= self.clock => {
                let number = self.next;
                self.next = self.next.saturating_add(1);
                if client.fails {
                    return Arrival::Failed;
                }
                let (reader, writer) = self.ends_of(*client, number);
                Arrival::Connection {
                    origin: Origin {
                        listener: client.listener,
                        address: None,
                    },
                    reader,
                    writer,
                }
            }
            _ => Arrival::Nobody,
        }
    }

    fn call(&mut self, _slot: usize, _now: u64) -> Option<Call<Mouth, Ear>> {
        if self.calls == 0 {
            return None;
        }
        self.calls -= 1;
        let (reader, writer) = self.ends_of(PLAIN, 100);
        Some(Call {
            callee: self.calls,
            reader,
            writer,
        })
    }

    fn is_ready(&self, _slot: usize) -> bool {
        true
    }

    fn is_coming(&self) -> bool {
        match self.clients.get(self.next) {
            Some(client) => client.comes <= self.clock,
            None => false,
        }
    }

    fn close(&mut self, slot: usize, _reader: Mouth, writer: Ear) {
        let _ = self.closed.push((writer.number, slot, writer.text));
    }
}

/// What the connections of a script leave, in the order in which it came about.
#[derive(Drop)]
pub struct Notes {
    /// The listener and the first letter of each line that was answered.
    pub answers: Vec<u8>,
    /// The listener of each connection that was closed, and how it ended.
    pub ends: Vec<(usize, SlotEnd<u8>)>,
    /// When connections failed at a listener.
    pub failed: Vec<u64>,
    /// How often each connection that was closed was answered, and when it began.
    pub stays: Vec<(u64, u64)>,
    /// The time.
    pub now: u64,
    /// Whether a line told that nobody is to be served any more.
    pub over: bool,
}

impl Notes {
    /// Nothing came about yet.
    fn new(alloc: Global) -> Notes {
        Notes {
            answers: Vec::new(alloc),
            ends: Vec::new(alloc),
            failed: Vec::new(alloc),
            stays: Vec::new(alloc),
            now: 0,
            over: false,
        }
    }
}

/// Answers each line by itself, and notes it. An empty line ends the connection, a line that begins by `!` establishes
/// it, and the answer to one that begins by `~` waits a second.
#[derive(Drop)]
pub struct Echo {
    listener: usize,
    came: Vec<u8>,
    established: bool,
    /// How many milliseconds its last answer waits.
    delay: u64,
}

impl Echo {
    fn note(&self, first: u8, world: &mut Notes) {
        let listener = if self.listener == 0 { b'0' } else { b'1' };
        let _ = world.answers.extend_from_slice(&[listener, first]);
    }
}

impl Handler for Echo {
    type World = Notes;

    type End = u8;

    ghost behavior = { record {
      passes = λ v now longest_turn w. Unit {0};
      is_over = λ v. v.over;
      begins = λ origin v h w. Unit {0};
      calls = λ callee v made h w. Unit {0};
      receives = λ old bytes made end new. Unit {0};
      answers = λ stay v old made end w new. Unit {0};
      needs_more = λ h. Unit {0};
      delay = λ stay v h. h.delay;
      is_established = λ h. h.established;
      closes = λ stay v h ending w. Unit {0};
      fails_accept = λ v now w. Unit {0};
      moves = λ v w. Unit {0};
    } };

    ghost moves_add_up = { record {
      none = λ v. tt;
      more = λ u v w first later. tt;
      passes = λ v w now longest_turn is. tt;
      begins = λ origin v w h is. tt;
      answers = λ stay v w old new made end is. tt;
      calls = λ callee v w made h is. tt;
      closes = λ stay v w h ending is. tt;
      fails_accept = λ v w now is. tt;
    } };

    fn pass(world: &mut Notes, now: u64, _longest_turn: u64) {
        world.now = now;
    }

    fn is_over(world: &Notes) -> bool {
        world.over
    }

    fn begin(alloc: Global, origin: Origin, _world: &mut Notes) -> Echo {
        Echo {
            listener: origin.listener,
            came: Vec::new(alloc),
            established: false,
            delay: 0,
        }
    }

    fn call(alloc: Global, _callee: usize, world: &mut Notes, out: &mut Vec<u8>) -> Option<Echo> {
        let origin = Origin {
            listener: 1,
            address: None,
        };
        match out.extend_from_slice(b"call") {
            Ok(()) => Some(Echo::begin(alloc, origin, world)),
            Err(_) => None,
        }
    }

    fn receive(&mut self, bytes: &[u8], _out: &mut Vec<u8>) -> Option<u8> {
        match self.came.extend_from_slice(bytes) {
            Ok(()) => None,
            Err(_) => Some(9),
        }
    }

    fn answer(&mut self, _stay: Stay, world: &mut Notes, out: &mut Vec<u8>) -> Progress<u8> {
        let Some(at) = self.came.iter().position(|byte| *byte == b'\n') else {
            return Progress::NeedsMore;
        };
        let first = self.came[0];
        self.note(first, world);
        if first == b'!' {
            self.established = true;
        }
        self.delay = if first == b'~' { 1_000 } else { 0 };
        if first == b'^' {
            world.over = true;
        }
        let made = out.extend_from_slice(&self.came[..=at]);
        self.came.drain(..=at);
        match made {
            Ok(()) if at > 0 => Progress::Answered,
            _ => Progress::Ended(0),
        }
    }

    fn delay(&self, _stay: Stay, _world: &Notes) -> u64 {
        self.delay
    }

    fn is_established(&self) -> bool {
        self.established
    }

    fn close(self, stay: Stay, world: &mut Notes, ending: SlotEnd<u8>)
        ensures { Unit {0} }
    {
        let _ = world.ends.push((self.listener, ending));
        let _ = world.stays.push((stay.answered, stay.began));
    }

    fn fail_accept(world: &mut Notes, now: u64) {
        let _ = world.failed.push(now);
    }
}

/// What came of a script.
#[derive(Drop)]
pub struct Played {
    pub report: ServeReport,
    pub closed: Vec<(usize, usize, Vec<u8>)>,
    pub world: Notes,
}

/// Plays a script over so many slots; so many calls are due, and the clock goes on by so much where nothing is to be done.
pub fn play(
    alloc: Global,
    clients: &[Client],
    limits: Limits,
    slots: usize,
    calls: usize,
    tick: u64,
) -> Result<Played, AllocError> {
    let mut source = Script {
        alloc,
        clients,
        next: 0,
        calls,
        clock: 0,
        tick,
        closed: Vec::new(alloc),
    };
    let mut world = Notes::new(alloc);
    let mut all: Vec<Option<Slot<Echo, Mouth, Ear, u8>>> = Vec::new(alloc);
    for _ in 0..slots {
        all.push(None)?;
    }
    let report = serve::<Script, Echo>(alloc, &mut source, &mut world, all.as_mut_slice(), limits);
    Ok(Played {
        report,
        closed: source.closed,
        world,
    })
}
