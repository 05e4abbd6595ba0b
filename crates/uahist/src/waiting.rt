//! Connections that came while no place was free.

use mio::net::TcpStream;
use mio::{Interest, Registry, Token};
use multiplex::Origin;
use std::alloc::Global;
use std::io;

/// The first token of those who wait. Each has one of its own, which isn't used again.
pub(crate) const FIRST_WAITING: usize = 1 << 32;

/// How many wait at most.
pub(crate) const MOST_WAITING: usize = 512;

/// How many milliseconds one who is silent stays though others want in, and none are left to wait.
const PATIENCE: u64 = 10_000;

/// How many milliseconds one who is silent stays.
const SILENCE: u64 = 120_000;

/// One who waits.
#[derive(Drop)]
struct Waiting {
    stream: TcpStream,
    origin: Origin,
    since: u64,
    token: usize,
    /// Whether something came of it.
    is_heard: bool,
}

impl Waiting {
    /// Whether nothing came of it for so many milliseconds.
    fn is_silent(&self, now: u64, patience: u64) -> bool {
        !self.is_heard && now.saturating_sub(self.since) >= patience
    }
}

/// Who came while no place was free, in the order in which they came. Who sent something is the next to get a place; who is
/// silent takes none from another.
#[derive(Drop)]
pub(crate) struct WaitingRoom {
    waiting: Vec<Waiting>,
    next_token: usize,
}

impl WaitingRoom {
    /// Nobody yet. It takes no memory.
    pub fn new(alloc: Global) -> WaitingRoom {
        WaitingRoom {
            waiting: Vec::new(alloc),
            next_token: FIRST_WAITING,
        }
    }

    /// One more, of whom is watched whether something comes.
    pub fn take(
        &mut self,
        registry: &Registry,
        mut stream: TcpStream,
        origin: Origin,
        now: u64,
    ) -> io::Result<()> {
        let token = self.next_token;
        self.next_token = token.saturating_add(1);
        registry.register(&mut stream, Token(token), Interest::READABLE)?;
        self.waiting.push(Waiting {
            stream,
            origin,
            since: now,
            token,
            is_heard: false,
        })?;
        Ok(())
    }

    /// Notes that something came of the one of this token.
    pub fn note(&mut self, token: usize) {
        for one in self.waiting.iter_mut() {
            if one.token == token {
                one.is_heard = true;
            }
        }
    }

    /// Whether somebody waits of whom something came.
    pub fn has_heard(&self) -> bool {
        self.waiting.iter().any(|one| one.is_heard)
    }

    /// The first of whom something came, or else the first, and where it came from.
    pub fn next(&mut self) -> Option<(TcpStream, Origin)> {
        if self.waiting.is_empty() {
            return None;
        }
        let place = match self.waiting.iter().position(|one| one.is_heard) {
            Some(place) => place,
            None => 0,
        };
        let Waiting { stream, origin, .. } = self.waiting.remove(place);
        Some((stream, origin))
    }

    /// How many wait.
    pub fn count(&self) -> usize {
        self.waiting.len()
    }

    /// How many wait that came to the listener of this number.
    pub fn count_from(&self, listener: usize) -> usize {
        self.waiting
            .iter()
            .filter(|one| one.origin.listener == listener)
            .count()
    }

    /// Ends those who were silent for two minutes.
    pub fn end_silent(&mut self, now: u64) {
        self.waiting.retain(|one| !one.is_silent(now, SILENCE));
    }

    /// Whether one more may wait. Where as many wait as may, the first makes room who was silent for ten seconds.
    pub fn makes_room(&mut self, now: u64) -> bool {
        if self.waiting.len() < MOST_WAITING {
            return true;
        }
        match self
            .waiting
            .iter()
            .position(|one| one.is_silent(now, PATIENCE))
        {
            Some(place) => {
                drop(self.waiting.remove(place));
                true
            }
            None => false,
        }
    }
}
