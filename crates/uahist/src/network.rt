//! Connections over TCP whose reads and writes don't wait.

use crate::descriptors;
use crate::ends::{Incoming, Outgoing};
use crate::waiting::{FIRST_WAITING, WaitingRoom};
use mio::net::{TcpListener, TcpStream};
use mio::{Events, Interest, Poll, Token};
use multiplex::{Arrival, Call, Origin, Source};
use std::io;
use std::io::ErrorKind;
use std::net::SocketAddr;
use std::rc::Rc;
use std::time::{Duration, Instant};
use ua_server::{Callee, Door, Listening};

/// The tokens of the listeners are from here on, that of the first one first: there are three at most. Smaller ones are of those
/// who wait for a place, and the smallest are numbers of slots.
const LISTENERS: usize = usize::MAX - 2;

/// How many milliseconds are waited at most: so often it is looked who was silent for too long.
const TICK: u64 = 500;

/// How many events one wait takes.
const EVENTS: usize = 256;

/// How many are let into the waiting room after one wait.
const MOST_AT_ONCE: usize = 64;

/// A peer that is called, and when.
#[derive(Drop)]
struct DueCallee {
    callee: Callee,
    /// When it is due next.
    due: u64,
    /// The slot of its call, while one lasts.
    slot: Option<usize>,
}

/// A listener at an address, for those whom its door takes.
#[derive(Drop)]
struct Doorway {
    listener: TcpListener,
    door: Door,
    /// Whether somebody may wait there.
    is_coming: bool,
}

/// The connections that come to addresses over TCP, and calls of peers.
#[derive(Drop)]
pub(crate) struct TcpSource<'a> {
    rt: &'a HostRuntime,
    poll: Poll,
    events: Events,
    doorways: Vec<Doorway>,
    /// The doorway where it is asked next, so that none is asked first each time.
    next_doorway: usize,
    /// Whether somebody came since the last wait.
    has_come: bool,
    /// Whether it was asked since the last wait who comes; where it isn't, no place is free.
    was_asked: bool,
    /// Who came while no place was free.
    room: WaitingRoom,
    callees: Vec<DueCallee>,
    /// Of each slot, whether the last wait found that its connection may be ready.
    ready: Vec<bool>,
    /// Of each slot, whether a browser has it.
    browsers: Vec<bool>,
    /// How many connections of browsers are taken at a time.
    most_browsers: usize,
    /// How many slots have a connection that came.
    open: usize,
    /// How many that came fit at a time, those who wait among them.
    fitting: usize,
    start: Instant,
}

impl<'a> TcpSource<'a> {
    /// Listeners at these addresses, and calls of these peers, each at once and then when it is due; or the door whose address
    /// can't be listened at, and what the system said of it.
    pub fn listen(rt: &'a HostRuntime, listening: &Listening) -> Result<Self, (Door, ErrorKind)> {
        let door = if listening.peers.is_some() {
            Door::Clients
        } else {
            Door::Both
        };
        let mut source = match TcpSource::calling(rt, &listening.callees) {
            Ok(source) => source,
            Err(error) => return Err((door, error.kind())),
        };
        source.fitting = descriptors::fitting(rt, listening);
        match source.open(listening.clients, door) {
            Ok(()) => {}
            Err(error) => return Err((door, error.kind())),
        }
        if let Some(address) = listening.peers {
            match source.open(address, Door::Peers) {
                Ok(()) => {}
                Err(error) => return Err((Door::Peers, error.kind())),
            }
        }
        let Some(web) = listening.browsers else {
            return Ok(source);
        };
        source.most_browsers = web.connections as usize;
        match source.open(web.address, Door::Browsers) {
            Ok(()) => Ok(source),
            Err(error) => Err((Door::Browsers, error.kind())),
        }
    }

    /// One that listens nowhere yet, and calls these peers.
    fn calling(rt: &'a HostRuntime, callees: &[Callee]) -> io::Result<Self> {
        Ok(TcpSource {
            rt,
            poll: Poll::new(rt)?,
            events: Events::with_capacity(rt.alloc(), EVENTS)?,
            doorways: Vec::new(rt.alloc()),
            next_doorway: 0,
            has_come: false,
            was_asked: true,
            room: WaitingRoom::new(rt.alloc()),
            callees: due_at_once(rt, callees)?,
            ready: Vec::new(rt.alloc()),
            browsers: Vec::new(rt.alloc()),
            most_browsers: 0,
            open: 0,
            fitting: 0,
            start: Instant::now(rt)?,
        })
    }

    /// Listens at one more address.
    fn open(&mut self, address: SocketAddr, door: Door) -> io::Result<()> {
        let mut listener = TcpListener::bind(self.rt, address)?;
        let token = Token(LISTENERS.saturating_add(self.doorways.len()));
        self.poll
            .registry()
            .register(&mut listener, token, Interest::READABLE)?;
        self.doorways.push(Doorway {
            listener,
            door,
            is_coming: true,
        })?;
        Ok(())
    }

    /// The next connection at the doorways, each of which is asked first in its turn, and where it came from; none where nobody
    /// comes.
    fn next(&mut self) -> io::Result<Option<(TcpStream, Origin)>> {
        for _ in 0..self.doorways.len() {
            let Some(doorway) = self.next_coming() else {
                return Ok(None);
            };
            match doorway.listener.accept() {
                Ok((stream, address)) => {
                    let origin = Origin {
                        listener: doorway.door.listener(),
                        address: Some(canonical(address)),
                    };
                    stream.set_nodelay(true)?;
                    return Ok(Some((stream, origin)));
                }
                Err(error) if error.kind() == ErrorKind::WouldBlock => doorway.is_coming = false,
                Err(error) => return Err(error),
            }
        }
        Ok(None)
    }

    /// The next doorway where somebody may come. The one after it is asked first the next time.
    fn next_coming(&mut self) -> Option<&mut Doorway> {
        let count = self.doorways.len();
        for _ in 0..count {
            let place = self.next_doorway;
            self.next_doorway = if place.saturating_add(1) < count {
                place.saturating_add(1)
            } else {
                0
            };
            if self.may_come(place) {
                return self.doorways.get_mut(place);
            }
        }
        None
    }

    /// Whether somebody may come to this doorway, and would be taken: of browsers so many are at a time, and of all as many as
    /// fit.
    fn may_come(&self, place: usize) -> bool {
        let Some(doorway) = self.doorways.get(place) else {
            return false;
        };
        doorway.is_coming
            && self.takes_any()
            && (doorway.door != Door::Browsers || self.takes_browsers())
    }

    /// Whether a descriptor is left for one more.
    fn takes_any(&self) -> bool {
        self.open.saturating_add(self.room.count()) < self.fitting
    }

    /// Whether one browser more is taken.
    fn takes_browsers(&self) -> bool {
        let served = self.browsers.iter().filter(|here| **here).count();
        let waiting = self.room.count_from(Door::Browsers.listener());
        served.saturating_add(waiting) < self.most_browsers
    }

    /// Lets who came into the waiting room, as far as there is room.
    fn fill_room(&mut self, now: u64) {
        self.room.end_silent(now);
        for _ in 0..MOST_AT_ONCE {
            let is_coming = (0..self.doorways.len()).any(|place| self.may_come(place));
            if !is_coming || !self.room.makes_room(now) {
                return;
            }
            let Ok(Some((stream, origin))) = self.next() else {
                return;
            };
            if self
                .room
                .take(self.poll.registry(), stream, origin, now)
                .is_err()
            {
                return;
            }
        }
    }

    /// The next connection, for this slot, and where it came from: first who waited.
    fn next_for(&mut self, slot: usize) -> io::Result<Option<(Incoming, Outgoing, Origin)>> {
        if let Some((mut stream, origin)) = self.room.next() {
            self.poll.registry().deregister(&mut stream)?;
            return Ok(Some(self.seat(slot, stream, origin)?));
        }
        let Some((stream, origin)) = self.next()? else {
            return Ok(None);
        };
        Ok(Some(self.seat(slot, stream, origin)?))
    }

    /// The ends of a connection that came from there, for this slot.
    fn seat(
        &mut self,
        slot: usize,
        stream: TcpStream,
        origin: Origin,
    ) -> io::Result<(Incoming, Outgoing, Origin)> {
        let (reader, writer) = self.watch(slot, stream)?;
        self.open = self.open.saturating_add(1);
        if let Some(here) = self.browsers.get_mut(slot) {
            *here = origin.listener == Door::Browsers.listener();
        }
        Ok((reader, writer, origin))
    }

    /// A connection with a peer, for this slot. It needn't stand yet.
    fn reach(&mut self, slot: usize, address: SocketAddr) -> io::Result<(Incoming, Outgoing)> {
        let stream = TcpStream::connect(self.rt, address)?;
        self.watch(slot, stream)
    }

    /// The ends of a connection, which is watched under the number of its slot.
    fn watch(&mut self, slot: usize, mut stream: TcpStream) -> io::Result<(Incoming, Outgoing)> {
        for _ in self.ready.len()..slot.saturating_add(1) {
            self.ready.push(false)?;
        }
        for _ in self.browsers.len()..slot.saturating_add(1) {
            self.browsers.push(false)?;
        }
        self.poll.registry().register(
            &mut stream,
            Token(slot),
            Interest::READABLE | Interest::WRITABLE,
        )?;
        let stream = Rc::new(self.rt.alloc(), stream)?;
        Ok((Incoming(Some(stream.clone()?)), Outgoing(Some(stream))))
    }

    /// The number and the address of the first peer that is due and isn't being called; its next call is set.
    fn next_callee(&mut self, slot: usize, now: u64) -> Option<(usize, SocketAddr)> {
        for (number, callee) in self.callees.iter_mut().enumerate() {
            if callee.slot.is_none() && callee.due <= now {
                callee.slot = Some(slot);
                callee.due = now.saturating_add(u64::from(callee.callee.every) * 1_000);
                return Some((number, callee.callee.address));
            }
        }
        None
    }

    /// Notes what the last wait found.
    fn note_events(&mut self) {
        for event in &self.events {
            let token = event.token().0;
            if token >= LISTENERS {
                if let Some(doorway) = self.doorways.get_mut(token - LISTENERS) {
                    doorway.is_coming = true;
                }
            } else if token >= FIRST_WAITING {
                self.room.note(token);
            } else if let Some(ready) = self.ready.get_mut(token) {
                *ready = true;
            }
        }
    }
}

/// An address, where it is an IPv4 one within IPv6 (`::ffff:10.1.2.3`) as that.
fn canonical(address: SocketAddr) -> SocketAddr {
    SocketAddr::new(address.ip().to_canonical(), address.port())
}

/// The peers to be called, each of them at once.
fn due_at_once(rt: &HostRuntime, callees: &[Callee]) -> io::Result<Vec<DueCallee>> {
    let mut due = Vec::new(rt.alloc());
    for callee in callees {
        due.push(DueCallee {
            callee: *callee,
            due: 0,
            slot: None,
        })?;
    }
    Ok(due)
}

impl Source for TcpSource<'_> {
    type Reader = Incoming;

    type Writer = Outgoing;

    ghost effects = { record {
      waited = λ old busy now new. Unit {0};
      accepted = λ old came new. Unit {0};
      called = λ old came new. Unit {0};
      closed = λ old reader writer new. Unit {0};
    } };

    /// Waits half a second at most.
    fn wait(&mut self, busy: bool) -> u64 {
        let at_once = busy || self.has_come;
        self.has_come = false;
        for ready in self.ready.iter_mut() {
            *ready = false;
        }
        let patience = Duration::from_millis(if at_once { 0 } else { TICK });
        if self.poll.poll(&mut self.events, Some(patience)).is_ok() {
            self.note_events();
        }
        let now = self.clock();
        if !self.was_asked {
            self.fill_room(now);
        }
        self.was_asked = false;
        now
    }

    fn clock(&self) -> u64 {
        match self.start.elapsed(self.rt) {
            Ok(since) => u64::try_from(since.as_millis()).unwrap_or(u64::MAX),
            Err(_) => 0,
        }
    }

    /// A connection that can't be had is tried again after the next wait.
    fn accept(&mut self, slot: usize) -> Arrival<Incoming, Outgoing> {
        self.was_asked = true;
        match self.next_for(slot) {
            Ok(Some((reader, writer, origin))) => {
                self.has_come = true;
                Arrival::Connection {
                    origin,
                    reader,
                    writer,
                }
            }
            Ok(None) => Arrival::Nobody,
            Err(_) => Arrival::Failed,
        }
    }

    /// A call that can't even begin is one whose reads and writes fail.
    fn call(&mut self, slot: usize, now: u64) -> Option<Call<Incoming, Outgoing>> {
        let (callee, address) = self.next_callee(slot, now)?;
        let (reader, writer) = match self.reach(slot, address) {
            Ok(ends) => ends,
            Err(_) => (Incoming(None), Outgoing(None)),
        };
        Some(Call {
            callee,
            reader,
            writer,
        })
    }

    fn is_ready(&self, slot: usize) -> bool {
        self.ready.get(slot).copied().unwrap_or(false)
    }

    /// Somebody waits for a place, and sent something: who is silent needs none yet.
    fn is_coming(&self) -> bool {
        self.room.has_heard()
    }

    /// The system forgets a connection of which nobody holds anything.
    fn close(&mut self, slot: usize, reader: Incoming, writer: Outgoing)
        ensures { Unit {0} }
    {
        let mut is_call = false;
        for callee in self.callees.iter_mut() {
            if callee.slot == Some(slot) {
                callee.slot = None;
                is_call = true;
            }
        }
        if !is_call {
            self.open = self.open.saturating_sub(1);
        }
        if let Some(here) = self.browsers.get_mut(slot) {
            *here = false;
        }
        drop(reader);
        drop(writer);
    }
}
