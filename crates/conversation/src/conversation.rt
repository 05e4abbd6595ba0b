//! One end of one connection.

use crate::answering::{answer_first, is_established};
use crate::calling::start_call;
use crate::closing::{call_outcome, tell_call, tell_turn};
use crate::ended::Ended;
use crate::log::{Log, Parting};
use crate::other_end::{NONE_MOVED, OtherEnd, PeerDialog, first_end, moved_by};
use crate::receiving::{take_bytes, tell_starved};
use crate::world::World;
use archive::Archive;
use counted_io::ServeFault;
use exchange::Frames;
use multiplex::{Handler, Origin, Party, Progress, SlotEnd, Stay};
use std::alloc::Global;
use std::marker::{Model, PhantomData};
use ua_connection::Clock;
use ua_peers::SyncFault;

/// What is said on one connection, a client's, a peer's or a browser's, over a server that others share.
///
/// It reads and writes nothing: `receive` takes bytes that came, and `answer` answers what stands first in them. The first
/// three letters tell whose connection it is, where its door takes both.
#[derive(Drop)]
pub struct Conversation<A, C, L> {
    other: OtherEnd,
    alloc: Global,
    world: PhantomData<(A, C, L)>,
}

impl<A, C, L> Model for Conversation<A, C, L> {
    ghost use Rattle.conversation.specs.declared.other_end.OtherEnd.{OtherEnd};
    ghost use Rattle.conversation.specs.OtherEnds.{IsUsable};

    ghost Value = { OtherEnd };

    ghost view = { λ c. c.other };

    ghost invariant = { λ c. IsUsable c.other };
}

impl<A: Archive, C: Clock, L: Log> Handler for Conversation<A, C, L> {
    ghost use Rattle.conversation.specs.Conversing.{behavior_over};
    ghost use Rattle.conversation.specs.Adding.{moves_over};
    ghost use Rattle.conversation.specs.Closing.{TellsEnd};

    type World = World<A, C, L>;

    type End = Result<Ended, ServeFault>;

    ghost behavior = { behavior_over A.state C.gave L.told };

    ghost moves_add_up = { moves_over A.state C.gave L.told };

    /// Keeps the time, and tells how long the longest turn so far took, where the settings want it told.
    fn pass(world: &mut World<A, C, L>, now: u64, longest_turn: u64) {
        world.now = now;
        tell_turn(world, longest_turn);
    }

    /// Whether the store is broken, and the settings say that nobody is served then.
    fn is_over(world: &World<A, C, L>) -> bool {
        world.server.settings.after_break().ends_serving()
            && world.server.replica.archive.is_broken()
    }

    /// Nothing came yet, and nobody is known, but for strangers at the door of peers, and for browsers. That it came is told, and
    /// counted. It takes no memory.
    fn begin(alloc: Global, origin: Origin, world: &mut World<A, C, L>) -> Self {
        world.connections = world.connections.saturating_add(1);
        world.log.tell_connected(origin);
        Conversation {
            other: first_end(alloc, &world.from, origin),
            alloc,
            world: PhantomData,
        }
    }

    /// A call of the peer of this number in the settings, as the initiator of a dialog. Where its first frame can't be made,
    /// it is told, as the end of the call.
    fn call(
        alloc: Global,
        callee: usize,
        world: &mut World<A, C, L>,
        out: &mut Vec<u8>,
    ) -> Option<Self> {
        match start_call(alloc, callee, world, out) {
            Ok(dialog) => Some(Conversation {
                other: OtherEnd::Peer(PeerDialog {
                    dialog,
                    frames: Frames::new(alloc),
                    is_heard: false,
                }),
                alloc,
                world: PhantomData,
            }),
            Err(fault) => {
                tell_call(world, callee, Err(SyncFault::Exchange(fault)), NONE_MOVED);
                None
            }
        }
    }

    /// Takes bytes that came. Where memory for them is wanting the connection ends, and its other end is told: a peer by an
    /// `RXE` with 4, a browser by nothing, anyone else by an Error message with Bad_OutOfMemory.
    fn receive(&mut self, bytes: &[u8], out: &mut Vec<u8>) -> Option<Result<Ended, ServeFault>> {
        if take_bytes(self.alloc, &mut self.other, bytes) {
            return None;
        }
        let end = tell_starved(&self.other, out);
        self.other = OtherEnd::Over(moved_by(&self.other));
        Some(end)
    }

    /// Answers a client's chunk, a peer's frame or a browser's request, where it is whole. With a stranger it is over.
    fn answer(
        &mut self,
        stay: Stay,
        world: &mut World<A, C, L>,
        out: &mut Vec<u8>,
    ) -> Progress<Result<Ended, ServeFault>> {
        answer_first(stay, world, &mut self.other, out)
    }

    /// An answer to a login waits a second where as many were refused before it as the settings allow; no other waits.
    fn delay(&self, stay: Stay, world: &World<A, C, L>) -> u64 {
        world.logins.delay()
    }

    /// Whether its other end is a client with a session that was activated, or a peer of whom a whole frame came.
    fn is_established(&self) -> bool {
        is_established(&self.other)
    }

    /// Tells how a connection ended, which isn't counted any more. How a call did is kept, too.
    fn close(
        self,
        stay: Stay,
        world: &mut World<A, C, L>,
        ending: SlotEnd<Result<Ended, ServeFault>>,
    )
        ensures { TellsEnd C.gave L.told stay world.old self ending world.new }
    {
        let moved = moved_by(&self.other);
        match stay.party {
            Party::Called(callee) => tell_call(world, callee, call_outcome(ending), moved),
            Party::Accepted(_) => {
                world.connections = world.connections.saturating_sub(1);
                world.log.tell_parted(Parting {
                    stay,
                    at: world.now,
                    ending,
                    moved,
                })
            }
        }
    }

    /// Tells that a connection failed before it could be used.
    fn fail_accept(world: &mut World<A, C, L>, now: u64) {
        world.log.tell_failed(now);
    }
}
