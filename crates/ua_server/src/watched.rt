//! What is said on one connection, where it is watched whether the store breaks.

ghost use Rattle.std.specs.Prelude.{◌≡◌};
ghost use Rattle.ua_server.specs.Watching.{are_served_on, is_break_news, is_cause_due, TellsBreak};

use crate::log::ErrorLog;
use archive::Archive;
use conversation::{Conversation, Ended, World};
use counted_io::ServeFault;
use multiplex::{Handler, Origin, Progress, SlotEnd, Stay};
use std::alloc::Global;
use std::io::Write;
use std::marker::Model;
use ua_connection::Clock;
use ua_settings::Settings;

/// What is said on one connection, of which standard error is told.
type Told<A, C, E> = Conversation<A, C, ErrorLog<E, C>>;

/// What is said on one connection, of which standard error is told, and once that the store broke.
#[derive(Drop)]
pub(crate) struct Watched<A, C, E> {
    conversation: Told<A, C, E>,
}

impl<A, C, E> Model for Watched<A, C, E> {
    ghost use Rattle.conversation.specs.declared.other_end.OtherEnd.{OtherEnd};

    ghost Value = { OtherEnd };

    ghost view = { λ w. w.conversation };
}

/// Whether the store is broken, and that is to be told.
fn is_break_news<A: Archive, C, E>(world: &World<A, C, ErrorLog<E, C>>) -> bool
    ensures { result ≡ is_break_news A.state world.entry.now }
{
    world.log.events
        && !world.log.is_break_told
        && !world.server.settings.after_break().ends_serving()
        && world.server.replica.archive.is_broken()
}

/// Whether these settings serve on over a store in a file that broke.
fn are_served_on(settings: &Settings) -> bool
    ensures { result ≡ are_served_on settings.now }
{
    !settings.after_break().ends_serving() && settings.store().is_some()
}

/// Whether it is to be told why the store broke.
fn is_cause_due<A: Archive, C, E>(world: &World<A, C, ErrorLog<E, C>>) -> bool
    ensures { result ≡ is_cause_due A.state world.entry.now }
{
    world.server.replica.archive.is_broken()
        && world.log.events
        && !world.log.is_cause_told
        && are_served_on(&world.server.settings)
}

/// Tells that the store broke, where events are told and the settings say that it is served on. What was told the log knows.
pub(crate) fn tell_break<A: Archive, C: Clock, E: Write>(world: &mut World<A, C, ErrorLog<E, C>>)
    ensures { TellsBreak A.state C.gave E.contents world.old world.new }
{
    if is_break_news(world) {
        world.log.log_break();
    }
}

impl<A: Archive, C: Clock, E: Write> Handler for Watched<A, C, E> {
    ghost use Rattle.conversation.specs.Closing.{TellsEnd};
    ghost use Rattle.ua_server.specs.Logging.{logs_to};
    ghost use Rattle.ua_server.specs.Watching.{conversations};
    ghost use Rattle.ua_server.specs.WatchedMoves.{watched_moves};

    type World = World<A, C, ErrorLog<E, C>>;

    type End = Result<Ended, ServeFault>;

    ghost behavior = { conversations A.state C.gave E.contents };

    ghost moves_add_up = { watched_moves A.state C.gave E.contents };

    /// Tells too that the store broke, where that is to be told.
    fn pass(world: &mut World<A, C, ErrorLog<E, C>>, now: u64, longest_turn: u64) {
        Told::<A, C, E>::pass(world, now, longest_turn);
        tell_break(world);
    }

    /// Also where it is to be told why the store broke, until that was told.
    fn is_over(world: &World<A, C, ErrorLog<E, C>>) -> bool {
        Told::<A, C, E>::is_over(world) || is_cause_due(world)
    }

    fn begin(alloc: Global, origin: Origin, world: &mut World<A, C, ErrorLog<E, C>>) -> Self {
        Watched {
            conversation: Told::<A, C, E>::begin(alloc, origin, world),
        }
    }

    fn call(
        alloc: Global,
        callee: usize,
        world: &mut World<A, C, ErrorLog<E, C>>,
        out: &mut Vec<u8>,
    ) -> Option<Self> {
        let conversation = Told::<A, C, E>::call(alloc, callee, world, out)?;
        Some(Watched { conversation })
    }

    fn receive(&mut self, bytes: &[u8], out: &mut Vec<u8>) -> Option<Result<Ended, ServeFault>> {
        self.conversation.receive(bytes, out)
    }

    fn answer(
        &mut self,
        stay: Stay,
        world: &mut World<A, C, ErrorLog<E, C>>,
        out: &mut Vec<u8>,
    ) -> Progress<Result<Ended, ServeFault>> {
        self.conversation.answer(stay, world, out)
    }

    fn delay(&self, stay: Stay, world: &World<A, C, ErrorLog<E, C>>) -> u64 {
        self.conversation.delay(stay, world)
    }

    fn is_established(&self) -> bool {
        self.conversation.is_established()
    }

    fn close(
        self,
        stay: Stay,
        world: &mut World<A, C, ErrorLog<E, C>>,
        ending: SlotEnd<Result<Ended, ServeFault>>,
    )
        ensures { TellsEnd C.gave (logs_to E.contents C.gave) stay world.old self ending
            world.new }
    {
        self.conversation.close(stay, world, ending);
    }

    fn fail_accept(world: &mut World<A, C, ErrorLog<E, C>>, now: u64) {
        Told::<A, C, E>::fail_accept(world, now);
    }
}
