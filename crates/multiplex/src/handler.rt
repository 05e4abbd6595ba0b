//! What is said on a connection.

ghost use Rattle.std.specs.Prelude.{◌≡◌, ◌++◌, List, ℕ};
ghost use Rattle.multiplex.specs.declared.handler.Progress.TheVariants.{NeedsMore};
ghost use Rattle.multiplex.specs.Behavior.{Behavior, MovesAddUp};
ghost use Rattle.multiplex.specs.Progress.{end_in};

use crate::stay::{Origin, Stay};
use std::alloc::Global;

/// How a connection ended.
#[derive(Clone, Copy, Debug, PartialEq, Eq)]
pub enum SlotEnd<E> {
    /// Its handler came to this end.
    Finished(E),
    /// Its other end writes no more.
    EndOfInput,
    /// A read failed.
    ReadFailed,
    /// A write failed.
    WriteFailed,
    /// No byte came or went for too long.
    IdleTimeout,
    /// It made place for the next connection.
    Displaced,
}

/// What an answer comes to.
#[derive(Clone, Copy, Debug, PartialEq, Eq)]
pub enum Progress<E> {
    /// Nothing whole stands first in what came.
    NeedsMore,
    /// What stood first was answered.
    Answered,
    /// What stood first was answered, and the connection ends so.
    Ended(E),
}

/// One end of one connection: it takes bytes as they come, and answers what is whole in them over a world that it
/// shares with the handlers of others.
pub trait Handler: Drop {
    /// What answers are made over.
    type World;

    /// How it ends.
    type End: Copy + Drop;

    /// What its calls do.
    ghost behavior: { Behavior Self Self.World Self.End };

    /// It is this time now, in milliseconds, and the longest turn of a connection so far took so many.
    fn pass(world: &mut Self::World, now: u64, longest_turn: u64)
        ensures { behavior.passes world.old now longest_turn world.new };

    /// Whether nobody is to be served over this world any more.
    fn is_over(world: &Self::World) -> bool
        ensures { result ≡ behavior.is_over world.now };

    /// The handler of a connection that was accepted and came from there, before its first byte.
    fn begin(alloc: Global, origin: Origin, world: &mut Self::World) -> Self
        ensures { behavior.begins origin world.old result world.new };

    /// The handler of a connection that is called, before its first byte, whose callee has this number. What is to be
    /// written first is appended to `out`. None where no call can be made now; what was appended is dropped then.
    fn call(
        alloc: Global,
        callee: usize,
        world: &mut Self::World,
        out: &mut Vec<u8>,
    ) -> Option<Self>
        ensures { (made : List ℕ) × (out.new.items ≡ out.old.items ++ made)
            × behavior.calls callee world.old made result world.new };

    /// Takes bytes that came. What is to be written at once is appended to `out`. The end, if they bring it.
    fn receive(&mut self, bytes: &[u8], out: &mut Vec<u8>) -> Option<Self::End>
        ensures { (made : List ℕ) × (out.new.items ≡ out.old.items ++ made)
            × behavior.receives self.old bytes.now made result self.new };

    /// Answers what stands first in what came on its connection, of which this is known, if it is whole. The answer is
    /// appended to `out`.
    fn answer(
        &mut self,
        stay: Stay,
        world: &mut Self::World,
        out: &mut Vec<u8>,
    ) -> Progress<Self::End>
        ensures answers { (made : List ℕ) × (out.new.items ≡ out.old.items ++ made)
            × behavior.answers stay world.old self.old made (end_in result) world.new self.new }
        ensures needs_more { result ≡ NeedsMore
            → (out.new.items ≡ out.old.items) × behavior.needs_more self.new };

    /// How many milliseconds the answer waits before it is written that it made last, over this world. Till then nothing is
    /// read or answered there.
    fn delay(&self, stay: Stay, world: &Self::World) -> u64
        ensures { result ≡ behavior.delay stay world.now self.now };

    /// Whether it is established. One that isn't, and brings no whole message for too long, has to make place for the
    /// next connection where every slot is taken.
    fn is_established(&self) -> bool
        ensures { result ≡ behavior.is_established self.now };

    /// Its connection, of which this is known, ended so, and is given back: the last call.
    fn close(self, stay: Stay, world: &mut Self::World, ending: SlotEnd<Self::End>)
        ensures { behavior.closes stay world.old self ending world.new };

    /// A connection came at a listener, and failed before it could be used.
    fn fail_accept(world: &mut Self::World, now: u64)
        ensures { behavior.fails_accept world.old now world.new };

    /// What passing time, connections that begin, answers, calls, ends and failed connections do are moves of the world.
    ghost moves_add_up: { MovesAddUp behavior };
}
