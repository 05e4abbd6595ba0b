//! The event loop.

ghost use Rattle.std.specs.Prelude.{◌≡◌, ◌≢◌, ◌+◌, ◌<◌, ◌≤◌, ◌↔◌, ℕ, List, length, IsTrue, true, false, Some, None, IfSome, IfNone, slice_get, min};
ghost use Rattle.multiplex.specs.Turns.{TakesTurns, state};
ghost use Rattle.multiplex.specs.Rounds.{AreComing};
ghost use Rattle.multiplex.specs.Serving.{AreAllFree, HasAsked, HasCalled, HasServed};

use crate::displacing::make_place;
use crate::handler::Handler;
use crate::limits::{Limits, Round, ServeReport};
use crate::slot::Slot;
use crate::source::{Arrival, Source};
use crate::stay::{Party, Stay};
use crate::turns::serve_round;
use std::alloc::Global;

/// Whether each of the slots is free.
fn are_all_free<X>(slots: &[Option<X>]) -> bool
    ensures { IsTrue result → AreAllFree slots.now }
{
    slots.iter().all(|slot| slot.is_none())
}

/// The first free slot from one on to another.
fn free_slot<X>(slots: &[Option<X>], from: usize, to: usize) -> Option<usize>
    ensures some { IfSome result
        (λ place. (from ≤ place) × (place < to) × (place < length slots.now)
        × (slice_get slots.now place ≡ Some None)) }
    ensures none { IfNone result
        ((k : ℕ) → from ≤ k → k < to → slice_get slots.now k ≢ Some None) }
{
    for place in from..to.min(slots.len()) {
        if slots[place].is_none() {
            return Some(place);
        }
    }
    None
}

/// Whether so many connections are all that are to be accepted.
fn is_all(accepted: u64, limits: Limits) -> bool
    ensures { IsTrue result ↔ (limits.connections ≡ Some accepted) }
{
    limits.connections == Some(accepted)
}

/// Whether all connections were accepted and closed, and all calls ended.
fn is_done<X>(slots: &[Option<X>], accepted: u64, limits: Limits) -> bool
    ensures { IsTrue result → (limits.connections ≡ Some accepted) × AreAllFree slots.now }
{
    is_all(accepted, limits) && are_all_free(slots)
}

/// Asks who comes; a connection gets this slot, which is free, and of one that failed the world is told. How many came,
/// one or none.
fn accept_at<S: Source, H: Handler>(
    source: &mut S,
    world: &mut H::World,
    slots: &mut [Option<Slot<H, S::Reader, S::Writer, H::End>>],
    place: usize,
    round: Round,
) -> u64
    requires within { place < length slots.old }
    requires accepts { place < round.limits.accept_slots }
    requires free { slice_get slots.old place ≡ Some None }
    ensures turns { (before : ℕ)
        → HasAsked S.effects S.Reader.input S.Writer.output H.behavior round.limits before result
        (state source.old slots.old world.old round.now)
        (state source.new slots.new world.new round.now) }
    ensures one { result ≤ 1 }
{
    match source.accept(place) {
        Arrival::Connection {
            origin,
            reader,
            writer,
        } => {
            let first = H::begin(round.alloc, origin, world);
            let stay = Stay::begin(Party::Accepted(origin), round.now);
            let slot = Slot::new(stay, first, reader, writer, Vec::new(round.alloc));
            slots[place] = Some(slot);
            1
        }
        Arrival::Failed => {
            H::fail_accept(world, round.now);
            1
        }
        Arrival::Nobody => 0,
    }
}

/// Asks who comes, where a slot is free and more are to be accepted; where none is, another connection may have to make
/// place for the next one. How many came, one or none.
fn accept_next<S: Source, H: Handler>(
    source: &mut S,
    world: &mut H::World,
    slots: &mut [Option<Slot<H, S::Reader, S::Writer, H::End>>],
    accepted: u64,
    round: Round,
) -> u64
    ensures turns { HasAsked S.effects S.Reader.input S.Writer.output H.behavior round.limits
        accepted result (state source.old slots.old world.old round.now)
        (state source.new slots.new world.new round.now) }
    ensures one { result ≤ 1 }
    ensures most { IfSome round.limits.connections
        (λ most. accepted ≤ most → accepted + result ≤ most) }
{
    if is_all(accepted, round.limits) {
        return 0;
    }
    match free_slot(slots, 0, round.limits.accept_slots) {
        Some(place) => accept_at::<S, H>(source, world, slots, place, round),
        None => {
            if source.is_coming() {
                make_place::<S, H>(slots, round);
            }
            0
        }
    }
}

/// Begins a call, where one is due.
fn begin_call<S: Source, H: Handler>(
    source: &mut S,
    world: &mut H::World,
    place: usize,
    round: Round,
) -> Option<Slot<H, S::Reader, S::Writer, H::End>>
    ensures { HasCalled S.effects S.Reader.input S.Writer.output H.behavior round.limits round.now
        source.old world.old result source.new world.new }
{
    let call = source.call(place, round.now)?;
    let mut out = Vec::new(round.alloc);
    match H::call(round.alloc, call.callee, world, &mut out) {
        Some(first) => {
            let stay = Stay::begin(Party::Called(call.callee), round.now);
            Some(Slot::new(stay, first, call.reader, call.writer, out))
        }
        None => {
            source.close(place, call.reader, call.writer);
            None
        }
    }
}

/// Whether connections are still to be accepted, or one that was is open.
fn is_open<X>(slots: &[Option<X>], accepted: u64, limits: Limits) -> bool {
    let end = limits.accept_slots.min(slots.len());
    !is_all(accepted, limits) || !are_all_free(&slots[..end])
}

/// Begins a call that is due, where a slot behind those for accepted connections is free.
fn call_next<S: Source, H: Handler>(
    source: &mut S,
    world: &mut H::World,
    slots: &mut [Option<Slot<H, S::Reader, S::Writer, H::End>>],
    round: Round,
)
    ensures { TakesTurns S.effects S.Reader.input S.Writer.output H.behavior round.limits
        (AreComing 0)
        (state source.old slots.old world.old round.now)
        (state source.new slots.new world.new round.now) }
{
    if !round.may_call {
        return;
    }
    if let Some(place) = free_slot(slots, round.limits.accept_slots, slots.len()) {
        if let Some(slot) = begin_call::<S, H>(source, world, place, round) {
            slots[place] = Some(slot);
        }
    }
}

/// Serves connections over a world, each in its turn, in one thread. It accepts no more than `limits` say, and ends when
/// the last of them is closed and each slot is free, when the world is over, or when its rounds are over. A world that is
/// over is found at the end of the round that made it so.
///
/// A connection that a slot holds already is served too. Bytes that wait when the world or the rounds are over stay with
/// its slot.
pub fn serve<S: Source, H: Handler>(
    alloc: Global,
    source: &mut S,
    world: &mut H::World,
    slots: &mut [Option<Slot<H, S::Reader, S::Writer, H::End>>],
    limits: Limits,
) -> ServeReport
    ensures { (first : ℕ) → (last : ℕ)
        × HasServed S.effects S.Reader.input S.Writer.output H.behavior limits
        (state source.old slots.old world.old first) (state source.new slots.new world.new last)
        result.accepted result.is_done result.is_over }
{
    let mut busy = true;
    let mut accepted = 0;
    let mut longest_turn = 0;
    for _ in 0..limits.rounds() {
        if is_done(slots, accepted, limits) {
            return ServeReport {
                is_done: true,
                is_over: false,
                accepted,
                longest_turn,
            };
        }
        if H::is_over(world) {
            return ServeReport {
                is_done: false,
                is_over: true,
                accepted,
                longest_turn,
            };
        }
        let now = source.wait(busy);
        H::pass(world, now, longest_turn);
        let may_call = is_open(slots, accepted, limits);
        let round = Round {
            alloc,
            limits,
            may_call,
            now,
        };
        accepted += accept_next::<S, H>(source, world, slots, accepted, round);
        call_next::<S, H>(source, world, slots, round);
        busy = serve_round::<S, H>(source, world, slots, round, &mut longest_turn);
    }
    ServeReport {
        is_done: false,
        is_over: false,
        accepted,
        longest_turn,
    }
}
