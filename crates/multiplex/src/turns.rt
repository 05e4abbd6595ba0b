//! One turn of each connection.

ghost use Rattle.std.specs.Prelude.{◌≡◌, ◌≢◌, ◌<◌, ◌≤◌, ◌^◌, ℕ, length, true, false, slice_get, Some, None, IfSome, IfNone};
ghost use Rattle.multiplex.specs.Slots.{MayClose, has_room, IsQuietAt, IsAtRestAt, waiting_in, AreCountable, all_waiting};
ghost use Rattle.multiplex.specs.Turns.{TakesTurns, state};
ghost use Rattle.multiplex.specs.Rounds.{AreStepsAt, AreClosing, AreTurnOf, AreTurnsOf};

use crate::handler::{Handler, SlotEnd};
use crate::limits::Round;
use crate::slot::{Slot, either};
use crate::source::Source;

/// How many bytes wait to be written in a slot.
fn waiting_in<H, R, W, E>(slot: &Option<Slot<H, R, W, E>>) -> usize
    ensures { result ≡ waiting_in slot.now }
{
    match slot {
        Some(slot) => slot.waiting(),
        None => 0,
    }
}

/// How many bytes wait to be written at the connection of a slot, if one is there.
fn waiting_at<H, R, W, E>(slots: &[Option<Slot<H, R, W, E>>], place: usize) -> u128
    requires { place < length slots.now }
    ensures waits { (slot : _) → slice_get slots.now place ≡ Some slot → result ≡ waiting_in slot }
    ensures fits { result < 2 ^ 64 }
{
    waiting_in(&slots[place]) as u128
}

/// How many bytes wait to be written at all connections together: more than a `usize` may hold.
fn all_waiting<H, R, W, E>(slots: &[Option<Slot<H, R, W, E>>]) -> u128
    ensures sum { result ≡ all_waiting slots.now }
    ensures each { AreCountable slots.now }
{
    let mut sum = 0;
    for slot in slots {
        sum += waiting_in(slot) as u128;
    }
    sum
}

/// The turn of the connection in a slot, if one is there. Whether more may be done there at once; else it is at rest.
fn visit_at<S: Source, H: Handler>(
    ready: bool,
    room: bool,
    world: &mut H::World,
    slots: &mut [Option<Slot<H, S::Reader, S::Writer, H::End>>],
    place: usize,
    round: Round,
) -> bool
    requires within { place < length slots.old }
    requires judged { room ≡ has_room round.limits.waiting_bytes slots.old }
    ensures turns { (source : S)
        → TakesTurns S.effects S.Reader.input S.Writer.output H.behavior round.limits
        (AreStepsAt place result)
        (state source slots.old world.old round.now) (state source slots.new world.new round.now) }
    ensures length { length slots.new ≡ length slots.old }
    ensures others { (k : ℕ) → k ≢ place → slice_get slots.new k ≡ slice_get slots.old k }
    ensures same { result ≡ false → all_waiting slots.new ≡ all_waiting slots.old }
    ensures rest { result ≡ false
        → IsQuietAt H.behavior (has_room round.limits.waiting_bytes slots.new) slots.new place }
{
    match &mut slots[place] {
        Some(slot) => slot.visit(ready, room, world, round.now),
        None => false,
    }
}

/// How the connection in a slot ended, if it may be closed.
fn end_at<S: Source, H: Handler>(
    slots: &[Option<Slot<H, S::Reader, S::Writer, H::End>>],
    place: usize,
) -> Option<SlotEnd<H::End>>
    requires { place < length slots.now }
    ensures some { IfSome result
        (λ ending. (slot : _) × (slice_get slots.now place ≡ Some (Some slot))
        × MayClose slot × (slot.ending ≡ Some ending)) }
    ensures none { IfNone result
        ((slot : _) → slice_get slots.now place ≡ Some (Some slot) → MayClose slot → ⊥) }
{
    match &slots[place] {
        Some(slot) => slot.end(),
        None => None,
    }
}

/// Gives back the connection in a slot, where it is over and all was written that can be, and tells its handler how it
/// ended. Whether it was.
fn close_at<S: Source, H: Handler>(
    source: &mut S,
    world: &mut H::World,
    slots: &mut [Option<Slot<H, S::Reader, S::Writer, H::End>>],
    place: usize,
    round: Round,
) -> bool
    requires { place < length slots.old }
    ensures turns { TakesTurns S.effects S.Reader.input S.Writer.output H.behavior round.limits
        (AreClosing place result)
        (state source.old slots.old world.old round.now)
        (state source.new slots.new world.new round.now) }
    ensures length { length slots.new ≡ length slots.old }
    ensures others { (k : ℕ) → k ≢ place → slice_get slots.new k ≡ slice_get slots.old k }
    ensures same { result ≡ false → slots.new ≡ slots.old }
    ensures other { result ≡ false → (slot : _)
        → slice_get slots.old place ≡ Some (Some slot) → MayClose slot → ⊥ }
{
    match end_at::<S, H>(slots, place) {
        Some(ending) => {
            if let Some(slot) = slots[place].take() {
                let (reader, writer) = slot.close(world, ending);
                source.close(place, reader, writer);
            }
            true
        }
        None => false,
    }
}

/// The turn of a slot, where there is `room` for answers or not. Whether more may be done at once; else the connection
/// there, if one is, is at rest.
fn turn_at<S: Source, H: Handler>(
    source: &mut S,
    world: &mut H::World,
    slots: &mut [Option<Slot<H, S::Reader, S::Writer, H::End>>],
    place: usize,
    room: bool,
    round: Round,
) -> bool
    requires within { place < length slots.old }
    requires judged { room ≡ has_room round.limits.waiting_bytes slots.old }
    ensures turns { TakesTurns S.effects S.Reader.input S.Writer.output H.behavior round.limits
        (AreTurnOf place result)
        (state source.old slots.old world.old round.now)
        (state source.new slots.new world.new round.now) }
    ensures length { length slots.new ≡ length slots.old }
    ensures others { (k : ℕ) → k ≢ place → slice_get slots.new k ≡ slice_get slots.old k }
    ensures same { result ≡ false → all_waiting slots.new ≡ all_waiting slots.old }
    ensures rest { result ≡ false
        → IsAtRestAt H.behavior (has_room round.limits.waiting_bytes slots.new) slots.new place }
{
    let ready = source.is_ready(place);
    let busy = visit_at::<S, H>(ready, room, world, slots, place, round);
    let closed = close_at::<S, H>(source, world, slots, place, round);
    either(busy, closed)
}

/// A turn of each slot; the longest time that one took is kept in `longest_turn`. Whether more may be done at once; else
/// each connection is at rest.
pub(crate) fn serve_round<S: Source, H: Handler>(
    source: &mut S,
    world: &mut H::World,
    slots: &mut [Option<Slot<H, S::Reader, S::Writer, H::End>>],
    round: Round,
    longest_turn: &mut u64,
) -> bool
    ensures turns { TakesTurns S.effects S.Reader.input S.Writer.output H.behavior round.limits
        (AreTurnsOf (length slots.old) result)
        (state source.old slots.old world.old round.now)
        (state source.new slots.new world.new round.now) }
    ensures length { length slots.new ≡ length slots.old }
    ensures rest { result ≡ false → (k : ℕ)
        → IsAtRestAt H.behavior (has_room round.limits.waiting_bytes slots.new) slots.new k }
{
    let mut busy = false;
    let mut waiting = all_waiting(slots);
    for place in 0..slots.len() {
        let begun = source.clock();
        let before = waiting_at(slots, place);
        let room = waiting < round.limits.waiting_bytes as u128;
        let here = turn_at::<S, H>(source, world, slots, place, room, round);
        waiting = waiting - before + waiting_at(slots, place);
        *longest_turn = source.clock().saturating_sub(begun).max(*longest_turn);
        busy = either(busy, here);
    }
    busy
}
