//! Which connection makes place for the next one.

ghost use Rattle.std.specs.Prelude.{◌≡◌, ◌≢◌, ◌<◌, ◌≤◌, ℕ, length, Some, None, IfSome, IfNone, slice_get};
ghost use Rattle.multiplex.specs.Slots.{AreTaken, IsUnheard, IsLongestUnheard};
ghost use Rattle.multiplex.specs.Turns.{TakesTurns, state};
ghost use Rattle.multiplex.specs.Rounds.{AreComing};

use crate::handler::Handler;
use crate::limits::Round;
use crate::slot::Slot;
use crate::source::Source;

/// When the connection in a slot began, or last brought a whole message, if it is unheard.
fn unheard_since<S: Source, H: Handler>(
    slots: &[Option<Slot<H, S::Reader, S::Writer, H::End>>],
    place: usize,
    now: u64,
) -> Option<u64>
    requires { place < length slots.now }
    ensures some { IfSome result
        (λ since. (slot : _) × (slice_get slots.now place ≡ Some (Some slot))
        × IsUnheard H.behavior now slot × (slot.heard ≡ since)) }
    ensures none { IfNone result
        ((slot : _) → slice_get slots.now place ≡ Some (Some slot)
        → IsUnheard H.behavior now slot → ⊥) }
{
    match &slots[place] {
        Some(slot) => {
            if slot.is_unheard(now) {
                Some(slot.heard())
            } else {
                None
            }
        }
        None => None,
    }
}

/// Of the slots for accepted connections, which are all taken, that of the connection that is unheard for longest.
fn longest_unheard<S: Source, H: Handler>(
    slots: &[Option<Slot<H, S::Reader, S::Writer, H::End>>],
    round: Round,
) -> Option<usize>
    requires { AreTaken round.limits.accept_slots slots.now }
    ensures within { IfSome result (λ k. k < length slots.now) }
    ensures longest { IfSome result
        (λ k. (slot : _) × (slice_get slots.now k ≡ Some (Some slot))
        × IsLongestUnheard H.behavior round.now round.limits.accept_slots slots.now k slot) }
{
    let mut longest = None;
    let mut since = u64::MAX;
    for place in 0..round.limits.accept_slots.min(slots.len()) {
        if let Some(heard) = unheard_since::<S, H>(slots, place, round.now) {
            if heard < since {
                longest = Some(place);
                since = heard;
            }
        }
    }
    longest
}

/// Where all slots for accepted connections are taken, ends the connection there that is unheard for longest, if one is:
/// it makes place for the next one.
pub(crate) fn make_place<S: Source, H: Handler>(
    slots: &mut [Option<Slot<H, S::Reader, S::Writer, H::End>>],
    round: Round,
)
    requires { AreTaken round.limits.accept_slots slots.old }
    ensures { (source : S) (world : H.World)
        → TakesTurns S.effects S.Reader.input S.Writer.output H.behavior round.limits
        (AreComing 0)
        (state source slots.old world round.now) (state source slots.new world round.now) }
{
    if let Some(place) = longest_unheard::<S, H>(slots, round) {
        if let Some(slot) = &mut slots[place] {
            slot.displace();
        }
    }
}
