//! What is told of a connection that ended.

ghost use Rattle.std.specs.Prelude.{◌≡◌, ℤ, [], ◌∷◌};
ghost use Rattle.web_page.specs.Calls.{after_call};
ghost use Rattle.conversation.specs.Closing.{connection_fault, call_cause, call_end, call_outcome, parted_outcome, TellsCall, TellsTurn, is_slow};

use crate::ended::Ended;
use crate::log::Log;
use crate::world::World;
use counted_io::ServeFault;
use exchange::ExchangeFault;
use multiplex::SlotEnd;
use ua_connection::Clock;
use ua_peers::{PeerEnded, SyncFault, Synced};
use ua_settings::Settings;
use web_page::{CallCause, CallEnd, LastCalls};

/// The fault by which a connection ended, if it did: one that was silent for too long, or made place for another, ended as by
/// a read that failed.
pub fn connection_fault(ending: SlotEnd<Result<Ended, ServeFault>>) -> Option<ServeFault>
    ensures { result ≡ connection_fault ending }
{
    match ending {
        SlotEnd::Finished(Ok(_)) | SlotEnd::EndOfInput => None,
        SlotEnd::Finished(Err(fault)) => Some(fault),
        SlotEnd::WriteFailed => Some(ServeFault::Write),
        SlotEnd::ReadFailed | SlotEnd::IdleTimeout | SlotEnd::Displaced => Some(ServeFault::Read),
    }
}

/// What the end of a dialog is to the one that called.
fn parted_outcome(parted: PeerEnded) -> Result<(), SyncFault>
    ensures { result ≡ parted_outcome parted }
{
    match parted {
        PeerEnded::EndOfInput => Err(SyncFault::Exchange(ExchangeFault::Frame)),
        PeerEnded::Done => Ok(()),
        PeerEnded::Refused(number) => Err(SyncFault::Peer(number)),
        PeerEnded::Failed(fault) => Err(SyncFault::Exchange(fault)),
    }
}

/// What a connection's end is to the one that called.
pub(crate) fn call_outcome(ending: SlotEnd<Result<Ended, ServeFault>>) -> Result<(), SyncFault>
    ensures { result ≡ call_outcome ending }
{
    match ending {
        SlotEnd::Finished(Ok(Ended::Peer(parted))) => parted_outcome(parted),
        SlotEnd::Finished(Ok(Ended::Client(_) | Ended::Stranger | Ended::Browser))
        | SlotEnd::EndOfInput => { Err(SyncFault::Exchange(ExchangeFault::Frame)) }
        SlotEnd::Finished(Err(fault)) => Err(SyncFault::Connection(fault)),
        SlotEnd::WriteFailed => Err(SyncFault::Connection(ServeFault::Write)),
        SlotEnd::ReadFailed | SlotEnd::IdleTimeout | SlotEnd::Displaced => {
            Err(SyncFault::Connection(ServeFault::Read))
        }
    }
}

/// Why a call didn't come to its end, as pages tell it.
fn call_cause(fault: SyncFault) -> CallCause
    ensures { result ≡ call_cause fault }
{
    match fault {
        SyncFault::Connection(fault) => CallCause::Connection(fault.number()),
        SyncFault::Exchange(fault) => CallCause::Exchange(u32::from(fault.number())),
        SyncFault::Peer(number) => CallCause::Exchange(number),
    }
}

/// How a call ended at this time, as pages tell it.
fn call_end(at: i64, outcome: Result<(), SyncFault>, moved: Synced) -> CallEnd
    ensures { result ≡ call_end at outcome moved }
{
    let cause = match outcome {
        Ok(()) => None,
        Err(fault) => Some(call_cause(fault)),
    };
    CallEnd {
        at,
        cause,
        learned: moved.learned,
        sent: moved.sent,
    }
}

/// Keeps a call of the peer of this number as the last one, with the time.
fn keep_call<C: Clock>(
    clock: &mut C,
    calls: &mut LastCalls,
    callee: usize,
    outcome: Result<(), SyncFault>,
    moved: Synced,
)
    ensures { (at : ℤ) × C.gave clock.old (at ∷ []) clock.new
        × (calls.new ≡ after_call callee (call_end at outcome moved) calls.old) }
{
    let at = clock.now();
    calls.note(callee, call_end(at, outcome, moved));
}

/// Tells how a call of the peer of this number in the settings ended, if there is one, and keeps it as the last call of that
/// peer.
pub(crate) fn tell_call<A, C: Clock, L: Log>(
    world: &mut World<A, C, L>,
    callee: usize,
    outcome: Result<(), SyncFault>,
    moved: Synced,
)
    ensures { TellsCall C.gave L.told world.old callee outcome moved world.new }
{
    if let Some(peer) = world.server.settings.peers().as_slice().get(callee) {
        world
            .log
            .tell_call(callee, peer.address.as_str(), outcome, moved);
        keep_call(&mut world.clock, &mut world.calls, callee, outcome, moved);
    }
}

/// Whether a turn of so many milliseconds is told by these settings.
fn is_slow(settings: &Settings, turn: u64) -> bool
    ensures { result ≡ is_slow settings.now turn }
{
    match settings.slow() {
        None => false,
        Some(least) => u64::from(least) <= turn,
    }
}

/// Tells how long the longest turn so far took, in milliseconds, where the settings want a turn told that takes so long; else the
/// world stays as it is. What was told before the log knows.
pub fn tell_turn<A, C, L: Log>(world: &mut World<A, C, L>, longest: u64)
    ensures { TellsTurn L.told world.old longest world.new }
{
    if is_slow(&world.server.settings, longest) {
        world.log.tell_turn(longest);
    }
}
