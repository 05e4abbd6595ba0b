//! What is told of connections.

ghost use Rattle.conversation.specs.Events.{Telling, Connected, Audited, Denied, Parted, AcceptFailed, CallEnded, ClashFound, TurnTook};

use crate::ended::Ended;
use counted_io::ServeFault;
use multiplex::{Origin, SlotEnd, Stay};
use peer_check::Clash;
use ua_peers::{SyncFault, Synced};
use ua_session::AuditEvent;

/// How a connection that was accepted ended.
#[derive(Clone, Copy, Debug)]
pub struct Parting {
    /// What is known of it.
    pub stay: Stay,
    /// When it ended, in milliseconds.
    pub at: u64,
    /// How it ended.
    pub ending: SlotEnd<Result<Ended, ServeFault>>,
    /// How many records were moved by its dialog; none where it wasn't a peer's.
    pub moved: Synced,
}

/// What is told of what comes about on the connections of a server, event by event.
pub trait Log {
    /// Between these two states it was told of this.
    ghost told: { Telling Self };

    /// Tells that a connection came.
    fn tell_connected(&mut self, origin: Origin)
        ensures { told self.old (Connected origin) self.new };

    /// Tells what was done in a session of a client.
    fn tell_audit(&mut self, stay: Stay, event: &AuditEvent)
        ensures { told self.old (Audited stay event.now) self.new };

    /// Tells that a browser gave credentials that are no user's.
    fn tell_denied(&mut self, stay: Stay)
        ensures { told self.old (Denied stay) self.new };

    /// Tells how a connection that was accepted ended.
    fn tell_parted(&mut self, parting: Parting)
        ensures { told self.old (Parted parting) self.new };

    /// Tells that a connection failed before it could be used, at this time in milliseconds.
    fn tell_failed(&mut self, now: u64)
        ensures { told self.old (AcceptFailed now) self.new };

    /// Tells how a call of the peer of this number in the settings ended, and how many records were moved.
    fn tell_call(
        &mut self,
        callee: usize,
        address: &str,
        outcome: Result<(), SyncFault>,
        moved: Synced,
    )
        ensures { told self.old (CallEnded callee address.now outcome moved) self.new };

    /// Tells that a call of the peer of this number in the settings found two records of one number: one that is held, and one that
    /// the peer holds. Its end is told after it.
    fn tell_clash(&mut self, callee: usize, clash: &Clash)
        ensures { told self.old (ClashFound callee clash.now) self.new };

    /// Tells that the longest turn of a connection so far took so many milliseconds.
    fn tell_turn(&mut self, longest: u64)
        ensures { told self.old (TurnTook longest) self.new };
}
