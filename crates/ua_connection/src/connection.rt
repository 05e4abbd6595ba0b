//! A connection, one item after the other.

ghost use Rattle.std.specs.Prelude.{◌≡◌, ◌≤◌, ◌++◌, Ok, OnOk, OnErr};
ghost use Rattle.std.specs.Option.{option_copied};
ghost use Rattle.ua_session.specs.Sessions.{has_user};
ghost use Rattle.ua_connection.specs.Environments.{Environment};
ghost use Rattle.ua_connection.specs.declared.turn.Step.TheVariants.{NeedsInput};
ghost use Rattle.ua_connection.specs.Turns.{ConnectionState, new_link, NeedsBytes, IsSmall, IsOwn, IsNextCurrent, AdvancesInto, LeavesIntake, Shortens, IsCounted, ending_of, client_after, link_of};

use crate::client::ClientChannel;
use crate::clock::Clock;
use crate::turn::{Step, refuse};
use archive::Archive;
use counted_io::ServeFault;
use historian::Server;
use std::alloc::Global;
use std::marker::Model;
use ua_session::AuditEvent;
use uacp::{Intake, UacpFault};

/// The chunks that one connection may have.
pub const MOST_CHUNKS: u32 = 1_000_000;

/// A client's connection between two chunks: what is known of the client, and the bytes that came and weren't answered yet.
///
/// It reads and writes nothing: `feed` takes the bytes that came, and `advance` answers what stands first in them.
#[derive(Drop)]
pub struct Connection {
    intake: Intake,
    client: ClientChannel,
}

impl Model for Connection {
    ghost use Rattle.std.specs.Prelude.{◌≤◌};
    ghost use Rattle.ua_connection.specs.Turns.{ConnectionState, IsNextCurrent, link_of};

    ghost Value = { ConnectionState };

    ghost view = { λ c. link_of c.intake c.client.taken c.client.channel c.client.sessions };

    ghost invariant = { λ c. (c.client.taken ≤ 1000000) × (c.intake.limit ≤ 65536) × IsNextCurrent c.intake };
}

/// Takes the next chunk, if it is whole, and answers it, or the fault that stands in its place.
fn take_next<A: Archive, C: Clock>(
    server: &mut Server<A>,
    intake: &mut Intake,
    client: &mut ClientChannel,
    clock: &mut C,
    out: &mut Vec<u8>,
) -> Result<Step, ServeFault>
    requires few { client.old.taken ≤ MOST_CHUNKS }
    requires limit { intake.old.limit ≤ 65536 }
    requires sound { IsNextCurrent intake.old }
    ensures turned { (used : Environment) × C.gave clock.old used.readings clock.new
        × AdvancesInto server.old.settings (A.state server.old.replica.archive)
        (A.state server.new.replica.archive)
        (link_of intake.old client.old.taken client.old.channel client.old.sessions) used
        out.old.items out.new.items (ending_of result)
        (record {
          client = client_after
              (link_of intake.old client.old.taken client.old.channel client.old.sessions).client
              result client.new.channel client.new.sessions;
          waiting = intake.new.waiting;
        }) }
    ensures settings { server.new.settings ≡ server.old.settings }
    ensures taken { client.new.taken ≡ client.old.taken }
    ensures own { IsOwn
        (NeedsBytes
        (link_of intake.old client.old.taken client.old.channel client.old.sessions)) 65536
        result }
    ensures few { IsCounted client.old.taken result }
    ensures leaves { LeavesIntake result intake.old intake.new }
    ensures nothing { result ≡ Ok NeedsInput → out.new.items ≡ out.old.items }
{
    match intake.next_chunk() {
        Ok(None) => Ok(Step::NeedsInput),
        Err(fault) => refuse(fault.code(), out),
        Ok(Some(chunk)) => {
            if client.taken == MOST_CHUNKS {
                return Err(ServeFault::TooLong);
            }
            client.answer(server, chunk, clock, out)
        }
    }
}

impl Connection {
    /// Nothing came yet. It takes no memory.
    pub fn new(alloc: Global) -> Connection
        ensures { result ≡ new_link }
    {
        Connection {
            intake: Intake::new(alloc),
            client: ClientChannel::new(alloc),
        }
    }

    /// Takes the next bytes of the client. The one error is want of memory, which changes nothing.
    pub fn feed(&mut self, piece: &[u8]) -> Result<(), UacpFault>
        ensures ok { OnOk result
            (self.new ≡ record self.old { waiting = self.old.waiting ++ piece.now }) }
        ensures err { OnErr result (self.new ≡ self.old) }
    {
        match self.intake.feed(piece) {
            Ok(()) => Ok(()),
            Err(fault) => Err(fault),
        }
    }

    /// Whether a session of it that is open was activated.
    pub fn has_user(&self) -> bool
        ensures { result ≡ has_user self.now.client.sessions }
    {
        self.client.sessions.has_user()
    }

    /// How many audit events its sessions had.
    pub fn audits(&self) -> u64
        ensures { result ≡ self.now.client.sessions.audits }
    {
        self.client.sessions.audits()
    }

    /// The last audit event of its sessions, if they had one.
    pub fn last_audit(&self) -> Option<&AuditEvent>
        ensures { option_copied result ≡ self.now.client.sessions.last_audit }
    {
        self.client.sessions.last_audit()
    }

    /// Answers the chunk that stands first in the bytes that wait, if it is whole, or the fault that stands in its place: the
    /// answer is appended to `out`. What it tells is in the archive then.
    ///
    /// Errors: `TooLong` where a chunk comes after 1,000,000 of them, `OutOfMemory` where memory was wanting and the Error
    /// message that tells it could not be made either. The connection is over then, as it is behind `Step::Ended`.
    pub fn advance<A: Archive, C: Clock>(
        &mut self,
        server: &mut Server<A>,
        clock: &mut C,
        out: &mut Vec<u8>,
    ) -> Result<Step, ServeFault>
        ensures turned { (used : Environment) × C.gave clock.old used.readings clock.new
            × AdvancesInto server.old.settings (A.state server.old.replica.archive)
            (A.state server.new.replica.archive) self.old used out.old.items out.new.items
            (ending_of result) self.new }
        ensures settings { server.new.settings ≡ server.old.settings }
        ensures own { IsOwn (NeedsBytes self.new) 65536 result }
        ensures small { IsSmall self.new }
        ensures shorter { Shortens result self.old self.new }
        ensures nothing { result ≡ Ok NeedsInput → out.new.items ≡ out.old.items }
    {
        let turn = take_next(server, &mut self.intake, &mut self.client, clock, out);
        match turn {
            Ok(Step::Acknowledged(limit)) => {
                self.intake.set_limit(limit);
                self.client.taken += 1;
            }
            Ok(Step::Continues) => self.client.taken += 1,
            Ok(Step::NeedsInput) => {}
            Ok(Step::Ended(_)) => {}
            Err(_) => {}
        }
        turn
    }
}
