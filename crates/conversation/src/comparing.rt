//! Numbers that were given twice, which a call of a peer looks for in the first frame that comes.

ghost use Rattle.std.specs.Prelude.{◌≡◌, Option, Result};
ghost use Rattle.exchange.specs.declared.fault.ExchangeFault.{ExchangeFault as Fault};
ghost use Rattle.peer_check.specs.declared.comparing.Clash.{Clash as Twins};
ghost use Rattle.conversation.specs.Comparing.{compares_first, ComparesFirst, comparing_fault, LogsClash};

use crate::calling::checks_callee;
use crate::log::Log;
use crate::other_end::PeerDialog;
use crate::world::World;
use archive::Archive;
use exchange::ExchangeFault;
use historian::Server;
use multiplex::Party;
use peer_check::{Clash, find_first_clash};
use ua_settings::Settings;

/// Whether the records of the frame that stands first are compared: by a call that looks for numbers that were given twice, while no
/// frame of it was taken and no record learned.
fn compares_first(settings: &Settings, party: Party, peer: &PeerDialog) -> bool
    ensures { result ≡ compares_first settings.now party peer.now }
{
    match party {
        Party::Called(callee) => {
            checks_callee(settings, callee) && (!peer.is_heard && peer.dialog.learned() == 0)
        }
        Party::Accepted(_) => false,
    }
}

/// Compares the records of the first frame with those that are held, where such a call does; else none is found, and the archive
/// isn't asked.
fn compare_first<A: Archive>(
    server: &mut Server<A>,
    party: Party,
    peer: &PeerDialog,
) -> Result<Option<Clash>, ExchangeFault>
    ensures compares { ComparesFirst A.state (compares_first server.old.settings party peer.now)
        peer.now.frames.waiting server.old.replica.archive server.new.replica.archive result }
    ensures same { server.new ≡ record server.old { replica = server.new.replica } }
{
    if compares_first(&server.settings, party, peer) {
        find_first_clash(server.alloc, &mut server.replica, &peer.frames)
    } else {
        Ok(None)
    }
}

/// Why a call ends that found this, if it does.
fn comparing_fault(found: &Result<Option<Clash>, ExchangeFault>) -> Option<ExchangeFault>
    ensures { result ≡ comparing_fault found.now }
{
    match found {
        Ok(None) => None,
        Ok(Some(_)) => Some(ExchangeFault::GivenTwice),
        Err(fault) => Some(*fault),
    }
}

/// Tells of the two records that a call found, if it found any.
fn tell_clash<L: Log>(log: &mut L, party: Party, found: &Result<Option<Clash>, ExchangeFault>)
    ensures { LogsClash L.told party found.now log.old log.new }
{
    if let Party::Called(callee) = party {
        if let Ok(Some(clash)) = found {
            log.tell_clash(callee, clash);
        }
    }
}

/// Compares the records of the frame that stands first with those that are held, where a call looks for numbers that were given
/// twice, and tells of two that have one. Why the call ends then, if it does: `GivenTwice`, `OutOfMemory` or `Store`.
pub(crate) fn judge_call<A: Archive, C, L: Log>(
    world: &mut World<A, C, L>,
    party: Party,
    peer: &PeerDialog,
) -> Option<ExchangeFault>
    ensures judges { (found : Result (Option Twins) Fault)
        × ComparesFirst A.state (compares_first world.old.server.settings party peer.now)
        peer.now.frames.waiting world.old.server.replica.archive world.new.server.replica.archive
        found
        × LogsClash L.told party found world.old.log world.new.log
        × (result ≡ comparing_fault found) }
    ensures same { world.new
        ≡ record world.old {
          server = record world.old.server { replica = world.new.server.replica };
          log = world.new.log;
        } }
{
    let found = compare_first(&mut world.server, party, peer);
    tell_clash(&mut world.log, party, &found);
    comparing_fault(&found)
}
