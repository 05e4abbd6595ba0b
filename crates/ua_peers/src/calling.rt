//! A dialog with a peer that is called.

ghost use Rattle.std.specs.Prelude.{◌≡◌, IsErrOf};
ghost use Rattle.counted_io.specs.Bytes.{CountsWhere};
ghost use Rattle.ua_peers.specs.declared.calling.SyncFault.TheVariants as fault;
ghost use Rattle.ua_peers.specs.Calling.{synced_by, Syncs, Adds};

use crate::peers::{PeerEnded, run_dialog};
use archive::Archive;
use counted_io::{Counted, ServeFault};
use exchange::{Dialog, ExchangeFault, Replica};
use std::alloc::Global;
use std::io::{Read, Write};
use thiserror::Error;

/// How many records a dialog moved; each is 2^32 - 1 where they were more.
#[derive(Clone, Copy, Debug, PartialEq, Eq)]
pub struct Synced {
    /// The records that the own archive holds more than before.
    pub learned: u32,
    /// The records that were sent to the peer.
    pub sent: u32,
}

/// Why a dialog with a peer that was called didn't come to its end.
#[derive(Clone, Copy, Debug, PartialEq, Eq, Error)]
pub enum SyncFault {
    /// The connection met this fault.
    #[error("{0}")]
    Connection(ServeFault),
    /// The dialog, or a comparison, met this fault here; `Frame` also where the input was over. The peer was told of one of a dialog where
    /// it could be.
    #[error("{0}")]
    Exchange(ExchangeFault),
    /// The peer ended the dialog by an `RXE` with this number.
    #[error("the peer ended the exchange by {0}")]
    Peer(u32),
}

impl From<ServeFault> for SyncFault {
    ghost use Rattle.std.specs.Prelude.{◌≡◌};

    ghost from_gives = { λ cause told. told ≡ fault.Connection cause };

    fn from(cause: ServeFault) -> SyncFault {
        SyncFault::Connection(cause)
    }
}

impl From<ExchangeFault> for SyncFault {
    ghost use Rattle.std.specs.Prelude.{◌≡◌};

    ghost from_gives = { λ cause told. told ≡ fault.Exchange cause };

    fn from(cause: ExchangeFault) -> SyncFault {
        SyncFault::Exchange(cause)
    }
}

/// What the end of a dialog is to the one that called.
fn synced_by(dialog: &Dialog, parted: Result<PeerEnded, ServeFault>) -> Result<Synced, SyncFault>
    ensures { result ≡ synced_by dialog.now parted }
{
    match parted {
        Ok(PeerEnded::EndOfInput) => Err(SyncFault::Exchange(ExchangeFault::Frame)),
        Ok(PeerEnded::Done) => Ok(Synced {
            learned: dialog.learned(),
            sent: dialog.sent(),
        }),
        Ok(PeerEnded::Refused(code)) => Err(SyncFault::Peer(code)),
        Ok(PeerEnded::Failed(fault)) => Err(SyncFault::Exchange(fault)),
        Err(fault) => Err(SyncFault::Connection(fault)),
    }
}

/// Calls a peer: one dialog over a connection, as its initiator. Where it answers `Ok`, an `RXE` with 0 was written once the
/// peer had sent all that this replica lacked and was sent all that it lacked itself, and the answer tells how many records
/// were added here and how many were sent: a record that was held already isn't added, and each is sent once.
///
/// Where the reader's bytes and the writer's contents are known, and the archive's store is honest and in use, what goes
/// out is the initiator's first frame, and then what it answers to the frames that were read, one after the other; what the
/// archive holds then is what they left. The writer is not flushed.
///
/// Errors: `Connection` with `Read` and `Write` where a call of the reader or the writer failed (its `faults` rose, and it
/// rises nowhere else), and with `OutOfMemory` where a fault was met and memory for telling it was wanting; `Exchange` with
/// the fault that the dialog met here; `Peer` with the number by which the peer ended it. What was learned before stays.
pub fn sync<R: Read, W: Write, A: Archive>(
    alloc: Global,
    replica: &mut Replica<A>,
    reader: &mut Counted<R>,
    writer: &mut Counted<W>,
) -> Result<Synced, SyncFault>
    ensures syncs { Syncs (A.state replica.old.archive) (A.state replica.new.archive)
        (R.remaining reader.old.inner) (R.remaining reader.new.inner) (W.contents writer.old.inner)
        (W.contents writer.new.inner) result }
    ensures adds { Adds (A.state replica.old.archive) (A.state replica.new.archive) result }
    ensures reads { CountsWhere (IsErrOf result (SyncFault.Connection ServeFault.Read))
        reader.old.faults reader.new.faults }
    ensures writes { CountsWhere (IsErrOf result (SyncFault.Connection ServeFault.Write))
        writer.old.faults writer.new.faults }
{
    let mut dialog = Dialog::initiator();
    let mut out = Vec::new(alloc);
    match dialog.start(alloc, replica, &mut out) {
        Ok(()) => {}
        Err(fault) => return Err(SyncFault::Exchange(fault)),
    }
    match writer.send(out.as_slice()) {
        Ok(()) => {}
        Err(fault) => return Err(SyncFault::Connection(fault)),
    }
    let parted = run_dialog(alloc, replica, &mut dialog, &[], reader, writer);
    synced_by(&dialog, parted)
}
