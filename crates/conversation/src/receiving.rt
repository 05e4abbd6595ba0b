//! Bytes that came.

ghost use Rattle.std.specs.Prelude.{◌≡◌, ◌++◌, List, ℕ, true, false, IfSome};
ghost use Rattle.ua_connection.specs.Client.{new_client};
ghost use Rattle.ua_peers.specs.Peers.{responding};
ghost use Rattle.conversation.specs.OtherEnds.{peer_at, known_by, moved_by, with_bytes};
ghost use Rattle.conversation.specs.Receiving.{is_peer, TellsStarved};
ghost use Rattle.conversation.specs.declared.other_end.PeerDialog.{PeerDialog};
ghost use Rattle.conversation.specs.declared.other_end.OtherEnd.{OtherEnd};
ghost use Rattle.conversation.specs.declared.other_end.OtherEnd.TheVariants.{Unknown, Client, Peer};

use crate::door::Door;
use crate::ended::Ended;
use crate::other_end::{Letters, OtherEnd, PeerDialog};
use counted_io::ServeFault;
use exchange::{Dialog, ExchangeFault, Frames};
use std::alloc::Global;
use ua_binary::Status;
use ua_connection::{Connection, Served};
use ua_peers::PeerEnded;
use uacp::put_error;

/// Somebody of whom these letters came to this door. None where memory for them is wanting.
fn unknown_by(alloc: Global, door: Door, came: &[u8]) -> Option<OtherEnd>
    ensures { IfSome result (λ other. other ≡ Unknown door came.now) }
{
    let mut letters = Letters::new(alloc);
    if letters.feed(came) {
        Some(OtherEnd::Unknown { door, letters })
    } else {
        None
    }
}

/// A client of whom these bytes came. None where memory for them is wanting.
fn client_by(alloc: Global, came: &[u8]) -> Option<OtherEnd>
    ensures { IfSome result
        (λ other. other ≡ Client (record { client = new_client; waiting = came.now })) }
{
    let mut connection = Connection::new(alloc);
    match connection.feed(came) {
        Ok(()) => Some(OtherEnd::Client(connection)),
        Err(_) => None,
    }
}

/// A peer of whom these bytes came. None where memory for them is wanting.
fn peer_by(alloc: Global, came: &[u8]) -> Option<OtherEnd>
    ensures { IfSome result (λ other. other ≡ Peer (peer_at responding came.now)) }
{
    let mut frames = Frames::new(alloc);
    match frames.feed(came) {
        Ok(()) => Some(OtherEnd::Peer(PeerDialog {
            dialog: Dialog::responder(),
            frames,
            is_heard: false,
        })),
        Err(_) => None,
    }
}

/// Who is at the other end of a connection at this door where these are the first bytes. None where memory for them is
/// wanting.
fn known_by(alloc: Global, door: Door, came: &[u8]) -> Option<OtherEnd>
    ensures { IfSome result (λ other. other ≡ known_by door came.now) }
{
    if came.len() < 3 {
        unknown_by(alloc, door, came)
    } else if door.is_peers(came) {
        peer_by(alloc, came)
    } else {
        client_by(alloc, came)
    }
}

/// Who is at the other end, once these letters are followed by these bytes. None where memory for them is wanting.
fn known_behind(alloc: Global, door: Door, letters: &mut Letters, bytes: &[u8]) -> Option<OtherEnd>
    ensures { IfSome result (λ other. other ≡ known_by door (letters.old ++ bytes.now)) }
{
    if letters.feed(bytes) {
        known_by(alloc, door, letters.as_slice())
    } else {
        None
    }
}

/// Takes bytes that came. Whether memory for them was there.
pub(crate) fn take_bytes(alloc: Global, other: &mut OtherEnd, bytes: &[u8]) -> bool
    ensures taken { result ≡ true → other.new ≡ with_bytes other.old bytes.now }
    ensures starved { result ≡ false → (is_peer other.new ≡ is_peer other.old)
        × (moved_by other.new ≡ moved_by other.old) }
{
    match other {
        OtherEnd::Unknown { door, letters } => match known_behind(alloc, *door, letters, bytes) {
            Some(known) => {
                *other = known;
                true
            }
            None => false,
        },
        OtherEnd::Client(connection) => match connection.feed(bytes) {
            Ok(()) => true,
            Err(_) => false,
        },
        OtherEnd::Peer(peer) => match peer.frames.feed(bytes) {
            Ok(()) => true,
            Err(_) => false,
        },
        OtherEnd::Browser(web) => match web.feed(bytes) {
            Ok(()) => true,
            Err(_) => false,
        },
        OtherEnd::Stranger | OtherEnd::Over(_) => true,
    }
}

/// Tells a peer that memory is wanting, by an `RXE` with 4.
fn tell_starved_peer(out: &mut Vec<u8>) -> Result<Ended, ServeFault>
    ensures { (peer : PeerDialog) → (made : List ℕ) × (out.new.items ≡ out.old.items ++ made)
        × TellsStarved (Peer peer) made result }
{
    match out.extend_from_slice(b"RXEF\x0c\0\0\0\x04\0\0\0") {
        Ok(()) => Ok(Ended::Peer(PeerEnded::Failed(ExchangeFault::OutOfMemory))),
        Err(_) => Err(ServeFault::OutOfMemory),
    }
}

/// Tells a client, or somebody unknown, that memory is wanting, by an Error message (Part 6, 7.1.2.5).
fn tell_starved_client(out: &mut Vec<u8>) -> Result<Ended, ServeFault>
    ensures { (other : OtherEnd) → is_peer other ≡ false
        → (made : List ℕ) × (out.new.items ≡ out.old.items ++ made)
        × TellsStarved other made result }
{
    match put_error(out, Status::BAD_OUT_OF_MEMORY) {
        Ok(()) => Ok(Ended::Client(Served::Refused(Status::BAD_OUT_OF_MEMORY))),
        Err(_) => Err(ServeFault::OutOfMemory),
    }
}

/// Tells the other end that memory for what it brought is wanting. The one error is want of memory for that too.
pub(crate) fn tell_starved(other: &OtherEnd, out: &mut Vec<u8>) -> Result<Ended, ServeFault>
    ensures { (made : List ℕ) × (out.new.items ≡ out.old.items ++ made)
        × TellsStarved other.now made result }
{
    match other {
        OtherEnd::Peer(_) => tell_starved_peer(out),
        OtherEnd::Browser(_) => Err(ServeFault::OutOfMemory),
        OtherEnd::Unknown { .. } | OtherEnd::Client(_) | OtherEnd::Stranger | OtherEnd::Over(_) =>
            tell_starved_client(out),
    }
}
