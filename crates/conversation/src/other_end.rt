//! Who is at the other end of a connection.

ghost use Rattle.std.specs.Prelude.{◌≡◌};
ghost use Rattle.conversation.specs.Conversing.{first_end};
ghost use Rattle.conversation.specs.OtherEnds.{moved_by};

use crate::door::{Door, is_stranger};
use crate::networks::Network;
use exchange::{Dialog, Frames};
use multiplex::Origin;
use std::alloc::Global;
use std::marker::Model;
use ua_binary::Listing;
use ua_connection::Connection;
use ua_peers::Synced;
use web_connection::WebConnection;

/// No record.
pub(crate) const NONE_MOVED: Synced = Synced {
    learned: 0,
    sent: 0,
};

/// The first letters of a connection.
#[derive(Drop)]
pub(crate) struct Letters {
    bytes: Vec<u8>,
}

impl Model for Letters {
    ghost use Rattle.std.specs.Prelude.{ℕ, List};

    ghost Value = { List ℕ };

    ghost view = { λ l. l.bytes.items };
}

impl Letters {
    ghost use Rattle.std.specs.Prelude.{◌≡◌, ◌++◌, [], true, false};

    /// None came yet. It takes no memory.
    pub fn new(alloc: Global) -> Letters
        ensures { result ≡ [] }
    {
        Letters {
            bytes: Vec::new(alloc),
        }
    }

    /// Takes the next ones. Whether memory for them was there; else all stays.
    pub fn feed(&mut self, letters: &[u8]) -> bool
        ensures taken { result ≡ true → self.new ≡ self.old ++ letters.now }
        ensures starved { result ≡ false → self.new ≡ self.old }
    {
        match self.bytes.extend_from_slice(letters) {
            Ok(()) => true,
            Err(_) => false,
        }
    }

    /// All that came.
    pub fn as_slice(&self) -> &[u8]
        ensures { result.now ≡ self.now }
    {
        self.bytes.as_slice()
    }
}

/// The dialog with a peer that called.
#[derive(Drop)]
pub(crate) struct PeerDialog {
    /// How this end of it stands.
    pub dialog: Dialog,
    /// What came, and wasn't taken yet.
    pub frames: Frames,
    /// Whether a whole frame came.
    pub is_heard: bool,
}

/// Who is at the other end of a connection.
#[derive(Drop)]
pub(crate) enum OtherEnd {
    /// Fewer than three letters came, to this door.
    Unknown { door: Door, letters: Letters },
    /// A client.
    Client(Connection),
    /// A peer.
    Peer(PeerDialog),
    /// A browser.
    Browser(WebConnection),
    /// Somebody who came to the door of peers from where none is taken.
    Stranger,
    /// The connection is over; so many records were moved by its dialog.
    Over(Synced),
}

/// How many records were moved by its dialog; none where it is no peer.
pub(crate) fn moved_by(other: &OtherEnd) -> Synced
    ensures { result ≡ moved_by other.now }
{
    match other {
        OtherEnd::Peer(peer) => Synced {
            learned: peer.dialog.learned(),
            sent: peer.dialog.sent(),
        },
        OtherEnd::Over(moved) => *moved,
        OtherEnd::Unknown { .. }
        | OtherEnd::Client(_)
        | OtherEnd::Browser(_)
        | OtherEnd::Stranger => NONE_MOVED,
    }
}

/// Who is at the other end of a connection that came from there, before its first byte. It takes no memory.
pub(crate) fn first_end(alloc: Global, from: &Option<Listing<Network>>, origin: Origin) -> OtherEnd
    ensures { result ≡ first_end from.now origin }
{
    if is_stranger(from, origin) {
        return OtherEnd::Stranger;
    }
    match Door::of_listener(origin.listener) {
        Door::Browsers => OtherEnd::Browser(WebConnection::new(alloc)),
        door => OtherEnd::Unknown {
            door,
            letters: Letters::new(alloc),
        },
    }
}
