//! Who is taken on a connection.

ghost use Rattle.std.specs.Prelude.{◌≡◌};
ghost use Rattle.conversation.specs.Doors.{door_of_listener, clients_door, listener_of, is_peers, is_stranger};

use crate::networks::{Network, is_taken};
use multiplex::Origin;
use ua_binary::Listing;
use ua_settings::Settings;

/// Who is taken on a connection, by where it came to.
#[derive(Clone, Copy, Debug, PartialEq, Eq)]
pub enum Door {
    /// Clients and peers: the first three letters tell which.
    Both,
    /// Clients alone.
    Clients,
    /// Peers alone.
    Peers,
    /// Browsers alone.
    Browsers,
}

impl Door {
    /// That of the listener of this number: 1 takes clients alone, 2 peers alone, and 3 browsers alone.
    pub fn of_listener(listener: usize) -> Door
        ensures { result ≡ door_of_listener listener }
    {
        match listener {
            1 => Door::Clients,
            2 => Door::Peers,
            3 => Door::Browsers,
            _ => Door::Both,
        }
    }

    /// The number of the listener that takes these.
    pub fn listener(self) -> usize
        ensures { result ≡ listener_of self }
    {
        match self {
            Door::Both => 0,
            Door::Clients => 1,
            Door::Peers => 2,
            Door::Browsers => 3,
        }
    }

    /// That of the address where clients come to: clients alone, where peers have an address of their own.
    pub fn of_settings(settings: &Settings) -> Door
        ensures { result ≡ clients_door settings.now }
    {
        if settings.door().is_some() {
            Door::Clients
        } else {
            Door::Both
        }
    }

    /// Whether a connection that begins with these bytes is a peer's.
    pub fn is_peers(self, came: &[u8]) -> bool
        ensures { result ≡ is_peers self came.now }
    {
        match self {
            Door::Both => came.starts_with(b"RXV") || came.starts_with(b"RXD"),
            Door::Clients | Door::Browsers => false,
            Door::Peers => true,
        }
    }
}

/// Whether a connection came to the door of peers from where none is taken.
pub(crate) fn is_stranger(from: &Option<Listing<Network>>, origin: Origin) -> bool
    ensures { result ≡ is_stranger from.now origin }
{
    match Door::of_listener(origin.listener) {
        Door::Peers => !is_taken(from, origin.address),
        Door::Clients | Door::Both | Door::Browsers => false,
    }
}
