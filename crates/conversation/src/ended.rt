//! How a connection ends.

use ua_connection::Served;
use ua_peers::PeerEnded;

/// How a connection ended that met no fault.
#[derive(Clone, Copy, Debug, PartialEq, Eq)]
pub enum Ended {
    /// A client's.
    Client(Served),
    /// A peer's.
    Peer(PeerEnded),
    /// That of somebody who came to the door of peers from where none is taken. Nothing was read or written.
    Stranger,
    /// A browser's.
    Browser,
}
