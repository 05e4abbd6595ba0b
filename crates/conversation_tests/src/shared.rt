//! What the connections of a test share, and one of them where bytes came.

use archive::ListArchive;
use conversation::{Conversation, World};
use historian::Server;
use multiplex::{Handler, Origin, Party, Stay};
use server_rows::network::Faults;
use server_rows::plant::{archive_of, clock};
use std::alloc::Global;
use ua_connection::ConstantClock;
use ua_settings::Settings;

/// One connection of a server over an archive.
pub type Talk<A> = Conversation<A, ConstantClock, Faults>;

/// What such connections share.
pub type Shared<A> = World<A, ConstantClock, Faults>;

/// What connections share over a server of these settings and an archive, before the first of them.
pub fn shared_over<A>(alloc: Global, settings: Settings, archive: A) -> Shared<A> {
    let log = Faults {
        told: Vec::new(alloc),
    };
    World::new(Server::new(alloc, settings, archive), clock(), log)
}

/// The same over an archive that holds nothing.
pub fn shared_over_nothing(alloc: Global, settings: Settings) -> Shared<ListArchive> {
    let archive = archive_of(alloc, &settings);
    shared_over(alloc, settings, archive)
}

/// What is known of a connection that came from there at this time, in milliseconds, and had no answer yet.
pub fn accepted(origin: Origin, began: u64) -> Stay {
    Stay {
        party: Party::Accepted(origin),
        began,
        answered: 0,
    }
}

/// A connection from there, behind these bytes.
pub fn begun<H: Handler>(
    alloc: Global,
    world: &mut H::World,
    origin: Origin,
    text: &[u8],
    out: &mut Vec<u8>,
) -> H {
    let mut talk = H::begin(alloc, origin, world);
    let _ = talk.receive(text, out);
    talk
}
