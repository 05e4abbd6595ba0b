//! What answers are made over.

ghost use Rattle.std.specs.Prelude.{◌≡◌};

use crate::logins::Logins;
use crate::networks::Network;
use historian::Server;
use ua_binary::Listing;
use web_page::LastCalls;

/// A server, its clock, its log, and what is known of its connections, which share them.
#[derive(Drop)]
pub struct World<A, C, L> {
    /// What it is set to, and what it holds.
    pub server: Server<A>,
    /// What tells it the time.
    pub clock: C,
    /// What is told of them.
    pub log: L,
    /// From where peers are taken at an address of their own; none: from everywhere.
    pub from: Option<Listing<Network>>,
    /// What time it is for connections, in milliseconds.
    pub now: u64,
    /// Which logins were refused of late.
    pub logins: Logins,
    /// How the last call of each peer of the settings ended.
    pub calls: LastCalls,
    /// How many connections there are that came, and didn't end yet.
    pub connections: u64,
    /// Whether records of the server's own number come back from peers: none was held as a frame brought records, and nothing
    /// was done since of a client's update.
    pub restoring: bool,
}

impl<A, C, L> World<A, C, L> {
    ghost use Rattle.conversation.specs.Conversing.{new_world};

    /// What connections share that haven't begun: peers are taken from everywhere, no login was refused, nor is any kept, no
    /// last call is, there is no connection, and nothing comes back. It takes no memory.
    pub fn new(server: Server<A>, clock: C, log: L) -> World<A, C, L>
        ensures { result ≡ new_world server clock log }
    {
        let alloc = server.alloc;
        World {
            server,
            clock,
            log,
            from: None,
            now: 0,
            logins: Logins::none(alloc),
            calls: LastCalls::none(alloc),
            connections: 0,
            restoring: false,
        }
    }
}
