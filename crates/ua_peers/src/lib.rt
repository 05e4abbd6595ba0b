//! Dialogs with peers over connections: of one that calls, and of one that is called.
#![tactic(auto)]

mod calling;
mod laws;
mod peers;

pub use calling::{SyncFault, Synced, sync};
pub use laws::{a_call_that_ends_joins, calls_are_exchanges, dialogs_are_deliveries};
pub use peers::{PeerEnded, serve_peer, serve_peer_from, take_first};
