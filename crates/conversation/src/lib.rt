//! What is said on one connection of a server of histories, a client's or a peer's, message by message.
#![tactic(auto)]

mod admitting;
mod answering;
mod calling;
mod closing;
mod comparing;
mod conversation;
mod door;
mod ended;
mod laws;
mod log;
mod logins;
mod networks;
mod other_end;
mod receiving;
mod world;

pub use closing::{connection_fault, tell_turn};
pub use conversation::Conversation;
pub use door::Door;
pub use ended::Ended;
pub use laws::{
    a_client_alone_is_answered, a_clients_door_takes_no_peer, a_first_frame_agrees,
    a_stranger_is_not_heard,
};
pub use log::{Log, Parting};
pub use logins::{Logins, RefusedLogin};
pub use networks::Network;
pub use world::World;
