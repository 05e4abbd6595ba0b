//! The services of the historian (Part 4; Part 11, Historical Access): what each message of a client is
//! answered, over any archive.
#![tactic(auto)]

mod answer;
mod auditing;
mod browsing;
mod endpoints;
mod histories;
mod laws;
mod message;
mod reading;
mod requests;
mod responses;
mod server;
mod service;
mod sessions;
mod updating;
mod user_space;

pub use laws::readers_change_nothing;
pub use message::answer_message;
pub use responses::{RequestContext, put_service_fault};
pub use server::Server;
pub use service::ClientMessage;
pub use updating::{granted_type, update_one};
