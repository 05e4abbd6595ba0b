//! What a browser's connection is answered: one request, by the settings and the archive.
#![tactic(auto)]

mod access;
mod connection;
mod history;
mod laws;
mod pages;
mod peers;
mod requests;
mod sending;
mod status;
mod step;
mod texts;

pub use connection::WebConnection;
pub use laws::{a_history_ends, a_history_is_sent_whole};
pub use step::WebStep;
