//! A client of an OPC UA server (Part 4, Part 6) that writes values into histories: it greets the server, opens a channel under
//! the policy None and a session, and brings values by HistoryUpdate (Part 11, 6.9).
//!
//! Its requests are what `ua_services`, `ua_channel` and `uacp` read, and it reads what they write.
#![tactic(auto)]

mod chunks;
mod client;
mod endpoints;
mod fault;
mod line;
mod requests;
mod responses;

pub use chunks::{ChunkIds, put_closing, put_greeting, put_message, put_opening};
pub use client::{Client, connect};
pub use endpoints::{Application, Endpoint, Token};
pub use fault::ClientFault;
pub use line::Line;
pub use requests::{
    Header, Login, NewSession, UpdateAsked, is_short_update, put_activate_session_request,
    put_close_session_request, put_create_session_request, put_history_update_request,
    put_request_head, update_size,
};
pub use responses::{
    Granted, Opened, ResponseHeader, UpdateResult, answer_in, read_acknowledge,
    read_activate_session_response, read_create_session_response, read_history_update_response,
    read_open_response, read_response_header, refusal_in,
};
