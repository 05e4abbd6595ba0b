//! OPC UA Secure Conversation under the security policy None (Part 6, 6.7): which chunks of a
//! connection are well placed, the messages of a chunk list, and messages in chunks.
#![tactic(auto)]

mod channel;
mod fault;
mod headers;
mod inbound;
mod laws;
mod message;
mod placed;
mod sending;
mod taken;

pub use channel::Channel;
pub use fault::ChannelFault;
pub use headers::{RequestHeader, put_response_header, read_request_header};
pub use laws::{
    channel_knows_the_chunks_taken, chunks_are_answered_by_their_places, formats_are_lawful,
    formats_are_prefix_free, message_is_the_bodies_of_its_run, messages_are_bounded,
    numbers_run_on, pieces_are_counted, wrapped_bytes_are_whole_chunks,
};
pub use message::MessageBytes;
pub use taken::{OpenRequest, Taken};
