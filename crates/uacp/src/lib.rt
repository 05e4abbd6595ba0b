//! OPC UA Connection Protocol (Part 6, 7.1.2): the greeting of a connection, and a byte stream cut
//! into chunks.
#![tactic(auto)]

mod cutting;
mod greeting;
mod intake;
mod laws;
mod splitting;
mod types;

pub use greeting::{Ack, Hello, answer_hello, put_ack, put_error, read_hello};
pub use intake::Intake;
pub use laws::{
    bodies_have_one_split, fault_stays, formats_are_lawful, hello_is_what_is_spelled,
    next_is_what_stands_first, pieces_do_not_matter, stream_ends_so, stream_has_one_reading,
    stream_is_kept,
};
pub use splitting::{Pieces, split};
pub use types::{Chunk, Header, Kind, Letter, UacpFault};
