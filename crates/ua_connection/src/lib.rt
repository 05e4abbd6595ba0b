//! A client's connection: what it is answered over an archive, from the first byte read to the last one written.
#![tactic(auto)]

mod client;
mod clock;
mod connection;
mod greeting;
mod laws;
mod line;
mod outcome;
mod responding;
mod serving;
mod turn;

pub use clock::{Clock, ConstantClock, SystemClock};
pub use connection::{Connection, MOST_CHUNKS};
pub use laws::{
    answers_go_item_by_item, chunks_are_counted, connections_are_answered_chunk_by_chunk,
};
pub use line::{Line, Wires};
pub use outcome::Served;
pub use serving::serve;
pub use turn::Step;
