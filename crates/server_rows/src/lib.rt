//! What the crates of tests of the server share: a plant, the bytes by which a client begins, ends of connections in memory.
//! No crate of the program stands on this one.
#![tactic(auto)]

pub mod ends;
pub mod network;
pub mod plant;
pub mod streams;
