//! Rows of histories for the crates of tests: what is learned, asked and exchanged, and what is answered, over any archive.
//! No crate of the program stands on this one.
#![tactic(auto)]

pub mod archives;
pub mod codes;
pub mod exchanges;
pub mod points;
pub mod reads;
pub mod updates;
pub mod written_records;
