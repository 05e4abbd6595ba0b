//! Reads of a store over SQLite: the values of a range, the log of a range, and the records that another replica lacks.
#![tactic(auto)]

mod asked;
mod currents;
mod lookahead;
mod ranges;
mod reads;
mod shown;
mod since;
mod walking;

pub use asked::{Between, NodeReading};
pub use ranges::{log_in, outside_in, range_in};
pub use reads::records_at;
pub use since::records_since;
