//! The schemas of a store's tables over SQLite, and which of them stand in a database.
#![tactic(auto)]

mod recognize;
mod standing_beside;
mod standing_first;

pub use recognize::{Standing, is_indexed, layout_of};
