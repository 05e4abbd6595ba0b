//! An opening of a store over SQLite that anybody may have written: its tables are judged, and those of an earlier form brought to
//! today's, in one commit.
#![tactic(auto)]

mod again;
mod backfill;
mod checking;
mod clearing;
mod lasts;
mod latest;
mod migrate;
mod opening;

pub use again::read_again;
pub use clearing::{clear, open_beside};
pub use latest::{Latest, latest_after};
pub use migrate::{Rows1, open_rows, turn};
pub use opening::{open_all, refusal_by_meta};
