//! A history read from CSV: each row is an update of one value, in a user's name.
#![tactic(auto)]

mod asked;
mod counts;
mod fates;
mod fault;
mod importing;
mod input;
mod lines;
mod reading;
mod row_end;
mod rows;
mod tally;
mod telling;
mod update;
mod words;
mod writers;

pub use asked::{Import, Perform};
pub use counts::Counts;
pub use fates::fate_of;
pub use fault::ImportFault;
pub use importing::{fault_behind, import_rows};
pub use input::Lent;
pub use reading::{next_row, read_header, rows_in};
pub use row_end::{Fate, RowEnd};
pub use rows::row_asked;
pub use tally::{no_rows, with_one};
pub use telling::{tell_row, tell_summary};
pub use update::Update;
pub use words::{text_words, why_words};
pub use writers::may_import;
