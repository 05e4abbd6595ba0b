//! The tables of a store over SQLite: what they hold, and the statements that make, ask, fill and judge them.
#![tactic(auto)]

mod decoding;
mod indexing;
mod insert;
mod integrity;
mod layout;
mod queries;
mod statements;
mod writes;

pub use decoding::{bytes_at, decode, decode_all, int_at, number_at, short_at, tick_at};
pub use indexing::index_live_values;
pub use insert::add_record;
pub use integrity::{check_currents, vectors_held, vectors_stand};
pub use layout::{first_open, make_tables, number_of};
pub use queries::{
    Name, Next, RowTime, RowsAfter, place_of, rows_at, rows_behind, rows_last, rows_named,
    rows_next, rows_of_meta,
};
pub use statements::{ask, fault_of, refusal_of, select};
pub use writes::{Cells, store_record};
