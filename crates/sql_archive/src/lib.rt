//! An archive over SQLite, in memory or in a file: one row for each record, in the tables of store format 2.
#![tactic(auto)]

mod clearing;
mod files;
mod laws;
mod learning;
mod renewing;
mod starting;
mod store;

pub use files::FileArchive;
pub use laws::{
    memory_is_honest, moments_of_format_1_have_no_picoseconds, refused_openings_lose_nothing,
    tables_are_the_records,
};
pub use store::SqlArchive;
