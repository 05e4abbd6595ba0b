//! A history read from CSV and brought to a running server: each row is one HistoryUpdate of a client of it (Part 4, 5.11.5;
//! Part 11, 6.9.2).
#![tactic(auto)]

mod bringing;
mod fault;
mod rows;
mod session;

pub use bringing::{Imported, bring_rows, import_at};
pub use fault::RemoteFault;
pub use session::Session;
