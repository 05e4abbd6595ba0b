//! The command line of the program: the commands that it takes, and what a line asks it to do.
#![tactic(auto)]

mod commands;
mod line;
mod reading;

pub use line::{
    Asked, HistoryWords, ImportWords, Line, LineFault, PerformWord, SyncWords, VERSION,
};
pub use reading::{read_line, why_refused};
