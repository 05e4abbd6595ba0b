//! The lines that a server's log tells of events: who came, who logged in or was refused, what they
//! asked to change and how it was answered, and how their connections ended (Part 5, 6.4: audit
//! events).
//!
//! A line is one event. It begins with when it was, and has no end of its own.
#![tactic(auto)]

mod laws;
mod lines;
mod names;
mod parts;

pub use laws::a_line_is_one_line;
pub use lines::{
    Ending, Moved, Start, broken_line, call_line, connected_line, denial_line, end_line,
    login_line, start_line, update_line,
};
