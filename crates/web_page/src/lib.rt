//! The page that a person begins at: what a server's settings say of its variables, each with its
//! latest live value.
#![tactic(auto)]

mod asking;
mod calls;
mod fault;
mod front;
mod html;
mod latest;
mod laws;
mod listing;
mod peers;
mod row;
mod texts;

pub use calls::{CallCause, CallEnd, LastCall, LastCalls, Overview};
pub use fault::PageFault;
pub use front::put_front;
pub use laws::a_front_rows_texts_are_its_cells;
