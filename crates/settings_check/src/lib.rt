//! What settings say, told to people, and where they are lawful and unwise; and what an archive
//! holds of their variables.
#![tactic(auto)]

mod asking;
mod facts;
mod fault;
mod nodes;
mod printing;
mod storing;
mod texts;
mod values;
mod warnings;

pub use fault::CheckFault;
pub use printing::{check_text, print_check};
pub use storing::print_store;
