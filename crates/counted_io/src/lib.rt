//! Readers and writers whose failed calls are counted, and why a connection over them ended.
#![tactic(auto)]

mod counted;
mod fault;

pub use counted::Counted;
pub use fault::ServeFault;
