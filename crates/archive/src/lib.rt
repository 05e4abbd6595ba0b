//! An archive: the records of one replica, in a store, and what it answers of them. `Archive` is the
//! one contract that updates, reads and exchange stand on. `ListArchive` meets it by one list of records,
//! and an `Either` of two archives by the one that is there.
#![tactic(auto)]

mod archive;
mod either_archive;
mod fault;
mod laws;
mod list_archive;
mod reading;
mod scripted;
mod setback;

pub use archive::Archive;
pub use fault::{LearnFault, StoreFault};
pub use laws::{
    logs_have_the_modifications, memory_is_honest, outside_is_the_nearest,
    ranges_have_the_live_values, what_is_held_goes_on,
};
pub use list_archive::ListArchive;
pub use reading::{Direction, LogPlace};
pub use scripted::{Failure, ScriptedArchive};
pub use setback::StepError;
