//! What the parts together promise, as laws over worlds of replicas.
//!
//! A past (`specs/Executions`) is a world of replicas of one archive, each with a number of its own, that begin with
//! nothing, and any list of events: updates, batches sent, delivered in whole or in part, late, again or never, and
//! restarts. What happens to archives in `exchange::run_world` is such a list. A law says of replicas that any
//! of them is so at some time of a past, and of stores that they return what was written to them.
//!
//! - `replicas_converge`, `archives_answer_alike`: those that have learned the same updates answer reads of
//!   history with the same bytes.
//! - `merging_is_a_join`: two replicas' contents have a least one above both, and merging comes to it.
//! - `every_update_stands`: an update that was answered Good is shown by the reads of every replica that has
//!   learned it, as the live value or among the modifications, with its user and its tick; the greatest stamp is live.
//! - `pages_stay`: pages show what the first one's replica held then, whatever happens in between.
//! - `machines_simulate_an_execution`: archives that clients' connections, calls between them and restarts change hold
//!   what the replicas of a past do.
//! - `good_answers_are_stored`: after a message each operation that its response tells as Good has its record.
#![tactic(auto)]

mod lawful;
mod laws;
mod plants;
mod witness;

pub use laws::{
    archives_answer_alike, every_update_stands, good_answers_are_stored,
    machines_simulate_an_execution, merging_is_a_join, pages_stay, replicas_converge,
};
pub use plants::{
    a_call_that_is_done_leaves_all_at_both, answers_are_updates, connections_forge_nothing,
    conversations_take_turns, frames_are_exchanges, plants_simulate_an_execution,
};
pub use witness::two_machines;
