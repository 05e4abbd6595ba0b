//! An event loop over many connections and one world, in one thread: each connection has its turn, and none waits for
//! another.
#![tactic(auto)]

mod displacing;
mod handler;
mod laws;
mod limits;
mod serving;
mod slot;
mod source;
mod stay;
mod transfer;
mod turns;

pub use handler::{Handler, Progress, SlotEnd};
pub use laws::each_connection_is_alone;
pub use limits::{Limits, ServeReport};
pub use serving::serve;
pub use slot::Slot;
pub use source::{Arrival, Call, Source};
pub use stay::{Origin, Party, Stay};
pub use transfer::{NonBlockingRead, NonBlockingWrite, ReadAttempt, WriteAttempt};
