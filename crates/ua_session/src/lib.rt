//! The sessions of a connection and their users (Part 4, 5.7): which tokens are alive, and as whom each
//! was activated.
#![tactic(auto)]

mod audit;
mod fault;
mod identity;
mod laws;
mod session;
mod sessions;
mod users;

pub use audit::{AuditEvent, AuditName, UpdateAudit, UpdateKind};
pub use fault::SessionFault;
pub use identity::{Access, Identity};
pub use laws::{
    calls_are_answered_by_what_happened, identities_are_judged_by_the_first_of_equal_names,
    sessions_are_bounded, tokens_are_given_once, user_is_that_of_the_last_activation,
};
pub use sessions::Sessions;
pub use users::Users;
