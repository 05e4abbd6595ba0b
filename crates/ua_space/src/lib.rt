//! The address space of the historian (Part 3; Part 4, 5.9 and 5.11): the nodes that a plan of folders and
//! variables makes, their attributes and their references.
#![tactic(auto)]

mod asked_types;
mod attributes;
mod browsing;
mod fault;
mod index;
mod judging;
mod laws;
mod layout;
mod link;
mod node;
mod plan;
mod space;

pub use attributes::Answered;
pub use fault::BuildFault;
pub use judging::{MAX_NODES, is_type_name};
pub use laws::variables_hang_below_their_parents;
pub use plan::{FolderPlan, Plan, VariablePlan};
pub use space::{Space, VariableInfo};
