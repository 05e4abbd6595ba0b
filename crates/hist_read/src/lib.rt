//! Reads of a node's history (Part 11, ReadRawModifiedDetails): what is asked, and the continuation
//! points that pages end with.
#![tactic(auto)]

mod asked;
mod bounds;
mod fault;
mod item;
mod laws;
mod modified;
mod node;
mod point;
mod query;
mod raw;
mod scope;
mod showing;

pub use laws::{
    a_whole_read_is_its_stretch_and_bounds, continuation_points_are_told_by_their_bytes,
    pages_of_modifications_join, pages_of_raw_values_join, pages_show_the_whole_read,
    what_grows_goes_on,
};
pub use node::{is_short_value, read_node, read_node_within};
pub use point::{PagePoint, Phase, Position, put_continuation, read_continuation};
pub use query::Query;
pub use showing::with_stamps;
pub use ua_services::{HistoryReadResult as NodeResult, put_history_read_result as put_result};
