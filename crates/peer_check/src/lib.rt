//! Comparing the records that a peer holds with one's own of the same names, before or beside an exchange: whether a number
//! was given twice.
#![tactic(auto)]

mod beginning;
mod calling;
mod comparing;
pub mod laws;

pub use beginning::{find_first_clash, greet_before};
pub use calling::compare;
pub use comparing::{Clash, Extent, find_clash};
