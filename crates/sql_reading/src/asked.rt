//! What is asked of a node's history.

use archive::Direction;
use records::Moment;
use sql_tables::RowTime;
use stamp::Vector;
use std::alloc::Global;
use ua_binary::NodeId;

/// What is read: the history of a node, in a direction, of what a vector covers.
#[derive(Clone, Copy, Debug)]
pub struct NodeReading<'a> {
    /// Where answers are made.
    pub alloc: Global,
    /// Whose history it is.
    pub node: &'a NodeId,
    /// Which way it is read.
    pub direction: Direction,
    /// Records that it doesn't cover are as good as not there.
    pub within: &'a Vector,
}

/// The same, with the node as the tables spell it.
#[derive(Clone, Copy, Debug)]
pub(crate) struct SpelledReading<'a> {
    pub(crate) alloc: Global,
    pub(crate) node: &'a NodeId,
    /// The node's spelling.
    pub(crate) bytes: &'a [u8],
    pub(crate) direction: Direction,
    pub(crate) within: &'a Vector,
}

/// From one source time to another, both included.
#[derive(Clone, Copy, Debug)]
pub struct Between {
    pub from: Moment,
    pub to: Moment,
}

/// Where a reading starts, strictly beyond a place, and the time at which it ends, which is included.
#[derive(Clone, Copy, Debug)]
pub(crate) struct Span {
    pub(crate) start: RowTime,
    pub(crate) far: Moment,
}
