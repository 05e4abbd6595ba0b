//! What a read of history asks for.

use ua_services::{ReadRawModifiedDetails, TimestampsToReturn};

/// A read of a node's history.
#[derive(Clone, Copy, Debug, PartialEq, Eq)]
pub struct Query {
    pub details: ReadRawModifiedDetails,
    /// Where neither is asked for, no times are shown.
    pub stamps: TimestampsToReturn,
}
