//! What an update is for.

use std::alloc::AllocError;
use ua_binary::{NodeId, Text, TryClone};

/// The node whose history is updated, the user who asks, and the reading of the clock. The node's id
/// and the user's name have at most 256 bytes each.
#[derive(Debug, Drop)]
pub struct Request {
    pub node: NodeId,
    pub user: Text,
    /// In steps of 100 ns since 1601.
    pub reading: i64,
}

impl TryClone for Request {
    fn try_clone(&self) -> Result<Request, AllocError> {
        let node = self.node.try_clone()?;
        let user = self.user.try_clone()?;
        Ok(Request {
            node,
            user,
            reading: self.reading,
        })
    }
}
