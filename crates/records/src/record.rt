//! Records of writes and deletes.

use crate::moment::Moment;
use stamp::ReplicaNo;
use std::alloc::AllocError;
use ua_binary::{NodeId, Text, TryClone};
use ua_variant::{DataValue, HistoryUpdateType};

/// A write or a delete of the value at a node and a source time. Its origin and number name it among
/// all records; its tick and origin are its stamp, by which records are ordered.
#[derive(Debug, Drop, PartialEq, Eq)]
pub struct Record {
    /// The replica that took the update.
    pub origin: ReplicaNo,
    /// Which of that replica's records it is: 1, 2, 3 and so on, at most 2^62 - 1.
    pub number: u64,
    /// When it was made, in steps of 100 ns since 1601, or later where a later one was known:
    /// 1 to 2^62 - 1.
    pub tick: i64,
    pub node: NodeId,
    /// The source time, with its picoseconds; its ticks are at least 1.
    pub time: Moment,
    /// Which update was asked for.
    pub asked: HistoryUpdateType,
    /// Who asked, in at most 256 bytes.
    pub user: Text,
    /// The value that was written, without its source time; of a delete, the empty value.
    pub value: DataValue,
}

impl TryClone for Record {
    fn try_clone(&self) -> Result<Record, AllocError> {
        let node = self.node.try_clone()?;
        let user = self.user.try_clone()?;
        let value = self.value.try_clone()?;
        Ok(Record {
            origin: self.origin,
            number: self.number,
            tick: self.tick,
            node,
            time: self.time,
            asked: self.asked,
            user,
            value,
        })
    }
}
