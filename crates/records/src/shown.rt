//! What records show: live values and modifications.

use crate::moment::Moment;
use stamp::ReplicaNo;
use std::alloc::AllocError;
use ua_binary::{Text, TryClone};
use ua_variant::{DataValue, HistoryUpdateType};

/// A live value.
#[derive(Debug, Drop, PartialEq, Eq)]
pub struct Held {
    /// The source time, with its picoseconds.
    pub time: Moment,
    /// The value, without its source time.
    pub value: DataValue,
    /// Whether two or more records stand at its node and source time.
    pub extra: bool,
}

impl TryClone for Held {
    fn try_clone(&self) -> Result<Held, AllocError> {
        let value = self.value.try_clone()?;
        Ok(Held {
            time: self.time,
            value,
            extra: self.extra,
        })
    }
}

/// A modification as it is shown (Part 11, ModificationInfo).
#[derive(Debug, Drop, PartialEq, Eq)]
pub struct Entry {
    /// The source time, with its picoseconds.
    pub time: Moment,
    /// The value that it took the place of, else its own; none for a delete of nothing.
    pub value: Option<DataValue>,
    /// What it did.
    pub kind: HistoryUpdateType,
    /// When it was made.
    pub tick: i64,
    /// The replica that made it.
    pub origin: ReplicaNo,
    /// Who asked for it.
    pub user: Text,
}

impl TryClone for Entry {
    fn try_clone(&self) -> Result<Entry, AllocError> {
        let user = self.user.try_clone()?;
        let value = self.value.try_clone()?;
        Ok(Entry {
            time: self.time,
            value,
            kind: self.kind,
            tick: self.tick,
            origin: self.origin,
            user,
        })
    }
}
