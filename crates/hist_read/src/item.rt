//! Items of a raw read.

use records::{Held, Moment};

/// An item of a raw read.
#[derive(Debug, Drop, PartialEq, Eq)]
pub(crate) enum Item {
    /// A live value.
    Value(Held),
    /// A bound that is missing at this moment.
    Missing(Moment),
}

impl Item {
    ghost use Rattle.std.specs.Prelude.{◌≡◌};
    ghost use Rattle.hist_read.specs.Reads.{item_time};

    /// Its source time.
    pub(crate) fn time(&self) -> Moment
        ensures { result ≡ item_time self.now }
    {
        match self {
            Item::Value(held) => held.time,
            Item::Missing(time) => *time,
        }
    }
}
