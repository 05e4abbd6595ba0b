//! How history is read: directions, and places among modifications.

ghost use Rattle.archive.specs.declared.reading.Direction.TheVariants.{Backward, Forward};
ghost use Rattle.std.specs.Prelude.{◌≡◌};

use records::Moment;
use stamp::Stamp;

/// The way in which times are read.
#[derive(Clone, Copy, Debug, PartialEq, Eq)]
pub enum Direction {
    /// Times ascend; of the modifications of one time, the newest stands first.
    Forward,
    /// Times descend; of the modifications of one time, the oldest stands first.
    Backward,
}

/// The place of a modification among those of its node.
#[derive(Clone, Copy, Debug, PartialEq, Eq)]
pub struct LogPlace {
    /// The source time, with its picoseconds.
    pub time: Moment,
    /// The stamp of the record that made it.
    pub stamp: Stamp,
}

impl Direction {
    ghost use Rattle.archive.specs.Reading.{is_past};

    /// The other way.
    pub fn opposite(self) -> Direction
        ensures { result ≡ (elim self [ Forward ↦ Backward | Backward ↦ Forward ]) }
    {
        match self {
            Direction::Forward => Direction::Backward,
            Direction::Backward => Direction::Forward,
        }
    }

    /// Whether a time is strictly beyond a limit.
    pub fn is_past(self, limit: Moment, time: Moment) -> bool
        ensures { result ≡ is_past self limit time }
    {
        match self {
            Direction::Forward => limit < time,
            Direction::Backward => time < limit,
        }
    }
}
