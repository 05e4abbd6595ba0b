//! How rows are to be written.

use ua_binary::Ticks;

/// Which update each row asks for (Part 11, PerformUpdateType).
#[derive(Clone, Copy, Debug, PartialEq, Eq)]
pub enum Perform {
    /// A value where none is live; where one is, the row is refused.
    Insert,
    /// A value in place of one that is live; where none is, the row is refused.
    Replace,
    /// A value, whether one is live or not.
    Update,
}

impl Perform {
    ghost use Rattle.std.specs.Prelude.{◌≡◌};
    ghost use Rattle.history_import.specs.Rows.{perform_number};

    /// The standard's number of it.
    pub fn number(self) -> i32
        ensures { result ≡ perform_number self }
    {
        match self {
            Perform::Insert => 1,
            Perform::Replace => 2,
            Perform::Update => 3,
        }
    }
}

/// As whom, how and at which moment rows are written.
#[derive(Clone, Copy, Debug)]
pub struct Import<'a> {
    /// The user whom the records name.
    pub user: &'a str,
    /// Which update each row asks for.
    pub perform: Perform,
    /// The reading of the clock, one for all rows.
    pub reading: Ticks,
}
