//! How history is updated.

ghost use Rattle.std.specs.Prelude.{◌≡◌};

/// What an update asked for, and what it did (Part 11, HistoryUpdateType).
#[derive(Clone, Copy, Debug, PartialEq, Eq)]
pub enum HistoryUpdateType {
    Insert,
    Replace,
    Update,
    Delete,
}

impl HistoryUpdateType {
    ghost use Rattle.ua_variant.specs.UpdateType.{update_number};

    /// Its number, from 1 to 4.
    pub fn number(self) -> u8
        ensures { result ≡ update_number self }
    {
        match self {
            HistoryUpdateType::Insert => 1,
            HistoryUpdateType::Replace => 2,
            HistoryUpdateType::Update => 3,
            HistoryUpdateType::Delete => 4,
        }
    }
}
