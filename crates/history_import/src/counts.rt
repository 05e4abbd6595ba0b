//! How many rows there were, by what became of them.

/// How many rows there were, by what became of them; each count stops at 2^64 - 1.
#[derive(Clone, Copy, Debug, PartialEq, Eq)]
pub struct Counts {
    /// All of them.
    pub rows: u64,
    /// Those whose value is held, where none was live.
    pub inserted: u64,
    /// Those whose value is held, in place of one that was live.
    pub replaced: u64,
    /// Those at whose place a value was live already.
    pub exist: u64,
    /// Those that were refused for another reason.
    pub refused: u64,
}
