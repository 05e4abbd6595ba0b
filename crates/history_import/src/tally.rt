//! Rows are counted.

ghost use Rattle.std.specs.Prelude.{◌≡◌};
ghost use Rattle.history_import.specs.Telling.{no_rows, with_one};

use crate::counts::Counts;
use crate::row_end::Fate;

/// No rows.
pub fn no_rows() -> Counts
    ensures { result ≡ no_rows }
{
    Counts {
        rows: 0,
        inserted: 0,
        replaced: 0,
        exist: 0,
        refused: 0,
    }
}

/// One row more, of which this became.
pub fn with_one(mut counts: Counts, fate: Fate) -> Counts
    ensures { result ≡ with_one counts fate }
{
    counts.rows = counts.rows.saturating_add(1);
    match fate {
        Fate::Inserted => counts.inserted = counts.inserted.saturating_add(1),
        Fate::Replaced => counts.replaced = counts.replaced.saturating_add(1),
        Fate::Exists => counts.exist = counts.exist.saturating_add(1),
        Fate::Refused => counts.refused = counts.refused.saturating_add(1),
    }
    counts
}
