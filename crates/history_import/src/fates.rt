//! What became of a row, by what it came to.

ghost use Rattle.std.specs.Prelude.{◌≡◌};
ghost use Rattle.history_import.specs.Telling.{fate_by, fate_of};

use crate::row_end::{Fate, RowEnd};
use ua_binary::Status;

/// What became of a row that was answered by this status.
fn fate_by(code: Status) -> Fate
    ensures { result ≡ fate_by code }
{
    if code.0 == Status::GOOD_ENTRY_INSERTED.0 {
        return Fate::Inserted;
    }
    if code.0 == Status::GOOD_ENTRY_REPLACED.0 {
        return Fate::Replaced;
    }
    if code.0 == Status::BAD_ENTRY_EXISTS.0 {
        return Fate::Exists;
    }
    Fate::Refused
}

/// What became of a row.
pub fn fate_of(end: RowEnd) -> Fate
    ensures { result ≡ fate_of end }
{
    match end {
        RowEnd::Answered(code) => fate_by(code),
        RowEnd::NotText | RowEnd::NoRow(_) => Fate::Refused,
    }
}
