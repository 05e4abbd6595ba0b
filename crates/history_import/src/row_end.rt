//! What a row comes to.

use history_csv::RowFault;
use ua_binary::Status;

/// What a row comes to.
#[derive(Clone, Copy, Debug, PartialEq, Eq)]
pub enum RowEnd {
    /// Its bytes aren't UTF-8.
    NotText,
    /// It says no value: this field is wrong, or memory ran out.
    NoRow(RowFault),
    /// What it asks for was answered by this status.
    Answered(Status),
}

/// What became of a row.
#[derive(Clone, Copy, Debug, PartialEq, Eq)]
pub enum Fate {
    /// Its value is held, where none was live.
    Inserted,
    /// Its value is held, in place of one that was live.
    Replaced,
    /// A value was live there already, and stays.
    Exists,
    /// It was refused for another reason.
    Refused,
}
