//! What is told of a row, and of all of them.

ghost use Rattle.std.specs.Prelude.{◌≡◌, ◌++◌, OnOk, string_bytes};
ghost use Rattle.std.specs.Fmt.{decimal};
ghost use Rattle.history_import.specs.Words.{row_line, end_words, fault_words, code_words};
ghost use Rattle.history_import.specs.Telling.{end_line, is_told, part_of, row_noun, summary_of};

use crate::counts::Counts;
use crate::fates::fate_of;
use crate::row_end::{Fate, RowEnd};
use crate::words::{place_words, status_name, why_words};
use history_csv::RowFault;
use std::alloc::{AllocError, Global};
use std::fmt::Write as _;
use ua_binary::Status;

/// Appends a line: the number of a row, and what is said of it.
fn put_words(text: &mut String, number: u64, place: &str, words: &str) -> Result<(), AllocError>
    ensures { OnOk result (string_bytes text.new
        ≡ string_bytes text.old ++ row_line number (place.now ++ words.now)) }
{
    writeln!(text, "row {number}: {place}{words}")
}

/// Appends the line of a row that says no value.
fn put_fault(text: &mut String, number: u64, fault: RowFault) -> Result<(), AllocError>
    ensures { OnOk result (string_bytes text.new
        ≡ string_bytes text.old ++ row_line number (fault_words fault)) }
{
    put_words(text, number, place_words(fault), why_words(fault))
}

/// Appends the line of a row that was refused by a status.
fn put_code(alloc: Global, text: &mut String, number: u64, code: Status) -> Result<(), AllocError>
    ensures { OnOk result (string_bytes text.new
        ≡ string_bytes text.old ++ row_line number (code_words code)) }
{
    let digits = hex::encode_upper(alloc, code.0.to_be_bytes())?;
    put_words(text, number, digits.as_str(), status_name(code))
}

/// Appends the line of a row.
fn put_end(alloc: Global, text: &mut String, number: u64, end: RowEnd) -> Result<(), AllocError>
    ensures { OnOk result (string_bytes text.new
        ≡ string_bytes text.old ++ row_line number (end_words end)) }
{
    match end {
        RowEnd::NotText => put_words(text, number, "", "expected UTF-8"),
        RowEnd::NoRow(fault) => put_fault(text, number, fault),
        RowEnd::Answered(code) => put_code(alloc, text, number, code),
    }
}

/// Whether a row of which this became has a line.
fn is_told(fate: Fate) -> bool
    ensures { result ≡ is_told fate }
{
    match fate {
        Fate::Inserted | Fate::Replaced | Fate::Exists => false,
        Fate::Refused => true,
    }
}

/// Appends the line of a row, if it has one.
pub(crate) fn put_line(
    alloc: Global,
    text: &mut String,
    number: u64,
    end: RowEnd,
) -> Result<(), AllocError>
    ensures { OnOk result
        (string_bytes text.new ≡ string_bytes text.old ++ end_line number end) }
{
    if is_told(fate_of(end)) {
        put_end(alloc, text, number, end)
    } else {
        Ok(())
    }
}

/// Appends a number of rows in words, if there are any; `later` says that others stand before it.
fn put_part(text: &mut String, later: bool, count: u64, word: &str) -> Result<(), AllocError>
    ensures { OnOk result (string_bytes text.new
        ≡ string_bytes text.old ++ part_of later count word.now) }
{
    if count == 0 {
        return Ok(());
    }
    let before = if later { ", " } else { ": " };
    write!(text, "{before}{count} {word}")
}

/// Rows, or one row.
fn row_noun(rows: u64) -> &'static str
    ensures { result.now ≡ row_noun rows }
{
    if rows == 1 { " row" } else { " rows" }
}

/// Appends how many rows there were.
fn put_rows(text: &mut String, rows: u64) -> Result<(), AllocError>
    ensures { OnOk result (string_bytes text.new
        ≡ string_bytes text.old ++ decimal rows ++ row_noun rows) }
{
    let noun = row_noun(rows);
    write!(text, "{rows}{noun}")
}

/// Appends the summary.
pub(crate) fn put_summary(text: &mut String, counts: &Counts) -> Result<(), AllocError>
    ensures { OnOk result
        (string_bytes text.new ≡ string_bytes text.old ++ summary_of counts.now) }
{
    put_rows(text, counts.rows)?;
    let one = counts.inserted > 0;
    let two = one | (counts.replaced > 0);
    let three = two | (counts.exist > 0);
    put_part(text, false, counts.inserted, "inserted")?;
    put_part(text, one, counts.replaced, "replaced")?;
    put_part(text, two, counts.exist, "exist")?;
    put_part(text, three, counts.refused, "refused")?;
    text.push_str("\n")
}
