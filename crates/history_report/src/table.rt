//! Lines of a table for people.

ghost use Rattle.std.specs.Prelude.{◌≡◌, ◌++◌, ◌∷◌, [], IfOk, OnOk, replicate, if◌then◌else◌};
ghost use Rattle.history_csv.specs.Rows.{value_names, change_names};
ghost use Rattle.history_report.specs.Tables.{legible, legible_byte, characters, cell, last_cell, table_line};

use std::alloc::{AllocError, Global};

/// The width of a time's column.
const TIME: usize = 28;

/// The width of a value's column.
const VALUE: usize = 24;

/// The width of a short word's column.
const WORD: usize = 8;

/// The fields of a live value's line.
#[derive(Clone, Copy)]
pub(crate) struct Shown<'a> {
    pub(crate) time: &'a [u8],
    pub(crate) value: &'a [u8],
    pub(crate) status: &'a [u8],
}

/// The further fields of a modification's line.
#[derive(Clone, Copy)]
pub(crate) struct Made<'a> {
    pub(crate) change: &'a [u8],
    pub(crate) changed: &'a [u8],
    pub(crate) user: &'a [u8],
}

/// A byte as it is shown behind the byte before it: one that controls a terminal as `?`, and the
/// second one of U+0080 to U+009F as that of `¿`.
fn legible_byte(before: u8, byte: u8) -> u8
    ensures { result ≡ legible_byte before byte }
{
    if before == 194 && byte < 160 {
        191
    } else if byte < 32 || byte == 127 {
        b'?'
    } else {
        byte
    }
}

/// Appends a text as it is shown, without what controls a terminal: a byte below 32 and 127 as `?`,
/// and U+0080 to U+009F as `¿`. The one error is want of memory; then a first part is appended.
pub fn put_legible(out: &mut Vec<u8>, text: &[u8]) -> Result<(), AllocError>
    ensures { OnOk result (out.new.items ≡ out.old.items ++ legible text.now) }
{
    let mut before = 0;
    for byte in text {
        out.push(legible_byte(before, *byte))?;
        before = *byte;
    }
    Ok(())
}

/// A text as it is shown, without what controls a terminal.
fn shown_text(alloc: Global, text: &[u8]) -> Result<Vec<u8>, AllocError>
    ensures { IfOk result (λ put. put.items ≡ legible text.now) }
{
    let mut put = Vec::new(alloc);
    put_legible(&mut put, text)?;
    Ok(put)
}

/// How many characters a text has.
fn characters(text: &[u8]) -> usize
    ensures { result ≡ characters text.now }
{
    text.iter()
        .filter(|byte| **byte < 128 || **byte >= 192)
        .count()
}

/// Appends blanks.
fn put_blanks(line: &mut Vec<u8>, count: usize) -> Result<(), AllocError>
    ensures { OnOk result (line.new.items ≡ line.old.items ++ replicate count 32) }
{
    for _ in 0..count {
        line.push(b' ')?;
    }
    Ok(())
}

/// Appends a field, and blanks up to the column's width and two more.
fn put_cell(alloc: Global, line: &mut Vec<u8>, width: usize, text: &[u8]) -> Result<(), AllocError>
    ensures { OnOk result (line.new.items ≡ line.old.items ++ cell width text.now) }
{
    let shown = shown_text(alloc, text)?;
    line.extend_from_slice(shown.as_slice())?;
    put_blanks(line, width.saturating_sub(characters(shown.as_slice())))?;
    line.extend_from_slice(b"  ")
}

/// Appends the last field of a line, and the line's end.
fn put_last(alloc: Global, line: &mut Vec<u8>, text: &[u8]) -> Result<(), AllocError>
    ensures { OnOk result (line.new.items ≡ line.old.items ++ last_cell text.now) }
{
    let shown = shown_text(alloc, text)?;
    line.extend_from_slice(shown.as_slice())?;
    line.extend_from_slice(b"\n")
}

/// The line of a live value.
pub(crate) fn value_line(alloc: Global, shown: &Shown<'_>) -> Result<Vec<u8>, AllocError>
    ensures { IfOk result (λ line. line.items
        ≡ table_line ([] ∷ shown.now.time.now ∷ shown.now.value.now ∷ shown.now.status.now ∷ [])) }
{
    let mut line = Vec::new(alloc);
    put_cell(alloc, &mut line, TIME, shown.time)?;
    put_cell(alloc, &mut line, VALUE, shown.value)?;
    put_last(alloc, &mut line, shown.status)?;
    Ok(line)
}

/// Appends what was done, when, and by whom.
fn put_made(alloc: Global, line: &mut Vec<u8>, made: &Made<'_>) -> Result<(), AllocError>
    ensures { OnOk result (line.new.items ≡ line.old.items ++ cell 8 made.now.change.now
        ++ cell 28 made.now.changed.now ++ last_cell made.now.user.now) }
{
    put_cell(alloc, line, WORD, made.change)?;
    put_cell(alloc, line, TIME, made.changed)?;
    put_last(alloc, line, made.user)
}

/// The line of a modification.
pub(crate) fn change_line(
    alloc: Global,
    shown: &Shown<'_>,
    made: &Made<'_>,
) -> Result<Vec<u8>, AllocError>
    ensures { IfOk result (λ line. line.items
        ≡ table_line ([] ∷ shown.now.time.now ∷ shown.now.value.now ∷ shown.now.status.now
        ∷ made.now.change.now ∷ made.now.changed.now ∷ made.now.user.now ∷ [])) }
{
    let mut line = Vec::new(alloc);
    put_cell(alloc, &mut line, TIME, shown.time)?;
    put_cell(alloc, &mut line, VALUE, shown.value)?;
    put_cell(alloc, &mut line, WORD, shown.status)?;
    put_made(alloc, &mut line, made)?;
    Ok(line)
}

/// The names of the columns, as a line.
pub(crate) fn table_header(alloc: Global, changes: bool) -> Result<Vec<u8>, AllocError>
    ensures { IfOk result (λ line. line.items
        ≡ table_line (if changes then change_names else value_names)) }
{
    let shown = Shown {
        time: b"time",
        value: b"value",
        status: b"status",
    };
    if !changes {
        return value_line(alloc, &shown);
    }
    let made = Made {
        change: b"change",
        changed: b"changed",
        user: b"user",
    };
    change_line(alloc, &shown, &made)
}
