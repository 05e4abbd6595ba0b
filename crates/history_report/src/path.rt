//! A path through columns, as SVG writes it.

ghost use Rattle.std.specs.Prelude.{IfOk, OnOk};
ghost use Rattle.history_report.specs.Html.{IsPath};

use crate::trend::{Column, HEIGHT};
use std::alloc::{AllocError, Global};

/// To which depth a mark goes up from the lower edge.
const MARK: u16 = 950;

/// Appends a number's last digit.
fn put_digit(path: &mut Vec<u8>, number: u16) -> Result<(), AllocError>
    ensures { OnOk result (IsPath path.old.items → IsPath path.new.items) }
{
    Ok(path.push(b'0' + (number % 10) as u8)?)
}

/// Appends the last digit of a number that others follow; nothing of 0.
fn put_leading(path: &mut Vec<u8>, number: u16) -> Result<(), AllocError>
    ensures { OnOk result (IsPath path.old.items → IsPath path.new.items) }
{
    if number > 0 {
        put_digit(path, number)
    } else {
        Ok(())
    }
}

/// Appends a number below 10,000.
fn put_number(path: &mut Vec<u8>, number: u16) -> Result<(), AllocError>
    ensures { OnOk result (IsPath path.old.items → IsPath path.new.items) }
{
    put_leading(path, number / 1000)?;
    put_leading(path, number / 100)?;
    put_leading(path, number / 10)?;
    put_digit(path, number)
}

/// Appends that the pen goes across to a column.
fn put_across(path: &mut Vec<u8>, column: u16) -> Result<(), AllocError>
    ensures { OnOk result (IsPath path.old.items → IsPath path.new.items) }
{
    path.push(b'H')?;
    put_number(path, column)
}

/// Appends that the pen goes from one depth to another.
fn put_along(path: &mut Vec<u8>, from: u16, to: u16) -> Result<(), AllocError>
    ensures { OnOk result (IsPath path.old.items → IsPath path.new.items) }
{
    if from != to {
        path.push(b'V')?;
        put_number(path, to)?;
    }
    Ok(())
}

/// Appends that the pen is put down, where it leaves a dot.
fn put_down(path: &mut Vec<u8>, column: u16, depth: u16) -> Result<(), AllocError>
    ensures { OnOk result (IsPath path.old.items → IsPath path.new.items) }
{
    path.push(b'M')?;
    put_number(path, column)?;
    path.push(b' ')?;
    put_number(path, depth)?;
    put_across(path, column)
}

/// Appends the way to a column's first number: across, where the pen is down at a depth.
fn put_first(
    path: &mut Vec<u8>,
    place: u16,
    column: Column,
    pen: Option<u16>,
) -> Result<(), AllocError>
    ensures { OnOk result (IsPath path.old.items → IsPath path.new.items) }
{
    let Some(depth) = pen else {
        return put_down(path, place, column.first);
    };
    put_across(path, place)?;
    if column.opens {
        put_down(path, place, column.first)
    } else {
        put_along(path, depth, column.first)
    }
}

/// Appends the way through a column's numbers.
fn put_numbers(path: &mut Vec<u8>, column: Column) -> Result<(), AllocError>
    ensures { OnOk result (IsPath path.old.items → IsPath path.new.items) }
{
    put_along(path, column.first, column.low)?;
    put_along(path, column.low, column.high)?;
    put_along(path, column.high, column.last)
}

/// Appends a column that has no number: the pen comes to its gap.
fn put_gap(path: &mut Vec<u8>, place: u16, pen: Option<u16>) -> Result<(), AllocError>
    ensures { OnOk result (IsPath path.old.items → IsPath path.new.items) }
{
    if pen.is_some() {
        put_across(path, place)?;
    }
    Ok(())
}

/// Appends a column, to which the pen comes so.
fn put_column(
    path: &mut Vec<u8>,
    place: u16,
    column: Column,
    pen: Option<u16>,
) -> Result<(), AllocError>
    ensures { OnOk result (IsPath path.old.items → IsPath path.new.items) }
{
    if column.drawn {
        put_first(path, place, column, pen)?;
        put_numbers(path, column)
    } else if column.closes {
        put_gap(path, place, pen)
    } else {
        Ok(())
    }
}

/// At which depth the pen is behind a column, if it is down.
fn pen_behind(column: Column, pen: Option<u16>) -> Option<u16> {
    if column.closes {
        None
    } else if column.drawn {
        Some(column.last)
    } else {
        pen
    }
}

/// Appends the path through columns.
fn put_path(path: &mut Vec<u8>, columns: &[Column]) -> Result<(), AllocError>
    ensures { OnOk result (IsPath path.old.items → IsPath path.new.items) }
{
    let (mut place, mut pen) = (0u16, None);
    for column in columns {
        put_column(path, place, *column, pen)?;
        pen = pen_behind(*column, pen);
        place = place.saturating_add(1);
    }
    Ok(())
}

/// The path through columns.
pub(crate) fn path_of(alloc: Global, columns: &[Column]) -> Result<Vec<u8>, AllocError>
    ensures { IfOk result (λ path. IsPath path.items) }
{
    let mut path = Vec::new(alloc);
    put_path(&mut path, columns)?;
    Ok(path)
}

/// Appends a mark at the lower edge.
fn put_mark(path: &mut Vec<u8>, place: u16) -> Result<(), AllocError>
    ensures { OnOk result (IsPath path.old.items → IsPath path.new.items) }
{
    path.push(b'M')?;
    put_number(path, place)?;
    path.push(b' ')?;
    put_number(path, HEIGHT)?;
    put_along(path, HEIGHT, MARK)
}

/// Appends the mark of a column, where a value of it was corrected.
fn put_marked(path: &mut Vec<u8>, place: u16, column: Column) -> Result<(), AllocError>
    ensures { OnOk result (IsPath path.old.items → IsPath path.new.items) }
{
    if column.corrected {
        put_mark(path, place)
    } else {
        Ok(())
    }
}

/// Appends the marks of columns.
fn put_marks(path: &mut Vec<u8>, columns: &[Column]) -> Result<(), AllocError>
    ensures { OnOk result (IsPath path.old.items → IsPath path.new.items) }
{
    let mut place = 0u16;
    for column in columns {
        put_marked(path, place, *column)?;
        place = place.saturating_add(1);
    }
    Ok(())
}

/// The marks of columns: a short step at the lower edge of each in which a value was corrected.
pub(crate) fn marks_of(alloc: Global, columns: &[Column]) -> Result<Vec<u8>, AllocError>
    ensures { IfOk result (λ path. IsPath path.items) }
{
    let mut path = Vec::new(alloc);
    put_marks(&mut path, columns)?;
    Ok(path)
}
