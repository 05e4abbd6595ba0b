//! Lines of a report, in each of its forms.

ghost use Rattle.std.specs.Prelude.{◌≡◌, ◌++◌, ◌∷◌, [], ℕ, List, IfOk, IfErr, OnOk, OnErr, if◌then◌else◌};
ghost use Rattle.csv.specs.Writing.{default_writer, row_text};
ghost use Rattle.history_csv.specs.Rows.{value_names, change_names, AreReadFields, AreChangeFields, IsTextless, ShowsTextless};
ghost use Rattle.history_report.specs.Tables.{table_line};
ghost use Rattle.history_report.specs.Html.{page_row, IsDrawing};
ghost use Rattle.history_report.specs.Reports.{IsHeader, IsValueLine, IsChangeLine, footer_of};
ghost use Rattle.history_report.specs.Paging.{IsPut, IsWhy};

use crate::html::{change_row, page_footer, put_page_header, value_row};
use crate::report::{Form, Report};
use crate::table::{Made, Shown, change_line, table_header, value_line};
use history_csv::{
    ChangeTexts, RowTexts, change_texts, put_change_header, put_change_row, put_value_header,
    put_value_row, row_texts,
};
use history_text::TextFault;
use records::{Entry, Held};
use std::alloc::{AllocError, Global};

/// Appends the header as a row of CSV.
fn put_csv_header(alloc: Global, changes: bool, out: &mut Vec<u8>) -> Result<(), TextFault>
    ensures { OnOk result (out.new.items ≡ out.old.items
        ++ row_text default_writer (if changes then change_names else value_names)) }
{
    if changes {
        put_change_header(alloc, out)
    } else {
        put_value_header(alloc, out)
    }
}

/// Appends the header as a line of the table.
fn put_table_header(alloc: Global, changes: bool, out: &mut Vec<u8>) -> Result<(), TextFault>
    ensures { OnOk result (out.new.items ≡ out.old.items
        ++ table_line (if changes then change_names else value_names)) }
{
    let line = table_header(alloc, changes)?;
    out.extend_from_slice(line.as_slice())?;
    Ok(())
}

/// Appends the header, a page's with this drawing.
pub(crate) fn put_header(
    alloc: Global,
    report: &Report,
    drawing: &[u8],
    out: &mut Vec<u8>,
) -> Result<(), TextFault>
    requires { IsDrawing report.now drawing.now }
    ensures { OnOk result (IsPut out.old.items out.new.items (IsHeader report.now)) }
{
    match report.form {
        Form::Table => put_table_header(alloc, report.changes, out),
        Form::Csv => put_csv_header(alloc, report.changes, out),
        Form::Page => put_page_header(alloc, report, drawing, out),
    }
}

/// The footer.
pub(crate) fn footer(report: &Report) -> &'static [u8]
    ensures { result.now ≡ footer_of report.now }
{
    match report.form {
        Form::Table | Form::Csv => b"",
        Form::Page => page_footer(),
    }
}

/// The line of a live value's texts.
fn line_of_row(alloc: Global, row: &RowTexts) -> Result<Vec<u8>, AllocError>
    ensures { IfOk result (λ line. line.items ≡ table_line (row.now.node.items
        ∷ row.now.time.items ∷ row.now.shown.value.items ∷ row.now.shown.status.items ∷ [])) }
{
    let shown = Shown {
        time: row.time.as_slice(),
        value: row.shown.value.as_slice(),
        status: row.shown.status.as_slice(),
    };
    value_line(alloc, &shown)
}

/// Appends a live value as a line of the table.
fn put_value_shown(
    alloc: Global,
    report: &Report,
    held: &Held,
    out: &mut Vec<u8>,
) -> Result<(), TextFault>
    ensures written { OnOk result (IsPut out.old.items out.new.items
        (λ line. (fields : List (List ℕ)) × (line ≡ table_line fields)
        × AreReadFields report.now.node held.now fields)) }
    ensures refused { IfErr result (IsWhy (IsTextless held.now.value.value)) }
    ensures kept { OnErr result (out.new.items ≡ out.old.items) }
{
    let row = row_texts(alloc, &report.node, held)?;
    let line = line_of_row(alloc, &row)?;
    out.extend_from_slice(line.as_slice())?;
    Ok(())
}

/// The row of a live value's texts.
fn row_of_value(alloc: Global, row: &RowTexts) -> Result<Vec<u8>, AllocError>
    ensures { IfOk result (λ line. line.items ≡ page_row (row.now.node.items
        ∷ row.now.time.items ∷ row.now.shown.value.items ∷ row.now.shown.status.items ∷ [])) }
{
    let shown = Shown {
        time: row.time.as_slice(),
        value: row.shown.value.as_slice(),
        status: row.shown.status.as_slice(),
    };
    value_row(alloc, &shown)
}

/// Appends a live value as a row of a page.
fn put_value_page(
    alloc: Global,
    report: &Report,
    held: &Held,
    out: &mut Vec<u8>,
) -> Result<(), TextFault>
    ensures written { OnOk result (IsPut out.old.items out.new.items
        (λ line. (fields : List (List ℕ)) × (line ≡ page_row fields)
        × AreReadFields report.now.node held.now fields)) }
    ensures refused { IfErr result (IsWhy (IsTextless held.now.value.value)) }
    ensures kept { OnErr result (out.new.items ≡ out.old.items) }
{
    let row = row_texts(alloc, &report.node, held)?;
    let line = row_of_value(alloc, &row)?;
    out.extend_from_slice(line.as_slice())?;
    Ok(())
}

/// Appends a live value as a line. `NoText` says that it has no text, and `OutOfMemory` that memory
/// ran out; then nothing is appended.
pub(crate) fn put_value_line(
    alloc: Global,
    report: &Report,
    held: &Held,
    out: &mut Vec<u8>,
) -> Result<(), TextFault>
    ensures written { OnOk result
        (IsPut out.old.items out.new.items (IsValueLine report.now held.now)) }
    ensures refused { IfErr result (IsWhy (IsTextless held.now.value.value)) }
    ensures kept { OnErr result (out.new.items ≡ out.old.items) }
{
    match report.form {
        Form::Table => put_value_shown(alloc, report, held, out),
        Form::Csv => put_value_row(alloc, out, &report.node, held),
        Form::Page => put_value_page(alloc, report, held, out),
    }
}

/// The line of a modification's texts.
fn line_of_change(alloc: Global, row: &ChangeTexts) -> Result<Vec<u8>, AllocError>
    ensures { IfOk result (λ line. line.items ≡ table_line (row.now.node.items
        ∷ row.now.time.items ∷ row.now.shown.value.items ∷ row.now.shown.status.items
        ∷ row.now.made.change.items ∷ row.now.made.changed.items ∷ row.now.made.user.items ∷ [])) }
{
    let shown = Shown {
        time: row.time.as_slice(),
        value: row.shown.value.as_slice(),
        status: row.shown.status.as_slice(),
    };
    let made = Made {
        change: row.made.change.as_slice(),
        changed: row.made.changed.as_slice(),
        user: row.made.user.as_slice(),
    };
    change_line(alloc, &shown, &made)
}

/// Appends a modification as a line of the table.
fn put_change_shown(
    alloc: Global,
    report: &Report,
    entry: &Entry,
    out: &mut Vec<u8>,
) -> Result<(), TextFault>
    ensures written { OnOk result (IsPut out.old.items out.new.items
        (λ line. (fields : List (List ℕ)) × (line ≡ table_line fields)
        × AreChangeFields report.now.node entry.now fields)) }
    ensures refused { IfErr result (IsWhy (ShowsTextless entry.now.value)) }
    ensures kept { OnErr result (out.new.items ≡ out.old.items) }
{
    let row = change_texts(alloc, &report.node, entry)?;
    let line = line_of_change(alloc, &row)?;
    out.extend_from_slice(line.as_slice())?;
    Ok(())
}

/// The row of a modification's texts.
fn row_of_change(alloc: Global, row: &ChangeTexts) -> Result<Vec<u8>, AllocError>
    ensures { IfOk result (λ line. line.items ≡ page_row (row.now.node.items
        ∷ row.now.time.items ∷ row.now.shown.value.items ∷ row.now.shown.status.items
        ∷ row.now.made.change.items ∷ row.now.made.changed.items ∷ row.now.made.user.items ∷ [])) }
{
    let shown = Shown {
        time: row.time.as_slice(),
        value: row.shown.value.as_slice(),
        status: row.shown.status.as_slice(),
    };
    let made = Made {
        change: row.made.change.as_slice(),
        changed: row.made.changed.as_slice(),
        user: row.made.user.as_slice(),
    };
    change_row(alloc, &shown, &made)
}

/// Appends a modification as a row of a page.
fn put_change_page(
    alloc: Global,
    report: &Report,
    entry: &Entry,
    out: &mut Vec<u8>,
) -> Result<(), TextFault>
    ensures written { OnOk result (IsPut out.old.items out.new.items
        (λ line. (fields : List (List ℕ)) × (line ≡ page_row fields)
        × AreChangeFields report.now.node entry.now fields)) }
    ensures refused { IfErr result (IsWhy (ShowsTextless entry.now.value)) }
    ensures kept { OnErr result (out.new.items ≡ out.old.items) }
{
    let row = change_texts(alloc, &report.node, entry)?;
    let line = row_of_change(alloc, &row)?;
    out.extend_from_slice(line.as_slice())?;
    Ok(())
}

/// Appends a modification as a line. `NoText` says that it shows a value that has no text, and
/// `OutOfMemory` that memory ran out; then nothing is appended.
pub(crate) fn put_change_line(
    alloc: Global,
    report: &Report,
    entry: &Entry,
    out: &mut Vec<u8>,
) -> Result<(), TextFault>
    ensures written { OnOk result
        (IsPut out.old.items out.new.items (IsChangeLine report.now entry.now)) }
    ensures refused { IfErr result (IsWhy (ShowsTextless entry.now.value)) }
    ensures kept { OnErr result (out.new.items ≡ out.old.items) }
{
    match report.form {
        Form::Table => put_change_shown(alloc, report, entry, out),
        Form::Csv => put_change_row(alloc, out, &report.node, entry),
        Form::Page => put_change_page(alloc, report, entry, out),
    }
}
