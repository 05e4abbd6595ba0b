//! A node's history is printed.

ghost use Rattle.std.specs.Prelude.{◌≡◌, [], IsErrOf};
ghost use Rattle.archive.specs.Store.{IsAskedWithin};
ghost use Rattle.counted_io.specs.Bytes.{counted};
ghost use Rattle.history_csv.specs.Rows.{IsTextless, ShowsTextless};
ghost use Rattle.history_report.specs.Html.{IsDrawing};
ghost use Rattle.history_report.specs.Reports.{Prints, ReadsFor, IsValueLine, IsChangeLine, footer_of};
ghost use Rattle.history_report.specs.Paging.{PrintsLines, PrintsRows, SendsHeader, SendsText, values_left, changes_left};

use crate::drawing::put_drawing;
use crate::fault::ReportFault;
use crate::lines::{footer, put_header};
use crate::pages::{Pages, next_changes, next_values};
use crate::report::Report;
use crate::rows::send_rows;
use crate::span::span_of;
use archive::Archive;
use counted_io::Counted;
use std::alloc::Global;
use std::io::Write;

/// Prints the header, a page's with this drawing.
fn send_header<W: Write>(
    alloc: Global,
    report: &Report,
    drawing: &[u8],
    output: &mut Counted<W>,
) -> Result<(), ReportFault>
    requires { IsDrawing report.now drawing.now }
    ensures sends { SendsHeader report.now (W.contents output.old.inner)
        (W.contents output.new.inner) result }
    ensures write { IsErrOf result ReportFault.Write
        → output.new.faults ≡ counted output.old.faults }
    ensures kept { (IsErrOf result ReportFault.Write → ⊥) → output.new.faults ≡ output.old.faults }
{
    let mut text = Vec::new(alloc);
    match put_header(alloc, report, drawing, &mut text) {
        Ok(()) => {}
        Err(_) => return Err(ReportFault::OutOfMemory),
    }
    match output.send(text.as_slice()) {
        Ok(()) => Ok(()),
        Err(_) => Err(ReportFault::Write),
    }
}

/// Prints the live values of these pages.
fn print_values<A: Archive, W: Write>(
    alloc: Global,
    archive: &mut A,
    report: &Report,
    mut pages: Pages,
    output: &mut Counted<W>,
) -> Result<(), ReportFault>
    ensures prints { ReadsFor (A.state archive.old) (A.state archive.new) result
        (λ R. PrintsLines (IsValueLine report.now) (λ h. IsTextless h.value.value) []
        (values_left report.now.node pages R) (W.contents output.old.inner)
        (W.contents output.new.inner) result) }
    ensures asked { IsAskedWithin 8 (A.asked archive.old) (A.asked archive.new) }
    ensures write { IsErrOf result ReportFault.Write
        → output.new.faults ≡ counted output.old.faults }
    ensures kept { (IsErrOf result ReportFault.Write → ⊥) → output.new.faults ≡ output.old.faults }
{
    let mut text = Vec::new(alloc);
    for _ in 0..u64::MAX {
        let page = match next_values(alloc, archive, report, &mut pages) {
            Ok(page) => page,
            Err(fault) => return Err(ReportFault::Store(fault)),
        };
        let rows = page.as_slice();
        if rows.is_empty() {
            return Ok(());
        }
        match send_rows(alloc, report, rows, &mut text, output) {
            Ok(()) => {}
            Err(fault) => return Err(fault),
        }
    }
    Err(ReportFault::OutOfMemory)
}

/// Prints the modifications of these pages.
fn print_changes<A: Archive, W: Write>(
    alloc: Global,
    archive: &mut A,
    report: &Report,
    mut pages: Pages,
    output: &mut Counted<W>,
) -> Result<(), ReportFault>
    ensures prints { ReadsFor (A.state archive.old) (A.state archive.new) result
        (λ R. PrintsLines (IsChangeLine report.now) (λ e. ShowsTextless e.value) []
        (changes_left report.now.node pages R) (W.contents output.old.inner)
        (W.contents output.new.inner) result) }
    ensures asked { IsAskedWithin 8 (A.asked archive.old) (A.asked archive.new) }
    ensures write { IsErrOf result ReportFault.Write
        → output.new.faults ≡ counted output.old.faults }
    ensures kept { (IsErrOf result ReportFault.Write → ⊥) → output.new.faults ≡ output.old.faults }
{
    let mut text = Vec::new(alloc);
    for _ in 0..u64::MAX {
        let page = match next_changes(alloc, archive, report, &mut pages) {
            Ok(page) => page,
            Err(fault) => return Err(ReportFault::Store(fault)),
        };
        let rows = page.as_slice();
        if rows.is_empty() {
            return Ok(());
        }
        match send_rows(alloc, report, rows, &mut text, output) {
            Ok(()) => {}
            Err(fault) => return Err(fault),
        }
    }
    Err(ReportFault::OutOfMemory)
}

/// Prints the live values or the modifications of these pages.
fn print_rows<A: Archive, W: Write>(
    alloc: Global,
    archive: &mut A,
    report: &Report,
    pages: Pages,
    output: &mut Counted<W>,
) -> Result<(), ReportFault>
    ensures prints { ReadsFor (A.state archive.old) (A.state archive.new) result
        (λ R. PrintsRows report.now pages R (W.contents output.old.inner)
        (W.contents output.new.inner) result) }
    ensures asked { IsAskedWithin 8 (A.asked archive.old) (A.asked archive.new) }
    ensures write { IsErrOf result ReportFault.Write
        → output.new.faults ≡ counted output.old.faults }
    ensures kept { (IsErrOf result ReportFault.Write → ⊥) → output.new.faults ≡ output.old.faults }
{
    if report.changes {
        print_changes(alloc, archive, report, pages, output)
    } else {
        print_values(alloc, archive, report, pages, output)
    }
}

/// Prints the footer.
fn send_footer<W: Write>(report: &Report, output: &mut Counted<W>) -> Result<(), ReportFault>
    ensures sends { SendsText (footer_of report.now) (W.contents output.old.inner)
        (W.contents output.new.inner) result }
    ensures write { IsErrOf result ReportFault.Write
        → output.new.faults ≡ counted output.old.faults }
    ensures kept { (IsErrOf result ReportFault.Write → ⊥) → output.new.faults ≡ output.old.faults }
{
    match output.send(footer(report)) {
        Ok(()) => Ok(()),
        Err(_) => Err(ReportFault::Write),
    }
}

/// Prints a node's history: a header, a line for each live value, or for each modification, whose
/// source time is at `from` or later and before `to`, in the order of time, of one time the newest
/// modification first, and a footer. `form` says what these are: `Form` has them. The archive stays
/// as it is. At most eight values are in memory at a time, and of what is written of them
/// 64 KiB and a line.
///
/// Errors: `Store` where the archive met a fault of its store, `NoText` where the next value has no
/// text (all lines before it stand), `Write` where a write failed (the writer's `faults` rose),
/// `OutOfMemory` where memory was wanting. What was printed stands, a first part of the whole;
/// after any of them a page has no end, and a browser shows what there is of it.
pub fn print_report<A: Archive, W: Write>(
    alloc: Global,
    archive: &mut A,
    report: &Report,
    output: &mut Counted<W>,
) -> Result<(), ReportFault>
    ensures prints { Prints report.now (A.state archive.old) (A.state archive.new)
        (W.contents output.old.inner) (W.contents output.new.inner) result }
    ensures asked { IsAskedWithin 8 (A.asked archive.old) (A.asked archive.new) }
    ensures write { IsErrOf result ReportFault.Write
        → output.new.faults ≡ counted output.old.faults }
    ensures kept { (IsErrOf result ReportFault.Write → ⊥) → output.new.faults ≡ output.old.faults }
{
    let within = match archive.vector() {
        Ok(within) => within,
        Err(fault) => return Err(ReportFault::Store(fault)),
    };
    let mut pages = Pages {
        within,
        span: span_of(report),
        after: None,
    };
    let mut drawing = Vec::new(alloc);
    match put_drawing(alloc, archive, report, &mut pages, &mut drawing) {
        Ok(()) => {}
        Err(fault) => return Err(fault),
    }
    match send_header(alloc, report, drawing.as_slice(), output) {
        Ok(()) => {}
        Err(fault) => return Err(fault),
    }
    pages.span = span_of(report);
    pages.after = None;
    match print_rows(alloc, archive, report, pages, output) {
        Ok(()) => send_footer(report, output),
        Err(fault) => Err(fault),
    }
}
