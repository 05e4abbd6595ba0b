//! The drawing of a page's values.

ghost use Rattle.std.specs.Prelude.{◌≡◌, IsErrOf, OnOk};
ghost use Rattle.archive.specs.Store.{IsAskedWithin};
ghost use Rattle.history_report.specs.Html.{IsDrawing};
ghost use Rattle.history_report.specs.Paging.{IsPut, Walks};

use crate::fault::ReportFault;
use crate::figure::put_figure;
use crate::pages::{Pages, next_values};
use crate::report::{Form, Report};
use crate::span::span_of;
use crate::trend::{Columns, Edges, Seen, Watch};
use archive::Archive;
use records::Held;
use std::alloc::Global;

/// All of these are seen.
fn see_all<S: Watch>(seeing: &mut S, rows: &[Held]) {
    for row in rows {
        seeing.see(row);
    }
}

/// All live values that a report asks for are seen, in the order of time.
fn walk<A: Archive, S: Watch>(
    alloc: Global,
    archive: &mut A,
    report: &Report,
    pages: &mut Pages,
    seeing: &mut S,
) -> Result<(), ReportFault>
    ensures walks { Walks (A.state archive.old) (A.state archive.new) result }
    ensures asked { IsAskedWithin 8 (A.asked archive.old) (A.asked archive.new) }
    ensures own { IsErrOf result ReportFault.Write → ⊥ }
    ensures same { pages.new.within ≡ pages.old.within }
{
    pages.span = span_of(report);
    for _ in 0..u64::MAX {
        let page = match next_values(alloc, archive, report, pages) {
            Ok(page) => page,
            Err(fault) => return Err(ReportFault::Store(fault)),
        };
        let rows = page.as_slice();
        if rows.is_empty() {
            return Ok(());
        }
        see_all(seeing, rows);
    }
    Err(ReportFault::OutOfMemory)
}

/// The edges of the numbers that a report asks for, if there is one.
fn edges_of<A: Archive>(
    alloc: Global,
    archive: &mut A,
    report: &Report,
    pages: &mut Pages,
) -> Result<Option<Edges>, ReportFault>
    ensures walks { Walks (A.state archive.old) (A.state archive.new) result }
    ensures asked { IsAskedWithin 8 (A.asked archive.old) (A.asked archive.new) }
    ensures own { IsErrOf result ReportFault.Write → ⊥ }
    ensures same { pages.new.within ≡ pages.old.within }
{
    let mut seen = Seen { edges: None };
    match walk(alloc, archive, report, pages, &mut seen) {
        Ok(()) => Ok(seen.edges),
        Err(fault) => Err(fault),
    }
}

/// The numbers that a report asks for, in columns between these edges.
fn columns_between<A: Archive>(
    alloc: Global,
    archive: &mut A,
    report: &Report,
    pages: &mut Pages,
    edges: Edges,
) -> Result<Columns, ReportFault>
    ensures walks { Walks (A.state archive.old) (A.state archive.new) result }
    ensures asked { IsAskedWithin 8 (A.asked archive.old) (A.asked archive.new) }
    ensures own { IsErrOf result ReportFault.Write → ⊥ }
    ensures same { pages.new.within ≡ pages.old.within }
{
    let mut columns = match Columns::new(alloc, edges) {
        Ok(columns) => columns,
        Err(_) => return Err(ReportFault::OutOfMemory),
    };
    match walk(alloc, archive, report, pages, &mut columns) {
        Ok(()) => Ok(columns),
        Err(fault) => Err(fault),
    }
}

/// Appends the drawing of the numbers that a report asks for; nothing where there is none, and where
/// modifications are asked for.
fn put_numbers<A: Archive>(
    alloc: Global,
    archive: &mut A,
    report: &Report,
    pages: &mut Pages,
    out: &mut Vec<u8>,
) -> Result<(), ReportFault>
    ensures walks { Walks (A.state archive.old) (A.state archive.new) result }
    ensures asked { IsAskedWithin 8 (A.asked archive.old) (A.asked archive.new) }
    ensures own { IsErrOf result ReportFault.Write → ⊥ }
    ensures same { pages.new.within ≡ pages.old.within }
    ensures drawn { OnOk result (IsPut out.old.items out.new.items (IsDrawing report.now)) }
{
    if report.changes {
        return Ok(());
    }
    let found = match edges_of(alloc, archive, report, pages) {
        Ok(found) => found,
        Err(fault) => return Err(fault),
    };
    let Some(edges) = found else {
        return Ok(());
    };
    let columns = match columns_between(alloc, archive, report, pages, edges) {
        Ok(columns) => columns,
        Err(fault) => return Err(fault),
    };
    match put_figure(alloc, &columns, out) {
        Ok(()) => Ok(()),
        Err(_) => Err(ReportFault::OutOfMemory),
    }
}

/// Appends the drawing of a page of live values; nothing where no number is among them, and where the
/// report is no such page.
pub(crate) fn put_drawing<A: Archive>(
    alloc: Global,
    archive: &mut A,
    report: &Report,
    pages: &mut Pages,
    out: &mut Vec<u8>,
) -> Result<(), ReportFault>
    ensures walks { Walks (A.state archive.old) (A.state archive.new) result }
    ensures asked { IsAskedWithin 8 (A.asked archive.old) (A.asked archive.new) }
    ensures own { IsErrOf result ReportFault.Write → ⊥ }
    ensures same { pages.new.within ≡ pages.old.within }
    ensures drawn { OnOk result (IsPut out.old.items out.new.items (IsDrawing report.now)) }
{
    match report.form {
        Form::Page => put_numbers(alloc, archive, report, pages, out),
        Form::Table | Form::Csv => Ok(()),
    }
}
