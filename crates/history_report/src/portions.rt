//! A history that is made portion by portion.

ghost use Rattle.std.specs.Prelude.{◌≡◌, ◌++◌, true, false, Ok, Err, IfErr, OnOk, OnErr, IsErrOf, MatchResult};
ghost use Rattle.archive.specs.Store.{IsAskedWithin};
ghost use Rattle.history_report.specs.Html.{IsDrawing};
ghost use Rattle.history_report.specs.Reports.{IsHeader, ReadsFor, footer_of};
ghost use Rattle.history_report.specs.Paging.{IsPut, values_left, changes_left, fault_told};
ghost use Rattle.history_report.specs.Portions.{PutsRows, PutsValues, PutsChanges, TakesPortion, ending, kept_behind, left_of};

use crate::drawing::put_drawing;
use crate::fault::ReportFault;
use crate::lines::{footer, put_header};
use crate::pages::{Pages, first_changes, first_values, go_behind, span_behind};
use crate::report::Report;
use crate::rows::{LONG, Row};
use crate::span::span_of;
use archive::Archive;
use history_text::TextFault;
use std::alloc::Global;
use std::marker::Model;

/// A history that is made portion by portion, of the records that were held when it began: a thread
/// that serves others too makes a portion, and turns to them.
#[derive(Debug, Drop)]
pub struct Portions {
    report: Report,
    pages: Pages,
}

impl Model for Portions {
    ghost use Rattle.history_report.specs.Portions.{Remainder};

    ghost Value = { Remainder };

    ghost view = { λ p. record { report = p.report; pages = p.pages } };
}

/// Appends the header, a page's with this drawing; nothing where memory is wanting.
fn append_header(
    alloc: Global,
    report: &Report,
    drawing: &[u8],
    out: &mut Vec<u8>,
) -> Result<(), ReportFault>
    requires { IsDrawing report.now drawing.now }
    ensures written { OnOk result (IsPut out.old.items out.new.items (IsHeader report.now)) }
    ensures kept { OnErr result (out.new.items ≡ out.old.items) }
    ensures why { IfErr result (λ why. why ≡ ReportFault.OutOfMemory) }
{
    let mut text = Vec::new(alloc);
    match put_header(alloc, report, drawing, &mut text) {
        Ok(()) => {}
        Err(_) => return Err(ReportFault::OutOfMemory),
    }
    match out.extend_from_slice(text.as_slice()) {
        Ok(()) => Ok(()),
        Err(_) => Err(ReportFault::OutOfMemory),
    }
}

/// Appends the footer, and tells that nothing is left; nothing where memory is wanting.
fn append_footer(report: &Report, out: &mut Vec<u8>) -> Result<bool, ReportFault>
    ensures { MatchResult result
        (λ more. (more ≡ false) × (out.new.items ≡ out.old.items ++ footer_of report.now))
        (λ why. (why ≡ ReportFault.OutOfMemory) × (out.new.items ≡ out.old.items)) }
{
    match out.extend_from_slice(footer(report)) {
        Ok(()) => Ok(false),
        Err(_) => Err(ReportFault::OutOfMemory),
    }
}

/// What ends a portion, by why a line wasn't put. Where memory is wanting, what stands behind
/// `start` is taken back.
fn take_back(fault: TextFault, start: usize, out: &mut Vec<u8>) -> ReportFault
    ensures told { result ≡ fault_told fault }
    ensures kept { out.new.items ≡ kept_behind fault start out.old.items }
{
    match fault {
        TextFault::NoText => ReportFault::NoText,
        _ => {
            out.truncate(start);
            ReportFault::OutOfMemory
        }
    }
}

/// Appends a line for each of the first rows, up to one that has no text, or where the lines are
/// 64 KiB or longer, and tells of how many; nothing where memory is wanting.
fn append_rows<T: Row>(
    alloc: Global,
    report: &Report,
    rows: &[T],
    out: &mut Vec<u8>,
) -> Result<usize, ReportFault>
    ensures { PutsRows (T.is_line report.now) T.is_textless rows.now
        out.old.items out.new.items result }
{
    let start = out.len();
    let mut count = 0usize;
    for row in rows {
        match row.put_line(alloc, report, out) {
            Ok(()) => {}
            Err(fault) => return Err(take_back(fault, start, out)),
        }
        count += 1;
        if out.len().saturating_sub(start) >= LONG {
            return Ok(count);
        }
    }
    Ok(count)
}

/// Appends the lines of the next live values; false: none was left, and the footer was appended.
fn append_values<A: Archive>(
    alloc: Global,
    archive: &mut A,
    report: &Report,
    pages: &mut Pages,
    out: &mut Vec<u8>,
) -> Result<bool, ReportFault>
    ensures takes { ReadsFor (A.state archive.old) (A.state archive.new) (ending result)
        (λ R. PutsValues report.now (values_left report.now.node pages.old R)
        (values_left report.now.node pages.new R) out.old.items out.new.items result) }
    ensures same { pages.new.within ≡ pages.old.within }
    ensures kept { OnErr result (pages.new ≡ pages.old) }
    ensures asked { IsAskedWithin 8 (A.asked archive.old) (A.asked archive.new) }
    ensures own { IsErrOf result ReportFault.Write → ⊥ }
{
    let page = match first_values(alloc, archive, report, pages) {
        Ok(page) => page,
        Err(fault) => return Err(ReportFault::Store(fault)),
    };
    let rows = page.as_slice();
    if rows.is_empty() {
        return append_footer(report, out);
    }
    match append_rows(alloc, report, rows, out) {
        Ok(count) => {
            pages.span = span_behind(pages.span, &rows[..count]);
            Ok(true)
        }
        Err(fault) => Err(fault),
    }
}

/// Appends the lines of the next modifications; false: none was left, and the footer was appended.
fn append_changes<A: Archive>(
    alloc: Global,
    archive: &mut A,
    report: &Report,
    pages: &mut Pages,
    out: &mut Vec<u8>,
) -> Result<bool, ReportFault>
    ensures takes { ReadsFor (A.state archive.old) (A.state archive.new) (ending result)
        (λ R. PutsChanges report.now (changes_left report.now.node pages.old R)
        (changes_left report.now.node pages.new R) out.old.items out.new.items result) }
    ensures same { pages.new.within ≡ pages.old.within }
    ensures kept { OnErr result (pages.new ≡ pages.old) }
    ensures asked { IsAskedWithin 8 (A.asked archive.old) (A.asked archive.new) }
    ensures own { IsErrOf result ReportFault.Write → ⊥ }
{
    let page = match first_changes(alloc, archive, report, pages) {
        Ok(page) => page,
        Err(fault) => return Err(ReportFault::Store(fault)),
    };
    let rows = page.as_slice();
    if rows.is_empty() {
        return append_footer(report, out);
    }
    match append_rows(alloc, report, rows, out) {
        Ok(count) => {
            go_behind(pages, &rows[..count]);
            Ok(true)
        }
        Err(fault) => Err(fault),
    }
}

/// Appends the lines of the next of what a report asks for; false: none was left, and the footer was
/// appended.
fn append_page<A: Archive>(
    alloc: Global,
    archive: &mut A,
    report: &Report,
    pages: &mut Pages,
    out: &mut Vec<u8>,
) -> Result<bool, ReportFault>
    ensures takes { TakesPortion (left_of report.now pages.old) (left_of report.now pages.new)
        (A.state archive.old) (A.state archive.new) out.old.items out.new.items result }
    ensures same { pages.new.within ≡ pages.old.within }
    ensures kept { OnErr result (pages.new ≡ pages.old) }
    ensures asked { IsAskedWithin 8 (A.asked archive.old) (A.asked archive.new) }
    ensures own { IsErrOf result ReportFault.Write → ⊥ }
{
    if report.changes {
        append_changes(alloc, archive, report, pages, out)
    } else {
        append_values(alloc, archive, report, pages, out)
    }
}

impl Portions {
    ghost use Rattle.history_report.specs.Portions.{Begins, IsOfSame};

    /// Begins: appends the header, a page's with the drawing of its values. The records that the
    /// archive holds now are those that the history is of, whatever it learns later.
    ///
    /// Errors: `Store` where the archive met a fault of its store, `OutOfMemory` where memory was
    /// wanting; then nothing is appended.
    pub fn begin<A: Archive>(
        alloc: Global,
        archive: &mut A,
        report: Report,
        out: &mut Vec<u8>,
    ) -> Result<Portions, ReportFault>
        ensures begins { Begins report (A.state archive.old) (A.state archive.new) result }
        ensures header { OnOk result (IsPut out.old.items out.new.items (IsHeader report)) }
        ensures kept { OnErr result (out.new.items ≡ out.old.items) }
        ensures asked { IsAskedWithin 8 (A.asked archive.old) (A.asked archive.new) }
        ensures own { IsErrOf result ReportFault.Write → ⊥ }
    {
        let within = match archive.vector() {
            Ok(within) => within,
            Err(fault) => return Err(ReportFault::Store(fault)),
        };
        let mut pages = Pages {
            within,
            span: span_of(&report),
            after: None,
        };
        let mut drawing = Vec::new(alloc);
        match put_drawing(alloc, archive, &report, &mut pages, &mut drawing) {
            Ok(()) => {}
            Err(fault) => return Err(fault),
        }
        pages.span = span_of(&report);
        pages.after = None;
        match append_header(alloc, &report, drawing.as_slice(), out) {
            Ok(()) => Ok(Portions { report, pages }),
            Err(fault) => Err(fault),
        }
    }

    /// Appends the lines of the next values or modifications, of at most eight, and of fewer where
    /// their lines are 64 KiB or longer, and tells whether there was one; where none was left, it
    /// appends the footer. The archive stays as it is.
    ///
    /// Errors: `Store` where the archive met a fault of its store, `OutOfMemory` where memory was
    /// wanting; then nothing is appended. `NoText` where a value has no text: then the lines before
    /// it are appended. After any of them as much is still to come as before.
    pub fn next<A: Archive>(
        &mut self,
        alloc: Global,
        archive: &mut A,
        out: &mut Vec<u8>,
    ) -> Result<bool, ReportFault>
        ensures takes { TakesPortion self.old self.new (A.state archive.old) (A.state archive.new)
            out.old.items out.new.items result }
        ensures same { IsOfSame self.old self.new }
        ensures kept { OnErr result (self.new ≡ self.old) }
        ensures asked { IsAskedWithin 8 (A.asked archive.old) (A.asked archive.new) }
        ensures own { IsErrOf result ReportFault.Write → ⊥ }
    {
        append_page(alloc, archive, &self.report, &mut self.pages, out)
    }
}
