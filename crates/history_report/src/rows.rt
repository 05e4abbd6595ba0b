//! What a line is printed of, and many of them at once.

ghost use Rattle.std.specs.Prelude.{◌≡◌, ◌<◌, [], length, IsErrOf, OnOk};
ghost use Rattle.counted_io.specs.Bytes.{counted};
ghost use Rattle.history_csv.specs.Rows.{IsTextless, ShowsTextless};
ghost use Rattle.history_report.specs.Reports.{IsValueLine, IsChangeLine};
ghost use Rattle.history_report.specs.Paging.{SendsText, SendsFirst, SendsBefore, SendsLines, fault_told, values_left, changes_left};

use crate::fault::ReportFault;
use crate::lines::{put_change_line, put_value_line};
use crate::pages::{Pages, next_changes, next_values};
use crate::report::Report;
use crate::textless::{is_textless, shows_textless};
use archive::{Archive, StoreFault};
use counted_io::Counted;
use history_text::TextFault;
use records::{Entry, Held, Moment};
use std::alloc::Global;
use std::io::Write;

/// How long a text is made before it is printed, or a portion of it ends.
pub(crate) const LONG: usize = 65_536;

/// A live value, or a modification.
pub(crate) trait Row {
    ghost use Rattle.std.specs.Prelude.{◌≡◌, ◌↔◌, ℕ, ℤ, List, IfErr, IsTrue, MatchResult, OnOk, OnErr};
    ghost use Rattle.ua_binary.specs.declared.values.NodeId.{NodeId};
    ghost use Rattle.records.specs.Contents.{Content};
    ghost use Rattle.archive.specs.Store.{IsAskedWithin};
    ghost use Rattle.history_report.specs.declared.pages.Pages.{Pages};
    ghost use Rattle.history_report.specs.declared.report.Report.{Report};
    ghost use Rattle.history_report.specs.Paging.{Fails, GivesPage, IsPut, IsWhy};

    /// What its lines are.
    ghost is_line: { Report → Self → List ℕ → Type 0 };

    /// It shows a value that has no text.
    ghost is_textless: { Self → Type 0 };

    /// Its source time.
    ghost time_of: { Self → ℤ };

    /// Those that are still to come of a node's history.
    ghost left_of: { NodeId → Pages → Content → List Self };

    /// The next page of what is still to come; an empty one is the last.
    fn next_page<A: Archive>(
        alloc: Global,
        archive: &mut A,
        report: &Report,
        pages: &mut Pages,
    ) -> Result<Vec<Self>, StoreFault>
        ensures pages { MatchResult result
            (λ page. GivesPage (A.state archive.old) (A.state archive.new) page.items
            (left_of report.now.node pages.new) (left_of report.now.node pages.old))
            (λ why. Fails (A.state archive.old) (A.state archive.new) why) }
        ensures same { pages.new.within ≡ pages.old.within }
        ensures asked { IsAskedWithin 8 (A.asked archive.old) (A.asked archive.new) };

    /// Whether it shows a value that has no text.
    fn lacks_text(&self) -> bool
        ensures { IsTrue result ↔ is_textless self.now };

    /// Its source time.
    fn time(&self) -> Moment
        ensures { result ≡ time_of self.now };

    /// Appends it as a line. `NoText` says that it shows a value that has no text, and
    /// `OutOfMemory` that memory ran out; then nothing is appended.
    fn put_line(&self, alloc: Global, report: &Report, out: &mut Vec<u8>) -> Result<(), TextFault>
        ensures written { OnOk result
            (IsPut out.old.items out.new.items (is_line report.now self.now)) }
        ensures refused { IfErr result (IsWhy (is_textless self.now)) }
        ensures kept { OnErr result (out.new.items ≡ out.old.items) };
}

impl Row for Held {
    ghost is_line = { IsValueLine };

    ghost is_textless = { λ held. IsTextless held.value.value };

    ghost time_of = { λ held. held.time };

    ghost left_of = { values_left };

    fn next_page<A: Archive>(
        alloc: Global,
        archive: &mut A,
        report: &Report,
        pages: &mut Pages,
    ) -> Result<Vec<Held>, StoreFault> {
        next_values(alloc, archive, report, pages)
    }

    fn lacks_text(&self) -> bool {
        is_textless(&self.value.value)
    }

    fn time(&self) -> Moment {
        self.time
    }

    fn put_line(&self, alloc: Global, report: &Report, out: &mut Vec<u8>) -> Result<(), TextFault> {
        put_value_line(alloc, report, self, out)
    }
}

impl Row for Entry {
    ghost is_line = { IsChangeLine };

    ghost is_textless = { λ entry. ShowsTextless entry.value };

    ghost time_of = { λ entry. entry.time };

    ghost left_of = { changes_left };

    fn next_page<A: Archive>(
        alloc: Global,
        archive: &mut A,
        report: &Report,
        pages: &mut Pages,
    ) -> Result<Vec<Entry>, StoreFault> {
        next_changes(alloc, archive, report, pages)
    }

    fn lacks_text(&self) -> bool {
        shows_textless(&self.value)
    }

    fn time(&self) -> Moment {
        self.time
    }

    fn put_line(&self, alloc: Global, report: &Report, out: &mut Vec<u8>) -> Result<(), TextFault> {
        put_change_line(alloc, report, self, out)
    }
}

/// What ends a report, by why a text wasn't put.
pub(crate) fn fault_of(fault: TextFault) -> ReportFault
    ensures { result ≡ fault_told fault }
{
    match fault {
        TextFault::NoText => ReportFault::NoText,
        _ => ReportFault::OutOfMemory,
    }
}

/// Prints a text, and empties it.
fn send_text<W: Write>(text: &mut Vec<u8>, output: &mut Counted<W>) -> Result<(), ReportFault>
    ensures sends { SendsText text.old.items (W.contents output.old.inner)
        (W.contents output.new.inner) result }
    ensures empty { OnOk result (text.new.items ≡ []) }
    ensures write { IsErrOf result ReportFault.Write
        → output.new.faults ≡ counted output.old.faults }
    ensures kept { (IsErrOf result ReportFault.Write → ⊥) → output.new.faults ≡ output.old.faults }
{
    match output.send(text.as_slice()) {
        Ok(()) => {
            text.clear();
            Ok(())
        }
        Err(_) => Err(ReportFault::Write),
    }
}

/// Prints a text that has grown long, and empties it.
fn send_long<W: Write>(text: &mut Vec<u8>, output: &mut Counted<W>) -> Result<(), ReportFault>
    ensures sends { SendsFirst text.old.items text.new.items (W.contents output.old.inner)
        (W.contents output.new.inner) result }
    ensures short { OnOk result (length text.new.items < 65_536) }
    ensures write { IsErrOf result ReportFault.Write
        → output.new.faults ≡ counted output.old.faults }
    ensures kept { (IsErrOf result ReportFault.Write → ⊥) → output.new.faults ≡ output.old.faults }
{
    if text.len() < LONG {
        Ok(())
    } else {
        send_text(text, output)
    }
}

/// Prints the text of the lines before one that isn't put, and tells why that isn't.
fn send_before<W: Write>(
    fault: TextFault,
    text: &mut Vec<u8>,
    output: &mut Counted<W>,
) -> Result<(), ReportFault>
    ensures sends { SendsBefore (fault_told fault) text.old.items (W.contents output.old.inner)
        (W.contents output.new.inner) result }
    ensures write { IsErrOf result ReportFault.Write
        → output.new.faults ≡ counted output.old.faults }
    ensures kept { (IsErrOf result ReportFault.Write → ⊥) → output.new.faults ≡ output.old.faults }
{
    match send_text(text, output) {
        Ok(()) => Err(fault_of(fault)),
        Err(fault) => Err(fault),
    }
}

/// Prints a line for each row, up to one that can't be put. In `text` stands what is still to be
/// printed: less than `LONG`, and one row.
pub(crate) fn send_rows<T: Row, W: Write>(
    alloc: Global,
    report: &Report,
    rows: &[T],
    text: &mut Vec<u8>,
    output: &mut Counted<W>,
) -> Result<(), ReportFault>
    ensures sends { SendsLines (T.is_line report.now) T.is_textless rows.now
        (W.contents output.old.inner) (W.contents output.new.inner) result }
    ensures write { IsErrOf result ReportFault.Write
        → output.new.faults ≡ counted output.old.faults }
    ensures kept { (IsErrOf result ReportFault.Write → ⊥) → output.new.faults ≡ output.old.faults }
{
    text.clear();
    for row in rows {
        match row.put_line(alloc, report, text) {
            Ok(()) => {}
            Err(fault) => return send_before(fault, text, output),
        }
        match send_long(text, output) {
            Ok(()) => {}
            Err(fault) => return Err(fault),
        }
    }
    send_text(text, output)
}
