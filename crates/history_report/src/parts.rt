//! The first part of a history, which leads to the rest by a link.

ghost use Rattle.std.specs.Prelude.{◌≡◌, ◌↔◌, ◌++◌, IsTrue, true, map, slice_get, OnErr, MatchResult};
ghost use Rattle.archive.specs.Store.{IsAskedWithin};
ghost use Rattle.history_report.specs.Reports.{values_asked, changes_asked};
ghost use Rattle.history_report.specs.Paging.{values_left, changes_left};
ghost use Rattle.history_report.specs.Parts.{part_up_to, end_between, HasOne, HasTextless, IsFirstPart, PartHasTextless, AreCrowded, AsksForPart, IsPartEnd, AreFirstTimes};

use crate::fault::{PartFault, ReportFault};
use crate::pages::{Pages, next_changes, next_values};
use crate::portions::Portions;
use crate::report::{Next, Report};
use crate::rows::Row;
use crate::span::span_of;
use archive::Archive;
use records::{Entry, Held, Moment};
use std::alloc::Global;

/// The most rows of a part.
const MOST: usize = 500;

/// How many times are seen: those of a part's rows, and the next one's.
const SEEN: usize = 501;

/// The time at a place.
fn time_at(times: &[Moment], place: usize) -> Option<Moment>
    ensures { result ≡ slice_get times.now place }
{
    match times.get(place) {
        Some(time) => Some(*time),
        None => None,
    }
}

/// Appends the times of some rows.
fn push_times<T: Row>(rows: &[T], times: &mut Vec<Moment>) -> Result<(), PartFault>
    ensures { MatchResult result
        (λ done. times.new.items ≡ times.old.items ++ map T.time_of rows.now)
        (λ why. why ≡ PartFault.Report ReportFault.OutOfMemory) }
{
    for row in rows {
        match times.push(row.time()) {
            Ok(()) => {}
            Err(_) => return Err(PartFault::Report(ReportFault::OutOfMemory)),
        }
    }
    Ok(())
}

/// The times of the first live values of these pages: of all of them, or of 501 at least. Of the
/// values themselves no more than a page is in memory.
fn value_times<A: Archive>(
    alloc: Global,
    archive: &mut A,
    report: &Report,
    mut pages: Pages,
) -> Result<Vec<Moment>, PartFault>
    ensures reads { AsksForPart (A.state archive.old) (A.state archive.new) result (λ R. ⊥) (λ R. ⊥)
        (λ times R. AreFirstTimes (map (λ h. h.time) (values_left report.now.node pages R))
        times.items) }
    ensures asked { IsAskedWithin 8 (A.asked archive.old) (A.asked archive.new) }
{
    let mut times = Vec::new(alloc);
    for _ in 0..SEEN {
        let page = match next_values(alloc, archive, report, &mut pages) {
            Ok(page) => page,
            Err(fault) => return Err(PartFault::Report(ReportFault::Store(fault))),
        };
        let rows = page.as_slice();
        if rows.is_empty() {
            return Ok(times);
        }
        match push_times(rows, &mut times) {
            Ok(()) => {}
            Err(fault) => return Err(fault),
        }
        if times.len() >= SEEN {
            return Ok(times);
        }
    }
    Ok(times)
}

/// The times of the first modifications of these pages: of all of them, or of 501 at least. Of the
/// modifications themselves no more than a page is in memory.
fn change_times<A: Archive>(
    alloc: Global,
    archive: &mut A,
    report: &Report,
    mut pages: Pages,
) -> Result<Vec<Moment>, PartFault>
    ensures reads { AsksForPart (A.state archive.old) (A.state archive.new) result (λ R. ⊥) (λ R. ⊥)
        (λ times R. AreFirstTimes (map (λ e. e.time) (changes_left report.now.node pages R))
        times.items) }
    ensures asked { IsAskedWithin 8 (A.asked archive.old) (A.asked archive.new) }
{
    let mut times = Vec::new(alloc);
    for _ in 0..SEEN {
        let page = match next_changes(alloc, archive, report, &mut pages) {
            Ok(page) => page,
            Err(fault) => return Err(PartFault::Report(ReportFault::Store(fault))),
        };
        let rows = page.as_slice();
        if rows.is_empty() {
            return Ok(times);
        }
        match push_times(rows, &mut times) {
            Ok(()) => {}
            Err(fault) => return Err(fault),
        }
        if times.len() >= SEEN {
            return Ok(times);
        }
    }
    Ok(times)
}

/// The end of a first part, by the times of the first row and of the 501st: there is none where
/// these are one, and none is needed where there is no 501st.
fn end_between(first: Option<Moment>, last: Option<Moment>) -> Result<Option<Moment>, PartFault>
    ensures { result ≡ end_between first last }
{
    match (first, last) {
        (Some(first), Some(last)) => {
            if first == last {
                Err(PartFault::Crowded)
            } else {
                Ok(Some(last))
            }
        }
        _ => Ok(None),
    }
}

/// The end of the first part of the live values that a report asks for.
fn end_of_values<A: Archive>(
    alloc: Global,
    archive: &mut A,
    report: &Report,
) -> Result<Option<Moment>, PartFault>
    ensures reads { AsksForPart (A.state archive.old) (A.state archive.new) result (λ R. ⊥) (λ R. ⊥)
        (λ end R. IsPartEnd (map (λ h. h.time) (values_asked R report.now)) end) }
    ensures asked { IsAskedWithin 8 (A.asked archive.old) (A.asked archive.new) }
{
    let within = match archive.vector() {
        Ok(within) => within,
        Err(fault) => return Err(PartFault::Report(ReportFault::Store(fault))),
    };
    let pages = Pages {
        within,
        span: span_of(report),
        after: None,
    };
    match value_times(alloc, archive, report, pages) {
        Ok(times) => Ok(time_at(times.as_slice(), MOST)),
        Err(fault) => Err(fault),
    }
}

/// The end of the first part of the modifications that a report asks for.
fn end_of_changes<A: Archive>(
    alloc: Global,
    archive: &mut A,
    report: &Report,
) -> Result<Option<Moment>, PartFault>
    ensures reads { AsksForPart (A.state archive.old) (A.state archive.new) result
        (λ R. AreCrowded (changes_asked R report.now)) (λ R. ⊥)
        (λ end R. IsPartEnd (map (λ e. e.time) (changes_asked R report.now)) end) }
    ensures asked { IsAskedWithin 8 (A.asked archive.old) (A.asked archive.new) }
{
    let within = match archive.vector() {
        Ok(within) => within,
        Err(fault) => return Err(PartFault::Report(ReportFault::Store(fault))),
    };
    let pages = Pages {
        within,
        span: span_of(report),
        after: None,
    };
    let found = match change_times(alloc, archive, report, pages) {
        Ok(times) => times,
        Err(fault) => return Err(fault),
    };
    let times = found.as_slice();
    end_between(time_at(times, 0), time_at(times, MOST))
}

/// The end of the first part of a report.
fn end_of<A: Archive>(
    alloc: Global,
    archive: &mut A,
    report: &Report,
) -> Result<Option<Moment>, PartFault>
    ensures reads { AsksForPart (A.state archive.old) (A.state archive.new) result
        (λ R. (report.now.changes ≡ true) × AreCrowded (changes_asked R report.now)) (λ R. ⊥)
        (λ end R. IsFirstPart R report.now (part_up_to report.now end)) }
    ensures asked { IsAskedWithin 8 (A.asked archive.old) (A.asked archive.new) }
{
    if report.changes {
        end_of_changes(alloc, archive, report)
    } else {
        end_of_values(alloc, archive, report)
    }
}

/// The part of a report before a moment, with a link to the rest; all of it where there is none.
fn part_up_to(report: Report, end: Option<Moment>) -> Report
    ensures { result ≡ part_up_to report end }
{
    let mut part = report;
    if let Some(time) = end {
        part.next = Some(Next {
            from: time,
            to: part.to,
        });
        part.to = Some(time);
    }
    part
}

/// Whether one of these rows shows a value that has no text.
fn one_lacks_text<T: Row>(rows: &[T]) -> bool
    ensures { IsTrue result ↔ HasOne T.is_textless rows.now }
{
    for row in rows {
        if row.lacks_text() {
            return true;
        }
    }
    false
}

/// Sees that each value that the rows of these pages show has a text. It asks for all of them, a
/// page at a time, and keeps none; the archive stays as it is.
///
/// Errors, each in `Report`: `NoText` where a value has none, `Store` where the archive met a fault
/// of its store, `OutOfMemory` where the pages don't end. So `Ok` says that each value has a text.
fn check_rows<A: Archive, T: Row + Drop>(
    alloc: Global,
    archive: &mut A,
    report: &Report,
    mut pages: Pages,
) -> Result<(), PartFault>
    ensures reads { AsksForPart (A.state archive.old) (A.state archive.new) result (λ R. ⊥)
        (λ R. HasOne T.is_textless (T.left_of report.now.node pages R))
        (λ done R. ¬ HasOne T.is_textless (T.left_of report.now.node pages R)) }
    ensures asked { IsAskedWithin 8 (A.asked archive.old) (A.asked archive.new) }
{
    for _ in 0..u64::MAX {
        let page = match T::next_page(alloc, archive, report, &mut pages) {
            Ok(page) => page,
            Err(fault) => return Err(PartFault::Report(ReportFault::Store(fault))),
        };
        let rows = page.as_slice();
        if rows.is_empty() {
            return Ok(());
        }
        if one_lacks_text(rows) {
            return Err(PartFault::Report(ReportFault::NoText));
        }
    }
    Err(PartFault::Report(ReportFault::OutOfMemory))
}

/// Sees that each value that the rows of a report show has a text, of the records that the archive
/// holds now; the archive stays as it is. Nothing is made of the rows.
///
/// Errors, each in `Report`: `NoText` where a value has none, `Store` where the archive met a fault
/// of its store, `OutOfMemory` where its pages don't end. So `Ok` says that each value has a text.
fn check_report<A: Archive>(
    alloc: Global,
    archive: &mut A,
    report: &Report,
) -> Result<(), PartFault>
    ensures reads { AsksForPart (A.state archive.old) (A.state archive.new) result (λ R. ⊥)
        (λ R. HasTextless R report.now) (λ done R. ¬ HasTextless R report.now) }
    ensures asked { IsAskedWithin 8 (A.asked archive.old) (A.asked archive.new) }
{
    let within = match archive.vector() {
        Ok(within) => within,
        Err(fault) => return Err(PartFault::Report(ReportFault::Store(fault))),
    };
    let pages = Pages {
        within,
        span: span_of(report),
        after: None,
    };
    if report.changes {
        check_rows::<A, Entry>(alloc, archive, report, pages)
    } else {
        check_rows::<A, Held>(alloc, archive, report, pages)
    }
}

impl Portions {
    ghost use Rattle.history_report.specs.Portions.{BeginsPart};

    /// Begins the first part of a history, of at most 500 values or modifications. Before it
    /// appends anything it finds where the part ends, and sees that each value that its rows show
    /// has a text. Then it appends the part's header alone, a page's with the drawing of that
    /// part's values: the rows and the footer come by `next`, of the records that the archive holds
    /// now.
    ///
    /// Where there are more than 500, the part ends before the time of the 501st, and a page's
    /// header has a link to the history from that moment on; else the part is all of the history.
    /// The archive stays as it is. At most eight values are in memory at a time, and the times of
    /// 508.
    ///
    /// Errors, after which nothing is appended: `Crowded` where the first 501 modifications are of
    /// one moment, for a part ends between two moments; and `Report` with `NoText` where a value
    /// that the part shows has no text, with `Store` where the archive met a fault of its store,
    /// with `OutOfMemory` where memory was wanting. It is never `Report` with `Write`.
    pub fn begin_part<A: Archive>(
        alloc: Global,
        archive: &mut A,
        report: Report,
        out: &mut Vec<u8>,
    ) -> Result<Portions, PartFault>
        ensures begins { AsksForPart (A.state archive.old) (A.state archive.new) result
            (λ R. (report.changes ≡ true) × AreCrowded (changes_asked R report))
            (λ R. PartHasTextless R report)
            (λ left R. BeginsPart report left R out.old.items out.new.items) }
        ensures kept { OnErr result (out.new.items ≡ out.old.items) }
        ensures asked { IsAskedWithin 8 (A.asked archive.old) (A.asked archive.new) }
    {
        let end = match end_of(alloc, archive, &report) {
            Ok(end) => end,
            Err(fault) => return Err(fault),
        };
        let part = part_up_to(report, end);
        match check_report(alloc, archive, &part) {
            Ok(()) => {}
            Err(fault) => return Err(fault),
        }
        match Portions::begin(alloc, archive, part, out) {
            Ok(portions) => Ok(portions),
            Err(fault) => Err(PartFault::Report(fault)),
        }
    }
}
