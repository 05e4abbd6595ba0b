//! The pages of a history, each behind the link of the one before.

use crate::portions::{
    Update, Written, empty_archive, learn, learn_many, moment_of, node_of, printed, report_of,
};
use Form::Page;
use archive::{Archive, StoreFault};
use history_csv::read_moment;
use history_report::{Form, PartFault, Portions, Report, ReportFault};
use records::Moment;
use std::alloc::{AllocError, Global};
use std::test::Fail;

/// What a link begins by.
const LINK: &str = "<p><a href=\"/history?node=";

/// What a line of a value, and of a modification, begins by.
const ROWS: [&str; 2] = ["<tr><td>", "<tr class="];

/// Appends the lines of a page that are its rows, and tells how many they are.
fn put_rows(page: &str, out: &mut Vec<u8>) -> Result<usize, AllocError> {
    let mut count = 0usize;
    let [value, change] = ROWS;
    for line in page.lines() {
        if line.starts_with(value) || line.starts_with(change) {
            out.extend_from_slice(line.as_bytes())?;
            out.push(b'\n')?;
            count = count.saturating_add(1);
        }
    }
    Ok(count)
}

/// Appends a text of a query, whose colons are written as `%3A`.
fn put_decoded(text: &str, out: &mut String) -> Result<(), AllocError> {
    let mut rest = text;
    for _ in 0..8 {
        let Some((before, behind)) = rest.split_once("%3A") else {
            break;
        };
        out.push_str(before)?;
        out.push(':')?;
        rest = behind;
    }
    out.push_str(rest)
}

/// The moment of a text of a query.
fn moment_in(alloc: Global, text: &str) -> Result<Option<Moment>, AllocError> {
    let mut out = String::new(alloc);
    put_decoded(text, &mut out)?;
    Ok(read_moment(out.as_str()))
}

/// The text of the first moment that the link of a page asks for.
fn text_of_from(page: &str) -> Option<&str> {
    let (_, link) = page.split_once(LINK)?;
    let (address, _) = link.split_once('"')?;
    let (_, from) = address.split_once("&amp;from=")?;
    match from.split_once('&') {
        Some((text, _)) => Some(text),
        None => Some(from),
    }
}

/// The first moment that the link of a page asks for.
fn next_from(alloc: Global, page: &str) -> Result<Option<Moment>, AllocError> {
    match text_of_from(page) {
        Some(text) => moment_in(alloc, text),
        None => Ok(None),
    }
}

/// The first moment of a part of the node's history, the second before which it ends, and whether it
/// is of modifications.
type Stretch = (Option<Moment>, Option<i64>, bool);

/// Appends all portions that are left.
fn put_portions<A: Archive>(
    alloc: Global,
    archive: &mut A,
    portions: &mut Portions,
    out: &mut Vec<u8>,
) -> Result<(), PartFault> {
    for _ in 0..1000u32 {
        match portions.next(alloc, archive, out) {
            Ok(true) => {}
            Ok(false) => return Ok(()),
            Err(fault) => return Err(PartFault::Report(fault)),
        }
    }
    Err(PartFault::Report(ReportFault::OutOfMemory))
}

/// Appends the first part of a report, portion by portion.
fn put_part<A: Archive>(
    alloc: Global,
    archive: &mut A,
    report: Report,
    out: &mut Vec<u8>,
) -> Result<(), PartFault> {
    match Portions::begin_part(alloc, archive, report, out) {
        Ok(mut portions) => put_portions(alloc, archive, &mut portions, out),
        Err(fault) => Err(fault),
    }
}

/// Appends a part of the node's history.
fn put_stretch<A: Archive>(
    alloc: Global,
    archive: &mut A,
    stretch: Stretch,
    out: &mut Vec<u8>,
) -> Result<(), PartFault> {
    let (from, to, changes) = stretch;
    let Ok(node) = node_of(alloc, "n") else {
        return Err(PartFault::Report(ReportFault::OutOfMemory));
    };
    let report = Report {
        node,
        from,
        to: to.map(moment_of),
        changes,
        form: Page,
        next: None,
    };
    put_part(alloc, archive, report, out)
}

/// Appends the rows of a page: how many they are, and the moment that its link asks for.
fn put_rows_of(alloc: Global, page: &[u8], rows: &mut Vec<u8>) -> Option<(usize, Option<Moment>)> {
    let page = str::from_utf8(page).ok()?;
    let count = put_rows(page, rows).ok()?;
    Some((count, next_from(alloc, page).ok()?))
}

/// The same of the page from a moment on.
fn put_rows_from<A: Archive>(
    alloc: Global,
    archive: &mut A,
    from: Option<Moment>,
    changes: bool,
    rows: &mut Vec<u8>,
) -> Option<(usize, Option<Moment>)> {
    let mut out = Vec::new(alloc);
    match put_stretch(alloc, archive, (from, None, changes), &mut out) {
        Ok(()) => put_rows_of(alloc, out.as_slice(), rows),
        Err(_) => None,
    }
}

/// Whether the pages of the node's history, each by the link of the one before, have so many rows
/// each, and no link behind the last; appends their rows.
fn put_walk<A: Archive>(
    alloc: Global,
    archive: &mut A,
    changes: bool,
    counts: &[usize],
    rows: &mut Vec<u8>,
) -> bool {
    let mut from = None;
    let mut is_over = false;
    for wanted in counts {
        let Some((count, next)) = put_rows_from(alloc, archive, from, changes, rows) else {
            return false;
        };
        if is_over || count != *wanted {
            return false;
        }
        is_over = next.is_none();
        from = next;
    }
    is_over
}

/// Whether the rows are those of a page.
fn are_rows_of(alloc: Global, rows: &[u8], page: &[u8]) -> bool {
    let mut all = Vec::new(alloc);
    put_rows_of(alloc, page, &mut all).is_some() && rows == all.as_slice()
}

/// Whether the rows are those of the page that is printed of all modifications.
fn are_all_rows<A: Archive>(alloc: Global, archive: &mut A, rows: &[u8]) -> bool {
    match report_of(alloc, true, Page) {
        Ok(report) => {
            let (_, whole) = printed(alloc, archive, &report);
            are_rows_of(alloc, rows, whole.as_slice())
        }
        Err(_) => false,
    }
}

/// Whether a row is a good value of this number.
fn is_numbered(alloc: Global, row: &str, number: u32) -> bool {
    match format!(in alloc; "</td><td>{number}</td><td>Good</td></tr>") {
        Ok(end) => row.ends_with(end.as_str()),
        Err(_) => false,
    }
}

/// Whether the lines have the values 1, 2, 3 and so on.
fn are_numbered(alloc: Global, text: &str) -> bool {
    let mut number = 0u32;
    for line in text.lines() {
        number = number.saturating_add(1);
        if !is_numbered(alloc, line, number) {
            return false;
        }
    }
    true
}

/// Whether the rows are those of all modifications as they are printed, or of the values 1, 2, 3 and
/// so on.
fn are_good_rows<A: Archive>(alloc: Global, archive: &mut A, changes: bool, rows: &[u8]) -> bool {
    if changes {
        return are_all_rows(alloc, archive, rows);
    }
    match str::from_utf8(rows) {
        Ok(text) => are_numbered(alloc, text),
        Err(_) => false,
    }
}

/// Whether the pages of the node's history lead on so, and have all of its rows.
fn leads_on<A: Archive>(alloc: Global, archive: &mut A, changes: bool, counts: &[usize]) -> bool {
    let mut rows = Vec::new(alloc);
    put_walk(alloc, archive, changes, counts, &mut rows)
        && are_good_rows(alloc, archive, changes, rows.as_slice())
}

/// Histories of 501 values: before which second each ends, whether it is of modifications, and the
/// line of its first page's link.
static LINKS: [((Option<i64>, bool), &str); 4] = [
    (
        (None, false),
        "\n<p><a href=\"/history?node=ns%3D1%3Bs%3Dn&amp;from=2026-03-01T12%3A08%3A21.0000000Z\">Next page</a></p>\n",
    ),
    (
        (Some(1203), false),
        "\n<p><a href=\"/history?node=ns%3D1%3Bs%3Dn&amp;from=2026-03-01T12%3A08%3A21.0000000Z&amp;to=2026-03-01T12%3A20%3A03.0000000Z\">Next page</a></p>\n",
    ),
    (
        (None, true),
        "\n<p><a href=\"/history?node=ns%3D1%3Bs%3Dn&amp;from=2026-03-01T12%3A08%3A21.0000000Z&amp;changes=true\">Next page</a></p>\n",
    ),
    (
        (Some(1203), true),
        "\n<p><a href=\"/history?node=ns%3D1%3Bs%3Dn&amp;from=2026-03-01T12%3A08%3A21.0000000Z&amp;to=2026-03-01T12%3A20%3A03.0000000Z&amp;changes=true\">Next page</a></p>\n",
    ),
];

/// Whether a page has this line, and stands behind what was there.
fn is_linked(page: &[u8], line: &str) -> bool {
    match str::from_utf8(page) {
        Ok(page) => {
            page.starts_with("before\n<!DOCTYPE html>\n")
                && page.contains(line)
                && page.ends_with("</html>\n")
        }
        Err(_) => false,
    }
}

/// Appends a part of the node's history behind a line.
fn put_behind<A: Archive>(
    alloc: Global,
    archive: &mut A,
    stretch: Stretch,
    out: &mut Vec<u8>,
) -> Result<(), PartFault> {
    if out.extend_from_slice(b"before\n").is_err() {
        return Err(PartFault::Report(ReportFault::OutOfMemory));
    }
    put_stretch(alloc, archive, stretch, out)
}

/// Whether the first page of a history has this line, and stands behind what was there.
fn has_link<A: Archive>(
    alloc: Global,
    archive: &mut A,
    case: (Option<i64>, bool),
    line: &str,
) -> bool {
    let mut out = Vec::new(alloc);
    put_behind(alloc, archive, (None, case.0, case.1), &mut out).is_ok()
        && is_linked(out.as_slice(), line)
}

/// Whether each of these histories has its line.
fn are_linked<A: Archive>(alloc: Global, archive: &mut A) -> bool {
    for (case, line) in &LINKS {
        if !has_link(alloc, archive, *case, line) {
            return false;
        }
    }
    true
}

/// Whether a page has so many rows and no link.
fn has_rows(alloc: Global, page: &[u8], count: usize) -> bool {
    let mut rows = Vec::new(alloc);
    put_rows_of(alloc, page, &mut rows) == Some((count, None))
        && match str::from_utf8(page) {
            Ok(text) => !text.contains("href="),
            Err(_) => false,
        }
}

/// Whether a page is what is printed of a history.
fn is_printed<A: Archive>(alloc: Global, archive: &mut A, changes: bool, page: &[u8]) -> bool {
    match report_of(alloc, changes, Page) {
        Ok(report) => {
            let (ended, whole) = printed(alloc, archive, &report);
            ended.is_ok() && page == whole.as_slice()
        }
        Err(_) => false,
    }
}

/// Whether a history's first page is what is printed of it, of so many rows and with no link.
fn is_one_page<A: Archive>(alloc: Global, archive: &mut A, changes: bool, count: usize) -> bool {
    let mut out = Vec::new(alloc);
    put_stretch(alloc, archive, (None, None, changes), &mut out).is_ok()
        && has_rows(alloc, out.as_slice(), count)
        && is_printed(alloc, archive, changes, out.as_slice())
}

/// Whether the modifications from a moment on are too many for a page, and nothing is appended.
fn is_crowded<A: Archive>(alloc: Global, archive: &mut A, from: Option<Moment>) -> bool {
    let mut out = Vec::new(alloc);
    put_behind(alloc, archive, (from, None, true), &mut out) == Err(PartFault::Crowded)
        && out.as_slice() == b"before\n".as_slice()
}

/// An update at an earlier moment than the others.
const EARLIER: Update = (502, "n", 0, Written::Number(0));

/// How many rows the first page of modifications has, and the moment that its link asks for.
fn first_rows<A: Archive>(alloc: Global, archive: &mut A) -> Option<(usize, Option<Moment>)> {
    let mut rows = Vec::new(alloc);
    put_rows_from(alloc, archive, None, true, &mut rows)
}

/// Whether the first page of modifications has one row, and its link leads to this moment.
fn is_one_before<A: Archive>(alloc: Global, archive: &mut A, moment: Moment) -> bool {
    first_rows(alloc, archive) == Some((1, Some(moment)))
}

/// Whether a page ends behind that update, and its link leads to those that are too many.
fn ends_before<A: Archive>(alloc: Global, archive: &mut A) -> bool {
    learn(alloc, archive, &EARLIER).is_ok()
        && is_one_before(alloc, archive, moment_of(1))
        && is_crowded(alloc, archive, Some(moment_of(1)))
}

/// What is asked of an archive: whether its pages, of modifications or values, lead on with so many
/// rows each; whether its pages have their links; whether it has one page of so many rows; whether
/// the modifications of its one moment are too many for a page; whether a page ends before them.
#[derive(Clone, Copy)]
enum Asked {
    Pages(bool, &'static [usize]),
    Links,
    OnePage(bool, usize),
    Crowded,
    Before,
}

/// Whether it is so.
fn holds<A: Archive>(alloc: Global, archive: &mut A, asked: Asked) -> bool {
    match asked {
        Asked::Pages(changes, counts) => leads_on(alloc, archive, changes, counts),
        Asked::Links => are_linked(alloc, archive),
        Asked::OnePage(changes, count) => is_one_page(alloc, archive, changes, count),
        Asked::Crowded => is_crowded(alloc, archive, None) && is_one_page(alloc, archive, false, 1),
        Asked::Before => ends_before(alloc, archive),
    }
}

/// The same of an archive that was made, and then takes so many updates, so many at each second.
fn holds_over<A: Archive + Drop>(
    alloc: Global,
    made: Result<A, StoreFault>,
    updates: (u64, u64),
    asked: Asked,
) -> bool {
    match made {
        Ok(mut archive) => {
            learn_many(alloc, &mut archive, 1, updates.0, updates.1).is_ok()
                && holds(alloc, &mut archive, asked)
        }
        Err(_) => false,
    }
}

/// The same of a list.
fn holds_of(alloc: Global, count: u64, at_once: u64, asked: Asked) -> bool {
    holds_over(alloc, empty_archive(alloc), (count, at_once), asked)
}

#[test]
fn pages_of_values_lead_on(rt: HostRuntime) -> Result<(), Fail> {
    let asked = Asked::Pages(false, &[500, 203]);
    assert!(rt; holds_of(rt.alloc(), 703, 1, asked));
    Ok(())
}

#[test]
fn pages_of_modifications_lead_on(rt: HostRuntime) -> Result<(), Fail> {
    let asked = Asked::Pages(true, &[498, 205]);
    assert!(rt; holds_of(rt.alloc(), 703, 3, asked));
    Ok(())
}

#[test]
fn links_are_written(rt: HostRuntime) -> Result<(), Fail> {
    assert!(rt; holds_of(rt.alloc(), 501, 1, Asked::Links));
    Ok(())
}

/// Archives of one page: of so many updates, so many at each second; whether of modifications, and
/// how many rows the page has.
static ONE_PAGE: [(u64, u64, bool, usize); 5] = [
    (0, 1, false, 0),
    (500, 1, false, 500),
    (500, 1, true, 500),
    (500, 500, true, 500),
    (600, 3, false, 200),
];

#[test]
fn one_page_has_no_link(rt: HostRuntime) -> Result<(), Fail> {
    for row in &ONE_PAGE {
        let (count, at_once, changes, rows) = *row;
        let good = holds_of(rt.alloc(), count, at_once, Asked::OnePage(changes, rows));
        assert!(rt; good, "{row:?}");
    }
    Ok(())
}

#[test]
fn a_moment_is_crowded(rt: HostRuntime) -> Result<(), Fail> {
    assert!(rt; holds_of(rt.alloc(), 501, 501, Asked::Crowded));
    Ok(())
}

#[test]
fn a_page_ends_before_a_crowded_moment(rt: HostRuntime) -> Result<(), Fail> {
    assert!(rt; holds_of(rt.alloc(), 501, 501, Asked::Before));
    Ok(())
}
