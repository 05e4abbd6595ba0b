//! A node's history, printed.

use Form::{Csv, Page, Table};
use HistoryUpdateType::{Delete, Insert, Replace};
use archive::{Archive, LearnFault, ListArchive, StoreFault};
use counted_io::Counted;
use history_csv::read_node;
use history_report::{Form, Report, ReportFault, print_report};
use records::{Moment, Record};
use stamp::ReplicaNo;
use std::alloc::{AllocError, Global};
use ua_binary::{NodeId, Text};
use ua_variant::{DataValue, HistoryUpdateType, Scalar, Variant};
use uuid::Uuid;

/// 2026-03-01T12:00:00Z.
const NOON: i64 = 134_168_400_000_000_000;

/// A second.
const SECOND: i64 = 10_000_000;

/// What is written: a text, so many quotes, or the node of Objects, which has no text.
#[derive(Clone, Copy)]
pub(crate) enum Written {
    Text(&'static str),
    Quotes(u16),
    Objects,
    Nothing,
}

/// An update: its node, seconds behind noon, what was asked, and what is written.
pub(crate) type Row = (&'static str, i64, HistoryUpdateType, Written);

/// A node whose name would be markup.
const MARKED: &str = "ns=1;s=<a href=\"x\">&";

/// Updates, one after the other.
static ROWS: [Row; 9] = [
    ("ns=1;s=T", 1, Insert, Written::Text("one")),
    ("ns=1;s=T", 3, Insert, Written::Text("a,b\x1b[31m\u{9b}m")),
    ("ns=1;s=T", 2, Insert, Written::Text("\u{fc}ber")),
    ("ns=1;s=T", 1, Replace, Written::Text("uno")),
    ("ns=1;s=T", 3, Delete, Written::Nothing),
    ("i=5", 1, Insert, Written::Text("one")),
    ("i=5", 2, Insert, Written::Objects),
    (
        MARKED,
        1,
        Insert,
        Written::Text("<script>alert('1')</script>"),
    ),
    (
        MARKED,
        2,
        Insert,
        Written::Text("a\tb\r\nc\x07\x0c\x7f\u{85}\u{e9}&amp;"),
    ),
];

/// A node by its text.
pub(crate) fn node_of(alloc: Global, text: &str) -> Result<NodeId, StoreFault> {
    match read_node(alloc, text) {
        Ok(node) => Ok(node),
        Err(_) => Err(StoreFault::OutOfMemory),
    }
}

/// A text of so many quotes.
fn quotes(alloc: Global, count: u16) -> Result<Text, AllocError> {
    let mut text = String::new(alloc);
    for _ in 0..count {
        text.push('"')?;
    }
    Text::from_str(alloc, text.as_str())
}

/// What is written, as a value.
fn variant_of(alloc: Global, written: Written) -> Result<Option<Variant>, StoreFault> {
    match written {
        Written::Text(text) => {
            let text = Text::from_str(alloc, text)?;
            Ok(Some(Variant::Scalar(Scalar::String(Some(text)))))
        }
        Written::Quotes(count) => {
            let text = quotes(alloc, count)?;
            Ok(Some(Variant::Scalar(Scalar::String(Some(text)))))
        }
        Written::Objects => Ok(Some(Variant::Scalar(Scalar::NodeId(NodeId::Numeric(0, 85))))),
        Written::Nothing => Ok(None),
    }
}

/// The record of an update, of this number.
fn record_of(alloc: Global, number: u64, row: &Row) -> Result<Record, StoreFault> {
    let (node, second, asked, written) = *row;
    let Some(origin) = ReplicaNo::new(1) else {
        return Err(StoreFault::WrongReplica);
    };
    let node = node_of(alloc, node)?;
    let user = Text::from_str(alloc, "ann")?;
    let value = variant_of(alloc, written)?;
    Ok(Record {
        origin,
        number,
        tick: NOON.saturating_add(SECOND.saturating_mul(60i64.saturating_add_unsigned(number))),
        node,
        time: Moment::at(NOON.saturating_add(SECOND.saturating_mul(second))),
        asked,
        user,
        value: DataValue {
            value,
            status: None,
            source_time: None,
            source_pico: None,
            server_time: None,
            server_pico: None,
        },
    })
}

/// What an archive answers to an update.
pub(crate) fn learn<A: Archive>(
    alloc: Global,
    archive: &mut A,
    number: u64,
    row: &Row,
) -> Result<bool, LearnFault> {
    let record = record_of(alloc, number, row)?;
    if record.is_lawful() {
        archive.learn(&record)
    } else {
        Err(LearnFault::Store(StoreFault::Refused))
    }
}

/// An archive that holds nothing.
pub(crate) fn empty_archive(alloc: Global) -> Result<ListArchive, StoreFault> {
    match ReplicaNo::new(1) {
        Some(one) => Ok(ListArchive::new(alloc, Uuid::nil(), one)),
        None => Err(StoreFault::WrongReplica),
    }
}

/// An archive takes all the updates.
fn learn_all<A: Archive>(alloc: Global, archive: &mut A) -> Result<(), LearnFault> {
    let mut number = 0u64;
    for row in &ROWS {
        number = number.saturating_add(1);
        learn(alloc, archive, number, row)?;
    }
    Ok(())
}

/// A report: its node, its first second and its last, whether of modifications, in which form; how
/// it ends, and what is printed.
type Case<'a> = (
    &'static str,
    Option<i64>,
    Option<i64>,
    bool,
    Form,
    Result<(), ReportFault>,
    &'a [u8],
);

/// Reports.
static CASES: [Case<'static>; 9] = [
    (
        "ns=1;s=T",
        None,
        None,
        false,
        Csv,
        Ok(()),
        b"node,time,value,status\n\
          ns=1;s=T,2026-03-01T12:00:01.0000000Z,uno,Good\n\
          ns=1;s=T,2026-03-01T12:00:02.0000000Z,\xc3\xbcber,Good\n",
    ),
    (
        "ns=1;s=T",
        Some(1),
        Some(2),
        false,
        Csv,
        Ok(()),
        b"node,time,value,status\n\
          ns=1;s=T,2026-03-01T12:00:01.0000000Z,uno,Good\n",
    ),
    (
        "ns=1;s=T",
        Some(2),
        Some(2),
        false,
        Csv,
        Ok(()),
        b"node,time,value,status\n",
    ),
    (
        "ns=1;s=T",
        None,
        None,
        false,
        Table,
        Ok(()),
        b"time                          value                     status\n\
          2026-03-01T12:00:01.0000000Z  uno                       Good\n\
          2026-03-01T12:00:02.0000000Z  \xc3\xbcber                      Good\n",
    ),
    (
        "ns=1;s=T",
        None,
        Some(3),
        true,
        Csv,
        Ok(()),
        b"node,time,value,status,change,changed,user\n\
          ns=1;s=T,2026-03-01T12:00:01.0000000Z,one,Good,replace,2026-03-01T12:01:04.0000000Z,ann\n\
          ns=1;s=T,2026-03-01T12:00:01.0000000Z,one,Good,insert,2026-03-01T12:01:01.0000000Z,ann\n\
          ns=1;s=T,2026-03-01T12:00:02.0000000Z,\xc3\xbcber,Good,insert,2026-03-01T12:01:03.0000000Z,ann\n",
    ),
    (
        "ns=1;s=T",
        Some(3),
        None,
        true,
        Table,
        Ok(()),
        b"time                          value                     status    \
          change    changed                       user\n\
          2026-03-01T12:00:03.0000000Z  a,b?[31m\xc2\xbfm                Good      \
          delete    2026-03-01T12:01:05.0000000Z  ann\n\
          2026-03-01T12:00:03.0000000Z  a,b?[31m\xc2\xbfm                Good      \
          insert    2026-03-01T12:01:02.0000000Z  ann\n",
    ),
    (
        "i=5",
        None,
        None,
        false,
        Csv,
        Err(ReportFault::NoText),
        b"node,time,value,status\n\
          i=5,2026-03-01T12:00:01.0000000Z,one,Good\n",
    ),
    (
        "i=5",
        Some(2),
        None,
        true,
        Table,
        Err(ReportFault::NoText),
        b"time                          value                     status    \
          change    changed                       user\n",
    ),
    (
        "i=6",
        None,
        None,
        false,
        Table,
        Ok(()),
        b"time                          value                     status\n",
    ),
];

/// What a page begins by, up to its title.
static BEGIN: &[u8] = b"<!DOCTYPE html>\n\
    <html lang=\"en\">\n\
    <head>\n\
    <meta charset=\"utf-8\">\n\
    <meta http-equiv=\"Content-Security-Policy\" \
    content=\"default-src 'none'; style-src 'unsafe-inline'\">\n\
    <meta name=\"viewport\" content=\"width=device-width, initial-scale=1\">\n\
    <title>";

/// What stands between its title and its heading.
static MIDDLE: &[u8] = b"</title>\n\
    <style>\n\
    :root{color-scheme:light dark}\n\
    body{margin:2rem;font-family:system-ui,sans-serif}\n\
    table{border-collapse:collapse;font-variant-numeric:tabular-nums}\n\
    th,td{padding:.25rem .75rem;text-align:left;vertical-align:top}\n\
    th{position:sticky;top:0;background:Canvas;box-shadow:0 1px}\n\
    h1,td{white-space:pre-wrap;overflow-wrap:anywhere}\n\
    tr{break-inside:avoid}\n\
    tr:nth-child(even) td{background:#8882}\n\
    @media print{th{position:static}}\n\
    td:first-child,td:nth-child(5){white-space:nowrap}\n\
    .insert td:first-child{box-shadow:inset .25rem 0 #2a7}\n\
    .replace td:first-child,.update td:first-child{box-shadow:inset .25rem 0 #d90}\n\
    .delete td:first-child{box-shadow:inset .25rem 0 #c33}\n\
    .delete td:nth-child(2){text-decoration:line-through}\n\
    figure{display:grid;grid-template-columns:auto 1fr 1fr;gap:.25rem .75rem;max-width:60rem}\n\
    figure{margin:1rem 0;font-size:.85rem;font-variant-numeric:tabular-nums;break-inside:avoid}\n\
    svg{grid-area:1/2/3/4;width:100%;height:12rem;overflow:visible}\n\
    path{fill:none;stroke:currentColor;stroke-width:1.5px;stroke-linecap:round}\n\
    path{stroke-linejoin:round;vector-effect:non-scaling-stroke}\n\
    .old{stroke:#d90}\n\
    span:nth-of-type(1){grid-area:1/1;text-align:right}\n\
    span:nth-of-type(2){grid-area:2/1;text-align:right;align-self:end}\n\
    span:nth-of-type(3){grid-area:3/2}\n\
    span:nth-of-type(4){grid-area:3/3;text-align:right}\n\
    </style>\n\
    </head>\n\
    <body>\n\
    <h1>";

/// A page: its node, its first second and its last, whether of modifications; how it ends, its title,
/// and what stands behind its heading.
type PageCase = (
    &'static str,
    Option<i64>,
    Option<i64>,
    bool,
    Result<(), ReportFault>,
    &'static [u8],
    &'static [u8],
);

/// Pages.
static PAGES: [PageCase; 4] = [
    (
        MARKED,
        None,
        None,
        false,
        Ok(()),
        b"ns=1;s=&lt;a href=&quot;x&quot;&gt;&amp;",
        b"</h1>\n<p>Values</p>\n<table>\n<thead>\n\
          <tr><th scope=\"col\">time</th><th scope=\"col\">value</th>\
          <th scope=\"col\">status</th></tr>\n</thead>\n<tbody>\n\
          <tr><td>2026-03-01T12:00:01.0000000Z</td>\
          <td>&lt;script&gt;alert(&#39;1&#39;)&lt;/script&gt;</td><td>Good</td></tr>\n\
          <tr><td>2026-03-01T12:00:02.0000000Z</td>\
          <td>a\tb?\nc???\xc2\xbf\xc3\xa9&amp;amp;</td><td>Good</td></tr>\n\
          </tbody>\n</table>\n\
          <p>Here the page ends. Without this line it isn't whole.</p>\n\
          </body>\n</html>\n",
    ),
    (
        "ns=1;s=T",
        Some(1),
        Some(2),
        true,
        Ok(()),
        b"ns=1;s=T",
        b"</h1>\n<p>Modifications from 2026-03-01T12:00:01.0000000Z \
          before 2026-03-01T12:00:02.0000000Z</p>\n<table>\n<thead>\n\
          <tr><th scope=\"col\">time</th><th scope=\"col\">value</th>\
          <th scope=\"col\">status</th><th scope=\"col\">change</th>\
          <th scope=\"col\">changed</th><th scope=\"col\">user</th></tr>\n</thead>\n<tbody>\n\
          <tr class=\"replace\"><td>2026-03-01T12:00:01.0000000Z</td><td>one</td><td>Good</td>\
          <td>replace</td><td>2026-03-01T12:01:04.0000000Z</td><td>ann</td></tr>\n\
          <tr class=\"insert\"><td>2026-03-01T12:00:01.0000000Z</td><td>one</td><td>Good</td>\
          <td>insert</td><td>2026-03-01T12:01:01.0000000Z</td><td>ann</td></tr>\n\
          </tbody>\n</table>\n\
          <p>Here the page ends. Without this line it isn't whole.</p>\n\
          </body>\n</html>\n",
    ),
    (
        "i=5",
        Some(1),
        None,
        false,
        Err(ReportFault::NoText),
        b"i=5",
        b"</h1>\n<p>Values from 2026-03-01T12:00:01.0000000Z</p>\n<table>\n<thead>\n\
          <tr><th scope=\"col\">time</th><th scope=\"col\">value</th>\
          <th scope=\"col\">status</th></tr>\n</thead>\n<tbody>\n\
          <tr><td>2026-03-01T12:00:01.0000000Z</td><td>one</td><td>Good</td></tr>\n",
    ),
    (
        "i=6",
        None,
        Some(1),
        false,
        Ok(()),
        b"i=6",
        b"</h1>\n<p>Values before 2026-03-01T12:00:01.0000000Z</p>\n<table>\n<thead>\n\
          <tr><th scope=\"col\">time</th><th scope=\"col\">value</th>\
          <th scope=\"col\">status</th></tr>\n</thead>\n<tbody>\n\
          </tbody>\n</table>\n\
          <p>Here the page ends. Without this line it isn't whole.</p>\n\
          </body>\n</html>\n",
    ),
];

/// So many seconds behind noon.
pub(crate) fn moment_of(second: i64) -> Moment {
    Moment::at(NOON.saturating_add(SECOND.saturating_mul(second)))
}

/// Whether a report of the archive ends so, and prints this.
fn is_printed<A: Archive>(alloc: Global, archive: &mut A, case: &Case<'_>) -> bool {
    let (node, from, to, changes, form, end, text) = *case;
    let Ok(node) = node_of(alloc, node) else {
        return false;
    };
    let report = Report {
        node,
        from: from.map(moment_of),
        to: to.map(moment_of),
        changes,
        form,
        next: None,
    };
    let mut output = Counted::new(Vec::new(alloc));
    let ended = print_report(alloc, archive, &report, &mut output);
    let printed = output.into_inner();
    ended == end && printed.as_slice() == text
}

/// A page, whose title stands twice.
pub(crate) fn page_of(alloc: Global, title: &[u8], rest: &[u8]) -> Result<Vec<u8>, AllocError> {
    let mut page = Vec::new(alloc);
    for part in [BEGIN, title, MIDDLE, title, rest] {
        page.extend_from_slice(part)?;
    }
    Ok(page)
}

/// Whether a page of the archive ends so, and is printed so.
fn is_page<A: Archive>(alloc: Global, archive: &mut A, case: &PageCase) -> bool {
    let (node, from, to, changes, end, title, rest) = *case;
    match page_of(alloc, title, rest) {
        Ok(page) => {
            let whole = (node, from, to, changes, Page, end, page.as_slice());
            is_printed(alloc, archive, &whole)
        }
        Err(_) => false,
    }
}

/// Whether the archive's reports are as they should be; else the first that isn't.
fn wrong_case<A: Archive>(alloc: Global, archive: &mut A) -> Option<usize> {
    let mut place = 0;
    for case in &CASES {
        if !is_printed(alloc, archive, case) {
            return Some(place);
        }
        place = place.saturating_add(1usize);
    }
    None
}

/// Whether the archive's pages are as they should be; else the first that isn't.
fn wrong_page<A: Archive>(alloc: Global, archive: &mut A) -> Option<usize> {
    let mut place = 0;
    for case in &PAGES {
        if !is_page(alloc, archive, case) {
            return Some(place);
        }
        place = place.saturating_add(1usize);
    }
    None
}

/// Which report of the updates is wrong, if one is.
fn wrong_report(alloc: Global) -> Result<Option<usize>, LearnFault> {
    let mut archive = empty_archive(alloc)?;
    learn_all(alloc, &mut archive)?;
    Ok(wrong_case(alloc, &mut archive))
}

/// Which page of the updates is wrong, if one is.
fn wrong_page_of_all(alloc: Global) -> Result<Option<usize>, LearnFault> {
    let mut archive = empty_archive(alloc)?;
    learn_all(alloc, &mut archive)?;
    Ok(wrong_page(alloc, &mut archive))
}

#[test]
fn reports_are_printed(rt: HostRuntime) {
    let wrong = wrong_report(rt.alloc());
    assert!(rt; wrong == Ok(None), "{wrong:?}");
}

#[test]
fn pages_are_printed(rt: HostRuntime) {
    let wrong = wrong_page_of_all(rt.alloc());
    assert!(rt; wrong == Ok(None), "{wrong:?}");
}

/// An archive takes so many values of one node.
fn learn_many<A: Archive>(alloc: Global, archive: &mut A, count: u64) -> Result<(), LearnFault> {
    let mut second = 0i64;
    for number in 1..=count {
        second = second.saturating_add(1);
        let row = ("i=7", second, Insert, Written::Text("x"));
        learn(alloc, archive, number, &row)?;
    }
    Ok(())
}

/// How many lines a report has.
fn line_count<A: Archive>(alloc: Global, archive: &mut A, changes: bool) -> Option<usize> {
    let Ok(node) = node_of(alloc, "i=7") else {
        return None;
    };
    let report = Report {
        node,
        from: None,
        to: None,
        changes,
        form: Table,
        next: None,
    };
    let mut output = Counted::new(Vec::new(alloc));
    if print_report(alloc, archive, &report, &mut output).is_err() {
        return None;
    }
    let printed = output.into_inner();
    let ends = printed.as_slice().iter().filter(|byte| **byte == b'\n');
    Some(ends.count())
}

/// Whether a history of so many values has a line for each, and a header.
fn has_lines(alloc: Global, count: u64, lines: usize) -> Result<bool, LearnFault> {
    let mut archive = empty_archive(alloc)?;
    learn_many(alloc, &mut archive, count)?;
    let values = line_count(alloc, &mut archive, false) == Some(lines);
    let changes = line_count(alloc, &mut archive, true) == Some(lines);
    Ok(values && changes)
}

#[test]
fn pages_join(rt: HostRuntime) {
    let alloc = rt.alloc();
    let one = has_lines(alloc, 16, 17);
    assert!(rt; one == Ok(true));
    let more = has_lines(alloc, 35, 36);
    assert!(rt; more == Ok(true));
}
