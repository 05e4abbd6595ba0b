//! A history that is made portion by portion.

use Form::{Csv, Page, Table};
use archive::{Archive, LearnFault, ListArchive, StoreFault};
use counted_io::Counted;
use history_report::{Form, Portions, Report, ReportFault, print_report};
use records::{Moment, Record};
use stamp::ReplicaNo;
use std::alloc::{AllocError, Global};
use std::test::Fail;
use ua_binary::{Bytes, Listing, NodeId, Text};
use ua_variant::{Array, DataValue, HistoryUpdateType, Scalar, Variant};
use uuid::Uuid;

/// 2026-03-01T12:00:00Z.
const NOON: i64 = 134_168_400_000_000_000;

/// A second.
const SECOND: i64 = 10_000_000;

/// What is written: a number, 50,000 bytes, or an array of a type that has no text.
#[derive(Clone, Copy)]
pub(crate) enum Written {
    Number(i32),
    Long,
    Many,
}

/// The number of an update, its node's name, seconds behind noon, and what is written.
pub(crate) type Update = (u64, &'static str, i64, Written);

/// So many seconds behind noon.
pub(crate) fn moment_of(second: i64) -> Moment {
    Moment::at(NOON.saturating_add(SECOND.saturating_mul(second)))
}

/// The node of a name.
pub(crate) fn node_of(alloc: Global, name: &str) -> Result<NodeId, AllocError> {
    Ok(NodeId::Named(1, Text::from_str(alloc, name)?))
}

/// What is written, as a value.
fn variant_of(alloc: Global, written: Written) -> Result<Variant, AllocError> {
    match written {
        Written::Number(number) => Ok(Variant::Scalar(Scalar::Int32(number))),
        Written::Long => {
            let bytes = Bytes::new(vec![in alloc; 0; 50_000]?);
            Ok(Variant::Scalar(Scalar::ByteString(Some(bytes))))
        }
        Written::Many => Ok(Variant::Array(Array::NodeId(Listing::of(Vec::new(alloc))))),
    }
}

/// The tick of an update.
fn tick_of(number: u64) -> i64 {
    NOON.saturating_add(SECOND.saturating_mul(9000i64.saturating_add_unsigned(number)))
}

/// A value as it was written, with no status and no times.
fn value_of(value: Variant) -> DataValue {
    DataValue {
        value: Some(value),
        status: None,
        source_time: None,
        source_pico: None,
        server_time: None,
        server_pico: None,
    }
}

/// The record of an update, by a replica, of a node, a user and a value.
fn record_by(
    origin: ReplicaNo,
    update: &Update,
    node: NodeId,
    user: Text,
    value: Variant,
) -> Record {
    let (number, _, second, _) = *update;
    Record {
        origin,
        number,
        tick: tick_of(number),
        node,
        time: moment_of(second),
        asked: HistoryUpdateType::Update,
        user,
        value: value_of(value),
    }
}

/// The record of an update.
fn record_of(alloc: Global, update: &Update) -> Result<Record, StoreFault> {
    let Some(origin) = ReplicaNo::new(7) else {
        return Err(StoreFault::WrongReplica);
    };
    let node = node_of(alloc, update.1)?;
    let user = Text::from_str(alloc, "ann")?;
    let value = variant_of(alloc, update.3)?;
    Ok(record_by(origin, update, node, user, value))
}

/// What an archive answers to a record.
fn learn_record<A: Archive>(archive: &mut A, record: &Record) -> Result<bool, LearnFault> {
    if record.is_lawful() {
        archive.learn(record)
    } else {
        Err(LearnFault::Store(StoreFault::Refused))
    }
}

/// What an archive answers to an update.
pub(crate) fn learn<A: Archive>(
    alloc: Global,
    archive: &mut A,
    update: &Update,
) -> Result<bool, LearnFault> {
    let record = record_of(alloc, update)?;
    learn_record(archive, &record)
}

/// An archive takes the updates of these numbers, so many at each second.
pub(crate) fn learn_many<A: Archive>(
    alloc: Global,
    archive: &mut A,
    first: u64,
    last: u64,
    at_once: u64,
) -> Result<(), LearnFault> {
    let mut second = 0i64.saturating_add_unsigned(first);
    let mut seen = 0u64;
    let mut written = 0i32;
    for number in first..=last {
        if seen >= at_once {
            second = second.saturating_add(1);
            seen = 0;
        }
        seen = seen.saturating_add(1);
        written = written.saturating_add(1);
        let update = (number, "n", second, Written::Number(written));
        learn(alloc, archive, &update)?;
    }
    Ok(())
}

/// An archive that holds nothing.
pub(crate) fn empty_archive(alloc: Global) -> Result<ListArchive, StoreFault> {
    match ReplicaNo::new(7) {
        Some(own) => Ok(ListArchive::new(alloc, Uuid::nil(), own)),
        None => Err(StoreFault::WrongReplica),
    }
}

/// The whole history of the node, values or modifications, in this form.
pub(crate) fn report_of(alloc: Global, changes: bool, form: Form) -> Result<Report, AllocError> {
    Ok(Report {
        node: node_of(alloc, "n")?,
        from: None,
        to: None,
        changes,
        form,
        next: None,
    })
}

/// What is printed of a report, and how that ends.
pub(crate) fn printed<A: Archive>(
    alloc: Global,
    archive: &mut A,
    report: &Report,
) -> (Result<(), ReportFault>, Vec<u8>) {
    let mut output = Counted::new(Vec::new(alloc));
    let ended = print_report(alloc, archive, report, &mut output);
    (ended, output.into_inner())
}

/// How many lines a text has.
pub(crate) fn line_count(text: &[u8]) -> usize {
    let mut count = 0usize;
    for byte in text {
        if *byte == b'\n' {
            count = count.saturating_add(1);
        }
    }
    count
}

/// Values or modifications, and in which form.
type Case = (bool, Form);

/// What is tried: how many updates an archive has at first, how many of them at each second, and
/// which of them is no number, and what it is; the updates that come before each portion, two at a
/// time; how many rows each portion has, and how it ends.
struct Tried {
    count: u64,
    at_once: u64,
    other: Option<(u64, Written)>,
    between: &'static [[Update; 2]],
    wanted: &'static [(usize, Result<bool, ReportFault>)],
}

/// An archive takes the updates of these numbers, one at each second; this one is no number.
fn learns_around<A: Archive>(
    alloc: Global,
    archive: &mut A,
    count: u64,
    other: (u64, Written),
) -> bool {
    let (number, written) = other;
    let second = 0i64.saturating_add_unsigned(number);
    learn_many(alloc, archive, 1, number.saturating_sub(1), 1).is_ok()
        && learn(alloc, archive, &(number, "n", second, written)).is_ok()
        && learn_many(alloc, archive, number.saturating_add(1), count, 1).is_ok()
}

/// An archive takes the updates that it has at first.
fn learns_first<A: Archive>(alloc: Global, archive: &mut A, tried: &Tried) -> bool {
    match tried.other {
        Some(other) => learns_around(alloc, archive, tried.count, other),
        None => learn_many(alloc, archive, 1, tried.count, tried.at_once).is_ok(),
    }
}

/// An archive takes two updates, if there are two.
fn learns_both<A: Archive>(alloc: Global, archive: &mut A, pair: Option<&[Update; 2]>) -> bool {
    match pair {
        Some([one, other]) => {
            learn(alloc, archive, one).is_ok() && learn(alloc, archive, other).is_ok()
        }
        None => true,
    }
}

/// What a row of a page begins by.
const ROW: &str = "<tr><td>";

/// What a row of a page of modifications begins by.
const CHANGE: &str = "<tr class=";

/// How many lines of a text are rows of a page.
fn page_rows(text: &str) -> usize {
    let mut count = 0usize;
    for line in text.lines() {
        if line.starts_with(ROW) || line.starts_with(CHANGE) {
            count = count.saturating_add(1);
        }
    }
    count
}

/// How many rows a text has: its lines, and of a page those that are rows of its table.
fn row_count(form: Form, text: &[u8]) -> usize {
    match (form, str::from_utf8(text)) {
        (Page, Ok(text)) => page_rows(text),
        _ => line_count(text),
    }
}

/// Whether the next portion has so many rows, and ends so.
fn is_next<A: Archive>(
    alloc: Global,
    archive: &mut A,
    form: Form,
    portions: &mut Portions,
    out: &mut Vec<u8>,
    wanted: (usize, Result<bool, ReportFault>),
) -> bool {
    let before = row_count(form, out.as_slice());
    let ended = portions.next(alloc, archive, out);
    let rows = row_count(form, out.as_slice()).saturating_sub(before);
    rows == wanted.0 && ended == wanted.1
}

/// Whether all portions have so many rows each, and end so; before each, an archive takes the next
/// two updates.
fn are_next<A: Archive>(
    alloc: Global,
    archive: &mut A,
    form: Form,
    portions: &mut Portions,
    out: &mut Vec<u8>,
    tried: &Tried,
) -> bool {
    let mut between = tried.between.iter();
    for wanted in tried.wanted {
        if !learns_both(alloc, archive, between.next())
            || !is_next(alloc, archive, form, portions, out, *wanted)
        {
            return false;
        }
    }
    true
}

/// Whether a text is a header: one line, and of a page all up to its first row.
fn is_header(form: Form, text: &[u8]) -> bool {
    match form {
        Page => row_count(form, text) == 0 && text.ends_with(b"</thead>\n<tbody>\n"),
        Csv | Table => line_count(text) == 1,
    }
}

/// Whether a report is made of a header and such portions.
fn is_made<A: Archive>(
    alloc: Global,
    archive: &mut A,
    report: Report,
    tried: &Tried,
    out: &mut Vec<u8>,
) -> bool {
    let form = report.form;
    match Portions::begin(alloc, archive, report, out) {
        Ok(mut portions) => {
            is_header(form, out.as_slice())
                && are_next(alloc, archive, form, &mut portions, out, tried)
        }
        Err(_) => false,
    }
}

/// Whether a report is made of such portions, which joined are this.
fn is_made_as<A: Archive>(
    alloc: Global,
    archive: &mut A,
    case: Case,
    tried: &Tried,
    whole: &[u8],
) -> bool {
    let mut out = Vec::new(alloc);
    let made = match report_of(alloc, case.0, case.1) {
        Ok(report) => is_made(alloc, archive, report, tried, &mut out),
        Err(_) => false,
    };
    made && out.as_slice() == whole
}

/// Whether a history is made of such portions, which joined are what is printed of it before any
/// further update.
fn is_parted<A: Archive>(alloc: Global, archive: &mut A, case: Case, tried: &Tried) -> bool {
    match report_of(alloc, case.0, case.1) {
        Ok(report) => {
            let (_, whole) = printed(alloc, archive, &report);
            is_made_as(alloc, archive, case, tried, whole.as_slice())
        }
        Err(_) => false,
    }
}

/// The same of an archive that was made, and then takes its first updates.
fn is_parted_over<A: Archive + Drop>(
    alloc: Global,
    made: Result<A, StoreFault>,
    case: Case,
    tried: &Tried,
) -> bool {
    match made {
        Ok(mut archive) => {
            learns_first(alloc, &mut archive, tried) && is_parted(alloc, &mut archive, case, tried)
        }
        Err(_) => false,
    }
}

/// Whether all of these cases are made so, of a list.
fn are_parted(alloc: Global, cases: &[(&'static str, Case)], tried: &Tried) -> Result<(), Fail> {
    for (name, case) in cases {
        if !is_parted_over(alloc, empty_archive(alloc), *case, tried) {
            return Err(Fail::from(*name));
        }
    }
    Ok(())
}

/// Values or modifications, in each form.
static CASES: [(&str, Case); 6] = [
    ("values as CSV", (false, Csv)),
    ("values as a table", (false, Table)),
    ("values as a page", (false, Page)),
    ("modifications as CSV", (true, Csv)),
    ("modifications as a table", (true, Table)),
    ("modifications as a page", (true, Page)),
];

/// Modifications, in each form.
static CHANGES: [(&str, Case); 3] = [
    ("modifications as CSV", (true, Csv)),
    ("modifications as a table", (true, Table)),
    ("modifications as a page", (true, Page)),
];

/// The portions of 40 updates.
const FIVE: &[(usize, Result<bool, ReportFault>)] = &[
    (8, Ok(true)),
    (8, Ok(true)),
    (8, Ok(true)),
    (8, Ok(true)),
    (8, Ok(true)),
    (0, Ok(false)),
];

/// 40 updates, one at each second.
static SINGLE: Tried = Tried {
    count: 40,
    at_once: 1,
    other: None,
    between: &[],
    wanted: FIVE,
};

#[test]
fn portions_join(rt: HostRuntime) -> Result<(), Fail> {
    are_parted(rt.alloc(), &CASES, &SINGLE)
}

/// 40 updates, seven at each second.
static SEVENS: Tried = Tried {
    count: 40,
    at_once: 7,
    other: None,
    between: &[],
    wanted: FIVE,
};

/// 40 updates at one second.
static AT_ONCE: Tried = Tried {
    count: 40,
    at_once: 40,
    other: None,
    between: &[],
    wanted: FIVE,
};

#[test]
fn modifications_of_one_moment_are_parted(rt: HostRuntime) -> Result<(), Fail> {
    are_parted(rt.alloc(), &CHANGES, &SEVENS)?;
    are_parted(rt.alloc(), &CHANGES, &AT_ONCE)
}

/// Updates that come in between, two at a time: earlier ones, later ones, and at moments that are
/// still to come.
const BETWEEN: &[[Update; 2]] = &[
    [
        (41, "n", 8, Written::Number(-1)),
        (42, "n", 0, Written::Number(-2)),
    ],
    [
        (43, "n", 24, Written::Number(-3)),
        (44, "n", 60, Written::Many),
    ],
    [
        (45, "n", 40, Written::Many),
        (46, "n", 2, Written::Number(-6)),
    ],
    [
        (47, "n", 41, Written::Number(-7)),
        (48, "n", 1, Written::Many),
    ],
];

/// 40 updates, one at each second, while these come.
static GROWING: Tried = Tried {
    count: 40,
    at_once: 1,
    other: None,
    between: BETWEEN,
    wanted: FIVE,
};

#[test]
fn portions_are_of_one_state(rt: HostRuntime) -> Result<(), Fail> {
    are_parted(rt.alloc(), &CASES, &GROWING)
}

/// A history that ends before the 21st of 40 updates, which has no text.
static WITHOUT_TEXT: Tried = Tried {
    count: 40,
    at_once: 1,
    other: Some((21, Written::Many)),
    between: &[],
    wanted: &[(8, Ok(true)), (8, Ok(true)), (4, Err(ReportFault::NoText))],
};

#[test]
fn a_value_without_text_ends_a_history(rt: HostRuntime) -> Result<(), Fail> {
    are_parted(rt.alloc(), &CASES, &WITHOUT_TEXT)
}

/// 12 updates, one at each second, of which the third has a long line: a portion ends behind it.
static WITH_LONG: Tried = Tried {
    count: 12,
    at_once: 1,
    other: Some((3, Written::Long)),
    between: &[],
    wanted: &[(3, Ok(true)), (8, Ok(true)), (1, Ok(true)), (0, Ok(false))],
};

#[test]
fn a_long_line_ends_a_portion(rt: HostRuntime) -> Result<(), Fail> {
    are_parted(rt.alloc(), &CASES, &WITH_LONG)
}

/// The history of an archive that holds nothing, its header alone.
static NOTHING: Tried = Tried {
    count: 0,
    at_once: 1,
    other: None,
    between: &[],
    wanted: &[(0, Ok(false))],
};

#[test]
fn no_updates_are_a_header(rt: HostRuntime) -> Result<(), Fail> {
    are_parted(rt.alloc(), &CASES, &NOTHING)
}
