//! A page's drawing of its values.

use crate::reports::{empty_archive, moment_of, node_of};
use HistoryUpdateType::Insert;
use Scalar::{Boolean, Double, Float, Int16, UInt64};
use archive::{Archive, LearnFault, ListArchive, StoreFault};
use counted_io::Counted;
use history_report::{Form, Report, print_report};
use records::{Moment, Record};
use stamp::ReplicaNo;
use std::alloc::Global;
use ua_binary::{Status, Text};
use ua_variant::{DataValue, HistoryUpdateType, Scalar, Variant};

/// A value: seconds behind noon, what it is, and its status.
type Row = (i64, Kind, u32);

/// What a value is.
#[derive(Clone, Copy)]
enum Kind {
    Double(f64),
    Float(f32),
    Int16(i16),
    UInt64(u64),
    Boolean(bool),
    Infinite,
    Missing,
    Words,
}

/// A value of this kind.
fn variant_of(alloc: Global, kind: Kind) -> Result<Option<Variant>, StoreFault> {
    let scalar = match kind {
        Kind::Double(value) => Double(double_bytes(value)),
        Kind::Float(value) => Float(float_bytes(value)),
        Kind::Int16(value) => Int16(value),
        Kind::UInt64(value) => UInt64(value),
        Kind::Boolean(value) => Boolean(value),
        Kind::Infinite => Double(0x7FF0_0000_0000_0000u64.to_le_bytes()),
        Kind::Words => Scalar::String(Some(Text::from_str(alloc, "12")?)),
        Kind::Missing => return Ok(None),
    };
    Ok(Some(Variant::Scalar(scalar)))
}

/// The bytes of a Double.
fn double_bytes(value: f64) -> [u8; 8] {
    if value.is_nan() {
        return [0; 8];
    }
    value.to_bits().to_le_bytes()
}

/// The bytes of a Float.
fn float_bytes(value: f32) -> [u8; 4] {
    if value.is_nan() {
        return [0; 4];
    }
    value.to_bits().to_le_bytes()
}

/// The record of a value, of this number.
fn record_of(alloc: Global, number: u64, row: &Row) -> Result<Record, StoreFault> {
    let (second, kind, status) = *row;
    let Some(origin) = ReplicaNo::new(1) else {
        return Err(StoreFault::WrongReplica);
    };
    let node = node_of(alloc, "i=8")?;
    let user = Text::from_str(alloc, "ann")?;
    let value = variant_of(alloc, kind)?;
    Ok(Record {
        origin,
        number,
        tick: 134_168_500_000_000_000i64.saturating_add_unsigned(number),
        node,
        time: moment_of(second),
        asked: Insert,
        user,
        value: DataValue {
            value,
            status: Some(Status(status)),
            source_time: None,
            source_pico: None,
            server_time: None,
            server_pico: None,
        },
    })
}

/// What an archive answers to a value.
fn learn<A: Archive>(
    alloc: Global,
    archive: &mut A,
    number: u64,
    row: &Row,
) -> Result<bool, LearnFault> {
    let record = record_of(alloc, number, row)?;
    if record.is_lawful() {
        archive.learn(&record)
    } else {
        Err(LearnFault::Store(StoreFault::Refused))
    }
}

/// An archive of these values.
fn archive_of(alloc: Global, rows: &[Row]) -> Result<ListArchive, LearnFault> {
    let mut archive = empty_archive(alloc)?;
    let mut number = 0u64;
    for row in rows {
        number = number.saturating_add(1);
        learn(alloc, &mut archive, number, row)?;
    }
    Ok(archive)
}

/// The page of an archive's values, or of its modifications.
fn page_of<A: Archive>(alloc: Global, archive: &mut A, changes: bool) -> Option<Vec<u8>> {
    let Ok(node) = node_of(alloc, "i=8") else {
        return None;
    };
    let report = Report {
        node,
        from: None,
        to: None,
        changes,
        form: Form::Page,
        next: None,
    };
    let mut output = Counted::new(Vec::new(alloc));
    match print_report(alloc, archive, &report, &mut output) {
        Ok(()) => Some(output.into_inner()),
        Err(_) => None,
    }
}

/// Values, and what is drawn of them.
type Case = (&'static [Row], &'static [u8]);

/// A status that isn't good.
const BAD: u32 = 0x8000_0000;

/// A status that is uncertain.
const UNCERTAIN: u32 = 0x4000_0000;

/// Cases.
static CASES: [Case; 11] = [
    // steps: a value holds until the next one
    (
        &[
            (0, Kind::Double(1.5), 0),
            (500, Kind::Double(-2.5), 0),
            (999, Kind::Double(0.5), 0),
        ],
        b"<p>Values</p>\n<figure>\n<svg viewBox=\"0 0 999 1000\" preserveAspectRatio=\"none\" \
          role=\"img\" aria-label=\"The numbers over time\"><path d=\"M0 0H0H500V1000H999V250\
          \"/></svg>\n<span>1.5</span><span>-2.5</span><span>2026-03-01T12:00:00.0000000Z</span>\
          <span>2026-03-01T12:16:39.0000000Z</span>\n</figure>\n<table>",
    ),
    // a gap, where the status isn't good
    (
        &[
            (0, Kind::Int16(-4), 0),
            (100, Kind::Int16(1), BAD),
            (200, Kind::Int16(4), 0),
            (300, Kind::Int16(9), UNCERTAIN),
            (400, Kind::Int16(0), 0x0028_0000),
            (999, Kind::Int16(2), 0),
        ],
        b"d=\"M0 1000H0H100M200 0H200H300M400 500H400H999V250\"/></svg>\n<span>4</span><span>-4</span>",
    ),
    // a gap at what is no number, or none that is finite
    (
        &[
            (0, Kind::Float(0.0), 0),
            (1, Kind::Words, 0),
            (333, Kind::Float(1.0), 0),
            (666, Kind::Infinite, 0),
            (999, Kind::Float(0.5), 0),
        ],
        b"d=\"M0 1000H0H1M333 0H333H666M999 500H999\"/></svg>\n<span>1.0</span><span>0.0</span>",
    ),
    // one number, and numbers that are the same
    (
        &[(7, Kind::UInt64(u64::MAX), 0)],
        b"d=\"M0 500H0\"/></svg>\n<span>18446744073709551615</span>\
          <span>18446744073709551615</span><span>2026-03-01T12:00:07.0000000Z</span>\
          <span>2026-03-01T12:00:07.0000000Z</span>",
    ),
    // Booleans
    (
        &[
            (0, Kind::Boolean(false), 0),
            (500, Kind::Boolean(true), 0),
            (1998, Kind::Boolean(true), 0),
        ],
        b"d=\"M0 1000H0H250V0H999\"/></svg>\n<span>true</span><span>false</span>",
    ),
    // several in a column: the first, the lowest, the highest and the last
    (
        &[
            (0, Kind::Double(0.0), 0),
            (500_000, Kind::Double(5.0), 0),
            (500_001, Kind::Double(8.0), 0),
            (500_002, Kind::Double(2.0), 0),
            (500_003, Kind::Double(10.0), 0),
            (500_004, Kind::Double(6.0), 0),
            (999_000, Kind::Double(1.0), 0),
        ],
        b"d=\"M0 1000H0H500V500V800V0V400H999V900\"/></svg>",
    ),
    // the widest numbers
    (
        &[
            (0, Kind::Double(-1.7976931348623157e308), 0),
            (100, Kind::Double(0.0), 0),
            (200, Kind::Double(1.7976931348623157e308), 0),
        ],
        b"d=\"M0 1000H0H499V500H999V0\"/></svg>",
    ),
    // a mark where a number was corrected
    (
        &[
            (0, Kind::Double(0.0), 0),
            (500, Kind::Double(7.0), 0),
            (500, Kind::Double(5.0), 0),
            (999, Kind::Double(10.0), 0),
        ],
        b"d=\"M0 1000H0H500V500H999V0\"/><path class=\"old\" d=\"M500 1000V950\">\
          <title>Corrected</title></path></svg>\n<span>10.0</span>",
    ),
    // marks at the first and the last number, and at a gap, but not beyond these; one mark a column
    (
        &[
            (0, Kind::Words, 0),
            (0, Kind::Missing, 0),
            (1, Kind::Double(9.0), 0),
            (1, Kind::Double(1.0), 0),
            (251_001, Kind::Double(1.5), 0),
            (251_001, Kind::Words, 0),
            (501_000, Kind::Double(4.0), 0),
            (501_001, Kind::Double(4.0), BAD),
            (501_001, Kind::Double(3.0), 0),
            (501_002, Kind::Double(4.0), 0),
            (501_002, Kind::Double(2.0), 0),
            (999_001, Kind::Double(1.0), 0),
            (999_001, Kind::Double(2.0), 0),
            (999_002, Kind::Double(5.0), BAD),
            (999_002, Kind::Double(6.0), BAD),
        ],
        b"<path class=\"old\" d=\"M0 1000V950M251 1000V950M501 1000V950M999 1000V950\"><title>",
    ),
    // no mark, where no value of a number was corrected
    (
        &[
            (0, Kind::Words, 0),
            (0, Kind::Missing, 0),
            (1, Kind::Double(1.0), 0),
            (2, Kind::Double(2.0), 0),
        ],
        b"d=\"M0 1000H0H999V0\"/></svg>",
    ),
    // nothing is drawn
    (
        &[
            (1, Kind::Words, 0),
            (2, Kind::Double(1.0), BAD),
            (3, Kind::Infinite, 0),
        ],
        b"<p>Values</p>\n<table>",
    ),
];

/// Whether a text stands in another.
fn is_within(part: &[u8], whole: &[u8]) -> bool {
    for start in 0..whole.len() {
        if whole[start..].starts_with(part) {
            return true;
        }
    }
    false
}

/// Whether a page of these values has the drawing, and one of their modifications none.
fn is_drawn(alloc: Global, case: &Case) -> bool {
    let (rows, drawn) = *case;
    let Ok(mut archive) = archive_of(alloc, rows) else {
        return false;
    };
    let Some(values) = page_of(alloc, &mut archive, false) else {
        return false;
    };
    let Some(changes) = page_of(alloc, &mut archive, true) else {
        return false;
    };
    is_within(drawn, values.as_slice()) && !is_within(b"<figure", changes.as_slice())
}

/// The first case that isn't as it should be.
fn wrong_case(alloc: Global) -> Option<usize> {
    let mut place = 0usize;
    for case in &CASES {
        if !is_drawn(alloc, case) {
            return Some(place);
        }
        place = place.saturating_add(1usize);
    }
    None
}

#[test]
fn trends_are_drawn(rt: HostRuntime) {
    let wrong = wrong_case(rt.alloc());
    assert!(rt; wrong == None, "{wrong:?}");
}
