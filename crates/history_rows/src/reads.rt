//! Reads of node ns=1;s=T, page by page.

ghost use Rattle.std.specs.Prelude.{IsTrue};
ghost use Rattle.ua_binary.specs.Binary.{IsShortNode};

use crate::archives;
use crate::archives::{is_int, node};
use crate::points::{NONE, POINT, Patch, patched};
use HistoryUpdateType::{Delete, Insert, Update};
use archive::{Archive, LearnFault, StoreFault};
use hist_read::{Query, read_node};
use std::alloc::{AllocError, Global};
use ua_binary::{Bytes, NodeId, Status, Text, Ticks};
use ua_services::{
    HistoryData, HistoryReadResult, ModificationInfo, ReadRawModifiedDetails, TimestampsToReturn,
};
use ua_variant::{DataValue, HistoryUpdateType};

// ---- pages

/// An update of replica 1: number, tick, source time, what was asked, and the value.
type Row = (u64, i64, i64, HistoryUpdateType, Option<i32>);

fn learn<A: Archive>(alloc: Global, archive: &mut A, row: &Row) -> Result<bool, LearnFault> {
    let (number, tick, time, asked, written) = *row;
    archives::learn(alloc, archive, &(1, number, tick, time, asked, written))
}

fn learn_all<A: Archive>(alloc: Global, archive: &mut A, rows: &[Row]) -> Result<(), LearnFault> {
    for row in rows {
        learn(alloc, archive, row)?;
    }
    Ok(())
}

/// Source times at 5:00 and so on, in minutes of 600,000,000 steps.
const AT_4_48: i64 = 172_800_000_000;

const AT_4_59: i64 = 179_400_000_000;

const AT_5_00: i64 = 180_000_000_000;

const AT_5_01: i64 = 180_600_000_000;

const AT_5_02: i64 = 181_200_000_000;

const AT_5_03: i64 = 181_800_000_000;

const AT_5_04: i64 = 182_400_000_000;

const AT_5_05: i64 = 183_000_000_000;

const AT_5_06: i64 = 183_600_000_000;

const AT_5_07: i64 = 184_200_000_000;

static VALUES: [Row; 5] = [
    (1, 100, AT_5_00, Insert, Some(0)),
    (2, 101, AT_5_02, Insert, Some(2)),
    (3, 102, AT_5_03, Insert, Some(3)),
    (4, 103, AT_5_05, Insert, Some(5)),
    (5, 104, AT_5_06, Insert, Some(6)),
];

static ONE_VALUE: [Row; 1] = [(1, 100, 10, Insert, Some(7))];

static UPDATES: [Row; 5] = [
    (1, 100, 10, Insert, Some(7)),
    (2, 101, 10, Update, Some(8)),
    (3, 102, 10, Delete, None),
    (4, 103, 10, Insert, Some(9)),
    (5, 104, 20, Insert, Some(1)),
];

/// The archive learns five values.
pub fn learn_values<A: Archive>(alloc: Global, archive: &mut A) -> Result<(), LearnFault> {
    learn_all(alloc, archive, &VALUES)
}

// ---- reads

fn is_short(node: &NodeId) -> bool
    ensures { IsTrue result → IsShortNode node.now }
{
    match node {
        NodeId::Named(_, name) => name.len() < 0x8000_0000,
        _ => false,
    }
}

/// What a read of the node is answered, from a continuation point or from its beginning.
pub fn read<A: Archive>(
    alloc: Global,
    archive: &mut A,
    details: ReadRawModifiedDetails,
    stamps: TimestampsToReturn,
    continuation: Option<&[u8]>,
) -> Result<HistoryReadResult, AllocError> {
    let query = Query { details, stamps };
    let node = node(alloc)?;
    if is_short(&node) {
        Ok(read_node(alloc, archive, &node, &query, continuation))
    } else {
        Err(AllocError)
    }
}

/// What a read asks for: modifications or values, start, end, count and bounds.
pub const fn asked(
    is_read_modified: bool,
    start: i64,
    end: i64,
    num_values_per_node: u32,
    return_bounds: bool,
) -> ReadRawModifiedDetails {
    ReadRawModifiedDetails {
        is_read_modified,
        start_time: Ticks(start),
        end_time: Ticks(end),
        num_values_per_node,
        return_bounds,
    }
}

/// An item's time, and whether it is a missing bound.
type Shown = (i64, bool);

fn is_shown(value: &DataValue, shown: Shown) -> bool {
    let status = if shown.1 {
        Some(Status::BAD_BOUND_NOT_FOUND)
    } else {
        None
    };
    value.source_time == Some(Ticks(shown.0))
        && value.status == status
        && value.value.is_none() == shown.1
}

fn are_shown(values: &[DataValue], shown: &[Shown]) -> bool {
    let mut same = values.len() == shown.len();
    for (value, wanted) in values.iter().zip(shown) {
        same = same && is_shown(value, *wanted);
    }
    same
}

fn has_shown(told: &HistoryReadResult, wanted: &[Shown]) -> bool {
    match &told.history_data {
        HistoryData::Raw(values) => are_shown(values.as_slice(), wanted),
        _ => false,
    }
}

/// A read of raw values: start, end, count, bounds, and its pages.
type RawRead = (i64, i64, u32, bool, &'static [&'static [Shown]]);

static RAW_READS: [RawRead; 16] = [
    (
        AT_5_01,
        AT_5_04,
        0,
        true,
        &[&[
            (AT_5_00, false),
            (AT_5_02, false),
            (AT_5_03, false),
            (AT_5_05, false),
        ]],
    ),
    (
        AT_5_01,
        AT_5_04,
        0,
        false,
        &[&[(AT_5_02, false), (AT_5_03, false)]],
    ),
    (
        AT_4_59,
        AT_5_05,
        0,
        true,
        &[&[
            (AT_4_59, true),
            (AT_5_00, false),
            (AT_5_02, false),
            (AT_5_03, false),
            (AT_5_05, false),
        ]],
    ),
    (
        AT_5_05,
        AT_5_00,
        0,
        false,
        &[&[(AT_5_05, false), (AT_5_03, false), (AT_5_02, false)]],
    ),
    (
        AT_5_00,
        AT_5_00,
        0,
        true,
        &[&[(AT_5_00, false), (AT_5_02, false)]],
    ),
    (AT_4_48, AT_4_48, 0, false, &[&[]]),
    (
        AT_5_00,
        AT_5_07,
        2,
        false,
        &[
            &[(AT_5_00, false), (AT_5_02, false)],
            &[(AT_5_03, false), (AT_5_05, false)],
            &[(AT_5_06, false)],
        ],
    ),
    (
        AT_5_00,
        AT_5_07,
        5,
        false,
        &[&[
            (AT_5_00, false),
            (AT_5_02, false),
            (AT_5_03, false),
            (AT_5_05, false),
            (AT_5_06, false),
        ]],
    ),
    (
        0,
        AT_5_06,
        6,
        true,
        &[&[
            (AT_5_06, false),
            (AT_5_05, false),
            (AT_5_03, false),
            (AT_5_02, false),
            (AT_5_00, false),
            (179_990_000_000, true),
        ]],
    ),
    (
        0,
        AT_5_06,
        5,
        true,
        &[&[
            (AT_5_06, false),
            (AT_5_05, false),
            (AT_5_03, false),
            (AT_5_02, false),
            (AT_5_00, false),
        ]],
    ),
    (AT_5_01, AT_5_06, 1, true, &[&[(AT_5_00, false)]]),
    (
        AT_5_01,
        AT_5_05,
        2,
        true,
        &[
            &[(AT_5_00, false), (AT_5_02, false)],
            &[(AT_5_03, false), (AT_5_05, false)],
        ],
    ),
    (
        AT_5_05,
        AT_5_01,
        2,
        true,
        &[
            &[(AT_5_05, false), (AT_5_03, false)],
            &[(AT_5_02, false), (AT_5_00, false)],
        ],
    ),
    (
        AT_5_07,
        AT_5_07,
        0,
        true,
        &[&[(AT_5_06, false), (AT_5_07, true)]],
    ),
    (
        AT_5_05,
        -7,
        9,
        true,
        &[&[(AT_5_05, false), (AT_5_06, false), (183_610_000_000, true)]],
    ),
    (
        AT_5_03,
        0,
        2,
        false,
        &[&[(AT_5_03, false), (AT_5_05, false)]],
    ),
];

/// Backward from the only value.
static BEFORE_ONE: [RawRead; 1] = [(0, 10, 2, true, &[&[(10, false), (-9_999_990, true)]])];

/// The point that a page ends with, in case it has these items.
fn point_behind<A: Archive>(
    alloc: Global,
    archive: &mut A,
    details: ReadRawModifiedDetails,
    point: &Option<Bytes>,
    wanted: &[Shown],
) -> Option<Option<Bytes>> {
    let bytes = point.as_ref().map(|point| point.as_slice());
    match read(alloc, archive, details, TimestampsToReturn::Source, bytes) {
        Ok(told) if has_shown(&told, wanted) => Some(told.continuation_point),
        _ => None,
    }
}

/// Whether the read has these pages, each from the point that the one before it ended with.
fn has_pages<A: Archive>(alloc: Global, archive: &mut A, row: &RawRead) -> bool {
    let (start, end, count, bounds, pages) = *row;
    let details = asked(false, start, end, count, bounds);
    let mut point = None;
    for (i, wanted) in pages.iter().enumerate() {
        let Some(next) = point_behind(alloc, archive, details, &point, wanted) else {
            return false;
        };
        if next.is_some() != (i + 1 < pages.len()) {
            return false;
        }
        point = next;
    }
    true
}

/// The first of the reads that has other pages.
fn first_other<A: Archive>(alloc: Global, archive: &mut A, reads: &[RawRead]) -> Option<usize> {
    for (i, row) in reads.iter().enumerate() {
        if !has_pages(alloc, archive, row) {
            return Some(i);
        }
    }
    None
}

/// The first of the reads of the five values that has other pages, by an archive that learned these.
pub fn first_other_of_five<A: Archive>(
    alloc: Global,
    archive: &mut A,
) -> Result<Option<usize>, LearnFault> {
    learn_values(alloc, archive)?;
    Ok(first_other(alloc, archive, &RAW_READS))
}

/// The same of the reads of one value.
pub fn first_other_of_one<A: Archive>(
    alloc: Global,
    archive: &mut A,
) -> Result<Option<usize>, LearnFault> {
    learn_all(alloc, archive, &ONE_VALUE)?;
    Ok(first_other(alloc, archive, &BEFORE_ONE))
}

fn are_numbers(values: &[DataValue], wanted: &[(i32, Option<u16>)]) -> bool {
    let mut same = values.len() == wanted.len();
    for (value, (written, pico)) in values.iter().zip(wanted) {
        same = same
            && is_int(value, *written)
            && value.source_pico == *pico
            && value.status.is_none();
    }
    same
}

/// Whether a read of the raw values from 1 to 100 shows these with these picoseconds, none beside other records.
pub fn shows_picoseconds<A: Archive>(
    alloc: Global,
    archive: &mut A,
    wanted: &[(i32, Option<u16>)],
) -> Result<bool, AllocError> {
    let details = asked(false, 1, 100, 0, false);
    let told = read(alloc, archive, details, TimestampsToReturn::Source, None)?;
    match &told.history_data {
        HistoryData::Raw(values) => Ok(are_numbers(values.as_slice(), wanted)),
        _ => Ok(false),
    }
}

/// What a modification did, the value that it shows, and its tick.
type Change = (HistoryUpdateType, i32, i64);

fn is_ann(user: &Option<Text>) -> bool {
    match user {
        Some(name) => name.as_str() == "ann",
        None => false,
    }
}

fn is_change(value: &DataValue, info: &ModificationInfo, change: &Change) -> bool {
    is_int(value, change.1)
        && info.update_type == change.0
        && info.modification_time == Ticks(change.2)
        && is_ann(&info.user_name)
}

fn are_changes(values: &[DataValue], infos: &[ModificationInfo], changes: &[Change]) -> bool {
    let mut same = values.len() == changes.len() && infos.len() == changes.len();
    for (i, change) in changes.iter().enumerate() {
        same = same
            && i < values.len()
            && i < infos.len()
            && is_change(&values[i], &infos[i], change);
    }
    same
}

fn has_changes(told: &HistoryReadResult, wanted: &[Change]) -> bool {
    match &told.history_data {
        HistoryData::Modified(values, infos) => {
            are_changes(values.as_slice(), infos.as_slice(), wanted)
        }
        _ => false,
    }
}

/// A read of modifications: start, end, count, and its pages.
type ModifiedRead = (i64, i64, u32, &'static [&'static [Change]]);

static MODIFIED_READS: [ModifiedRead; 6] = [
    (
        1,
        20,
        0,
        &[&[
            (Insert, 9, 103),
            (Delete, 8, 102),
            (Update, 7, 101),
            (Insert, 7, 100),
        ]],
    ),
    (
        1,
        20,
        3,
        &[
            &[(Insert, 9, 103), (Delete, 8, 102), (Update, 7, 101)],
            &[(Insert, 7, 100)],
        ],
    ),
    (
        10,
        1,
        3,
        &[
            &[(Insert, 7, 100), (Update, 7, 101), (Delete, 8, 102)],
            &[(Insert, 9, 103)],
        ],
    ),
    (
        1,
        0,
        5,
        &[&[
            (Insert, 9, 103),
            (Delete, 8, 102),
            (Update, 7, 101),
            (Insert, 7, 100),
            (Insert, 1, 104),
        ]],
    ),
    (0, 20, 2, &[&[(Insert, 1, 104), (Insert, 7, 100)]]),
    (11, 20, 0, &[&[]]),
];

/// The point that a page ends with, in case it has these modifications.
fn point_behind_changes<A: Archive>(
    alloc: Global,
    archive: &mut A,
    details: ReadRawModifiedDetails,
    point: &Option<Bytes>,
    wanted: &[Change],
) -> Option<Option<Bytes>> {
    let bytes = point.as_ref().map(|point| point.as_slice());
    match read(alloc, archive, details, TimestampsToReturn::Source, bytes) {
        Ok(told) if has_changes(&told, wanted) => Some(told.continuation_point),
        _ => None,
    }
}

/// Whether the read has these pages, each from the point that the one before it ended with.
fn has_changed_pages<A: Archive>(alloc: Global, archive: &mut A, row: &ModifiedRead) -> bool {
    let (start, end, count, pages) = *row;
    let details = asked(true, start, end, count, false);
    let mut point = None;
    for (i, wanted) in pages.iter().enumerate() {
        let Some(next) = point_behind_changes(alloc, archive, details, &point, wanted) else {
            return false;
        };
        if next.is_some() != (i + 1 < pages.len()) {
            return false;
        }
        point = next;
    }
    true
}

/// The first of the reads of modifications that has other pages, by an archive that learned the updates.
pub fn first_other_modified<A: Archive>(
    alloc: Global,
    archive: &mut A,
) -> Result<Option<usize>, LearnFault> {
    learn_all(alloc, archive, &UPDATES)?;
    for (i, row) in MODIFIED_READS.iter().enumerate() {
        if !has_changed_pages(alloc, archive, row) {
            return Ok(Some(i));
        }
    }
    Ok(None)
}

// ---- snapshots

/// What is done between the pages: inserts at 5:04 and at 5:01, and a delete at 5:05.
static LATER: [Row; 3] = [
    (6, 105, AT_5_04, Insert, Some(4)),
    (7, 106, AT_5_01, Insert, Some(1)),
    (8, 107, AT_5_05, Delete, None),
];

/// The second page and the third one, of what was held at the first.
static REST: [&[Shown]; 2] = [&[(AT_5_03, false), (AT_5_05, false)], &[(AT_5_06, false)]];

/// Whether the read goes on behind the first page as it would have then.
pub fn goes_on_as_before<A: Archive>(alloc: Global, archive: &mut A) -> bool {
    let details = asked(false, AT_5_00, AT_5_07, 2, false);
    let Ok(second) = read(
        alloc,
        archive,
        details,
        TimestampsToReturn::Source,
        Some(&POINT),
    ) else {
        return false;
    };
    has_shown(&second, REST[0])
        && point_behind(alloc, archive, details, &second.continuation_point, REST[1]) == Some(None)
}

/// Whether later pages are of what was held at the first, the five values, also behind what is done between.
pub fn are_of_what_was_held<A: Archive>(
    alloc: Global,
    archive: &mut A,
) -> Result<bool, LearnFault> {
    learn_values(alloc, archive)?;
    let before = goes_on_as_before(alloc, archive);
    learn_all(alloc, archive, &LATER)?;
    Ok(before && goes_on_as_before(alloc, archive))
}

fn status_of<A: Archive>(
    alloc: Global,
    archive: &mut A,
    details: ReadRawModifiedDetails,
    point: Option<&[u8]>,
) -> Option<Status> {
    match read(alloc, archive, details, TimestampsToReturn::Source, point) {
        Ok(told) => Some(told.status),
        Err(_) => None,
    }
}

/// The bytes that make the point one of another archive, one within a vector that isn't covered, and one of each earlier
/// format.
static FOREIGN: [Patch; 4] = [(1, 17, 9), (73, 74, 6), (0, 1, 1), (0, 1, 2)];

/// Whether the next page from the point with these bytes is refused.
fn is_refused<A: Archive>(
    alloc: Global,
    archive: &mut A,
    patch: Patch,
) -> Result<bool, StoreFault> {
    let point = patched(alloc, patch, NONE)?;
    let details = asked(false, AT_5_00, AT_5_07, 2, false);
    let told = status_of(alloc, archive, details, Some(&point));
    Ok(told == Some(Status::BAD_CONTINUATION_POINT_INVALID))
}

/// Whether the point is refused where only four of the five values are held, and those with other bytes where all are.
pub fn refuses_foreign_points<A: Archive>(
    alloc: Global,
    archive: &mut A,
) -> Result<bool, LearnFault> {
    learn_all(alloc, archive, &VALUES[..4])?;
    let mut refused = is_refused(alloc, archive, NONE)?;
    learn_all(alloc, archive, &VALUES[4..])?;
    for patch in &FOREIGN {
        refused = refused && is_refused(alloc, archive, *patch)?;
    }
    Ok(refused)
}

// ---- faults

/// Whether a read of the first page is answered so, and then so.
pub fn are_told<A: Archive>(alloc: Global, archive: &mut A, first: Status, second: Status) -> bool {
    let details = asked(false, AT_5_00, AT_5_07, 2, false);
    status_of(alloc, archive, details, None) == Some(first)
        && status_of(alloc, archive, details, None) == Some(second)
}
