//! Records that an archive learns, and each query of it.

use Direction::{Backward, Forward};
use HistoryUpdateType::{Delete, Insert, Replace, Update};
use archive::{
    Archive, Direction, Failure, LearnFault, ListArchive, LogPlace, ScriptedArchive, StoreFault,
};
use records::{Entry, Held, HistoryUpdateType, Moment, Record};
use stamp::{ReplicaNo, Stamp, Vector};
use std::alloc::{AllocError, Global};
use std::test::Fail;
use ua_binary::{NodeId, Text};
use ua_variant::{DataValue, Scalar, Variant};
use uuid::Uuid;

/// An update of node ns=1;s=T: origin, number, tick, source time, what was asked, and the value.
pub type Row = (u8, u64, i64, i64, HistoryUpdateType, Option<i32>);

/// The node ns=1;s=T.
pub fn node(alloc: Global) -> Result<NodeId, AllocError> {
    Ok(NodeId::Named(1, Text::from_str(alloc, "T")?))
}

/// An Int32 with no times, or no value.
pub fn value(written: Option<i32>) -> DataValue {
    DataValue {
        value: written.map(|n| Variant::Scalar(Scalar::Int32(n))),
        status: None,
        source_time: None,
        source_pico: None,
        server_time: None,
        server_pico: None,
    }
}

fn record(alloc: Global, row: &Row) -> Result<Record, StoreFault> {
    let (origin, number, tick, time, asked, written) = *row;
    let Some(origin) = ReplicaNo::new(origin) else {
        return Err(StoreFault::WrongReplica);
    };
    let node = node(alloc)?;
    let user = Text::from_str(alloc, "ann")?;
    Ok(Record {
        origin,
        number,
        tick,
        node,
        time: Moment::at(time),
        asked,
        user,
        value: value(written),
    })
}

/// What an archive answers to this update.
pub fn learn<A: Archive>(alloc: Global, archive: &mut A, row: &Row) -> Result<bool, LearnFault> {
    let record = record(alloc, row)?;
    if record.is_lawful() {
        archive.learn(&record)
    } else {
        Err(LearnFault::Store(StoreFault::Refused))
    }
}

/// An archive of replica 1 that holds nothing.
pub fn list_archive(alloc: Global) -> Result<ListArchive, StoreFault> {
    match ReplicaNo::new(1) {
        Some(one) => Ok(ListArchive::new(alloc, Uuid::nil(), one)),
        None => Err(StoreFault::WrongReplica),
    }
}

/// One whose call of this number fails so.
pub fn scripted_archive(
    alloc: Global,
    call: u64,
    failure: Failure,
) -> Result<ScriptedArchive, StoreFault> {
    match ReplicaNo::new(1) {
        Some(one) => Ok(ScriptedArchive::new(alloc, Uuid::nil(), one, call, failure)),
        None => Err(StoreFault::WrongReplica),
    }
}

/// Updates one after the other, each with its answer.
static LEARNED: [(Row, Result<bool, LearnFault>); 16] = [
    ((1, 1, 100, 10, Insert, Some(7)), Ok(true)),
    ((1, 1, 100, 10, Insert, Some(7)), Ok(false)),
    ((1, 1, 100, 10, Insert, Some(8)), Err(LearnFault::Clash)),
    (
        (1, 3, 101, 10, Update, Some(8)),
        Err(LearnFault::Gap { held: 1, got: 3 }),
    ),
    (
        (1, 2, 100, 10, Update, Some(8)),
        Err(LearnFault::TickNotRising),
    ),
    (
        (1, 2, 4_611_686_018_427_387_904, 10, Update, Some(8)),
        Err(LearnFault::TickTooFar),
    ),
    ((2, 1, 100, 10, Insert, Some(1)), Ok(true)),
    (
        (2, 3, 102, 10, Update, Some(3)),
        Err(LearnFault::Gap { held: 1, got: 3 }),
    ),
    ((2, 2, 101, 10, Update, Some(2)), Ok(true)),
    ((2, 3, 102, 10, Update, Some(3)), Ok(true)),
    ((2, 4, 103, 10, Delete, None), Ok(true)),
    ((2, 4, 103, 10, Delete, None), Ok(false)),
    ((2, 2, 101, 10, Update, Some(3)), Err(LearnFault::Clash)),
    ((1, 2, 864_000_000_100, 20, Insert, Some(5)), Ok(true)),
    (
        (2, 5, 4_611_686_018_427_387_903, 20, Insert, Some(6)),
        Ok(true),
    ),
    (
        (2, 6, 4_611_686_018_427_387_903, 20, Insert, Some(6)),
        Err(LearnFault::TickNotRising),
    ),
];

/// Whether the updates are answered so, and which vector and top are left.
pub fn learns_in_order<A: Archive>(alloc: Global, archive: &mut A) -> Result<bool, Fail> {
    for (row, answer) in &LEARNED {
        if learn(alloc, archive, row) != *answer {
            return Ok(false);
        }
    }
    let (Some(one), Some(two)) = (ReplicaNo::new(1), ReplicaNo::new(2)) else {
        return Ok(false);
    };
    let vector = archive.vector()?;
    Ok(
        vector.get(one) == 2
            && vector.get(two) == 5
            && archive.top()? == 4_611_686_018_427_387_903
            && archive.faults() == 0
            && archive.number() == one
            && archive.id() == Uuid::nil(),
    )
}

/// Source times at 5:00, 5:01 and so on, in minutes of 600,000,000 steps.
const AT_5_00: i64 = 180_000_000_000;

const AT_5_01: i64 = 180_600_000_000;

const AT_5_02: i64 = 181_200_000_000;

const AT_5_03: i64 = 181_800_000_000;

const AT_5_04: i64 = 182_400_000_000;

const AT_5_05: i64 = 183_000_000_000;

const AT_5_06: i64 = 183_600_000_000;

/// Four updates at 10, two at 20 that come in another order than their stamps', five values, and one
/// that is deleted at 5:04.
static CONTENT: [Row; 13] = [
    (1, 1, 100, 10, Insert, Some(7)),
    (1, 2, 101, 10, Update, Some(8)),
    (1, 3, 102, 10, Delete, None),
    (1, 4, 103, 10, Insert, Some(9)),
    (2, 1, 104, AT_5_00, Insert, Some(0)),
    (2, 2, 105, AT_5_02, Insert, Some(2)),
    (2, 3, 106, AT_5_03, Insert, Some(3)),
    (2, 4, 107, AT_5_05, Insert, Some(5)),
    (2, 5, 108, AT_5_06, Insert, Some(6)),
    (1, 5, 109, AT_5_04, Insert, Some(4)),
    (1, 6, 110, AT_5_04, Delete, None),
    (1, 7, 120, 20, Insert, Some(1)),
    (3, 1, 115, 20, Insert, Some(11)),
];

fn fill<A: Archive>(alloc: Global, archive: &mut A) -> Result<(), LearnFault> {
    for row in &CONTENT {
        learn(alloc, archive, row)?;
    }
    Ok(())
}

/// Whether a value is this Int32.
pub fn is_int(v: &DataValue, n: i32) -> bool {
    match &v.value {
        Some(Variant::Scalar(Scalar::Int32(m))) => *m == n,
        _ => false,
    }
}

/// Whether these are live values with these numbers, of which 9, 8 and 1 stand beside other records.
fn are_lives(lives: &[Held], numbers: &[i32]) -> bool {
    let mut same = lives.len() == numbers.len();
    for (held, n) in lives.iter().zip(numbers) {
        same = same && is_int(&held.value, *n) && held.extra == (*n == 9 || *n == 8 || *n == 1);
    }
    same
}

static RANGES: [(i64, i64, Direction, usize, &[i32]); 12] = [
    (1, 100, Forward, 9, &[9, 1]),
    (10, 20, Backward, 9, &[1, 9]),
    (AT_5_02, AT_5_05, Forward, 9, &[2, 3, 5]),
    (AT_5_02, AT_5_05, Backward, 9, &[5, 3, 2]),
    (AT_5_02, AT_5_05, Forward, 1, &[2]),
    (AT_5_02, AT_5_05, Backward, 2, &[5, 3]),
    (AT_5_02, AT_5_05, Forward, 0, &[]),
    (AT_5_03, AT_5_03, Forward, 9, &[3]),
    (AT_5_04, AT_5_04, Forward, 9, &[]),
    (AT_5_05, AT_5_02, Forward, 9, &[]),
    (1, i64::MAX, Forward, 99, &[9, 1, 0, 2, 3, 5, 6]),
    (-5, i64::MAX, Backward, 3, &[6, 5, 3]),
];

fn gives_ranges<A: Archive>(
    alloc: Global,
    archive: &mut A,
    node: &NodeId,
    all: &Vector,
) -> Result<bool, StoreFault> {
    for (from, to, direction, limit, wanted) in &RANGES {
        let lives = archive.range(
            alloc,
            node,
            Moment::at(*from),
            Moment::at(*to),
            *direction,
            *limit,
            all,
        )?;
        if !are_lives(&lives, wanted) {
            return Ok(false);
        }
    }
    Ok(true)
}

/// The live value strictly beyond a time.
static OUTSIDE: [(i64, Direction, &[i32]); 8] = [
    (AT_5_00, Forward, &[2]),
    (AT_5_00, Backward, &[1]),
    (AT_5_01, Backward, &[0]),
    (AT_5_03, Forward, &[5]),
    (AT_5_05, Backward, &[3]),
    (AT_5_06, Forward, &[]),
    (10, Forward, &[1]),
    (10, Backward, &[]),
];

fn is_next(next: Option<Held>, wanted: &[i32]) -> bool {
    match next {
        Some(held) => wanted.len() == 1 && is_int(&held.value, wanted[0]),
        None => wanted.is_empty(),
    }
}

fn gives_next<A: Archive>(
    alloc: Global,
    archive: &mut A,
    node: &NodeId,
    all: &Vector,
) -> Result<bool, StoreFault> {
    for (time, direction, wanted) in &OUTSIDE {
        let next = archive.next_outside(alloc, node, Moment::at(*time), *direction, all)?;
        if !is_next(next, wanted) {
            return Ok(false);
        }
    }
    Ok(true)
}

/// What a modification did, the number that it shows, and its tick.
type Shown = (HistoryUpdateType, Option<i32>, i64);

/// Whether a value is this Int32, or there is none.
pub fn shows(value: &Option<DataValue>, n: Option<i32>) -> bool {
    match (value, n) {
        (Some(v), Some(n)) => is_int(v, n),
        (None, None) => true,
        _ => false,
    }
}

fn are_entries(entries: &[Entry], wanted: &[Shown]) -> bool {
    let mut same = entries.len() == wanted.len();
    for (entry, (kind, n, tick)) in entries.iter().zip(wanted) {
        same = same && entry.kind == *kind && shows(&entry.value, *n) && entry.tick == *tick;
    }
    same
}

/// From, to, the time, tick and origin of the place, direction, limit, and what is shown.
static LOGS: [(i64, i64, Option<(i64, i64, u8)>, Direction, usize, &[Shown]); 11] = [
    (
        1,
        19,
        None,
        Forward,
        9,
        &[
            (Insert, Some(9), 103),
            (Delete, Some(8), 102),
            (Update, Some(7), 101),
            (Insert, Some(7), 100),
        ],
    ),
    (
        10,
        10,
        None,
        Backward,
        3,
        &[
            (Insert, Some(7), 100),
            (Update, Some(7), 101),
            (Delete, Some(8), 102),
        ],
    ),
    (
        1,
        19,
        Some((10, 102, 1)),
        Forward,
        9,
        &[(Update, Some(7), 101), (Insert, Some(7), 100)],
    ),
    (
        1,
        19,
        Some((10, 102, 1)),
        Backward,
        9,
        &[(Insert, Some(9), 103)],
    ),
    (
        1,
        19,
        Some((10, 102, 2)),
        Forward,
        1,
        &[(Delete, Some(8), 102)],
    ),
    (1, 19, Some((11, 1, 1)), Forward, 9, &[]),
    (
        1,
        19,
        Some((11, 1, 1)),
        Backward,
        1,
        &[(Insert, Some(7), 100)],
    ),
    (1, 19, None, Forward, 0, &[]),
    (
        20,
        20,
        None,
        Forward,
        9,
        &[(Replace, Some(11), 120), (Insert, Some(11), 115)],
    ),
    (
        AT_5_03,
        AT_5_05,
        None,
        Forward,
        9,
        &[
            (Insert, Some(3), 106),
            (Delete, Some(4), 110),
            (Insert, Some(4), 109),
            (Insert, Some(5), 107),
        ],
    ),
    (AT_5_05, AT_5_03, None, Backward, 9, &[]),
];

fn place(place: Option<(i64, i64, u8)>) -> Option<LogPlace> {
    let (time, tick, origin) = place?;
    let origin = ReplicaNo::new(origin)?;
    Some(LogPlace {
        time: Moment::at(time),
        stamp: Stamp { tick, origin },
    })
}

fn gives_logs<A: Archive>(
    alloc: Global,
    archive: &mut A,
    node: &NodeId,
    all: &Vector,
) -> Result<bool, StoreFault> {
    for (from, to, after, direction, limit, wanted) in &LOGS {
        let after = place(*after);
        let entries = archive.log(
            alloc,
            node,
            Moment::at(*from),
            Moment::at(*to),
            after,
            *direction,
            *limit,
            all,
        )?;
        if !are_entries(&entries, wanted) {
            return Ok(false);
        }
    }
    Ok(true)
}

/// How many records of replica 1 are looked at, what is live from 1 to 19, what is live next behind 0,
/// and how many modifications there are.
static SNAPSHOTS: [(u64, &[i32], &[i32], usize); 6] = [
    (0, &[], &[], 0),
    (1, &[7], &[7], 1),
    (2, &[8], &[8], 2),
    (3, &[], &[], 3),
    (4, &[9], &[9], 4),
    (9, &[9], &[9], 4),
];

/// A vector of so many records of replica 1, of nine at most.
fn within_first(number: u64) -> Vector {
    let mut within = Vector::new();
    if let Some(one) = ReplicaNo::new(1)
        && number <= 9
    {
        within.raise(one, number);
    }
    within
}

fn gives_snapshots<A: Archive>(
    alloc: Global,
    archive: &mut A,
    node: &NodeId,
) -> Result<bool, StoreFault> {
    let (from, to) = (Moment::at(1), Moment::at(19));
    for (number, live, next, count) in &SNAPSHOTS {
        let within = within_first(*number);
        let lives = are_lives(
            &archive.range(alloc, node, from, to, Forward, 9, &within)?,
            live,
        );
        let outside = archive.next_outside(alloc, node, Moment::at(0), Forward, &within)?;
        let nearest = is_next(outside, next);
        let log = archive.log(alloc, node, from, to, None, Forward, 9, &within)?;
        if !(lives && nearest && log.len() == *count) {
            return Ok(false);
        }
    }
    Ok(true)
}

/// Whether these are the records of these origins and numbers.
fn are_records(records: &[Record], names: &[(u8, u64)]) -> bool {
    let mut same = records.len() == names.len();
    for (r, (origin, number)) in records.iter().zip(names) {
        same = same && r.origin.get() == *origin && r.number == *number;
    }
    same
}

static STORIES: [(i64, &[(u8, u64)]); 4] = [
    (10, &[(1, 1), (1, 2), (1, 3), (1, 4)]),
    (20, &[(3, 1), (1, 7)]),
    (AT_5_04, &[(1, 5), (1, 6)]),
    (AT_5_01, &[]),
];

fn gives_stories<A: Archive>(
    alloc: Global,
    archive: &mut A,
    node: &NodeId,
) -> Result<bool, StoreFault> {
    for (time, wanted) in &STORIES {
        let records = archive.at(alloc, node, Moment::at(*time))?;
        if !are_records(&records, wanted) {
            return Ok(false);
        }
    }
    Ok(true)
}

/// A replica and its number in the vector, the limit, and the records that come.
static MISSING: [(u8, u64, usize, &[(u8, u64)]); 6] = [
    (1, 0, 2, &[(1, 1), (1, 2)]),
    (1, 6, 3, &[(1, 7), (2, 1), (2, 2)]),
    (1, 7, 6, &[(2, 1), (2, 2), (2, 3), (2, 4), (2, 5), (3, 1)]),
    (1, 9, 99, &[(2, 1), (2, 2), (2, 3), (2, 4), (2, 5), (3, 1)]),
    (2, 5, 0, &[]),
    (2, 5, 1, &[(1, 1)]),
];

fn gives_missing<A: Archive>(alloc: Global, archive: &mut A) -> Result<bool, StoreFault> {
    for (replica, number, limit, wanted) in &MISSING {
        let Some(replica) = ReplicaNo::new(*replica) else {
            return Ok(false);
        };
        let mut vector = Vector::new();
        if *number <= 9 {
            vector.raise(replica, *number);
        }
        let records = archive.since(alloc, &vector, *limit)?;
        if !are_records(&records, wanted) {
            return Ok(false);
        }
    }
    Ok(true)
}

/// Whether each query is answered from the content.
pub fn answers<A: Archive>(alloc: Global, archive: &mut A) -> Result<bool, Fail> {
    fill(alloc, archive)?;
    archive.reload()?;
    let all = archive.vector()?;
    let node = node(alloc)?;
    Ok(
        gives_ranges(alloc, archive, &node, &all)?
            && gives_next(alloc, archive, &node, &all)?
            && gives_logs(alloc, archive, &node, &all)?
            && gives_snapshots(alloc, archive, &node)?
            && gives_stories(alloc, archive, &node)?
            && gives_missing(alloc, archive)?,
    )
}
