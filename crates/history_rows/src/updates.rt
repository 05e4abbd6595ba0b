//! Updates of node ns=1;s=T by their numbers, with their codes.

ghost use Rattle.std.specs.Prelude.{IsTrue};
ghost use Rattle.std.specs.List.{AllByRecursion};
ghost use Rattle.ua_variant.specs.DataValue.{IsShortData};
ghost use Rattle.hist_update.specs.Outcome.{IsRequest};

use crate::archives::is_int;
use crate::codes::{BAD_TIME, EXISTS, GOOD, INSERTED, NONE_EXISTS, REPLACED, UNAVAILABLE};
use crate::reads::shows_picoseconds;
use crate::written_records::is_insert_7;
use HistoryUpdateType::{Delete, Insert, Update};
use archive::{Archive, Direction, StoreFault};
use hist_update::{Request, delete_at, delete_raw, update_data};
use records::{Entry, Held, HistoryUpdateType, Moment, Record};
use stamp::{ReplicaNo, Vector};
use std::alloc::{AllocError, Global};
use ua_binary::{NodeId, Status, Text, Ticks};
use ua_services::HistoryUpdateResult;
use ua_variant::{DataValue, Scalar, ValueType, Variant};

/// The type of node ns=1;s=T.
pub const INT32: ValueType = ValueType {
    number: 6,
    array: false,
};

fn request(alloc: Global, reading: i64) -> Result<Request, AllocError> {
    let node = NodeId::Named(1, Text::from_str(alloc, "T")?);
    let user = Text::from_str(alloc, "ann")?;
    Ok(Request {
        node,
        user,
        reading,
    })
}

/// Whether the node's id and the user's name are within their limits.
pub fn is_request(request: &Request) -> bool
    ensures { IsTrue result → IsRequest request.now }
{
    let short = match &request.node {
        NodeId::Named(_, name) => name.len() <= 256,
        NodeId::Opaque(_, id) => id.as_slice().len() <= 256,
        _ => true,
    };
    short && request.user.len() <= 256
}

/// Whether a value may be written.
pub fn is_short(value: &DataValue) -> bool
    ensures { IsTrue result → IsShortData value.now }
{
    let close = match value.source_pico {
        Some(pico) => pico <= 9999,
        None => true,
    };
    close && value.server_pico.is_none() && value.size() < 0x8000_0000
}

/// Whether each of the values may be written.
pub fn are_short(values: &[DataValue]) -> bool
    ensures { IsTrue result → AllByRecursion IsShortData values.now }
{
    values.iter().all(is_short)
}

/// A value with this source time.
pub fn value(written: Option<Variant>, time: Option<i64>) -> DataValue {
    DataValue {
        value: written,
        status: None,
        source_time: time.map(Ticks),
        source_pico: None,
        server_time: None,
        server_pico: None,
    }
}

/// An Int32.
pub fn int(written: i32) -> Option<Variant> {
    Some(Variant::Scalar(Scalar::Int32(written)))
}

/// What an update by its number is answered.
pub fn update<A: Archive>(
    alloc: Global,
    archive: &mut A,
    reading: i64,
    value_type: ValueType,
    perform: i32,
    values: &[DataValue],
) -> Result<HistoryUpdateResult, AllocError> {
    let request = request(alloc, reading)?;
    if is_request(&request) && are_short(values) {
        Ok(update_data(alloc, archive, &request, value_type, perform, values))
    } else {
        Err(AllocError)
    }
}

/// What a delete of the values at these times is answered.
pub fn delete<A: Archive>(
    alloc: Global,
    archive: &mut A,
    reading: i64,
    times: &[Ticks],
) -> Result<HistoryUpdateResult, AllocError> {
    let request = request(alloc, reading)?;
    if is_request(&request) {
        Ok(delete_at(alloc, archive, &request, times))
    } else {
        Err(AllocError)
    }
}

/// What a delete of a stretch is answered, of the modifications or of the values.
pub fn erase<A: Archive>(
    alloc: Global,
    archive: &mut A,
    modified: bool,
    start: i64,
    end: i64,
) -> Result<HistoryUpdateResult, AllocError> {
    let request = request(alloc, 100)?;
    if is_request(&request) {
        Ok(delete_raw(alloc, archive, &request, modified, Ticks(start), Ticks(end)))
    } else {
        Err(AllocError)
    }
}

/// The code of the one operation, or the status where there is none.
pub fn code_of(told: &HistoryUpdateResult) -> Status {
    if told.operation_results.len() == 1 {
        told.operation_results[0]
    } else {
        told.status
    }
}

/// One operation: the clock, the number of the update (4 for a delete), the source time, the value, the code.
pub type Row = (i64, i32, i64, i32, Status);

fn operate<A: Archive>(alloc: Global, archive: &mut A, row: &Row) -> Result<Status, AllocError> {
    let (reading, perform, time, written, _) = *row;
    let told = if perform == 4 {
        delete(alloc, archive, reading, &[Ticks(time)])?
    } else {
        let values = [value(int(written), Some(time))];
        update(alloc, archive, reading, INT32, perform, &values)?
    };
    Ok(code_of(&told))
}

/// Whether each operation has its code.
pub fn operates<A: Archive>(
    alloc: Global,
    archive: &mut A,
    rows: &[Row],
) -> Result<bool, AllocError> {
    let mut same = true;
    for row in rows {
        same = same && operate(alloc, archive, row)? == row.4;
    }
    Ok(same)
}

/// Whether the archive holds so many records of its own and has this greatest tick.
fn holds<A: Archive>(archive: &mut A, number: u64, tick: i64) -> Result<bool, StoreFault> {
    let own = archive.number();
    let vector = archive.vector()?;
    Ok(vector.get(own) == number && archive.top()? == tick)
}

static FIRST: [Row; 2] = [(100, 1, 10, 7, INSERTED), (100, 1, 10, 8, EXISTS)];

static NEXT: [Row; 6] = [
    (100, 3, 10, 8, REPLACED),
    (100, 4, 10, 0, GOOD),
    (100, 4, 10, 0, NONE_EXISTS),
    (100, 2, 10, 9, NONE_EXISTS),
    (100, 4, 0, 0, BAD_TIME),
    (100, 1, 10, 9, INSERTED),
];

/// What was asked for at a source time, and the tick, in order.
fn is_story(records: &[Record], wanted: &[(HistoryUpdateType, i64)]) -> bool {
    let mut same = records.len() == wanted.len();
    for (record, (asked, tick)) in records.iter().zip(wanted) {
        same = same && record.asked == *asked && record.tick == *tick;
    }
    same
}

fn has_story<A: Archive>(
    alloc: Global,
    archive: &mut A,
    node: &NodeId,
    time: i64,
    wanted: &[(HistoryUpdateType, i64)],
) -> Result<bool, StoreFault> {
    let story = archive.at(alloc, node, Moment::at(time))?;
    Ok(is_story(&story, wanted))
}

fn is_entry(entry: &Entry, kind: HistoryUpdateType, written: i32) -> bool {
    match &entry.value {
        Some(shown) => entry.kind == kind && is_int(shown, written),
        None => false,
    }
}

fn are_entries(entries: &[Entry], wanted: &[(HistoryUpdateType, i32)]) -> bool {
    let mut same = entries.len() == wanted.len();
    for (entry, (kind, written)) in entries.iter().zip(wanted) {
        same = same && is_entry(entry, *kind, *written);
    }
    same
}

/// Whether one value is live, this one, and another record stands beside it.
fn is_live_alone(lives: &[Held], written: i32) -> bool {
    match lives {
        [held] => held.extra && is_int(&held.value, written),
        _ => false,
    }
}

static SHOWN: [(HistoryUpdateType, i32); 4] = [(Insert, 9), (Delete, 8), (Update, 7), (Insert, 7)];

/// Whether the modifications and the live values from 1 to 100 are those of the two lists of operations.
fn shows_all<A: Archive>(
    alloc: Global,
    archive: &mut A,
    node: &NodeId,
) -> Result<bool, StoreFault> {
    let all = archive.vector()?;
    let (from, to) = (Moment::at(1), Moment::at(100));
    let log = archive.log(alloc, node, from, to, None, Direction::Forward, 9, &all)?;
    let logged = are_entries(&log, &SHOWN);
    drop(log);
    let lives = archive.range(alloc, node, from, to, Direction::Forward, 9, &all)?;
    Ok(logged && is_live_alone(&lives, 9))
}

static STORY: [(HistoryUpdateType, i64); 4] = [
    (Insert, 100),
    (Update, 101),
    (Delete, 102),
    (Insert, 103),
];

/// Whether the first record of all is the insert of 7.
fn begins_with_insert_7<A: Archive>(alloc: Global, archive: &mut A) -> Result<bool, StoreFault> {
    let all = archive.since(alloc, &Vector::new(), 1)?;
    match all.first() {
        Some(first) => Ok(is_insert_7(alloc, first)),
        None => Ok(false),
    }
}

/// Whether the two lists of operations have their codes, and the records and entries of them are there then.
pub fn operates_all<A: Archive>(alloc: Global, archive: &mut A) -> Result<bool, StoreFault> {
    let operated = operates(alloc, archive, &FIRST)? && operates(alloc, archive, &NEXT)?;
    let request = request(alloc, 0)?;
    Ok(
        operated
            && begins_with_insert_7(alloc, archive)?
            && has_story(alloc, archive, &request.node, 10, &STORY)?
            && shows_all(alloc, archive, &request.node)?,
    )
}

/// Another replica's record with the greatest tick.
fn last_record(alloc: Global) -> Result<Record, StoreFault> {
    let Some(origin) = ReplicaNo::new(2) else {
        return Err(StoreFault::WrongReplica);
    };
    let request = request(alloc, 0)?;
    Ok(Record {
        origin,
        number: 1,
        tick: 4_611_686_018_427_387_903,
        node: request.node,
        time: Moment::at(30),
        asked: Insert,
        user: request.user,
        value: value(int(1), None),
    })
}

/// Whether the other replica's record is learned.
fn learns_last<A: Archive>(alloc: Global, archive: &mut A) -> Result<bool, StoreFault> {
    let record = last_record(alloc)?;
    Ok(record.is_lawful() && archive.learn(&record) == Ok(true))
}

static LATER: [Row; 1] = [(864_000_000_100, 1, 20, 1, INSERTED)];

static LATEST: [Row; 1] = [(100, 3, 20, 2, REPLACED)];

static RISEN: [(HistoryUpdateType, i64); 2] = [
    (Insert, 864_000_000_100),
    (Update, 864_000_000_101),
];

/// Behind the greatest tick there is none left.
static NONE_LEFT: [Row; 3] = [
    (100, 3, 20, 3, UNAVAILABLE),
    (100, 4, 20, 0, UNAVAILABLE),
    (100, 1, 20, 3, EXISTS),
];

/// Whether a tick rises above a greater one that is held, and none is given above the greatest.
pub fn rises<A: Archive>(alloc: Global, archive: &mut A) -> Result<bool, StoreFault> {
    let operated = operates(alloc, archive, &LATER)?;
    archive.reload()?;
    let operated = operated && operates(alloc, archive, &LATEST)?;
    let request = request(alloc, 0)?;
    Ok(
        operated
            && has_story(alloc, archive, &request.node, 20, &RISEN)?
            && learns_last(alloc, archive)?
            && operates(alloc, archive, &NONE_LEFT)?
            && holds(archive, 2, 4_611_686_018_427_387_903)?,
    )
}

/// The code of an insert at 10 with these picoseconds.
fn insert_at_10<A: Archive>(
    alloc: Global,
    archive: &mut A,
    written: i32,
    pico: Option<u16>,
) -> Result<Status, AllocError> {
    let values = [DataValue {
        value: int(written),
        status: None,
        source_time: Some(Ticks(10)),
        source_pico: pico,
        server_time: None,
        server_pico: None,
    }];
    let told = update(alloc, archive, 100, INT32, 1, &values)?;
    Ok(code_of(&told))
}

/// Whether a list is answered by this status and so many codes, of which the last is this one.
pub fn is_told(told: &HistoryUpdateResult, status: Status, count: usize, last: Status) -> bool {
    match told.operation_results.last() {
        Some(code) => told.status == status
            && told.operation_results.len() == count
            && *code == last,
        None => told.status == status && count == 0,
    }
}

/// Deletes of stretches, one after the other: whether modifications are asked for, start, end, the
/// status, and how many codes.
pub type Stretch = (bool, i64, i64, Status, usize);

/// Whether each stretch is deleted so.
pub fn erases<A: Archive>(
    alloc: Global,
    archive: &mut A,
    rows: &[Stretch],
) -> Result<bool, AllocError> {
    let mut same = true;
    for (modified, start, end, status, count) in rows {
        let told = erase(alloc, archive, *modified, *start, *end)?;
        same = same && is_told(&told, *status, *count, GOOD);
    }
    Ok(same)
}

static AT_10: Row = (100, 4, 10, 0, GOOD);

static FROM_10_TO_10: [Stretch; 1] = [(false, 10, 10, GOOD, 1)];

/// Whether two values at one source time, of which one has picoseconds, stand beside each other; the delete at that time
/// takes the one without, and the delete of the stretch the other.
pub fn tells_picoseconds_apart<A: Archive>(
    alloc: Global,
    archive: &mut A,
) -> Result<bool, AllocError> {
    let inserted = insert_at_10(alloc, archive, 7, None)? == INSERTED
        && insert_at_10(alloc, archive, 8, Some(5))? == INSERTED
        && shows_picoseconds(alloc, archive, &[(7, None), (8, Some(5))])?;
    let deleted = operate(alloc, archive, &AT_10)? == GOOD
        && shows_picoseconds(alloc, archive, &[(8, Some(5))])?;
    let erased = erases(alloc, archive, &FROM_10_TO_10)?;
    Ok(inserted && deleted && erased && shows_picoseconds(alloc, archive, &[])?)
}
