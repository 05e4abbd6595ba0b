//! Records, their bytes, and what a list of them says of a node and a moment.

ghost use Rattle.std.specs.Prelude.{◌≡◌, ◌<◌, false, IsTrue};
ghost use Rattle.std.specs.Ordering.{is_eq};
ghost use Rattle.records.specs.Lists.{IsApart};
ghost use Rattle.records.specs.Records.{record_stamp_cmp};
ghost use Rattle.records.specs.Spelling.{IsRecord};

use history_rows::archives::{is_int, node, shows, value};
use history_rows::written_records::{INSERT_7, is_insert_7};
use records::{
    Entry, Held, HistoryUpdateType, Moment, Record, RecordFault, current_of, entries_of,
    put_record, read_record,
};
use stamp::ReplicaNo;
use std::alloc::{AllocError, Global};
use std::test::Fail;
use ua_binary::{Text, TryClone};

/// A record of one update at this node and source time 10; of an Int32, or a delete.
fn record(
    alloc: Global,
    origin: ReplicaNo,
    tick: i64,
    asked: HistoryUpdateType,
    written: Option<i32>,
) -> Result<Record, AllocError> {
    let node = node(alloc)?;
    let user = Text::from_str(alloc, "ann")?;
    Ok(Record {
        origin,
        number: 1,
        tick,
        node,
        time: Moment::at(10),
        asked,
        user,
        value: value(written),
    })
}

/// Whether these entries have these kinds and show these values.
fn are_shown(entries: &[Entry], shown: &[(HistoryUpdateType, Option<i32>)]) -> bool {
    let mut same = entries.len() == shown.len();
    for (entry, (kind, n)) in entries.iter().zip(shown) {
        same = same && shows(&entry.value, *n) && entry.kind == *kind;
    }
    same
}

/// Whether this is the live value at source time 10, with another record beside it.
fn is_live(held: &Option<Held>, live: Option<i32>) -> bool {
    match (held, live) {
        (Some(held), Some(n)) => is_int(&held.value, n)
            && held.extra
            && held.time == Moment::at(10),
        (None, None) => true,
        _ => false,
    }
}

/// Whether the records show this live value.
fn shows_live(alloc: Global, records: &[Record], live: Option<i32>) -> Result<bool, Fail>
    requires { IsApart record_stamp_cmp records.now }
{
    let node = node(alloc)?;
    let held = current_of(alloc, records, &node, Moment::at(10))?;
    Ok(is_live(&held, live))
}

/// Whether the records show these entries.
fn shows_entries(
    alloc: Global,
    records: &[Record],
    shown: &[(HistoryUpdateType, Option<i32>)],
) -> Result<bool, Fail>
    requires { IsApart record_stamp_cmp records.now }
{
    let node = node(alloc)?;
    let entries = entries_of(alloc, records, &node, Moment::at(10))?;
    Ok(are_shown(entries.as_slice(), shown))
}

/// Whether two records have two ticks.
#[tactic(auto, using(records::proofs::Orders::apart_by_test))]
fn have_two_ticks(a: &Record, b: &Record) -> bool
    ensures { IsTrue result → is_eq (record_stamp_cmp a.now b.now) ≡ false }
{
    a.tick != b.tick
}

/// Whether two records have two origins.
#[tactic(auto, using(records::proofs::Orders::apart_by_origin))]
fn have_two_origins(a: &Record, b: &Record) -> bool
    ensures { IsTrue result → is_eq (record_stamp_cmp a.now b.now) ≡ false }
{
    a.origin != b.origin
}

/// What two updates show, in any order.
#[derive(Drop)]
struct Case {
    origins: [u8; 2],
    ticks: [i64; 2],
    asked: [HistoryUpdateType; 2],
    written: [Option<i32>; 2],
    live: Option<i32>,
    shown: [(HistoryUpdateType, Option<i32>); 2],
}

/// One of the updates of a case.
fn update(alloc: Global, case: &Case, i: usize) -> Result<Record, RecordFault>
    requires { i < 2 }
{
    match ReplicaNo::new(case.origins[i]) {
        Some(origin) => Ok(record(alloc, origin, case.ticks[i], case.asked[i], case.written[i])?),
        None => Err(RecordFault::BadField),
    }
}

/// The updates of a case, the first of them being this one.
fn updates(alloc: Global, case: &Case, first: usize) -> Result<Vec<Record>, Fail>
    requires { first < 2 }
{
    let mut records = Vec::new(alloc);
    records.push(update(alloc, case, first)?)?;
    records.push(update(alloc, case, 1 - first)?)?;
    Ok(records)
}

/// Whether these are two records with two stamps.
fn are_two(records: &[Record]) -> bool
    ensures { IsTrue result → IsApart record_stamp_cmp records.now }
{
    match records {
        [one, other] => have_two_ticks(one, other) || have_two_origins(one, other),
        _ => false,
    }
}

/// Whether the updates of a case show what they should, the first of them being this one.
fn holds(alloc: Global, case: &Case, first: usize) -> Result<bool, Fail>
    requires { first < 2 }
{
    let records = updates(alloc, case, first)?;
    if !are_two(&records) {
        return Ok(false);
    }
    let live = shows_live(alloc, &records, case.live)?;
    Ok(live && shows_entries(alloc, &records, &case.shown)?)
}

#[test]
fn two_updates_in_both_orders(rt: HostRuntime) -> Result<(), Fail> {
    use HistoryUpdateType::{Delete, Insert, Replace, Update};
    let cases = [
        Case {
            origins: [1, 2],
            ticks: [100, 100],
            asked: [Insert, Insert],
            written: [Some(7), Some(8)],
            live: Some(8),
            shown: [(Insert, Some(7)), (Replace, Some(7))],
        },
        Case {
            origins: [1, 1],
            ticks: [100, 101],
            asked: [Insert, Update],
            written: [Some(7), Some(8)],
            live: Some(8),
            shown: [(Insert, Some(7)), (Update, Some(7))],
        },
        Case {
            origins: [1, 1],
            ticks: [101, 102],
            asked: [Update, Delete],
            written: [Some(8), None],
            live: None,
            shown: [(Insert, Some(8)), (Delete, Some(8))],
        },
        Case {
            origins: [1, 1],
            ticks: [102, 103],
            asked: [Delete, Insert],
            written: [None, Some(9)],
            live: Some(9),
            shown: [(Delete, None), (Insert, Some(9))],
        },
    ];
    for case in &cases {
        for first in 0..2 {
            assert!(rt; holds(rt.alloc(), case, first)?);
        }
    }
    Ok(())
}

/// Whether a record is written as these bytes.
fn is_written(alloc: Global, written: &Record, bytes: &[u8]) -> bool
    requires { IsRecord written.now }
{
    let mut out = Vec::new(alloc);
    put_record(&mut out, written).is_ok() && out.as_slice() == bytes
}

/// Whether a record is copied.
fn is_copied(record: &Record) -> Result<bool, AllocError> {
    let copy = record.try_clone()?;
    Ok(copy == *record)
}

/// Whether a record is written as these bytes, counted, lawful and copied.
fn is_kept(alloc: Global, written: &Record, bytes: &[u8]) -> Result<bool, AllocError>
    requires { IsRecord written.now }
{
    let copied = is_copied(written)?;
    let counted = written.encoded_size() == bytes.len();
    Ok(copied && counted && written.is_lawful() && is_written(alloc, written, bytes))
}

/// Whether the bytes are read as a record that is written as these bytes, and copied.
fn there_and_back(alloc: Global, bytes: &[u8]) -> Result<bool, AllocError> {
    match read_record(alloc, bytes) {
        Ok(r) => is_kept(alloc, &r, bytes),
        Err(_) => Ok(false),
    }
}

#[test]
fn records_there_and_back(rt: HostRuntime) -> Result<(), Fail> {
    let spelled = [
        INSERT_7.as_slice(),
        &[
            2, 64, 255, 255, 255, 255, 255, 255, 255, 63, 255, 255, 255, 255, 255, 255, 255, 63, 0,
            85, 255, 255, 255, 255, 255, 255, 255, 127, 15, 39, 4, 0, 0, 0, 0, 0,
        ],
    ];
    for bytes in spelled {
        assert!(rt; there_and_back(rt.alloc(), bytes)?);
    }
    Ok(())
}

#[test]
fn the_record_that_is_read(rt: HostRuntime) -> Result<(), Fail> {
    let one = ReplicaNo::new(1).ok_or("a replica")?;
    let wanted = record(rt.alloc(), one, 100, HistoryUpdateType::Insert, Some(7))?;
    assert!(rt; is_insert_7(rt.alloc(), &wanted));
    Ok(())
}

/// The fault of bytes that are no record.
fn fault_of(alloc: Global, bytes: &[u8]) -> Option<RecordFault> {
    match read_record(alloc, bytes) {
        Ok(_) => None,
        Err(fault) => Some(fault),
    }
}

/// The bytes of Insert 7 with one of them changed.
fn changed(alloc: Global, place: usize, byte: u8) -> Result<Vec<u8>, AllocError> {
    let mut bytes = Vec::from_slice(alloc, &INSERT_7)?;
    if place < bytes.len() {
        bytes[place] = byte;
    } else {
        bytes.push(byte)?;
    }
    Ok(bytes)
}

/// The fault of the bytes of Insert 7 with one of them changed.
fn fault_of_changed(
    alloc: Global,
    place: usize,
    byte: u8,
) -> Result<Option<RecordFault>, AllocError> {
    let bytes = changed(alloc, place, byte)?;
    Ok(fault_of(alloc, &bytes))
}

#[test]
fn refused_records(rt: HostRuntime) -> Result<(), Fail> {
    let refused = [
        (0usize, 1u8, RecordFault::BadField),
        (1, 0, RecordFault::BadField),
        (1, 65, RecordFault::BadField),
        (2, 0, RecordFault::BadField),
        (9, 64, RecordFault::BadField),
        (10, 0, RecordFault::BadField),
        (17, 64, RecordFault::BadField),
        (18, 6, RecordFault::Binary),
        (25, 255, RecordFault::Binary),
        (33, 255, RecordFault::BadField),
        (35, 40, RecordFault::BadField),
        (36, 0, RecordFault::BadField),
        (36, 5, RecordFault::BadField),
        (36, 4, RecordFault::BadField),
        (41, 255, RecordFault::Binary),
        (44, 64, RecordFault::Binary),
        (45, 70, RecordFault::Binary),
        (50, 0, RecordFault::Binary),
    ];
    for (place, byte, fault) in refused {
        let got = fault_of_changed(rt.alloc(), place, byte)?;
        assert!(rt; got == Some(fault), "{byte} at {place}");
    }
    for end in 0..50 {
        assert!(rt; fault_of(rt.alloc(), &INSERT_7[..end]) == Some(RecordFault::Binary));
    }
    Ok(())
}

#[test]
fn records_spelled_otherwise(rt: HostRuntime) -> Result<(), Fail> {
    let front = [2u8, 1, 1, 0, 0, 0, 0, 0, 0, 0, 100, 0, 0, 0, 0, 0, 0, 0];
    let otherwise = [
        (
            [0, 85, 10, 0, 0, 0, 0, 0, 0, 0, 0, 0, 1, 0, 0, 0, 0, 1, 1, 2].as_slice(),
            RecordFault::NotCanonical,
        ),
        (
            &[
                1, 0, 85, 0, 10, 0, 0, 0, 0, 0, 0, 0, 0, 0, 1, 0, 0, 0, 0, 1, 1, 1,
            ],
            RecordFault::NotCanonical,
        ),
        (
            &[
                0, 85, 10, 0, 0, 0, 0, 0, 0, 0, 0, 0, 1, 255, 255, 255, 255, 1, 1, 1,
            ],
            RecordFault::BadField,
        ),
        (
            &[
                0, 85, 10, 0, 0, 0, 0, 0, 0, 0, 0, 0, 1, 0, 0, 0, 0, 5, 1, 1, 10, 0, 0, 0, 0, 0, 0,
                0,
            ],
            RecordFault::BadField,
        ),
        (
            &[0, 85, 10, 0, 0, 0, 0, 0, 0, 0, 0, 0, 1, 0, 0, 0, 0, 64],
            RecordFault::Binary,
        ),
    ];
    for (rest, fault) in otherwise {
        let got = fault_of_both(rt.alloc(), &front, rest)?;
        assert!(rt; got == Some(fault), "at {rest:?}");
    }
    Ok(())
}

/// The fault of both pieces, one behind the other.
fn fault_of_both(
    alloc: Global,
    front: &[u8],
    rest: &[u8],
) -> Result<Option<RecordFault>, AllocError> {
    let mut bytes = Vec::from_slice(alloc, front)?;
    bytes.extend_from_slice(rest)?;
    Ok(fault_of(alloc, &bytes))
}

#[test]
fn numbers_of_faults(rt: HostRuntime) {
    let faults = [
        RecordFault::Binary,
        RecordFault::BadField,
        RecordFault::NotCanonical,
        RecordFault::OutOfMemory,
    ];
    for i in 0..4 {
        assert!(rt; faults[i].number() as usize == i + 1);
    }
}
