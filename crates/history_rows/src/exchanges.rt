//! Batches, and replicas that are sent what they lack.

ghost use Rattle.std.specs.Prelude.{IsTrue};
ghost use Rattle.std.specs.List.{AllByRecursion};
ghost use Rattle.records.specs.Spelling.{IsLawfulRecord};

use crate::archives::{is_int, node};
use HistoryUpdateType::{Insert, Replace};
use archive::{Archive, Direction, LearnFault, StoreFault};
use exchange::{Batch, ExchangeFault, Replica};
use records::{Entry, Held, HistoryUpdateType, Moment, Record};
use stamp::{ReplicaNo, Vector};
use std::alloc::{AllocError, Global};
use ua_binary::{Listing, Text};
use ua_variant::{DataValue, Scalar, Variant};

/// An insert at node ns=1;s=T and source time 10: origin, number, tick, and the value.
pub type Row = (u8, u64, i64, i32);

fn value(written: Variant) -> DataValue {
    DataValue {
        value: Some(written),
        status: None,
        source_time: None,
        source_pico: None,
        server_time: None,
        server_pico: None,
    }
}

/// An insert of this value at node ns=1;s=T and source time 10.
pub fn record(
    alloc: Global,
    origin: ReplicaNo,
    number: u64,
    tick: i64,
    written: Variant,
) -> Result<Record, AllocError> {
    let node = node(alloc)?;
    let user = Text::from_str(alloc, "ann")?;
    Ok(Record {
        origin,
        number,
        tick,
        node,
        time: Moment::at(10),
        asked: Insert,
        user,
        value: value(written),
    })
}

/// A replica by its number.
pub fn replica_number(number: u8) -> Result<ReplicaNo, StoreFault> {
    match ReplicaNo::new(number) {
        Some(number) => Ok(number),
        None => Err(StoreFault::WrongReplica),
    }
}

/// One record more.
pub fn push(records: &mut Vec<Record>, record: Record) -> Result<(), AllocError> {
    records.push(record)?;
    Ok(())
}

/// The record of a row.
fn insert_of(alloc: Global, row: &Row) -> Result<Record, StoreFault> {
    let (origin, number, tick, written) = *row;
    let origin = replica_number(origin)?;
    Ok(record(
        alloc,
        origin,
        number,
        tick,
        Variant::Scalar(Scalar::Int32(written)),
    )?)
}

fn batch(alloc: Global, rows: &[Row]) -> Result<Batch, StoreFault> {
    let mut records = Vec::new(alloc);
    for row in rows {
        push(&mut records, insert_of(alloc, row)?)?;
    }
    Ok(Batch {
        records: Listing::of(records),
    })
}

fn is_lawful(held: &Record) -> bool
    ensures { IsTrue result → IsLawfulRecord held.now }
{
    held.is_lawful()
}

/// Whether each of the records is lawful.
fn are_lawful(records: &[Record]) -> bool
    ensures { IsTrue result → AllByRecursion IsLawfulRecord records.now }
{
    for held in records {
        if !is_lawful(held) {
            return false;
        }
    }
    true
}

/// What a replica answers to a batch.
pub fn merge<A: Archive>(replica: &mut Replica<A>, batch: &Batch) -> Result<u32, ExchangeFault> {
    if are_lawful(batch.records.as_slice()) {
        replica.merge(batch)
    } else {
        Err(ExchangeFault::Frame)
    }
}

/// What a replica answers to a batch of these rows.
pub fn merge_rows<A: Archive>(
    alloc: Global,
    replica: &mut Replica<A>,
    rows: &[Row],
) -> Result<u32, ExchangeFault> {
    let batch = batch(alloc, rows)?;
    merge(replica, &batch)
}

/// Sends to a replica what it lacks of another one.
fn send<A: Archive>(
    alloc: Global,
    from: &mut Replica<A>,
    to: &mut Replica<A>,
) -> Result<u32, ExchangeFault> {
    let theirs = to.archive.vector()?;
    let batch = from.answer(alloc, &theirs)?;
    merge(to, &batch)
}

fn is_entry(entry: &Entry, kind: HistoryUpdateType, written: i32) -> bool {
    match &entry.value {
        Some(shown) => entry.kind == kind && entry.tick == 100 && is_int(shown, written),
        None => false,
    }
}

fn are_entries(entries: &[Entry], wanted: &[(HistoryUpdateType, i32)]) -> bool {
    let mut same = entries.len() == wanted.len();
    for (entry, (kind, written)) in entries.iter().zip(wanted) {
        same = same && is_entry(entry, *kind, *written);
    }
    same
}

/// Whether one value is live, this one, and another record stands beside it.
fn is_live_alone(lives: &[Held], written: i32) -> bool {
    match lives {
        [held] => held.extra && is_int(&held.value, written),
        _ => false,
    }
}

/// Whether 8 is live, and the modifications are a replacement of 7 and the insert of it.
pub fn shows_both<A: Archive>(alloc: Global, archive: &mut A) -> Result<bool, StoreFault> {
    let node = node(alloc)?;
    let all = archive.vector()?;
    let (from, to) = (Moment::at(1), Moment::at(100));
    let log = archive.log(alloc, &node, from, to, None, Direction::Forward, 9, &all)?;
    let logged = are_entries(&log, &[(Replace, 7), (Insert, 7)]);
    drop(log);
    let lives = archive.range(alloc, &node, from, to, Direction::Forward, 9, &all)?;
    Ok(logged && is_live_alone(&lives, 8))
}

/// Whether two replicas hold the same records.
pub fn are_equal<A: Archive>(
    alloc: Global,
    one: &mut Replica<A>,
    two: &mut Replica<A>,
) -> Result<bool, StoreFault> {
    let ones = one.archive.since(alloc, &Vector::new(), 99)?;
    let twos = two.archive.since(alloc, &Vector::new(), 99)?;
    Ok(ones.len() == 2 && ones.as_slice() == twos.as_slice())
}

/// Whether two replicas that hold nothing insert a value each, are sent what they lack, and then show both.
pub fn meet<A: Archive>(
    alloc: Global,
    one: &mut Replica<A>,
    two: &mut Replica<A>,
) -> Result<bool, StoreFault> {
    let met = merge_rows(alloc, one, &[(1, 1, 100, 7)]) == Ok(1)
        && merge_rows(alloc, two, &[(2, 1, 100, 8)]) == Ok(1)
        && send(alloc, one, two) == Ok(1)
        && send(alloc, two, one) == Ok(1)
        && send(alloc, one, two) == Ok(0);
    Ok(
        met && shows_both(alloc, &mut one.archive)?
            && shows_both(alloc, &mut two.archive)?
            && are_equal(alloc, one, two)?,
    )
}

/// Batches one after the other, each with its answer and how many records of replica 2 are then held.
static MERGES: [(&[Row], Result<u32, ExchangeFault>, u64); 7] = [
    (&[], Ok(0), 0),
    (&[(2, 1, 100, 7)], Ok(1), 1),
    (
        &[(2, 3, 102, 9), (2, 4, 103, 10)],
        Err(ExchangeFault::Learn {
            learned: 0,
            cause: LearnFault::Gap { held: 1, got: 3 },
        }),
        1,
    ),
    (&[(2, 1, 100, 7), (2, 2, 101, 8)], Ok(1), 2),
    (
        &[(2, 1, 100, 7), (2, 2, 101, 0), (2, 3, 102, 9)],
        Err(ExchangeFault::Learn {
            learned: 1,
            cause: LearnFault::Clash,
        }),
        2,
    ),
    (&[(2, 3, 102, 9), (2, 4, 103, 10)], Ok(2), 4),
    (&[(2, 3, 102, 9), (2, 4, 103, 10)], Ok(0), 4),
];

/// How many records of a replica an archive holds.
pub fn held_of<A: Archive>(archive: &mut A, number: u8) -> Result<u64, StoreFault> {
    let number = replica_number(number)?;
    let vector = archive.vector()?;
    Ok(vector.get(number))
}

/// The first of the batches that is answered otherwise, or leaves other records.
pub fn first_other_batch<A: Archive>(alloc: Global, replica: &mut Replica<A>) -> Option<usize> {
    for (i, (rows, told, held)) in MERGES.iter().enumerate() {
        if merge_rows(alloc, replica, rows) != *told
            || held_of(&mut replica.archive, 2) != Ok(*held)
        {
            return Some(i);
        }
    }
    None
}
