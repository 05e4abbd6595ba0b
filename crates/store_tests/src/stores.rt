//! The same queries over an archive in SQLite, which is kept in memory, and a history that is longer than
//! what it reads by one query.

use crate::store_files::is_made;
use Direction::{Backward, Forward};
use HistoryUpdateType::{Delete, Update};
use archive::{Archive, Direction, LearnFault, StoreFault};
use exchange::Replica;
use history_rows::archives::{Row, answers, learn, learns_in_order, list_archive, node};
use history_rows::exchanges::{first_other_batch, meet};
use history_rows::reads::{
    are_of_what_was_held, first_other_modified, first_other_of_five, first_other_of_one,
    refuses_foreign_points,
};
use history_rows::updates::{operates_all, rises, tells_picoseconds_apart};
use records::{HistoryUpdateType, Moment};
use sql_archive::SqlArchive;
use sqlite::MemStore;
use stamp::{ReplicaNo, Vector};
use std::alloc::Global;
use std::test::Fail;
use ua_binary::NodeId;
use uuid::Uuid;

fn sql_archive_of(alloc: Global, number: u8) -> Result<SqlArchive<MemStore>, StoreFault> {
    match ReplicaNo::new(number) {
        Some(number) => SqlArchive::open_in_memory(alloc, Uuid::nil(), number),
        None => Err(StoreFault::WrongReplica),
    }
}

fn sql_archive(alloc: Global) -> Result<SqlArchive<MemStore>, StoreFault> {
    sql_archive_of(alloc, 1)
}

#[test]
fn records_are_learned(rt: HostRuntime) -> Result<(), Fail> {
    let mut archive = sql_archive(rt.alloc())?;
    assert!(rt; learns_in_order(rt.alloc(), &mut archive)?);
    Ok(())
}

#[test]
fn queries_are_answered(rt: HostRuntime) -> Result<(), Fail> {
    let mut archive = sql_archive(rt.alloc())?;
    assert!(rt; answers(rt.alloc(), &mut archive)?);
    Ok(())
}

#[test]
fn queries_are_answered_with_an_index_over_live_values(rt: HostRuntime) -> Result<(), Fail> {
    let mut archive = sql_archive(rt.alloc())?;
    assert!(rt; is_made(&mut archive));
    assert!(rt; answers(rt.alloc(), &mut archive)?);
    Ok(())
}

/// Whether each call of an archive that is broken answers so, and counts.
fn is_broken_so(archive: &mut SqlArchive<MemStore>) -> bool {
    archive.is_broken()
        && archive.top() == Err(StoreFault::Broken)
        && archive.reload() == Err(StoreFault::Broken)
        && archive.faults() == 2
        && archive.number().get() == 1
}

#[test]
fn a_broken_archive_answers_so(rt: HostRuntime) -> Result<(), Fail> {
    let number = sql_archive(rt.alloc())?.number();
    let mut archive = SqlArchive::broken_in_memory(rt.alloc(), Uuid::nil(), number)?;
    assert!(rt; is_broken_so(&mut archive));
    Ok(())
}

#[test]
fn operations_have_their_codes(rt: HostRuntime) -> Result<(), Fail> {
    let mut archive = sql_archive(rt.alloc())?;
    assert!(rt; operates_all(rt.alloc(), &mut archive)?);
    Ok(())
}

#[test]
fn picoseconds_tell_values_apart(rt: HostRuntime) -> Result<(), Fail> {
    let mut archive = sql_archive(rt.alloc())?;
    assert!(rt; tells_picoseconds_apart(rt.alloc(), &mut archive)?);
    Ok(())
}

#[test]
fn raw_reads_have_their_pages(rt: HostRuntime) -> Result<(), Fail> {
    let mut archive = sql_archive(rt.alloc())?;
    assert!(rt; first_other_of_five(rt.alloc(), &mut archive)? == None);
    Ok(())
}

#[test]
fn backward_from_the_only_value(rt: HostRuntime) -> Result<(), Fail> {
    let mut archive = sql_archive(rt.alloc())?;
    assert!(rt; first_other_of_one(rt.alloc(), &mut archive)? == None);
    Ok(())
}

#[test]
fn modified_reads_have_their_pages(rt: HostRuntime) -> Result<(), Fail> {
    let mut archive = sql_archive(rt.alloc())?;
    assert!(rt; first_other_modified(rt.alloc(), &mut archive)? == None);
    Ok(())
}

#[test]
fn later_pages_are_of_what_was_held(rt: HostRuntime) -> Result<(), Fail> {
    let mut archive = sql_archive(rt.alloc())?;
    assert!(rt; are_of_what_was_held(rt.alloc(), &mut archive)?);
    Ok(())
}

#[test]
fn foreign_points_are_refused(rt: HostRuntime) -> Result<(), Fail> {
    let mut archive = sql_archive(rt.alloc())?;
    assert!(rt; refuses_foreign_points(rt.alloc(), &mut archive)?);
    Ok(())
}

#[test]
fn ticks_rise(rt: HostRuntime) -> Result<(), Fail> {
    let mut archive = sql_archive(rt.alloc())?;
    assert!(rt; rises(rt.alloc(), &mut archive)?);
    Ok(())
}

#[test]
fn batches_are_merged(rt: HostRuntime) -> Result<(), Fail> {
    let mut replica = Replica::new(sql_archive(rt.alloc())?);
    assert!(rt; first_other_batch(rt.alloc(), &mut replica) == None);
    Ok(())
}

#[test]
fn two_inserts_meet(rt: HostRuntime) -> Result<(), Fail> {
    let mut one = Replica::new(sql_archive(rt.alloc())?);
    let mut two = Replica::new(sql_archive_of(rt.alloc(), 2)?);
    assert!(rt; meet(rt.alloc(), &mut one, &mut two)?);
    Ok(())
}

/// The updates of a replica in a long history. Replica 1 makes two at each time, of which every tenth is a
/// delete; replica 2 makes one at every seventh time, whose tick lies between those two; replica 3 makes
/// all of its own at one time.
fn long_row(replica: u8, n: u16) -> Row {
    let (number, k) = (u64::from(n), i64::from(n));
    let written = Some(i32::from(n));
    match replica {
        1 if n % 10 == 5 => (1, number, 10 * k, 1 + k / 2, Delete, None),
        1 => (1, number, 10 * k, 1 + k / 2, Update, written),
        2 => (2, number, 140 * k - 15, 7 * k, Update, written),
        _ => (3, number, 10 * k + 3, 20, Update, written),
    }
}

fn fill_long<A: Archive>(
    alloc: Global,
    archive: &mut A,
    replica: u8,
    last: u16,
) -> Result<(), LearnFault> {
    for n in 1..=last {
        learn(alloc, archive, &long_row(replica, n))?;
    }
    Ok(())
}

fn fill_all<A: Archive>(alloc: Global, archive: &mut A) -> Result<(), LearnFault> {
    fill_long(alloc, archive, 1, 80)?;
    fill_long(alloc, archive, 2, 5)?;
    fill_long(alloc, archive, 3, 25)
}

/// How many records of each replica are looked at.
fn within(numbers: [u64; 3]) -> Vector {
    let mut vector = Vector::new();
    for (replica, number) in [1u8, 2, 3].iter().zip(&numbers) {
        if let Some(replica) = ReplicaNo::new(*replica)
            && *number <= 80
        {
            vector.raise(replica, *number);
        }
    }
    vector
}

/// From, to, limit, and how many records of each replica are looked at.
type Reading = (i64, i64, usize, [u64; 3]);

/// Whether two archives show the same values between two times.
fn same_values<A: Archive, B: Archive>(
    alloc: Global,
    one: &mut A,
    two: &mut B,
    node: &NodeId,
    reading: &Reading,
    direction: Direction,
) -> bool {
    let (from, to, limit, numbers) = *reading;
    let (from, to, within) = (Moment::at(from), Moment::at(to), within(numbers));
    let values = one.range(alloc, node, from, to, direction, limit, &within);
    values == two.range(alloc, node, from, to, direction, limit, &within)
}

/// Whether they show the same modifications.
fn same_entries<A: Archive, B: Archive>(
    alloc: Global,
    one: &mut A,
    two: &mut B,
    node: &NodeId,
    reading: &Reading,
    direction: Direction,
) -> bool {
    let (from, to, limit, numbers) = *reading;
    let (from, to, within) = (Moment::at(from), Moment::at(to), within(numbers));
    let entries = one.log(alloc, node, from, to, None, direction, limit, &within);
    entries == two.log(alloc, node, from, to, None, direction, limit, &within)
}

/// Whether they show the same value beyond the first time.
fn same_next<A: Archive, B: Archive>(
    alloc: Global,
    one: &mut A,
    two: &mut B,
    node: &NodeId,
    reading: &Reading,
    direction: Direction,
) -> bool {
    let (from, _, _, numbers) = *reading;
    let (from, within) = (Moment::at(from), within(numbers));
    let next = one.next_outside(alloc, node, from, direction, &within);
    next == two.next_outside(alloc, node, from, direction, &within)
}

/// All, the first values alone, some that end in mid-query, the time with many records, and what older
/// vectors show.
static READINGS: [Reading; 16] = [
    (1, 50, 1000, [80, 5, 25]),
    (1, 50, 0, [80, 5, 25]),
    (1, 50, 1, [80, 5, 25]),
    (1, 50, 15, [80, 5, 25]),
    (1, 50, 16, [80, 5, 25]),
    (2, 50, 17, [80, 5, 25]),
    (3, 41, 30, [80, 5, 25]),
    (16, 24, 1000, [80, 5, 25]),
    (20, 20, 1000, [80, 5, 25]),
    (19, 40, 12, [80, 5, 25]),
    (40, 41, 5, [80, 5, 25]),
    (24, 16, 1000, [80, 5, 25]),
    (1, 50, 1000, [31, 2, 7]),
    (1, 50, 1000, [0, 5, 0]),
    (18, 22, 1000, [36, 1, 24]),
    (1, 50, 1000, [0, 0, 0]),
];

fn shows_same<A: Archive, B: Archive>(
    alloc: Global,
    one: &mut A,
    two: &mut B,
    direction: Direction,
) -> Result<bool, StoreFault> {
    let node = node(alloc)?;
    for reading in &READINGS {
        if !(same_values(alloc, one, two, &node, reading, direction)
            && same_entries(alloc, one, two, &node, reading, direction)
            && same_next(alloc, one, two, &node, reading, direction))
        {
            return Ok(false);
        }
    }
    Ok(true)
}

/// How many values are live in all.
fn count_values<A: Archive>(alloc: Global, archive: &mut A) -> Result<usize, StoreFault> {
    let node = node(alloc)?;
    let (from, to, within) = (Moment::at(1), Moment::at(50), within([80, 5, 25]));
    let values = archive.range(alloc, &node, from, to, Forward, 1000, &within)?;
    Ok(values.len())
}

/// How many modifications there are.
fn count_entries<A: Archive>(alloc: Global, archive: &mut A) -> Result<usize, StoreFault> {
    let node = node(alloc)?;
    let (from, to, within) = (Moment::at(1), Moment::at(50), within([80, 5, 25]));
    let entries = archive.log(alloc, &node, from, to, None, Backward, 1000, &within)?;
    Ok(entries.len())
}

/// Whether both show the same of the long history: of 41 times each fifth ends with a delete.
fn read_same<A: Archive, B: Archive>(
    alloc: Global,
    one: &mut A,
    two: &mut B,
) -> Result<bool, StoreFault> {
    let filled = fill_all(alloc, one) == Ok(()) && fill_all(alloc, two) == Ok(());
    Ok(
        filled
            && count_values(alloc, two)? == 33
            && count_entries(alloc, two)? == 110
            && shows_same(alloc, one, two, Forward)?
            && shows_same(alloc, one, two, Backward)?,
    )
}

#[test]
fn long_histories_are_read_in_parts(rt: HostRuntime) -> Result<(), Fail> {
    let mut list = list_archive(rt.alloc())?;
    let mut sql = sql_archive(rt.alloc())?;
    assert!(rt; read_same(rt.alloc(), &mut list, &mut sql)?);
    Ok(())
}
