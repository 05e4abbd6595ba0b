//! Stores of format 1, whose moments have no picoseconds: they are opened with tables made anew, or refused.

use crate::store_files::{
    Deed, changed, empty, left_behind, of_three, refusal, refused_after, shows, two,
};
use archive::{Archive, Direction, StoreFault};
use records::{Entry, Moment};
use sqlite::Files;
use sqlite_disk::Memory;
use stamp::{ReplicaNo, Vector};
use std::alloc::Global;
use std::test::Fail;
use ua_binary::{NodeId, Text};
use uuid::Uuid;

/// The tables of replica 1's store, without records.
static TABLES: [&str; 5] = [
    "CREATE TABLE meta (one INTEGER PRIMARY KEY CHECK (one = 1), format INTEGER NOT NULL, archive BLOB NOT NULL, replica INTEGER NOT NULL) STRICT",
    "CREATE TABLE records (origin INTEGER NOT NULL, number INTEGER NOT NULL, tick INTEGER NOT NULL, node BLOB NOT NULL, time INTEGER NOT NULL, asked INTEGER NOT NULL, who BLOB NOT NULL, value BLOB NOT NULL, PRIMARY KEY (origin, number), UNIQUE (node, time, tick, origin)) STRICT",
    "CREATE TABLE currents (node BLOB NOT NULL, time INTEGER NOT NULL, tick INTEGER NOT NULL, origin INTEGER NOT NULL, live INTEGER NOT NULL, extra INTEGER NOT NULL, value BLOB NOT NULL, PRIMARY KEY (node, time)) STRICT",
    "CREATE TABLE vectors (origin INTEGER PRIMARY KEY, number INTEGER NOT NULL, tick INTEGER NOT NULL) STRICT",
    "INSERT INTO meta VALUES (1, 1, x'00000000000000000000000000000000', 1)",
];

/// An insert of 7 at 10, whose value has 5 picoseconds, and a delete at 10.
static TWO: [&str; 3] = [
    "INSERT INTO records VALUES (1, 1, 100, x'0301000100000054', 10, 1, x'616e6e', x'1106070000000500'), (1, 2, 101, x'0301000100000054', 10, 4, x'616e6e', x'00')",
    "INSERT INTO currents VALUES (x'0301000100000054', 10, 101, 1, 0, 1, x'00')",
    "INSERT INTO vectors VALUES (1, 2, 101)",
];

/// The five updates of `store_files`.
static FIVE: [&str; 3] = [
    "INSERT INTO records VALUES (1, 1, 100, x'0301000100000054', 10, 1, x'616e6e', x'010607000000'), (1, 2, 101, x'0301000100000054', 10, 3, x'616e6e', x'010608000000'), (1, 3, 102, x'0301000100000054', 10, 4, x'616e6e', x'00'), (1, 4, 103, x'0301000100000054', 20, 1, x'616e6e', x'010609000000'), (1, 5, 104, x'0301000100000054', 30, 1, x'616e6e', x'010601000000')",
    "INSERT INTO currents VALUES (x'0301000100000054', 10, 102, 1, 0, 1, x'00'), (x'0301000100000054', 20, 103, 1, 1, 0, x'010609000000'), (x'0301000100000054', 30, 104, 1, 1, 0, x'010601000000')",
    "INSERT INTO vectors VALUES (1, 5, 104)",
];

/// The files of a store of the two.
fn first(alloc: Global) -> Option<Files<Memory>> {
    changed(alloc, changed(alloc, Some(empty(alloc)), &TABLES), &TWO)
}

/// The files of one of the five.
pub(crate) fn first_of_five(alloc: Global) -> Option<Files<Memory>> {
    changed(alloc, changed(alloc, Some(empty(alloc)), &TABLES), &FIVE)
}

/// The moments from 1 to 100.
fn span() -> (Moment, Moment) {
    (Moment::at(1), Moment::at(100))
}

/// How many values are live at a node.
fn lives<A: Archive>(
    alloc: Global,
    archive: &mut A,
    node: &NodeId,
    within: &Vector,
) -> Result<usize, StoreFault> {
    let (from, to) = span();
    let held = archive.range(alloc, node, from, to, Direction::Forward, 10, within)?;
    Ok(held.len())
}

/// Whether these modifications have these ticks.
fn have_ticks(entries: &[Entry], ticks: [i64; 2]) -> bool {
    match entries {
        [first, second] => first.tick == ticks[0] && second.tick == ticks[1],
        _ => false,
    }
}

/// Whether the modifications at a node, in order, are those of the two.
fn are_two<A: Archive>(
    alloc: Global,
    archive: &mut A,
    node: &NodeId,
    within: &Vector,
) -> Result<bool, StoreFault> {
    let (from, to) = span();
    let entries = archive.log(alloc, node, from, to, None, Direction::Forward, 10, within)?;
    Ok(have_ticks(entries.as_slice(), [101, 100]))
}

/// Whether a node has the modifications of the two, and no value is live there.
fn shows_at<A: Archive>(alloc: Global, archive: &mut A, node: &NodeId) -> Result<bool, StoreFault> {
    let within = archive.vector()?;
    Ok(lives(alloc, archive, node, &within)? == 0 && are_two(alloc, archive, node, &within)?)
}

/// Whether an archive holds the two at node T, and no value is live.
pub(crate) fn shows_two<A: Archive>(alloc: Global, archive: &mut A) -> bool {
    match Text::from_str(alloc, "T") {
        Ok(name) => shows_at(alloc, archive, &NodeId::Named(1, name)) == Ok(true),
        Err(_) => false,
    }
}

/// The files of the two, which an archive was opened in, did this, and was closed.
fn renewed(alloc: Global, files: Option<Files<Memory>>, deed: Deed) -> Option<Files<Memory>> {
    left_behind(alloc, files?, deed)
}

#[test]
fn a_store_of_format_1_is_made_anew(rt: HostRuntime) {
    let alloc = rt.alloc();
    assert!(rt;
        shows(
            alloc,
            renewed(alloc, first(alloc), Deed::ShowsTwo),
            "SELECT time, pico, tick, asked, length(value) FROM records2 ORDER BY tick",
            &[10, 0, 100, 1, 8, 10, 0, 101, 4, 1],
        )
    );
}

/// Tables of format 1 that aren't those of some content.
static SPOILED: [&[&str]; 7] = [
    &["UPDATE meta SET format = 2"],
    &["DELETE FROM records WHERE number = 1"],
    &["UPDATE records SET value = x'' WHERE number = 1"],
    &["UPDATE currents SET live = 1"],
    &["DELETE FROM currents"],
    &["UPDATE vectors SET tick = 100"],
    &["CREATE TABLE more (a INTEGER)"],
];

/// Whether files are refused after these statements.
fn is_refused(alloc: Global, files: Option<Files<Memory>>, statements: &[&str]) -> bool {
    refused_after(alloc, files, statements) == Some(StoreFault::Refused)
}

#[test]
fn other_stores_of_format_1_are_refused(rt: HostRuntime) {
    for statements in &SPOILED {
        assert!(rt; is_refused(rt.alloc(), first(rt.alloc()), statements));
    }
}

/// The files that an opening was refused by this fault, as they were given back.
fn given_back<F: Drop>(told: Option<(StoreFault, F)>, fault: StoreFault) -> Option<F> {
    match told {
        Some((found, files)) if found == fault => Some(files),
        _ => None,
    }
}

/// The files of the two, behind an opening as another replica's.
fn behind_another(alloc: Global, number: ReplicaNo) -> Option<Files<Memory>> {
    let told = refusal(alloc, first(alloc)?, Uuid::nil(), number);
    given_back(told, StoreFault::WrongReplica)
}

#[test]
fn another_replicas_store_of_format_1_stays(rt: HostRuntime) -> Result<(), Fail> {
    let number = two()?;
    assert!(rt;
        shows(
            rt.alloc(),
            behind_another(rt.alloc(), number),
            "SELECT tick, asked FROM records ORDER BY tick",
            &[100, 1, 101, 4],
        )
    );
    Ok(())
}

/// The files of an archive of three records with tables of format 1 behind its own.
fn beside(alloc: Global) -> Option<Files<Memory>> {
    changed(alloc, of_three(alloc), &[TABLES[1], TABLES[2]])
}

/// Whether the tables can be made again once an archive was opened there, which holds three.
fn are_taken_out(alloc: Global) -> bool {
    let left = renewed(alloc, beside(alloc), Deed::Holds(3));
    changed(alloc, left, &[TABLES[1], TABLES[2]]).is_some()
}

#[test]
fn empty_tables_of_format_1_behind_an_archives_are_taken_out(rt: HostRuntime) {
    assert!(rt; are_taken_out(rt.alloc()));
    for row in &[TWO[0], TWO[1]] {
        assert!(rt; is_refused(rt.alloc(), beside(rt.alloc()), &[*row]));
    }
}
