//! Archives in files: found again, and refused. What a crash leaves `stops` tells.

use crate::format_one::shows_two;
use crate::stops::held_whole;
use HistoryUpdateType::{Delete, Insert, Update};
use archive::{Archive, StoreFault};
use history_rows::archives::{Row, learn};
use history_rows::updates::operates_all;
use records::{HistoryUpdateType, Record};
use sql_archive::{FileArchive, SqlArchive};
use sqlite::{Alter, Connection, FileStore, Files, Options, Row as SqlRow};
use sqlite_disk::{Disk, Memory};
use stamp::{ReplicaNo, Vector};
use std::alloc::Global;
use std::fs;
use std::test::Fail;
use uuid::Uuid;

/// Five updates in the order of their names.
pub(crate) static FIVE: [Row; 5] = [
    (1, 1, 100, 10, Insert, Some(7)),
    (1, 2, 101, 10, Update, Some(8)),
    (1, 3, 102, 10, Delete, None),
    (1, 4, 103, 20, Insert, Some(9)),
    (1, 5, 104, 30, Insert, Some(1)),
];

fn one() -> Result<ReplicaNo, StoreFault> {
    ReplicaNo::new(1).ok_or(StoreFault::WrongReplica)
}

pub(crate) fn two() -> Result<ReplicaNo, StoreFault> {
    ReplicaNo::new(2).ok_or(StoreFault::WrongReplica)
}

pub(crate) fn empty(alloc: Global) -> Files<Memory> {
    Files {
        log: Memory::new(alloc),
        db: Memory::new(alloc),
    }
}

/// An archive that was opened, or by which fault it wasn't, and the files.
type Opened<D> = Result<SqlArchive<FileStore<D>>, (StoreFault, Files<D>)>;

fn open<D: Disk + Drop>(alloc: Global, files: Files<D>, id: Uuid, number: ReplicaNo) -> Opened<D> {
    if files.may_be_used() {
        SqlArchive::open_files(alloc, files, Options::new(7), id, number)
    } else {
        Err((StoreFault::Broken, files))
    }
}

/// Opens the store of replica 1 in these files.
pub(crate) fn open_one<D: Disk + Drop>(alloc: Global, files: Files<D>) -> Opened<D> {
    match one() {
        Ok(number) => open(alloc, files, Uuid::nil(), number),
        Err(fault) => Err((fault, files)),
    }
}

/// How many of the updates are learned, up to the first that isn't.
pub(crate) fn learn_five<A: Archive>(alloc: Global, archive: &mut A) -> usize {
    for (at, row) in FIVE.iter().enumerate() {
        if learn(alloc, archive, row) != Ok(true) {
            return at;
        }
    }
    FIVE.len()
}

/// How many records these are, where they are the first of the updates.
fn counted(all: &[Record]) -> Option<usize> {
    for (record, row) in all.iter().zip(&FIVE) {
        if record.number != row.1 || record.tick != row.2 {
            return None;
        }
    }
    if all.len() <= FIVE.len() {
        Some(all.len())
    } else {
        None
    }
}

/// How many records are held, where they are the first of the updates.
pub(crate) fn held<A: Archive>(alloc: Global, archive: &mut A) -> Option<usize> {
    match archive.since(alloc, &Vector::new(), 100) {
        Ok(all) => counted(all.as_slice()),
        Err(_) => None,
    }
}

// ---- what is opened, used and closed

/// What is done with an archive.
#[derive(Clone, Copy, Debug)]
pub(crate) enum Deed {
    /// Nothing.
    Nothing,
    /// It learns the first three of the updates.
    Three,
    /// It holds nothing, and learns the five updates.
    Five,
    /// It does the operations on one value.
    Operations,
    /// It holds the five records, and learns one more.
    OneMore,
    /// It holds so many records of replica 1.
    Numbers(u64),
    /// It holds so many of the updates.
    Holds(usize),
    /// The ticks of its modifications at node T are 101 and 100, and no value is live there.
    ShowsTwo,
}

/// Whether an archive learns the first three of the updates.
fn learns_three<A: Archive>(alloc: Global, archive: &mut A) -> bool {
    for row in FIVE.iter().take(3) {
        if learn(alloc, archive, row).is_err() {
            return false;
        }
    }
    true
}

/// Whether it is done.
fn is_done<A: Archive>(alloc: Global, archive: &mut A, deed: Deed) -> bool {
    match deed {
        Deed::Nothing => true,
        Deed::Three => learns_three(alloc, archive),
        Deed::Five => held(alloc, archive) == Some(0) && learn_five(alloc, archive) == 5,
        Deed::Operations => operates_all(alloc, archive) == Ok(true),
        Deed::OneMore => goes_on(alloc, archive) == Ok(true),
        Deed::Numbers(count) => last_number(archive) == Ok(count),
        Deed::Holds(count) => held(alloc, archive) == Some(count),
        Deed::ShowsTwo => shows_two(alloc, archive),
    }
}

/// What an archive is asked: a number of records.
#[derive(Clone, Copy)]
pub(crate) enum Asked {
    /// None, where this is done.
    Done(Deed),
    /// How many it holds, where they are the first of the updates.
    Held,
    /// How many it holds to the last byte, where the other updates can then be learned.
    HeldWhole,
    /// How many of the updates it learns.
    Learned,
}

/// What an archive answers.
fn answer<A: Archive>(alloc: Global, archive: &mut A, asked: Asked) -> Option<usize> {
    match asked {
        Asked::Done(deed) => {
            if is_done(alloc, archive, deed) {
                Some(0)
            } else {
                None
            }
        }
        Asked::Held => held(alloc, archive),
        Asked::HeldWhole => held_whole(alloc, archive),
        Asked::Learned => Some(learn_five(alloc, archive)),
    }
}

/// What one in files does. Here alone its type stands for any archive's, which is dear to prove.
pub(crate) fn ask<D: Disk + Drop>(
    alloc: Global,
    archive: &mut SqlArchive<FileStore<D>>,
    asked: Asked,
) -> Option<usize> {
    answer(alloc, archive, asked)
}

/// Whether one in files does this.
fn does<D: Disk + Drop>(alloc: Global, archive: &mut SqlArchive<FileStore<D>>, deed: Deed) -> bool {
    ask(alloc, archive, Asked::Done(deed)).is_some()
}

/// What replica 1's archive in these files answers.
pub(crate) fn answered_in<D: Disk + Drop>(
    alloc: Global,
    files: Files<D>,
    asked: Asked,
) -> Option<usize> {
    let mut archive = open_one(alloc, files).ok()?;
    ask(alloc, &mut archive, asked)
}

/// The files that replica 1's archive was opened in, did this, and was closed.
pub(crate) fn left_behind<D: Disk + Drop>(
    alloc: Global,
    files: Files<D>,
    deed: Deed,
) -> Option<Files<D>> {
    let mut archive = open_one(alloc, files).ok()?;
    if does(alloc, &mut archive, deed) {
        archive.close_files().ok()
    } else {
        None
    }
}

/// The files of one that did this, as they are.
fn left_unclosed<D: Disk + Drop>(alloc: Global, files: Files<D>, deed: Deed) -> Option<Files<D>> {
    let mut archive = open_one(alloc, files).ok()?;
    if does(alloc, &mut archive, deed) {
        Some(archive.into_files())
    } else {
        None
    }
}

/// The files of replica 1's archive, which held nothing, did this, and was closed.
fn files_behind(alloc: Global, deed: Deed) -> Option<Files<Memory>> {
    left_behind(alloc, empty(alloc), deed)
}

/// The files of an archive that learned nothing and was closed.
fn unfilled(alloc: Global) -> Option<Files<Memory>> {
    files_behind(alloc, Deed::Nothing)
}

/// The files of an archive that learned the first three of the updates and was closed.
pub(crate) fn of_three(alloc: Global) -> Option<Files<Memory>> {
    files_behind(alloc, Deed::Three)
}

/// The files of an archive that learned five records and was closed.
fn filled(alloc: Global) -> Option<Files<Memory>> {
    files_behind(alloc, Deed::Five)
}

/// By which fault an opening is refused, and the files.
pub(crate) fn refusal<D: Disk + Drop>(
    alloc: Global,
    files: Files<D>,
    id: Uuid,
    number: ReplicaNo,
) -> Option<(StoreFault, Files<D>)> {
    open(alloc, files, id, number).err()
}

/// The fault of an opening that was refused.
fn fault_of<F: Drop>(told: Option<(StoreFault, F)>) -> Option<StoreFault> {
    match told {
        Some((fault, _)) => Some(fault),
        None => None,
    }
}

/// How many records of replica 1 are held.
fn last_number<A: Archive>(archive: &mut A) -> Result<u64, StoreFault> {
    let one = one()?;
    let vector = archive.vector()?;
    Ok(vector.get(one))
}

/// Whether an archive holds the five records, and learns one more.
fn goes_on<A: Archive>(alloc: Global, archive: &mut A) -> Result<bool, StoreFault> {
    let found = held(alloc, archive) == Some(5)
        && last_number(archive)? == 5
        && archive.top()? == 104;
    Ok(found && learn(alloc, archive, &(1, 6, 105, 30, Update, Some(2))) == Ok(true))
}

/// Whether so many records of replica 1 are found in these files, behind an archive that holds the five, learned one more and
/// wasn't closed.
fn are_found<D: Disk + Drop>(alloc: Global, files: Files<D>, count: u64) -> bool {
    match left_unclosed(alloc, files, Deed::OneMore) {
        Some(left) => answered_in(alloc, left, Asked::Done(Deed::Numbers(count))).is_some(),
        None => false,
    }
}

/// Whether the five and one more are found again.
fn are_found_again(alloc: Global) -> bool {
    match filled(alloc) {
        Some(files) => are_found(alloc, files, 6),
        None => false,
    }
}

#[test]
fn what_is_closed_is_found_again(rt: HostRuntime) {
    assert!(rt; are_found_again(rt.alloc()));
}

// ---- the index over live values

/// Whether it is made, or stood there, and stands.
pub(crate) fn is_made<S: Alter>(archive: &mut SqlArchive<S>) -> bool {
    archive.index_live_values().is_ok() && archive.is_indexed()
}

/// The files of an archive that had none, had it made twice, and was closed.
fn left_indexed<D: Disk + Drop>(alloc: Global, files: Files<D>) -> Option<Files<D>> {
    let mut archive = open_one(alloc, files).ok()?;
    if !archive.is_indexed() && is_made(&mut archive) && is_made(&mut archive) {
        archive.close_files().ok()
    } else {
        None
    }
}

/// Whether the archive in these files has it and holds the five records.
fn is_found_indexed<D: Disk + Drop>(alloc: Global, files: Files<D>) -> bool {
    match open_one(alloc, files) {
        Ok(mut archive) => archive.is_indexed() && does(alloc, &mut archive, Deed::OneMore),
        Err(_) => false,
    }
}

/// Whether an archive of the five records is found again with it, and goes on.
fn goes_on_indexed<D: Disk + Drop>(alloc: Global, files: Files<D>) -> bool {
    match left_indexed(alloc, files) {
        Some(left) => is_found_indexed(alloc, left),
        None => false,
    }
}

/// So it is in memory.
fn goes_on_with_it(alloc: Global) -> bool {
    match filled(alloc) {
        Some(files) => goes_on_indexed(alloc, files),
        None => false,
    }
}

#[test]
fn an_archive_goes_on_with_an_index_over_live_values(rt: HostRuntime) {
    assert!(rt; goes_on_with_it(rt.alloc()));
}

/// The fault that opening files of the five records is refused by, and whether the archive itself
/// opens the files that were given back.
fn refused_in<D: Disk + Drop>(
    alloc: Global,
    files: Files<D>,
    id: Uuid,
    number: ReplicaNo,
) -> Option<(StoreFault, bool)> {
    let (fault, left) = refusal(alloc, files, id, number)?;
    Some((fault, answered_in(alloc, left, Asked::Held) == Some(5)))
}

fn refused(alloc: Global, id: Uuid, number: ReplicaNo) -> Option<(StoreFault, bool)> {
    refused_in(alloc, filled(alloc)?, id, number)
}

#[test]
fn another_archive_and_another_replica_are_refused(rt: HostRuntime) -> Result<(), Fail> {
    let alloc = rt.alloc();
    let replica = refused(alloc, Uuid::nil(), two()?);
    let archive = refused(alloc, Uuid::max(), one()?);
    let both = refused(alloc, Uuid::max(), two()?);
    assert!(rt; replica == Some((StoreFault::WrongReplica, true)));
    assert!(rt; archive == Some((StoreFault::WrongArchive, true)));
    assert!(rt; both == Some((StoreFault::WrongArchive, true)));
    Ok(())
}

// ---- what is changed

/// The numbers of a row, behind these.
fn push_numbers(numbers: &mut Vec<i64>, row: &SqlRow) -> Option<()> {
    for at in 0..row.column_count() {
        numbers.push(row.get(at).ok()?).ok()?;
    }
    Some(())
}

/// The numbers of all rows.
fn numbers_in(alloc: Global, rows: &[SqlRow]) -> Option<Vec<i64>> {
    let mut numbers = Vec::new(alloc);
    for row in rows {
        push_numbers(&mut numbers, row)?;
    }
    Some(numbers)
}

/// A database in these files.
fn connected<D: Disk + Drop>(alloc: Global, files: Files<D>) -> Option<Connection<FileStore<D>>> {
    if files.may_be_used() {
        Connection::open_files(alloc, files, Options::new(7)).ok()
    } else {
        None
    }
}

/// Whether a statement is executed.
fn is_executed<D: Disk + Drop>(conn: &mut Connection<FileStore<D>>, sql: &str) -> bool {
    conn.execute(sql, &[]).is_ok()
}

/// Whether all statements are executed.
fn are_executed<D: Disk + Drop>(conn: &mut Connection<FileStore<D>>, statements: &[&str]) -> bool {
    for sql in statements {
        if !is_executed(conn, sql) {
            return false;
        }
    }
    true
}

/// The files of a database after these statements.
fn executed<D: Disk + Drop>(
    alloc: Global,
    files: Files<D>,
    statements: &[&str],
) -> Option<Files<D>> {
    let mut conn = connected(alloc, files)?;
    if are_executed(&mut conn, statements) {
        conn.close_files().ok()
    } else {
        None
    }
}

/// The numbers that a query shows, row by row.
fn numbers_of<D: Disk + Drop>(
    alloc: Global,
    conn: &mut Connection<FileStore<D>>,
    sql: &str,
) -> Option<Vec<i64>> {
    match conn.query_all(sql, &[]) {
        Ok(rows) => numbers_in(alloc, rows.as_slice()),
        Err(_) => None,
    }
}

/// The numbers that a query shows of the database in these files.
fn queried<D: Disk + Drop>(alloc: Global, files: Files<D>, sql: &str) -> Option<Vec<i64>> {
    let mut conn = connected(alloc, files)?;
    numbers_of(alloc, &mut conn, sql)
}

/// The files after these statements.
pub(crate) fn changed(
    alloc: Global,
    files: Option<Files<Memory>>,
    statements: &[&str],
) -> Option<Files<Memory>> {
    executed(alloc, files?, statements)
}

/// The fault that an opening is refused by.
fn fault_in<D: Disk + Drop>(
    alloc: Global,
    files: Files<D>,
    id: Uuid,
    number: ReplicaNo,
) -> Option<StoreFault> {
    fault_of(refusal(alloc, files, id, number))
}

/// What opening files as this archive and replica is refused by after these statements.
fn refused_as(
    alloc: Global,
    files: Option<Files<Memory>>,
    statements: &[&str],
    id: Uuid,
    number: ReplicaNo,
) -> Option<StoreFault> {
    fault_in(alloc, changed(alloc, files, statements)?, id, number)
}

/// What opening files is refused by after these statements.
pub(crate) fn refused_after(
    alloc: Global,
    files: Option<Files<Memory>>,
    statements: &[&str],
) -> Option<StoreFault> {
    refused_as(alloc, files, statements, Uuid::nil(), one().ok()?)
}

static OTHER_TABLES: [&[&str]; 10] = [
    &[
        "DROP TABLE meta",
        "DROP TABLE records2",
        "DROP TABLE currents2",
        "DROP TABLE vectors",
        "CREATE TABLE records (origin INTEGER)",
    ],
    &["DROP TABLE records2"],
    &["DROP TABLE vectors"],
    &["DROP TABLE vectors", "DROP TABLE currents2"],
    &["CREATE TABLE more (a INTEGER)"],
    &["CREATE INDEX more ON records2 (tick)"],
    &["CREATE INDEX currents2_live ON currents2 (node, time, pico, live)"],
    &["CREATE UNIQUE INDEX currents2_live ON currents2 (node, live, time, pico)"],
    &["CREATE INDEX currents2_other ON currents2 (node, live, time, pico)"],
    &[LIVE_INDEX, "CREATE INDEX more ON records2 (tick)"],
];

/// The index over live values.
const LIVE_INDEX: &str = "CREATE INDEX currents2_live ON currents2 (node, live, time, pico)";

static OTHER_META: [&[&str]; 2] = [&["DELETE FROM meta"], &["UPDATE meta SET format = 1"]];

static OTHER_RECORDS: [&[&str]; 2] = [
    &["DELETE FROM records2 WHERE number = 2"],
    &["UPDATE records2 SET value = x'' WHERE number = 2"],
];

/// Current values that aren't those of the records: of another stamp, of no record, of the one before the last, with another flag or
/// another value, none, one of another moment, and one that tells of others where its record is alone. So it is of the first record, of
/// one of two moments, and where two records of a moment have one tick.
static OTHER_VALUES: [&[&str]; 24] = [
    &["UPDATE currents2 SET tick = 100"],
    &["UPDATE currents2 SET tick = 103"],
    &["UPDATE currents2 SET origin = 2"],
    &["UPDATE currents2 SET live = 1"],
    &["UPDATE currents2 SET live = 2"],
    &["UPDATE currents2 SET extra = 0"],
    &["UPDATE currents2 SET extra = 2"],
    &["UPDATE currents2 SET value = x''"],
    &["UPDATE currents2 SET time = 11"],
    &["UPDATE currents2 SET node = x'00'"],
    &["DELETE FROM currents2"],
    &["INSERT INTO currents2 VALUES (x'00', 1, 0, 1, 1, 1, 0, x'00')"],
    &[
        "DELETE FROM currents2",
        "INSERT INTO currents2 SELECT node, time, pico, tick, origin, 1, 1, value FROM records2 WHERE number = 2",
    ],
    &[
        "DELETE FROM records2 WHERE number > 1",
        "UPDATE vectors SET number = 1, tick = 100",
        "DELETE FROM currents2",
        "INSERT INTO currents2 SELECT node, time, pico, tick, origin, 1, 1, value FROM records2",
    ],
    &[
        "INSERT INTO currents2 SELECT node, time, 1, tick, origin, live, extra, value FROM currents2",
    ],
    &[
        "DELETE FROM currents2",
        "INSERT INTO currents2 SELECT node, time, pico, tick, origin, 1, 1, value FROM records2 WHERE number = 1",
    ],
    &[SECOND_RECORD, SECOND_NUMBER],
    &[
        SECOND_RECORD,
        SECOND_NUMBER,
        SECOND_VALUE,
        "DELETE FROM currents2 WHERE time <> 15",
    ],
    &[
        SECOND_RECORD,
        SECOND_NUMBER,
        SECOND_VALUE,
        "UPDATE currents2 SET extra = 1 WHERE time = 15",
    ],
    &[
        SECOND_RECORD,
        SECOND_NUMBER,
        SECOND_VALUE,
        "UPDATE currents2 SET live = 0 WHERE time = 15",
    ],
    &[
        SECOND_RECORD,
        SECOND_NUMBER,
        SECOND_VALUE,
        "UPDATE currents2 SET value = x'' WHERE time = 15",
    ],
    &[TIED_RECORD, TIED_NUMBER],
    &[
        TIED_RECORD,
        TIED_NUMBER,
        "UPDATE currents2 SET origin = 2, extra = 0",
    ],
    &[TIED_RECORD, TIED_NUMBER, "UPDATE currents2 SET origin = 3"],
];

/// Last numbers that aren't those of the records: another tick, too new or too old a number, that of the record before the last, none,
/// one of no record's origin, and none or a wrong one of the second of two origins.
static OTHER_NUMBERS: [&[&str]; 11] = [
    &["UPDATE vectors SET tick = 100"],
    &["UPDATE vectors SET number = 4"],
    &["UPDATE vectors SET number = 2"],
    &["UPDATE vectors SET number = 2, tick = 101"],
    &["UPDATE vectors SET origin = 2"],
    &["DELETE FROM vectors"],
    &["INSERT INTO vectors VALUES (2, 1, 100)"],
    &["INSERT INTO vectors VALUES (2, 0, 0)"],
    &[SECOND_RECORD, SECOND_VALUE],
    &[
        SECOND_RECORD,
        SECOND_VALUE,
        "INSERT INTO vectors VALUES (2, 3, 102)",
    ],
    &[
        SECOND_RECORD,
        SECOND_VALUE,
        "INSERT INTO vectors VALUES (2, 1, 105)",
        "DELETE FROM vectors WHERE origin = 1",
    ],
];

/// A record of a second origin, and its current value.
const SECOND_RECORD: &str =
    "INSERT INTO records2 SELECT 2, 1, 105, node, 15, pico, asked, who, value FROM records2 WHERE number = 1";

const SECOND_VALUE: &str =
    "INSERT INTO currents2 SELECT node, time, pico, tick, origin, 1, 0, value FROM records2 WHERE origin = 2";

const SECOND_NUMBER: &str = "INSERT INTO vectors VALUES (2, 1, 105)";

/// A record of a second origin at the moment of the last one, with its tick, and its origin's last number.
const TIED_RECORD: &str =
    "INSERT INTO records2 SELECT 2, 1, tick, node, time, pico, asked, who, value FROM records2 WHERE number = 3";

const TIED_NUMBER: &str = "INSERT INTO vectors SELECT 2, 1, tick FROM vectors WHERE origin = 1";

/// Changed tables that agree: of one record, of two origins, and of two records with one tick; and with the index over live values.
static AGREEING: [&[&str]; 4] = [
    &[
        "DELETE FROM records2 WHERE number > 1",
        "UPDATE vectors SET number = 1, tick = 100",
        "DELETE FROM currents2",
        "INSERT INTO currents2 SELECT node, time, pico, tick, origin, 1, 0, value FROM records2",
    ],
    &[SECOND_RECORD, SECOND_VALUE, SECOND_NUMBER],
    &[TIED_RECORD, TIED_NUMBER, "UPDATE currents2 SET origin = 2"],
    &[LIVE_INDEX],
];

/// Whether replica 1's archive opens these files.
fn is_opened<D: Disk + Drop>(alloc: Global, files: Files<D>) -> bool {
    open_one(alloc, files).is_ok()
}

/// Whether it opens files after these statements.
fn is_opened_after(alloc: Global, files: Option<Files<Memory>>, statements: &[&str]) -> bool {
    match changed(alloc, files, statements) {
        Some(files) => is_opened(alloc, files),
        None => false,
    }
}

/// Whether a store of three records is opened after each of some statements.
fn are_opened(alloc: Global, changes: &[&[&str]]) -> bool {
    for statements in changes {
        if !is_opened_after(alloc, of_three(alloc), statements) {
            return false;
        }
    }
    true
}

/// Whether a store of three records is refused after each of some statements.
fn are_refused(alloc: Global, spoiled: &[&[&str]]) -> bool {
    for statements in spoiled {
        if refused_after(alloc, of_three(alloc), statements) != Some(StoreFault::Refused) {
            return false;
        }
    }
    true
}

/// Whether a store of no record is refused after each of some statements.
fn are_refused_unfilled(alloc: Global, spoiled: &[&[&str]]) -> bool {
    for statements in spoiled {
        if refused_after(alloc, unfilled(alloc), statements) != Some(StoreFault::Refused) {
            return false;
        }
    }
    true
}

#[test]
fn other_tables_are_refused(rt: HostRuntime) -> Result<(), Fail> {
    assert!(rt; are_refused_unfilled(rt.alloc(), &OTHER_TABLES));
    Ok(())
}

/// Other tables behind `meta`.
static BEHIND_META: [&[&str]; 4] = [
    &["DROP TABLE vectors"],
    &["DROP TABLE vectors", "DROP TABLE currents2"],
    &["CREATE TABLE more (a INTEGER)"],
    &["CREATE INDEX more ON records2 (tick)"],
];

/// Whether a store with other tables is told as another archive's first, then as another replica's.
fn are_told_by_meta(alloc: Global, number: ReplicaNo) -> bool {
    for statements in &BEHIND_META {
        let archive = refused_as(alloc, unfilled(alloc), statements, Uuid::max(), number);
        let replica = refused_as(alloc, unfilled(alloc), statements, Uuid::nil(), number);
        if archive != Some(StoreFault::WrongArchive) || replica != Some(StoreFault::WrongReplica) {
            return false;
        }
    }
    true
}

#[test]
fn meta_tells_whose_store_it_is_whatever_stands_behind_it(rt: HostRuntime) -> Result<(), Fail> {
    assert!(rt; are_told_by_meta(rt.alloc(), two()?));
    Ok(())
}

#[test]
fn other_rows_of_meta_are_refused(rt: HostRuntime) -> Result<(), Fail> {
    assert!(rt; are_refused_unfilled(rt.alloc(), &OTHER_META));
    Ok(())
}

#[test]
fn other_records_are_refused(rt: HostRuntime) -> Result<(), Fail> {
    assert!(rt; are_refused(rt.alloc(), &OTHER_RECORDS));
    Ok(())
}

#[test]
fn other_current_values_are_refused(rt: HostRuntime) -> Result<(), Fail> {
    assert!(rt; are_refused(rt.alloc(), &OTHER_VALUES));
    Ok(())
}

#[test]
fn tables_that_agree_are_opened(rt: HostRuntime) -> Result<(), Fail> {
    assert!(rt; are_opened(rt.alloc(), &AGREEING));
    Ok(())
}

#[test]
fn other_last_numbers_are_refused(rt: HostRuntime) -> Result<(), Fail> {
    assert!(rt; are_refused(rt.alloc(), &OTHER_NUMBERS));
    Ok(())
}

/// The numbers that a query shows of the files of an archive, row by row.
fn shown(alloc: Global, files: Option<Files<Memory>>, sql: &str) -> Option<Vec<i64>> {
    queried(alloc, files?, sql)
}

/// The files of an archive that did the operations on one value, and was closed.
fn operated(alloc: Global) -> Option<Files<Memory>> {
    files_behind(alloc, Deed::Operations)
}

/// Whether a query shows these numbers of the files.
pub(crate) fn shows(
    alloc: Global,
    files: Option<Files<Memory>>,
    sql: &str,
    wanted: &[i64],
) -> bool {
    match shown(alloc, files, sql) {
        Some(numbers) => numbers.as_slice() == wanted,
        None => false,
    }
}

/// Queries, and the numbers that they show of the five records.
static KEPT_OF_FIVE: [(&str, &[i64]); 2] = [
    (
        "SELECT time, pico, tick, origin, live, extra FROM currents2 ORDER BY time",
        &[
            10, 0, 102, 1, 0, 1, 20, 0, 103, 1, 1, 0, 30, 0, 104, 1, 1, 0,
        ],
    ),
    ("SELECT origin, number, tick FROM vectors", &[1, 5, 104]),
];

/// The same of the operations on one value.
static KEPT_OF_ONE: [(&str, &[i64]); 2] = [
    (
        "SELECT time, pico, tick, origin, live, extra FROM currents2",
        &[10, 0, 103, 1, 1, 1],
    ),
    ("SELECT origin, number, tick FROM vectors", &[1, 4, 103]),
];

#[test]
fn current_values_and_last_numbers_stand_beside_the_records(rt: HostRuntime) -> Result<(), Fail> {
    let alloc = rt.alloc();
    for (sql, wanted) in &KEPT_OF_FIVE {
        assert!(rt; shows(alloc, filled(alloc), *sql, *wanted), "{sql}");
    }
    for (sql, wanted) in &KEPT_OF_ONE {
        assert!(rt; shows(alloc, operated(alloc), *sql, *wanted), "{sql}");
    }
    Ok(())
}

/// How many records an archive in files holds, and how many of the five updates are then learned.
fn use_archive<D: Disk + Drop>(
    alloc: Global,
    archive: &mut SqlArchive<FileStore<D>>,
) -> (Option<usize>, Option<usize>) {
    let before = ask(alloc, archive, Asked::Held);
    (before, ask(alloc, archive, Asked::Learned))
}

/// The same of the store at a path.
fn use_file(rt: &HostRuntime, path: &str) -> Result<(Option<usize>, Option<usize>), StoreFault> {
    let number = one()?;
    match FileArchive::open(rt, path, Uuid::nil(), number) {
        Ok(mut archive) => Ok(use_archive(rt.alloc(), &mut archive)),
        Err(fault) => Err(fault),
    }
}

#[test]
fn a_file_is_opened_and_found_again(rt: HostRuntime) -> Result<(), Fail> {
    let _ = fs::remove_dir_all(&rt, "sql_archive_test");
    fs::create_dir(&rt, "sql_archive_test")?;
    assert!(rt; use_file(&rt, "sql_archive_test/a.db")? == (Some(0), Some(5)));
    assert!(rt; use_file(&rt, "sql_archive_test/a.db")? == (Some(5), Some(0)));
    fs::remove_dir_all(&rt, "sql_archive_test")?;
    Ok(())
}
