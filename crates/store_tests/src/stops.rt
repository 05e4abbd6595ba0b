//! Two runs over a store, each stopped at every call of its log and of its database file in turn. Behind each stop the machine
//! crashes, and what is left is opened again: it holds what was learned, or one record more.

use crate::format_one::first_of_five;
use crate::store_files::{Asked, FIVE, answered_in, ask, empty, open_one};
use archive::Archive;
use history_rows::archives::learn;
use sql_archive::SqlArchive;
use sqlite::{FileStore, Files};
use sqlite_disk::{Crash, Disk, Fuse, Memory};
use std::alloc::Global;
use std::test::Fail;

/// The file that is stopped.
#[derive(Clone, Copy, Debug)]
enum Fused {
    Log,
    Database,
}

/// What is done with a store.
#[derive(Clone, Copy, Debug)]
enum Run {
    /// A new store is opened, learns five records and is closed.
    Learning,
    /// A store of format 1 of the five records gets the tables of today by an opening, and is closed.
    Renewing,
}

/// What a run left, once the machine crashed and the store was opened again.
#[derive(Clone, Copy, Debug)]
enum Left {
    /// All records: it wasn't stopped.
    Ended,
    /// The records whose learning was answered.
    AsLearned,
    /// These, and the one whose learning was stopped.
    OneMore,
    /// Anything else.
    Otherwise,
}

/// Files of which one fails from some call on: so many calls go well before.
fn fuse(files: Files<Memory>, fused: Fused, calls: u64) -> Files<Fuse<Memory>> {
    let Files { log, db } = files;
    let (log_calls, db_calls) = match fused {
        Fused::Log => (calls, u64::MAX),
        Fused::Database => (u64::MAX, calls),
    };
    Files {
        log: Fuse::new(log, log_calls),
        db: Fuse::new(db, db_calls),
    }
}

/// How many of the records are held: the first so many, to the last byte, where the others can then be learned.
pub(crate) fn held_whole<A: Archive>(alloc: Global, archive: &mut A) -> Option<usize> {
    let mut held: usize = 0;
    for (at, row) in FIVE.iter().enumerate() {
        match learn(alloc, archive, row) {
            Ok(false) if held == at => held = held.saturating_add(1),
            Ok(true) => {}
            _ => return None,
        }
    }
    Some(held)
}

/// How many records were learned, whether all went well, and the files.
type Ran<D> = (usize, bool, Files<D>);

/// How many of the five records are learned of a store that isn't opened.
fn learned_before(run: Run) -> usize {
    match run {
        Run::Learning => 0,
        Run::Renewing => 5,
    }
}

/// How many of them are once it is opened, which learns them where they aren't.
fn learned_by<D: Disk + Drop>(
    alloc: Global,
    run: Run,
    archive: &mut SqlArchive<FileStore<D>>,
) -> usize {
    match run {
        Run::Learning => ask(alloc, archive, Asked::Learned).unwrap_or(0),
        Run::Renewing => 5,
    }
}

/// The same of an archive in files, which is closed then.
fn closed<D: Disk + Drop>(
    alloc: Global,
    run: Run,
    mut archive: SqlArchive<FileStore<D>>,
) -> Ran<D> {
    let learned = learned_by(alloc, run, &mut archive);
    match archive.close_files() {
        Ok(files) => (learned, learned == 5, files),
        Err(files) => (learned, false, files),
    }
}

/// A run in these files: they are opened, and closed.
fn ran<D: Disk + Drop>(alloc: Global, run: Run, files: Files<D>) -> Ran<D> {
    match open_one(alloc, files) {
        Ok(archive) => closed(alloc, run, archive),
        Err((_, left)) => (learned_before(run), false, left),
    }
}

/// The files that a run begins with.
fn before(alloc: Global, run: Run) -> Option<Files<Memory>> {
    match run {
        Run::Learning => Some(empty(alloc)),
        Run::Renewing => first_of_five(alloc),
    }
}

/// How many records are found once the machine crashed.
fn found_behind_a_crash(alloc: Global, mut files: Files<Fuse<Memory>>) -> Option<usize> {
    files.log.crash();
    files.db.crash();
    answered_in(alloc, files, Asked::HeldWhole)
}

fn left_by(learned: usize, ended: bool, found: Option<usize>) -> Left {
    match found {
        Some(found) if found == learned && ended => Left::Ended,
        Some(found) if found == learned => Left::AsLearned,
        Some(found) if found > learned && found - learned == 1 => Left::OneMore,
        _ => Left::Otherwise,
    }
}

/// What a run leaves that is stopped in these files.
fn left_in(alloc: Global, run: Run, files: Files<Fuse<Memory>>) -> Left {
    let (learned, ended, left) = ran(alloc, run, files);
    left_by(learned, ended, found_behind_a_crash(alloc, left))
}

/// What a run leaves that is stopped behind so many calls of a file.
fn stop(alloc: Global, run: Run, fused: Fused, calls: u64) -> Left {
    match before(alloc, run) {
        Some(files) => left_in(alloc, run, fuse(files, fused, calls)),
        None => Left::Otherwise,
    }
}

/// How many stops left what was learned, and how many one record more.
#[derive(Clone, Copy, Debug, PartialEq, Eq)]
struct Count {
    as_learned: u64,
    one_more: u64,
}

/// More calls than a run makes.
const MOST: u64 = 1000;

/// Stops a run at each call of a file in turn, until it goes to its end. Where a stop leaves anything else, the number of
/// calls before it.
fn stop_each(alloc: Global, run: Run, fused: Fused) -> Result<Count, u64> {
    let mut count = Count {
        as_learned: 0,
        one_more: 0,
    };
    for calls in 0..MOST {
        match stop(alloc, run, fused, calls) {
            Left::Ended => return Ok(count),
            Left::AsLearned => count.as_learned = count.as_learned.saturating_add(1),
            Left::OneMore => count.one_more = count.one_more.saturating_add(1),
            Left::Otherwise => return Err(calls),
        }
    }
    Err(MOST)
}

/// A run, the file that is stopped, and how many calls of it the run makes.
static RUNS: [(Run, Fused, u64); 4] = [
    (Run::Learning, Fused::Log, 73),
    (Run::Learning, Fused::Database, 24),
    (Run::Renewing, Fused::Log, 58),
    (Run::Renewing, Fused::Database, 44),
];

#[test]
fn each_stop_leaves_what_was_learned(rt: HostRuntime) -> Result<(), Fail> {
    for (run, fused, stops) in &RUNS {
        let all = Count {
            as_learned: *stops,
            one_more: 0,
        };
        assert_eq!(rt;
            stop_each(rt.alloc(), *run, *fused),
            Ok(all),
            "{run:?} {fused:?}"
        );
    }
    Ok(())
}
