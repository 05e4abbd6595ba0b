//! Each query of an archive, over lists in memory and over a script of failures.

use HistoryUpdateType::{Insert, Update};
use archive::{Archive, Failure, LearnFault, ScriptedArchive, StoreFault};
use history_rows::archives::{
    Row, answers, learn, learns_in_order, list_archive, scripted_archive,
};
use records::HistoryUpdateType;
use std::alloc::Global;
use std::test::Fail;

#[test]
fn records_are_learned(rt: HostRuntime) -> Result<(), Fail> {
    let mut list = list_archive(rt.alloc())?;
    assert!(rt; learns_in_order(rt.alloc(), &mut list)?);
    Ok(())
}

#[test]
fn queries_are_answered(rt: HostRuntime) -> Result<(), Fail> {
    let mut list = list_archive(rt.alloc())?;
    assert!(rt; answers(rt.alloc(), &mut list)?);
    Ok(())
}

/// What is learned of a script of failures.
static SCRIPTED: [Row; 2] = [
    (1, 1, 100, 10, Insert, Some(7)),
    (1, 2, 101, 10, Update, Some(8)),
];

/// How the second call of learning fails, what it answers, and what the two calls after it answer, the
/// first of them for the same record.
static SCRIPTS: [(Failure, StoreFault, Result<bool, LearnFault>, u64); 4] = [
    (Failure::OutOfMemory, StoreFault::OutOfMemory, Ok(true), 1),
    (Failure::Refused, StoreFault::Refused, Ok(true), 1),
    (
        Failure::BrokenBefore,
        StoreFault::Broken,
        Err(LearnFault::Store(StoreFault::Broken)),
        2,
    ),
    (
        Failure::BrokenAfter,
        StoreFault::Broken,
        Err(LearnFault::Store(StoreFault::Broken)),
        2,
    ),
];

/// Whether a script is followed: one record, the failing call, and one more.
fn is_followed(
    alloc: Global,
    archive: &mut ScriptedArchive,
    fault: StoreFault,
    then: Result<bool, LearnFault>,
) -> bool {
    learn(alloc, archive, &SCRIPTED[0]) == Ok(true)
        && learn(alloc, archive, &SCRIPTED[1]) == Err(LearnFault::Store(fault))
        && learn(alloc, archive, &SCRIPTED[1]) == then
}

#[test]
fn scripts_are_followed(rt: HostRuntime) -> Result<(), Fail> {
    for (failure, fault, then, faults) in &SCRIPTS {
        let mut archive = scripted_archive(rt.alloc(), 2, *failure)?;
        let followed = is_followed(rt.alloc(), &mut archive, *fault, *then);
        assert!(rt; followed && archive.faults() == *faults, "{failure:?}");
    }
    Ok(())
}

#[test]
fn numbers_of_faults(rt: HostRuntime) {
    let store = [
        StoreFault::OutOfMemory,
        StoreFault::Refused,
        StoreFault::WrongReplica,
        StoreFault::WrongArchive,
        StoreFault::Broken,
    ];
    let learn = [
        LearnFault::Gap { held: 1, got: 3 },
        LearnFault::Clash,
        LearnFault::TickNotRising,
        LearnFault::TickTooFar,
        LearnFault::Store(StoreFault::Broken),
    ];
    for i in 0..5 {
        assert!(rt; store[i].number() as usize == i + 1);
        assert!(rt; learn[i].number() as usize == i + 1);
    }
}
