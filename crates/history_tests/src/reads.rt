//! Reads over lists in memory: their pages, long ones, and a script of failures.

ghost use Rattle.std.specs.Prelude.{IsTrue};
ghost use Rattle.ua_binary.specs.Binary.{IsShortNode};

use HistoryUpdateType::Update;
use archive::{Archive, Failure, LearnFault, ListArchive, ScriptedArchive};
use hist_read::{Query, read_node_within};
use history_rows::archives::{learn, list_archive, node, scripted_archive};
use history_rows::reads::{
    are_of_what_was_held, are_told, asked, first_other_modified, first_other_of_five,
    first_other_of_one, goes_on_as_before, learn_values, read, refuses_foreign_points,
};
use records::HistoryUpdateType;
use std::alloc::{AllocError, Global};
use std::test::Fail;
use ua_binary::{Bytes, NodeId, Status};
use ua_services::{HistoryData, HistoryReadResult, ReadRawModifiedDetails, TimestampsToReturn};

#[test]
fn raw_reads_have_their_pages(rt: HostRuntime) -> Result<(), Fail> {
    let mut archive = list_archive(rt.alloc())?;
    assert!(rt; first_other_of_five(rt.alloc(), &mut archive)? == None);
    Ok(())
}

#[test]
fn backward_from_the_only_value(rt: HostRuntime) -> Result<(), Fail> {
    let mut archive = list_archive(rt.alloc())?;
    assert!(rt; first_other_of_one(rt.alloc(), &mut archive)? == None);
    Ok(())
}

#[test]
fn modified_reads_have_their_pages(rt: HostRuntime) -> Result<(), Fail> {
    let mut archive = list_archive(rt.alloc())?;
    assert!(rt; first_other_modified(rt.alloc(), &mut archive)? == None);
    Ok(())
}

#[test]
fn later_pages_are_of_what_was_held(rt: HostRuntime) -> Result<(), Fail> {
    let mut archive = list_archive(rt.alloc())?;
    assert!(rt; are_of_what_was_held(rt.alloc(), &mut archive)?);
    Ok(())
}

#[test]
fn foreign_points_are_refused(rt: HostRuntime) -> Result<(), Fail> {
    let mut archive = list_archive(rt.alloc())?;
    assert!(rt; refuses_foreign_points(rt.alloc(), &mut archive)?);
    Ok(())
}

// ---- long reads

/// The archive learns so many values: at 1 and each time behind it, or all of them at 1.
fn learn_many<A: Archive>(
    alloc: Global,
    archive: &mut A,
    count: u16,
    of_one: bool,
) -> Result<(), LearnFault> {
    for i in 1..=count {
        let time = if of_one { 1 } else { i64::from(i) };
        let row = (
            1,
            u64::from(i),
            i64::from(i),
            time,
            Update,
            Some(i32::from(i)),
        );
        learn(alloc, archive, &row)?;
    }
    Ok(())
}

/// An archive with so many values, at 1 and each time behind it.
fn long_archive(alloc: Global, count: u16) -> Result<ListArchive, LearnFault> {
    let mut archive = list_archive(alloc)?;
    learn_many(alloc, &mut archive, count, false)?;
    Ok(archive)
}

fn length_of(read: &HistoryData) -> usize {
    match read {
        HistoryData::Raw(values) => values.len(),
        _ => 0,
    }
}

/// How many items the page has from a point, and the next one.
fn next_length(
    alloc: Global,
    archive: &mut ListArchive,
    details: ReadRawModifiedDetails,
    point: &Option<Bytes>,
) -> Option<(usize, Option<Bytes>)> {
    let bytes = point.as_ref().map(|point| point.as_slice());
    match read(alloc, archive, details, TimestampsToReturn::Source, bytes) {
        Ok(told) => Some((length_of(&told.history_data), told.continuation_point)),
        Err(_) => None,
    }
}

/// Whether the read has two pages of so many items, and no more.
fn has_two(
    alloc: Global,
    archive: &mut ListArchive,
    details: ReadRawModifiedDetails,
    first: usize,
    second: usize,
) -> bool {
    let Some((length, point)) = next_length(alloc, archive, details, &None) else {
        return false;
    };
    length == first
        && point.is_some()
        && next_length(alloc, archive, details, &point) == Some((second, None))
}

/// The end and the count of a read from 1 on, and the lengths of its two pages: of 1,001 values, and of 1,500 of more.
static LONG_READS: [(i64, u32, usize, usize); 2] = [(1002, 0, 1000, 1), (0, 1500, 1000, 500)];

#[test]
fn pages_and_reads_have_a_greatest_length(rt: HostRuntime) -> Result<(), Fail> {
    let mut archive = long_archive(rt.alloc(), 1600)?;
    for (end, most, first, second) in &LONG_READS {
        let details = asked(false, 1, *end, *most, false);
        assert!(rt;
            has_two(rt.alloc(), &mut archive, details, *first, *second),
            "{end} {most}"
        );
    }
    Ok(())
}

// ---- reads of at most so many bytes

fn is_short(node: &NodeId) -> bool
    ensures { IsTrue result → IsShortNode node.now }
{
    match node {
        NodeId::Named(_, name) => name.len() < 0x8000_0000,
        _ => false,
    }
}

/// A read of the node, of at most so many bytes.
fn read_within<A: Archive>(
    alloc: Global,
    archive: &mut A,
    details: ReadRawModifiedDetails,
    longest: Option<usize>,
) -> Result<Option<HistoryReadResult>, AllocError> {
    let stamps = TimestampsToReturn::Source;
    let query = Query { details, stamps };
    let node = node(alloc)?;
    if is_short(&node) {
        Ok(read_node_within(alloc, archive, &node, &query, None, longest))
    } else {
        Err(AllocError)
    }
}

/// Whether a read within a limit tells what it tells without one, or nothing.
fn is_told_within(
    alloc: Global,
    archive: &mut ListArchive,
    details: ReadRawModifiedDetails,
    longest: Option<usize>,
    is_told: bool,
) -> bool {
    let Ok(within) = read_within(alloc, archive, details, longest) else {
        return false;
    };
    match read(alloc, archive, details, TimestampsToReturn::Source, None) {
        Ok(whole) => within == if is_told { Some(whole) } else { None },
        Err(_) => false,
    }
}

/// Reads of a hundred values of five bytes each: of modifications, start, end and bounds, and how many bytes the result has.
static LENGTHS: [(bool, i64, i64, bool, usize); 4] = [
    (false, 1, 1000, false, 1421),
    (false, 1000, 1, false, 1407),
    (false, 1, 1000, true, 1434),
    (true, 1, 1000, false, 3325),
];

/// Whether a read is told with this limit, and without one, and nothing with less.
fn is_told_from(
    alloc: Global,
    archive: &mut ListArchive,
    details: ReadRawModifiedDetails,
    size: usize,
) -> bool {
    is_told_within(alloc, archive, details, None, true)
        && is_told_within(alloc, archive, details, Some(size), true)
        && is_told_within(alloc, archive, details, Some(size.saturating_sub(1)), false)
        && is_told_within(alloc, archive, details, Some(499), false)
        && is_told_within(alloc, archive, details, Some(0), false)
}

#[test]
fn a_read_that_is_too_long_is_none(rt: HostRuntime) -> Result<(), Fail> {
    let mut archive = long_archive(rt.alloc(), 100)?;
    for (is_modified, start, end, bounds, size) in &LENGTHS {
        let details = asked(*is_modified, *start, *end, 0, *bounds);
        assert!(rt;
            is_told_from(rt.alloc(), &mut archive, details, *size),
            "{is_modified} {start} {end} {bounds}"
        );
    }
    Ok(())
}

// ---- how often the archive is asked

/// An archive of a hundred values, at times of their own or at one, whose question of this number fails: the first is the one
/// for its vector.
fn long_failing(alloc: Global, question: u64, of_one: bool) -> Result<ScriptedArchive, LearnFault> {
    let call = question.saturating_add(100);
    let mut archive = scripted_archive(alloc, call, Failure::Refused)?;
    learn_many(alloc, &mut archive, 100, of_one)?;
    Ok(archive)
}

/// The status of a read of at most so many bytes, where it is told.
fn status_within(
    alloc: Global,
    archive: &mut ScriptedArchive,
    is_modified: bool,
    longest: Option<usize>,
) -> Option<Status> {
    let details = asked(is_modified, 1, 1000, 0, false);
    match read_within(alloc, archive, details, longest) {
        Ok(Some(told)) => Some(told.status),
        _ => None,
    }
}

/// Of values and of modifications.
static BOTH: [bool; 2] = [false, true];

#[test]
fn what_is_too_long_is_asked_for_once(rt: HostRuntime) -> Result<(), Fail> {
    for is_modified in &BOTH {
        let mut archive = long_failing(rt.alloc(), 3, false)?;
        assert!(rt;
            status_within(rt.alloc(), &mut archive, *is_modified, Some(0)) == None,
            "{is_modified}"
        );
        assert!(rt;
            status_within(rt.alloc(), &mut archive, *is_modified, None)
                == Some(Status::BAD_RESOURCE_UNAVAILABLE),
            "{is_modified} whole"
        );
    }
    Ok(())
}

/// The archive of a hundred modifications that is read with a failure at this question: the status, and the greatest limit.
fn asked_for(alloc: Global, question: u64, of_one: bool) -> Option<(Option<Status>, usize)> {
    let Ok(mut archive) = long_failing(alloc, question, of_one) else {
        return None;
    };
    let status = status_within(alloc, &mut archive, true, None);
    Some((status, archive.greatest_limit()))
}

/// Whether they are of one moment, how often the archive is asked for them, and for how many at most.
static QUESTIONS: [(bool, u64, usize); 2] = [(true, 3, 128), (false, 4, 32)];

#[test]
fn a_moment_is_asked_for_in_growing_portions(rt: HostRuntime) -> Result<(), Fail> {
    for (of_one, questions, greatest) in &QUESTIONS {
        let last = questions.saturating_add(1);
        let whole = asked_for(rt.alloc(), last.saturating_add(1), *of_one);
        assert!(rt; whole == Some((Some(Status::GOOD), *greatest)), "{of_one}");
        let failed = asked_for(rt.alloc(), last, *of_one);
        assert!(rt;
            failed == Some((Some(Status::BAD_RESOURCE_UNAVAILABLE), *greatest)),
            "{of_one} less"
        );
    }
    Ok(())
}

// ---- faults

/// The archive of the five values, whose call of this number behind its learning fails so.
fn failing(alloc: Global, call: u64, failure: Failure) -> Result<ScriptedArchive, LearnFault> {
    let mut archive = scripted_archive(alloc, call, failure)?;
    learn_values(alloc, &mut archive)?;
    Ok(archive)
}

/// The call that fails behind five of learning, how, and what the read is answered, twice.
static FAULTS: [(u64, Failure, Status, Status); 5] = [
    (
        6,
        Failure::OutOfMemory,
        Status::BAD_OUT_OF_MEMORY,
        Status::GOOD,
    ),
    (
        6,
        Failure::Refused,
        Status::BAD_RESOURCE_UNAVAILABLE,
        Status::GOOD,
    ),
    (
        7,
        Failure::Refused,
        Status::BAD_RESOURCE_UNAVAILABLE,
        Status::GOOD,
    ),
    (
        7,
        Failure::BrokenBefore,
        Status::BAD_RESOURCE_UNAVAILABLE,
        Status::BAD_RESOURCE_UNAVAILABLE,
    ),
    (0, Failure::Refused, Status::GOOD, Status::GOOD),
];

#[test]
fn faults_are_told(rt: HostRuntime) -> Result<(), Fail> {
    for (call, failure, first, second) in &FAULTS {
        let mut archive = failing(rt.alloc(), *call, *failure)?;
        assert!(rt;
            are_told(rt.alloc(), &mut archive, *first, *second),
            "{call} {failure:?}"
        );
    }
    Ok(())
}

#[test]
fn no_more_is_asked_than_a_page_needs(rt: HostRuntime) -> Result<(), Fail> {
    let mut archive = failing(rt.alloc(), 0, Failure::Refused)?;
    assert!(rt; goes_on_as_before(rt.alloc(), &mut archive));
    assert!(rt; archive.greatest_limit() <= 4);
    Ok(())
}
