//! Exchanges between lists in memory: worlds, faults, the limits of a frame, and a dialog.

ghost use Rattle.std.specs.Prelude.{IsTrue};
ghost use Rattle.std.specs.List.{AllByRecursion};
ghost use Rattle.exchange.specs.Running.{IsAsked, IsEvent};

use HistoryUpdateType::Insert;
use archive::{Archive, Failure, LearnFault, ListArchive, ScriptedArchive, StoreFault};
use exchange::{Batch, Event, ExchangeFault, Operation, Replica, converse, run_world};
use hist_update::Request;
use history_rows::archives::{node, scripted_archive};
use history_rows::exchanges::{
    are_equal, first_other_batch, held_of, meet, merge, merge_rows, push, record, replica_number,
    shows_both,
};
use history_rows::updates::{is_request, is_short};
use records::{HistoryUpdateType, Record};
use stamp::Vector;
use std::alloc::{AllocError, Global};
use std::test::Fail;
use ua_binary::{Bytes, Listing, Text, Ticks};
use ua_variant::{DataValue, Scalar, ValueType, Variant};
use uuid::Uuid;

pub(crate) fn list_replica(alloc: Global, number: u8) -> Result<Replica<ListArchive>, StoreFault> {
    let number = replica_number(number)?;
    Ok(Replica::new(ListArchive::new(alloc, Uuid::nil(), number)))
}

#[test]
fn two_inserts_meet(rt: HostRuntime) -> Result<(), Fail> {
    let mut one = list_replica(rt.alloc(), 1)?;
    let mut two = list_replica(rt.alloc(), 2)?;
    assert!(rt; meet(rt.alloc(), &mut one, &mut two)?);
    Ok(())
}

/// An insert of this value at a replica, at this reading of the clock.
fn insert(alloc: Global, replica: usize, reading: i64, written: i32) -> Result<Event, AllocError> {
    let node = node(alloc)?;
    let user = Text::from_str(alloc, "ann")?;
    Ok(Event::Operation {
        replica,
        request: Request {
            node,
            user,
            reading,
        },
        operation: Operation::Write {
            asked: Insert,
            value_type: ValueType {
                number: 6,
                array: false,
            },
            value: DataValue {
                value: Some(Variant::Scalar(Scalar::Int32(written))),
                status: None,
                source_time: Some(Ticks(10)),
                source_pico: None,
                server_time: None,
                server_pico: None,
            },
        },
    })
}

fn add(events: &mut Vec<Event>, event: Event) -> Result<(), AllocError> {
    events.push(event)?;
    Ok(())
}

fn send_all(replica: usize) -> Event {
    Event::Send {
        replica,
        vector: Vector::new(),
        limit: 1000,
    }
}

fn deliver_all(replica: usize, batch: usize) -> Event {
    Event::Deliver {
        replica,
        batch,
        count: 1000,
    }
}

/// Both replicas insert, and each is sent what the other one holds; a delivery comes twice, one to a replica
/// that isn't there, one of a batch that isn't there.
fn add_events(alloc: Global, events: &mut Vec<Event>) -> Result<(), AllocError> {
    for (replica, written) in [(0, 7), (1, 8)] {
        add(events, insert(alloc, replica, 100, written)?)?;
    }
    for replica in [0, 1] {
        add(events, send_all(replica))?;
    }
    for (replica, batch) in [(1, 0), (0, 1), (0, 1), (2, 0), (0, 2)] {
        add(events, deliver_all(replica, batch))?;
    }
    add(events, Event::Restart { replica: 1 })
}

fn is_asked(operation: &Operation) -> bool
    ensures { IsTrue result → IsAsked operation.now }
{
    match operation {
        Operation::Write { asked, value, .. } => match asked {
            HistoryUpdateType::Delete => false,
            _ => is_short(value),
        },
        Operation::Delete { .. } => true,
    }
}

/// Whether an update's conditions hold.
fn is_event(event: &Event) -> bool
    ensures { IsTrue result → IsEvent event.now }
{
    match event {
        Event::Operation {
            request,
            operation,
            ..
        } => is_request(request) && is_asked(operation),
        _ => true,
    }
}

fn are_events(events: &[Event]) -> bool
    ensures { IsTrue result → AllByRecursion IsEvent events.now }
{
    events.iter().all(is_event)
}

/// Lets events happen whose conditions hold.
fn run<A: Archive>(alloc: Global, replicas: &mut [A], events: &[Event]) -> Result<(), usize> {
    if are_events(events) {
        run_world(alloc, replicas, events)
    } else {
        Err(events.len())
    }
}

/// Two replicas that hold nothing.
fn archives(alloc: Global) -> Result<Vec<ListArchive>, StoreFault> {
    let mut archives = Vec::new(alloc);
    for number in [1, 2] {
        let number = replica_number(number)?;
        match archives.push(ListArchive::new(alloc, Uuid::nil(), number)) {
            Ok(()) => {}
            Err(_) => return Err(StoreFault::OutOfMemory),
        }
    }
    Ok(archives)
}

/// Whether both inserts are shown by all of them, once these events happened.
fn meet_in_a_world(alloc: Global, replicas: &mut [ListArchive]) -> Result<bool, StoreFault> {
    let mut events = Vec::new(alloc);
    add_events(alloc, &mut events)?;
    if run(alloc, replicas, &events) != Ok(()) {
        return Ok(false);
    }
    drop(events);
    let mut same = true;
    for archive in replicas.iter_mut() {
        same = same && shows_both(alloc, archive)?;
    }
    Ok(same)
}

#[test]
fn two_inserts_meet_in_a_world(rt: HostRuntime) -> Result<(), Fail> {
    let mut replicas = archives(rt.alloc())?;
    assert!(rt; meet_in_a_world(rt.alloc(), &mut replicas)?);
    Ok(())
}

/// Replica 1, which meets no fault, and replica 2, whose first call fails so.
fn breaking(alloc: Global, failure: Failure) -> Result<Vec<ScriptedArchive>, StoreFault> {
    let mut archives = Vec::new(alloc);
    for (number, call) in [(1, 0), (2, 1)] {
        let number = replica_number(number)?;
        match archives.push(ScriptedArchive::new(alloc, Uuid::nil(), number, call, failure)) {
            Ok(()) => {}
            Err(_) => return Err(StoreFault::OutOfMemory),
        }
    }
    Ok(archives)
}

/// Replica 1 inserts, and what it holds is brought to replica 2.
fn add_delivery(alloc: Global, events: &mut Vec<Event>) -> Result<(), AllocError> {
    add(events, insert(alloc, 0, 100, 7)?)?;
    add(events, send_all(0))?;
    add(events, deliver_all(1, 0))
}

/// Whether the third event ends these replicas' world, and the first of them holds its record.
fn breaks_at_the_third(
    alloc: Global,
    replicas: &mut [ScriptedArchive],
) -> Result<bool, StoreFault> {
    let mut events = Vec::new(alloc);
    add_delivery(alloc, &mut events)?;
    let mut same = run(alloc, replicas, &events) == Err(2);
    for (archive, held) in replicas.iter_mut().zip([Ok(1), Err(StoreFault::Broken)]) {
        same = same && held_of(archive, 1) == held;
    }
    Ok(same)
}

/// A store that breaks at the third event ends a world there, and leaves the other replica as it was.
#[test]
fn a_break_ends_a_world(rt: HostRuntime) -> Result<(), Fail> {
    for failure in [Failure::BrokenBefore, Failure::BrokenAfter] {
        let mut replicas = breaking(rt.alloc(), failure)?;
        assert!(rt;
            breaks_at_the_third(rt.alloc(), &mut replicas)?,
            "{failure:?}"
        );
    }
    Ok(())
}

#[test]
fn batches_are_merged(rt: HostRuntime) -> Result<(), Fail> {
    let mut replica = list_replica(rt.alloc(), 1)?;
    assert!(rt; first_other_batch(rt.alloc(), &mut replica) == None);
    Ok(())
}

/// How a call fails, the fault that is told, and what is answered to how many records are held then.
static SCRIPTS: [(Failure, StoreFault, Result<u64, StoreFault>); 4] = [
    (Failure::OutOfMemory, StoreFault::OutOfMemory, Ok(1)),
    (Failure::Refused, StoreFault::Refused, Ok(1)),
    (
        Failure::BrokenBefore,
        StoreFault::Broken,
        Err(StoreFault::Broken),
    ),
    (
        Failure::BrokenAfter,
        StoreFault::Broken,
        Err(StoreFault::Broken),
    ),
];

/// What is told where the store fails behind the first record.
fn stopped(fault: StoreFault) -> Result<u32, ExchangeFault> {
    Err(ExchangeFault::Learn {
        learned: 1,
        cause: LearnFault::Store(fault),
    })
}

/// Whether a merge of three records, whose second one meets this fault, is told so, and what is held then.
fn ends_so<A: Archive>(
    alloc: Global,
    replica: &mut Replica<A>,
    fault: StoreFault,
    held: Result<u64, StoreFault>,
) -> bool {
    let rows = [(2, 1, 100, 7), (2, 2, 101, 8), (2, 3, 102, 9)];
    merge_rows(alloc, replica, &rows) == stopped(fault)
        && replica.archive.faults() == 1
        && held_of(&mut replica.archive, 2) == held
}

#[test]
fn faults_of_the_store_end_a_merge(rt: HostRuntime) -> Result<(), Fail> {
    for (failure, fault, held) in &SCRIPTS {
        let mut replica = Replica::new(scripted_archive(rt.alloc(), 2, *failure)?);
        let ended = ends_so(rt.alloc(), &mut replica, *fault, *held);
        assert!(rt; ended, "{failure:?}");
    }
    Ok(())
}

/// A record of replica 2, of a value of so many bytes.
fn large_record(alloc: Global, number: u32, size: usize) -> Result<Record, StoreFault> {
    let two = replica_number(2)?;
    let bytes = Bytes::new(vec![in alloc; 0; size]?);
    let written = Variant::Scalar(Scalar::ByteString(Some(bytes)));
    Ok(record(alloc, two, u64::from(number), i64::from(number), written)?)
}

/// Some first records of replica 2, each of a value of so many bytes.
pub(crate) fn large_batch(alloc: Global, count: u32, size: usize) -> Result<Batch, StoreFault> {
    let mut records = Vec::new(alloc);
    for number in 1..=count {
        push(&mut records, large_record(alloc, number, size)?)?;
    }
    Ok(Batch {
        records: Listing::of(records),
    })
}

/// How many records are held, of values of how many bytes, and how many of them a batch has. Beside its
/// value a record has 50 bytes, and its length 4; the frame has 40 beside its records.
static SIZES: [(u32, usize, usize); 6] = [
    (1, 1_048_528, 1),
    (3, 1_048_503, 1),
    (3, 1_048_502, 2),
    (3, 698_984, 2),
    (3, 698_983, 3),
    (1001, 5, 1000),
];

/// How many records the batch for an empty vector has, of a replica that merged so many.
fn answered(
    alloc: Global,
    replica: &mut Replica<ListArchive>,
    count: u32,
    size: usize,
) -> Result<usize, ExchangeFault> {
    let held = large_batch(alloc, count, size)?;
    merge(replica, &held)?;
    drop(held);
    let batch = replica.answer(alloc, &Vector::new())?;
    Ok(batch.records.len())
}

#[test]
fn batches_fit_a_frame(rt: HostRuntime) -> Result<(), Fail> {
    for (count, size, wanted) in &SIZES {
        let mut replica = list_replica(rt.alloc(), 1)?;
        let told = answered(rt.alloc(), &mut replica, *count, *size);
        assert!(rt; told == Ok(*wanted), "{size}");
    }
    Ok(())
}

static FAULTS: [ExchangeFault; 11] = [
    ExchangeFault::Frame,
    ExchangeFault::WrongArchive,
    ExchangeFault::Learn {
        learned: 0,
        cause: LearnFault::Clash,
    },
    ExchangeFault::OutOfMemory,
    ExchangeFault::SelfPeer,
    ExchangeFault::Store(StoreFault::Broken),
    ExchangeFault::TooLong,
    ExchangeFault::PeerFormat,
    ExchangeFault::AheadOfClock,
    ExchangeFault::NotAdmitted,
    ExchangeFault::GivenTwice,
];

#[test]
fn numbers_of_faults(rt: HostRuntime) {
    for (i, fault) in FAULTS.iter().enumerate() {
        assert!(rt; fault.number() as usize == i + 1);
    }
}

/// How many frames a dialog of replicas 1 and 2 has, each with one record of its own.
fn frames_of_one_each(
    alloc: Global,
    one: &mut Replica<ListArchive>,
    two: &mut Replica<ListArchive>,
) -> Result<u32, ExchangeFault> {
    merge_rows(alloc, one, &[(1, 1, 100, 7)])?;
    merge_rows(alloc, two, &[(2, 1, 100, 8)])?;
    let frames = converse(alloc, one, two)?;
    if !are_equal(alloc, one, two)? {
        return Err(ExchangeFault::Frame);
    }
    Ok(frames)
}

#[test]
fn a_dialog_of_two(rt: HostRuntime) -> Result<(), Fail> {
    let mut one = list_replica(rt.alloc(), 1)?;
    let mut two = list_replica(rt.alloc(), 2)?;
    assert!(rt; frames_of_one_each(rt.alloc(), &mut one, &mut two) == Ok(7));
    Ok(())
}
