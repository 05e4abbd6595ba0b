//! Worlds of archives that take updates and exchange records.

ghost use Rattle.ua_binary.specs.declared.codes.TheConstants.Status.{GOOD};
ghost use Rattle.std.specs.Prelude.{◌≡◌, ◌∷◌, [], List, IsErr, IsTrue, true, false, map, take};
ghost use Rattle.std.specs.List.{AllByRecursion};
ghost use Rattle.stamp.specs.Numbers.{number_of};
ghost use Rattle.records.specs.Contents.{Content, merged};
ghost use Rattle.archive.specs.Store.{StepResult};
ghost use Rattle.archive.specs.Steps.{Refines};
ghost use Rattle.hist_update.specs.Outcome.{IsRequest, content_after, outcome};
ghost use Rattle.hist_update.specs.Updates.{begin};
ghost use Rattle.exchange.specs.Running.{operation_of, event_of, IsAsked, IsEvent, Turns, TurnsBy, IsSame, IsSameOr, HasLearnedFirst, HasSome, EndsBy, came_in, Puts, Gives, Happens, RunsWorld, IsClear, update_status};
ghost use Rattle.hist_update.specs.Laws.{IsBad};

use crate::replica::Batch;
use archive::{Archive, LearnFault, StoreFault};
use hist_update::{Request, delete_at, update_data};
use records::{HistoryUpdateType, Record};
use stamp::Vector;
use std::alloc::Global;
use std::slice;
use thiserror::Error;
use ua_binary::{Listing, Status, Ticks};
use ua_services::HistoryUpdateResult;
use ua_variant::{DataValue, ValueType};

/// An update of one operation.
#[derive(Debug, Drop)]
pub enum Operation {
    /// Writes a value.
    Write {
        /// Insert, replace or update.
        asked: HistoryUpdateType,
        /// The type of the node's values.
        value_type: ValueType,
        /// The value, with its source time.
        value: DataValue,
    },
    /// Deletes what is live.
    Delete {
        /// The source time, without picoseconds.
        time: Ticks,
    },
}

/// What may happen in a world. Replicas and batches are told by their places, from 0; where nothing stands
/// there, nothing happens.
#[derive(Debug, Drop)]
pub enum Event {
    /// A replica does an update.
    Operation {
        /// Which replica.
        replica: usize,
        /// The node, the user and the reading of the clock.
        request: Request,
        /// What is done.
        operation: Operation,
    },
    /// A replica sends what a vector lacks: one batch more is on its way.
    Send {
        /// Which replica.
        replica: usize,
        /// The vector.
        vector: Vector,
        /// The most records.
        limit: usize,
    },
    /// The first records of a batch come to a replica.
    Deliver {
        /// Which replica.
        replica: usize,
        /// Which batch, in the order in which they were sent.
        batch: usize,
        /// How many of its first records; all, where it has fewer.
        count: usize,
    },
    /// A replica reads its store anew.
    Restart {
        /// Which replica.
        replica: usize,
    },
}

/// Memory was wanting, or a store met a fault.
#[derive(Clone, Copy, Debug, PartialEq, Eq, Error)]
#[error("memory was wanting, or a store met a fault")]
pub(crate) struct Halted;

impl From<StoreFault> for Halted {
    fn from(_: StoreFault) -> Halted {
        Halted
    }
}

/// Does an update of one operation.
fn perform<A: Archive>(
    alloc: Global,
    archive: &mut A,
    request: &Request,
    operation: &Operation,
) -> HistoryUpdateResult
    requires request { IsRequest request.now }
    requires operation { IsAsked operation.now }
    ensures { (used : List StepResult)
        × Refines (A.state archive.old) (A.state archive.new) used
        (begin (A.state archive.old).own request.now (λ codes. GOOD)
        (operation_of operation.now ∷ [])) result }
{
    match operation {
        Operation::Write {
            asked,
            value_type,
            value,
        } => update_data(
            alloc,
            archive,
            request,
            *value_type,
            i32::from(asked.number()),
            slice::from_ref(value),
        ),
        Operation::Delete { time } => delete_at(alloc, archive, request, slice::from_ref(time)),
    }
}

/// The code of an update of one operation; its status, where it was refused as a whole.
fn code_of(told: &HistoryUpdateResult) -> Status
    ensures { result ≡ update_status told.now }
{
    match told.operation_results.as_slice().first() {
        Some(code) => *code,
        None => told.status,
    }
}

/// Whether neither memory nor a store came in an update's way, by its code and by how many faults were counted
/// before it and after it. At the end of the count nothing is known.
fn is_clear(code: Status, before: u64, after: u64) -> bool
    ensures clear { IsTrue result → IsClear code before after }
    ensures bad { result ≡ false → IsBad code }
{
    if code == Status::BAD_OUT_OF_MEMORY {
        return false;
    }
    if code != Status::BAD_RESOURCE_UNAVAILABLE {
        return true;
    }
    before < u64::MAX && after == before
}

/// Does an update. One that the rules refuse is done too.
fn operate<A: Archive>(
    alloc: Global,
    archive: &mut A,
    request: &Request,
    operation: &Operation,
) -> Result<(), Halted>
    requires request { IsRequest request.now }
    requires operation { IsAsked operation.now }
    ensures { let change : Content
        → Content =
        λ R.
        content_after R
        (outcome R (A.state archive.old).own request.now (operation_of operation.now)) in
        Turns (A.state archive.old) (A.state archive.new) change
        (IsSameOr (A.state archive.new).broken change) result }
{
    let before = archive.faults();
    let told = perform(alloc, archive, request, operation);
    let after = archive.faults();
    if is_clear(code_of(&told), before, after) {
        Ok(())
    } else {
        Err(Halted)
    }
}

/// Puts a batch among those that are on their way.
fn put(pool: &mut Vec<Batch>, batch: Batch) -> Result<(), Halted>
    ensures { Puts pool.old.items pool.new.items batch result }
{
    match pool.push(batch) {
        Ok(()) => Ok(()),
        Err(_) => Err(Halted),
    }
}

/// Puts a batch of the first records that a vector lacks among those that are on their way.
fn send<A: Archive>(
    alloc: Global,
    archive: &mut A,
    pool: &mut Vec<Batch>,
    vector: &Vector,
    limit: usize,
) -> Result<(), Halted>
    ensures { Gives (A.state archive.old) (A.state archive.new)
        (map (λ b. b.records) pool.old.items)
        (map (λ b. b.records) pool.new.items) (number_of vector.now) limit result }
{
    match archive.since(alloc, vector, limit) {
        Ok(records) => put(
            pool,
            Batch {
                records: Listing::of(records),
            },
        ),
        Err(_) => Err(Halted),
    }
}

/// How a delivery ends by a record that isn't learned: a refusal is no fault.
fn ended_by(cause: LearnFault) -> Result<(), Halted>
    ensures { EndsBy cause result }
{
    match cause {
        LearnFault::Store(_) => Err(Halted),
        _ => Ok(()),
    }
}

/// Learns records, in order, up to the first that is refused.
fn deliver<A: Archive>(archive: &mut A, records: &[Record]) -> Result<(), Halted>
    ensures { Turns (A.state archive.old) (A.state archive.new) (merged records.now)
        (HasLearnedFirst records.now) result }
{
    for held in records {
        if !held.is_lawful() {
            return Err(Halted);
        }
        match archive.learn(held) {
            Ok(_) => {}
            Err(cause) => return ended_by(cause),
        }
    }
    Ok(())
}

/// Reads a store anew.
fn restart<A: Archive>(archive: &mut A) -> Result<(), Halted>
    ensures turns { Turns (A.state archive.old) (A.state archive.new) (λ R. R) IsSame result }
    ensures ended { (A.state archive.old).broken ≡ true → IsErr result }
{
    archive.reload()?;
    Ok(())
}

/// The first items, all where there are fewer.
fn first_of<T>(items: &[T], count: usize) -> &[T]
    ensures { result.now ≡ take count items.now }
{
    &items[..count.min(items.len())]
}

/// Learns the first records of a batch, where it is there.
fn deliver_from<A: Archive>(
    archive: &mut A,
    pool: &[Batch],
    batch: usize,
    count: usize,
) -> Result<(), Halted>
    ensures { Turns (A.state archive.old) (A.state archive.new)
        (came_in (map (λ b. b.records) pool.now) batch count)
        (HasSome (map (λ b. b.records) pool.now) batch count) result }
{
    if batch < pool.len() {
        let records = pool[batch].records.as_slice();
        deliver(archive, first_of(records, count))
    } else {
        Ok(())
    }
}

impl Event {
    ghost use Rattle.std.specs.Prelude.{◌≡◌};
    ghost use Rattle.exchange.specs.Running.{event_of, place_of};

    /// Which replica it comes to.
    fn replica(&self) -> usize
        ensures { result ≡ place_of (event_of self.now) }
    {
        match self {
            Event::Operation { replica, .. }
            | Event::Send { replica, .. }
            | Event::Deliver { replica, .. }
            | Event::Restart { replica } => *replica,
        }
    }
}

/// One event, at the replica that it comes to.
fn turn<A: Archive>(
    alloc: Global,
    archive: &mut A,
    pool: &mut Vec<Batch>,
    event: &Event,
) -> Result<(), Halted>
    requires { IsEvent event.now }
    ensures { TurnsBy (A.state archive.old) (A.state archive.new)
        (map (λ b. b.records) pool.old.items)
        (map (λ b. b.records) pool.new.items) (event_of event.now) result }
{
    match event {
        Event::Operation {
            request,
            operation,
            ..
        } => operate(alloc, archive, request, operation),
        Event::Send { vector, limit, .. } => send(alloc, archive, pool, vector, *limit),
        Event::Deliver { batch, count, .. } => deliver_from(archive, pool, *batch, *count),
        Event::Restart { .. } => restart(archive),
    }
}

/// One event.
fn happen<A: Archive>(
    alloc: Global,
    replicas: &mut [A],
    pool: &mut Vec<Batch>,
    event: &Event,
) -> Result<(), Halted>
    requires { IsEvent event.now }
    ensures { Happens A.state replicas.old replicas.new (map (λ b. b.records) pool.old.items)
        (map (λ b. b.records) pool.new.items) (event_of event.now) result }
{
    let place = event.replica();
    if place < replicas.len() {
        turn(alloc, &mut replicas[place], pool, event)
    } else {
        Ok(())
    }
}

/// Lets events happen, one after the other, between replicas of an archive between which nothing is on its
/// way yet. A delivery that meets a refusal stops there, and the world goes on. Where memory is wanting or a
/// store meets a fault the error is the number of events that happened: the next one then left everything as
/// it was, or, of a delivery, some first records; of an operation behind which its store is broken an opening
/// finds what was held, or that with its record. No event reads a store that was broken before: it is the end
/// there. What else is said here is said of stores that return what was written to them.
pub fn run_world<A: Archive>(
    alloc: Global,
    replicas: &mut [A],
    events: &[Event],
) -> Result<(), usize>
    requires { AllByRecursion IsEvent events.now }
    ensures { RunsWorld A.state replicas.old replicas.new (map event_of events.now) result }
{
    let mut pool = Vec::new(alloc);
    for (done, event) in events.iter().enumerate() {
        match happen(alloc, replicas, &mut pool, event) {
            Ok(()) => {}
            Err(_) => return Err(done),
        }
    }
    Ok(())
}
