//! One operation: a write of one value, or a delete at one moment.

ghost use Rattle.std.specs.Prelude.{◌≡◌, ◌+◌, ◌≤◌, min, IfOk, IfSome, IfNone, false, Ok, Err, None};
ghost use Rattle.stamp.specs.Limits.{greatest, lift};
ghost use Rattle.stamp.specs.Numbers.{number_of};
ghost use Rattle.records.specs.Records.{is_delete};
ghost use Rattle.records.specs.Spelling.{empty, IsLawfulRecord};
ghost use Rattle.records.specs.Contents.{cut};
ghost use Rattle.archive.specs.Store.{Store, Asks, IsAskedWithin};
ghost use Rattle.archive.specs.declared.setback.StepError.TheVariants as setback;
ghost use Rattle.ua_variant.specs.DataValue.{IsShortData, IsPicoseconds};
ghost use Rattle.hist_update.specs.Outcome.{IsRequest, Write, DeleteAt, fits_type, source_time, source_pico, time_judged, conflict, done, is_live, writing, record_by};
ghost use Rattle.hist_update.specs.Operating.{Operates, IsChangePlace, IsNumber, candidate_of, IsDraft, is_long, refusal, Submits, code_told};
ghost use Rattle.hist_update.specs.declared.operate.OperationError.TheVariants as undone;

use crate::request::Request;
use archive::{Archive, Direction, LearnFault, StepError, StoreFault};
use records::{HistoryUpdateType, Moment, Record};
use stamp::{GREATEST_NUMBER, GREATEST_TICK, ReplicaNo, Vector, lift};
use std::alloc::{AllocError, Global};
use thiserror::Error;
use ua_binary::{NodeId, Status, TryClone};
use ua_variant::{DataValue, ValueType, Variant, same_type};

/// Why an operation was not done.
#[derive(Clone, Copy, Debug, PartialEq, Eq, Error)]
pub(crate) enum OperationError {
    /// The rules refuse it.
    #[error("the operation is refused")]
    Refused(Status),
    /// Something came in its way.
    #[error("{0}")]
    Failed(StepError),
}

impl From<AllocError> for OperationError {
    ghost from_gives = { λ cause told. told ≡ undone.Failed setback.OutOfMemory };

    fn from(_: AllocError) -> OperationError {
        OperationError::Failed(StepError::OutOfMemory)
    }
}

impl From<StoreFault> for OperationError {
    ghost from_gives = { λ cause told. told ≡ undone.Failed (setback.Store cause) };

    fn from(cause: StoreFault) -> OperationError {
        OperationError::Failed(StepError::Store(cause))
    }
}

/// A record that is made for the archive is never refused by it, so the other causes don't come.
impl From<LearnFault> for OperationError {
    ghost use Rattle.hist_update.specs.Operating.{of_learn};

    ghost from_gives = { λ cause told. told ≡ of_learn cause };

    fn from(cause: LearnFault) -> OperationError {
        match cause {
            LearnFault::Store(fault) => OperationError::Failed(StepError::Store(fault)),
            _ => OperationError::Refused(Status::BAD_RESOURCE_UNAVAILABLE),
        }
    }
}

/// The code that an operation is answered.
pub(crate) fn code_of(done: Result<Status, OperationError>) -> Status
    ensures { result ≡ code_told done }
{
    match done {
        Ok(code) | Err(OperationError::Refused(code)) => code,
        Err(OperationError::Failed(cause)) => cause.status(),
    }
}

/// Where a change is to go: whether a value is live there, and the name and the tick of its record;
/// no tick where none is left, and then the number is the greatest.
#[derive(Clone, Copy)]
struct ChangePlace {
    live: bool,
    origin: ReplicaNo,
    number: u64,
    tick: Option<i64>,
}

/// Whether a value is live at a moment, of what a vector covers. The archive is asked for that value alone,
/// however many records stand there.
fn is_live<A: Archive>(
    alloc: Global,
    archive: &mut A,
    node: &NodeId,
    time: Moment,
    within: &Vector,
) -> Result<bool, StoreFault>
    ensures asks { Asks (A.state archive.old) (A.state archive.new) result
        (λ live. live
        ≡ is_live (cut (A.state archive.old).content (number_of within.now)) node.now time) }
    ensures asked { IsAskedWithin 1 (A.asked archive.old) (A.asked archive.new) }
{
    let found = archive.range(alloc, node, time, time, Direction::Forward, 1, within)?;
    Ok(found.first().is_some())
}

/// Asks the archive where a change at this moment is to go.
fn read_state<A: Archive>(
    alloc: Global,
    archive: &mut A,
    request: &Request,
    time: Moment,
) -> Result<ChangePlace, StoreFault>
    ensures number { IfOk result IsNumber }
    ensures asks { Asks (A.state archive.old) (A.state archive.new) result
        (IsChangePlace (A.state archive.old) request.now time) }
    ensures asked { IsAskedWithin 1 (A.asked archive.old) (A.asked archive.new) }
{
    let all = archive.vector()?;
    let live = is_live(alloc, archive, &request.node, time, &all)?;
    let tick = lift(request.reading, archive.top()?);
    let origin = archive.number();
    let number = all.get(origin) + 1;
    Ok(ChangePlace {
        live,
        origin,
        number: number.min(GREATEST_NUMBER),
        tick,
    })
}

/// Why an update is refused for what is live.
fn conflict(asked: HistoryUpdateType, live: bool) -> Option<Status>
    ensures { result ≡ conflict asked live }
{
    match (asked, live) {
        (HistoryUpdateType::Insert, true) => Some(Status::BAD_ENTRY_EXISTS),
        (HistoryUpdateType::Replace | HistoryUpdateType::Delete, false) => {
            Some(Status::BAD_NO_ENTRY_EXISTS)
        }
        _ => None,
    }
}

/// The code of an update that was done.
fn done(asked: HistoryUpdateType, live: bool) -> Status
    ensures { result ≡ done asked live }
{
    if asked == HistoryUpdateType::Delete {
        Status::GOOD
    } else if live {
        Status::GOOD_ENTRY_REPLACED
    } else {
        Status::GOOD_ENTRY_INSERTED
    }
}

/// Whether a value fits a type. One that isn't there fits each.
fn fits(value_type: ValueType, value: &Option<Variant>) -> bool
    ensures { result ≡ fits_type value_type value.now }
{
    match value {
        Some(value) => same_type(value, value_type),
        None => true,
    }
}

/// The source picoseconds of a value, 0 where it has none.
fn source_pico(value: &DataValue) -> u16
    requires { IfSome value.now.source_pico IsPicoseconds }
    ensures pico { result ≡ source_pico value.now }
    ensures within { result ≤ 9999 }
{
    match value.source_pico {
        Some(pico) => pico,
        None => 0,
    }
}

/// The moment of a value, where it has a source time of at least 1.
fn source_time(value: &DataValue) -> Option<Moment>
    requires { IfSome value.now.source_pico IsPicoseconds }
    ensures { result ≡ source_time value.now }
{
    let pico = source_pico(value);
    match value.source_time {
        Some(ticks) if ticks.0 >= 1 => Some(Moment {
            ticks: ticks.0,
            pico,
        }),
        _ => None,
    }
}

/// The moment of a value that may be written to a node of this type.
fn check(value_type: ValueType, value: &DataValue) -> Result<Moment, Status>
    requires { IfSome value.now.source_pico IsPicoseconds }
    ensures { result ≡ time_judged value_type value.now }
{
    let Some(time) = source_time(value) else {
        return Err(Status::BAD_INVALID_TIMESTAMP);
    };
    if !fits(value_type, &value.value) {
        return Err(Status::BAD_TYPE_MISMATCH);
    }
    Ok(time)
}

/// A copy of a value, without its source time.
fn without_time(value: &DataValue) -> Result<DataValue, AllocError>
    ensures { IfOk result (λ v. v ≡ record value.now { source_time = None }) }
{
    let copy = value.value.try_clone()?;
    Ok(DataValue {
        value: copy,
        status: value.status,
        source_time: None,
        source_pico: value.source_pico,
        server_time: value.server_time,
        server_pico: value.server_pico,
    })
}

/// A value with nothing in it.
fn empty_value() -> DataValue
    ensures { result ≡ empty }
{
    DataValue {
        value: None,
        status: None,
        source_time: None,
        source_pico: None,
        server_time: None,
        server_pico: None,
    }
}

impl Request {
    /// The record of a change.
    fn record(
        &self,
        place: &ChangePlace,
        time: Moment,
        asked: HistoryUpdateType,
        value: DataValue,
    ) -> Result<Record, AllocError>
        ensures { IfOk result
            (λ r. r
            ≡ candidate_of self.now place.now
            (record { time = time; asked = asked; value = value })) }
    {
        let node = self.node.try_clone()?;
        let user = self.user.try_clone()?;
        Ok(Record {
            origin: place.origin,
            number: place.number,
            tick: place.tick.unwrap_or(GREATEST_TICK),
            node,
            time,
            asked,
            user,
            value,
        })
    }

    /// The record of a write.
    fn write(
        &self,
        place: &ChangePlace,
        time: Moment,
        asked: HistoryUpdateType,
        value: &DataValue,
    ) -> Result<Record, AllocError>
        ensures { IfOk result
            (λ r. r ≡ candidate_of self.now place.now (writing asked value.now time)) }
    {
        let value = without_time(value)?;
        self.record(place, time, asked, value)
    }
}

/// Whether a record, lawful but for its size, takes too many bytes.
#[tactic(auto, using(crate::proofs::Drafts::drafts))]
fn is_long(candidate: &Record) -> bool
    requires { IsDraft candidate.now }
    ensures tested { result ≡ is_long candidate.now }
    ensures lawful { result ≡ false → IsLawfulRecord candidate.now }
{
    let (_origin, _time) = (candidate.origin.get(), candidate.time.ticks());
    let (_node, _user) = (candidate.node.as_ref(), candidate.user.as_str());
    let _size = candidate.value.size();
    !candidate.is_lawful()
}

/// Why a change is refused at its place.
fn refusal(candidate: &Record, place: &ChangePlace) -> Option<Status>
    requires { IsDraft candidate.now }
    ensures tested { result ≡ refusal candidate.now place.now }
    ensures lawful { result ≡ None → IsLawfulRecord candidate.now }
{
    if is_long(candidate) {
        return Some(Status::BAD_ENCODING_LIMITS_EXCEEDED);
    }
    if let Some(code) = conflict(candidate.asked, place.live) {
        return Some(code);
    }
    match place.tick {
        Some(_) => None,
        None => Some(Status::BAD_RESOURCE_UNAVAILABLE),
    }
}

/// Gives a record to the archive.
fn append<A: Archive>(
    archive: &mut A,
    candidate: &Record,
    code: Status,
) -> Result<Status, OperationError>
    requires { IsLawfulRecord candidate.now }
    ensures { Submits (A.state archive.old) (A.state archive.new) candidate.now code result }
{
    match archive.learn(candidate) {
        Ok(_) => Ok(code),
        Err(fault) => Err(fault.into()),
    }
}

/// Gives a record to the archive, where nothing speaks against it.
fn apply<A: Archive>(
    archive: &mut A,
    candidate: &Record,
    place: &ChangePlace,
) -> Result<Status, OperationError>
    requires { IsDraft candidate.now }
    ensures refused { IfSome (refusal candidate.now place.now)
        (λ code. (result ≡ Err (undone.Refused code)) × (archive.new ≡ archive.old)) }
    ensures submitted { IfNone (refusal candidate.now place.now)
        (Submits (A.state archive.old) (A.state archive.new) candidate.now
        (done candidate.now.asked place.now.live) result) }
{
    if let Some(code) = refusal(candidate, place) {
        return Err(OperationError::Refused(code));
    }
    append(archive, candidate, done(candidate.asked, place.live))
}

/// Writes one value.
pub(crate) fn write<A: Archive>(
    alloc: Global,
    archive: &mut A,
    request: &Request,
    value_type: ValueType,
    asked: HistoryUpdateType,
    value: &DataValue,
) -> Result<Status, OperationError>
    requires request { IsRequest request.now }
    requires asked { is_delete asked ≡ false }
    requires value { IsShortData value.now }
    ensures { Operates (A.state archive.old) (A.state archive.new) request.now
        (Write asked value_type value.now) result }
{
    let time = match check(value_type, value) {
        Ok(time) => time,
        Err(code) => return Err(OperationError::Refused(code)),
    };
    let place = read_state(alloc, archive, request, time)?;
    let candidate = request.write(&place, time, asked, value)?;
    apply(archive, &candidate, &place)
}

/// Deletes what is live at one moment.
pub(crate) fn delete<A: Archive>(
    alloc: Global,
    archive: &mut A,
    request: &Request,
    time: Moment,
) -> Result<Status, OperationError>
    requires { IsRequest request.now }
    ensures { Operates (A.state archive.old) (A.state archive.new) request.now
        (DeleteAt time) result }
{
    if time.ticks() < 1 {
        return Err(OperationError::Refused(Status::BAD_INVALID_TIMESTAMP));
    }
    let _node = request.node.as_ref();
    let place = read_state(alloc, archive, request, time)?;
    let candidate = request.record(&place, time, HistoryUpdateType::Delete, empty_value())?;
    apply(archive, &candidate, &place)
}
