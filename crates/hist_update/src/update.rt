//! Whole updates: lists of values or source times, and stretches of time.

ghost use Rattle.ua_binary.specs.declared.codes.TheConstants.Status.{GOOD};
ghost use Rattle.std.specs.Prelude.{◌≡◌, ◌≤◌, ◌≤ℤ◌, pos, List, [], map, take, length, IfSome, None, false, vec_capacity};
ghost use Rattle.records.specs.Contents.{Content};
ghost use Rattle.std.specs.List.{AllByRecursion};
ghost use Rattle.ua_variant.specs.DataValue.{IsShortData};
ghost use Rattle.ua_services.specs.Updates.{IsShortUpdate};
ghost use Rattle.records.specs.Moments.{moment};
ghost use Rattle.records.specs.Records.{is_delete};
ghost use Rattle.archive.specs.Reading.{range_of};
ghost use Rattle.archive.specs.declared.reading.Direction.TheVariants as direction;
ghost use Rattle.archive.specs.Steps.{Refines};
ghost use Rattle.archive.specs.Store.{StepResult, Asks, IsLeft};
ghost use Rattle.hist_update.specs.Codes.{asked_by, list_refusal, first_other};
ghost use Rattle.hist_update.specs.Outcome.{IsRequest, Write, DeleteAt};
ghost use Rattle.hist_update.specs.Operating.{Operations, Begins, BeginsListed};
ghost use Rattle.hist_update.specs.Updates.{update_data, delete_at, delete_raw, refused_update, data_refusal, writes, deletes_at, last_moment_of_range, stretch_refusal, listing_refusal, AreEnded, needs_of, needs_of_stretch};

use crate::operate::{code_of, delete, write};
use crate::request::Request;
use archive::{Archive, Direction, StepError, StoreFault};
use records::{Held, HistoryUpdateType, Moment};
use std::alloc::Global;
use ua_binary::{Listing, NodeId, Status, Ticks};
use ua_services::HistoryUpdateResult;
use ua_variant::{DataValue, ValueType};

/// The most operations of one list.
const MOST: usize = 1000;

/// An update that is refused as a whole; it takes no memory.
fn refused(alloc: Global, status: Status) -> HistoryUpdateResult
    ensures { result ≡ refused_update status }
{
    HistoryUpdateResult {
        status,
        operation_results: Listing::new(alloc),
    }
}

/// Which update a number asks for (Part 11, PerformUpdateType).
fn asked_by(perform: i32) -> Option<HistoryUpdateType>
    ensures { result ≡ asked_by perform }
{
    match perform {
        1 => Some(HistoryUpdateType::Insert),
        2 => Some(HistoryUpdateType::Replace),
        3 => Some(HistoryUpdateType::Update),
        _ => None,
    }
}

/// Why a list of so many operations is refused as a whole.
fn count_refusal(count: usize) -> Option<Status>
    ensures tested { result ≡ list_refusal 1000 count }
    ensures few { result ≡ None → count ≤ 1000 }
{
    if count == 0 {
        return Some(Status::BAD_NOTHING_TO_DO);
    }
    if count > MOST {
        return Some(Status::BAD_TOO_MANY_OPERATIONS);
    }
    None
}

fn write_each<A: Archive>(
    alloc: Global,
    archive: &mut A,
    request: &Request,
    value_type: ValueType,
    asked: HistoryUpdateType,
    values: &[DataValue],
    codes: &mut Vec<Status>,
)
    requires request { IsRequest request.now }
    requires asked { is_delete asked ≡ false }
    requires values { AllByRecursion IsShortData values.now }
    requires codes { codes.old.items ≡ [] }
    requires room { length values.now ≤ vec_capacity codes.old }
    ensures { Operations (A.state archive.old) (A.state archive.new) request.now
        (map (Write asked value_type) values.now) codes.new.items }
{
    for value in values {
        let done = write(alloc, archive, request, value_type, asked, value);
        codes.push(code_of(done)).unwrap();
    }
}

/// Writes values, of which there are at most 1,000.
fn write_all<A: Archive>(
    alloc: Global,
    archive: &mut A,
    request: &Request,
    value_type: ValueType,
    asked: HistoryUpdateType,
    values: &[DataValue],
) -> HistoryUpdateResult
    requires request { IsRequest request.now }
    requires asked { is_delete asked ≡ false }
    requires values { AllByRecursion IsShortData values.now }
    requires few { length values.now ≤ 1000 }
    ensures begins { Begins (A.state archive.old) (A.state archive.new) request.now (λ codes. GOOD)
        (map (Write asked value_type) values.now) result }
    ensures short { IsShortUpdate result }
{
    let Ok(mut codes) = Vec::with_capacity(alloc, values.len()) else {
        return refused(alloc, Status::BAD_OUT_OF_MEMORY);
    };
    write_each(
        alloc, archive, request, value_type, asked, values, &mut codes,
    );
    HistoryUpdateResult {
        status: Status::GOOD,
        operation_results: Listing::of(codes),
    }
}

/// Writes 1 to 1,000 values to a node of this type, in order (Part 11, UpdateDataDetails). `perform` is
/// 1 for insert, 2 for replace, 3 for update (PerformUpdateType); else the status is
/// BAD_HISTORY_OPERATION_INVALID, then BAD_NOTHING_TO_DO for no value, BAD_TOO_MANY_OPERATIONS for more
/// than 1,000, and BAD_OUT_OF_MEMORY where there is no memory for the codes: then nothing was changed and
/// there are no codes. Otherwise the status is GOOD, and each value has a code of its own:
/// BAD_INVALID_TIMESTAMP without a source time of at least 1, BAD_TYPE_MISMATCH,
/// BAD_ENCODING_LIMITS_EXCEEDED where its record has more than 1,048,578 bytes, BAD_ENTRY_EXISTS,
/// BAD_NO_ENTRY_EXISTS, BAD_RESOURCE_UNAVAILABLE where no tick is left, BAD_OUT_OF_MEMORY,
/// BAD_RESOURCE_UNAVAILABLE for another fault of the store, GOOD_ENTRY_INSERTED or GOOD_ENTRY_REPLACED. A
/// value of a Bad code changed nothing, save that behind a break of the store its record may stand.
///
/// For some marks, one for the memory of the codes and one for each operation, the answer and what is
/// held then are those of `update_data` of the specification; and once the store is broken, an operation
/// is refused by what it says itself, or something came in its way.
pub fn update_data<A: Archive>(
    alloc: Global,
    archive: &mut A,
    request: &Request,
    value_type: ValueType,
    perform: i32,
    values: &[DataValue],
) -> HistoryUpdateResult
    requires request { IsRequest request.now }
    requires values { AllByRecursion IsShortData values.now }
    ensures acts { (used : List StepResult)
        × Refines (A.state archive.old) (A.state archive.new) used
        (update_data (A.state archive.old).own request.now value_type perform values.now) result
        × AreEnded (A.state archive.old).broken
        (needs_of (A.state archive.old).own request.now
        (writes (asked_by perform) value_type values.now)) used }
    ensures refused { IfSome (data_refusal (asked_by perform) (length values.now))
        (λ code. (result ≡ refused_update code) × (archive.new ≡ archive.old)) }
    ensures short { IsShortUpdate result }
{
    let Some(asked) = asked_by(perform) else {
        return refused(alloc, Status::BAD_HISTORY_OPERATION_INVALID);
    };
    if let Some(status) = count_refusal(values.len()) {
        return refused(alloc, status);
    }
    write_all(alloc, archive, request, value_type, asked, values)
}

/// A source time as a moment, without picoseconds.
fn moment_of(time: Ticks) -> Moment
    ensures { result ≡ moment time.0 0 }
{
    Moment::at(time.0)
}

fn delete_each<A: Archive>(
    alloc: Global,
    archive: &mut A,
    request: &Request,
    times: &[Ticks],
    codes: &mut Vec<Status>,
)
    requires request { IsRequest request.now }
    requires codes { codes.old.items ≡ [] }
    requires room { length times.now ≤ vec_capacity codes.old }
    ensures { Operations (A.state archive.old) (A.state archive.new) request.now
        (deletes_at times.now) codes.new.items }
{
    for time in times {
        let done = delete(alloc, archive, request, moment_of(*time));
        codes.push(code_of(done)).unwrap();
    }
}

/// Deletes at source times, of which there are at most 1,000.
fn delete_all<A: Archive>(
    alloc: Global,
    archive: &mut A,
    request: &Request,
    times: &[Ticks],
) -> HistoryUpdateResult
    requires request { IsRequest request.now }
    requires few { length times.now ≤ 1000 }
    ensures begins { Begins (A.state archive.old) (A.state archive.new) request.now (λ codes. GOOD)
        (deletes_at times.now) result }
    ensures short { IsShortUpdate result }
{
    let Ok(mut codes) = Vec::with_capacity(alloc, times.len()) else {
        return refused(alloc, Status::BAD_OUT_OF_MEMORY);
    };
    delete_each(alloc, archive, request, times, &mut codes);
    HistoryUpdateResult {
        status: Status::GOOD,
        operation_results: Listing::of(codes),
    }
}

/// Deletes what is live at each of 1 to 1,000 source times, without picoseconds, in order (Part 11,
/// DeleteAtTimeDetails). The status is BAD_NOTHING_TO_DO for no time, BAD_TOO_MANY_OPERATIONS for more than
/// 1,000, BAD_OUT_OF_MEMORY where there is no memory for the codes; then nothing was changed and there are
/// no codes. Otherwise it is GOOD, and each time has a code of its own: BAD_INVALID_TIMESTAMP below 1,
/// BAD_NO_ENTRY_EXISTS where none is live, those of a tick, memory and the store as for a value, or GOOD.
///
/// For some marks, one for the memory of the codes and one for each operation, the answer and what is
/// held then are those of `delete_at` of the specification; a broken store is as for values.
pub fn delete_at<A: Archive>(
    alloc: Global,
    archive: &mut A,
    request: &Request,
    times: &[Ticks],
) -> HistoryUpdateResult
    requires { IsRequest request.now }
    ensures acts { (used : List StepResult)
        × Refines (A.state archive.old) (A.state archive.new) used
        (delete_at (A.state archive.old).own request.now times.now) result
        × AreEnded (A.state archive.old).broken
        (needs_of (A.state archive.old).own request.now (deletes_at times.now)) used }
    ensures refused { IfSome (list_refusal 1000 (length times.now))
        (λ code. (result ≡ refused_update code) × (archive.new ≡ archive.old)) }
    ensures short { IsShortUpdate result }
{
    if let Some(status) = count_refusal(times.len()) {
        return refused(alloc, status);
    }
    delete_all(alloc, archive, request, times)
}

/// The first code that isn't Good, or Good.
fn first_other(codes: &[Status]) -> Status
    ensures { result ≡ first_other codes.now }
{
    for code in codes {
        if code.0 != 0 {
            return *code;
        }
    }
    Status::GOOD
}

fn delete_each_live<A: Archive>(
    alloc: Global,
    archive: &mut A,
    request: &Request,
    lives: &[Held],
    codes: &mut Vec<Status>,
)
    requires request { IsRequest request.now }
    requires codes { codes.old.items ≡ [] }
    requires room { length lives.now ≤ vec_capacity codes.old }
    ensures { Operations (A.state archive.old) (A.state archive.new) request.now
        (map (λ h. DeleteAt h.time) lives.now) codes.new.items }
{
    for held in lives {
        let done = delete(alloc, archive, request, held.time);
        codes.push(code_of(done)).unwrap();
    }
}

/// Deletes live values, of which there are at most 1,000.
fn delete_lives<A: Archive>(
    alloc: Global,
    archive: &mut A,
    request: &Request,
    lives: &[Held],
) -> HistoryUpdateResult
    requires request { IsRequest request.now }
    requires few { length lives.now ≤ 1000 }
    ensures begins { Begins (A.state archive.old) (A.state archive.new) request.now first_other
        (map (λ h. DeleteAt h.time) lives.now) result }
    ensures short { IsShortUpdate result }
{
    let Ok(mut codes) = Vec::with_capacity(alloc, lives.len()) else {
        return refused(alloc, Status::BAD_OUT_OF_MEMORY);
    };
    delete_each_live(alloc, archive, request, lives, &mut codes);
    HistoryUpdateResult {
        status: first_other(&codes),
        operation_results: Listing::of(codes),
    }
}

/// Why a listing is refused.
fn listing_refusal(lives: &[Held]) -> Option<Status>
    ensures tested { result ≡ listing_refusal (map (λ h. h.time) lives.now) }
    ensures few { result ≡ None → length lives.now ≤ 1000 }
{
    if lives.is_empty() {
        return Some(Status::BAD_NO_DATA);
    }
    if lives.len() > MOST {
        return Some(Status::BAD_TOO_MANY_OPERATIONS);
    }
    None
}

/// Deletes the live values of a listing.
fn delete_listed<A: Archive>(
    alloc: Global,
    archive: &mut A,
    request: &Request,
    lives: &[Held],
) -> HistoryUpdateResult
    requires { IsRequest request.now }
    ensures begins { BeginsListed (A.state archive.old) (A.state archive.new) request.now
        (map (λ h. h.time) lives.now) result }
    ensures short { IsShortUpdate result }
{
    if let Some(status) = listing_refusal(lives) {
        return refused(alloc, status);
    }
    delete_lives(alloc, archive, request, lives)
}

/// Why a delete of a stretch of time is refused before the archive is asked.
fn stretch_refusal(modified: bool, start: Ticks, end: Ticks) -> Option<Status>
    ensures refused { result ≡ stretch_refusal modified start.0 end.0 }
    ensures ordered { result ≡ None → (pos 1 ≤ℤ start.0) × (start.0 ≤ℤ end.0) }
{
    if modified {
        return Some(Status::BAD_HISTORY_OPERATION_UNSUPPORTED);
    }
    if start.0 < 1 || end.0 < start.0 {
        return Some(Status::BAD_INVALID_TIMESTAMP_ARGUMENT);
    }
    None
}

/// The last moment of a stretch of time.
fn last_of(start: Ticks, end: Ticks) -> Moment
    requires start { pos 1 ≤ℤ start.0 }
    requires end { start.0 ≤ℤ end.0 }
    ensures { result ≡ last_moment_of_range start.0 end.0 }
{
    let ticks = if start.0 == end.0 { end.0 } else { end.0 - 1 };
    Moment { ticks, pico: 9999 }
}

/// A node's first live values from one moment to another, both included, of all that the archive holds:
/// one more than are deleted at once.
fn list_lives<A: Archive>(
    alloc: Global,
    archive: &mut A,
    node: &NodeId,
    from: Moment,
    to: Moment,
) -> Result<Vec<Held>, StoreFault>
    ensures { Asks (A.state archive.old) (A.state archive.new) result
        (λ v. v.items
        ≡ take 1001 (range_of (A.state archive.old).content node.now from to direction.Forward)) }
{
    let all = archive.vector()?;
    archive.range(alloc, node, from, to, Direction::Forward, MOST + 1, &all)
}

/// Deletes a node's live values from `start` up to but without `end`, or at all moments of the one time
/// where both are equal, ascending, each by an operation of its own (Part 11, DeleteRawModifiedDetails). The
/// status is BAD_HISTORY_OPERATION_UNSUPPORTED where modifications are asked for,
/// BAD_INVALID_TIMESTAMP_ARGUMENT for a time below 1 or a start behind the end, the code of what came in
/// the listing's way, BAD_NO_DATA where none is live, BAD_TOO_MANY_OPERATIONS for more than 1,000, and
/// BAD_OUT_OF_MEMORY where there is no memory for the codes: then nothing was changed and there are no
/// codes. Otherwise it is the first code that isn't Good, or Good.
///
/// For some marks, one for the listing, one for the memory of the codes and one for each operation, the
/// answer and what is held then are those of `delete_raw` of the specification. A broken store is as for
/// values; it lists nothing.
pub fn delete_raw<A: Archive>(
    alloc: Global,
    archive: &mut A,
    request: &Request,
    modified: bool,
    start: Ticks,
    end: Ticks,
) -> HistoryUpdateResult
    requires { IsRequest request.now }
    ensures acts { (used : List StepResult)
        × Refines (A.state archive.old) (A.state archive.new) used
        (delete_raw (A.state archive.old).own request.now modified start end) result
        × ((A.state archive.new).honest → (R : Content) → IsLeft (A.state archive.old) R
        → AreEnded (A.state archive.old).broken
        (needs_of_stretch (A.state archive.old).own request.now start end R) used) }
    ensures refused { IfSome (stretch_refusal modified start.0 end.0)
        (λ code. (result ≡ refused_update code) × (archive.new ≡ archive.old)) }
    ensures short { IsShortUpdate result }
{
    if let Some(status) = stretch_refusal(modified, start, end) {
        return refused(alloc, status);
    }
    let last = last_of(start, end);
    match list_lives(alloc, archive, &request.node, moment_of(start), last) {
        Ok(lives) => delete_listed(alloc, archive, request, &lives),
        Err(fault) => refused(alloc, StepError::Store(fault).status()),
    }
}
