//! Reads of a node's history.

ghost use Rattle.std.specs.Prelude.{◌≡◌, ◌==◌, ◌↔◌, ◌<◌, ◌≤◌, ◌+◌, ◌^◌, nat_le, length, map, min, All, IsTrue, ◌||◌, ◌≤ℤ◌, List, IfOk, IfErr, IfSome, Option, option_map, Some, Ok, Err, true, false};
ghost use Rattle.std.specs.Option.{option_copied};
ghost use Rattle.stamp.specs.Numbers.{number_of, IsVector};
ghost use Rattle.ua_binary.specs.Binary.{node_of, IsNodeId, IsShortNode, IsCounted};
ghost use Rattle.ua_binary.specs.declared.codes.TheConstants.Status.{BAD_RESOURCE_UNAVAILABLE};
ghost use Rattle.std.specs.Cmp.Lexicographic.{pointwise};
ghost use Rattle.ua_variant.specs.DataValue.{IsShortData};
ghost use Rattle.ua_services.specs.Attributes.{AreShortValues};
ghost use Rattle.ua_services.specs.Unkept.{many};
ghost use Rattle.hist_read.specs.Short.{IsWritable, AreWritable, IsWritableHistory};
ghost use Rattle.ua_services.specs.History.{history_data, history_of, history_bytes, info_fields, modification_info, IsShortInfo, IsShortHistory, IsShortHistoryRead};
ghost use Rattle.records.specs.Contents.{numbers_of, cut};
ghost use Rattle.archive.specs.Store.{StepResult, Asks, IsAskedWithin};
ghost use Rattle.archive.specs.Steps.{Refines};
ghost use Rattle.hist_read.specs.Asking.{is_given, first_time};
ghost use Rattle.hist_read.specs.Point.{point_in, point_of, point, IsPoint, IsNext};
ghost use Rattle.hist_read.specs.Reads.{page_size, most_items};
ghost use Rattle.hist_read.specs.Node.{is_enough, IsOfRead, resume_place, checked_read, refused_read, status_for, point_at, page_result, page_from, read_node};
ghost use Rattle.ua_services.specs.declared.history.HistoryReadResult.{HistoryReadResult as Told};
ghost use Rattle.hist_read.specs.Pages.{portion};
ghost use Rattle.hist_read.specs.Carrying.{read_length, IsReadTooLong, TellsWithin};
ghost use Rattle.hist_read.specs.Finding.{Finds};

use crate::fault::PageFault;
use crate::modified::read_modified;
use crate::point::{PagePoint, Position, first_number, put_continuation, read_continuation};
use crate::query::Query;
use crate::raw::read_raw;
use crate::scope::Scope;
use crate::showing::{show_entries, show_items};
use archive::{Archive, StoreFault};
use stamp::Vector;
use std::alloc::{AllocError, Global};
use ua_binary::{Bytes, Encode, Listing, NodeId, NodeIdRef, Status, array_size};
use ua_services::{HistoryData, HistoryReadResult, ModificationInfo, ReadRawModifiedDetails};
use ua_variant::DataValue;
use uuid::Uuid;

/// A read that is refused.
fn refused(status: Status) -> HistoryReadResult
    ensures value { result ≡ refused_read status }
    ensures short { IsShortHistoryRead result }
{
    HistoryReadResult {
        status,
        continuation_point: None,
        history_data: HistoryData::Nothing,
    }
}

/// Whether two at least of start, end and count are given.
fn is_enough(details: &ReadRawModifiedDetails) -> bool
    ensures { result ≡ is_enough details.now }
{
    if details.start_time.0 >= 1 {
        details.end_time.0 >= 1 || details.num_values_per_node != 0
    } else {
        details.end_time.0 >= 1 && details.num_values_per_node != 0
    }
}

/// Whether this is the node.
fn is_node(found: NodeIdRef<'_>, node: &NodeId) -> bool
    ensures { IsTrue result ↔ (node_of found.entry ≡ node.now) }
{
    match (found, node) {
        (NodeIdRef::Numeric(namespace, id), NodeId::Numeric(wanted, number)) => {
            namespace == *wanted && id == *number
        }
        (NodeIdRef::Named(namespace, name), NodeId::Named(wanted, text)) => {
            namespace == *wanted && name == text.as_str()
        }
        (NodeIdRef::Global(namespace, id), NodeId::Global(wanted, guid)) => {
            namespace == *wanted && id == *guid
        }
        (NodeIdRef::Opaque(namespace, id), NodeId::Opaque(wanted, bytes)) => {
            namespace == *wanted && id == bytes.as_slice()
        }
        _ => false,
    }
}

/// Whether this is the archive's id.
fn is_archive(found: Uuid, id: Uuid) -> bool
    ensures { IsTrue result ↔ (found ≡ id) }
{
    found == id
}

/// Whether this is what is asked, field by field.
#[tactic(auto, using(crate::proofs::Agreeing::exact_details))]
fn is_asked(found: &ReadRawModifiedDetails, details: &ReadRawModifiedDetails) -> bool
    ensures { IsTrue result ↔ (found.now ≡ details.now) }
{
    found == details
}

/// Whether a point is one of this archive, of this node, and of what is asked.
fn agrees(place: &PagePoint<'_>, id: Uuid, node: &NodeId, details: &ReadRawModifiedDetails) -> bool
    ensures { IsTrue result ↔ IsOfRead id node.now details.now (point_of place.now) }
{
    is_archive(place.archive, id) && is_node(place.node, node) && is_asked(&place.details, details)
}

/// Where reading goes on: behind this place, of what the vector of the first page covers.
type Behind = (Position, Vector);

/// Where a continuation point says that reading goes on, if there is one.
fn place_in(
    id: Uuid,
    node: &NodeId,
    details: &ReadRawModifiedDetails,
    continuation: Option<&[u8]>,
) -> Result<Option<Behind>, Status>
    ensures told { result
        ≡ resume_place id node.now details.now (option_copied continuation.entry) }
    ensures late { IfOk result (λ o. IfSome o (λ p. first_time ≤ℤ p.0.time)) }
    ensures bad { IfErr result (λ code. (code.0 == 0) ≡ false) }
{
    let Some(bytes) = continuation else {
        return Ok(None);
    };
    let Some(place) = read_continuation(bytes) else {
        return Err(Status::BAD_CONTINUATION_POINT_INVALID);
    };
    if !agrees(&place, id, node, details) {
        return Err(Status::BAD_CONTINUATION_POINT_INVALID);
    }
    Ok(Some((place.position, place.vector)))
}

/// Where reading goes on, or why the read is refused.
fn judge(
    id: Uuid,
    node: &NodeId,
    details: &ReadRawModifiedDetails,
    continuation: Option<&[u8]>,
) -> Result<Option<Behind>, Status>
    ensures told { result
        ≡ checked_read id node.now details.now (option_copied continuation.entry) }
    ensures given { IfOk result
        (λ _. IsTrue (is_given details.now.start_time.0 || is_given details.now.end_time.0)) }
    ensures late { IfOk result (λ o. IfSome o (λ p. first_time ≤ℤ p.0.time)) }
    ensures bad { IfErr result (λ code. (code.0 == 0) ≡ false) }
{
    if details.is_read_modified && details.return_bounds {
        return Err(Status::BAD_INVALID_ARGUMENT);
    }
    if !is_enough(details) {
        return Err(Status::BAD_HISTORY_OPERATION_INVALID);
    }
    place_in(id, node, details, continuation)
}

/// Good, or Good_NoData where nothing is shown.
fn status_for<T>(items: &[T]) -> Status
    ensures { result ≡ status_for items.now }
{
    if items.is_empty() {
        Status::GOOD_NO_DATA
    } else {
        Status::GOOD
    }
}

/// The bytes of a continuation point. A point of 2^31 bytes or more, which only a node's id of that length
/// makes, is one that there is no memory for.
fn point_of(alloc: Global, place: &PagePoint<'_>) -> Result<Bytes, AllocError>
    requires { IsPoint (point_of place.now) }
    ensures bytes { IfOk result (λ b. b ≡ point.canon (point_of place.now)) }
    ensures counted { IfOk result (λ b. length b < 2 ^ 31) }
{
    let mut out = Vec::new(alloc);
    if put_continuation(&mut out, place).is_err() {
        return Err(AllocError);
    }
    if out.len() >= 0x8000_0000 {
        return Err(AllocError);
    }
    Ok(Bytes::new(out))
}

/// The continuation point of the place where a page ended, if another one follows. Pages of what an
/// archive holds end at places that can be written; another place gets no point.
fn next_point(
    id: Uuid,
    node: &NodeId,
    details: &ReadRawModifiedDetails,
    next: Option<Position>,
    scope: &Scope,
) -> Result<Option<Bytes>, AllocError>
    requires node { IsShortNode node.now }
    ensures point { IfOk result
        (λ b. IfSome next (IsNext details.now)
        → b ≡ option_map (point_at id node.now details.now scope.now.within) next) }
    ensures counted { IfOk result (λ b. IsCounted b) }
{
    let Some(position) = next else {
        return Ok(None);
    };
    let place = PagePoint {
        archive: id,
        node: node.as_ref(),
        details: *details,
        position,
        vector: scope.within,
    };
    if !place.is_well_formed() {
        return Ok(None);
    }
    Ok(Some(point_of(scope.alloc, &place)?))
}

/// Reads a page of raw values of what a vector covers, and shows it.
fn raw_result<A: Archive>(
    archive: &mut A,
    node: &NodeId,
    query: &Query,
    position: &Option<Position>,
    scope: &Scope,
) -> Result<HistoryReadResult, PageFault>
    requires node { IsShortNode node.now }
    requires given { IsTrue
        (is_given query.now.details.start_time.0 || is_given query.now.details.end_time.0) }
    requires place { IfSome position.now (λ p. first_time ≤ℤ p.time) }
    requires raw { query.now.details.is_read_modified ≡ false }
    ensures counted { IfOk result (λ r. IsCounted r.continuation_point) }
    ensures finds { Finds (A.state archive.old) (A.state archive.new) scope.now.longest result
        (λ r. r
        ≡ page_result (cut (A.state archive.old).content (number_of scope.now.within))
        scope.now.within (A.state archive.old).id node.now query.now position.now)
        (IsReadTooLong
        (page_result (cut (A.state archive.old).content (number_of scope.now.within))
        scope.now.within (A.state archive.old).id node.now query.now position.now)) }
    ensures asked { IsAskedWithin (min portion (page_size query.now.details position.now + 1))
        (A.asked archive.old) (A.asked archive.new) }
{
    let id = archive.id();
    let page = read_raw(archive, node, &query.details, position, scope)?;
    let continuation_point = next_point(id, node, &query.details, page.next, scope)?;
    let values = show_items(scope.alloc, query.stamps, page.items)?;
    Ok(HistoryReadResult {
        status: status_for(&values),
        continuation_point,
        history_data: HistoryData::Raw(Listing::of(values)),
    })
}

/// Reads a page of modifications of what a vector covers, and shows it.
fn modified_result<A: Archive>(
    archive: &mut A,
    node: &NodeId,
    query: &Query,
    position: &Option<Position>,
    scope: &Scope,
) -> Result<HistoryReadResult, PageFault>
    requires node { IsShortNode node.now }
    requires given { IsTrue
        (is_given query.now.details.start_time.0 || is_given query.now.details.end_time.0) }
    requires modified { query.now.details.is_read_modified ≡ true }
    ensures counted { IfOk result (λ r. IsCounted r.continuation_point) }
    ensures finds { Finds (A.state archive.old) (A.state archive.new) scope.now.longest result
        (λ r. r
        ≡ page_result (cut (A.state archive.old).content (number_of scope.now.within))
        scope.now.within (A.state archive.old).id node.now query.now position.now)
        (IsReadTooLong
        (page_result (cut (A.state archive.old).content (number_of scope.now.within))
        scope.now.within (A.state archive.old).id node.now query.now position.now)) }
    ensures asked { IsAskedWithin (page_size query.now.details position.now + 1)
        (A.asked archive.old) (A.asked archive.new) }
{
    let id = archive.id();
    let page = read_modified(archive, node, &query.details, position, scope)?;
    let continuation_point = next_point(id, node, &query.details, page.next, scope)?;
    let (values, infos) = show_entries(scope.alloc, query.stamps, page.entries)?;
    Ok(HistoryReadResult {
        status: status_for(&values),
        continuation_point,
        history_data: HistoryData::Modified(Listing::of(values), Listing::of(infos)),
    })
}

/// Reads a page of what a vector covers, and shows it.
fn page_result<A: Archive>(
    archive: &mut A,
    node: &NodeId,
    query: &Query,
    position: &Option<Position>,
    scope: &Scope,
) -> Result<HistoryReadResult, PageFault>
    requires node { IsShortNode node.now }
    requires given { IsTrue
        (is_given query.now.details.start_time.0 || is_given query.now.details.end_time.0) }
    requires place { IfSome position.now (λ p. first_time ≤ℤ p.time) }
    ensures counted { IfOk result (λ r. IsCounted r.continuation_point) }
    ensures finds { Finds (A.state archive.old) (A.state archive.new) scope.now.longest result
        (λ r. r
        ≡ page_result (cut (A.state archive.old).content (number_of scope.now.within))
        scope.now.within (A.state archive.old).id node.now query.now position.now)
        (IsReadTooLong
        (page_result (cut (A.state archive.old).content (number_of scope.now.within))
        scope.now.within (A.state archive.old).id node.now query.now position.now)) }
    ensures asked { IsAskedWithin (page_size query.now.details position.now + 1)
        (A.asked archive.old) (A.asked archive.new) }
{
    if query.details.is_read_modified {
        modified_result(archive, node, query, position, scope)
    } else {
        raw_result(archive, node, query, position, scope)
    }
}

/// The archive's own vector.
fn own_vector<A: Archive>(archive: &mut A) -> Result<Vector, StoreFault>
    ensures asks { Asks (A.state archive.old) (A.state archive.new) result
        (λ v. v ≡ numbers_of (A.state archive.old).content) }
    ensures vector { IfOk result IsVector }
    ensures asked { IsAskedWithin 0 (A.asked archive.old) (A.asked archive.new) }
{
    let own = archive.vector()?;
    let _first = first_number(&own);
    Ok(own)
}

/// Whether each number of a vector is among an archive's.
fn is_covered(vector: &Vector, own: &Vector) -> bool
    ensures { result ≡ pointwise nat_le vector.now own.now }
{
    let _firsts = (first_number(vector), first_number(own));
    own.at_least(vector)
}

/// Reads a page: a first one of all that is held, a later one of what the vector of the first page covers.
fn page_from<A: Archive>(
    alloc: Global,
    archive: &mut A,
    node: &NodeId,
    query: &Query,
    behind: &Option<Behind>,
    longest: Option<usize>,
) -> Result<HistoryReadResult, PageFault>
    requires node { IsShortNode node.now }
    requires given { IsTrue
        (is_given query.now.details.start_time.0 || is_given query.now.details.end_time.0) }
    requires place { IfSome behind.now (λ p. first_time ≤ℤ p.0.time) }
    ensures counted { IfOk result (λ r. IsCounted r.continuation_point) }
    ensures finds { Finds (A.state archive.old) (A.state archive.new) longest result
        (λ r. r
        ≡ page_from (A.state archive.old).content
        (A.state archive.old).id node.now query.now behind.now)
        (IsReadTooLong
        (page_from (A.state archive.old).content
        (A.state archive.old).id node.now query.now behind.now)) }
    ensures asked { IsAskedWithin
        (page_size query.now.details (option_map (λ b. b.0) behind.now) + 1)
        (A.asked archive.old) (A.asked archive.new) }
{
    let own = own_vector(archive)?;
    let mut scope = Scope {
        alloc,
        within: own,
        longest,
    };
    match behind {
        None => page_result(archive, node, query, &None, &scope),
        Some((position, vector)) => {
            if !is_covered(vector, &own) {
                return Ok(refused(Status::BAD_CONTINUATION_POINT_INVALID));
            }
            scope.within = *vector;
            page_result(archive, node, query, &Some(*position), &scope)
        }
    }
}

/// Whether a value can be written: its picoseconds are at most 9,999, and its bytes can be counted. It takes
/// no memory.
pub fn is_short_value(value: &DataValue) -> bool
    ensures short { IsTrue result → IsShortData value.now }
    ensures fits { IsWritable value.now → IsTrue result }
{
    let source = value.source_pico.unwrap_or(0);
    let server = value.server_pico.unwrap_or(0);
    source <= 9999 && server <= 9999 && value.size() < 0x8000_0000
}

/// Whether values can be counted, and each of them can be written.
fn are_short_values(values: &[DataValue]) -> bool
    ensures short { IsTrue result → AreShortValues values.now }
    ensures fits { AreWritable values.now → IsTrue result }
{
    for value in values {
        if !is_short_value(value) {
            return false;
        }
    }
    values.len() < 0x8000_0000
}

/// The same of what is told of modifications.
fn are_short_infos(infos: &[ModificationInfo]) -> bool
    ensures short { IsTrue result → (length infos.now < 2 ^ 31) × All IsShortInfo infos.now }
    ensures fits { length ((many modification_info).canon (map info_fields infos.now)) < 2 ^ 31
        → IsTrue result }
{
    array_size(infos) < 0x8000_0000
}

/// Whether what was read can be written.
fn is_short_history(read: &HistoryData) -> bool
    ensures short { IsTrue result → IsShortHistory read.now }
    ensures fits { IsWritableHistory read.now → IsTrue result }
{
    match read {
        HistoryData::Nothing => true,
        HistoryData::Raw(values) => {
            are_short_values(values.as_slice()) && read.body_size() < 0x8000_0000
        }
        HistoryData::Modified(values, infos) => {
            are_short_values(values.as_slice())
                && are_short_infos(infos.as_slice())
                && read.body_size() < 0x8000_0000
        }
    }
}

/// Reads a page that can be written. Each page of lawful records is one; what a store that doesn't return what
/// was written to it may give beyond that is refused.
fn short_page<A: Archive>(
    alloc: Global,
    archive: &mut A,
    node: &NodeId,
    query: &Query,
    behind: &Option<Behind>,
    longest: Option<usize>,
) -> Result<HistoryReadResult, PageFault>
    requires node { IsShortNode node.now }
    requires given { IsTrue
        (is_given query.now.details.start_time.0 || is_given query.now.details.end_time.0) }
    requires place { IfSome behind.now (λ p. first_time ≤ℤ p.0.time) }
    ensures finds { Finds (A.state archive.old) (A.state archive.new) longest result
        (λ r. r
        ≡ page_from (A.state archive.old).content
        (A.state archive.old).id node.now query.now behind.now)
        (IsReadTooLong
        (page_from (A.state archive.old).content
        (A.state archive.old).id node.now query.now behind.now)) }
    ensures asked { IsAskedWithin
        (page_size query.now.details (option_map (λ b. b.0) behind.now) + 1)
        (A.asked archive.old) (A.asked archive.new) }
    ensures short { IfOk result IsShortHistoryRead }
{
    let read = page_from(alloc, archive, node, query, behind, longest)?;
    if is_short_history(&read.history_data) {
        Ok(read)
    } else {
        Ok(refused(Status::BAD_RESOURCE_UNAVAILABLE))
    }
}

/// How many bytes what was read has in a response before its body: the id of its type, its kind, and where there is a body the
/// count of its bytes (Part 6, 5.2.2.15).
fn head_size(read: &HistoryData) -> usize
    ensures value { length (history_data.canon (history_of read.now))
        ≡ result + length (history_bytes (history_of read.now)) }
    ensures small { result ≤ 9 }
{
    match read {
        HistoryData::Nothing => 3,
        HistoryData::Raw(_) => 9,
        HistoryData::Modified(_, _) => 9,
    }
}

/// How many bytes a result that can be written has in a response.
fn read_size(read: &HistoryReadResult) -> usize
    requires { IsShortHistoryRead read.now }
    ensures { result ≡ read_length read.now }
{
    let front = read.continuation_point.size().saturating_add(4);
    let head = front.saturating_add(head_size(&read.history_data));
    head.saturating_add(read.history_data.body_size())
}

/// Whether a result shows something, and has more bytes in a response than the limit.
fn is_too_long(read: &HistoryReadResult, limit: usize) -> bool
    requires { IsShortHistoryRead read.now }
    ensures { IsTrue result ↔ IsReadTooLong read.now limit }
{
    limit < read_size(read) && read.status == Status::GOOD
}

/// What is told of a result that was read: nothing where it shows something, and has more bytes in a response than the limit
/// that there is.
fn told_within(longest: Option<usize>, read: HistoryReadResult) -> Option<HistoryReadResult>
    requires { IsShortHistoryRead read }
    ensures told { TellsWithin longest result read }
    ensures short { IfSome result IsShortHistoryRead }
{
    let Some(limit) = longest else {
        return Some(read);
    };
    if is_too_long(&read, limit) {
        None
    } else {
        Some(read)
    }
}

/// Reads a node's history (Part 11, HistoryRead with ReadRawModifiedDetails): a page of live values or
/// of modifications, from the beginning, or behind the place that a continuation point tells. A first page
/// is of all that the archive holds; a later one is of what the vector of the first page covers, so that
/// what is learned or updated in between isn't shown. Where neither time is asked for, none is shown.
///
/// Refused are, in this order: modifications with bounds (`BAD_INVALID_ARGUMENT`); fewer than two of start,
/// end and count (`BAD_HISTORY_OPERATION_INVALID`); a continuation point that isn't well formed, or is one
/// of another archive, node or query (`BAD_CONTINUATION_POINT_INVALID`). Then the store is read, in one step:
/// a point whose vector the archive's own isn't at least is refused with the same code; a fault is told by
/// `BAD_OUT_OF_MEMORY`, as is want of memory here, or by `BAD_RESOURCE_UNAVAILABLE`. A bad status has neither
/// items nor a point, and no call changes the content. Of a broken archive each read that isn't refused
/// before is `BAD_RESOURCE_UNAVAILABLE`. An empty page is `GOOD_NO_DATA`. Each result can be written. A page
/// has at most 1,000 items, or as many as are asked for. Of the archive one row more than these is asked for at most, and where
/// bounds are asked for, the nearest value at each end.
/// The node's id has less than 2^31 bytes.
///
/// Of a page that has more than `longest` bytes in a response (Part 4, 5.11.3), where that is given, `None` is told, and the
/// archive isn't asked again once the values that such a page shows are more bytes than these. It is asked for 32 rows at a time,
/// and for twice as many modifications as before where all that it gave are of one moment, since each question reads the whole
/// of the moment where it begins.
#[tactic(auto, using(crate::proofs::Sizes::page_most))]
pub fn read_node_within<A: Archive>(
    alloc: Global,
    archive: &mut A,
    node: &NodeId,
    query: &Query,
    continuation: Option<&[u8]>,
    longest: Option<usize>,
) -> Option<HistoryReadResult>
    requires { IsShortNode node.now }
    ensures refused { IfErr
        (checked_read (A.state archive.old).id node.now query.now.details
        (option_copied continuation.entry))
        (λ code. (result ≡ Some (refused_read code)) × (archive.new ≡ archive.old)) }
    ensures acts { (used : List StepResult) × (read : Told)
        × Refines (A.state archive.old) (A.state archive.new) used
        (read_node (A.state archive.old).id node.now query.now
        (option_copied continuation.entry)) read
        × TellsWithin longest result read }
    ensures ended { (A.state archive.old).broken ≡ true
        → IfOk
        (checked_read (A.state archive.old).id node.now query.now.details
        (option_copied continuation.entry))
        (λ _. result ≡ Some (refused_read BAD_RESOURCE_UNAVAILABLE)) }
    ensures short { IfSome result IsShortHistoryRead }
    ensures asked { IsAskedWithin (most_items query.now.details + 1) (A.asked archive.old)
        (A.asked archive.new) }
    ensures page { IfOk
        (checked_read (A.state archive.old).id node.now query.now.details
        (option_copied continuation.entry))
        (λ behind.
        IsAskedWithin (page_size query.now.details (option_map (λ b. b.0) behind) + 1)
        (A.asked archive.old) (A.asked archive.new)) }
{
    let id = archive.id();
    let behind = match judge(id, node, &query.details, continuation) {
        Ok(behind) => behind,
        Err(status) => return Some(refused(status)),
    };
    match short_page(alloc, archive, node, query, &behind, longest) {
        Ok(read) => told_within(longest, read),
        Err(PageFault::Step(setback)) => Some(refused(setback.status())),
        Err(PageFault::TooLong) => None,
    }
}

/// Reads a node's history, as `read_node_within` does, however long the result is.
pub fn read_node<A: Archive>(
    alloc: Global,
    archive: &mut A,
    node: &NodeId,
    query: &Query,
    continuation: Option<&[u8]>,
) -> HistoryReadResult
    requires { IsShortNode node.now }
    ensures refused { IfErr
        (checked_read (A.state archive.old).id node.now query.now.details
        (option_copied continuation.entry))
        (λ code. (result ≡ refused_read code) × (archive.new ≡ archive.old)) }
    ensures acts { (used : List StepResult)
        × Refines (A.state archive.old) (A.state archive.new) used
        (read_node (A.state archive.old).id node.now query.now
        (option_copied continuation.entry)) result }
    ensures ended { (A.state archive.old).broken ≡ true
        → IfOk
        (checked_read (A.state archive.old).id node.now query.now.details
        (option_copied continuation.entry)) (λ _. result ≡ refused_read BAD_RESOURCE_UNAVAILABLE) }
    ensures short { IsShortHistoryRead result }
    ensures asked { IsAskedWithin (most_items query.now.details + 1) (A.asked archive.old)
        (A.asked archive.new) }
    ensures page { IfOk
        (checked_read (A.state archive.old).id node.now query.now.details
        (option_copied continuation.entry))
        (λ behind.
        IsAskedWithin (page_size query.now.details (option_map (λ b. b.0) behind) + 1)
        (A.asked archive.old) (A.asked archive.new)) }
{
    match read_node_within(alloc, archive, node, query, continuation, None) {
        Some(result) => result,
        None => unreachable!(),
    }
}
