//! What a HistoryRead asks and answers (Part 4, 5.11.3; Part 11, 6.4 and 6.5).

ghost use Rattle.ua_binary.specs.declared.values.Body.TheVariants.{Absent};
ghost use Rattle.ua_services.specs.declared.history.HistoryReadDetails.TheVariants.{Other};
ghost use Rattle.std.specs.Prelude.{◌≡◌, ◌<◌, ◌^◌, ◌++◌, ◌∷◌, [], pos, length, map, IfOk};
ghost use Rattle.std.specs.Option.{option_copied};
ghost use Rattle.std.specs.Int.{w32};
ghost use Rattle.ua_binary.specs.Format.{Puts, PutsPart, Reads, ReadsUnless, saturated, standing_for};
ghost use Rattle.ua_binary.specs.Binary.{array, node_id, signed, body};
ghost use Rattle.ua_variant.specs.Raise.{variant_fault};
ghost use Rattle.ua_services.specs.Attributes.{data_values, AreShortValues};
ghost use Rattle.ua_services.specs.History.{read_raw_modified_form, history_read_details, continuation_point, HistoryReadFields, history_read_fields, history_read_value_id, history_asked, history_read_request, InfoFields, info_fields, IsShortInfo, modification_info, history_of, history_bytes, IsHistory, history_data, IsShortHistory, history_fields, IsHistoryRead, history_read_result, IsShortHistoryRead, AreShortHistoryReads, AreHistoryReads, history_read_response};
ghost use Rattle.ua_binary.specs.declared.values.NodeId.TheVariants.{Numeric};

use crate::attributes::{TimestampsToReturn, data_values_size, put_data_values, read_timestamps};
use crate::first::{OF_A_HUNDRED, read_first};
use crate::many::{many_size, put_many, put_null_array};
use crate::structure::{is_type, read_binary_body};
use std::alloc::{AllocError, Global};
use ua_binary::{
    BinaryFault, Bytes, Cursor, Decode, Encode, Listing, NodeId, NodeIdRef, QualifiedRef, Status,
    Text, Ticks, TryClone, or_undone, put_count, put_i32, put_node_id, put_owned_bytes,
    put_owned_text, put_status, put_ticks, put_u8,
};
use ua_variant::{DataValue, HistoryUpdateType};

/// A range of time whose values, or their modifications, are read (Part 11, 6.4.3). A moment below 1,
/// and a count of 0, aren't given; whether enough is given isn't looked at.
#[derive(Clone, Copy, Debug, PartialEq, Eq)]
pub struct ReadRawModifiedDetails {
    pub is_read_modified: bool,
    pub start_time: Ticks,
    pub end_time: Ticks,
    /// The most values of a node.
    pub num_values_per_node: u32,
    pub return_bounds: bool,
}

/// What the details of a HistoryRead ask (Part 11, 6.4).
#[derive(Clone, Copy, Debug, PartialEq, Eq)]
pub enum HistoryReadDetails {
    ReadRawModified(ReadRawModifiedDetails),
    /// Details of another type; their body wasn't looked into.
    Other,
}

/// What is read of history (Part 4, 5.11.3), in the bytes that it was read from.
#[derive(Clone, Copy, Debug, Drop)]
pub struct HistoryReadValueId<'a> {
    pub node_id: NodeIdRef<'a>,
    /// The items of an array that are wanted; null or empty stands for the whole.
    pub index_range: Option<&'a str>,
    /// The name of the encoding that is wanted of a structure.
    pub data_encoding: QualifiedRef<'a>,
    /// Where an earlier read is to go on; an empty one counts as none.
    pub continuation_point: Option<&'a [u8]>,
}

/// What a HistoryRead asks (Part 4, 5.11.3).
#[derive(Debug, Drop)]
pub struct HistoryReadRequest<'a> {
    pub details: HistoryReadDetails,
    /// None where the number says none of the four.
    pub timestamps: Option<TimestampsToReturn>,
    /// Whether the continuation points are only given back.
    pub release_continuation_points: bool,
    /// The first 101 at most.
    pub nodes: Vec<HistoryReadValueId<'a>>,
}

/// When, how and by whom a value was modified (Part 11, 6.5.3).
#[derive(Debug, Drop, PartialEq, Eq)]
pub struct ModificationInfo {
    pub modification_time: Ticks,
    pub update_type: HistoryUpdateType,
    pub user_name: Option<Text>,
}

/// What was read of one node's history (Part 11, 6.5).
#[derive(Debug, Drop, PartialEq, Eq)]
pub enum HistoryData {
    /// No values; written as a null extension object.
    Nothing,
    Raw(Listing<DataValue>),
    /// Values, and how each was modified.
    Modified(Listing<DataValue>, Listing<ModificationInfo>),
}

/// What the read of one node is answered (Part 4, 5.11.3).
#[derive(Debug, Drop, PartialEq, Eq)]
pub struct HistoryReadResult {
    pub status: Status,
    pub continuation_point: Option<Bytes>,
    pub history_data: HistoryData,
}

/// The body of ReadRawModifiedDetails.
#[tactic(auto, unfolding(crate::specs::History::read_raw_modified_details))]
fn read_raw_modified(cursor: &mut Cursor<'_>) -> Result<HistoryReadDetails, BinaryFault>
    ensures { Reads (λ x. x) result cursor.old cursor.new read_raw_modified_form.read }
{
    let mut next = cursor.fork();
    let mut body = read_binary_body(&mut next)?;
    let is_read_modified = body.boolean()?;
    let start_time = body.ticks()?;
    let end_time = body.ticks()?;
    let num_values_per_node = body.u32()?;
    let return_bounds = body.boolean()?;
    if !body.rest().is_empty() {
        return Err(BinaryFault::BadEncodingByte);
    }
    *cursor = next;
    Ok(HistoryReadDetails::ReadRawModified(ReadRawModifiedDetails {
        is_read_modified,
        start_time,
        end_time,
        num_values_per_node,
        return_bounds,
    }))
}

/// The body of details of another type.
fn skip_other(cursor: &mut Cursor<'_>) -> Result<HistoryReadDetails, BinaryFault>
    ensures { Reads (λ x. x) result cursor.old cursor.new
        (standing_for (λ _. Other) (λ _. Absent) body).read }
{
    cursor.body()?;
    Ok(HistoryReadDetails::Other)
}

/// Details in an extension object.
#[tactic(auto, unfolding(crate::specs::History::history_read_details))]
fn read_details(cursor: &mut Cursor<'_>) -> Result<HistoryReadDetails, BinaryFault>
    ensures { Reads (λ x. x) result cursor.old cursor.new history_read_details.read }
{
    let mut next = cursor.fork();
    let type_id = next.node_id()?;
    let details = if is_type(649, &type_id) {
        read_raw_modified(&mut next)?
    } else {
        skip_other(&mut next)?
    };
    *cursor = next;
    Ok(details)
}

/// A continuation point; an empty one counts as none.
#[tactic(auto, unfolding(crate::specs::History::continuation_point))]
fn read_continuation_point<'a>(cursor: &mut Cursor<'a>) -> Result<Option<&'a [u8]>, BinaryFault>
    ensures { Reads (λ x. option_copied x) result cursor.old cursor.new continuation_point.read }
{
    match cursor.bytes()? {
        Some([]) => Ok(None),
        point => Ok(point),
    }
}

impl<'a> Decode<'a> for HistoryReadValueId<'a> {
    type Fault = BinaryFault;

    ghost Value = { HistoryReadFields };

    ghost view = { history_read_fields };

    ghost format = { history_read_value_id };

    #[tactic(auto, unfolding(crate::specs::History::history_read_value_id))]
    fn decode(
        alloc: Global,
        cursor: &mut Cursor<'a>,
    ) -> Result<HistoryReadValueId<'a>, BinaryFault> {
        let mut next = cursor.fork();
        let node_id = next.node_id()?;
        let index_range = next.text()?;
        let data_encoding = next.qualified()?;
        let continuation_point = read_continuation_point(&mut next)?;
        *cursor = next;
        Ok(HistoryReadValueId {
            node_id,
            index_range,
            data_encoding,
            continuation_point,
        })
    }
}

/// Reads a HistoryRead request (Part 4, 5.11.3) behind its header: an extension object, of which
/// ReadRawModifiedDetails are looked into and fill the body, the moments that are wanted, a Boolean and
/// an array of what is read, of which at most 101 items are kept; every item is read and judged. A fault
/// is that of the leftmost field that has no spelling, or `OutOfMemory`, and leaves the cursor where it
/// was.
#[tactic(auto, unfolding(crate::specs::History::history_read_request))]
pub fn read_history_read_request<'a>(
    alloc: Global,
    cursor: &mut Cursor<'a>,
) -> Result<HistoryReadRequest<'a>, BinaryFault>
    ensures { ReadsUnless BinaryFault.OutOfMemory history_asked result cursor.old cursor.new
        history_read_request.read }
{
    let mut next = cursor.fork();
    let details = read_details(&mut next)?;
    let timestamps = read_timestamps(&mut next)?;
    let release_continuation_points = next.boolean()?;
    let nodes = read_first(alloc, &mut next, OF_A_HUNDRED)?;
    *cursor = next;
    Ok(HistoryReadRequest {
        details,
        timestamps,
        release_continuation_points,
        nodes,
    })
}

impl TryClone for ModificationInfo {
    fn try_clone(&self) -> Result<ModificationInfo, AllocError> {
        let user_name = self.user_name.try_clone()?;
        Ok(ModificationInfo {
            modification_time: self.modification_time,
            update_type: self.update_type,
            user_name,
        })
    }
}

impl TryClone for HistoryData {
    fn try_clone(&self) -> Result<HistoryData, AllocError> {
        Ok(match self {
            HistoryData::Nothing => HistoryData::Nothing,
            HistoryData::Raw(values) => HistoryData::Raw(values.try_clone()?),
            HistoryData::Modified(values, infos) => {
                let infos = infos.try_clone()?;
                HistoryData::Modified(values.try_clone()?, infos)
            }
        })
    }
}

impl TryClone for HistoryReadResult {
    fn try_clone(&self) -> Result<HistoryReadResult, AllocError> {
        let continuation_point = self.continuation_point.try_clone()?;
        let history_data = self.history_data.try_clone()?;
        Ok(HistoryReadResult {
            status: self.status,
            continuation_point,
            history_data,
        })
    }
}

impl Encode for ModificationInfo {
    type Fault = BinaryFault;

    ghost Value = { InfoFields };

    ghost view = { info_fields };

    ghost format = { modification_info };

    ghost can_put = { IsShortInfo };

    #[tactic(auto, using(ua_binary::proofs::Kept::kept, crate::proofs::Fits::fits), unfolding(crate::specs::History::modification_info))]
    fn put_parts(&self, out: &mut Vec<u8>) -> Result<(), BinaryFault> {
        put_ticks(out, self.modification_time)?;
        put_i32(out, i32::from(self.update_type.number()))?;
        put_owned_text(out, &self.user_name)?;
        Ok(())
    }

    #[tactic(auto, using(crate::proofs::Fits::lengths, ua_binary::proofs::Sizes::short, crate::proofs::Fits::fits), unfolding(crate::specs::History::modification_info))]
    fn size(&self) -> usize {
        let when = self.modification_time.size().saturating_add(4);
        when.saturating_add(self.user_name.size())
    }
}

impl HistoryData {
    ghost use Rattle.ua_services.specs.History.{history_of, history_bytes};

    /// How many bytes its body has in an extension object, or 2^64 - 1 where there are more. It takes no
    /// memory.
    #[tactic(auto, using(crate::proofs::Fits::lengths))]
    pub fn body_size(&self) -> usize
        ensures { result ≡ saturated (length (history_bytes (history_of self.now))) }
    {
        match self {
            HistoryData::Nothing => 0,
            HistoryData::Raw(values) => data_values_size(values.as_slice()),
            HistoryData::Modified(values, infos) => {
                data_values_size(values.as_slice()).saturating_add(many_size(infos.as_slice()))
            }
        }
    }

    /// The same of a body that can be counted.
    fn body_len(&self) -> usize
        requires { length (history_bytes (history_of self.now)) < 2 ^ 31 }
        ensures { result ≡ length (history_bytes (history_of self.now)) }
    {
        self.body_size()
    }
}

#[tactic(auto, using(ua_binary::proofs::Kept::kept))]
fn put_body_front_parts(out: &mut Vec<u8>, type_id: u32, len: usize) -> Result<(), BinaryFault>
    requires { len < 2 ^ 31 }
    ensures { PutsPart BinaryFault.OutOfMemory result out.old.items out.new.items
        (node_id.canon (Numeric 0 type_id) ++ 1 ∷ (signed w32).canon (pos len)) }
{
    put_node_id(out, &NodeId::Numeric(0, type_id))?;
    put_u8(out, 1)?;
    put_count(out, len)?;
    Ok(())
}

/// What stands before a binary body of so many bytes: the id of its type, its kind, and its length.
fn put_body_front(out: &mut Vec<u8>, type_id: u32, len: usize) -> Result<(), BinaryFault>
    requires { len < 2 ^ 31 }
    ensures { Puts BinaryFault.OutOfMemory result out.old.items out.new.items
        (node_id.canon (Numeric 0 type_id) ++ 1 ∷ (signed w32).canon (pos len)) }
{
    let start = out.len();
    let put = put_body_front_parts(out, type_id, len);
    or_undone(put, out, start)
}

#[tactic(auto, using(ua_binary::proofs::Kept::kept, crate::proofs::Canons::canons))]
fn put_history_data_parts(out: &mut Vec<u8>, v: &HistoryData) -> Result<(), BinaryFault>
    requires { IsShortHistory v.now }
    ensures puts { PutsPart BinaryFault.OutOfMemory result out.old.items out.new.items
        (history_data.canon (history_of v.now)) }
    ensures spelled { IfOk result (λ _. IsHistory (history_of v.now)) }
{
    match v {
        HistoryData::Nothing => {
            put_node_id(out, &NodeId::Numeric(0, 0))?;
            put_u8(out, 0)?;
        }
        HistoryData::Raw(values) => {
            put_body_front(out, 658, v.body_len())?;
            put_data_values(out, values.as_slice())?;
        }
        HistoryData::Modified(values, infos) => {
            put_body_front(out, 11227, v.body_len())?;
            put_data_values(out, values.as_slice())?;
            put_many(out, infos.as_slice())?;
        }
    }
    Ok(())
}

/// What was read, in an extension object.
fn put_history_data(out: &mut Vec<u8>, v: &HistoryData) -> Result<(), BinaryFault>
    requires { IsShortHistory v.now }
    ensures puts { Puts BinaryFault.OutOfMemory result out.old.items out.new.items
        (history_data.canon (history_of v.now)) }
    ensures spelled { IfOk result (λ _. IsHistory (history_of v.now)) }
{
    let len = out.len();
    let put = put_history_data_parts(out, v);
    or_undone(put, out, len)
}

#[tactic(auto, using(ua_binary::proofs::Kept::kept), unfolding(crate::specs::History::history_read_result))]
fn put_history_read_result_parts(
    out: &mut Vec<u8>,
    v: &HistoryReadResult,
) -> Result<(), BinaryFault>
    requires { IsShortHistoryRead v.now }
    ensures puts { PutsPart BinaryFault.OutOfMemory result out.old.items out.new.items
        (history_read_result.canon (history_fields v.now)) }
    ensures spelled { IfOk result (λ _. IsHistoryRead (history_fields v.now)) }
{
    put_status(out, v.status)?;
    put_owned_bytes(out, &v.continuation_point)?;
    put_history_data(out, &v.history_data)?;
    Ok(())
}

/// Writes what the read of one node is answered (Part 4, 5.11.3): its status, its continuation point, and
/// what was read in an extension object. The one error is `OutOfMemory`, which leaves the vector as it was.
pub fn put_history_read_result(out: &mut Vec<u8>, v: &HistoryReadResult) -> Result<(), BinaryFault>
    requires { IsShortHistoryRead v.now }
    ensures puts { Puts BinaryFault.OutOfMemory result out.old.items out.new.items
        (history_read_result.canon (history_fields v.now)) }
    ensures spelled { IfOk result (λ _. IsHistoryRead (history_fields v.now)) }
{
    let len = out.len();
    let put = put_history_read_result_parts(out, v);
    or_undone(put, out, len)
}

#[tactic(auto, using(ua_binary::proofs::Kept::kept), unfolding(ua_binary::specs::Binary::array))]
fn put_history_results_parts(
    out: &mut Vec<u8>,
    results: &[HistoryReadResult],
) -> Result<(), BinaryFault>
    requires { AreShortHistoryReads results.now }
    ensures puts { PutsPart BinaryFault.OutOfMemory result out.old.items out.new.items
        ((array variant_fault history_read_result).canon (map history_fields results.now)) }
    ensures spelled { IfOk result (λ _. AreHistoryReads results.now) }
{
    put_count(out, results.len())?;
    for v in results {
        put_history_read_result(out, v)?;
    }
    Ok(())
}

/// An array of results.
fn put_history_results(out: &mut Vec<u8>, results: &[HistoryReadResult]) -> Result<(), BinaryFault>
    requires { AreShortHistoryReads results.now }
    ensures puts { Puts BinaryFault.OutOfMemory result out.old.items out.new.items
        ((array variant_fault history_read_result).canon (map history_fields results.now)) }
    ensures spelled { IfOk result (λ _. AreHistoryReads results.now) }
{
    let len = out.len();
    let put = put_history_results_parts(out, results);
    or_undone(put, out, len)
}

#[tactic(auto, using(ua_binary::proofs::Kept::kept), unfolding(crate::specs::History::history_read_response))]
fn put_history_read_parts(
    out: &mut Vec<u8>,
    results: &[HistoryReadResult],
) -> Result<(), BinaryFault>
    requires { AreShortHistoryReads results.now }
    ensures puts { PutsPart BinaryFault.OutOfMemory result out.old.items out.new.items
        (history_read_response.canon (map history_fields results.now)) }
    ensures spelled { IfOk result (λ _. AreHistoryReads results.now) }
{
    put_history_results(out, results)?;
    put_null_array(out)?;
    Ok(())
}

/// Writes a HistoryRead response (Part 4, 5.11.3) behind its header: the array of the results, whose
/// bodies can be counted and whose picoseconds are at most 9,999, and a null one of diagnostics. Its
/// one error is `OutOfMemory`, and then the vector is as it was. What was written has a spelling.
pub fn put_history_read_response(
    out: &mut Vec<u8>,
    results: &[HistoryReadResult],
) -> Result<(), BinaryFault>
    requires { AreShortHistoryReads results.now }
    ensures puts { Puts BinaryFault.OutOfMemory result out.old.items out.new.items
        (history_read_response.canon (map history_fields results.now)) }
    ensures spelled { IfOk result (λ _. AreHistoryReads results.now) }
{
    let len = out.len();
    let put = put_history_read_parts(out, results);
    or_undone(put, out, len)
}
