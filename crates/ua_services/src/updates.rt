//! What a HistoryUpdate asks and answers (Part 4, 5.11.5; Part 11, 6.8).

ghost use Rattle.ua_binary.specs.declared.values.Body.TheVariants.{Absent};
ghost use Rattle.ua_binary.specs.Binary.{body};
ghost use Rattle.std.specs.Prelude.{◌≡◌, List, map, IfOk};
ghost use Rattle.ua_binary.specs.declared.codes.Status.{Status};
ghost use Rattle.ua_binary.specs.Format.{Puts, PutsPart, Reads, ReadsUnless, standing_for};
ghost use Rattle.std.specs.List.{AllByRecursion};
ghost use Rattle.ua_services.specs.Updates.{Details, HasShortValues, details_of, update_data_form, delete_raw_modified_form, delete_at_time_form, history_update_details, history_update_request, update_fields, history_update_result, IsShortUpdate, AreShortUpdates, AreUpdated, history_update_response, Other};

use crate::first::{OF_A_HUNDRED, OF_A_THOUSAND, read_first};
use crate::many::{many_size, put_many, put_null_array};
use crate::structure::{is_type, read_binary_body};
use std::alloc::{AllocError, Global};
use ua_binary::{
    BinaryFault, Cursor, Decode, Encode, Listing, NodeIdRef, Status, Ticks, TryClone, or_undone,
    put_status,
};
use ua_variant::{DataValue, VariantFault};

/// Values to be written to a node (Part 11, 6.8.2).
#[derive(Debug, Drop)]
pub struct UpdateDataDetails<'a> {
    pub node_id: NodeIdRef<'a>,
    /// Which update is asked: 1 Insert, 2 Replace, 3 Update; whether it is one of these isn't looked at.
    pub perform: i32,
    /// The first 1,001 at most.
    pub values: Listing<DataValue>,
}

/// A range of time in which a node's values are to be deleted (Part 11, 6.8.5).
#[derive(Clone, Copy, Debug, Drop)]
pub struct DeleteRawModifiedDetails<'a> {
    pub node_id: NodeIdRef<'a>,
    /// Whether the modified values are meant, in place of the current ones.
    pub is_delete_modified: bool,
    pub start_time: Ticks,
    pub end_time: Ticks,
}

/// Times at which a node's values are to be deleted (Part 11, 6.8.6).
#[derive(Debug, Drop)]
pub struct DeleteAtTimeDetails<'a> {
    pub node_id: NodeIdRef<'a>,
    /// The first 1,001 at most.
    pub times: Listing<Ticks>,
}

/// What one of the details of a HistoryUpdate asks (Part 11, 6.8); node ids are in the bytes that they
/// were read from.
#[derive(Debug, Drop)]
pub enum HistoryUpdateDetails<'a> {
    UpdateData(UpdateDataDetails<'a>),
    DeleteRawModified(DeleteRawModifiedDetails<'a>),
    DeleteAtTime(DeleteAtTimeDetails<'a>),
    /// Details of another type; their body wasn't looked into.
    Other,
}

/// What a HistoryUpdate asks (Part 4, 5.11.5).
#[derive(Debug, Drop)]
pub struct HistoryUpdateRequest<'a> {
    /// The first 101 at most.
    pub details: Vec<HistoryUpdateDetails<'a>>,
}

/// What one of the details of a HistoryUpdate is answered (Part 4, 5.11.5). Its diagnostics are written
/// as a null array.
#[derive(Debug, Drop, PartialEq, Eq)]
pub struct HistoryUpdateResult {
    pub status: Status,
    /// The code of each operation, in order.
    pub operation_results: Listing<Status>,
}

/// The body of UpdateDataDetails. Of its values at most 1,001 are kept; every one is read and judged.
#[tactic(auto, unfolding(crate::specs::Updates::update_data_details))]
fn read_update_data<'a>(
    alloc: Global,
    cursor: &mut Cursor<'a>,
) -> Result<HistoryUpdateDetails<'a>, VariantFault>
    ensures { ReadsUnless VariantFault.OutOfMemory details_of result cursor.old cursor.new
        update_data_form.read }
{
    let mut next = cursor.fork();
    let mut body = read_binary_body(&mut next)?;
    let node_id = body.node_id()?;
    let perform = body.i32()?;
    let values = Listing::of(read_first(alloc, &mut body, OF_A_THOUSAND)?);
    if !body.rest().is_empty() {
        return Err(VariantFault::BadEncodingByte);
    }
    *cursor = next;
    Ok(HistoryUpdateDetails::UpdateData(UpdateDataDetails {
        node_id,
        perform,
        values,
    }))
}

/// The body of DeleteRawModifiedDetails.
#[tactic(auto, unfolding(crate::specs::Updates::delete_raw_modified_details))]
fn read_delete_raw_modified<'a>(
    cursor: &mut Cursor<'a>,
) -> Result<HistoryUpdateDetails<'a>, BinaryFault>
    ensures { Reads details_of result cursor.old cursor.new delete_raw_modified_form.read }
{
    let mut next = cursor.fork();
    let mut body = read_binary_body(&mut next)?;
    let node_id = body.node_id()?;
    let is_delete_modified = body.boolean()?;
    let start_time = body.ticks()?;
    let end_time = body.ticks()?;
    if !body.rest().is_empty() {
        return Err(BinaryFault::BadEncodingByte);
    }
    *cursor = next;
    Ok(HistoryUpdateDetails::DeleteRawModified(DeleteRawModifiedDetails {
        node_id,
        is_delete_modified,
        start_time,
        end_time,
    }))
}

/// The body of DeleteAtTimeDetails. Of its times at most 1,001 are kept; every one is read and judged.
#[tactic(auto, unfolding(crate::specs::Updates::delete_at_time_details))]
fn read_delete_at_time<'a>(
    alloc: Global,
    cursor: &mut Cursor<'a>,
) -> Result<HistoryUpdateDetails<'a>, BinaryFault>
    ensures { ReadsUnless BinaryFault.OutOfMemory details_of result cursor.old cursor.new
        delete_at_time_form.read }
{
    let mut next = cursor.fork();
    let mut body = read_binary_body(&mut next)?;
    let node_id = body.node_id()?;
    let times = Listing::of(read_first(alloc, &mut body, OF_A_THOUSAND)?);
    if !body.rest().is_empty() {
        return Err(BinaryFault::BadEncodingByte);
    }
    *cursor = next;
    Ok(HistoryUpdateDetails::DeleteAtTime(DeleteAtTimeDetails { node_id, times }))
}

/// The body of details of another type.
fn skip_other<'a>(cursor: &mut Cursor<'a>) -> Result<HistoryUpdateDetails<'a>, BinaryFault>
    ensures { Reads details_of result cursor.old cursor.new
        (standing_for (λ _. Other) (λ _. Absent) body).read }
{
    cursor.body()?;
    Ok(HistoryUpdateDetails::Other)
}

impl<'a> Decode<'a> for HistoryUpdateDetails<'a> {
    type Fault = VariantFault;

    ghost Value = { Details };

    ghost view = { details_of };

    ghost format = { history_update_details };

    #[tactic(auto, unfolding(crate::specs::Updates::history_update_details))]
    fn decode(
        alloc: Global,
        cursor: &mut Cursor<'a>,
    ) -> Result<HistoryUpdateDetails<'a>, VariantFault> {
        let mut next = cursor.fork();
        let type_id = next.node_id()?;
        let details = if is_type(682, &type_id) {
            read_update_data(alloc, &mut next)?
        } else if is_type(688, &type_id) {
            read_delete_raw_modified(&mut next)?
        } else if is_type(691, &type_id) {
            read_delete_at_time(alloc, &mut next)?
        } else {
            skip_other(&mut next)?
        };
        *cursor = next;
        Ok(details)
    }
}

/// Reads a HistoryUpdate request (Part 4, 5.11.5) behind its header: an array of extension objects, of
/// which UpdateDataDetails, DeleteRawModifiedDetails and DeleteAtTimeDetails are looked into, and fill
/// their bodies. Of the array at most 101 items are kept, and of the values or times of one of them at
/// most 1,001; every item is read and judged. A fault is that of the leftmost field that has no
/// spelling, or `OutOfMemory`, and leaves the cursor where it was. Values that are kept may be written
/// again.
#[tactic(auto, unfolding(crate::specs::Updates::history_update_request))]
pub fn read_history_update_request<'a>(
    alloc: Global,
    cursor: &mut Cursor<'a>,
) -> Result<HistoryUpdateRequest<'a>, VariantFault>
    ensures reads { ReadsUnless VariantFault.OutOfMemory
        (λ r. map details_of r.details.items) result cursor.old cursor.new
        history_update_request.read }
    ensures short { IfOk result (λ r. AllByRecursion HasShortValues (map details_of r.details.items)) }
{
    let details = read_first(alloc, cursor, OF_A_HUNDRED)?;
    Ok(HistoryUpdateRequest { details })
}

impl TryClone for HistoryUpdateResult {
    fn try_clone(&self) -> Result<HistoryUpdateResult, AllocError> {
        let operation_results = self.operation_results.try_clone()?;
        Ok(HistoryUpdateResult {
            status: self.status,
            operation_results,
        })
    }
}

impl Encode for HistoryUpdateResult {
    type Fault = BinaryFault;

    ghost Value = { Status × List Status };

    ghost view = { update_fields };

    ghost format = { history_update_result };

    ghost can_put = { IsShortUpdate };

    #[tactic(auto, using(ua_binary::proofs::Kept::kept, crate::proofs::Fits::fits, crate::proofs::Fits::all_same), unfolding(crate::specs::Updates::history_update_result))]
    fn put_parts(&self, out: &mut Vec<u8>) -> Result<(), BinaryFault> {
        put_status(out, self.status)?;
        put_many(out, self.operation_results.as_slice())?;
        put_null_array(out)?;
        Ok(())
    }

    #[tactic(auto, using(crate::proofs::Fits::lengths, crate::proofs::Fits::fits, crate::proofs::Fits::all_same), unfolding(crate::specs::Updates::history_update_result))]
    fn size(&self) -> usize {
        let codes = many_size(self.operation_results.as_slice());
        codes.saturating_add(self.status.size()).saturating_add(4)
    }
}

#[tactic(auto, using(ua_binary::proofs::Kept::kept), unfolding(crate::specs::Updates::history_update_response))]
fn put_history_update_parts(
    out: &mut Vec<u8>,
    results: &[HistoryUpdateResult],
) -> Result<(), BinaryFault>
    requires { AreShortUpdates results.now }
    ensures puts { PutsPart BinaryFault.OutOfMemory result out.old.items out.new.items
        (history_update_response.canon (map update_fields results.now)) }
    ensures spelled { IfOk result (λ _. AreUpdated results.now) }
{
    put_many(out, results)?;
    put_null_array(out)?;
    Ok(())
}

/// Writes a HistoryUpdate response (Part 4, 5.11.5) behind its header: the array of the results, and a
/// null one of diagnostics. Its one error is `OutOfMemory`, and then the vector is as it was. What was
/// written has a spelling.
pub fn put_history_update_response(
    out: &mut Vec<u8>,
    results: &[HistoryUpdateResult],
) -> Result<(), BinaryFault>
    requires { AreShortUpdates results.now }
    ensures puts { Puts BinaryFault.OutOfMemory result out.old.items out.new.items
        (history_update_response.canon (map update_fields results.now)) }
    ensures spelled { IfOk result (λ _. AreUpdated results.now) }
{
    let len = out.len();
    let put = put_history_update_parts(out, results);
    or_undone(put, out, len)
}
