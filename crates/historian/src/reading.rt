//! Read (Part 4, 5.11.2).

ghost use Rattle.ua_binary.specs.declared.codes.TheConstants.Status.{BAD_WAITING_FOR_INITIAL_DATA};
ghost use Rattle.hist_read.specs.Showing.{at_time};
ghost use Rattle.std.specs.Prelude.{◌≡◌, ◌⊎◌, ◌∷◌, [], List, map, take, length, Result, IfOk, IfErr, OnOk, Ok, Err};
ghost use Rattle.std.specs.Option.{option_copied};
ghost use Rattle.ua_binary.specs.Binary.{node_of, qualified_of};
ghost use Rattle.ua_binary.specs.Format.{Puts};
ghost use Rattle.ua_binary.specs.declared.codes.Status.{Status};
ghost use Rattle.ua_binary.specs.Rules.{checked};
ghost use Rattle.ua_variant.specs.Variant.{IsShortVariant};
ghost use Rattle.ua_space.specs.Attributes.{IsShortAnswered};
ghost use Rattle.ua_variant.specs.DataValue.{IsDataValue, IsShortData, data_value};
ghost use Rattle.ua_variant.specs.declared.data.DataValue.{DataValue as Data};
ghost use Rattle.ua_services.specs.Attributes.{read_fields, read_asked};
ghost use Rattle.archive.specs.Fault.{status_told};
ghost use Rattle.archive.specs.Reading.{range_of};
ghost use Rattle.archive.specs.Store.{Store, Asks, StepResult};
ghost use Rattle.archive.specs.Steps.{Refines, step, each};
ghost use Rattle.archive.specs.declared.reading.Direction.TheVariants as direction;
ghost use Rattle.hist_read.specs.Asking.{first_time};
ghost use Rattle.hist_read.specs.Reads.{greatest_time};
ghost use Rattle.historian.specs.declared.service.Service.TheVariants as service;
ghost use Rattle.historian.specs.Reading.{is_null_or_empty, is_default, value_rules, valued, latest, item_told, value_step, FindsItem, read_item, read};
ghost use Rattle.historian.specs.Requests.{call_in};
ghost use Rattle.historian.specs.Services.{ServerConfig, site_of, answered_call};
ghost use Rattle.historian.specs.Telling.{Appends, ComesWritten, Responds};
ghost use Rattle.historian.specs.UserSpaces.{seen_by};

use crate::browsing::list_refusal;
use crate::requests::read_request;
use crate::responses::{LONGEST_RESPONSE, RequestContext, put_head};
use crate::server::Server;
use crate::service::ServiceRequest;
use archive::{Archive, Direction, StepError, StoreFault};
use hist_read::{is_short_value, with_stamps};
use records::{Held, Moment};
use std::alloc::Global;
use ua_binary::{BinaryFault, NodeId, NodeIdRef, QualifiedRef, Status, Ticks, put_count, put_i32};
use ua_services::{ReadRequest, ReadValueId, TimestampsToReturn};
use ua_session::{Access, Sessions};
use ua_space::{Answered, Space};
use ua_variant::{DataValue, Variant, put_data_value, put_value_at};

/// The type id of a ReadResponse.
const READ_RESPONSE: u32 = 634;

/// The most items of a Read.
const MOST_READ: usize = 1000;

/// The attribute Value (Part 6, A.1).
const VALUE: u32 = 13;

/// The name of the default encoding (Part 6).
const DEFAULT_ENCODING: &str = "Default Binary";

/// The last moment that a value may have.
const LAST: Moment = Moment {
    ticks: i64::MAX,
    pico: 9999,
};

/// On which terms items are read: what the user may do, which moments are wanted, and the moment of the read.
#[derive(Clone, Copy)]
struct ReadTerms {
    alloc: Global,
    access: Access,
    stamps: TimestampsToReturn,
    now: Ticks,
}

/// Whether a range of an array stands for the whole.
fn is_whole(range: Option<&str>) -> bool
    ensures { result ≡ is_null_or_empty (option_copied range.entry) }
{
    match range {
        None => true,
        Some(range) => range.is_empty(),
    }
}

/// Whether this is the default encoding of values.
fn is_default(encoding: QualifiedRef<'_>) -> bool
    ensures { result ≡ is_default (qualified_of encoding.entry) }
{
    match encoding.name {
        None => true,
        Some(name) => name.is_empty() || name == DEFAULT_ENCODING,
    }
}

/// Why a value isn't given in this way: a range of it, or another encoding.
pub(crate) fn judge_value(range: Option<&str>, encoding: QualifiedRef<'_>) -> Result<(), Status>
    ensures { result
        ≡ checked (value_rules (option_copied range.entry) (qualified_of encoding.entry)) }
{
    if !is_whole(range) {
        return Err(Status::BAD_INDEX_RANGE_INVALID);
    }
    if !is_default(encoding) {
        return Err(Status::BAD_DATA_ENCODING_UNSUPPORTED);
    }
    Ok(())
}

/// A live value, with its source time.
fn at_time(held: Held) -> DataValue
    ensures { Ok result
        ≡ (elim (held ∷ [])
        [ [] ↦ Err BAD_WAITING_FOR_INITIAL_DATA | h ∷ held ↦ Ok (at_time h.time h.value) ]) }
{
    let Held { time, value, .. } = held;
    DataValue {
        source_time: Some(Ticks(time.ticks())),
        ..value
    }
}

/// A refused item: its status alone.
fn status_alone(status: Status) -> DataValue
    ensures told { (stamps : _) (now : _) → result ≡ item_told stamps now (Err status) }
    ensures short { IsShortData result }
{
    DataValue {
        value: None,
        status: Some(status),
        source_time: None,
        source_pico: None,
        server_time: None,
        server_pico: None,
    }
}

/// A value with the moments that are wanted, where that of the server is this one.
fn shown(stamps: TimestampsToReturn, now: Ticks, value: DataValue) -> DataValue
    requires { IsShortData value }
    ensures told { result ≡ item_told stamps now (Ok value) }
    ensures short { IsShortData result }
{
    with_stamps(
        stamps,
        DataValue {
            server_time: Some(now),
            server_pico: None,
            ..value
        },
    )
}

/// The live value of a node that has the greatest source time, if there is one.
fn newest<A: Archive>(
    alloc: Global,
    archive: &mut A,
    node: &NodeId,
) -> Result<Vec<Held>, StoreFault>
    ensures { Asks (A.state archive.old) (A.state archive.new) result
        (λ v. v.items
        ≡ take 1
        (range_of
        (A.state archive.old).content node.now first_time greatest_time direction.Backward)) }
{
    let all = archive.vector()?;
    archive.range(
        alloc,
        node,
        Moment::at(1),
        LAST,
        Direction::Backward,
        1,
        &all,
    )
}

/// The first of these values, if it can be written.
fn latest(mut lives: Vec<Held>) -> Result<DataValue, Status>
    ensures told { (result
        ≡ (elim lives.items
        [ [] ↦ Err BAD_WAITING_FOR_INITIAL_DATA | h ∷ held ↦ Ok (at_time h.time h.value) ]))
        ⊎ (result ≡ Err Status.BAD_OUT_OF_MEMORY) }
    ensures short { IfOk result IsShortData }
{
    if lives.is_empty() {
        return Err(Status::BAD_WAITING_FOR_INITIAL_DATA);
    }
    let value = at_time(lives.swap_remove(0));
    if is_short_value(&value) {
        Ok(value)
    } else {
        Err(Status::BAD_OUT_OF_MEMORY)
    }
}

/// The value of an archived variable: `BAD_WAITING_FOR_INITIAL_DATA` where it has none yet; or what came in the way.
fn archived_value<A: Archive>(
    alloc: Global,
    archive: &mut A,
    node: NodeIdRef<'_>,
) -> Result<DataValue, Status>
    ensures acts { (mark : StepResult)
        × Refines (A.state archive.old) (A.state archive.new) (mark ∷ [])
        (value_step (step status_told) (latest (node_of node.entry))) result }
    ensures short { IfOk result IsShortData }
{
    let Ok(node) = node.to_owned(alloc) else {
        return Err(Status::BAD_OUT_OF_MEMORY);
    };
    match newest(alloc, archive, &node) {
        Ok(lives) => latest(lives),
        Err(fault) => Err(StepError::Store(fault).status()),
    }
}

/// Appends the value of an attribute that no archive keeps, with the moments that are wanted: that of the server is this one,
/// and so is that of the source of the attribute Value.
fn put_valued(
    stamps: TimestampsToReturn,
    now: Ticks,
    attribute: u32,
    value: &Variant,
    out: &mut Vec<u8>,
) -> Result<(), BinaryFault>
    requires { IsShortVariant value.now }
    ensures puts { Puts BinaryFault.OutOfMemory result out.old.items out.new.items
        (data_value.canon (item_told stamps now (Ok (valued now attribute value.now)))) }
    ensures spelled { IfOk result
        (λ _. IsDataValue (item_told stamps now (Ok (valued now attribute value.now)))) }
{
    let source = if attribute == VALUE { Some(now) } else { None };
    match stamps {
        TimestampsToReturn::Source => put_value_at(out, value, source, None),
        TimestampsToReturn::Server => put_value_at(out, value, None, Some(now)),
        TimestampsToReturn::Both => put_value_at(out, value, source, Some(now)),
        TimestampsToReturn::Neither => put_value_at(out, value, None, None),
    }
}

/// Appends what is told of an item that is refused.
#[inline(never)]
fn put_refused(status: Status, out: &mut Vec<u8>) -> Result<(), BinaryFault>
    ensures puts { (stamps : _) (now : _)
        → Puts BinaryFault.OutOfMemory result out.old.items out.new.items
        (data_value.canon (item_told stamps now (Err status))) }
    ensures spelled { (stamps : _) (now : _)
        → IfOk result (λ _. IsDataValue (item_told stamps now (Err status))) }
{
    put_data_value(out, &status_alone(status))
}

/// Appends the live value of an archived variable with the moments that are wanted, or why there is none.
#[inline(never)]
fn put_archived<A: Archive>(
    archive: &mut A,
    terms: ReadTerms,
    node: NodeIdRef<'_>,
    out: &mut Vec<u8>,
) -> Result<(), BinaryFault>
    ensures { (mark : StepResult) × (value : Result Data Status)
        × Refines (A.state archive.old) (A.state archive.new) (mark ∷ [])
        (value_step (step status_told) (latest (node_of node.entry))) value
        × Puts BinaryFault.OutOfMemory result out.old.items out.new.items
        (data_value.canon (item_told terms.stamps terms.now value))
        × IfOk result (λ _. IsDataValue (item_told terms.stamps terms.now value)) }
{
    match archived_value(terms.alloc, archive, node) {
        Ok(value) => put_data_value(out, &shown(terms.stamps, terms.now, value)),
        Err(status) => put_refused(status, out),
    }
}

/// What gives the value of an item to a user who may do this: `BAD_NODE_ID_UNKNOWN`, `BAD_ATTRIBUTE_ID_INVALID`,
/// `BAD_INDEX_RANGE_INVALID`, `BAD_DATA_ENCODING_UNSUPPORTED`, in this order; or `BAD_OUT_OF_MEMORY` for the attribute.
fn find_item(space: &Space, access: Access, item: &ReadValueId<'_>) -> Result<Answered, Status>
    ensures found { FindsItem (seen_by space.now access) (read_fields item.now) result }
    ensures short { IfOk result IsShortAnswered }
{
    let answered = match space.read_attribute_for(access, item.node_id, item.attribute_id) {
        Ok(answered) => answered,
        Err(status) => return Err(status),
    };
    match judge_value(item.index_range, item.data_encoding) {
        Ok(()) => Ok(answered),
        Err(status) => Err(status),
    }
}

/// Appends what is told of an item: its value, or why it is refused, as `find_item` has it, and then as of an archived variable;
/// or what came in the way.
fn put_item<A: Archive>(
    space: &Space,
    archive: &mut A,
    terms: ReadTerms,
    item: &ReadValueId<'_>,
    out: &mut Vec<u8>,
) -> Result<(), BinaryFault>
    ensures { (mark : StepResult) × (value : Data)
        × Refines (A.state archive.old) (A.state archive.new) (mark ∷ [])
        (read_item (seen_by space.now terms.access) terms.now terms.stamps
        (read_fields item.now)) value
        × Puts BinaryFault.OutOfMemory result out.old.items out.new.items (data_value.canon value)
        × IfOk result (λ _. IsDataValue value) }
{
    let found = find_item(space, terms.access, item);
    match &found {
        Err(status) => put_refused(*status, out),
        Ok(answered) => match answered {
            Answered::Value(value) => {
                put_valued(terms.stamps, terms.now, item.attribute_id, value, out)
            }
            Answered::Archived => put_archived(archive, terms, item.node_id, out),
        },
    }
}

/// Appends what is told of items, in order, until these are too many bytes for a response. All of them are read until then,
/// also where memory for the bytes runs out.
fn put_items<A: Archive>(
    space: &Space,
    archive: &mut A,
    terms: ReadTerms,
    items: &[ReadValueId<'_>],
    out: &mut Vec<u8>,
) -> Result<(), BinaryFault>
    ensures told { (used : List StepResult) × (values : List Data)
        × (length values ≡ length items.now)
        × Refines (A.state archive.old) (A.state archive.new) used
        (each (read_item (seen_by space.now terms.access) terms.now terms.stamps)
        (map read_fields items.now)) values
        × OnOk result
        (Appends data_value values out.old.items out.new.items) }
    ensures err { IfErr result (λ fault. fault ≡ BinaryFault.OutOfMemory) }
{
    let mut put = Ok(());
    for item in items {
        if out.len() <= LONGEST_RESPONSE {
            let one = put_item(space, archive, terms, item, out);
            put = put.and(one);
        }
    }
    put
}

/// Writes the response of a Read for a user who may do this; or tells why it is refused as a whole, that
/// memory was wanting, or that the response is too large.
fn put_read<A: Archive>(
    server: &mut Server<A>,
    access: Access,
    context: RequestContext,
    asked: &ReadRequest<'_>,
    body: &mut Vec<u8>,
) -> Result<(), Status>
    requires { body.old.items ≡ [] }
    ensures comes { ComesWritten (A.state server.old.replica.archive)
        (A.state server.new.replica.archive)
        (read (seen_by server.old.settings.space access) context.now (read_asked asked.now))
        context.now context.handle result body.new.items }
    ensures settings { server.new.settings ≡ server.old.settings }
{
    if let Some(status) = list_refusal(MOST_READ, asked.nodes.len()) {
        return Err(status);
    }
    let Some(stamps) = asked.timestamps else {
        return Err(Status::BAD_TIMESTAMPS_TO_RETURN_INVALID);
    };
    put_head(body, READ_RESPONSE, context, Status::GOOD)?;
    put_count(body, asked.nodes.len())?;
    let terms = ReadTerms {
        alloc: server.alloc,
        access,
        stamps,
        now: context.now,
    };
    put_items(
        server.settings.space(),
        &mut server.replica.archive,
        terms,
        &asked.nodes,
        body,
    )?;
    if body.len() > LONGEST_RESPONSE {
        return Err(Status::BAD_RESPONSE_TOO_LARGE);
    }
    put_i32(body, -1)?;
    Ok(())
}

/// Read (Part 4, 5.11.2), in a session that was activated: 1 to 1,000 items. `BAD_NOTHING_TO_DO` for no item,
/// `BAD_TOO_MANY_OPERATIONS` for more, then `BAD_TIMESTAMPS_TO_RETURN_INVALID`. Each item has a status of its own: that of its
/// node, attribute, index range and data encoding, in this order; `BAD_WAITING_FOR_INITIAL_DATA` where an archived
/// variable has no value; those of memory and of the store. The moment of the server is that of the request, and so is the
/// source time of a value that no archive keeps. Each value is written into the response as it is read, until the response is
/// too large to be sent: `BAD_RESPONSE_TOO_LARGE`, and what is left isn't read.
pub(crate) fn read<A: Archive>(
    server: &mut Server<A>,
    sessions: &Sessions,
    context: RequestContext,
    request: ServiceRequest<'_>,
    body: &mut Vec<u8>,
) -> Result<(), Status>
    requires { body.old.items ≡ [] }
    ensures responds { Responds (A.state server.old.replica.archive)
        (A.state server.new.replica.archive)
        (answered_call (site_of server.old.settings (A.state server.old.replica.archive))
        context.now (node_of request.entry.token) (call_in service.Read request.entry.body)
        sessions.now) sessions.now context.now context.handle result body.new.items }
    ensures settings { server.new.settings ≡ server.old.settings }
{
    let asked = read_request(server.alloc, request.body)?;
    let user = sessions.user_of(request.token)?;
    let access = server.settings.users().access_of(user);
    put_read(server, access, context, &asked, body)
}
