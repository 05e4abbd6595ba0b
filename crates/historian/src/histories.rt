//! HistoryRead (Part 4, 5.11.3).

ghost use Rattle.std.specs.Prelude.{◌≡◌, ◌≤◌, ◌<◌, ◌∷◌, [], List, map, length, Some, None, is_some, IfOk, IfSome, OnOk, IsTrue, IsFalse};
ghost use Rattle.std.specs.Option.{option_copied};
ghost use Rattle.ua_binary.specs.Binary.{node_of, qualified_of, IsShortNode};
ghost use Rattle.ua_binary.specs.Rules.{checked};
ghost use Rattle.ua_services.specs.History.{HistoryAsked, history_read_fields, history_asked, history_fields, history_read_result, IsShortHistoryRead};
ghost use Rattle.ua_services.specs.declared.history.HistoryReadResult.{HistoryReadResult as Told};
ghost use Rattle.archive.specs.Store.{StepResult};
ghost use Rattle.archive.specs.Steps.{Refines, each};
ghost use Rattle.hist_read.specs.Node.{refused_read};
ghost use Rattle.hist_read.specs.Carrying.{TellsWithin};
ghost use Rattle.historian.specs.declared.service.Service.TheVariants as service;
ghost use Rattle.historian.specs.Reading.{history_rules, released, read_history_of, query_of, read_history};
ghost use Rattle.historian.specs.Answers.{longest_response};
ghost use Rattle.historian.specs.Requests.{call_in};
ghost use Rattle.historian.specs.Services.{site_of, answered_call};
ghost use Rattle.historian.specs.Telling.{AppendsOne, AppendsAll, ComesWritten, Responds};

use crate::browsing::list_refusal;
use crate::reading::judge_value;
use crate::requests::history_read_request;
use crate::responses::{LONGEST_RESPONSE, RequestContext, put_head};
use crate::server::Server;
use crate::service::ServiceRequest;
use archive::Archive;
use hist_read::{Query, read_node_within};
use std::alloc::Global;
use ua_binary::{Status, put_count, put_i32};
use ua_services::{
    HistoryData, HistoryReadDetails, HistoryReadRequest, HistoryReadResult, HistoryReadValueId,
    TimestampsToReturn, put_history_read_result,
};
use ua_session::Sessions;
use ua_space::Space;

/// The type id of a HistoryReadResponse.
const HISTORY_READ_RESPONSE: u32 = 667;

/// The most nodes of a HistoryRead.
const MOST_HISTORIES: usize = 100;

/// On which terms histories are read: what is asked of each, and whether its continuation point is only given back.
#[derive(Clone, Copy)]
struct HistoryTerms {
    alloc: Global,
    query: Query,
    release: bool,
}

/// A read of a node that is refused, or shows nothing.
fn nothing(status: Status) -> HistoryReadResult
    ensures told { result ≡ refused_read status }
    ensures short { IsShortHistoryRead result }
{
    HistoryReadResult {
        status,
        continuation_point: None,
        history_data: HistoryData::Nothing,
    }
}

/// Why a node's history isn't read.
fn judge_history(space: &Space, item: HistoryReadValueId<'_>) -> Result<(), Status>
    ensures told { result ≡ checked (history_rules space.now (history_read_fields item.entry)) }
    ensures short { IfOk result (λ _. IsShortNode (node_of item.entry.node_id)) }
{
    if !space.has_node(item.node_id) {
        return Err(Status::BAD_NODE_ID_UNKNOWN);
    }
    let Some(_variable) = space.variable(item.node_id) else {
        return Err(Status::BAD_HISTORY_OPERATION_UNSUPPORTED);
    };
    judge_value(item.index_range, item.data_encoding)
}

/// What is told of a read where continuation points may only be given back.
fn released(release: bool, read: HistoryReadResult) -> HistoryReadResult
    requires { IsShortHistoryRead read }
    ensures told { result ≡ released release read }
    ensures short { IsShortHistoryRead result }
{
    if release && read.status.0 < 0x8000_0000 {
        nothing(Status::GOOD)
    } else {
        read
    }
}

/// What is told of a read that is too long for a response: nothing of it, where continuation points may only be given back.
fn too_long(release: bool) -> Option<HistoryReadResult>
    ensures told { (read : Told) → TellsWithin (Some longest_response) None read
        → TellsWithin (Some longest_response) result (released release read) }
    ensures short { IfSome result IsShortHistoryRead }
{
    if release {
        Some(nothing(Status::GOOD))
    } else {
        None
    }
}

/// Reads the history of a node; `None` where what is told of it is longer than any response. At most the bytes of a response
/// are read, and what one question to the archive gives.
fn read_history_of<A: Archive>(
    space: &Space,
    archive: &mut A,
    terms: HistoryTerms,
    item: HistoryReadValueId<'_>,
) -> Option<HistoryReadResult>
    ensures acts { (used : List StepResult) × (value : Told)
        × Refines (A.state archive.old) (A.state archive.new) used
        (read_history_of (A.state archive.old).id space.now terms.query terms.release
        (history_read_fields item.entry)) value
        × TellsWithin (Some longest_response) result value }
    ensures short { IfSome result IsShortHistoryRead }
{
    if let Err(status) = judge_history(space, item) {
        return Some(nothing(status));
    }
    let Ok(node) = item.node_id.to_owned(terms.alloc) else {
        return Some(nothing(Status::BAD_OUT_OF_MEMORY));
    };
    let longest = Some(LONGEST_RESPONSE);
    let Some(read) = read_node_within(
        terms.alloc,
        archive,
        &node,
        &terms.query,
        item.continuation_point,
        longest,
    ) else {
        return too_long(terms.release);
    };
    Some(released(terms.release, read))
}

/// Appends what is told of the history of a node. Nothing is appended where memory for it runs out, or where it is longer than
/// any response: `BAD_RESPONSE_TOO_LARGE`.
fn put_history<A: Archive>(
    space: &Space,
    archive: &mut A,
    terms: HistoryTerms,
    item: HistoryReadValueId<'_>,
    out: &mut Vec<u8>,
) -> Result<(), Status>
    ensures { (used : List StepResult) × (value : Told)
        × Refines (A.state archive.old) (A.state archive.new) used
        (read_history_of (A.state archive.old).id space.now terms.query terms.release
        (history_read_fields item.entry)) value
        × AppendsOne history_read_result (history_fields value) result out.old.items
        out.new.items }
{
    let Some(read) = read_history_of(space, archive, terms, item) else {
        return Err(Status::BAD_RESPONSE_TOO_LARGE);
    };
    put_history_read_result(out, &read)?;
    Ok(())
}

/// Whether one more may be read behind so many bytes: they aren't too many for a response, and no read before was too long.
fn may_go_on(written: usize, put: Result<(), Status>) -> bool
    ensures few { IsTrue result → written ≤ longest_response }
    ensures many { IsFalse result → OnOk put (longest_response < written) }
{
    if written > LONGEST_RESPONSE {
        return false;
    }
    match put {
        Ok(()) => true,
        Err(status) => status != Status::BAD_RESPONSE_TOO_LARGE,
    }
}

/// Appends what is told of the histories of nodes, in order, until these are too many bytes for a response:
/// `BAD_RESPONSE_TOO_LARGE` where one alone is, of which nothing is appended. All of them are read until then, also where
/// memory for the bytes runs out. The last fault is told.
fn put_histories<A: Archive>(
    space: &Space,
    archive: &mut A,
    terms: HistoryTerms,
    items: &[HistoryReadValueId<'_>],
    out: &mut Vec<u8>,
) -> Result<(), Status>
    ensures { (used : List StepResult) × (values : List Told)
        × (length values ≡ length items.now)
        × Refines (A.state archive.old) (A.state archive.new) used
        (each (read_history_of (A.state archive.old).id space.now terms.query terms.release)
        (map history_read_fields items.now)) values
        × AppendsAll history_read_result (map history_fields values) result out.old.items
        out.new.items }
{
    let mut put = Ok(());
    for item in items {
        if may_go_on(out.len(), put) {
            let one = put_history(space, archive, terms, *item, out);
            put = one.and(put);
        }
    }
    put
}

/// What is read of each node: `BAD_TIMESTAMPS_TO_RETURN_INVALID` where neither of the moments is wanted, or the number
/// says none of them; then `BAD_HISTORY_OPERATION_UNSUPPORTED` for details of another type.
fn query_of(
    details: HistoryReadDetails,
    timestamps: Option<TimestampsToReturn>,
) -> Result<Query, Status>
    ensures { result ≡ query_of details timestamps }
{
    let stamps = match timestamps {
        None | Some(TimestampsToReturn::Neither) => {
            return Err(Status::BAD_TIMESTAMPS_TO_RETURN_INVALID);
        }
        Some(stamps) => stamps,
    };
    match details {
        HistoryReadDetails::ReadRawModified(details) => Ok(Query { details, stamps }),
        HistoryReadDetails::Other => Err(Status::BAD_HISTORY_OPERATION_UNSUPPORTED),
    }
}

/// Writes the response of a HistoryRead; or tells why it is refused as a whole, that memory was wanting, or that the response
/// is too large.
fn put_read_history<A: Archive>(
    server: &mut Server<A>,
    context: RequestContext,
    asked: &HistoryReadRequest<'_>,
    body: &mut Vec<u8>,
) -> Result<(), Status>
    requires { body.old.items ≡ [] }
    ensures comes { ComesWritten (A.state server.old.replica.archive)
        (A.state server.new.replica.archive)
        (read_history (A.state server.old.replica.archive).id server.old.settings.space
        (history_asked asked.now)) context.now context.handle result body.new.items }
    ensures settings { server.new.settings ≡ server.old.settings }
{
    if let Some(status) = list_refusal(MOST_HISTORIES, asked.nodes.len()) {
        return Err(status);
    }
    let query = query_of(asked.details, asked.timestamps)?;
    put_head(body, HISTORY_READ_RESPONSE, context, Status::GOOD)?;
    put_count(body, asked.nodes.len())?;
    let terms = HistoryTerms {
        alloc: server.alloc,
        query,
        release: asked.release_continuation_points,
    };
    put_histories(
        server.settings.space(),
        &mut server.replica.archive,
        terms,
        &asked.nodes,
        body,
    )?;
    if body.len() > LONGEST_RESPONSE {
        return Err(Status::BAD_RESPONSE_TOO_LARGE);
    }
    put_i32(body, -1)?;
    Ok(())
}

/// HistoryRead (Part 4, 5.11.3), in a session that was activated: of 1 to 100 nodes. `BAD_NOTHING_TO_DO` for no node,
/// `BAD_TOO_MANY_OPERATIONS` for more, then `BAD_TIMESTAMPS_TO_RETURN_INVALID`, then
/// `BAD_HISTORY_OPERATION_UNSUPPORTED` for details other than ReadRawModifiedDetails. Each node has a status of its own:
/// `BAD_NODE_ID_UNKNOWN`, `BAD_HISTORY_OPERATION_UNSUPPORTED` where it isn't archived, `BAD_INDEX_RANGE_INVALID`,
/// `BAD_DATA_ENCODING_UNSUPPORTED`, and then those of `read_node`. Where continuation points are only given back, a node
/// is read as ever, and nothing of it is shown. Each history is written into the response as it is read, until the response
/// is too large to be sent: `BAD_RESPONSE_TOO_LARGE`, and what is left isn't read. Nor is what is left of a node whose history
/// alone is too large: at most a response's bytes of it are read, and what one question to the archive gives.
pub(crate) fn read_history<A: Archive>(
    server: &mut Server<A>,
    sessions: &Sessions,
    context: RequestContext,
    request: ServiceRequest<'_>,
    body: &mut Vec<u8>,
) -> Result<(), Status>
    requires { body.old.items ≡ [] }
    ensures responds { Responds (A.state server.old.replica.archive)
        (A.state server.new.replica.archive)
        (answered_call (site_of server.old.settings (A.state server.old.replica.archive))
        context.now (node_of request.entry.token) (call_in service.HistoryRead request.entry.body)
        sessions.now) sessions.now context.now context.handle result body.new.items }
    ensures settings { server.new.settings ≡ server.old.settings }
{
    let asked = history_read_request(server.alloc, request.body)?;
    sessions.user_of(request.token)?;
    put_read_history(server, context, &asked, body)
}
