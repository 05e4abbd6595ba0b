//! HistoryUpdate (Part 4, 5.11.5).

ghost use Rattle.std.specs.Prelude.{◌≡◌, ◌≤◌, ◌∷◌, [], List, map, length, All, IfOk, OnErr, Some, option_map, vec_capacity};
ghost use Rattle.std.specs.List.{AllByRecursion};
ghost use Rattle.ua_binary.specs.Binary.{node_of};
ghost use Rattle.ua_session.specs.Users.{IsUserName};
ghost use Rattle.ua_services.specs.Updates.{details_of, HasShortValues, IsShortUpdate};
ghost use Rattle.archive.specs.Store.{StepResult};
ghost use Rattle.archive.specs.Steps.{Refines, each};
ghost use Rattle.hist_update.specs.Outcome.{IsRequest};
ghost use Rattle.archive.specs.Growth.{id_length};
ghost use Rattle.hist_update.specs.Updates.{refused_update};
ghost use Rattle.historian.specs.declared.service.Service.TheVariants as service;
ghost use Rattle.historian.specs.Updating.{node_asked, type_granted, update_of, asked_for, update_item, update_history};
ghost use Rattle.historian.specs.Requests.{call_in};
ghost use Rattle.historian.specs.Services.{site_of, answered_call};
ghost use Rattle.historian.specs.Auditing.{notes_updates, updates_audited};
ghost use Rattle.historian.specs.Telling.{IsEncodable, ComesTo, Performs, response_made};
ghost use Rattle.historian.specs.UserSpaces.{space_for, user_space_of};

use crate::answer::Answer;
use crate::auditing::{audits_of, note, notes_updates, update_event};
use crate::browsing::list_refusal;
use crate::requests::history_update_request;
use crate::server::Server;
use crate::service::ServiceRequest;
use crate::user_space::UserSpace;
use archive::Archive;
use hist_update::{Request, delete_at, delete_raw, update_data};
use std::alloc::{AllocError, Global};
use ua_binary::{Listing, NodeIdRef, Status, Text, Ticks};
use ua_services::{HistoryUpdateDetails, HistoryUpdateResult};
use ua_session::{Access, AuditEvent, Sessions};
use ua_settings::Settings;
use ua_variant::ValueType;

/// The most details of a HistoryUpdate.
const MOST_UPDATES: usize = 100;

/// On which terms details are performed: the user whom the records name, and the moment of the update.
#[derive(Clone, Copy)]
struct UpdateTerms<'a> {
    alloc: Global,
    user: &'a str,
    now: Ticks,
}

/// An update that is refused as a whole; it takes no memory.
fn refused(alloc: Global, status: Status) -> HistoryUpdateResult
    ensures told { result ≡ refused_update status }
    ensures short { IsShortUpdate result }
{
    HistoryUpdateResult {
        status,
        operation_results: Listing::new(alloc),
    }
}

/// The node of which details ask an update; none for details of another type.
pub(crate) fn node_asked<'a>(details: &HistoryUpdateDetails<'a>) -> Option<NodeIdRef<'a>>
    ensures { option_map node_of result ≡ node_asked (details_of details.now) }
{
    match details {
        HistoryUpdateDetails::UpdateData(details) => Some(details.node_id),
        HistoryUpdateDetails::DeleteRawModified(details) => Some(details.node_id),
        HistoryUpdateDetails::DeleteAtTime(details) => Some(details.node_id),
        HistoryUpdateDetails::Other => None,
    }
}

/// The type of an archived variable whose history the user may update. Its id has at most 256 bytes.
fn type_of(seen: UserSpace<'_>, node: NodeIdRef<'_>) -> Result<ValueType, Status>
    ensures told { result ≡ type_granted (user_space_of seen.entry) (Some (node_of node.entry)) }
    ensures short { IfOk result (λ _. id_length (node_of node.entry) ≤ 256) }
{
    match seen.space.variable(node) {
        Some(variable) => match seen.access {
            Access::Read => Err(Status::BAD_USER_ACCESS_DENIED),
            Access::Write => Ok(variable.value_type),
        },
        None => {
            if seen.space.has_node(node) {
                Err(Status::BAD_HISTORY_OPERATION_UNSUPPORTED)
            } else {
                Err(Status::BAD_NODE_ID_UNKNOWN)
            }
        }
    }
}

/// What this user asks at this moment for an update of a node.
fn asked_for(
    alloc: Global,
    user: &str,
    now: Ticks,
    node: NodeIdRef<'_>,
) -> Result<Request, AllocError>
    ensures { IfOk result (λ request. request ≡ asked_for user.now now (node_of node.entry)) }
{
    let Ok(node) = node.to_owned(alloc) else {
        return Err(AllocError);
    };
    let user = Text::from_str(alloc, user)?;
    Ok(Request {
        node,
        user,
        reading: now.0,
    })
}

/// Updates a variable of this type.
fn update_of<A: Archive>(
    alloc: Global,
    archive: &mut A,
    request: &Request,
    value_type: ValueType,
    details: &HistoryUpdateDetails<'_>,
) -> HistoryUpdateResult
    requires request { IsRequest request.now }
    requires values { HasShortValues (details_of details.now) }
    ensures acts { (used : List StepResult)
        × Refines (A.state archive.old) (A.state archive.new) used
        (update_of (A.state archive.old).own (λ _. request.now) value_type
        (details_of details.now)) result }
    ensures short { IsShortUpdate result }
{
    match details {
        HistoryUpdateDetails::UpdateData(details) => {
            let perform = details.perform;
            let values = details.values.as_slice();
            update_data(alloc, archive, request, value_type, perform, values)
        }
        HistoryUpdateDetails::DeleteRawModified(details) => delete_raw(
            alloc,
            archive,
            request,
            details.is_delete_modified,
            details.start_time,
            details.end_time,
        ),
        HistoryUpdateDetails::DeleteAtTime(details) => {
            delete_at(alloc, archive, request, details.times.as_slice())
        }
        HistoryUpdateDetails::Other => refused(alloc, Status::BAD_HISTORY_OPERATION_UNSUPPORTED),
    }
}

/// What one of the details is answered.
fn update_item<A: Archive>(
    seen: UserSpace<'_>,
    archive: &mut A,
    terms: UpdateTerms<'_>,
    details: &HistoryUpdateDetails<'_>,
) -> HistoryUpdateResult
    requires user { IsUserName terms.user.now }
    requires values { HasShortValues (details_of details.now) }
    ensures acts { (used : List StepResult)
        × Refines (A.state archive.old) (A.state archive.new) used
        (update_item (A.state archive.old).own (user_space_of seen.entry) terms.entry.user.now
        terms.entry.now (details_of details.now)) result }
    ensures short { IsShortUpdate result }
{
    let alloc = terms.alloc;
    let Some(node) = node_asked(details) else {
        return refused(alloc, Status::BAD_HISTORY_OPERATION_UNSUPPORTED);
    };
    let value_type = match type_of(seen, node) {
        Ok(value_type) => value_type,
        Err(status) => return refused(alloc, status),
    };
    match asked_for(alloc, terms.user, terms.now, node) {
        Ok(request) => update_of(alloc, archive, &request, value_type, details),
        Err(_) => refused(alloc, Status::BAD_OUT_OF_MEMORY),
    }
}

/// The address space of these settings as their user of this name sees it.
fn seen_by<'a>(settings: &'a Settings, user: &str) -> UserSpace<'a>
    ensures { user_space_of result ≡ space_for settings.now user.now }
{
    UserSpace {
        space: settings.space(),
        access: settings.users().access_of(user),
    }
}

/// The type of an archived variable whose history a user of these settings may update, as
/// HistoryUpdate judges it: `BAD_NODE_ID_UNKNOWN`, `BAD_HISTORY_OPERATION_UNSUPPORTED` where the node
/// isn't archived, `BAD_USER_ACCESS_DENIED` for a user who may only read.
pub fn granted_type(
    settings: &Settings,
    user: &str,
    node: NodeIdRef<'_>,
) -> Result<ValueType, Status>
    ensures told { result
        ≡ type_granted (space_for settings.now user.now) (Some (node_of node.entry)) }
    ensures short { IfOk result (λ _. id_length (node_of node.entry) ≤ 256) }
{
    type_of(seen_by(settings, user), node)
}

/// What one of the details of a HistoryUpdate of this user is answered, at this moment. Its status is
/// as `update_history` has it of each of the details; the settings stay.
pub fn update_one<A: Archive>(
    server: &mut Server<A>,
    user: &str,
    now: Ticks,
    details: &HistoryUpdateDetails<'_>,
) -> HistoryUpdateResult
    requires user { IsUserName user.now }
    requires values { HasShortValues (details_of details.now) }
    ensures acts { (used : List StepResult)
        × Refines (A.state server.old.replica.archive) (A.state server.new.replica.archive) used
        (update_item (A.state server.old.replica.archive).own
        (space_for server.old.settings user.now) user.now now (details_of details.now)) result }
    ensures settings { server.new.settings ≡ server.old.settings }
    ensures short { IsShortUpdate result }
{
    let seen = seen_by(&server.settings, user);
    let terms = UpdateTerms {
        alloc: server.alloc,
        user,
        now,
    };
    update_item(seen, &mut server.replica.archive, terms, details)
}

/// What details are answered, in order, each over what those before it left.
fn update_items<A: Archive>(
    seen: UserSpace<'_>,
    archive: &mut A,
    terms: UpdateTerms<'_>,
    items: &[HistoryUpdateDetails<'_>],
    results: &mut Vec<HistoryUpdateResult>,
)
    requires user { IsUserName terms.user.now }
    requires values { AllByRecursion HasShortValues (map details_of items.now) }
    requires empty { results.old.items ≡ [] }
    requires room { length items.now ≤ vec_capacity results.old }
    ensures acts { (used : List StepResult)
        × Refines (A.state archive.old) (A.state archive.new) used
        (each (update_item (A.state archive.old).own (user_space_of seen.entry)
        terms.entry.user.now terms.entry.now) (map details_of items.now)) results.new.items }
    ensures count { length results.new.items ≡ length items.now }
    ensures short { All IsShortUpdate results.new.items }
{
    for details in items {
        let result = update_item(seen, archive, terms, details);
        results.push(result).unwrap();
    }
}

/// What a HistoryUpdate of these details is answered.
fn update_all<A: Archive>(
    server: &mut Server<A>,
    user: &str,
    now: Ticks,
    details: &[HistoryUpdateDetails<'_>],
) -> Result<Answer, Status>
    requires user { IsUserName user.now }
    requires values { AllByRecursion HasShortValues (map details_of details.now) }
    ensures comes { ComesTo (A.state server.old.replica.archive)
        (A.state server.new.replica.archive)
        (update_history (A.state server.old.replica.archive).own
        (space_for server.old.settings user.now) user.now now (map details_of details.now))
        result }
    ensures settings { server.new.settings ≡ server.old.settings }
    ensures short { IfOk result IsEncodable }
{
    if let Some(status) = list_refusal(MOST_UPDATES, details.len()) {
        return Err(status);
    }
    let Ok(mut results) = Vec::with_capacity(server.alloc, details.len()) else {
        return Err(Status::BAD_OUT_OF_MEMORY);
    };
    let seen = seen_by(&server.settings, user);
    let terms = UpdateTerms {
        alloc: server.alloc,
        user,
        now,
    };
    update_items(
        seen,
        &mut server.replica.archive,
        terms,
        details,
        &mut results,
    );
    Ok(Answer::Updated(results))
}

/// What updates were answered, and what is noted of them.
#[derive(Drop)]
struct Audited {
    answer: Result<Answer, Status>,
    event: Option<AuditEvent>,
}

/// Performs the details, and says what each came to, where the settings ask for it. The one error is want of memory for that,
/// before the first one is done.
fn update_audited<A: Archive>(
    server: &mut Server<A>,
    user: &str,
    now: Ticks,
    details: &[HistoryUpdateDetails<'_>],
) -> Result<Audited, AllocError>
    requires user { IsUserName user.now }
    requires values { AllByRecursion HasShortValues (map details_of details.now) }
    ensures comes { IfOk result (λ done. ComesTo (A.state server.old.replica.archive)
        (A.state server.new.replica.archive)
        (update_history (A.state server.old.replica.archive).own
        (space_for server.old.settings user.now) user.now now (map details_of details.now))
        done.answer) }
    ensures event { IfOk result (λ done. done.event ≡ updates_audited
        (notes_updates server.old.settings) server.old.settings.space user.now
        (map details_of details.now) (response_made done.answer)) }
    ensures starved { OnErr result (server.new ≡ server.old) }
    ensures settings { server.new.settings ≡ server.old.settings }
    ensures short { IfOk result (λ done. IfOk done.answer IsEncodable) }
{
    if !notes_updates(&server.settings) {
        return Ok(Audited {
            answer: update_all(server, user, now, details),
            event: None,
        });
    }
    let audits = audits_of(server.alloc, server.settings.space(), details)?;
    let answer = update_all(server, user, now, details);
    let event = update_event(user, audits, &answer);
    Ok(Audited { answer, event })
}

/// HistoryUpdate (Part 4, 5.11.5), in a session that was activated, whose user is the one that the records name: 1 to 100
/// details, in order. `BAD_NOTHING_TO_DO` for none, `BAD_TOO_MANY_OPERATIONS` for more. Each of the details has a status of
/// its own: `BAD_HISTORY_OPERATION_UNSUPPORTED` for another type of details, `BAD_NODE_ID_UNKNOWN`,
/// `BAD_HISTORY_OPERATION_UNSUPPORTED` where the node isn't archived, `BAD_USER_ACCESS_DENIED` for a user who may only read,
/// `BAD_OUT_OF_MEMORY`, and then those of `update_data`, `delete_raw` and `delete_at`. Where the settings ask for it, what each
/// of them came to is kept in the sessions for a log; memory for that is had before the first one is done.
pub(crate) fn update_history<A: Archive>(
    server: &mut Server<A>,
    sessions: &mut Sessions,
    now: Ticks,
    request: ServiceRequest<'_>,
) -> Result<Answer, Status>
    ensures performs { Performs (A.state server.old.replica.archive)
        (A.state server.new.replica.archive)
        (answered_call (site_of server.old.settings (A.state server.old.replica.archive)) now
        (node_of request.entry.token) (call_in service.HistoryUpdate request.entry.body)
        sessions.old) sessions.new result }
    ensures settings { server.new.settings ≡ server.old.settings }
    ensures short { IfOk result IsEncodable }
{
    let asked = history_update_request(server.alloc, request.body)?;
    let user = sessions.user_of(request.token)?;
    let Ok(done) = update_audited(server, user, now, &asked.details) else {
        return Err(Status::BAD_OUT_OF_MEMORY);
    };
    note(sessions, done.event);
    done.answer
}
