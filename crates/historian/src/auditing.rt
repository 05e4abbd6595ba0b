//! What a log of the server is told of activations and updates (Part 5, 6.4).

ghost use Rattle.std.specs.Prelude.{◌≡◌, List, map, true, IfOk};
ghost use Rattle.std.specs.Result.{result_err};
ghost use Rattle.ua_session.specs.Users.{claim_of};
ghost use Rattle.ua_services.specs.Updates.{details_of};
ghost use Rattle.ua_services.specs.Updates.{Details};
ghost use Rattle.ua_space.specs.declared.layout.Layout.{Layout};
ghost use Rattle.historian.specs.Answers.{Response};
ghost use Rattle.historian.specs.Telling.{response_made};
ghost use Rattle.historian.specs.Auditing.{claimed_name, activation_event, archived_node, kind_numbered, kind_asked, worse, worst_of, asked_audit, answered_audit, audits_with, answered_audits, notes_updates, updates_audited, noting};

use crate::answer::Answer;
use crate::updating::node_asked;
use std::alloc::{AllocError, Global};
use ua_binary::{Listing, NodeId, Status};
use ua_services::{HistoryUpdateDetails, HistoryUpdateResult};
use ua_session::{AuditEvent, AuditName, Identity, Sessions, UpdateAudit, UpdateKind};
use ua_settings::Settings;
use ua_space::Space;

/// The name by which somebody asks to be let in.
fn claimed_name<'a>(identity: Identity<'a>) -> &'a str
    ensures { result.now ≡ claimed_name (claim_of identity.entry) }
{
    match identity {
        Identity::Anonymous => "anonymous",
        Identity::Named { name, .. } => name.unwrap_or(""),
        Identity::Other => "",
    }
}

/// Somebody who asked so to be let in was refused by this code, or let in.
pub(crate) fn activation_event(identity: Identity<'_>, refused: Option<Status>) -> AuditEvent
    ensures { (response : Response) → result_err response ≡ refused
        → result ≡ activation_event (claim_of identity.entry) response }
{
    AuditEvent::Activation {
        name: AuditName::of(claimed_name(identity)),
        refused,
    }
}

/// The node of which details ask an update, where it is an archived variable.
fn archived_node(
    alloc: Global,
    space: &Space,
    details: &HistoryUpdateDetails<'_>,
) -> Result<Option<NodeId>, AllocError>
    ensures { IfOk result (λ node. node ≡ archived_node space.now (details_of details.now)) }
{
    let Some(node) = node_asked(details) else {
        return Ok(None);
    };
    if space.variable(node).is_none() {
        return Ok(None);
    }
    match node.to_owned(alloc) {
        Ok(node) => Ok(Some(node)),
        Err(_) => Err(AllocError),
    }
}

/// What a number asks to be done with values.
fn kind_numbered(perform: i32) -> UpdateKind
    ensures { result ≡ kind_numbered perform }
{
    match perform {
        1 => UpdateKind::Insert,
        2 => UpdateKind::Replace,
        3 => UpdateKind::Update,
        _ => UpdateKind::Other,
    }
}

/// What details ask.
fn kind_asked(details: &HistoryUpdateDetails<'_>) -> UpdateKind
    ensures { result ≡ kind_asked (details_of details.now) }
{
    match details {
        HistoryUpdateDetails::UpdateData(details) => kind_numbered(details.perform),
        HistoryUpdateDetails::DeleteRawModified(_) => UpdateKind::DeleteRange,
        HistoryUpdateDetails::DeleteAtTime(_) => UpdateKind::DeleteAtTime,
        HistoryUpdateDetails::Other => UpdateKind::Other,
    }
}

/// The one of the worse severity, and of equal ones the first.
fn worse(one: Status, other: Status) -> Status
    ensures { result ≡ worse one other }
{
    if one.0 >> 30 < other.0 >> 30 {
        other
    } else {
        one
    }
}

/// The first of the worst severity, of this one and some more.
fn worst_of(status: Status, codes: &[Status]) -> Status
    ensures { result ≡ worst_of status codes.now }
{
    let mut worst = status;
    for code in codes {
        worst = worse(worst, *code);
    }
    worst
}

/// What details ask, of which nothing was answered yet. The one error is want of memory.
pub(crate) fn audits_of(
    alloc: Global,
    space: &Space,
    asked: &[HistoryUpdateDetails<'_>],
) -> Result<Vec<UpdateAudit>, AllocError>
    ensures { IfOk result
        (λ audits. audits.items ≡ map (λ d. asked_audit space.now (details_of d)) asked.now) }
{
    let mut audits = Vec::new(alloc);
    for details in asked {
        audits.push(UpdateAudit {
            node: archived_node(alloc, space, details)?,
            kind: kind_asked(details),
            values: 0,
            worst: Status::GOOD,
        })?;
    }
    Ok(audits)
}

/// Adds to one what it was answered.
fn note_result(audit: &mut UpdateAudit, answered: &HistoryUpdateResult)
    ensures { audit.new ≡ answered_audit audit.old answered.now }
{
    audit.values = answered.operation_results.len();
    audit.worst = worst_of(answered.status, answered.operation_results.as_slice());
}

/// Adds to the one at this place, if there is one, what it was answered.
fn add_result(audits: &mut [UpdateAudit], place: usize, answered: &HistoryUpdateResult)
    ensures { audits.new ≡ audits_with audits.old place answered.now }
{
    if place < audits.len() {
        note_result(&mut audits[place], answered);
    }
}

/// Adds to each of these what it was answered.
fn add_results(audits: &mut [UpdateAudit], results: &[HistoryUpdateResult])
    ensures { audits.new ≡ answered_audits audits.old results.now }
{
    for (place, answered) in results.iter().enumerate() {
        add_result(audits, place, answered);
    }
}

/// Whether what updates come to is noted: for a log of events; and where peers have a door, since records of one's own number
/// come back there only to a store that no client updated.
pub(crate) fn notes_updates(settings: &Settings) -> bool
    ensures { result ≡ notes_updates settings.now }
{
    settings.tells_events() || settings.door().is_some()
}

/// What is noted of these updates of a user, which were answered so.
pub(crate) fn update_event(
    user: &str,
    audits: Vec<UpdateAudit>,
    answer: &Result<Answer, Status>,
) -> Option<AuditEvent>
    ensures { (space : Layout) → (details : List Details)
        → audits.items ≡ map (asked_audit space) details
        → result ≡ updates_audited true space user.now details (response_made answer.now) }
{
    let Ok(Answer::Updated(results)) = answer else {
        return None;
    };
    let mut audits = audits;
    add_results(&mut audits, results.as_slice());
    Some(AuditEvent::Update {
        user: AuditName::of(user),
        updates: Listing::of(audits),
    })
}

/// Keeps what was done in sessions last, if something was.
pub(crate) fn note(sessions: &mut Sessions, event: Option<AuditEvent>)
    ensures { sessions.new ≡ noting event sessions.old }
{
    if let Some(event) = event {
        sessions.note(event);
    }
}
