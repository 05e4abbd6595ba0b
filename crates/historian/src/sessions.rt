//! The services of sessions (Part 4, 5.5.4 and 5.7.2 to 5.7.4), each from the bytes behind the header of its request.

ghost use Rattle.std.specs.Prelude.{◌≡◌, IfOk};
ghost use Rattle.ua_binary.specs.Binary.{node_of};
ghost use Rattle.historian.specs.declared.service.Service.TheVariants as service;
ghost use Rattle.historian.specs.Requests.{call_in};
ghost use Rattle.historian.specs.Services.{ServerConfig, answered_call};
ghost use Rattle.historian.specs.Telling.{IsEncodable, PerformsHere};

use crate::answer::Answer;
use crate::auditing::activation_event;
use crate::endpoints::{all_endpoints, takes_transport};
use crate::requests::{activation_request, closing_request, creation_request, endpoints_request};
use std::alloc::Global;
use ua_binary::{Cursor, NodeIdRef, Status};
use ua_services::CreateSessionResponse;
use ua_session::Sessions;
use ua_settings::Settings;

/// The most bytes of a request that are taken.
const MAX_REQUEST_SIZE: u32 = 4_194_304;

/// GetEndpoints (Part 4, 5.5.4): the endpoint, or none where the client takes other transport profiles alone.
pub(crate) fn get_endpoints(
    alloc: Global,
    settings: &Settings,
    request: Cursor<'_>,
) -> Result<Answer, Status>
    ensures performs { (config : ServerConfig) (now : _) (token : _) (sessions : _)
        → config.settings ≡ settings.now
        → PerformsHere
        (answered_call config now token
        (call_in service.GetEndpoints request.entry) sessions) sessions result }
    ensures short { IfOk result IsEncodable }
{
    let asked = endpoints_request(alloc, request)?;
    if !takes_transport(&asked.profile_uris) {
        return Ok(Answer::Endpoints(Vec::new(alloc)));
    }
    Ok(Answer::Endpoints(all_endpoints(alloc, settings)?))
}

/// CreateSession (Part 4, 5.7.2): its id and its token, the timeout that was asked for, and the endpoint.
/// `BAD_TOO_MANY_SESSIONS` where 16 sessions are open or 1,000,000 were made. Memory for the endpoint is had before
/// the session is made.
pub(crate) fn create_session(
    alloc: Global,
    settings: &Settings,
    sessions: &mut Sessions,
    request: Cursor<'_>,
) -> Result<Answer, Status>
    ensures performs { (config : ServerConfig) (now : _) (token : _) → config.settings
        ≡ settings.now
        → PerformsHere
        (answered_call config now token
        (call_in service.CreateSession request.entry) sessions.old) sessions.new result }
    ensures short { IfOk result IsEncodable }
{
    let asked = creation_request(request)?;
    let endpoints = all_endpoints(alloc, settings)?;
    let (session_id, authentication_token) = sessions.create()?;
    Ok(Answer::Created(CreateSessionResponse {
        session_id,
        authentication_token,
        timeout: asked.timeout,
        endpoints,
        max_request_size: MAX_REQUEST_SIZE,
    }))
}

/// ActivateSession (Part 4, 5.7.3): the session of this token has the user whom the identity is allowed as.
/// `BAD_SESSION_ID_INVALID`, `BAD_IDENTITY_TOKEN_INVALID` and `BAD_IDENTITY_TOKEN_REJECTED` as `Sessions::activate` has
/// them. Who asked, and what was answered, is kept in the sessions for a log.
pub(crate) fn activate_session(
    settings: &Settings,
    sessions: &mut Sessions,
    token: NodeIdRef<'_>,
    request: Cursor<'_>,
) -> Result<Answer, Status>
    ensures performs { (config : ServerConfig) (now : _) → config.settings ≡ settings.now
        → PerformsHere
        (answered_call config now (node_of token.entry)
        (call_in service.ActivateSession request.entry) sessions.old) sessions.new result }
    ensures short { IfOk result IsEncodable }
{
    let asked = activation_request(request)?;
    match sessions.activate(token, asked.user_identity, settings.users()) {
        Ok(_) => {
            sessions.note(activation_event(asked.user_identity, None));
            Ok(Answer::Activated)
        }
        Err(fault) => {
            let status = fault.code();
            sessions.note(activation_event(asked.user_identity, Some(status)));
            Err(status)
        }
    }
}

/// CloseSession (Part 4, 5.7.4): the session of this token is gone, whether it was activated or not.
/// `BAD_SESSION_ID_INVALID` where there is none.
pub(crate) fn close_session(
    sessions: &mut Sessions,
    token: NodeIdRef<'_>,
    request: Cursor<'_>,
) -> Result<Answer, Status>
    ensures performs { (config : ServerConfig) (now : _)
        → PerformsHere
        (answered_call config now (node_of token.entry)
        (call_in service.CloseSession request.entry) sessions.old) sessions.new result }
    ensures short { IfOk result IsEncodable }
{
    closing_request(request)?;
    match sessions.close(token) {
        Ok(()) => Ok(Answer::Closed),
        Err(fault) => Err(fault.code()),
    }
}
