//! Requests, each read by itself: what the service is asked by the bytes behind the header, all of them.

ghost use Rattle.std.specs.Prelude.{◌≡◌, map, IfOk};
ghost use Rattle.std.specs.List.{AllByRecursion};
ghost use Rattle.ua_session.specs.Users.{claim_of};
ghost use Rattle.ua_services.specs.Endpoints.{endpoints_asked};
ghost use Rattle.ua_services.specs.Browsing.{browse_fields};
ghost use Rattle.ua_services.specs.Attributes.{read_asked};
ghost use Rattle.ua_services.specs.History.{history_asked};
ghost use Rattle.historian.specs.declared.service.Service.TheVariants as service;
ghost use Rattle.ua_services.specs.Updates.{details_of, HasShortValues};
ghost use Rattle.historian.specs.Requests.{GetEndpoints, CreateSession, ActivateSession, CloseSession, Browse, Read, HistoryRead, HistoryUpdate, nothing_left};
ghost use Rattle.historian.specs.Telling.{Asks};

use std::alloc::Global;
use ua_binary::{Cursor, Status};
use ua_services::{
    ActivateSessionRequest, BrowseRequest, CreateSessionRequest, GetEndpointsRequest,
    HistoryReadRequest, HistoryUpdateRequest, ReadRequest, read_activate_session_request,
    read_browse_request, read_close_session_request, read_create_session_request,
    read_get_endpoints_request, read_history_read_request, read_history_update_request,
    read_read_request,
};

/// Refuses bytes that stand behind a request.
fn refuse_more(cursor: &Cursor<'_>) -> Result<(), Status>
    ensures { result ≡ nothing_left cursor.now }
{
    if cursor.rest().is_empty() {
        Ok(())
    } else {
        Err(Status::BAD_DECODING_ERROR)
    }
}

pub(crate) fn endpoints_request<'a>(
    alloc: Global,
    mut request: Cursor<'a>,
) -> Result<GetEndpointsRequest<'a>, Status>
    ensures { Asks service.GetEndpoints
        (λ asked. GetEndpoints (endpoints_asked asked).1) request.entry result }
{
    let asked = read_get_endpoints_request(alloc, &mut request)?;
    refuse_more(&request)?;
    Ok(asked)
}

pub(crate) fn creation_request<'a>(
    mut request: Cursor<'a>,
) -> Result<CreateSessionRequest<'a>, Status>
    ensures { Asks service.CreateSession
        (λ asked. CreateSession asked.timeout) request.entry result }
{
    let asked = read_create_session_request(&mut request)?;
    refuse_more(&request)?;
    Ok(asked)
}

pub(crate) fn activation_request<'a>(
    mut request: Cursor<'a>,
) -> Result<ActivateSessionRequest<'a>, Status>
    ensures { Asks service.ActivateSession
        (λ asked. ActivateSession (claim_of asked.user_identity)) request.entry result }
{
    let asked = read_activate_session_request(&mut request)?;
    refuse_more(&request)?;
    Ok(asked)
}

pub(crate) fn closing_request(mut request: Cursor<'_>) -> Result<(), Status>
    ensures { Asks service.CloseSession (λ _. CloseSession) request.entry result }
{
    let _asked = read_close_session_request(&mut request)?;
    refuse_more(&request)
}

pub(crate) fn browse_request<'a>(
    alloc: Global,
    mut request: Cursor<'a>,
) -> Result<BrowseRequest<'a>, Status>
    ensures { Asks service.Browse
        (λ asked. Browse (map browse_fields asked.nodes.items)) request.entry result }
{
    let asked = read_browse_request(alloc, &mut request)?;
    refuse_more(&request)?;
    Ok(asked)
}

pub(crate) fn read_request<'a>(
    alloc: Global,
    mut request: Cursor<'a>,
) -> Result<ReadRequest<'a>, Status>
    ensures { Asks service.Read (λ asked. Read (read_asked asked)) request.entry result }
{
    let asked = read_read_request(alloc, &mut request)?;
    refuse_more(&request)?;
    Ok(asked)
}

pub(crate) fn history_read_request<'a>(
    alloc: Global,
    mut request: Cursor<'a>,
) -> Result<HistoryReadRequest<'a>, Status>
    ensures { Asks service.HistoryRead
        (λ asked. HistoryRead (history_asked asked)) request.entry result }
{
    let asked = read_history_read_request(alloc, &mut request)?;
    refuse_more(&request)?;
    Ok(asked)
}

pub(crate) fn history_update_request<'a>(
    alloc: Global,
    mut request: Cursor<'a>,
) -> Result<HistoryUpdateRequest<'a>, Status>
    ensures asks { Asks service.HistoryUpdate
        (λ asked. HistoryUpdate (map details_of asked.details.items)) request.entry result }
    ensures short { IfOk result
        (λ asked. AllByRecursion HasShortValues (map details_of asked.details.items)) }
{
    let asked = read_history_update_request(alloc, &mut request)?;
    refuse_more(&request)?;
    Ok(asked)
}
