//! Messages of a client, and their answers (Part 4, 7.33 to 7.35).

ghost use Rattle.std.specs.Prelude.{◌≡◌, [], List, IfOk, OnOk};
ghost use Rattle.ua_binary.specs.Binary.{node_of};
ghost use Rattle.archive.specs.Store.{StepResult};
ghost use Rattle.archive.specs.Steps.{Refines};
ghost use Rattle.historian.specs.Answers.{Response, TellsResponse, service_fault};
ghost use Rattle.historian.specs.Requests.{call_in};
ghost use Rattle.historian.specs.Services.{site_of, answered_call, answered_request};
ghost use Rattle.historian.specs.Telling.{IsEncodable, ReportsAnswer, Written, Responds, asked_of};

use crate::answer::Answer;
use crate::browsing::browse;
use crate::histories::read_history;
use crate::reading::read;
use crate::responses::{RequestContext, put_service_fault};
use crate::server::Server;
use crate::service::{ClientMessage, Service, ServiceRequest};
use crate::sessions::{activate_session, close_session, create_session, get_endpoints};
use crate::updating::update_history;
use archive::Archive;
use std::alloc::AllocError;
use ua_binary::{Status, Ticks};
use ua_session::Sessions;

/// Writes the response that tells an answer; or tells why there is none, or that memory was wanting.
fn write_response(
    answer: Result<Answer, Status>,
    context: RequestContext,
    body: &mut Vec<u8>,
) -> Result<(), Status>
    requires short { IfOk answer IsEncodable }
    requires empty { body.old.items ≡ [] }
    ensures { (told : Response) → ReportsAnswer told answer
        → Written context.now context.handle told result body.new.items }
{
    answer?.put(body, context)?;
    Ok(())
}

/// Performs a service, and writes its response.
fn serve<A: Archive>(
    server: &mut Server<A>,
    sessions: &mut Sessions,
    context: RequestContext,
    request: ServiceRequest<'_>,
    body: &mut Vec<u8>,
) -> Result<(), Status>
    requires { body.old.items ≡ [] }
    ensures responds { Responds (A.state server.old.replica.archive)
        (A.state server.new.replica.archive)
        (answered_call (site_of server.old.settings (A.state server.old.replica.archive))
        context.now (node_of request.entry.token)
        (call_in request.entry.service request.entry.body) sessions.old) sessions.new context.now
        context.handle result body.new.items }
    ensures settings { server.new.settings ≡ server.old.settings }
{
    let answer = match request.service {
        Service::GetEndpoints => get_endpoints(server.alloc, &server.settings, request.body),
        Service::CreateSession => {
            create_session(server.alloc, &server.settings, sessions, request.body)
        }
        Service::ActivateSession => {
            activate_session(&server.settings, sessions, request.token, request.body)
        }
        Service::CloseSession => close_session(sessions, request.token, request.body),
        Service::Browse => {
            return browse(server, sessions, context, request, body);
        }
        Service::Read => return read(server, sessions, context, request, body),
        Service::HistoryRead => {
            return read_history(server, sessions, context, request, body);
        }
        Service::HistoryUpdate => update_history(server, sessions, context.now, request),
    };
    write_response(answer, context, body)
}

/// Performs what a message asks, and writes its response.
fn perform<A: Archive>(
    server: &mut Server<A>,
    sessions: &mut Sessions,
    now: Ticks,
    message: ClientMessage<'_>,
    body: &mut Vec<u8>,
) -> Result<(), Status>
    requires { body.old.items ≡ [] }
    ensures responds { Responds (A.state server.old.replica.archive)
        (A.state server.new.replica.archive)
        (answered_request (site_of server.old.settings (A.state server.old.replica.archive)) now
        (asked_of message.entry.request) sessions.old) sessions.new now message.entry.handle result
        body.new.items }
    ensures settings { server.new.settings ≡ server.old.settings }
{
    let handle = message.handle();
    let context = RequestContext { now, handle };
    match message.request {
        Ok(request) => serve(server, sessions, context, request, body),
        Err(status) => Err(status),
    }
}

/// Makes the ServiceFault (Part 4, 7.35) that tells a status, in place of what stands in `body`.
fn refuse(body: &mut Vec<u8>, context: RequestContext, status: Status) -> Result<(), AllocError>
    ensures { OnOk result (body.new.items ≡ service_fault context.now context.handle status) }
{
    body.clear();
    match put_service_fault(body, context, status) {
        Ok(()) => Ok(()),
        Err(_) => Err(AllocError),
    }
}

/// Answers a message of a client: performs what it asks, and makes the bytes of the response in `body`, which is empty.
///
/// Where the type id can't be read, the service isn't served, or the header or the body can't be read, where the session
/// isn't there or wasn't activated, and where the service refuses the request as a whole, the response is a ServiceFault
/// that says so, and so it is where the response is longer than any that is sent. What is written has a spelling, so it is
/// read again. The one error is want of memory for the response; what the service did stands then.
pub fn answer_message<A: Archive>(
    server: &mut Server<A>,
    sessions: &mut Sessions,
    now: Ticks,
    message: ClientMessage<'_>,
    body: &mut Vec<u8>,
) -> Result<(), AllocError>
    requires { body.old.items ≡ [] }
    ensures answers { (used : List StepResult) × (told : Response)
        × Refines (A.state server.old.replica.archive) (A.state server.new.replica.archive) used
        (answered_request (site_of server.old.settings (A.state server.old.replica.archive)) now
        (asked_of message.entry.request) sessions.old) (told, sessions.new)
        × OnOk result (TellsResponse now message.entry.handle told body.new.items) }
    ensures settings { server.new.settings ≡ server.old.settings }
{
    let handle = message.handle();
    let context = RequestContext { now, handle };
    match perform(server, sessions, now, message, body) {
        Ok(()) => Ok(()),
        Err(Status::BAD_OUT_OF_MEMORY) => Err(AllocError),
        Err(status) => refuse(body, context, status),
    }
}
