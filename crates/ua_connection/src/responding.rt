//! Messages, each answered by its response in chunks (Part 4, 7.33 to 7.35).

ghost use Rattle.std.specs.Prelude.{◌≡◌, List, [], Some, OnOk, IfErr};
ghost use Rattle.archive.specs.Store.{StepResult};
ghost use Rattle.ua_binary.specs.declared.codes.TheConstants.Status.{BAD_OUT_OF_MEMORY};
ghost use Rattle.ua_channel.specs.Taking.{IsReady};
ghost use Rattle.ua_channel.specs.Sending.{Writes, message_bytes, chunk_count};
ghost use Rattle.historian.specs.Services.{site_of};
ghost use Rattle.historian.specs.Answers.{service_fault};
ghost use Rattle.ua_connection.specs.Client.{Client, fitted, responded};
ghost use Rattle.ua_connection.specs.Turns.{IsOwn, Answered, SendsTurn, ending_of, client_after, standing_of};

use crate::turn::Step;
use archive::Archive;
use counted_io::ServeFault;
use historian::{ClientMessage, RequestContext, Server, answer_message, put_service_fault};
use ua_binary::{Status, Ticks};
use ua_channel::{Channel, ChannelFault};
use ua_session::Sessions;

/// The most bytes of memory that a connection keeps for responses that it will make.
const KEPT: usize = 65_536;

/// A whole message of a channel.
#[derive(Drop)]
pub(crate) struct Message<'a> {
    /// By which its response is told from others (Part 6, 6.7.2.4).
    pub request_id: u32,
    /// When it is answered.
    pub now: Ticks,
    /// Its bytes.
    pub bytes: &'a [u8],
}

/// Makes a ServiceFault (Part 4, 7.35) in place of what stands in `body`. The one error is `OutOfMemory`.
#[inline(never)]
fn make_fault(
    body: &mut Vec<u8>,
    context: RequestContext,
    status: Status,
) -> Result<(), ChannelFault>
    ensures ok { OnOk result
        (body.new.items ≡ service_fault context.now context.handle status) }
    ensures err { IfErr result (λ fault. fault ≡ ChannelFault.OutOfMemory) }
{
    body.clear();
    match put_service_fault(body, context, status) {
        Ok(()) => Ok(()),
        Err(_) => Err(ChannelFault::OutOfMemory),
    }
}

/// Makes of a body that isn't within what the client takes a ServiceFault that says so. The one error is `OutOfMemory`.
#[inline(always)]
fn replace_if_too_large(
    channel: &Channel,
    context: RequestContext,
    body: &mut Vec<u8>,
) -> Result<(), ChannelFault>
    ensures ok { OnOk result
        (body.new.items ≡ fitted channel.now context.now context.handle body.old.items) }
    ensures err { IfErr result (λ fault. fault ≡ ChannelFault.OutOfMemory) }
{
    if channel.fits(body.len()) {
        return Ok(());
    }
    make_fault(body, context, Status::BAD_RESPONSE_TOO_LARGE)
}

/// Sends the response in `body`, or where it isn't within what the client takes a ServiceFault that says so. No more is kept of
/// the memory of `body` than `KEPT` bytes.
#[inline(always)]
fn send_fitting(
    channel: &mut Channel,
    request_id: u32,
    context: RequestContext,
    body: &mut Vec<u8>,
    out: &mut Vec<u8>,
) -> Result<(), ChannelFault>
    requires { IsReady channel.old }
    ensures { Writes channel.old
        (message_bytes channel.old request_id
        (fitted channel.old context.now context.handle body.old.items))
        (chunk_count channel.old (fitted channel.old context.now context.handle body.old.items))
        result out.old.items out.new.items channel.new }
{
    match replace_if_too_large(channel, context, body) {
        Ok(()) => {
            let sent = channel.wrap(request_id, body.as_slice(), out);
            body.clear();
            body.shrink_to(KEPT);
            sent
        }
        Err(fault) => Err(fault),
    }
}

/// Sends a ServiceFault that says that memory ran out.
#[inline(never)]
fn send_starved(
    channel: &mut Channel,
    request_id: u32,
    context: RequestContext,
    body: &mut Vec<u8>,
    out: &mut Vec<u8>,
) -> Result<Step, ServeFault>
    requires { IsReady channel.old }
    ensures sends { SendsTurn channel.old request_id
        (service_fault context.now context.handle BAD_OUT_OF_MEMORY) result out.old.items
        out.new.items channel.new }
    ensures own { IsOwn ⊥ 65536 result }
{
    match make_fault(body, context, Status::BAD_OUT_OF_MEMORY) {
        Ok(()) => {}
        Err(_) => return Err(ServeFault::OutOfMemory),
    }
    match channel.wrap(request_id, body.as_slice(), out) {
        Ok(()) => Ok(Step::Continues),
        Err(_) => Err(ServeFault::OutOfMemory),
    }
}

/// Answers a message by a response that is made in `body`, whatever stands there; where memory for its response is wanting, by a ServiceFault that says so, and what the service did
/// stands.
#[inline(always)]
pub(crate) fn respond<A: Archive>(
    server: &mut Server<A>,
    channel: &mut Channel,
    sessions: &mut Sessions,
    message: Message<'_>,
    body: &mut Vec<u8>,
    out: &mut Vec<u8>,
) -> Result<Step, ServeFault>
    requires { IsReady channel.old }
    ensures answered { (client : Client) → (used : List StepResult)
        × Answered (A.state server.old.replica.archive) (A.state server.new.replica.archive)
        (λ R.
        responded (site_of server.old.settings (A.state server.old.replica.archive))
        (standing_of client sessions.old R) channel.old message.entry.request_id
        message.entry.bytes.now message.entry.now)
        (record { marks = used; readings = [] }) out.old.items out.new.items (ending_of result)
        (client_after client result (Some channel.new) sessions.new) }
    ensures settings { server.new.settings ≡ server.old.settings }
    ensures own { IsOwn ⊥ 65536 result }
{
    body.clear();
    let (request_id, now) = (message.request_id, message.now);
    let request = ClientMessage::read(message.bytes);
    let handle = request.handle();
    let context = RequestContext { now, handle };
    match answer_message(server, sessions, now, request, body) {
        Ok(()) => match send_fitting(channel, request_id, context, body, out) {
            Ok(()) => Ok(Step::Continues),
            Err(_) => send_starved(channel, request_id, context, body, out),
        },
        Err(_) => send_starved(channel, request_id, context, body, out),
    }
}
