//! A client: its channel and sessions, and its chunks, each answered by what it comes to (Part 6, 6.7).

ghost use Rattle.std.specs.Prelude.{◌≡◌, List, Some};
ghost use Rattle.archive.specs.Store.{StepResult};
ghost use Rattle.ua_channel.specs.Taking.{LeavesReady};
ghost use Rattle.historian.specs.Services.{site_of};
ghost use Rattle.ua_connection.specs.Environments.{Environment};
ghost use Rattle.ua_connection.specs.Client.{Client, opened, answer_to_taken};
ghost use Rattle.ua_connection.specs.Turns.{IsOwn, AnsweredHere, Answered, ending_of, client_after, standing_of};

use crate::clock::Clock;
use crate::greeting::greet;
use crate::outcome::Served;
use crate::responding::{Message, respond};
use crate::turn::{Step, refuse};
use archive::Archive;
use counted_io::ServeFault;
use historian::Server;
use std::alloc::Global;
use ua_binary::{Status, Ticks};
use ua_channel::{Channel, OpenRequest, Taken};
use ua_session::Sessions;
use uacp::{Chunk, Kind, UacpFault};

/// Answers an opening (Part 4, 5.6.2).
fn open(
    channel: &mut Channel,
    request: &OpenRequest,
    now: Ticks,
    out: &mut Vec<u8>,
) -> Result<Step, ServeFault>
    ensures answered { (client : Client) → (used : List StepResult)
        × AnsweredHere
        (λ R. opened (record { client = client; content = R }) channel.old request.now now) used
        out.old.items out.new.items (ending_of result)
        (client_after client result (Some channel.new) client.sessions) }
    ensures own { IsOwn ⊥ 65536 result }
{
    match channel.put_opened(request, now, out) {
        Ok(()) => Ok(Step::Continues),
        Err(_) => refuse(Status::BAD_OUT_OF_MEMORY, out),
    }
}

/// Answers what a chunk came to, where it asks for an answer. The clock is read once for an opening and for a whole message,
/// and for nothing else.
fn answer_item<A: Archive, C: Clock>(
    server: &mut Server<A>,
    channel: &mut Channel,
    sessions: &mut Sessions,
    taken: Taken<'_>,
    clock: &mut C,
    body: &mut Vec<u8>,
    out: &mut Vec<u8>,
) -> Result<Step, ServeFault>
    requires ready { LeavesReady taken channel.old }
    ensures answered { (client : Client)
        → (used : Environment) × C.gave clock.old used.readings clock.new
        × Answered (A.state server.old.replica.archive) (A.state server.new.replica.archive)
        (λ R.
        answer_to_taken (site_of server.old.settings (A.state server.old.replica.archive))
        (standing_of client sessions.old R) channel.old taken.entry) used out.old.items
        out.new.items (ending_of result)
        (client_after client result (Some channel.new) sessions.new) }
    ensures settings { server.new.settings ≡ server.old.settings }
    ensures own { IsOwn ⊥ 65536 result }
{
    match taken {
        Taken::Nothing => Ok(Step::Continues),
        Taken::Aborted(_) => Ok(Step::Continues),
        Taken::Opening(request) => open(channel, &request, Ticks(clock.now()), out),
        Taken::Message(request_id, message) => {
            let message = Message {
                request_id,
                now: Ticks(clock.now()),
                bytes: message.as_slice(),
            };
            respond(server, channel, sessions, message, body, out)
        }
        Taken::Closed => Ok(Step::Ended(Served::Closed)),
    }
}

/// The channel of a client between two chunks, with its sessions.
#[derive(Drop)]
pub(crate) struct ClientChannel {
    /// Its channel, from the Acknowledge on.
    pub channel: Option<Channel>,
    /// Its sessions.
    pub sessions: Sessions,
    /// The chunks so far.
    pub taken: u32,
    // where responses are made
    body: Vec<u8>,
}

impl ClientChannel {
    ghost use Rattle.std.specs.Prelude.{◌≡◌, ◌≤◌, List, Some, None};
    ghost use Rattle.ua_session.specs.Sessions.{no_sessions};
    ghost use Rattle.ua_channel.specs.Taking.{piece_of};
    ghost use Rattle.historian.specs.Services.{site_of};
    ghost use Rattle.ua_connection.specs.Environments.{Environment};
    ghost use Rattle.ua_connection.specs.Client.{Client};
    ghost use Rattle.ua_connection.specs.Turns.{IsOwn, Answered, ending_of, client_after, standing_of, channel_chunk_answer_or_starved, chunk_answer_or_starved};

    /// Of whom nothing came yet.
    pub fn new(alloc: Global) -> ClientChannel
        ensures channel { result.channel ≡ None }
        ensures sessions { result.sessions ≡ no_sessions }
        ensures taken { result.taken ≡ 0 }
    {
        ClientChannel {
            channel: None,
            sessions: Sessions::new(alloc),
            taken: 0,
            body: Vec::new(alloc),
        }
    }

    /// Takes a chunk of the channel, and answers it where it asks for an answer.
    fn answer_on_channel<A: Archive, C: Clock>(
        &mut self,
        server: &mut Server<A>,
        chunk: Chunk<'_>,
        clock: &mut C,
        out: &mut Vec<u8>,
    ) -> Result<Step, ServeFault>
        ensures answered { (client : Client)
            → (used : Environment) × C.gave clock.old used.readings clock.new
            × Answered (A.state server.old.replica.archive) (A.state server.new.replica.archive)
            (λ R.
            channel_chunk_answer_or_starved
            (site_of server.old.settings (A.state server.old.replica.archive))
            (standing_of client self.old.sessions R) self.old.channel (piece_of chunk.entry)) used
            out.old.items out.new.items (ending_of result)
            (client_after client result self.new.channel self.new.sessions) }
        ensures settings { server.new.settings ≡ server.old.settings }
        ensures taken { self.new.taken ≡ self.old.taken }
        ensures own { IsOwn ⊥ 65536 result }
    {
        let Some(channel) = &mut self.channel else {
            return refuse(UacpFault::TypeInvalid.code(), out);
        };
        match channel.take(chunk) {
            Ok(taken) => answer_item(
                server,
                channel,
                &mut self.sessions,
                taken,
                clock,
                &mut self.body,
                out,
            ),
            Err(fault) => refuse(fault.code(), out),
        }
    }

    /// Answers a whole chunk.
    pub fn answer<A: Archive, C: Clock>(
        &mut self,
        server: &mut Server<A>,
        chunk: Chunk<'_>,
        clock: &mut C,
        out: &mut Vec<u8>,
    ) -> Result<Step, ServeFault>
        ensures answered { (client : Client)
            → (used : Environment) × C.gave clock.old used.readings clock.new
            × Answered (A.state server.old.replica.archive) (A.state server.new.replica.archive)
            (λ R.
            chunk_answer_or_starved
            (site_of server.old.settings (A.state server.old.replica.archive))
            (standing_of (record client { channel = self.old.channel }) self.old.sessions R)
            (piece_of chunk.entry)) used out.old.items out.new.items (ending_of result)
            (client_after client result self.new.channel self.new.sessions) }
        ensures settings { server.new.settings ≡ server.old.settings }
        ensures taken { self.new.taken ≡ self.old.taken }
        ensures own { IsOwn ⊥ 65536 result }
    {
        match chunk.kind {
            Kind::Hello => greet(server.alloc, chunk.body, &mut self.channel, out),
            Kind::Open | Kind::Close | Kind::Message => {
                self.answer_on_channel(server, chunk, clock, out)
            }
        }
    }
}
