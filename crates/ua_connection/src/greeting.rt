//! The greeting (Part 6, 7.1.2.3 and 7.1.2.4).

ghost use Rattle.std.specs.Prelude.{◌≡◌, ◌≤◌, List, Ok};
ghost use Rattle.uacp.specs.Greeting.{hello_at};
ghost use Rattle.archive.specs.Store.{StepResult};
ghost use Rattle.ua_connection.specs.Client.{Client, acknowledged, greeted};
ghost use Rattle.ua_connection.specs.Turns.{IsOwn, AnsweredHere, ending_of, client_after};

use crate::turn::{Step, refuse};
use counted_io::ServeFault;
use std::alloc::Global;
use ua_binary::Status;
use ua_channel::Channel;
use uacp::{Ack, Hello, answer_hello, put_ack, read_hello};

/// Makes the Acknowledge of a Hello, whose channel begins.
fn acknowledge(
    alloc: Global,
    hello: &Hello,
    ack: &Ack,
    channel: &mut Option<Channel>,
    out: &mut Vec<u8>,
) -> Result<Step, ServeFault>
    requires { ack.now.receive_size ≤ 65536 }
    ensures answered { (client : Client) → (used : List StepResult)
        × AnsweredHere
        (λ R. acknowledged (record { client = client; content = R }) hello.now (Ok ack.now)) used
        out.old.items out.new.items (ending_of result)
        (client_after client result channel.new client.sessions) }
    ensures own { IsOwn ⊥ 65536 result }
{
    match put_ack(out, ack) {
        Ok(()) => {
            *channel = Some(Channel::new(alloc, hello, ack));
            Ok(Step::Acknowledged(ack.receive_size))
        }
        Err(_) => refuse(Status::BAD_OUT_OF_MEMORY, out),
    }
}

/// Acknowledges a Hello, or refuses it.
pub(crate) fn greet(
    alloc: Global,
    body: &[u8],
    channel: &mut Option<Channel>,
    out: &mut Vec<u8>,
) -> Result<Step, ServeFault>
    ensures answered { (client : Client) → (used : List StepResult)
        × AnsweredHere
        (λ R. greeted (record { client = client; content = R }) (hello_at body.now)) used
        out.old.items out.new.items (ending_of result)
        (client_after client result channel.new client.sessions) }
    ensures own { IsOwn ⊥ 65536 result }
{
    let hello = match read_hello(body) {
        Ok(hello) => hello,
        Err(fault) => return refuse(fault.code(), out),
    };
    match answer_hello(&hello) {
        Ok(ack) => acknowledge(alloc, &hello, &ack, channel, out),
        Err(fault) => refuse(fault.code(), out),
    }
}
