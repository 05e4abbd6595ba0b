//! The greeting: what a client asks for, and what the server answers.

ghost use Rattle.std.specs.Prelude.{◌≡◌};
ghost use Rattle.ua_binary.specs.Format.{Reads, Puts, PutsPart};
ghost use Rattle.uacp.specs.Greeting.{hello, hello_at, ack_of, acknowledge, error};

use crate::types::UacpFault;
use ua_binary::{BinaryFault, Cursor, Status, or_undone, put_block, put_status, put_u32};

/// What a client asks for (Part 6, 7.1.2.3). Its URL is not kept.
#[derive(Clone, Copy, Debug, PartialEq, Eq)]
pub struct Hello {
    /// The newest version of the protocol that the client speaks.
    pub version: u32,
    /// The greatest chunk that the client takes, in bytes.
    pub receive_size: u32,
    /// The greatest chunk that the client sends, in bytes.
    pub send_size: u32,
    /// The greatest message that the client takes, in bytes; 0 is no limit.
    pub max_message: u32,
    /// The most chunks of one message that the client takes; 0 is no limit.
    pub max_chunks: u32,
}

/// The sizes that the server grants (Part 6, 7.1.2.4).
#[derive(Clone, Copy, Debug, PartialEq, Eq)]
pub struct Ack {
    /// The greatest chunk that the server takes, in bytes.
    pub receive_size: u32,
    /// The greatest chunk that the server sends, in bytes.
    pub send_size: u32,
}

#[tactic(auto, unfolding(crate::specs::Greeting::hello))]
fn read_fields(cursor: &mut Cursor<'_>) -> Result<Hello, BinaryFault>
    ensures { Reads (λ v. v) result cursor.old cursor.new hello.read }
{
    let mut next = cursor.fork();
    let version = next.u32()?;
    let receive_size = next.u32()?;
    let send_size = next.u32()?;
    let max_message = next.u32()?;
    let max_chunks = next.u32()?;
    let _url = next.text()?;
    *cursor = next;
    Ok(Hello {
        version,
        receive_size,
        send_size,
        max_message,
        max_chunks,
    })
}

/// The Hello that all of a chunk's body spells: five numbers and a String (Part 6, 7.1.2.3).
/// Bytes too few or too many, a length below -1 and a URL that is not UTF-8 are `HelloInvalid`.
/// It takes no memory.
pub fn read_hello(body: &[u8]) -> Result<Hello, UacpFault>
    ensures { result ≡ hello_at body.now }
{
    let mut cursor = Cursor::new(body);
    match read_fields(&mut cursor) {
        Ok(hello) if cursor.rest().is_empty() => Ok(hello),
        _ => Err(UacpFault::HelloInvalid),
    }
}

/// What the server grants: at most 65,536 bytes a chunk, either way (Part 6, 7.1.2.4).
/// A receive or send size below 8,192 is `BuffersTooSmall`.
pub fn answer_hello(hello: &Hello) -> Result<Ack, UacpFault>
    ensures { result ≡ ack_of hello.now }
{
    if hello.receive_size < 8192 || hello.send_size < 8192 {
        return Err(UacpFault::BuffersTooSmall);
    }
    Ok(Ack {
        receive_size: hello.send_size.min(65536),
        send_size: hello.receive_size.min(65536),
    })
}

/// An error leaves a part.
#[tactic(auto, using(ua_binary::proofs::Kept::kept), unfolding(crate::specs::Greeting::acknowledge))]
fn put_ack_parts(out: &mut Vec<u8>, ack: &Ack) -> Result<(), BinaryFault>
    ensures { PutsPart BinaryFault.OutOfMemory result out.old.items out.new.items
        (acknowledge.canon ack.now) }
{
    put_block(out, b"ACKF")?;
    put_u32(out, 28)?;
    put_u32(out, 0)?;
    put_u32(out, ack.receive_size)?;
    put_u32(out, ack.send_size)?;
    put_u32(out, 4_194_304)?;
    put_u32(out, 64)?;
    Ok(())
}

/// Appends an Acknowledge (Part 6, 7.1.2.4): 28 bytes, the header among them, of version 0, which
/// allows messages of 4,194,304 bytes and 64 chunks. The one error is `OutOfMemory`, which leaves
/// the vector as it was.
pub fn put_ack(out: &mut Vec<u8>, ack: &Ack) -> Result<(), UacpFault>
    ensures { Puts UacpFault.OutOfMemory result out.old.items out.new.items
        (acknowledge.canon ack.now) }
{
    let len = out.len();
    let put = put_ack_parts(out, ack);
    or_undone(put, out, len)?;
    Ok(())
}

/// An error leaves a part.
#[tactic(auto, using(ua_binary::proofs::Kept::kept), unfolding(crate::specs::Greeting::error))]
fn put_error_parts(out: &mut Vec<u8>, code: Status) -> Result<(), BinaryFault>
    ensures { PutsPart BinaryFault.OutOfMemory result out.old.items out.new.items (error.canon code) }
{
    put_block(out, b"ERRF")?;
    put_u32(out, 16)?;
    put_status(out, code)?;
    put_u32(out, u32::MAX)?;
    Ok(())
}

/// Appends an Error with this status code and a null reason (Part 6, 7.1.2.5): 16 bytes, the header
/// among them. The one error is `OutOfMemory`, which leaves the vector as it was.
pub fn put_error(out: &mut Vec<u8>, code: Status) -> Result<(), UacpFault>
    ensures { Puts UacpFault.OutOfMemory result out.old.items out.new.items (error.canon code) }
{
    let len = out.len();
    let put = put_error_parts(out, code);
    or_undone(put, out, len)?;
    Ok(())
}
