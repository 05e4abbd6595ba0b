//! Chunks that a client writes and takes (Part 6, 6.7.2 and 7.1.2), under the policy None.

ghost use Rattle.uacp.specs.declared.types.Letter.TheVariants.{Final, More, Abort};
ghost use Rattle.std.specs.Prelude.{◌≡◌, ◌≤◌, ◌<◌, ◌^◌, ◌-◌, ◌++◌, ◌∷◌, [], pos, length, take, drop, true, Ok, codes, Some, OnOk, IfOk, IfSome, MatchResult};
ghost use Rattle.ua_binary.specs.Format.{Puts, PutsPart};
ghost use Rattle.ua_binary.specs.Binary.{node_id};
ghost use Rattle.ua_binary.specs.declared.values.NodeId.TheVariants.{Numeric};
ghost use Rattle.ua_channel.specs.Headers.{policy_none, security_header, request_header, bare_header, open_request, open_response};
ghost use Rattle.ua_channel.specs.Sending.{number_after, message_head, message_chunk, AreShort, IsNumber, PutsChunks};
ghost use Rattle.ua_client.specs.Answers.{opened_fields, chunk_refusal, is_good, opened_front};
ghost use Rattle.ua_client.specs.Asking.{greeting, opening, closing, PutsMessage};

use crate::fault::ClientFault;
use crate::requests::{Header, put_request_head};
use crate::responses::{Opened, is_good, read_open_response, refusal_in};
use std::alloc::Global;
use ua_binary::{
    BinaryFault, Cursor, NodeIdRef, Ticks, or_undone, put_block, put_bytes, put_i32, put_text,
    put_u32,
};
use uacp::{Hello, Letter, Pieces, split};

/// What tells a chunk of channel 1 from others (Part 6, 6.7.2).
#[derive(Clone, Copy, Debug)]
pub struct ChunkIds {
    /// The token of the channel.
    pub token: u32,
    /// The id of the request, which all chunks of a message have.
    pub request_id: u32,
    /// The sequence number, by one greater with each chunk.
    pub number: u32,
}

/// The URI of the security policy None (Part 7).
const POLICY_NONE: &str = "http://opcfoundation.org/UA/SecurityPolicy#None";

/// The URI of the policy under which a channel is opened.
#[tactic(auto, unfolding(ua_channel::specs::Headers::policy_none))]
fn policy_uri() -> &'static str
    ensures value { result.now ≡ policy_none }
    ensures few { length result.now < 2 ^ 31 }
{
    POLICY_NONE
}

#[tactic(auto, using(ua_binary::proofs::Kept::kept, crate::proofs::Sizes::greeting_size), unfolding(uacp::specs::Greeting::hello))]
fn put_greeting_parts(out: &mut Vec<u8>, hello: &Hello) -> Result<(), BinaryFault>
    ensures { PutsPart BinaryFault.OutOfMemory result out.old.items out.new.items
        (greeting hello.now) }
{
    put_block(out, b"HELF")?;
    put_u32(out, 32)?;
    put_u32(out, hello.version)?;
    put_u32(out, hello.receive_size)?;
    put_u32(out, hello.send_size)?;
    put_u32(out, hello.max_message)?;
    put_u32(out, hello.max_chunks)?;
    put_text(out, None)?;
    Ok(())
}

/// Writes a Hello (Part 6, 7.1.2.3) without a URL: 32 bytes, the header among them. The one error is `OutOfMemory`, and then the
/// vector is as it was.
pub fn put_greeting(out: &mut Vec<u8>, hello: &Hello) -> Result<(), BinaryFault>
    ensures { Puts BinaryFault.OutOfMemory result out.old.items out.new.items
        (greeting hello.now) }
{
    let len = out.len();
    let put = put_greeting_parts(out, hello);
    or_undone(put, out, len)
}

/// The security header of an OPN chunk: this channel, policy None, no certificate and no thumbprint.
#[tactic(auto, using(ua_binary::proofs::Kept::kept), unfolding(ua_channel::specs::Headers::security_header))]
fn put_security_parts(out: &mut Vec<u8>, channel_id: u32) -> Result<(), BinaryFault>
    ensures { PutsPart BinaryFault.OutOfMemory result out.old.items out.new.items
        (security_header.canon (channel_id, Some policy_none)) }
{
    put_u32(out, channel_id)?;
    put_text(out, Some(policy_uri()))?;
    put_bytes(out, None)?;
    put_bytes(out, None)?;
    Ok(())
}

fn put_security(out: &mut Vec<u8>, channel_id: u32) -> Result<(), BinaryFault>
    ensures { Puts BinaryFault.OutOfMemory result out.old.items out.new.items
        (security_header.canon (channel_id, Some policy_none)) }
{
    let len = out.len();
    let put = put_security_parts(out, channel_id);
    or_undone(put, out, len)
}

/// The type id of a request, and a header that says nothing but the handle.
fn put_bare_head(out: &mut Vec<u8>, type_id: u32, handle: u32) -> Result<(), BinaryFault>
    ensures { Puts BinaryFault.OutOfMemory result out.old.items out.new.items
        (node_id.canon (Numeric 0 type_id) ++ request_header.canon (bare_header handle)) }
{
    put_request_head(
        out,
        type_id,
        Header {
            session: NodeIdRef::Numeric(0, 0),
            timestamp: Ticks(0),
            handle,
            timeout: 0,
        },
    )
}

#[tactic(auto, using(ua_binary::proofs::Kept::kept), unfolding(ua_channel::specs::Headers::open_request))]
fn put_open_request_parts(out: &mut Vec<u8>, handle: u32, lifetime: u32) -> Result<(), BinaryFault>
    ensures { PutsPart BinaryFault.OutOfMemory result out.old.items out.new.items
        (open_request.canon
        (record { handle = handle; request_type = pos 0; mode = pos 1; lifetime = lifetime })) }
{
    put_bare_head(out, 446, handle)?;
    put_u32(out, 0)?;
    put_i32(out, 0)?;
    put_i32(out, 1)?;
    put_bytes(out, None)?;
    put_u32(out, lifetime)?;
    Ok(())
}

/// The request for a channel without security (Part 4, 5.6.2).
fn put_open_request(out: &mut Vec<u8>, handle: u32, lifetime: u32) -> Result<(), BinaryFault>
    ensures { Puts BinaryFault.OutOfMemory result out.old.items out.new.items
        (open_request.canon
        (record { handle = handle; request_type = pos 0; mode = pos 1; lifetime = lifetime })) }
{
    let len = out.len();
    let put = put_open_request_parts(out, handle, lifetime);
    or_undone(put, out, len)
}

#[tactic(auto, using(ua_binary::proofs::Kept::kept, crate::proofs::Sizes::opening_size), unfolding(crate::specs::Asking::opening, ua_channel::specs::Headers::sequence_header))]
fn put_opening_parts(
    out: &mut Vec<u8>,
    number: u32,
    request_id: u32,
    lifetime: u32,
) -> Result<(), BinaryFault>
    ensures { PutsPart BinaryFault.OutOfMemory result out.old.items out.new.items
        (opening number request_id lifetime) }
{
    put_block(out, b"OPNF")?;
    put_u32(out, 132)?;
    put_security(out, 0)?;
    put_u32(out, number)?;
    put_u32(out, request_id)?;
    put_open_request(out, request_id, lifetime)?;
    Ok(())
}

/// Writes the OPN chunk that asks for a channel (Part 4, 5.6.2) under the policy None: 132 bytes, with this sequence number, this
/// request id, which is the handle too, and this lifetime in milliseconds. The one error is `OutOfMemory`, and then the vector is
/// as it was.
pub fn put_opening(
    out: &mut Vec<u8>,
    number: u32,
    request_id: u32,
    lifetime: u32,
) -> Result<(), BinaryFault>
    ensures { Puts BinaryFault.OutOfMemory result out.old.items out.new.items
        (opening number request_id lifetime) }
{
    let len = out.len();
    let put = put_opening_parts(out, number, request_id, lifetime);
    or_undone(put, out, len)
}

#[tactic(auto, using(ua_binary::proofs::Kept::kept, crate::proofs::Sizes::closing_size), unfolding(crate::specs::Asking::closing, ua_channel::specs::Headers::message_header))]
fn put_closing_parts(out: &mut Vec<u8>, ids: ChunkIds) -> Result<(), BinaryFault>
    ensures { PutsPart BinaryFault.OutOfMemory result out.old.items out.new.items
        (closing ids.token ids.number ids.request_id) }
{
    put_block(out, b"CLOF")?;
    put_u32(out, 57)?;
    put_u32(out, 1)?;
    put_u32(out, ids.token)?;
    put_u32(out, ids.number)?;
    put_u32(out, ids.request_id)?;
    put_bare_head(out, 452, ids.request_id)?;
    Ok(())
}

/// Writes the CLO chunk that ends channel 1 (Part 4, 5.6.3): 57 bytes, with these numbers; the request id is the handle too. The
/// one error is `OutOfMemory`, and then the vector is as it was.
pub fn put_closing(out: &mut Vec<u8>, ids: ChunkIds) -> Result<(), BinaryFault>
    ensures { Puts BinaryFault.OutOfMemory result out.old.items out.new.items
        (closing ids.token ids.number ids.request_id) }
{
    let len = out.len();
    let put = put_closing_parts(out, ids);
    or_undone(put, out, len)
}

/// The sequence number after this one.
pub(crate) fn following(number: u32) -> u32
    requires { IsNumber number }
    ensures value { result ≡ number_after number 1 }
    ensures within { IsNumber result }
{
    if number == 4_294_966_272 {
        1
    } else {
        number + 1
    }
}

fn letter_of(pieces: &Pieces<'_>) -> Letter
    ensures { result ≡ (elim pieces.now [ [] ↦ Final | piece ∷ pieces ↦ More ]) }
{
    if pieces.is_empty() {
        Letter::Final
    } else {
        Letter::More
    }
}

/// The letter that a chunk has behind MSG.
fn mark_of(letter: Letter) -> u8
    ensures { result ∷ [] ≡ (elim letter [ Final ↦ codes "F" | More ↦ codes "C" | Abort ↦ codes "A" ]) }
{
    match letter {
        Letter::Final => b'F',
        Letter::More => b'C',
        Letter::Abort => b'A',
    }
}

/// What stands before a piece in its MSG chunk: the letters, the chunk's size, channel 1, token, sequence number and request id.
#[tactic(auto, unfolding(ua_channel::specs::Headers::message_header, ua_binary::specs::Binary::unsigned))]
fn message_head(letter: Letter, size: u32, ids: ChunkIds) -> [u8; 24]
    ensures { result ≡ message_head letter size ids.token ids.number ids.request_id }
{
    let s = size.to_le_bytes();
    let t = ids.token.to_le_bytes();
    let n = ids.number.to_le_bytes();
    let r = ids.request_id.to_le_bytes();
    let mark = mark_of(letter);
    [
        b'M', b'S', b'G', mark, s[0], s[1], s[2], s[3], 1, 0, 0, 0, t[0], t[1], t[2], t[3], n[0],
        n[1], n[2], n[3], r[0], r[1], r[2], r[3],
    ]
}

/// A MSG chunk. An error leaves a part.
#[tactic(auto, using(ua_binary::proofs::Kept::kept, ua_channel::proofs::Sizes::message_size), unfolding(ua_channel::specs::Sending::message_chunk, ua_channel::specs::Headers::message_header))]
fn put_message_parts(
    out: &mut Vec<u8>,
    letter: Letter,
    ids: ChunkIds,
    piece: &[u8],
) -> Result<(), BinaryFault>
    requires { length piece.now ≤ 4294967271 }
    ensures { PutsPart BinaryFault.OutOfMemory result out.old.items out.new.items
        (message_chunk letter ids.token ids.number ids.request_id piece.now) }
{
    let head = message_head(letter, 24 + piece.len() as u32, ids);
    put_block(out, &head)?;
    put_block(out, piece)?;
    Ok(())
}

/// A MSG chunk for each piece, their numbers running on from the first one's; the number after theirs. An error leaves a part.
#[tactic(auto, using(ua_binary::proofs::Kept::kept, ua_channel::proofs::Sendings::running))]
fn put_chunks(
    out: &mut Vec<u8>,
    first: ChunkIds,
    mut pieces: Pieces<'_>,
) -> Result<u32, BinaryFault>
    requires short { AreShort 4294967271 pieces }
    requires number { IsNumber first.number }
    ensures { PutsChunks first.token first.request_id first.number pieces.entry result out.old.items
        out.new.items }
{
    let ChunkIds {
        token,
        request_id,
        mut number,
    } = first;
    while let Some(piece) = pieces.next() {
        let letter = letter_of(&pieces);
        let ids = ChunkIds {
            token,
            request_id,
            number,
        };
        put_message_parts(out, letter, ids, piece)?;
        number = following(number);
    }
    Ok(number)
}

/// Writes a message in MSG chunks of channel 1, of at most `limit` bytes each (Part 6, 6.7.2). The first one has these ids, and
/// sequence numbers run on from there. Answers the number after theirs. The one error is `OutOfMemory`, and then the vector is as
/// it was.
#[tactic(auto, using(ua_channel::proofs::Sendings::shortness))]
pub fn put_message(
    out: &mut Vec<u8>,
    limit: u32,
    first: ChunkIds,
    body: &[u8],
) -> Result<u32, BinaryFault>
    requires limit { 24 < limit }
    requires number { IsNumber first.number }
    ensures { PutsMessage (limit - 24) first.token first.request_id first.number body.now result
        out.old.items out.new.items }
{
    let len = out.len();
    let pieces = split(body, limit as usize);
    match put_chunks(out, first, pieces) {
        Ok(next) => Ok(next),
        Err(fault) => {
            out.truncate(len);
            Err(fault)
        }
    }
}

/// Whether more of a message follows, by the letter behind MSG.
fn letter_in(mark: u8) -> Option<Letter>
    ensures { IfSome result (λ letter. letter ≡ Abort → ⊥) }
{
    match mark {
        b'F' => Some(Letter::Final),
        b'C' => Some(Letter::More),
        _ => None,
    }
}

/// Whether these bytes are what stands before a piece in its MSG chunk of this size.
fn is_message_head(head: &[u8], letter: Letter, size: u32, ids: ChunkIds) -> bool
    ensures { result ≡ true
        → head.now ≡ message_head letter size ids.token ids.number ids.request_id }
{
    let want = message_head(letter, size, ids);
    head == want.as_slice()
}

/// The piece of a message that a MSG chunk of channel 1 with these ids carries, and its letter; none of another chunk, as of one
/// that gives its message up.
fn find_piece<'a>(chunk: &'a [u8], ids: ChunkIds) -> Option<(Letter, &'a [u8])>
    requires { length chunk.now < 2 ^ 32 }
    ensures piece { IfSome result (λ found. chunk.entry.now
        ≡ message_chunk found.0 ids.token ids.number ids.request_id found.1.now) }
    ensures goes_on { IfSome result (λ found. found.0 ≡ Abort → ⊥) }
{
    if chunk.len() < 24 {
        return None;
    }
    let (head, piece) = chunk.split_at(24);
    let letter = letter_in(head[3])?;
    let same = is_message_head(head, letter, chunk.len() as u32, ids);
    if same {
        return Some((letter, piece));
    }
    None
}

/// What a MSG chunk of channel 1 with these ids carries: whether more of the message follows, and a piece of it. Another chunk is
/// told as `refusal_in` tells it: an Error is `Refused` with its code, and what is none `Format`.
pub fn piece_in<'a>(chunk: &'a [u8], ids: ChunkIds) -> Result<(Letter, &'a [u8]), ClientFault>
    requires { length chunk.now < 2 ^ 32 }
    ensures piece { MatchResult result
        (λ found. chunk.entry.now
        ≡ message_chunk found.0 ids.token ids.number ids.request_id found.1.now)
        (λ fault. fault ≡ chunk_refusal chunk.entry.now) }
    ensures goes_on { IfOk result (λ found. found.0 ≡ Abort → ⊥) }
{
    match find_piece(chunk, ids) {
        Some(found) => Ok(found),
        None => Err(refusal_in(chunk)),
    }
}

/// What stands in the OPN chunk that answers an opening with these numbers, before its response (Part 6, 6.7.2): the letters, the
/// chunk's size, channel 1, policy None, no certificate and no thumbprint, the sequence number and the request id.
#[tactic(auto, using(ua_binary::proofs::Kept::kept), unfolding(ua_channel::specs::Headers::sequence_header))]
fn put_opened_front_parts(
    out: &mut Vec<u8>,
    size: u32,
    number: u32,
    request_id: u32,
) -> Result<(), BinaryFault>
    ensures { PutsPart BinaryFault.OutOfMemory result out.old.items out.new.items
        (opened_front size number request_id) }
{
    put_block(out, b"OPNF")?;
    put_u32(out, size)?;
    put_security(out, 1)?;
    put_u32(out, number)?;
    put_u32(out, request_id)?;
    Ok(())
}

/// The response that these bytes are, to an opening with this request id as its handle; its status is good, or refuses it.
fn open_response_in(body: &[u8], request_id: u32) -> Result<Opened, ClientFault>
    ensures reads { IfOk result
        (λ opened. open_response.read body.now ≡ Ok (opened_fields opened, [])) }
    ensures same { IfOk result (λ opened. opened.header.handle ≡ request_id) }
    ensures good { IfOk result (λ opened. is_good opened.header.status ≡ true) }
{
    let mut cursor = Cursor::new(body);
    let opened = read_open_response(&mut cursor)?;
    if !is_good(opened.header.status) {
        return Err(ClientFault::Refused(opened.header.status));
    }
    if !cursor.rest().is_empty() {
        return Err(ClientFault::Format);
    }
    if opened.header.handle != request_id {
        return Err(ClientFault::Format);
    }
    Ok(opened)
}

/// What answers an opening with these numbers (Part 4, 5.6.2): the OPN chunk of channel 1 whose response fills it, has the request
/// id as its handle, and a good status; another status is `Refused`. Another chunk is told as `refusal_in` tells it.
pub(crate) fn opened_in(
    alloc: Global,
    chunk: &[u8],
    number: u32,
    request_id: u32,
) -> Result<Opened, ClientFault>
    requires { length chunk.now < 2 ^ 32 }
    ensures front { OnOk result
        (take 79 chunk.now ≡ opened_front (length chunk.now) number request_id) }
    ensures reads { IfOk result
        (λ opened. open_response.read (drop 79 chunk.now) ≡ Ok (opened_fields opened, [])) }
    ensures same { IfOk result (λ opened. opened.header.handle ≡ request_id) }
    ensures good { IfOk result (λ opened. is_good opened.header.status ≡ true) }
{
    if chunk.len() < 79 {
        return Err(refusal_in(chunk));
    }
    let mut want = Vec::new(alloc);
    put_opened_front_parts(&mut want, chunk.len() as u32, number, request_id)?;
    let (front, body) = chunk.split_at(79);
    if front != want.as_slice() {
        return Err(refusal_in(chunk));
    }
    open_response_in(body, request_id)
}
