//! Chunks that are written.

ghost use Rattle.uacp.specs.declared.types.Letter.TheVariants.{Final, More, Abort};
ghost use Rattle.std.specs.Prelude.{◌≡◌, ◌≤◌, ◌∷◌, [], length, ◌==◌, if◌then◌else◌, codes};
ghost use Rattle.ua_binary.specs.Format.{PutsPart};
ghost use Rattle.ua_channel.specs.Sending.{number_after, opened_chunk, message_head, message_chunk, AreShort, IsNumber, PutsChunks};

use crate::headers::{Opened, put_open_response_parts, put_security_header_parts};
use crate::taken::OpenRequest;
use ua_binary::{BinaryFault, Ticks, put_block, put_u32};
use uacp::{Kind, Letter, Pieces};

/// The sequence number after this one.
pub(crate) fn following(number: u32) -> u32
    requires { IsNumber number }
    ensures value { result ≡ number_after number 1 }
    ensures within { IsNumber result }
{
    if number == 4_294_966_272 {
        1
    } else {
        number + 1
    }
}

/// The lifetime that is granted, in milliseconds.
fn granted_lifetime(asked: u32) -> u32
    ensures { result ≡ (if asked == 0 then 3600000 else asked) }
{
    if asked == 0 { 3_600_000 } else { asked }
}

/// The answer to a request that opened a channel or renewed its token. An error leaves a part.
#[tactic(auto, using(ua_binary::proofs::Kept::kept, crate::proofs::Sizes::opened_size), unfolding(crate::specs::Sending::opened_chunk, crate::specs::Headers::sequence_header))]
pub(crate) fn put_opened_parts(
    number: u32,
    request: &OpenRequest,
    now: Ticks,
    out: &mut Vec<u8>,
) -> Result<(), BinaryFault>
    ensures { PutsPart BinaryFault.OutOfMemory result out.old.items out.new.items
        (opened_chunk number request.now now) }
{
    let opened = Opened {
        handle: request.handle,
        token: request.token,
        made: now,
        lifetime: granted_lifetime(request.lifetime),
    };
    put_block(out, b"OPNF")?;
    put_u32(out, 135)?;
    put_security_header_parts(out)?;
    put_u32(out, number)?;
    put_u32(out, request.request_id)?;
    put_open_response_parts(out, &opened)?;
    Ok(())
}

fn letter_of(pieces: &Pieces<'_>) -> Letter
    ensures { result ≡ (elim pieces.now [ [] ↦ Final | piece ∷ pieces ↦ More ]) }
{
    if pieces.is_empty() {
        Letter::Final
    } else {
        Letter::More
    }
}

/// The letter that a chunk has behind MSG.
fn mark_of(letter: Letter) -> u8
    ensures { result ∷ [] ≡ (elim letter [ Final ↦ codes "F" | More ↦ codes "C" | Abort ↦ codes "A" ]) }
{
    match letter {
        Letter::Final => b'F',
        Letter::More => b'C',
        Letter::Abort => b'A',
    }
}

/// What stands before a piece in its MSG chunk: the letters, the chunk's size, channel 1, token, sequence number and
/// request id.
#[tactic(auto, unfolding(crate::specs::Headers::message_header, ua_binary::specs::Binary::unsigned))]
fn message_head(letter: Letter, size: u32, token: u32, number: u32, request_id: u32) -> [u8; 24]
    ensures { result ≡ message_head letter size token number request_id }
{
    let s = size.to_le_bytes();
    let t = token.to_le_bytes();
    let n = number.to_le_bytes();
    let r = request_id.to_le_bytes();
    let mark = mark_of(letter);
    [
        b'M', b'S', b'G', mark, s[0], s[1], s[2], s[3], 1, 0, 0, 0, t[0], t[1], t[2], t[3], n[0],
        n[1], n[2], n[3], r[0], r[1], r[2], r[3],
    ]
}

/// A MSG chunk. An error leaves a part.
#[tactic(auto, using(ua_binary::proofs::Kept::kept, crate::proofs::Sizes::message_size), unfolding(crate::specs::Sending::message_chunk, crate::specs::Headers::message_header))]
fn put_message_parts(
    letter: Letter,
    token: u32,
    number: u32,
    request_id: u32,
    piece: &[u8],
    out: &mut Vec<u8>,
) -> Result<(), BinaryFault>
    requires { length piece.now ≤ 4294967271 }
    ensures { PutsPart BinaryFault.OutOfMemory result out.old.items out.new.items
        (message_chunk letter token number request_id piece.now) }
{
    let head = message_head(letter, 24 + piece.len() as u32, token, number, request_id);
    put_block(out, &head)?;
    put_block(out, piece)?;
    Ok(())
}

/// A MSG chunk for each piece, their numbers running on from this one; the number after theirs. An
/// error leaves a part.
#[tactic(auto, using(ua_binary::proofs::Kept::kept, crate::proofs::Sendings::running))]
pub(crate) fn put_chunks(
    token: u32,
    request_id: u32,
    first: u32,
    mut pieces: Pieces<'_>,
    out: &mut Vec<u8>,
) -> Result<u32, BinaryFault>
    requires short { AreShort 4294967271 pieces }
    requires number { IsNumber first }
    ensures { PutsChunks token request_id first pieces.entry result out.old.items out.new.items }
{
    let mut number = first;
    while let Some(piece) = pieces.next() {
        let letter = letter_of(&pieces);
        put_message_parts(letter, token, number, request_id, piece, out)?;
        number = following(number);
    }
    Ok(number)
}
