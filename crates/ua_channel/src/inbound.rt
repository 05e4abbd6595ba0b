//! What is known of the chunks that were taken.

ghost use Rattle.ua_channel.specs.Placed.{is_next_number};
ghost use Rattle.ua_channel.specs.declared.fault.ChannelFault.TheVariants.{ChannelId, Policy, Sequence};
ghost use Rattle.std.specs.Str.{bytes_eq};
ghost use Rattle.ua_channel.specs.Headers.{policy_none};
ghost use Rattle.std.specs.Prelude.{◌≡◌, ◌≤◌, OnOk, IfOk, None, false, ◌==◌, ◌||◌, ◌∷◌};

use crate::fault::ChannelFault;
use crate::headers::{
    Numbers, OpenRequestBody, read_message_header, read_security_header, read_sequence_header,
};
use crate::message::{Lies, MessageBytes};
use crate::placed::{PlacedChunk, is_due_type, is_known, is_next, is_policy_none, read_asked};
use crate::taken::{OpenRequest, Taken};
use std::alloc::Global;
use std::marker::Model;
use std::mem;
use ua_binary::{Bytes, Cursor};
use uacp::{Chunk, Kind, Letter};

/// The most chunks of a message.
const MOST_CHUNKS: u32 = 64;

/// The most bytes of a message.
const MOST_BYTES: usize = 4_194_304;

/// What the rules for the next chunk look at.
#[derive(Drop)]
pub(crate) struct Inbound {
    alloc: Global,
    is_ended: bool,
    openings: u32,
    last: Option<u32>,
    token: u32,
    // the open message
    chunks: u32,
    request_id: u32,
    bytes: Vec<u8>,
}

impl Model for Inbound {
    ghost use Rattle.std.specs.Prelude.{◌≤◌, vec_len};
    ghost use Rattle.ua_channel.specs.Placed.{Heard};

    ghost Value = { Heard };

    ghost view = { λ i.
        record {
          ended = i.is_ended;
          openings = i.openings;
          last = i.last;
          token = i.token;
          chunks = i.chunks;
          request = i.request_id;
          bytes = i.bytes.items;
        } };

    ghost invariant = { λ i. (i.chunks ≤ 64) × (vec_len i.bytes ≤ 4194304) };
}

impl Inbound {
    ghost use Rattle.std.specs.Option.{option_copied};
    ghost use Rattle.std.specs.Prelude.{true, max, Some, IfOk, OnOk, ◌<◌, []};
    ghost use Rattle.ua_binary.specs.Rules.{checked};
    ghost use Rattle.ua_channel.specs.Placed.{Says, heard_of, number_rules, size_rules, asked_rules, opening_judged, message_judged, closing_judged, placed_chunk};
    ghost use Rattle.ua_channel.specs.Taking.{piece_of, placed_of, with_none_open, IsJudged, HasRoom, HasRoomFor, Accepts};

    pub(crate) fn new(alloc: Global) -> Self
        ensures { result ≡ heard_of [] }
    {
        Inbound {
            alloc,
            is_ended: false,
            openings: 0,
            last: None,
            token: 1,
            chunks: 0,
            request_id: 0,
            bytes: Vec::new(alloc),
        }
    }

    /// The greatest token id of the MSG chunks.
    pub(crate) fn token(&self) -> u32
        ensures { result ≡ self.now.token }
    {
        self.token
    }

    /// No further chunk is well placed.
    pub(crate) fn end(&mut self)
        ensures { self.new ≡ record self.old { ended = true } }
    {
        self.is_ended = true;
    }

    fn check_numbers(&self, numbers: &Numbers) -> Result<(), ChannelFault>
        ensures { result ≡ checked (number_rules self.now numbers.now) }
    {
        if self.openings == 0 {
            return Err(ChannelFault::ChannelId);
        }
        if numbers.channel_id != 1 {
            return Err(ChannelFault::ChannelId);
        }
        if !is_known(self.openings, numbers.token) {
            return Err(ChannelFault::Token);
        }
        if !is_next(self.last, numbers.number) {
            return Err(ChannelFault::Sequence);
        }
        if self.chunks != 0 && self.request_id != numbers.request_id {
            return Err(ChannelFault::Sequence);
        }
        Ok(())
    }

    fn check_sizes(&self, letter: Letter, body: &[u8]) -> Result<(), ChannelFault>
        ensures value { result ≡ checked (size_rules self.now letter body.now) }
        ensures room { OnOk result (HasRoomFor self.now letter body.now) }
    {
        match letter {
            Letter::Abort => Ok(()),
            Letter::Final | Letter::More => {
                if self.chunks >= MOST_CHUNKS {
                    return Err(ChannelFault::TooManyChunks);
                }
                if body.len() > MOST_BYTES - self.bytes.len() {
                    return Err(ChannelFault::TooLarge);
                }
                Ok(())
            }
        }
    }

    fn check_security(&self, header: (u32, Option<&str>)) -> Result<(), ChannelFault>
        ensures { result
            ≡ checked
            ((
              elim (option_copied header.entry.1)
                  [ None ↦ false | Some uri ↦ bytes_eq uri policy_none ],
              Policy,
            )
            ∷ ((self.now.openings == 0) || (header.entry.0 == 1), ChannelId) ∷ []) }
    {
        if !is_policy_none(header.1) {
            return Err(ChannelFault::Policy);
        }
        if self.openings != 0 && header.0 != 1 {
            return Err(ChannelFault::ChannelId);
        }
        Ok(())
    }

    fn check_sequence(&self, header: (u32, u32)) -> Result<(), ChannelFault>
        ensures { result
            ≡ checked
            ((is_next_number self.now.last header.0, Sequence) ∷ (self.now.chunks == 0, Sequence)
            ∷ []) }
    {
        if !is_next(self.last, header.0) {
            return Err(ChannelFault::Sequence);
        }
        if self.chunks != 0 {
            return Err(ChannelFault::Sequence);
        }
        Ok(())
    }

    fn check_asked(&self, asked: &OpenRequestBody) -> Result<(), ChannelFault>
        ensures value { result ≡ checked (asked_rules self.now asked.now) }
        ensures room { OnOk result (self.now.openings < 4294967295) }
    {
        if !is_due_type(self.openings, asked) {
            return Err(ChannelFault::RequestType);
        }
        if asked.mode != 1 {
            return Err(ChannelFault::Mode);
        }
        if self.openings == u32::MAX {
            return Err(ChannelFault::Token);
        }
        Ok(())
    }

    fn judge_opening<'a>(&self, body: &'a [u8]) -> Result<PlacedChunk<'a>, ChannelFault>
        ensures value { IsJudged (opening_judged self.now body.entry.now) result }
        ensures room { IfOk result (λ placed. HasRoom self.now (placed_of placed)) }
    {
        let mut cursor = Cursor::new(body);
        let Ok(security) = read_security_header(&mut cursor) else {
            return Err(ChannelFault::Decoding);
        };
        self.check_security(security)?;
        let Ok(sequence) = read_sequence_header(&mut cursor) else {
            return Err(ChannelFault::Decoding);
        };
        self.check_sequence(sequence)?;
        let asked = read_asked(cursor.rest())?;
        self.check_asked(&asked)?;
        Ok(PlacedChunk::Opens(sequence, asked))
    }

    fn judge_message<'a>(
        &self,
        letter: Letter,
        body: &'a [u8],
    ) -> Result<PlacedChunk<'a>, ChannelFault>
        ensures value { IsJudged (message_judged self.now letter body.entry.now) result }
        ensures room { IfOk result (λ placed. HasRoom self.now (placed_of placed)) }
    {
        let mut cursor = Cursor::new(body);
        let Ok(numbers) = read_message_header(&mut cursor) else {
            return Err(ChannelFault::Decoding);
        };
        self.check_numbers(&numbers)?;
        let rest = cursor.rest();
        self.check_sizes(letter, rest)?;
        Ok(PlacedChunk::Says(letter, numbers, rest))
    }

    fn judge_closing<'a>(&self, body: &'a [u8]) -> Result<PlacedChunk<'a>, ChannelFault>
        ensures value { IsJudged (closing_judged self.now body.entry.now) result }
        ensures room { IfOk result (λ placed. HasRoom self.now (placed_of placed)) }
    {
        let mut cursor = Cursor::new(body);
        let Ok(numbers) = read_message_header(&mut cursor) else {
            return Err(ChannelFault::Decoding);
        };
        self.check_numbers(&numbers)?;
        Ok(PlacedChunk::Closes(numbers))
    }

    /// The chunk as it is read, where it is well placed, or else its first fault.
    pub(crate) fn judge<'a>(&self, chunk: Chunk<'a>) -> Result<PlacedChunk<'a>, ChannelFault>
        ensures value { IsJudged (placed_chunk self.now (piece_of chunk.entry)) result }
        ensures room { IfOk result (λ placed. HasRoom self.now (placed_of placed)) }
    {
        if self.is_ended {
            return Err(ChannelFault::ChannelId);
        }
        match chunk.kind {
            Kind::Hello => Err(ChannelFault::Decoding),
            Kind::Open => self.judge_opening(chunk.body),
            Kind::Close => self.judge_closing(chunk.body),
            Kind::Message => self.judge_message(chunk.letter, chunk.body),
        }
    }

    /// The open message, if there is one, ends; its bodies are handed out.
    fn close_message(&mut self) -> Bytes
        ensures value { result ≡ self.old.bytes }
        ensures after { self.new ≡ with_none_open self.old }
    {
        self.chunks = 0;
        self.request_id = 0;
        Bytes::new(mem::replace(&mut self.bytes, Vec::new(self.alloc)))
    }

    /// The next sequence number, and the token if it is greater.
    fn note(&mut self, numbers: &Numbers)
        ensures { self.new
            ≡ record self.old
            { last = Some numbers.now.number; token = max self.old.token numbers.now.token } }
    {
        self.last = Some(numbers.number);
        self.token = self.token.max(numbers.token);
    }

    /// Takes a chunk that is well placed. The one fault is `OutOfMemory`, which changes nothing.
    pub(crate) fn accept<'a>(&mut self, placed: PlacedChunk<'a>) -> Result<Taken<'a>, ChannelFault>
        requires { HasRoom self.old (placed_of placed) }
        ensures { Accepts self.old (placed_of placed.entry) result self.new }
    {
        match placed {
            PlacedChunk::Opens(sequence, asked) => {
                self.openings += 1;
                self.last = Some(sequence.0);
                let _none = self.close_message();
                Ok(Taken::Opening(OpenRequest {
                    request_id: sequence.1,
                    handle: asked.handle,
                    lifetime: asked.lifetime,
                    token: self.openings,
                }))
            }
            PlacedChunk::Says(letter, numbers, body) => self.accept_message(letter, numbers, body),
            PlacedChunk::Closes(numbers) => {
                self.is_ended = true;
                self.last = Some(numbers.number);
                let _none = self.close_message();
                Ok(Taken::Closed)
            }
        }
    }

    fn accept_message<'a>(
        &mut self,
        letter: Letter,
        numbers: Numbers,
        body: &'a [u8],
    ) -> Result<Taken<'a>, ChannelFault>
        requires { HasRoom self.old (Says letter numbers body.now) }
        ensures { Accepts self.old (Says letter numbers body.entry.now) result self.new }
    {
        match letter {
            Letter::Abort => {
                self.note(&numbers);
                let _given_up = self.close_message();
                Ok(Taken::Aborted(numbers.request_id))
            }
            Letter::More => {
                self.bytes.extend_from_slice(body)?;
                self.note(&numbers);
                self.chunks += 1;
                self.request_id = numbers.request_id;
                Ok(Taken::Nothing)
            }
            Letter::Final if self.bytes.is_empty() => {
                self.note(&numbers);
                let _empty = self.close_message();
                let message = MessageBytes::new(Lies::InChunk(body));
                Ok(Taken::Message(numbers.request_id, message))
            }
            Letter::Final => {
                self.bytes.extend_from_slice(body)?;
                self.note(&numbers);
                let message = MessageBytes::new(Lies::Joined(self.close_message()));
                Ok(Taken::Message(numbers.request_id, message))
            }
        }
    }
}
