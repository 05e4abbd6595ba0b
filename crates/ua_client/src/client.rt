//! A client over a connection: a channel, a session, and values that are written.

ghost use Rattle.std.specs.Prelude.{◌≡◌, ◌≤◌, ◌<◌, ◌-◌, [], List, ℕ, Option, Ok, length, IfOk, OnOk, OnErr, IsTrue, if◌then◌else◌};
ghost use Rattle.std.specs.Option.{option_copied};
ghost use Rattle.std.specs.Io.KnownBytes.{Appends, Consumes};
ghost use Rattle.counted_io.specs.Bytes.{AppendsPart};
ghost use Rattle.ua_binary.specs.Binary.{node_of, IsCounted, IsShortNode};
ghost use Rattle.ua_channel.specs.Sending.{number_after, IsNumber, message_chunk, chunks_of};
ghost use Rattle.uacp.specs.declared.types.Letter.TheVariants.{Final, More, Abort};
ghost use Rattle.ua_client.specs.Answers.{body_in, acknowledge_in, made_in, update_in};
ghost use Rattle.ua_client.specs.Asking.{greeting, opening, closing};
ghost use Rattle.ua_services.specs.Sessions.{create_session_response, activate_session_response};
ghost use Rattle.uacp.specs.Split.{pieces_of};
ghost use Rattle.ua_client.specs.Talking.{flow_of, SendsBytes, SendsPart, HearsBytes, hello_asked, request_after, connecting, AnswersOpening, Connects, HearsMessage, IsOnlyResult, IsSession};

use crate::chunks::{
    ChunkIds, following, opened_in, piece_in, put_closing, put_greeting, put_message, put_opening,
};
use crate::fault::ClientFault;
use crate::line::Line;
use crate::requests::{
    Header, Login, NewSession, UpdateAsked, put_activate_session_request,
    put_close_session_request, put_create_session_request, put_history_update_request,
    put_request_head,
};
use crate::responses::{
    Granted, Opened, UpdateResult, answer_in, read_acknowledge, read_activate_session_response,
    read_create_session_response, read_history_update_response,
};
use counted_io::Counted;
use std::alloc::Global;
use std::io::{Read, Write};
use std::marker::Model;
use ua_binary::{Cursor, NodeId, NodeIdRef, Ticks};
use uacp::{Ack, Hello, Letter};

/// In milliseconds, how long this client waits for an answer, as its requests tell the server.
const WAITS: u32 = 60_000;

/// The sequence number of the first chunk that either end sends.
const FIRST: u32 = 1;

/// The most bytes of a chunk that this client takes.
const GREATEST_CHUNK: u32 = 65_536;

/// The most chunks of a message that this client takes.
const MOST_CHUNKS: u32 = 64;

/// The bytes that one read asks for.
const PIECE: usize = 8_192;

/// Reads the next bytes, one at least and at most so many.
fn read_part<R: Read>(
    alloc: Global,
    reader: &mut Counted<R>,
    most: usize,
) -> Result<Vec<u8>, ClientFault>
    requires { 0 < most }
    ensures bytes { IfOk result (λ part.
        Consumes (R.remaining reader.old.inner) (R.remaining reader.new.inner) part.items) }
    ensures within { IfOk result (λ part.
        (0 < length part.items) × (length part.items ≤ most)) }
{
    let mut piece = [0u8; PIECE];
    let room = &mut piece[..most.min(PIECE)];
    let n = reader.read_piece(room)?;
    if n == 0 {
        return Err(ClientFault::Closed);
    }
    let mut part = Vec::new(alloc);
    part.extend_from_slice(&room[..n])?;
    Ok(part)
}

/// Reads so many bytes.
fn read_exactly<R: Read>(
    alloc: Global,
    reader: &mut Counted<R>,
    count: usize,
) -> Result<Vec<u8>, ClientFault>
    ensures bytes { IfOk result (λ bytes.
        Consumes (R.remaining reader.old.inner) (R.remaining reader.new.inner) bytes.items) }
    ensures count { IfOk result (λ bytes. length bytes.items ≡ count) }
{
    let mut bytes = Vec::new(alloc);
    'reads: while bytes.len() < count {
        let most = count - bytes.len();
        let part = read_part(alloc, reader, most)?;
        bytes.extend_from_slice(part.as_slice())?;
    }
    Ok(bytes)
}

/// The size that the header of a chunk says.
fn size_in(head: &[u8]) -> u32
    requires { 8 ≤ length head.now }
{
    u32::from_le_bytes([head[4], head[5], head[6], head[7]])
}

/// Reads the next chunk: eight bytes, and as many more as they say, if they say at most 65,536 in all.
fn read_chunk<R: Read>(alloc: Global, reader: &mut Counted<R>) -> Result<Vec<u8>, ClientFault>
    ensures bytes { IfOk result (λ chunk.
        Consumes (R.remaining reader.old.inner) (R.remaining reader.new.inner) chunk.items) }
    ensures within { IfOk result (λ chunk. length chunk.items ≤ 65544) }
{
    let mut chunk = read_exactly(alloc, reader, 8)?;
    let size = size_in(chunk.as_slice());
    if size > GREATEST_CHUNK {
        return Err(ClientFault::Format);
    }
    let rest = read_exactly(alloc, reader, (size as usize).saturating_sub(8))?;
    chunk.extend_from_slice(rest.as_slice())?;
    Ok(chunk)
}

/// A message that came, and the sequence number of the chunk that will come next.
#[derive(Drop)]
pub(crate) struct Heard {
    pub body: Vec<u8>,
    pub next: u32,
}

/// A piece of a message that came, and whether it was the last one.
#[derive(Drop)]
struct Part {
    bytes: Vec<u8>,
    is_last: bool,
}

/// Whether a chunk is the last one of its message, by its letter.
fn is_final(letter: Letter) -> bool
    ensures { (letter ≡ Abort → ⊥) → (if result then Final else More) ≡ letter }
{
    match letter {
        Letter::Final => true,
        Letter::More | Letter::Abort => false,
    }
}

/// Takes the piece of a message that the next chunk carries.
fn take_piece<R: Read>(
    alloc: Global,
    reader: &mut Counted<R>,
    ids: ChunkIds,
) -> Result<Part, ClientFault>
    ensures { IfOk result (λ part.
        Consumes (R.remaining reader.old.inner) (R.remaining reader.new.inner)
        (message_chunk (if part.is_last then Final else More) ids.token ids.number ids.request_id
        part.bytes.items)) }
{
    let chunk = read_chunk(alloc, reader)?;
    let (letter, piece) = piece_in(chunk.as_slice(), ids)?;
    let mut bytes = Vec::new(alloc);
    bytes.extend_from_slice(piece)?;
    Ok(Part {
        bytes,
        is_last: is_final(letter),
    })
}

/// Reads the message that answers a request: the first of its chunks has these ids, numbers run on from there, and they are at
/// most 64.
fn read_message<R: Read>(
    alloc: Global,
    reader: &mut Counted<R>,
    first: ChunkIds,
) -> Result<Heard, ClientFault>
    requires { IsNumber first.number }
    ensures hears { IfOk result (λ heard. HearsMessage first.token first.number first.request_id
        (R.remaining reader.old.inner) (R.remaining reader.new.inner) heard.body.items heard.next) }
{
    let ChunkIds {
        token,
        request_id,
        mut number,
    } = first;
    let mut body = Vec::new(alloc);
    'chunks: for _ in 0..MOST_CHUNKS {
        let ids = ChunkIds {
            token,
            request_id,
            number,
        };
        let part = take_piece(alloc, reader, ids)?;
        body.extend_from_slice(part.bytes.as_slice())?;
        number = following(number);
        if part.is_last {
            return Ok(Heard { body, next: number });
        }
    }
    Err(ClientFault::Format)
}

/// What this client asks for as it greets a server: chunks of at most 65,536 bytes either way, and no limit of messages.
const GREETING: Hello = Hello {
    version: 0,
    receive_size: GREATEST_CHUNK,
    send_size: GREATEST_CHUNK,
    max_message: 0,
    max_chunks: MOST_CHUNKS,
};

/// The request id after this one.
fn next_request(request_id: u32) -> u32
    ensures { result ≡ request_after request_id }
{
    if request_id == u32::MAX {
        1
    } else {
        request_id + 1
    }
}

/// What stands behind the header of the response of this type, in namespace 0, to the request of this handle, as `answer_in` tells it,
/// in memory of its own.
fn told_in(alloc: Global, type_id: u32, handle: u32, message: &[u8]) -> Result<Vec<u8>, ClientFault>
    ensures { IfOk result (λ told. body_in type_id handle message.now ≡ Ok told.items) }
{
    let body = answer_in(type_id, handle, message)?;
    let mut told = Vec::new(alloc);
    told.extend_from_slice(body)?;
    Ok(told)
}

/// Whether a node's text or bytes can be counted.
fn is_short(node: NodeIdRef<'_>) -> bool
    ensures { IsTrue result → IsShortNode (node_of node.entry) }
{
    match node {
        NodeIdRef::Numeric(_, _) | NodeIdRef::Global(_, _) => true,
        NodeIdRef::Named(_, name) => name.as_bytes().len() <= GREATEST_CHUNK as usize,
        NodeIdRef::Opaque(_, id) => id.len() <= GREATEST_CHUNK as usize,
    }
}

/// Sends a message in chunks of channel 1, of at most `limit` bytes each, the first of which has these ids, and answers the sequence
/// number after theirs.
fn send_message<W: Write>(
    alloc: Global,
    writer: &mut Counted<W>,
    limit: u32,
    first: ChunkIds,
    body: &[u8],
) -> Result<u32, ClientFault>
    requires limit { 24 < limit }
    requires number { IsNumber first.number }
    ensures sent { OnOk result (Appends (W.contents writer.old.inner)
        (W.contents writer.new.inner)
        (chunks_of first.token first.request_id first.number (pieces_of (limit - 24) body.now))) }
    ensures part { OnErr result (AppendsPart (W.contents writer.old.inner)
        (W.contents writer.new.inner)
        (chunks_of first.token first.request_id first.number (pieces_of (limit - 24) body.now))) }
    ensures next { IfOk result (λ next.
        next ≡ number_after first.number (length (pieces_of (limit - 24) body.now))) }
    ensures is { IfOk result IsNumber }
{
    let mut out = Vec::new(alloc);
    let next = put_message(&mut out, limit, first, body)?;
    writer.send(out.as_slice())?;
    Ok(next)
}

/// Sends the Hello.
fn send_greeting<W: Write>(alloc: Global, writer: &mut Counted<W>) -> Result<(), ClientFault>
    ensures sent { OnOk result (Appends (W.contents writer.old.inner) (W.contents writer.new.inner)
        (greeting hello_asked)) }
    ensures part { OnErr result (AppendsPart (W.contents writer.old.inner)
        (W.contents writer.new.inner) (greeting hello_asked)) }
{
    let mut out = Vec::new(alloc);
    put_greeting(&mut out, &GREETING)?;
    writer.send(out.as_slice())?;
    Ok(())
}

/// Takes the Acknowledge of a server that takes chunks of more than their headers.
fn read_ack<R: Read>(alloc: Global, reader: &mut Counted<R>) -> Result<Ack, ClientFault>
    ensures came { IfOk result (λ ack. (chunk : List ℕ)
        × Consumes (R.remaining reader.old.inner) (R.remaining reader.new.inner) chunk
        × (acknowledge_in chunk ≡ Ok ack)) }
    ensures limit { IfOk result (λ ack. 24 < ack.receive_size) }
{
    let chunk = read_chunk(alloc, reader)?;
    let ack = read_acknowledge(chunk.as_slice())?;
    if ack.receive_size <= 24 {
        return Err(ClientFault::Format);
    }
    Ok(ack)
}

/// Greets a server, and takes its Acknowledge.
fn greet<R: Read, W: Write>(line: &mut Line<R, W>) -> Result<Ack, ClientFault>
    ensures sent { OnOk result (SendsBytes (flow_of R.remaining W.contents line.old)
        (flow_of R.remaining W.contents line.new) (greeting hello_asked)) }
    ensures part { OnErr result (SendsPart (flow_of R.remaining W.contents line.old)
        (flow_of R.remaining W.contents line.new) (greeting hello_asked)) }
    ensures came { IfOk result (λ ack. (chunk : List ℕ)
        × HearsBytes (flow_of R.remaining W.contents line.old)
        (flow_of R.remaining W.contents line.new) chunk
        × (acknowledge_in chunk ≡ Ok ack)) }
    ensures limit { IfOk result (λ ack. 24 < ack.receive_size) }
{
    send_greeting(line.alloc, &mut line.writer)?;
    read_ack(line.alloc, &mut line.reader)
}

/// Sends the request for a channel.
fn send_opening<W: Write>(
    alloc: Global,
    writer: &mut Counted<W>,
    lifetime: u32,
) -> Result<(), ClientFault>
    ensures sent { OnOk result (Appends (W.contents writer.old.inner) (W.contents writer.new.inner)
        (opening 1 1 lifetime)) }
    ensures part { OnErr result (AppendsPart (W.contents writer.old.inner)
        (W.contents writer.new.inner) (opening 1 1 lifetime)) }
{
    let mut out = Vec::new(alloc);
    put_opening(&mut out, FIRST, FIRST, lifetime)?;
    writer.send(out.as_slice())?;
    Ok(())
}

/// Takes what answers the first opening.
fn read_opened<R: Read>(alloc: Global, reader: &mut Counted<R>) -> Result<Opened, ClientFault>
    ensures { IfOk result (λ opened. (chunk : List ℕ)
        × Consumes (R.remaining reader.old.inner) (R.remaining reader.new.inner) chunk
        × AnswersOpening chunk opened) }
{
    let chunk = read_chunk(alloc, reader)?;
    opened_in(alloc, chunk.as_slice(), FIRST, FIRST)
}

/// Asks for a channel, and takes what opens it.
fn open_channel<R: Read, W: Write>(
    line: &mut Line<R, W>,
    lifetime: u32,
) -> Result<Opened, ClientFault>
    ensures sent { OnOk result (SendsBytes (flow_of R.remaining W.contents line.old)
        (flow_of R.remaining W.contents line.new) (opening 1 1 lifetime)) }
    ensures part { OnErr result (SendsPart (flow_of R.remaining W.contents line.old)
        (flow_of R.remaining W.contents line.new) (opening 1 1 lifetime)) }
    ensures came { IfOk result (λ opened. (chunk : List ℕ)
        × HearsBytes (flow_of R.remaining W.contents line.old)
        (flow_of R.remaining W.contents line.new) chunk
        × AnswersOpening chunk opened) }
{
    send_opening(line.alloc, &mut line.writer, lifetime)?;
    read_opened(line.alloc, &mut line.reader)
}

/// Sends the chunk that ends channel 1.
fn send_closing<W: Write>(
    alloc: Global,
    writer: &mut Counted<W>,
    ids: ChunkIds,
) -> Result<(), ClientFault>
    ensures sent { OnOk result (Appends (W.contents writer.old.inner) (W.contents writer.new.inner)
        (closing ids.token ids.number ids.request_id)) }
    ensures part { OnErr result (AppendsPart (W.contents writer.old.inner)
        (W.contents writer.new.inner) (closing ids.token ids.number ids.request_id)) }
{
    let mut out = Vec::new(alloc);
    put_closing(&mut out, ids)?;
    writer.send(out.as_slice())?;
    Ok(())
}

/// A channel and a session with a server.
#[derive(Debug, Drop)]
pub struct Client {
    // the greatest chunk that the server takes
    limit: u32,
    // the token of the channel
    token: u32,
    // the sequence number of the next chunk that is sent, and of the next one that comes
    number: u32,
    heard: u32,
    // of the next request
    request_id: u32,
    // the session's authentication token
    session: NodeId,
}

impl Model for Client {
    ghost use Rattle.std.specs.Prelude.{◌<◌};
    ghost use Rattle.ua_binary.specs.Binary.{IsShortNode};
    ghost use Rattle.ua_channel.specs.Sending.{IsNumber};
    ghost use Rattle.ua_client.specs.Talking.{CallerState};

    ghost Value = { CallerState };

    ghost view = { λ c.
        record {
          limit = c.limit;
          token = c.token;
          number = c.number;
          heard = c.heard;
          request = c.request_id;
          session = c.session;
        } };

    ghost invariant = { λ c.
        (24 < c.limit) × IsNumber c.number × IsNumber c.heard × IsShortNode c.session };
}

impl Client {
    ghost use Rattle.std.specs.Prelude.{List};
    ghost use Rattle.ua_client.specs.Talking.{message_of, head_of, update_request, create_request, activate_request, close_request, AsksServer, Responds, Updates, Opens, Activates};
    ghost use Rattle.ua_client.specs.Asking.{claim_in, update_of, closing, IsShortLogin, IsShortUpdate};
    ghost use Rattle.ua_client.specs.Answers.{update_in};
    ghost use Rattle.std.specs.Prelude.{IfSome, ◌++◌};

    /// Sends a message, and takes the one that answers it.
    fn ask<R: Read, W: Write>(
        &mut self,
        line: &mut Line<R, W>,
        body: &[u8],
    ) -> Result<Vec<u8>, ClientFault>
        ensures asks { IfOk result (λ message. AsksServer self.old self.new body.now message.items
            (flow_of R.remaining W.contents line.old) (flow_of R.remaining W.contents line.new)) }
        ensures part { OnErr result (SendsPart (flow_of R.remaining W.contents line.old)
            (flow_of R.remaining W.contents line.new) (message_of self.old body.now)) }
    {
        let sent = ChunkIds {
            token: self.token,
            request_id: self.request_id,
            number: self.number,
        };
        let next = send_message(line.alloc, &mut line.writer, self.limit, sent, body)?;
        self.number = next;
        let came = ChunkIds {
            token: self.token,
            request_id: self.request_id,
            number: self.heard,
        };
        let heard = read_message(line.alloc, &mut line.reader, came)?;
        self.heard = heard.next;
        self.request_id = next_request(self.request_id);
        Ok(heard.body)
    }

    /// Sends a request, and takes what stands behind the header of the response of this type that answers it.
    fn request<R: Read, W: Write>(
        &mut self,
        line: &mut Line<R, W>,
        body: &[u8],
        type_id: u32,
    ) -> Result<Vec<u8>, ClientFault>
        ensures responds { IfOk result (λ told. Responds self.old self.new body.now type_id told.items
            (flow_of R.remaining W.contents line.old) (flow_of R.remaining W.contents line.new)) }
        ensures part { OnErr result (SendsPart (flow_of R.remaining W.contents line.old)
            (flow_of R.remaining W.contents line.new) (message_of self.old body.now)) }
    {
        let handle = self.request_id;
        let message = self.ask(line, body)?;
        told_in(line.alloc, type_id, handle, message.as_slice())
    }

    /// Writes what the next request begins with.
    fn put_head(&self, out: &mut Vec<u8>, type_id: u32, now: Ticks) -> Result<(), ClientFault>
        ensures { OnOk result
            (out.new.items ≡ out.old.items ++ head_of self.now type_id now) }
    {
        put_request_head(
            out,
            type_id,
            Header {
                session: self.session.as_ref(),
                timestamp: now,
                handle: self.request_id,
                timeout: WAITS,
            },
        )?;
        Ok(())
    }

    /// The bytes of a HistoryUpdate.
    fn update_request(
        &self,
        alloc: Global,
        now: Ticks,
        asked: UpdateAsked<'_>,
    ) -> Result<Vec<u8>, ClientFault>
        requires { IsShortUpdate (update_of asked) }
        ensures { IfOk result
            (λ body. body.items ≡ update_request self.now now (update_of asked.entry)) }
    {
        let mut body = Vec::new(alloc);
        self.put_head(&mut body, 700, now)?;
        put_history_update_request(&mut body, asked.node_id, asked.perform, asked.values)?;
        Ok(body)
    }

    /// Brings values to a node's history by one HistoryUpdate (Part 4, 5.11.5; Part 11, 6.9.2). Answers what the server did with
    /// each. A server takes 1,000 at most.
    pub fn update_history<R: Read, W: Write>(
        &mut self,
        line: &mut Line<R, W>,
        now: Ticks,
        asked: UpdateAsked<'_>,
    ) -> Result<UpdateResult, ClientFault>
        requires { IsShortUpdate (update_of asked) }
        ensures updates { IfOk result (λ done. Updates self.old self.new
            (update_request self.old now (update_of asked.entry)) (update_in done)
            (flow_of R.remaining W.contents line.old) (flow_of R.remaining W.contents line.new)) }
        ensures part { OnErr result (SendsPart (flow_of R.remaining W.contents line.old)
            (flow_of R.remaining W.contents line.new)
            (message_of self.old (update_request self.old now (update_of asked.entry)))) }
    {
        let body = self.update_request(line.alloc, now, asked)?;
        let told = self.request(line, body.as_slice(), 703)?;
        only_result(line.alloc, told.as_slice())
    }

    /// The bytes of a CreateSession.
    fn create_request(
        &self,
        alloc: Global,
        now: Ticks,
        asked: NewSession<'_>,
    ) -> Result<Vec<u8>, ClientFault>
        requires url { IsCounted (option_copied asked.endpoint_url) }
        requires name { IsCounted (option_copied asked.name) }
        ensures { IfOk result
            (λ body. body.items ≡ create_request self.now now asked.entry) }
    {
        let mut body = Vec::new(alloc);
        self.put_head(&mut body, 461, now)?;
        put_create_session_request(&mut body, asked.endpoint_url, asked.name, asked.timeout)?;
        Ok(body)
    }

    /// Makes a session (Part 4, 5.7.2): the URL of the endpoint, a name, and the bytes of a Double that says in milliseconds how long
    /// it is to live without a request. Its token is shown from then on.
    pub fn create_session<R: Read, W: Write>(
        &mut self,
        line: &mut Line<R, W>,
        now: Ticks,
        asked: NewSession<'_>,
    ) -> Result<(), ClientFault>
        requires url { IsCounted (option_copied asked.endpoint_url) }
        requires name { IsCounted (option_copied asked.name) }
        ensures opens { OnOk result (Opens self.old self.new
            (create_request self.old now asked.entry)
            (flow_of R.remaining W.contents line.old) (flow_of R.remaining W.contents line.new)) }
        ensures part { OnErr result (SendsPart (flow_of R.remaining W.contents line.old)
            (flow_of R.remaining W.contents line.new)
            (message_of self.old (create_request self.old now asked.entry))) }
    {
        let body = self.create_request(line.alloc, now, asked)?;
        let told = self.request(line, body.as_slice(), 464)?;
        self.session = session_in(line.alloc, told.as_slice())?;
        Ok(())
    }

    /// The bytes of an ActivateSession.
    fn activate_request(
        &self,
        alloc: Global,
        now: Ticks,
        login: Option<Login<'_>>,
    ) -> Result<Vec<u8>, ClientFault>
        requires { IfSome login IsShortLogin }
        ensures { IfOk result
            (λ body. body.items ≡ activate_request self.now now (claim_in login.entry)) }
    {
        let mut body = Vec::new(alloc);
        self.put_head(&mut body, 467, now)?;
        put_activate_session_request(&mut body, login)?;
        Ok(body)
    }

    /// Activates the session (Part 4, 5.7.3), for a user by name and password as they are, or for nobody.
    pub fn activate_session<R: Read, W: Write>(
        &mut self,
        line: &mut Line<R, W>,
        now: Ticks,
        login: Option<Login<'_>>,
    ) -> Result<(), ClientFault>
        requires { IfSome login IsShortLogin }
        ensures activates { OnOk result (Activates self.old self.new
            (activate_request self.old now (claim_in login.entry))
            (flow_of R.remaining W.contents line.old) (flow_of R.remaining W.contents line.new)) }
        ensures part { OnErr result (SendsPart (flow_of R.remaining W.contents line.old)
            (flow_of R.remaining W.contents line.new)
            (message_of self.old (activate_request self.old now (claim_in login.entry)))) }
    {
        let body = self.activate_request(line.alloc, now, login)?;
        let told = self.request(line, body.as_slice(), 470)?;
        only_activated(line.alloc, told.as_slice())
    }

    /// The bytes of a CloseSession.
    fn close_request(&self, alloc: Global, now: Ticks) -> Result<Vec<u8>, ClientFault>
        ensures { IfOk result (λ body. body.items ≡ close_request self.now now) }
    {
        let mut body = Vec::new(alloc);
        self.put_head(&mut body, 473, now)?;
        put_close_session_request(&mut body, true)?;
        Ok(body)
    }

    /// Ends the session (Part 4, 5.7.4).
    pub fn close_session<R: Read, W: Write>(
        &mut self,
        line: &mut Line<R, W>,
        now: Ticks,
    ) -> Result<(), ClientFault>
        ensures closes { OnOk result (Responds self.old self.new (close_request self.old now) 476 []
            (flow_of R.remaining W.contents line.old) (flow_of R.remaining W.contents line.new)) }
        ensures part { OnErr result (SendsPart (flow_of R.remaining W.contents line.old)
            (flow_of R.remaining W.contents line.new)
            (message_of self.old (close_request self.old now))) }
    {
        let body = self.close_request(line.alloc, now)?;
        let told = self.request(line, body.as_slice(), 476)?;
        only_closed(told.as_slice())
    }

    /// Ends the channel (Part 4, 5.6.3), which isn't answered.
    pub fn close_channel<R: Read, W: Write>(self, line: &mut Line<R, W>) -> Result<(), ClientFault>
        ensures sent { OnOk result (SendsBytes (flow_of R.remaining W.contents line.old)
            (flow_of R.remaining W.contents line.new)
            (closing self.token self.number self.request)) }
        ensures part { OnErr result (SendsPart (flow_of R.remaining W.contents line.old)
            (flow_of R.remaining W.contents line.new)
            (closing self.token self.number self.request)) }
    {
        let ids = ChunkIds {
            token: self.token,
            request_id: self.request_id,
            number: self.number,
        };
        send_closing(line.alloc, &mut line.writer, ids)
    }
}

/// That an ActivateSession response stands here, behind its header.
fn only_activated(alloc: Global, told: &[u8]) -> Result<(), ClientFault>
    ensures { OnOk result (activate_session_response.read told.now ≡ Ok (tt, [])) }
{
    let mut cursor = Cursor::new(told);
    read_activate_session_response(alloc, &mut cursor)?;
    if !cursor.rest().is_empty() {
        return Err(ClientFault::Format);
    }
    Ok(())
}

/// That nothing stands here, as behind the header of a CloseSession response.
fn only_closed(told: &[u8]) -> Result<(), ClientFault>
    ensures { OnOk result (told.now ≡ []) }
{
    if !told.is_empty() {
        return Err(ClientFault::Format);
    }
    Ok(())
}

/// The one result that a HistoryUpdate response tells, behind its header.
fn only_result(alloc: Global, told: &[u8]) -> Result<UpdateResult, ClientFault>
    ensures { IfOk result (λ done. IsOnlyResult told.now (update_in done)) }
{
    let mut cursor = Cursor::new(told);
    let mut results = read_history_update_response(alloc, &mut cursor)?.into_vec();
    if !cursor.rest().is_empty() || results.len() != 1 {
        return Err(ClientFault::Format);
    }
    match results.pop() {
        Some(done) => Ok(done),
        None => Err(ClientFault::Format),
    }
}

/// What a CreateSession response tells, behind its header.
fn granted_in<'a>(alloc: Global, told: &'a [u8]) -> Result<Granted<'a>, ClientFault>
    ensures { IfOk result
        (λ granted. create_session_response.read told.entry.now ≡ Ok (made_in granted, [])) }
{
    let mut cursor = Cursor::new(told);
    let granted = read_create_session_response(alloc, &mut cursor)?;
    if !cursor.rest().is_empty() {
        return Err(ClientFault::Format);
    }
    Ok(granted)
}

/// The authentication token that a CreateSession response tells, behind its header.
fn session_in(alloc: Global, told: &[u8]) -> Result<NodeId, ClientFault>
    ensures session { IfOk result (IsSession told.now) }
    ensures short { IfOk result IsShortNode }
{
    let granted = granted_in(alloc, told)?;
    let token = granted.authentication_token;
    if !is_short(token) {
        return Err(ClientFault::Format);
    }
    Ok(token.to_owned(alloc)?)
}

/// Greets a server and opens a channel under the policy None (Part 6, 7.1.2; Part 4, 5.6.2) that is good for so long, in
/// milliseconds.
pub fn connect<R: Read, W: Write>(
    line: &mut Line<R, W>,
    lifetime: u32,
) -> Result<Client, ClientFault>
    ensures connects { IfOk result (λ client. Connects client lifetime
        (flow_of R.remaining W.contents line.old) (flow_of R.remaining W.contents line.new)) }
    ensures part { OnErr result (SendsPart (flow_of R.remaining W.contents line.old)
        (flow_of R.remaining W.contents line.new) (connecting lifetime)) }
{
    let ack = greet(line)?;
    let opened = open_channel(line, lifetime)?;
    Ok(Client {
        limit: ack.receive_size,
        token: opened.token,
        number: FIRST + 1,
        heard: FIRST + 1,
        request_id: FIRST + 1,
        session: NodeId::Numeric(0, 0),
    })
}
