//! Responses: what each begins with, what the services answer (Part 4, 5.7 and 5.11.5; Part 11, 6.9), and what answers a greeting
//! and an opening (Part 6, 7.1.2.4; Part 4, 5.6.2).

ghost use Rattle.std.specs.Prelude.{◌≡◌, List, ℕ, Option, Ok, Err, MatchResult, map};
ghost use Rattle.ua_binary.specs.declared.codes.Status.{Status as StatusValue};
ghost use Rattle.ua_binary.specs.Format.{Reads, ReadsUnless};
ghost use Rattle.ua_binary.specs.Binary.{node_id, node_of, status};
ghost use Rattle.ua_binary.specs.declared.values.NodeId.TheVariants.{Numeric};
ghost use Rattle.ua_services.specs.Unkept.{unkept_array, null};
ghost use Rattle.uacp.specs.Greeting.{fixed, fixed_number, acknowledge, error};
ghost use Rattle.ua_channel.specs.Headers.{response_header, open_response};
ghost use Rattle.ua_services.specs.Structure.{is_standard_type};
ghost use Rattle.ua_services.specs.Sessions.{signed_software_certificate, create_session_response, activate_session_response};
ghost use Rattle.ua_services.specs.Updates.{history_update_result, history_update_response};
ghost use Rattle.ua_client.specs.Answers.{certificate_in, made_in, update_in, header_in, opened_fields, is_good, body_in, chunk_refusal, acknowledge_in};

use crate::endpoints::Endpoint;
use crate::fault::ClientFault;
use std::alloc::Global;
use ua_binary::{BinaryFault, Cursor, Decode, Listing, NodeIdRef, Status, Ticks, read_array};
use uacp::Ack;

/// What the header of a response says (Part 4, 7.34).
#[derive(Clone, Copy, Debug)]
pub struct ResponseHeader {
    /// When it was made.
    pub timestamp: Ticks,
    /// The handle of the request.
    pub handle: u32,
    pub status: Status,
}

/// What an OpenSecureChannel response says (Part 4, 5.6.2); the channel is the first one.
#[derive(Clone, Copy, Debug)]
pub struct Opened {
    pub header: ResponseHeader,
    pub token: u32,
    /// When the token was made.
    pub created_at: Ticks,
    /// In milliseconds, how long the token is good.
    pub lifetime: u32,
}

/// A certificate of a software, and its signature (Part 4, 7.38).
#[derive(Clone, Copy, Debug, Drop)]
struct Certificate<'a> {
    bytes: Option<&'a [u8]>,
    signature: Option<&'a [u8]>,
}

/// What a CreateSession response says (Part 4, 5.7.2), in the bytes that it was read from.
#[derive(Debug, Drop)]
pub struct Granted<'a> {
    pub session_id: NodeIdRef<'a>,
    /// What the client shows with each request.
    pub authentication_token: NodeIdRef<'a>,
    /// The bytes of a Double: in milliseconds, how long the session lives without a request.
    pub timeout: [u8; 8],
    pub endpoints: Vec<Endpoint<'a>>,
    /// The most bytes of a request; 0 is no limit.
    pub max_request_size: u32,
}

/// What one of the details of a HistoryUpdate was answered (Part 4, 5.11.5).
#[derive(Debug, Drop)]
pub struct UpdateResult {
    pub status: Status,
    /// The code of each operation, in order.
    pub operation_results: Listing<Status>,
}

/// These bytes; others are `BadEncodingByte`.
fn read_fixed(cursor: &mut Cursor<'_>, word: &[u8]) -> Result<(), BinaryFault>
    ensures { Reads (λ x. x) result cursor.old cursor.new (fixed word.now).read }
{
    let mut next = cursor.fork();
    let Ok(found) = next.block(word.len()) else {
        return Err(BinaryFault::BadEncodingByte);
    };
    if found != word {
        return Err(BinaryFault::BadEncodingByte);
    }
    *cursor = next;
    Ok(())
}

/// This number, in 32 bits.
#[tactic(auto, unfolding(ua_binary::specs::Binary::unsigned))]
fn read_fixed_number(cursor: &mut Cursor<'_>, number: u32) -> Result<(), BinaryFault>
    ensures { Reads (λ x. x) result cursor.old cursor.new (fixed_number number).read }
{
    read_fixed(cursor, &number.to_le_bytes())
}

#[tactic(auto, unfolding(uacp::specs::Greeting::acknowledge))]
fn read_ack_fields(cursor: &mut Cursor<'_>) -> Result<Ack, BinaryFault>
    ensures { Reads (λ v. v) result cursor.old cursor.new acknowledge.read }
{
    let mut next = cursor.fork();
    read_fixed(&mut next, b"ACKF")?;
    read_fixed_number(&mut next, 28)?;
    read_fixed_number(&mut next, 0)?;
    let receive_size = next.u32()?;
    let send_size = next.u32()?;
    read_fixed_number(&mut next, 4_194_304)?;
    read_fixed_number(&mut next, 64)?;
    *cursor = next;
    Ok(Ack {
        receive_size,
        send_size,
    })
}

#[tactic(auto, unfolding(uacp::specs::Greeting::error))]
fn read_error_fields(cursor: &mut Cursor<'_>) -> Result<Status, BinaryFault>
    ensures { Reads (λ v. v) result cursor.old cursor.new error.read }
{
    let mut next = cursor.fork();
    read_fixed(&mut next, b"ERRF")?;
    read_fixed_number(&mut next, 16)?;
    let status = next.status()?;
    read_fixed_number(&mut next, u32::MAX)?;
    *cursor = next;
    Ok(status)
}

/// Why a chunk answers nothing: the code of an Error (Part 6, 7.1.2.5) is `Refused`, and what is none is `Format`.
pub fn refusal_in(chunk: &[u8]) -> ClientFault
    ensures { result ≡ chunk_refusal chunk.now }
{
    let mut cursor = Cursor::new(chunk);
    match read_error_fields(&mut cursor) {
        Ok(status) if cursor.rest().is_empty() => ClientFault::Refused(status),
        _ => ClientFault::Format,
    }
}

/// Reads the Acknowledge that a chunk is (Part 6, 7.1.2.4). An Error is `Refused` with its code, and another chunk `Format`.
pub fn read_acknowledge(chunk: &[u8]) -> Result<Ack, ClientFault>
    ensures { result ≡ acknowledge_in chunk.now }
{
    let mut cursor = Cursor::new(chunk);
    match read_ack_fields(&mut cursor) {
        Ok(ack) => {
            if cursor.rest().is_empty() {
                Ok(ack)
            } else {
                Err(ClientFault::Format)
            }
        }
        Err(_) => Err(refusal_in(chunk)),
    }
}

/// Reads the header of a response (Part 4, 7.34) without diagnostics, texts and an additional header: a DateTime, a UInt32, a
/// StatusCode. A fault is that of the leftmost field that has no spelling, and leaves the cursor where it was. It takes no
/// memory.
#[tactic(auto, unfolding(ua_channel::specs::Headers::response_header))]
pub fn read_response_header(cursor: &mut Cursor<'_>) -> Result<ResponseHeader, BinaryFault>
    ensures { Reads header_in result cursor.old cursor.new response_header.read }
{
    let mut next = cursor.fork();
    let timestamp = next.ticks()?;
    let handle = next.u32()?;
    let status = next.status()?;
    read_fixed(&mut next, &[0])?;
    read_fixed_number(&mut next, u32::MAX)?;
    read_fixed(&mut next, &[0, 0, 0])?;
    *cursor = next;
    Ok(ResponseHeader {
        timestamp,
        handle,
        status,
    })
}

/// The type id of an OpenSecureChannel response.
#[tactic(auto, unfolding(ua_binary::specs::Binary::node_id, ua_binary::specs::Binary::unsigned))]
fn read_opened_type(cursor: &mut Cursor<'_>) -> Result<(), BinaryFault>
    ensures { Reads
        (λ x. x) result cursor.old cursor.new (fixed (node_id.canon (Numeric 0 449))).read }
{
    read_fixed(cursor, &[1, 0, 0xC1, 1])
}

/// Reads an OpenSecureChannel response (Part 4, 5.6.2) with its type and its header: version 0, channel 1, a token, when it was
/// made and how long it is good, and a null nonce. A fault is that of the leftmost field that has no spelling, and leaves the
/// cursor where it was. It takes no memory.
#[tactic(auto, unfolding(ua_channel::specs::Headers::open_response))]
pub fn read_open_response(cursor: &mut Cursor<'_>) -> Result<Opened, BinaryFault>
    ensures { Reads opened_fields result cursor.old cursor.new open_response.read }
{
    let mut next = cursor.fork();
    read_opened_type(&mut next)?;
    let header = read_response_header(&mut next)?;
    read_fixed_number(&mut next, 0)?;
    read_fixed_number(&mut next, 1)?;
    let token = next.u32()?;
    let created_at = next.ticks()?;
    let lifetime = next.u32()?;
    read_fixed_number(&mut next, u32::MAX)?;
    *cursor = next;
    Ok(Opened {
        header,
        token,
        created_at,
        lifetime,
    })
}

impl<'a> Decode<'a> for Certificate<'a> {
    type Fault = BinaryFault;

    ghost Value = { Option (List ℕ) × Option (List ℕ) };

    ghost view = { certificate_in };

    ghost format = { signed_software_certificate };

    fn decode(alloc: Global, cursor: &mut Cursor<'a>) -> Result<Certificate<'a>, BinaryFault> {
        let mut next = cursor.fork();
        let bytes = next.bytes()?;
        let signature = next.bytes()?;
        *cursor = next;
        Ok(Certificate { bytes, signature })
    }
}

/// Certificates of software, of which none is kept.
fn skip_certificates(alloc: Global, cursor: &mut Cursor<'_>) -> Result<(), BinaryFault>
    ensures { ReadsUnless BinaryFault.OutOfMemory (λ x. x) result cursor.old cursor.new
        (unkept_array signed_software_certificate).read }
{
    let _certificates = read_array::<Certificate<'_>>(alloc, cursor)?;
    Ok(())
}

/// Status codes, of which none is kept.
fn skip_codes(alloc: Global, cursor: &mut Cursor<'_>) -> Result<(), BinaryFault>
    ensures { ReadsUnless BinaryFault.OutOfMemory (λ x. x) result cursor.old cursor.new
        (unkept_array status).read }
{
    let _codes = read_array::<Status>(alloc, cursor)?;
    Ok(())
}

/// Reads a CreateSession response (Part 4, 5.7.2) behind its header: two NodeIds, a Double, a nonce and a certificate, the
/// endpoints, certificates of software, a signature and a UInt32. A fault is that of the leftmost field that has no spelling, or
/// `OutOfMemory`, and leaves the cursor where it was.
#[tactic(auto, unfolding(ua_services::specs::Sessions::create_session_response))]
pub fn read_create_session_response<'a>(
    alloc: Global,
    cursor: &mut Cursor<'a>,
) -> Result<Granted<'a>, BinaryFault>
    ensures { ReadsUnless BinaryFault.OutOfMemory made_in result cursor.old cursor.new
        create_session_response.read }
{
    let mut next = cursor.fork();
    let session_id = next.node_id()?;
    let authentication_token = next.node_id()?;
    let timeout = next.eight()?;
    let _nonce = next.bytes()?;
    let _certificate = next.bytes()?;
    let endpoints = read_array(alloc, &mut next)?;
    skip_certificates(alloc, &mut next)?;
    let _algorithm = next.text()?;
    let _signature = next.bytes()?;
    let max_request_size = next.u32()?;
    *cursor = next;
    Ok(Granted {
        session_id,
        authentication_token,
        timeout,
        endpoints,
        max_request_size,
    })
}

/// A null array.
#[tactic(auto, unfolding(ua_binary::specs::Binary::signed, ua_binary::specs::Binary::unsigned))]
fn read_null_array(cursor: &mut Cursor<'_>) -> Result<(), BinaryFault>
    ensures { Reads (λ x. x) result cursor.old cursor.new null.read }
{
    read_fixed(cursor, &[0xFF, 0xFF, 0xFF, 0xFF])
}

/// Reads an ActivateSession response (Part 4, 5.7.3) behind its header: a nonce, status codes and a null array. A fault is that of
/// the leftmost field that has no spelling, or `OutOfMemory`, and leaves the cursor where it was.
#[tactic(auto, unfolding(ua_services::specs::Sessions::activate_session_response))]
pub fn read_activate_session_response(
    alloc: Global,
    cursor: &mut Cursor<'_>,
) -> Result<(), BinaryFault>
    ensures { ReadsUnless BinaryFault.OutOfMemory (λ x. x) result cursor.old cursor.new
        activate_session_response.read }
{
    let mut next = cursor.fork();
    let _nonce = next.bytes()?;
    skip_codes(alloc, &mut next)?;
    read_null_array(&mut next)?;
    *cursor = next;
    Ok(())
}

impl<'a> Decode<'a> for UpdateResult {
    type Fault = BinaryFault;

    ghost Value = { StatusValue × List StatusValue };

    ghost view = { update_in };

    ghost format = { history_update_result };

    #[tactic(auto, using(ua_services::proofs::Fits::all_same), unfolding(ua_services::specs::Updates::history_update_result))]
    fn decode(alloc: Global, cursor: &mut Cursor<'a>) -> Result<UpdateResult, BinaryFault> {
        let mut next = cursor.fork();
        let status = next.status()?;
        let operation_results = Listing::of(read_array(alloc, &mut next)?);
        read_null_array(&mut next)?;
        *cursor = next;
        Ok(UpdateResult {
            status,
            operation_results,
        })
    }
}

/// Reads a HistoryUpdate response (Part 4, 5.11.5) behind its header: the results, and a null array of diagnostics. A fault is that
/// of the leftmost field that has no spelling, or `OutOfMemory`, and leaves the cursor where it was.
#[tactic(auto, unfolding(ua_services::specs::Updates::history_update_response))]
pub fn read_history_update_response(
    alloc: Global,
    cursor: &mut Cursor<'_>,
) -> Result<Listing<UpdateResult>, BinaryFault>
    ensures { ReadsUnless BinaryFault.OutOfMemory (λ v. map update_in v) result cursor.old cursor.new
        history_update_response.read }
{
    let mut next = cursor.fork();
    let results = Listing::of(read_array(alloc, &mut next)?);
    read_null_array(&mut next)?;
    *cursor = next;
    Ok(results)
}

/// Whether a type is the one with this id in namespace 0.
fn is_type(id: u32, type_id: &NodeIdRef<'_>) -> bool
    ensures { result ≡ is_standard_type id (node_of type_id.now) }
{
    match type_id {
        NodeIdRef::Numeric(namespace, found) => *namespace == 0 && *found == id,
        _ => false,
    }
}

/// Whether a code's severity is good.
pub(crate) fn is_good(status: Status) -> bool
    ensures { result ≡ is_good status }
{
    status.0 < 0x4000_0000
}

/// What stands behind the header of a response of this type, in namespace 0, to the request of this handle. One whose status isn't
/// good, as each ServiceFault's, is `Refused` with it, and what else came is `Format`.
pub fn answer_in<'a>(type_id: u32, handle: u32, message: &'a [u8]) -> Result<&'a [u8], ClientFault>
    ensures { MatchResult result
        (λ body. body_in type_id handle message.entry.now ≡ Ok body.now)
        (λ fault. body_in type_id handle message.entry.now ≡ Err fault) }
{
    let mut cursor = Cursor::new(message);
    let Ok(found) = cursor.node_id() else {
        return Err(ClientFault::Format);
    };
    let Ok(header) = read_response_header(&mut cursor) else {
        return Err(ClientFault::Format);
    };
    if !is_good(header.status) {
        return Err(ClientFault::Refused(header.status));
    }
    if is_type(type_id, &found) && header.handle == handle {
        Ok(cursor.rest())
    } else {
        Err(ClientFault::Format)
    }
}
