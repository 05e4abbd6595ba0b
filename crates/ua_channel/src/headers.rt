//! The headers of chunks (Part 6, 6.7.2), of requests and responses (Part 4, 7.33 and 7.34), and
//! what opens a channel (Part 4, 5.6.2).

ghost use Rattle.ua_binary.specs.declared.values.NodeId.TheVariants.{Numeric};
ghost use Rattle.std.specs.Prelude.{◌≡◌, ◌<◌, ◌^◌, Some, length, false, ◌==◌, ◌&&◌};
ghost use Rattle.std.specs.Option.{option_copied};
ghost use Rattle.ua_binary.specs.Format.{Reads, Puts, PutsPart};
ghost use Rattle.ua_binary.specs.Binary.{node_of};
ghost use Rattle.ua_channel.specs.Headers.{security_header, sequence_header, message_header, request_header, request_fields, response_header, open_request, open_response, policy_none};

use ua_binary::{
    BinaryFault, Cursor, ExtensionRef, NodeId, NodeIdRef, Status, Ticks, put_block, put_bytes,
    put_node_id, put_text, put_ticks, put_u32,
};

/// The URI of the security policy None (Part 7).
const POLICY_NONE: &str = "http://opcfoundation.org/UA/SecurityPolicy#None";

/// The URI of the policy that is served.
#[tactic(auto, unfolding(crate::specs::Headers::policy_none))]
pub(crate) fn policy_uri() -> &'static str
    ensures value { result.now ≡ policy_none }
    ensures few { length result.now < 2 ^ 31 }
{
    POLICY_NONE
}

/// The four numbers at the front of a MSG or CLO chunk, after its size (Part 6, 6.7.2).
#[derive(Clone, Copy, Debug, PartialEq, Eq)]
pub(crate) struct Numbers {
    pub channel_id: u32,
    pub token: u32,
    pub number: u32,
    pub request_id: u32,
}

/// What an OpenSecureChannel request asks for (Part 4, 5.6.2).
#[derive(Clone, Copy, Debug, PartialEq, Eq)]
pub(crate) struct OpenRequestBody {
    pub handle: u32,
    pub request_type: i32,
    pub mode: i32,
    pub lifetime: u32,
}

/// The header of a request (Part 4, 7.33), in the memory that it was read from.
#[derive(Clone, Copy, Debug)]
pub struct RequestHeader<'a> {
    /// The authentication token of a session.
    pub token: NodeIdRef<'a>,
    /// When the client sent it.
    pub timestamp: Ticks,
    /// What the client calls the request.
    pub handle: u32,
    /// The mask of the diagnostics that the client asks for.
    pub diagnostics: u32,
    /// The client's entry for an audit log.
    pub audit: Option<&'a str>,
    /// In milliseconds, how long the client waits; 0 is for good.
    pub timeout: u32,
    /// What a profile may add.
    pub additional: ExtensionRef<'a>,
}

/// The channel id and the policy of an OPN chunk; the certificate and the thumbprint are read and
/// dropped.
#[tactic(auto, unfolding(crate::specs::Headers::security_header))]
pub(crate) fn read_security_header<'a>(
    cursor: &mut Cursor<'a>,
) -> Result<(u32, Option<&'a str>), BinaryFault>
    ensures { Reads (λ x. (x.0, option_copied x.1)) result cursor.old cursor.new security_header.read }
{
    let mut next = cursor.fork();
    let channel_id = next.u32()?;
    let policy = next.text()?;
    let _certificate = next.bytes()?;
    let _thumbprint = next.bytes()?;
    *cursor = next;
    Ok((channel_id, policy))
}

/// The sequence number and the request id of an OPN chunk.
#[tactic(auto, unfolding(crate::specs::Headers::sequence_header))]
pub(crate) fn read_sequence_header(cursor: &mut Cursor<'_>) -> Result<(u32, u32), BinaryFault>
    ensures { Reads (λ x. x) result cursor.old cursor.new sequence_header.read }
{
    let mut next = cursor.fork();
    let number = next.u32()?;
    let request_id = next.u32()?;
    *cursor = next;
    Ok((number, request_id))
}

/// The numbers of a MSG or CLO chunk.
#[tactic(auto, unfolding(crate::specs::Headers::message_header))]
#[inline(always)]
pub(crate) fn read_message_header(cursor: &mut Cursor<'_>) -> Result<Numbers, BinaryFault>
    ensures { Reads (λ x. x) result cursor.old cursor.new message_header.read }
{
    let mut next = cursor.fork();
    let channel_id = next.u32()?;
    let token = next.u32()?;
    let number = next.u32()?;
    let request_id = next.u32()?;
    *cursor = next;
    Ok(Numbers {
        channel_id,
        token,
        number,
        request_id,
    })
}

/// The header of a request (Part 4, 7.33): a NodeId, a DateTime, two UInt32, a String, a UInt32 and
/// an ExtensionObject. A fault is that of the leftmost field that has no spelling, and leaves the
/// cursor where it was. It takes no memory.
#[tactic(auto, unfolding(crate::specs::Headers::request_header))]
#[inline(always)]
pub fn read_request_header<'a>(cursor: &mut Cursor<'a>) -> Result<RequestHeader<'a>, BinaryFault>
    ensures { Reads request_fields result cursor.old cursor.new request_header.read }
{
    let mut next = cursor.fork();
    let token = next.node_id()?;
    let timestamp = next.ticks()?;
    let handle = next.u32()?;
    let diagnostics = next.u32()?;
    let audit = next.text()?;
    let timeout = next.u32()?;
    let additional = next.extension()?;
    *cursor = next;
    Ok(RequestHeader {
        token,
        timestamp,
        handle,
        diagnostics,
        audit,
        timeout,
        additional,
    })
}

fn is_opening_id(id: &NodeIdRef<'_>) -> bool
    ensures { result
        ≡ (elim (node_of id.now)
        [ Numeric namespace id ↦ namespace == 0 && id == 446 | _ ↦ false ]) }
{
    match id {
        NodeIdRef::Numeric(namespace, id) => *namespace == 0 && *id == 446,
        _ => false,
    }
}

/// A request for a channel: its type id, its header and its fields.
#[tactic(auto, unfolding(crate::specs::Headers::open_request))]
pub(crate) fn read_open_request(cursor: &mut Cursor<'_>) -> Result<OpenRequestBody, BinaryFault>
    ensures { Reads (λ x. x) result cursor.old cursor.new open_request.read }
{
    let mut next = cursor.fork();
    let id = next.node_id()?;
    if !is_opening_id(&id) {
        return Err(BinaryFault::BadEncodingByte);
    }
    let header = read_request_header(&mut next)?;
    let _version = next.u32()?;
    let request_type = next.i32()?;
    let mode = next.i32()?;
    let _nonce = next.bytes()?;
    let lifetime = next.u32()?;
    *cursor = next;
    Ok(OpenRequestBody {
        handle: header.handle,
        request_type,
        mode,
        lifetime,
    })
}

/// The header of a response: its moment, the request's handle and a status, no diagnostics, a null array of texts and no
/// additional header.
#[tactic(auto, unfolding(crate::specs::Headers::response_header, ua_binary::specs::Binary::ticks, ua_binary::specs::Binary::status, ua_binary::specs::Binary::signed, ua_binary::specs::Binary::unsigned))]
#[inline(always)]
fn response_head(now: Ticks, handle: u32, status: Status) -> [u8; 24]
    ensures { result ≡ response_header.canon (now, (handle, status)) }
{
    let n = now.0.to_le_bytes();
    let h = handle.to_le_bytes();
    let s = status.0.to_le_bytes();
    [
        n[0], n[1], n[2], n[3], n[4], n[5], n[6], n[7], h[0], h[1], h[2], h[3], s[0], s[1], s[2],
        s[3], 0, 0xFF, 0xFF, 0xFF, 0xFF, 0, 0, 0,
    ]
}

/// Appends the header of a response (Part 4, 7.34) that was made at this moment: 24 bytes, without
/// diagnostics, texts or an additional header. The one error is `OutOfMemory`, which leaves the
/// vector as it was.
#[inline(always)]
pub fn put_response_header(
    now: Ticks,
    handle: u32,
    status: Status,
    out: &mut Vec<u8>,
) -> Result<(), BinaryFault>
    ensures { Puts BinaryFault.OutOfMemory result out.old.items out.new.items
        (response_header.canon (now, (handle, status))) }
{
    put_block(out, &response_head(now, handle, status))
}

/// The security header of the server's OPN chunks: channel 1, policy None, no certificate and no
/// thumbprint. An error leaves a part.
#[tactic(auto, using(ua_binary::proofs::Kept::kept), unfolding(crate::specs::Headers::security_header))]
pub(crate) fn put_security_header_parts(out: &mut Vec<u8>) -> Result<(), BinaryFault>
    ensures { PutsPart BinaryFault.OutOfMemory result out.old.items out.new.items
        (security_header.canon (1, Some policy_none)) }
{
    put_u32(out, 1)?;
    put_text(out, Some(policy_uri()))?;
    put_bytes(out, None)?;
    put_bytes(out, None)?;
    Ok(())
}

/// What an OpenSecureChannel response says, its header aside.
#[derive(Clone, Copy)]
pub(crate) struct Opened {
    pub handle: u32,
    pub token: u32,
    pub made: Ticks,
    pub lifetime: u32,
}

/// The body of an OPN chunk that answers. An error leaves a part.
#[tactic(auto, using(ua_binary::proofs::Kept::kept), unfolding(crate::specs::Headers::open_response))]
pub(crate) fn put_open_response_parts(out: &mut Vec<u8>, opened: &Opened) -> Result<(), BinaryFault>
    ensures { PutsPart BinaryFault.OutOfMemory result out.old.items out.new.items
        (open_response.canon (
          (opened.now.made, (opened.now.handle, record { 0 = 0 })),
          (opened.now.token, (opened.now.made, opened.now.lifetime)),
        )) }
{
    put_node_id(out, &NodeId::Numeric(0, 449))?;
    put_response_header(opened.made, opened.handle, Status(0), out)?;
    put_u32(out, 0)?;
    put_u32(out, 1)?;
    put_u32(out, opened.token)?;
    put_ticks(out, opened.made)?;
    put_u32(out, opened.lifetime)?;
    put_u32(out, u32::MAX)?;
    Ok(())
}
