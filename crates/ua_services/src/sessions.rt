//! How sessions are made, activated and closed (Part 4, 5.7.2 to 5.7.4).

ghost use Rattle.std.specs.Prelude.{◌≡◌, IfOk};
ghost use Rattle.ua_binary.specs.Format.{Reads, Puts, PutsPart};
ghost use Rattle.ua_session.specs.Users.{claim_of};
ghost use Rattle.ua_services.specs.Sessions.{session_asked, create_session_request, session_made, IsShortSession, IsSessionMade, create_session_response, activate_session_request, activate_session_response, close_session_request};

use crate::endpoints::EndpointDescription;
use crate::identity::read_user_identity;
use crate::many::{put_many, put_null_array};
use crate::skipping::{skip_application, skip_certificates, skip_signature, skip_texts};
use ua_binary::{BinaryFault, Cursor, Encode, NodeId, or_undone, put_bytes, put_node_id, put_text};
use ua_session::Identity;

/// What a CreateSession request asks (Part 4, 5.7.2), in the bytes that it was read from. The client's
/// description, nonce and certificate aren't kept, since no policy with signatures is served.
#[derive(Clone, Copy, Debug, Drop)]
pub struct CreateSessionRequest<'a> {
    /// The URL that the client used.
    pub endpoint_url: Option<&'a str>,
    /// What the client calls the session.
    pub session_name: Option<&'a str>,
    /// The bytes of a Double: in milliseconds, how long the session is to live without a request.
    pub timeout: [u8; 8],
}

/// What a CreateSession response says (Part 4, 5.7.2).
#[derive(Debug, Drop)]
pub struct CreateSessionResponse {
    pub session_id: NodeId,
    /// What the client shows with each request.
    pub authentication_token: NodeId,
    /// The bytes of a Double: in milliseconds, how long the session lives without a request.
    pub timeout: [u8; 8],
    pub endpoints: Vec<EndpointDescription>,
    /// The most bytes of a request; 0 is no limit.
    pub max_request_size: u32,
}

/// What an ActivateSession request asks (Part 4, 5.7.3), in the bytes that it was read from.
#[derive(Clone, Copy, Debug, Drop)]
pub struct ActivateSessionRequest<'a> {
    pub user_identity: Identity<'a>,
}

/// What a CloseSession request asks (Part 4, 5.7.4).
#[derive(Clone, Copy, Debug, PartialEq, Eq)]
pub struct CloseSessionRequest {
    /// Whether the session's subscriptions end with it.
    pub delete_subscriptions: bool,
}

/// Reads a CreateSession request (Part 4, 5.7.2) behind its header: an ApplicationDescription, three
/// Strings, two ByteStrings, a Double and a UInt32. A fault is that of the leftmost field that has no
/// spelling, and leaves the cursor where it was. It takes no memory.
#[tactic(auto, unfolding(crate::specs::Sessions::create_session_request))]
pub fn read_create_session_request<'a>(
    cursor: &mut Cursor<'a>,
) -> Result<CreateSessionRequest<'a>, BinaryFault>
    ensures { Reads session_asked result cursor.old cursor.new create_session_request.read }
{
    let mut next = cursor.fork();
    skip_application(&mut next)?;
    let _server_uri = next.text()?;
    let endpoint_url = next.text()?;
    let session_name = next.text()?;
    let _client_nonce = next.bytes()?;
    let _client_certificate = next.bytes()?;
    let timeout = next.eight()?;
    let _max_response_size = next.u32()?;
    *cursor = next;
    Ok(CreateSessionRequest {
        endpoint_url,
        session_name,
        timeout,
    })
}

#[tactic(auto, using(ua_binary::proofs::Kept::kept, crate::proofs::Fits::fits), unfolding(crate::specs::Sessions::create_session_response))]
fn put_create_session_parts(out: &mut Vec<u8>, v: &CreateSessionResponse) -> Result<(), BinaryFault>
    requires { IsShortSession v.now }
    ensures puts { PutsPart BinaryFault.OutOfMemory result out.old.items out.new.items
        (create_session_response.canon (session_made v.now)) }
    ensures spelled { IfOk result (λ _. IsSessionMade (session_made v.now)) }
{
    put_node_id(out, &v.session_id)?;
    put_node_id(out, &v.authentication_token)?;
    v.timeout.put(out)?;
    put_bytes(out, None)?;
    put_bytes(out, None)?;
    put_many(out, &v.endpoints)?;
    put_null_array(out)?;
    put_text(out, None)?;
    put_bytes(out, None)?;
    v.max_request_size.put(out)?;
    Ok(())
}

/// Writes a CreateSession response (Part 4, 5.7.2) behind its header: two NodeIds, a Double, a null
/// nonce and certificate, the endpoints, null software certificates and a null signature, and a UInt32.
/// Its one error is `OutOfMemory`, and then the vector is as it was. What was written has a spelling.
pub fn put_create_session_response(
    out: &mut Vec<u8>,
    v: &CreateSessionResponse,
) -> Result<(), BinaryFault>
    requires { IsShortSession v.now }
    ensures puts { Puts BinaryFault.OutOfMemory result out.old.items out.new.items
        (create_session_response.canon (session_made v.now)) }
    ensures spelled { IfOk result (λ _. IsSessionMade (session_made v.now)) }
{
    let len = out.len();
    let put = put_create_session_parts(out, v);
    or_undone(put, out, len)
}

/// Reads an ActivateSession request (Part 4, 5.7.3) behind its header: a signature, software
/// certificates, locales, the identity and its signature, of which the identity is kept. A fault is
/// that of the leftmost field that has no spelling, and leaves the cursor where it was. It takes no
/// memory.
#[tactic(auto, unfolding(crate::specs::Sessions::activate_session_request))]
pub fn read_activate_session_request<'a>(
    cursor: &mut Cursor<'a>,
) -> Result<ActivateSessionRequest<'a>, BinaryFault>
    ensures { Reads
        (λ r. claim_of r.user_identity) result cursor.old cursor.new activate_session_request.read }
{
    let mut next = cursor.fork();
    skip_signature(&mut next)?;
    skip_certificates(&mut next)?;
    skip_texts(&mut next)?;
    let user_identity = read_user_identity(&mut next)?;
    skip_signature(&mut next)?;
    *cursor = next;
    Ok(ActivateSessionRequest { user_identity })
}

#[tactic(auto, using(ua_binary::proofs::Kept::kept), unfolding(crate::specs::Sessions::activate_session_response))]
fn put_activate_session_parts(out: &mut Vec<u8>) -> Result<(), BinaryFault>
    ensures { PutsPart BinaryFault.OutOfMemory result out.old.items out.new.items
        (activate_session_response.canon tt) }
{
    put_bytes(out, None)?;
    put_null_array(out)?;
    put_null_array(out)?;
    Ok(())
}

/// Writes an ActivateSession response (Part 4, 5.7.3) behind its header: a null nonce, and null arrays
/// of results and of diagnostics. Its one error is `OutOfMemory`, and then the vector is as it was.
pub fn put_activate_session_response(out: &mut Vec<u8>) -> Result<(), BinaryFault>
    ensures { Puts BinaryFault.OutOfMemory result out.old.items out.new.items
        (activate_session_response.canon tt) }
{
    let len = out.len();
    let put = put_activate_session_parts(out);
    or_undone(put, out, len)
}

/// Reads a CloseSession request (Part 4, 5.7.4) behind its header: a Boolean. Its one fault is `Short`,
/// which leaves the cursor where it was. It takes no memory.
#[tactic(auto, unfolding(crate::specs::Sessions::close_session_request))]
pub fn read_close_session_request(
    cursor: &mut Cursor<'_>,
) -> Result<CloseSessionRequest, BinaryFault>
    ensures { Reads
        (λ r. r.delete_subscriptions) result cursor.old cursor.new close_session_request.read }
{
    Ok(CloseSessionRequest {
        delete_subscriptions: cursor.boolean()?,
    })
}
