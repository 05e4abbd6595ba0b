//! Requests: what each begins with, and what the services are asked (Part 4, 5.7 and 5.11.5; Part 11, 6.9).

ghost use Rattle.std.specs.Prelude.{◌≡◌, ◌+◌, ◌<◌, ◌^◌, ◌∷◌, [], pos, length, None, Some, IfSome, IsTrue};
ghost use Rattle.std.specs.Option.{option_copied};
ghost use Rattle.ua_binary.specs.Format.{Puts, PutsPart, saturated};
ghost use Rattle.ua_binary.specs.declared.values.NodeId.TheVariants.{Numeric};
ghost use Rattle.ua_binary.specs.declared.values.Body.TheVariants.{Absent};
ghost use Rattle.ua_binary.specs.Binary.{extension, localized, node_of, IsCounted, IsShortNode};
ghost use Rattle.ua_session.specs.Users.{Anonymous, Named};
ghost use Rattle.ua_services.specs.Attributes.{AreShortValues, data_values};
ghost use Rattle.ua_services.specs.Endpoints.{application_description};
ghost use Rattle.ua_services.specs.Sessions.{user_identity, create_session_request, activate_session_request, close_session_request};
ghost use Rattle.ua_services.specs.Updates.{UpdateData, update_data_details, history_update_request};
ghost use Rattle.ua_client.specs.Asking.{request_head, claim_in, update_of, IsShortLogin, IsShortUpdate};
ghost use Rattle.ua_variant.specs.DataValue.{IsShortData};

use ua_binary::{
    BinaryFault, Encode, NodeId, NodeIdRef, Ticks, or_undone, put_block, put_boolean, put_bytes,
    put_count, put_i32, put_node_id, put_node_id_ref, put_text, put_ticks, put_u8, put_u32,
};
use ua_variant::{DataValue, put_data_value};

/// What the header of a request says (Part 4, 7.33).
#[derive(Clone, Copy, Debug)]
pub struct Header<'a> {
    /// The session's authentication token; the null node where there is none.
    pub session: NodeIdRef<'a>,
    /// When it was made.
    pub timestamp: Ticks,
    /// What the response repeats.
    pub handle: u32,
    /// In milliseconds, how long the client waits; 0 is for good.
    pub timeout: u32,
}

/// Who the user of a session is (Part 4, 7.41).
#[derive(Clone, Copy)]
pub struct Login<'a> {
    pub name: &'a str,
    /// The password as it is.
    pub password: &'a [u8],
}

/// What a session is asked for by (Part 4, 5.7.2).
#[derive(Clone, Copy)]
pub struct NewSession<'a> {
    /// The URL of the endpoint.
    pub endpoint_url: Option<&'a str>,
    /// What the session is called.
    pub name: Option<&'a str>,
    /// The bytes of a Double: in milliseconds, how long the session is to live without a request.
    pub timeout: &'a [u8; 8],
}

/// What a HistoryUpdate brings (Part 11, 6.9.2).
#[derive(Clone, Copy)]
pub struct UpdateAsked<'a> {
    /// Whose history it is.
    pub node_id: &'a NodeId,
    /// 1 inserts values, 2 replaces them, 3 does either.
    pub perform: i32,
    pub values: &'a [DataValue],
}

/// The extension object without a type and without a body.
#[tactic(auto, unfolding(ua_binary::specs::Binary::extension, ua_binary::specs::Binary::node_id))]
fn put_no_extension(out: &mut Vec<u8>) -> Result<(), BinaryFault>
    ensures { Puts BinaryFault.OutOfMemory result out.old.items out.new.items
        (extension.canon (record { type_id = Numeric 0 0; body = Absent })) }
{
    put_block(out, &[0, 0, 0])
}

#[tactic(auto, using(ua_binary::proofs::Kept::kept), unfolding(ua_channel::specs::Headers::request_header))]
fn put_request_head_parts(
    out: &mut Vec<u8>,
    type_id: u32,
    header: Header<'_>,
) -> Result<(), BinaryFault>
    requires { IsShortNode (node_of header.session) }
    ensures { PutsPart BinaryFault.OutOfMemory result out.old.items out.new.items
        (request_head type_id header.entry) }
{
    put_node_id_ref(out, NodeIdRef::Numeric(0, type_id))?;
    put_node_id_ref(out, header.session)?;
    put_ticks(out, header.timestamp)?;
    put_u32(out, header.handle)?;
    put_u32(out, 0)?;
    put_text(out, None)?;
    put_u32(out, header.timeout)?;
    put_no_extension(out)?;
    Ok(())
}

/// Writes what a request begins with: the id of its type, in namespace 0, and its header (Part 4, 7.33), without diagnostics, an
/// entry for an audit log or an additional header. The one error is `OutOfMemory`, and then the vector is as it was.
pub fn put_request_head(
    out: &mut Vec<u8>,
    type_id: u32,
    header: Header<'_>,
) -> Result<(), BinaryFault>
    requires { IsShortNode (node_of header.session) }
    ensures { Puts BinaryFault.OutOfMemory result out.old.items out.new.items
        (request_head type_id header.entry) }
{
    let len = out.len();
    let put = put_request_head_parts(out, type_id, header);
    or_undone(put, out, len)
}

/// The localized text without a locale and without a text.
#[tactic(auto, unfolding(ua_binary::specs::Binary::localized))]
fn put_no_name(out: &mut Vec<u8>) -> Result<(), BinaryFault>
    ensures { Puts BinaryFault.OutOfMemory result out.old.items out.new.items
        (localized.canon (record { locale = None; text = None })) }
{
    put_block(out, &[0])
}

/// The client's description: nothing but null texts.
#[tactic(auto, using(ua_binary::proofs::Kept::kept), unfolding(ua_services::specs::Endpoints::application_description, ua_binary::specs::Binary::array))]
fn put_nobody_parts(out: &mut Vec<u8>) -> Result<(), BinaryFault>
    ensures { PutsPart BinaryFault.OutOfMemory result out.old.items out.new.items
        (application_description.canon
        (None, (None, (record { locale = None; text = None }, (pos 0, []))))) }
{
    put_text(out, None)?;
    put_text(out, None)?;
    put_no_name(out)?;
    put_i32(out, 0)?;
    put_text(out, None)?;
    put_text(out, None)?;
    put_count(out, 0)?;
    Ok(())
}

fn put_nobody(out: &mut Vec<u8>) -> Result<(), BinaryFault>
    ensures { Puts BinaryFault.OutOfMemory result out.old.items out.new.items
        (application_description.canon
        (None, (None, (record { locale = None; text = None }, (pos 0, []))))) }
{
    let len = out.len();
    let put = put_nobody_parts(out);
    or_undone(put, out, len)
}

#[tactic(auto, using(ua_binary::proofs::Kept::kept), unfolding(ua_services::specs::Sessions::create_session_request))]
fn put_create_session_parts(
    out: &mut Vec<u8>,
    endpoint_url: Option<&str>,
    session_name: Option<&str>,
    timeout: &[u8; 8],
) -> Result<(), BinaryFault>
    requires url { IsCounted (option_copied endpoint_url) }
    requires name { IsCounted (option_copied session_name) }
    ensures { PutsPart BinaryFault.OutOfMemory result out.old.items out.new.items
        (create_session_request.canon
        (option_copied endpoint_url.entry, (option_copied session_name.entry, timeout.now))) }
{
    put_nobody(out)?;
    put_text(out, None)?;
    put_text(out, endpoint_url)?;
    put_text(out, session_name)?;
    put_bytes(out, None)?;
    put_bytes(out, None)?;
    put_block(out, timeout)?;
    put_u32(out, 0)?;
    Ok(())
}

/// Writes a CreateSession request (Part 4, 5.7.2) behind its head: a client without a description, the URL of the endpoint, the
/// name of the session, no nonce and no certificate, the bytes of a Double that says in milliseconds how long the session is to
/// live without a request, and no limit of a response. The one error is `OutOfMemory`, and then the vector is as it was.
pub fn put_create_session_request(
    out: &mut Vec<u8>,
    endpoint_url: Option<&str>,
    session_name: Option<&str>,
    timeout: &[u8; 8],
) -> Result<(), BinaryFault>
    requires url { IsCounted (option_copied endpoint_url) }
    requires name { IsCounted (option_copied session_name) }
    ensures { Puts BinaryFault.OutOfMemory result out.old.items out.new.items
        (create_session_request.canon
        (option_copied endpoint_url.entry, (option_copied session_name.entry, timeout.now))) }
{
    let len = out.len();
    let put = put_create_session_parts(out, endpoint_url, session_name, timeout);
    or_undone(put, out, len)
}

#[tactic(auto, using(ua_binary::proofs::Kept::kept, crate::proofs::Canons::nobody))]
fn put_nobody_identity_parts(out: &mut Vec<u8>) -> Result<(), BinaryFault>
    ensures { PutsPart BinaryFault.OutOfMemory result out.old.items out.new.items
        (user_identity.canon Anonymous) }
{
    put_node_id_ref(out, NodeIdRef::Numeric(0, 0))?;
    put_u8(out, 0)?;
    Ok(())
}

#[tactic(auto, using(ua_binary::proofs::Kept::kept, crate::proofs::Canons::named))]
fn put_named_identity_parts(
    out: &mut Vec<u8>,
    name: &str,
    password: &[u8],
) -> Result<(), BinaryFault>
    requires { 16 + length name.now + length password.now < 2 ^ 31 }
    ensures { PutsPart BinaryFault.OutOfMemory result out.old.items out.new.items
        (user_identity.canon (Named (Some name.now) (Some password.now) None)) }
{
    put_node_id_ref(out, NodeIdRef::Numeric(0, 324))?;
    put_u8(out, 1)?;
    put_count(out, 16 + name.as_bytes().len() + password.len())?;
    put_text(out, None)?;
    put_text(out, Some(name))?;
    put_bytes(out, Some(password))?;
    put_text(out, None)?;
    Ok(())
}

/// Who the user is: a name with a password, or nobody.
fn put_identity(out: &mut Vec<u8>, login: Option<Login<'_>>) -> Result<(), BinaryFault>
    requires { IfSome login IsShortLogin }
    ensures { Puts BinaryFault.OutOfMemory result out.old.items out.new.items
        (user_identity.canon (claim_in login.entry)) }
{
    let len = out.len();
    let put = match login {
        None => put_nobody_identity_parts(out),
        Some(login) => put_named_identity_parts(out, login.name, login.password),
    };
    or_undone(put, out, len)
}

#[tactic(auto, using(ua_binary::proofs::Kept::kept), unfolding(ua_services::specs::Sessions::activate_session_request))]
fn put_activate_session_parts(
    out: &mut Vec<u8>,
    login: Option<Login<'_>>,
) -> Result<(), BinaryFault>
    requires { IfSome login IsShortLogin }
    ensures { PutsPart BinaryFault.OutOfMemory result out.old.items out.new.items
        (activate_session_request.canon (claim_in login.entry)) }
{
    put_text(out, None)?;
    put_bytes(out, None)?;
    put_i32(out, -1)?;
    put_i32(out, -1)?;
    put_identity(out, login)?;
    put_text(out, None)?;
    put_bytes(out, None)?;
    Ok(())
}

/// Writes an ActivateSession request (Part 4, 5.7.3) behind its head: no signature, null arrays of certificates and locales, the
/// user, by name and password as plain bytes or nobody, and no signature of that. The one error is `OutOfMemory`, and then the
/// vector is as it was.
pub fn put_activate_session_request(
    out: &mut Vec<u8>,
    login: Option<Login<'_>>,
) -> Result<(), BinaryFault>
    requires { IfSome login IsShortLogin }
    ensures { Puts BinaryFault.OutOfMemory result out.old.items out.new.items
        (activate_session_request.canon (claim_in login.entry)) }
{
    let len = out.len();
    let put = put_activate_session_parts(out, login);
    or_undone(put, out, len)
}

/// Writes a CloseSession request (Part 4, 5.7.4) behind its head: whether the session's subscriptions end with it. The one error
/// is `OutOfMemory`, and then the vector is as it was.
#[tactic(auto, unfolding(ua_services::specs::Sessions::close_session_request))]
pub fn put_close_session_request(
    out: &mut Vec<u8>,
    delete_subscriptions: bool,
) -> Result<(), BinaryFault>
    ensures { Puts BinaryFault.OutOfMemory result out.old.items out.new.items
        (close_session_request.canon delete_subscriptions) }
{
    put_boolean(out, delete_subscriptions)
}

#[tactic(auto, using(ua_binary::proofs::Kept::kept), unfolding(ua_binary::specs::Binary::array))]
fn put_values_parts(out: &mut Vec<u8>, values: &[DataValue]) -> Result<(), BinaryFault>
    requires { AreShortValues values.now }
    ensures { PutsPart BinaryFault.OutOfMemory result out.old.items out.new.items
        (data_values.canon values.now) }
{
    put_count(out, values.len())?;
    for value in values {
        put_data_value(out, value)?;
    }
    Ok(())
}

/// An array of data values. Where memory runs out, the vector is as it was.
fn put_values(out: &mut Vec<u8>, values: &[DataValue]) -> Result<(), BinaryFault>
    requires { AreShortValues values.now }
    ensures { Puts BinaryFault.OutOfMemory result out.old.items out.new.items
        (data_values.canon values.now) }
{
    let len = out.len();
    let put = put_values_parts(out, values);
    or_undone(put, out, len)
}

/// How many bytes an array of these values has, or 2^64 - 1 where there are more.
fn values_size(values: &[DataValue]) -> usize
    ensures { result ≡ saturated (length (data_values.canon values.now)) }
{
    let mut size = 4usize;
    for value in values {
        size = size.saturating_add(value.size());
    }
    size
}

/// How many bytes UpdateDataDetails (Part 11, 6.9.2) of this node and these values have, or 2^64 - 1 where there are more. It
/// takes no memory.
#[tactic(auto, using(crate::proofs::Canons::lengths))]
pub fn update_size(node_id: &NodeId, perform: i32, values: &[DataValue]) -> usize
    ensures { result
        ≡ saturated (length (update_data_details.canon (node_id.now, (perform, values.now)))) }
{
    let _ = perform;
    node_id
        .size()
        .saturating_add(4)
        .saturating_add(values_size(values))
}

/// Whether a value can be written: its picoseconds are at most 9,999, and its bytes can be counted.
fn is_short_value(value: &DataValue) -> bool
    ensures { IsTrue result → IsShortData value.now }
{
    let source = value.source_pico.unwrap_or(0);
    let server = value.server_pico.unwrap_or(0);
    source <= 9999 && server <= 9999 && value.size() < 0x8000_0000
}

/// Whether values can be counted, and each of them can be written.
fn are_short_values(values: &[DataValue]) -> bool
    ensures { IsTrue result → AreShortValues values.now }
{
    for value in values {
        if !is_short_value(value) {
            return false;
        }
    }
    values.len() < 0x8000_0000
}

/// Whether a node's text or bytes can be counted.
fn is_short_node(node: &NodeId) -> bool
    ensures { IsTrue result → IsShortNode node.now }
{
    node.size() < 0x8000_0000
}

/// Whether an update may be asked for: the node and each value can be written, and all of it has less than 2^31 bytes. It takes no
/// memory.
pub fn is_short_update(asked: &UpdateAsked<'_>) -> bool
    ensures { IsTrue result → IsShortUpdate (update_of asked.now) }
{
    is_short_node(asked.node_id)
        && are_short_values(asked.values)
        && update_size(asked.node_id, asked.perform, asked.values) < 0x8000_0000
}

/// The same of details that can be counted.
fn update_len(node_id: &NodeId, perform: i32, values: &[DataValue]) -> usize
    requires { length (update_data_details.canon (node_id.now, (perform, values.now))) < 2 ^ 31 }
    ensures { result ≡ length (update_data_details.canon (node_id.now, (perform, values.now))) }
{
    update_size(node_id, perform, values)
}

#[tactic(auto, using(ua_binary::proofs::Kept::kept, crate::proofs::Canons::updating))]
fn put_history_update_parts(
    out: &mut Vec<u8>,
    node_id: &NodeId,
    perform: i32,
    values: &[DataValue],
) -> Result<(), BinaryFault>
    requires { IsShortUpdate (node_id.now, (perform, values.now)) }
    ensures { PutsPart BinaryFault.OutOfMemory result out.old.items out.new.items
        (history_update_request.canon (UpdateData (node_id.now, (perform, values.now)) ∷ [])) }
{
    put_count(out, 1)?;
    put_node_id_ref(out, NodeIdRef::Numeric(0, 682))?;
    put_u8(out, 1)?;
    put_count(out, update_len(node_id, perform, values))?;
    put_node_id(out, node_id)?;
    put_i32(out, perform)?;
    put_values(out, values)?;
    Ok(())
}

/// Writes a HistoryUpdate request (Part 4, 5.11.5) behind its head: one structure, UpdateDataDetails (Part 11, 6.9.2), of this
/// node, what is done with values (1 Insert, 2 Replace, 3 Update), and the values, of which a server takes 1,000. The one error is
/// `OutOfMemory`, and then the vector is as it was.
pub fn put_history_update_request(
    out: &mut Vec<u8>,
    node_id: &NodeId,
    perform: i32,
    values: &[DataValue],
) -> Result<(), BinaryFault>
    requires { IsShortUpdate (node_id.now, (perform, values.now)) }
    ensures { Puts BinaryFault.OutOfMemory result out.old.items out.new.items
        (history_update_request.canon (UpdateData (node_id.now, (perform, values.now)) ∷ [])) }
{
    let len = out.len();
    let put = put_history_update_parts(out, node_id, perform, values);
    or_undone(put, out, len)
}
