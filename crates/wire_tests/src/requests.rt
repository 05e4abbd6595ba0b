//! Requests that the server's readers read again, and answers that its writers made.

ghost use Rattle.std.specs.Prelude.{◌≡◌, IfOk};
ghost use Rattle.ua_services.specs.Attributes.{AreShortValues};

use counted_io::Counted;
use std::alloc::{AllocError, Global};
use std::fmt::Debug;
use ua_binary::{
    BinaryFault, Cursor, Listing, LocalizedText, NodeId, NodeIdRef, Status, Text, Ticks,
    put_node_id_ref,
};
use ua_channel::put_response_header;
use ua_client::{
    ChunkIds, ClientFault, Line, Login, NewSession, UpdateAsked, answer_in, connect,
    is_short_update, put_activate_session_request, put_close_session_request, put_closing,
    put_create_session_request, put_greeting, put_history_update_request, put_message, put_opening,
    read_acknowledge, read_activate_session_response, read_create_session_response,
    read_history_update_response,
};
use ua_services::{
    ApplicationDescription, ApplicationType, CreateSessionResponse, EndpointDescription,
    HistoryUpdateResult, MessageSecurityMode, UserTokenPolicy, UserTokenType,
    put_activate_session_response, put_create_session_response, put_history_update_response,
    read_activate_session_request, read_close_session_request, read_create_session_request,
    read_history_update_request,
};
use ua_variant::{DataValue, Scalar, Variant};
use uacp::{Ack, Hello, put_ack, put_error};

/// Whether this was read, as `{:?}` shows it.
fn is_shown<T: Debug + Drop>(alloc: Global, found: T, want: &str) -> bool {
    format!(in alloc; "{found:?}").is_ok_and(|text| text.as_str() == want)
}

/// What is in the tests' update: 7 at the ticks 10.
fn seven(alloc: Global) -> Result<Vec<DataValue>, AllocError>
    ensures { IfOk result (λ values. AreShortValues values.items) }
{
    let mut values = Vec::new(alloc);
    values.push(DataValue {
        value: Some(Variant::Scalar(Scalar::Int32(7))),
        status: None,
        source_time: Some(Ticks(10)),
        source_pico: None,
        server_time: None,
        server_pico: None,
    })?;
    Ok(values)
}

/// Whether the update's request has these bytes, and the server reads the same of them.
fn is_update(alloc: Global, want: &[u8], shown: &str) -> Result<bool, AllocError> {
    let values = seven(alloc)?;
    let node = NodeId::Numeric(0, 85);
    let mut out = Vec::new(alloc);
    let asked = UpdateAsked {
        node_id: &node,
        perform: 1,
        values: values.as_slice(),
    };
    if !is_short_update(&asked) {
        return Ok(false);
    }
    if put_history_update_request(&mut out, &node, 1, values.as_slice()).is_err() {
        return Ok(false);
    }
    let mut cursor = Cursor::new(out.as_slice());
    let found = read_history_update_request(alloc, &mut cursor);
    Ok(out.as_slice() == want && is_shown(alloc, found, shown) && cursor.rest().is_empty())
}

#[test]
fn the_server_reads_an_update(rt: HostRuntime) {
    assert!(rt;
        is_update(
            rt.alloc(),
            b"\x01\0\0\0\x01\0\xaa\x02\x01\x18\0\0\0\0\x55\x01\0\0\0\x01\0\0\0\x05\x06\x07\0\0\0\x0a\0\0\0\0\0\0\0",
            "Ok(HistoryUpdateRequest { details: [UpdateData(UpdateDataDetails { node_id: Numeric(0, 85), perform: 1, values: Listing { inner: [DataValue { value: Some(Scalar(Int32(7))), status: None, source_time: Some(Ticks(10)), source_pico: None, server_time: None, server_pico: None }] } })] })",
        ) == Ok(true)
    );
}

/// Whether the requests for a session are read again by the server as these.
fn are_sessions(alloc: Global) -> Result<bool, BinaryFault> {
    let mut created = Vec::new(alloc);
    put_create_session_request(
        &mut created,
        Some("u"),
        Some("s"),
        &[0, 0, 0, 0, 0, 0, 240, 63],
    )?;
    let mut named = Vec::new(alloc);
    let login = Login {
        name: "ann",
        password: b"pw",
    };
    put_activate_session_request(&mut named, Some(login))?;
    let mut nobody = Vec::new(alloc);
    put_activate_session_request(&mut nobody, None)?;
    let mut closed = Vec::new(alloc);
    put_close_session_request(&mut closed, true)?;
    Ok(
        is_shown(
            alloc,
            read_create_session_request(&mut Cursor::new(created.as_slice())),
            "Ok(CreateSessionRequest { endpoint_url: Some(\"u\"), session_name: Some(\"s\"), timeout: [0, 0, 0, 0, 0, 0, 240, 63] })",
        ) && is_shown(
            alloc,
            read_activate_session_request(&mut Cursor::new(named.as_slice())),
            "Ok(ActivateSessionRequest { user_identity: Named { name: Some(\"ann\"), .. } })",
        ) && is_shown(
            alloc,
            read_activate_session_request(&mut Cursor::new(nobody.as_slice())),
            "Ok(ActivateSessionRequest { user_identity: Anonymous })",
        ) && is_shown(
            alloc,
            read_close_session_request(&mut Cursor::new(closed.as_slice())),
            "Ok(CloseSessionRequest { delete_subscriptions: true })",
        ),
    )
}

#[test]
fn the_server_reads_what_sessions_are_asked(rt: HostRuntime) {
    assert!(rt; are_sessions(rt.alloc()) == Ok(true));
}

/// Of the channel with the token 1.
fn ids(request_id: u32, number: u32) -> ChunkIds
    ensures { result.number ≡ number }
{
    ChunkIds {
        token: 1,
        request_id,
        number,
    }
}

/// Whether the server's channel takes the chunks of an opening, a message of 20 bytes in three pieces, and a close.
fn are_taken(alloc: Global) -> Result<bool, BinaryFault> {
    let mut opening = Vec::new(alloc);
    put_opening(&mut opening, 1, 1, 3_600_000)?;
    let mut message = Vec::new(alloc);
    let next = put_message(&mut message, 32, ids(2, 2), b"twenty bytes of text")?;
    let mut closing = Vec::new(alloc);
    put_closing(&mut closing, ids(3, next))?;
    Ok(
        opening.as_slice() == OPENING
            && message.as_slice() == MESSAGE
            && closing.as_slice() == CLOSING,
    )
}

/// The same bytes as `wire_tests` gives the server's channel.
const OPENING: &[u8] =
    b"OPNF\x84\0\0\0\0\0\0\0\x2f\0\0\0http://opcfoundation.org/UA/SecurityPolicy#None\xff\xff\xff\xff\xff\xff\xff\xff\x01\0\0\0\x01\0\0\0\x01\0\xbe\x01\0\0\0\0\0\0\0\0\0\0\x01\0\0\0\0\0\0\0\xff\xff\xff\xff\0\0\0\0\0\0\0\0\0\0\0\0\0\0\0\x01\0\0\0\xff\xff\xff\xff\x80\xee\x36\0";

const MESSAGE: &[u8] =
    b"MSGC\x20\0\0\0\x01\0\0\0\x01\0\0\0\x02\0\0\0\x02\0\0\0twenty bMSGC\x20\0\0\0\x01\0\0\0\x01\0\0\0\x03\0\0\0\x02\0\0\0ytes of MSGF\x1c\0\0\0\x01\0\0\0\x01\0\0\0\x04\0\0\0\x02\0\0\0text";

const CLOSING: &[u8] =
    b"CLOF\x39\0\0\0\x01\0\0\0\x01\0\0\0\x05\0\0\0\x03\0\0\0\x01\0\xc4\x01\0\0\0\0\0\0\0\0\0\0\x03\0\0\0\0\0\0\0\xff\xff\xff\xff\0\0\0\0\0\0\0";

#[test]
fn chunks_have_these_bytes(rt: HostRuntime) {
    assert!(rt; are_taken(rt.alloc()) == Ok(true));
}

const GREETING: &[u8] =
    b"HELF\x20\0\0\0\0\0\0\0\0\0\x01\0\0\0\x01\0\0\0\0\0\0\0\0\0\xff\xff\xff\xff";

/// Whether a Hello has these bytes.
fn is_greeting(alloc: Global) -> bool {
    let hello = Hello {
        version: 0,
        receive_size: 65536,
        send_size: 65536,
        max_message: 0,
        max_chunks: 0,
    };
    let mut out = Vec::new(alloc);
    put_greeting(&mut out, &hello).is_ok() && out.as_slice() == GREETING
}

#[test]
fn a_greeting_has_these_bytes(rt: HostRuntime) {
    assert!(rt; is_greeting(rt.alloc()));
}

/// What a chunk of the server's is to a client that greeted it.
fn heard(alloc: Global, ack: Option<Ack>) -> Option<Result<Ack, ClientFault>> {
    let mut out = Vec::new(alloc);
    let put = match ack {
        Some(ack) => put_ack(&mut out, &ack),
        None => put_error(&mut out, Status::BAD_TCP_MESSAGE_TOO_LARGE),
    };
    if put.is_err() {
        return None;
    }
    Some(read_acknowledge(out.as_slice()))
}

#[test]
fn an_acknowledge_is_read_and_an_error_refuses(rt: HostRuntime) {
    let ack = Ack {
        receive_size: 8192,
        send_size: 65536,
    };
    assert!(rt; heard(rt.alloc(), Some(ack)) == Some(Ok(ack)));
    assert!(rt;
        heard(rt.alloc(), None)
            == Some(Err(ClientFault::Refused(Status::BAD_TCP_MESSAGE_TOO_LARGE)))
    );
    assert!(rt; read_acknowledge(b"ACKF") == Err(ClientFault::Format));
}

/// What stands behind the head of a response with this type, handle and status.
fn answer_of(
    alloc: Global,
    type_id: u8,
    handle: u32,
    status: Status,
) -> Result<usize, ClientFault> {
    let mut out = Vec::new(alloc);
    match out.extend_from_slice(&[0, type_id]) {
        Ok(()) => {}
        Err(_) => return Err(ClientFault::OutOfMemory),
    }
    put_response_header(Ticks(1), handle, status, &mut out)?;
    put_activate_session_response(&mut out)?;
    let body = answer_in(200, 7, out.as_slice())?;
    read_activate_session_response(alloc, &mut Cursor::new(body))?;
    Ok(body.len())
}

#[test]
fn heads_are_judged(rt: HostRuntime) {
    assert!(rt; answer_of(rt.alloc(), 200, 7, Status::GOOD) == Ok(12));
    assert!(rt; answer_of(rt.alloc(), 201, 7, Status::GOOD) == Err(ClientFault::Format));
    assert!(rt; answer_of(rt.alloc(), 200, 8, Status::GOOD) == Err(ClientFault::Format));
    assert!(rt;
        answer_of(rt.alloc(), 201, 7, Status::BAD_SESSION_ID_INVALID)
            == Err(ClientFault::Refused(Status::BAD_SESSION_ID_INVALID))
    );
}

/// What an update's response tells of these codes, as it is shown.
fn is_updated(alloc: Global, shown: &str) -> Result<bool, BinaryFault> {
    let mut codes = Vec::new(alloc);
    codes.push(Status::GOOD_ENTRY_INSERTED)?;
    codes.push(Status::BAD_INVALID_TIMESTAMP)?;
    let mut results = Vec::new(alloc);
    results.push(HistoryUpdateResult {
        status: Status::GOOD,
        operation_results: Listing::of(codes),
    })?;
    let mut out = Vec::new(alloc);
    put_history_update_response(&mut out, results.as_slice())?;
    let mut cursor = Cursor::new(out.as_slice());
    let found = read_history_update_response(alloc, &mut cursor);
    Ok(is_shown(alloc, found, shown) && cursor.rest().is_empty())
}

#[test]
fn codes_of_an_update_are_read(rt: HostRuntime) {
    assert!(rt;
        is_updated(
            rt.alloc(),
            "Ok(Listing { inner: [UpdateResult { status: Status(0), operation_results: Listing { inner: [Status(10616832), Status(2149777408)] } }] })",
        ) == Ok(true)
    );
}

/// What a session's response tells, as it is shown.
fn is_granted(alloc: Global, shown: &str) -> Result<bool, BinaryFault> {
    let mut tokens = Vec::new(alloc);
    tokens.push(UserTokenPolicy {
        policy_id: Some(Text::from_str(alloc, "p")?),
        token_type: UserTokenType::UserName,
    })?;
    let mut endpoints = Vec::new(alloc);
    endpoints.push(EndpointDescription {
        endpoint_url: Some(Text::from_str(alloc, "u")?),
        server: ApplicationDescription {
            application_uri: None,
            product_uri: None,
            application_name: LocalizedText {
                locale: None,
                text: None,
            },
            application_type: ApplicationType::Server,
            discovery_urls: Listing::new(alloc),
        },
        security_mode: MessageSecurityMode::None,
        security_policy_uri: None,
        user_identity_tokens: Listing::of(tokens),
        transport_profile_uri: None,
        security_level: 3,
    })?;
    let made = CreateSessionResponse {
        session_id: NodeId::Numeric(1, 300),
        authentication_token: NodeId::Numeric(0, 7),
        timeout: [0, 0, 0, 0, 0, 0, 240, 63],
        endpoints,
        max_request_size: 9,
    };
    let mut out = Vec::new(alloc);
    put_create_session_response(&mut out, &made)?;
    let mut cursor = Cursor::new(out.as_slice());
    let found = read_create_session_response(alloc, &mut cursor);
    Ok(is_shown(alloc, found, shown) && cursor.rest().is_empty())
}

#[test]
fn a_session_is_read(rt: HostRuntime) {
    assert!(rt;
        is_granted(
            rt.alloc(),
            "Ok(Granted { session_id: Numeric(1, 300), authentication_token: Numeric(0, 7), timeout: [0, 0, 0, 0, 0, 0, 240, 63], endpoints: [Endpoint { endpoint_url: Some(\"u\"), server: Application { application_uri: None, product_uri: None, application_name: LocalizedRef { locale: None, text: None }, application_type: 0, discovery_urls: [] }, security_mode: 1, security_policy_uri: None, tokens: [Token { policy_id: Some(\"p\"), token_type: 1 }], transport_profile_uri: None, security_level: 3 }], max_request_size: 9 })",
        ) == Ok(true)
    );
}

/// The OPN chunk by which a server answers the first opening.
const OPENED: &[u8] =
    b"OPNF\x87\0\0\0\x01\0\0\0\x2f\0\0\0http://opcfoundation.org/UA/SecurityPolicy#None\xff\xff\xff\xff\xff\xff\xff\xff\x01\0\0\0\x01\0\0\0\x01\0\xc1\x01\x05\0\0\0\0\0\0\0\x01\0\0\0\0\0\0\0\0\xff\xff\xff\xff\0\0\0\0\0\0\0\x01\0\0\0\x01\0\0\0\x05\0\0\0\0\0\0\0\x80\xee\x36\0\xff\xff\xff\xff";

/// Behind the header: a session with the token 7, an activation, an update of one value, and a close.
const ANSWERS: [(u16, &[u8]); 4] = [
    (
        464,
        b"\0\x06\0\x07\0\0\0\0\0\0\xf0\x3f\xff\xff\xff\xff\xff\xff\xff\xff\0\0\0\0\xff\xff\xff\xff\xff\xff\xff\xff\xff\xff\xff\xff\0\0\0\0",
    ),
    (470, b"\xff\xff\xff\xff\xff\xff\xff\xff\xff\xff\xff\xff"),
    (
        703,
        b"\x01\0\0\0\0\0\0\0\x01\0\0\0\0\0\xa2\0\xff\xff\xff\xff\xff\xff\xff\xff",
    ),
    (476, b""),
];

/// What a server sends that answers these, each with this status.
fn sent(alloc: Global, status: Status) -> Result<Vec<u8>, ClientFault> {
    let mut out = Vec::new(alloc);
    match put_ack(&mut out, &ACK) {
        Ok(()) => {}
        Err(_) => return Err(ClientFault::OutOfMemory),
    }
    out.extend_from_slice(OPENED)?;
    let mut handle = 2u32;
    for (type_id, body) in &ANSWERS {
        if handle < 2 || handle > 5 {
            return Err(ClientFault::Format);
        }
        let mut message = Vec::new(alloc);
        put_node_id_ref(&mut message, NodeIdRef::Numeric(0, u32::from(*type_id)))?;
        put_response_header(Ticks(6), handle, status, &mut message)?;
        message.extend_from_slice(body)?;
        put_message(&mut out, 8192, ids(handle, handle), message.as_slice())?;
        handle += 1;
    }
    Ok(out)
}

const ACK: Ack = Ack {
    receive_size: 8192,
    send_size: 65536,
};

/// What a client brings by such answers: the code of the one value.
fn brought(alloc: Global, bytes: &[u8]) -> Result<Status, ClientFault> {
    let mut line = Line::new(alloc, Counted::new(bytes), Counted::new(Vec::new(alloc)));
    let mut client = connect(&mut line, 3_600_000)?;
    let asked = NewSession {
        endpoint_url: Some("u"),
        name: None,
        timeout: &[0, 0, 0, 0, 0, 0, 240, 63],
    };
    client.create_session(&mut line, Ticks(1), asked)?;
    client.activate_session(&mut line, Ticks(2), None)?;
    let values = seven(alloc)?;
    let node = NodeId::Numeric(0, 85);
    let asked = UpdateAsked {
        node_id: &node,
        perform: 1,
        values: values.as_slice(),
    };
    if !is_short_update(&asked) {
        return Err(ClientFault::TooLarge);
    }
    let done = client.update_history(&mut line, Ticks(3), asked)?;
    client.close_session(&mut line, Ticks(4))?;
    client.close_channel(&mut line)?;
    match done.operation_results.as_slice() {
        [code] => Ok(*code),
        _ => Err(ClientFault::Format),
    }
}

/// What a client brings to a server that answers with this status.
fn tried(alloc: Global, status: Status) -> Result<Status, ClientFault> {
    let bytes = sent(alloc, status)?;
    brought(alloc, bytes.as_slice())
}

#[test]
fn a_client_brings_a_value(rt: HostRuntime) {
    assert!(rt; tried(rt.alloc(), Status::GOOD) == Ok(Status::GOOD_ENTRY_INSERTED));
    assert!(rt;
        tried(rt.alloc(), Status::BAD_USER_ACCESS_DENIED)
            == Err(ClientFault::Refused(Status::BAD_USER_ACCESS_DENIED))
    );
}
