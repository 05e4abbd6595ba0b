//! Requests of the services, behind their headers. What the services write stands in `service_tests` and `connection_tests`.

use crate::texts::is_text;
use std::alloc::Global;
use std::fmt::Debug;
use ua_binary::Cursor;
use ua_services::{
    NodeClass, read_activate_session_request, read_browse_request, read_close_session_request,
    read_create_session_request, read_get_endpoints_request, read_history_read_request,
    read_history_update_request, read_read_request,
};

#[derive(Clone, Copy, Debug)]
enum Kind {
    GetEndpoints,
    CreateSession,
    ActivateSession,
    CloseSession,
    HistoryUpdate,
    Browse,
    Read,
    HistoryRead,
}

/// Whether this was read, as `{:?}` shows it.
fn is_shown<T: Debug + Drop>(alloc: Global, found: T, want: &str) -> bool {
    is_text(format!(in alloc; "{found:?}"), want)
}

/// Whether a request is read, and its reading shows this.
fn is_read(alloc: Global, kind: Kind, cursor: &mut Cursor<'_>, want: &str) -> bool {
    match kind {
        Kind::GetEndpoints => is_shown(alloc, read_get_endpoints_request(alloc, cursor), want),
        Kind::CreateSession => is_shown(alloc, read_create_session_request(cursor), want),
        Kind::ActivateSession => is_shown(alloc, read_activate_session_request(cursor), want),
        Kind::CloseSession => is_shown(alloc, read_close_session_request(cursor), want),
        Kind::HistoryUpdate => is_shown(alloc, read_history_update_request(alloc, cursor), want),
        Kind::Browse => is_shown(alloc, read_browse_request(alloc, cursor), want),
        Kind::Read => is_shown(alloc, read_read_request(alloc, cursor), want),
        Kind::HistoryRead => is_shown(alloc, read_history_read_request(alloc, cursor), want),
    }
}

/// How many bytes are left of a request whose reading shows this.
fn left_of(alloc: Global, kind: Kind, bytes: &[u8], want: &str) -> Option<usize> {
    let mut cursor = Cursor::new(bytes);
    if is_read(alloc, kind, &mut cursor, want) {
        Some(cursor.rest().len())
    } else {
        None
    }
}

/// Requests behind their headers, and what is kept of them.
static REQUESTS: [(Kind, &[u8], &str); 17] = [
    (
        Kind::GetEndpoints,
        b"\xff\xff\xff\xff\xff\xff\xff\xff\x01\0\0\0\x01\0\0\0x",
        "Ok(GetEndpointsRequest { endpoint_url: None, profile_uris: [Some(\"x\")] })",
    ),
    (
        Kind::GetEndpoints,
        b"\x01\0\0\0u\x02\0\0\0\x02\0\0\0en\xff\xff\xff\xff\xff\xff\xff\xff",
        "Ok(GetEndpointsRequest { endpoint_url: Some(\"u\"), profile_uris: [] })",
    ),
    (
        Kind::CreateSession,
        b"\x01\0\0\0c\xff\xff\xff\xff\x02\x01\0\0\0n\x01\0\0\0\xff\xff\xff\xff\xff\xff\xff\xff\x01\0\0\0\x01\0\0\0d\
        \xff\xff\xff\xff\x01\0\0\0u\x01\0\0\0s\x02\0\0\0\x01\x02\xff\xff\xff\xff\0\0\0\0\0\0\xf0\x3f\0\0\x40\0",
        "Ok(CreateSessionRequest { endpoint_url: Some(\"u\"), session_name: Some(\"s\"), timeout: [0, 0, 0, 0, 0, 0, 240, 63] })",
    ),
    (
        Kind::ActivateSession,
        b"\xff\xff\xff\xff\xff\xff\xff\xff\x01\0\0\0\xff\xff\xff\xff\xff\xff\xff\xff\0\0\0\0\
        \x01\0\x41\x01\x01\x0d\0\0\0\x09\0\0\0anonymous\xff\xff\xff\xff\xff\xff\xff\xff",
        "Ok(ActivateSessionRequest { user_identity: Anonymous })",
    ),
    (
        Kind::ActivateSession,
        b"\xff\xff\xff\xff\xff\xff\xff\xff\0\0\0\0\x01\0\0\0\x02\0\0\0en\0\0\0\xff\xff\xff\xff\xff\xff\xff\xff",
        "Ok(ActivateSessionRequest { user_identity: Anonymous })",
    ),
    (
        Kind::ActivateSession,
        b"\x01\0\0\0a\x01\0\0\0b\0\0\0\0\0\0\0\0\
        \x01\0\x44\x01\x01\x16\0\0\0\x01\0\0\0p\x03\0\0\0ann\x02\0\0\0pw\xff\xff\xff\xff\xff\xff\xff\xff\xff\xff\xff\xff",
        "Ok(ActivateSessionRequest { user_identity: Named { name: Some(\"ann\"), .. } })",
    ),
    (
        Kind::ActivateSession,
        b"\xff\xff\xff\xff\xff\xff\xff\xff\0\0\0\0\0\0\0\0\x01\0\x47\x01\x01\x01\0\0\0\x09\xff\xff\xff\xff\xff\xff\xff\xff",
        "Ok(ActivateSessionRequest { user_identity: Other })",
    ),
    (
        Kind::ActivateSession,
        b"\xff\xff\xff\xff\xff\xff\xff\xff\0\0\0\0\0\0\0\0\0\0\x01\xff\xff\xff\xff\xff\xff\xff\xff\xff\xff\xff\xff",
        "Ok(ActivateSessionRequest { user_identity: Other })",
    ),
    (
        Kind::CloseSession,
        b"\x01",
        "Ok(CloseSessionRequest { delete_subscriptions: true })",
    ),
    (
        Kind::CloseSession,
        b"\0",
        "Ok(CloseSessionRequest { delete_subscriptions: false })",
    ),
    // an insert of 7 at 10, two deletions and details that aren't known
    (
        Kind::HistoryUpdate,
        b"\x04\0\0\0\x01\0\xaa\x02\x01\x1e\0\0\0\x03\x01\0\x01\0\0\0T\x01\0\0\0\x01\0\0\0\x05\x06\x07\0\0\0\x0a\0\0\0\0\0\0\0\
        \x01\0\xb0\x02\x01\x13\0\0\0\0\x55\0\x01\0\0\0\0\0\0\0\x64\0\0\0\0\0\0\0\
        \x01\0\xb3\x02\x01\x0e\0\0\0\0\x55\x01\0\0\0\x0a\0\0\0\0\0\0\0\x01\0\x89\x02\0",
        "Ok(HistoryUpdateRequest { details: [UpdateData(UpdateDataDetails { node_id: Named(1, \"T\"), perform: 1, values: Listing { inner: [DataValue { value: Some(Scalar(Int32(7))), status: None, source_time: Some(Ticks(10)), source_pico: None, server_time: None, server_pico: None }] } }), DeleteRawModified(DeleteRawModifiedDetails { node_id: Numeric(0, 85), is_delete_modified: false, start_time: Ticks(1), end_time: Ticks(100) }), DeleteAtTime(DeleteAtTimeDetails { node_id: Numeric(0, 85), times: Listing { inner: [Ticks(10)] } }), Other] })",
    ),
    (
        Kind::HistoryUpdate,
        b"\xff\xff\xff\xff",
        "Ok(HistoryUpdateRequest { details: [] })",
    ),
    (
        Kind::Browse,
        b"\0\0\0\0\0\0\0\0\0\0\0\0\0\0\x0a\0\0\0\x02\0\0\0\0\x55\0\0\0\0\0\x21\x01\0\0\0\0\x3f\0\0\0\
        \0\x55\x03\0\0\0\0\0\0\x02\0\0\0\x01\0\0\0",
        "Ok(BrowseRequest { nodes: [BrowseDescription { node_id: Numeric(0, 85), direction: Some(Forward), reference_type_id: Numeric(0, 33), include_subtypes: true, node_class_mask: 0, result_mask: 63 }, BrowseDescription { node_id: Numeric(0, 85), direction: None, reference_type_id: Numeric(0, 0), include_subtypes: false, node_class_mask: 2, result_mask: 1 }] })",
    ),
    (
        Kind::Read,
        b"\0\0\0\0\0\0\xf0\x3f\x02\0\0\0\x01\0\0\0\x03\x01\0\x01\0\0\0T\x0d\0\0\0\x03\0\0\x001:2\0\0\x0e\0\0\0Default Binary",
        "Ok(ReadRequest { timestamps: Some(Both), nodes: [ReadValueId { node_id: Named(1, \"T\"), attribute_id: 13, index_range: Some(\"1:2\"), data_encoding: QualifiedRef { namespace: 0, name: Some(\"Default Binary\") } }] })",
    ),
    (
        Kind::Read,
        b"\0\0\0\0\0\0\0\0\xff\xff\xff\xff\0\0\0\0",
        "Ok(ReadRequest { timestamps: None, nodes: [] })",
    ),
    (
        Kind::HistoryRead,
        b"\x01\0\x89\x02\x01\x16\0\0\0\0\x01\0\0\0\0\0\0\0\x64\0\0\0\0\0\0\0\x02\0\0\0\x01\x01\0\0\0\0\x02\0\0\0\
        \0\x55\xff\xff\xff\xff\0\0\xff\xff\xff\xff\0\0\0\0\0\x55\xff\xff\xff\xff\0\0\xff\xff\xff\xff\x02\0\0\0\x01\x02",
        "Ok(HistoryReadRequest { details: ReadRawModified(ReadRawModifiedDetails { is_read_modified: false, start_time: Ticks(1), end_time: Ticks(100), num_values_per_node: 2, return_bounds: true }), timestamps: Some(Server), release_continuation_points: false, nodes: [HistoryReadValueId { node_id: Numeric(0, 85), index_range: None, data_encoding: QualifiedRef { namespace: 0, name: None }, continuation_point: None }, HistoryReadValueId { node_id: Numeric(0, 85), index_range: None, data_encoding: QualifiedRef { namespace: 0, name: None }, continuation_point: Some([1, 2]) }] })",
    ),
    (
        Kind::HistoryRead,
        b"\x01\0\x8c\x02\x02\x01\0\0\0x\x03\0\0\0\x01\0\0\0\0",
        "Ok(HistoryReadRequest { details: Other, timestamps: Some(Neither), release_continuation_points: true, nodes: [] })",
    ),
];

#[test]
fn requests(rt: HostRuntime) {
    for row in &REQUESTS {
        let (kind, bytes, want) = *row;
        let left = left_of(rt.alloc(), kind, bytes, want);
        assert!(rt; left == Some(0), "{want}");
    }
}

/// Whether each front of a request is `Short` and leaves the cursor where it was.
fn are_fronts_short(alloc: Global, kind: Kind, bytes: &[u8]) -> bool {
    for len in 0..bytes.len() {
        if left_of(alloc, kind, &bytes[..len], "Err(Short)") != Some(len) {
            return false;
        }
    }
    true
}

#[test]
fn fronts_of_requests(rt: HostRuntime) {
    for row in &REQUESTS {
        let (kind, bytes, want) = *row;
        let short = are_fronts_short(rt.alloc(), kind, bytes);
        assert!(rt; short, "{want}");
    }
}

/// Requests that no spelling begins, and the fault of the leftmost field that has none.
static REFUSED: [(Kind, &[u8], &str); 17] = [
    (
        Kind::GetEndpoints,
        b"\xff\xff\xff\xff\xfe\xff\xff\xff\x01\0\0\0\x01\0\0\0x",
        "Err(BadLength)",
    ),
    (
        Kind::GetEndpoints,
        b"\xff\xff\xff\xff\xff\xff\xff\xff\x01\0\0\0\x01\0\0\0\xff",
        "Err(BadUtf8)",
    ),
    (
        Kind::GetEndpoints,
        b"\xff\xff\xff\xff\xff\xff\xff\x7f\x01\0\0\0\x01\0\0\0x",
        "Err(Short)",
    ),
    // a known token without a body, with one in XML, and with bytes behind it
    (
        Kind::ActivateSession,
        b"\xff\xff\xff\xff\xff\xff\xff\xff\0\0\0\0\0\0\0\0\x01\0\x41\x01\0\xff\xff\xff\xff\xff\xff\xff\xff",
        "Err(BadEncodingByte)",
    ),
    (
        Kind::ActivateSession,
        b"\xff\xff\xff\xff\xff\xff\xff\xff\0\0\0\0\0\0\0\0\x01\0\x44\x01\x02\x04\0\0\0\xff\xff\xff\xff\xff\xff\xff\xff\xff\xff\xff\xff",
        "Err(BadEncodingByte)",
    ),
    (
        Kind::ActivateSession,
        b"\xff\xff\xff\xff\xff\xff\xff\xff\0\0\0\0\0\0\0\0\x01\0\x41\x01\x01\x05\0\0\0\xff\xff\xff\xff\x09\xff\xff\xff\xff\xff\xff\xff\xff",
        "Err(BadEncodingByte)",
    ),
    // a null body, and one that ends inside the token
    (
        Kind::ActivateSession,
        b"\xff\xff\xff\xff\xff\xff\xff\xff\0\0\0\0\0\0\0\0\x01\0\x41\x01\x01\xff\xff\xff\xff\xff\xff\xff\xff\xff\xff\xff\xff",
        "Err(Short)",
    ),
    (
        Kind::ActivateSession,
        b"\xff\xff\xff\xff\xff\xff\xff\xff\0\0\0\0\0\0\0\0\x01\0\x44\x01\x01\x06\0\0\0\xff\xff\xff\xff\x01\0\0\0\xff\xff\xff\xff\xff\xff\xff\xff\xff\xff",
        "Err(Short)",
    ),
    // details of a known type without a body, with one in XML, and with bytes behind them
    (
        Kind::HistoryUpdate,
        b"\x01\0\0\0\x01\0\xaa\x02\0",
        "Err(BadEncodingByte)",
    ),
    (
        Kind::HistoryUpdate,
        b"\x01\0\0\0\x01\0\xb3\x02\x02\x06\0\0\0\0\x55\0\0\0\0",
        "Err(BadEncodingByte)",
    ),
    (
        Kind::HistoryUpdate,
        b"\x01\0\0\0\x01\0\xb3\x02\x01\x07\0\0\0\0\x55\0\0\0\0\x09",
        "Err(BadEncodingByte)",
    ),
    (
        Kind::HistoryUpdate,
        b"\x01\0\0\0\x01\0\xaa\x02\x01\x0b\0\0\0\0\x55\x01\0\0\0\0\0\0\0\x09",
        "Err(BadEncodingByte)",
    ),
    // a matrix, in a value of the second details
    (
        Kind::HistoryUpdate,
        b"\x02\0\0\0\x01\0\x89\x02\0\x01\0\xaa\x02\x01\x0c\0\0\0\0\x55\x01\0\0\0\x01\0\0\0\x01\xc6",
        "Err(TypeUnsupported)",
    ),
    (Kind::HistoryUpdate, b"\xff\xff\xff\x7f", "Err(Short)"),
    (
        Kind::HistoryRead,
        b"\x01\0\x89\x02\0\x01\0\0\0\0\0\0\0\0",
        "Err(BadEncodingByte)",
    ),
    (
        Kind::HistoryRead,
        b"\x01\0\x89\x02\x01\x17\0\0\0\0\x01\0\0\0\0\0\0\0\x64\0\0\0\0\0\0\0\x02\0\0\0\x01\x09\x01\0\0\0\0\0\0\0\0",
        "Err(BadEncodingByte)",
    ),
    (
        Kind::Browse,
        b"\x06\0\0\0\0\0\0\0\0\0\0\0\0\0\x0a\0\0\0\0\0\0\0",
        "Err(BadEncodingByte)",
    ),
];

#[test]
fn refused_requests(rt: HostRuntime) {
    for row in &REFUSED {
        let (kind, bytes, want) = *row;
        let left = left_of(rt.alloc(), kind, bytes, want);
        assert!(rt; left == Some(bytes.len()), "{want} at {bytes:?}");
    }
}

/// The numbers that the standard gives to classes of nodes.
/// Classes, and their numbers.
static CLASSES: [(NodeClass, u8); 9] = [
    (NodeClass::Unspecified, 0),
    (NodeClass::Object, 1),
    (NodeClass::Variable, 2),
    (NodeClass::Method, 4),
    (NodeClass::ObjectType, 8),
    (NodeClass::VariableType, 16),
    (NodeClass::ReferenceType, 32),
    (NodeClass::DataType, 64),
    (NodeClass::View, 128),
];

#[test]
fn numbers_of_classes(rt: HostRuntime) {
    for row in &CLASSES {
        let (class, number) = *row;
        assert_eq!(rt; class.number(), number);
    }
}
