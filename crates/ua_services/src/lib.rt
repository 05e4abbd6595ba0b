//! The structures of the services (Part 4), read and written in the binary encoding (Part 6, 5.2): a
//! `read_` for each request, after its header, and a `put_` for each response, after its header.
//!
//! A request keeps the fields that a server needs, in the bytes that it was read from; the others are
//! read by their grammar and dropped. No read looks at what follows the structure: whether a message
//! ends with it is told by the cursor.
#![tactic(auto)]

mod attributes;
mod browsing;
mod endpoints;
mod first;
mod history;
mod identity;
mod laws;
mod many;
mod sessions;
mod skipping;
mod structure;
mod updates;

pub use attributes::{
    ReadRequest, ReadValueId, TimestampsToReturn, put_read_response, read_read_request,
};
pub use browsing::{
    BrowseDescription, BrowseDirection, BrowseRequest, BrowseResult, NodeClass,
    ReferenceDescription, put_browse_response, read_browse_request,
};
pub use endpoints::{
    ApplicationDescription, ApplicationType, EndpointDescription, GetEndpointsRequest,
    MessageSecurityMode, UserTokenPolicy, UserTokenType, put_get_endpoints_response,
    read_get_endpoints_request,
};
pub use history::{
    HistoryData, HistoryReadDetails, HistoryReadRequest, HistoryReadResult, HistoryReadValueId,
    ModificationInfo, ReadRawModifiedDetails, put_history_read_response, put_history_read_result,
    read_history_read_request,
};
pub use laws::{formats_are_lawful, formats_are_prefix_free};
pub use sessions::{
    ActivateSessionRequest, CloseSessionRequest, CreateSessionRequest, CreateSessionResponse,
    put_activate_session_response, put_create_session_response, read_activate_session_request,
    read_close_session_request, read_create_session_request,
};
pub use updates::{
    DeleteAtTimeDetails, DeleteRawModifiedDetails, HistoryUpdateDetails, HistoryUpdateRequest,
    HistoryUpdateResult, UpdateDataDetails, put_history_update_response,
    read_history_update_request,
};
