//! The services that are served, by the type ids of their requests.

ghost use Rattle.std.specs.Prelude.{◌≡◌};
ghost use Rattle.ua_binary.specs.Binary.{node_of};
ghost use Rattle.historian.specs.Requests.{service_of};
ghost use Rattle.historian.specs.Telling.{request_with, refusal_of};

use ua_binary::{Cursor, NodeIdRef, Status};
use ua_channel::read_request_header;

/// The services that are served.
#[derive(Clone, Copy, Debug, PartialEq, Eq)]
pub(crate) enum Service {
    GetEndpoints,
    CreateSession,
    ActivateSession,
    CloseSession,
    Browse,
    Read,
    HistoryRead,
    HistoryUpdate,
}

/// The service of a request by its type id, where it is served.
#[inline(always)]
pub(crate) fn service_of(type_id: NodeIdRef<'_>) -> Option<Service>
    ensures { result ≡ service_of (node_of type_id.entry) }
{
    let NodeIdRef::Numeric(0, number) = type_id else {
        return None;
    };
    match number {
        428 => Some(Service::GetEndpoints),
        461 => Some(Service::CreateSession),
        467 => Some(Service::ActivateSession),
        473 => Some(Service::CloseSession),
        527 => Some(Service::Browse),
        631 => Some(Service::Read),
        664 => Some(Service::HistoryRead),
        700 => Some(Service::HistoryUpdate),
        _ => None,
    }
}

/// A request whose type id and header are read, and the bytes behind them.
#[derive(Drop)]
pub(crate) struct ServiceRequest<'a> {
    pub service: Service,
    pub token: NodeIdRef<'a>,
    pub body: Cursor<'a>,
}

/// A message of a client, whose type id and header (Part 4, 7.33) are read as far as they can be.
#[derive(Drop)]
pub struct ClientMessage<'a> {
    handle: u32,
    // the code that refuses it where it is no request
    pub(crate) request: Result<ServiceRequest<'a>, Status>,
}

impl<'a> ClientMessage<'a> {
    ghost use Rattle.std.specs.Prelude.{◌≡◌};
    ghost use Rattle.historian.specs.Requests.{handle_of, request_in};
    ghost use Rattle.historian.specs.Telling.{asked_of};

    /// Reads the type id and the header of a message. It takes no memory.
    ///
    /// It is no request where the type id can't be read (`BAD_DECODING_ERROR`), where that is no service's
    /// (`BAD_SERVICE_UNSUPPORTED`), and where the header can't be read (`BAD_DECODING_ERROR`), in this order.
    #[inline(always)]
    pub fn read(bytes: &'a [u8]) -> ClientMessage<'a>
        ensures handle { result.handle ≡ handle_of bytes.now }
        ensures request { asked_of result.request ≡ request_in bytes.now }
    {
        let mut cursor = Cursor::new(bytes);
        let Ok(type_id) = cursor.node_id() else {
            return ClientMessage {
                handle: 0,
                request: Err(Status::BAD_DECODING_ERROR),
            };
        };
        let service = service_of(type_id);
        match read_request_header(&mut cursor) {
            Ok(header) => ClientMessage {
                handle: header.handle,
                request: request_for(service, header.token, cursor),
            },
            Err(_) => ClientMessage {
                handle: 0,
                request: Err(refusal_of(service)),
            },
        }
    }

    /// The handle that the answer repeats: that of the header, 0 where type id or header can't be read.
    pub fn handle(&self) -> u32
        ensures { result ≡ self.now.handle }
    {
        self.handle
    }
}

/// The request for a service, where it is served.
#[inline(always)]
fn request_for<'a>(
    service: Option<Service>,
    token: NodeIdRef<'a>,
    body: Cursor<'a>,
) -> Result<ServiceRequest<'a>, Status>
    ensures { result ≡ request_with service token.entry body.entry }
{
    match service {
        Some(service) => Ok(ServiceRequest {
            service,
            token,
            body,
        }),
        None => Err(Status::BAD_SERVICE_UNSUPPORTED),
    }
}

/// Why a message whose header can't be read is refused.
fn refusal_of(service: Option<Service>) -> Status
    ensures { result ≡ refusal_of service }
{
    match service {
        Some(_) => Status::BAD_DECODING_ERROR,
        None => Status::BAD_SERVICE_UNSUPPORTED,
    }
}
