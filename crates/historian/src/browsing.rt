//! Browse (Part 4, 5.9.2), and lists of what a service is asked.

ghost use Rattle.std.specs.Prelude.{◌≡◌, [], map, IfOk, IfErr, OnOk, Ok};
ghost use Rattle.ua_binary.specs.Binary.{node_of};
ghost use Rattle.ua_binary.specs.Format.{IsOrStarved};
ghost use Rattle.hist_update.specs.Codes.{list_refusal};
ghost use Rattle.ua_services.specs.Browsing.{browse_fields, browsed_fields, browse_result, IsShortBrowsed};
ghost use Rattle.historian.specs.declared.service.Service.TheVariants as service;
ghost use Rattle.historian.specs.Browsing.{browse_node, browse};
ghost use Rattle.historian.specs.Requests.{call_in};
ghost use Rattle.historian.specs.Services.{site_of, answered_call};
ghost use Rattle.historian.specs.Telling.{Appends, Written, Responds};

use crate::requests::browse_request;
use crate::responses::{LONGEST_RESPONSE, RequestContext, put_head};
use crate::server::Server;
use crate::service::ServiceRequest;
use archive::Archive;
use std::alloc::Global;
use ua_binary::{BinaryFault, Encode, Listing, Status, put_count, put_i32};
use ua_services::{BrowseDescription, BrowseResult};
use ua_session::Sessions;
use ua_space::Space;

/// The type id of a BrowseResponse.
const BROWSE_RESPONSE: u32 = 530;

/// The most nodes of a Browse.
const MOST_BROWSED: usize = 1000;

/// Why a list of so many items is refused, of which a service takes 1 to this many.
pub(crate) fn list_refusal(most: usize, count: usize) -> Option<Status>
    ensures { result ≡ list_refusal most count }
{
    if count == 0 {
        return Some(Status::BAD_NOTHING_TO_DO);
    }
    if count > most {
        return Some(Status::BAD_TOO_MANY_OPERATIONS);
    }
    None
}

/// Browses a node. The one error is `BAD_OUT_OF_MEMORY`.
fn browse_node(
    alloc: Global,
    space: &Space,
    description: &BrowseDescription<'_>,
) -> Result<BrowseResult, Status>
    ensures told { IsOrStarved Status.BAD_OUT_OF_MEMORY
        (Ok (browse_node space.now (browse_fields description.now))) result }
    ensures short { IfOk result IsShortBrowsed }
{
    match space.browse(description) {
        Ok(references) => Ok(BrowseResult {
            status: Status::GOOD,
            references,
        }),
        Err(Status::BAD_OUT_OF_MEMORY) => Err(Status::BAD_OUT_OF_MEMORY),
        Err(status) => Ok(BrowseResult {
            status,
            references: Listing::new(alloc),
        }),
    }
}

/// Appends what is told of nodes, in order, until these are too many bytes for a response. The one error is `OutOfMemory`.
fn put_browsed(
    alloc: Global,
    space: &Space,
    nodes: &[BrowseDescription<'_>],
    out: &mut Vec<u8>,
) -> Result<(), BinaryFault>
    ensures told { OnOk result (Appends browse_result
        (map browsed_fields (map (browse_node space.now) (map browse_fields nodes.now)))
        out.old.items out.new.items) }
    ensures err { IfErr result (λ fault. fault ≡ BinaryFault.OutOfMemory) }
{
    for description in nodes {
        if out.len() <= LONGEST_RESPONSE {
            match browse_node(alloc, space, description) {
                Ok(browsed) => browsed.put(out)?,
                Err(_) => return Err(BinaryFault::OutOfMemory),
            }
        }
    }
    Ok(())
}

/// Writes the response of a Browse of these nodes; or tells why it is refused as a whole, that memory was wanting, or that
/// the response is too large.
fn put_browse<A>(
    server: &Server<A>,
    nodes: &[BrowseDescription<'_>],
    context: RequestContext,
    body: &mut Vec<u8>,
) -> Result<(), Status>
    requires { body.old.items ≡ [] }
    ensures { Written context.now context.handle
        (browse server.now.settings.space (map browse_fields nodes.now)) result body.new.items }
{
    if let Some(status) = list_refusal(MOST_BROWSED, nodes.len()) {
        return Err(status);
    }
    put_head(body, BROWSE_RESPONSE, context, Status::GOOD)?;
    put_count(body, nodes.len())?;
    put_browsed(server.alloc, server.settings.space(), nodes, body)?;
    if body.len() > LONGEST_RESPONSE {
        return Err(Status::BAD_RESPONSE_TOO_LARGE);
    }
    put_i32(body, -1)?;
    Ok(())
}

/// Browse (Part 4, 5.9.2), in a session that was activated: of 1 to 1,000 nodes all references at once. The view and
/// the number of references that the client asks for aren't looked at. `BAD_NOTHING_TO_DO` for no node,
/// `BAD_TOO_MANY_OPERATIONS` for more; each node has a status of its own. What is told of each node is written into the
/// response at once, until that is too large to be sent: `BAD_RESPONSE_TOO_LARGE`.
pub(crate) fn browse<A: Archive>(
    server: &Server<A>,
    sessions: &Sessions,
    context: RequestContext,
    request: ServiceRequest<'_>,
    body: &mut Vec<u8>,
) -> Result<(), Status>
    requires { body.old.items ≡ [] }
    ensures { Responds (A.state server.now.replica.archive)
        (A.state server.now.replica.archive)
        (answered_call (site_of server.now.settings (A.state server.now.replica.archive))
        context.now (node_of request.entry.token) (call_in service.Browse request.entry.body)
        sessions.now) sessions.now context.now context.handle result body.new.items }
{
    let asked = browse_request(server.alloc, request.body)?;
    sessions.user_of(request.token)?;
    put_browse(server, &asked.nodes, context, body)
}
