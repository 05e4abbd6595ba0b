//! What every response begins with (Part 4, 7.34 and 7.35).

ghost use Rattle.std.specs.Prelude.{◌≡◌, ◌++◌, OnOk, IfErr};
ghost use Rattle.historian.specs.Answers.{head, service_fault};

use ua_binary::{BinaryFault, NodeId, Status, Ticks, put_node_id};
use ua_channel::put_response_header;

/// The most bytes of a response that is sent, whatever a client takes.
pub(crate) const LONGEST_RESPONSE: usize = 16_777_216;

/// The type id of a ServiceFault.
const SERVICE_FAULT: u32 = 397;

/// When a request is served, and its handle: what the header of its response repeats, whatever it tells.
#[derive(Clone, Copy)]
pub struct RequestContext {
    /// The moment that it is served at.
    pub now: Ticks,
    /// By which the client knows its response.
    pub handle: u32,
}

/// Appends what every response begins with: its type id, the moment, the request's handle and a status.
/// The one error is `OutOfMemory`, which may leave a part.
#[inline(always)]
pub(crate) fn put_head(
    out: &mut Vec<u8>,
    type_id: u32,
    context: RequestContext,
    status: Status,
) -> Result<(), BinaryFault>
    ensures ok { OnOk result
        (out.new.items ≡ out.old.items ++ head type_id context.now context.handle status) }
    ensures err { IfErr result (λ fault. fault ≡ BinaryFault.OutOfMemory) }
{
    put_node_id(out, &NodeId::Numeric(0, type_id))?;
    put_response_header(context.now, context.handle, status, out)?;
    Ok(())
}

/// Appends a ServiceFault with this status (Part 4, 7.35). The one error is `OutOfMemory`, which may leave a
/// part.
#[inline(always)]
pub fn put_service_fault(
    out: &mut Vec<u8>,
    context: RequestContext,
    status: Status,
) -> Result<(), BinaryFault>
    ensures ok { OnOk result
        (out.new.items ≡ out.old.items ++ service_fault context.now context.handle status) }
    ensures err { IfErr result (λ fault. fault ≡ BinaryFault.OutOfMemory) }
{
    put_head(out, SERVICE_FAULT, context, status)
}
