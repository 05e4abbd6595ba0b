//! Structures in the bodies of extension objects (Part 6, 5.2.2.15).

ghost use Rattle.std.specs.Prelude.{◌≡◌};
ghost use Rattle.ua_binary.specs.Format.{Reads};
ghost use Rattle.ua_binary.specs.Binary.{node_of};
ghost use Rattle.ua_services.specs.Structure.{binary_body, is_standard_type};

use ua_binary::{BinaryFault, Cursor, NodeIdRef};

/// Whether a type is the one with this id in namespace 0.
pub(crate) fn is_type(id: u32, type_id: &NodeIdRef<'_>) -> bool
    ensures { result ≡ is_standard_type id (node_of type_id.now) }
{
    match type_id {
        NodeIdRef::Numeric(namespace, found) => *namespace == 0 && *found == id,
        _ => false,
    }
}

/// The bytes of a binary body, behind the id of its type. A body of another kind, or none, is
/// `BadEncodingByte`; one of length -1 is empty.
#[tactic(auto, unfolding(crate::specs::Structure::binary_body))]
pub(crate) fn read_binary_body<'a>(cursor: &mut Cursor<'a>) -> Result<Cursor<'a>, BinaryFault>
    ensures { Reads (λ x. x) result cursor.old cursor.new binary_body.read }
{
    let mut next = cursor.fork();
    if next.u8()? != 1 {
        return Err(BinaryFault::BadEncodingByte);
    }
    let body = next.bytes()?.unwrap_or(&[]);
    *cursor = next;
    Ok(Cursor::new(body))
}
