//! Who a client says that it is (Part 4, 7.41).

ghost use Rattle.ua_services.specs.Structure.{structure};
ghost use Rattle.ua_binary.specs.Format.{Reads, standing_for};
ghost use Rattle.std.specs.Prelude.{None};
ghost use Rattle.ua_binary.specs.Binary.{node_of, text};
ghost use Rattle.ua_session.specs.Users.{claim_of, Anonymous};
ghost use Rattle.ua_services.specs.Sessions.{user_name_form, unknown_form, user_identity};
ghost use Rattle.ua_services.specs.Unkept.{unkept};

use crate::structure::{is_type, read_binary_body};
use ua_binary::{BinaryFault, BodyRef, Cursor, NodeIdRef};
use ua_session::Identity;

/// The body of an AnonymousIdentityToken; the policy id isn't looked at.
fn read_anonymous<'a>(cursor: &mut Cursor<'a>) -> Result<Identity<'a>, BinaryFault>
    ensures { Reads claim_of result cursor.old cursor.new
        (standing_for (λ _. Anonymous) (λ _. tt) (structure (unkept None text))).read }
{
    let mut next = cursor.fork();
    let mut body = read_binary_body(&mut next)?;
    body.text()?;
    if !body.rest().is_empty() {
        return Err(BinaryFault::BadEncodingByte);
    }
    *cursor = next;
    Ok(Identity::Anonymous)
}

/// The body of a UserNameIdentityToken; the policy id isn't looked at.
fn read_user_name<'a>(cursor: &mut Cursor<'a>) -> Result<Identity<'a>, BinaryFault>
    ensures { Reads claim_of result cursor.old cursor.new user_name_form.read }
{
    let mut next = cursor.fork();
    let mut body = read_binary_body(&mut next)?;
    body.text()?;
    let name = body.text()?;
    let password = body.bytes()?;
    let algorithm = body.text()?;
    if !body.rest().is_empty() {
        return Err(BinaryFault::BadEncodingByte);
    }
    *cursor = next;
    Ok(Identity::Named {
        name,
        password,
        algorithm,
    })
}

/// A body of a type that isn't known: nobody's where the type is the null one and there is none.
fn read_unknown<'a>(
    cursor: &mut Cursor<'a>,
    type_id: &NodeIdRef<'_>,
) -> Result<Identity<'a>, BinaryFault>
    ensures { Reads claim_of result cursor.old cursor.new (unknown_form (node_of type_id.now)).read }
{
    match cursor.body()? {
        BodyRef::Absent if is_type(0, type_id) => Ok(Identity::Anonymous),
        _ => Ok(Identity::Other),
    }
}

/// An identity in an extension object (Part 4, 7.41): the id of its type, and a body that a token of a
/// known type fills. A body of another kind than bytes, and bytes behind the token, are
/// `BadEncodingByte` there.
#[tactic(auto, unfolding(crate::specs::Sessions::user_identity))]
pub(crate) fn read_user_identity<'a>(cursor: &mut Cursor<'a>) -> Result<Identity<'a>, BinaryFault>
    ensures { Reads claim_of result cursor.old cursor.new user_identity.read }
{
    let mut next = cursor.fork();
    let type_id = next.node_id()?;
    let identity = if is_type(321, &type_id) {
        read_anonymous(&mut next)?
    } else if is_type(324, &type_id) {
        read_user_name(&mut next)?
    } else {
        read_unknown(&mut next, &type_id)?
    };
    *cursor = next;
    Ok(identity)
}
