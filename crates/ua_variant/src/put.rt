//! Writing values.

ghost use Rattle.std.specs.Prelude.{◌≡◌, ◌<◌, ◌^◌, List, ℕ, All, IfOk, length};
ghost use Rattle.ua_binary.specs.Format.{Puts, PutsPart};
ghost use Rattle.ua_binary.specs.Binary.{array};
ghost use Rattle.ua_variant.specs.Scalar.{scalar, scalar_number, IsScalar, IsShortScalar};
ghost use Rattle.ua_variant.specs.Variant.{variant, IsVariant, IsShortVariant};
ghost use Rattle.ua_variant.specs.Values.{values, array_number, IsValues, IsShortValues};

use crate::value::{Array, Scalar, Variant};
use ua_binary::{
    BinaryFault, or_undone, put_array, put_block, put_boolean, put_guid, put_i8, put_i16, put_i32,
    put_i64, put_localized, put_node_id, put_owned_bytes, put_owned_text, put_qualified,
    put_status, put_ticks, put_u8, put_u16, put_u32, put_u64,
};

#[tactic(auto, unfolding(crate::specs::Scalar::scalar, ua_binary::specs::Binary::boolean, ua_binary::specs::Binary::sbyte, ua_binary::specs::Binary::signed, ua_binary::specs::Binary::unsigned, ua_binary::specs::Binary::ticks, ua_binary::specs::Binary::status, ua_binary::specs::Binary::text, ua_binary::specs::Binary::byte_string, ua_binary::specs::Binary::guid, ua_binary::specs::Binary::node_id, ua_binary::specs::Binary::qualified, ua_binary::specs::Binary::localized))]
fn put_scalar(out: &mut Vec<u8>, v: &Scalar) -> Result<(), BinaryFault>
    requires { IsShortScalar v.now }
    ensures puts { Puts BinaryFault.OutOfMemory result out.old.items out.new.items
        ((scalar (scalar_number v.now)).canon v.now) }
    ensures spelled { IfOk result (λ _. IsScalar v.now) }
{
    match v {
        Scalar::Boolean(v) => put_boolean(out, *v),
        Scalar::SByte(v) => put_i8(out, *v),
        Scalar::Byte(v) => put_u8(out, *v),
        Scalar::Int16(v) => put_i16(out, *v),
        Scalar::UInt16(v) => put_u16(out, *v),
        Scalar::Int32(v) => put_i32(out, *v),
        Scalar::UInt32(v) => put_u32(out, *v),
        Scalar::Int64(v) => put_i64(out, *v),
        Scalar::UInt64(v) => put_u64(out, *v),
        Scalar::Float(v) => put_block(out, v),
        Scalar::Double(v) => put_block(out, v),
        Scalar::String(v) => put_owned_text(out, v),
        Scalar::DateTime(v) => put_ticks(out, *v),
        Scalar::Guid(v) => put_guid(out, v),
        Scalar::ByteString(v) => put_owned_bytes(out, v),
        Scalar::NodeId(v) => put_node_id(out, v),
        Scalar::StatusCode(v) => put_status(out, *v),
        Scalar::QualifiedName(v) => put_qualified(out, v),
        Scalar::LocalizedText(v) => put_localized(out, v),
    }
}

#[tactic(auto, using(crate::proofs::Types::many_spelled), unfolding(crate::specs::Values::values))]
fn put_values(out: &mut Vec<u8>, v: &Array) -> Result<(), BinaryFault>
    requires { IsShortValues v.now }
    ensures puts { Puts BinaryFault.OutOfMemory result out.old.items out.new.items
        ((values (array_number v.now)).canon v.now) }
    ensures spelled { IfOk result (λ _. IsValues v.now) }
{
    match v {
        Array::Boolean(v) => put_array(out, v.as_slice()),
        Array::SByte(v) => put_array(out, v.as_slice()),
        Array::Byte(v) => put_array(out, v.as_slice()),
        Array::Int16(v) => put_array(out, v.as_slice()),
        Array::UInt16(v) => put_array(out, v.as_slice()),
        Array::Int32(v) => put_array(out, v.as_slice()),
        Array::UInt32(v) => put_array(out, v.as_slice()),
        Array::Int64(v) => put_array(out, v.as_slice()),
        Array::UInt64(v) => put_array(out, v.as_slice()),
        Array::Float(v) => put_array(out, v.as_slice()),
        Array::Double(v) => put_array(out, v.as_slice()),
        Array::String(v) => put_array(out, v.as_slice()),
        Array::DateTime(v) => put_array(out, v.as_slice()),
        Array::Guid(v) => put_array(out, v.as_slice()),
        Array::ByteString(v) => put_array(out, v.as_slice()),
        Array::NodeId(v) => put_array(out, v.as_slice()),
        Array::StatusCode(v) => put_array(out, v.as_slice()),
        Array::QualifiedName(v) => put_array(out, v.as_slice()),
        Array::LocalizedText(v) => put_array(out, v.as_slice()),
    }
}

#[tactic(auto, using(ua_binary::proofs::Kept::kept, crate::proofs::Types::types, crate::proofs::Canons::canons))]
fn put_variant_parts(out: &mut Vec<u8>, v: &Variant) -> Result<(), BinaryFault>
    requires { IsShortVariant v.now }
    ensures puts { PutsPart BinaryFault.OutOfMemory result out.old.items out.new.items
        (variant.canon v.now) }
    ensures spelled { IfOk result (λ _. IsVariant v.now) }
{
    match v {
        Variant::Null => put_u8(out, 0)?,
        Variant::Scalar(scalar) => {
            put_u8(out, scalar.number())?;
            put_scalar(out, scalar)?;
        }
        Variant::Array(array) => {
            put_u8(out, 128 + array.number())?;
            put_values(out, array)?;
        }
    }
    Ok(())
}

/// Writes a value (Part 6, 5.2.2.16): its first byte, and then the value or the array. Its one error
/// is `OutOfMemory`, and then the vector is as it was. What was written has a spelling, so it is read
/// again.
pub fn put_variant(out: &mut Vec<u8>, v: &Variant) -> Result<(), BinaryFault>
    requires { IsShortVariant v.now }
    ensures puts { Puts BinaryFault.OutOfMemory result out.old.items out.new.items (variant.canon v.now) }
    ensures spelled { IfOk result (λ _. IsVariant v.now) }
{
    let len = out.len();
    let put = put_variant_parts(out, v);
    or_undone(put, out, len)
}
