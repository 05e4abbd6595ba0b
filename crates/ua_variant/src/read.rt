//! Reading values.

ghost use Rattle.std.specs.Prelude.{◌≡◌, List, ℕ, IfOk};
ghost use Rattle.ua_binary.specs.Format.{ReadsPart, ReadsUnless, items_at};
ghost use Rattle.ua_binary.specs.Binary.{array};
ghost use Rattle.ua_variant.specs.Scalar.{scalar};
ghost use Rattle.ua_variant.specs.Values.{values};
ghost use Rattle.ua_variant.specs.Variant.{variant, IsShortVariant};

use crate::fault::VariantFault;
use crate::value::{Array, Scalar, Variant, is_type};
use std::alloc::Global;
use ua_binary::{
    BinaryFault, Bytes, Cursor, Decode, Listing, LocalizedText, NodeId, QualifiedName, Text,
    read_array,
};

#[tactic(auto, unfolding(crate::specs::Scalar::scalar))]
#[inline(always)]
fn read_scalar(alloc: Global, cursor: &mut Cursor, number: u8) -> Result<Scalar, BinaryFault>
    ensures { ReadsUnless BinaryFault.OutOfMemory (λ v. v) result cursor.old cursor.new
        (scalar number).read }
{
    Ok(match number {
        1 => Scalar::Boolean(cursor.boolean()?),
        2 => Scalar::SByte(cursor.i8()?),
        3 => Scalar::Byte(cursor.u8()?),
        4 => Scalar::Int16(cursor.i16()?),
        5 => Scalar::UInt16(cursor.u16()?),
        6 => Scalar::Int32(cursor.i32()?),
        7 => Scalar::UInt32(cursor.u32()?),
        8 => Scalar::Int64(cursor.i64()?),
        9 => Scalar::UInt64(cursor.u64()?),
        10 => Scalar::Float(cursor.four()?),
        11 => Scalar::Double(cursor.eight()?),
        12 => Scalar::String(<Option<Text>>::decode(alloc, cursor)?),
        13 => Scalar::DateTime(cursor.ticks()?),
        14 => Scalar::Guid(cursor.guid()?),
        15 => Scalar::ByteString(<Option<Bytes>>::decode(alloc, cursor)?),
        17 => Scalar::NodeId(NodeId::decode(alloc, cursor)?),
        19 => Scalar::StatusCode(cursor.status()?),
        20 => Scalar::QualifiedName(QualifiedName::decode(alloc, cursor)?),
        21 => Scalar::LocalizedText(LocalizedText::decode(alloc, cursor)?),
        _ => return Err(BinaryFault::BadEncodingByte),
    })
}

#[tactic(auto, unfolding(crate::specs::Values::values))]
fn read_values(alloc: Global, cursor: &mut Cursor, number: u8) -> Result<Array, BinaryFault>
    ensures { ReadsUnless BinaryFault.OutOfMemory (λ v. v) result cursor.old cursor.new
        (values number).read }
{
    Ok(match number {
        1 => Array::Boolean(Listing::of(read_array(alloc, cursor)?)),
        2 => Array::SByte(Listing::of(read_array(alloc, cursor)?)),
        3 => Array::Byte(Listing::of(read_array(alloc, cursor)?)),
        4 => Array::Int16(Listing::of(read_array(alloc, cursor)?)),
        5 => Array::UInt16(Listing::of(read_array(alloc, cursor)?)),
        6 => Array::Int32(Listing::of(read_array(alloc, cursor)?)),
        7 => Array::UInt32(Listing::of(read_array(alloc, cursor)?)),
        8 => Array::Int64(Listing::of(read_array(alloc, cursor)?)),
        9 => Array::UInt64(Listing::of(read_array(alloc, cursor)?)),
        10 => Array::Float(Listing::of(read_array(alloc, cursor)?)),
        11 => Array::Double(Listing::of(read_array(alloc, cursor)?)),
        12 => Array::String(Listing::of(read_array(alloc, cursor)?)),
        13 => Array::DateTime(Listing::of(read_array(alloc, cursor)?)),
        14 => Array::Guid(Listing::of(read_array(alloc, cursor)?)),
        15 => Array::ByteString(Listing::of(read_array(alloc, cursor)?)),
        17 => Array::NodeId(Listing::of(read_array(alloc, cursor)?)),
        19 => Array::StatusCode(Listing::of(read_array(alloc, cursor)?)),
        20 => Array::QualifiedName(Listing::of(read_array(alloc, cursor)?)),
        21 => Array::LocalizedText(Listing::of(read_array(alloc, cursor)?)),
        _ => return Err(BinaryFault::BadEncodingByte),
    })
}

/// Reads a value (Part 6, 5.2.2.16). A matrix, an array of null and a type that is left out are
/// `TypeUnsupported` by the first byte alone. An error leaves the cursor where it was. What is read may
/// be written.
#[tactic(auto, unfolding(crate::specs::Variant::variant))]
#[inline(always)]
pub fn read_variant(alloc: Global, cursor: &mut Cursor) -> Result<Variant, VariantFault>
    ensures reads { ReadsUnless VariantFault.OutOfMemory (λ v. v) result cursor.old cursor.new variant.read }
    ensures short { IfOk result IsShortVariant }
{
    let mut next = cursor.fork();
    let first = next.u8()?;
    let value = if first == 0 {
        Variant::Null
    } else if first < 128 {
        if !is_type(first) {
            return Err(VariantFault::TypeUnsupported);
        }
        Variant::Scalar(read_scalar(alloc, &mut next, first)?)
    } else {
        let number = first - 128;
        if !is_type(number) {
            return Err(VariantFault::TypeUnsupported);
        }
        Variant::Array(read_values(alloc, &mut next, number)?)
    };
    *cursor = next;
    Ok(value)
}
