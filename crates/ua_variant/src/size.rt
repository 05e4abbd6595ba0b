//! How many bytes values take.

ghost use Rattle.std.specs.Prelude.{◌≡◌, ◌≤◌, ◌<◌, ◌^◌, IfSome, is_some, length};
ghost use Rattle.std.specs.Int.{w64};
ghost use Rattle.std.specs.Int.RustNames.{FitsSigned};
ghost use Rattle.ua_binary.specs.Format.{saturated, flagged};
ghost use Rattle.ua_binary.specs.Binary.{ticks, status};
ghost use Rattle.ua_variant.specs.Scalar.{scalar, scalar_number, IsScalar, IsShortScalar};
ghost use Rattle.ua_variant.specs.Values.{values, array_number, IsValues, IsShortValues};
ghost use Rattle.ua_variant.specs.Variant.{variant, IsVariant, IsShortVariant};
ghost use Rattle.ua_variant.specs.DataValue.{picoseconds, data_value, IsDataValue, IsShortData};

use crate::data::DataValue;
use crate::value::{Array, Scalar, Variant};
use ua_binary::{Encode, Status, Ticks, array_size};

impl Scalar {
    /// How many bytes of it are written behind the number of its type.
    #[tactic(auto, unfolding(crate::specs::Scalar::scalar, ua_binary::specs::Binary::boolean, ua_binary::specs::Binary::sbyte, ua_binary::specs::Binary::signed, ua_binary::specs::Binary::unsigned, ua_binary::specs::Binary::ticks, ua_binary::specs::Binary::status, ua_binary::specs::Binary::text, ua_binary::specs::Binary::byte_string, ua_binary::specs::Binary::guid, ua_binary::specs::Binary::node_id, ua_binary::specs::Binary::qualified, ua_binary::specs::Binary::localized))]
    fn size(&self) -> usize
        ensures counted { result ≡ saturated (length ((scalar (scalar_number self.now)).canon self.now)) }
        ensures short { length ((scalar (scalar_number self.now)).canon self.now) < 2 ^ 31
            → IsShortScalar self.now }
        ensures spelled { IsShortScalar self.now → IsScalar self.now }
    {
        match self {
            Scalar::Boolean(v) => v.size(),
            Scalar::SByte(v) => v.size(),
            Scalar::Byte(v) => v.size(),
            Scalar::Int16(v) => v.size(),
            Scalar::UInt16(v) => v.size(),
            Scalar::Int32(v) => v.size(),
            Scalar::UInt32(v) => v.size(),
            Scalar::Int64(v) => v.size(),
            Scalar::UInt64(v) => v.size(),
            Scalar::Float(v) => v.size(),
            Scalar::Double(v) => v.size(),
            Scalar::String(v) => v.size(),
            Scalar::DateTime(v) => v.size(),
            Scalar::Guid(v) => v.size(),
            Scalar::ByteString(v) => v.size(),
            Scalar::NodeId(v) => v.size(),
            Scalar::StatusCode(v) => v.size(),
            Scalar::QualifiedName(v) => v.size(),
            Scalar::LocalizedText(v) => v.size(),
        }
    }
}

impl Array {
    /// How many bytes of it are written behind the number of its type.
    #[tactic(auto, using(crate::proofs::Sizes::values_fit), unfolding(crate::specs::Values::values))]
    fn size(&self) -> usize
        ensures counted { result ≡ saturated (length ((values (array_number self.now)).canon self.now)) }
        ensures short { length ((values (array_number self.now)).canon self.now) < 2 ^ 31
            → IsShortValues self.now }
        ensures spelled { IsShortValues self.now → IsValues self.now }
    {
        match self {
            Array::Boolean(v) => array_size(v.as_slice()),
            Array::SByte(v) => array_size(v.as_slice()),
            Array::Byte(v) => array_size(v.as_slice()),
            Array::Int16(v) => array_size(v.as_slice()),
            Array::UInt16(v) => array_size(v.as_slice()),
            Array::Int32(v) => array_size(v.as_slice()),
            Array::UInt32(v) => array_size(v.as_slice()),
            Array::Int64(v) => array_size(v.as_slice()),
            Array::UInt64(v) => array_size(v.as_slice()),
            Array::Float(v) => array_size(v.as_slice()),
            Array::Double(v) => array_size(v.as_slice()),
            Array::String(v) => array_size(v.as_slice()),
            Array::DateTime(v) => array_size(v.as_slice()),
            Array::Guid(v) => array_size(v.as_slice()),
            Array::ByteString(v) => array_size(v.as_slice()),
            Array::NodeId(v) => array_size(v.as_slice()),
            Array::StatusCode(v) => array_size(v.as_slice()),
            Array::QualifiedName(v) => array_size(v.as_slice()),
            Array::LocalizedText(v) => array_size(v.as_slice()),
        }
    }
}

impl Variant {
    /// How many bytes of it are written (Part 6, 5.2.2.16), or 2^64 - 1 where there are more. It takes
    /// no memory. The texts, byte strings and arrays of a value of less than 2^31 bytes can be counted,
    /// and each value whose can has a spelling.
    #[tactic(auto, using(crate::proofs::Sizes::lengths))]
    pub fn size(&self) -> usize
        ensures counted { result ≡ saturated (length (variant.canon self.now)) }
        ensures short { length (variant.canon self.now) < 2 ^ 31 → IsShortVariant self.now }
        ensures spelled { IsShortVariant self.now → IsVariant self.now }
    {
        match self {
            Variant::Null => 1,
            Variant::Scalar(scalar) => scalar.size().saturating_add(1),
            Variant::Array(array) => array.size().saturating_add(1),
        }
    }
}

fn value_size(v: &Option<Variant>) -> usize
    ensures counted { result ≡ saturated (length ((flagged (is_some v.now) variant).canon v.now)) }
    ensures short { length ((flagged (is_some v.now) variant).canon v.now) < 2 ^ 31
        → IfSome v.now IsShortVariant }
    ensures spelled { IfSome v.now IsShortVariant → IfSome v.now IsVariant }
{
    match v {
        None => 0,
        Some(v) => v.size(),
    }
}

#[tactic(auto, unfolding(ua_binary::specs::Binary::status, ua_binary::specs::Binary::unsigned))]
fn status_size(v: Option<Status>) -> usize
    ensures counted { result ≡ length ((flagged (is_some v) status).canon v) }
    ensures at_most { result ≤ 4 }
    ensures spelled { IfSome v (λ c. c.0 < 2 ^ 32) }
{
    match v {
        None => 0,
        Some(v) => v.size(),
    }
}

#[tactic(auto, unfolding(ua_binary::specs::Binary::ticks, ua_binary::specs::Binary::signed, ua_binary::specs::Binary::unsigned))]
fn time_size(v: Option<Ticks>) -> usize
    ensures counted { result ≡ length ((flagged (is_some v) ticks).canon v) }
    ensures at_most { result ≤ 8 }
    ensures spelled { IfSome v (λ t. FitsSigned w64 t.0) }
{
    match v {
        None => 0,
        Some(v) => v.size(),
    }
}

#[tactic(auto, unfolding(crate::specs::DataValue::picoseconds, ua_binary::specs::Binary::unsigned))]
fn picoseconds_size(v: Option<u16>) -> usize
    ensures counted { result ≡ length ((flagged (is_some v) picoseconds).canon v) }
    ensures at_most { result ≤ 2 }
{
    match v {
        None => 0,
        Some(v) => v.size(),
    }
}

impl DataValue {
    /// How many bytes of it are written (Part 6, 5.2.2.17), or 2^64 - 1 where there are more. It takes
    /// no memory. The texts, byte strings and arrays of one of less than 2^31 bytes can be counted; and
    /// each whose can, and whose picoseconds are at most 9,999, has a spelling.
    #[tactic(auto, using(crate::proofs::Sizes::lengths))]
    pub fn size(&self) -> usize
        ensures counted { result ≡ saturated (length (data_value.canon self.now)) }
        ensures short { length (data_value.canon self.now) < 2 ^ 31 → IfSome self.now.value IsShortVariant }
        ensures spelled { IsShortData self.now → IsDataValue self.now }
    {
        let stamps = status_size(self.status)
            + time_size(self.source_time)
            + picoseconds_size(self.source_pico)
            + time_size(self.server_time)
            + picoseconds_size(self.server_pico);
        value_size(&self.value).saturating_add(1 + stamps)
    }
}
