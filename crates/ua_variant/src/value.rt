//! Values of any type.

ghost use Rattle.std.specs.Prelude.{◌≡◌, ℕ, Bool};
ghost use Rattle.ua_variant.specs.Scalar.{scalar_number, is_type_number};
ghost use Rattle.ua_variant.specs.Values.{array_number};
ghost use Rattle.ua_variant.specs.Variant.{has_type};

use ua_binary::{Bytes, Guid, Listing, LocalizedText, NodeId, QualifiedName, Status, Text, Ticks};

/// One value (Part 6, 5.2.2). A Float and a Double are kept as their bytes.
#[derive(Debug, Drop, PartialEq, Eq)]
pub enum Scalar {
    Boolean(bool),
    SByte(i8),
    Byte(u8),
    Int16(i16),
    UInt16(u16),
    Int32(i32),
    UInt32(u32),
    Int64(i64),
    UInt64(u64),
    Float([u8; 4]),
    Double([u8; 8]),
    String(Option<Text>),
    DateTime(Ticks),
    Guid(Guid),
    ByteString(Option<Bytes>),
    NodeId(NodeId),
    StatusCode(Status),
    QualifiedName(QualifiedName),
    LocalizedText(LocalizedText),
}

/// Values of one type (Part 6, 5.2.5).
#[derive(Debug, Drop, PartialEq, Eq)]
pub enum Array {
    Boolean(Listing<bool>),
    SByte(Listing<i8>),
    Byte(Listing<u8>),
    Int16(Listing<i16>),
    UInt16(Listing<u16>),
    Int32(Listing<i32>),
    UInt32(Listing<u32>),
    Int64(Listing<i64>),
    UInt64(Listing<u64>),
    Float(Listing<[u8; 4]>),
    Double(Listing<[u8; 8]>),
    String(Listing<Option<Text>>),
    DateTime(Listing<Ticks>),
    Guid(Listing<Guid>),
    ByteString(Listing<Option<Bytes>>),
    NodeId(Listing<NodeId>),
    StatusCode(Listing<Status>),
    QualifiedName(Listing<QualifiedName>),
    LocalizedText(Listing<LocalizedText>),
}

/// A value that may be of any type: none, one, or an array (Part 6, 5.2.2.16).
#[derive(Debug, Drop, PartialEq, Eq)]
pub enum Variant {
    Null,
    Scalar(Scalar),
    Array(Array),
}

/// What a variable holds: the number of its type, and whether it is an array.
#[derive(Clone, Copy, Debug, PartialEq, Eq)]
pub struct ValueType {
    pub number: u8,
    pub array: bool,
}

impl Scalar {
    /// The number of its type (Part 6, 5.1.2).
    pub fn number(&self) -> u8
        ensures { result ≡ scalar_number self.now }
    {
        match self {
            Scalar::Boolean(_) => 1,
            Scalar::SByte(_) => 2,
            Scalar::Byte(_) => 3,
            Scalar::Int16(_) => 4,
            Scalar::UInt16(_) => 5,
            Scalar::Int32(_) => 6,
            Scalar::UInt32(_) => 7,
            Scalar::Int64(_) => 8,
            Scalar::UInt64(_) => 9,
            Scalar::Float(_) => 10,
            Scalar::Double(_) => 11,
            Scalar::String(_) => 12,
            Scalar::DateTime(_) => 13,
            Scalar::Guid(_) => 14,
            Scalar::ByteString(_) => 15,
            Scalar::NodeId(_) => 17,
            Scalar::StatusCode(_) => 19,
            Scalar::QualifiedName(_) => 20,
            Scalar::LocalizedText(_) => 21,
        }
    }
}

impl Array {
    /// The number of its type (Part 6, 5.1.2).
    pub fn number(&self) -> u8
        ensures { result ≡ array_number self.now }
    {
        match self {
            Array::Boolean(_) => 1,
            Array::SByte(_) => 2,
            Array::Byte(_) => 3,
            Array::Int16(_) => 4,
            Array::UInt16(_) => 5,
            Array::Int32(_) => 6,
            Array::UInt32(_) => 7,
            Array::Int64(_) => 8,
            Array::UInt64(_) => 9,
            Array::Float(_) => 10,
            Array::Double(_) => 11,
            Array::String(_) => 12,
            Array::DateTime(_) => 13,
            Array::Guid(_) => 14,
            Array::ByteString(_) => 15,
            Array::NodeId(_) => 17,
            Array::StatusCode(_) => 19,
            Array::QualifiedName(_) => 20,
            Array::LocalizedText(_) => 21,
        }
    }
}

/// Whether a type has this number.
#[tactic(auto, unfolding(crate::specs::Scalar::is_type_number))]
pub fn is_type(number: u8) -> bool
    ensures { result ≡ is_type_number number }
{
    matches!(
        number,
        1 | 2 | 3 | 4 | 5 | 6 | 7 | 8 | 9 | 10 | 11 | 12 | 13 | 14 | 15 | 17 | 19 | 20 | 21
    )
}

/// Whether a value fits a type. A null value fits each.
pub fn same_type(value: &Variant, value_type: ValueType) -> bool
    ensures { result ≡ has_type value.now value_type }
{
    match value {
        Variant::Null => true,
        Variant::Scalar(scalar) => !value_type.array && scalar.number() == value_type.number,
        Variant::Array(array) => value_type.array && array.number() == value_type.number,
    }
}
