//! Copies of values, which may run out of memory.

use crate::data::DataValue;
use crate::value::{Array, Scalar, Variant};
use std::alloc::AllocError;
use ua_binary::TryClone;

impl TryClone for Scalar {
    fn try_clone(&self) -> Result<Scalar, AllocError> {
        Ok(match self {
            Scalar::Boolean(v) => Scalar::Boolean(*v),
            Scalar::SByte(v) => Scalar::SByte(*v),
            Scalar::Byte(v) => Scalar::Byte(*v),
            Scalar::Int16(v) => Scalar::Int16(*v),
            Scalar::UInt16(v) => Scalar::UInt16(*v),
            Scalar::Int32(v) => Scalar::Int32(*v),
            Scalar::UInt32(v) => Scalar::UInt32(*v),
            Scalar::Int64(v) => Scalar::Int64(*v),
            Scalar::UInt64(v) => Scalar::UInt64(*v),
            Scalar::Float(v) => Scalar::Float(*v),
            Scalar::Double(v) => Scalar::Double(*v),
            Scalar::String(v) => Scalar::String(v.try_clone()?),
            Scalar::DateTime(v) => Scalar::DateTime(*v),
            Scalar::Guid(v) => Scalar::Guid(*v),
            Scalar::ByteString(v) => Scalar::ByteString(v.try_clone()?),
            Scalar::NodeId(v) => Scalar::NodeId(v.try_clone()?),
            Scalar::StatusCode(v) => Scalar::StatusCode(*v),
            Scalar::QualifiedName(v) => Scalar::QualifiedName(v.try_clone()?),
            Scalar::LocalizedText(v) => Scalar::LocalizedText(v.try_clone()?),
        })
    }
}

impl TryClone for Array {
    fn try_clone(&self) -> Result<Array, AllocError> {
        Ok(match self {
            Array::Boolean(v) => Array::Boolean(v.try_clone()?),
            Array::SByte(v) => Array::SByte(v.try_clone()?),
            Array::Byte(v) => Array::Byte(v.try_clone()?),
            Array::Int16(v) => Array::Int16(v.try_clone()?),
            Array::UInt16(v) => Array::UInt16(v.try_clone()?),
            Array::Int32(v) => Array::Int32(v.try_clone()?),
            Array::UInt32(v) => Array::UInt32(v.try_clone()?),
            Array::Int64(v) => Array::Int64(v.try_clone()?),
            Array::UInt64(v) => Array::UInt64(v.try_clone()?),
            Array::Float(v) => Array::Float(v.try_clone()?),
            Array::Double(v) => Array::Double(v.try_clone()?),
            Array::String(v) => Array::String(v.try_clone()?),
            Array::DateTime(v) => Array::DateTime(v.try_clone()?),
            Array::Guid(v) => Array::Guid(v.try_clone()?),
            Array::ByteString(v) => Array::ByteString(v.try_clone()?),
            Array::NodeId(v) => Array::NodeId(v.try_clone()?),
            Array::StatusCode(v) => Array::StatusCode(v.try_clone()?),
            Array::QualifiedName(v) => Array::QualifiedName(v.try_clone()?),
            Array::LocalizedText(v) => Array::LocalizedText(v.try_clone()?),
        })
    }
}

impl TryClone for Variant {
    fn try_clone(&self) -> Result<Variant, AllocError> {
        Ok(match self {
            Variant::Null => Variant::Null,
            Variant::Scalar(scalar) => Variant::Scalar(scalar.try_clone()?),
            Variant::Array(array) => Variant::Array(array.try_clone()?),
        })
    }
}

impl TryClone for DataValue {
    fn try_clone(&self) -> Result<DataValue, AllocError> {
        let value = self.value.try_clone()?;
        Ok(DataValue {
            value,
            status: self.status,
            source_time: self.source_time,
            source_pico: self.source_pico,
            server_time: self.server_time,
            server_pico: self.server_pico,
        })
    }
}
