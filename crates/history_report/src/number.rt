//! Numbers among values.

use history_text::{TextFault, value_text};
use records::Held;
use std::alloc::Global;
use std::num::{nearest_i64_to_f64, nearest_u64_to_f64};
use ua_binary::Status;
use ua_variant::{Scalar, Variant};

/// A number as it was written; a Boolean counts as 0 or 1.
#[derive(Clone, Copy)]
enum Exact {
    Boolean(bool),
    Signed(i64),
    Unsigned(u64),
    Float([u8; 4]),
    Double([u8; 8]),
}

/// A finite number.
#[derive(Clone, Copy)]
pub(crate) struct Number {
    /// The Double that is next to it.
    pub(crate) near: f64,
    exact: Exact,
}

/// The finite number that a Float's bits say.
fn float_of(bits: u32) -> Option<f64> {
    if bits % 0x8000_0000 > 0x7F7F_FFFF {
        return None;
    }
    Some(f64::from(f32::from_bits(bits)))
}

/// The finite number that a Double's bits say.
fn double_of(bits: u64) -> Option<f64> {
    if bits % 0x8000_0000_0000_0000 > 0x7FEF_FFFF_FFFF_FFFF {
        return None;
    }
    Some(f64::from_bits(bits))
}

/// The Double that is next to a number, if that is finite.
fn nearest(exact: Exact) -> Option<f64> {
    match exact {
        Exact::Boolean(value) => Some(if value { 1.0 } else { 0.0 }),
        Exact::Signed(value) => Some(nearest_i64_to_f64(value)),
        Exact::Unsigned(value) => Some(nearest_u64_to_f64(value)),
        Exact::Float(bytes) => float_of(u32::from_le_bytes(bytes)),
        Exact::Double(bytes) => double_of(u64::from_le_bytes(bytes)),
    }
}

/// The number that a value is, if it is one.
fn exact_of(scalar: &Scalar) -> Option<Exact> {
    match scalar {
        Scalar::Boolean(value) => Some(Exact::Boolean(*value)),
        Scalar::SByte(value) => Some(Exact::Signed(i64::from(*value))),
        Scalar::Byte(value) => Some(Exact::Unsigned(u64::from(*value))),
        Scalar::Int16(value) => Some(Exact::Signed(i64::from(*value))),
        Scalar::UInt16(value) => Some(Exact::Unsigned(u64::from(*value))),
        Scalar::Int32(value) => Some(Exact::Signed(i64::from(*value))),
        Scalar::UInt32(value) => Some(Exact::Unsigned(u64::from(*value))),
        Scalar::Int64(value) => Some(Exact::Signed(*value)),
        Scalar::UInt64(value) => Some(Exact::Unsigned(*value)),
        Scalar::Float(bytes) => Some(Exact::Float(*bytes)),
        Scalar::Double(bytes) => Some(Exact::Double(*bytes)),
        _ => None,
    }
}

/// Whether a status is good: its two highest bits are 0, or there is none.
fn is_good(status: Option<Status>) -> bool {
    match status {
        Some(status) => status.0 < 0x4000_0000,
        None => true,
    }
}

/// The finite number that a live value of a good status is, if it is one.
pub(crate) fn number_of(held: &Held) -> Option<Number> {
    if !is_good(held.value.status) {
        return None;
    }
    let Some(Variant::Scalar(scalar)) = &held.value.value else {
        return None;
    };
    let exact = exact_of(scalar)?;
    let near = nearest(exact)?;
    Some(Number { near, exact })
}

/// A number's text, as the table has it.
pub(crate) fn number_text(alloc: Global, number: Number) -> Result<Vec<u8>, TextFault> {
    let scalar = match number.exact {
        Exact::Boolean(value) => Scalar::Boolean(value),
        Exact::Signed(value) => Scalar::Int64(value),
        Exact::Unsigned(value) => Scalar::UInt64(value),
        Exact::Float(bytes) => Scalar::Float(bytes),
        Exact::Double(bytes) => Scalar::Double(bytes),
    };
    value_text(alloc, &scalar)
}
