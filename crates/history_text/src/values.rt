//! Values as text.

ghost use Rattle.std.specs.Prelude.{◌≡◌, ◌⊎◌, IfOk, IfErr, Ok, Err, ok_or, Some, List, [], unwrap_or, string_bytes};
ghost use Rattle.std.specs.Str.{IsAscii};
ghost use Rattle.hex.specs.declared.error.FromHexError.TheVariants.{OutOfMemory as NoMemory};
ghost use Rattle.hex.specs.Hex.{encode_lower};
ghost use Rattle.ua_variant.specs.Scalar.{scalar_number};
ghost use Rattle.ua_variant.specs.declared.value.Scalar.TheVariants.{ByteString};
ghost use Rattle.history_text.specs.Values.{whole_ticks, ticks_in, bytes_in, plain_in, value_in, Answers, IsUnwritten, read_back, IsValueText, as_value};
ghost use Rattle.history_text.specs.Times.{time_in, IsTimeText};
ghost use Rattle.history_text.specs.declared.fault.TextFault.TheVariants.{NoBytes, NoText, OutOfMemory};

use crate::fault::TextFault;
use crate::floats::{double_in, double_text, single_in, single_text};
use crate::guids::{guid_in, guid_text};
use crate::numbers::{
    boolean_in, boolean_text, i8_in, i8_text, i16_in, i16_text, i32_in, i32_text, i64_in, i64_text,
    u8_in, u8_text, u16_in, u16_text, u32_in, u32_text, u64_in, u64_text,
};
use crate::status::{status_in, status_text};
use crate::times::{Time, time_in, time_text};
use hex::FromHexError;
use std::alloc::{AllocError, Global};
use ua_binary::{Bytes, Text, Ticks};
use ua_variant::Scalar;

/// The steps of a moment, where it has no picoseconds.
fn whole_ticks(time: Time) -> Option<Ticks>
    ensures { result ≡ whole_ticks time }
{
    if time.pico == 0 {
        Some(Ticks(time.ticks))
    } else {
        None
    }
}

/// The moment without picoseconds that a text says.
pub(crate) fn ticks_in(text: &str) -> Option<Ticks>
    ensures { result ≡ ticks_in text.now }
{
    match time_in(text.as_bytes()) {
        Some(time) => whole_ticks(time),
        None => None,
    }
}

/// A number, a moment, a Guid or a status code.
fn plain_in(number: u8, text: &str) -> Result<Scalar, TextFault>
    ensures { result ≡ plain_in number text.now }
{
    match number {
        2 => i8_in(text).map(Scalar::SByte).ok_or(TextFault::NoInteger),
        3 => u8_in(text).map(Scalar::Byte).ok_or(TextFault::NoInteger),
        4 => i16_in(text).map(Scalar::Int16).ok_or(TextFault::NoInteger),
        5 => u16_in(text).map(Scalar::UInt16).ok_or(TextFault::NoInteger),
        6 => i32_in(text).map(Scalar::Int32).ok_or(TextFault::NoInteger),
        7 => u32_in(text).map(Scalar::UInt32).ok_or(TextFault::NoInteger),
        8 => i64_in(text).map(Scalar::Int64).ok_or(TextFault::NoInteger),
        9 => u64_in(text).map(Scalar::UInt64).ok_or(TextFault::NoInteger),
        10 => single_in(text).map(Scalar::Float).ok_or(TextFault::NoFloat),
        11 => double_in(text)
            .map(Scalar::Double)
            .ok_or(TextFault::NoFloat),
        13 => ticks_in(text)
            .map(Scalar::DateTime)
            .ok_or(TextFault::NoTime),
        14 => guid_in(text.as_bytes())
            .map(Scalar::Guid)
            .ok_or(TextFault::NoGuid),
        19 => status_in(text)
            .map(Scalar::StatusCode)
            .ok_or(TextFault::NoStatus),
        _ => Err(TextFault::NoText),
    }
}

/// How the fault of a decoder is told.
fn fault_of(fault: FromHexError) -> TextFault
    ensures memory { (fault ≡ NoMemory) → (result ≡ OutOfMemory) }
    ensures either { (result ≡ OutOfMemory) ⊎ (result ≡ NoBytes) }
{
    match fault {
        FromHexError::OutOfMemory => TextFault::OutOfMemory,
        _ => TextFault::NoBytes,
    }
}

/// Bytes of hex digits.
pub(crate) fn bytes_in(alloc: Global, text: &str) -> Result<Bytes, TextFault>
    ensures { Answers (ok_or (bytes_in text.now) NoBytes) result }
{
    match hex::decode(alloc, text.as_bytes()) {
        Ok(bytes) => Ok(Bytes::new(bytes)),
        Err(fault) => Err(fault_of(fault)),
    }
}

/// A byte string of hex digits.
fn bytes_value(alloc: Global, text: &str) -> Result<Scalar, TextFault>
    ensures { Answers (as_value (λ bytes. ByteString (Some bytes)) NoBytes (bytes_in text.now))
        result }
{
    let bytes = bytes_in(alloc, text)?;
    Ok(Scalar::ByteString(Some(bytes)))
}

/// Reads a value of the type of this number: `true` or `false`; a whole number in decimal; a Float
/// or a Double as the nearest to a decimal number, `inf`, `-inf` or `NaN`; a String as it is; a
/// DateTime as `read_time` does, without picoseconds; a Guid with its hyphens; bytes as hex digits;
/// a status code as `read_status` does. A text that is none is refused by what was expected; the
/// other types are `NoText`, and `OutOfMemory` says that memory ran out.
pub fn read_value(alloc: Global, number: u8, text: &str) -> Result<Scalar, TextFault>
    ensures { Answers (value_in number text.now) result }
{
    match number {
        1 => boolean_in(text)
            .map(Scalar::Boolean)
            .ok_or(TextFault::NoBoolean),
        12 => Ok(Scalar::String(Some(Text::from_str(alloc, text)?))),
        15 => bytes_value(alloc, text),
        _ => plain_in(number, text),
    }
}

/// A moment without picoseconds as text.
pub(crate) fn ticks_text(alloc: Global, ticks: Ticks) -> Result<Vec<u8>, AllocError>
    ensures written { IfOk result (λ text.
        IsTimeText (record { ticks = ticks.0; pico = 0 }) text.items) }
    ensures read { IfOk result (λ text. ticks_in text.items ≡ Some ticks) }
    ensures ascii { IfOk result (λ text. IsAscii text.items) }
{
    let text = time_text(
        alloc,
        Time {
            ticks: ticks.0,
            pico: 0,
        },
    )?;
    Ok(text)
}

/// The bytes of a byte string, none of a null one.
pub(crate) fn bytes_of(bytes: &Option<Bytes>) -> &[u8]
    ensures { result.now ≡ unwrap_or bytes.now [] }
{
    match bytes {
        Some(bytes) => bytes.as_slice(),
        None => &[],
    }
}

/// Bytes as hex digits.
pub(crate) fn bytes_string(alloc: Global, bytes: &[u8]) -> Result<String, AllocError>
    ensures written { IfOk result (λ text. string_bytes text ≡ encode_lower bytes.now) }
    ensures read { IfOk result (λ text. bytes_in (string_bytes text) ≡ Some bytes.now) }
{
    let text = hex::encode(alloc, bytes)?;
    Ok(text)
}

/// Bytes as hex digits.
fn bytes_text(alloc: Global, bytes: &[u8]) -> Result<Vec<u8>, AllocError>
    ensures written { IfOk result (λ text. text.items ≡ encode_lower bytes.now) }
    ensures read { IfOk result (λ text. bytes_in text.items ≡ Some bytes.now) }
{
    let text = bytes_string(alloc, bytes)?;
    Ok(text.into_bytes())
}

/// A text as it is.
fn string_text(alloc: Global, text: &Option<Text>) -> Result<Vec<u8>, AllocError>
    ensures { IfOk result (λ given. given.items ≡ unwrap_or text.now []) }
{
    match text {
        Some(text) => Vec::from_slice(alloc, text.as_str().as_bytes()),
        None => Ok(Vec::new(alloc)),
    }
}

/// A value as text: `true` or `false`; a whole number in decimal; a Float or a Double as a short
/// decimal number, `inf`, `-inf` or `NaN`, whose digits are promised to be read as it, and not to be
/// the fewest; a String as it is; a DateTime as `time_text` writes it; a Guid with its hyphens, and
/// bytes, as hex digits in lower case; a status code as `status_text` writes it. A null String or
/// ByteString is an empty text. `read_value` reads each again: a null as an empty one, each NaN as
/// one, a code without the bits of the server. Values of the other types are `NoText`.
pub fn value_text(alloc: Global, value: &Scalar) -> Result<Vec<u8>, TextFault>
    ensures written { IfOk result (λ text. IsValueText value.now text.items) }
    ensures read { IfOk result (λ text.
        value_in (scalar_number value.now) text.items ≡ Ok (read_back value.now)) }
    ensures refused { IfErr result (λ e.
        (e ≡ OutOfMemory) ⊎ (IsUnwritten value.now × (e ≡ NoText))) }
{
    let text = match value {
        Scalar::Boolean(value) => boolean_text(alloc, *value)?,
        Scalar::SByte(value) => i8_text(alloc, *value)?,
        Scalar::Byte(value) => u8_text(alloc, *value)?,
        Scalar::Int16(value) => i16_text(alloc, *value)?,
        Scalar::UInt16(value) => u16_text(alloc, *value)?,
        Scalar::Int32(value) => i32_text(alloc, *value)?,
        Scalar::UInt32(value) => u32_text(alloc, *value)?,
        Scalar::Int64(value) => i64_text(alloc, *value)?,
        Scalar::UInt64(value) => u64_text(alloc, *value)?,
        Scalar::Float(value) => single_text(alloc, value)?,
        Scalar::Double(value) => double_text(alloc, value)?,
        Scalar::String(value) => string_text(alloc, value)?,
        Scalar::DateTime(value) => ticks_text(alloc, *value)?,
        Scalar::Guid(value) => guid_text(alloc, value)?,
        Scalar::ByteString(value) => bytes_text(alloc, bytes_of(value))?,
        Scalar::StatusCode(value) => status_text(alloc, *value)?,
        _ => return Err(TextFault::NoText),
    };
    Ok(text)
}
