//! Whole numbers and Booleans as text.

ghost use Rattle.std.specs.Prelude.{◌≡◌, ◌^◌, IfOk, Some, if◌then◌else◌};
ghost use Rattle.std.specs.Fmt.{decimal, signed_decimal};
ghost use Rattle.std.specs.Str.Parse.{true_text, false_text};
ghost use Rattle.history_text.specs.Numbers.{signed_in, unsigned_in};
ghost use Rattle.history_text.specs.Values.{boolean_in};

use itoa::{Buffer, Integer};
use std::alloc::{AllocError, Global};

/// The Boolean that a text says.
pub(crate) fn boolean_in(text: &str) -> Option<bool>
    ensures { result ≡ boolean_in text.now }
{
    match text {
        "true" => Some(true),
        "false" => Some(false),
        _ => None,
    }
}

/// The number of 8 bits that a text writes, perhaps behind a sign.
#[tactic(auto, using(crate::proofs::NumbersLemmas::parsed_w8))]
pub(crate) fn i8_in(text: &str) -> Option<i8>
    ensures { result ≡ signed_in (2 ^ 7) text.now }
{
    text.parse::<i8>().ok()
}

/// The number of 16 bits that a text writes, perhaps behind a sign.
#[tactic(auto, using(crate::proofs::NumbersLemmas::parsed_w16))]
pub(crate) fn i16_in(text: &str) -> Option<i16>
    ensures { result ≡ signed_in (2 ^ 15) text.now }
{
    text.parse::<i16>().ok()
}

/// The number of 32 bits that a text writes, perhaps behind a sign.
#[tactic(auto, using(crate::proofs::NumbersLemmas::parsed_w32))]
pub(crate) fn i32_in(text: &str) -> Option<i32>
    ensures { result ≡ signed_in (2 ^ 31) text.now }
{
    text.parse::<i32>().ok()
}

/// The number of 64 bits that a text writes, perhaps behind a sign.
#[tactic(auto, using(crate::proofs::NumbersLemmas::parsed_w64))]
pub(crate) fn i64_in(text: &str) -> Option<i64>
    ensures { result ≡ signed_in (2 ^ 63) text.now }
{
    text.parse::<i64>().ok()
}

/// The number of 8 bits that a text writes, perhaps behind a plus.
#[tactic(auto, using(crate::proofs::NumbersLemmas::parsed_unsigned))]
pub(crate) fn u8_in(text: &str) -> Option<u8>
    ensures { result ≡ unsigned_in 8 text.now }
{
    text.parse::<u8>().ok()
}

/// The number of 16 bits that a text writes, perhaps behind a plus.
#[tactic(auto, using(crate::proofs::NumbersLemmas::parsed_unsigned))]
pub(crate) fn u16_in(text: &str) -> Option<u16>
    ensures { result ≡ unsigned_in 16 text.now }
{
    text.parse::<u16>().ok()
}

/// The number of 32 bits that a text writes, perhaps behind a plus.
#[tactic(auto, using(crate::proofs::NumbersLemmas::parsed_unsigned))]
pub(crate) fn u32_in(text: &str) -> Option<u32>
    ensures { result ≡ unsigned_in 32 text.now }
{
    text.parse::<u32>().ok()
}

/// The number of 64 bits that a text writes, perhaps behind a plus.
#[tactic(auto, using(crate::proofs::NumbersLemmas::parsed_unsigned))]
pub(crate) fn u64_in(text: &str) -> Option<u64>
    ensures { result ≡ unsigned_in 64 text.now }
{
    text.parse::<u64>().ok()
}

/// A Boolean as text.
pub(crate) fn boolean_text(alloc: Global, value: bool) -> Result<Vec<u8>, AllocError>
    ensures written { IfOk result (λ text. text.items ≡ (if value then true_text else false_text)) }
    ensures read { IfOk result (λ text. boolean_in text.items ≡ Some value) }
{
    if value {
        Vec::from_slice(alloc, b"true")
    } else {
        Vec::from_slice(alloc, b"false")
    }
}

/// A whole number in decimal.
fn number_text<I: Integer>(alloc: Global, value: I) -> Result<Vec<u8>, AllocError>
    ensures { IfOk result (λ text. text.items ≡ I.text value) }
{
    let mut buffer = Buffer::new();
    Vec::from_slice(alloc, buffer.format(value).as_bytes())
}

/// A number of 8 bits in decimal.
pub(crate) fn i8_text(alloc: Global, value: i8) -> Result<Vec<u8>, AllocError>
    ensures written { IfOk result (λ text. text.items ≡ signed_decimal value) }
    ensures read { IfOk result (λ text. signed_in (2 ^ 7) text.items ≡ Some value) }
{
    let text = number_text(alloc, value)?;
    Ok(text)
}

/// A number of 16 bits in decimal.
pub(crate) fn i16_text(alloc: Global, value: i16) -> Result<Vec<u8>, AllocError>
    ensures written { IfOk result (λ text. text.items ≡ signed_decimal value) }
    ensures read { IfOk result (λ text. signed_in (2 ^ 15) text.items ≡ Some value) }
{
    let text = number_text(alloc, value)?;
    Ok(text)
}

/// A number of 32 bits in decimal.
pub(crate) fn i32_text(alloc: Global, value: i32) -> Result<Vec<u8>, AllocError>
    ensures written { IfOk result (λ text. text.items ≡ signed_decimal value) }
    ensures read { IfOk result (λ text. signed_in (2 ^ 31) text.items ≡ Some value) }
{
    let text = number_text(alloc, value)?;
    Ok(text)
}

/// A number of 64 bits in decimal.
pub(crate) fn i64_text(alloc: Global, value: i64) -> Result<Vec<u8>, AllocError>
    ensures written { IfOk result (λ text. text.items ≡ signed_decimal value) }
    ensures read { IfOk result (λ text. signed_in (2 ^ 63) text.items ≡ Some value) }
{
    let text = number_text(alloc, value)?;
    Ok(text)
}

/// A number of 8 bits in decimal.
pub(crate) fn u8_text(alloc: Global, value: u8) -> Result<Vec<u8>, AllocError>
    ensures written { IfOk result (λ text. text.items ≡ decimal value) }
    ensures read { IfOk result (λ text. unsigned_in 8 text.items ≡ Some value) }
{
    let text = number_text(alloc, value)?;
    Ok(text)
}

/// A number of 16 bits in decimal.
pub(crate) fn u16_text(alloc: Global, value: u16) -> Result<Vec<u8>, AllocError>
    ensures written { IfOk result (λ text. text.items ≡ decimal value) }
    ensures read { IfOk result (λ text. unsigned_in 16 text.items ≡ Some value) }
{
    let text = number_text(alloc, value)?;
    Ok(text)
}

/// A number of 32 bits in decimal.
pub(crate) fn u32_text(alloc: Global, value: u32) -> Result<Vec<u8>, AllocError>
    ensures written { IfOk result (λ text. text.items ≡ decimal value) }
    ensures read { IfOk result (λ text. unsigned_in 32 text.items ≡ Some value) }
{
    let text = number_text(alloc, value)?;
    Ok(text)
}

/// A number of 64 bits in decimal.
pub(crate) fn u64_text(alloc: Global, value: u64) -> Result<Vec<u8>, AllocError>
    ensures written { IfOk result (λ text. text.items ≡ decimal value) }
    ensures read { IfOk result (λ text. unsigned_in 64 text.items ≡ Some value) }
{
    let text = number_text(alloc, value)?;
    Ok(text)
}
