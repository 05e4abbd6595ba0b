//! Floats as text.

ghost use Rattle.std.specs.Prelude.{◌≡◌, IfOk, Some};
ghost use Rattle.history_text.specs.Floats.{double_bytes, single_bytes, double_in, single_in, double_again, single_again};

use ryu::Buffer;
use std::alloc::{AllocError, Global};

/// The bits of the NaN that is read, as a Double and as a Float.
const DOUBLE_NAN: u64 = 0x7FF8_0000_0000_0000;

const SINGLE_NAN: u32 = 0x7FC0_0000;

fn double_bytes(x: f64) -> [u8; 8]
    ensures { result ≡ double_bytes x }
{
    if x.is_nan() {
        return DOUBLE_NAN.to_le_bytes();
    }
    x.to_bits().to_le_bytes()
}

fn single_bytes(x: f32) -> [u8; 4]
    ensures { result ≡ single_bytes x }
{
    if x.is_nan() {
        return SINGLE_NAN.to_le_bytes();
    }
    x.to_bits().to_le_bytes()
}

/// The bytes of the Double nearest to what a text writes.
pub(crate) fn double_in(text: &str) -> Option<[u8; 8]>
    ensures { result ≡ double_in text.now }
{
    match fast_float::parse::<f64, _>(text.as_bytes()) {
        Ok(x) => Some(double_bytes(x)),
        Err(_) => None,
    }
}

/// The bytes of the Float nearest to what a text writes.
pub(crate) fn single_in(text: &str) -> Option<[u8; 4]>
    ensures { result ≡ single_in text.now }
{
    match fast_float::parse::<f32, _>(text.as_bytes()) {
        Ok(x) => Some(single_bytes(x)),
        Err(_) => None,
    }
}

/// A Double as a short text that is read as it, in this buffer.
pub(crate) fn double_spelled<'a>(buffer: &'a mut Buffer, bytes: &[u8; 8]) -> &'a str
    ensures { double_in result.now ≡ Some (double_again bytes.now) }
{
    let bits = u64::from_le_bytes(*bytes);
    if bits % 0x8000_0000_0000_0000 > 0x7FF0_0000_0000_0000 {
        return "NaN";
    }
    buffer.format(f64::from_bits(bits))
}

/// A Double as a short text that is read as it.
pub(crate) fn double_text(alloc: Global, bytes: &[u8; 8]) -> Result<Vec<u8>, AllocError>
    ensures { IfOk result (λ text. double_in text.items ≡ Some (double_again bytes.now)) }
{
    let mut buffer = Buffer::new();
    Vec::from_slice(alloc, double_spelled(&mut buffer, bytes).as_bytes())
}

/// A Float as a short text that is read as it, in this buffer.
pub(crate) fn single_spelled<'a>(buffer: &'a mut Buffer, bytes: &[u8; 4]) -> &'a str
    ensures { single_in result.now ≡ Some (single_again bytes.now) }
{
    let bits = u32::from_le_bytes(*bytes);
    if bits % 0x8000_0000 > 0x7F80_0000 {
        return "NaN";
    }
    buffer.format(f32::from_bits(bits))
}

/// A Float as a short text that is read as it.
pub(crate) fn single_text(alloc: Global, bytes: &[u8; 4]) -> Result<Vec<u8>, AllocError>
    ensures { IfOk result (λ text. single_in text.items ≡ Some (single_again bytes.now)) }
{
    let mut buffer = Buffer::new();
    Vec::from_slice(alloc, single_spelled(&mut buffer, bytes).as_bytes())
}
