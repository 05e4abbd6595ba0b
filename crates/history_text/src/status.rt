//! Status codes as text.

ghost use Rattle.std.specs.Prelude.{◌≡◌, ◌<◌, ◌^◌, IfOk, Ok, Err, Some, None, string_bytes};
ghost use Rattle.std.specs.Option.{ok_or};
ghost use Rattle.history_text.specs.Statuses.{kept, hex_code_in, status_in, status_text};
ghost use Rattle.history_text.specs.declared.fault.TextFault.TheVariants.{NoStatus};

use crate::fault::TextFault;
use std::alloc::{AllocError, Global};
use ua_binary::Status;

/// The bits that no text tells, since the server sets them.
const SERVERS: u32 = 0x0000_0408;

/// A status code without the bits that the server sets: that a value is one of a history, and is
/// the one that was asked for.
pub fn kept_status(status: Status) -> Status
    ensures kept { result ≡ kept status }
    ensures fits { result.0 < 2 ^ 32 }
{
    Status(status.0 & !SERVERS)
}

/// The status code that eight hex digits write.
fn hex_code_in(text: &[u8]) -> Option<Status>
    ensures { result ≡ hex_code_in text.now }
{
    let mut bytes = [0; 4];
    match hex::decode_to_slice(text, &mut bytes) {
        Ok(()) => Some(kept_status(Status(u32::from_be_bytes(bytes)))),
        Err(_) => None,
    }
}

/// The status code that a text says.
pub(crate) fn status_in(text: &str) -> Option<Status>
    ensures { result ≡ status_in text.now }
{
    match text {
        "" | "Good" => Some(Status(0)),
        _ => hex_code_in(text.as_bytes()),
    }
}

/// Reads a status code: eight hex digits of either case; `Good`, or nothing, is good. The bits
/// 00000408 are left out, since the server sets them. Any other text is `NoStatus`.
pub fn read_status(text: &str) -> Result<Status, TextFault>
    ensures { result ≡ ok_or (status_in text.now) NoStatus }
{
    status_in(text).ok_or(TextFault::NoStatus)
}

/// A status code as a string.
pub(crate) fn status_string(alloc: Global, status: Status) -> Result<String, AllocError>
    ensures written { IfOk result (λ text. string_bytes text ≡ status_text status) }
    ensures read { IfOk result (λ text. status_in (string_bytes text) ≡ Some (kept status)) }
{
    let kept = kept_status(status);
    if kept.0 == 0 {
        return String::from_str(alloc, "Good");
    }
    hex::encode_upper(alloc, kept.0.to_be_bytes())
}

/// A status code as text, without the bits 00000408: `Good`, or eight hex digits in upper case.
/// `read_status` reads it again, but for these bits.
pub fn status_text(alloc: Global, status: Status) -> Result<Vec<u8>, AllocError>
    ensures written { IfOk result (λ text. text.items ≡ status_text status) }
    ensures read { IfOk result (λ text. status_in text.items ≡ Some (kept status)) }
{
    let text = status_string(alloc, status)?;
    Ok(text.into_bytes())
}
