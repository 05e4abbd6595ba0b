//! The peers that a server calls, as JSON.

ghost use Rattle.std.specs.Prelude.{◌≡◌, ◌<◌, ◌++◌, codes, Some, OnOk, IfOk};
ghost use Rattle.std.specs.Fmt.{decimal};
ghost use Rattle.std.specs.List.{flat_map};
ghost use Rattle.history_report.specs.Reports.{AreLines};
ghost use Rattle.web_connection.specs.Status.{hex_digit, string_byte, string_text, cause_json, end_json, peer_json, IsLastJson, IsPeerJson};
ghost use Rattle.web_page.specs.Calls.{cause_words};

use itoa::Buffer;
use std::alloc::{AllocError, Global};
use web_page::{CallCause, CallEnd, LastCall};

/// Appends a number.
pub(crate) fn put_number(out: &mut Vec<u8>, number: u64) -> Result<(), AllocError>
    ensures { OnOk result (out.new.items ≡ out.old.items ++ decimal number) }
{
    let mut buffer = Buffer::new();
    out.extend_from_slice(buffer.format(number).as_bytes())
}

/// The digit of a number below 16 in hexadecimal.
fn hex_digit(number: u8) -> u8
    requires { number < 16 }
    ensures { result ≡ hex_digit number }
{
    if number < 10 {
        b'0' + number
    } else {
        87 + number
    }
}

/// Appends a byte of a text as a string has it (RFC 8259, 7).
fn put_string_byte(out: &mut Vec<u8>, byte: u8) -> Result<(), AllocError>
    ensures { OnOk result (out.new.items ≡ out.old.items ++ string_byte byte) }
{
    if byte == b'"' || byte == b'\\' {
        return out.extend_from_slice(&[b'\\', byte]);
    }
    if byte < 32 {
        out.extend_from_slice(b"\\u00")?;
        return out.extend_from_slice(&[hex_digit(byte / 16), hex_digit(byte % 16)]);
    }
    Ok(out.push(byte)?)
}

/// Appends the bytes of a text as a string has them.
fn put_string_bytes(out: &mut Vec<u8>, text: &[u8]) -> Result<(), AllocError>
    ensures { OnOk result (out.new.items ≡ out.old.items ++ flat_map string_byte text.now) }
{
    for byte in text {
        put_string_byte(out, *byte)?;
    }
    Ok(())
}

/// A text as a string.
fn string_text(alloc: Global, text: &[u8]) -> Result<Vec<u8>, AllocError>
    ensures { IfOk result (λ string. string.items ≡ string_text text.now) }
{
    let mut string = Vec::new(alloc);
    string.push(b'"')?;
    put_string_bytes(&mut string, text)?;
    string.push(b'"')?;
    Ok(string)
}

/// The words of a cause as a string.
fn words_json(alloc: Global, cause: CallCause) -> Result<Vec<u8>, AllocError>
    ensures { IfOk result (λ text. text.items ≡ string_text (cause_words cause)) }
{
    let words = cause.words(alloc)?;
    string_text(alloc, words.as_slice())
}

/// What stands where there is nothing.
fn null_text(alloc: Global) -> Result<Vec<u8>, AllocError>
    ensures { IfOk result (λ text. text.items ≡ codes "null") }
{
    let mut text = Vec::new(alloc);
    text.extend_from_slice(b"null")?;
    Ok(text)
}

/// Why a call didn't come to its end; null: it did.
fn cause_json(alloc: Global, given: Option<CallCause>) -> Result<Vec<u8>, AllocError>
    ensures { IfOk result (λ text. text.items ≡ cause_json given) }
{
    match given {
        None => null_text(alloc),
        Some(cause) => words_json(alloc, cause),
    }
}

/// How a call ended, when by this text.
#[tactic(auto, unfolding(crate::specs::Status::end_json))]
fn end_json(alloc: Global, end: CallEnd, time: &[u8]) -> Result<Vec<u8>, AllocError>
    ensures { IfOk result (λ text. text.items ≡ end_json end time.now) }
{
    let cause = cause_json(alloc, end.cause)?;
    let mut text = Vec::new(alloc);
    text.extend_from_slice(b"{\"ended\":\"")?;
    text.extend_from_slice(time)?;
    text.extend_from_slice(b"\",\"fault\":")?;
    text.extend_from_slice(cause.as_slice())?;
    text.extend_from_slice(b",\"learned\":")?;
    put_number(&mut text, u64::from(end.learned))?;
    text.extend_from_slice(b",\"sent\":")?;
    put_number(&mut text, u64::from(end.sent))?;
    text.extend_from_slice(b"}")?;
    Ok(text)
}

/// How a call ended.
fn ended_json(alloc: Global, end: CallEnd) -> Result<Vec<u8>, AllocError>
    ensures { IfOk result (λ text. IsLastJson (Some end) text.items) }
{
    let time = end.time_text(alloc)?;
    end_json(alloc, end, time.as_slice())
}

/// How a last call ended; null: there was none.
fn last_json(alloc: Global, last: Option<CallEnd>) -> Result<Vec<u8>, AllocError>
    ensures { IfOk result (λ text. IsLastJson last text.items) }
{
    match last {
        None => null_text(alloc),
        Some(end) => ended_json(alloc, end),
    }
}

/// A peer at this address, with this text of its last call, after a comma.
#[tactic(auto, unfolding(crate::specs::Status::peer_json))]
fn peer_json(alloc: Global, address: &[u8], last: &[u8]) -> Result<Vec<u8>, AllocError>
    ensures { IfOk result (λ text. text.items ≡ peer_json address.now last.now) }
{
    let string = string_text(alloc, address)?;
    let mut text = Vec::new(alloc);
    text.extend_from_slice(b",{\"address\":")?;
    text.extend_from_slice(string.as_slice())?;
    text.extend_from_slice(b",\"last\":")?;
    text.extend_from_slice(last)?;
    text.extend_from_slice(b"}")?;
    Ok(text)
}

/// A peer and its last call, after a comma.
fn called_json(alloc: Global, call: &LastCall) -> Result<Vec<u8>, AllocError>
    ensures { IfOk result (λ text. IsPeerJson call.now text.items) }
{
    let last = last_json(alloc, call.end)?;
    peer_json(alloc, call.address.as_str().as_bytes(), last.as_slice())
}

/// The peers that are called, each with its last call and after a comma.
pub(crate) fn peers_text(alloc: Global, calls: &[LastCall]) -> Result<Vec<u8>, AllocError>
    ensures { IfOk result (λ text. AreLines IsPeerJson calls.now text.items) }
{
    let mut peers = Vec::new(alloc);
    for call in calls {
        let peer = called_json(alloc, call)?;
        peers.extend_from_slice(peer.as_slice())?;
    }
    Ok(peers)
}
