//! Guids as text.

ghost use Rattle.std.specs.Str.{IsAscii};
ghost use Rattle.std.specs.Prelude.{◌≡◌, ◌≤◌, ◌<◌, ℕ, slice_index, ◌+◌, ◌++◌, ◌∷◌, length, take, drop, OnOk, IfOk, Some};
ghost use Rattle.std.specs.Int.{w16, w32, to_be_bytes};
ghost use Rattle.ua_binary.specs.Binary.{IsGuid};
ghost use Rattle.hex.specs.Hex.{encode_lower};
ghost use Rattle.history_text.specs.Guids.{hex_at, has_hyphens, parts_in, guid_in, guid_text};

use std::alloc::{AllocError, Global};
use ua_binary::Guid;

/// Two bytes of hex digits at a place of a text.
fn two_at(text: &[u8], place: usize) -> Option<[u8; 2]>
    requires { place + 4 ≤ length text.now }
    ensures { result ≡ hex_at place 2 text.now }
{
    let mut bytes = [0; 2];
    match hex::decode_to_slice(&text[place..place + 4], &mut bytes) {
        Ok(()) => Some(bytes),
        Err(_) => None,
    }
}

/// Four bytes of hex digits at a place of a text.
fn four_at(text: &[u8], place: usize) -> Option<[u8; 4]>
    requires { place + 8 ≤ length text.now }
    ensures { result ≡ hex_at place 4 text.now }
{
    let mut bytes = [0; 4];
    match hex::decode_to_slice(&text[place..place + 8], &mut bytes) {
        Ok(()) => Some(bytes),
        Err(_) => None,
    }
}

/// Six bytes of hex digits at a place of a text.
fn six_at(text: &[u8], place: usize) -> Option<[u8; 6]>
    requires { place + 12 ≤ length text.now }
    ensures { result ≡ hex_at place 6 text.now }
{
    let mut bytes = [0; 6];
    match hex::decode_to_slice(&text[place..place + 12], &mut bytes) {
        Ok(()) => Some(bytes),
        Err(_) => None,
    }
}

/// Whether the hyphens of a Guid stand where they stand.
fn has_hyphens(text: &[u8]) -> bool
    requires { length text.now ≡ 36 }
    ensures { result ≡ has_hyphens text.now }
{
    text[8] == b'-' && text[13] == b'-' && text[18] == b'-' && text[23] == b'-'
}

/// The Guid whose five parts a text writes.
fn parts_in(text: &[u8]) -> Option<Guid>
    requires { length text.now ≡ 36 }
    ensures { result ≡ parts_in text.now }
{
    let first = four_at(text, 0)?;
    let second = two_at(text, 9)?;
    let third = two_at(text, 14)?;
    let [a, b] = two_at(text, 19)?;
    let [c, d, e, f, g, h] = six_at(text, 24)?;
    Some(Guid {
        first: u32::from_be_bytes(first),
        second: u16::from_be_bytes(second),
        third: u16::from_be_bytes(third),
        last: [a, b, c, d, e, f, g, h],
    })
}

/// The Guid that a text says.
pub(crate) fn guid_in(text: &[u8]) -> Option<Guid>
    ensures { result ≡ guid_in text.now }
{
    if text.len() != 36 || !has_hyphens(text) {
        return None;
    }
    parts_in(text)
}

/// Appends bytes as hex digits.
fn put_hex(alloc: Global, out: &mut Vec<u8>, bytes: &[u8]) -> Result<(), AllocError>
    ensures { OnOk result (out.new.items ≡ out.old.items ++ encode_lower bytes.now) }
{
    let text = hex::encode(alloc, bytes)?;
    out.extend_from_slice(text.as_bytes())?;
    Ok(())
}

/// The bytes of a Guid behind its numbers.
fn put_last(alloc: Global, out: &mut Vec<u8>, last: &[u8; 8]) -> Result<(), AllocError>
    ensures put { OnOk result (out.new.items ≡ out.old.items ++ encode_lower (take 2 last.now)
        ++ 45 ∷ encode_lower (drop 2 last.now)) }
    ensures fits { (i : ℕ) → slice_index last.now i < 256 }
{
    let (front, rest) = last.split_at(2);
    put_hex(alloc, out, front)?;
    out.push(b'-')?;
    put_hex(alloc, out, rest)?;
    Ok(())
}

/// The numbers of a Guid.
fn put_numbers(alloc: Global, out: &mut Vec<u8>, guid: &Guid) -> Result<(), AllocError>
    ensures { OnOk result (out.new.items ≡ out.old.items
        ++ encode_lower (to_be_bytes w32 guid.now.first)
        ++ 45 ∷ encode_lower (to_be_bytes w16 guid.now.second)
        ++ 45 ∷ encode_lower (to_be_bytes w16 guid.now.third)) }
{
    put_hex(alloc, out, &guid.first.to_be_bytes())?;
    out.push(b'-')?;
    put_hex(alloc, out, &guid.second.to_be_bytes())?;
    out.push(b'-')?;
    put_hex(alloc, out, &guid.third.to_be_bytes())?;
    Ok(())
}

/// A Guid again, of parts that have their sizes.
fn spelled(guid: &Guid) -> Guid
    ensures same { result ≡ guid.now }
    ensures fits { IsGuid result }
{
    Guid::new(guid.first, guid.second, guid.third, guid.last)
}

/// The hex digits and hyphens of a Guid.
fn hyphened(alloc: Global, guid: &Guid) -> Result<Vec<u8>, AllocError>
    ensures written { IfOk result (λ text. text.items ≡ guid_text guid.now) }
    ensures fits { IfOk result (λ _. (i : ℕ) → slice_index guid.now.last i < 256) }
{
    let mut out = Vec::new(alloc);
    put_numbers(alloc, &mut out, guid)?;
    out.push(b'-')?;
    put_last(alloc, &mut out, &guid.last)?;
    Ok(out)
}

/// A Guid as text: hex digits in lower case, and four hyphens.
pub(crate) fn guid_text(alloc: Global, guid: &Guid) -> Result<Vec<u8>, AllocError>
    ensures written { IfOk result (λ text. text.items ≡ guid_text guid.now) }
    ensures read { IfOk result (λ text. guid_in text.items ≡ Some guid.now) }
    ensures ascii { IfOk result (λ text. IsAscii text.items) }
{
    let guid = spelled(guid);
    let text = hyphened(alloc, &guid)?;
    Ok(text)
}
