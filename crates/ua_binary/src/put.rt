//! Writing at the end of a vector (Part 6, 5.2).
//!
//! Each `put_` appends the one spelling that is written of a value. Its one error is `OutOfMemory`,
//! and then the vector is as it was.

ghost use Rattle.std.specs.Prelude.{◌≡◌, ◌<◌, ◌^◌, List, ℕ, length, take, pos, IfOk, MatchResult};
ghost use Rattle.std.specs.Option.{option_copied};
ghost use Rattle.std.specs.Int.{w16, w32, w64};
ghost use Rattle.std.specs.Int.RustNames.{FitsSigned};
ghost use Rattle.ua_binary.specs.Format.{Puts, PutsPart, byte, block};
ghost use Rattle.ua_binary.specs.Binary.{unsigned, signed, sbyte, boolean, byte_string, text, guid, ticks, status, node_id, localized, qualified, extension, IsCounted, IsText, IsGuid, IsBody, IsShortNode, IsNodeId, IsShortLocalized, IsLocalized, IsQualified, IsExtension, node_of};

use crate::codes::Status;
use crate::fault::BinaryFault;
use crate::values::{
    Body, Bytes, ExtensionObject, Guid, LocalizedText, NodeId, NodeIdRef, QualifiedName, Text,
    Ticks,
};

/// Takes back what a part of a writer put, where it failed: `len` is how long the vector was before.
#[inline(always)]
pub fn or_undone<E>(put: Result<(), E>, out: &mut Vec<u8>, len: usize) -> Result<(), E>
    ensures same { result ≡ put }
    ensures items { MatchResult put (λ _. out.new.items ≡ out.old.items)
        (λ _. out.new.items ≡ take len out.old.items) }
{
    if put.is_err() {
        out.truncate(len);
    }
    put
}

/// A Boolean (Part 6, 5.2.2.1): 00 or 01.
#[tactic(auto, unfolding(crate::specs::Binary::boolean))]
pub fn put_boolean(out: &mut Vec<u8>, v: bool) -> Result<(), BinaryFault>
    ensures { Puts BinaryFault.OutOfMemory result out.old.items out.new.items (boolean.canon v) }
{
    put_u8(out, if v { 1 } else { 0 })
}

/// A Byte (Part 6, 5.2.2.2).
#[inline(always)]
pub fn put_u8(out: &mut Vec<u8>, v: u8) -> Result<(), BinaryFault>
    ensures { Puts BinaryFault.OutOfMemory result out.old.items out.new.items (byte.canon v) }
{
    out.push(v)?;
    Ok(())
}

/// A UInt16, the low byte first.
#[tactic(auto, unfolding(crate::specs::Binary::unsigned))]
#[inline(always)]
pub fn put_u16(out: &mut Vec<u8>, v: u16) -> Result<(), BinaryFault>
    ensures { Puts BinaryFault.OutOfMemory result out.old.items out.new.items ((unsigned w16).canon v) }
{
    out.extend_from_slice(&v.to_le_bytes())?;
    Ok(())
}

/// A UInt32, the low byte first.
#[tactic(auto, unfolding(crate::specs::Binary::unsigned))]
#[inline(always)]
pub fn put_u32(out: &mut Vec<u8>, v: u32) -> Result<(), BinaryFault>
    ensures { Puts BinaryFault.OutOfMemory result out.old.items out.new.items ((unsigned w32).canon v) }
{
    out.extend_from_slice(&v.to_le_bytes())?;
    Ok(())
}

/// A UInt64, the low byte first.
#[tactic(auto, unfolding(crate::specs::Binary::unsigned))]
pub fn put_u64(out: &mut Vec<u8>, v: u64) -> Result<(), BinaryFault>
    ensures { Puts BinaryFault.OutOfMemory result out.old.items out.new.items ((unsigned w64).canon v) }
{
    out.extend_from_slice(&v.to_le_bytes())?;
    Ok(())
}

/// An SByte.
#[tactic(auto, unfolding(crate::specs::Binary::sbyte))]
pub fn put_i8(out: &mut Vec<u8>, v: i8) -> Result<(), BinaryFault>
    ensures { Puts BinaryFault.OutOfMemory result out.old.items out.new.items (sbyte.canon v) }
{
    put_u8(out, v.cast_unsigned())
}

/// An Int16, the low byte first.
#[tactic(auto, unfolding(crate::specs::Binary::signed, crate::specs::Binary::unsigned))]
pub fn put_i16(out: &mut Vec<u8>, v: i16) -> Result<(), BinaryFault>
    ensures { Puts BinaryFault.OutOfMemory result out.old.items out.new.items ((signed w16).canon v) }
{
    out.extend_from_slice(&v.to_le_bytes())?;
    Ok(())
}

/// An Int32, the low byte first.
#[tactic(auto, unfolding(crate::specs::Binary::signed, crate::specs::Binary::unsigned))]
#[inline(always)]
pub fn put_i32(out: &mut Vec<u8>, v: i32) -> Result<(), BinaryFault>
    ensures { Puts BinaryFault.OutOfMemory result out.old.items out.new.items ((signed w32).canon v) }
{
    out.extend_from_slice(&v.to_le_bytes())?;
    Ok(())
}

/// An Int64, the low byte first.
#[tactic(auto, unfolding(crate::specs::Binary::signed, crate::specs::Binary::unsigned))]
#[inline(always)]
pub fn put_i64(out: &mut Vec<u8>, v: i64) -> Result<(), BinaryFault>
    ensures { Puts BinaryFault.OutOfMemory result out.old.items out.new.items ((signed w64).canon v) }
{
    out.extend_from_slice(&v.to_le_bytes())?;
    Ok(())
}

/// Bytes as they are, with no count: a Float (Part 6, 5.2.2.3) or a Double as its bytes.
#[inline(always)]
pub fn put_block(out: &mut Vec<u8>, v: &[u8]) -> Result<(), BinaryFault>
    ensures { Puts BinaryFault.OutOfMemory result out.old.items out.new.items v.now }
{
    out.extend_from_slice(v)?;
    Ok(())
}

/// A DateTime (Part 6, 5.2.2.5).
#[tactic(auto, unfolding(crate::specs::Binary::ticks))]
#[inline(always)]
pub fn put_ticks(out: &mut Vec<u8>, v: Ticks) -> Result<(), BinaryFault>
    ensures puts { Puts BinaryFault.OutOfMemory result out.old.items out.new.items (ticks.canon v) }
    ensures spelled { IfOk result (λ _. FitsSigned w64 v.0) }
{
    put_i64(out, v.0)
}

/// A StatusCode (Part 6, 5.2.2.11).
#[tactic(auto, unfolding(crate::specs::Binary::status))]
#[inline(always)]
pub fn put_status(out: &mut Vec<u8>, v: Status) -> Result<(), BinaryFault>
    ensures puts { Puts BinaryFault.OutOfMemory result out.old.items out.new.items (status.canon v) }
    ensures spelled { IfOk result (λ _. v.0 < 2 ^ 32) }
{
    put_u32(out, v.0)
}

/// The count of an array (Part 6, 5.2.5), of at most 2^31 - 1 items.
#[tactic(auto, unfolding(crate::specs::Binary::signed, crate::specs::Binary::unsigned))]
#[inline(always)]
pub fn put_count(out: &mut Vec<u8>, count: usize) -> Result<(), BinaryFault>
    requires { count < 2 ^ 31 }
    ensures { Puts BinaryFault.OutOfMemory result out.old.items out.new.items
        ((signed w32).canon (pos count)) }
{
    put_i32(out, count as i32)
}

#[tactic(auto, using(crate::proofs::Kept::kept), unfolding(crate::specs::Binary::byte_string))]
fn put_bytes_parts(out: &mut Vec<u8>, v: Option<&[u8]>) -> Result<(), BinaryFault>
    requires { IsCounted (option_copied v) }
    ensures { PutsPart BinaryFault.OutOfMemory result out.old.items out.new.items
        (byte_string.canon (option_copied v.entry)) }
{
    match v {
        None => put_i32(out, -1)?,
        Some(bytes) => {
            put_i32(out, bytes.len() as i32)?;
            out.extend_from_slice(bytes)?;
        }
    }
    Ok(())
}

/// A ByteString (Part 6, 5.2.2.7) of at most 2^31 - 1 bytes: its count and its bytes, or the count
/// -1 for a null one.
pub fn put_bytes(out: &mut Vec<u8>, v: Option<&[u8]>) -> Result<(), BinaryFault>
    requires { IsCounted (option_copied v) }
    ensures { Puts BinaryFault.OutOfMemory result out.old.items out.new.items
        (byte_string.canon (option_copied v.entry)) }
{
    let len = out.len();
    let put = put_bytes_parts(out, v);
    or_undone(put, out, len)
}

/// The same of bytes that own their memory.
pub fn put_owned_bytes(out: &mut Vec<u8>, v: &Option<Bytes>) -> Result<(), BinaryFault>
    requires { IsCounted v.now }
    ensures { Puts BinaryFault.OutOfMemory result out.old.items out.new.items
        (byte_string.canon v.now) }
{
    match v {
        None => put_bytes(out, None),
        Some(bytes) => put_bytes(out, Some(bytes.as_slice())),
    }
}

/// A String (Part 6, 5.2.2.4) of at most 2^31 - 1 bytes: its count and its bytes, or the count -1 for
/// a null one.
#[tactic(auto, unfolding(crate::specs::Binary::text))]
pub fn put_text(out: &mut Vec<u8>, v: Option<&str>) -> Result<(), BinaryFault>
    requires { IsCounted (option_copied v) }
    ensures { Puts BinaryFault.OutOfMemory result out.old.items out.new.items
        (text.canon (option_copied v.entry)) }
{
    match v {
        None => put_bytes(out, None),
        Some(text) => put_bytes(out, Some(text.as_bytes())),
    }
}

/// The same of a text that owns its memory.
pub fn put_owned_text(out: &mut Vec<u8>, v: &Option<Text>) -> Result<(), BinaryFault>
    requires { IsCounted v.now }
    ensures puts { Puts BinaryFault.OutOfMemory result out.old.items out.new.items (text.canon v.now) }
    ensures spelled { IfOk result (λ _. IsText v.now) }
{
    match v {
        None => put_text(out, None),
        Some(text) => put_text(out, Some(text.as_str())),
    }
}

#[tactic(auto, using(crate::proofs::Kept::kept), unfolding(crate::specs::Binary::guid))]
fn put_guid_parts(out: &mut Vec<u8>, v: &Guid) -> Result<(), BinaryFault>
    ensures puts { PutsPart BinaryFault.OutOfMemory result out.old.items out.new.items (guid.canon v.now) }
    ensures spelled { IfOk result (λ _. IsGuid v.now) }
{
    let Guid {
        first,
        second,
        third,
        last,
    } = v;
    put_u32(out, *first)?;
    put_u16(out, *second)?;
    put_u16(out, *third)?;
    out.extend_from_slice(last)?;
    Ok(())
}

/// A Guid (Part 6, 5.2.2.6).
pub fn put_guid(out: &mut Vec<u8>, v: &Guid) -> Result<(), BinaryFault>
    ensures puts { Puts BinaryFault.OutOfMemory result out.old.items out.new.items (guid.canon v.now) }
    ensures spelled { IfOk result (λ _. IsGuid v.now) }
{
    let len = out.len();
    let put = put_guid_parts(out, v);
    or_undone(put, out, len)
}

#[tactic(auto, using(crate::proofs::Kept::kept), unfolding(crate::specs::Binary::node_id, crate::specs::Binary::unsigned))]
#[inline(always)]
fn put_node_id_parts(out: &mut Vec<u8>, v: NodeIdRef<'_>) -> Result<(), BinaryFault>
    requires { IsShortNode (node_of v) }
    ensures puts { PutsPart BinaryFault.OutOfMemory result out.old.items out.new.items
        (node_id.canon (node_of v.entry)) }
{
    match v {
        NodeIdRef::Numeric(namespace, id) => {
            if namespace == 0 && id < 256 {
                put_block(out, &[0, id as u8])?;
            } else if namespace < 256 && id < 65536 {
                let n = (id as u16).to_le_bytes();
                put_block(out, &[1, namespace as u8, n[0], n[1]])?;
            } else {
                put_u8(out, 2)?;
                put_u16(out, namespace)?;
                put_u32(out, id)?;
            }
        }
        NodeIdRef::Named(namespace, name) => {
            put_u8(out, 3)?;
            put_u16(out, namespace)?;
            put_text(out, Some(name))?;
        }
        NodeIdRef::Global(namespace, id) => {
            put_u8(out, 4)?;
            put_u16(out, namespace)?;
            put_guid(out, &id)?;
        }
        NodeIdRef::Opaque(namespace, id) => {
            put_u8(out, 5)?;
            put_u16(out, namespace)?;
            put_bytes(out, Some(id))?;
        }
    }
    Ok(())
}

/// A NodeId (Part 6, 5.2.2.9) in its shortest form. A text or byte id has at most 2^31 - 1 bytes.
#[inline(always)]
pub fn put_node_id(out: &mut Vec<u8>, v: &NodeId) -> Result<(), BinaryFault>
    requires { IsShortNode v.now }
    ensures puts { Puts BinaryFault.OutOfMemory result out.old.items out.new.items (node_id.canon v.now) }
    ensures spelled { IfOk result (λ _. IsNodeId v.now) }
{
    put_node_id_ref(out, v.as_ref())
}

/// The same of a NodeId in the bytes that it was read from.
#[inline(always)]
pub fn put_node_id_ref(out: &mut Vec<u8>, v: NodeIdRef<'_>) -> Result<(), BinaryFault>
    requires { IsShortNode (node_of v) }
    ensures puts { Puts BinaryFault.OutOfMemory result out.old.items out.new.items
        (node_id.canon (node_of v.entry)) }
{
    let len = out.len();
    let put = put_node_id_parts(out, v);
    or_undone(put, out, len)
}

#[tactic(auto, using(crate::proofs::Kept::kept), unfolding(crate::specs::Binary::qualified))]
fn put_qualified_parts(out: &mut Vec<u8>, v: &QualifiedName) -> Result<(), BinaryFault>
    requires { IsCounted v.now.name }
    ensures puts { PutsPart BinaryFault.OutOfMemory result out.old.items out.new.items
        (qualified.canon v.now) }
    ensures spelled { IfOk result (λ _. IsQualified v.now) }
{
    let QualifiedName { namespace, name } = v;
    put_u16(out, *namespace)?;
    put_owned_text(out, name)?;
    Ok(())
}

/// A QualifiedName (Part 6, 5.2.2.13), whose name has at most 2^31 - 1 bytes.
pub fn put_qualified(out: &mut Vec<u8>, v: &QualifiedName) -> Result<(), BinaryFault>
    requires { IsCounted v.now.name }
    ensures puts { Puts BinaryFault.OutOfMemory result out.old.items out.new.items (qualified.canon v.now) }
    ensures spelled { IfOk result (λ _. IsQualified v.now) }
{
    let len = out.len();
    let put = put_qualified_parts(out, v);
    or_undone(put, out, len)
}

#[tactic(auto, using(crate::proofs::Kept::kept), unfolding(crate::specs::Binary::localized))]
fn put_localized_parts(out: &mut Vec<u8>, v: &LocalizedText) -> Result<(), BinaryFault>
    requires { IsShortLocalized v.now }
    ensures puts { PutsPart BinaryFault.OutOfMemory result out.old.items out.new.items
        (localized.canon v.now) }
    ensures spelled { IfOk result (λ _. IsLocalized v.now) }
{
    let locale_bit = if v.locale.is_some() { 1 } else { 0 };
    let text_bit = if v.text.is_some() { 2 } else { 0 };
    put_u8(out, locale_bit + text_bit)?;
    if let Some(locale) = &v.locale {
        put_text(out, Some(locale.as_str()))?;
    }
    if let Some(text) = &v.text {
        put_text(out, Some(text.as_str()))?;
    }
    Ok(())
}

/// A LocalizedText (Part 6, 5.2.2.14), whose parts have at most 2^31 - 1 bytes each.
pub fn put_localized(out: &mut Vec<u8>, v: &LocalizedText) -> Result<(), BinaryFault>
    requires { IsShortLocalized v.now }
    ensures puts { Puts BinaryFault.OutOfMemory result out.old.items out.new.items (localized.canon v.now) }
    ensures spelled { IfOk result (λ _. IsLocalized v.now) }
{
    let len = out.len();
    let put = put_localized_parts(out, v);
    or_undone(put, out, len)
}

#[tactic(auto, using(crate::proofs::Kept::kept), unfolding(crate::specs::Binary::extension))]
fn put_extension_parts(out: &mut Vec<u8>, v: &ExtensionObject) -> Result<(), BinaryFault>
    requires { IsShortNode v.now.type_id × IsBody v.now.body }
    ensures puts { PutsPart BinaryFault.OutOfMemory result out.old.items out.new.items
        (extension.canon v.now) }
    ensures spelled { IfOk result (λ _. IsExtension v.now) }
{
    put_node_id(out, &v.type_id)?;
    match &v.body {
        Body::Absent => put_u8(out, 0)?,
        Body::Binary(bytes) => {
            put_u8(out, 1)?;
            put_bytes(out, Some(bytes.as_slice()))?;
        }
        Body::Xml(bytes) => {
            put_u8(out, 2)?;
            put_bytes(out, Some(bytes.as_slice()))?;
        }
    }
    Ok(())
}

/// An ExtensionObject (Part 6, 5.2.2.15), whose body and id have at most 2^31 - 1 bytes each.
pub fn put_extension(out: &mut Vec<u8>, v: &ExtensionObject) -> Result<(), BinaryFault>
    requires { IsShortNode v.now.type_id × IsBody v.now.body }
    ensures puts { Puts BinaryFault.OutOfMemory result out.old.items out.new.items (extension.canon v.now) }
    ensures spelled { IfOk result (λ _. IsExtension v.now) }
{
    let len = out.len();
    let put = put_extension_parts(out, v);
    or_undone(put, out, len)
}
