//! Reading from the front of a slice (Part 6, 5.2).

ghost use Rattle.std.specs.Prelude.{◌≡◌, ◌≤◌, List, ℕ, option_map, length, MatchOption, true, false};
ghost use Rattle.std.specs.Option.{option_copied};
ghost use Rattle.std.specs.Int.{w16, w32, w64};
ghost use Rattle.std.specs.Str.{is_utf8};
ghost use Rattle.ua_binary.specs.Format.{Reads, byte, block};
ghost use Rattle.ua_binary.specs.Binary.{unsigned, signed, sbyte, boolean, byte_string, count_at, text, guid, ticks, status, node_id, node_form, node_of, localized, localized_of, qualified, qualified_of, body, body_of, extension, extension_of};

use crate::codes::Status;
use crate::fault::BinaryFault;
use crate::values::{BodyRef, ExtensionRef, Guid, LocalizedRef, NodeIdRef, QualifiedRef, Ticks};
use std::marker::Model;
use std::str;

/// The bytes that are left to read, which contracts see as their list. Each read takes a value from
/// the front. A read that is refused leaves the cursor where it was, and tells the fault of the
/// leftmost field that the bytes don't spell: `Short`, `BadLength`, `BadUtf8` or `BadEncodingByte`.
/// No read takes memory: what it gives lies in the bytes.
#[derive(Drop)]
pub struct Cursor<'a> {
    bytes: &'a [u8],
}

impl<'a> Model for Cursor<'a> {
    ghost Value = { List ℕ };

    ghost view = { λ c. c.bytes.now };
}

impl<'a> Cursor<'a> {
    /// A cursor at the front of these bytes.
    pub fn new(bytes: &'a [u8]) -> Cursor<'a>
        ensures { result ≡ bytes.entry.now }
    {
        Cursor { bytes }
    }

    /// The bytes that are left to read.
    pub fn rest(&self) -> &'a [u8]
        ensures { result.now ≡ self.now }
    {
        self.bytes
    }

    /// A second cursor at the same place. A reader of several fields reads by it and then puts it in
    /// the first one's place, so that a refusal leaves the first where it stood.
    pub fn fork(&self) -> Cursor<'a>
        ensures { result ≡ self.now }
    {
        Cursor { bytes: self.bytes }
    }

    /// A Boolean (Part 6, 5.2.2.1): one byte, 0 for false and any other for true.
    #[tactic(auto, unfolding(crate::specs::Binary::boolean))]
    pub fn boolean(&mut self) -> Result<bool, BinaryFault>
        ensures { Reads (λ x. x) result self.old self.new boolean.read }
    {
        let b = self.u8()?;
        Ok(b != 0)
    }

    /// A Byte (Part 6, 5.2.2.2).
    #[inline(always)]
    pub fn u8(&mut self) -> Result<u8, BinaryFault>
        ensures { Reads (λ x. x) result self.old self.new byte.read }
    {
        match self.bytes {
            [] => Err(BinaryFault::Short),
            [first, rest @ ..] => {
                self.bytes = rest;
                Ok(*first)
            }
        }
    }

    /// A UInt16, two bytes, the low one first.
    #[tactic(auto, unfolding(crate::specs::Binary::unsigned))]
    #[inline(always)]
    pub fn u16(&mut self) -> Result<u16, BinaryFault>
        ensures { Reads (λ x. x) result self.old self.new (unsigned w16).read }
    {
        if self.bytes.len() < 2 {
            return Err(BinaryFault::Short);
        }
        let (b, rest) = self.bytes.split_at(2);
        self.bytes = rest;
        Ok(u16::from_le_bytes([b[0], b[1]]))
    }

    /// A UInt32, four bytes, the low one first.
    #[tactic(auto, unfolding(crate::specs::Binary::unsigned))]
    #[inline(always)]
    pub fn u32(&mut self) -> Result<u32, BinaryFault>
        ensures { Reads (λ x. x) result self.old self.new (unsigned w32).read }
    {
        if self.bytes.len() < 4 {
            return Err(BinaryFault::Short);
        }
        let (b, rest) = self.bytes.split_at(4);
        self.bytes = rest;
        Ok(u32::from_le_bytes([b[0], b[1], b[2], b[3]]))
    }

    /// A UInt64, eight bytes, the low one first.
    #[tactic(auto, unfolding(crate::specs::Binary::unsigned))]
    #[inline(always)]
    pub fn u64(&mut self) -> Result<u64, BinaryFault>
        ensures { Reads (λ x. x) result self.old self.new (unsigned w64).read }
    {
        if self.bytes.len() < 8 {
            return Err(BinaryFault::Short);
        }
        let (b, rest) = self.bytes.split_at(8);
        self.bytes = rest;
        Ok(u64::from_le_bytes([b[0], b[1], b[2], b[3], b[4], b[5], b[6], b[7]]))
    }

    /// An SByte.
    #[tactic(auto, unfolding(crate::specs::Binary::sbyte))]
    pub fn i8(&mut self) -> Result<i8, BinaryFault>
        ensures { Reads (λ x. x) result self.old self.new sbyte.read }
    {
        let n = self.u8()?;
        Ok(n.cast_signed())
    }

    /// An Int16, two bytes, the low one first.
    #[tactic(auto, unfolding(crate::specs::Binary::signed, crate::specs::Binary::unsigned))]
    pub fn i16(&mut self) -> Result<i16, BinaryFault>
        ensures { Reads (λ x. x) result self.old self.new (signed w16).read }
    {
        let n = self.u16()?;
        Ok(n.cast_signed())
    }

    /// An Int32, four bytes, the low one first.
    #[tactic(auto, unfolding(crate::specs::Binary::signed, crate::specs::Binary::unsigned))]
    #[inline(always)]
    pub fn i32(&mut self) -> Result<i32, BinaryFault>
        ensures { Reads (λ x. x) result self.old self.new (signed w32).read }
    {
        let n = self.u32()?;
        Ok(n.cast_signed())
    }

    /// An Int64, eight bytes, the low one first.
    #[tactic(auto, unfolding(crate::specs::Binary::signed, crate::specs::Binary::unsigned))]
    #[inline(always)]
    pub fn i64(&mut self) -> Result<i64, BinaryFault>
        ensures { Reads (λ x. x) result self.old self.new (signed w64).read }
    {
        let n = self.u64()?;
        Ok(n.cast_signed())
    }

    /// Four bytes as they are: a Float (Part 6, 5.2.2.3), whose value isn't looked into.
    pub fn four(&mut self) -> Result<[u8; 4], BinaryFault>
        ensures { Reads (λ x. x) result self.old self.new (block 4).read }
    {
        let b = self.block(4)?;
        Ok([b[0], b[1], b[2], b[3]])
    }

    /// Eight bytes as they are: a Double or a Duration, whose value isn't looked into.
    pub fn eight(&mut self) -> Result<[u8; 8], BinaryFault>
        ensures { Reads (λ x. x) result self.old self.new (block 8).read }
    {
        let b = self.block(8)?;
        Ok([b[0], b[1], b[2], b[3], b[4], b[5], b[6], b[7]])
    }

    /// The next `len` bytes as they are, or `Short`.
    #[inline(always)]
    pub fn block(&mut self, len: usize) -> Result<&'a [u8], BinaryFault>
        ensures { Reads (λ x. x.now) result self.old self.new (block len).read }
    {
        if self.bytes.len() < len {
            return Err(BinaryFault::Short);
        }
        let (front, rest) = self.bytes.split_at(len);
        self.bytes = rest;
        Ok(front)
    }

    /// A DateTime (Part 6, 5.2.2.5): an Int64 of steps of 100 ns since 1601-01-01 00:00 UTC.
    #[tactic(auto, unfolding(crate::specs::Binary::ticks))]
    #[inline(always)]
    pub fn ticks(&mut self) -> Result<Ticks, BinaryFault>
        ensures { Reads (λ x. x) result self.old self.new ticks.read }
    {
        Ok(Ticks(self.i64()?))
    }

    /// A StatusCode (Part 6, 5.2.2.11): a UInt32.
    #[tactic(auto, unfolding(crate::specs::Binary::status))]
    #[inline(always)]
    pub fn status(&mut self) -> Result<Status, BinaryFault>
        ensures { Reads (λ x. x) result self.old self.new status.read }
    {
        Ok(Status(self.u32()?))
    }

    /// The count of an array (Part 6, 5.2.5): an Int32, where -1, the null array, reads as 0. Another
    /// negative count is `BadLength`, and one above the number of bytes left is `Short`, since each
    /// item takes a byte at least.
    #[tactic(auto, unfolding(crate::specs::Binary::count_at))]
    #[inline(always)]
    pub fn count(&mut self) -> Result<usize, BinaryFault>
        ensures { Reads (λ x. x) result self.old self.new count_at }
    {
        let mut next = self.fork();
        let told = next.i32()?;
        if told == -1 {
            *self = next;
            return Ok(0);
        }
        if told < 0 {
            return Err(BinaryFault::BadLength);
        }
        let count = told as usize;
        if next.rest().len() < count {
            return Err(BinaryFault::Short);
        }
        *self = next;
        Ok(count)
    }

    /// A ByteString (Part 6, 5.2.2.7): an Int32 count and as many bytes, none where the count is -1.
    /// Another negative count is `BadLength`, and one past the end is `Short`.
    #[tactic(auto, unfolding(crate::specs::Binary::byte_string))]
    #[inline(always)]
    pub fn bytes(&mut self) -> Result<Option<&'a [u8]>, BinaryFault>
        ensures { Reads (λ x. option_copied x) result self.old self.new byte_string.read }
    {
        let mut next = self.fork();
        let count = next.i32()?;
        if count == -1 {
            *self = next;
            return Ok(None);
        }
        if count < 0 {
            return Err(BinaryFault::BadLength);
        }
        let found = next.block(count as usize)?;
        *self = next;
        Ok(Some(found))
    }

    /// A String (Part 6, 5.2.2.4): as a ByteString, and then `BadUtf8` where the bytes aren't UTF-8.
    #[tactic(auto, unfolding(crate::specs::Binary::text))]
    #[inline(always)]
    pub fn text(&mut self) -> Result<Option<&'a str>, BinaryFault>
        ensures { Reads (λ x. option_copied x) result self.old self.new text.read }
    {
        let mut next = self.fork();
        let Some(bytes) = next.bytes()? else {
            *self = next;
            return Ok(None);
        };
        let Some(found) = utf8(bytes) else {
            return Err(BinaryFault::BadUtf8);
        };
        *self = next;
        Ok(Some(found))
    }

    /// A Guid (Part 6, 5.2.2.6): a UInt32, two UInt16 and eight bytes.
    #[tactic(auto, unfolding(crate::specs::Binary::guid))]
    #[inline(never)]
    pub fn guid(&mut self) -> Result<Guid, BinaryFault>
        ensures { Reads (λ x. x) result self.old self.new guid.read }
    {
        let mut next = self.fork();
        let first = next.u32()?;
        let second = next.u16()?;
        let third = next.u16()?;
        let b = next.block(8)?;
        let last = [b[0], b[1], b[2], b[3], b[4], b[5], b[6], b[7]];
        *self = next;
        Ok(Guid {
            first,
            second,
            third,
            last,
        })
    }

    /// A NodeId (Part 6, 5.2.2.9) in any of its six forms, which the first byte tells; another first
    /// byte is `BadEncodingByte`. A null text or byte id reads as an empty one.
    #[tactic(auto, unfolding(crate::specs::Binary::node_id))]
    #[inline(always)]
    pub fn node_id(&mut self) -> Result<NodeIdRef<'a>, BinaryFault>
        ensures { Reads node_of result self.old self.new node_id.read }
    {
        let mut next = self.fork();
        let node = match next.u8()? {
            0 => NodeIdRef::Numeric(0, next.u8()? as u32),
            1 => {
                let namespace = next.u8()? as u16;
                NodeIdRef::Numeric(namespace, next.u16()? as u32)
            }
            form => next.node_form(form)?,
        };
        *self = next;
        Ok(node)
    }

    /// What stands behind the byte that tells the form, where that isn't one of the two for small numbers.
    #[inline(never)]
    fn node_form(&mut self, form: u8) -> Result<NodeIdRef<'a>, BinaryFault>
        requires { 2 ≤ form }
        ensures { Reads node_of result self.old self.new (node_form form).read }
    {
        let mut next = self.fork();
        let node = match form {
            2 => {
                let namespace = next.u16()?;
                NodeIdRef::Numeric(namespace, next.u32()?)
            }
            3 => {
                let namespace = next.u16()?;
                NodeIdRef::Named(namespace, next.text()?.unwrap_or(""))
            }
            4 => {
                let namespace = next.u16()?;
                NodeIdRef::Global(namespace, next.guid()?)
            }
            5 => {
                let namespace = next.u16()?;
                NodeIdRef::Opaque(namespace, next.bytes()?.unwrap_or(&[]))
            }
            _ => return Err(BinaryFault::BadEncodingByte),
        };
        *self = next;
        Ok(node)
    }

    /// A QualifiedName (Part 6, 5.2.2.13): a UInt16 and a String.
    #[tactic(auto, unfolding(crate::specs::Binary::qualified))]
    #[inline(always)]
    pub fn qualified(&mut self) -> Result<QualifiedRef<'a>, BinaryFault>
        ensures { Reads qualified_of result self.old self.new qualified.read }
    {
        let mut next = self.fork();
        let namespace = next.u16()?;
        let name = next.text()?;
        *self = next;
        Ok(QualifiedRef { namespace, name })
    }

    /// A LocalizedText (Part 6, 5.2.2.14): a mask, 1 for a locale and 2 for a text, and then those
    /// that are there. Another bit of the mask is `BadEncodingByte`; a null text reads as absent.
    #[tactic(auto, unfolding(crate::specs::Binary::localized))]
    #[inline(never)]
    pub fn localized(&mut self) -> Result<LocalizedRef<'a>, BinaryFault>
        ensures { Reads localized_of result self.old self.new localized.read }
    {
        let mut next = self.fork();
        let mask = next.u8()?;
        if mask > 3 {
            return Err(BinaryFault::BadEncodingByte);
        }
        let locale = if mask & 1 != 0 { next.text()? } else { None };
        let text = if mask & 2 != 0 { next.text()? } else { None };
        *self = next;
        Ok(LocalizedRef { locale, text })
    }

    /// The body of an ExtensionObject (Part 6, 5.2.2.15), behind the id of its type: a byte for its kind,
    /// and the body: 0 for none, 1 for bytes, 2 for XML. Another kind is `BadEncodingByte`; a body of
    /// length -1 reads as an empty one.
    #[inline(always)]
    pub fn body(&mut self) -> Result<BodyRef<'a>, BinaryFault>
        ensures { Reads body_of result self.old self.new body.read }
    {
        let mut next = self.fork();
        let body = match next.u8()? {
            0 => BodyRef::Absent,
            1 => BodyRef::Binary(next.bytes()?.unwrap_or(&[])),
            2 => BodyRef::Xml(next.bytes()?.unwrap_or(&[])),
            _ => return Err(BinaryFault::BadEncodingByte),
        };
        *self = next;
        Ok(body)
    }

    /// An ExtensionObject (Part 6, 5.2.2.15): the NodeId of its type, and its body, as `body` reads it.
    #[tactic(auto, unfolding(crate::specs::Binary::extension))]
    #[inline(always)]
    pub fn extension(&mut self) -> Result<ExtensionRef<'a>, BinaryFault>
        ensures { Reads extension_of result self.old self.new extension.read }
    {
        let mut next = self.fork();
        let type_id = next.node_id()?;
        let body = next.body()?;
        *self = next;
        Ok(ExtensionRef { type_id, body })
    }
}

/// The bytes as a text, where they are UTF-8.
#[tactic(auto, using(crate::proofs::Utf8::tested))]
#[inline(never)]
fn utf8(bytes: &[u8]) -> Option<&str>
    ensures { MatchOption result (is_utf8 bytes.now ≡ false)
        (λ s. (s.now ≡ bytes.now) × (is_utf8 s.now ≡ true)) }
{
    match str::from_utf8(bytes) {
        Ok(found) => Some(found),
        Err(_) => None,
    }
}
