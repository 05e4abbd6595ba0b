//! Values of one type, as items of a JSON array.

ghost use Rattle.std.specs.Prelude.{◌≡◌, ◌^◌, OnOk, IfErr, Ok, Some};
ghost use Rattle.json.specs.Token.{Token};
ghost use Rattle.json.specs.Token as token;
ghost use Rattle.ua_variant.specs.declared.value.Scalar.TheVariants as scalar;
ghost use Rattle.std.specs.Fmt.{decimal, signed_decimal};
ghost use Rattle.std.specs.Str.{IsAscii};
ghost use Rattle.history_text.specs.Arrays.{or_fault, never_null, byte_string_in, IsNumberItem, AppendsItem, PutsItem};
ghost use Rattle.history_text.specs.Floats.{single_in, double_in, single_again, double_again};
ghost use Rattle.history_text.specs.Guids.{guid_in};
ghost use Rattle.history_text.specs.Numbers.{signed_in, unsigned_in};
ghost use Rattle.history_text.specs.Statuses.{kept, status_in};
ghost use Rattle.history_text.specs.Values.{boolean_in, ticks_in};
ghost use Rattle.history_text.specs.declared.fault.TextFault.TheVariants.{NoTime, NoStatus, NoBoolean, NoInteger, NoFloat, NoGuid, OutOfMemory};

use crate::fault::TextFault;
use crate::floats::{double_in, double_spelled, single_in, single_spelled};
use crate::guids::{guid_in, guid_text};
use crate::numbers::{boolean_in, i8_in, i16_in, i32_in, i64_in, u8_in, u16_in, u32_in, u64_in};
use crate::status::{status_in, status_string};
use crate::values::{bytes_in, bytes_of, bytes_string, ticks_in, ticks_text};
use json::{Writer, is_number};
use ryu::Buffer;
use std::alloc::Global;
use std::str;
use ua_binary::{Bytes, Guid, Status, Text, Ticks};

/// A value of one type.
pub(crate) trait Item: Drop + Sized {
    ghost use Rattle.std.specs.Prelude.{List, ℕ, Result, OnOk, IfErr, ◌≡◌};
    ghost use Rattle.ua_variant.specs.declared.value.Scalar.{Scalar};
    ghost use Rattle.history_text.specs.Arrays.{PutsItem};
    ghost use Rattle.history_text.specs.Values.{Answers};
    ghost use Rattle.history_text.specs.declared.fault.TextFault.{TextFault as Fault};
    ghost use Rattle.history_text.specs.declared.fault.TextFault.TheVariants.{OutOfMemory as NoMemory};

    /// What a text says.
    ghost said: { List ℕ → Result Self Fault };

    /// What is read of a value that was written.
    ghost again: { Self → Self };

    /// The value alone, of its type.
    ghost alone: { Self → Scalar };

    /// Reads a value. `OutOfMemory` says that memory ran out.
    fn read(alloc: Global, text: &str) -> Result<Self, TextFault>
        ensures { Answers (said text.now) result };

    /// Appends the value, or says that memory ran out.
    fn put(&self, alloc: Global, out: &mut Writer) -> Result<(), TextFault>
        ensures put { OnOk result
            (PutsItem said out.old out.new (alone self.now) (again self.now)) }
        ensures refused { IfErr result (λ e. e ≡ NoMemory) };
}

// ---- how an item is appended

/// Appends a number as it is spelled; what is none of JSON's, as `NaN`, as a string.
fn put_number(out: &mut Writer, text: &str) -> Result<(), TextFault>
    ensures put { OnOk result
        ((item : Token) × IsNumberItem text.now item × AppendsItem out.old out.new item) }
    ensures refused { IfErr result (λ e. e ≡ OutOfMemory) }
{
    if is_number(text) {
        out.number(text)?;
    } else {
        out.string(text)?;
    }
    Ok(())
}

/// Appends a string.
fn put_string(out: &mut Writer, text: &str) -> Result<(), TextFault>
    ensures put { OnOk result (AppendsItem out.old out.new (token.string text.now)) }
    ensures refused { IfErr result (λ e. e ≡ OutOfMemory) }
{
    out.string(text)?;
    Ok(())
}

/// Appends ASCII text as a string.
fn put_ascii(out: &mut Writer, text: &[u8]) -> Result<(), TextFault>
    requires { IsAscii text.now }
    ensures put { OnOk result (AppendsItem out.old out.new (token.string text.now)) }
    ensures refused { IfErr result (λ e. e ≡ OutOfMemory) }
{
    match str::from_utf8(text) {
        Ok(text) => put_string(out, text),
        Err(_) => Err(TextFault::OutOfMemory),
    }
}

/// Appends a whole number.
fn put_signed(out: &mut Writer, value: i64) -> Result<(), TextFault>
    ensures put { OnOk result (AppendsItem out.old out.new (token.number (signed_decimal value))) }
    ensures refused { IfErr result (λ e. e ≡ OutOfMemory) }
{
    out.i64(value)?;
    Ok(())
}

/// Appends a whole number without a sign.
fn put_unsigned(out: &mut Writer, value: u64) -> Result<(), TextFault>
    ensures put { OnOk result (AppendsItem out.old out.new (token.number (decimal value))) }
    ensures refused { IfErr result (λ e. e ≡ OutOfMemory) }
{
    out.u64(value)?;
    Ok(())
}

/// Appends a whole number of 8 bits.
fn put_i8(out: &mut Writer, value: i8) -> Result<(), TextFault>
    ensures put { OnOk result
        (PutsItem (or_fault NoInteger (signed_in (2 ^ 7))) out.old out.new
        (scalar.SByte value) value) }
    ensures refused { IfErr result (λ e. e ≡ OutOfMemory) }
{
    put_signed(out, i64::from(value))
}

/// Appends a whole number of 16 bits.
fn put_i16(out: &mut Writer, value: i16) -> Result<(), TextFault>
    ensures put { OnOk result
        (PutsItem (or_fault NoInteger (signed_in (2 ^ 15))) out.old out.new
        (scalar.Int16 value) value) }
    ensures refused { IfErr result (λ e. e ≡ OutOfMemory) }
{
    put_signed(out, i64::from(value))
}

/// Appends a whole number of 32 bits.
fn put_i32(out: &mut Writer, value: i32) -> Result<(), TextFault>
    ensures put { OnOk result
        (PutsItem (or_fault NoInteger (signed_in (2 ^ 31))) out.old out.new
        (scalar.Int32 value) value) }
    ensures refused { IfErr result (λ e. e ≡ OutOfMemory) }
{
    put_signed(out, i64::from(value))
}

/// Appends a whole number of 64 bits.
fn put_i64(out: &mut Writer, value: i64) -> Result<(), TextFault>
    ensures put { OnOk result
        (PutsItem (or_fault NoInteger (signed_in (2 ^ 63))) out.old out.new
        (scalar.Int64 value) value) }
    ensures refused { IfErr result (λ e. e ≡ OutOfMemory) }
{
    put_signed(out, value)
}

/// Appends a whole number of 8 bits without a sign.
fn put_u8(out: &mut Writer, value: u8) -> Result<(), TextFault>
    ensures put { OnOk result
        (PutsItem (or_fault NoInteger (unsigned_in 8)) out.old out.new
        (scalar.Byte value) value) }
    ensures refused { IfErr result (λ e. e ≡ OutOfMemory) }
{
    put_unsigned(out, u64::from(value))
}

/// Appends a whole number of 16 bits without a sign.
fn put_u16(out: &mut Writer, value: u16) -> Result<(), TextFault>
    ensures put { OnOk result
        (PutsItem (or_fault NoInteger (unsigned_in 16)) out.old out.new
        (scalar.UInt16 value) value) }
    ensures refused { IfErr result (λ e. e ≡ OutOfMemory) }
{
    put_unsigned(out, u64::from(value))
}

/// Appends a whole number of 32 bits without a sign.
fn put_u32(out: &mut Writer, value: u32) -> Result<(), TextFault>
    ensures put { OnOk result
        (PutsItem (or_fault NoInteger (unsigned_in 32)) out.old out.new
        (scalar.UInt32 value) value) }
    ensures refused { IfErr result (λ e. e ≡ OutOfMemory) }
{
    put_unsigned(out, u64::from(value))
}

/// Appends a whole number of 64 bits without a sign.
fn put_u64(out: &mut Writer, value: u64) -> Result<(), TextFault>
    ensures put { OnOk result
        (PutsItem (or_fault NoInteger (unsigned_in 64)) out.old out.new
        (scalar.UInt64 value) value) }
    ensures refused { IfErr result (λ e. e ≡ OutOfMemory) }
{
    put_unsigned(out, value)
}

// ---- the types

impl Item for bool {
    ghost said = { or_fault NoBoolean boolean_in };

    ghost again = { λ b. b };

    ghost alone = { scalar.Boolean };

    fn read(_alloc: Global, text: &str) -> Result<bool, TextFault> {
        boolean_in(text).ok_or(TextFault::NoBoolean)
    }

    fn put(&self, _alloc: Global, out: &mut Writer) -> Result<(), TextFault> {
        out.boolean(*self)?;
        Ok(())
    }
}

impl Item for i8 {
    ghost said = { or_fault NoInteger (signed_in (2 ^ 7)) };

    ghost again = { λ z. z };

    ghost alone = { scalar.SByte };

    fn read(_alloc: Global, text: &str) -> Result<i8, TextFault> {
        i8_in(text).ok_or(TextFault::NoInteger)
    }

    fn put(&self, _alloc: Global, out: &mut Writer) -> Result<(), TextFault> {
        put_i8(out, *self)
    }
}

impl Item for i16 {
    ghost said = { or_fault NoInteger (signed_in (2 ^ 15)) };

    ghost again = { λ z. z };

    ghost alone = { scalar.Int16 };

    fn read(_alloc: Global, text: &str) -> Result<i16, TextFault> {
        i16_in(text).ok_or(TextFault::NoInteger)
    }

    fn put(&self, _alloc: Global, out: &mut Writer) -> Result<(), TextFault> {
        put_i16(out, *self)
    }
}

impl Item for i32 {
    ghost said = { or_fault NoInteger (signed_in (2 ^ 31)) };

    ghost again = { λ z. z };

    ghost alone = { scalar.Int32 };

    fn read(_alloc: Global, text: &str) -> Result<i32, TextFault> {
        i32_in(text).ok_or(TextFault::NoInteger)
    }

    fn put(&self, _alloc: Global, out: &mut Writer) -> Result<(), TextFault> {
        put_i32(out, *self)
    }
}

impl Item for i64 {
    ghost said = { or_fault NoInteger (signed_in (2 ^ 63)) };

    ghost again = { λ z. z };

    ghost alone = { scalar.Int64 };

    fn read(_alloc: Global, text: &str) -> Result<i64, TextFault> {
        i64_in(text).ok_or(TextFault::NoInteger)
    }

    fn put(&self, _alloc: Global, out: &mut Writer) -> Result<(), TextFault> {
        put_i64(out, *self)
    }
}

impl Item for u8 {
    ghost said = { or_fault NoInteger (unsigned_in 8) };

    ghost again = { λ n. n };

    ghost alone = { scalar.Byte };

    fn read(_alloc: Global, text: &str) -> Result<u8, TextFault> {
        u8_in(text).ok_or(TextFault::NoInteger)
    }

    fn put(&self, _alloc: Global, out: &mut Writer) -> Result<(), TextFault> {
        put_u8(out, *self)
    }
}

impl Item for u16 {
    ghost said = { or_fault NoInteger (unsigned_in 16) };

    ghost again = { λ n. n };

    ghost alone = { scalar.UInt16 };

    fn read(_alloc: Global, text: &str) -> Result<u16, TextFault> {
        u16_in(text).ok_or(TextFault::NoInteger)
    }

    fn put(&self, _alloc: Global, out: &mut Writer) -> Result<(), TextFault> {
        put_u16(out, *self)
    }
}

impl Item for u32 {
    ghost said = { or_fault NoInteger (unsigned_in 32) };

    ghost again = { λ n. n };

    ghost alone = { scalar.UInt32 };

    fn read(_alloc: Global, text: &str) -> Result<u32, TextFault> {
        u32_in(text).ok_or(TextFault::NoInteger)
    }

    fn put(&self, _alloc: Global, out: &mut Writer) -> Result<(), TextFault> {
        put_u32(out, *self)
    }
}

impl Item for u64 {
    ghost said = { or_fault NoInteger (unsigned_in 64) };

    ghost again = { λ n. n };

    ghost alone = { scalar.UInt64 };

    fn read(_alloc: Global, text: &str) -> Result<u64, TextFault> {
        u64_in(text).ok_or(TextFault::NoInteger)
    }

    fn put(&self, _alloc: Global, out: &mut Writer) -> Result<(), TextFault> {
        put_u64(out, *self)
    }
}

impl Item for [u8; 4] {
    ghost said = { or_fault NoFloat single_in };

    ghost again = { single_again };

    ghost alone = { scalar.Float };

    fn read(_alloc: Global, text: &str) -> Result<[u8; 4], TextFault> {
        single_in(text).ok_or(TextFault::NoFloat)
    }

    fn put(&self, _alloc: Global, out: &mut Writer) -> Result<(), TextFault> {
        let mut buffer = Buffer::new();
        put_number(out, single_spelled(&mut buffer, self))
    }
}

impl Item for [u8; 8] {
    ghost said = { or_fault NoFloat double_in };

    ghost again = { double_again };

    ghost alone = { scalar.Double };

    fn read(_alloc: Global, text: &str) -> Result<[u8; 8], TextFault> {
        double_in(text).ok_or(TextFault::NoFloat)
    }

    fn put(&self, _alloc: Global, out: &mut Writer) -> Result<(), TextFault> {
        let mut buffer = Buffer::new();
        put_number(out, double_spelled(&mut buffer, self))
    }
}

impl Item for Option<Text> {
    ghost said = { λ text. Ok (Some text) };

    ghost again = { never_null };

    ghost alone = { scalar.String };

    fn read(alloc: Global, text: &str) -> Result<Option<Text>, TextFault> {
        Ok(Some(Text::from_str(alloc, text)?))
    }

    fn put(&self, _alloc: Global, out: &mut Writer) -> Result<(), TextFault> {
        match self {
            Some(text) => put_string(out, text.as_str()),
            None => put_string(out, ""),
        }
    }
}

impl Item for Ticks {
    ghost said = { or_fault NoTime ticks_in };

    ghost again = { λ ticks. ticks };

    ghost alone = { scalar.DateTime };

    fn read(_alloc: Global, text: &str) -> Result<Ticks, TextFault> {
        ticks_in(text).ok_or(TextFault::NoTime)
    }

    fn put(&self, alloc: Global, out: &mut Writer) -> Result<(), TextFault> {
        let text = ticks_text(alloc, *self)?;
        put_ascii(out, text.as_slice())
    }
}

impl Item for Guid {
    ghost said = { or_fault NoGuid guid_in };

    ghost again = { λ guid. guid };

    ghost alone = { scalar.Guid };

    fn read(_alloc: Global, text: &str) -> Result<Guid, TextFault> {
        guid_in(text.as_bytes()).ok_or(TextFault::NoGuid)
    }

    fn put(&self, alloc: Global, out: &mut Writer) -> Result<(), TextFault> {
        let text = guid_text(alloc, self)?;
        put_ascii(out, text.as_slice())
    }
}

impl Item for Option<Bytes> {
    ghost said = { byte_string_in };

    ghost again = { never_null };

    ghost alone = { scalar.ByteString };

    fn read(alloc: Global, text: &str) -> Result<Option<Bytes>, TextFault> {
        bytes_in(alloc, text).map(Some)
    }

    fn put(&self, alloc: Global, out: &mut Writer) -> Result<(), TextFault> {
        let text = bytes_string(alloc, bytes_of(self))?;
        put_string(out, text.as_str())
    }
}

impl Item for Status {
    ghost said = { or_fault NoStatus status_in };

    ghost again = { kept };

    ghost alone = { scalar.StatusCode };

    fn read(_alloc: Global, text: &str) -> Result<Status, TextFault> {
        status_in(text).ok_or(TextFault::NoStatus)
    }

    fn put(&self, alloc: Global, out: &mut Writer) -> Result<(), TextFault> {
        let text = status_string(alloc, *self)?;
        put_string(out, text.as_str())
    }
}
