//! Data values: a value with its status and its moments.

ghost use Rattle.std.specs.Prelude.{◌≡◌, ◌≤◌, ◌<◌, ◌^◌, List, ℕ, IfOk, IfSome, Some, None, is_some, if◌then◌else◌};
ghost use Rattle.std.specs.Int.{w64};
ghost use Rattle.std.specs.Int.RustNames.{FitsSigned};
ghost use Rattle.ua_binary.specs.Format.{Puts, PutsPart, Reads, ReadsPart, ReadsUnless, flagged};
ghost use Rattle.ua_binary.specs.Binary.{ticks, status, unsigned};
ghost use Rattle.ua_variant.specs.Variant.{variant, IsVariant, IsShortVariant};
ghost use Rattle.ua_variant.specs.DataValue.{picoseconds, IsPicoseconds, mask_bit, data_mask, data_value, IsDataValue, IsShortData};
ghost use Rattle.ua_variant.specs.StampFields.{stamps, stamps_of};
ghost use Rattle.ua_variant.specs.declared.data.DataValue.{DataValue as Data};

use crate::fault::VariantFault;
use crate::put::put_variant;
use crate::read::read_variant;
use crate::value::Variant;
use std::alloc::Global;
use ua_binary::{
    BinaryFault, Cursor, Decode, Status, Ticks, or_undone, put_status, put_ticks, put_u8, put_u16,
};

/// A value with its status and the moments at which its source and its server had it (Part 6,
/// 5.2.2.17), each where it is there. Picoseconds are steps of 10 ps that a moment is later.
#[derive(Debug, Drop, PartialEq, Eq)]
pub struct DataValue {
    pub value: Option<Variant>,
    pub status: Option<Status>,
    pub source_time: Option<Ticks>,
    pub source_pico: Option<u16>,
    pub server_time: Option<Ticks>,
    pub server_pico: Option<u16>,
}

#[inline(always)]
fn read_value(
    alloc: Global,
    cursor: &mut Cursor,
    there: bool,
) -> Result<Option<Variant>, VariantFault>
    ensures { ReadsUnless VariantFault.OutOfMemory (λ v. v) result cursor.old cursor.new
        (flagged there variant).read }
{
    if !there {
        return Ok(None);
    }
    Ok(Some(read_variant(alloc, cursor)?))
}

fn read_status(cursor: &mut Cursor, there: bool) -> Result<Option<Status>, BinaryFault>
    ensures { Reads (λ v. v) result cursor.old cursor.new (flagged there status).read }
{
    if !there {
        return Ok(None);
    }
    Ok(Some(cursor.status()?))
}

fn read_time(cursor: &mut Cursor, there: bool) -> Result<Option<Ticks>, BinaryFault>
    ensures { Reads (λ v. v) result cursor.old cursor.new (flagged there ticks).read }
{
    if !there {
        return Ok(None);
    }
    Ok(Some(cursor.ticks()?))
}

#[tactic(auto, unfolding(crate::specs::DataValue::picoseconds))]
fn read_picoseconds(cursor: &mut Cursor, there: bool) -> Result<Option<u16>, BinaryFault>
    ensures { Reads (λ v. v) result cursor.old cursor.new (flagged there picoseconds).read }
{
    if !there {
        return Ok(None);
    }
    Ok(Some(cursor.u16()?.min(9999)))
}

/// What a data value has but its value.
#[derive(Clone, Copy)]
struct Stamps {
    status: Option<Status>,
    source_time: Option<Ticks>,
    source_pico: Option<u16>,
    server_time: Option<Ticks>,
    server_pico: Option<u16>,
}

/// Those that the mask names, one after the other. An error leaves the cursor anywhere.
fn read_stamps(cursor: &mut Cursor, mask: u8) -> Result<Stamps, BinaryFault>
    ensures { ReadsPart BinaryFault.OutOfMemory stamps_of result cursor.old cursor.new
        (stamps mask).read }
{
    let status = read_status(cursor, mask & 2 != 0)?;
    let source_time = read_time(cursor, mask & 4 != 0)?;
    let source_pico = read_picoseconds(cursor, mask & 16 != 0)?;
    let server_time = read_time(cursor, mask & 8 != 0)?;
    let server_pico = read_picoseconds(cursor, mask & 32 != 0)?;
    Ok(Stamps {
        status,
        source_time,
        source_pico,
        server_time,
        server_pico,
    })
}

/// Reads a data value (Part 6, 5.2.2.17): a mask, and what it names, each kept as present or absent.
/// Picoseconds of 10,000 or more read as 9,999; a bit of the mask without a meaning is
/// `BadEncodingByte`. An error leaves the cursor where it was. What is read may be written.
#[tactic(auto, unfolding(crate::specs::DataValue::data_value))]
#[inline(always)]
pub fn read_data_value(alloc: Global, cursor: &mut Cursor) -> Result<DataValue, VariantFault>
    ensures reads { ReadsUnless VariantFault.OutOfMemory
        (λ v. v) result cursor.old cursor.new data_value.read }
    ensures short { IfOk result IsShortData }
{
    let mut next = cursor.fork();
    let mask = next.u8()?;
    if mask > 63 {
        return Err(VariantFault::BadEncodingByte);
    }
    let value = read_value(alloc, &mut next, mask & 1 != 0)?;
    let stamps = read_stamps(&mut next, mask)?;
    *cursor = next;
    Ok(DataValue {
        value,
        status: stamps.status,
        source_time: stamps.source_time,
        source_pico: stamps.source_pico,
        server_time: stamps.server_time,
        server_pico: stamps.server_pico,
    })
}

impl<'a> Decode<'a> for DataValue {
    type Fault = VariantFault;

    ghost Value = { Data };

    ghost view = { λ v. v };

    ghost format = { data_value };

    fn decode(alloc: Global, cursor: &mut Cursor<'a>) -> Result<DataValue, VariantFault> {
        read_data_value(alloc, cursor)
    }
}

fn put_value(out: &mut Vec<u8>, v: &Option<Variant>) -> Result<(), BinaryFault>
    requires { IfSome v.now IsShortVariant }
    ensures puts { Puts BinaryFault.OutOfMemory result out.old.items out.new.items
        ((flagged (is_some v.now) variant).canon v.now) }
    ensures spelled { IfOk result (λ _. IfSome v.now IsVariant) }
{
    match v {
        None => Ok(()),
        Some(v) => put_variant(out, v),
    }
}

fn put_some_status(out: &mut Vec<u8>, v: Option<Status>) -> Result<(), BinaryFault>
    ensures puts { Puts BinaryFault.OutOfMemory result out.old.items out.new.items
        ((flagged (is_some v) status).canon v) }
    ensures spelled { IfOk result (λ _. IfSome v (λ c. c.0 < 2 ^ 32)) }
{
    match v {
        None => Ok(()),
        Some(v) => put_status(out, v),
    }
}

fn put_time(out: &mut Vec<u8>, v: Option<Ticks>) -> Result<(), BinaryFault>
    ensures puts { Puts BinaryFault.OutOfMemory result out.old.items out.new.items
        ((flagged (is_some v) ticks).canon v) }
    ensures spelled { IfOk result (λ _. IfSome v (λ t. FitsSigned w64 t.0)) }
{
    match v {
        None => Ok(()),
        Some(v) => put_ticks(out, v),
    }
}

#[tactic(auto, unfolding(crate::specs::DataValue::picoseconds))]
fn put_picoseconds(out: &mut Vec<u8>, v: Option<u16>) -> Result<(), BinaryFault>
    ensures { Puts BinaryFault.OutOfMemory result out.old.items out.new.items
        ((flagged (is_some v) picoseconds).canon v) }
{
    match v {
        None => Ok(()),
        Some(v) => put_u16(out, v),
    }
}

/// What a bit adds to a mask.
fn bit_where(there: bool, bit: u8) -> u8
    ensures same { result ≡ mask_bit there bit }
    ensures at_most { result ≤ bit }
{
    if there { bit } else { 0 }
}

impl DataValue {
    ghost use Rattle.ua_variant.specs.DataValue.{data_mask};

    /// The mask that names what is there.
    fn mask(&self) -> u8
        ensures { result ≡ data_mask self.now }
    {
        bit_where(self.value.is_some(), 1)
            + bit_where(self.status.is_some(), 2)
            + bit_where(self.source_time.is_some(), 4)
            + bit_where(self.source_pico.is_some(), 16)
            + bit_where(self.server_time.is_some(), 8)
            + bit_where(self.server_pico.is_some(), 32)
    }
}

#[tactic(auto, using(ua_binary::proofs::Kept::kept, crate::proofs::Masks::canon_data))]
fn put_data_value_parts(out: &mut Vec<u8>, v: &DataValue) -> Result<(), BinaryFault>
    requires { IsShortData v.now }
    ensures puts { PutsPart BinaryFault.OutOfMemory result out.old.items out.new.items
        (data_value.canon v.now) }
    ensures spelled { IfOk result (λ _. IsDataValue v.now) }
{
    put_u8(out, v.mask())?;
    put_value(out, &v.value)?;
    put_some_status(out, v.status)?;
    put_time(out, v.source_time)?;
    put_picoseconds(out, v.source_pico)?;
    put_time(out, v.server_time)?;
    put_picoseconds(out, v.server_pico)?;
    Ok(())
}

/// Writes a data value (Part 6, 5.2.2.17), whose picoseconds are at most 9,999. Its one error is
/// `OutOfMemory`, and then the vector is as it was. What was written has a spelling, so it is read
/// again.
pub fn put_data_value(out: &mut Vec<u8>, v: &DataValue) -> Result<(), BinaryFault>
    requires { IsShortData v.now }
    ensures puts { Puts BinaryFault.OutOfMemory result out.old.items out.new.items (data_value.canon v.now) }
    ensures spelled { IfOk result (λ _. IsDataValue v.now) }
{
    let len = out.len();
    let put = put_data_value_parts(out, v);
    or_undone(put, out, len)
}

#[tactic(auto, using(ua_binary::proofs::Kept::kept, crate::proofs::Masks::canon_timed))]
fn put_value_at_parts(
    out: &mut Vec<u8>,
    value: &Variant,
    source_time: Option<Ticks>,
    server_time: Option<Ticks>,
) -> Result<(), BinaryFault>
    requires { IsShortVariant value.now }
    ensures puts { PutsPart BinaryFault.OutOfMemory result out.old.items out.new.items
        (data_value.canon
        (record {
          value = Some value.now;
          status = None;
          source_time = source_time;
          source_pico = None;
          server_time = server_time;
          server_pico = None;
        })) }
    ensures spelled { IfOk result
        (λ _.
        IsDataValue
        (record {
          value = Some value.now;
          status = None;
          source_time = source_time;
          source_pico = None;
          server_time = server_time;
          server_pico = None;
        })) }
{
    let mask = 1 + bit_where(source_time.is_some(), 4) + bit_where(server_time.is_some(), 8);
    put_u8(out, mask)?;
    put_variant(out, value)?;
    put_time(out, source_time)?;
    put_time(out, server_time)?;
    Ok(())
}

/// Writes the data value (Part 6, 5.2.2.17) that has this value and these moments, and neither a status nor picoseconds. Its one
/// error is `OutOfMemory`, and then the vector is as it was. What was written has a spelling, so it is read again.
pub fn put_value_at(
    out: &mut Vec<u8>,
    value: &Variant,
    source_time: Option<Ticks>,
    server_time: Option<Ticks>,
) -> Result<(), BinaryFault>
    requires { IsShortVariant value.now }
    ensures puts { Puts BinaryFault.OutOfMemory result out.old.items out.new.items
        (data_value.canon
        (record {
          value = Some value.now;
          status = None;
          source_time = source_time;
          source_pico = None;
          server_time = server_time;
          server_pico = None;
        })) }
    ensures spelled { IfOk result
        (λ _.
        IsDataValue
        (record {
          value = Some value.now;
          status = None;
          source_time = source_time;
          source_pico = None;
          server_time = server_time;
          server_pico = None;
        })) }
{
    let len = out.len();
    let put = put_value_at_parts(out, value, source_time, server_time);
    or_undone(put, out, len)
}
