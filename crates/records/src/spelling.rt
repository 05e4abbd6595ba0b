//! Records as bytes, format 2: the byte 2, the fields, and nothing that is spelled in another way
//! than it is written.

ghost use Rattle.std.specs.Prelude.{◌≡◌, ◌<◌, ◌^◌, ℕ, List, length, IfOk, MatchResult, Ok, Err, true};
ghost use Rattle.std.specs.Str.{bytes_eq};
ghost use Rattle.ua_binary.specs.Format.{Puts, PutsPart, ReadsPart, ReadsUnless, passing};
ghost use Rattle.records.specs.declared.fault.RecordFault.TheVariants as fault;
ghost use Rattle.records.specs.Spelling.{is_value_for, fields, time, record_form, record_at, front, IsRecord, IsShortRecord, GivesUnless, HasSpelledParts};
ghost use Rattle.records.specs.Fields.{value, parts_of};
ghost use Rattle.std.specs.Prelude.{◌↔◌, IsTrue, IfSome};
ghost use Rattle.ua_binary.specs.Format.{saturated};
ghost use Rattle.ua_variant.specs.DataValue.{data_value, IsDataValue, IsPicoseconds, IsShortData};
ghost use Rattle.ua_variant.specs.Variant.{IsShortVariant};
ghost use Rattle.std.specs.Int.{w64};
ghost use Rattle.std.specs.Int.RustNames.{FitsSigned};
ghost use Rattle.records.specs.Moments.{ticks_of};
ghost use Rattle.std.specs.Str.{is_utf8};
ghost use Rattle.stamp.specs.Limits.{IsReplica};
ghost use Rattle.ua_binary.specs.Binary.{node_id, IsNodeId, IsShortNode};

use crate::fault::RecordFault;
use crate::fields::Front;
use crate::moment::Moment;
use crate::record::Record;
use stamp::GREATEST_NUMBER;
use std::alloc::Global;
use ua_binary::{
    BinaryFault, Cursor, Encode, or_undone, put_i64, put_node_id, put_text, put_u8, put_u16,
    put_u64,
};
use ua_variant::{DataValue, HistoryUpdateType, put_data_value, read_data_value};

/// The most bytes of a record.
const LONGEST: usize = 1_048_578;

/// Whether a delete's value is the empty one, and a write's has no source time.
fn is_value_for(asked: HistoryUpdateType, v: &DataValue) -> bool
    ensures { result ≡ is_value_for asked v.now }
{
    if asked != HistoryUpdateType::Delete {
        return v.source_time.is_none();
    }
    let values = v.value.is_some() || v.status.is_some();
    let source = v.source_time.is_some() || v.source_pico.is_some();
    let server = v.server_time.is_some() || v.server_pico.is_some();
    !(values || source || server)
}

/// Reads the value of an update. An error leaves the cursor anywhere.
fn read_value(
    alloc: Global,
    cursor: &mut Cursor<'_>,
    asked: HistoryUpdateType,
) -> Result<DataValue, RecordFault>
    ensures { ReadsPart fault.OutOfMemory (λ v. v) result cursor.old cursor.new
        (passing (is_value_for asked) fault.BadField value).read }
{
    let value = read_data_value(alloc, cursor)?;
    if !is_value_for(asked, &value) {
        return Err(RecordFault::BadField);
    }
    Ok(value)
}

/// Reads the fields, in any of their spellings. An error leaves the cursor anywhere.
#[tactic(auto, unfolding(crate::specs::Spelling::fields))]
fn read_parts(alloc: Global, cursor: &mut Cursor<'_>) -> Result<Record, RecordFault>
    ensures { ReadsPart fault.OutOfMemory (λ r. r) result cursor.old cursor.new fields.read }
{
    let front = Front::read(alloc, cursor)?;
    let value = read_value(alloc, cursor, front.asked)?;
    Ok(front.with_value(value))
}

/// Reads the fields, in any of their spellings. An error leaves the cursor where it was.
fn read_fields(alloc: Global, cursor: &mut Cursor<'_>) -> Result<Record, RecordFault>
    ensures reads { ReadsUnless fault.OutOfMemory (λ r. r) result cursor.old cursor.new fields.read }
    ensures short { IfOk result IsShortRecord }
{
    let mut next = cursor.fork();
    let record = read_parts(alloc, &mut next)?;
    *cursor = next;
    Ok(record)
}

#[tactic(auto, using(ua_binary::proofs::Kept::kept), unfolding(crate::specs::Spelling::time))]
fn put_time_parts(out: &mut Vec<u8>, moment: Moment) -> Result<(), BinaryFault>
    ensures puts { PutsPart BinaryFault.OutOfMemory result out.old.items out.new.items (time.canon moment) }
    ensures spelled { IfOk result (λ _. FitsSigned w64 (ticks_of moment)) }
{
    put_i64(out, moment.ticks())?;
    put_u16(out, moment.pico())
}

/// A moment: its ticks, and then its picoseconds.
fn put_time(out: &mut Vec<u8>, moment: Moment) -> Result<(), BinaryFault>
    ensures puts { Puts BinaryFault.OutOfMemory result out.old.items out.new.items (time.canon moment) }
    ensures spelled { IfOk result (λ _. FitsSigned w64 (ticks_of moment)) }
{
    let len = out.len();
    let put = put_time_parts(out, moment);
    or_undone(put, out, len)
}

#[tactic(auto, using(ua_binary::proofs::Kept::kept))]
fn put_front(out: &mut Vec<u8>, r: &Record) -> Result<(), BinaryFault>
    requires node { IsShortNode r.now.node }
    requires user { length r.now.user < 2 ^ 31 }
    ensures puts { PutsPart BinaryFault.OutOfMemory result out.old.items out.new.items
        (front.canon (parts_of r.now).0) }
    ensures spelled { IfOk result
        (λ _. IsReplica r.now.origin × IsNodeId r.now.node × FitsSigned w64 (ticks_of r.now.time)
        × (is_utf8 r.now.user ≡ true)) }
{
    put_u8(out, 2)?;
    put_u8(out, r.origin.get())?;
    put_u64(out, r.number)?;
    put_i64(out, r.tick)?;
    put_node_id(out, &r.node)?;
    put_time(out, r.time)?;
    put_u8(out, r.asked.number())?;
    put_text(out, Some(r.user.as_str()))?;
    Ok(())
}

#[tactic(auto, using(ua_binary::proofs::Kept::kept), unfolding(crate::specs::Spelling::fields))]
fn put_fields(out: &mut Vec<u8>, r: &Record) -> Result<(), BinaryFault>
    requires { IsShortRecord r.now }
    ensures puts { PutsPart BinaryFault.OutOfMemory result out.old.items out.new.items (fields.canon r.now) }
    ensures spelled { IfOk result (λ _. HasSpelledParts r.now) }
{
    put_front(out, r)?;
    put_data_value(out, &r.value)?;
    Ok(())
}

/// Whether a record is written as these bytes.
fn is_written_so(alloc: Global, r: &Record, bytes: &[u8]) -> Result<bool, RecordFault>
    requires { IsShortRecord r.now }
    ensures same { MatchResult result (λ same. same ≡ bytes_eq bytes.now (fields.canon r.now))
        (λ e. e ≡ fault.OutOfMemory) }
    ensures spelled { IfOk result (λ _. HasSpelledParts r.now) }
{
    let mut out = Vec::with_capacity(alloc, bytes.len())?;
    put_fields(&mut out, r)?;
    Ok(bytes == out.as_slice())
}

/// Whether picoseconds, where they are there, are at most 9,999.
fn are_picoseconds(v: Option<u16>) -> bool
    ensures { IsTrue result ↔ IfSome v IsPicoseconds }
{
    match v {
        Some(n) => n <= 9999,
        None => true,
    }
}

impl Record {
    ghost use Rattle.records.specs.Spelling.{fields, HasLimits, IsLawfulRecord};

    /// How many bytes its fields take, or 2^64 - 1 where there are more.
    #[tactic(auto, using(crate::proofs::Sizes::fields_length), unfolding(ua_binary::specs::Binary::node_id))]
    fn size(&self) -> usize
        ensures counted { result ≡ saturated (length (fields.canon self.now)) }
        ensures node_short { length (node_id.canon self.now.node) < 2 ^ 31 → IsShortNode self.now.node }
        ensures node_spelled { IsShortNode self.now.node → IsNodeId self.now.node }
        ensures value_short { length (data_value.canon self.now.value) < 2 ^ 31
            → IfSome self.now.value.value IsShortVariant }
        ensures value_spelled { IsShortData self.now.value → IsDataValue self.now.value }
    {
        let texts = self.node.size().saturating_add(self.user.len());
        texts.saturating_add(self.value.size()).saturating_add(33)
    }

    /// How many bytes its spelling takes, or 2^64 - 1 where there are more. It takes no memory.
    #[tactic(auto, unfolding(crate::specs::Spelling::record_form))]
    pub fn encoded_size(&self) -> usize
        ensures { result ≡ saturated (length (record_form.canon self.now)) }
    {
        self.size()
    }

    /// Whether its numbers, its user and its value are within the limits of a record.
    fn has_limits(&self) -> bool
        ensures { IsTrue result ↔ HasLimits self.now }
    {
        let value = &self.value;
        let exact = are_picoseconds(value.source_pico) && are_picoseconds(value.server_pico);
        self.number >= 1
            && self.number <= GREATEST_NUMBER
            && self.time.ticks() >= 1
            && self.user.len() <= 256
            && exact
            && is_value_for(self.asked, value)
    }

    /// Whether it has a spelling, its tick aside: its number is 1 to 2^62 - 1, its source time at least
    /// 1, its user at most 256 bytes long; a delete's value is empty, and another's has no source time
    /// and picoseconds of at most 9,999; and it takes at most 1,048,578 bytes. It takes no memory.
    #[tactic(auto, using(crate::proofs::Sizes::lawfulness))]
    pub fn is_lawful(&self) -> bool
        ensures { IsTrue result ↔ IsLawfulRecord self.now }
    {
        let Record {
            origin,
            time,
            user,
            ..
        } = self;
        let _time = time.ticks();
        let (_origin, _user) = (origin.get(), user.as_str());
        let size = self.size();
        if !self.has_limits() {
            return false;
        }
        size <= LONGEST
    }
}

/// Judges the bytes that a record was read of: that none is left over, then that they aren't too many,
/// then that they are those that are written.
fn judge_spelling(alloc: Global, r: &Record, bytes: &[u8], rest: &[u8]) -> Result<(), RecordFault>
    requires read { fields.read bytes.now ≡ Ok (r.now, rest.now) }
    requires short { IsShortRecord r.now }
    ensures judged { MatchResult result (λ _. record_at bytes.now ≡ Ok r.now)
        (λ e. (e ≡ fault.OutOfMemory → ⊥) → record_at bytes.now ≡ Err e) }
    ensures spelled { IfOk result (λ _. HasSpelledParts r.now) }
{
    if !rest.is_empty() {
        return Err(RecordFault::Binary);
    }
    if bytes.len() > LONGEST {
        return Err(RecordFault::BadField);
    }
    if !is_written_so(alloc, r, bytes)? {
        return Err(RecordFault::NotCanonical);
    }
    Ok(())
}

/// Reads the record that all of the bytes spell. The fields are judged one after the other: one that
/// isn't spelled is `Binary`, one outside its limits `BadField`. Then bytes behind the record are
/// `Binary`, more than 1,048,578 of them `BadField`, and another spelling than the one that is written
/// is `NotCanonical`. `OutOfMemory` may come at any of these. What is read may be written.
pub fn read_record(alloc: Global, bytes: &[u8]) -> Result<Record, RecordFault>
    ensures reads { GivesUnless fault.OutOfMemory result (record_at bytes.now) }
    ensures lawful { IfOk result IsRecord }
{
    let mut cursor = Cursor::new(bytes);
    let r = read_fields(alloc, &mut cursor)?;
    judge_spelling(alloc, &r, bytes, cursor.rest())?;
    Ok(r)
}

/// Writes a record, format 2. Its one error is `OutOfMemory`, and then the vector is as it was.
#[tactic(auto, using(crate::proofs::Spelled::record_short), unfolding(crate::specs::Spelling::record_form))]
pub fn put_record(out: &mut Vec<u8>, r: &Record) -> Result<(), RecordFault>
    requires { IsRecord r.now }
    ensures { Puts fault.OutOfMemory result out.old.items out.new.items (record_form.canon r.now) }
{
    let len = out.len();
    let put = put_fields(out, r);
    or_undone(put, out, len)?;
    Ok(())
}
