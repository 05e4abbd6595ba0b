//! Rows as records.

ghost use Rattle.std.specs.Prelude.{◌≡◌, ◌⊎◌, ◌∷◌, ◌<◌, ◌≤◌, ◌↔◌, ℕ, ℤ, pos, List, [], length, IfOk, IfErr, IsTrue, MatchOption, IsUtf8};
ghost use Rattle.std.specs.List.{flat_map};
ghost use Rattle.std.specs.Int.{w64};
ghost use Rattle.std.specs.Int.RustNames.{FitsSigned};
ghost use Rattle.sqlite_value.specs.Order.{column};
ghost use Rattle.sqlite_value.specs.declared.value.Value.TheVariants as value;
ghost use Rattle.sqlite_trees.specs.Objects.{number_in};
ghost use Rattle.ua_binary.specs.Binary.{node_id, IsNodeId, IsShortNode};
ghost use Rattle.ua_variant.specs.DataValue.{data_value, IsDataValue, IsShortData};
ghost use Rattle.ua_variant.specs.UpdateType.{update_number};
ghost use Rattle.ua_variant.specs.declared.update_type.HistoryUpdateType.{HistoryUpdateType};
ghost use Rattle.records.specs.Moments.{ticks_of, pico_of};
ghost use Rattle.records.specs.Spelling.{IsRecord};
ghost use Rattle.sql_tables.specs.Words.{shown_of};
ghost use Rattle.sql_tables.specs.Rows.{int_in, row_of, records_in, IsNoRecords, HasNoRecords};

use records::{Moment, Record, RecordFault};
use sqlite::Row;
use sqlite_value::value::ValueRef;
use stamp::{GREATEST_TICK, ReplicaNo};
use std::alloc::Global;
use ua_binary::{Cursor, NodeId, Text, put_node_id};
use ua_variant::{DataValue, HistoryUpdateType, put_data_value, read_data_value};

/// The whole number in a column, from 0 on; another kind of value, or no such column, is `BadField`.
pub fn int_at(row: &Row, at: usize) -> Result<i64, RecordFault>
    ensures found { IfOk result (λ n. column row.now at ≡ value.Int n) }
    ensures err { IfErr result (λ fault. fault ≡ RecordFault.BadField) }
    ensures other { IfErr result (λ _. (n : ℤ) → column row.now at ≡ value.Int n → ⊥) }
{
    match row.get_ref(at) {
        Ok(ValueRef::Int(n)) => Ok(n),
        _ => Err(RecordFault::BadField),
    }
}

/// The bytes in a column; another kind of value, or no such column, is `BadField`.
pub fn bytes_at(row: &Row, at: usize) -> Result<&[u8], RecordFault>
    ensures found { IfOk result (λ b. column row.now at ≡ value.Blob b.now) }
    ensures err { IfErr result (λ fault. fault ≡ RecordFault.BadField) }
    ensures other { IfErr result (λ _. (b : List ℕ) → column row.now at ≡ value.Blob b → ⊥) }
{
    match row.get_ref(at) {
        Ok(ValueRef::Blob(bytes)) => Ok(bytes),
        _ => Err(RecordFault::BadField),
    }
}

/// The whole number in a column, as a tick has it; else `BadField`.
pub fn tick_at(row: &Row, at: usize) -> Result<i64, RecordFault>
    ensures found { IfOk result (λ n. int_in (column row.now at) ≡ n) }
    ensures err { IfErr result (λ fault. fault ≡ RecordFault.BadField) }
    ensures other { IfErr result (λ _. (n : ℤ) → column row.now at ≡ value.Int n → ⊥) }
{
    int_at(row, at)
}

/// The whole number in a column that isn't negative; else `BadField`.
pub fn number_at(row: &Row, at: usize) -> Result<u64, RecordFault>
    ensures found { IfOk result (λ n. number_in (column row.now at) ≡ n) }
    ensures same { IfOk result (λ n. column row.now at ≡ value.Int (pos n)) }
    ensures err { IfErr result (λ fault. fault ≡ RecordFault.BadField) }
    ensures other { IfErr result (λ _. (n : ℕ) → column row.now at ≡ value.Int (pos n) → ⊥) }
{
    match u64::try_from(int_at(row, at)?) {
        Ok(n) => Ok(n),
        Err(_) => Err(RecordFault::BadField),
    }
}

/// The whole number in a column from 0 to 255; else `BadField`.
fn byte_at(row: &Row, at: usize) -> Result<u8, RecordFault>
    ensures found { IfOk result (λ n. number_in (column row.now at) ≡ n) }
    ensures same { IfOk result (λ n. column row.now at ≡ value.Int (pos n)) }
    ensures err { IfErr result (λ fault. fault ≡ RecordFault.BadField) }
    ensures other { IfErr result (λ _. (n : ℕ) → n < 256
        → column row.now at ≡ value.Int (pos n) → ⊥) }
{
    match u8::try_from(number_at(row, at)?) {
        Ok(n) => Ok(n),
        Err(_) => Err(RecordFault::BadField),
    }
}

/// The whole number in a column from 0 to 65,535; else `BadField`.
pub fn short_at(row: &Row, at: usize) -> Result<u16, RecordFault>
    ensures found { IfOk result (λ n. number_in (column row.now at) ≡ n) }
    ensures same { IfOk result (λ n. column row.now at ≡ value.Int (pos n)) }
    ensures err { IfErr result (λ fault. fault ≡ RecordFault.BadField) }
    ensures other { IfErr result (λ _. (n : ℕ) → n < 65536
        → column row.now at ≡ value.Int (pos n) → ⊥) }
{
    match u16::try_from(number_at(row, at)?) {
        Ok(n) => Ok(n),
        Err(_) => Err(RecordFault::BadField),
    }
}

/// The text of at most 256 bytes in a column; else a fault.
#[inline(always)]
fn text_at(row: &Row, at: usize) -> Result<&str, RecordFault>
    ensures found { IfOk result (λ s. column row.now at ≡ value.Blob s.now) }
    ensures other { IfErr result
        (λ _. (b : List ℕ) → IsUtf8 b → length b ≤ 256 → column row.now at ≡ value.Blob b → ⊥) }
{
    match std::str::from_utf8(bytes_at(row, at)?) {
        Ok(text) if text.len() <= 256 => Ok(text),
        _ => Err(RecordFault::BadField),
    }
}

/// The replica that a row names.
#[tactic(auto, using(crate::proofs::UnreadLemmas::no_origin, crate::proofs::UnreadLemmas::no_replica))]
#[inline(always)]
fn origin_at(row: &Row) -> Result<ReplicaNo, RecordFault>
    ensures found { IfOk result (λ origin. column row.now 0 ≡ value.Int (pos origin)) }
    ensures unread { IfErr result (λ _. IsNoRecords row.now) }
{
    match ReplicaNo::new(byte_at(row, 0)?) {
        Some(origin) => Ok(origin),
        None => Err(RecordFault::BadField),
    }
}

/// The source time that a row has.
#[tactic(auto, using(crate::proofs::UnreadLemmas::no_time, crate::proofs::UnreadLemmas::no_pico, crate::proofs::UnreadLemmas::no_moment, records::specs::Moments::ticks_again, records::specs::Moments::pico_again))]
#[inline(always)]
fn moment_at(row: &Row) -> Result<Moment, RecordFault>
    ensures found { IfOk result (λ time. (column row.now 4 ≡ value.Int (ticks_of time))
        × (column row.now 5 ≡ value.Int (pos (pico_of time)))) }
    ensures unread { IfErr result (λ _. IsNoRecords row.now) }
{
    let ticks = int_at(row, 4)?;
    let pico = short_at(row, 5)?;
    match Moment::new(ticks, pico) {
        Some(time) => Ok(time),
        None => Err(RecordFault::BadField),
    }
}

/// The update of a number, where it is one from 1 to 4.
#[tactic(auto, using(crate::proofs::UnreadLemmas::no_number_of))]
#[inline(always)]
fn asked_of(number: u8) -> Option<HistoryUpdateType>
    ensures { MatchOption result ((a : HistoryUpdateType) → update_number a ≡ number → ⊥)
        (λ a. update_number a ≡ number) }
{
    match number {
        1 => Some(HistoryUpdateType::Insert),
        2 => Some(HistoryUpdateType::Replace),
        3 => Some(HistoryUpdateType::Update),
        4 => Some(HistoryUpdateType::Delete),
        _ => None,
    }
}

/// What a row says was asked.
#[tactic(auto, using(crate::proofs::UnreadLemmas::no_asked, crate::proofs::UnreadLemmas::no_update))]
#[inline(always)]
fn asked_at(row: &Row) -> Result<HistoryUpdateType, RecordFault>
    ensures found { IfOk result (λ a. column row.now 6 ≡ value.Int (pos (update_number a))) }
    ensures unread { IfErr result (λ _. IsNoRecords row.now) }
{
    match asked_of(byte_at(row, 6)?) {
        Some(asked) => Ok(asked),
        None => Err(RecordFault::BadField),
    }
}

/// Whether a node is written as these bytes. It is written into `buffer`, in place of what stood there, to be compared with them.
#[inline(always)]
fn is_node_so(buffer: &mut Vec<u8>, node: &NodeId, bytes: &[u8]) -> Result<bool, RecordFault>
    requires { IsShortNode node.now }
    ensures same { IfOk result (λ so. IsTrue so ↔ (bytes.now ≡ node_id.canon node.now)) }
    ensures spelled { IfOk result (λ _. IsNodeId node.now) }
    ensures err { IfErr result (λ fault. fault ≡ RecordFault.OutOfMemory) }
{
    buffer.clear();
    put_node_id(buffer, node)?;
    Ok(bytes == buffer.as_slice())
}

/// The node of a row, whose bytes are the one spelling of it.
#[tactic(auto, using(crate::proofs::UnreadLemmas::no_node, crate::proofs::UnreadLemmas::no_node_by, crate::proofs::UnreadLemmas::no_other_node, crate::proofs::UnreadLemmas::short_node))]
#[inline(always)]
fn node_at(alloc: Global, buffer: &mut Vec<u8>, row: &Row) -> Result<NodeId, RecordFault>
    ensures found { IfOk result (λ node. column row.now 3 ≡ value.Blob (node_id.canon node)) }
    ensures spelled { IfOk result IsNodeId }
    ensures unread { IfErr result (λ fault. (fault ≡ RecordFault.OutOfMemory)
        ⊎ IsNoRecords row.now) }
{
    let bytes = bytes_at(row, 3)?;
    let node = Cursor::new(bytes).node_id()?.to_owned(alloc)?;
    if !is_node_so(buffer, &node, bytes)? {
        return Err(RecordFault::NotCanonical);
    }
    Ok(node)
}

/// Whether a value is written as these bytes. It is written into `buffer`, in place of what stood there, to be compared with them.
#[inline(always)]
fn is_value_so(buffer: &mut Vec<u8>, value: &DataValue, bytes: &[u8]) -> Result<bool, RecordFault>
    requires { IsShortData value.now }
    ensures same { IfOk result (λ so. IsTrue so ↔ (bytes.now ≡ data_value.canon value.now)) }
    ensures spelled { IfOk result (λ _. IsDataValue value.now) }
    ensures err { IfErr result (λ fault. fault ≡ RecordFault.OutOfMemory) }
{
    buffer.clear();
    put_data_value(buffer, value)?;
    Ok(bytes == buffer.as_slice())
}

/// The value of a row, whose bytes are the one spelling of it.
#[tactic(auto, using(crate::proofs::UnreadLemmas::no_value, crate::proofs::UnreadLemmas::no_value_by, crate::proofs::UnreadLemmas::no_other_value))]
#[inline(always)]
fn value_at(alloc: Global, buffer: &mut Vec<u8>, row: &Row) -> Result<DataValue, RecordFault>
    ensures found { IfOk result (λ v. column row.now 8 ≡ value.Blob (data_value.canon v)) }
    ensures spelled { IfOk result IsDataValue }
    ensures unread { IfErr result (λ fault. (fault ≡ RecordFault.OutOfMemory)
        ⊎ IsNoRecords row.now) }
{
    let bytes = bytes_at(row, 8)?;
    let value = read_data_value(alloc, &mut Cursor::new(bytes))?;
    if !is_value_so(buffer, &value, bytes)? {
        return Err(RecordFault::NotCanonical);
    }
    Ok(value)
}

/// A record's name, its tick, its source time and what was asked.
#[derive(Clone, Copy, Debug)]
struct Marks {
    origin: ReplicaNo,
    number: u64,
    tick: i64,
    time: Moment,
    asked: HistoryUpdateType,
}

/// What a row says beside its node, its user and its value.
#[tactic(auto, using(crate::proofs::UnreadLemmas::no_number, crate::proofs::UnreadLemmas::no_tick))]
#[inline(always)]
fn marks_at(row: &Row) -> Result<Marks, RecordFault>
    ensures name { IfOk result (λ m. (column row.now 0 ≡ value.Int (pos m.origin))
        × (column row.now 1 ≡ value.Int (pos m.number)) × (column row.now 2 ≡ value.Int m.tick)) }
    ensures place { IfOk result (λ m. (column row.now 4 ≡ value.Int (ticks_of m.time))
        × (column row.now 5 ≡ value.Int (pos (pico_of m.time)))) }
    ensures asked { IfOk result
        (λ m. column row.now 6 ≡ value.Int (pos (update_number m.asked))) }
    ensures fits { IfOk result (λ m. FitsSigned w64 m.tick) }
    ensures unread { IfErr result (λ _. IsNoRecords row.now) }
{
    let origin = origin_at(row)?;
    let number = number_at(row, 1)?;
    let tick = int_at(row, 2)?;
    let time = moment_at(row)?;
    let asked = asked_at(row)?;
    Ok(Marks {
        origin,
        number,
        tick,
        time,
        asked,
    })
}

/// Who asked, by a row.
#[tactic(auto, using(crate::proofs::UnreadLemmas::no_user))]
#[inline(always)]
fn user_at(alloc: Global, row: &Row) -> Result<Text, RecordFault>
    ensures found { IfOk result (λ user. column row.now 7 ≡ value.Blob user) }
    ensures unread { IfErr result (λ fault. (fault ≡ RecordFault.OutOfMemory)
        ⊎ IsNoRecords row.now) }
{
    Ok(Text::from_str(alloc, text_at(row, 7)?)?)
}

/// Whether a record has a spelling.
#[inline(always)]
fn is_spelled(r: &Record) -> bool
    ensures { IsTrue result ↔ IsRecord r.now }
{
    let tick = r.tick;
    tick >= 1 && tick <= GREATEST_TICK && r.is_lawful()
}

/// The record that a row of nine columns spells. Its node and its value are read of their bytes, written again into `buffer`, and compared
/// with the bytes that were read: another spelling of them is a fault. `OutOfMemory` for want of memory; a row that is no record's is
/// another fault.
#[tactic(auto, using(crate::proofs::UnreadLemmas::row_is, crate::proofs::UnreadLemmas::read_by, crate::proofs::UnreadLemmas::no_other))]
pub fn decode(alloc: Global, buffer: &mut Vec<u8>, row: &Row) -> Result<Record, RecordFault>
    ensures found { IfOk result (λ r. records_in row.now ≡ r ∷ []) }
    ensures lawful { IfOk result IsRecord }
    ensures same { IfOk result (λ r. shown_of row.now ≡ row_of r) }
    ensures unread { IfErr result (λ fault. (fault ≡ RecordFault.OutOfMemory)
        ⊎ IsNoRecords row.now) }
{
    let marks = marks_at(row)?;
    let node = node_at(alloc, buffer, row)?;
    let user = user_at(alloc, row)?;
    let value = value_at(alloc, buffer, row)?;
    let r = Record {
        origin: marks.origin,
        number: marks.number,
        tick: marks.tick,
        node,
        time: marks.time,
        asked: marks.asked,
        user,
        value,
    };
    if !is_spelled(&r) {
        return Err(RecordFault::BadField);
    }
    Ok(r)
}

/// The records that rows spell, in their order, or the fault of the first that spells none; `OutOfMemory` for want of memory.
pub fn decode_all(alloc: Global, rows: &[Row]) -> Result<Vec<Record>, RecordFault>
    ensures read { IfOk result (λ all. all.items ≡ flat_map records_in rows.now) }
    ensures unread { IfErr result (λ fault. (fault ≡ RecordFault.OutOfMemory)
        ⊎ HasNoRecords rows.now) }
{
    let mut all = Vec::new(alloc);
    let mut buffer = Vec::new(alloc);
    for row in rows {
        let one = decode(alloc, &mut buffer, row)?;
        match all.push(one) {
            Ok(()) => {}
            Err(_) => return Err(RecordFault::OutOfMemory),
        }
    }
    Ok(all)
}
