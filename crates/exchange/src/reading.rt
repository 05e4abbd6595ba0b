//! What a frame says.

ghost use Rattle.std.specs.Prelude.{◌≡◌, ◌++◌, ◌∷◌, [], Ok, Err, IfOk, MatchResult};
ghost use Rattle.std.specs.List.{AllByRecursion};
ghost use Rattle.ua_binary.specs.Format.{Reads, ReadsPart, ReadsUnless, block, byte, items, items_at, whole};
ghost use Rattle.ua_binary.specs.Binary.{unsigned};
ghost use Rattle.std.specs.Int.{w32};
ghost use Rattle.stamp.specs.Vector.{vector};
ghost use Rattle.records.specs.Spelling.{GivesUnless, IsRecord, record_form};
ghost use Rattle.exchange.specs.declared.fault.ExchangeFault.TheVariants as fault;
ghost use Rattle.exchange.specs.declared.message.Party.{Party as Reader};
ghost use Rattle.exchange.specs.Frames.{with_frame_fault, title, count, length_prefixed, length_prefixed_record, code, checked_sender, message_at, IsLearnable};

use crate::fault::ExchangeFault;
use crate::message::{FrameKind, Message, Party, Title};
use records::{Record, RecordFault, read_record};
use stamp::{ReplicaNo, Vector};
use std::alloc::Global;
use ua_binary::{Cursor, Listing};
use uuid::Uuid;

/// The most records of a batch.
const MOST: u32 = 1000;

fn read_byte(cursor: &mut Cursor<'_>) -> Result<u8, ExchangeFault>
    ensures { Reads (λ x. x) result cursor.old cursor.new (with_frame_fault byte).read }
{
    match cursor.u8() {
        Ok(found) => Ok(found),
        Err(_) => Err(ExchangeFault::Frame),
    }
}

fn read_number(cursor: &mut Cursor<'_>) -> Result<u32, ExchangeFault>
    ensures { Reads (λ x. x) result cursor.old cursor.new (with_frame_fault (unsigned w32)).read }
{
    match cursor.u32() {
        Ok(found) => Ok(found),
        Err(_) => Err(ExchangeFault::Frame),
    }
}

fn read_block<'a>(cursor: &mut Cursor<'a>, len: usize) -> Result<&'a [u8], ExchangeFault>
    ensures { Reads (λ x. x.now) result cursor.old cursor.new (with_frame_fault (block len)).read }
{
    match cursor.block(len) {
        Ok(found) => Ok(found),
        Err(_) => Err(ExchangeFault::Frame),
    }
}

fn read_vector(cursor: &mut Cursor<'_>) -> Result<Vector, ExchangeFault>
    ensures { Reads (λ x. x) result cursor.old cursor.new (with_frame_fault vector).read }
{
    match Vector::read(cursor) {
        Ok(found) => Ok(found),
        Err(_) => Err(ExchangeFault::Frame),
    }
}

/// An archive's id.
fn read_id(cursor: &mut Cursor<'_>) -> Result<Uuid, ExchangeFault>
    ensures { Reads (λ v. v) result cursor.old cursor.new (with_frame_fault (block 16)).read }
{
    let mut next = cursor.fork();
    let Ok(id) = Uuid::from_slice(read_block(&mut next, 16)?) else {
        return Err(ExchangeFault::Frame);
    };
    *cursor = next;
    Ok(id)
}

/// Who speaks, and what it holds.
#[tactic(auto, unfolding(crate::specs::Frames::title))]
fn read_title(cursor: &mut Cursor<'_>) -> Result<Title, ExchangeFault>
    ensures { Reads (λ v. v) result cursor.old cursor.new title.read }
{
    let mut next = cursor.fork();
    let format = read_byte(&mut next)?;
    if format == 1 {
        return Err(ExchangeFault::PeerFormat);
    }
    if format != 2 {
        return Err(ExchangeFault::Frame);
    }
    let id = read_id(&mut next)?;
    let Some(sender) = ReplicaNo::new(read_byte(&mut next)?) else {
        return Err(ExchangeFault::Frame);
    };
    let vector = read_vector(&mut next)?;
    *cursor = next;
    Ok(Title { id, sender, vector })
}

/// How many records follow.
fn read_count(cursor: &mut Cursor<'_>) -> Result<u32, ExchangeFault>
    ensures { Reads (λ v. v) result cursor.old cursor.new count.read }
{
    let mut next = cursor.fork();
    let found = read_number(&mut next)?;
    if found > MOST {
        return Err(ExchangeFault::Frame);
    }
    *cursor = next;
    Ok(found)
}

/// Bytes behind their number.
fn read_sized<'a>(cursor: &mut Cursor<'a>) -> Result<&'a [u8], ExchangeFault>
    ensures { Reads (λ x. x.now) result cursor.old cursor.new length_prefixed.read }
{
    let mut next = cursor.fork();
    let len = read_number(&mut next)?;
    let found = read_block(&mut next, len as usize)?;
    *cursor = next;
    Ok(found)
}

/// The record that all of some bytes spell.
#[tactic(auto, using(crate::proofs::FrameLemmas::record_whole))]
fn record_in(alloc: Global, bytes: &[u8]) -> Result<Record, ExchangeFault>
    ensures gives { GivesUnless fault.OutOfMemory result
        (whole fault.Frame (with_frame_fault record_form) bytes.now) }
    ensures lawful { IfOk result IsRecord }
{
    match read_record(alloc, bytes) {
        Ok(found) => Ok(found),
        Err(RecordFault::OutOfMemory) => Err(ExchangeFault::OutOfMemory),
        Err(_) => Err(ExchangeFault::Frame),
    }
}

/// A record behind its length.
#[tactic(auto, unfolding(crate::specs::Frames::length_prefixed_record))]
fn read_framed(alloc: Global, cursor: &mut Cursor<'_>) -> Result<Record, ExchangeFault>
    ensures reads { ReadsUnless fault.OutOfMemory
        (λ r. r) result cursor.old cursor.new length_prefixed_record.read }
    ensures lawful { IfOk result IsRecord }
{
    let mut next = cursor.fork();
    let bytes = read_sized(&mut next)?;
    let found = record_in(alloc, bytes)?;
    *cursor = next;
    Ok(found)
}

fn push(records: &mut Vec<Record>, found: Record) -> Result<(), ExchangeFault>
    ensures { MatchResult result (λ _. records.new.items ≡ records.old.items ++ found ∷ [])
        (λ e. e ≡ fault.OutOfMemory) }
{
    match records.push(found) {
        Ok(()) => Ok(()),
        Err(_) => Err(ExchangeFault::OutOfMemory),
    }
}

/// So many records. A refusal leaves the cursor anywhere.
fn read_items(
    alloc: Global,
    cursor: &mut Cursor<'_>,
    count: u32,
) -> Result<Vec<Record>, ExchangeFault>
    ensures reads { ReadsPart fault.OutOfMemory (λ v. v.items) result cursor.old cursor.new
        (items_at length_prefixed_record.read count) }
    ensures lawful { IfOk result (λ v. AllByRecursion IsRecord v.items) }
{
    let mut records = Vec::new(alloc);
    for _ in 0..count {
        let found = read_framed(alloc, cursor)?;
        push(&mut records, found)?;
    }
    Ok(records)
}

/// So many records, and nothing behind them.
fn read_records(alloc: Global, bytes: &[u8], count: u32) -> Result<Vec<Record>, ExchangeFault>
    ensures gives { MatchResult result
        (λ v. whole fault.Frame (items count length_prefixed_record) bytes.now ≡ Ok v.items)
        (λ e. (e ≡ fault.OutOfMemory → ⊥)
        → whole fault.Frame (items count length_prefixed_record) bytes.now ≡ Err e) }
    ensures lawful { IfOk result (λ v. AllByRecursion IsRecord v.items) }
{
    let mut cursor = Cursor::new(bytes);
    let records = read_items(alloc, &mut cursor, count)?;
    if !cursor.rest().is_empty() {
        return Err(ExchangeFault::Frame);
    }
    Ok(records)
}

/// The peer has to be of the same archive, and another replica.
fn check(party: &Party, title: &Title) -> Result<(), ExchangeFault>
    ensures { result ≡ checked_sender party.now title.now }
{
    if title.id != party.id {
        return Err(ExchangeFault::WrongArchive);
    }
    if title.sender == party.own {
        return Err(ExchangeFault::SelfPeer);
    }
    Ok(())
}

fn read_asking(party: &Party, body: &[u8]) -> Result<Message, ExchangeFault>
    ensures gives { result ≡ message_at party.now FrameKind.Vector body.now }
{
    let mut cursor = Cursor::new(body);
    let title = read_title(&mut cursor)?;
    if !cursor.rest().is_empty() {
        return Err(ExchangeFault::Frame);
    }
    check(party, &title)?;
    Ok(Message::Asks(title))
}

fn read_ending(body: &[u8]) -> Result<Message, ExchangeFault>
    ensures gives { (party : Reader)
        → GivesUnless fault.OutOfMemory result (message_at party FrameKind.End body.now) }
    ensures lawful { IfOk result IsLearnable }
{
    let mut cursor = Cursor::new(body);
    let code = read_number(&mut cursor)?;
    if !cursor.rest().is_empty() {
        return Err(ExchangeFault::Frame);
    }
    Ok(Message::Ends(code))
}

fn read_carrying(alloc: Global, party: &Party, body: &[u8]) -> Result<Message, ExchangeFault>
    ensures gives { GivesUnless fault.OutOfMemory result
        (message_at party.now FrameKind.Records body.now) }
    ensures lawful { IfOk result IsLearnable }
{
    let mut cursor = Cursor::new(body);
    let title = read_title(&mut cursor)?;
    let count = read_count(&mut cursor)?;
    check(party, &title)?;
    let records = read_records(alloc, cursor.rest(), count)?;
    Ok(Message::Carries(title, Listing::of(records)))
}

/// What the body of a frame of this kind says to a party. Faults come in this order: `Frame` for a body that can't be read, or
/// `PeerFormat` where its format is 1; `WrongArchive` and `SelfPeer` where its sender is of another archive, or has the
/// party's number; `Frame` for a record that can't be read. `OutOfMemory` may come at any of these.
pub fn read_message(
    alloc: Global,
    party: &Party,
    kind: FrameKind,
    body: &[u8],
) -> Result<Message, ExchangeFault>
    ensures gives { GivesUnless fault.OutOfMemory result (message_at party.now kind body.now) }
    ensures lawful { IfOk result IsLearnable }
{
    match kind {
        FrameKind::Vector => read_asking(party, body),
        FrameKind::Records => read_carrying(alloc, party, body),
        FrameKind::End => read_ending(body),
    }
}
