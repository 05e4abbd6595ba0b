//! Frames that are written.

ghost use Rattle.std.specs.Prelude.{◌≡◌, ◌<◌, ◌≤◌, ◌+◌, ◌↔◌, IsTrue, IfOk, IfErr, length};
ghost use Rattle.std.specs.List.{flat_map, All, AllByRecursion};
ghost use Rattle.stamp.specs.Vector.{vector};
ghost use Rattle.records.specs.Spelling.{record_form};
ghost use Rattle.ua_binary.specs.Format.{Puts, PutsPart};
ghost use Rattle.records.specs.Spelling.{IsRecord};
ghost use Rattle.exchange.specs.declared.fault.ExchangeFault.TheVariants as fault;
ghost use Rattle.exchange.specs.Frames.{title, length_prefixed_record, frame_letters, kind_of, frame_body_of, frame_of, IsTitle, HasFrame};
ghost use Rattle.exchange.specs.Batches.{records_length, frame_length, longest_frame};

use crate::fault::ExchangeFault;
use crate::message::{Message, Title};
use records::{Record, put_record};
use stamp::GREATEST_TICK;
use std::alloc::Global;
use ua_binary::{BinaryFault, or_undone, put_block, put_u8, put_u32};

/// The most records of a batch.
const MOST: usize = 1000;

/// The most bytes of a frame.
const LONGEST_FRAME: usize = 2_097_152;

fn put_vector(out: &mut Vec<u8>, title: &Title) -> Result<(), BinaryFault>
    ensures { Puts BinaryFault.OutOfMemory result out.old.items out.new.items
        (vector.canon title.now.vector) }
{
    match title.vector.put(out) {
        Ok(()) => Ok(()),
        Err(_) => Err(BinaryFault::OutOfMemory),
    }
}

#[tactic(auto, using(ua_binary::proofs::Kept::kept), unfolding(crate::specs::Frames::title))]
fn put_title(out: &mut Vec<u8>, v: &Title) -> Result<(), BinaryFault>
    ensures { PutsPart BinaryFault.OutOfMemory result out.old.items out.new.items
        (title.canon v.now) }
{
    put_u8(out, 2)?;
    put_block(out, v.id.as_bytes())?;
    put_u8(out, v.sender.get())?;
    put_vector(out, v)?;
    Ok(())
}

/// How many bytes a record takes.
#[tactic(auto, using(crate::proofs::FrameLemmas::record_few))]
fn size_of(v: &Record) -> u32
    requires { IsRecord v.now }
    ensures { result ≡ length (record_form.canon v.now) }
{
    v.encoded_size() as u32
}

/// A record behind its length.
#[tactic(auto, using(ua_binary::proofs::Kept::kept), unfolding(crate::specs::Frames::length_prefixed_record))]
fn put_framed_parts(out: &mut Vec<u8>, v: &Record) -> Result<(), BinaryFault>
    requires { IsRecord v.now }
    ensures { PutsPart BinaryFault.OutOfMemory result out.old.items out.new.items
        (length_prefixed_record.canon v.now) }
{
    put_u32(out, size_of(v))?;
    match put_record(out, v) {
        Ok(()) => Ok(()),
        Err(_) => Err(BinaryFault::OutOfMemory),
    }
}

fn put_framed(out: &mut Vec<u8>, v: &Record) -> Result<(), BinaryFault>
    requires { IsRecord v.now }
    ensures { Puts BinaryFault.OutOfMemory result out.old.items out.new.items
        (length_prefixed_record.canon v.now) }
{
    let len = out.len();
    let put = put_framed_parts(out, v);
    or_undone(put, out, len)
}

#[tactic(auto, using(ua_binary::proofs::Kept::kept))]
fn put_records(out: &mut Vec<u8>, records: &[Record]) -> Result<(), BinaryFault>
    requires { All IsRecord records.now }
    ensures { PutsPart BinaryFault.OutOfMemory result out.old.items out.new.items
        (flat_map length_prefixed_record.canon records.now) }
{
    for held in records {
        put_framed(out, held)?;
    }
    Ok(())
}

#[tactic(auto, using(ua_binary::proofs::Kept::kept))]
fn put_body(out: &mut Vec<u8>, message: &Message) -> Result<(), BinaryFault>
    requires { HasFrame message.now }
    ensures { PutsPart BinaryFault.OutOfMemory result out.old.items out.new.items
        (frame_body_of message.now) }
{
    match message {
        Message::Asks(title) => put_title(out, title),
        Message::Carries(title, records) => {
            put_title(out, title)?;
            put_u32(out, records.len() as u32)?;
            put_records(out, records.as_slice())
        }
        Message::Ends(code) => put_u32(out, *code),
    }
}

fn letters_of(message: &Message) -> &'static [u8]
    ensures { result.now ≡ frame_letters (kind_of message.now) }
{
    match message {
        Message::Asks(_) => b"RXVF",
        Message::Carries(..) => b"RXDF",
        Message::Ends(_) => b"RXEF",
    }
}

#[tactic(auto, using(ua_binary::proofs::Kept::kept))]
fn put_parts(out: &mut Vec<u8>, message: &Message, body: &[u8]) -> Result<(), BinaryFault>
    requires body { body.now ≡ frame_body_of message.now }
    requires short { length body.now + 8 ≤ longest_frame }
    ensures { PutsPart BinaryFault.OutOfMemory result out.old.items out.new.items
        (frame_of message.now) }
{
    put_block(out, letters_of(message))?;
    put_u32(out, body.len() as u32 + 8)?;
    put_block(out, body)?;
    Ok(())
}

/// Writes a message's frame. Its one error is `OutOfMemory`, and then the vector is as it was.
#[tactic(auto, using(crate::proofs::FrameLemmas::body_short))]
pub fn put_message(alloc: Global, out: &mut Vec<u8>, message: &Message) -> Result<(), ExchangeFault>
    requires { HasFrame message.now }
    ensures { Puts fault.OutOfMemory result out.old.items out.new.items (frame_of message.now) }
{
    let mut body = Vec::new(alloc);
    if put_body(&mut body, message).is_err() {
        return Err(ExchangeFault::OutOfMemory);
    }
    let len = out.len();
    let put = put_parts(out, message, &body);
    match or_undone(put, out, len) {
        Ok(()) => Ok(()),
        Err(_) => Err(ExchangeFault::OutOfMemory),
    }
}

fn is_record(v: &Record) -> bool
    ensures { IsTrue result ↔ IsRecord v.now }
{
    v.is_lawful() && v.tick >= 1 && v.tick <= GREATEST_TICK
}

/// Whether records have spellings, and come with their lengths to at most so many bytes.
fn are_spelled(room: usize, records: &[Record]) -> bool
    requires { room ≤ longest_frame }
    ensures { IsTrue result
        → (AllByRecursion IsRecord records.now × (records_length records.now ≤ room)) }
{
    let mut left = room;
    for held in records {
        let size = held.encoded_size().saturating_add(4);
        if size > left || !is_record(held) {
            return false;
        }
        left -= size;
    }
    true
}

/// Whether records have a frame behind this title.
#[tactic(auto, using(crate::proofs::FrameLemmas::frame_short))]
pub(crate) fn is_spelled(
    alloc: Global,
    title: &Title,
    records: &[Record],
) -> Result<bool, ExchangeFault>
    requires { IsTitle title.now }
    ensures err { IfErr result (λ e. e ≡ fault.OutOfMemory) }
    ensures ok { IfOk result
        (λ b. IsTrue b
        → (AllByRecursion IsRecord records.now × (length records.now ≤ 1000)
        × (frame_length title.now.vector records.now ≤ longest_frame))) }
{
    let mut own = Vec::new(alloc);
    if put_title(&mut own, title).is_err() {
        return Err(ExchangeFault::OutOfMemory);
    }
    if records.len() > MOST {
        return Ok(false);
    }
    let room = LONGEST_FRAME.saturating_sub(own.len() + 12);
    Ok(are_spelled(room, records))
}
