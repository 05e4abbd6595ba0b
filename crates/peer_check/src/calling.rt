//! A comparison with a peer that is called.

ghost use Rattle.std.specs.Prelude.{◌≡◌, ◌≤◌, ℕ, false, None, Ok, IfOk, IfSome, IsErrOf, OnOk, OnErr};
ghost use Rattle.std.specs.Io.KnownBytes.{Appends};
ghost use Rattle.std.specs.List.{AllByRecursion};
ghost use Rattle.stamp.specs.Limits.{IsReplica, greatest};
ghost use Rattle.stamp.specs.Numbers.{number_of};
ghost use Rattle.records.specs.Contents.{vec};
ghost use Rattle.records.specs.Spelling.{IsLawfulRecord};
ghost use Rattle.archive.specs.Store.{IsAskedWithin};
ghost use Rattle.counted_io.specs.Bytes.{AppendsPart, CountsWhere};
ghost use Rattle.exchange.specs.Batches.{AsksFor};
ghost use Rattle.exchange.specs.Dialogs.{party_of};
ghost use Rattle.exchange.specs.Frames.{frame_header, IsLearnable};
ghost use Rattle.peer_check.specs.Comparing.{asking, before_shared, number_behind, AsksBehind, SaysFirst, Hears, HearsFrom, AsksOnly, AsksAlone, ComparesWith};

use crate::comparing::{Clash, Extent, find_clash};
use archive::Archive;
use counted_io::{Counted, ServeFault};
use exchange::{
    ExchangeFault, Frames, Message, Party, Replica, put_message, read_message, title_of,
};
use records::Record;
use stamp::{GREATEST_NUMBER, ReplicaNo, Vector};
use std::alloc::Global;
use std::io::{Read, Write};
use ua_binary::Listing;
use ua_peers::SyncFault;

/// The bytes that one read asks for.
const PIECE: usize = 65536;

/// One more than the greatest number of a replica.
pub(crate) const BEHIND_REPLICAS: u8 = 65;

/// How many questions are asked at most, behind the first: of last records some of each replica come once, and then none.
fn most_questions(extent: Extent) -> u64 {
    match extent {
        Extent::Last => 65,
        Extent::All => 1_000_000,
    }
}

/// The number behind which the records of a replica stand that are compared: one less than the last one that both hold, or 0 where all
/// are compared; the greatest where they share none.
fn before_shared(extent: Extent, ours: u64, theirs: u64) -> u64
    ensures is { result ≡ before_shared extent ours theirs }
    ensures greatest { ours ≤ greatest → result ≤ greatest }
{
    let shared = ours.min(theirs);
    if shared == 0 {
        return GREATEST_NUMBER;
    }
    match extent {
        Extent::Last => shared - 1,
        Extent::All => 0,
    }
}

/// The numbers behind which the records stand that are compared, and what comes behind these.
fn vector_before_shared(extent: Extent, ours: &Vector, theirs: &Vector) -> Vector
    ensures { (replica : ℕ) → IsReplica replica
        → number_of result replica
        ≡ before_shared extent (number_of ours.now replica) (number_of theirs.now replica) }
{
    let mut numbers = Vector::new();
    for n in 1..BEHIND_REPLICAS {
        if let Some(replica) = ReplicaNo::new(n) {
            let number = before_shared(extent, ours.get(replica), theirs.get(replica));
            numbers.raise(replica, number);
        }
    }
    numbers
}

/// The numbers that an archive holds.
fn own_numbers<A: Archive>(archive: &mut A) -> Result<Vector, ExchangeFault>
    ensures asks { AsksFor (A.state archive.old) (A.state archive.new) result
        (λ ours. (replica : ℕ)
        → number_of ours replica ≡ vec (A.state archive.old).content replica) }
    ensures asked { IsAskedWithin 0 (A.asked archive.old) (A.asked archive.new) }
{
    let ours = archive.vector()?;
    Ok(ours)
}

/// The number behind which more of a replica is asked for once its record of this one came: it, where all are compared and more are
/// held; else the greatest.
fn number_behind(extent: Extent, held: u64, number: u64) -> u64
    ensures is { result ≡ number_behind extent held number }
    ensures greatest { held ≤ greatest → result ≤ greatest }
{
    match extent {
        Extent::All if number < held => number,
        _ => GREATEST_NUMBER,
    }
}

/// Raises numbers so that the next question goes on behind these records, for who holds those of ours.
fn go_behind(numbers: &mut Vector, extent: Extent, ours: &Vector, brought: &[Record])
    ensures { AsksBehind extent ours.now numbers.old brought.now numbers.new }
{
    for record in brought {
        let number = number_behind(extent, ours.get(record.origin), record.number);
        numbers.raise(record.origin, number);
    }
}

/// Asks a peer for the records behind these numbers.
fn ask<A: Archive, W: Write>(
    alloc: Global,
    archive: &A,
    numbers: &Vector,
    writer: &mut Counted<W>,
) -> Result<(), SyncFault>
    ensures sent { OnOk result (Appends (W.contents writer.old.inner) (W.contents writer.new.inner)
        (asking (party_of (A.state archive.now)) numbers.now)) }
    ensures part { OnErr result (AppendsPart (W.contents writer.old.inner)
        (W.contents writer.new.inner) (asking (party_of (A.state archive.now)) numbers.now)) }
    ensures reads { IsErrOf result (SyncFault.Connection ServeFault.Read) → ⊥ }
    ensures writes { CountsWhere (IsErrOf result (SyncFault.Connection ServeFault.Write))
        writer.old.faults writer.new.faults }
{
    let mut out = Vec::new(alloc);
    put_message(alloc, &mut out, &Message::Asks(title_of(archive, *numbers)))?;
    writer.send(out.as_slice())?;
    Ok(())
}

/// What the frame that stands first says to a party, if it is whole.
fn first_message(
    alloc: Global,
    party: &Party,
    frames: &mut Frames,
) -> Option<Result<Message, ExchangeFault>>
    requires { frames.old.failed ≡ false }
    ensures none { result ≡ None
        → (frames.new ≡ frames.old) × (frame_header frames.old.waiting ≡ Ok None) }
    ensures first { IfSome result (λ told. IfOk told
        (SaysFirst party.now frames.old.waiting frames.new.waiting)) }
    ensures sound { IfSome result (λ told. IfOk told (λ message. frames.new.failed ≡ false)) }
    ensures lawful { IfSome result (λ told. IfOk told IsLearnable) }
{
    match frames.next_frame() {
        Ok(None) => None,
        Ok(Some(frame)) => Some(read_message(alloc, party, frame.kind, frame.body)),
        Err(fault) => Some(Err(fault)),
    }
}

/// What the next frame of a peer says to a party. It waits until one is whole.
fn next_message<R: Read>(
    alloc: Global,
    party: &Party,
    frames: &mut Frames,
    reader: &mut Counted<R>,
) -> Result<Message, SyncFault>
    requires { frames.old.failed ≡ false }
    ensures hears { IfOk result (Hears party.now frames.old.waiting frames.new.waiting
        (R.remaining reader.old.inner) (R.remaining reader.new.inner)) }
    ensures lawful { IfOk result IsLearnable }
    ensures sound { IfOk result (λ told. frames.new.failed ≡ false) }
    ensures reads { CountsWhere (IsErrOf result (SyncFault.Connection ServeFault.Read))
        reader.old.faults reader.new.faults }
    ensures writes { IsErrOf result (SyncFault.Connection ServeFault.Write) → ⊥ }
{
    let mut piece = [0u8; PIECE];
    'reads: loop {
        match first_message(alloc, party, frames) {
            None => {}
            Some(told) => return Ok(told?),
        }
        let n = reader.read_piece(&mut piece)?;
        if n == 0 {
            return Err(SyncFault::Exchange(ExchangeFault::Frame));
        }
        frames.feed(&piece[..n])?;
    }
}

/// What the next frame of a peer carries: the numbers that it holds, and records. An end of the dialog is `Peer` with its number,
/// and a question `Frame`.
fn next_carried<R: Read>(
    alloc: Global,
    party: &Party,
    frames: &mut Frames,
    reader: &mut Counted<R>,
) -> Result<(Vector, Listing<Record>), SyncFault>
    requires { frames.old.failed ≡ false }
    ensures hears { IfOk result (λ carried. HearsFrom party.now carried.0 frames.old.waiting
        frames.new.waiting (R.remaining reader.old.inner) (R.remaining reader.new.inner) carried.1) }
    ensures lawful { IfOk result (λ carried. AllByRecursion IsLawfulRecord carried.1) }
    ensures sound { IfOk result (λ carried. frames.new.failed ≡ false) }
    ensures reads { CountsWhere (IsErrOf result (SyncFault.Connection ServeFault.Read))
        reader.old.faults reader.new.faults }
    ensures writes { IsErrOf result (SyncFault.Connection ServeFault.Write) → ⊥ }
{
    match next_message(alloc, party, frames, reader)? {
        Message::Carries(title, records) => Ok((title.vector, records)),
        Message::Ends(code) => Err(SyncFault::Peer(code)),
        Message::Asks(_) => Err(SyncFault::Exchange(ExchangeFault::Frame)),
    }
}

/// Who asks.
pub(crate) fn party_of<A: Archive>(archive: &A) -> Party
    ensures { result ≡ party_of (A.state archive.now) }
{
    Party {
        id: archive.id(),
        own: archive.number(),
    }
}

/// Compares the last record that both hold of each replica, or all that both hold. A question that lacks nothing is asked first, and
/// its answer tells the numbers that the peer holds; records that come with it aren't looked at. The next one asks, of each
/// replica of which both hold some, for what comes from the last record on that both hold, or from the first one on; and each
/// other one goes on behind what came: for replicas of which no record came yet, or behind the last one that came where all are
/// compared and more are held, until none comes. The first record that isn't equal to the one that is held by its name is told,
/// with that one; none where all are, or no name is held. What is held stays, and nothing of it goes out but how far it goes. A
/// dialog may follow on the connection, as its initiator; what the peer sent unasked behind its last answer is lost to it.
///
/// Errors: `Connection` with `Read` or `Write` where a call of the reader or the writer failed; `Exchange` with `Frame` where
/// what came is no frame that carries records, or the input was over before, with `TooLong` where records came for each of 65
/// questions for last records, or of a million for all, with `WrongArchive`, `SelfPeer` and `PeerFormat` by whom it is from, with `Store` where the store met a fault, and with
/// `OutOfMemory`; `Peer` with the number by which the peer ended it. Nothing tells the peer of them.
pub fn compare<R: Read, W: Write, A: Archive>(
    alloc: Global,
    replica: &mut Replica<A>,
    extent: Extent,
    reader: &mut Counted<R>,
    writer: &mut Counted<W>,
) -> Result<Option<Clash>, SyncFault>
    ensures compares { IfOk result (ComparesWith extent (A.state replica.old.archive)
        (A.state replica.new.archive) (R.remaining reader.old.inner) (R.remaining reader.new.inner)
        (W.contents writer.old.inner) (W.contents writer.new.inner)) }
    ensures asks { AsksAlone (A.state replica.old.archive) (A.state replica.new.archive) result }
    ensures says { AsksOnly (party_of (A.state replica.old.archive))
        (W.contents writer.old.inner) (W.contents writer.new.inner) }
    ensures reads { CountsWhere (IsErrOf result (SyncFault.Connection ServeFault.Read))
        reader.old.faults reader.new.faults }
    ensures writes { CountsWhere (IsErrOf result (SyncFault.Connection ServeFault.Write))
        writer.old.faults writer.new.faults }
    ensures asked { IsAskedWithin 1 (A.asked replica.old.archive) (A.asked replica.new.archive) }
{
    let ours = own_numbers(&mut replica.archive)?;
    let party = party_of(&replica.archive);
    let nothing = Vector::new();
    let all = vector_before_shared(extent, &nothing, &nothing);
    let mut frames = Frames::new(alloc);
    ask(alloc, &replica.archive, &all, writer)?;
    let (theirs, _first) = next_carried(alloc, &party, &mut frames, reader)?;
    let mut numbers = vector_before_shared(extent, &ours, &theirs);
    for _ in 0..most_questions(extent) {
        ask(alloc, &replica.archive, &numbers, writer)?;
        let (_, brought) = next_carried(alloc, &party, &mut frames, reader)?;
        let clash = find_clash(alloc, &mut replica.archive, brought.as_slice())?;
        if clash.is_some() || brought.is_empty() {
            return Ok(clash);
        }
        go_behind(&mut numbers, extent, &ours, brought.as_slice());
    }
    Err(SyncFault::Exchange(ExchangeFault::TooLong))
}
