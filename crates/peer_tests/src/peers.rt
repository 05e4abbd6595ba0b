//! Dialogs of replicas, of either end.

ghost use Rattle.std.specs.Prelude.{IsTrue};
ghost use Rattle.records.specs.Spelling.{IsLawfulRecord};

use archive::{Archive, ListArchive, StoreFault};
use exchange::{ExchangeFault, Replica};
use records::{HistoryUpdateType, Moment, Record};
use server_rows::ends::{Narrow, Slow};
use stamp::{ReplicaNo, Vector};
use std::alloc::Global;
use std::io::{Read, Write};
use std::test::Fail;
use ua_binary::{NodeId, Text};
use ua_server::{Counted, PeerEnded, ServeFault, SyncFault, Synced, serve_peer, sync};
use ua_variant::{DataValue, Scalar, Variant};
use uuid::Uuid;

/// The first frame of replica 2, which holds nothing.
const ASKED: &[u8] = b"RXVF\x1b\0\0\0\x02\0\0\0\0\0\0\0\0\0\0\0\0\0\0\0\0\x02\0";

/// The same frame as if of replica 1.
const ASKED_ITSELF: &[u8] = b"RXVF\x1b\0\0\0\x02\0\0\0\0\0\0\0\0\0\0\0\0\0\0\0\0\x01\0";

/// The same frame in an older format.
const ASKED_BY_AN_OLDER: &[u8] = b"RXVF\x1b\0\0\0\x01\0\0\0\0\0\0\0\0\0\0\0\0\0\0\0\0\x02\0";

/// What replica 1 answers, which holds nothing either.
const NOTHING: &[u8] = b"RXDF\x1f\0\0\0\x02\0\0\0\0\0\0\0\0\0\0\0\0\0\0\0\0\x01\0\0\0\0\0";

const END: &[u8] = b"RXEF\x0c\0\0\0\0\0\0\0";

const BROKEN_OFF: &[u8] = b"RXEF\x0c\0\0\0\x07\0\0\0";

const NO_FRAME: &[u8] = b"RXVF\x0b\0\0\0";

const HEAD: &[u8] = b"RX";

/// A frame that is one byte too short for its vector.
const SHORT: &[u8] = b"RXVF\x1a\0\0\0\x02\0\0\0\0\0\0\0\0\0\0\0\0\0\0\0\0\x02";

/// Records, 1,001 of them by their count, and one by its length longer than the frame.
const TOO_MANY: &[u8] = b"RXDF\x1f\0\0\0\x02\0\0\0\0\0\0\0\0\0\0\0\0\0\0\0\0\x02\0\xe9\x03\0\0";

const TOO_LONG: &[u8] =
    b"RXDF\x23\0\0\0\x02\0\0\0\0\0\0\0\0\0\0\0\0\0\0\0\0\x02\0\x01\0\0\0\x64\0\0\0";

const ILL: &[u8] = b"RXEF\x0c\0\0\0\x01\0\0\0";

const SELF_PEER: &[u8] = b"RXEF\x0c\0\0\0\x05\0\0\0";

const PEER_FORMAT: &[u8] = b"RXEF\x0c\0\0\0\x08\0\0\0";

/// What a peer sends to replica 1 in pieces, what it is answered, and how that ends.
static DIALOGS: [(&[&[u8]], &[&[u8]], PeerEnded); 12] = [
    (&[], &[], PeerEnded::EndOfInput),
    (&[ASKED], &[NOTHING], PeerEnded::EndOfInput),
    (&[ASKED, ASKED], &[NOTHING, NOTHING], PeerEnded::EndOfInput),
    (&[ASKED, END, ASKED], &[NOTHING], PeerEnded::Done),
    (
        &[ASKED, BROKEN_OFF, ASKED],
        &[NOTHING],
        PeerEnded::Refused(7),
    ),
    (
        &[ASKED_ITSELF, ASKED],
        &[SELF_PEER],
        PeerEnded::Failed(ExchangeFault::SelfPeer),
    ),
    (
        &[ASKED_BY_AN_OLDER, ASKED],
        &[PEER_FORMAT],
        PeerEnded::Failed(ExchangeFault::PeerFormat),
    ),
    (
        &[ASKED, NO_FRAME, ASKED],
        &[NOTHING, ILL],
        PeerEnded::Failed(ExchangeFault::Frame),
    ),
    (
        &[SHORT, ASKED],
        &[ILL],
        PeerEnded::Failed(ExchangeFault::Frame),
    ),
    (
        &[TOO_MANY, ASKED],
        &[ILL],
        PeerEnded::Failed(ExchangeFault::Frame),
    ),
    (
        &[TOO_LONG, ASKED],
        &[ILL],
        PeerEnded::Failed(ExchangeFault::Frame),
    ),
    (&[ASKED, HEAD], &[NOTHING], PeerEnded::EndOfInput),
];

pub(crate) fn replica(alloc: Global, number: u8) -> Result<Replica<ListArchive>, StoreFault> {
    match ReplicaNo::new(number) {
        Some(number) => Ok(Replica::new(ListArchive::new(alloc, Uuid::nil(), number))),
        None => Err(StoreFault::WrongReplica),
    }
}

fn joined(alloc: Global, parts: &[&[u8]]) -> Result<Vec<u8>, Fail> {
    let mut bytes = Vec::new(alloc);
    for part in parts {
        bytes.extend_from_slice(part)?;
    }
    Ok(bytes)
}

/// How a dialog ends, and how many calls of its reader and of its writer failed.
type Ended = (Result<PeerEnded, ServeFault>, u64, u64);

/// How a replica's dialog with a peer ends.
fn ended<A: Archive, R: Read, W: Write>(
    alloc: Global,
    replica: &mut Replica<A>,
    reader: &mut Counted<R>,
    writer: &mut Counted<W>,
) -> Ended {
    let result = serve_peer(alloc, replica, reader, writer);
    (result, reader.faults(), writer.faults())
}

/// How a replica's dialog with a peer ends that sends this, and what it writes.
fn dialog<A: Archive, R: Read + Drop>(
    alloc: Global,
    replica: &mut Replica<A>,
    sent: R,
) -> (Ended, Vec<u8>) {
    let mut reader = Counted::new(sent);
    let mut writer = Counted::new(Vec::new(alloc));
    let end = ended(alloc, replica, &mut reader, &mut writer);
    (end, writer.into_inner())
}

/// Replica 1 answers a peer so, whose bytes come in pieces of this size.
fn is_answered(
    alloc: Global,
    bytes: &[u8],
    size: usize,
    want: &[u8],
    parted: PeerEnded,
) -> Result<bool, Fail> {
    let slow = Slow {
        bytes,
        size,
        fails: false,
    };
    let mut one = replica(alloc, 1)?;
    let (end, wrote) = dialog(alloc, &mut one, slow);
    Ok(end == (Ok(parted), 0, 0) && wrote.as_slice() == want)
}

/// The first size of pieces in which these bytes are answered otherwise.
fn first_other_size(
    alloc: Global,
    bytes: &[u8],
    want: &[u8],
    parted: PeerEnded,
) -> Result<Option<usize>, Fail> {
    for size in [1, 5, 100] {
        if !is_answered(alloc, bytes, size, want, parted)? {
            return Ok(Some(size));
        }
    }
    Ok(None)
}

/// The same of bytes in parts.
fn first_other_size_of(
    alloc: Global,
    came: &[&[u8]],
    answers: &[&[u8]],
    parted: PeerEnded,
) -> Result<Option<usize>, Fail> {
    let bytes = joined(alloc, came)?;
    let want = joined(alloc, answers)?;
    first_other_size(alloc, bytes.as_slice(), want.as_slice(), parted)
}

#[test]
fn answers_peers(rt: HostRuntime) -> Result<(), Fail> {
    for (came, answers, parted) in &DIALOGS {
        assert_eq!(rt;
            first_other_size_of(rt.alloc(), came, answers, *parted)?,
            None,
            "{parted:?}, in pieces"
        );
    }
    Ok(())
}

/// A peer that asks so many times for what it lacks.
fn asked_often(alloc: Global, count: u32) -> Result<Vec<u8>, Fail> {
    let mut bytes = Vec::new(alloc);
    for _ in 0..count {
        bytes.extend_from_slice(ASKED)?;
    }
    Ok(bytes)
}

const TOO_MANY_FRAMES: &[u8] = b"RXEF\x0c\0\0\0\x07\0\0\0";

/// Whether a dialog with one that asks so many times ends so, and the peer is told this at last.
fn is_bounded(alloc: Global, count: u32, parted: PeerEnded, last: &[u8]) -> Result<bool, Fail> {
    let bytes = asked_often(alloc, count)?;
    let mut one = replica(alloc, 1)?;
    let (end, wrote) = dialog(alloc, &mut one, bytes.as_slice());
    Ok(end == (Ok(parted), 0, 0) && wrote.as_slice().ends_with(last))
}

/// An end takes 1,000,000 frames; the next one ends the dialog, and the peer is told.
#[test]
fn bounds_a_dialog(rt: HostRuntime) -> Result<(), Fail> {
    for (count, parted, last) in [
        (1_000_000, PeerEnded::EndOfInput, NOTHING),
        (
            1_000_001,
            PeerEnded::Failed(ExchangeFault::TooLong),
            TOO_MANY_FRAMES,
        ),
    ] {
        assert!(rt; is_bounded(rt.alloc(), count, parted, last)?, "{count}");
    }
    Ok(())
}

fn is_lawful(held: &Record) -> bool
    ensures { IsTrue result → IsLawfulRecord held.now }
{
    held.is_lawful()
}

/// An archive learns a record, where that is lawful.
pub(crate) fn learn<A: Archive>(archive: &mut A, record: &Record) -> Result<(), Fail> {
    if is_lawful(record) {
        archive.learn(record)?;
    }
    Ok(())
}

/// An insert of this value at a node of namespace 1 and source time 10, by a user; the record has this origin, number and
/// tick.
pub(crate) fn insert_of(
    stamp: (ReplicaNo, u64, i64),
    node: Text,
    user: Text,
    written: Scalar,
) -> Record {
    let (origin, number, tick) = stamp;
    Record {
        origin,
        number,
        tick,
        node: NodeId::Named(1, node),
        time: Moment::at(10),
        asked: HistoryUpdateType::Insert,
        user,
        value: DataValue {
            value: Some(Variant::Scalar(written)),
            status: None,
            source_time: None,
            source_pico: None,
            server_time: None,
            server_pico: None,
        },
    }
}

/// An archive learns a first record of its own, an insert at node `ns=1;s=T`.
fn fill<A: Archive>(alloc: Global, archive: &mut A) -> Result<(), Fail> {
    let stamp = (archive.number(), 1, 100);
    let node = Text::from_str(alloc, "T")?;
    let user = Text::from_str(alloc, "ann")?;
    let record = insert_of(stamp, node, user, Scalar::Int32(7));
    learn(archive, &record)
}

/// A replica with that record.
pub(crate) fn filled_replica(alloc: Global, number: u8) -> Result<Replica<ListArchive>, Fail> {
    let mut held = replica(alloc, number)?;
    fill(alloc, &mut held.archive)?;
    Ok(held)
}

/// What replica 1 writes that calls a peer which sent these bytes, and how that ends.
pub(crate) fn called<A: Archive>(
    alloc: Global,
    one: &mut Replica<A>,
    bytes: &[u8],
) -> (Vec<u8>, Result<Synced, SyncFault>) {
    let mut reader = Counted::new(bytes);
    let mut writer = Counted::new(Vec::new(alloc));
    let result = sync(alloc, one, &mut reader, &mut writer);
    (writer.into_inner(), result)
}

/// How many records replica 1 tells that calls a peer which sent these bytes.
fn moved<A: Archive>(
    alloc: Global,
    one: &mut Replica<A>,
    bytes: &[u8],
) -> Result<Synced, SyncFault> {
    let (_, result) = called(alloc, one, bytes);
    result
}

/// What replica 2 writes to a peer which sent these bytes.
pub(crate) fn answered<A: Archive>(alloc: Global, two: &mut Replica<A>, bytes: &[u8]) -> Vec<u8> {
    let (_, wrote) = dialog(alloc, two, bytes);
    wrote
}

/// The letters of the frames in some bytes, one after the other.
fn letters(alloc: Global, bytes: &[u8]) -> Result<Vec<u8>, Fail> {
    let mut letters = Vec::new(alloc);
    let mut rest = bytes;
    for _ in 0..bytes.len() {
        if rest.len() < 8 {
            break;
        }
        letters.push(rest[2])?;
        let size = u32::from_le_bytes([rest[4], rest[5], rest[6], rest[7]]) as usize;
        rest = rest.get(size..).ok_or("a frame")?;
    }
    Ok(letters)
}

/// What a replica answers to the frames that another one writes where these bytes come back, and how the call ends.
fn round<A: Archive>(
    alloc: Global,
    one: &mut Replica<A>,
    two: &mut Replica<A>,
    back: &[u8],
) -> (Vec<u8>, Result<Synced, SyncFault>) {
    let (there, result) = called(alloc, one, back);
    (answered(alloc, two, there.as_slice()), result)
}

/// The same of replicas 1 and 2, each with a record of its own.
fn round_of_two(alloc: Global, back: &[u8]) -> Result<(Vec<u8>, Result<Synced, SyncFault>), Fail> {
    let mut two = filled_replica(alloc, 2)?;
    let mut one = filled_replica(alloc, 1)?;
    Ok(round(alloc, &mut one, &mut two, back))
}

/// What comes back next, where the call goes on.
fn next_back(alloc: Global, back: &[u8]) -> Result<Vec<u8>, Fail> {
    let (answer, result) = round_of_two(alloc, back)?;
    if result == Err(SyncFault::Exchange(ExchangeFault::Frame)) {
        Ok(answer)
    } else {
        Err(Fail::from("a call that goes on"))
    }
}

/// What comes back to replica 1 in the whole dialog: each answers what the other one wrote before.
fn brought_back(alloc: Global) -> Result<Vec<u8>, Fail> {
    let mut back = Vec::new(alloc);
    for _ in 0..3 {
        back = next_back(alloc, back.as_slice())?;
    }
    Ok(back)
}

/// Whether the frames there and back are those of a whole dialog.
fn is_whole(alloc: Global, there: &[u8], back: &[u8]) -> Result<bool, Fail> {
    let there = letters(alloc, there)?.as_slice() == b"VVDE".as_slice();
    Ok(there && letters(alloc, back)?.as_slice() == b"DDV".as_slice())
}

/// Whether replica 1 learns one record and sends one where these bytes come back; and where they come once more the record in
/// them is held already.
fn moves_one<A: Archive>(alloc: Global, one: &mut Replica<A>, back: &[u8]) -> Result<bool, Fail> {
    let (there, result) = called(alloc, one, back);
    let whole = is_whole(alloc, there.as_slice(), back)?;
    let once = result
        == Ok(Synced {
            learned: 1,
            sent: 1,
        });
    let again = moved(alloc, one, back)
        == Ok(Synced {
            learned: 0,
            sent: 1,
        });
    Ok(whole && once && again)
}

/// How many records an archive holds, at most 99.
fn held_by<A: Archive>(alloc: Global, archive: &mut A) -> Result<usize, Fail> {
    let held = archive.since(alloc, &Vector::new(), 99)?;
    Ok(held.len())
}

/// Whether one record is moved each way where these bytes come back, and how many replica 1 holds behind that.
fn meets<A: Archive>(
    alloc: Global,
    one: &mut Replica<A>,
    back: &[u8],
) -> Result<(bool, usize), Fail> {
    let moves = moves_one(alloc, one, back)?;
    let held = held_by(alloc, &mut one.archive)?;
    Ok((moves, held))
}

/// The same in the whole dialog.
fn met(alloc: Global) -> Result<(bool, usize), Fail> {
    let back = brought_back(alloc)?;
    let mut one = filled_replica(alloc, 1)?;
    meets(alloc, &mut one, back.as_slice())
}

/// Two replicas, each with a record of its own, meet.
#[test]
fn replicas_meet(rt: HostRuntime) -> Result<(), Fail> {
    assert_eq!(rt; met(rt.alloc())?, (true, 2));
    Ok(())
}

/// What replica 1 writes in that dialog where these bytes come back.
fn brought_there(alloc: Global, back: &[u8]) -> Result<Vec<u8>, Fail> {
    let mut one = filled_replica(alloc, 1)?;
    let (there, _) = called(alloc, &mut one, back);
    Ok(there)
}

/// What replica 1 writes in the whole dialog, and what comes back.
fn whole_dialog(alloc: Global) -> Result<(Vec<u8>, Vec<u8>), Fail> {
    let back = brought_back(alloc)?;
    let there = brought_there(alloc, back.as_slice())?;
    Ok((there, back))
}

/// How a replica's dialog with a peer ends that sent these bytes and takes so many, and which it takes.
fn narrow_dialog<A: Archive>(
    alloc: Global,
    replica: &mut Replica<A>,
    bytes: &[u8],
    room: usize,
) -> (Ended, Vec<u8>) {
    let mut reader = Counted::new(bytes);
    let mut writer = Counted::new(Narrow {
        bytes: Vec::new(alloc),
        room,
    });
    let end = ended(alloc, replica, &mut reader, &mut writer);
    (end, writer.into_inner().bytes)
}

/// A writer that takes so many bytes has just these of what replica 2 answers.
fn is_written(alloc: Global, bytes: &[u8], room: usize, want: &[u8]) -> Result<bool, Fail> {
    let ending: Ended = if room < want.len() {
        (Err(ServeFault::Write), 0, 1)
    } else {
        (Ok(PeerEnded::Done), 0, 0)
    };
    let mut two = filled_replica(alloc, 2)?;
    let (end, wrote) = narrow_dialog(alloc, &mut two, bytes, room);
    Ok(end == ending && Some(wrote.as_slice()) == want.get(..room.min(want.len())))
}

/// The first room in which a writer has other bytes.
fn first_other_room(alloc: Global, there: &[u8], back: &[u8]) -> Result<Option<usize>, Fail> {
    for room in 0..=back.len() {
        if !is_written(alloc, there, room, back)? {
            return Ok(Some(room));
        }
    }
    Ok(None)
}

/// A reader that fails behind these bytes is told, and a first part of the answer is out.
fn is_read(alloc: Global, bytes: &[u8], want: &[u8]) -> Result<bool, Fail> {
    let slow = Slow {
        bytes,
        size: 4,
        fails: true,
    };
    let mut two = filled_replica(alloc, 2)?;
    let (end, wrote) = dialog(alloc, &mut two, slow);
    Ok(end == (Err(ServeFault::Read), 1, 0) && want.starts_with(wrote.as_slice()))
}

/// The first count of bytes behind which a reader's fault is answered otherwise.
fn first_other_front(alloc: Global, there: &[u8], back: &[u8]) -> Result<Option<usize>, Fail> {
    for count in 0..there.len() {
        if !is_read(alloc, &there[..count], back)? {
            return Ok(Some(count));
        }
    }
    Ok(None)
}

/// How many bytes come back in the whole dialog, and the first room in which a writer has others.
fn written(alloc: Global) -> Result<(usize, Option<usize>), Fail> {
    let (there, back) = whole_dialog(alloc)?;
    let other = first_other_room(alloc, there.as_slice(), back.as_slice())?;
    Ok((back.len(), other))
}

#[test]
fn peers_are_answered_as_far_as_the_writer_goes(rt: HostRuntime) -> Result<(), Fail> {
    let (size, other) = written(rt.alloc())?;
    assert!(rt; size > 62);
    assert_eq!(rt; other, None);
    Ok(())
}

/// The first count of bytes of the whole dialog behind which a reader's fault is answered otherwise.
fn first_other_read(alloc: Global) -> Result<Option<usize>, Fail> {
    let (there, back) = whole_dialog(alloc)?;
    first_other_front(alloc, there.as_slice(), back.as_slice())
}

#[test]
fn peers_are_answered_as_far_as_the_reader_goes(rt: HostRuntime) -> Result<(), Fail> {
    assert_eq!(rt; first_other_read(rt.alloc())?, None);
    Ok(())
}

/// What a called peer sends, and how the dialog ends.
static CALLS: [(&[&[u8]], SyncFault); 4] = [
    (&[], SyncFault::Exchange(ExchangeFault::Frame)),
    (&[BROKEN_OFF], SyncFault::Peer(7)),
    (&[END], SyncFault::Exchange(ExchangeFault::Frame)),
    (&[NO_FRAME], SyncFault::Exchange(ExchangeFault::Frame)),
];

/// How replica 1's call of a peer ends that sent this.
fn ended_call(alloc: Global, came: &[&[u8]]) -> Result<Result<Synced, SyncFault>, Fail> {
    let bytes = joined(alloc, came)?;
    let mut one = replica(alloc, 1)?;
    Ok(moved(alloc, &mut one, bytes.as_slice()))
}

#[test]
fn calls_end_so(rt: HostRuntime) -> Result<(), Fail> {
    for (came, fault) in &CALLS {
        assert!(rt; ended_call(rt.alloc(), came)? == Err(*fault), "{fault:?}");
    }
    Ok(())
}
