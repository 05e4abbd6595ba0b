//! Which records are taken at a door, by the settings and the time.

use crate::scripts::{Caller, Heard, heard_by};
use crate::shared::{Talk, accepted, begun, shared_over};
use archive::{Archive, ListArchive};
use conversation::Door;
use exchange::{Dialog, ExchangeFault, Frames, Replica};
use history_rows::exchanges::{Row, merge_rows, replica_number};
use multiplex::{Handler, Origin, Progress, Stay};
use std::alloc::Global;
use std::test::Fail;
use ua_settings::Settings;
use uuid::Uuid;

/// A plant with a door, at which records of two replicas are taken that are at most a minute ahead of the clock.
const PLANT: &str =
    "[archive]\nid = '00000000000000000000000000000000'\nreplica = 1\n[server]\nlisten = ''\nurl = ''\napplication = ''\nnamespace = ''\nanonymous = true\n[door]\nlisten = ''\nreplicas = [2, 3]\nahead = 60\n";

/// The time of the clock, and the greatest tick that is taken.
pub(crate) const NOW: i64 = 116_444_736_000_000_000;

const LATEST: i64 = NOW + 600_000_000;

pub(crate) fn replica(alloc: Global, number: u8) -> Result<Replica<ListArchive>, Fail> {
    let number = replica_number(number)?;
    Ok(Replica::new(ListArchive::new(alloc, Uuid::nil(), number)))
}

/// A plant with a door, at which the records of all replicas are taken.
pub(crate) const OPEN: &str =
    "[archive]\nid = '00000000000000000000000000000000'\nreplica = 1\n[server]\nlisten = ''\nurl = ''\napplication = ''\nnamespace = ''\nanonymous = true\n[door]\nlisten = ''\n";

/// The frame by which a replica 5 that holds these records answers a replica that holds none.
pub(crate) fn brought(alloc: Global, rows: &[Row]) -> Result<Vec<u8>, Fail> {
    brought_behind(alloc, rows, 0)
}

/// What a replica asks first once it holds these records.
fn ask_behind<A: Archive>(
    alloc: Global,
    asker: &mut Replica<A>,
    rows: &[Row],
    asked: &mut Vec<u8>,
) -> Result<(), ExchangeFault> {
    merge_rows(alloc, asker, rows)?;
    asker.greet(alloc, asked)
}

/// What a replica 4 asks first that holds these records.
fn asked_behind(alloc: Global, rows: &[Row]) -> Result<Vec<u8>, Fail> {
    let mut asked = Vec::new(alloc);
    let mut asker = replica(alloc, 4)?;
    ask_behind(alloc, &mut asker, rows, &mut asked)?;
    Ok(asked)
}

/// What a replica answers to the first frame of these.
fn answer_first<A: Archive>(
    alloc: Global,
    holder: &mut Replica<A>,
    frames: &mut Frames,
    answer: &mut Vec<u8>,
) -> Result<(), Fail> {
    let mut dialog = Dialog::responder();
    match frames.next_frame()? {
        Some(frame) => {
            dialog.take(alloc, holder, frame, answer)?;
            Ok(())
        }
        None => Err(Fail::from("a frame")),
    }
}

/// What a replica answers to what it is asked once it holds these records.
fn answer_behind<A: Archive>(
    alloc: Global,
    holder: &mut Replica<A>,
    rows: &[Row],
    asked: &[u8],
    answer: &mut Vec<u8>,
) -> Result<(), Fail> {
    merge_rows(alloc, holder, rows)?;
    let mut frames = Frames::new(alloc);
    frames.feed(asked)?;
    answer_first(alloc, holder, &mut frames, answer)
}

/// What a replica 5 answers to what it is asked that holds these records.
pub(crate) fn answered_behind(alloc: Global, rows: &[Row], asked: &[u8]) -> Result<Vec<u8>, Fail> {
    let mut answer = Vec::new(alloc);
    let mut holder = replica(alloc, 5)?;
    answer_behind(alloc, &mut holder, rows, asked, &mut answer)?;
    Ok(answer)
}

/// The frame by which a replica 5 that holds these records answers a replica that holds so many of them.
fn brought_behind(alloc: Global, rows: &[Row], held: usize) -> Result<Vec<u8>, Fail> {
    let asked = asked_behind(alloc, rows.get(..held).ok_or("so many")?)?;
    answered_behind(alloc, rows, asked.as_slice())
}

/// What is brought, and how what is told begins: by a vector where it is taken, else by why it isn't.
static BROUGHT: [(&[Row], &[u8]); 6] = [
    (&[(2, 1, NOW, 7)], b"RXVF"),
    (&[(4, 1, NOW, 7)], b"RXEF\x0c\0\0\0\x0a\0\0\0"),
    (&[(3, 1, LATEST, 8)], b"RXVF"),
    (&[(3, 1, LATEST + 1, 8)], b"RXEF\x0c\0\0\0\x09\0\0\0"),
    (&[(1, 1, NOW, 9)], b"RXEF\x0c\0\0\0\x0a\0\0\0"),
    (
        &[(3, 1, LATEST, 8), (4, 1, NOW, 9)],
        b"RXEF\x0c\0\0\0\x0a\0\0\0",
    ),
];

/// The frames that are brought.
fn brought_frames(alloc: Global) -> Result<Vec<Vec<u8>>, Fail> {
    let mut frames = Vec::new(alloc);
    for (rows, _) in &BROUGHT {
        frames.push(brought(alloc, rows)?)?;
    }
    Ok(frames)
}

/// Peers that bring these frames, one each.
fn peers_with<'a>(alloc: Global, frames: &'a [Vec<u8>]) -> Result<Vec<Caller<'a>>, Fail> {
    let mut callers = Vec::new(alloc);
    for frame in frames {
        callers.push(Caller {
            door: Door::Peers,
            address: None,
            text: frame.as_slice(),
            each: 1000,
            pace: 1,
        })?;
    }
    Ok(callers)
}

/// What peers are told by the plant who bring these frames.
fn told_to(alloc: Global, frames: &[Vec<u8>]) -> Result<Vec<Heard>, Fail> {
    let callers = peers_with(alloc, frames)?;
    let settings = Settings::read(alloc, PLANT)?;
    heard_by(alloc, settings, callers.as_slice(), None)
}

/// Whether the peer of a number is told this.
fn is_told_so(number: usize, text: &[u8]) -> bool {
    match BROUGHT.get(number) {
        Some((_, want)) => text.starts_with(want) && (want.len() == 4 || text.len() == want.len()),
        None => false,
    }
}

/// The number of the first peer that is told something else.
fn first_other(told: &[Heard]) -> Option<usize> {
    for (number, text) in told {
        if !is_told_so(*number, text.as_slice()) {
            return Some(*number);
        }
    }
    None
}

/// How many peers are told something, and which is the first that is told something else than it has to be.
fn answered(alloc: Global) -> Result<(usize, Option<usize>), Fail> {
    let frames = brought_frames(alloc)?;
    let told = told_to(alloc, frames.as_slice())?;
    Ok((told.len(), first_other(told.as_slice())))
}

/// Peers that bring records: what isn't taken is refused, and the server's vector names what was.
#[test]
fn records_are_taken_as_the_settings_say(rt: HostRuntime) -> Result<(), Fail> {
    assert_eq!(rt; answered(rt.alloc())?, (BROUGHT.len(), None));
    Ok(())
}

/// The same, where the records of two replicas are taken, of which the server is one.
const LISTED: &str =
    "[archive]\nid = '00000000000000000000000000000000'\nreplica = 1\n[server]\nlisten = ''\nurl = ''\napplication = ''\nnamespace = ''\nanonymous = true\n[door]\nlisten = ''\nreplicas = [1, 2]\n";

/// Records of the server's own number, and one of another.
static OWN: [Row; 4] = [
    (1, 1, NOW, 7),
    (1, 2, NOW + 1, 8),
    (1, 3, NOW + 2, 9),
    (2, 1, NOW, 6),
];

/// What a peer brings to a server that holds so many of its own records: so many of these behind so many, a frame each; how often
/// it is told that they are taken, and whether it is told at last that they aren't: without listed replicas, and where the
/// server's is listed.
type Brought = (
    usize,
    &'static [(usize, usize)],
    (usize, bool),
    (usize, bool),
);

static BACK: [Brought; 7] = [
    // While none is held all come back, by however many frames.
    (0, &[(0, 1), (1, 3)], (2, false), (2, false)),
    (0, &[(0, 4)], (1, false), (1, false)),
    // Those that are held, and others'.
    (2, &[(0, 2)], (1, false), (1, false)),
    (2, &[(3, 4)], (1, false), (1, false)),
    // None beyond them, and then none of the frame, also behind one that was taken.
    (2, &[(0, 3)], (0, true), (1, false)),
    (2, &[(0, 2), (2, 4)], (1, true), (2, false)),
    (1, &[(3, 4), (1, 3)], (1, true), (2, false)),
];

/// How often these bytes stand in a text.
fn count_of(text: &[u8], word: &[u8]) -> usize {
    let mut found = 0usize;
    for at in 0..text.len() {
        if text[at..].starts_with(word) {
            found = found.saturating_add(1);
        }
    }
    found
}

/// Where a peer comes from that comes to the door.
pub(crate) fn of_a_peer() -> Origin {
    Origin {
        listener: Door::Peers.listener(),
        address: None,
    }
}

/// Answers what came on a connection, nine times at most.
pub(crate) fn answer_turns<H: Handler>(
    talk: &mut H,
    stay: Stay,
    world: &mut H::World,
    out: &mut Vec<u8>,
) {
    for _ in 0..9 {
        match talk.answer(stay, world, out) {
            Progress::Answered => {}
            Progress::NeedsMore | Progress::Ended(_) => return,
        }
    }
}

/// What a peer at the door is told for these bytes.
fn answer_all<H: Handler>(alloc: Global, world: &mut H::World, text: &[u8]) -> Vec<u8> {
    let origin = of_a_peer();
    let mut out = Vec::new(alloc);
    let mut talk = begun::<H>(alloc, world, origin, text, &mut out);
    answer_turns(&mut talk, accepted(origin, 0), world, &mut out);
    out
}

/// One frame more, which brings so many of the server's own records behind so many.
fn add_brought(alloc: Global, text: &mut Vec<u8>, behind: usize, all: usize) -> Result<(), Fail> {
    let frame = brought_behind(alloc, OWN.get(..all).ok_or("so many")?, behind)?;
    text.extend_from_slice(frame.as_slice())?;
    Ok(())
}

/// The frames that bring these.
fn all_brought(alloc: Global, frames: &[(usize, usize)]) -> Result<Vec<u8>, Fail> {
    let mut text = Vec::new(alloc);
    for frame in frames {
        let (behind, all) = *frame;
        add_brought(alloc, &mut text, behind, all)?;
    }
    Ok(text)
}

/// The archive of a server that holds so many of its own records.
fn archive_with(alloc: Global, held: usize) -> Result<ListArchive, Fail> {
    let rows = OWN.get(..held).ok_or("so many")?;
    let mut holder = replica(alloc, 1)?;
    merge_rows(alloc, &mut holder, rows)?;
    Ok(holder.archive)
}

/// What a server of these settings that holds so many of its own records tells a peer that brings these frames.
fn told_by(alloc: Global, settings: &str, held: usize, text: &[u8]) -> Result<Vec<u8>, Fail> {
    let settings = Settings::read(alloc, settings)?;
    let archive = archive_with(alloc, held)?;
    let mut world = shared_over(alloc, settings, archive);
    Ok(answer_all::<Talk<ListArchive>>(alloc, &mut world, text))
}

/// Whether a peer is told that so many frames were taken, and refused once or not at all.
fn tells(told: &[u8], taken: usize, refused: bool) -> bool {
    count_of(told, b"RXEF\x0c\0\0\0\x0a\0\0\0") == usize::from(refused)
        && count_of(told, b"RXVF") == taken
}

/// Whether a server of these settings tells a peer what it has to, that brings what a row says: so many frames taken, and a refusal or
/// none.
fn is_told(
    alloc: Global,
    settings: &str,
    row: &Brought,
    taken: usize,
    refused: bool,
) -> Result<bool, Fail> {
    let (held, frames, _, _) = *row;
    let text = all_brought(alloc, frames)?;
    let told = told_by(alloc, settings, held, text.as_slice())?;
    Ok(tells(told.as_slice(), taken, refused))
}

/// Records of the server's own number come back to a store that holds none of them; beyond those that are held none are taken, but
/// where the settings list it.
#[test]
fn own_records_are_taken_while_none_are_held(rt: HostRuntime) -> Result<(), Fail> {
    let alloc = rt.alloc();
    for (i, row) in BACK.iter().enumerate() {
        let (_, _, (taken, refused), (all, none)) = *row;
        assert!(rt; is_told(alloc, OPEN, row, taken, refused)?, "{i}");
        assert!(rt; is_told(alloc, LISTED, row, all, none)?, "{i}, listed");
    }
    Ok(())
}
