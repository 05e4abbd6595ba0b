//! A long frame of a peer, which is learned over several turns of its connection.

use crate::admitting::{OPEN, brought, of_a_peer};
use crate::shared::{Shared, Talk, accepted, begun, shared_over_nothing};
use archive::Archive;
use history_rows::exchanges::{Row, held_of};
use multiplex::{Handler, Progress, Stay};
use std::alloc::Global;
use std::test::Fail;
use ua_settings::Settings;

/// So many records of replica 2.
fn rows(alloc: Global, count: i64) -> Result<Vec<Row>, Fail> {
    let mut rows = Vec::new(alloc);
    for number in 1..=count {
        rows.push((2, u64::try_from(number)?, number, 7))?;
    }
    Ok(rows)
}

/// How many records are held behind each turn, and how what it says begins: nothing, until the frame is answered.
static TURNS: [(u64, &[u8]); 3] = [(100, b""), (200, b""), (250, b"RXVF")];

/// Whether a turn of a connection goes on; what it says is appended to `out`.
fn goes_on<H: Handler>(talk: &mut H, stay: Stay, world: &mut H::World, out: &mut Vec<u8>) -> bool {
    match talk.answer(stay, world, out) {
        Progress::Answered => true,
        Progress::NeedsMore | Progress::Ended(_) => false,
    }
}

/// Whether so many records are held behind a turn, and what it says begins so.
fn is_behind<A: Archive>(archive: &mut A, said: &[u8], turn: &(u64, &[u8])) -> bool {
    let (held, begin) = *turn;
    held_of(archive, 2) == Ok(held)
        && said.starts_with(begin)
        && said.is_empty() == begin.is_empty()
}

/// Whether one turn of a peer's connection goes on, so many records are held behind it, and it says what begins so.
fn goes_so<A: Archive>(
    alloc: Global,
    world: &mut Shared<A>,
    stay: Stay,
    talk: &mut Talk<A>,
    turn: &(u64, &[u8]),
) -> bool {
    let mut out = Vec::new(alloc);
    goes_on(talk, stay, world, &mut out)
        && is_behind(&mut world.server.replica.archive, out.as_slice(), turn)
}

/// Whether a peer's connection goes by these turns.
fn all_go_so<A: Archive>(
    alloc: Global,
    world: &mut Shared<A>,
    stay: Stay,
    talk: &mut Talk<A>,
) -> bool {
    for turn in &TURNS {
        if !goes_so(alloc, world, stay, talk, turn) {
            return false;
        }
    }
    true
}

/// Whether a peer's connection that brings these bytes goes by these turns.
fn goes_by_turns<A: Archive>(alloc: Global, world: &mut Shared<A>, text: &[u8]) -> bool {
    let origin = of_a_peer();
    let mut out = Vec::new(alloc);
    let mut talk = begun::<Talk<A>>(alloc, world, origin, text, &mut out);
    all_go_so(alloc, world, accepted(origin, 0), &mut talk)
}

/// Whether a server that holds nothing learns a frame by these turns.
fn is_learned_by_turns(alloc: Global, frame: &[u8]) -> Result<bool, Fail> {
    let settings = Settings::read(alloc, OPEN)?;
    let mut world = shared_over_nothing(alloc, settings);
    Ok(goes_by_turns(alloc, &mut world, frame))
}

/// A frame of 250 records.
fn long_frame(alloc: Global) -> Result<Vec<u8>, Fail> {
    let rows = rows(alloc, 250)?;
    brought(alloc, rows.as_slice())
}

/// Each turn learns a hundred of 250 records and says nothing, and the last one learns the rest and answers.
#[test]
fn a_long_frame_is_learned_over_three_turns(rt: HostRuntime) -> Result<(), Fail> {
    let frame = long_frame(rt.alloc())?;
    assert!(rt; is_learned_by_turns(rt.alloc(), frame.as_slice())?);
    Ok(())
}
