//! Long frames, of which some first records are learned ahead of their turn.

use crate::admissions::answer_of;
use crate::exchanges::{large_batch, list_replica};
use archive::{Archive, Failure, LearnFault, ScriptedArchive, StoreFault};
use exchange::{Dialog, ExchangeFault, Frames, Replica};
use history_rows::exchanges::{held_of, merge, replica_number};
use std::alloc::{AllocError, Global};
use std::test::Fail;
use uuid::Uuid;

/// The frame by which a replica 2 that holds so many records answers one that holds nothing.
fn brought(alloc: Global, count: u32) -> Result<Frames, Fail> {
    let mut holder = list_replica(alloc, 2)?;
    let held = large_batch(alloc, count, 5)?;
    merge(&mut holder, &held)?;
    let mut frames = Frames::new(alloc);
    frames.feed(answer_of(alloc, &mut holder)?.as_slice())?;
    Ok(frames)
}

fn add(counts: &mut Vec<u32>, count: u32) -> Result<(), AllocError> {
    counts.push(count)?;
    Ok(())
}

/// How many records each call learned ahead, until none had to be.
fn pieces_of<A: Archive>(
    alloc: Global,
    replica: &mut Replica<A>,
    dialog: &mut Dialog,
    frames: &Frames,
) -> Result<Vec<u32>, ExchangeFault> {
    let mut counts = Vec::new(alloc);
    for _ in 0..12 {
        match dialog.learn_ahead(alloc, replica, frames)? {
            Some(count) => add(&mut counts, count)?,
            None => return Ok(counts),
        }
    }
    Ok(counts)
}

/// How many records a frame brings, and how many of them each step learns ahead of its turn.
static LONG: [(u32, &[u32]); 7] = [
    (0, &[]),
    (1, &[]),
    (100, &[]),
    (101, &[100]),
    (200, &[100]),
    (250, &[100, 100]),
    (1000, &[100, 100, 100, 100, 100, 100, 100, 100, 100]),
];

/// Whether the frame that stands first adds so many records when it is taken, and is answered by the replica's vector.
fn is_answered<A: Archive>(
    alloc: Global,
    replica: &mut Replica<A>,
    frames: &mut Frames,
    added: u32,
) -> Result<bool, ExchangeFault> {
    let mut dialog = Dialog::responder();
    let mut said = Vec::new(alloc);
    match frames.next_frame()? {
        Some(frame) => dialog.take(alloc, replica, frame, &mut said)?,
        None => return Ok(false),
    };
    let mut vector = Vec::new(alloc);
    replica.greet(alloc, &mut vector)?;
    Ok(said.as_slice() == vector.as_slice() && dialog.learned() == added)
}

/// Whether a replica that holds nothing learns the frame that stands first in these pieces and counts them, and then the rest of so
/// many records, which is answered.
fn learns_in<A: Archive>(
    alloc: Global,
    replica: &mut Replica<A>,
    frames: &mut Frames,
    count: u32,
    pieces: &[u32],
) -> Result<bool, ExchangeFault> {
    let mut dialog = Dialog::responder();
    let told = pieces_of(alloc, replica, &mut dialog, frames)?;
    let ahead = pieces
        .iter()
        .fold(0u32, |sum, piece| sum.saturating_add(*piece));
    let held = held_of(&mut replica.archive, 2)?;
    Ok(
        told.as_slice() == pieces
            && dialog.learned() == ahead
            && held == u64::from(ahead)
            && is_answered(alloc, replica, frames, count.saturating_sub(ahead))?,
    )
}

#[test]
fn long_frames_are_learned_in_pieces(rt: HostRuntime) -> Result<(), Fail> {
    for (count, pieces) in &LONG {
        let mut frames = brought(rt.alloc(), *count)?;
        let mut replica = list_replica(rt.alloc(), 1)?;
        let learned = learns_in(rt.alloc(), &mut replica, &mut frames, *count, pieces)?;
        assert!(rt; learned, "{count}");
    }
    Ok(())
}

/// The call of the store that fails, what is told, and how many records are held then.
static STOPS: [(u64, ExchangeFault, u64); 3] = [
    (1, ExchangeFault::Store(StoreFault::Refused), 0),
    (
        2,
        ExchangeFault::Learn {
            learned: 0,
            cause: LearnFault::Store(StoreFault::Refused),
        },
        0,
    ),
    (
        51,
        ExchangeFault::Learn {
            learned: 49,
            cause: LearnFault::Store(StoreFault::Refused),
        },
        49,
    ),
];

/// Whether the first piece of the frame that stands first ends by this fault, and so many records are held then.
fn stops_so<A: Archive>(
    alloc: Global,
    replica: &mut Replica<A>,
    frames: &Frames,
    fault: ExchangeFault,
    held: u64,
) -> bool {
    let mut dialog = Dialog::responder();
    dialog.learn_ahead(alloc, replica, frames) == Err(fault)
        && dialog.learned() == 0
        && held_of(&mut replica.archive, 2) == Ok(held)
}

/// Where the store fails, that is told, and what was learned before is held.
#[test]
fn a_fault_of_the_store_ends_a_piece(rt: HostRuntime) -> Result<(), Fail> {
    let frames = brought(rt.alloc(), 250)?;
    let number = replica_number(1)?;
    for (call, fault, held) in &STOPS {
        let archive = ScriptedArchive::new(
            rt.alloc(),
            Uuid::nil(),
            number,
            *call,
            Failure::Refused,
        );
        let mut replica = Replica::new(archive);
        let stopped = stops_so(rt.alloc(), &mut replica, &frames, *fault, *held);
        assert!(rt; stopped, "{call}");
    }
    Ok(())
}
