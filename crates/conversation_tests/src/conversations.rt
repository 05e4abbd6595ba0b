//! Clients and peers at once, each of whom is told what it would be told alone at its door.

use crate::scripts::{Caller, Heard, heard_in_plant};
use conversation::Door;
use server_rows::streams::{ACK, ANSWER, BEGIN, BEGUN, HELLO, OPEN, OPENED, REQUEST, bytes_of};
use std::alloc::Global;
use std::test::Fail;

/// The first frame of replica 2 of the archive, which holds nothing.
pub(crate) const ASKED: &str = "52585646 1B000000 02 00000000000000000000000000000000 02 00";

/// What replica 1 answers, which holds nothing either.
pub(crate) const NOTHING: &str =
    "52584446 1F000000 02 00000000000000000000000000000000 01 00 00000000";

/// The frame that ends a dialog.
const END: &str = "52584546 0C000000 00000000";

/// A frame that is none, and what the peer is told of it.
const NO_FRAME: &str = "52585646 0B000000";

const ILL: &str = "52584546 0C000000 01000000";

/// A Hello of 31 bytes, and what a client is told of it.
const SHORT_HELLO: &str = "48454C46 1F000000";

const REFUSED: &str = "45525246 10000000 00000780 FFFFFFFF";

/// What a client is told whose letters are none: those of a second Hello are, and those of a frame where clients alone
/// are taken.
const NO_LETTERS: &str = "45525246 10000000 00007E80 FFFFFFFF";

/// What a web browser writes.
const PAGE: &str = "474554202F000000";

/// Who is taken where callers come to, what they write, and what each of them is told.
static CALLERS: [(Door, &[&str], &[&str]); 17] = [
    (Door::Both, &[HELLO, OPEN, REQUEST], &[ACK, OPENED, ANSWER]),
    (Door::Both, &[ASKED, ASKED, END], &[NOTHING, NOTHING]),
    (Door::Both, &[SHORT_HELLO, HELLO], &[REFUSED]),
    (Door::Both, &[ASKED, NO_FRAME, ASKED], &[NOTHING, ILL]),
    (
        Door::Both,
        &[HELLO, OPEN, REQUEST, HELLO],
        &[ACK, OPENED, ANSWER, NO_LETTERS],
    ),
    (Door::Both, &["5258"], &[]),
    (Door::Both, &[HELLO], &[ACK]),
    (
        Door::Clients,
        &[HELLO, OPEN, REQUEST],
        &[ACK, OPENED, ANSWER],
    ),
    (Door::Clients, &[ASKED, ASKED, END], &[NO_LETTERS]),
    (Door::Clients, &[NOTHING], &[NO_LETTERS]),
    (Door::Clients, &[PAGE], &[NO_LETTERS]),
    (Door::Clients, &["5258"], &[]),
    (Door::Peers, &[ASKED, ASKED, END], &[NOTHING, NOTHING]),
    (Door::Peers, &[ASKED, NO_FRAME, ASKED], &[NOTHING, ILL]),
    (Door::Peers, &[HELLO, OPEN, REQUEST], &[ILL]),
    (Door::Peers, &[PAGE], &[ILL]),
    (Door::Peers, &["4845"], &[]),
];

/// What each of them writes, and behind them one that begins a session.
fn written(alloc: Global) -> Result<Vec<Vec<u8>>, Fail> {
    let mut all = Vec::new(alloc);
    for (_, text, _) in &CALLERS {
        all.push(bytes_of(alloc, text)?)?;
    }
    all.push(bytes_of(alloc, &[HELLO, OPEN, BEGIN[0], BEGIN[1]])?)?;
    Ok(all)
}

/// What each of these is told.
fn told(alloc: Global) -> Result<Vec<Vec<u8>>, Fail> {
    let mut all = Vec::new(alloc);
    for (_, _, text) in &CALLERS {
        all.push(bytes_of(alloc, text)?)?;
    }
    all.push(bytes_of(alloc, &[ACK, OPENED, BEGUN[0], BEGUN[1]])?)?;
    Ok(all)
}

/// Who is taken where the caller of a number comes to.
fn door_of(number: usize) -> Door {
    match CALLERS.get(number) {
        Some((door, _, _)) => *door,
        None => Door::Both,
    }
}

/// Whether the caller of a number read this, and its connection was closed.
fn has_heard(heard: &[Heard], number: usize, text: &[u8]) -> bool {
    for (other, read) in heard {
        if *other == number {
            return read.as_slice() == text;
        }
    }
    false
}

/// Who writes these texts, so many bytes at a time, and a later one waits longer.
fn callers_of<'a>(
    alloc: Global,
    texts: &'a [Vec<u8>],
    each: usize,
    pace: usize,
) -> Result<Vec<Caller<'a>>, Fail> {
    let mut callers = Vec::new(alloc);
    for (number, text) in texts.iter().enumerate() {
        callers.push(Caller {
            door: door_of(number),
            address: None,
            text: text.as_slice(),
            each,
            pace: number.saturating_mul(pace).saturating_add(1),
        })?;
    }
    Ok(callers)
}

/// What each of them is told at once.
fn heard_at(
    alloc: Global,
    texts: &[Vec<u8>],
    each: usize,
    pace: usize,
) -> Result<Vec<Heard>, Fail> {
    let callers = callers_of(alloc, texts, each, pace)?;
    heard_in_plant(alloc, callers.as_slice(), None)
}

/// Whether all read what they are to be told.
fn have_heard(alloc: Global, heard: &[Heard]) -> Result<bool, Fail> {
    let wanted = told(alloc)?;
    for (number, text) in wanted.iter().enumerate() {
        if !has_heard(heard, number, text.as_slice()) {
            return Ok(false);
        }
    }
    Ok(true)
}

/// Whether all are told so at once, where each reads and writes so many bytes at a time, and a later one waits longer.
fn are_told(alloc: Global, each: usize, pace: usize) -> Result<bool, Fail> {
    let texts = written(alloc)?;
    let heard = heard_at(alloc, texts.as_slice(), each, pace)?;
    have_heard(alloc, heard.as_slice())
}

#[test]
fn each_is_told_as_alone(rt: HostRuntime) -> Result<(), Fail> {
    for each in [1, 2, 7, 64, 1000] {
        for pace in 0..4 {
            assert!(rt;
                are_told(rt.alloc(), each, pace)?,
                "{each} bytes at pace {pace}"
            );
        }
    }
    Ok(())
}
