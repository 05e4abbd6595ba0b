//! Numbers that were given to two records, which calls of a peer look for where the settings say so.

use crate::admitting::{NOW, answer_turns, answered_behind, replica};
use crate::shared::{Shared, Talk, shared_over};
use archive::{Archive, ListArchive};
use history_rows::exchanges::{Row, merge_rows};
use multiplex::{Handler, Party, Stay};
use std::alloc::Global;
use std::test::Fail;
use ua_settings::Settings;

/// A plant that calls a peer, and looks for them.
const CHECKS: &str =
    "[archive]\nid = '00000000000000000000000000000000'\nreplica = 1\n[server]\nlisten = ''\nurl = ''\napplication = ''\nnamespace = ''\nanonymous = true\n[[peer]]\naddress = 'a'\nevery = 1\ncheck = true\n";

/// One that doesn't.
const CALLS: &str =
    "[archive]\nid = '00000000000000000000000000000000'\nreplica = 1\n[server]\nlisten = ''\nurl = ''\napplication = ''\nnamespace = ''\nanonymous = true\n[[peer]]\naddress = 'a'\nevery = 1\n";

/// An end for that, and one of a dialog that is done.
const TWICE: &[u8] = b"RXEF\x0c\0\0\0\x0b\0\0\0";

const DONE: &[u8] = b"RXEF\x0c\0\0\0\0\0\0\0";

/// Two records of one number, and others of three replicas.
const ONE: Row = (2, 1, NOW, 7);

const OTHER: Row = (2, 1, NOW, 8);

const NEXT: Row = (2, 2, NOW + 1, 9);

const THIRD: Row = (3, 1, NOW, 5);

const TWIN: Row = (3, 1, NOW + 2, 5);

const OWN: Row = (1, 1, NOW, 4);

/// The settings, what is held here, what the peer holds, how what is said to its answer begins, and how many records are held
/// then.
type Case = (
    &'static str,
    &'static [Row],
    &'static [Row],
    &'static [u8],
    usize,
);

static CASES: [Case; 10] = [
    // The last record that both hold of a replica differs, and nothing is learned.
    (CHECKS, &[ONE], &[OTHER], TWICE, 1),
    (CHECKS, &[ONE, THIRD], &[ONE, TWIN], TWICE, 2),
    (CHECKS, &[OTHER, THIRD], &[ONE, NEXT, TWIN], TWICE, 2),
    (CHECKS, &[OWN], &[(1, 1, NOW, 3)], TWICE, 1),
    // All that both hold is equal, and what is new is learned.
    (CHECKS, &[ONE], &[ONE, NEXT], b"RXVF", 2),
    (CHECKS, &[ONE, OWN], &[ONE, THIRD], b"RXVF", 3),
    (CHECKS, &[], &[ONE], b"RXVF", 1),
    // An older record than the last one here isn't asked for.
    (CHECKS, &[ONE, NEXT], &[OTHER], b"RXDF", 2),
    // Nothing is looked for.
    (CALLS, &[ONE], &[OTHER], DONE, 1),
    (CALLS, &[ONE], &[ONE, NEXT], b"RXVF", 2),
];

/// What is known of the call.
fn called() -> Stay {
    Stay {
        party: Party::Called(0),
        began: 0,
        answered: 0,
    }
}

/// What is said to what a peer answers to the frame that calls it, which holds these records.
fn said_to<H: Handler>(
    alloc: Global,
    world: &mut H::World,
    there: &[Row],
) -> Result<Vec<u8>, Fail> {
    let (mut asked, mut said) = (Vec::new(alloc), Vec::new(alloc));
    let mut talk = H::call(alloc, 0, world, &mut asked).ok_or("a call")?;
    let answer = answered_behind(alloc, there, asked.as_slice())?;
    let _ = talk.receive(answer.as_slice(), &mut said);
    answer_turns(&mut talk, called(), world, &mut said);
    Ok(said)
}

/// How many records of these replicas an archive holds.
fn held_in<A: Archive>(alloc: Global, archive: &mut A) -> Result<usize, Fail> {
    let all = archive.since(alloc, &stamp::Vector::new(), 9)?;
    Ok(all.len())
}

/// Whether a case comes to what it has to.
fn is_so(alloc: Global, case: &Case) -> Result<bool, Fail> {
    let (settings, here, there, begins, held) = *case;
    let mut holder = replica(alloc, 1)?;
    merge_rows(alloc, &mut holder, here)?;
    let settings = Settings::read(alloc, settings)?;
    let mut world: Shared<ListArchive> = shared_over(alloc, settings, holder.archive);
    let said = said_to::<Talk<ListArchive>>(alloc, &mut world, there)?;
    let left = held_in(alloc, &mut world.server.replica.archive)?;
    Ok(said.as_slice().starts_with(begins) && left == held)
}

/// The first case that comes to something else.
fn first_other(alloc: Global) -> Result<Option<usize>, Fail> {
    for (number, case) in CASES.iter().enumerate() {
        if !is_so(alloc, case)? {
            return Ok(Some(number));
        }
    }
    Ok(None)
}

#[test]
fn calls_look_for_numbers_given_twice(rt: HostRuntime) -> Result<(), Fail> {
    assert_eq!(rt; first_other(rt.alloc())?, None);
    Ok(())
}
