//! The last calls of peers, as they end.

use crate::shared::{Shared, Talk, accepted, shared_over_nothing};
use archive::Archive;
use conversation::Ended;
use counted_io::ServeFault;
use exchange::ExchangeFault;
use multiplex::{Handler, Origin, Party, SlotEnd, Stay};
use server_rows::plant::clock;
use std::alloc::Global;
use std::test::Fail;
use ua_peers::PeerEnded;
use ua_settings::Settings;
use web_page::{CallCause, CallEnd, LastCalls};

/// A plant that calls three peers.
const PLANT: &str =
    "[archive]\nid = '00000000000000000000000000000000'\nreplica = 1\n[server]\nlisten = ''\nurl = ''\napplication = ''\nnamespace = ''\nanonymous = true\n[[peer]]\naddress = 'a'\nevery = 1\n[[peer]]\naddress = 'b'\nevery = 1\n[[peer]]\naddress = 'c'\nevery = 1\n";

/// None of the peers was called yet.
fn begin_calls<A>(alloc: Global, world: &mut Shared<A>) -> Result<(), Fail> {
    let calls = LastCalls::new(alloc, world.server.settings.peers().as_slice())?;
    world.calls = calls;
    Ok(())
}

/// The peer of this number is called, and the connection ends so. Whether the call began.
fn call<H: Handler>(
    alloc: Global,
    world: &mut H::World,
    callee: usize,
    end: SlotEnd<H::End>,
) -> bool {
    let stay = Stay {
        party: Party::Called(callee),
        began: 0,
        answered: 0,
    };
    let mut out = Vec::new(alloc);
    match H::call(alloc, callee, world, &mut out) {
        Some(talk) => {
            talk.close(stay, world, end);
            true
        }
        None => false,
    }
}

/// Somebody comes, and the connection ends so.
fn come<H: Handler>(alloc: Global, world: &mut H::World, end: SlotEnd<H::End>) {
    let origin = Origin {
        listener: 0,
        address: None,
    };
    H::begin(alloc, origin, world).close(accepted(origin, 0), world, end);
}

/// How a connection ends.
type End = SlotEnd<Result<Ended, ServeFault>>;

/// A peer that is called, how that ends, and for which cause it ends so for pages.
type Row = (usize, End, Option<CallCause>);

/// The calls, one after the other.
static CALLS: [Row; 9] = [
    (1, SlotEnd::ReadFailed, Some(CallCause::Connection(1))),
    (0, SlotEnd::Finished(Ok(Ended::Peer(PeerEnded::Done))), None),
    (1, SlotEnd::WriteFailed, Some(CallCause::Connection(2))),
    (2, SlotEnd::EndOfInput, Some(CallCause::Exchange(1))),
    (
        2,
        SlotEnd::Finished(Ok(Ended::Peer(PeerEnded::Refused(70_000)))),
        Some(CallCause::Exchange(70_000)),
    ),
    (
        0,
        SlotEnd::Finished(Ok(Ended::Peer(PeerEnded::Failed(ExchangeFault::NotAdmitted)))),
        Some(CallCause::Exchange(10)),
    ),
    (0, SlotEnd::IdleTimeout, Some(CallCause::Connection(1))),
    (
        0,
        SlotEnd::Finished(Err(ServeFault::OutOfMemory)),
        Some(CallCause::Connection(4)),
    ),
    (1, SlotEnd::Finished(Ok(Ended::Peer(PeerEnded::Done))), None),
];

/// How the call of each peer ended of which one did.
type Ends = [Option<CallEnd>; 3];

/// Whether these are the last calls of the three.
fn are_last<A>(world: &Shared<A>, ends: &Ends) -> bool {
    let calls = world.calls.as_slice();
    calls.len() == 3 && calls.iter().zip(ends).all(|(call, end)| call.end == *end)
}

/// A call of a peer ended for this cause.
fn note(ends: &mut Ends, callee: usize, cause: Option<CallCause>) {
    if let Some(last) = ends.get_mut(callee) {
        *last = Some(CallEnd {
            at: clock().0,
            cause,
            learned: 0,
            sent: 0,
        });
    }
}

/// Whether a call changes the entry of its peer, and that alone, and neither somebody who comes nor the call of a peer that isn't
/// there changes any.
fn changes_one<A: Archive>(
    alloc: Global,
    world: &mut Shared<A>,
    ends: &mut Ends,
    row: &Row,
) -> bool {
    let (callee, end, cause) = *row;
    let called = call::<Talk<A>>(alloc, world, callee, end);
    note(ends, callee, cause);
    let changed = are_last(world, ends);
    come::<Talk<A>>(alloc, world, end);
    let other = call::<Talk<A>>(alloc, world, 3, end);
    called && changed && other && are_last(world, ends)
}

/// The first call that changes something else; 0 where something stands before any, else from 1 on.
fn first_other<A: Archive>(alloc: Global, world: &mut Shared<A>) -> Option<usize> {
    let mut ends: Ends = [None, None, None];
    if !are_last(world, &ends) {
        return Some(0);
    }
    let mut number: usize = 1;
    for row in &CALLS {
        if !changes_one(alloc, world, &mut ends, row) {
            return Some(number);
        }
        number = number.saturating_add(1);
    }
    None
}

/// The same of connections of the plant.
fn first_other_of_the_plant(alloc: Global) -> Result<Option<usize>, Fail> {
    let settings = Settings::read(alloc, PLANT)?;
    let mut world = shared_over_nothing(alloc, settings);
    begin_calls(alloc, &mut world)?;
    Ok(first_other(alloc, &mut world))
}

#[test]
fn a_call_that_ends_changes_its_entry_alone(rt: HostRuntime) -> Result<(), Fail> {
    assert_eq!(rt; first_other_of_the_plant(rt.alloc())?, None);
    Ok(())
}
