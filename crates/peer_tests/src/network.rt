//! Connections at once, of clients and of peers.

use crate::peers::{answered, called, filled_replica, replica};
use archive::{Archive, ListArchive};
use exchange::Replica;
use multiplex::{Handler, serve};
use server_rows::network::{Client, Clients, Faults};
use server_rows::plant::{archive_of, clock, plant};
use server_rows::streams::{ACK, ANSWER, BEGIN, BEGUN, HELLO, OPEN, OPENED, REQUEST, bytes_of};
use std::alloc::Global;
use std::test::Fail;
use ua_server::{ConstantClock, Conversation, Limits, ServeFault, Server, World};
use ua_settings::Settings;

/// A Read of the value as the fourth message of a connection, and its answer.
const READ: &str =
    "4D5347466100000001000000010000000400000009000000010077020101030000000000000000000900000000000000FFFFFFFF000000000000000000000000000000020000000100000003010001000000540D000000FFFFFFFF0000FFFFFFFF";

const VALUE: &str =
    "4D534746520000000100000001000000040000000900000001007A0200803ED5DEB19D01090000000000000000FFFFFFFF000000010000000D06070000000A0000000000000000803ED5DEB19D01FFFFFFFF";

/// The slots of a server for this many connections at a time.
const SLOTS: usize = 4;

/// What connections share.
type Shared<A> = World<A, ConstantClock, Faults>;

/// One of them.
type Talk<A> = Conversation<A, ConstantClock, Faults>;

/// What connections share over the server of these settings, which holds nothing.
fn shared(alloc: Global, settings: Settings) -> Shared<ListArchive> {
    let archive = archive_of(alloc, &settings);
    let log = Faults {
        told: Vec::new(alloc),
    };
    World::new(Server::new(alloc, settings, archive), clock(), log)
}

/// Serves so many connections of these clients. Whether all of them ended.
fn serve_clients<'a, H: Handler>(
    source: &mut Clients<'a>,
    world: &mut H::World,
    connections: u32,
) -> Result<bool, Fail> {
    let alloc = source.alloc;
    let limits = Limits {
        connections: Some(u64::from(connections)),
        accept_slots: SLOTS,
        waiting_bytes: 1_000_000,
        rounds: 10_000,
    };
    let mut slots = Vec::new(alloc);
    for _ in 0..SLOTS {
        slots.push(None)?;
    }
    let report = serve::<Clients<'a>, H>(alloc, source, world, slots.as_mut_slice(), limits);
    Ok(report.is_done)
}

/// Whether the clients of these numbers were written these bytes, and no other one any.
fn is_written(source: &Clients<'_>, want: &[(usize, Vec<u8>)]) -> bool {
    source.written.len() == want.len()
        && want.iter().all(|(number, bytes)| source.written_to(*number) == Some(bytes.as_slice()))
}

/// Whether these faults are told.
fn is_told<A>(world: &Shared<A>, told: &[ServeFault]) -> bool {
    world.log.told.as_slice() == told
}

/// Whether over a world so many connections of these clients are served, and these faults are told.
fn is_served_over<A: Archive>(
    source: &mut Clients<'_>,
    world: &mut Shared<A>,
    connections: u32,
    told: &[ServeFault],
) -> Result<bool, Fail> {
    let is_done = serve_clients::<Talk<A>>(source, world, connections)?;
    Ok(is_done && is_told(world, told))
}

/// Of so many connections a plant's server writes these bytes to the clients of these numbers, and these faults are told.
fn is_served(
    alloc: Global,
    clients: &[Option<Client<'_>>],
    connections: u32,
    want: &[(usize, Vec<u8>)],
    told: &[ServeFault],
) -> Result<bool, Fail> {
    let mut world = shared(alloc, plant(alloc)?);
    let mut source = Clients::new(alloc, clients);
    let is_served = is_served_over(&mut source, &mut world, connections, told)?;
    Ok(is_served && is_written(&source, want))
}

/// A client that reads all it is written, and ends well.
fn well(bytes: &[u8]) -> Option<Client<'_>> {
    Some(Client {
        bytes,
        breaks: false,
        room: 10_000,
    })
}

/// The bytes of each of these answers, to the clients of these numbers.
fn all_of(alloc: Global, answers: &[(usize, &[&str])]) -> Result<Vec<(usize, Vec<u8>)>, Fail> {
    let mut all = Vec::new(alloc);
    for (number, parts) in answers {
        all.push((*number, bytes_of(alloc, parts)?))?;
    }
    Ok(all)
}

/// Whether those of five clients are told that break off or take no answer, or can't be had, and the next one is served: a whole
/// stream, and its first bytes.
fn goes_on<'a>(alloc: Global, bytes: &'a [u8], begun: &'a [u8]) -> Result<bool, Fail> {
    let breaks = Some(Client {
        bytes: begun,
        breaks: true,
        room: 10_000,
    });
    let deaf = Some(Client {
        bytes,
        breaks: false,
        room: 28,
    });
    let clients = [breaks, deaf, None, well(bytes), well(begun)];
    let want = all_of(
        alloc,
        &[
            (0, &[ACK, OPENED]),
            (1, &[ACK]),
            (3, &[ACK, OPENED, ANSWER]),
        ],
    )?;
    let told = [ServeFault::Read, ServeFault::Write, ServeFault::Read];
    is_served(alloc, &clients, 4, want.as_slice(), &told)
}

/// One that breaks off inside a message, one that takes no answer, and one that can't be had are told, and the next one is
/// served; behind so many none is.
#[test]
fn goes_on_behind_a_fault(rt: HostRuntime) -> Result<(), Fail> {
    let bytes = bytes_of(rt.alloc(), &[HELLO, OPEN, REQUEST])?;
    let begun = bytes.get(..200).ok_or("a front")?;
    assert!(rt; goes_on(rt.alloc(), bytes.as_slice(), begun)?);
    Ok(())
}

/// What a replica writes that calls another one, where this was answered before, and what it is answered.
fn round<A: Archive>(
    alloc: Global,
    one: &mut Replica<A>,
    two: &mut Replica<A>,
    answer: &[u8],
) -> (Vec<u8>, Vec<u8>) {
    let (there, _) = called(alloc, two, answer);
    let back = answered(alloc, one, there.as_slice());
    (there, back)
}

/// The same of replica 2 that calls replica 1, which holds nothing.
fn next_round(alloc: Global, answer: &[u8]) -> Result<(Vec<u8>, Vec<u8>), Fail> {
    let mut two = filled_replica(alloc, 2)?;
    let mut one = replica(alloc, 1)?;
    Ok(round(alloc, &mut one, &mut two, answer))
}

/// What replica 2 is answered behind this.
fn next_answer(alloc: Global, answer: &[u8]) -> Result<Vec<u8>, Fail> {
    let (_, back) = next_round(alloc, answer)?;
    Ok(back)
}

/// What replica 2 writes that calls replica 1, which holds nothing, and what it is answered: each answers what the other one
/// wrote before.
fn brought(alloc: Global) -> Result<(Vec<u8>, Vec<u8>), Fail> {
    let mut answer = Vec::new(alloc);
    for _ in 0..3 {
        answer = next_answer(alloc, answer.as_slice())?;
    }
    next_round(alloc, answer.as_slice())
}

/// What is written to a client that greets, to the peer that comes next, and to a client that reads what that brought.
fn wanted(alloc: Global, answer: Vec<u8>) -> Result<Vec<(usize, Vec<u8>)>, Fail> {
    let mut want = all_of(
        alloc,
        &[
            (0, &[ACK, OPENED, ANSWER]),
            (2, &[ACK, OPENED, BEGUN[0], BEGUN[1], VALUE]),
        ],
    )?;
    want.push((1, answer))?;
    Ok(want)
}

/// Whether a client is greeted, a peer is answered so to what it brings, and the next client reads that.
fn reads_what_came(alloc: Global, brings: &[u8], want: &[(usize, Vec<u8>)]) -> Result<bool, Fail> {
    let greets = bytes_of(alloc, &[HELLO, OPEN, REQUEST])?;
    let reads = bytes_of(alloc, &[HELLO, OPEN, BEGIN[0], BEGIN[1], READ])?;
    let clients = [
        well(greets.as_slice()),
        well(brings),
        well(reads.as_slice()),
    ];
    is_served(alloc, &clients, 3, want, &[])
}

/// Whether what the peer writes and is answered are frames of records, and whether the client reads them.
fn is_brought(alloc: Global) -> Result<(bool, bool), Fail> {
    let (brings, answer) = brought(alloc)?;
    let begin_so = brings.as_slice().starts_with(b"RXVF") && answer.as_slice().starts_with(b"RXDF");
    let want = wanted(alloc, answer)?;
    let is_read = reads_what_came(alloc, brings.as_slice(), want.as_slice())?;
    Ok((begin_so, is_read))
}

/// A client reads what a peer brought between it and the client before.
#[test]
fn serves_clients_and_peers(rt: HostRuntime) -> Result<(), Fail> {
    assert_eq!(rt; is_brought(rt.alloc())?, (true, true));
    Ok(())
}

/// So many clients that are written nothing.
fn nothing_to(alloc: Global, count: usize) -> Result<Vec<(usize, Vec<u8>)>, Fail> {
    let mut want = Vec::new(alloc);
    for number in 0..count {
        want.push((number, Vec::new(alloc)))?;
    }
    Ok(want)
}

/// Whether short inputs are served, and the one that breaks off is told.
fn are_short_inputs_served(alloc: Global) -> Result<bool, Fail> {
    let breaks = Some(Client {
        bytes: b"RX",
        breaks: true,
        room: 10_000,
    });
    let clients = [well(b""), well(b"RX"), breaks];
    let want = nothing_to(alloc, 3)?;
    is_served(alloc, &clients, 3, want.as_slice(), &[ServeFault::Read])
}

/// What is too short to be a peer's is a client's, and one that breaks off there is told.
#[test]
fn serves_short_inputs(rt: HostRuntime) -> Result<(), Fail> {
    assert!(rt; are_short_inputs_served(rt.alloc())?);
    Ok(())
}
