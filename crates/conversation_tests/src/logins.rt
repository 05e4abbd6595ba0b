//! Logins that wait, since many were refused before them.

use crate::shared::{Shared, Talk, accepted, begun, shared_over_nothing};
use archive::ListArchive;
use conversation::Logins;
use multiplex::{Handler, Origin, Stay};
use server_rows::streams::{BEGIN, HELLO, OPEN, bytes_of};
use std::alloc::Global;
use std::net::SocketAddr;
use std::test::Fail;
use ua_settings::Settings;

/// A plant that lets anybody in, and where two logins may be refused.
const PLANT: &str =
    "[archive]\nid = '00000000000000000000000000000000'\nreplica = 1\n[server]\nlisten = ''\nurl = ''\napplication = ''\nnamespace = ''\nanonymous = true\nlogins = 2\n";

/// An activation of a session that isn't there.
const STRANGE: &str =
    "4D53474656000000010000000100000003000000030000000100D3010101050000000000000000000300000000000000FFFFFFFF00000000000000FFFFFFFFFFFFFFFFFFFFFFFFFFFFFFFF000000FFFFFFFFFFFFFFFF";

/// So many refused logins are kept.
fn keep_logins<A>(alloc: Global, world: &mut Shared<A>, kept: usize) -> Result<(), Fail> {
    let logins = Logins::new(alloc, kept)?;
    world.logins = logins;
    Ok(())
}

/// How long each answer of a connection waits, of three messages together, and of the one behind them.
fn waits_of<H: Handler>(
    talk: &mut H,
    stay: Stay,
    world: &mut H::World,
    out: &mut Vec<u8>,
) -> (u64, u64) {
    let mut stay = stay;
    let mut before: u64 = 0;
    for _ in 0..3 {
        let _ = talk.answer(stay, world, out);
        before = before.saturating_add(talk.delay(stay, world));
        stay.answered = stay.answered.saturating_add(1);
    }
    let _ = talk.answer(stay, world, out);
    (before, talk.delay(stay, world))
}

/// The same of a client from there who comes at this time, and brings these bytes.
fn waits<H: Handler>(
    alloc: Global,
    world: &mut H::World,
    now: u64,
    from: Option<SocketAddr>,
    text: &[u8],
) -> (u64, u64) {
    let origin = Origin {
        listener: 0,
        address: from,
    };
    H::pass(world, now, 0);
    let mut out = Vec::new(alloc);
    let mut talk = begun::<H>(alloc, world, origin, text, &mut out);
    waits_of(&mut talk, accepted(origin, now), world, &mut out)
}

/// When somebody comes, from where, whether its login is refused, and how long its answer waits.
type Login = (u64, &'static str, bool, u64);

/// Logins, one after the other.
static LOGINS: [Login; 14] = [
    (0, "192.0.2.1:1", true, 0),
    (10, "192.0.2.1:2", false, 0),
    (20, "192.0.2.1:3", true, 0),
    (30, "192.0.2.1:4", false, 1_000),
    (40, "192.0.2.1:5", true, 1_000),
    (50, "192.0.2.2:1", false, 0),
    (60, "[2001:db8::1]:1", true, 0),
    (70, "nowhere", true, 0),
    (80, "[2001:db8::1]:2", true, 0),
    (90, "[2001:db8::1]:3", false, 1_000),
    (59_999, "192.0.2.1:6", false, 1_000),
    (60_019, "192.0.2.1:7", false, 1_000),
    (60_020, "192.0.2.1:8", false, 0),
    (120_000, "[2001:db8::1]:4", false, 0),
];

/// How long the answers of a login wait.
fn login<H: Handler>(alloc: Global, world: &mut H::World, row: &Login) -> Result<(u64, u64), Fail> {
    let (now, from, refused, _) = *row;
    let last = if refused { STRANGE } else { BEGIN[1] };
    let text = bytes_of(alloc, &[HELLO, OPEN, BEGIN[0], last])?;
    let from = from.parse::<SocketAddr>().ok();
    Ok(waits::<H>(alloc, world, now, from, text.as_slice()))
}

/// How long the answers of these logins wait, one after the other.
fn waits_in_turn<H: Handler>(alloc: Global, world: &mut H::World) -> Result<Vec<(u64, u64)>, Fail> {
    let mut all = Vec::new(alloc);
    for row in &LOGINS {
        all.push(login::<H>(alloc, world, row)?)?;
    }
    Ok(all)
}

/// The same over a plant, where so many refused ones are kept, and those before them.
fn waited(alloc: Global, kept: usize) -> Result<Vec<(u64, u64)>, Fail> {
    let settings = Settings::read(alloc, PLANT)?;
    let mut world = shared_over_nothing(alloc, settings);
    keep_logins(alloc, &mut world, kept)?;
    waits_in_turn::<Talk<ListArchive>>(alloc, &mut world)
}

/// Where the first comes from whose answers wait otherwise, where so many refused logins are kept.
fn first_other(alloc: Global, kept: usize) -> Result<Option<&'static str>, Fail> {
    let all = waited(alloc, kept)?;
    for (row, waits) in LOGINS.iter().zip(all.as_slice()) {
        let (_, from, _, want) = *row;
        if *waits != (0, want) {
            return Ok(Some(from));
        }
    }
    Ok(None)
}

#[test]
fn a_login_waits_where_two_were_refused_from_there(rt: HostRuntime) -> Result<(), Fail> {
    assert_eq!(rt; first_other(rt.alloc(), 1_000)?, None);
    Ok(())
}

/// Whether no answer waits where so many refused logins are kept.
fn none_waits(alloc: Global, kept: usize) -> Result<bool, Fail> {
    let all = waited(alloc, kept)?;
    Ok(all.iter().all(|waits| *waits == (0, 0)))
}

#[test]
fn none_waits_where_fewer_are_kept_than_may_be_refused(rt: HostRuntime) -> Result<(), Fail> {
    assert!(rt; none_waits(rt.alloc(), 1)?);
    Ok(())
}
