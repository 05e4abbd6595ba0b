//! From where peers are taken at a door of their own.

use crate::conversations::{ASKED, NOTHING};
use crate::scripts::{Caller, Heard, heard_in_plant};
use conversation::{Door, Network};
use server_rows::streams::bytes_of;
use std::alloc::Global;
use std::net::{IpAddr, SocketAddr};
use std::test::Fail;
use ua_binary::Listing;

/// Networks and addresses as they are spelled, an address, and whether they have it.
static ROWS: [(&str, &str, bool); 22] = [
    ("10.1.0.0/16", "10.1.2.3", true),
    ("10.1.0.0/16", "10.1.255.255", true),
    ("10.1.0.0/16", "10.2.0.0", false),
    ("10.1.0.0/16", "10.0.255.255", false),
    ("10.1.2.3/16", "10.1.9.9", true),
    ("10.1.2.3", "10.1.2.3", true),
    ("10.1.2.3", "10.1.2.2", false),
    ("10.1.2.3/32", "10.1.2.3", true),
    ("10.1.2.3/31", "10.1.2.2", true),
    ("10.1.2.3/31", "10.1.2.4", false),
    ("0.0.0.0/0", "203.0.113.7", true),
    ("0.0.0.0/0", "::1", false),
    ("128.0.0.0/1", "127.255.255.255", false),
    ("128.0.0.0/1", "128.0.0.0", true),
    ("fd00::/8", "fdff::1", true),
    ("fd00::/8", "fc00::1", false),
    ("fd00::1", "fd00::1", true),
    ("fd00::1", "fd00::2", false),
    ("fd00::1/127", "fd00::", true),
    ("::/0", "2001:db8::1", true),
    ("::/0", "10.1.2.3", false),
    ("::ffff:10.1.0.0/112", "10.1.2.3", false),
];

/// Texts that spell no network.
static NONE: [&str; 12] = [
    "",
    "/",
    "10.1.0.0/",
    "/16",
    "10.1.0.0/33",
    "10.1.0.0/-1",
    "10.1.0.0/16/8",
    "10.1.0/16",
    "10.1.0.0 /16",
    "fd00::/129",
    "fd00::/256",
    "plant",
];

/// Whether a network has an address; none where either is none.
fn has(network: &str, address: &str) -> Option<bool> {
    let network = Network::parse(network)?;
    match address.parse::<IpAddr>() {
        Ok(address) => Some(network.has(address)),
        Err(_) => None,
    }
}

#[test]
fn networks_have_their_addresses(rt: HostRuntime) -> Result<(), Fail> {
    for (text, address, want) in &ROWS {
        assert_eq!(rt; has(text, address), Some(*want), "{text} {address}");
    }
    for text in &NONE {
        assert!(rt; Network::parse(text).is_none(), "{text}");
    }
    Ok(())
}

/// Who comes to which door, from where, and whether it is answered.
static COMERS: [(Door, &str, bool); 7] = [
    (Door::Peers, "10.1.2.3:50000", true),
    (Door::Peers, "10.2.0.1:50000", false),
    (Door::Peers, "[fd00::7]:50000", true),
    (Door::Peers, "[2001:db8::7]:50000", false),
    (Door::Peers, "", false),
    (Door::Both, "10.2.0.1:50000", true),
    (Door::Both, "", true),
];

/// Peers that come there and from there, and ask what there is.
fn comers(text: &[u8]) -> [Caller<'_>; 7] {
    COMERS.map(|(door, address, _)| Caller {
        door,
        address: address.parse::<SocketAddr>().ok(),
        text,
        each: 1000,
        pace: 1,
    })
}

/// These networks.
fn networks(alloc: Global, texts: &[&str]) -> Result<Listing<Network>, Fail> {
    let mut networks = Vec::new(alloc);
    for text in texts {
        networks.push(Network::parse(text).ok_or("a network")?)?;
    }
    Ok(Listing::of(networks))
}

/// What they read, where peers are taken from two networks.
fn heard(alloc: Global) -> Result<Vec<Heard>, Fail> {
    let asked = bytes_of(alloc, &[ASKED])?;
    let callers = comers(asked.as_slice());
    let from = networks(alloc, &["10.1.0.0/16", "fd00::/8"])?;
    heard_in_plant(alloc, &callers, Some(from))
}

/// Whether this answers who has this number, or nothing does that isn't taken.
fn is_answer(number: usize, text: &[u8], answer: &[u8]) -> bool {
    match COMERS.get(number) {
        Some((_, _, true)) => text == answer,
        Some((_, _, false)) | None => text.is_empty(),
    }
}

/// The number of the first who reads something else.
fn first_other(heard: &[Heard], answer: &[u8]) -> Option<usize> {
    for (number, text) in heard {
        if !is_answer(*number, text.as_slice(), answer) {
            return Some(*number);
        }
    }
    None
}

/// How many of them read something or nothing, and which is the first that reads something else than it should.
fn answered(alloc: Global) -> Result<(usize, Option<usize>), Fail> {
    let answer = bytes_of(alloc, &[NOTHING])?;
    let heard = heard(alloc)?;
    Ok((
        heard.len(),
        first_other(heard.as_slice(), answer.as_slice()),
    ))
}

/// A stranger at the door of peers is told nothing, and at the other doors it makes no difference where one comes from.
#[test]
fn strangers_are_turned_away(rt: HostRuntime) -> Result<(), Fail> {
    assert_eq!(rt; answered(rt.alloc())?, (COMERS.len(), None));
    Ok(())
}
