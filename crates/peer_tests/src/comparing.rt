//! A peer that is called, and compared with before.

use crate::peers::{answered, insert_of, learn, replica};
use archive::Archive;
use exchange::{ExchangeFault, Replica};
use peer_check::{Clash, Extent, compare};
use stamp::ReplicaNo;
use std::alloc::Global;
use std::io::{Read, Write};
use std::test::Fail;
use ua_binary::{Bytes, Text};
use ua_server::{Counted, SyncFault};
use ua_variant::Scalar;

/// The size of a value of which one fills half of a frame.
const LARGE: usize = 1_048_000;

/// A pair of machines: who made the records of replica 3 that each of them holds, its first record first; how much is compared, how many
/// questions are asked, and the number of the record in which they clash, 0 for none.
type Pair = (
    &'static [&'static str],
    &'static [&'static str],
    Extent,
    usize,
    u64,
);

/// Pairs of machines.
static PAIRS: [Pair; 10] = [
    (&["ann"], &["ann"], Extent::Last, 3, 0),
    (&["ann"], &["ben"], Extent::Last, 2, 1),
    (&["ann"], &[], Extent::Last, 2, 0),
    (&[], &["ben"], Extent::Last, 2, 0),
    (&[], &[], Extent::Last, 2, 0),
    (&["ann", "ann", "ann", "ann"], &["ben"], Extent::Last, 2, 1),
    (
        &["ann", "ann", "ann"],
        &["ann", "ben", "ann"],
        Extent::Last,
        3,
        0,
    ),
    (
        &["ann", "ann", "ann"],
        &["ann", "ben", "ann"],
        Extent::All,
        2,
        2,
    ),
    (&["ann", "ann", "ann"], &["ann", "ann"], Extent::All, 3, 0),
    (&[], &["ben"], Extent::All, 2, 0),
];

/// A value of so many bytes.
fn value_of(alloc: Global, size: usize) -> Result<Scalar, Fail> {
    let bytes = Bytes::new(vec![in alloc; 0; size]?);
    Ok(Scalar::ByteString(Some(bytes)))
}

/// An archive learns a record of another replica by its name, made by a user; its value is so many bytes.
fn hold_one<A: Archive>(
    alloc: Global,
    archive: &mut A,
    name: (ReplicaNo, u64),
    user: &str,
    size: usize,
) -> Result<(), Fail> {
    let (origin, number) = name;
    let stamp = (origin, number, 100i64.saturating_add_unsigned(number));
    let node = Text::from_str(alloc, "T")?;
    let user = Text::from_str(alloc, user)?;
    let written = value_of(alloc, size)?;
    let record = insert_of(stamp, node, user, written);
    learn(archive, &record)
}

/// Lets a replica hold the records of another one from the first on, each made by one of these users and of so many bytes.
fn hold<A: Archive>(
    alloc: Global,
    held: &mut Replica<A>,
    origin: u8,
    users: &[&str],
    size: usize,
) -> Result<(), Fail> {
    let origin = ReplicaNo::new(origin).ok_or("a replica")?;
    let mut number: u64 = 1;
    for user in users {
        hold_one(alloc, &mut held.archive, (origin, number), user, size)?;
        number = number.saturating_add(1);
    }
    Ok(())
}

/// Lets a replica hold records of replica 3, made by these users.
fn hold_some<A: Archive>(alloc: Global, held: &mut Replica<A>, users: &[&str]) -> Result<(), Fail> {
    hold(alloc, held, 3, users, 4)
}

/// What a comparison finds: the number of the record in which there is a clash, and whether it is of a record of ann with one
/// of ben.
type Found = Result<Option<(u64, bool)>, SyncFault>;

/// Whether a clash is of records of these users.
fn is_between(clash: &Clash, here: &str, there: &str) -> bool {
    clash.held.user.as_str() == here && clash.brought.user.as_str() == there
}

/// What was found, without the records.
fn found_of(found: &Result<Option<Clash>, SyncFault>) -> Found {
    match found {
        Ok(None) => Ok(None),
        Ok(Some(clash)) => Ok(Some((clash.held.number, is_between(clash, "ann", "ben")))),
        Err(fault) => Err(*fault),
    }
}

/// What a replica finds that is compared with a peer.
fn found_by<A: Archive, R: Read, W: Write>(
    alloc: Global,
    one: &mut Replica<A>,
    extent: Extent,
    reader: &mut Counted<R>,
    writer: &mut Counted<W>,
) -> Found {
    let found = compare(alloc, one, extent, reader, writer);
    found_of(&found)
}

/// What replica 1 writes that is compared with a peer which sent these bytes, and what is found.
fn compared<A: Archive>(
    alloc: Global,
    one: &mut Replica<A>,
    extent: Extent,
    bytes: &[u8],
) -> (Vec<u8>, Found) {
    let mut reader = Counted::new(bytes);
    let mut writer = Counted::new(Vec::new(alloc));
    let found = found_by(alloc, one, extent, &mut reader, &mut writer);
    (writer.into_inner(), found)
}

/// The same where the peer is a replica that answers these questions.
fn compared_with<A: Archive>(
    alloc: Global,
    one: &mut Replica<A>,
    extent: Extent,
    two: &mut Replica<A>,
    questions: &[u8],
) -> (Vec<u8>, Found) {
    let back = answered(alloc, two, questions);
    compared(alloc, one, extent, back.as_slice())
}

/// What comparing with a replica finds that answers each question, and how many were asked.
fn found_with<A: Archive>(
    alloc: Global,
    one: &mut Replica<A>,
    extent: Extent,
    two: &mut Replica<A>,
) -> (usize, Found) {
    let (mut questions, mut found) = compared(alloc, one, extent, &[]);
    for asked in 1..8 {
        if found != Err(SyncFault::Exchange(ExchangeFault::Frame)) {
            return (asked, found);
        }
        let (more, then) = compared_with(alloc, one, extent, two, questions.as_slice());
        if more.len() == questions.len() {
            return (asked, then);
        }
        questions = more;
        found = then;
    }
    (8, found)
}

/// What should be found: a clash of ann and ben in the record of this number, or none for 0.
fn clash_in(number: u64) -> Found {
    if number == 0 {
        Ok(None)
    } else {
        Ok(Some((number, true)))
    }
}

/// Whether comparing a pair finds what it should behind so many questions.
fn finds_between<A: Archive>(
    alloc: Global,
    one: &mut Replica<A>,
    two: &mut Replica<A>,
    pair: &Pair,
) -> Result<bool, Fail> {
    let (here, there, extent, most, number) = *pair;
    hold_some(alloc, one, here)?;
    hold_some(alloc, two, there)?;
    Ok(found_with(alloc, one, extent, two) == (most, clash_in(number)))
}

/// The same of replicas 1 and 2.
fn finds(alloc: Global, pair: &Pair) -> Result<bool, Fail> {
    let mut one = replica(alloc, 1)?;
    let mut two = replica(alloc, 2)?;
    finds_between(alloc, &mut one, &mut two, pair)
}

#[test]
fn numbers_given_twice_are_found(rt: HostRuntime) -> Result<(), Fail> {
    for pair in &PAIRS {
        assert!(rt; finds(rt.alloc(), pair)?);
    }
    Ok(())
}

/// Whether a clash behind more records of another replica than a frame takes is found behind so many questions.
fn finds_behind_full_frames<A: Archive>(
    alloc: Global,
    one: &mut Replica<A>,
    two: &mut Replica<A>,
    extent: Extent,
    most: usize,
) -> Result<bool, Fail> {
    hold_some(alloc, one, &["ann"])?;
    hold_some(alloc, two, &["ben"])?;
    hold(alloc, one, 2, &["eve"], LARGE)?;
    hold(alloc, two, 2, &["eve", "eve", "eve"], LARGE)?;
    Ok(found_with(alloc, one, extent, two) == (most, clash_in(1)))
}

/// The same of replicas 1 and 2.
fn finds_behind(alloc: Global, extent: Extent, most: usize) -> Result<bool, Fail> {
    let mut one = replica(alloc, 1)?;
    let mut two = replica(alloc, 2)?;
    finds_behind_full_frames(alloc, &mut one, &mut two, extent, most)
}

#[test]
fn numbers_behind_a_full_frame_are_found(rt: HostRuntime) -> Result<(), Fail> {
    assert!(rt; finds_behind(rt.alloc(), Extent::Last, 3)?);
    assert!(rt; finds_behind(rt.alloc(), Extent::All, 3)?);
    Ok(())
}

/// What a peer sends to replica 1 in place of records, and how that ends.
static ENDINGS: [(&[u8], SyncFault); 4] = [
    (b"", SyncFault::Exchange(ExchangeFault::Frame)),
    (b"RXEF\x0c\0\0\0\x07\0\0\0", SyncFault::Peer(7)),
    (
        b"RXVF\x1b\0\0\0\x02\0\0\0\0\0\0\0\0\0\0\0\0\0\0\0\0\x02\0",
        SyncFault::Exchange(ExchangeFault::Frame),
    ),
    (
        b"RXDF\x1f\0\0\0\x02\0\0\0\0\0\0\0\0\0\0\0\0\0\0\0\0\x01\0\0\0\0\0",
        SyncFault::Exchange(ExchangeFault::SelfPeer),
    ),
];

/// What a replica finds that holds a record and is sent these bytes.
fn found_behind<A: Archive>(
    alloc: Global,
    one: &mut Replica<A>,
    bytes: &[u8],
) -> Result<Found, Fail> {
    hold_some(alloc, one, &["ann"])?;
    let (_, found) = compared(alloc, one, Extent::Last, bytes);
    Ok(found)
}

/// The same of replica 1.
fn found_of_one(alloc: Global, bytes: &[u8]) -> Result<Found, Fail> {
    let mut one = replica(alloc, 1)?;
    found_behind(alloc, &mut one, bytes)
}

#[test]
fn comparing_ends_so(rt: HostRuntime) -> Result<(), Fail> {
    for (bytes, fault) in &ENDINGS {
        assert!(rt; found_of_one(rt.alloc(), bytes)? == Err(*fault));
    }
    Ok(())
}
