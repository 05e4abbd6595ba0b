//! Channels: openings, and messages out of chunks.

use std::alloc::{AllocError, Global};
use ua_channel::{Channel, ChannelFault, Taken};
use uacp::{Ack, Chunk, Hello, Kind, Letter};

/// A first OPN, after its eight bytes: the sequence number, the request id and the handle are 1; Issue,
/// an hour.
const OPENING: [u8; 124] =
    *b"\0\0\0\0\x2f\0\0\0http://opcfoundation.org/UA/SecurityPolicy#None\xff\xff\xff\xff\xff\xff\xff\xff\x01\0\0\0\x01\0\0\0\x01\0\xbe\x01\0\0\0\0\0\0\0\0\0\0\x01\0\0\0\0\0\0\0\xff\xff\xff\xff\0\0\0\0\0\0\0\0\0\0\0\0\0\0\0\x01\0\0\0\xff\xff\xff\xff\x80\xee\x36\0";

/// A channel between two that take 8,192 bytes a chunk.
fn channel_of(alloc: Global, max_message: u32, max_chunks: u32) -> Channel {
    let hello = Hello {
        version: 0,
        receive_size: 8192,
        send_size: 8192,
        max_message,
        max_chunks,
    };
    let ack = Ack {
        receive_size: 8192,
        send_size: 8192,
    };
    Channel::new(alloc, &hello, &ack)
}

/// What a chunk is answered.
type Answer = Result<(u8, u32, usize, u8), ChannelFault>;

/// What a chunk came to: 0 nothing, 1 an opening, 2 a message, 3 one given up, 4 closed; the request
/// id or the token; the bytes and the first of them.
fn shown(taken: Taken<'_>) -> (u8, u32, usize, u8) {
    match taken {
        Taken::Nothing => (0, 0, 0, 0),
        Taken::Opening(request) => (1, request.token, 0, 0),
        Taken::Message(request_id, bytes) => (
            2,
            request_id,
            bytes.as_slice().len(),
            bytes.as_slice().first().copied().unwrap_or(0),
        ),
        Taken::Aborted(request_id) => (3, request_id, 0, 0),
        Taken::Closed => (4, 0, 0, 0),
    }
}

/// Takes an OPN that is the first one but for these bytes.
fn open(channel: &mut Channel, bytes: &[(usize, u8)]) -> Answer {
    let mut body = OPENING;
    for (at, byte) in bytes {
        if *at < body.len() {
            body[*at] = *byte;
        }
    }
    let taken = channel.take(Chunk {
        kind: Kind::Open,
        letter: Letter::Final,
        body: &body,
    })?;
    Ok(shown(taken))
}

/// A chunk of a message, or a CLO: its letter, channel id, token, sequence number and request id.
type Step = (Kind, Letter, u32, u32, u32, u32);

/// The numbers of a chunk and some bytes.
fn put_step(body: &mut Vec<u8>, step: Step, bytes: &[u8]) -> Result<(), AllocError> {
    for number in [step.2, step.3, step.4, step.5] {
        body.extend_from_slice(&number.to_le_bytes())?;
    }
    body.extend_from_slice(bytes)
}

/// Takes a chunk.
fn take_chunk(channel: &mut Channel, kind: Kind, letter: Letter, body: &[u8]) -> Answer {
    let taken = channel.take(Chunk { kind, letter, body })?;
    Ok(shown(taken))
}

/// Takes a chunk with these numbers and some bytes.
fn take(alloc: Global, channel: &mut Channel, step: Step, bytes: &[u8]) -> Answer {
    let mut body = Vec::new(alloc);
    put_step(&mut body, step, bytes)?;
    take_chunk(channel, step.0, step.1, body.as_slice())
}

/// What a channel answers the first OPN but for these bytes, and what the next one, on channel 2.
fn open_twice(alloc: Global, bytes: &[(usize, u8)]) -> (Answer, Answer) {
    let mut channel = channel_of(alloc, 0, 0);
    let first = open(&mut channel, bytes);
    (first, open(&mut channel, [(63, 2), (108, 1)].as_slice()))
}

/// The first OPN but for some bytes, and what it is answered.
static OPENINGS: [(&str, &[(usize, u8)], Answer); 9] = [
    ("as it is", &[(0, 0), (0, 0)], Ok((1, 1, 0, 0))),
    ("channel 7, not looked at", &[(0, 7)], Ok((1, 1, 0, 0))),
    ("another policy", &[(54, b'f')], Err(ChannelFault::Policy)),
    (
        "that and a certificate of length -2",
        &[(54, b'f'), (55, 0xfe)],
        Err(ChannelFault::Decoding),
    ),
    ("type 447", &[(73, 0xbf)], Err(ChannelFault::Decoding)),
    (
        "a nonce past the end",
        &[(116, 5), (117, 0), (118, 0), (119, 0)],
        Err(ChannelFault::Decoding),
    ),
    ("Renew", &[(108, 1)], Err(ChannelFault::RequestType)),
    (
        "Renew and mode 2",
        &[(108, 1), (112, 2)],
        Err(ChannelFault::RequestType),
    ),
    ("mode 2", &[(112, 2)], Err(ChannelFault::Mode)),
];

#[test]
fn judges_openings(rt: HostRuntime) {
    for row in &OPENINGS {
        let (what, bytes, want) = *row;
        // channel 0 is another one, once a channel stands; after a fault there is none
        let (first, again) = open_twice(rt.alloc(), bytes);
        assert_eq!(rt; first, want, "at {what}");
        assert_eq!(rt; again, Err(ChannelFault::ChannelId), "after {what}");
    }
}

/// Chunks one after the other on a channel that was opened, and what each is answered.
static MESSAGES: [(Step, &[u8], Answer); 9] = [
    (
        (Kind::Message, Letter::Final, 1, 1, 2, 2),
        b"abc",
        Ok((2, 2, 3, b'a')),
    ),
    (
        (Kind::Message, Letter::More, 1, 1, 3, 3),
        b"\0\x01",
        Ok((0, 0, 0, 0)),
    ),
    (
        (Kind::Message, Letter::Final, 1, 1, 4, 3),
        b"z",
        Ok((2, 3, 3, 0)),
    ),
    (
        (Kind::Message, Letter::More, 1, 1, 5, 4),
        b"q",
        Ok((0, 0, 0, 0)),
    ),
    (
        (Kind::Message, Letter::Abort, 1, 1, 6, 4),
        b"",
        Ok((3, 4, 0, 0)),
    ),
    (
        (Kind::Message, Letter::Abort, 1, 1, 7, 9),
        b"x",
        Ok((3, 9, 0, 0)),
    ),
    (
        (Kind::Message, Letter::Final, 1, 1, 8, 5),
        b"",
        Ok((2, 5, 0, 0)),
    ),
    (
        (Kind::Close, Letter::Final, 1, 1, 9, 6),
        b"",
        Ok((4, 0, 0, 0)),
    ),
    (
        (Kind::Message, Letter::Final, 1, 1, 10, 7),
        b"",
        Err(ChannelFault::ChannelId),
    ),
];

/// The first of them that a new channel answers otherwise, once it is opened.
fn first_other(alloc: Global, channel: &mut Channel) -> Result<Option<usize>, ChannelFault> {
    open(channel, [].as_slice())?;
    for (i, row) in MESSAGES.iter().enumerate() {
        let (step, bytes, want) = *row;
        if take(alloc, channel, step, bytes) != want {
            return Ok(Some(i));
        }
    }
    Ok(None)
}

/// The same of a channel that is made for it.
fn first_other_of(alloc: Global) -> Result<Option<usize>, ChannelFault> {
    let mut channel = channel_of(alloc, 0, 0);
    first_other(alloc, &mut channel)
}

/// A chunk before the channel is opened.
const BEFORE: Step = (Kind::Message, Letter::Final, 1, 1, 1, 1);

/// What a channel answers that chunk.
fn take_before(alloc: Global) -> Answer {
    let mut channel = channel_of(alloc, 0, 0);
    take(alloc, &mut channel, BEFORE, b"")
}

#[test]
fn takes_messages(rt: HostRuntime) {
    assert_eq!(rt; take_before(rt.alloc()), Err(ChannelFault::ChannelId));
    assert_eq!(rt; first_other_of(rt.alloc()), Ok(None));
}

/// What the last chunk is answered on a channel that was opened and took the first one, if there is one.
fn judged(alloc: Global, channel: &mut Channel, first: Option<Step>, last: Step) -> Option<Answer> {
    if open(channel, [].as_slice()).is_err() {
        return None;
    }
    if let Some(first) = first {
        if take(alloc, channel, first, b"a").is_err() {
            return None;
        }
    }
    Some(take(alloc, channel, last, b"a"))
}

/// The same of a channel that is new.
fn judged_anew(alloc: Global, first: Option<Step>, last: Step) -> Option<Answer> {
    let mut channel = channel_of(alloc, 0, 0);
    judged(alloc, &mut channel, first, last)
}

/// A first chunk on a channel that was opened, if there is one, the last one, and by what that is refused.
static JUDGED: [(Option<Step>, Step, ChannelFault); 8] = [
    (
        None,
        (Kind::Message, Letter::Final, 2, 1, 2, 2),
        ChannelFault::ChannelId,
    ),
    (
        None,
        (Kind::Message, Letter::Final, 1, 2, 2, 2),
        ChannelFault::Token,
    ),
    (
        None,
        (Kind::Message, Letter::Final, 1, 0, 2, 2),
        ChannelFault::Token,
    ),
    (
        None,
        (Kind::Message, Letter::Final, 1, 1, 3, 2),
        ChannelFault::Sequence,
    ),
    (
        None,
        (Kind::Close, Letter::Final, 1, 1, 1, 2),
        ChannelFault::Sequence,
    ),
    (
        Some((Kind::Message, Letter::More, 1, 1, 2, 2)),
        (Kind::Message, Letter::Final, 1, 1, 3, 3),
        ChannelFault::Sequence,
    ),
    (
        Some((Kind::Message, Letter::More, 1, 1, 2, 2)),
        (Kind::Message, Letter::Abort, 1, 1, 3, 3),
        ChannelFault::Sequence,
    ),
    (
        Some((Kind::Message, Letter::More, 1, 1, 2, 2)),
        (Kind::Close, Letter::Final, 1, 1, 3, 3),
        ChannelFault::Sequence,
    ),
];

#[test]
fn judges_messages(rt: HostRuntime) {
    for row in &JUDGED {
        let (first, last, want) = *row;
        assert_eq!(rt; judged_anew(rt.alloc(), first, last), Some(Err(want)));
    }
}

/// Whether so many bytes fit a channel between two that take so much.
fn fits(alloc: Global, max_message: u32, max_chunks: u32, bytes: usize) -> bool {
    let channel = channel_of(alloc, max_message, max_chunks);
    channel.fits(bytes)
}

/// What a channel takes of a message and of chunks, a number of bytes, and whether they fit.
static FITTING: [(u32, u32, usize, bool); 8] = [
    (100, 0, 100, true),
    (100, 0, 101, false),
    (0, 1, 8168, true),
    (0, 1, 8169, false),
    (0, 2, 16336, true),
    (0, 0, 16_777_216, true),
    (0, 0, 16_777_217, false),
    (1, 1, 0, true),
];

#[test]
fn tells_what_fits(rt: HostRuntime) {
    for row in &FITTING {
        let (max_message, max_chunks, n, want) = *row;
        assert_eq!(rt;
            fits(rt.alloc(), max_message, max_chunks, n),
            want,
            "{n} at {max_message} and {max_chunks}"
        );
    }
}

/// Faults, their numbers and their codes.
static FAULTS: [(ChannelFault, u8, u32); 10] = [
    (ChannelFault::Policy, 1, 0x8055_0000),
    (ChannelFault::Mode, 2, 0x8054_0000),
    (ChannelFault::RequestType, 3, 0x8053_0000),
    (ChannelFault::ChannelId, 4, 0x8022_0000),
    (ChannelFault::Token, 5, 0x8087_0000),
    (ChannelFault::Sequence, 6, 0x8088_0000),
    (ChannelFault::TooManyChunks, 7, 0x8080_0000),
    (ChannelFault::TooLarge, 8, 0x8080_0000),
    (ChannelFault::Decoding, 9, 0x8007_0000),
    (ChannelFault::OutOfMemory, 10, 0x8003_0000),
];

#[test]
fn tells_faults(rt: HostRuntime) {
    for row in &FAULTS {
        let (fault, number, code) = *row;
        assert_eq!(rt;
            (fault.number(), fault.code().0),
            (number, code),
            "of {fault}"
        );
    }
}
