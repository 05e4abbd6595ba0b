//! Greetings and chunks.

use std::alloc::Global;
use uacp::{Hello, Intake, Kind, Letter, UacpFault, answer_hello, read_hello, split};

/// A greeting of 56 bytes: sizes 65,536, no other limits, a URL of 24 bytes.
const HELLO: &[u8] =
    b"HELF\x38\0\0\0\0\0\0\0\0\0\x01\0\0\0\x01\0\0\0\0\0\0\0\0\0\x18\0\0\0opc.tcp://localhost:4840";

/// What is found: a chunk's kind, letter and number of bytes after the header, where there is a whole one.
type Found = Result<Option<(Kind, Letter, usize)>, UacpFault>;

/// The next chunk's kind, letter and number of bytes after the header.
fn next(intake: &mut Intake) -> Found {
    let chunk = intake.next_chunk()?;
    Ok(chunk.map(|chunk| (chunk.kind, chunk.letter, chunk.body.len())))
}

/// What stands first in some bytes, after a greeting or as the first ones.
fn first_in(intake: &mut Intake, is_greeted: bool, bytes: &[u8]) -> Found {
    if is_greeted {
        intake.feed(HELLO)?;
        next(intake)?;
    }
    intake.feed(bytes)?;
    next(intake)
}

/// The same of bytes that nothing was read before.
fn first(alloc: Global, is_greeted: bool, bytes: &[u8]) -> Found {
    let mut intake = Intake::new(alloc);
    first_in(&mut intake, is_greeted, bytes)
}

/// Five numbers and a null URL, with these sizes.
fn hello_of(receive_size: u32, send_size: u32) -> [u8; 24] {
    let mut body = [0; 24];
    body[4..8].copy_from_slice(&receive_size.to_le_bytes());
    body[8..12].copy_from_slice(&send_size.to_le_bytes());
    body[20..].copy_from_slice(&[255; 4]);
    body
}

/// The sizes that a Hello with these is answered.
fn answered(receive_size: u32, send_size: u32) -> Result<(u32, u32), UacpFault> {
    let hello = read_hello(&hello_of(receive_size, send_size))?;
    let ack = answer_hello(&hello)?;
    Ok((ack.receive_size, ack.send_size))
}

/// The sizes of a Hello, and those that it is answered.
static SIZES: [(u32, u32, Result<(u32, u32), UacpFault>); 5] = [
    (8191, 65536, Err(UacpFault::BuffersTooSmall)),
    (65536, 8191, Err(UacpFault::BuffersTooSmall)),
    (8192, 16384, Ok((16384, 8192))),
    (65537, 8192, Ok((8192, 65536))),
    (8192, u32::MAX, Ok((65536, 8192))),
];

#[test]
fn answers_by_the_sizes(rt: HostRuntime) {
    for row in &SIZES {
        let (receive_size, send_size, want) = *row;
        assert!(rt;
            answered(receive_size, send_size) == want,
            "at {receive_size} and {send_size}"
        );
    }
}

#[test]
fn reads_hellos(rt: HostRuntime) {
    let hello = read_hello(
        b"\x07\0\0\0\0\x20\0\0\0\x40\0\0\x01\0\0\0\x02\0\0\0\x03\0\0\0a\xc3\xa9",
    );
    let want = Hello {
        version: 7,
        receive_size: 8192,
        send_size: 16384,
        max_message: 1,
        max_chunks: 2,
    };
    assert_eq!(rt; hello, Ok(want));
}

/// What is no Hello, and its bytes.
static NO_HELLOS: [(&str, &[u8]); 7] = [
    ("nothing", b""),
    ("no URL", b"\0\0\0\0\0\x20\0\0\0\x20\0\0\0\0\0\0\0\0\0\0"),
    (
        "length -2",
        b"\0\0\0\0\0\x20\0\0\0\x20\0\0\0\0\0\0\0\0\0\0\xfe\xff\xff\xff",
    ),
    (
        "a URL of two bytes that has one",
        b"\0\0\0\0\0\x20\0\0\0\x20\0\0\0\0\0\0\0\0\0\0\x02\0\0\0a",
    ),
    (
        "a URL that is not UTF-8",
        b"\0\0\0\0\0\x20\0\0\0\x20\0\0\0\0\0\0\0\0\0\0\x02\0\0\0\xc3\x28",
    ),
    (
        "a byte after a null URL",
        b"\0\0\0\0\0\x20\0\0\0\x20\0\0\0\0\0\0\0\0\0\0\xff\xff\xff\xff\0",
    ),
    (
        "a byte after the URL",
        b"\0\0\0\0\0\x20\0\0\0\x20\0\0\0\0\0\0\0\0\0\0\x01\0\0\0ab",
    ),
];

#[test]
fn refuses_other_hellos(rt: HostRuntime) {
    for (what, body) in &NO_HELLOS {
        assert_eq!(rt; read_hello(body), Err(UacpFault::HelloInvalid), "at {what}");
    }
}

/// Bytes that come first, what they are, and the chunk that is read.
static FIRST_CHUNKS: [(&str, &[u8], Found); 9] = [
    ("seven bytes", b"GET /ab", Ok(None)),
    ("size 31", b"HELF\x1f\0\0\0", Err(UacpFault::SizeTooSmall)),
    ("size 0", b"HELF\0\0\0\0", Err(UacpFault::SizeTooSmall)),
    ("size 32", b"HELF\x20\0\0\0", Ok(None)),
    ("size 4,128", b"HELF\x20\x10\0\0", Ok(None)),
    ("size 4,129", b"HELF\x21\x10\0\0", Err(UacpFault::TooLarge)),
    (
        "letters of no chunk",
        b"GET \x2f\0\0\0",
        Err(UacpFault::TypeInvalid),
    ),
    (
        "more of a Hello",
        b"HELC\x20\0\0\0",
        Err(UacpFault::TypeInvalid),
    ),
    ("a message", b"MSGF\x18\0\0\0", Err(UacpFault::TypeInvalid)),
];

#[test]
fn judges_the_first_chunk(rt: HostRuntime) {
    for row in &FIRST_CHUNKS {
        let (what, bytes, want) = *row;
        assert_eq!(rt; first(rt.alloc(), false, bytes), want, "at {what}");
    }
}

/// Bytes behind a greeting, what they are, and the chunk that is read.
static LATER_CHUNKS: [(&str, &[u8], Found); 12] = [
    (
        "MSG of 24",
        b"MSGC\x18\0\0\0abcdefghijklmnop",
        Ok(Some((Kind::Message, Letter::More, 16))),
    ),
    (
        "MSG of 23",
        b"MSGF\x17\0\0\0abcdefghijklmno",
        Err(UacpFault::SizeTooSmall),
    ),
    ("MSG given up", b"MSGA\x18\0\0\0", Ok(None)),
    ("MSG of 65,536", b"MSGF\0\0\x01\0", Ok(None)),
    (
        "MSG of 65,537",
        b"MSGF\x01\0\x01\0",
        Err(UacpFault::TooLarge),
    ),
    ("OPN of 31", b"OPNF\x1f\0\0\0", Err(UacpFault::SizeTooSmall)),
    ("OPN of 32", b"OPNF\x20\0\0\0", Ok(None)),
    (
        "more of an OPN",
        b"OPNC\x20\0\0\0",
        Err(UacpFault::TypeInvalid),
    ),
    ("CLO of 23", b"CLOF\x17\0\0\0", Err(UacpFault::SizeTooSmall)),
    ("CLO of 24", b"CLOF\x18\0\0\0", Ok(None)),
    (
        "a CLO given up",
        b"CLOA\x18\0\0\0",
        Err(UacpFault::TypeInvalid),
    ),
    ("a second HEL", HELLO, Err(UacpFault::TypeInvalid)),
];

#[test]
fn judges_later_chunks(rt: HostRuntime) {
    for row in &LATER_CHUNKS {
        let (what, bytes, want) = *row;
        assert_eq!(rt; first(rt.alloc(), true, bytes), want, "at {what}");
    }
}

/// Faults, their numbers and their codes.
static FAULTS: [(UacpFault, u8, u32); 6] = [
    (UacpFault::TypeInvalid, 1, 0x807E_0000),
    (UacpFault::TooLarge, 2, 0x8080_0000),
    (UacpFault::SizeTooSmall, 3, 0x8007_0000),
    (UacpFault::HelloInvalid, 4, 0x8007_0000),
    (UacpFault::BuffersTooSmall, 5, 0x80AC_0000),
    (UacpFault::OutOfMemory, 6, 0x8003_0000),
];

#[test]
fn tells_faults(rt: HostRuntime) {
    for row in &FAULTS {
        let (fault, number, code) = *row;
        assert!(rt;
            fault.number() == number && fault.code().0 == code,
            "of {fault}"
        );
    }
}

/// Numbers of bytes in the first three pieces, where there are so many.
type Lengths = (Option<usize>, Option<usize>, Option<usize>);

/// The pieces of a body that is so long, for chunks of so many bytes.
fn pieces(len: usize, limit: usize) -> Option<Lengths> {
    let body = [7; 8169];
    if len > body.len() || limit <= 24 {
        return None;
    }
    let mut lens = split(&body[..len], limit).map(|piece| piece.len());
    Some((lens.next(), lens.next(), lens.next()))
}

/// How long a body is, how many bytes a chunk may have, and the pieces.
static PIECES: [(usize, usize, Lengths); 5] = [
    (8169, 8192, (Some(8168), Some(1), None)),
    (8168, 8192, (Some(8168), None, None)),
    (0, 8192, (Some(0), None, None)),
    (5, 26, (Some(2), Some(2), Some(1))),
    (4, 26, (Some(2), Some(2), None)),
];

#[test]
fn splits_bodies(rt: HostRuntime) {
    for row in &PIECES {
        let (len, limit, want) = *row;
        assert_eq!(rt; pieces(len, limit), Some(want), "{len} at {limit}");
    }
}
