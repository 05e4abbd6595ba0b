//! Moments and status codes.

use history_text::{TextFault, Time, read_status, read_time, status_text, time_text};
use std::alloc::Global;
use ua_binary::Status;

/// Whether a moment is written so, and read again.
fn is_written(alloc: Global, ticks: i64, pico: u16, text: &str) -> bool {
    let time = Time {
        ticks,
        pico: pico.min(9_999),
    };
    let written = match time_text(alloc, time) {
        Ok(written) => written.as_slice() == text.as_bytes(),
        Err(_) => false,
    };
    written && read_time(text) == Ok(time)
}

/// Moments, each with its text.
static WRITTEN: [(i64, u16, &str); 15] = [
    (134_168_400_000_000_000, 0, "2026-03-01T12:00:00.0000000Z"),
    (
        134_168_400_000_000_000,
        1,
        "2026-03-01T12:00:00.00000000001Z",
    ),
    (
        134_168_400_000_000_007,
        9_999,
        "2026-03-01T12:00:00.00000079999Z",
    ),
    (0, 0, "1601-01-01T00:00:00.0000000Z"),
    (2_650_467_743_999_999_999, 0, "9999-12-31T23:59:59.9999999Z"),
    (2_650_467_744_000_000_000, 0, "@2650467744000000000"),
    (2_650_467_744_000_000_000, 12, "@2650467744000000000+0012"),
    (i64::MAX, 0, "@9223372036854775807"),
    (i64::MIN, 9_999, "@-9223372036854775808+9999"),
    (-1, 0, "@-1"),
    (125_962_597_234_567_890, 0, "2000-02-29T01:02:03.4567890Z"),
    (116_444_736_000_000_000, 0, "1970-01-01T00:00:00.0000000Z"),
    (116_444_735_995_000_000, 0, "1969-12-31T23:59:59.5000000Z"),
    (94_405_824_000_000_000, 0, "1900-03-01T00:00:00.0000000Z"),
    (252_190_368_000_000_001, 0, "2400-02-29T00:00:00.0000001Z"),
];

#[test]
fn moments_are_written(rt: HostRuntime) {
    let alloc = rt.alloc();
    for (ticks, pico, text) in &WRITTEN {
        let good = is_written(alloc, *ticks, *pico, text);
        assert!(rt; good, "{text}");
    }
}

/// Other texts of moments.
static READ: [(&str, i64, u16); 10] = [
    ("2026-03-01T12:00:00Z", 134_168_400_000_000_000, 0),
    ("2026-03-01T12:00:00.5Z", 134_168_400_005_000_000, 0),
    ("2026-03-01T12:00:00.000000Z", 134_168_400_000_000_000, 0),
    (
        "2026-03-01T12:00:00.00000000000Z",
        134_168_400_000_000_000,
        0,
    ),
    ("@134168400000000000", 134_168_400_000_000_000, 0),
    ("@+5", 5, 0),
    ("@-0", 0, 0),
    ("@0005", 5, 0),
    ("@5+0001", 5, 1),
    ("@-5+9999", -5, 9_999),
];

#[test]
fn moments_are_read(rt: HostRuntime) {
    for (text, ticks, pico) in &READ {
        let time = Time {
            ticks: *ticks,
            pico: *pico,
        };
        assert!(rt; read_time(text) == Ok(time), "{text}");
    }
}

/// Texts that are no moment.
static REFUSED: [&str; 32] = [
    "",
    "now",
    "@",
    "@x",
    "@+0001",
    "@5+001x",
    "@5+10000",
    "@9223372036854775808",
    "@-9223372036854775809",
    " 2026-03-01T12:00:00Z",
    "2026-03-01T12:00:00",
    "2026-03-01T12:00:00Z ",
    "2026-03-01 12:00:00Z",
    "2026-03-01t12:00:00Z",
    "2026-03-01T12:00:00z",
    "2026-03-01T12:00:00+00:00",
    "2026-03-01T12:00Z",
    "2026-3-01T12:00:00Z",
    "+026-03-01T12:00:00Z",
    "2026-03-01T12:00:00.Z",
    "2026-03-01T12:00:00.00000000Z",
    "2026-03-01T12:00:00.0000000000Z",
    "2026-03-01T12:00:00.000000000000Z",
    "2026-03-01T12:00:00.5x1Z",
    "2026-02-29T12:00:00Z",
    "2026-13-01T12:00:00Z",
    "2026-00-01T12:00:00Z",
    "2026-04-31T12:00:00Z",
    "2026-03-01T24:00:00Z",
    "2026-03-01T12:60:00Z",
    "2026-03-01T12:00:60Z",
    "1600-12-31T23:59:59.9999999Z",
];

#[test]
fn moments_are_refused(rt: HostRuntime) {
    for text in &REFUSED {
        assert!(rt; read_time(text) == Err(TextFault::NoTime), "{text}");
    }
}

/// Whether a code is written so, and read as the other.
fn is_coded(alloc: Global, code: u32, text: &str, left: u32) -> bool {
    let written = match status_text(alloc, Status(code)) {
        Ok(written) => written.as_slice() == text.as_bytes(),
        Err(_) => false,
    };
    written && read_status(text) == Ok(Status(left))
}

#[test]
fn codes_are_written(rt: HostRuntime) {
    let alloc = rt.alloc();
    let codes = [
        (0u32, "Good", 0u32),
        (0x0000_0408, "Good", 0),
        (0x809B_0000, "809B0000", 0x809B_0000),
        (0x00A2_0408, "00A20000", 0x00A2_0000),
        (0xFFFF_FFFF, "FFFFFBF7", 0xFFFF_FBF7),
        (0x0000_0001, "00000001", 1),
    ];
    for (code, text, left) in codes {
        assert!(rt; is_coded(alloc, code, text, left), "{text}");
    }
}

#[test]
fn codes_are_read(rt: HostRuntime) {
    let read = [
        ("", Ok(Status(0))),
        ("00000000", Ok(Status(0))),
        ("809b0000", Ok(Status(0x809B_0000))),
        ("809B0408", Ok(Status(0x809B_0000))),
        ("good", Err(TextFault::NoStatus)),
        ("0", Err(TextFault::NoStatus)),
        ("809B000", Err(TextFault::NoStatus)),
        ("0x809B0000", Err(TextFault::NoStatus)),
        ("809B000g", Err(TextFault::NoStatus)),
        ("Bad_NoData", Err(TextFault::NoStatus)),
    ];
    for (text, answer) in read {
        assert!(rt; read_status(text) == answer, "{text}");
    }
}
