//! Values.

use history_text::{TextFault, read_value, value_text};
use std::alloc::Global;
use ua_binary::Guid;
use ua_variant::Scalar;

/// Whether a text is read as a value of this type, and the value is written as this text.
fn is_value(alloc: Global, number: u8, text: &str, written: &str) -> bool {
    match read_value(alloc, number, text) {
        Ok(value) => {
            value.number() == number
                && match value_text(alloc, &value) {
                    Ok(again) => again.as_slice() == written.as_bytes(),
                    Err(_) => false,
                }
        }
        Err(_) => false,
    }
}

/// Types, each with a text that is read, and how the value is written.
static VALUES: [(u8, &str, &str); 48] = [
    (1, "true", "true"),
    (1, "false", "false"),
    (2, "-128", "-128"),
    (2, "+127", "127"),
    (3, "255", "255"),
    (3, "007", "7"),
    (4, "-32768", "-32768"),
    (4, "32767", "32767"),
    (5, "65535", "65535"),
    (6, "-2147483648", "-2147483648"),
    (6, "2147483647", "2147483647"),
    (7, "4294967295", "4294967295"),
    (8, "-9223372036854775808", "-9223372036854775808"),
    (8, "9223372036854775807", "9223372036854775807"),
    (8, "-0", "0"),
    (9, "18446744073709551615", "18446744073709551615"),
    (11, "0.1", "0.1"),
    (11, "1", "1.0"),
    (11, "-0", "-0.0"),
    (11, "inf", "inf"),
    (11, "-inf", "-inf"),
    (11, "NaN", "NaN"),
    (11, "nan", "NaN"),
    (11, "1e400", "inf"),
    (11, "5e-324", "5e-324"),
    (11, "1.7976931348623157e308", "1.7976931348623157e308"),
    (11, "123456789012345678", "1.2345678901234568e17"),
    (10, "0.1", "0.1"),
    (10, "16777217", "16777216.0"),
    (10, "3.4028235e38", "3.4028235e38"),
    (10, "-NaN", "NaN"),
    (12, "", ""),
    (12, "a, \"b\" and \u{e9}", "a, \"b\" and \u{e9}"),
    (13, "2026-03-01T12:00:00Z", "2026-03-01T12:00:00.0000000Z"),
    (13, "@-1", "@-1"),
    (13, "@9223372036854775807", "@9223372036854775807"),
    (
        13,
        "2026-03-01T12:00:00.00000010000Z",
        "2026-03-01T12:00:00.0000001Z",
    ),
    (
        14,
        "72962B91-fa75-4ae6-8d28-b404dc7daf63",
        "72962b91-fa75-4ae6-8d28-b404dc7daf63",
    ),
    (15, "", ""),
    (15, "00ff7F", "00ff7f"),
    (19, "", "Good"),
    (19, "Good", "Good"),
    (19, "809B0000", "809B0000"),
    (19, "809b0408", "809B0000"),
    (2, "0", "0"),
    (4, "-1", "-1"),
    (6, "42", "42"),
    (9, "0", "0"),
];

#[test]
fn values_are_read_and_written(rt: HostRuntime) {
    let alloc = rt.alloc();
    for (number, text, written) in &VALUES {
        let good = is_value(alloc, *number, text, written);
        assert!(rt; good, "type {number}: {text}");
    }
}

/// Why a text is refused, if it is.
fn fault_of(alloc: Global, number: u8, text: &str) -> Option<TextFault> {
    match read_value(alloc, number, text) {
        Ok(_) => None,
        Err(fault) => Some(fault),
    }
}

/// Types, each with a text that is refused, and by what.
static REFUSED: [(u8, &str, TextFault); 35] = [
    (1, "True", TextFault::NoBoolean),
    (1, "1", TextFault::NoBoolean),
    (1, "", TextFault::NoBoolean),
    (2, "128", TextFault::NoInteger),
    (2, "-129", TextFault::NoInteger),
    (3, "256", TextFault::NoInteger),
    (3, "-1", TextFault::NoInteger),
    (4, "32768", TextFault::NoInteger),
    (5, "65536", TextFault::NoInteger),
    (6, "2147483648", TextFault::NoInteger),
    (6, "1.5", TextFault::NoInteger),
    (6, "", TextFault::NoInteger),
    (6, " 1", TextFault::NoInteger),
    (6, "--1", TextFault::NoInteger),
    (7, "4294967296", TextFault::NoInteger),
    (8, "9223372036854775808", TextFault::NoInteger),
    (8, "-9223372036854775809", TextFault::NoInteger),
    (9, "18446744073709551616", TextFault::NoInteger),
    (10, "one", TextFault::NoFloat),
    (11, "", TextFault::NoFloat),
    (11, "1,5", TextFault::NoFloat),
    (11, "0x10", TextFault::NoFloat),
    (13, "noon", TextFault::NoTime),
    (13, "2026-03-01T12:00:00.00000000001Z", TextFault::NoTime),
    (14, "", TextFault::NoGuid),
    (14, "72962b91fa754ae68d28b404dc7daf63", TextFault::NoGuid),
    (
        14,
        "{2962b91-fa75-4ae6-8d28-b404dc7daf6}",
        TextFault::NoGuid,
    ),
    (
        14,
        "72962b91-fa75-4ae6-8d28-b404dc7dag63",
        TextFault::NoGuid,
    ),
    (15, "0", TextFault::NoBytes),
    (15, "0g", TextFault::NoBytes),
    (19, "bad", TextFault::NoStatus),
    (17, "i=85", TextFault::NoText),
    (20, "1:name", TextFault::NoText),
    (0, "", TextFault::NoText),
    (255, "", TextFault::NoText),
];

#[test]
fn values_are_refused(rt: HostRuntime) {
    let alloc = rt.alloc();
    for (number, text, fault) in &REFUSED {
        let refused = fault_of(alloc, *number, text) == Some(*fault);
        assert!(rt; refused, "type {number}: {text}");
    }
}

#[test]
fn nulls_are_empty(rt: HostRuntime) {
    let alloc = rt.alloc();
    let nulls = [Scalar::String(None), Scalar::ByteString(None)];
    for null in &nulls {
        let empty = match value_text(alloc, null) {
            Ok(text) => text.is_empty(),
            Err(_) => false,
        };
        assert!(rt; empty);
    }
}

/// The parts of a Guid are those of its text.
#[test]
fn guids_have_their_parts(rt: HostRuntime) {
    let alloc = rt.alloc();
    let guid = Scalar::Guid(Guid {
        first: 0x7296_2B91,
        second: 0xFA75,
        third: 0x4AE6,
        last: [0x8D, 0x28, 0xB4, 0x04, 0xDC, 0x7D, 0xAF, 0x63],
    });
    let good = match value_text(alloc, &guid) {
        Ok(text) => text.as_slice() == b"72962b91-fa75-4ae6-8d28-b404dc7daf63".as_slice(),
        Err(_) => false,
    };
    assert!(rt; good);
}

#[test]
fn each_nan_is_one(rt: HostRuntime) {
    let alloc = rt.alloc();
    let nans = [
        Scalar::Double([1, 0, 0, 0, 0, 0, 0xF0, 0xFF]),
        Scalar::Float([1, 0, 0x80, 0x7F]),
    ];
    for nan in &nans {
        let word = match value_text(alloc, nan) {
            Ok(text) => text.as_slice() == b"NaN".as_slice(),
            Err(_) => false,
        };
        assert!(rt; word);
    }
}
