//! Arrays.

use history_text::{TextFault, array_text, read_array};
use std::alloc::Global;
use ua_binary::Listing;
use ua_variant::Array;

/// Whether a text is read as an array of this type, and the array is written as this text.
fn is_array(alloc: Global, number: u8, text: &str, written: &str) -> bool {
    match read_array(alloc, number, text) {
        Ok(array) => {
            array.number() == number
                && match array_text(alloc, &array) {
                    Ok(again) => again.as_slice() == written.as_bytes(),
                    Err(_) => false,
                }
        }
        Err(_) => false,
    }
}

/// Types of items, each with a text that is read, and how the array is written.
static ARRAYS: [(u8, &str, &str); 29] = [
    (1, "[true, false]", "[true,false]"),
    (1, "[\"true\"]", "[true]"),
    (2, "[-128,127]", "[-128,127]"),
    (3, "[255, \"007\"]", "[255,7]"),
    (4, "[-32768,32767]", "[-32768,32767]"),
    (5, "[65535]", "[65535]"),
    (6, " [ -2147483648 , 0 ] ", "[-2147483648,0]"),
    (7, "[4294967295]", "[4294967295]"),
    (8, "[-9223372036854775808]", "[-9223372036854775808]"),
    (9, "[18446744073709551615]", "[18446744073709551615]"),
    (10, "[0.1, 16777217, 1e-45]", "[0.1,16777216.0,1e-45]"),
    (11, "[0.1, 1, -0, 1E300]", "[0.1,1.0,-0.0,1e300]"),
    (11, "[\"NaN\", \"inf\", 1e400]", "[\"NaN\",\"inf\",\"inf\"]"),
    (12, "[]", "[]"),
    (12, "[\"a\", \"\", 1, true]", "[\"a\",\"\",\"1\",\"true\"]"),
    (
        12,
        "[\"say \\\"hi\\\", \\u00e9\\n\"]",
        "[\"say \\\"hi\\\", \u{e9}\\n\"]",
    ),
    (
        13,
        "[\"2026-03-01T12:00:00Z\", \"@-1\"]",
        "[\"2026-03-01T12:00:00.0000000Z\",\"@-1\"]",
    ),
    (
        14,
        "[\"72962B91-fa75-4ae6-8d28-b404dc7daf63\"]",
        "[\"72962b91-fa75-4ae6-8d28-b404dc7daf63\"]",
    ),
    (15, "[\"00ff7F\", \"\"]", "[\"00ff7f\",\"\"]"),
    (
        19,
        "[\"Good\", \"809b0408\", \"\"]",
        "[\"Good\",\"809B0000\",\"Good\"]",
    ),
    (1, "[]", "[]"),
    (6, "[]", "[]"),
    (11, "[]", "[]"),
    (15, "[]", "[]"),
    (19, "[\n]", "[]"),
    (6, "[-0]", "[0]"),
    (12, "[\"\\u0000\"]", "[\"\\u0000\"]"),
    (15, "[\"12\"]", "[\"12\"]"),
    (19, "[\"80320000\"]", "[\"80320000\"]"),
];

#[test]
fn arrays_are_read_and_written(rt: HostRuntime) {
    let alloc = rt.alloc();
    for (number, text, written) in &ARRAYS {
        let good = is_array(alloc, *number, text, written);
        assert!(rt; good, "type {number}: {text}");
    }
}

/// Why a text is refused, if it is.
fn fault_of(alloc: Global, number: u8, text: &str) -> Option<TextFault> {
    match read_array(alloc, number, text) {
        Ok(_) => None,
        Err(fault) => Some(fault),
    }
}

/// Types of items, each with a text that is refused, and by what.
static REFUSED: [(u8, &str, TextFault); 29] = [
    (6, "", TextFault::NoArray),
    (6, "1", TextFault::NoArray),
    (6, "[1", TextFault::NoArray),
    (6, "[1,]", TextFault::NoArray),
    (6, "[,1]", TextFault::NoArray),
    (6, "[1 2]", TextFault::NoArray),
    (6, "[1]2", TextFault::NoArray),
    (6, "[1],", TextFault::NoArray),
    (6, "[1}", TextFault::NoArray),
    (6, "[[1]]", TextFault::NoArray),
    (6, "{\"a\":1}", TextFault::NoArray),
    (6, "[null]", TextFault::NoArray),
    (11, "[NaN]", TextFault::NoArray),
    (6, "[01]", TextFault::NoArray),
    (6, "[1.5]", TextFault::NoInteger),
    (3, "[1, 256, x]", TextFault::NoInteger),
    (1, "[1]", TextFault::NoBoolean),
    (13, "[\"noon\"]", TextFault::NoTime),
    (15, "[12, \"0g\"]", TextFault::NoBytes),
    (6, "[1.0]", TextFault::NoInteger),
    (6, "[1e3]", TextFault::NoInteger),
    (7, "[-0]", TextFault::NoInteger),
    (6, "[\"x\"", TextFault::NoInteger),
    (12, "[\"\\ud800\"]", TextFault::NoArray),
    (12, "[\"a\nb\"]", TextFault::NoArray),
    (6, "\u{feff}[1]", TextFault::NoArray),
    (17, "[]", TextFault::NoText),
    (20, "[]", TextFault::NoText),
    (0, "[]", TextFault::NoText),
];

#[test]
fn arrays_are_refused(rt: HostRuntime) {
    let alloc = rt.alloc();
    for (number, text, fault) in &REFUSED {
        let refused = fault_of(alloc, *number, text) == Some(*fault);
        assert!(rt; refused, "type {number}: {text}");
    }
}

#[test]
fn arrays_of_some_types_have_no_text(rt: HostRuntime) {
    let alloc = rt.alloc();
    let nodes = Array::NodeId(Listing::new(alloc));
    assert!(rt; array_text(alloc, &nodes) == Err(TextFault::NoText));
}

#[test]
fn a_null_item_is_an_empty_one(rt: HostRuntime) -> Result<(), std::test::Fail> {
    let alloc = rt.alloc();
    let mut items = Vec::new(alloc);
    items.push(None)?;
    let text = array_text(alloc, &Array::String(Listing::of(items)));
    let good = match text {
        Ok(text) => text.as_slice() == "[\"\"]".as_bytes(),
        Err(_) => false,
    };
    assert!(rt; good);
    Ok(())
}
