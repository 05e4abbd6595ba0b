//! Why a row was refused, in words.

ghost use Rattle.std.specs.Prelude.{◌≡◌};
ghost use Rattle.history_import.specs.Words.{text_words, place_words, why_words, place_name, value_name, status_name};

use history_csv::RowFault;
use history_text::TextFault;
use ua_binary::Status;

/// What was expected in place of a text, in the words of `TextFault`.
pub fn text_words(fault: TextFault) -> &'static str
    ensures { result.now ≡ text_words fault }
{
    match fault {
        TextFault::NoTime => "expected a time, as 2026-03-01T12:00:00.5Z or @134168400000000000",
        TextFault::NoStatus => "expected a status code: eight hex digits, or Good, or nothing",
        TextFault::NoBoolean => "expected true or false",
        TextFault::NoInteger => "expected a whole number of the type's range",
        TextFault::NoFloat => "expected a number, inf, -inf or NaN",
        TextFault::NoGuid => "expected a Guid, as 72962b91-fa75-4ae6-8d28-b404dc7daf63",
        TextFault::NoBytes => "expected bytes, two hex digits each",
        TextFault::NoArray => "expected a JSON array of values, as [1, 2] or [\"on\", \"off\"]",
        TextFault::NoText => "values of this type are not written as text",
        TextFault::OutOfMemory => "out of memory",
    }
}

/// Which field is wrong.
pub(crate) fn place_words(fault: RowFault) -> &'static str
    ensures { result.now ≡ place_words fault }
{
    match fault {
        RowFault::Node => "node: ",
        RowFault::Time(_) => "time: ",
        RowFault::Value(_) => "value: ",
        RowFault::Status(_) => "status: ",
        RowFault::Fields | RowFault::OutOfMemory => "",
    }
}

/// What was expected in its place.
pub fn why_words(fault: RowFault) -> &'static str
    ensures { result.now ≡ why_words fault }
{
    match fault {
        RowFault::Fields => "expected four fields: node, time, value and status",
        RowFault::Node => "expected a node id, as ns=1;s=Temperature or i=2258",
        RowFault::Time(why) | RowFault::Value(why) | RowFault::Status(why) => text_words(why),
        RowFault::OutOfMemory => "out of memory",
    }
}

/// The standard's name of a status that tells why a node, a user or a store refuses.
fn place_name(code: Status) -> &'static str
    ensures { result.now ≡ place_name code }
{
    match code.0 {
        0x8003_0000 => " Bad_OutOfMemory",
        0x8004_0000 => " Bad_ResourceUnavailable",
        0x801F_0000 => " Bad_UserAccessDenied",
        0x8034_0000 => " Bad_NodeIdUnknown",
        0x8072_0000 => " Bad_HistoryOperationUnsupported",
        _ => "",
    }
}

/// The standard's name of a status that tells why a value is refused.
fn value_name(code: Status) -> &'static str
    ensures { result.now ≡ value_name code }
{
    match code.0 {
        0x8008_0000 => " Bad_EncodingLimitsExceeded",
        0x8023_0000 => " Bad_InvalidTimestamp",
        0x8074_0000 => " Bad_TypeMismatch",
        0x809F_0000 => " Bad_EntryExists",
        0x80A0_0000 => " Bad_NoEntryExists",
        _ => "",
    }
}

/// The standard's name of a status, behind a blank, where it is one that a row may be refused by.
pub(crate) fn status_name(code: Status) -> &'static str
    ensures { result.now ≡ status_name code }
{
    let name = place_name(code);
    if name.is_empty() {
        return value_name(code);
    }
    name
}
