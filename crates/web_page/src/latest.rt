//! The texts of the latest live value.

ghost use Rattle.std.specs.Prelude.{◌≡◌, ◌≤◌, ◌++◌, ◌∷◌, [], slice_get, Some, false, true, IfOk};
ghost use Rattle.std.specs.Fmt.{decimal};
ghost use Rattle.std.specs.Int.{w64};
ghost use Rattle.std.specs.Int.RustNames.{FitsSigned};
ghost use Rattle.ua_variant.specs.declared.value.Variant.TheVariants as variant;
ghost use Rattle.history_text.specs.Times.{IsTimeText};
ghost use Rattle.history_csv.specs.Rows.{time_of, code_text};
ghost use Rattle.web_page.specs.Values.{type_words, age_words, age_text, IsShown, AreLatestTexts};

use crate::texts::put_type;
use history_text::{TextFault, Time, array_text, status_text, time_text, value_text};
use itoa::Buffer;
use records::{Held, Moment};
use std::alloc::{AllocError, Global};
use ua_binary::Status;
use ua_variant::{Array, Scalar, ValueType, Variant};

/// How many ticks of 100 ns a second has.
const TICKS_OF_A_SECOND: u64 = 10_000_000;

/// The texts of the latest live value, of its status and of its time, and how long ago that was.
#[derive(Drop)]
pub(crate) struct Latest {
    pub(crate) value: Vec<u8>,
    pub(crate) status: Vec<u8>,
    pub(crate) time: Vec<u8>,
    pub(crate) age: Vec<u8>,
}

/// The parts of a moment.
fn parts_of(time: Moment) -> Time
    ensures same { result ≡ time_of time }
    ensures pico { result.pico ≤ 9_999 }
    ensures fits { FitsSigned w64 result.ticks }
{
    Time {
        ticks: time.ticks,
        pico: time.pico,
    }
}

/// A moment's text.
fn moment_text(alloc: Global, time: Moment) -> Result<Vec<u8>, AllocError>
    ensures { IfOk result (λ text. IsTimeText (time_of time) text.items) }
{
    let text = time_text(alloc, parts_of(time))?;
    Ok(text)
}

/// A status's text.
fn code_text(alloc: Global, status: Option<Status>) -> Result<Vec<u8>, AllocError>
    ensures { IfOk result (λ text. text.items ≡ code_text status) }
{
    status_text(alloc, status.unwrap_or(Status(0)))
}

/// A type in brackets.
fn bracketed(alloc: Global, number: u8, array: bool) -> Result<Vec<u8>, AllocError>
    ensures { IfOk result (λ text. text.items
        ≡ 91 ∷ type_words (record { number = number; array = array }) ++ 93 ∷ []) }
{
    let mut text = Vec::new(alloc);
    text.push(b'[')?;
    put_type(&mut text, ValueType { number, array })?;
    text.push(b']')?;
    Ok(text)
}

/// What is shown of a value that is one.
fn scalar_shown(alloc: Global, value: &Scalar) -> Result<Vec<u8>, AllocError>
    ensures { IfOk result (λ text. IsShown (Some (variant.Scalar value.now)) text.items) }
{
    match value_text(alloc, value) {
        Ok(text) => Ok(text),
        Err(TextFault::NoText) => bracketed(alloc, value.number(), false),
        Err(_) => Err(AllocError),
    }
}

/// What is shown of an array.
fn array_shown(alloc: Global, values: &Array) -> Result<Vec<u8>, AllocError>
    ensures { IfOk result (λ text. IsShown (Some (variant.Array values.now)) text.items) }
{
    match array_text(alloc, values) {
        Ok(text) => Ok(text),
        Err(TextFault::NoText) => bracketed(alloc, values.number(), true),
        Err(_) => Err(AllocError),
    }
}

/// What is shown of a value.
fn variant_shown(alloc: Global, value: &Variant) -> Result<Vec<u8>, AllocError>
    ensures { IfOk result (λ text. IsShown (Some value.now) text.items) }
{
    match value {
        Variant::Null => Ok(Vec::new(alloc)),
        Variant::Scalar(one) => scalar_shown(alloc, one),
        Variant::Array(many) => array_shown(alloc, many),
    }
}

/// What is shown of a value that may be none.
fn value_shown(alloc: Global, value: &Option<Variant>) -> Result<Vec<u8>, AllocError>
    ensures { IfOk result (λ text. IsShown value.now text.items) }
{
    match value {
        None => Ok(Vec::new(alloc)),
        Some(value) => variant_shown(alloc, value),
    }
}

/// A number, and a unit after it.
fn unit_text(alloc: Global, number: u64, unit: &[u8]) -> Result<Vec<u8>, AllocError>
    ensures { IfOk result (λ text. text.items ≡ decimal number ++ unit.now) }
{
    let mut buffer = Buffer::new();
    let digits = buffer.format(number);
    let mut text = Vec::new(alloc);
    text.extend_from_slice(digits.as_bytes())?;
    text.extend_from_slice(unit)?;
    Ok(text)
}

/// So many seconds: below a minute as they are, else in minutes, hours or days.
#[tactic(auto, unfolding(crate::specs::Values::age_words))]
fn age_words(alloc: Global, seconds: u64) -> Result<Vec<u8>, AllocError>
    ensures { IfOk result (λ text. text.items ≡ age_words seconds) }
{
    if seconds < 60 {
        unit_text(alloc, seconds, b" s")
    } else if seconds < 3600 {
        unit_text(alloc, seconds / 60, b" min")
    } else if seconds < 86400 {
        unit_text(alloc, seconds / 3600, b" h")
    } else {
        unit_text(alloc, seconds / 86400, b" d")
    }
}

/// How long ago a time was, in ticks; nothing of one that is to come.
fn age_text(alloc: Global, now: i64, time: i64) -> Result<Vec<u8>, AllocError>
    ensures { IfOk result (λ text. text.items ≡ age_text now time) }
{
    if now < time {
        Ok(Vec::new(alloc))
    } else {
        age_words(alloc, now.abs_diff(time) / TICKS_OF_A_SECOND)
    }
}

/// The texts of a live value.
fn held_texts(alloc: Global, held: &Held, now: i64) -> Result<Latest, AllocError>
    ensures { IfOk result (λ texts. AreLatestTexts now (Some held.now)
        texts.value.items texts.status.items texts.time.items texts.age.items) }
{
    let value = value_shown(alloc, &held.value.value)?;
    let status = code_text(alloc, held.value.status)?;
    let time = moment_text(alloc, held.time)?;
    let age = age_text(alloc, now, parts_of(held.time).ticks)?;
    Ok(Latest {
        value,
        status,
        time,
        age,
    })
}

/// The texts of the first of some live values, empty where there is none.
pub(crate) fn latest_texts(alloc: Global, values: &[Held], now: i64) -> Result<Latest, AllocError>
    ensures { IfOk result (λ texts. AreLatestTexts now (slice_get values.now 0)
        texts.value.items texts.status.items texts.time.items texts.age.items) }
{
    match values.first() {
        Some(held) => held_texts(alloc, held, now),
        None => Ok(Latest {
            value: Vec::new(alloc),
            status: Vec::new(alloc),
            time: Vec::new(alloc),
            age: Vec::new(alloc),
        }),
    }
}
