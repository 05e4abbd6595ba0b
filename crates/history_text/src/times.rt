//! Moments as text.

ghost use Rattle.std.specs.Str.{IsAscii};
ghost use Rattle.std.specs.Prelude.{List, ℕ, ◌≡◌, ◌≤◌, ◌<◌, ◌+◌, ◌++◌, ◌+ℤ◌, ◌-◌, ◌/◌, ◌%◌, ◌^◌, pos, length, IfOk, OnOk, IfSome, MatchOption, Ok, Err, Some, None, if◌then◌else◌};
ghost use Rattle.std.specs.Int.{IsInRange, w64};
ghost use Rattle.std.specs.Int.RustNames.{FitsSigned};
ghost use Rattle.history_text.specs.Numbers.{signed_in};
ghost use Rattle.std.specs.Option.{ok_or};
ghost use Rattle.jiff_core.specs.Date.{epoch_day};
ghost use Rattle.history_text.specs.declared.fault.TextFault.TheVariants.{NoTime};
ghost use Rattle.jiff_core.specs.declared.civil.date.Date.{Date};
ghost use Rattle.history_text.specs.Times.{numeral_at, has_signs, since_1601, days_to, days_at, clock_at, clock_ticks, fraction_in, ending_in, moment_of, calendar_in, steps_in, time_in, IsTimeText, IsCalendarText, IsBeyond, calendar_ticks, day_ticks, days_to_1970, date_text, clock_text, ending_text, calendar_text, steps_text};

use crate::digits::{digits_in, put_digits};
use crate::fault::TextFault;
use jiff_core::civil::Date;
use std::alloc::{AllocError, Global};

/// A moment: steps of 100 ns since 1601-01-01 00:00 UTC, and steps of 10 ps behind that, at most
/// 9,999.
#[derive(Clone, Copy, Debug, PartialEq, Eq)]
pub struct Time {
    pub ticks: i64,
    pub pico: u16,
}

/// Steps of 100 ns of a day.
const DAY: u64 = 864_000_000_000;

/// Steps of 100 ns of a second.
const SECOND: u64 = 10_000_000;

/// Days from 1601-01-01 to 1970-01-01.
const DAYS_TO_1970: i64 = 134_774;

/// Days from -9999-01-01 to 1601-01-01.
const DAYS_TO_1601: u64 = 4_236_813;

/// Steps of 100 ns from 1601-01-01 to the end of 9999.
const CALENDAR: i64 = 2_650_467_744_000_000_000;

// ---- reading

/// The number that so many digits write, at this place of a text.
fn numeral_at(text: &[u8], place: usize, count: usize) -> Option<u64>
    requires inside { place + count ≤ length text.now }
    requires few { IsInRange 1 19 count }
    ensures value { result ≡ numeral_at place count text.now }
    ensures below { IfSome result (λ n. n < 10 ^ count) }
{
    digits_in(&text[place..place + count])
}

/// Whether the signs of a date and a time stand where they stand.
fn has_signs(text: &[u8]) -> bool
    requires { 20 ≤ length text.now }
    ensures { result ≡ has_signs text.now }
{
    text[4] == b'-' && text[7] == b'-' && text[10] == b'T' && text[13] == b':' && text[16] == b':'
}

/// The days from 1601-01-01 to a date, if it isn't before.
fn since_1601(date: Date) -> Option<u64>
    ensures days { result ≡ since_1601 (epoch_day date) }
    ensures within { IfSome result (λ n. n < 3_067_671) }
{
    let days = i64::from(date.to_unix_epoch_day()) + DAYS_TO_1970;
    if days < 0 {
        return None;
    }
    Some(days as u64)
}

/// The days from 1601-01-01 to a date, where the calendar has it and it isn't before.
fn days_to(year: u64, month: u64, day: u64) -> Option<u64>
    requires year { year < 10_000 }
    requires month { month < 100 }
    requires day { day < 100 }
    ensures days { result ≡ days_to year month day }
    ensures within { IfSome result (λ n. n < 3_067_671) }
{
    match Date::new(year as i16, month as i8, day as i8) {
        Ok(date) => since_1601(date),
        Err(_) => None,
    }
}

/// The days from 1601-01-01 to the date that a text begins by.
fn days_at(text: &[u8]) -> Option<u64>
    requires { 20 ≤ length text.now }
    ensures days { result ≡ days_at text.now }
    ensures within { IfSome result (λ n. n < 3_067_671) }
{
    let year = numeral_at(text, 0, 4)?;
    let month = numeral_at(text, 5, 2)?;
    let day = numeral_at(text, 8, 2)?;
    days_to(year, month, day)
}

/// The steps from midnight to a second, where the clock shows it.
fn clock_ticks(hour: u64, minute: u64, second: u64) -> Option<u64>
    ensures ticks { result ≡ clock_ticks hour minute second }
    ensures within { IfSome result (λ n. n < day_ticks) }
{
    if hour < 24 && minute < 60 && second < 60 {
        Some(((hour * 60 + minute) * 60 + second) * SECOND)
    } else {
        None
    }
}

/// The steps from midnight to the second that a text says behind its date.
fn clock_at(text: &[u8]) -> Option<u64>
    requires { 20 ≤ length text.now }
    ensures ticks { result ≡ clock_at text.now }
    ensures within { IfSome result (λ n. n < day_ticks) }
{
    let hour = numeral_at(text, 11, 2)?;
    let minute = numeral_at(text, 14, 2)?;
    let second = numeral_at(text, 17, 2)?;
    clock_ticks(hour, minute, second)
}

/// The steps of 10 ps that digits behind a point say.
fn fraction_in(digits: &[u8]) -> Option<u64>
    ensures tens { result ≡ fraction_in digits.now }
    ensures within { IfSome result (λ n. n < 100_000_000_000) }
{
    let count = digits.len();
    if !(1 <= count && count <= 7 || count == 11) {
        return None;
    }
    let mut filled = [b'0'; 11];
    filled[..count].copy_from_slice(digits);
    digits_in(&filled)
}

/// The steps of 10 ps that the end of a text says: a Z alone, or a point, digits and a Z.
fn ending_in(text: &[u8]) -> Option<u64>
    ensures tens { result ≡ ending_in text.now }
    ensures within { IfSome result (λ n. n < 100_000_000_000) }
{
    match text {
        b"Z" => Some(0),
        [b'.', digits @ .., b'Z'] => fraction_in(digits),
        _ => None,
    }
}

/// So many steps behind the start of a day.
fn moment_of(days: u64, ticks: u64, tens: u64) -> Time
    requires days { days < 3_067_671 }
    requires ticks { ticks < day_ticks }
    requires tens { tens < 100_000_000_000 }
    ensures { result ≡ moment_of days ticks tens }
{
    Time {
        ticks: (days * DAY + ticks + tens / 10_000) as i64,
        pico: (tens % 10_000) as u16,
    }
}

/// The moment that a date and a time of day say.
#[tactic(auto, using(crate::proofs::TimesLemmas::calendar_is))]
fn calendar_in(text: &[u8]) -> Option<Time>
    ensures { result ≡ calendar_in text.now }
{
    if text.len() < 20 || !has_signs(text) {
        return None;
    }
    let days = days_at(text)?;
    let ticks = clock_at(text)?;
    let (_, ending) = text.split_at(19);
    match ending_in(ending) {
        Some(tens) => Some(moment_of(days, ticks, tens)),
        None => None,
    }
}

/// The number of 64 bits that a text writes, perhaps behind a sign.

fn signed_in(text: &[u8]) -> Option<i64>
    ensures number { result ≡ signed_in (2 ^ 63) text.now }
    ensures fits { IfSome result (λ z. FitsSigned w64 z) }
{
    fast_float::parse_i64(text).ok()
}

/// The moment that a number of steps says, and perhaps a plus and four digits behind it.
fn steps_in(text: &[u8]) -> Option<Time>
    ensures { result ≡ steps_in text.now }
{
    let count = text.len();
    if count >= 5 && text[count - 5] == b'+' {
        let ticks = signed_in(&text[..count - 5])?;
        let pico = numeral_at(text, count - 4, 4)? as u16;
        return Some(Time { ticks, pico });
    }
    let ticks = signed_in(text)?;
    Some(Time { ticks, pico: 0 })
}

/// The moment that a text says.
pub(crate) fn time_in(text: &[u8]) -> Option<Time>
    ensures { result ≡ time_in text.now }
{
    if text.is_empty() || text[0] != b'@' {
        return calendar_in(text);
    }
    let (_, steps) = text.split_at(1);
    steps_in(steps)
}

/// Reads a moment: `2026-03-01T12:00:00Z` in UTC with up to 7 digits behind a point, or 11, of a
/// year from 1601 to 9999; or `@` and its steps of 100 ns since 1601 in decimal, perhaps with a `+`
/// and four digits, its steps of 10 ps. Any other text is `NoTime`.
pub fn read_time(text: &str) -> Result<Time, TextFault>
    ensures { result ≡ ok_or (time_in text.now) NoTime }
{
    time_in(text.as_bytes()).ok_or(TextFault::NoTime)
}

// ---- writing

fn put_date(out: &mut Vec<u8>, date: Date) -> Result<(), AllocError>
    ensures { OnOk result (out.new.items ≡ out.old.items ++ date_text date) }
{
    put_digits(out, 4, u64::from(date.year.unsigned_abs()))?;
    out.push(b'-')?;
    put_digits(out, 2, u64::from(date.month))?;
    out.push(b'-')?;
    put_digits(out, 2, u64::from(date.day))
}

fn put_clock(out: &mut Vec<u8>, second: u64) -> Result<(), AllocError>
    ensures { OnOk result (out.new.items ≡ out.old.items ++ clock_text second) }
{
    out.push(b'T')?;
    put_digits(out, 2, second / 3600)?;
    out.push(b':')?;
    put_digits(out, 2, second / 60 % 60)?;
    out.push(b':')?;
    put_digits(out, 2, second % 60)
}

fn put_ending(out: &mut Vec<u8>, ticks: u64, pico: u16) -> Result<(), AllocError>
    ensures { OnOk result (out.new.items ≡ out.old.items ++ ending_text ticks pico) }
{
    out.push(b'.')?;
    put_digits(out, 7, ticks)?;
    if pico > 0 {
        put_digits(out, 4, u64::from(pico))?;
    }
    out.push(b'Z')?;
    Ok(())
}

/// The date so many days after 1601-01-01.
fn date_of(days: u64) -> Date
    requires { days < 3_067_671 }
    ensures { epoch_day result +ℤ pos days_to_1970 ≡ pos days }
{
    Date::from_days_since_min((days + DAYS_TO_1601) as u32)
}

/// A date, and a time of that day.
fn put_day(out: &mut Vec<u8>, date: Date, ticks: u64, pico: u16) -> Result<(), AllocError>
    ensures { OnOk result (out.new.items ≡ out.old.items ++ calendar_text date ticks pico) }
{
    put_date(out, date)?;
    put_clock(out, ticks / SECOND)?;
    put_ending(out, ticks % SECOND, pico)?;
    Ok(())
}

/// A moment by its steps.
fn put_steps(out: &mut Vec<u8>, time: Time) -> Result<(), AllocError>
    ensures { OnOk result (out.new.items ≡ out.old.items ++ steps_text time) }
{
    let mut buffer = itoa::Buffer::new();
    out.push(b'@')?;
    out.extend_from_slice(buffer.format(time.ticks).as_bytes())?;
    if time.pico > 0 {
        out.push(b'+')?;
        put_digits(out, 4, u64::from(time.pico))?;
    }
    Ok(())
}

/// A moment of the calendar, by its date.
fn put_calendar(out: &mut Vec<u8>, ticks: u64, pico: u16) -> Result<(), AllocError>
    requires { ticks < calendar_ticks }
    ensures { OnOk result ((text : List ℕ) × (out.new.items ≡ out.old.items ++ text)
        × IsCalendarText ticks pico text) }
{
    put_day(out, date_of(ticks / DAY), ticks % DAY, pico)?;
    Ok(())
}

/// The steps of a moment of the calendar, if it is one.
fn in_calendar(time: Time) -> Option<u64>
    ensures cases { MatchOption result (IsBeyond time)
        (λ n. (time.ticks ≡ pos n) × (n < calendar_ticks)) }
    ensures fits { FitsSigned w64 time.ticks }
{
    if time.ticks < 0 || time.ticks >= CALENDAR {
        return None;
    }
    Some(time.ticks as u64)
}

/// A moment, by its date or by its steps.
fn put_time(out: &mut Vec<u8>, time: Time) -> Result<(), AllocError>
    ensures written { OnOk result ((text : List ℕ) × (out.new.items ≡ out.old.items ++ text)
        × IsTimeText time text) }
    ensures fits { FitsSigned w64 time.ticks }
{
    match in_calendar(time) {
        Some(ticks) => put_calendar(out, ticks, time.pico),
        None => put_steps(out, time),
    }
}

/// A moment as text: ISO 8601 in UTC with 7 digits behind the point, and 4 more where there are
/// picoseconds, if it lies in the years 1601 to 9999; else `@` and its steps of 100 ns in decimal,
/// with a `+` and 4 digits where there are picoseconds. `read_time` reads it again.
pub fn time_text(alloc: Global, time: Time) -> Result<Vec<u8>, AllocError>
    requires { time.pico ≤ 9_999 }
    ensures written { IfOk result (λ text. IsTimeText time text.items) }
    ensures read { IfOk result (λ text. time_in text.items ≡ Some time) }
    ensures ascii { IfOk result (λ text. IsAscii text.items) }
{
    let mut out = Vec::new(alloc);
    put_time(&mut out, time)?;
    Ok(out)
}
