//! What is held of variables, told in lines.

ghost use Rattle.std.specs.Prelude.{◌≡◌, ◌≤◌, ◌++◌, OnOk, IfOk, codes, false};
ghost use Rattle.std.specs.Option.{option_map_or};
ghost use Rattle.std.specs.Int.{w64};
ghost use Rattle.std.specs.Int.RustNames.{FitsSigned};
ghost use Rattle.history_text.specs.Times.{IsTimeText};
ghost use Rattle.history_csv.specs.Rows.{time_of};
ghost use Rattle.history_report.specs.Tables.{legible};
ghost use Rattle.history_report.specs.Paging.{IsPut};
ghost use Rattle.stamp.specs.Numbers.{number_of};
ghost use Rattle.stamp.specs.Limits.{IsReplica};
ghost use Rattle.settings_check.specs.Texts.{text_of};
ghost use Rattle.settings_check.specs.Stored.{record_line, record_lines, id_text, TellsTimes, TellsEnds, type_warning, TellsVariable};

use crate::asking::{Ends, Seen};
use crate::texts::{put_counted, put_number, put_shown};
use crate::warnings::put_warned_of;
use history_text::{Time, time_text};
use records::Moment;
use stamp::{ReplicaNo, Vector};
use std::alloc::{AllocError, Global};
use ua_binary::NodeId;

/// The parts of a moment.
fn parts_of(time: Moment) -> Time
    ensures same { result ≡ time_of time }
    ensures pico { result.pico ≤ 9_999 }
    ensures fits { FitsSigned w64 result.ticks }
{
    Time {
        ticks: time.ticks,
        pico: time.pico,
    }
}

/// A moment's text. The one error is want of memory.
fn moment_text(alloc: Global, time: Moment) -> Result<Vec<u8>, AllocError>
    ensures { IfOk result (λ text. IsTimeText (time_of time) text.items) }
{
    let text = time_text(alloc, parts_of(time))?;
    Ok(text)
}

/// Appends a moment.
fn put_moment(alloc: Global, out: &mut Vec<u8>, time: Moment) -> Result<(), AllocError>
    ensures { OnOk result (IsPut out.old.items out.new.items (IsTimeText (time_of time))) }
{
    let text = moment_text(alloc, time)?;
    out.extend_from_slice(text.as_slice())
}

/// Appends the times of two values.
fn put_times(alloc: Global, out: &mut Vec<u8>, first: Seen, last: Seen) -> Result<(), AllocError>
    ensures { OnOk result (IsPut out.old.items out.new.items (TellsTimes first last)) }
{
    out.extend_from_slice(b": values from ")?;
    put_moment(alloc, out, first.time)?;
    out.extend_from_slice(b" to ")?;
    put_moment(alloc, out, last.time)
}

/// Appends that there are no values.
fn put_none(out: &mut Vec<u8>) -> Result<(), AllocError>
    ensures { OnOk result (out.new.items ≡ out.old.items ++ codes ": no values") }
{
    out.extend_from_slice(b": no values")
}

/// Appends from when to when there are values, if there are any.
fn put_ends(alloc: Global, out: &mut Vec<u8>, ends: &Ends) -> Result<(), AllocError>
    ensures { OnOk result (IsPut out.old.items out.new.items (TellsEnds ends.now)) }
{
    let Ends { first, last } = *ends;
    match first {
        None => put_none(out),
        Some(first) => match last {
            None => put_none(out),
            Some(last) => put_times(alloc, out, first, last),
        },
    }
}

/// The text of a variable's id.
fn id_text(node: &NodeId) -> &str
    ensures { result.now ≡ id_text node.now }
{
    match node {
        NodeId::Named(_, id) => id.as_str(),
        _ => "",
    }
}

/// Whether there is a value that isn't of the type that the settings say.
fn is_other(seen: Option<Seen>) -> bool
    ensures { result ≡ option_map_or (λ last. last.other) seen false }
{
    match seen {
        None => false,
        Some(seen) => seen.other,
    }
}

/// Appends a warning where the last value of a variable isn't of the type that the settings say.
fn put_type(out: &mut Vec<u8>, node: &NodeId, ends: &Ends) -> Result<(), AllocError>
    ensures { OnOk result
        (out.new.items ≡ out.old.items ++ text_of (type_warning node.now ends.now)) }
{
    put_warned_of(
        out,
        is_other(ends.last),
        b"the settings say another type than that of the last value of ",
        id_text(node),
    )
}

/// Appends the lines of a variable.
pub(crate) fn put_variable(
    alloc: Global,
    out: &mut Vec<u8>,
    node: &NodeId,
    ends: &Ends,
) -> Result<(), AllocError>
    ensures { OnOk result (IsPut out.old.items out.new.items (TellsVariable node.now ends.now)) }
{
    put_shown(out, id_text(node))?;
    put_ends(alloc, out, ends)?;
    out.push(b'\n')?;
    put_type(out, node, ends)
}

/// Appends how many records a replica made, if it made any.
fn put_record(out: &mut Vec<u8>, replica: ReplicaNo, number: u64) -> Result<(), AllocError>
    ensures { OnOk result
        (out.new.items ≡ out.old.items ++ text_of (record_line replica number)) }
{
    if number > 0 {
        put_counted(out, number, b" record of replica ", b" records of replica ")?;
        put_number(out, u64::from(replica.get()))?;
        out.push(b'\n')?;
    }
    Ok(())
}

/// Appends how many records the replica of this number made, if it made any.
fn put_numbered(out: &mut Vec<u8>, vector: &Vector, number: u8) -> Result<(), AllocError>
    requires { IsReplica number }
    ensures { OnOk result (out.new.items
        ≡ out.old.items ++ text_of (record_line number (number_of vector.now number))) }
{
    match ReplicaNo::new(number) {
        None => Ok(()),
        Some(replica) => put_record(out, replica, vector.get(replica)),
    }
}

/// Appends how many records each replica made.
pub(crate) fn put_records(out: &mut Vec<u8>, vector: &Vector) -> Result<(), AllocError>
    ensures { OnOk result
        (out.new.items ≡ out.old.items ++ text_of (record_lines (number_of vector.now))) }
{
    for number in 1..65u8 {
        put_numbered(out, vector, number)?;
    }
    Ok(())
}
