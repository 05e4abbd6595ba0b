//! The fields of a row, and the row that they say.

ghost use Rattle.std.specs.Prelude.{◌≡◌, ◌⊎◌, ok_or, [], Ok, Err, None, if◌then◌else◌};
ghost use Rattle.std.specs.Str.{bytes_eq};
ghost use Rattle.history_text.specs.Statuses.{status_in};
ghost use Rattle.history_text.specs.Values.{Answers as SaysOrStarves};
ghost use Rattle.history_text.specs.declared.fault.TextFault.TheVariants as Why;
ghost use Rattle.history_csv.specs.Rows.{Answers, moment_by_parts, moment_in, variant_in, optional_in, row_in};
ghost use Rattle.history_csv.specs.declared.fault.RowFault.TheVariants as Fault;

use crate::fault::RowFault;
use crate::nodes::read_node;
use history_text::{TextFault, Time, read_array, read_status, read_time, read_value};
use records::Moment;
use std::alloc::Global;
use ua_binary::{NodeId, Status};
use ua_variant::{ValueType, Variant};

/// A value of a node's history that was read.
#[derive(Debug, Drop)]
pub struct Row {
    /// The node.
    pub node: NodeId,
    /// The source time, with its picoseconds.
    pub time: Moment,
    /// The value, one or an array; none where its field is empty, and an empty text says no value of its
    /// type.
    pub value: Option<Variant>,
    /// The status, without the bits of the server.
    pub status: Status,
}

/// The four fields of a row.
#[derive(Clone, Copy)]
pub(crate) struct Fields<'a> {
    pub(crate) node: &'a str,
    pub(crate) time: &'a str,
    pub(crate) value: &'a str,
    pub(crate) status: &'a str,
}

/// The moment of these parts, where its picoseconds are within a step.
fn moment_by_parts(time: Time) -> Option<Moment>
    ensures { result ≡ moment_by_parts time }
{
    if time.pico > 9_999 {
        return None;
    }
    Some(Moment {
        ticks: time.ticks,
        pico: time.pico,
    })
}

/// Reads a moment as a row has it, a source time with its picoseconds. A text that says none is None.
pub fn read_moment(text: &str) -> Option<Moment>
    ensures { result ≡ moment_in text.now }
{
    match read_time(text) {
        Ok(time) => moment_by_parts(time),
        Err(_) => None,
    }
}

/// The moment of a row.
fn moment_in(text: &str) -> Result<Moment, RowFault>
    ensures { result ≡ ok_or (moment_in text.now) (Fault.Time Why.NoTime) }
{
    read_moment(text).ok_or(RowFault::Time(TextFault::NoTime))
}

/// The status of a row.
fn code_in(text: &str) -> Result<Status, RowFault>
    ensures { result ≡ ok_or (status_in text.now) (Fault.Status Why.NoStatus) }
{
    match read_status(text) {
        Ok(status) => Ok(status),
        Err(_) => Err(RowFault::Status(TextFault::NoStatus)),
    }
}

/// No value, where a text that says none of its type is empty.
fn none_where_empty(text: &str, why: TextFault) -> Result<Option<Variant>, RowFault>
    ensures { result ≡ (if bytes_eq text.now [] then Ok None else Err (Fault.Value why)) }
{
    if text.is_empty() {
        return Ok(None);
    }
    Err(RowFault::Value(why))
}

/// The value of a type that a text says, one or an array.
fn variant_in(alloc: Global, value_type: ValueType, text: &str) -> Result<Variant, TextFault>
    ensures { SaysOrStarves (variant_in value_type text.now) result }
{
    if value_type.array {
        let values = read_array(alloc, value_type.number, text)?;
        Ok(Variant::Array(values))
    } else {
        let value = read_value(alloc, value_type.number, text)?;
        Ok(Variant::Scalar(value))
    }
}

/// The value of a row, of this type.
fn optional_in(
    alloc: Global,
    value_type: ValueType,
    text: &str,
) -> Result<Option<Variant>, RowFault>
    ensures { Answers (optional_in value_type text.now) result }
{
    match variant_in(alloc, value_type, text) {
        Ok(value) => Ok(Some(value)),
        Err(why) => match why {
            TextFault::OutOfMemory => Err(RowFault::OutOfMemory),
            why => none_where_empty(text, why),
        },
    }
}

/// The row that four texts say, with a value of this type.
pub(crate) fn row_in(alloc: Global, value_type: ValueType, fields: Fields) -> Result<Row, RowFault>
    ensures { Answers (row_in value_type fields.entry.node.now fields.entry.time.now
        fields.entry.value.now fields.entry.status.now) result }
{
    let node = read_node(alloc, fields.node)?;
    let time = moment_in(fields.time)?;
    let value = optional_in(alloc, value_type, fields.value)?;
    let status = code_in(fields.status)?;
    Ok(Row {
        node,
        time,
        value,
        status,
    })
}
