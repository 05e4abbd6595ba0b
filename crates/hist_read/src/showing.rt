//! How values and modifications are shown.

ghost use Rattle.std.specs.Prelude.{◌≡◌, ◌++◌, map, unwrap_or, IfOk};
ghost use Rattle.records.specs.Spelling.{empty};
ghost use Rattle.hist_read.specs.declared.item.Item.TheVariants.{Value};
ghost use Rattle.hist_read.specs.Showing.{with_extra, at_time, with_status, item_value, with_stamps, shown, shown_entry, info};

use crate::item::Item;
use records::{Entry, Held, Moment};
use std::alloc::{AllocError, Global};
use ua_binary::{Status, Ticks};
use ua_services::{ModificationInfo, TimestampsToReturn};
use ua_variant::DataValue;

/// The info bits of a data value at whose time more values are to be had.
const EXTRA_DATA: u32 = 0x0000_0408;

/// A status with the bits for more values at its time.
fn with_extra(status: Option<Status>) -> Option<Status>
    ensures { result ≡ with_extra status }
{
    let bits = match status {
        None => 0,
        Some(status) => status.0,
    };
    Some(Status(bits | EXTRA_DATA))
}

/// A live value, with its source time.
fn held_value(held: Held) -> DataValue
    ensures { result ≡ item_value (Value held) }
{
    let Held { time, value, extra } = held;
    let DataValue {
        value,
        status,
        source_pico,
        server_time,
        server_pico,
        ..
    } = value;
    DataValue {
        value,
        status: if extra { with_extra(status) } else { status },
        source_time: Some(Ticks(time.ticks())),
        source_pico,
        server_time,
        server_pico,
    }
}

/// Nothing but a status and a source time.
fn without_value(status: Option<Status>, time: Moment) -> DataValue
    ensures { result ≡ at_time time (with_status status empty) }
{
    DataValue {
        value: None,
        status,
        source_time: Some(Ticks(time.ticks())),
        source_pico: None,
        server_time: None,
        server_pico: None,
    }
}

/// An item of a raw read, with its source time.
fn item_value(item: Item) -> DataValue
    ensures { result ≡ item_value item }
{
    match item {
        Item::Value(held) => held_value(held),
        Item::Missing(time) => without_value(Some(Status::BAD_BOUND_NOT_FOUND), time),
    }
}

/// A modification's value with its source time, else that alone.
fn entry_value(time: Moment, value: Option<DataValue>) -> DataValue
    ensures { result ≡ at_time time (unwrap_or value empty) }
{
    let Some(value) = value else {
        return without_value(None, time);
    };
    DataValue {
        source_time: Some(Ticks(time.ticks())),
        ..value
    }
}

/// A value with the times that were asked for; where neither is, with none.
pub fn with_stamps(stamps: TimestampsToReturn, value: DataValue) -> DataValue
    ensures { result ≡ with_stamps stamps value }
{
    match stamps {
        TimestampsToReturn::Source => DataValue {
            server_time: None,
            server_pico: None,
            ..value
        },
        TimestampsToReturn::Server => DataValue {
            source_time: None,
            source_pico: None,
            ..value
        },
        TimestampsToReturn::Both => value,
        TimestampsToReturn::Neither => DataValue {
            source_time: None,
            source_pico: None,
            server_time: None,
            server_pico: None,
            ..value
        },
    }
}

/// An item of a raw read, as it is shown.
fn shown(stamps: TimestampsToReturn, item: Item) -> DataValue
    ensures { result ≡ shown stamps item }
{
    with_stamps(stamps, item_value(item))
}

/// The value of a modification, as it is shown, and what is told of it.
fn shown_entry(stamps: TimestampsToReturn, entry: Entry) -> (DataValue, ModificationInfo)
    ensures { result ≡ (shown_entry stamps entry, info entry) }
{
    let Entry {
        time,
        value,
        kind,
        tick,
        user,
        ..
    } = entry;
    let info = ModificationInfo {
        modification_time: Ticks(tick),
        update_type: kind,
        user_name: Some(user),
    };
    (with_stamps(stamps, entry_value(time, value)), info)
}

/// The items of a raw read, as they are shown.
pub(crate) fn show_items(
    alloc: Global,
    stamps: TimestampsToReturn,
    items: Vec<Item>,
) -> Result<Vec<DataValue>, AllocError>
    ensures { IfOk result (λ v. v.items ≡ map (shown stamps) items.items) }
{
    let mut values = Vec::with_capacity(alloc, items.len())?;
    for item in items.into_iter() {
        values.push(shown(stamps, item))?;
    }
    Ok(values)
}

/// The values of modifications, as they are shown, and what is told of each.
pub(crate) fn show_entries(
    alloc: Global,
    stamps: TimestampsToReturn,
    entries: Vec<Entry>,
) -> Result<(Vec<DataValue>, Vec<ModificationInfo>), AllocError>
    ensures { IfOk result
        (λ p. (p.0.items ≡ map (shown_entry stamps) entries.items)
        × (p.1.items ≡ map info entries.items)) }
{
    let mut values = Vec::with_capacity(alloc, entries.len())?;
    let mut infos = Vec::with_capacity(alloc, entries.len())?;
    for entry in entries.into_iter() {
        let (value, info) = shown_entry(stamps, entry);
        values.push(value)?;
        infos.push(info)?;
    }
    Ok((values, infos))
}
