//! A history is read page by page: five values were inserted, and a page holds two (OPC UA Part 11, 6.5.3). A page that
//! isn't the last one ends in a continuation point, which brings the next.
#![tactic(auto)]

ghost use Rattle.std.specs.Prelude.{IfOk};
ghost use Rattle.hist_update.specs.Outcome.{IsRequest};
ghost use Rattle.ua_binary.specs.Binary.{IsShortNode};
ghost use Rattle.ua_variant.specs.DataValue.{IsShortData};

use anyhow::{Context, ensure};
use archive::ListArchive;
use hist_read::{Query, read_node};
use hist_update::{Request, update_data};
use stamp::ReplicaNo;
use std::alloc::{AllocError, Global};
use ua_binary::{Bytes, NodeId, Status, Text, Ticks};
use ua_services::{HistoryData, ReadRawModifiedDetails, TimestampsToReturn};
use ua_variant::{DataValue, Scalar, ValueType, Variant};
use uuid::Uuid;

/// The standard's number of an insert (Part 11, PerformUpdateType).
const INSERT: i32 = 1;

/// UInt16, by the standard's number (Part 6, 5.1.2).
const UINT16: ValueType = ValueType {
    number: 5,
    array: false,
};

/// The variable.
fn speed(alloc: Global) -> Result<NodeId, AllocError>
    ensures { IfOk result IsShortNode }
{
    Ok(NodeId::Named(1, Text::from_str(alloc, "pump.speed")?))
}

/// What ann asks for at the variable.
fn request(alloc: Global) -> Result<Request, AllocError>
    ensures { IfOk result IsRequest }
{
    Ok(Request {
        node: NodeId::Named(1, Text::from_str(alloc, "pump.speed")?),
        user: Text::from_str(alloc, "ann")?,
        reading: 100,
    })
}

/// The value that was measured at a time.
fn measured(time: i64, written: u16) -> DataValue
    ensures { IsShortData result }
{
    DataValue {
        value: Some(Variant::Scalar(Scalar::UInt16(written))),
        status: None,
        source_time: Some(Ticks(time)),
        source_pico: None,
        server_time: None,
        server_pico: None,
    }
}

/// Inserts five values, at the times 1 to 5.
fn fill(alloc: Global, archive: &mut ListArchive) -> anyhow::Result<()> {
    let request = request(alloc)?;
    let values = [
        measured(1, 900),
        measured(2, 920),
        measured(3, 880),
        measured(4, 870),
        measured(5, 910),
    ];
    let told = update_data(alloc, archive, &request, UINT16, INSERT, &values);
    ensure!(told.status == Status::GOOD, "the update was refused");
    Ok(())
}

/// The number that was written.
fn written(value: &DataValue) -> Option<u16> {
    match &value.value {
        Some(Variant::Scalar(Scalar::UInt16(number))) => Some(*number),
        _ => None,
    }
}

/// Prints a page, and answers the point where it goes on.
fn page(
    rt: &HostRuntime,
    archive: &mut ListArchive,
    point: Option<&[u8]>,
) -> anyhow::Result<Option<Bytes>> {
    let query = Query {
        details: ReadRawModifiedDetails {
            is_read_modified: false,
            start_time: Ticks(1),
            end_time: Ticks(100),
            num_values_per_node: 2,
            return_bounds: false,
        },
        stamps: TimestampsToReturn::Source,
    };
    let node = speed(rt.alloc())?;
    let read = read_node(rt.alloc(), archive, &node, &query, point);
    println!(rt; "a page, status {:08X}", read.status.0)?;
    if let HistoryData::Raw(values) = &read.history_data {
        for value in values.as_slice() {
            println!(rt; "  {:?} at {:?}", written(value), value.source_time)?;
        }
    }
    Ok(read.continuation_point)
}

fn main(rt: HostRuntime) -> anyhow::Result<()> {
    let first = ReplicaNo::new(1).context("1 is a replica's number")?;
    let mut archive = ListArchive::new(rt.alloc(), Uuid::nil(), first);
    fill(rt.alloc(), &mut archive)?;
    let mut point = page(&rt, &mut archive, None)?;
    // A loop has to end: three pages are all there are.
    for _ in 0..9 {
        let Some(at) = &point else {
            break;
        };
        point = page(&rt, &mut archive, Some(at.as_slice()))?;
    }
    Ok(())
}
