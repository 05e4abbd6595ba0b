ghost use Rattle.std.specs.Prelude.{IsTrue};
ghost use Rattle.ua_binary.specs.Binary.{IsShortNode};

use archive::{Archive, ListArchive};
use exchange::{Event, Operation};
use headline::two_machines;
use hist_read::{Query, read_node};
use hist_update::Request;
use records::HistoryUpdateType;
use stamp::{ReplicaNo, Vector};
use std::alloc::{AllocError, Global};
use std::test::Fail;
use ua_binary::{Listing, NodeId, Text, Ticks};
use ua_services::{HistoryData, ReadRawModifiedDetails, TimestampsToReturn};
use ua_variant::{DataValue, Scalar, ValueType, Variant};
use uuid::Uuid;

/// A value at source time 10.
fn value(written: i32) -> DataValue {
    DataValue {
        value: Some(Variant::Scalar(Scalar::Int32(written))),
        status: None,
        source_time: Some(Ticks(10)),
        source_pico: None,
        server_time: None,
        server_pico: None,
    }
}

/// An insert at node ns=1;s=T by this user.
fn insert(alloc: Global, replica: usize, user: &str, written: i32) -> Result<Event, AllocError> {
    let node = NodeId::Named(1, Text::from_str(alloc, "T")?);
    let user = Text::from_str(alloc, user)?;
    Ok(Event::Operation {
        replica,
        request: Request {
            node,
            user,
            reading: 100,
        },
        operation: Operation::Write {
            asked: HistoryUpdateType::Insert,
            value_type: ValueType {
                number: 6,
                array: false,
            },
            value: value(written),
        },
    })
}

/// Both insert, each sends all that it holds, and that comes to the other.
fn happened(alloc: Global, user: &str) -> Result<Vec<Event>, AllocError> {
    let mut events = Vec::new(alloc);
    for (replica, written) in [(0, 7), (1, 8)] {
        events.push(insert(alloc, replica, user, written)?)?;
    }
    for replica in [0, 1] {
        events.push(Event::Send {
            replica,
            vector: Vector::new(),
            limit: 1000,
        })?;
    }
    for (replica, batch) in [(1, 0), (0, 1)] {
        events.push(Event::Deliver {
            replica,
            batch,
            count: 1000,
        })?;
    }
    Ok(events)
}

fn is_short(node: &NodeId) -> bool
    ensures { IsTrue result → IsShortNode node.now }
{
    match node {
        NodeId::Named(_, name) => name.len() < 0x8000_0000,
        _ => false,
    }
}

/// Whether it is 8 alone, at source time 10.
fn are_8(values: &[DataValue]) -> bool {
    let mut alone = values.len() == 1;
    for shown in values {
        let written = value(8);
        alone = alone && shown.value == written.value && shown.source_time == written.source_time;
    }
    alone
}

/// Whether a read of the node's history shows 8 alone.
fn shows_8(alloc: Global, machine: &mut ListArchive) -> Result<bool, AllocError> {
    let node = NodeId::Named(1, Text::from_str(alloc, "T")?);
    let query = Query {
        details: ReadRawModifiedDetails {
            is_read_modified: false,
            start_time: Ticks(1),
            end_time: Ticks(100),
            num_values_per_node: 0,
            return_bounds: false,
        },
        stamps: TimestampsToReturn::Source,
    };
    if !is_short(&node) {
        return Err(AllocError);
    }
    let told = read_node(alloc, machine, &node, &query, None);
    match &told.history_data {
        HistoryData::Raw(values) => Ok(are_8(values.as_slice())),
        _ => Ok(false),
    }
}

/// Whether two machines that met show the same.
fn meet(alloc: Global, user: &str) -> Result<bool, AllocError> {
    let (Some(one), Some(other)) = (ReplicaNo::new(1), ReplicaNo::new(2)) else {
        return Ok(false);
    };
    let events = happened(alloc, user)?;
    let Ok(mut machines) = two_machines(alloc, Uuid::nil(), one, other, &events) else {
        return Ok(false);
    };
    let mut same = machines.as_slice().len() == 2;
    for machine in machines.iter_mut() {
        same = same && machine.vector() == Ok(all_of_both()) && shows_8(alloc, machine)?;
    }
    Ok(same)
}

/// The vector that covers one record of each.
fn all_of_both() -> Vector {
    let mut both = Vector::new();
    for number in [1, 2] {
        if let Some(replica) = ReplicaNo::new(number) {
            both.raise(replica, 1);
        }
    }
    both
}

#[test]
fn two_machines_meet(rt: HostRuntime) -> Result<(), Fail> {
    assert!(rt; meet(rt.alloc(), "ann")?);
    Ok(())
}

#[test]
fn events_that_are_not_lawful_are_refused(rt: HostRuntime) -> Result<(), Fail> {
    let user = "0123456789abcdef0123456789abcdef0123456789abcdef0123456789abcdef";
    let mut long = String::new(rt.alloc());
    for _ in 0..4 {
        long.push_str(user)?;
    }
    assert!(rt; meet(rt.alloc(), long.as_str())?);
    long.push('0')?;
    assert!(rt; !meet(rt.alloc(), long.as_str())?);
    Ok(())
}
