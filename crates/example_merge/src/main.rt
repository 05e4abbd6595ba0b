//! Two replicas of one archive, in memory. While they are apart, a user at each inserts another value for the same time; then
//! they exchange records. Both show the later insert, which counts as a replacement now, and who wrote what.
#![tactic(auto)]

ghost use Rattle.std.specs.Prelude.{◌≤◌, IfOk, length};
ghost use Rattle.hist_update.specs.Outcome.{IsRequest};

use anyhow::{Context, ensure};
use archive::{Archive, Direction, ListArchive};
use exchange::{Replica, converse};
use hist_update::{Request, update_data};
use records::Moment;
use stamp::ReplicaNo;
use std::alloc::{AllocError, Global};
use ua_binary::{NodeId, Status, Text, Ticks};
use ua_variant::{DataValue, Scalar, ValueType, Variant};
use uuid::Uuid;

/// 2026-03-01 07:00 UTC, in steps of 100 ns since 1601: when the temperature was measured.
const SEVEN: i64 = 134_167_968_000_000_000 + 7 * 36_000_000_000;

/// The standard's number of an insert (Part 11, PerformUpdateType).
const INSERT: i32 = 1;

/// Int32, by the standard's number (Part 6, 5.1.2).
const INT32: ValueType = ValueType {
    number: 6,
    array: false,
};

/// The boiler's temperature.
fn boiler(alloc: Global) -> Result<NodeId, AllocError> {
    Ok(NodeId::Named(1, Text::from_str(alloc, "boiler.temperature")?))
}

/// What this user asks for at the boiler's temperature, where the clock shows `reading`. Names have 256 bytes at most.
fn request(alloc: Global, user: &str, reading: i64) -> Result<Request, AllocError>
    requires { length user.now ≤ 256 }
    ensures { IfOk result IsRequest }
{
    Ok(Request {
        node: NodeId::Named(1, Text::from_str(alloc, "boiler.temperature")?),
        user: Text::from_str(alloc, user)?,
        reading,
    })
}

/// Inserts the temperature at seven, at one replica, by this user, whose clock shows `reading`.
fn insert(
    alloc: Global,
    replica: &mut Replica<ListArchive>,
    user: &str,
    reading: i64,
    celsius: i32,
) -> anyhow::Result<()>
    requires { length user.now ≤ 256 }
{
    let value = DataValue {
        value: Some(Variant::Scalar(Scalar::Int32(celsius))),
        status: None,
        source_time: Some(Ticks(SEVEN)),
        source_pico: None,
        server_time: None,
        server_pico: None,
    };
    let request = request(alloc, user, reading)?;
    let told = update_data(
        alloc,
        &mut replica.archive,
        &request,
        INT32,
        INSERT,
        &[value],
    );
    ensure!(told.status == Status::GOOD, "the update was refused");
    Ok(())
}

/// The degrees of a value.
fn degrees(value: &DataValue) -> Option<i32> {
    match &value.value {
        Some(Variant::Scalar(Scalar::Int32(celsius))) => Some(*celsius),
        _ => None,
    }
}

/// Prints the temperature at seven and how it came about, as one replica shows it.
fn show(rt: &HostRuntime, replica: &mut Replica<ListArchive>) -> anyhow::Result<()> {
    let node = boiler(rt.alloc())?;
    let at = Moment::at(SEVEN);
    let all = replica.archive.vector()?;
    let live = replica
        .archive
        .range(rt.alloc(), &node, at, at, Direction::Forward, 1, &all)?;
    println!(rt; "at replica {}:", replica.archive.number().get())?;
    for held in &live {
        println!(rt; "  {:?} is shown", degrees(&held.value))?;
    }
    let changes = replica.archive.log(
        rt.alloc(),
        &node,
        at,
        at,
        None,
        Direction::Forward,
        9,
        &all,
    )?;
    for entry in &changes {
        let shown = entry.value.as_ref().and_then(degrees);
        println!(rt; "  {:?} {:?} by {}", entry.kind, shown, entry.user.as_str())?;
    }
    Ok(())
}

fn main(rt: HostRuntime) -> anyhow::Result<()> {
    let first = ReplicaNo::new(1).context("1 is a replica's number")?;
    let second = ReplicaNo::new(2).context("2 is a replica's number")?;
    let mut one = Replica::new(ListArchive::new(rt.alloc(), Uuid::nil(), first));
    let mut two = Replica::new(ListArchive::new(rt.alloc(), Uuid::nil(), second));
    insert(rt.alloc(), &mut one, "ann", 100, 70)?;
    insert(rt.alloc(), &mut two, "ben", 200, 71)?;
    let frames = converse(rt.alloc(), &mut one, &mut two)?;
    println!(&rt; "{frames} frames")?;
    show(&rt, &mut one)?;
    show(&rt, &mut two)
}
