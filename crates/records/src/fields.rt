//! The fields of a record.

ghost use Rattle.std.specs.Prelude.{◌≡◌, ◌≤◌, IfOk};
ghost use Rattle.ua_binary.specs.Binary.{node_of};
ghost use Rattle.ua_binary.specs.Format.{Reads, ReadsPart};
ghost use Rattle.records.specs.declared.fault.RecordFault.TheVariants as fault;
ghost use Rattle.records.specs.Spelling.{time, front};
ghost use Rattle.records.specs.Fields.{version, origin, number, tick, ticks, pico, asked, user};

use crate::fault::RecordFault;
use crate::moment::Moment;
use crate::record::Record;
use stamp::{GREATEST_NUMBER, GREATEST_TICK, ReplicaNo};
use std::alloc::Global;
use ua_binary::{Cursor, NodeId, NodeIdRef, Text};
use ua_variant::{DataValue, HistoryUpdateType};

fn read_version(cursor: &mut Cursor<'_>) -> Result<u8, RecordFault>
    ensures { Reads (λ v. v) result cursor.old cursor.new version.read }
{
    let mut next = cursor.fork();
    let version = next.u8()?;
    if version != 2 {
        return Err(RecordFault::BadField);
    }
    *cursor = next;
    Ok(version)
}

fn read_origin(cursor: &mut Cursor<'_>) -> Result<ReplicaNo, RecordFault>
    ensures { Reads (λ v. v) result cursor.old cursor.new origin.read }
{
    let mut next = cursor.fork();
    let number = next.u8()?;
    let Some(origin) = ReplicaNo::new(number) else {
        return Err(RecordFault::BadField);
    };
    *cursor = next;
    Ok(origin)
}

fn read_number(cursor: &mut Cursor<'_>) -> Result<u64, RecordFault>
    ensures { Reads (λ v. v) result cursor.old cursor.new number.read }
{
    let mut next = cursor.fork();
    let number = next.u64()?;
    if number < 1 || number > GREATEST_NUMBER {
        return Err(RecordFault::BadField);
    }
    *cursor = next;
    Ok(number)
}

fn read_tick(cursor: &mut Cursor<'_>) -> Result<i64, RecordFault>
    ensures { Reads (λ v. v) result cursor.old cursor.new tick.read }
{
    let mut next = cursor.fork();
    let tick = next.i64()?;
    if tick < 1 || tick > GREATEST_TICK {
        return Err(RecordFault::BadField);
    }
    *cursor = next;
    Ok(tick)
}

fn read_ticks(cursor: &mut Cursor<'_>) -> Result<i64, RecordFault>
    ensures { Reads (λ v. v) result cursor.old cursor.new ticks.read }
{
    let mut next = cursor.fork();
    let ticks = next.i64()?;
    if ticks < 1 {
        return Err(RecordFault::BadField);
    }
    *cursor = next;
    Ok(ticks)
}

fn read_pico(cursor: &mut Cursor<'_>) -> Result<u16, RecordFault>
    ensures picoseconds { Reads (λ v. v) result cursor.old cursor.new pico.read }
    ensures within { IfOk result (λ n. n ≤ 9999) }
{
    let mut next = cursor.fork();
    let pico = next.u16()?;
    if pico > 9999 {
        return Err(RecordFault::BadField);
    }
    *cursor = next;
    Ok(pico)
}

#[tactic(auto, unfolding(crate::specs::Spelling::time))]
fn read_time(cursor: &mut Cursor<'_>) -> Result<Moment, RecordFault>
    ensures { Reads (λ v. v) result cursor.old cursor.new time.read }
{
    let mut next = cursor.fork();
    let ticks = read_ticks(&mut next)?;
    let pico = read_pico(&mut next)?;
    *cursor = next;
    Ok(Moment { ticks, pico })
}

fn read_asked(cursor: &mut Cursor<'_>) -> Result<HistoryUpdateType, RecordFault>
    ensures { Reads (λ v. v) result cursor.old cursor.new asked.read }
{
    let mut next = cursor.fork();
    let asked = match next.u8()? {
        1 => HistoryUpdateType::Insert,
        2 => HistoryUpdateType::Replace,
        3 => HistoryUpdateType::Update,
        4 => HistoryUpdateType::Delete,
        _ => return Err(RecordFault::BadField),
    };
    *cursor = next;
    Ok(asked)
}

fn read_user<'a>(cursor: &mut Cursor<'a>) -> Result<&'a str, RecordFault>
    ensures { Reads (λ v. v.now) result cursor.old cursor.new user.read }
{
    let mut next = cursor.fork();
    let Some(user) = next.text()? else {
        return Err(RecordFault::BadField);
    };
    if user.len() > 256 {
        return Err(RecordFault::BadField);
    }
    *cursor = next;
    Ok(user)
}

/// What was updated, and who asked, in the bytes that it was read from.
#[derive(Clone, Copy, Drop)]
struct Update<'a> {
    node: NodeIdRef<'a>,
    time: Moment,
    asked: HistoryUpdateType,
    user: &'a str,
}

impl<'a> Update<'a> {
    ghost use Rattle.records.specs.Fields.{update};

    /// An error leaves the cursor anywhere.
    fn read(cursor: &mut Cursor<'a>) -> Result<Update<'a>, RecordFault>
        ensures { ReadsPart fault.OutOfMemory
            (λ u. (node_of u.node, (u.time, (u.asked, u.user.now)))) result cursor.old cursor.new
            update.read }
    {
        let node = cursor.node_id()?;
        let time = read_time(cursor)?;
        let asked = read_asked(cursor)?;
        let user = read_user(cursor)?;
        Ok(Update {
            node,
            time,
            asked,
            user,
        })
    }
}

/// The fields of a record before its value.
#[derive(Drop)]
pub(crate) struct Front {
    origin: ReplicaNo,
    number: u64,
    tick: i64,
    node: NodeId,
    time: Moment,
    pub(crate) asked: HistoryUpdateType,
    user: Text,
}

impl Front {
    ghost use Rattle.records.specs.Spelling.{front};

    /// An error leaves the cursor anywhere.
    pub(crate) fn read(alloc: Global, cursor: &mut Cursor<'_>) -> Result<Front, RecordFault>
        ensures { ReadsPart fault.OutOfMemory
            (λ f. (2, (f.origin, (f.number, (f.tick, (f.node, (f.time, (f.asked, f.user))))))))
            result cursor.old cursor.new front.read }
    {
        read_version(cursor)?;
        let origin = read_origin(cursor)?;
        let number = read_number(cursor)?;
        let tick = read_tick(cursor)?;
        let update = match Update::read(cursor) {
            Ok(update) => update,
            Err(fault) => return Err(fault),
        };
        let node = update.node.to_owned(alloc)?;
        let user = Text::from_str(alloc, update.user)?;
        Ok(Front {
            origin,
            number,
            tick,
            node,
            time: update.time,
            asked: update.asked,
            user,
        })
    }

    /// The record of these fields and a value.
    pub(crate) fn with_value(self, value: DataValue) -> Record
        ensures { result
            ≡ record {
              origin = self.origin;
              number = self.number;
              tick = self.tick;
              node = self.node;
              time = self.time;
              asked = self.asked;
              user = self.user;
              value = value;
            } }
    {
        Record {
            origin: self.origin,
            number: self.number,
            tick: self.tick,
            node: self.node,
            time: self.time,
            asked: self.asked,
            user: self.user,
            value,
        }
    }
}
