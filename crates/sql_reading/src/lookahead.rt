//! Records of a node that are read ahead, in a direction: one query reads several rows, and the records of
//! the next time are the first of them.

ghost use Rattle.std.specs.Prelude.{◌≡◌, ◌<◌, ◌≤◌, ◌+◌, ◌-◌, pos, [], false, IfOk, IfErr, IfSome};
ghost use Rattle.sqlite.specs.State.{HasCleanDisk};
ghost use Rattle.sqlite.specs.Held.{state};
ghost use Rattle.ua_binary.specs.Binary.{node_id, IsNodeId};
ghost use Rattle.records.specs.Records.{versions};
ghost use Rattle.archive.specs.Reading.{times, in_direction};
ghost use Rattle.archive.specs.declared.fault.StoreFault.TheVariants as store;
ghost use Rattle.sql_tables.specs.Rows.{IsFilled};
ghost use Rattle.sql_tables.specs.State.{Idles, LeavesUnchanged};
ghost use Rattle.sql_reading.specs.Walking.{IsStartPlace, IsNextTime, first_time, is_used_up, AreTaken, IsTaken, moment_of, HoldsNext, HoldsFirst};
ghost use Rattle.sql_tables.specs.Connections.{WhereClean, Sees, content_of};

use crate::asked::SpelledReading;
use crate::reads::story_at;
use archive::{Direction, StoreFault};
use records::{Moment, Record};
use sql_tables::{Next, RowTime, decode_all, rows_next};
use sqlite::{Alter, Connection};
use std::alloc::Global;
use std::collections::VecDeque;

/// The next records of a node, by time and stamp in a direction.
#[derive(Debug, Drop)]
pub(crate) struct Ahead {
    /// Those that were read, and not taken yet.
    pub(crate) records: VecDeque<Record>,
    /// Whether no others stand behind them.
    pub(crate) ends: bool,
}

/// Nothing was read yet.
pub(crate) fn nothing_ahead(alloc: Global) -> Ahead
    ensures records { result.records.items ≡ [] }
    ensures ends { result.ends ≡ false }
{
    Ahead {
        records: VecDeque::new(alloc),
        ends: false,
    }
}

/// How many rows a query asks: one more than are still wanted, but no more than sixteen beside as many as
/// were found so far, and 256 at most.
pub(crate) fn rows_to_ask(found: usize, limit: usize) -> u16
    requires { found ≤ limit }
    ensures some { 0 < result }
    ensures most { (result ≤ 256) × (result ≤ found + 16) × (result ≤ limit - found + 1) }
{
    let wanted = (limit - found).min(255) + 1;
    let most = found.min(240) + 16;
    wanted.min(most) as u16
}

/// The time of the first of some records.
fn first_time(records: &VecDeque<Record>) -> Option<Moment>
    ensures { result ≡ first_time records.now.items }
{
    let first = records.front()?;
    Some(first.time)
}

/// Whether nothing is held, and others may stand behind it.
fn is_used_up(ahead: &Ahead) -> bool
    ensures { result ≡ is_used_up ahead.now.records.items ahead.now.ends }
{
    ahead.records.is_empty() && !ahead.ends
}

/// So many rows beyond a place.
fn rows_beyond(place: &RowTime, count: u16) -> Next
    ensures ticks { result.place.ticks ≡ place.now.ticks }
    ensures pico { result.place.pico ≡ place.now.pico }
    ensures count { result.count ≡ pos count }
{
    Next {
        place: *place,
        count: i64::from(count),
    }
}

/// The next records beyond a place: so many of them, or all that there are.
fn read_ahead<S: Alter>(
    conn: &mut Connection<S>,
    reading: &SpelledReading<'_>,
    place: &RowTime,
    count: u16,
) -> Result<Ahead, StoreFault>
    requires idles { WhereClean S.Store conn.old Idles }
    requires filled { WhereClean S.Store conn.old (Sees IsFilled) }
    requires spelled { reading.now.bytes.now ≡ node_id.canon reading.now.node.now }
    requires lawful { IsNodeId reading.now.node.now }
    requires place { IsStartPlace reading.now.direction place.now.pico }
    requires some { 0 < count }
    ensures { LeavesUnchanged (state S.Store conn.old) (state S.Store conn.new) result
        (λ a. HoldsNext (content_of S.Store conn.old) reading.now.node.now reading.now.direction
        (moment_of place.now) a
        × (is_used_up a.records.items a.ends ≡ false)) }
{
    let next = rows_beyond(place, count);
    let rows = rows_next(conn, reading.bytes, &next, reading.direction)?;
    let records = decode_all(reading.alloc, &rows)?;
    let ends = records.len() < usize::from(count);
    Ok(Ahead {
        records: VecDeque::from(records),
        ends,
    })
}

/// Reads on where nothing is held.
fn fill<S: Alter>(
    conn: &mut Connection<S>,
    ahead: &mut Ahead,
    reading: &SpelledReading<'_>,
    place: &RowTime,
    count: u16,
) -> Result<(), StoreFault>
    requires idles { WhereClean S.Store conn.old Idles }
    requires filled { WhereClean S.Store conn.old (Sees IsFilled) }
    requires spelled { reading.now.bytes.now ≡ node_id.canon reading.now.node.now }
    requires lawful { IsNodeId reading.now.node.now }
    requires place { IsStartPlace reading.now.direction place.now.pico }
    requires some { 0 < count }
    requires ahead { HasCleanDisk (state S.Store conn.old) → HoldsNext
        (content_of S.Store conn.old) reading.now.node.now reading.now.direction
        (moment_of place.now) ahead.old }
    ensures { LeavesUnchanged (state S.Store conn.old) (state S.Store conn.new) result
        (λ _. HoldsNext (content_of S.Store conn.old) reading.now.node.now reading.now.direction
        (moment_of place.now) ahead.new × (is_used_up ahead.new.records.items ahead.new.ends ≡ false)) }
{
    if is_used_up(ahead) {
        *ahead = read_ahead(conn, reading, place, count)?;
        return Ok(());
    }
    Ok(())
}

/// The first time of a node that is strictly beyond a place. Its records are then the first that are held.
pub(crate) fn next_time<S: Alter>(
    conn: &mut Connection<S>,
    ahead: &mut Ahead,
    reading: &SpelledReading<'_>,
    place: &RowTime,
    count: u16,
) -> Result<Option<Moment>, StoreFault>
    requires idles { WhereClean S.Store conn.old Idles }
    requires filled { WhereClean S.Store conn.old (Sees IsFilled) }
    requires spelled { reading.now.bytes.now ≡ node_id.canon reading.now.node.now }
    requires lawful { IsNodeId reading.now.node.now }
    requires place { IsStartPlace reading.now.direction place.now.pico }
    requires some { 0 < count }
    requires ahead { HasCleanDisk (state S.Store conn.old) → HoldsNext
        (content_of S.Store conn.old) reading.now.node.now reading.now.direction
        (moment_of place.now) ahead.old }
    ensures { LeavesUnchanged (state S.Store conn.old) (state S.Store conn.new) result
        (λ t. IsNextTime reading.now.direction (moment_of place.now)
        (times (content_of S.Store conn.old) reading.now.node.now) t
        × IfSome t (λ time. HoldsFirst (content_of S.Store conn.old) reading.now.node.now
        reading.now.direction time ahead.new)) }
{
    fill(conn, ahead, reading, place, count)?;
    Ok(first_time(&ahead.records))
}

/// The first of some records, taken off where it is of a time.
fn pop_at(records: &mut VecDeque<Record>, time: Moment) -> Option<Record>
    ensures { IsTaken time records.old.items result records.new.items }
{
    match first_time(records) {
        Some(first) if first == time => records.pop_front(),
        _ => None,
    }
}

/// Takes the first records off, as long as they are of a time.
fn take_time(
    alloc: Global,
    records: &mut VecDeque<Record>,
    time: Moment,
) -> Result<Vec<Record>, StoreFault>
    ensures value { IfOk result
        (λ taken. AreTaken time records.old.items taken.items records.new.items) }
    ensures memory { IfErr result (λ e. e ≡ store.OutOfMemory) }
{
    let mut taken = Vec::new(alloc);
    for _ in 0..records.len() {
        let Some(r) = pop_at(records, time) else {
            return Ok(taken);
        };
        match taken.push(r) {
            Ok(()) => {}
            Err(_) => return Err(StoreFault::OutOfMemory),
        }
    }
    Ok(taken)
}

/// Records by their stamps, of those in a direction.
fn turn(records: &mut Vec<Record>, direction: Direction)
    ensures { records.new.items ≡ in_direction direction records.old.items }
{
    if direction == Direction::Backward {
        records.reverse();
    }
}

/// Takes off the records of the first time. Where all that is held is of that time, others of it may stand
/// behind them, and they are read anew.
pub(crate) fn take_story<S: Alter>(
    conn: &mut Connection<S>,
    ahead: &mut Ahead,
    reading: &SpelledReading<'_>,
    time: Moment,
) -> Result<Vec<Record>, StoreFault>
    requires idles { WhereClean S.Store conn.old Idles }
    requires filled { WhereClean S.Store conn.old (Sees IsFilled) }
    requires spelled { reading.now.bytes.now ≡ node_id.canon reading.now.node.now }
    requires lawful { IsNodeId reading.now.node.now }
    requires first { HasCleanDisk (state S.Store conn.old)
        → HoldsFirst (content_of S.Store conn.old) reading.now.node.now reading.now.direction time
        ahead.old }
    ensures { LeavesUnchanged (state S.Store conn.old) (state S.Store conn.new) result
        (λ v. (v.items ≡ versions (content_of S.Store conn.old) reading.now.node.now time)
        × HoldsNext (content_of S.Store conn.old) reading.now.node.now reading.now.direction time
        ahead.new) }
{
    let mut taken = take_time(reading.alloc, &mut ahead.records, time)?;
    if is_used_up(ahead) {
        return story_at(reading.alloc, conn, reading.node, reading.bytes, time);
    }
    turn(&mut taken, reading.direction);
    Ok(taken)
}
