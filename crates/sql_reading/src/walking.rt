//! Going over the times of a node, in a direction, and the records of each.

ghost use Rattle.std.specs.Prelude.{◌≡◌, ◌<◌, take, not, filter};
ghost use Rattle.std.specs.List.{flat_map};
ghost use Rattle.sqlite.specs.State.{HasCleanDisk};
ghost use Rattle.sqlite.specs.Held.{state};
ghost use Rattle.stamp.specs.Numbers.{number_of};
ghost use Rattle.ua_binary.specs.Binary.{node_id, IsNodeId};
ghost use Rattle.records.specs.Records.{versions, is_beyond};
ghost use Rattle.archive.specs.Reading.{times};
ghost use Rattle.sql_tables.specs.Rows.{IsFilled};
ghost use Rattle.sql_tables.specs.State.{Idles, LeavesUnchanged};
ghost use Rattle.sql_reading.specs.Walking.{IsStartPlace, IsStoryRead, stretch, values_at, entries_at, moment_of, HoldsNext, HoldsFirst};
ghost use Rattle.sql_tables.specs.Connections.{WhereClean, Sees, content_of};
ghost use Rattle.sql_reading.specs.Connections.{content_within};

use crate::asked::{Span, SpelledReading};
use crate::lookahead::{Ahead, next_time, nothing_ahead, rows_to_ask, take_story};
use crate::reads::Story;
use crate::shown::{push_entries, push_value};
use archive::{LogPlace, StoreFault};
use records::{Entry, Held, Moment, Record};
use sql_tables::place_of;
use sqlite::{Alter, Connection};
use stamp::Vector;

/// Takes off the records of the first time that is held, and keeps those that a vector covers.
fn covered_story<S: Alter>(
    conn: &mut Connection<S>,
    ahead: &mut Ahead,
    reading: &SpelledReading<'_>,
    time: Moment,
) -> Result<Vec<Record>, StoreFault>
    requires idles { WhereClean S.Store conn.old Idles }
    requires filled { WhereClean S.Store conn.old (Sees IsFilled) }
    requires spelled { reading.now.bytes.now ≡ node_id.canon reading.now.node.now }
    requires lawful { IsNodeId reading.now.node.now }
    requires first { HasCleanDisk (state S.Store conn.old)
        → HoldsFirst (content_of S.Store conn.old) reading.now.node.now reading.now.direction time
        ahead.old }
    ensures { LeavesUnchanged (state S.Store conn.old) (state S.Store conn.new) result
        (λ v. (v.items ≡ versions (content_within S.Store conn.old reading.now.within.now)
        reading.now.node.now time)
        × HoldsNext (content_of S.Store conn.old) reading.now.node.now reading.now.direction time
        ahead.new) }
{
    let mut records = take_story(conn, ahead, reading, time)?;
    keep_covered(&mut records, reading.within);
    Ok(records)
}

fn keep_covered(records: &mut Vec<Record>, within: &Vector)
    ensures { records.new.items
        ≡ filter (λ r. not (is_beyond (number_of within.now) r)) records.old.items }
{
    records.retain(|r| within.covers(r.origin, r.number));
}

/// The first time of a node that is strictly beyond a place, and not beyond a far time, with the
/// records that a vector covers. What is held ahead is then what stands beyond that time.
fn next_story<S: Alter>(
    conn: &mut Connection<S>,
    ahead: &mut Ahead,
    reading: &SpelledReading<'_>,
    span: Span,
    count: u16,
) -> Result<Option<Story>, StoreFault>
    requires idles { WhereClean S.Store conn.old Idles }
    requires filled { WhereClean S.Store conn.old (Sees IsFilled) }
    requires spelled { reading.now.bytes.now ≡ node_id.canon reading.now.node.now }
    requires lawful { IsNodeId reading.now.node.now }
    requires place { IsStartPlace reading.now.direction span.start.pico }
    requires some { 0 < count }
    requires ahead { HasCleanDisk (state S.Store conn.old) → HoldsNext
        (content_of S.Store conn.old) reading.now.node.now reading.now.direction
        (moment_of span.start) ahead.old }
    ensures { LeavesUnchanged (state S.Store conn.old) (state S.Store conn.new) result
        (λ o. IsStoryRead (content_of S.Store conn.old) reading.now.node.now
        (number_of reading.now.within.now) reading.now.direction (moment_of span.start) span.far o
        ahead.new.records.items ahead.new.ends) }
{
    let next = next_time(conn, ahead, reading, &span.start, count)?;
    let Some(time) = next else {
        return Ok(None);
    };
    if reading.direction.is_past(span.far, time) {
        return Ok(None);
    }
    let records = covered_story(conn, ahead, reading, time)?;
    Ok(Some(Story { time, records }))
}

/// The first `limit` of a node's values beyond a place, up to a far time.
pub(crate) fn values<S: Alter>(
    conn: &mut Connection<S>,
    reading: &SpelledReading<'_>,
    span: Span,
    limit: usize,
) -> Result<Vec<Held>, StoreFault>
    requires idles { WhereClean S.Store conn.old Idles }
    requires filled { WhereClean S.Store conn.old (Sees IsFilled) }
    requires spelled { reading.now.bytes.now ≡ node_id.canon reading.now.node.now }
    requires lawful { IsNodeId reading.now.node.now }
    requires place { IsStartPlace reading.now.direction span.start.pico }
    ensures { LeavesUnchanged (state S.Store conn.old) (state S.Store conn.new) result
        (λ v. v.items ≡ take limit
        (flat_map
        (values_at (content_within S.Store conn.old reading.now.within.now) reading.now.node.now)
        (stretch reading.now.direction (moment_of span.start) span.far
        (times (content_of S.Store conn.old) reading.now.node.now)))) }
{
    let mut found = Vec::new(reading.alloc);
    let mut ahead = nothing_ahead(reading.alloc);
    let mut place = span.start;
    'times: for gone in 0..u64::MAX {
        if found.len() >= limit {
            found.truncate(limit);
            return Ok(found);
        }
        let count = rows_to_ask(found.len(), limit);
        let left = Span {
            start: place,
            far: span.far,
        };
        let next = next_story(conn, &mut ahead, reading, left, count)?;
        let Some(story) = next else {
            found.truncate(limit);
            return Ok(found);
        };
        place = place_of(story.time);
        push_value(&mut found, story.records)?;
    }
    Err(StoreFault::Refused)
}

/// The first `limit` of a node's modifications beyond a place, up to a far time, that stand behind
/// another place, where one is given.
pub(crate) fn entries<S: Alter>(
    conn: &mut Connection<S>,
    reading: &SpelledReading<'_>,
    span: Span,
    after: &Option<LogPlace>,
    limit: usize,
) -> Result<Vec<Entry>, StoreFault>
    requires idles { WhereClean S.Store conn.old Idles }
    requires filled { WhereClean S.Store conn.old (Sees IsFilled) }
    requires spelled { reading.now.bytes.now ≡ node_id.canon reading.now.node.now }
    requires lawful { IsNodeId reading.now.node.now }
    requires place { IsStartPlace reading.now.direction span.start.pico }
    ensures { LeavesUnchanged (state S.Store conn.old) (state S.Store conn.new) result
        (λ v. v.items ≡ take limit (flat_map
        (entries_at (content_within S.Store conn.old reading.now.within.now) reading.now.node.now
        after.now reading.now.direction)
        (stretch reading.now.direction (moment_of span.start) span.far
        (times (content_of S.Store conn.old) reading.now.node.now)))) }
{
    let mut found = Vec::new(reading.alloc);
    let mut ahead = nothing_ahead(reading.alloc);
    let mut place = span.start;
    'times: for gone in 0..u64::MAX {
        if found.len() >= limit {
            found.truncate(limit);
            return Ok(found);
        }
        let count = rows_to_ask(found.len(), limit);
        let left = Span {
            start: place,
            far: span.far,
        };
        let next = next_story(conn, &mut ahead, reading, left, count)?;
        let Some(story) = next else {
            found.truncate(limit);
            return Ok(found);
        };
        place = place_of(story.time);
        push_entries(
            reading.alloc,
            &mut found,
            story.records,
            reading.direction,
            after,
        )?;
    }
    Err(StoreFault::Refused)
}
