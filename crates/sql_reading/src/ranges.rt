//! What an archive shows of a node: values in a range and nearest outside it, and modifications.

ghost use Rattle.std.specs.Prelude.{◌≡◌, take, slice_get};
ghost use Rattle.std.specs.List.{flat_map};
ghost use Rattle.sqlite.specs.State.{HasCleanDisk};
ghost use Rattle.sqlite.specs.Held.{state};
ghost use Rattle.archive.specs.Reading.{range_of, log_of, outside_of, times};
ghost use Rattle.sql_tables.specs.Rows.{IsFilled};
ghost use Rattle.sql_tables.specs.Derived.{AreKept};
ghost use Rattle.sql_tables.specs.State.{Idles, LeavesUnchanged};
ghost use Rattle.sql_reading.specs.Walking.{IsStartPlace, IsSpan, ShowSame, end_of_time, stretch, values_at, moment_of};
ghost use Rattle.ua_binary.specs.Binary.{node_id, IsNodeId};
ghost use Rattle.sql_tables.specs.Connections.{WhereClean, Sees, content_of};
ghost use Rattle.sql_reading.specs.Connections.{AreLastNumbers, content_within};

use crate::asked::{Between, NodeReading, Span, SpelledReading};
use crate::currents::current_values;
use crate::reads::spelled_node;
use crate::walking::{entries, values};
use archive::{Direction, LogPlace, StoreFault};
use records::{Entry, Held, Moment};
use sql_tables::{RowTime, place_of};
use sqlite::{Alter, Connection};
use stamp::Vector;

/// The span from one time to another in a direction, both included.
fn span_of(between: Between, direction: Direction) -> Span
    ensures place { IsStartPlace direction result.start.pico }
    ensures span { IsSpan direction between.from between.to (moment_of result.start) result.far }
{
    match direction {
        Direction::Forward => {
            let place = place_of(between.from);
            Span {
                start: RowTime {
                    ticks: place.ticks,
                    pico: place.pico - 1,
                },
                far: between.to,
            }
        }
        Direction::Backward => {
            let place = place_of(between.to);
            Span {
                start: RowTime {
                    ticks: place.ticks,
                    pico: place.pico + 1,
                },
                far: between.from,
            }
        }
    }
}

/// The ends of a log that goes on behind a place: no modification behind it has an earlier time.
fn ends_behind(between: Between, after: &Option<LogPlace>, direction: Direction) -> Between
    ensures { ShowSame direction after.now between.from between.to result.from result.to }
{
    let Some(place) = *after else {
        return between;
    };
    match direction {
        Direction::Forward if between.from < place.time => Between {
            from: place.time,
            to: between.to,
        },
        Direction::Backward if place.time < between.to => Between {
            from: between.from,
            to: place.time,
        },
        _ => between,
    }
}

/// The last time there is, in a direction.
fn end_of_time(direction: Direction) -> Moment
    ensures { result ≡ end_of_time direction }
{
    match direction {
        Direction::Forward => Moment {
            ticks: i64::MAX,
            pico: 9_999,
        },
        Direction::Backward => Moment::at(0),
    }
}

/// The first of some values.
fn first_of(mut found: Vec<Held>) -> Option<Held>
    ensures { result ≡ slice_get (take 1 found.items) 0 }
{
    found.truncate(1);
    found.pop()
}

/// The first `limit` of a node's live values beyond a place, up to a far time, of what a vector covers: by
/// the current values where it covers all that there is, whose last numbers are `latest`, and else by the
/// records of each time.
fn live_values<S: Alter>(
    conn: &mut Connection<S>,
    reading: &SpelledReading<'_>,
    span: Span,
    limit: usize,
    latest: &Vector,
) -> Result<Vec<Held>, StoreFault>
    requires idles { WhereClean S.Store conn.old Idles }
    requires filled { WhereClean S.Store conn.old (Sees IsFilled) }
    requires kept { WhereClean S.Store conn.old (Sees AreKept) }
    requires latest { HasCleanDisk (state S.Store conn.old)
        → AreLastNumbers latest.now (content_of S.Store conn.old) }
    requires spelled { reading.now.bytes.now ≡ node_id.canon reading.now.node.now }
    requires lawful { IsNodeId reading.now.node.now }
    requires place { IsStartPlace reading.now.direction span.start.pico }
    ensures { LeavesUnchanged (state S.Store conn.old) (state S.Store conn.new) result
        (λ v. v.items ≡ take limit
        (flat_map
        (values_at (content_within S.Store conn.old reading.now.within.now) reading.now.node.now)
        (stretch reading.now.direction (moment_of span.start) span.far
        (times (content_of S.Store conn.old) reading.now.node.now)))) }
{
    if reading.within.at_least(latest) {
        return current_values(conn, reading, span, limit);
    }
    values(conn, reading, span, limit)
}

/// The first `limit` of a node's live values from one source time to another, both included.
pub fn range_in<S: Alter>(
    conn: &mut Connection<S>,
    reading: &NodeReading<'_>,
    between: Between,
    limit: usize,
    latest: &Vector,
) -> Result<Vec<Held>, StoreFault>
    requires idles { WhereClean S.Store conn.old Idles }
    requires filled { WhereClean S.Store conn.old (Sees IsFilled) }
    requires kept { WhereClean S.Store conn.old (Sees AreKept) }
    requires latest { HasCleanDisk (state S.Store conn.old)
        → AreLastNumbers latest.now (content_of S.Store conn.old) }
    ensures { LeavesUnchanged (state S.Store conn.old) (state S.Store conn.new) result
        (λ v. v.items ≡ take limit (range_of
        (content_within S.Store conn.old reading.now.within.now) reading.now.node.now between.from
        between.to reading.now.direction)) }
{
    match spelled_node(reading.alloc, reading.node)? {
        Some(bytes) => {
            let spelled = SpelledReading {
                alloc: reading.alloc,
                node: reading.node,
                bytes: &bytes,
                direction: reading.direction,
                within: reading.within,
            };
            let span = span_of(between, reading.direction);
            live_values(conn, &spelled, span, limit, latest)
        }
        None => Ok(Vec::new(reading.alloc)),
    }
}

/// The first `limit` of a node's modifications from one source time to another, both included, that
/// stand behind a place, where one is given.
pub fn log_in<S: Alter>(
    conn: &mut Connection<S>,
    reading: &NodeReading<'_>,
    between: Between,
    after: &Option<LogPlace>,
    limit: usize,
) -> Result<Vec<Entry>, StoreFault>
    requires idles { WhereClean S.Store conn.old Idles }
    requires filled { WhereClean S.Store conn.old (Sees IsFilled) }
    ensures { LeavesUnchanged (state S.Store conn.old) (state S.Store conn.new) result
        (λ v. v.items ≡ take limit (log_of
        (content_within S.Store conn.old reading.now.within.now) reading.now.node.now between.from
        between.to after.now reading.now.direction)) }
{
    match spelled_node(reading.alloc, reading.node)? {
        Some(bytes) => {
            let spelled = SpelledReading {
                alloc: reading.alloc,
                node: reading.node,
                bytes: &bytes,
                direction: reading.direction,
                within: reading.within,
            };
            let ends = ends_behind(between, after, reading.direction);
            let span = span_of(ends, reading.direction);
            entries(conn, &spelled, span, after, limit)
        }
        None => Ok(Vec::new(reading.alloc)),
    }
}

/// The live value of a node, by its spelling, that is nearest to a source time, strictly beyond it.
fn outside_of<S: Alter>(
    conn: &mut Connection<S>,
    reading: &SpelledReading<'_>,
    time: Moment,
    latest: &Vector,
) -> Result<Option<Held>, StoreFault>
    requires idles { WhereClean S.Store conn.old Idles }
    requires filled { WhereClean S.Store conn.old (Sees IsFilled) }
    requires kept { WhereClean S.Store conn.old (Sees AreKept) }
    requires latest { HasCleanDisk (state S.Store conn.old)
        → AreLastNumbers latest.now (content_of S.Store conn.old) }
    requires spelled { reading.now.bytes.now ≡ node_id.canon reading.now.node.now }
    requires lawful { IsNodeId reading.now.node.now }
    ensures { LeavesUnchanged (state S.Store conn.old) (state S.Store conn.new) result
        (λ h. h ≡ outside_of (content_within S.Store conn.old reading.now.within.now)
        reading.now.node.now time reading.now.direction) }
{
    let span = Span {
        start: place_of(time),
        far: end_of_time(reading.direction),
    };
    let found = live_values(conn, reading, span, 1, latest)?;
    Ok(first_of(found))
}

/// The live value of a node that is nearest to a source time, strictly beyond it.
pub fn outside_in<S: Alter>(
    conn: &mut Connection<S>,
    reading: &NodeReading<'_>,
    time: Moment,
    latest: &Vector,
) -> Result<Option<Held>, StoreFault>
    requires idles { WhereClean S.Store conn.old Idles }
    requires filled { WhereClean S.Store conn.old (Sees IsFilled) }
    requires kept { WhereClean S.Store conn.old (Sees AreKept) }
    requires latest { HasCleanDisk (state S.Store conn.old)
        → AreLastNumbers latest.now (content_of S.Store conn.old) }
    ensures { LeavesUnchanged (state S.Store conn.old) (state S.Store conn.new) result
        (λ h. h ≡ outside_of (content_within S.Store conn.old reading.now.within.now)
        reading.now.node.now time reading.now.direction) }
{
    match spelled_node(reading.alloc, reading.node)? {
        Some(bytes) => {
            let spelled = SpelledReading {
                alloc: reading.alloc,
                node: reading.node,
                bytes: &bytes,
                direction: reading.direction,
                within: reading.within,
            };
            outside_of(conn, &spelled, time, latest)
        }
        None => Ok(None),
    }
}
