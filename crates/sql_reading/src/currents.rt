//! A node's live values, by the table of current values.

ghost use Rattle.std.specs.Prelude.{◌≡◌, ◌∷◌, ◌⊎◌, [], None, Some, pos, map, take, IfOk, IfErr};
ghost use Rattle.std.specs.List.{flat_map};
ghost use Rattle.sqlite.specs.Held.{state};
ghost use Rattle.sqlite_value.specs.Order.{column, bytes};
ghost use Rattle.sqlite_value.specs.declared.value.Value.TheVariants as value;
ghost use Rattle.sqlite_sql.specs.Query.{as_count};
ghost use Rattle.ua_binary.specs.Binary.{node_id, IsNodeId};
ghost use Rattle.ua_variant.specs.DataValue.{data_value};
ghost use Rattle.records.specs.Moments.{ticks_of, pico_of};
ghost use Rattle.archive.specs.Reading.{times};
ghost use Rattle.sql_tables.specs.Rows.{IsFilled};
ghost use Rattle.sql_tables.specs.Derived.{AreKept, current_columns};
ghost use Rattle.sql_tables.specs.Currents.{is_live_after, is_live_before, current_order, AreNextCurrents, ShowValues, values_in, helds_in};
ghost use Rattle.sql_tables.specs.State.{Idles, LeavesUnchanged};
ghost use Rattle.sql_tables.specs.Words.{IsPage};
ghost use Rattle.sql_reading.specs.Readable.{IsReadable, HasUnreadable};
ghost use Rattle.sql_reading.specs.Walking.{IsStartPlace, stretch, values_at, moment_of};
ghost use Rattle.sql_tables.specs.Connections.{WhereClean, Sees, tables_of, content_of};

use crate::asked::{Span, SpelledReading};
use archive::{Direction, StoreFault};
use records::{Held, Moment, RecordFault};
use sql_tables::{RowTime, bytes_at, int_at, place_of, select, short_at};
use sqlite::{Alter, Connection, Row, params};
use std::alloc::Global;
use ua_binary::Cursor;
use ua_variant::{DataValue, read_data_value};

/// Current values of a node beyond a near place and up to a far one: so many of them, or all where the
/// count is below 0.
#[derive(Clone, Copy, Debug)]
struct Stretch {
    near: RowTime,
    far: RowTime,
    count: i64,
}

/// The first live values of a node, by time, after a place: of each its moment, whether others stand there,
/// and the value.
fn currents_after<S: Alter>(
    conn: &mut Connection<S>,
    node: &[u8],
    along: &Stretch,
) -> Result<Vec<Row>, StoreFault>
    requires { WhereClean S.Store conn.old Idles }
    ensures { LeavesUnchanged (state S.Store conn.old) (state S.Store conn.new) result
        (λ rows. ShowValues (IsPage (is_live_after node.now along.now.near.ticks along.now.near.pico
        along.now.far.ticks along.now.far.pico) current_order (as_count (value.Int along.now.count))
        (map current_columns (tables_of S.Store conn.old 4))) rows.items) }
{
    select(
        conn,
        "SELECT time, pico, extra, value FROM currents2 WHERE node = ?1 AND time >= ?2 AND CASE WHEN time > ?2 THEN 1 ELSE pico > ?3 END AND time <= ?4 AND CASE WHEN time < ?4 THEN 1 ELSE pico <= ?5 END AND live = 1 ORDER BY time, pico LIMIT ?6",
        params![
            node,
            &along.near.ticks,
            &along.near.pico,
            &along.far.ticks,
            &along.far.pico,
            &along.count
        ],
    )
}

/// The same of the last live values before a place: the last one first.
fn currents_before<S: Alter>(
    conn: &mut Connection<S>,
    node: &[u8],
    along: &Stretch,
) -> Result<Vec<Row>, StoreFault>
    requires { WhereClean S.Store conn.old Idles }
    ensures { LeavesUnchanged (state S.Store conn.old) (state S.Store conn.new) result
        (λ rows. ShowValues (IsPage (is_live_before node.now along.now.near.ticks
        along.now.near.pico along.now.far.ticks along.now.far.pico) (λ a b. current_order b a)
        (as_count (value.Int along.now.count))
        (map current_columns (tables_of S.Store conn.old 4))) rows.items) }
{
    select(
        conn,
        "SELECT time, pico, extra, value FROM currents2 WHERE node = ?1 AND time <= ?2 AND CASE WHEN time < ?2 THEN 1 ELSE pico < ?3 END AND time >= ?4 AND CASE WHEN time > ?4 THEN 1 ELSE pico >= ?5 END AND live = 1 ORDER BY time DESC, pico DESC LIMIT ?6",
        params![
            node,
            &along.near.ticks,
            &along.near.pico,
            &along.far.ticks,
            &along.far.pico,
            &along.count
        ],
    )
}

/// The first live values of a node, in the direction, beyond a place.
fn currents_next<S: Alter>(
    conn: &mut Connection<S>,
    node: &[u8],
    along: &Stretch,
    direction: Direction,
) -> Result<Vec<Row>, StoreFault>
    requires { WhereClean S.Store conn.old Idles }
    ensures { LeavesUnchanged (state S.Store conn.old) (state S.Store conn.new) result
        (λ rows. ShowValues (AreNextCurrents direction node.now along.now.near.ticks
        along.now.near.pico along.now.far.ticks along.now.far.pico
        (as_count (value.Int along.now.count))
        (map current_columns (tables_of S.Store conn.old 4))) rows.items) }
{
    match direction {
        Direction::Forward => currents_after(conn, node, along),
        Direction::Backward => currents_before(conn, node, along),
    }
}

/// The value of a row.
#[tactic(auto, using(crate::proofs::ReadableLemmas::no_bytes, crate::proofs::ReadableLemmas::no_value_by))]
fn value_at(alloc: Global, row: &Row) -> Result<DataValue, RecordFault>
    ensures found { IfOk result
        (λ v. values_in (data_value.read (bytes (column row.now 3))) ≡ v ∷ []) }
    ensures unread { IfErr result (λ fault. (fault ≡ RecordFault.OutOfMemory)
        ⊎ (IsReadable row.now → ⊥)) }
{
    let mut cursor = Cursor::new(bytes_at(row, 3)?);
    Ok(read_data_value(alloc, &mut cursor)?)
}

/// The live value that a row of current values stands for.
#[tactic(auto, using(crate::proofs::ReadableLemmas::no_time, crate::proofs::ReadableLemmas::no_pico, crate::proofs::ReadableLemmas::no_moment, crate::proofs::ReadableLemmas::no_extra))]
fn held_in(alloc: Global, row: &Row) -> Result<Held, RecordFault>
    ensures found { IfOk result (λ h. helds_in row.now ≡ h ∷ []) }
    ensures unread { IfErr result (λ fault. (fault ≡ RecordFault.OutOfMemory)
        ⊎ (IsReadable row.now → ⊥)) }
{
    let ticks = int_at(row, 0)?;
    let pico = short_at(row, 1)?;
    let extra = int_at(row, 2)? != 0;
    let Some(time) = Moment::new(ticks, pico) else {
        return Err(RecordFault::BadField);
    };
    let value = value_at(alloc, row)?;
    Ok(Held { time, value, extra })
}

/// The live values that rows of current values stand for.
fn helds_in(alloc: Global, rows: &[Row]) -> Result<Vec<Held>, RecordFault>
    ensures found { IfOk result (λ all. all.items ≡ flat_map helds_in rows.now) }
    ensures unread { IfErr result (λ fault. (fault ≡ RecordFault.OutOfMemory)
        ⊎ HasUnreadable rows.now) }
{
    let mut all = match Vec::with_capacity(alloc, rows.len()) {
        Ok(all) => all,
        Err(_) => return Err(RecordFault::OutOfMemory),
    };
    for row in rows {
        let one = held_in(alloc, row)?;
        match all.push(one) {
            Ok(()) => {}
            Err(_) => return Err(RecordFault::OutOfMemory),
        }
    }
    Ok(all)
}

/// So many as SQL counts them, or all where SQL has no such count.
pub(crate) fn count_of(wanted: usize) -> i64
    ensures { (as_count (value.Int result) ≡ None) ⊎ (as_count (value.Int result) ≡ Some wanted) }
{
    match i64::try_from(wanted) {
        Ok(count) => count,
        Err(_) => -1,
    }
}

/// So many beyond a place, up to a far moment.
fn stretch_of(span: Span, limit: usize) -> Stretch
    ensures near { (result.near.ticks ≡ span.start.ticks) × (result.near.pico ≡ span.start.pico) }
    ensures far { (result.far.ticks ≡ ticks_of span.far)
        × (result.far.pico ≡ pos (pico_of span.far)) }
    ensures count { (as_count (value.Int result.count) ≡ None)
        ⊎ (as_count (value.Int result.count) ≡ Some limit) }
{
    Stretch {
        near: span.start,
        far: place_of(span.far),
        count: count_of(limit),
    }
}

/// The first `limit` of a node's live values beyond a place, up to a far time: one query.
pub(crate) fn current_values<S: Alter>(
    conn: &mut Connection<S>,
    reading: &SpelledReading<'_>,
    span: Span,
    limit: usize,
) -> Result<Vec<Held>, StoreFault>
    requires idles { WhereClean S.Store conn.old Idles }
    requires filled { WhereClean S.Store conn.old (Sees IsFilled) }
    requires kept { WhereClean S.Store conn.old (Sees AreKept) }
    requires spelled { reading.now.bytes.now ≡ node_id.canon reading.now.node.now }
    requires lawful { IsNodeId reading.now.node.now }
    requires place { IsStartPlace reading.now.direction span.start.pico }
    ensures { LeavesUnchanged (state S.Store conn.old) (state S.Store conn.new) result
        (λ v. v.items ≡ take limit
        (flat_map (values_at (content_of S.Store conn.old) reading.now.node.now)
        (stretch reading.now.direction (moment_of span.start) span.far
        (times (content_of S.Store conn.old) reading.now.node.now)))) }
{
    let along = stretch_of(span, limit);
    let rows = currents_next(conn, reading.bytes, &along, reading.direction)?;
    let mut found = helds_in(reading.alloc, &rows)?;
    found.truncate(limit);
    Ok(found)
}
