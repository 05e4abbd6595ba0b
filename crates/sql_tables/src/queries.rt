//! The queries over the rows of records.

ghost use Rattle.std.specs.Prelude.{◌≡◌, pos, map, filter, IsPermutation};
ghost use Rattle.sqlite.specs.Held.{state};
ghost use Rattle.records.specs.Moments.{ticks_of, pico_of};
ghost use Rattle.sqlite_value.specs.declared.value.Value.TheVariants.{Int};
ghost use Rattle.sqlite_sql.specs.Query.{as_count};
ghost use Rattle.sql_tables.specs.Words.{cells, is_named, is_behind, name_order, is_after, is_before, moment_order, IsPage, AreNextRows};
ghost use Rattle.sql_tables.specs.Derived.{vector_columns};
ghost use Rattle.sql_tables.specs.Keeping.{is_vector_of};
ghost use Rattle.sql_tables.specs.Rows.{meta_cells};
ghost use Rattle.sql_tables.specs.State.{AreAt, LeavesUnchanged, Found, HasMeta, Idles, IsOpenAndIdle};
ghost use Rattle.sql_tables.specs.Connections.{WhereClean, tables_of};

use crate::statements::{ask, select};
use archive::{Direction, StoreFault};
use records::Moment;
use sqlite::{Alter, Connection, Row, params};
use stamp::ReplicaNo;

/// A place in time, as rows have it: ticks, and picoseconds in tens.
#[derive(Clone, Copy, Debug)]
pub struct RowTime {
    pub ticks: i64,
    pub pico: i64,
}

/// The place of a moment.
pub fn place_of(time: Moment) -> RowTime
    ensures { (result.ticks ≡ ticks_of time) × (result.pico ≡ pos (pico_of time)) }
{
    RowTime {
        ticks: time.ticks(),
        pico: i64::from(time.pico()),
    }
}

/// Rows of a node beyond a place in time: so many of them.
#[derive(Clone, Copy, Debug)]
pub struct Next {
    pub place: RowTime,
    pub count: i64,
}

/// The name of a record, as its row has it.
#[derive(Clone, Copy, Debug)]
pub struct Name {
    pub origin: i64,
    pub number: i64,
}

/// Rows of an origin: those behind a number, so many of them, or all where the count is below 0.
#[derive(Clone, Copy, Debug)]
pub struct RowsAfter {
    pub origin: i64,
    pub number: i64,
    pub count: i64,
}

/// The rows of a node, as it is spelled, at a place in time, by tick and origin.
pub fn rows_at<S: Alter>(
    conn: &mut Connection<S>,
    node: &[u8],
    place: &RowTime,
) -> Result<Vec<Row>, StoreFault>
    requires { WhereClean S.Store conn.old Idles }
    ensures { LeavesUnchanged (state S.Store conn.old) (state S.Store conn.new) result
        (λ rows.
        AreAt node.now place.now.ticks place.now.pico (state S.Store conn.old) rows.items) }
{
    select(
        conn,
        "SELECT origin, number, tick, node, time, pico, asked, who, value FROM records2 WHERE node = ?1 AND time = ?2 AND pico = ?3 ORDER BY tick, origin",
        params![node, &place.ticks, &place.pico],
    )
}

/// The first rows of a node, by time and stamp, whose time is after a place.
fn rows_after<S: Alter>(
    conn: &mut Connection<S>,
    node: &[u8],
    next: &Next,
) -> Result<Vec<Row>, StoreFault>
    requires { WhereClean S.Store conn.old Idles }
    ensures { LeavesUnchanged (state S.Store conn.old) (state S.Store conn.new) result
        (λ rows. IsPage (is_after node.now next.now.place.ticks next.now.place.pico) moment_order
        (as_count (Int next.now.count)) (cells (tables_of S.Store conn.old 1)) rows.items) }
{
    select(
        conn,
        "SELECT origin, number, tick, node, time, pico, asked, who, value FROM records2 WHERE node = ?1 AND time >= ?2 AND CASE WHEN time > ?2 THEN 1 ELSE pico > ?3 END ORDER BY time, pico, tick, origin LIMIT ?4",
        params![node, &next.place.ticks, &next.place.pico, &next.count],
    )
}

/// The last rows of a node, by time and stamp, whose time is before a place: the last one first.
fn rows_before<S: Alter>(
    conn: &mut Connection<S>,
    node: &[u8],
    next: &Next,
) -> Result<Vec<Row>, StoreFault>
    requires { WhereClean S.Store conn.old Idles }
    ensures { LeavesUnchanged (state S.Store conn.old) (state S.Store conn.new) result
        (λ rows. IsPage (is_before node.now next.now.place.ticks next.now.place.pico)
        (λ a b. moment_order b a) (as_count (Int next.now.count))
        (cells (tables_of S.Store conn.old 1)) rows.items) }
{
    select(
        conn,
        "SELECT origin, number, tick, node, time, pico, asked, who, value FROM records2 WHERE node = ?1 AND time <= ?2 AND CASE WHEN time < ?2 THEN 1 ELSE pico < ?3 END ORDER BY time DESC, pico DESC, tick DESC, origin DESC LIMIT ?4",
        params![node, &next.place.ticks, &next.place.pico, &next.count],
    )
}

/// The first rows of a node, as it is spelled, in the direction, whose time is beyond a place, as many as are asked for.
pub fn rows_next<S: Alter>(
    conn: &mut Connection<S>,
    node: &[u8],
    next: &Next,
    direction: Direction,
) -> Result<Vec<Row>, StoreFault>
    requires { WhereClean S.Store conn.old Idles }
    ensures { LeavesUnchanged (state S.Store conn.old) (state S.Store conn.new) result
        (λ rows. AreNextRows direction node.now next.now.place.ticks next.now.place.pico
        (as_count (Int next.now.count)) (cells (tables_of S.Store conn.old 1)) rows.items) }
{
    match direction {
        Direction::Forward => rows_after(conn, node, next),
        Direction::Backward => rows_before(conn, node, next),
    }
}

/// The row of a record's name, in a list, which is empty where there is none.
pub fn rows_named<S: Alter>(conn: &mut Connection<S>, name: &Name) -> Result<Vec<Row>, StoreFault>
    requires { WhereClean S.Store conn.old Idles }
    ensures { LeavesUnchanged (state S.Store conn.old) (state S.Store conn.new) result
        (λ rows. IsPermutation (filter (is_named name.now.origin name.now.number)
        (cells (tables_of S.Store conn.old 1))) rows.items) }
{
    select(
        conn,
        "SELECT origin, number, tick, node, time, pico, asked, who, value FROM records2 WHERE origin = ?1 AND number = ?2",
        params![&name.origin, &name.number],
    )
}

/// The row of `vectors` of an origin (the name's number plays no part), in a list, which is empty where there is none.
pub fn rows_last<S: Alter>(conn: &mut Connection<S>, name: &Name) -> Result<Vec<Row>, StoreFault>
    requires { WhereClean S.Store conn.old Idles }
    ensures { LeavesUnchanged (state S.Store conn.old) (state S.Store conn.new) result
        (λ rows. IsPermutation (filter (is_vector_of name.now.origin)
        (map vector_columns (tables_of S.Store conn.old 6))) rows.items) }
{
    select(
        conn,
        "SELECT origin, number, tick FROM vectors WHERE origin = ?1",
        params![&name.origin],
    )
}

/// Rows of an origin behind a number, the first ones by number.
pub fn rows_behind<S: Alter>(
    conn: &mut Connection<S>,
    behind: &RowsAfter,
) -> Result<Vec<Row>, StoreFault>
    requires { WhereClean S.Store conn.old Idles }
    ensures { LeavesUnchanged (state S.Store conn.old) (state S.Store conn.new) result
        (λ rows. IsPage (is_behind behind.now.origin behind.now.number) name_order
        (as_count (Int behind.now.count)) (cells (tables_of S.Store conn.old 1)) rows.items) }
{
    select(
        conn,
        "SELECT origin, number, tick, node, time, pico, asked, who, value FROM records2 WHERE origin = ?1 AND number > ?2 ORDER BY origin, number LIMIT ?3",
        params![&behind.origin, &behind.number, &behind.count],
    )
}

/// The rows of meta, where it is the first table, whatever stands behind it.
pub fn rows_of_meta<S: Alter>(conn: &mut Connection<S>) -> Result<Vec<Row>, StoreFault>
    requires rests { WhereClean S.Store conn.old IsOpenAndIdle }
    requires known { WhereClean S.Store conn.old (λ s. HasMeta s.now.schema) }
    ensures { Found (state S.Store conn.old) (state S.Store conn.new) result
        (λ rows. IsPermutation (meta_cells (tables_of S.Store conn.old)) rows.items) }
{
    ask(conn, "SELECT one, format, archive, replica FROM meta", &[])
}
