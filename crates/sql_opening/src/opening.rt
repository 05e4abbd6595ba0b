//! An opening of tables that anybody may have written: whose they are, and what their records are.

ghost use Rattle.std.specs.Prelude.{◌≡◌, ◌<◌, length, Err};
ghost use Rattle.std.specs.List.{AllByRecursion};
ghost use Rattle.sqlite.specs.State.{HasCleanDisk};
ghost use Rattle.archive.specs.Store.{IsOfOpening};
ghost use Rattle.sqlite.specs.Held.{state};
ghost use Rattle.sqlite_value.specs.Order.{column};
ghost use Rattle.sql_tables.specs.Rows.{IsFilled, meta_cells};
ghost use Rattle.sql_opening.specs.Latest.{Remembers};
ghost use Rattle.sql_tables.specs.State.{Found, FoundOr, HasMeta, HasTables, Idles, IsOpenAndIdle};
ghost use Rattle.sql_opening.specs.Opening.{has_number, has_bytes, judged_row, judged_as, checked_meta, BeginOutOfTurn, Opens, OpensAll};
ghost use Rattle.sql_tables.specs.Connections.{WhereClean, tables_of, content_of, CommitsNothing};

use crate::checking::check_rows;
use crate::lasts::check_kept;
use crate::latest::Latest;
use archive::StoreFault;
use sql_tables::{fault_of, rows_of_meta};
use sqlite::{Alter, Connection, Row};
use sqlite_value::value::ValueRef;
use stamp::ReplicaNo;
use std::alloc::Global;
use uuid::Uuid;

/// The last numbers and the greatest tick of the records, where they are the rows of a lawful content;
/// else it is refused. It goes over them one at a time.
fn walk<S: Alter>(alloc: Global, conn: &mut Connection<S>) -> Result<Latest, StoreFault>
    requires rests { WhereClean S.Store conn.old IsOpenAndIdle }
    requires known { WhereClean S.Store conn.old HasTables }
    ensures { FoundOr (BeginOutOfTurn (tables_of S.Store conn.old))
        (state S.Store conn.old) (state S.Store conn.new) result
        (λ l. IsFilled (tables_of S.Store conn.old)
        × Remembers (content_of S.Store conn.old) l.numbers l.tick) }
{
    match check_rows(alloc, conn) {
        Ok(Ok(walk)) => Ok(walk.latest),
        Ok(Err(fault)) => Err(fault),
        Err(error) => Err(fault_of(conn, error)),
    }
}

/// Whether a column is this number.
fn has_number(row: &Row, at: usize, n: u64) -> bool
    requires { at < length row.now }
    ensures { result ≡ has_number (column row.now at) n }
{
    match row.get_ref(at) {
        Ok(ValueRef::Int(found)) => match u64::try_from(found) {
            Ok(m) => m == n,
            Err(_) => false,
        },
        Ok(_) => false,
        Err(_) => false,
    }
}

/// Whether a column is these bytes.
fn has_bytes(row: &Row, at: usize, bytes: &[u8]) -> bool
    requires { at < length row.now }
    ensures { result ≡ has_bytes (column row.now at) bytes.now }
{
    match row.get_ref(at) {
        Ok(ValueRef::Blob(found)) => found == bytes,
        Ok(_) => false,
        Err(_) => false,
    }
}

/// Whose store it is, by a row of meta.
fn judge_row(row: &Row, id: &Uuid, number: ReplicaNo, format: u64) -> Result<(), StoreFault>
    ensures { length row.now ≡ 4 → result ≡ judged_row format id.now number row.now }
{
    if row.column_count() != 4 {
        return Err(StoreFault::Refused);
    }
    if !has_bytes(row, 2, id.as_bytes()) {
        return Err(StoreFault::WrongArchive);
    }
    if !has_number(row, 3, u64::from(number.get())) {
        return Err(StoreFault::WrongReplica);
    }
    if !(has_number(row, 0, 1) && has_number(row, 1, format)) {
        return Err(StoreFault::Refused);
    }
    Ok(())
}

/// Whose store it is, by the rows of meta.
fn judge_meta(rows: &[Row], id: &Uuid, number: ReplicaNo, format: u64) -> Result<(), StoreFault>
    ensures { AllByRecursion (λ r. length r ≡ 4) rows.now
        → result ≡ judged_as format id.now number rows.now }
{
    match rows {
        [row] => judge_row(row, id, number, format),
        _ => Err(StoreFault::Refused),
    }
}

/// Whose store of a format it is.
pub(crate) fn judge<S: Alter>(
    conn: &mut Connection<S>,
    id: &Uuid,
    number: ReplicaNo,
    format: u64,
) -> Result<Result<(), StoreFault>, StoreFault>
    requires rests { WhereClean S.Store conn.old IsOpenAndIdle }
    requires known { WhereClean S.Store conn.old (λ s. HasMeta s.now.schema) }
    ensures { Found (state S.Store conn.old) (state S.Store conn.new) result
        (λ told. told ≡ judged_as format id.now number (meta_cells (tables_of S.Store conn.old))) }
{
    let rows = rows_of_meta(conn)?;
    Ok(judge_meta(&rows, id, number, format))
}

/// Opens `meta` and `records2` as they stand there, and tells the last numbers and the greatest tick of the records. Nothing is
/// changed.
///
/// Errors: `WrongArchive` and `WrongReplica` as `meta` says, the archive first; `Refused` where `meta` has another format, or the rows
/// aren't those of a lawful content, or can't be read; `OutOfMemory`; `Broken` where the store is shut.
fn open_tables<S: Alter>(
    alloc: Global,
    conn: &mut Connection<S>,
    id: &Uuid,
    number: ReplicaNo,
) -> Result<Latest, StoreFault>
    requires rests { WhereClean S.Store conn.old IsOpenAndIdle }
    requires known { WhereClean S.Store conn.old HasTables }
    ensures { Opens id.now number (state S.Store conn.old) (state S.Store conn.new)
        (λ l. Remembers (content_of S.Store conn.old) l.numbers l.tick) result }
{
    let told = judge(conn, id, number, 2)?;
    match told {
        Ok(()) => walk(alloc, conn),
        Err(fault) => Err(fault),
    }
}

/// The same of all tables of an archive: `Refused` also where the current values or the last numbers aren't those of the records.
pub fn open_all<S: Alter>(
    alloc: Global,
    conn: &mut Connection<S>,
    id: &Uuid,
    number: ReplicaNo,
) -> Result<Latest, StoreFault>
    requires { WhereClean S.Store conn.old Idles }
    ensures { OpensAll id.now number (state S.Store conn.old) (state S.Store conn.new)
        (λ l. Remembers (content_of S.Store conn.old) l.numbers l.tick) result }
{
    let latest = open_tables(alloc, conn, id, number)?;
    check_kept(conn, &latest.numbers)?;
    Ok(latest)
}

/// Why a store isn't opened whose tables are others than an archive's, behind a table `meta`: `WrongArchive` and `WrongReplica` as
/// that one says, the archive first, and else `Refused`.
pub fn refusal_by_meta<S: Alter>(
    conn: &mut Connection<S>,
    id: &Uuid,
    number: ReplicaNo,
) -> StoreFault
    requires rests { WhereClean S.Store conn.old IsOpenAndIdle }
    requires known { WhereClean S.Store conn.old (λ s. HasMeta s.now.schema) }
    ensures wrong { HasCleanDisk (state S.Store conn.new) → IsOfOpening result
        → checked_meta id.now number (meta_cells (tables_of S.Store conn.old)) ≡ Err result }
    ensures crash { CommitsNothing S.Store conn.old conn.new }
{
    match judge(conn, id, number, 2) {
        Ok(Ok(())) => StoreFault::Refused,
        Ok(Err(fault)) => fault,
        Err(fault) => fault,
    }
}
