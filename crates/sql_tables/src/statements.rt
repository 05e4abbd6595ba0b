//! Statements over a connection, and what their faults tell.

ghost use Rattle.std.specs.Prelude.{◌≡◌, ◌≢◌, ◌⊎◌, IsTrue, IfOk, IfErr, OnOk};
ghost use Rattle.sqlite.specs.State.{HasCleanDisk, IsUnchanged, Shown};
ghost use Rattle.sqlite.specs.Held.{state};
ghost use Rattle.sqlite.specs.Values.{bound};
ghost use Rattle.archive.specs.Store.{IsOfOpening};
ghost use Rattle.sql_tables.specs.Asking.{IsAnswered, ArchivesAnswer};
ghost use Rattle.sql_tables.specs.State.{MayBeStopped, LeavesUnchanged, Found, Holds, Idles, IsOpenAndIdle};
ghost use Rattle.sql_tables.specs.Connections.{WhereClean, CommitsNothing};

use archive::StoreFault;
use sqlite::{Alter, Connection, Error, ErrorCode, Row};
use sqlite_value::value::ValueRef;

/// Whether the store is still open.
fn is_alive<S: Alter>(conn: &mut Connection<S>) -> bool
    ensures alive { HasCleanDisk (state S.Store conn.new) → IsTrue result
        → IsUnchanged (state S.Store conn.old) (state S.Store conn.new) }
    ensures crash { CommitsNothing S.Store conn.old conn.new }
{
    conn.prepare("SELECT 1").is_ok()
}

/// What a failed call is told as: `Broken` where the connection is found shut.
pub fn fault_of<S: Alter>(conn: &mut Connection<S>, error: Error) -> StoreFault
    ensures alive { HasCleanDisk (state S.Store conn.new) → result ≢ StoreFault.Broken
        → IsUnchanged (state S.Store conn.old) (state S.Store conn.new) }
    ensures met { IsOfOpening result → ⊥ }
    ensures refused { result ≡ StoreFault.Refused
        → error ≡ Error.SqliteFailure ErrorCode.OutOfMemory → ⊥ }
    ensures crash { CommitsNothing S.Store conn.old conn.new }
{
    if !is_alive(conn) {
        return StoreFault::Broken;
    }
    refusal_of(error)
}

/// What an error is told as, as long as the store is open: want of memory, or a refusal.
pub fn refusal_of(error: Error) -> StoreFault
    ensures named { (result ≡ StoreFault.OutOfMemory) ⊎ (result ≡ StoreFault.Refused) }
    ensures met { IsOfOpening result → ⊥ }
    ensures refused { result ≡ StoreFault.Refused
        → error ≡ Error.SqliteFailure ErrorCode.OutOfMemory → ⊥ }
{
    match error {
        Error::SqliteFailure(ErrorCode::OutOfMemory) => StoreFault::OutOfMemory,
        _ => StoreFault::Refused,
    }
}

/// The rows that a query shows. It fails for want of memory, or where SQLite may refuse.
fn rows_of<S: Alter>(
    conn: &mut Connection<S>,
    sql: &str,
    params: &[ValueRef<'_>],
) -> Result<Vec<Row>, Error>
    requires rests { WhereClean S.Store conn.old IsOpenAndIdle }
    requires answered { HasCleanDisk (state S.Store conn.old)
        → IsAnswered (state S.Store conn.old).now.schema sql.now (bound params.now) }
    ensures rows { HasCleanDisk (state S.Store conn.new)
        → IfOk result
        (λ rows.
        Shown sql.now (bound params.now) (state S.Store conn.old)
        (state S.Store conn.new) rows.items) }
    ensures same { HasCleanDisk (state S.Store conn.new)
        → OnOk result (IsUnchanged (state S.Store conn.old) (state S.Store conn.new)) }
    ensures refused { HasCleanDisk (state S.Store conn.new)
        → IfErr result
        (λ _. IsTrue (state S.Store conn.new).is_open
        → Holds (state S.Store conn.old) (state S.Store conn.new)) }
    ensures stopped { HasCleanDisk (state S.Store conn.new)
        → IfErr result
        (λ e. (e ≡ Error.SqliteFailure ErrorCode.OutOfMemory → ⊥)
        → MayBeStopped (state S.Store conn.old) (state S.Store conn.new)) }
    ensures crash { CommitsNothing S.Store conn.old conn.new }
{
    conn.query_all(sql, params)
}

/// The rows that a query shows, whatever the tables. `Broken` tells that the store is shut, `OutOfMemory` and `Refused` that it may
/// still be used; it is as it was. `Refused` comes only where SQLite may refuse any query.
pub fn ask<S: Alter>(
    conn: &mut Connection<S>,
    sql: &str,
    params: &[ValueRef<'_>],
) -> Result<Vec<Row>, StoreFault>
    requires rests { WhereClean S.Store conn.old IsOpenAndIdle }
    requires answered { HasCleanDisk (state S.Store conn.old)
        → IsAnswered (state S.Store conn.old).now.schema sql.now (bound params.now) }
    ensures { Found (state S.Store conn.old) (state S.Store conn.new) result
        (λ rows.
        Shown sql.now (bound params.now) (state S.Store conn.old)
        (state S.Store conn.new) rows.items) }
{
    match rows_of(conn, sql, params) {
        Ok(rows) => Ok(rows),
        Err(error) => Err(fault_of(conn, error)),
    }
}

/// The same over the tables of an archive.
pub fn select<S: Alter>(
    conn: &mut Connection<S>,
    sql: &str,
    params: &[ValueRef<'_>],
) -> Result<Vec<Row>, StoreFault>
    requires idles { WhereClean S.Store conn.old Idles }
    requires answered { ArchivesAnswer sql.now (bound params.now) }
    ensures { LeavesUnchanged (state S.Store conn.old) (state S.Store conn.new) result
        (λ rows.
        Shown sql.now (bound params.now) (state S.Store conn.old)
        (state S.Store conn.new) rows.items) }
{
    ask(conn, sql, params)
}
