//! How an archive begins with a store of format 1, whose moments have no picoseconds.

ghost use Rattle.std.specs.Prelude.{◌≡◌, ◌∷◌, ◌<◌, [], IfOk, IfErr, Err};
ghost use Rattle.sqlite.specs.State.{HasCleanDisk};
ghost use Rattle.sqlite.specs.Held.{state};
ghost use Rattle.sqlite_value.specs.declared.value.Value.TheVariants as value;
ghost use Rattle.archive.specs.Store.{IsOfOpening};
ghost use Rattle.sql_schema.specs.Tables.{schema1};
ghost use Rattle.sql_tables.specs.Rows.{meta_cells};
ghost use Rattle.sql_tables.specs.State.{IsOpenAndIdle};
ghost use Rattle.sql_opening.specs.Renewing.{meta1_row, IsRead1};
ghost use Rattle.sql_opening.specs.Opening.{checked_meta, IsRenewedIn};
ghost use Rattle.sql_tables.specs.Connections.{WhereClean, HasSchema, tables_of};
ghost use Rattle.sql_archive.specs.Starting.{IsBegun, MayCommit};

use crate::store::SqlArchive;
use archive::StoreFault;
use sql_opening::{Rows1, open_rows, turn};
use sql_tables::{fault_of, number_of};
use sqlite::{Alter, Connection};
use stamp::ReplicaNo;
use std::alloc::Global;
use uuid::Uuid;

/// Begins with a store of format 1 whose rows were read. A connection that is inside a transaction is refused:
/// none is where the disk is honest.
fn begin<S: Alter>(
    alloc: Global,
    mut conn: Connection<S>,
    id: Uuid,
    number: ReplicaNo,
    rows: &Rows1,
) -> Result<SqlArchive<S>, (StoreFault, Connection<S>)>
    requires first { WhereClean S.Store conn (HasSchema schema1) }
    requires read { HasCleanDisk (state S.Store conn) → IsRead1 (tables_of S.Store conn) rows.now }
    requires meta { HasCleanDisk (state S.Store conn)
        → meta_cells (tables_of S.Store conn) ≡ meta1_row id number ∷ [] }
    ensures own { IfOk result (IsBegun id number) }
    ensures renewed { IfOk result (λ a. HasCleanDisk (state S.Store a.conn)
        → IsRenewedIn id number (state S.Store conn).now (tables_of S.Store a.conn)) }
    ensures wrong { IfErr result (λ e. HasCleanDisk (state S.Store e.1) → IsOfOpening e.0 → ⊥) }
    ensures opened { IfOk result (λ a. MayCommit S.Store conn a.conn (IsRenewedIn id number)) }
    ensures left { IfErr result (λ e. MayCommit S.Store conn e.1 (IsRenewedIn id number)) }
{
    if !conn.is_autocommit() {
        return Err((StoreFault::Refused, conn));
    }
    let replica = number_of(number);
    match turn(alloc, &mut conn, &id, &replica, rows) {
        Ok(()) => SqlArchive::over(alloc, conn, id, number),
        Err(error) => {
            let fault = fault_of(&mut conn, error);
            Err((fault, conn))
        }
    }
}

/// Begins with a store of format 1: its records are judged, its tables made anew, and its current values and last
/// numbers compared with the new ones, before it is committed.
pub(crate) fn take_over_first<S: Alter>(
    alloc: Global,
    mut conn: Connection<S>,
    id: Uuid,
    number: ReplicaNo,
) -> Result<SqlArchive<S>, (StoreFault, Connection<S>)>
    requires rests { WhereClean S.Store conn IsOpenAndIdle }
    requires first { WhereClean S.Store conn (HasSchema schema1) }
    ensures own { IfOk result (IsBegun id number) }
    ensures renewed { IfOk result (λ a. HasCleanDisk (state S.Store a.conn)
        → IsRenewedIn id number (state S.Store conn).now (tables_of S.Store a.conn)) }
    ensures wrong { IfErr result (λ e. HasCleanDisk (state S.Store e.1) → IsOfOpening e.0
        → checked_meta id number (meta_cells (tables_of S.Store conn)) ≡ Err e.0) }
    ensures opened { IfOk result (λ a. MayCommit S.Store conn a.conn (IsRenewedIn id number)) }
    ensures left { IfErr result (λ e. MayCommit S.Store conn e.1 (IsRenewedIn id number)) }
{
    match open_rows(alloc, &mut conn, &id, number) {
        Ok(rows) => begin(alloc, conn, id, number, &rows),
        Err(fault) => Err((fault, conn)),
    }
}
