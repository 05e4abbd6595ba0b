//! How an archive begins with its tables where empty tables of format 1 stand behind them.

ghost use Rattle.std.specs.Prelude.{◌≡◌, IfOk, IfErr, Ok, Err};
ghost use Rattle.sqlite.specs.State.{HasCleanDisk};
ghost use Rattle.sqlite.specs.Held.{state};
ghost use Rattle.archive.specs.Store.{IsOfOpening};
ghost use Rattle.sql_schema.specs.Tables.{beside_schema};
ghost use Rattle.sql_tables.specs.Derived.{AreKept};
ghost use Rattle.sql_tables.specs.Rows.{IsStored, meta_cells};
ghost use Rattle.sql_tables.specs.State.{IsOpenAndIdle};
ghost use Rattle.sql_opening.specs.Clearing.{AreBare};
ghost use Rattle.sql_opening.specs.Opening.{checked_meta, IsClearedIn};
ghost use Rattle.sql_tables.specs.Connections.{WhereClean, Sees, HasSchema, tables_of};
ghost use Rattle.sql_archive.specs.Starting.{IsBegun, MayCommit};

use crate::store::SqlArchive;
use archive::StoreFault;
use sql_opening::{clear, open_beside};
use sql_tables::fault_of;
use sqlite::{Alter, Connection};
use stamp::ReplicaNo;
use std::alloc::Global;
use uuid::Uuid;

/// Takes them out and begins with the rest. A connection that is inside a transaction is refused: none is where the
/// disk is honest.
fn begin<S: Alter>(
    alloc: Global,
    mut conn: Connection<S>,
    id: Uuid,
    number: ReplicaNo,
) -> Result<SqlArchive<S>, (StoreFault, Connection<S>)>
    requires beside { WhereClean S.Store conn (HasSchema beside_schema) }
    requires bare { WhereClean S.Store conn (Sees AreBare) }
    requires meta { HasCleanDisk (state S.Store conn)
        → checked_meta id number (meta_cells (tables_of S.Store conn)) ≡ Ok tt }
    ensures own { IfOk result (IsBegun id number) }
    ensures cleared { IfOk result (λ a. HasCleanDisk (state S.Store a.conn)
        → IsClearedIn id number (state S.Store conn).now (tables_of S.Store a.conn)) }
    ensures stored { IfOk result (λ a. HasCleanDisk (state S.Store a.conn)
        → IsStored id number (tables_of S.Store conn)) }
    ensures kept { IfOk result (λ a. HasCleanDisk (state S.Store a.conn)
        → AreKept (tables_of S.Store conn)) }
    ensures wrong { IfErr result (λ e. HasCleanDisk (state S.Store e.1) → IsOfOpening e.0 → ⊥) }
    ensures opened { IfOk result (λ a. MayCommit S.Store conn a.conn (IsClearedIn id number)) }
    ensures left { IfErr result (λ e. MayCommit S.Store conn e.1 (IsClearedIn id number)) }
{
    if !conn.is_autocommit() {
        return Err((StoreFault::Refused, conn));
    }
    match clear(&mut conn) {
        Ok(()) => SqlArchive::over(alloc, conn, id, number),
        Err(error) => {
            let fault = fault_of(&mut conn, error);
            Err((fault, conn))
        }
    }
}

/// Begins with the tables of an archive behind which those of format 1 stand: these may hold no row, and are taken out.
pub(crate) fn take_out_empty<S: Alter>(
    alloc: Global,
    mut conn: Connection<S>,
    id: Uuid,
    number: ReplicaNo,
) -> Result<SqlArchive<S>, (StoreFault, Connection<S>)>
    requires rests { WhereClean S.Store conn IsOpenAndIdle }
    requires beside { WhereClean S.Store conn (HasSchema beside_schema) }
    ensures own { IfOk result (IsBegun id number) }
    ensures cleared { IfOk result (λ a. HasCleanDisk (state S.Store a.conn)
        → IsClearedIn id number (state S.Store conn).now (tables_of S.Store a.conn)) }
    ensures stored { IfOk result (λ a. HasCleanDisk (state S.Store a.conn)
        → IsStored id number (tables_of S.Store conn)) }
    ensures kept { IfOk result (λ a. HasCleanDisk (state S.Store a.conn)
        → AreKept (tables_of S.Store conn)) }
    ensures wrong { IfErr result (λ e. HasCleanDisk (state S.Store e.1) → IsOfOpening e.0
        → checked_meta id number (meta_cells (tables_of S.Store conn)) ≡ Err e.0) }
    ensures opened { IfOk result (λ a. MayCommit S.Store conn a.conn (IsClearedIn id number)) }
    ensures left { IfErr result (λ e. MayCommit S.Store conn e.1 (IsClearedIn id number)) }
{
    match open_beside(&mut conn, &id, number) {
        Ok(()) => begin(alloc, conn, id, number),
        Err(fault) => Err((fault, conn)),
    }
}
