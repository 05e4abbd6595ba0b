//! How an archive begins over a connection.

ghost use Rattle.std.specs.Prelude.{◌≡◌, ◌≢◌, ◌⊎◌, pos, false, IfOk, IfErr, Err};
ghost use Rattle.sqlite.specs.State.{HasCleanDisk, Opens};
ghost use Rattle.sqlite.specs.Held.{state};
ghost use Rattle.archive.specs.Store.{IsOfOpening};
ghost use Rattle.sql_schema.specs.Tables.{no_schema, IsArchiveSchema};
ghost use Rattle.sql_tables.specs.State.{MayBeStopped, IsNewArchive};
ghost use Rattle.sql_opening.specs.Opening.{Starts, IsBegunIn, IsRefused, IsNoStore};
ghost use Rattle.sql_tables.specs.Connections.{WhereClean, HasSchema, tables_of};
ghost use Rattle.sql_archive.specs.Starting.{IsBegun, MayCommit};

use crate::clearing::take_out_empty;
use crate::renewing::take_over_first;
use crate::store::SqlArchive;
use archive::StoreFault;
use sql_opening::refusal_by_meta;
use sql_schema::{Standing, layout_of};
use sql_tables::{fault_of, first_open, number_of};
use sqlite::{Alter, Connection};
use stamp::ReplicaNo;
use std::alloc::Global;
use uuid::Uuid;

/// A fault as an opening tells it: an archive that wasn't opened can't be broken, so this is `Refused`.
pub(crate) fn as_told(fault: StoreFault) -> StoreFault
    ensures told { result ≢ StoreFault.Broken }
    ensures same { fault ≢ StoreFault.Broken → result ≡ fault }
    ensures met { IsOfOpening result → result ≡ fault }
{
    match fault {
        StoreFault::Broken => StoreFault::Refused,
        other => other,
    }
}

/// Makes the tables in a store that has none, in one commit, and begins with them.
pub(crate) fn make<S: Alter>(
    alloc: Global,
    mut conn: Connection<S>,
    id: Uuid,
    number: ReplicaNo,
) -> Result<SqlArchive<S>, (StoreFault, Connection<S>)>
    requires idle { conn.in_transaction ≡ false }
    requires empty { WhereClean S.Store conn (HasSchema no_schema) }
    ensures own { IfOk result (IsBegun id number) }
    ensures made { IfOk result (λ a. HasCleanDisk (state S.Store a.conn)
        → IsNewArchive id (pos number) (tables_of S.Store a.conn)) }
    ensures wrong { IfErr result (λ e. HasCleanDisk (state S.Store e.1) → IsOfOpening e.0 → ⊥) }
    ensures opened { IfOk result
        (λ a. MayCommit S.Store conn a.conn (λ _. IsNewArchive id (pos number))) }
    ensures left { IfErr result
        (λ e. MayCommit S.Store conn e.1 (λ _. IsNewArchive id (pos number))) }
{
    let own = number_of(number);
    match first_open(&mut conn, id.as_bytes(), &own) {
        Ok(()) => SqlArchive::over(alloc, conn, id, number),
        Err(error) => {
            let fault = fault_of(&mut conn, error);
            Err((fault, conn))
        }
    }
}

/// Begins over a connection: in a store without tables they are made; else those that are there have to be
/// the tables of a lawful content of this archive and replica, and nothing else, save for empty tables of format 1 behind them, which
/// are taken out. Where these are those of format 1, they are made anew. Where others stand behind a table `meta`, that one tells first whose store it is.
pub(crate) fn start<S: Alter>(
    alloc: Global,
    mut conn: Connection<S>,
    id: Uuid,
    number: ReplicaNo,
) -> Result<SqlArchive<S>, (StoreFault, Connection<S>)>
    requires idle { conn.in_transaction ≡ false }
    requires open { WhereClean S.Store conn Opens }
    ensures own { IfOk result (IsBegun id number) }
    ensures started { IfOk result (λ a. HasCleanDisk (state S.Store a.conn)
        → Starts id number (state S.Store conn).now (state S.Store a.conn).now) }
    ensures wrong { IfErr result (λ e. HasCleanDisk (state S.Store e.1) → IsOfOpening e.0
        → IsRefused id number (state S.Store conn).now e.0) }
    ensures refused { IfErr result (λ e. HasCleanDisk (state S.Store e.1)
        → e.0 ≡ StoreFault.Refused → IsArchiveSchema (state S.Store conn).now.schema
        → MayBeStopped (state S.Store conn) (state S.Store e.1)
        ⊎ IsNoStore id number (tables_of S.Store conn)) }
    ensures opened { IfOk result (λ a. MayCommit S.Store conn a.conn (IsBegunIn id number)) }
    ensures left { IfErr result (λ e. MayCommit S.Store conn e.1 (IsBegunIn id number)) }
{
    match layout_of(alloc, conn.schema()) {
        Ok(Standing::Empty) => make(alloc, conn, id, number),
        Ok(Standing::Archive) => SqlArchive::over(alloc, conn, id, number),
        Ok(Standing::Beside) => take_out_empty(alloc, conn, id, number),
        Ok(Standing::First) => take_over_first(alloc, conn, id, number),
        Ok(Standing::Begun) => {
            let fault = refusal_by_meta(&mut conn, &id, number);
            Err((fault, conn))
        }
        Ok(Standing::Foreign) => Err((StoreFault::Refused, conn)),
        Err(_) => Err((StoreFault::OutOfMemory, conn)),
    }
}
