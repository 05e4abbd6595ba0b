//! The index over live values: a node's live values then stand side by side, and a read of current values goes by none that is deleted.

ghost use Rattle.std.specs.Prelude.{◌≡◌, false, true, OnOk, OnErr, IsTrue};
ghost use Rattle.sqlite.specs.State.{HasCleanDisk, Survives};
ghost use Rattle.sqlite.specs.Held.{state};
ghost use Rattle.sql_schema.specs.Tables.{archive_schema};
ghost use Rattle.sql_tables.specs.State.{Making, Idles, IsOpenAndIdle};
ghost use Rattle.sql_tables.specs.Indexing.{IsIndexed, Indexes};
ghost use Rattle.sql_tables.specs.Connections.{WhereClean, HasSchema, tables_of, CommitsNothing, KeepsLastCommit, Writes, Commits};

use crate::statements::fault_of;
use archive::StoreFault;
use sql_schema::is_indexed;
use sqlite::{Alter, Connection, Error, Transaction};

/// Makes it, in a transaction.
fn make_index<S: Alter>(tx: &mut Transaction<'_, S>) -> Result<usize, Error>
    requires { WhereClean S.Store tx.old.conn.now (Making (archive_schema false)) }
    ensures made { Writes S.Store tx.old.conn.now tx.new.conn.now (archive_schema true) result
        IsIndexed }
    ensures kept { KeepsLastCommit S.Store tx.old.conn.now tx.new.conn.now }
    ensures same { tx.new.conn.ghost_name ≡ tx.old.conn.ghost_name }
    ensures crash { CommitsNothing S.Store tx.old.conn.now tx.new.conn.now }
{
    tx.execute(
        "CREATE INDEX currents2_live ON currents2 (node, live, time, pico)",
        &[],
    )
}

/// Makes it over the tables of an archive that has none, in one commit. Where that fails and the store is still open, the tables are as
/// they were; a crash leaves the one or the other.
fn add_index<S: Alter>(conn: &mut Connection<S>) -> Result<(), Error>
    requires idle { conn.old.in_transaction ≡ false }
    requires plain { WhereClean S.Store conn.old (HasSchema (archive_schema false)) }
    ensures made { Commits S.Store conn.old conn.new result IsIndexed }
    ensures indexed { HasCleanDisk (state S.Store conn.new)
        → OnOk result (HasSchema (archive_schema true) (state S.Store conn.new)) }
    ensures refused { HasCleanDisk (state S.Store conn.new)
        → IsTrue (state S.Store conn.new).is_open
        → OnErr result (IsOpenAndIdle (state S.Store conn.new)
        × ((state S.Store conn.new).now ≡ (state S.Store conn.old).committed)) }
    ensures crash { Survives (state S.Store conn.old) (state S.Store conn.new)
        (IsIndexed (tables_of S.Store conn.old)) }
{
    let mut tx = conn.transaction();
    make_index(&mut tx)?;
    tx.commit()
}

/// Has the index over live values stand over an archive's tables: where it doesn't, it is made in one commit, which takes time and
/// room in the measure of all current values. No row of a table changes.
///
/// Errors: `OutOfMemory`, `Refused`, behind which the store is as it was, and `Broken` where the store is shut.
pub fn index_live_values<S: Alter>(conn: &mut Connection<S>) -> Result<(), StoreFault>
    requires { WhereClean S.Store conn.old Idles }
    ensures { Indexes (state S.Store conn.old) (state S.Store conn.new) result }
{
    if is_indexed(conn.schema()) {
        return Ok(());
    }
    if !conn.is_autocommit() {
        return Err(StoreFault::Refused);
    }
    match add_index(conn) {
        Ok(()) => Ok(()),
        Err(error) => Err(fault_of(conn, error)),
    }
}
