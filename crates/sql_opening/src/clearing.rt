//! Tables of format 1 behind those of an archive: where they hold no row they are taken out, in one commit.

ghost use Rattle.std.specs.Prelude.{◌≡◌, [], false};
ghost use Rattle.sqlite.specs.State.{Survives};
ghost use Rattle.sqlite.specs.Held.{state};
ghost use Rattle.sql_schema.specs.Tables.{archive_schema, with_records_beside, beside_schema};
ghost use Rattle.sql_tables.specs.State.{Found, FoundOr, Making, IsOpenAndIdle};
ghost use Rattle.sql_opening.specs.Clearing.{AreBare, KeepsTables, IsCleared};
ghost use Rattle.sql_opening.specs.Opening.{AnyReason, OpensBeside};
ghost use Rattle.sql_tables.specs.Connections.{WhereClean, HasSchema, tables_of, CommitsNothing, Writes, Commits};

use crate::opening::judge;
use archive::StoreFault;
use sql_tables::ask;
use sqlite::{Alter, Connection, Error, Row, Transaction};
use stamp::ReplicaNo;
use uuid::Uuid;

/// The first row of records, if there is one.
fn first_record<S: Alter>(conn: &mut Connection<S>) -> Result<Vec<Row>, StoreFault>
    requires rests { WhereClean S.Store conn.old IsOpenAndIdle }
    requires beside { WhereClean S.Store conn.old (HasSchema beside_schema) }
    ensures { Found (state S.Store conn.old) (state S.Store conn.new) result
        (λ rows. rows.items ≡ [] → tables_of S.Store conn.old 7 ≡ []) }
{
    ask(conn, "SELECT origin FROM records LIMIT 1", &[])
}

/// The first row of currents, if there is one.
fn first_current<S: Alter>(conn: &mut Connection<S>) -> Result<Vec<Row>, StoreFault>
    requires rests { WhereClean S.Store conn.old IsOpenAndIdle }
    requires beside { WhereClean S.Store conn.old (HasSchema beside_schema) }
    ensures { Found (state S.Store conn.old) (state S.Store conn.new) result
        (λ rows. rows.items ≡ [] → tables_of S.Store conn.old 10 ≡ []) }
{
    ask(conn, "SELECT origin FROM currents LIMIT 1", &[])
}

/// Refuses tables of format 1 that hold a row.
#[tactic(auto, using(crate::proofs::OpenLemmas::any_reason))]
fn check_bare<S: Alter>(conn: &mut Connection<S>) -> Result<(), StoreFault>
    requires rests { WhereClean S.Store conn.old IsOpenAndIdle }
    requires beside { WhereClean S.Store conn.old (HasSchema beside_schema) }
    ensures { FoundOr AnyReason (state S.Store conn.old) (state S.Store conn.new) result
        (λ _. AreBare (tables_of S.Store conn.old)) }
{
    let records = first_record(conn)?;
    let currents = first_current(conn)?;
    if !(records.is_empty() && currents.is_empty()) {
        return Err(StoreFault::Refused);
    }
    Ok(())
}

/// Whether tables of format 1 behind those of this archive and replica hold no row. Nothing is changed.
///
/// Errors: `WrongArchive` and `WrongReplica` as `meta` says, the archive first; `Refused` where `meta` has another format, or a row
/// stands in such a table; `OutOfMemory`; `Broken` where the store is shut.
pub fn open_beside<S: Alter>(
    conn: &mut Connection<S>,
    id: &Uuid,
    number: ReplicaNo,
) -> Result<(), StoreFault>
    requires rests { WhereClean S.Store conn.old IsOpenAndIdle }
    requires beside { WhereClean S.Store conn.old (HasSchema beside_schema) }
    ensures { OpensBeside id.now number (state S.Store conn.old) (state S.Store conn.new) result }
{
    let told = judge(conn, id, number, 2)?;
    match told {
        Ok(()) => check_bare(conn),
        Err(fault) => Err(fault),
    }
}

fn drop_currents<S: Alter>(tx: &mut Transaction<'_, S>) -> Result<usize, Error>
    requires { WhereClean S.Store tx.old.conn.now (Making beside_schema) }
    ensures made { Writes S.Store tx.old.conn.now tx.new.conn.now with_records_beside result
        KeepsTables }
    ensures same { tx.new.conn.ghost_name ≡ tx.old.conn.ghost_name }
    ensures crash { CommitsNothing S.Store tx.old.conn.now tx.new.conn.now }
{
    tx.execute("DROP TABLE currents", &[])
}

fn drop_records<S: Alter>(tx: &mut Transaction<'_, S>) -> Result<usize, Error>
    requires { WhereClean S.Store tx.old.conn.now (Making with_records_beside) }
    ensures made { Writes S.Store tx.old.conn.now tx.new.conn.now (archive_schema false) result
        IsCleared }
    ensures same { tx.new.conn.ghost_name ≡ tx.old.conn.ghost_name }
    ensures crash { CommitsNothing S.Store tx.old.conn.now tx.new.conn.now }
{
    tx.execute("DROP TABLE records", &[])
}

/// Takes them out, in a transaction.
fn drop_beside<S: Alter>(tx: &mut Transaction<'_, S>) -> Result<(), Error>
    requires { WhereClean S.Store tx.old.conn.now (Making beside_schema) }
    ensures made { Writes S.Store tx.old.conn.now tx.new.conn.now (archive_schema false) result
        IsCleared }
    ensures same { tx.new.conn.ghost_name ≡ tx.old.conn.ghost_name }
    ensures crash { CommitsNothing S.Store tx.old.conn.now tx.new.conn.now }
{
    drop_currents(tx)?;
    drop_records(tx)?;
    Ok(())
}

/// Takes out the tables of format 1 behind those of an archive, in one commit. A crash leaves them or takes them out.
pub fn clear<S: Alter>(conn: &mut Connection<S>) -> Result<(), Error>
    requires idle { conn.old.in_transaction ≡ false }
    requires beside { WhereClean S.Store conn.old (HasSchema beside_schema) }
    ensures made { Commits S.Store conn.old conn.new result IsCleared }
    ensures crash { Survives (state S.Store conn.old) (state S.Store conn.new)
        (IsCleared (tables_of S.Store conn.old)) }
{
    let mut tx = conn.transaction();
    drop_beside(&mut tx)?;
    tx.commit()
}
