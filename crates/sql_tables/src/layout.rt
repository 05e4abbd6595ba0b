//! The tables of an archive.

ghost use Rattle.std.specs.Prelude.{◌≡◌, ◌≤◌, pos, false, [], OnOk, OnErr, IsTrue};
ghost use Rattle.sqlite.specs.State.{HasCleanDisk, Survives};
ghost use Rattle.sqlite.specs.Held.{state};
ghost use Rattle.sql_schema.specs.Tables.{no_schema, with_meta, with_records, with_currents, archive_schema};
ghost use Rattle.sql_tables.specs.State.{Making, Makes, MakesFirst, MakesBeside, KeepsFirst, AreEmpty, IsNewArchive};
ghost use Rattle.sql_tables.specs.Connections.{WhereClean, Sees, HasSchema, tables_of, CommitsNothing, KeepsLastCommit, Commits};

use sqlite::{Alter, Connection, Error, Transaction, params};
use stamp::ReplicaNo;

/// A replica's number, 1 to 64, as `meta` has it.
pub fn number_of(number: ReplicaNo) -> i64
    ensures same { result ≡ pos number }
    ensures small { number ≤ 64 }
{
    i64::from(number.get())
}

fn make_meta<S: Alter>(tx: &mut Transaction<'_, S>) -> Result<usize, Error>
    requires { WhereClean S.Store tx.old.conn.now (Making no_schema) }
    ensures made { HasCleanDisk (state S.Store tx.new.conn.now)
        → OnOk result
        (Makes (state S.Store tx.old.conn.now) (state S.Store tx.new.conn.now) with_meta 0) }
    ensures kept { KeepsLastCommit S.Store tx.old.conn.now tx.new.conn.now }
    ensures same { tx.new.conn.ghost_name ≡ tx.old.conn.ghost_name }
    ensures crash { CommitsNothing S.Store tx.old.conn.now tx.new.conn.now }
{
    tx.execute(
        "CREATE TABLE meta (one INTEGER PRIMARY KEY CHECK (one = 1), format INTEGER NOT NULL, archive BLOB NOT NULL, replica INTEGER NOT NULL) STRICT",
        &[],
    )
}

fn make_records<S: Alter>(tx: &mut Transaction<'_, S>) -> Result<usize, Error>
    requires { WhereClean S.Store tx.old.conn.now (Making with_meta) }
    ensures made { HasCleanDisk (state S.Store tx.new.conn.now) → OnOk result
        (Makes (state S.Store tx.old.conn.now) (state S.Store tx.new.conn.now) with_records 1
        × (tables_of S.Store tx.new.conn.now 0 ≡ tables_of S.Store tx.old.conn.now 0)) }
    ensures kept { KeepsLastCommit S.Store tx.old.conn.now tx.new.conn.now }
    ensures same { tx.new.conn.ghost_name ≡ tx.old.conn.ghost_name }
    ensures crash { CommitsNothing S.Store tx.old.conn.now tx.new.conn.now }
{
    tx.execute(
        "CREATE TABLE records2 (origin INTEGER NOT NULL, number INTEGER NOT NULL, tick INTEGER NOT NULL, node BLOB NOT NULL, time INTEGER NOT NULL, pico INTEGER NOT NULL, asked INTEGER NOT NULL, who BLOB NOT NULL, value BLOB NOT NULL, PRIMARY KEY (origin, number), UNIQUE (node, time, pico, tick, origin)) STRICT",
        &[],
    )
}

fn make_currents<S: Alter>(tx: &mut Transaction<'_, S>) -> Result<usize, Error>
    requires { WhereClean S.Store tx.old.conn.now (Making with_records) }
    ensures made { HasCleanDisk (state S.Store tx.new.conn.now) → OnOk result
        (Makes (state S.Store tx.old.conn.now) (state S.Store tx.new.conn.now) with_currents 4
        × KeepsFirst (tables_of S.Store tx.old.conn.now) (tables_of S.Store tx.new.conn.now)) }
    ensures kept { KeepsLastCommit S.Store tx.old.conn.now tx.new.conn.now }
    ensures same { tx.new.conn.ghost_name ≡ tx.old.conn.ghost_name }
    ensures crash { CommitsNothing S.Store tx.old.conn.now tx.new.conn.now }
{
    tx.execute(
        "CREATE TABLE currents2 (node BLOB NOT NULL, time INTEGER NOT NULL, pico INTEGER NOT NULL, tick INTEGER NOT NULL, origin INTEGER NOT NULL, live INTEGER NOT NULL, extra INTEGER NOT NULL, value BLOB NOT NULL, PRIMARY KEY (node, time, pico)) STRICT",
        &[],
    )
}

fn make_vectors<S: Alter>(tx: &mut Transaction<'_, S>) -> Result<usize, Error>
    requires { WhereClean S.Store tx.old.conn.now (Making with_currents) }
    ensures made { HasCleanDisk (state S.Store tx.new.conn.now) → OnOk result
        (Makes (state S.Store tx.old.conn.now) (state S.Store tx.new.conn.now)
        (archive_schema false) 6
        × KeepsFirst (tables_of S.Store tx.old.conn.now) (tables_of S.Store tx.new.conn.now)
        × (tables_of S.Store tx.new.conn.now 4 ≡ tables_of S.Store tx.old.conn.now 4)) }
    ensures kept { KeepsLastCommit S.Store tx.old.conn.now tx.new.conn.now }
    ensures same { tx.new.conn.ghost_name ≡ tx.old.conn.ghost_name }
    ensures crash { CommitsNothing S.Store tx.old.conn.now tx.new.conn.now }
{
    tx.execute(
        "CREATE TABLE vectors (origin INTEGER PRIMARY KEY, number INTEGER NOT NULL, tick INTEGER NOT NULL) STRICT",
        &[],
    )
}

/// Makes the tables of current values and of vectors, without rows, beside those of `meta` and of records, in a transaction.
fn make_beside<S: Alter>(tx: &mut Transaction<'_, S>) -> Result<(), Error>
    requires { WhereClean S.Store tx.old.conn.now (Making with_records) }
    ensures made { HasCleanDisk (state S.Store tx.new.conn.now)
        → OnOk result
        (MakesBeside (state S.Store tx.old.conn.now) (state S.Store tx.new.conn.now)) }
    ensures kept { KeepsLastCommit S.Store tx.old.conn.now tx.new.conn.now }
    ensures same { tx.new.conn.ghost_name ≡ tx.old.conn.ghost_name }
    ensures crash { CommitsNothing S.Store tx.old.conn.now tx.new.conn.now }
{
    make_currents(tx)?;
    make_vectors(tx)?;
    Ok(())
}

/// Makes the tables of meta and of records, in a transaction.
fn make_first<S: Alter>(tx: &mut Transaction<'_, S>) -> Result<(), Error>
    requires { WhereClean S.Store tx.old.conn.now (Making no_schema) }
    ensures made { HasCleanDisk (state S.Store tx.new.conn.now)
        → OnOk result (MakesFirst (state S.Store tx.old.conn.now) (state S.Store tx.new.conn.now)) }
    ensures kept { KeepsLastCommit S.Store tx.old.conn.now tx.new.conn.now }
    ensures same { tx.new.conn.ghost_name ≡ tx.old.conn.ghost_name }
    ensures crash { CommitsNothing S.Store tx.old.conn.now tx.new.conn.now }
{
    make_meta(tx)?;
    make_records(tx)?;
    Ok(())
}

fn fill_meta<S: Alter>(
    tx: &mut Transaction<'_, S>,
    archive: &[u8],
    replica: &i64,
) -> Result<usize, Error>
    requires making { WhereClean S.Store tx.old.conn.now (Making (archive_schema false)) }
    requires empty { WhereClean S.Store tx.old.conn.now (Sees AreEmpty) }
    ensures made { HasCleanDisk (state S.Store tx.new.conn.now)
        → OnOk result (Making (archive_schema false) (state S.Store tx.new.conn.now)
        × IsNewArchive archive.now replica.now (tables_of S.Store tx.new.conn.now)
        × ((state S.Store tx.new.conn.now).committed ≡ (state S.Store tx.old.conn.now).committed)) }
    ensures kept { KeepsLastCommit S.Store tx.old.conn.now tx.new.conn.now }
    ensures same { tx.new.conn.ghost_name ≡ tx.old.conn.ghost_name }
    ensures crash { CommitsNothing S.Store tx.old.conn.now tx.new.conn.now }
{
    tx.execute(
        "INSERT INTO meta VALUES (1, 2, ?1, ?2)",
        params![archive, replica],
    )
}

/// Makes all tables, and the one row of `meta`, in a database without tables, in a transaction. `archive` is the 16 bytes of the
/// archive's id, `replica` its number.
pub fn make_tables<S: Alter>(
    tx: &mut Transaction<'_, S>,
    archive: &[u8],
    replica: &i64,
) -> Result<(), Error>
    requires { WhereClean S.Store tx.old.conn.now (Making no_schema) }
    ensures made { HasCleanDisk (state S.Store tx.new.conn.now)
        → OnOk result (Making (archive_schema false) (state S.Store tx.new.conn.now)
        × IsNewArchive archive.now replica.now (tables_of S.Store tx.new.conn.now)
        × ((state S.Store tx.new.conn.now).committed ≡ (state S.Store tx.old.conn.now).committed)) }
    ensures kept { KeepsLastCommit S.Store tx.old.conn.now tx.new.conn.now }
    ensures same { tx.new.conn.ghost_name ≡ tx.old.conn.ghost_name }
    ensures crash { CommitsNothing S.Store tx.old.conn.now tx.new.conn.now }
{
    make_first(tx)?;
    make_beside(tx)?;
    fill_meta(tx, archive, replica)?;
    Ok(())
}

/// Makes an archive that holds nothing in a database without tables, in one commit; where that fails and the store is still open,
/// the database is as it was, and a crash leaves the one or the other.
pub fn first_open<S: Alter>(
    conn: &mut Connection<S>,
    archive: &[u8],
    replica: &i64,
) -> Result<(), Error>
    requires idle { conn.old.in_transaction ≡ false }
    requires empty { WhereClean S.Store conn.old (HasSchema no_schema) }
    ensures made { Commits S.Store conn.old conn.new result
        (λ _. IsNewArchive archive.now replica.now) }
    ensures refused { HasCleanDisk (state S.Store conn.new)
        → IsTrue (state S.Store conn.new).is_open
        → OnErr result ((state S.Store conn.new).now ≡ (state S.Store conn.old).committed) }
    ensures crash { Survives (state S.Store conn.old) (state S.Store conn.new)
        (IsNewArchive archive.now replica.now) }
{
    let mut tx = conn.transaction();
    make_tables(&mut tx, archive, replica)?;
    tx.commit()
}
