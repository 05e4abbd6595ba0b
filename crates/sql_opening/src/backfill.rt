//! Current values and last numbers, from the records.

ghost use Rattle.std.specs.Prelude.{◌≡◌, false, true};
ghost use Rattle.sql_schema.specs.Tables.{archive_schema};
ghost use Rattle.sql_tables.specs.Derived.{vectors_of};
ghost use Rattle.sql_tables.specs.State.{Making};
ghost use Rattle.sql_tables.specs.Keeping.{PutsCurrents, PutsVectors, Fills};
ghost use Rattle.sql_tables.specs.Connections.{WhereClean, CommitsNothing, KeepsLastCommit, Writes, WritesListed};

use sqlite::{Alter, Error, Transaction};

/// Puts in the current values of all records.
fn fill_currents<S: Alter>(tx: &mut Transaction<'_, S>) -> Result<usize, Error>
    requires { WhereClean S.Store tx.old.conn.now (Making (archive_schema false)) }
    ensures made { Writes S.Store tx.old.conn.now tx.new.conn.now (archive_schema false) result
        (PutsCurrents (λ _. true)) }
    ensures kept { KeepsLastCommit S.Store tx.old.conn.now tx.new.conn.now }
    ensures same { tx.new.conn.ghost_name ≡ tx.old.conn.ghost_name }
    ensures crash { CommitsNothing S.Store tx.old.conn.now tx.new.conn.now }
{
    tx.execute(
        "INSERT INTO currents2 SELECT r.node, r.time, r.pico, r.tick, r.origin, r.asked <> 4, EXISTS (SELECT 1 FROM records2 AS s WHERE s.node = r.node AND s.time = r.time AND s.pico = r.pico AND (s.tick <> r.tick OR s.origin <> r.origin)), r.value FROM records2 AS r WHERE NOT EXISTS (SELECT 1 FROM records2 AS s WHERE s.node = r.node AND s.time = r.time AND s.pico = r.pico AND s.tick >= r.tick AND (s.tick > r.tick OR s.origin > r.origin))",
        &[],
    )
}

/// Puts in the last numbers of all records.
fn fill_vectors<S: Alter>(tx: &mut Transaction<'_, S>) -> Result<usize, Error>
    requires { WhereClean S.Store tx.old.conn.now (Making (archive_schema false)) }
    ensures made { WritesListed S.Store tx.old.conn.now tx.new.conn.now (archive_schema false)
        result (PutsVectors vectors_of) }
    ensures kept { KeepsLastCommit S.Store tx.old.conn.now tx.new.conn.now }
    ensures same { tx.new.conn.ghost_name ≡ tx.old.conn.ghost_name }
    ensures crash { CommitsNothing S.Store tx.old.conn.now tx.new.conn.now }
{
    tx.execute(
        "INSERT INTO vectors SELECT r.origin, r.number, r.tick FROM records2 AS r WHERE NOT EXISTS (SELECT 1 FROM records2 AS s WHERE s.origin = r.origin AND s.number > r.number)",
        &[],
    )
}

/// Both.
pub(crate) fn fill_beside<S: Alter>(tx: &mut Transaction<'_, S>) -> Result<(), Error>
    requires { WhereClean S.Store tx.old.conn.now (Making (archive_schema false)) }
    ensures made { Writes S.Store tx.old.conn.now tx.new.conn.now (archive_schema false) result
        Fills }
    ensures kept { KeepsLastCommit S.Store tx.old.conn.now tx.new.conn.now }
    ensures same { tx.new.conn.ghost_name ≡ tx.old.conn.ghost_name }
    ensures crash { CommitsNothing S.Store tx.old.conn.now tx.new.conn.now }
{
    fill_currents(tx)?;
    fill_vectors(tx)?;
    Ok(())
}
