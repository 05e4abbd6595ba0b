//! The writes of one record in one transaction: its row, and the rows of current values and of vectors that follow.

ghost use Rattle.std.specs.Prelude.{◌≡◌, ◌⊎◌, ◌≤◌, ◌∷◌, [], false, IfOk, IfErr, OnErr, IsTrue};
ghost use Rattle.sqlite.specs.State.{HasCleanDisk, Survives};
ghost use Rattle.sqlite.specs.Held.{state};
ghost use Rattle.sql_tables.specs.State.{Idles, MakingArchive, IsOpenAndIdle};
ghost use Rattle.sql_tables.specs.Derived.{AreNumbered};
ghost use Rattle.sql_tables.specs.Keeping.{AddsRecord, HasNoRowAt, HasLaterBeside, HasOtherBeside, RaisesOne, IsOnly, ChangesCurrents, TakesIn, Renews, ChangesVectors, SetsVectors, Keeps, vector_cells, PutsVectors};
ghost use Rattle.sql_tables.specs.Connections.{WhereClean, Sees, tables_of, CommitsNothing, KeepsLastCommit, ChangesArchive, WritesArchive, ListsAndWrites, CommitsArchive};
ghost use Rattle.sql_tables.specs.Words.{row_of_cells};

use crate::writes::Cells;
use sqlite::{Alter, Connection, Error, Transaction, params};

/// Why the writes of a record weren't made.
#[derive(Clone, Copy, Debug)]
pub(crate) enum Unwritten {
    /// SQLite refused a statement.
    Sqlite(Error),
    /// The row that the record changes isn't there, or isn't the only one: no archive has such tables.
    NoRow,
}

impl Unwritten {
    /// As an error of SQLite.
    pub(crate) fn error(self) -> Error {
        match self {
            Unwritten::Sqlite(error) => error,
            Unwritten::NoRow => Error::InvalidQuery,
        }
    }
}

impl From<Error> for Unwritten {
    ghost use Rattle.sql_tables.specs.declared.insert.Unwritten.TheVariants.{Sqlite};

    ghost from_gives = { λ cause told. told ≡ Sqlite cause };

    fn from(cause: Error) -> Unwritten {
        Unwritten::Sqlite(cause)
    }
}

/// Adds the row of a record to `records2`, in a transaction; nothing is committed, and no other table changes.
pub fn add_record<S: Alter>(tx: &mut Transaction<'_, S>, r: &Cells) -> Result<usize, Error>
    requires { WhereClean S.Store tx.old.conn.now MakingArchive }
    ensures made { WritesArchive S.Store tx.old.conn.now tx.new.conn.now result
        (AddsRecord (row_of_cells r.now)) }
    ensures kept { KeepsLastCommit S.Store tx.old.conn.now tx.new.conn.now }
    ensures same { tx.new.conn.ghost_name ≡ tx.old.conn.ghost_name }
    ensures crash { CommitsNothing S.Store tx.old.conn.now tx.new.conn.now }
{
    tx.execute(
        "INSERT INTO records2 VALUES (?1, ?2, ?3, ?4, ?5, ?6, ?7, ?8, ?9)",
        params![
            &r.origin, &r.number, &r.tick, &r.node, &r.time, &r.pico, &r.asked, &r.who, &r.value
        ],
    )
}

/// Makes a record the current value of its node and time where it is later than the one that stands there, and
/// tells how many rows those are.
fn raise_current<S: Alter>(tx: &mut Transaction<'_, S>, r: &Cells) -> Result<usize, Error>
    requires { WhereClean S.Store tx.old.conn.now MakingArchive }
    ensures made { HasCleanDisk (state S.Store tx.new.conn.now)
        → IfOk result (λ count. ChangesArchive S.Store tx.old.conn.now tx.new.conn.now
        (Renews count (row_of_cells r.now))) }
    ensures met { HasCleanDisk (state S.Store tx.new.conn.now)
        → IfOk result
        (λ count. RaisesOne count (row_of_cells r.now) (tables_of S.Store tx.old.conn.now)) }
    ensures kept { KeepsLastCommit S.Store tx.old.conn.now tx.new.conn.now }
    ensures same { tx.new.conn.ghost_name ≡ tx.old.conn.ghost_name }
    ensures crash { CommitsNothing S.Store tx.old.conn.now tx.new.conn.now }
{
    tx.execute(
        "UPDATE currents2 SET tick = ?4, origin = ?5, live = ?6 <> 4, extra = 1, value = ?7 WHERE node = ?1 AND time = ?2 AND pico = ?3 AND tick <= ?4 AND (tick < ?4 OR origin < ?5)",
        params![
            &r.node, &r.time, &r.pico, &r.tick, &r.origin, &r.asked, &r.value
        ],
    )
}

/// Marks the current value of a record's node and time as one of several where it is later than the record, and
/// tells how many rows those are.
fn mark_current<S: Alter>(tx: &mut Transaction<'_, S>, r: &Cells) -> Result<usize, Error>
    requires { WhereClean S.Store tx.old.conn.now MakingArchive }
    ensures made { HasCleanDisk (state S.Store tx.new.conn.now)
        → IfOk result (λ count. ChangesArchive S.Store tx.old.conn.now tx.new.conn.now
        (Renews count (row_of_cells r.now))) }
    ensures met { HasCleanDisk (state S.Store tx.new.conn.now)
        → IfOk result
        (λ count. HasLaterBeside (row_of_cells r.now) (tables_of S.Store tx.old.conn.now)
        → count ≡ 1) }
    ensures kept { KeepsLastCommit S.Store tx.old.conn.now tx.new.conn.now }
    ensures same { tx.new.conn.ghost_name ≡ tx.old.conn.ghost_name }
    ensures crash { CommitsNothing S.Store tx.old.conn.now tx.new.conn.now }
{
    tx.execute(
        "UPDATE currents2 SET extra = 1 WHERE node = ?1 AND time = ?2 AND pico = ?3 AND tick >= ?4 AND (tick > ?4 OR origin > ?5)",
        params![&r.node, &r.time, &r.pico, &r.tick, &r.origin],
    )
}

/// Makes a record's number and tick the last of its origin where vectors has the origin, and tells how many rows
/// those are.
fn set_vector<S: Alter>(tx: &mut Transaction<'_, S>, r: &Cells) -> Result<usize, Error>
    requires { WhereClean S.Store tx.old.conn.now MakingArchive }
    ensures made { HasCleanDisk (state S.Store tx.new.conn.now)
        → IfOk result (λ count. ChangesArchive S.Store tx.old.conn.now tx.new.conn.now
        (SetsVectors count (vector_cells r.now.origin r.now.number r.now.tick) r.now.origin)) }
    ensures met { HasCleanDisk (state S.Store tx.new.conn.now)
        → IfOk result (λ count. AreNumbered (tables_of S.Store tx.old.conn.now 6) → count ≤ 1) }
    ensures kept { KeepsLastCommit S.Store tx.old.conn.now tx.new.conn.now }
    ensures same { tx.new.conn.ghost_name ≡ tx.old.conn.ghost_name }
    ensures crash { CommitsNothing S.Store tx.old.conn.now tx.new.conn.now }
{
    tx.execute(
        "UPDATE vectors SET origin = ?1, number = ?2, tick = ?3 WHERE origin = ?1",
        params![&r.origin, &r.number, &r.tick],
    )
}

/// Puts in a record's number as the last of its origin.
fn add_vector<S: Alter>(tx: &mut Transaction<'_, S>, r: &Cells) -> Result<usize, Error>
    requires { WhereClean S.Store tx.old.conn.now MakingArchive }
    ensures made { ListsAndWrites S.Store tx.old.conn.now tx.new.conn.now result
        (PutsVectors (λ _. vector_cells r.now.origin r.now.number r.now.tick ∷ [])) }
    ensures kept { KeepsLastCommit S.Store tx.old.conn.now tx.new.conn.now }
    ensures same { tx.new.conn.ghost_name ≡ tx.old.conn.ghost_name }
    ensures crash { CommitsNothing S.Store tx.old.conn.now tx.new.conn.now }
{
    tx.execute(
        "INSERT INTO vectors VALUES (?1, ?2, ?3)",
        params![&r.origin, &r.number, &r.tick],
    )
}

/// Puts in the current value of a record that is the only one of its node and time.
fn add_first<S: Alter>(tx: &mut Transaction<'_, S>, r: &Cells) -> Result<usize, Error>
    requires making { WhereClean S.Store tx.old.conn.now MakingArchive }
    requires only { WhereClean S.Store tx.old.conn.now
        (Sees (IsOnly (row_of_cells r.now) r.now.node.items r.now.time r.now.pico)) }
    ensures made { WritesArchive S.Store tx.old.conn.now tx.new.conn.now result
        (ChangesCurrents r.now.node.items r.now.time r.now.pico) }
    ensures kept { KeepsLastCommit S.Store tx.old.conn.now tx.new.conn.now }
    ensures same { tx.new.conn.ghost_name ≡ tx.old.conn.ghost_name }
    ensures crash { CommitsNothing S.Store tx.old.conn.now tx.new.conn.now }
{
    tx.execute(
        "INSERT INTO currents2 VALUES (?1, ?2, ?3, ?4, ?5, ?6 <> 4, 0, ?7)",
        params![
            &r.node, &r.time, &r.pico, &r.tick, &r.origin, &r.asked, &r.value
        ],
    )
}

/// Marks the current value of a record's node and time, which has to be later than the record.
fn mark_later<S: Alter>(tx: &mut Transaction<'_, S>, r: &Cells) -> Result<(), Unwritten>
    requires { WhereClean S.Store tx.old.conn.now MakingArchive }
    ensures made { WritesArchive S.Store tx.old.conn.now tx.new.conn.now result
        (TakesIn (row_of_cells r.now)) }
    ensures awaited { HasCleanDisk (state S.Store tx.new.conn.now)
        → HasLaterBeside (row_of_cells r.now) (tables_of S.Store tx.old.conn.now)
        → IfErr result (λ why. why ≡ Unwritten.NoRow → ⊥) }
    ensures kept { KeepsLastCommit S.Store tx.old.conn.now tx.new.conn.now }
    ensures same { tx.new.conn.ghost_name ≡ tx.old.conn.ghost_name }
    ensures crash { CommitsNothing S.Store tx.old.conn.now tx.new.conn.now }
{
    match mark_current(tx, r)? {
        1 => Ok(()),
        _ => Err(Unwritten::NoRow),
    }
}

/// Has the current value of a record's node and time, where others stand, follow from the record too. None there, or
/// more than one, would be no archive's.
fn renew_current<S: Alter>(tx: &mut Transaction<'_, S>, r: &Cells) -> Result<(), Unwritten>
    requires { WhereClean S.Store tx.old.conn.now MakingArchive }
    ensures made { WritesArchive S.Store tx.old.conn.now tx.new.conn.now result
        (TakesIn (row_of_cells r.now)) }
    ensures awaited { HasCleanDisk (state S.Store tx.new.conn.now)
        → HasOtherBeside (row_of_cells r.now) (tables_of S.Store tx.old.conn.now)
        → IfErr result (λ why. why ≡ Unwritten.NoRow → ⊥) }
    ensures kept { KeepsLastCommit S.Store tx.old.conn.now tx.new.conn.now }
    ensures same { tx.new.conn.ghost_name ≡ tx.old.conn.ghost_name }
    ensures crash { CommitsNothing S.Store tx.old.conn.now tx.new.conn.now }
{
    match raise_current(tx, r)? {
        0 => mark_later(tx, r),
        1 => Ok(()),
        _ => Err(Unwritten::NoRow),
    }
}

/// Makes the current value of a record's node and time; `first` tells that no other record stands there.
fn change_current<S: Alter>(
    tx: &mut Transaction<'_, S>,
    r: &Cells,
    first: bool,
) -> Result<(), Unwritten>
    requires making { WhereClean S.Store tx.old.conn.now MakingArchive }
    requires only { IsTrue first → HasCleanDisk (state S.Store tx.old.conn.now)
        → IsOnly (row_of_cells r.now) r.now.node.items r.now.time r.now.pico
        (tables_of S.Store tx.old.conn.now) }
    ensures made { WritesArchive S.Store tx.old.conn.now tx.new.conn.now result
        (TakesIn (row_of_cells r.now)) }
    ensures awaited { HasCleanDisk (state S.Store tx.new.conn.now)
        → IsTrue first ⊎ HasOtherBeside (row_of_cells r.now) (tables_of S.Store tx.old.conn.now)
        → IfErr result (λ why. why ≡ Unwritten.NoRow → ⊥) }
    ensures kept { KeepsLastCommit S.Store tx.old.conn.now tx.new.conn.now }
    ensures same { tx.new.conn.ghost_name ≡ tx.old.conn.ghost_name }
    ensures crash { CommitsNothing S.Store tx.old.conn.now tx.new.conn.now }
{
    if !first {
        return renew_current(tx, r);
    }
    add_first(tx, r)?;
    Ok(())
}

/// Makes a record's number the last of its origin. More rows than one of an origin would be no archive's.
fn change_vector<S: Alter>(tx: &mut Transaction<'_, S>, r: &Cells) -> Result<(), Unwritten>
    requires { WhereClean S.Store tx.old.conn.now MakingArchive }
    ensures made { WritesArchive S.Store tx.old.conn.now tx.new.conn.now result
        (ChangesVectors (vector_cells r.now.origin r.now.number r.now.tick) r.now.origin) }
    ensures awaited { HasCleanDisk (state S.Store tx.new.conn.now)
        → AreNumbered (tables_of S.Store tx.old.conn.now 6)
        → IfErr result (λ why. why ≡ Unwritten.NoRow → ⊥) }
    ensures kept { KeepsLastCommit S.Store tx.old.conn.now tx.new.conn.now }
    ensures same { tx.new.conn.ghost_name ≡ tx.old.conn.ghost_name }
    ensures crash { CommitsNothing S.Store tx.old.conn.now tx.new.conn.now }
{
    match set_vector(tx, r)? {
        0 => {
            add_vector(tx, r)?;
            Ok(())
        }
        1 => Ok(()),
        _ => Err(Unwritten::NoRow),
    }
}

/// All writes of a record; `first` tells that no other stands at its node and time.
fn write_all<S: Alter>(tx: &mut Transaction<'_, S>, r: &Cells, first: bool) -> Result<(), Unwritten>
    requires making { WhereClean S.Store tx.old.conn.now MakingArchive }
    requires free { IsTrue first → HasCleanDisk (state S.Store tx.old.conn.now)
        → HasNoRowAt r.now.node.items r.now.time r.now.pico (tables_of S.Store tx.old.conn.now) }
    ensures made { WritesArchive S.Store tx.old.conn.now tx.new.conn.now result
        (Keeps (row_of_cells r.now)) }
    ensures awaited { HasCleanDisk (state S.Store tx.new.conn.now)
        → IsTrue first ⊎ HasOtherBeside (row_of_cells r.now) (tables_of S.Store tx.old.conn.now)
        → AreNumbered (tables_of S.Store tx.old.conn.now 6)
        → IfErr result (λ why. why ≡ Unwritten.NoRow → ⊥) }
    ensures kept { KeepsLastCommit S.Store tx.old.conn.now tx.new.conn.now }
    ensures same { tx.new.conn.ghost_name ≡ tx.old.conn.ghost_name }
    ensures crash { CommitsNothing S.Store tx.old.conn.now tx.new.conn.now }
{
    add_record(tx, r)?;
    change_current(tx, r, first)?;
    change_vector(tx, r)?;
    Ok(())
}

/// All of them, in one commit, or none.
pub(crate) fn keep<S: Alter>(
    conn: &mut Connection<S>,
    r: &Cells,
    first: bool,
) -> Result<(), Unwritten>
    requires idle { conn.old.in_transaction ≡ false }
    requires idles { WhereClean S.Store conn.old Idles }
    requires free { IsTrue first → HasCleanDisk (state S.Store conn.old)
        → HasNoRowAt r.now.node.items r.now.time r.now.pico (tables_of S.Store conn.old) }
    ensures made { CommitsArchive S.Store conn.old conn.new result (Keeps (row_of_cells r.now)) }
    ensures awaited { HasCleanDisk (state S.Store conn.new)
        → IsTrue first ⊎ HasOtherBeside (row_of_cells r.now) (tables_of S.Store conn.old)
        → AreNumbered (tables_of S.Store conn.old 6)
        → IfErr result (λ why. why ≡ Unwritten.NoRow → ⊥) }
    ensures refused { HasCleanDisk (state S.Store conn.new)
        → IsTrue (state S.Store conn.new).is_open
        → OnErr result (IsOpenAndIdle (state S.Store conn.new)
        × ((state S.Store conn.new).now ≡ (state S.Store conn.old).committed)) }
    ensures crash { Survives (state S.Store conn.old) (state S.Store conn.new)
        (Keeps (row_of_cells r.now) (tables_of S.Store conn.old)) }
{
    let mut tx = conn.transaction();
    write_all(&mut tx, r, first)?;
    tx.commit()?;
    Ok(())
}
