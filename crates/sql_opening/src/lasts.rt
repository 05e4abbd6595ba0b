//! Whether the tables of current values and of vectors hold what follows from the records, which were gone over.

ghost use Rattle.std.specs.Prelude.{◌≡◌, false, IfErr, IsTrue, OnOk};
ghost use Rattle.std.specs.List.{list_any};
ghost use Rattle.sqlite.specs.Held.{state};
ghost use Rattle.archive.specs.Store.{IsOfOpening};
ghost use Rattle.sql_tables.specs.Agreeing.{AreReached, HasVectors};
ghost use Rattle.sql_tables.specs.Connections.{WhereClean, Sees, tables_of};
ghost use Rattle.sql_tables.specs.Derived.{AreKept};
ghost use Rattle.sql_tables.specs.Rows.{IsFilled, content_in};
ghost use Rattle.sql_tables.specs.State.{LeavesUnchanged, Idles};
ghost use Rattle.sql_opening.specs.Again.{has_last, TellLasts};
ghost use Rattle.sql_opening.specs.Latest.{AreLasts};

use crate::again::{is_last, last_rows};
use archive::StoreFault;
use sql_tables::{check_currents, vectors_held, vectors_stand};
use sqlite::{Alter, Connection, Row};
use stamp::{ReplicaNo, Vector};

/// Whether one of the rows of vectors has this origin and this last number.
fn has_last(rows: &[Row], origin: u8, number: u64) -> bool
    ensures { result ≡ list_any (has_last origin number) rows.now }
{
    rows.iter().any(|row| is_last(row, origin, number))
}

/// Whether each origin that has a number has a row with it.
fn tell_lasts(rows: &[Row], numbers: &Vector) -> bool
    ensures told { IsTrue result → TellLasts numbers.now rows.now }
    ensures lacking { result ≡ false → TellLasts numbers.now rows.now → ⊥ }
{
    for place in 0..64u8 {
        let Some(origin) = ReplicaNo::new(place + 1) else {
            return false;
        };
        let number = numbers.get(origin);
        if number > 0 && !has_last(rows, place + 1, number) {
            return false;
        }
    }
    true
}

/// Whether each record's origin has a last number that isn't below the record's, as it is where they are kept; these are the records'
/// last numbers.
fn vectors_reach<S: Alter>(conn: &mut Connection<S>, numbers: &Vector) -> Result<bool, StoreFault>
    requires idles { WhereClean S.Store conn.old Idles }
    requires filled { WhereClean S.Store conn.old (Sees IsFilled) }
    requires lasts { WhereClean S.Store conn.old
        (λ s. AreLasts (content_in s.now.trees) numbers.now) }
    ensures { LeavesUnchanged (state S.Store conn.old) (state S.Store conn.new) result
        (λ reach. (IsTrue reach → AreReached (tables_of S.Store conn.old))
        × (reach ≡ false → HasVectors (tables_of S.Store conn.old) → ⊥)) }
{
    let rows = last_rows(conn)?;
    Ok(tell_lasts(&rows, numbers))
}

/// Nothing, where both are so.
fn both_hold(one: bool, other: bool) -> Result<(), StoreFault>
    ensures same { OnOk result (IsTrue one × IsTrue other) }
    ensures met { IfErr result (λ fault. IsOfOpening fault → ⊥) }
    ensures refused { IfErr result (λ _. IsTrue one → IsTrue other → ⊥) }
{
    if one && other {
        return Ok(());
    }
    Err(StoreFault::Refused)
}

/// Refuses last numbers that aren't those of the records: each has to be a record's, each record's origin has to have one that isn't
/// below it, and no origin two.
fn check_vectors<S: Alter>(conn: &mut Connection<S>, numbers: &Vector) -> Result<(), StoreFault>
    requires idles { WhereClean S.Store conn.old Idles }
    requires filled { WhereClean S.Store conn.old (Sees IsFilled) }
    requires lasts { WhereClean S.Store conn.old
        (λ s. AreLasts (content_in s.now.trees) numbers.now) }
    ensures { LeavesUnchanged (state S.Store conn.old) (state S.Store conn.new) result
        (λ _. HasVectors (tables_of S.Store conn.old)) }
{
    let stand = vectors_stand(conn)?;
    let reach = vectors_reach(conn, numbers)?;
    let _held = vectors_held(conn)?;
    both_hold(stand, reach)
}

/// Refuses tables of current values and of vectors whose rows aren't those that follow from the records, of which these are the last
/// numbers. Nothing is changed, and no row but those of vectors is kept in memory: of current values it is asked whether each is of a
/// record and tells of others where there are some, and shows the records of its moment.
pub(crate) fn check_kept<S: Alter>(
    conn: &mut Connection<S>,
    numbers: &Vector,
) -> Result<(), StoreFault>
    requires idles { WhereClean S.Store conn.old Idles }
    requires filled { WhereClean S.Store conn.old (Sees IsFilled) }
    requires lasts { WhereClean S.Store conn.old
        (λ s. AreLasts (content_in s.now.trees) numbers.now) }
    ensures { LeavesUnchanged (state S.Store conn.old) (state S.Store conn.new) result
        (λ _. AreKept (tables_of S.Store conn.old)) }
{
    check_currents(conn)?;
    check_vectors(conn, numbers)
}
