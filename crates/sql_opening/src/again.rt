//! A store that is open, read anew.

ghost use Rattle.std.specs.Prelude.{◌≡◌, map, IsTrue, IsPermutation};
ghost use Rattle.sqlite.specs.Held.{state};
ghost use Rattle.sql_tables.specs.Derived.{vector_columns};
ghost use Rattle.sql_tables.specs.State.{LeavesUnchanged, LeavesUnchangedOr, Idles};
ghost use Rattle.stamp.specs.Numbers.{entries};
ghost use Rattle.sql_opening.specs.Opening.{AnyReason};
ghost use Rattle.sql_opening.specs.Again.{has_last, last_in, top_in, IsAsHeld};
ghost use Rattle.sql_tables.specs.Connections.{WhereClean, tables_of};

use crate::latest::Latest;
use crate::opening::judge;
use archive::StoreFault;
use sql_tables::{number_at, select, tick_at};
use sqlite::{Alter, Connection, Row};
use stamp::{ReplicaNo, Vector};
use uuid::Uuid;

/// The rows of vectors, by origin.
pub(crate) fn last_rows<S: Alter>(conn: &mut Connection<S>) -> Result<Vec<Row>, StoreFault>
    requires { WhereClean S.Store conn.old Idles }
    ensures { LeavesUnchanged (state S.Store conn.old) (state S.Store conn.new) result
        (λ rows. IsPermutation (map vector_columns (tables_of S.Store conn.old 6)) rows.items) }
{
    select(
        conn,
        "SELECT origin, number, tick FROM vectors ORDER BY origin",
        &[],
    )
}

/// Whether a row of vectors has this origin and this last number.
pub(crate) fn is_last(row: &Row, origin: u8, number: u64) -> bool
    ensures same { result ≡ has_last origin number row.now }
    ensures told { IsTrue result → last_in row.now ≡ (origin, number) }
{
    match (number_at(row, 0), number_at(row, 1)) {
        (Ok(found), Ok(last)) => found == u64::from(origin) && last == number,
        _ => false,
    }
}

/// Whether the rows are those of the origins that have a number, in their order, each with its number.
fn are_lasts(rows: &[Row], numbers: &Vector) -> bool
    ensures { IsTrue result → map last_in rows.now ≡ entries numbers.now }
{
    let _whole = numbers.at_least(numbers);
    let mut gone = 0;
    for place in 0..64u8 {
        let Some(origin) = ReplicaNo::new(place + 1) else {
            return false;
        };
        let number = numbers.get(origin);
        if number > 0 {
            match rows.get(gone) {
                Some(row) if is_last(row, place + 1, number) => gone += 1,
                _ => return false,
            }
        }
    }
    gone == rows.len()
}

/// Whether this is the greatest tick of the rows, or 0 where there are none.
fn is_top(rows: &[Row], tick: i64) -> bool
    ensures { IsTrue result → top_in rows.now ≡ tick }
{
    let mut newest = 0;
    for row in rows {
        match tick_at(row, 2) {
            Ok(found) => newest = newest.max(found),
            Err(_) => return false,
        }
    }
    newest == tick
}

/// Reads whose store it is, its last numbers and its greatest tick anew. `Refused` where they aren't those of before.
#[tactic(auto, using(crate::proofs::OpenLemmas::any_reason))]
pub fn read_again<S: Alter>(
    conn: &mut Connection<S>,
    id: &Uuid,
    number: ReplicaNo,
    latest: &Latest,
) -> Result<(), StoreFault>
    requires { WhereClean S.Store conn.old Idles }
    ensures { LeavesUnchangedOr AnyReason (state S.Store conn.old) (state S.Store conn.new) result
        (λ _. IsAsHeld id.now number latest.now.numbers latest.now.tick
        (tables_of S.Store conn.old)) }
{
    let told = judge(conn, id, number, 2)?;
    if told.is_err() {
        return Err(StoreFault::Refused);
    }
    let rows = last_rows(conn)?;
    if !(are_lasts(&rows, &latest.numbers) && is_top(&rows, latest.tick)) {
        return Err(StoreFault::Refused);
    }
    Ok(())
}
