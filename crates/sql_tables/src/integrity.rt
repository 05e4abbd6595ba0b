//! Whether the tables of current values and of vectors hold the rows that follow from the records.

ghost use Rattle.std.specs.Prelude.{◌≡◌, ◌++◌, ◌∷◌, [], false, length, ◌<ℤ◌, ◌≤ℤ◌, IfSome, IsSomeAnd, List, IfOk, IfErr, OnOk, OnErr, IsTrue};
ghost use Rattle.sqlite.specs.State.{HasCleanDisk, IsUnchanged};
ghost use Rattle.sqlite.specs.Held.{state};
ghost use Rattle.sqlite_value.specs.Order.{Row as Columns};
ghost use Rattle.archive.specs.Store.{IsOfOpening};
ghost use Rattle.sql_tables.specs.Derived.{AreNumbered};
ghost use Rattle.sql_tables.specs.Rows.{IsFilled};
ghost use Rattle.sql_tables.specs.Asking.{ArchivesAnswer};
ghost use Rattle.sql_tables.specs.State.{MayBeStopped, LeavesUnchanged, LeavesUnchangedOr, Holds, Idles};
ghost use Rattle.sql_tables.specs.Agreeing.{ShowsOf, HasRisen, HasCounted, AreUncountable, BeginsUncountable, ShowsSome, AreStamped, AreSingle, AreTelling, AreShown, HasCurrents, AreOfRecords, HasVectors};
ghost use Rattle.sql_tables.specs.Connections.{WhereClean, Sees, tables_of, CommitsNothing};

use crate::decoding::int_at;
use crate::statements::{fault_of, select};
use archive::StoreFault;
use sqlite::{Alter, Connection, Error, ErrorCode, Row};

/// Rows gone over whose first column is a whole number above the one before it.
#[derive(Clone, Copy, Debug)]
pub(crate) struct Ids {
    pub(crate) last: Option<i64>,
    pub(crate) count: u64,
}

fn no_ids() -> Ids
    ensures { HasRisen [] result }
{
    Ids {
        last: None,
        count: 0,
    }
}

/// Whether a number isn't above the last one.
fn is_reached(last: Option<i64>, id: i64) -> bool
    ensures below { result ≡ false → IfSome last (λ before. before <ℤ id) }
    ensures reached { IsTrue result → IsSomeAnd last (λ before. id ≤ℤ before) }
{
    match last {
        Some(before) => id <= before,
        None => false,
    }
}

/// Goes on over one row more; it is refused where its number isn't above the last.
fn next_id(ids: Ids, row: &Row) -> Result<Ids, StoreFault>
    ensures risen { (rows : List Columns) → HasRisen rows ids
        → IfOk result (HasRisen (rows ++ row.now ∷ [])) }
    ensures met { IfErr result (λ fault. fault ≡ StoreFault.Refused) }
    ensures refused { (rows : List Columns) → HasRisen rows ids
        → OnErr result (AreUncountable (rows ++ row.now ∷ [])) }
{
    let id = match int_at(row, 0) {
        Ok(id) => id,
        Err(_) => return Err(StoreFault::Refused),
    };
    if is_reached(ids.last, id) {
        return Err(StoreFault::Refused);
    }
    match ids.count.checked_add(1) {
        Some(count) => Ok(Ids {
            last: Some(id),
            count,
        }),
        None => Err(StoreFault::Refused),
    }
}

/// How many rows a query shows, whose first columns have to rise: it is refused where those of its first rows don't,
/// or where there are too many. It goes over them one at a time.
fn count_ids<S: Alter>(
    conn: &mut Connection<S>,
    sql: &str,
) -> Result<Result<u64, StoreFault>, Error>
    requires idles { WhereClean S.Store conn.old Idles }
    requires answered { ArchivesAnswer sql.now [] }
    ensures counted { HasCleanDisk (state S.Store conn.new)
        → IfOk result (λ told. IfOk told (HasCounted sql.now (state S.Store conn.old).now)) }
    ensures met { IfOk result
        (λ told.
        IfErr told
        (λ fault. (fault ≡ StoreFault.Refused)
        × (HasCleanDisk (state S.Store conn.new)
        → BeginsUncountable sql.now (state S.Store conn.old).now))) }
    ensures same { HasCleanDisk (state S.Store conn.new)
        → OnOk result (IsUnchanged (state S.Store conn.old) (state S.Store conn.new)) }
    ensures refused { HasCleanDisk (state S.Store conn.new)
        → IfErr result
        (λ _. IsTrue (state S.Store conn.new).is_open
        → Holds (state S.Store conn.old) (state S.Store conn.new)) }
    ensures stopped { HasCleanDisk (state S.Store conn.new)
        → IfErr result
        (λ e. (e ≡ Error.SqliteFailure ErrorCode.OutOfMemory → ⊥)
        → MayBeStopped (state S.Store conn.old) (state S.Store conn.new)) }
    ensures crash { CommitsNothing S.Store conn.old conn.new }
{
    let mut ids = no_ids();
    let mut rows = conn.query(sql, &[])?;
    'rows: for gone in 0..u64::MAX {
        rows.advance()?;
        let Some(row) = rows.get() else {
            return Ok(Ok(ids.count));
        };
        match next_id(ids, row) {
            Ok(more) => ids = more,
            Err(fault) => return Ok(Err(fault)),
        }
    }
    Ok(Err(StoreFault::Refused))
}

fn ids_in<S: Alter>(conn: &mut Connection<S>, sql: &str) -> Result<u64, StoreFault>
    requires idles { WhereClean S.Store conn.old Idles }
    requires answered { ArchivesAnswer sql.now [] }
    ensures { LeavesUnchangedOr (BeginsUncountable sql.now (state S.Store conn.old).now)
        (state S.Store conn.old) (state S.Store conn.new) result
        (HasCounted sql.now (state S.Store conn.old).now) }
{
    match count_ids(conn, sql) {
        Ok(Ok(count)) => Ok(count),
        Ok(Err(fault)) => Err(fault),
        Err(error) => Err(fault_of(conn, error)),
    }
}

/// Whether these are no rows.
pub(crate) fn are_none(rows: &[Row]) -> bool
    ensures none { IsTrue result → rows.now ≡ [] }
    ensures some { result ≡ false → rows.now ≡ [] → ⊥ }
{
    match rows {
        [] => true,
        _ => false,
    }
}

/// Whether a query shows no row.
fn shows_none<S: Alter>(conn: &mut Connection<S>, sql: &str) -> Result<bool, StoreFault>
    requires idles { WhereClean S.Store conn.old Idles }
    requires answered { ArchivesAnswer sql.now [] }
    ensures { LeavesUnchanged (state S.Store conn.old) (state S.Store conn.new) result
        (λ none. (IsTrue none → ShowsOf sql.now (state S.Store conn.old).now [])
        × (none ≡ false → ShowsSome sql.now (state S.Store conn.old).now)) }
{
    let rows = select(conn, sql, &[])?;
    Ok(are_none(&rows))
}

/// Whether each current value has the moment and the stamp of a record, as it has where they are kept. No two of one moment stand in
/// the table.
fn currents_stand<S: Alter>(conn: &mut Connection<S>) -> Result<bool, StoreFault>
    requires idles { WhereClean S.Store conn.old Idles }
    requires filled { WhereClean S.Store conn.old (Sees IsFilled) }
    ensures { LeavesUnchanged (state S.Store conn.old) (state S.Store conn.new) result
        (λ stand. (IsTrue stand → AreStamped (tables_of S.Store conn.old)
        × AreSingle (tables_of S.Store conn.old))
        × (stand ≡ false → HasCurrents (tables_of S.Store conn.old) → ⊥)) }
{
    let _schema = conn.schema();
    shows_none(
        conn,
        "SELECT c.origin FROM currents2 AS c WHERE NOT EXISTS (SELECT 1 FROM records2 AS r WHERE r.node = c.node AND r.time = c.time AND r.pico = c.pico AND r.tick = c.tick AND r.origin = c.origin) LIMIT 1",
    )
}

/// Whether each current value that tells of other records has another at its moment, as it has where they are kept.
fn currents_tell<S: Alter>(conn: &mut Connection<S>) -> Result<bool, StoreFault>
    requires idles { WhereClean S.Store conn.old Idles }
    requires filled { WhereClean S.Store conn.old (Sees IsFilled) }
    ensures { LeavesUnchanged (state S.Store conn.old) (state S.Store conn.new) result
        (λ tell. (IsTrue tell → AreTelling (tables_of S.Store conn.old))
        × (tell ≡ false → HasCurrents (tables_of S.Store conn.old) → ⊥)) }
{
    let _schema = conn.schema();
    shows_none(
        conn,
        "SELECT c.origin FROM currents2 AS c WHERE c.extra <> 0 AND NOT EXISTS (SELECT 1 FROM records2 AS r WHERE r.node = c.node AND r.time = c.time AND r.pico = c.pico AND (r.tick <> c.tick OR r.origin <> c.origin)) LIMIT 1",
    )
}

/// Whether the current value of each record's moment is the record's, or a later one's and tells of others, as it is where they are
/// kept.
fn currents_show<S: Alter>(conn: &mut Connection<S>) -> Result<bool, StoreFault>
    requires idles { WhereClean S.Store conn.old Idles }
    requires filled { WhereClean S.Store conn.old (Sees IsFilled) }
    ensures { LeavesUnchanged (state S.Store conn.old) (state S.Store conn.new) result
        (λ show. (IsTrue show → AreShown (tables_of S.Store conn.old))
        × (show ≡ false → HasCurrents (tables_of S.Store conn.old) → ⊥)) }
{
    let _schema = conn.schema();
    shows_none(
        conn,
        "SELECT r.origin FROM records2 AS r WHERE NOT EXISTS (SELECT 1 FROM currents2 AS c WHERE c.node = r.node AND c.time = r.time AND c.pico = r.pico AND (c.extra = 1 AND (c.tick > r.tick OR c.tick = r.tick AND c.origin > r.origin) OR c.tick = r.tick AND c.origin = r.origin AND c.live = (r.asked <> 4) AND c.value = r.value)) LIMIT 1",
    )
}

/// How many current values there are.
fn currents_held<S: Alter>(conn: &mut Connection<S>) -> Result<u64, StoreFault>
    requires idles { WhereClean S.Store conn.old Idles }
    ensures { LeavesUnchanged (state S.Store conn.old) (state S.Store conn.new) result (λ n. (n
        ≡ length (tables_of S.Store conn.old 4)) × AreNumbered (tables_of S.Store conn.old 4)) }
{
    ids_in(conn, "SELECT rowid FROM currents2 ORDER BY rowid")
}

/// Nothing, where all three are so.
fn all_hold(one: bool, other: bool, third: bool) -> Result<(), StoreFault>
    ensures same { OnOk result (IsTrue one × IsTrue other × IsTrue third) }
    ensures met { IfErr result (λ fault. IsOfOpening fault → ⊥) }
    ensures refused { IfErr result (λ _. IsTrue one → IsTrue other → IsTrue third → ⊥) }
{
    if one && other && third {
        return Ok(());
    }
    Err(StoreFault::Refused)
}

/// Refuses current values that aren't those of the records: each has to be of a record, and each record has to be shown by the one of
/// its moment. Nothing is changed, and no row is kept in memory.
pub fn check_currents<S: Alter>(conn: &mut Connection<S>) -> Result<(), StoreFault>
    requires idles { WhereClean S.Store conn.old Idles }
    requires filled { WhereClean S.Store conn.old (Sees IsFilled) }
    ensures { LeavesUnchanged (state S.Store conn.old) (state S.Store conn.new) result
        (λ _. HasCurrents (tables_of S.Store conn.old)) }
{
    let stand = currents_stand(conn)?;
    let tell = currents_tell(conn)?;
    let show = currents_show(conn)?;
    let _held = currents_held(conn)?;
    all_hold(stand, tell, show)
}

/// Whether each last number is a record's, as it is where they are kept.
pub fn vectors_stand<S: Alter>(conn: &mut Connection<S>) -> Result<bool, StoreFault>
    requires idles { WhereClean S.Store conn.old Idles }
    requires filled { WhereClean S.Store conn.old (Sees IsFilled) }
    ensures { LeavesUnchanged (state S.Store conn.old) (state S.Store conn.new) result
        (λ stand. (IsTrue stand → AreNumbered (tables_of S.Store conn.old 6)
        → AreOfRecords (tables_of S.Store conn.old))
        × (stand ≡ false → HasVectors (tables_of S.Store conn.old) → ⊥)) }
{
    let _schema = conn.schema();
    shows_none(
        conn,
        "SELECT v.origin FROM vectors AS v WHERE NOT EXISTS (SELECT 1 FROM records2 AS r WHERE r.origin = v.origin AND r.number = v.number AND r.tick = v.tick) LIMIT 1",
    )
}

/// How many last numbers there are. It is refused where two are of one origin.
pub fn vectors_held<S: Alter>(conn: &mut Connection<S>) -> Result<u64, StoreFault>
    requires idles { WhereClean S.Store conn.old Idles }
    ensures { LeavesUnchanged (state S.Store conn.old) (state S.Store conn.new) result (λ n. (n
        ≡ length (tables_of S.Store conn.old 6)) × AreNumbered (tables_of S.Store conn.old 6)) }
{
    ids_in(conn, "SELECT origin FROM vectors ORDER BY origin")
}
