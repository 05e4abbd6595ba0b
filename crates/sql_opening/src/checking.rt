//! The records of a store that anybody may have written, gone over one row at a time.

ghost use Rattle.std.specs.Prelude.{◌≡◌, ◌⊎◌, ◌↔◌, [], ◌∷◌, ◌++◌, List, IfOk, IfErr, OnOk, IsTrue};
ghost use Rattle.sqlite.specs.State.{HasCleanDisk, IsUnchanged};
ghost use Rattle.sqlite.specs.Held.{state};
ghost use Rattle.sqlite_value.specs.Order.{Row as Columns, column};
ghost use Rattle.sqlite_value.specs.declared.value.Value.TheVariants as value;
ghost use Rattle.records.specs.Spelling.{IsRecord};
ghost use Rattle.sql_tables.specs.Rows.{row_of, IsNoRecords};
ghost use Rattle.sql_tables.specs.State.{HasTables, MayBeStopped, Holds, IsOpenAndIdle, shown_of};
ghost use Rattle.sql_opening.specs.Opening.{comes_next, HasWalked, HasChecked, AreOutOfTurn, BeginOutOfTurn};
ghost use Rattle.sql_tables.specs.Connections.{WhereClean, tables_of, CommitsNothing};

use crate::latest::{Latest, raised};
use archive::StoreFault;
use records::Record;
use sql_tables::{bytes_at, decode, int_at};
use sqlite::{Alter, Connection, Error, ErrorCode, Row};
use stamp::Vector;
use std::alloc::Global;

/// An origin, a number and a tick.
#[derive(Clone, Copy, Debug)]
pub(crate) struct Mark {
    pub(crate) origin: u8,
    pub(crate) number: u64,
    pub(crate) tick: i64,
}

/// Whether the record is the first of a later origin, or the next of the same one.
fn comes_next(before: Mark, r: &Record) -> bool
    ensures { result ≡ comes_next before r.now }
{
    if before.origin < r.origin.get() {
        return r.number == 1;
    }
    before.origin == r.origin.get()
        && r.number > before.number
        && r.number - before.number == 1
        && before.tick < r.tick
}

pub(crate) fn is_int(row: &Row, at: usize, n: i64) -> bool
    ensures { IsTrue result ↔ (column row.now at ≡ value.Int n) }
{
    match int_at(row, at) {
        Ok(found) => found == n,
        Err(_) => false,
    }
}

pub(crate) fn is_bytes(row: &Row, at: usize, bytes: &[u8]) -> bool
    ensures { IsTrue result ↔ (column row.now at ≡ value.Blob bytes.now) }
{
    match bytes_at(row, at) {
        Ok(found) => found == bytes,
        Err(_) => false,
    }
}

/// The record of exactly this row; a row that is no record's is `Refused`.
fn read_row(alloc: Global, buffer: &mut Vec<u8>, row: &Row) -> Result<Record, StoreFault>
    ensures read { IfOk result (λ r. IsRecord r × (shown_of row.now ≡ row_of r)) }
    ensures met { IfErr result (λ fault. (fault ≡ StoreFault.OutOfMemory)
        ⊎ ((fault ≡ StoreFault.Refused) × IsNoRecords row.now)) }
{
    Ok(decode(alloc, buffer, row)?)
}

/// What was gone over: where the last record stands, and what an archive remembers of them.
#[derive(Clone, Copy, Debug)]
pub(crate) struct Walk {
    pub(crate) last: Mark,
    pub(crate) latest: Latest,
}

/// Nothing gone over yet.
pub(crate) fn start() -> Walk
    ensures { HasWalked [] result }
{
    Walk {
        last: Mark {
            origin: 0,
            number: 0,
            tick: 0,
        },
        latest: Latest {
            numbers: Vector::new(),
            tick: 0,
        },
    }
}

/// Goes on over one row more, which is that of the next record in turn; else it is refused.
pub(crate) fn go_on(
    alloc: Global,
    buffer: &mut Vec<u8>,
    walk: Walk,
    row: &Row,
) -> Result<Walk, StoreFault>
    ensures walked { (rows : List Columns) → HasWalked rows walk
        → IfOk result (HasWalked (rows ++ row.now ∷ [])) }
    ensures met { IfErr result (λ fault. (fault ≡ StoreFault.OutOfMemory)
        ⊎ (fault ≡ StoreFault.Refused)) }
    ensures refused { (rows : List Columns) → HasWalked rows walk → IfErr result
        (λ fault. (fault ≡ StoreFault.OutOfMemory) ⊎ AreOutOfTurn (rows ++ row.now ∷ [])) }
{
    let r = read_row(alloc, buffer, row)?;
    if !comes_next(walk.last, &r) {
        return Err(StoreFault::Refused);
    }
    Ok(Walk {
        last: Mark {
            origin: r.origin.get(),
            number: r.number,
            tick: r.tick,
        },
        latest: raised(walk.latest, &r),
    })
}

/// Goes over all rows of records by origin and number, as long as they are those of records in turn. It is refused where the first
/// ones aren't, or where there are too many to be counted.
pub(crate) fn check_rows<S: Alter>(
    alloc: Global,
    conn: &mut Connection<S>,
) -> Result<Result<Walk, StoreFault>, Error>
    requires rests { WhereClean S.Store conn.old IsOpenAndIdle }
    requires known { WhereClean S.Store conn.old HasTables }
    ensures checked { HasCleanDisk (state S.Store conn.new)
        → IfOk result (λ told. IfOk told (HasChecked (tables_of S.Store conn.old))) }
    ensures met { IfOk result (λ told. IfErr told (λ fault. (fault ≡ StoreFault.OutOfMemory)
        ⊎ (fault ≡ StoreFault.Refused))) }
    ensures refuted { HasCleanDisk (state S.Store conn.new) → IfOk result (λ told. IfErr told
        (λ fault. (fault ≡ StoreFault.OutOfMemory) ⊎ BeginOutOfTurn (tables_of S.Store conn.old))) }
    ensures same { HasCleanDisk (state S.Store conn.new)
        → OnOk result (IsUnchanged (state S.Store conn.old) (state S.Store conn.new)) }
    ensures refused { HasCleanDisk (state S.Store conn.new)
        → IfErr result (λ _. IsTrue (state S.Store conn.new).is_open
        → Holds (state S.Store conn.old) (state S.Store conn.new)) }
    ensures stopped { HasCleanDisk (state S.Store conn.new)
        → IfErr result
        (λ e. (e ≡ Error.SqliteFailure ErrorCode.OutOfMemory → ⊥)
        → MayBeStopped (state S.Store conn.old) (state S.Store conn.new)) }
    ensures crash { CommitsNothing S.Store conn.old conn.new }
{
    let mut walk = start();
    let mut buffer = Vec::new(alloc);
    let mut rows = conn.query(
        "SELECT origin, number, tick, node, time, pico, asked, who, value FROM records2 ORDER BY origin, number",
        &[],
    )?;
    'rows: for gone in 0..u64::MAX {
        rows.advance()?;
        let Some(row) = rows.get() else {
            return Ok(Ok(walk));
        };
        match go_on(alloc, &mut buffer, walk, row) {
            Ok(more) => walk = more,
            Err(fault) => return Ok(Err(fault)),
        }
    }
    Ok(Err(StoreFault::Refused))
}
