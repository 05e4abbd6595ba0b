//! A store of format 1, whose moments have no picoseconds: its tables are made anew, in one commit.

ghost use Rattle.std.specs.Prelude.{◌≡◌, ◌⊎◌, ◌<◌, ℕ, List, [], false, true, map, IfOk, IfErr, OnOk, IsTrue, IsPermutation, Err};
ghost use Rattle.sqlite.specs.State.{HasCleanDisk, Survives, IsUnchanged};
ghost use Rattle.sqlite.specs.Held.{state};
ghost use Rattle.sqlite_value.specs.Order.{column};
ghost use Rattle.sqlite_value.specs.declared.value.Value.TheVariants as value;
ghost use Rattle.records.specs.Contents.{Content};
ghost use Rattle.archive.specs.Store.{IsOfOpening, IsLawfulContent};
ghost use Rattle.sql_schema.specs.Tables.{schema1, with_currents1, with_records1, with_meta, no_schema, archive_schema};
ghost use Rattle.sql_tables.specs.Keeping.{AddsRecord};
ghost use Rattle.sql_tables.specs.Derived.{current_columns, vector_columns};
ghost use Rattle.sql_tables.specs.Rows.{row_of};
ghost use Rattle.sql_tables.specs.State.{Found, FoundOr, Making, IsOpenAndIdle, shown_of};
ghost use Rattle.sql_opening.specs.Renewing.{cells1, current1, IsRead1, IsRenewed, IsTurned, PutsRecords};
ghost use Rattle.sql_opening.specs.Opening.{OpensV1, AnyReason};
ghost use Rattle.sql_opening.specs.Unread.{IsNoCells};
ghost use Rattle.sql_tables.specs.Connections.{WhereClean, HasSchema, tables_of, CommitsNothing, Writes, MakesSchema, Commits};
ghost use Rattle.sql_tables.specs.Words.{row_of_cells};

use crate::backfill::fill_beside;
use crate::checking::{go_on, is_bytes, is_int, start};
use crate::opening::judge;
use archive::StoreFault;
use records::RecordFault;
use sql_tables::{Cells, add_record, ask, bytes_at, int_at, make_tables};
use sqlite::{Alter, Connection, Error, ErrorCode, Row, Transaction};
use sqlite_value::value::ValueRef;
use stamp::ReplicaNo;
use std::alloc::Global;
use uuid::Uuid;

/// The rows of a store of format 1, as those of an archive's tables: of its records, its current values and its
/// last numbers, each in order.
#[derive(Debug, Drop)]
pub struct Rows1 {
    pub records: Vec<Row>,
    pub currents: Vec<Row>,
    pub vectors: Vec<Row>,
}

/// The rows of records, by name.
fn records_of<S: Alter>(conn: &mut Connection<S>) -> Result<Vec<Row>, StoreFault>
    requires rests { WhereClean S.Store conn.old IsOpenAndIdle }
    requires first { WhereClean S.Store conn.old (HasSchema schema1) }
    ensures { Found (state S.Store conn.old) (state S.Store conn.new) result
        (λ rows. IsPermutation (cells1 (tables_of S.Store conn.old)) rows.items) }
{
    ask(
        conn,
        "SELECT origin, number, tick, node, time, 0, asked, who, value FROM records ORDER BY origin, number",
        &[],
    )
}

/// The rows of currents, by node and time.
fn currents_of<S: Alter>(conn: &mut Connection<S>) -> Result<Vec<Row>, StoreFault>
    requires rests { WhereClean S.Store conn.old IsOpenAndIdle }
    requires first { WhereClean S.Store conn.old (HasSchema schema1) }
    ensures { Found (state S.Store conn.old) (state S.Store conn.new) result
        (λ rows. IsPermutation (map current1 (tables_of S.Store conn.old 4)) rows.items) }
{
    ask(
        conn,
        "SELECT node, time, 0, tick, origin, live, extra, value FROM currents ORDER BY node, time",
        &[],
    )
}

/// The rows of vectors, by origin.
fn vectors_of<S: Alter>(conn: &mut Connection<S>) -> Result<Vec<Row>, StoreFault>
    requires rests { WhereClean S.Store conn.old IsOpenAndIdle }
    requires first { WhereClean S.Store conn.old (HasSchema schema1) }
    ensures { Found (state S.Store conn.old) (state S.Store conn.new) result
        (λ rows. IsPermutation (map vector_columns (tables_of S.Store conn.old 6)) rows.items) }
{
    ask(
        conn,
        "SELECT origin, number, tick FROM vectors ORDER BY origin",
        &[],
    )
}

/// Refuses rows that aren't those of a lawful content's records, one after the other.
fn check_records(alloc: Global, rows: &[Row]) -> Result<(), StoreFault>
    ensures lawful { OnOk result ((R : Content) × IsLawfulContent R
        × (map row_of R ≡ map shown_of rows.now)) }
    ensures met { IfErr result (λ fault. IsOfOpening fault → ⊥) }
{
    let mut walk = start();
    let mut buffer = Vec::new(alloc);
    for row in rows {
        walk = go_on(alloc, &mut buffer, walk, row)?;
    }
    Ok(())
}

/// All rows of a store of format 1, whose records are a lawful content's.
#[tactic(auto, using(crate::proofs::OpenLemmas::any_reason))]
fn read_rows<S: Alter>(alloc: Global, conn: &mut Connection<S>) -> Result<Rows1, StoreFault>
    requires rests { WhereClean S.Store conn.old IsOpenAndIdle }
    requires first { WhereClean S.Store conn.old (HasSchema schema1) }
    ensures { FoundOr AnyReason (state S.Store conn.old) (state S.Store conn.new) result
        (IsRead1 (tables_of S.Store conn.old)) }
{
    let records = records_of(conn)?;
    let currents = currents_of(conn)?;
    let vectors = vectors_of(conn)?;
    check_records(alloc, &records)?;
    Ok(Rows1 {
        records,
        currents,
        vectors,
    })
}

fn drop_vectors<S: Alter>(tx: &mut Transaction<'_, S>) -> Result<usize, Error>
    requires { WhereClean S.Store tx.old.conn.now (Making schema1) }
    ensures made { MakesSchema S.Store tx.old.conn.now tx.new.conn.now with_currents1 result }
    ensures same { tx.new.conn.ghost_name ≡ tx.old.conn.ghost_name }
    ensures crash { CommitsNothing S.Store tx.old.conn.now tx.new.conn.now }
{
    tx.execute("DROP TABLE vectors", &[])
}

fn drop_currents<S: Alter>(tx: &mut Transaction<'_, S>) -> Result<usize, Error>
    requires { WhereClean S.Store tx.old.conn.now (Making with_currents1) }
    ensures made { MakesSchema S.Store tx.old.conn.now tx.new.conn.now with_records1 result }
    ensures same { tx.new.conn.ghost_name ≡ tx.old.conn.ghost_name }
    ensures crash { CommitsNothing S.Store tx.old.conn.now tx.new.conn.now }
{
    tx.execute("DROP TABLE currents", &[])
}

fn drop_records<S: Alter>(tx: &mut Transaction<'_, S>) -> Result<usize, Error>
    requires { WhereClean S.Store tx.old.conn.now (Making with_records1) }
    ensures made { MakesSchema S.Store tx.old.conn.now tx.new.conn.now with_meta result }
    ensures same { tx.new.conn.ghost_name ≡ tx.old.conn.ghost_name }
    ensures crash { CommitsNothing S.Store tx.old.conn.now tx.new.conn.now }
{
    tx.execute("DROP TABLE records", &[])
}

fn drop_meta<S: Alter>(tx: &mut Transaction<'_, S>) -> Result<usize, Error>
    requires { WhereClean S.Store tx.old.conn.now (Making with_meta) }
    ensures made { MakesSchema S.Store tx.old.conn.now tx.new.conn.now no_schema result }
    ensures same { tx.new.conn.ghost_name ≡ tx.old.conn.ghost_name }
    ensures crash { CommitsNothing S.Store tx.old.conn.now tx.new.conn.now }
{
    tx.execute("DROP TABLE meta", &[])
}

/// Takes out all tables of format 1. So those of an archive get the trees that they have in any store.
fn drop_tables<S: Alter>(tx: &mut Transaction<'_, S>) -> Result<(), Error>
    requires { WhereClean S.Store tx.old.conn.now (Making schema1) }
    ensures made { MakesSchema S.Store tx.old.conn.now tx.new.conn.now no_schema result }
    ensures same { tx.new.conn.ghost_name ≡ tx.old.conn.ghost_name }
    ensures crash { CommitsNothing S.Store tx.old.conn.now tx.new.conn.now }
{
    drop_vectors(tx)?;
    drop_currents(tx)?;
    drop_records(tx)?;
    drop_meta(tx)?;
    Ok(())
}

/// A copy of the bytes in a column.
fn copy_at(alloc: Global, row: &Row, at: usize) -> Result<Vec<u8>, RecordFault>
    ensures found { IfOk result (λ b. column row.now at ≡ value.Blob b.items) }
    ensures unread { IfErr result (λ fault. (fault ≡ RecordFault.OutOfMemory)
        ⊎ ((b : List ℕ) → column row.now at ≡ value.Blob b → ⊥)) }
{
    let mut out = Vec::new(alloc);
    out.extend_from_slice(bytes_at(row, at)?)?;
    Ok(out)
}

/// A record as its row has it; the fault is want of memory, or that of a row with another kind of column.
#[tactic(auto, using(crate::proofs::UnreadLemmas::no_node, crate::proofs::UnreadLemmas::no_user, crate::proofs::UnreadLemmas::no_value, crate::proofs::UnreadLemmas::no_origin, crate::proofs::UnreadLemmas::no_number, crate::proofs::UnreadLemmas::no_tick, crate::proofs::UnreadLemmas::no_time, crate::proofs::UnreadLemmas::no_pico, crate::proofs::UnreadLemmas::no_asked))]
fn cells_in(alloc: Global, row: &Row) -> Result<Cells, RecordFault>
    ensures found { IfOk result (λ c. shown_of row.now ≡ row_of_cells c) }
    ensures unread { IfErr result (λ fault. (fault ≡ RecordFault.OutOfMemory)
        ⊎ IsNoCells row.now) }
{
    let node = copy_at(alloc, row, 3)?;
    let who = copy_at(alloc, row, 7)?;
    let value = copy_at(alloc, row, 8)?;
    Ok(Cells {
        origin: int_at(row, 0)?,
        number: int_at(row, 1)?,
        tick: int_at(row, 2)?,
        node,
        time: int_at(row, 4)?,
        pico: int_at(row, 5)?,
        asked: int_at(row, 6)?,
        who,
        value,
    })
}

/// What a row that can't be put in is told as, inside of a transaction.
fn error_of(fault: RecordFault) -> Error
    ensures { fault ≡ RecordFault.OutOfMemory
        → result ≡ Error.SqliteFailure ErrorCode.OutOfMemory }
{
    match fault {
        RecordFault::OutOfMemory => Error::SqliteFailure(ErrorCode::OutOfMemory),
        _ => Error::InvalidQuery,
    }
}

/// A record as its row has it, or what ends the transaction.
fn cells_to_put(alloc: Global, row: &Row) -> Result<Cells, Error>
    ensures found { IfOk result (λ c. shown_of row.now ≡ row_of_cells c) }
    ensures unread { IfErr result (λ error. (error ≡ Error.SqliteFailure ErrorCode.OutOfMemory)
        ⊎ IsNoCells row.now) }
{
    match cells_in(alloc, row) {
        Ok(cells) => Ok(cells),
        Err(fault) => Err(error_of(fault)),
    }
}

/// Puts one row into records2.
fn put_record<S: Alter>(
    alloc: Global,
    tx: &mut Transaction<'_, S>,
    row: &Row,
) -> Result<usize, Error>
    requires { WhereClean S.Store tx.old.conn.now (Making (archive_schema false)) }
    ensures made { Writes S.Store tx.old.conn.now tx.new.conn.now (archive_schema false) result
        (AddsRecord (shown_of row.now)) }
    ensures same { tx.new.conn.ghost_name ≡ tx.old.conn.ghost_name }
    ensures crash { CommitsNothing S.Store tx.old.conn.now tx.new.conn.now }
{
    let cells = cells_to_put(alloc, row)?;
    add_record(tx, &cells)
}

/// Puts rows into records2.
fn put_records<S: Alter>(
    alloc: Global,
    tx: &mut Transaction<'_, S>,
    rows: &[Row],
) -> Result<(), Error>
    requires { WhereClean S.Store tx.old.conn.now (Making (archive_schema false)) }
    ensures made { Writes S.Store tx.old.conn.now tx.new.conn.now (archive_schema false) result
        (PutsRecords (map shown_of rows.now)) }
    ensures same { tx.new.conn.ghost_name ≡ tx.old.conn.ghost_name }
    ensures crash { CommitsNothing S.Store tx.old.conn.now tx.new.conn.now }
{
    for row in rows {
        put_record(alloc, tx, row)?;
    }
    Ok(())
}

/// The rows of currents2, by node and moment.
fn currents_made<S: Alter>(tx: &mut Transaction<'_, S>) -> Result<Vec<Row>, Error>
    requires { WhereClean S.Store tx.old.conn.now (Making (archive_schema false)) }
    ensures made { HasCleanDisk (state S.Store tx.new.conn.now) → IfOk result
        (λ rows. IsUnchanged (state S.Store tx.old.conn.now) (state S.Store tx.new.conn.now)
        × IsPermutation (map current_columns (tables_of S.Store tx.old.conn.now 4)) rows.items) }
    ensures same { tx.new.conn.ghost_name ≡ tx.old.conn.ghost_name }
    ensures crash { CommitsNothing S.Store tx.old.conn.now tx.new.conn.now }
{
    tx.query_all(
        "SELECT node, time, pico, tick, origin, live, extra, value FROM currents2 ORDER BY node, time, pico",
        &[],
    )
}

/// The rows of vectors, by origin.
fn vectors_made<S: Alter>(tx: &mut Transaction<'_, S>) -> Result<Vec<Row>, Error>
    requires { WhereClean S.Store tx.old.conn.now (Making (archive_schema false)) }
    ensures made { HasCleanDisk (state S.Store tx.new.conn.now) → IfOk result
        (λ rows. IsUnchanged (state S.Store tx.old.conn.now) (state S.Store tx.new.conn.now)
        × IsPermutation (map vector_columns (tables_of S.Store tx.old.conn.now 6)) rows.items) }
    ensures same { tx.new.conn.ghost_name ≡ tx.old.conn.ghost_name }
    ensures crash { CommitsNothing S.Store tx.old.conn.now tx.new.conn.now }
{
    tx.query_all(
        "SELECT origin, number, tick FROM vectors ORDER BY origin",
        &[],
    )
}

/// Whether two rows have the same whole number or the same bytes in a column.
fn is_same_value(old: &Row, new: &Row, at: usize) -> bool
    ensures { IsTrue result → column old.now at ≡ column new.now at }
{
    match old.get_ref(at) {
        Ok(ValueRef::Int(n)) => is_int(new, at, n),
        Ok(ValueRef::Blob(bytes)) => is_bytes(new, at, bytes),
        _ => false,
    }
}

/// Whether two rows have the same values, which are whole numbers and bytes.
fn is_same_row(old: &Row, new: &Row) -> bool
    ensures { IsTrue result → old.now ≡ new.now }
{
    let width = old.column_count();
    if width != new.column_count() {
        return false;
    }
    for at in 0..width {
        if !is_same_value(old, new, at) {
            return false;
        }
    }
    true
}

/// Whether the same rows stand in both, in the same order.
fn are_same(old: &[Row], new: &[Row]) -> bool
    ensures { IsTrue result → old.now ≡ new.now }
{
    let mut count = 0;
    for row in old {
        match new.get(count) {
            Some(other) if is_same_row(row, other) => count += 1,
            _ => return false,
        }
    }
    count == new.len()
}

/// Makes the tables of an archive and fills them with these records, in a transaction.
fn refill<S: Alter>(
    alloc: Global,
    tx: &mut Transaction<'_, S>,
    id: &Uuid,
    replica: &i64,
    rows: &[Row],
) -> Result<(), Error>
    requires making { WhereClean S.Store tx.old.conn.now (Making schema1) }
    requires lawful { HasCleanDisk (state S.Store tx.old.conn.now)
        → (R : Content) × IsLawfulContent R × (map row_of R ≡ map shown_of rows.now) }
    ensures made { Writes S.Store tx.old.conn.now tx.new.conn.now (archive_schema false) result
        (λ _. IsRenewed id.now replica.now (map shown_of rows.now)) }
    ensures same { tx.new.conn.ghost_name ≡ tx.old.conn.ghost_name }
    ensures crash { CommitsNothing S.Store tx.old.conn.now tx.new.conn.now }
{
    drop_tables(tx)?;
    make_tables(tx, id.as_bytes(), replica)?;
    put_records(alloc, tx, rows)?;
    fill_beside(tx)?;
    Ok(())
}

/// Makes the tables anew, in a transaction. It fails where the old current values and last numbers aren't those that
/// follow from the records.
fn migrate_from_v1<S: Alter>(
    alloc: Global,
    tx: &mut Transaction<'_, S>,
    id: &Uuid,
    replica: &i64,
    rows: &Rows1,
) -> Result<(), Error>
    requires making { WhereClean S.Store tx.old.conn.now (Making schema1) }
    requires read { HasCleanDisk (state S.Store tx.old.conn.now)
        → IsRead1 (tables_of S.Store tx.old.conn.now) rows.now }
    ensures made { Writes S.Store tx.old.conn.now tx.new.conn.now (archive_schema false) result
        (IsTurned id.now replica.now) }
    ensures same { tx.new.conn.ghost_name ≡ tx.old.conn.ghost_name }
    ensures crash { CommitsNothing S.Store tx.old.conn.now tx.new.conn.now }
{
    refill(alloc, tx, id, replica, &rows.records)?;
    let currents = currents_made(tx)?;
    let vectors = vectors_made(tx)?;
    if !are_same(&rows.currents, &currents) {
        return Err(Error::InvalidQuery);
    }
    if !are_same(&rows.vectors, &vectors) {
        return Err(Error::InvalidQuery);
    }
    Ok(())
}

/// Makes the tables of an archive in place of those of format 1, with the rows that were read, in one commit. It fails where the
/// current values or last numbers that were read aren't those that follow from the records: nothing is committed then. `replica` is
/// the replica's number; a crash leaves all of it or nothing.
pub fn turn<S: Alter>(
    alloc: Global,
    conn: &mut Connection<S>,
    id: &Uuid,
    replica: &i64,
    rows: &Rows1,
) -> Result<(), Error>
    requires idle { conn.old.in_transaction ≡ false }
    requires first { WhereClean S.Store conn.old (HasSchema schema1) }
    requires read { HasCleanDisk (state S.Store conn.old)
        → IsRead1 (tables_of S.Store conn.old) rows.now }
    ensures made { Commits S.Store conn.old conn.new result (IsTurned id.now replica.now) }
    ensures crash { Survives (state S.Store conn.old) (state S.Store conn.new)
        (IsTurned id.now replica.now (tables_of S.Store conn.old)) }
{
    let mut tx = conn.transaction();
    migrate_from_v1(alloc, &mut tx, id, replica, rows)?;
    tx.commit()
}

/// The rows of a store of format 1, where it is this archive's and replica's and its records are those of a lawful content. Nothing is
/// changed. Errors as `open_tables` has them.
pub fn open_rows<S: Alter>(
    alloc: Global,
    conn: &mut Connection<S>,
    id: &Uuid,
    number: ReplicaNo,
) -> Result<Rows1, StoreFault>
    requires rests { WhereClean S.Store conn.old IsOpenAndIdle }
    requires first { WhereClean S.Store conn.old (HasSchema schema1) }
    ensures { OpensV1 id.now number (state S.Store conn.old) (state S.Store conn.new) result }
{
    let told = judge(conn, id, number, 1)?;
    match told {
        Ok(()) => read_rows(alloc, conn),
        Err(fault) => Err(fault),
    }
}
