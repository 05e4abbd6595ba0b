//! The writes of a record.

ghost use Rattle.std.specs.Prelude.{◌≡◌, ◌≢◌, false, IfOk, IfErr, IsTrue};
ghost use Rattle.sqlite.specs.State.{HasCleanDisk, Survives};
ghost use Rattle.sqlite.specs.Held.{state};
ghost use Rattle.archive.specs.Store.{IsOfOpening};
ghost use Rattle.sql_tables.specs.Words.{cells, row_of_cells};
ghost use Rattle.sql_tables.specs.Derived.{AreKept, IsNextRow};
ghost use Rattle.sql_tables.specs.Keeping.{HasNoneOf};
ghost use Rattle.sql_tables.specs.State.{Adds, LeavesUnchanged, Idles, KeepsState};
ghost use Rattle.ua_binary.specs.Binary.{node_id, IsShortNode};
ghost use Rattle.ua_variant.specs.DataValue.{data_value, IsShortData};
ghost use Rattle.records.specs.Spelling.{IsLawfulRecord};
ghost use Rattle.sql_tables.specs.Rows.{row_of};
ghost use Rattle.sql_tables.specs.Learning.{Stored};
ghost use Rattle.sql_tables.specs.Connections.{WhereClean, Sees, tables_of, CommitsArchive};

use crate::insert::keep;
use crate::integrity::are_none;
use crate::statements::{fault_of, select};
use archive::StoreFault;
use records::Record;
use sqlite::{Alter, Connection, params};
use std::alloc::Global;
use ua_binary::{NodeId, put_node_id};
use ua_variant::{DataValue, put_data_value};

/// A record as its row has it.
#[derive(Debug, Drop)]
pub struct Cells {
    pub origin: i64,
    pub number: i64,
    pub tick: i64,
    pub node: Vec<u8>,
    pub time: i64,
    pub pico: i64,
    pub asked: i64,
    pub who: Vec<u8>,
    pub value: Vec<u8>,
}

/// Whether no record stands at a record's node and time.
fn is_first<S: Alter>(conn: &mut Connection<S>, r: &Cells) -> Result<bool, StoreFault>
    requires { WhereClean S.Store conn.old Idles }
    ensures { LeavesUnchanged (state S.Store conn.old) (state S.Store conn.new) result
        (λ first. (IsTrue first → HasNoneOf r.now.node.items r.now.time r.now.pico
        (cells (tables_of S.Store conn.old 1)))
        × (first ≡ false → HasNoneOf r.now.node.items r.now.time r.now.pico
        (cells (tables_of S.Store conn.old 1)) → ⊥)) }
{
    let rows = select(
        conn,
        "SELECT origin FROM records2 WHERE node = ?1 AND time = ?2 AND pico = ?3 LIMIT 1",
        params![&r.node, &r.time, &r.pico],
    )?;
    Ok(are_none(&rows))
}

/// Adds a record with the rows that follow, in one commit; `first` tells that no other stands at its node and
/// time. A connection that is inside a transaction is refused: none is where the disk is honest.
fn write_cells<S: Alter>(conn: &mut Connection<S>, r: &Cells, first: bool) -> Result<(), StoreFault>
    requires idles { WhereClean S.Store conn.old Idles }
    requires kept { WhereClean S.Store conn.old (Sees AreKept) }
    requires next { WhereClean S.Store conn.old (Sees (IsNextRow (row_of_cells r.now))) }
    requires none { IsTrue first → HasCleanDisk (state S.Store conn.old)
        → HasNoneOf r.now.node.items r.now.time r.now.pico (cells (tables_of S.Store conn.old 1)) }
    ensures added { CommitsArchive S.Store conn.old conn.new result (Adds (row_of_cells r.now)) }
    ensures refused { HasCleanDisk (state S.Store conn.new)
        → IfErr result
        (λ fault. fault ≢ StoreFault.Broken
        → KeepsState (state S.Store conn.old) (state S.Store conn.new)) }
    ensures met { IfErr result (λ fault. IsOfOpening fault → ⊥) }
    ensures crash { Survives (state S.Store conn.old) (state S.Store conn.new)
        (Adds (row_of_cells r.now) (tables_of S.Store conn.old)) }
{
    if !conn.is_autocommit() {
        return Err(StoreFault::Refused);
    }
    match keep(conn, r, first) {
        Ok(()) => Ok(()),
        Err(why) => Err(fault_of(conn, why.error())),
    }
}

/// Adds a record with the rows that follow, in one commit.
pub(crate) fn store_cells<S: Alter>(conn: &mut Connection<S>, r: &Cells) -> Result<(), StoreFault>
    requires idles { WhereClean S.Store conn.old Idles }
    requires kept { WhereClean S.Store conn.old (Sees AreKept) }
    requires next { WhereClean S.Store conn.old (Sees (IsNextRow (row_of_cells r.now))) }
    ensures added { CommitsArchive S.Store conn.old conn.new result (Adds (row_of_cells r.now)) }
    ensures refused { HasCleanDisk (state S.Store conn.new)
        → IfErr result
        (λ fault. fault ≢ StoreFault.Broken
        → KeepsState (state S.Store conn.old) (state S.Store conn.new)) }
    ensures met { IfErr result (λ fault. IsOfOpening fault → ⊥) }
    ensures crash { Survives (state S.Store conn.old) (state S.Store conn.new)
        (Adds (row_of_cells r.now) (tables_of S.Store conn.old)) }
{
    let first = is_first(conn, r)?;
    write_cells(conn, r, first)
}

fn copy(alloc: Global, bytes: &[u8]) -> Result<Vec<u8>, StoreFault>
    ensures copied { IfOk result (λ b. b.items ≡ bytes.now) }
    ensures met { IfErr result (λ fault. fault ≡ StoreFault.OutOfMemory) }
{
    let mut out = Vec::new(alloc);
    out.extend_from_slice(bytes)?;
    Ok(out)
}

fn node_bytes(alloc: Global, node: &NodeId) -> Result<Vec<u8>, StoreFault>
    requires { IsShortNode node.now }
    ensures spelled { IfOk result (λ b. b.items ≡ node_id.canon node.now) }
    ensures met { IfErr result (λ fault. fault ≡ StoreFault.OutOfMemory) }
{
    let mut out = Vec::new(alloc);
    match put_node_id(&mut out, node) {
        Ok(()) => Ok(out),
        Err(_) => Err(StoreFault::OutOfMemory),
    }
}

fn value_bytes(alloc: Global, value: &DataValue) -> Result<Vec<u8>, StoreFault>
    requires { IsShortData value.now }
    ensures spelled { IfOk result (λ b. b.items ≡ data_value.canon value.now) }
    ensures met { IfErr result (λ fault. fault ≡ StoreFault.OutOfMemory) }
{
    let mut out = Vec::new(alloc);
    match put_data_value(&mut out, value) {
        Ok(()) => Ok(out),
        Err(_) => Err(StoreFault::OutOfMemory),
    }
}

/// A record as its row has it; the only error is `OutOfMemory`.
#[tactic(auto, using(crate::proofs::LearnLemmas::short_enough))]
fn make_cells(alloc: Global, r: &Record) -> Result<Cells, StoreFault>
    requires { IsLawfulRecord r.now }
    ensures row { IfOk result (λ c. row_of_cells c ≡ row_of r.now) }
    ensures met { IfErr result (λ fault. fault ≡ StoreFault.OutOfMemory) }
{
    let number = r.number as i64;
    let node = node_bytes(alloc, &r.node)?;
    let who = copy(alloc, r.user.as_str().as_bytes())?;
    let value = value_bytes(alloc, &r.value)?;
    Ok(Cells {
        origin: i64::from(r.origin.get()),
        number,
        tick: r.tick,
        node,
        time: r.time.ticks(),
        pico: i64::from(r.time.pico()),
        asked: i64::from(r.asked.number()),
        who,
        value,
    })
}

/// Adds a record with the rows that follow from it, in one commit. Behind any other fault than `Broken` the tables are as they were,
/// and a crash leaves them with all of it or nothing.
pub fn store_record<S: Alter>(
    alloc: Global,
    conn: &mut Connection<S>,
    r: &Record,
) -> Result<(), StoreFault>
    requires idles { WhereClean S.Store conn.old Idles }
    requires kept { WhereClean S.Store conn.old (Sees AreKept) }
    requires lawful { IsLawfulRecord r.now }
    requires next { WhereClean S.Store conn.old (Sees (IsNextRow (row_of r.now))) }
    ensures { Stored (state S.Store conn.old) (state S.Store conn.new) r.now result }
{
    let row = make_cells(alloc, r)?;
    store_cells(conn, &row)
}
