//! Learning a record.

ghost use Rattle.std.specs.Prelude.{◌≡◌, ◌<◌, pos, None, IfOk, IfErr, MatchResult};
ghost use Rattle.std.specs.Result.{IsOkAnd};
ghost use Rattle.std.specs.List.{list_any};
ghost use Rattle.sqlite.specs.State.{HasCleanDisk};
ghost use Rattle.sqlite.specs.Held.{state};
ghost use Rattle.records.specs.Same.{same_record};
ghost use Rattle.records.specs.Contents.{finding, Adds};
ghost use Rattle.records.specs.Spelling.{IsLawfulRecord};
ghost use Rattle.archive.specs.Store.{answer_to, store_fault_in};
ghost use Rattle.sql_tables.specs.Rows.{IsFilled};
ghost use Rattle.sql_tables.specs.Derived.{AreKept};
ghost use Rattle.sql_tables.specs.State.{Idles, LeavesUnchanged};
ghost use Rattle.sql_tables.specs.Learning.{IsLast, Learned, beyond, reached, is_added, flat, IsOwn, end_of};
ghost use Rattle.sql_tables.specs.Connections.{WhereClean, Sees, content_of};
ghost use Rattle.sql_archive.specs.Ends.{LacksEnd};

use archive::{LearnFault, StoreFault};
use records::{Record, RecordFault};
use sql_tables::{Name, decode_all, number_at, rows_last, rows_named, store_record, tick_at};
use sqlite::{Alter, Connection, Row};
use stamp::{GREATEST_TICK, ReplicaNo};
use std::alloc::Global;

/// What a record meets where its number isn't reached, by its origin's last number and tick.
fn beyond(held: u64, last: i64, candidate: &Record) -> Result<bool, LearnFault>
    requires { held < candidate.now.number }
    ensures meets { result ≡ answer_to (beyond held last candidate.now) }
    ensures own { store_fault_in result ≡ None }
{
    if candidate.number - held > 1 {
        return Err(LearnFault::Gap {
            held,
            got: candidate.number,
        });
    }
    if GREATEST_TICK < candidate.tick {
        return Err(LearnFault::TickTooFar);
    }
    if candidate.tick <= last {
        return Err(LearnFault::TickNotRising);
    }
    Ok(true)
}

/// What a record meets whose number is reached.
fn reached(same: bool) -> Result<bool, LearnFault>
    ensures meets { result ≡ answer_to (reached same) }
    ensures own { store_fault_in result ≡ None }
{
    if same {
        return Ok(false);
    }
    Err(LearnFault::Clash)
}

fn first_of(origin: ReplicaNo) -> Name
    ensures { result.origin ≡ pos origin }
{
    Name {
        origin: i64::from(origin.get()),
        number: 1,
    }
}

/// The number and the tick in the first of some rows of vectors, 0 and 0 where there is none.
fn end_of(rows: &[Row]) -> Result<(u64, i64), RecordFault>
    ensures last { IfOk result (λ last. last ≡ end_of rows.now) }
    ensures lacks { IfErr result (λ _. LacksEnd rows.now) }
{
    match rows.first() {
        Some(row) => {
            let number = number_at(row, 1)?;
            let tick = tick_at(row, 2)?;
            Ok((number, tick))
        }
        None => Ok((0, 0)),
    }
}

/// The last number and tick of an origin, which its row of vectors has: that is read, where the disk is honest.
fn last_told<S: Alter>(
    conn: &mut Connection<S>,
    origin: ReplicaNo,
) -> Result<Result<(u64, i64), RecordFault>, StoreFault>
    requires idles { WhereClean S.Store conn.old Idles }
    requires filled { WhereClean S.Store conn.old (Sees IsFilled) }
    requires kept { WhereClean S.Store conn.old (Sees AreKept) }
    ensures { LeavesUnchanged (state S.Store conn.old) (state S.Store conn.new) result
        (λ told. IsOkAnd told (IsLast (content_of S.Store conn.old) origin)) }
{
    let name = first_of(origin);
    let rows = rows_last(conn, &name)?;
    Ok(end_of(&rows))
}

/// The last number and tick of an origin.
#[tactic(auto, using(sql_reading::proofs::ReadableLemmas::never_opening))]
fn last_of<S: Alter>(conn: &mut Connection<S>, origin: ReplicaNo) -> Result<(u64, i64), StoreFault>
    requires idles { WhereClean S.Store conn.old Idles }
    requires filled { WhereClean S.Store conn.old (Sees IsFilled) }
    requires kept { WhereClean S.Store conn.old (Sees AreKept) }
    ensures { LeavesUnchanged (state S.Store conn.old) (state S.Store conn.new) result
        (IsLast (content_of S.Store conn.old) origin) }
{
    let told = last_told(conn, origin)?;
    let last = told?;
    Ok(last)
}

fn name_of(r: &Record) -> Name
    requires { IsLawfulRecord r.now }
    ensures { (result.origin ≡ pos r.now.origin) × (result.number ≡ pos r.now.number) }
{
    Name {
        origin: i64::from(r.origin.get()),
        number: r.number as i64,
    }
}

/// Whether two records are one.
#[tactic(auto, using(records::proofs::Equal::same_records))]
fn is_same(a: &Record, b: &Record) -> bool
    ensures { result ≡ same_record a.now b.now }
{
    *a == *b
}

fn is_among(records: &[Record], candidate: &Record) -> bool
    ensures { result ≡ list_any (same_record candidate.now) records.now }
{
    for held in records {
        if is_same(candidate, held) {
            return true;
        }
    }
    false
}

/// The records of a record's name: where the disk is honest, their rows are read, or memory for them is wanting.
fn records_named<S: Alter>(
    alloc: Global,
    conn: &mut Connection<S>,
    candidate: &Record,
) -> Result<Result<Vec<Record>, RecordFault>, StoreFault>
    requires idles { WhereClean S.Store conn.old Idles }
    requires filled { WhereClean S.Store conn.old (Sees IsFilled) }
    requires lawful { IsLawfulRecord candidate.now }
    ensures { LeavesUnchanged (state S.Store conn.old) (state S.Store conn.new) result
        (λ told. MatchResult told
        (λ all. list_any (same_record candidate.now) all.items
        ≡ list_any (same_record candidate.now) (content_of S.Store conn.old))
        (λ fault. fault ≡ RecordFault.OutOfMemory)) }
{
    let name = name_of(candidate);
    let rows = rows_named(conn, &name)?;
    Ok(decode_all(alloc, &rows))
}

/// Whether the record is held.
#[tactic(auto, using(sql_reading::proofs::ReadableLemmas::never_opening))]
fn is_held<S: Alter>(
    alloc: Global,
    conn: &mut Connection<S>,
    candidate: &Record,
) -> Result<bool, StoreFault>
    requires idles { WhereClean S.Store conn.old Idles }
    requires filled { WhereClean S.Store conn.old (Sees IsFilled) }
    requires lawful { IsLawfulRecord candidate.now }
    ensures { LeavesUnchanged (state S.Store conn.old) (state S.Store conn.new) result
        (λ b. b ≡ list_any (same_record candidate.now) (content_of S.Store conn.old)) }
{
    let told = records_named(alloc, conn, candidate)?;
    let records = told?;
    Ok(is_among(&records, candidate))
}

/// What a record meets.
fn judge<S: Alter>(
    alloc: Global,
    conn: &mut Connection<S>,
    candidate: &Record,
) -> Result<Result<bool, LearnFault>, StoreFault>
    requires idles { WhereClean S.Store conn.old Idles }
    requires filled { WhereClean S.Store conn.old (Sees IsFilled) }
    requires kept { WhereClean S.Store conn.old (Sees AreKept) }
    requires lawful { IsLawfulRecord candidate.now }
    ensures own { IsOwn result }
    ensures asked { LeavesUnchanged (state S.Store conn.old) (state S.Store conn.new) result
        (λ told. told ≡ answer_to (finding (content_of S.Store conn.old) candidate.now)) }
{
    let (held, last) = last_of(conn, candidate.origin)?;
    if candidate.number > held {
        return Ok(beyond(held, last, candidate));
    }
    let same = is_held(alloc, conn, candidate)?;
    Ok(reached(same))
}

/// Whether the answer is that the record is added.
fn is_added(told: &Result<bool, LearnFault>) -> bool
    ensures { result ≡ is_added told.now }
{
    match told {
        Ok(added) => *added,
        Err(_) => false,
    }
}

/// Stores a record that is added.
fn add<S: Alter>(
    alloc: Global,
    conn: &mut Connection<S>,
    candidate: &Record,
) -> Result<Result<bool, LearnFault>, StoreFault>
    requires idles { WhereClean S.Store conn.old Idles }
    requires filled { WhereClean S.Store conn.old (Sees IsFilled) }
    requires kept { WhereClean S.Store conn.old (Sees AreKept) }
    requires lawful { IsLawfulRecord candidate.now }
    requires next { HasCleanDisk (state S.Store conn.old)
        → finding (content_of S.Store conn.old) candidate.now ≡ Adds }
    ensures own { IsOwn result }
    ensures learned { Learned (state S.Store conn.old) (state S.Store conn.new)
        candidate.now result }
{
    match store_record(alloc, conn, candidate) {
        Ok(()) => Ok(Ok(true)),
        Err(fault) => Err(fault),
    }
}

/// Learns a record: it is judged, and stored where it is added.
pub(crate) fn learn_in<S: Alter>(
    alloc: Global,
    conn: &mut Connection<S>,
    candidate: &Record,
) -> Result<Result<bool, LearnFault>, StoreFault>
    requires idles { WhereClean S.Store conn.old Idles }
    requires filled { WhereClean S.Store conn.old (Sees IsFilled) }
    requires kept { WhereClean S.Store conn.old (Sees AreKept) }
    requires lawful { IsLawfulRecord candidate.now }
    ensures own { IsOwn result }
    ensures learned { Learned (state S.Store conn.old) (state S.Store conn.new)
        candidate.now result }
{
    let told = judge(alloc, conn, candidate)?;
    if is_added(&told) {
        return add(alloc, conn, candidate);
    }
    Ok(told)
}

/// A fault of the store as one of learning.
pub(crate) fn flat(answer: Result<Result<bool, LearnFault>, StoreFault>) -> Result<bool, LearnFault>
    ensures { result ≡ flat answer }
{
    match answer {
        Ok(told) => told,
        Err(fault) => Err(LearnFault::Store(fault)),
    }
}
