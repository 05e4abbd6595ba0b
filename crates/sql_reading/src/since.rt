//! The records that a vector lacks: one query for each origin that has some.

ghost use Rattle.std.specs.Prelude.{◌≡◌, ◌≤◌, ◌<◌, ◌⊎◌, ◌++◌, pos, length, take, Some, None, IfOk, IfErr};
ghost use Rattle.sqlite.specs.State.{HasCleanDisk};
ghost use Rattle.sqlite.specs.Held.{state};
ghost use Rattle.sqlite_value.specs.declared.value.Value.TheVariants as value;
ghost use Rattle.sqlite_sql.specs.Query.{as_count};
ghost use Rattle.stamp.specs.Limits.{greatest, IsReplica};
ghost use Rattle.stamp.specs.Numbers.{number_of};
ghost use Rattle.records.specs.Records.{missing};
ghost use Rattle.sql_tables.specs.Rows.{IsFilled};
ghost use Rattle.sql_reading.specs.Lacked.{records_after, lacked_of};
ghost use Rattle.sql_tables.specs.State.{Idles, LeavesUnchanged};
ghost use Rattle.sql_tables.specs.Connections.{WhereClean, Sees, content_of};
ghost use Rattle.sql_reading.specs.Connections.{AreLastNumbers};

use crate::currents::count_of;
use archive::StoreFault;
use records::Record;
use sql_tables::{RowsAfter, decode_all, rows_behind};
use sqlite::{Alter, Connection};
use stamp::{ReplicaNo, Vector};
use std::alloc::Global;

/// Which records are asked: those that a vector lacks, up to `limit` in all; `own` is the vector of what is
/// held.
#[derive(Clone, Copy, Debug)]
struct Lacking<'a> {
    own: &'a Vector,
    vector: &'a Vector,
    limit: usize,
}

/// The rows of an origin behind a number, as many as are wanted, or all where SQL has no such count.
fn behind(origin: ReplicaNo, number: u64, wanted: usize) -> RowsAfter
    requires { number ≤ greatest }
    ensures origin { result.origin ≡ pos origin }
    ensures number { result.number ≡ pos number }
    ensures count { (as_count (value.Int result.count) ≡ None)
        ⊎ (as_count (value.Int result.count) ≡ Some wanted) }
{
    RowsAfter {
        origin: i64::from(origin.get()),
        number: number as i64,
        count: count_of(wanted),
    }
}

/// Puts records behind others, and keeps the first `limit` of them.
fn push_all(found: &mut Vec<Record>, mut more: Vec<Record>, limit: usize) -> Result<(), StoreFault>
    ensures value { IfOk result
        (λ _. found.new.items ≡ take limit (found.old.items ++ more.items)) }
    ensures memory { IfErr result (λ e. e ≡ StoreFault.OutOfMemory) }
{
    match found.append(&mut more) {
        Ok(()) => {}
        Err(_) => return Err(StoreFault::OutOfMemory),
    }
    found.truncate(limit);
    Ok(())
}

/// Puts the records of an origin behind a number behind others, up to `limit` in all.
fn push_behind<S: Alter>(
    conn: &mut Connection<S>,
    found: &mut Vec<Record>,
    origin: ReplicaNo,
    number: u64,
    limit: usize,
) -> Result<(), StoreFault>
    requires idles { WhereClean S.Store conn.old Idles }
    requires filled { WhereClean S.Store conn.old (Sees IsFilled) }
    requires number { number ≤ greatest }
    requires room { length found.old.items < limit }
    ensures { LeavesUnchanged (state S.Store conn.old) (state S.Store conn.new) result
        (λ _. found.new.items ≡ take limit (found.old.items
        ++ records_after (content_of S.Store conn.old) origin number)) }
{
    let asked = behind(origin, number, limit - found.len());
    let rows = rows_behind(conn, &asked)?;
    let more = decode_all(*found.allocator(), &rows)?;
    push_all(found, more, limit)
}

/// Puts the records of an origin that a vector lacks behind others, up to `limit` in all.
fn push_lacked<S: Alter>(
    conn: &mut Connection<S>,
    found: &mut Vec<Record>,
    number: u8,
    lacking: &Lacking<'_>,
) -> Result<(), StoreFault>
    requires idles { WhereClean S.Store conn.old Idles }
    requires filled { WhereClean S.Store conn.old (Sees IsFilled) }
    requires own { HasCleanDisk (state S.Store conn.old)
        → AreLastNumbers lacking.now.own.now (content_of S.Store conn.old) }
    requires replica { IsReplica number }
    requires room { length found.old.items < lacking.now.limit }
    ensures { LeavesUnchanged (state S.Store conn.old) (state S.Store conn.new) result
        (λ _. found.new.items ≡ take lacking.now.limit (found.old.items
        ++ lacked_of (content_of S.Store conn.old) (number_of lacking.now.vector.now) number)) }
{
    let Some(origin) = ReplicaNo::new(number) else {
        return Ok(());
    };
    let held = lacking.vector.get(origin);
    if lacking.own.covers(origin, held + 1) {
        return push_behind(conn, found, origin, held, lacking.limit);
    }
    Ok(())
}

/// The first `limit` of the records that a vector lacks, by origin and number; `own` is the vector of
/// what is held.
pub fn records_since<S: Alter>(
    alloc: Global,
    conn: &mut Connection<S>,
    own: &Vector,
    vector: &Vector,
    limit: usize,
) -> Result<Vec<Record>, StoreFault>
    requires idles { WhereClean S.Store conn.old Idles }
    requires filled { WhereClean S.Store conn.old (Sees IsFilled) }
    requires own { HasCleanDisk (state S.Store conn.old)
        → AreLastNumbers own.now (content_of S.Store conn.old) }
    ensures { LeavesUnchanged (state S.Store conn.old) (state S.Store conn.new) result
        (λ v. v.items ≡ missing (content_of S.Store conn.old) (number_of vector.now) limit) }
{
    let lacking = Lacking { own, vector, limit };
    let mut found = Vec::new(alloc);
    for number in 1..65u8 {
        if found.len() >= limit {
            return Ok(found);
        }
        push_lacked(conn, &mut found, number, &lacking)?;
    }
    Ok(found)
}
