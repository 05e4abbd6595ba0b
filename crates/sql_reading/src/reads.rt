//! Stories, by the rows of a node and a time.

ghost use Rattle.records.specs.Spelling.{longest};
ghost use Rattle.std.specs.Prelude.{◌≡◌, ◌<◌, length, None, IfSome, IfOk, IfErr};
ghost use Rattle.sqlite.specs.Held.{state};
ghost use Rattle.ua_binary.specs.Binary.{node_id, IsNodeId};
ghost use Rattle.records.specs.Records.{versions};
ghost use Rattle.sql_tables.specs.Rows.{IsFilled};
ghost use Rattle.sql_tables.specs.State.{Idles, LeavesUnchanged};
ghost use Rattle.sql_tables.specs.Connections.{WhereClean, Sees, content_of};

use archive::StoreFault;
use records::{Moment, Record};
use sql_tables::{decode_all, place_of, rows_at};
use sqlite::{Alter, Connection};
use std::alloc::Global;
use ua_binary::{Encode, NodeId, put_node_id};

/// The records of one time.
#[derive(Debug, Drop)]
pub(crate) struct Story {
    pub(crate) time: Moment,
    pub(crate) records: Vec<Record>,
}

/// The spelling of a node, where it isn't too long for a record.
pub(crate) fn spelled_node(alloc: Global, node: &NodeId) -> Result<Option<Vec<u8>>, StoreFault>
    ensures spelled { IfOk result
        (λ found. IfSome found (λ b. (b.items ≡ node_id.canon node.now) × IsNodeId node.now)) }
    ensures long { IfOk result (λ found. found ≡ None → longest < length (node_id.canon node.now)) }
    ensures met { IfErr result (λ fault. fault ≡ StoreFault.OutOfMemory) }
{
    if node.size() > 1_048_578 {
        return Ok(None);
    }
    let _spelled = node.as_ref();
    let mut out = Vec::new(alloc);
    match put_node_id(&mut out, node) {
        Ok(()) => Ok(Some(out)),
        Err(_) => Err(StoreFault::OutOfMemory),
    }
}

/// The records of a node, by its spelling, and a time, by their stamps.
pub(crate) fn story_at<S: Alter>(
    alloc: Global,
    conn: &mut Connection<S>,
    node: &NodeId,
    bytes: &[u8],
    time: Moment,
) -> Result<Vec<Record>, StoreFault>
    requires idles { WhereClean S.Store conn.old Idles }
    requires filled { WhereClean S.Store conn.old (Sees IsFilled) }
    requires spelled { bytes.now ≡ node_id.canon node.now }
    requires lawful { IsNodeId node.now }
    ensures { LeavesUnchanged (state S.Store conn.old) (state S.Store conn.new) result
        (λ v. v.items ≡ versions (content_of S.Store conn.old) node.now time) }
{
    let place = place_of(time);
    let rows = rows_at(conn, bytes, &place)?;
    Ok(decode_all(alloc, &rows)?)
}

/// The records of a node and a time, by their stamps.
pub fn records_at<S: Alter>(
    alloc: Global,
    conn: &mut Connection<S>,
    node: &NodeId,
    time: Moment,
) -> Result<Vec<Record>, StoreFault>
    requires idles { WhereClean S.Store conn.old Idles }
    requires filled { WhereClean S.Store conn.old (Sees IsFilled) }
    ensures { LeavesUnchanged (state S.Store conn.old) (state S.Store conn.new) result
        (λ v. v.items ≡ versions (content_of S.Store conn.old) node.now time) }
{
    match spelled_node(alloc, node)? {
        Some(bytes) => story_at(alloc, conn, node, &bytes, time),
        None => Ok(Vec::new(alloc)),
    }
}
