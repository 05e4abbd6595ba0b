//! What a list of records says of a node and a source time, by plain slow programs over a list whose
//! order is free.

ghost use Rattle.std.specs.Prelude.{◌≡◌, ℕ, List, [], ◌∷◌, ◌++◌, length, filter, MatchResult, IfSome, IfOk, IsTrue, ◌↔◌};
ghost use Rattle.stamp.specs.Numbers.{number_of};
ghost use Rattle.records.specs.Lists.{IsApart};
ghost use Rattle.records.specs.Records.{record_stamp_cmp, name_cmp, is_at, versions, live_value, held, modifications_at, entries_after, missing, is_beyond, is_delete, write, kind, entry, value_shown};
ghost use Rattle.std.specs.Prelude.{None};
ghost use Rattle.std.specs.Option.{option_copied};
ghost use Rattle.records.specs.Same.{same_node};
ghost use Rattle.records.specs.declared.fault.RecordFault.TheVariants as fault;

use crate::fault::RecordFault;
use crate::moment::Moment;
use crate::record::Record;
use crate::shown::{Entry, Held};
use stamp::Vector;
use std::alloc::{AllocError, Global};
use ua_binary::{Listing, NodeId, TryClone};
use ua_variant::{DataValue, HistoryUpdateType};

fn push_copy(found: &mut Vec<Record>, r: &Record) -> Result<(), AllocError>
    ensures { IfOk result (λ _. found.new.items ≡ found.old.items ++ r.now ∷ []) }
{
    found.push(r.try_clone()?)?;
    Ok(())
}

/// Whether two names are of one node.
#[tactic(auto, using(crate::proofs::Equal::same_nodes))]
fn same_node(a: &NodeId, b: &NodeId) -> bool
    ensures { result ≡ same_node a.now b.now }
{
    *a == *b
}

impl Record {
    ghost use Rattle.records.specs.Records.{is_at};

    fn is_at(&self, node: &NodeId, time: Moment) -> bool
        ensures { result ≡ is_at node.now time self.now }
    {
        self.time == time && same_node(&self.node, node)
    }
}

/// The records at a node and source time, in the order of the list.
fn found_at(
    alloc: Global,
    records: &[Record],
    node: &NodeId,
    time: Moment,
) -> Result<Vec<Record>, AllocError>
    ensures { IfOk result (λ v. v.items ≡ filter (is_at node.now time) records.now) }
{
    let mut found = Vec::new(alloc);
    for r in records {
        if r.is_at(node, time) {
            push_copy(&mut found, r)?;
        }
    }
    Ok(found)
}

/// The records at a node and source time, in the order of their stamps, in a `Vec`.
fn sorted_at(
    alloc: Global,
    records: &[Record],
    node: &NodeId,
    time: Moment,
) -> Result<Vec<Record>, AllocError>
    requires { IsApart record_stamp_cmp records.now }
    ensures { IfOk result (λ v. v.items ≡ versions records.now node.now time) }
{
    let mut found = found_at(alloc, records, node, time)?;
    found.sort_by_key(|r| (r.tick, r.origin))?;
    Ok(found)
}

/// The records at a node and a source time, in the order of their stamps. The records' order is free;
/// no two of them have one stamp. The one error is `OutOfMemory`.
pub fn story_of(
    alloc: Global,
    records: &[Record],
    node: &NodeId,
    time: Moment,
) -> Result<Listing<Record>, RecordFault>
    requires { IsApart record_stamp_cmp records.now }
    ensures { MatchResult result (λ v. v ≡ versions records.now node.now time)
        (λ e. e ≡ fault.OutOfMemory) }
{
    let story = sorted_at(alloc, records, node, time)?;
    Ok(Listing::of(story))
}

/// What a story leaves: the value of its last record, unless that is a delete. The records are those of one node and source
/// time, in the order of their stamps.
pub fn held_of(mut story: Vec<Record>) -> Option<Held>
    ensures { result ≡ held story.items }
{
    let extra = story.len() > 1;
    let r = story.pop()?;
    if r.asked == HistoryUpdateType::Delete {
        return None;
    }
    Some(Held {
        time: r.time,
        value: r.value,
        extra,
    })
}

/// The live value at a node and a source time, if there is one: that of the record with the greatest
/// stamp, unless that is a delete. The records' order is free; no two of them have one stamp. The one
/// error is `OutOfMemory`.
pub fn current_of(
    alloc: Global,
    records: &[Record],
    node: &NodeId,
    time: Moment,
) -> Result<Option<Held>, RecordFault>
    requires { IsApart record_stamp_cmp records.now }
    ensures { MatchResult result (λ v. v ≡ live_value records.now node.now time)
        (λ e. e ≡ fault.OutOfMemory) }
{
    let story = sorted_at(alloc, records, node, time)?;
    Ok(held_of(story))
}

/// The record, where it is a write.
fn write_of(before: Option<&Record>) -> Option<&Record>
    ensures { option_copied result ≡ write (option_copied before.entry) }
{
    match before {
        Some(r) if r.asked != HistoryUpdateType::Delete => Some(r),
        _ => None,
    }
}

/// What a record did, behind the write right before it.
fn kind_of(before: Option<&Record>, asked: HistoryUpdateType) -> HistoryUpdateType
    ensures { result ≡ kind (option_copied before.entry) asked }
{
    match (before, asked) {
        (_, HistoryUpdateType::Delete) => HistoryUpdateType::Delete,
        (None, _) => HistoryUpdateType::Insert,
        (Some(_), HistoryUpdateType::Update) => HistoryUpdateType::Update,
        (Some(_), _) => HistoryUpdateType::Replace,
    }
}

/// The value that a record shows, behind the write right before it.
fn value_shown(before: Option<&Record>, r: &Record) -> Result<Option<DataValue>, AllocError>
    ensures { IfOk result (λ v. v ≡ value_shown (option_copied before.entry) r.now) }
{
    match before {
        Some(w) => Ok(Some(w.value.try_clone()?)),
        None if r.asked == HistoryUpdateType::Delete => Ok(None),
        None => Ok(Some(r.value.try_clone()?)),
    }
}

/// A record as it is shown, behind the write right before it.
fn entry_of(before: Option<&Record>, r: &Record) -> Result<Entry, AllocError>
    ensures { IfOk result (λ e. e ≡ entry (option_copied before.entry) r.now) }
{
    let user = r.user.try_clone()?;
    let value = value_shown(before, r)?;
    Ok(Entry {
        time: r.time,
        value,
        kind: kind_of(before, r.asked),
        tick: r.tick,
        origin: r.origin,
        user,
    })
}

/// Each record of a story as it is shown, behind the record before it. The records are those of one node and source time, in
/// the order of their stamps.
pub fn entries_in(alloc: Global, story: &[Record]) -> Result<Vec<Entry>, AllocError>
    ensures { IfOk result (λ shown. shown.items ≡ entries_after None story.now) }
{
    let mut shown = Vec::new(alloc);
    let mut before = None;
    for r in story {
        shown.push(entry_of(write_of(before), r)?)?;
        before = Some(r);
    }
    Ok(shown)
}

/// The modifications at a node and a source time, the oldest first: one for each record there. The
/// records' order is free; no two of them have one stamp. The one error is `OutOfMemory`.
pub fn entries_of(
    alloc: Global,
    records: &[Record],
    node: &NodeId,
    time: Moment,
) -> Result<Listing<Entry>, RecordFault>
    requires { IsApart record_stamp_cmp records.now }
    ensures { MatchResult result (λ v. v ≡ modifications_at records.now node.now time)
        (λ e. e ≡ fault.OutOfMemory) }
{
    let story = sorted_at(alloc, records, node, time)?;
    let shown = entries_in(alloc, &story)?;
    Ok(Listing::of(shown))
}

impl Record {
    ghost use Rattle.records.specs.Records.{is_beyond};

    fn is_beyond(&self, vector: &Vector) -> bool
        ensures { result ≡ is_beyond (number_of vector.now) self.now }
    {
        vector.get(self.origin) < self.number
    }
}

/// The records beyond a vector, in the order of the list.
fn beyond(alloc: Global, records: &[Record], vector: &Vector) -> Result<Vec<Record>, AllocError>
    ensures { IfOk result (λ v. v.items ≡ filter (is_beyond (number_of vector.now)) records.now) }
{
    let mut found = Vec::new(alloc);
    for r in records {
        if r.is_beyond(vector) {
            push_copy(&mut found, r)?;
        }
    }
    Ok(found)
}

/// The first records beyond a vector, by origin and number, and at most `limit` of them. The records'
/// order is free; no two of them have one name. The one error is `OutOfMemory`.
pub fn missing_of(
    alloc: Global,
    records: &[Record],
    vector: &Vector,
    limit: usize,
) -> Result<Listing<Record>, RecordFault>
    requires { IsApart name_cmp records.now }
    ensures { MatchResult result (λ v. v ≡ missing records.now (number_of vector.now) limit)
        (λ e. e ≡ fault.OutOfMemory) }
{
    let mut found = beyond(alloc, records, vector)?;
    found.sort_by_key(|r| (r.origin, r.number))?;
    found.truncate(limit);
    Ok(Listing::of(found))
}
