//! An archive in memory, as one list of records.

ghost use Rattle.std.specs.Prelude.{◌≡◌, ◌≤◌, not, ◌++◌, ◌∷◌, ℕ, [], length, take, filter, map, reverse, IfOk, IfErr, OnOk, OnErr};
ghost use Rattle.std.specs.List.{insert, filter_map, flat_map, cons_option, list_any};
ghost use Rattle.stamp.specs.Numbers.{number_of};
ghost use Rattle.records.specs.Lists.{Has, IsApart};
ghost use Rattle.records.specs.declared.record.Record.{Record};
ghost use Rattle.stamp.specs.Limits.{greatest};
ghost use Rattle.records.specs.Records.{record_stamp_cmp, name_cmp, live_value, modifications_at, versions, missing, is_beyond};
ghost use Rattle.records.specs.Contents.{Content, vec, top, last_tick, put, finding, cut};
ghost use Rattle.records.specs.Same.{same_record, same_node};
ghost use Rattle.archive.specs.Reading.{is_of, times, lives, log, in_direction, is_between, is_past, follows, range_of, log_of, outside_of};
ghost use Rattle.archive.specs.Store.{IsLawfulContent, answer_to};
ghost use Rattle.archive.specs.Listed.{tick_from};
ghost use Rattle.archive.specs.declared.fault.StoreFault.TheVariants as store;

use crate::archive::Archive;
use crate::fault::{LearnFault, StoreFault};
use crate::reading::{Direction, LogPlace};
use records::{Entry, Held, Moment, Record, current_of, entries_of, missing_of, story_of};
use stamp::{GREATEST_TICK, ReplicaNo, Stamp, Vector};
use std::alloc::Global;
use std::marker::Model;
use ua_binary::{NodeId, TryClone};
use uuid::Uuid;

/// The records of one replica in memory, as one list in the order of their names, which each query
/// filters and sorts. Its one fault of the store is `OutOfMemory`.
#[derive(Debug, Drop)]
pub struct ListArchive {
    id: Uuid,
    number: ReplicaNo,
    records: Vec<Record>,
    faults: u64,
}

impl Model for ListArchive {
    ghost use Rattle.archive.specs.Listed.{Listed};
    ghost use Rattle.archive.specs.Store.{IsLawfulContent};

    ghost Value = { Listed };

    ghost view = { λ a.
        record { id = a.id; number = a.number; records = a.records.items; faults = a.faults } };

    ghost invariant = { λ a. IsLawfulContent a.records.items };
}

impl ListArchive {
    ghost use Rattle.std.specs.Prelude.{[], ◌≡◌};

    /// An archive of this id and replica that holds nothing; it takes no memory.
    pub fn new(alloc: Global, id: Uuid, number: ReplicaNo) -> ListArchive
        ensures { result ≡ record { id = id; number = number; records = []; faults = 0 } }
    {
        ListArchive {
            id,
            number,
            records: Vec::new(alloc),
            faults: 0,
        }
    }
}

/// The number of each replica's last record.
fn vector_of(records: &[Record]) -> Vector
    requires { IsLawfulContent records.now }
    ensures { (replica : ℕ) → number_of result replica ≡ vec records.now replica }
{
    let mut vector = Vector::new();
    for r in records {
        vector.raise(r.origin, r.number);
    }
    vector
}

/// The greatest tick of all records, 0 where there is none.
fn top_of(records: &[Record]) -> i64
    ensures { result ≡ top records.now }
{
    let mut top = 0i64;
    for r in records {
        top = top.max(r.tick);
    }
    top
}

/// The record's tick, where it is of this origin.
fn tick_from(origin: ReplicaNo, r: &Record) -> i64
    ensures { result ≡ tick_from origin r.now }
{
    if r.origin == origin { r.tick } else { 0 }
}

/// The greatest tick of an origin's records, 0 where there is none.
fn last_tick_of(records: &[Record], origin: ReplicaNo) -> i64
    ensures { result ≡ last_tick records.now origin }
{
    let mut last = 0i64;
    for r in records {
        last = last.max(tick_from(origin, r));
    }
    last
}

/// Whether two records are one.
#[tactic(auto, using(records::proofs::Equal::same_records))]
fn is_same(a: &Record, b: &Record) -> bool
    ensures { result ≡ same_record a.now b.now }
{
    *a == *b
}

/// Whether the record is held.
fn holds(records: &[Record], candidate: &Record) -> bool
    ensures { result ≡ list_any (same_record candidate.now) records.now }
{
    for held in records {
        if is_same(candidate, held) {
            return true;
        }
    }
    false
}

/// Where a record goes in the order of names.
fn place_of(records: &[Record], candidate: &Record) -> usize
    ensures within { result ≤ length records.now }
    ensures place { insert records.now result candidate.now ≡ put candidate.now records.now }
{
    for (i, held) in records.iter().enumerate() {
        if (candidate.origin, candidate.number) <= (held.origin, held.number) {
            return i;
        }
    }
    records.len()
}

/// What a record that is to be learned meets.
fn judge(records: &[Record], candidate: &Record) -> Result<bool, LearnFault>
    requires { IsLawfulContent records.now }
    ensures { result ≡ answer_to (finding records.now candidate.now) }
{
    let held = vector_of(records).get(candidate.origin);
    if candidate.number <= held {
        if holds(records, candidate) {
            return Ok(false);
        }
        return Err(LearnFault::Clash);
    }
    if held + 1 < candidate.number {
        return Err(LearnFault::Gap {
            held,
            got: candidate.number,
        });
    }
    if GREATEST_TICK < candidate.tick {
        return Err(LearnFault::TickTooFar);
    }
    if candidate.tick <= last_tick_of(records, candidate.origin) {
        return Err(LearnFault::TickNotRising);
    }
    Ok(true)
}

/// Puts a copy of a record among the others.
fn put(records: &mut Vec<Record>, candidate: &Record) -> Result<(), StoreFault>
    ensures added { OnOk result (records.new.items ≡ put candidate.now records.old.items) }
    ensures memory { IfErr result (λ e. e ≡ store.OutOfMemory) }
    ensures kept { OnErr result (records.new.items ≡ records.old.items) }
{
    let copy = candidate.try_clone()?;
    let place = place_of(records, candidate);
    match records.insert(place, copy) {
        Ok(()) => Ok(()),
        Err(_) => Err(StoreFault::OutOfMemory),
    }
}

/// Whether a record is of this node.
#[tactic(auto, using(records::proofs::Equal::same_nodes))]
fn is_of(node: &NodeId, r: &Record) -> bool
    ensures { result ≡ is_of node.now r.now }
{
    r.node == *node
}

fn push<T: Drop>(list: &mut Vec<T>, item: T) -> Result<(), StoreFault>
    ensures value { IfOk result (λ _. list.new.items ≡ list.old.items ++ item ∷ []) }
    ensures memory { IfErr result (λ e. e ≡ store.OutOfMemory) }
{
    match list.push(item) {
        Ok(()) => Ok(()),
        Err(_) => Err(StoreFault::OutOfMemory),
    }
}

/// The source times at which a node has records, in order, each once.
fn times_of(alloc: Global, records: &[Record], node: &NodeId) -> Result<Vec<Moment>, StoreFault>
    ensures value { IfOk result (λ v. v.items ≡ times records.now node.now) }
    ensures memory { IfErr result (λ e. e ≡ store.OutOfMemory) }
{
    let mut found = Vec::new(alloc);
    for r in records {
        if is_of(node, r) {
            push(&mut found, r.time)?;
        }
    }
    found.sort()?;
    found.dedup();
    Ok(found)
}

fn push_held(found: &mut Vec<Held>, held: Option<Held>) -> Result<(), StoreFault>
    ensures value { IfOk result (λ _. found.new.items ≡ found.old.items ++ cons_option held []) }
    ensures memory { IfErr result (λ e. e ≡ store.OutOfMemory) }
{
    match held {
        Some(held) => push(found, held),
        None => Ok(()),
    }
}

/// The live values at these source times.
fn lives_at(
    alloc: Global,
    records: &[Record],
    node: &NodeId,
    times: &[Moment],
) -> Result<Vec<Held>, StoreFault>
    requires { IsApart record_stamp_cmp records.now }
    ensures value { IfOk result (λ v. v.items ≡ filter_map (live_value records.now node.now) times.now) }
    ensures memory { IfErr result (λ e. e ≡ store.OutOfMemory) }
{
    let mut found = Vec::new(alloc);
    for time in times {
        push_held(&mut found, current_of(alloc, records, node, *time)?)?;
    }
    Ok(found)
}

/// A node's live values, forward.
fn lives_of(alloc: Global, records: &[Record], node: &NodeId) -> Result<Vec<Held>, StoreFault>
    requires { IsApart record_stamp_cmp records.now }
    ensures value { IfOk result (λ v. v.items ≡ lives records.now node.now) }
    ensures memory { IfErr result (λ e. e ≡ store.OutOfMemory) }
{
    let times = times_of(alloc, records, node)?;
    lives_at(alloc, records, node, &times)
}

/// A node's modifications at these source times, within a time the newest first.
fn log_at(
    alloc: Global,
    records: &[Record],
    node: &NodeId,
    times: &[Moment],
) -> Result<Vec<Entry>, StoreFault>
    requires { IsApart record_stamp_cmp records.now }
    ensures value { IfOk result
        (λ v. v.items
        ≡ flat_map (λ t. reverse (modifications_at records.now node.now t)) times.now) }
    ensures memory { IfErr result (λ e. e ≡ store.OutOfMemory) }
{
    let mut log = Vec::new(alloc);
    for time in times {
        let mut shown = entries_of(alloc, records, node, *time)?.into_vec();
        shown.reverse();
        log.append(&mut shown)?;
    }
    Ok(log)
}

/// A node's modifications, forward.
fn log_of_node(alloc: Global, records: &[Record], node: &NodeId) -> Result<Vec<Entry>, StoreFault>
    requires { IsApart record_stamp_cmp records.now }
    ensures value { IfOk result (λ v. v.items ≡ log records.now node.now) }
    ensures memory { IfErr result (λ e. e ≡ store.OutOfMemory) }
{
    let times = times_of(alloc, records, node)?;
    log_at(alloc, records, node, &times)
}

fn turn<T>(direction: Direction, items: &mut Vec<T>)
    ensures { items.new.items ≡ in_direction direction items.old.items }
{
    if direction == Direction::Backward {
        items.reverse();
    }
}

fn keep_lives_between(found: &mut Vec<Held>, from: Moment, to: Moment)
    ensures { found.new.items ≡ filter (λ h. is_between from to h.time) found.old.items }
{
    found.retain(|h| from <= h.time && h.time <= to);
}

fn keep_lives_past(found: &mut Vec<Held>, direction: Direction, limit: Moment)
    ensures { found.new.items ≡ filter (λ h. is_past direction limit h.time) found.old.items }
{
    found.retain(|h| direction.is_past(limit, h.time));
}

fn keep_entries_between(found: &mut Vec<Entry>, from: Moment, to: Moment)
    ensures { found.new.items ≡ filter (λ e. is_between from to e.time) found.old.items }
{
    found.retain(|e| from <= e.time && e.time <= to);
}

/// Whether a modification stands behind a place, where one is given.
fn follows(direction: Direction, after: Option<LogPlace>, entry: &Entry) -> bool
    ensures { result ≡ follows direction after entry.now }
{
    let Some(place) = after else {
        return true;
    };
    let stamp = Stamp {
        tick: entry.tick,
        origin: entry.origin,
    };
    match direction {
        Direction::Forward => (place.time, stamp) < (entry.time, place.stamp),
        Direction::Backward => (entry.time, place.stamp) < (place.time, stamp),
    }
}

fn keep_entries_after(found: &mut Vec<Entry>, direction: Direction, after: Option<LogPlace>)
    ensures { found.new.items ≡ filter (follows direction after) found.old.items }
{
    found.retain(|e| follows(direction, after, e));
}

/// Whether a vector covers a record.
fn is_covered(within: &Vector, r: &Record) -> bool
    ensures { result ≡ not (is_beyond (number_of within.now) r.now) }
{
    within.covers(r.origin, r.number)
}

fn copy_of(r: &Record) -> Result<Record, StoreFault>
    ensures value { IfOk result (λ v. v ≡ r.now) }
    ensures memory { IfErr result (λ e. e ≡ store.OutOfMemory) }
{
    Ok(r.try_clone()?)
}

/// A node's records that a vector covers.
fn covered(
    alloc: Global,
    records: &[Record],
    node: &NodeId,
    within: &Vector,
) -> Result<Vec<Record>, StoreFault>
    ensures value { IfOk result
        (λ v. v.items ≡ filter (is_of node.now) (cut records.now (number_of within.now))) }
    ensures memory { IfErr result (λ e. e ≡ store.OutOfMemory) }
{
    let mut found = Vec::new(alloc);
    for r in records {
        if is_covered(within, r) && is_of(node, r) {
            push(&mut found, copy_of(r)?)?;
        }
    }
    Ok(found)
}

/// A node's live values, forward, of what a vector covers.
#[tactic(auto, using(crate::proofs::Cutting::apart_cut, crate::proofs::Narrow::own_apart))]
fn lives_within(
    alloc: Global,
    records: &[Record],
    node: &NodeId,
    within: &Vector,
) -> Result<Vec<Held>, StoreFault>
    requires { IsApart record_stamp_cmp records.now }
    ensures value { IfOk result (λ v. v.items ≡ lives (cut records.now (number_of within.now)) node.now) }
    ensures memory { IfErr result (λ e. e ≡ store.OutOfMemory) }
{
    let records = covered(alloc, records, node, within)?;
    lives_of(alloc, &records, node)
}

/// A node's modifications, forward, of what a vector covers.
#[tactic(auto, using(crate::proofs::Cutting::apart_cut, crate::proofs::Narrow::own_apart))]
fn log_within(
    alloc: Global,
    records: &[Record],
    node: &NodeId,
    within: &Vector,
) -> Result<Vec<Entry>, StoreFault>
    requires { IsApart record_stamp_cmp records.now }
    ensures value { IfOk result (λ v. v.items ≡ log (cut records.now (number_of within.now)) node.now) }
    ensures memory { IfErr result (λ e. e ≡ store.OutOfMemory) }
{
    let records = covered(alloc, records, node, within)?;
    log_of_node(alloc, &records, node)
}

fn range_in(
    alloc: Global,
    records: &[Record],
    node: &NodeId,
    from: Moment,
    to: Moment,
    direction: Direction,
    limit: usize,
    within: &Vector,
) -> Result<Vec<Held>, StoreFault>
    requires { IsApart record_stamp_cmp records.now }
    ensures value { IfOk result
        (λ v. v.items
        ≡ take limit
        (range_of (cut records.now (number_of within.now)) node.now from to direction)) }
    ensures memory { IfErr result (λ e. e ≡ store.OutOfMemory) }
{
    let mut found = lives_within(alloc, records, node, within)?;
    keep_lives_between(&mut found, from, to);
    turn(direction, &mut found);
    found.truncate(limit);
    Ok(found)
}

fn log_in(
    alloc: Global,
    records: &[Record],
    node: &NodeId,
    from: Moment,
    to: Moment,
    after: Option<LogPlace>,
    direction: Direction,
    limit: usize,
    within: &Vector,
) -> Result<Vec<Entry>, StoreFault>
    requires { IsApart record_stamp_cmp records.now }
    ensures value { IfOk result
        (λ v. v.items
        ≡ take limit
        (log_of (cut records.now (number_of within.now)) node.now from to after direction)) }
    ensures memory { IfErr result (λ e. e ≡ store.OutOfMemory) }
{
    let mut found = log_within(alloc, records, node, within)?;
    keep_entries_between(&mut found, from, to);
    turn(direction, &mut found);
    keep_entries_after(&mut found, direction, after);
    found.truncate(limit);
    Ok(found)
}

fn outside_in(
    alloc: Global,
    records: &[Record],
    node: &NodeId,
    time: Moment,
    direction: Direction,
    within: &Vector,
) -> Result<Option<Held>, StoreFault>
    requires { IsApart record_stamp_cmp records.now }
    ensures value { IfOk result
        (λ h. h ≡ outside_of (cut records.now (number_of within.now)) node.now time direction) }
    ensures memory { IfErr result (λ e. e ≡ store.OutOfMemory) }
{
    let mut found = lives_within(alloc, records, node, within)?;
    keep_lives_past(&mut found, direction, time);
    turn(direction, &mut found);
    found.truncate(1);
    Ok(found.pop())
}

fn at_in(
    alloc: Global,
    records: &[Record],
    node: &NodeId,
    time: Moment,
) -> Result<Vec<Record>, StoreFault>
    requires { IsApart record_stamp_cmp records.now }
    ensures value { IfOk result (λ v. v.items ≡ versions records.now node.now time) }
    ensures memory { IfErr result (λ e. e ≡ store.OutOfMemory) }
{
    Ok(story_of(alloc, records, node, time)?.into_vec())
}

fn since_in(
    alloc: Global,
    records: &[Record],
    vector: &Vector,
    limit: usize,
) -> Result<Vec<Record>, StoreFault>
    requires { IsApart name_cmp records.now }
    ensures value { IfOk result (λ v. v.items ≡ missing records.now (number_of vector.now) limit) }
    ensures memory { IfErr result (λ e. e ≡ store.OutOfMemory) }
{
    Ok(missing_of(alloc, records, vector, limit)?.into_vec())
}

impl ListArchive {
    ghost use Rattle.std.specs.Prelude.{◌≡◌, IfOk, IfErr};
    ghost use Rattle.records.specs.Lists.{IsApart};
    ghost use Rattle.records.specs.Records.{record_stamp_cmp, name_cmp};
    ghost use Rattle.records.specs.Contents.{finding, Adds};
    ghost use Rattle.records.specs.Spelling.{IsLawfulRecord};
    ghost use Rattle.archive.specs.Store.{IsLawfulContent, Learns, fault_in};
    ghost use Rattle.archive.specs.Listed.{store_of, failures};
    ghost use Rattle.archive.specs.declared.fault.StoreFault.TheVariants as store;

    /// Its content is lawful, which this call says and does nothing.
    pub(crate) fn is_lawful(&self)
        ensures { IsLawfulContent self.now.records }
    {
        let _held = self.held();
    }

    #[tactic(auto, using(records::proofs::CloseLemmas::closeness))]
    fn held(&self) -> &[Record]
        ensures same { result.now ≡ self.now.records }
        ensures lawful { IsLawfulContent result.now }
        ensures stamps { IsApart record_stamp_cmp result.now }
        ensures names { IsApart name_cmp result.now }
    {
        &self.records
    }

    /// The answer of a query, and where memory was wanting, that is counted.
    fn told<T>(&mut self, answer: Result<T, StoreFault>) -> Result<T, StoreFault>
        requires { IfErr answer (λ e. e ≡ store.OutOfMemory) }
        ensures lawful { IsLawfulContent self.old.records }
        ensures same { result ≡ answer }
        ensures left { self.new ≡ record self.old { faults = failures self.old.faults (fault_in answer) } }
    {
        if answer.is_err() {
            self.faults = self.faults.saturating_add(1);
        }
        answer
    }

    /// Adds a record that is its origin's next.
    fn add(&mut self, candidate: &Record) -> Result<bool, LearnFault>
        requires lawful { IsLawfulRecord candidate.now }
        requires next { finding self.old.records candidate.now ≡ Adds }
        ensures { Learns (store_of self.old) (store_of self.new) candidate.now result }
    {
        match put(&mut self.records, candidate) {
            Ok(()) => Ok(true),
            Err(fault) => {
                self.faults = self.faults.saturating_add(1);
                Err(LearnFault::Store(fault))
            }
        }
    }
}

impl Archive for ListArchive {
    ghost use Rattle.archive.specs.Listed.{store_of};

    ghost state = { store_of };

    ghost asked = { λ a. 0 };

    fn id(&self) -> Uuid {
        self.id
    }

    fn number(&self) -> ReplicaNo {
        self.number
    }

    fn faults(&self) -> u64 {
        self.faults
    }

    fn is_broken(&self) -> bool {
        false
    }

    fn vector(&mut self) -> Result<Vector, StoreFault> {
        let vector = vector_of(self.held());
        self.told(Ok(vector))
    }

    fn top(&mut self) -> Result<i64, StoreFault> {
        let top = top_of(self.held());
        self.told(Ok(top))
    }

    fn at(
        &mut self,
        alloc: Global,
        node: &NodeId,
        time: Moment,
    ) -> Result<Vec<Record>, StoreFault> {
        let answer = at_in(alloc, self.held(), node, time);
        self.told(answer)
    }

    fn range(
        &mut self,
        alloc: Global,
        node: &NodeId,
        from: Moment,
        to: Moment,
        direction: Direction,
        limit: usize,
        within: &Vector,
    ) -> Result<Vec<Held>, StoreFault> {
        let answer = range_in(alloc, self.held(), node, from, to, direction, limit, within);
        self.told(answer)
    }

    fn log(
        &mut self,
        alloc: Global,
        node: &NodeId,
        from: Moment,
        to: Moment,
        after: Option<LogPlace>,
        direction: Direction,
        limit: usize,
        within: &Vector,
    ) -> Result<Vec<Entry>, StoreFault> {
        let answer = log_in(
            alloc,
            self.held(),
            node,
            from,
            to,
            after,
            direction,
            limit,
            within,
        );
        self.told(answer)
    }

    fn next_outside(
        &mut self,
        alloc: Global,
        node: &NodeId,
        time: Moment,
        direction: Direction,
        within: &Vector,
    ) -> Result<Option<Held>, StoreFault> {
        let answer = outside_in(alloc, self.held(), node, time, direction, within);
        self.told(answer)
    }

    fn since(
        &mut self,
        alloc: Global,
        vector: &Vector,
        limit: usize,
    ) -> Result<Vec<Record>, StoreFault> {
        let answer = since_in(alloc, self.held(), vector, limit);
        self.told(answer)
    }

    fn learn(&mut self, candidate: &Record) -> Result<bool, LearnFault> {
        if judge(self.held(), candidate)? {
            self.add(candidate)
        } else {
            Ok(false)
        }
    }

    fn reload(&mut self) -> Result<(), StoreFault> {
        self.told(Ok(()))
    }
}
