//! What every archive does.

use crate::fault::{LearnFault, StoreFault};
use crate::reading::{Direction, LogPlace};
use records::{Entry, Held, Moment, Record};
use stamp::{ReplicaNo, Vector};
use std::alloc::Global;
use ua_binary::NodeId;
use uuid::Uuid;

/// The records of one replica, in a store. Contracts see it as a `Store`: its content, what the store
/// may be found to hold after a crash, and how many of its calls answered a fault of the store; an
/// implementor's `state` says what these are of it, and is to be read with it. How much it was asked for is
/// its `asked`: no call raises that above its own limit, so that a caller can promise what it asks for of
/// any archive; one that notes its limits, as `ScriptedArchive` does, shows it. Each call but `id`,
/// `number`, `faults` and `is_broken` may answer a fault of the store, and then, unless it is `Broken`, the content
/// is as before. What the calls answer is promised as long as the store returns what was written to
/// it. `alloc` is where an answer's lists are made; the other calls answer by value, and take what
/// memory the store needs from where it was opened.
pub trait Archive {
    ghost use Rattle.std.specs.Prelude.{◌≡◌, ⊤, ℕ, take};
    ghost use Rattle.stamp.specs.Numbers.{number_of};
    ghost use Rattle.records.specs.Records.{versions, missing};
    ghost use Rattle.records.specs.Contents.{vec, top, cut};
    ghost use Rattle.records.specs.Spelling.{IsLawfulRecord};
    ghost use Rattle.archive.specs.Reading.{range_of, log_of, outside_of};
    ghost use Rattle.archive.specs.Store.{Store, IsQuiescent, Asks, Learns, IsAskedWithin};

    ghost state: { Self → Store };

    /// The greatest limit that a query was given so far, of an archive that notes it; 0 of another one.
    ghost asked: { Self → ℕ };

    /// The archive's id, which all of its replicas have. It reads no store.
    fn id(&self) -> Uuid
        ensures { result ≡ (state self.now).id };

    /// The number of this replica. It reads no store. As long as the store is used, the content is lawful,
    /// and a crash leaves it as it is.
    fn number(&self) -> ReplicaNo
        ensures own { result ≡ (state self.now).own }
        ensures rests { IsQuiescent (state self.now) };

    /// How many calls answered a fault of the store, at most 2^64 - 1. It reads no store.
    fn faults(&self) -> u64
        ensures { result ≡ (state self.now).failed };

    /// Whether the store broke, so that each call that reads or writes it answers `Broken` until it is opened again. It reads
    /// no store.
    fn is_broken(&self) -> bool
        ensures { result ≡ (state self.now).broken };

    /// The number of each replica's last record.
    fn vector(&mut self) -> Result<Vector, StoreFault>
        ensures asks { Asks (state self.old) (state self.new) result
            (λ v. (replica : ℕ) → number_of v replica ≡ vec (state self.old).content replica) }
        ensures asked { IsAskedWithin 0 (asked self.old) (asked self.new) };

    /// The greatest tick of all records, 0 where there is none.
    fn top(&mut self) -> Result<i64, StoreFault>
        ensures asks { Asks (state self.old) (state self.new) result
            (λ t. t ≡ top (state self.old).content) }
        ensures asked { IsAskedWithin 0 (asked self.old) (asked self.new) };

    /// The records of a node and a source time, in the order of their stamps.
    fn at(&mut self, alloc: Global, node: &NodeId, time: Moment) -> Result<Vec<Record>, StoreFault>
        ensures asks { Asks (state self.old) (state self.new) result
            (λ v. v.items ≡ versions (state self.old).content node.now time) }
        ensures asked { IsAskedWithin 0 (asked self.old) (asked self.new) };

    /// The first `limit` of a node's live values from one source time to another, both included, in
    /// the direction. `from` is the lesser time; where it is above `to` there are none.
    fn range(
        &mut self,
        alloc: Global,
        node: &NodeId,
        from: Moment,
        to: Moment,
        direction: Direction,
        limit: usize,
        within: &Vector,
    ) -> Result<Vec<Held>, StoreFault>
        ensures asks { Asks (state self.old) (state self.new) result
            (λ v. v.items
            ≡ take limit
            (range_of
            (cut (state self.old).content (number_of within.now)) node.now from to direction)) }
        ensures asked { IsAskedWithin limit (asked self.old) (asked self.new) };

    /// The first `limit` of a node's modifications from one source time to another, both included, in
    /// the direction, that stand behind a place, where one is given. There is one for each record,
    /// also for an insert where nothing stood, which shows its own value.
    fn log(
        &mut self,
        alloc: Global,
        node: &NodeId,
        from: Moment,
        to: Moment,
        after: Option<LogPlace>,
        direction: Direction,
        limit: usize,
        within: &Vector,
    ) -> Result<Vec<Entry>, StoreFault>
        ensures asks { Asks (state self.old) (state self.new) result
            (λ v. v.items
            ≡ take limit
            (log_of
            (cut (state self.old).content (number_of within.now)) node.now from to after
            direction)) }
        ensures asked { IsAskedWithin limit (asked self.old) (asked self.new) };

    /// A node's live value that is nearest to a source time, strictly beyond it in the direction;
    /// `None` where there is none.
    fn next_outside(
        &mut self,
        alloc: Global,
        node: &NodeId,
        time: Moment,
        direction: Direction,
        within: &Vector,
    ) -> Result<Option<Held>, StoreFault>
        ensures asks { Asks (state self.old) (state self.new) result
            (λ h. h
            ≡ outside_of
            (cut (state self.old).content (number_of within.now)) node.now time direction) }
        ensures asked { IsAskedWithin 0 (asked self.old) (asked self.new) };

    /// The first `limit` of the records that a vector lacks, by origin and number.
    fn since(
        &mut self,
        alloc: Global,
        vector: &Vector,
        limit: usize,
    ) -> Result<Vec<Record>, StoreFault>
        ensures asks { Asks (state self.old) (state self.new) result
            (λ v. v.items ≡ missing (state self.old).content (number_of vector.now) limit) }
        ensures asked { IsAskedWithin limit (asked self.old) (asked self.new) };

    /// Takes in a record: `true` where it is added, `false` where it is held already. Refusals come in
    /// this order: `Clash` where another record of its name is held, `Gap` where its number is above
    /// its origin's next, `TickTooFar` above 2^62 - 1, `TickNotRising` where its tick isn't above that
    /// of its origin's last record. A fault of the store may come before any of them. A refused record
    /// changes nothing; after `Broken` it may stand, and opening again tells. The condition is
    /// `Record::is_lawful`.
    fn learn(&mut self, candidate: &Record) -> Result<bool, LearnFault>
        requires { IsLawfulRecord candidate.now }
        ensures learns { Learns (state self.old) (state self.new) candidate.now result }
        ensures asked { IsAskedWithin 0 (asked self.old) (asked self.new) };

    /// Reads the store anew.
    fn reload(&mut self) -> Result<(), StoreFault>
        ensures asks { Asks (state self.old) (state self.new) result (λ u. ⊤) }
        ensures asked { IsAskedWithin 0 (asked self.old) (asked self.new) };
}
