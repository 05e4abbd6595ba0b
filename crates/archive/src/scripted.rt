//! An archive for tests of the crates above: it fails where it is told to, and notes the limits that it
//! is asked for.

use crate::archive::Archive;
use crate::fault::{LearnFault, StoreFault};
use crate::list_archive::ListArchive;
use crate::reading::{Direction, LogPlace};
use records::{Entry, Held, Moment, Record};
use stamp::{ReplicaNo, Vector};
use std::alloc::Global;
use std::marker::Model;
use ua_binary::NodeId;
use uuid::Uuid;

/// How a scripted call fails.
#[derive(Clone, Copy, Debug, PartialEq, Eq)]
pub enum Failure {
    /// Memory is wanting.
    OutOfMemory,
    /// The store refuses.
    Refused,
    /// The store breaks, and what was asked is not done.
    BrokenBefore,
    /// The store breaks when what was asked is done.
    BrokenAfter,
}

/// An archive in memory, one call of which fails as a script says; after a break every call that reads
/// or writes the store answers `Broken`. It keeps the greatest limit that a query was given.
#[derive(Debug, Drop)]
pub struct ScriptedArchive {
    inner: ListArchive,
    learns_alone: bool,
    countdown: u64,
    failure: Failure,
    broken: bool,
    faults: u64,
    greatest_limit: usize,
}

impl Model for ScriptedArchive {
    ghost use Rattle.archive.specs.Scripted.{Scripted};

    ghost Value = { Scripted };

    ghost view = { λ a.
        record {
          inner = a.inner;
          learns_alone = a.learns_alone;
          countdown = a.countdown;
          failure = a.failure;
          broken = a.broken;
          faults = a.faults;
          greatest_limit = a.greatest_limit;
        } };
}

impl ScriptedArchive {
    ghost use Rattle.std.specs.Prelude.{◌≡◌, ◌-◌, [], false, true, Err, Some, IfErr, if◌then◌else◌};
    ghost use Rattle.std.specs.Prelude.{IfSome};
    ghost use Rattle.archive.specs.Store.{IsLawfulContent, fault_in, store_fault_in};
    ghost use Rattle.archive.specs.Store.{Learns};
    ghost use Rattle.archive.specs.Listed.{failures, is_broken};
    ghost use Rattle.archive.specs.Scripted.{IsScripted, IsOldOrWith, scripted_store, fault_of, is_counted, is_due, Follows};
    ghost use Rattle.records.specs.Spelling.{IsLawfulRecord};
    ghost use Rattle.archive.specs.declared.fault.StoreFault.TheVariants as store;

    /// An archive of this id and replica that holds nothing. Its `call`-th call that reads or writes the
    /// store fails so, counted from 1; 0 is none.
    pub fn new(
        alloc: Global,
        id: Uuid,
        number: ReplicaNo,
        call: u64,
        failure: Failure,
    ) -> ScriptedArchive
        ensures { result
            ≡ record {
              inner = record { id = id; number = number; records = []; faults = 0 };
              learns_alone = false;
              countdown = call;
              failure = failure;
              broken = false;
              faults = 0;
              greatest_limit = 0;
            } }
    {
        ScriptedArchive {
            inner: ListArchive::new(alloc, id, number),
            learns_alone: false,
            countdown: call,
            failure,
            broken: false,
            faults: 0,
            greatest_limit: 0,
        }
    }

    /// An archive of this id and replica that holds nothing. Its `learn`-th call of `learn` fails so,
    /// counted from 1; 0 is none.
    pub fn failing_to_learn(
        alloc: Global,
        id: Uuid,
        number: ReplicaNo,
        learn: u64,
        failure: Failure,
    ) -> ScriptedArchive
        ensures { result
            ≡ record {
              inner = record { id = id; number = number; records = []; faults = 0 };
              learns_alone = true;
              countdown = learn;
              failure = failure;
              broken = false;
              faults = 0;
              greatest_limit = 0;
            } }
    {
        ScriptedArchive {
            inner: ListArchive::new(alloc, id, number),
            learns_alone: true,
            countdown: learn,
            failure,
            broken: false,
            faults: 0,
            greatest_limit: 0,
        }
    }

    /// The greatest limit that a query was given.
    pub fn greatest_limit(&self) -> usize
        ensures { result ≡ self.now.greatest_limit }
    {
        self.greatest_limit
    }

    /// Whether this call is the scripted one; it is counted.
    fn is_due(&mut self, is_learn: bool) -> bool
        ensures due { result ≡ is_due self.old is_learn }
        ensures left { self.new
            ≡ record self.old {
              countdown = if is_counted self.old is_learn then self.old.countdown - 1
                  else self.old.countdown;
            } }
    {
        if !is_learn && self.learns_alone {
            return false;
        }
        let due = self.countdown == 1;
        self.countdown = self.countdown.saturating_sub(1);
        due
    }

    /// Counts a fault, and breaks behind `Broken`.
    fn fails(&mut self, fault: StoreFault) -> StoreFault
        ensures same { result ≡ fault }
        ensures left { self.new
            ≡ record self.old
            { broken = is_broken (Some fault); faults = failures self.old.faults (Some fault) } }
    {
        self.broken = fault == StoreFault::Broken;
        self.faults = self.faults.saturating_add(1);
        fault
    }

    /// The fault of the script.
    fn scripted(&self) -> StoreFault
        ensures fault { result ≡ fault_of self.now.failure }
        ensures scripted { IsScripted result }
    {
        match self.failure {
            Failure::OutOfMemory => StoreFault::OutOfMemory,
            Failure::Refused => StoreFault::Refused,
            Failure::BrokenBefore | Failure::BrokenAfter => StoreFault::Broken,
        }
    }

    /// Notes the limit of a query, 0 for a call without one, and goes on to the archive, or fails.
    fn begin(&mut self, limit: usize, is_learn: bool) -> Result<(), StoreFault>
        ensures lawful { IsLawfulContent self.old.inner.records }
        ensures inner { self.new.inner ≡ self.old.inner }
        ensures broken { self.new.broken ≡ is_broken (fault_in result) }
        ensures faults { self.new.faults ≡ failures self.old.faults (fault_in result) }
        ensures ended { self.old.broken ≡ true → result ≡ Err store.Broken }
        ensures met { IfErr result IsScripted }
        ensures follows { Follows self.old self.new is_learn limit (fault_in result) }
    {
        self.inner.is_lawful();
        self.greatest_limit = self.greatest_limit.max(limit);
        if self.broken {
            return Err(self.fails(StoreFault::Broken));
        }
        if self.is_due(is_learn) {
            let fault = self.scripted();
            return Err(self.fails(fault));
        }
        Ok(())
    }

    /// The archive's answer; a fault is counted here too.
    fn told<T>(&mut self, answer: Result<T, StoreFault>) -> Result<T, StoreFault>
        ensures same { result ≡ answer }
        ensures left { self.new ≡ record self.old { faults = failures self.old.faults (fault_in answer) } }
    {
        if answer.is_err() {
            self.faults = self.faults.saturating_add(1);
        }
        answer
    }

    /// Learns and tells nothing.
    #[tactic(auto, using(crate::proofs::Scripting::old_or_with))]
    fn learn_untold(&mut self, candidate: &Record)
        requires { IsLawfulRecord candidate.now }
        ensures lawful { IsLawfulContent self.new.inner.records }
        ensures number { self.new.inner.number ≡ self.old.inner.number }
        ensures id { self.new.inner.id ≡ self.old.inner.id }
        ensures left { self.new ≡ record self.old { inner = self.new.inner } }
        ensures records { IsOldOrWith candidate.now self.old.inner.records self.new.inner.records }
    {
        let _answer = self.inner.learn(candidate);
    }

    /// Learns, and counts a fault here too.
    #[tactic(auto, using(crate::proofs::Scripting::learned_inside))]
    fn learn_told(&mut self, candidate: &Record) -> Result<bool, LearnFault>
        requires lawful { IsLawfulRecord candidate.now }
        requires used { self.old.broken ≡ false }
        ensures learns { Learns (scripted_store self.old) (scripted_store self.new) candidate.now result }
        ensures left { self.new ≡ record self.old { inner = self.new.inner; faults = self.new.faults } }
        ensures memory { IfSome (store_fault_in result) (λ f. f ≡ store.OutOfMemory) }
    {
        let answer = self.inner.learn(candidate);
        if let Err(LearnFault::Store(_)) = answer {
            self.faults = self.faults.saturating_add(1);
        }
        answer
    }
}

impl Archive for ScriptedArchive {
    ghost use Rattle.std.specs.Prelude.{◌≡◌, ⊤, ℕ, take, true, false};
    ghost use Rattle.stamp.specs.Numbers.{number_of};
    ghost use Rattle.records.specs.Records.{versions, missing};
    ghost use Rattle.records.specs.Contents.{vec, top, cut};
    ghost use Rattle.records.specs.Spelling.{IsLawfulRecord};
    ghost use Rattle.archive.specs.Reading.{range_of, log_of, outside_of};
    ghost use Rattle.archive.specs.Store.{Asks, Learns, IsAskedWithin, fault_in, store_fault_in};
    ghost use Rattle.archive.specs.Scripted.{scripted_store, Follows};

    ghost state = { scripted_store };

    ghost asked = { λ a. a.greatest_limit };

    fn id(&self) -> Uuid {
        self.inner.id()
    }

    fn number(&self) -> ReplicaNo {
        self.inner.number()
    }

    fn faults(&self) -> u64 {
        self.faults
    }

    fn is_broken(&self) -> bool {
        self.broken
    }

    #[tactic(auto, using(crate::proofs::Scripting::queries))]
    fn vector(&mut self) -> Result<Vector, StoreFault>
        ensures asks { Asks (scripted_store self.old) (scripted_store self.new) result
            (λ v. (replica : ℕ) → number_of v replica ≡ vec self.old.inner.records replica) }
        ensures asked { IsAskedWithin 0 self.old.greatest_limit self.new.greatest_limit }
        ensures follows { Follows self.old self.new false 0 (fault_in result) }
    {
        self.begin(0, false)?;
        let answer = self.inner.vector();
        self.told(answer)
    }

    #[tactic(auto, using(crate::proofs::Scripting::queries))]
    fn top(&mut self) -> Result<i64, StoreFault>
        ensures asks { Asks (scripted_store self.old) (scripted_store self.new) result
            (λ t. t ≡ top self.old.inner.records) }
        ensures asked { IsAskedWithin 0 self.old.greatest_limit self.new.greatest_limit }
        ensures follows { Follows self.old self.new false 0 (fault_in result) }
    {
        self.begin(0, false)?;
        let answer = self.inner.top();
        self.told(answer)
    }

    #[tactic(auto, using(crate::proofs::Scripting::queries))]
    fn at(&mut self, alloc: Global, node: &NodeId, time: Moment) -> Result<Vec<Record>, StoreFault>
        ensures asks { Asks (scripted_store self.old) (scripted_store self.new) result
            (λ v. v.items ≡ versions self.old.inner.records node.now time) }
        ensures asked { IsAskedWithin 0 self.old.greatest_limit self.new.greatest_limit }
        ensures follows { Follows self.old self.new false 0 (fault_in result) }
    {
        self.begin(0, false)?;
        let answer = self.inner.at(alloc, node, time);
        self.told(answer)
    }

    #[tactic(auto, using(crate::proofs::Scripting::queries))]
    fn range(
        &mut self,
        alloc: Global,
        node: &NodeId,
        from: Moment,
        to: Moment,
        direction: Direction,
        limit: usize,
        within: &Vector,
    ) -> Result<Vec<Held>, StoreFault>
        ensures asks { Asks (scripted_store self.old) (scripted_store self.new) result
            (λ v. v.items
            ≡ take limit
            (range_of
            (cut self.old.inner.records (number_of within.now)) node.now from to direction)) }
        ensures asked { IsAskedWithin limit self.old.greatest_limit self.new.greatest_limit }
        ensures follows { Follows self.old self.new false limit (fault_in result) }
    {
        self.begin(limit, false)?;
        let answer = self
            .inner
            .range(alloc, node, from, to, direction, limit, within);
        self.told(answer)
    }

    #[tactic(auto, using(crate::proofs::Scripting::queries))]
    fn log(
        &mut self,
        alloc: Global,
        node: &NodeId,
        from: Moment,
        to: Moment,
        after: Option<LogPlace>,
        direction: Direction,
        limit: usize,
        within: &Vector,
    ) -> Result<Vec<Entry>, StoreFault>
        ensures asks { Asks (scripted_store self.old) (scripted_store self.new) result
            (λ v. v.items
            ≡ take limit
            (log_of
            (cut self.old.inner.records (number_of within.now)) node.now from to after direction)) }
        ensures asked { IsAskedWithin limit self.old.greatest_limit self.new.greatest_limit }
        ensures follows { Follows self.old self.new false limit (fault_in result) }
    {
        self.begin(limit, false)?;
        let answer = self
            .inner
            .log(alloc, node, from, to, after, direction, limit, within);
        self.told(answer)
    }

    #[tactic(auto, using(crate::proofs::Scripting::queries))]
    fn next_outside(
        &mut self,
        alloc: Global,
        node: &NodeId,
        time: Moment,
        direction: Direction,
        within: &Vector,
    ) -> Result<Option<Held>, StoreFault>
        ensures asks { Asks (scripted_store self.old) (scripted_store self.new) result
            (λ h. h
            ≡ outside_of
            (cut self.old.inner.records (number_of within.now)) node.now time direction) }
        ensures asked { IsAskedWithin 0 self.old.greatest_limit self.new.greatest_limit }
        ensures follows { Follows self.old self.new false 0 (fault_in result) }
    {
        self.begin(0, false)?;
        let answer = self
            .inner
            .next_outside(alloc, node, time, direction, within);
        self.told(answer)
    }

    #[tactic(auto, using(crate::proofs::Scripting::queries))]
    fn since(
        &mut self,
        alloc: Global,
        vector: &Vector,
        limit: usize,
    ) -> Result<Vec<Record>, StoreFault>
        ensures asks { Asks (scripted_store self.old) (scripted_store self.new) result
            (λ v. v.items ≡ missing self.old.inner.records (number_of vector.now) limit) }
        ensures asked { IsAskedWithin limit self.old.greatest_limit self.new.greatest_limit }
        ensures follows { Follows self.old self.new false limit (fault_in result) }
    {
        self.begin(limit, false)?;
        let answer = self.inner.since(alloc, vector, limit);
        self.told(answer)
    }

    fn learn(&mut self, candidate: &Record) -> Result<bool, LearnFault>
        requires { IsLawfulRecord candidate.now }
        ensures learns { Learns (scripted_store self.old) (scripted_store self.new) candidate.now result }
        ensures asked { IsAskedWithin 0 self.old.greatest_limit self.new.greatest_limit }
        ensures follows { Follows self.old self.new true 0 (store_fault_in result) }
    {
        let breaks_after = self.failure == Failure::BrokenAfter && !self.broken;
        if let Err(fault) = self.begin(0, true) {
            if breaks_after && fault == StoreFault::Broken {
                self.learn_untold(candidate);
            }
            return Err(LearnFault::Store(fault));
        }
        self.learn_told(candidate)
    }

    #[tactic(auto, using(crate::proofs::Scripting::queries))]
    fn reload(&mut self) -> Result<(), StoreFault>
        ensures asks { Asks (scripted_store self.old) (scripted_store self.new) result (λ u. ⊤) }
        ensures asked { IsAskedWithin 0 self.old.greatest_limit self.new.greatest_limit }
        ensures follows { Follows self.old self.new false 0 (fault_in result) }
    {
        self.begin(0, false)?;
        let answer = self.inner.reload();
        self.told(answer)
    }
}
