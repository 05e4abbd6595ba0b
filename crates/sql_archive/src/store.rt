//! An archive in a database.

ghost use Rattle.std.specs.Prelude.{◌≡◌, false};
ghost use Rattle.sqlite.specs.State.{HasCleanDisk};
ghost use Rattle.sqlite.specs.Held.{state};
ghost use Rattle.archive.specs.Store.{fault_in};
ghost use Rattle.archive.specs.Listed.{failures, is_broken};
ghost use Rattle.sql_tables.specs.State.{Idles};
ghost use Rattle.sql_tables.specs.Connections.{WhereClean, tables_of, CommitsNothing};
ghost use Rattle.sql_archive.specs.Starting.{IsBegun};

use crate::learning::{flat, learn_in};
use crate::starting::{as_told, make};
use archive::{Archive, Direction, LearnFault, LogPlace, StoreFault};
use records::{Entry, Held, Moment, Record};
use sql_opening::{Latest, latest_after, open_all, read_again};
use sql_reading::{Between, NodeReading, log_in, outside_in, range_in, records_at, records_since};
use sql_schema::is_indexed;
use sql_tables::index_live_values;
use sqlite::{Alter, Connection, MemStore};
use stamp::{ReplicaNo, Vector};
use std::alloc::Global;
use std::marker::Model;
use ua_binary::NodeId;
use uuid::Uuid;

/// An archive in a database.
#[derive(Drop)]
pub struct SqlArchive<S: Alter> {
    alloc: Global,
    conn: Connection<S>,
    id: Uuid,
    number: ReplicaNo,
    latest: Latest,
    faults: u64,
    broken: bool,
}

impl<S: Alter> Model for SqlArchive<S> {
    ghost use Rattle.sql_archive.specs.Kept.{Kept, kept_code, Serves};

    ghost Value = { Kept S };

    ghost coded = { kept_code S.code };

    ghost view = { λ a.
        record {
          conn = a.conn;
          id = a.id;
          number = a.number;
          numbers = a.latest.numbers;
          tick = a.latest.tick;
          faults = a.faults;
          broken = a.broken;
        } };

    ghost invariant = { λ a.
        Serves S.Store
        (record {
          conn = a.conn;
          id = a.id;
          number = a.number;
          numbers = a.latest.numbers;
          tick = a.latest.tick;
          faults = a.faults;
          broken = a.broken;
        }) };
}

/// Counts a fault, and breaks behind `Broken`.
fn tell<T>(
    faults: &mut u64,
    broken: &mut bool,
    answer: Result<T, StoreFault>,
) -> Result<T, StoreFault>
    requires { broken.old ≡ false }
    ensures same { result ≡ answer }
    ensures faults { faults.new ≡ failures faults.old (fault_in answer) }
    ensures broken { broken.new ≡ is_broken (fault_in answer) }
{
    if let Err(fault) = &answer {
        *faults = faults.saturating_add(1);
        *broken = *fault == StoreFault::Broken;
    }
    answer
}

impl<S: Alter> Archive for SqlArchive<S> {
    ghost use Rattle.std.specs.Prelude.{◌≡◌, ℕ, take};
    ghost use Rattle.stamp.specs.Numbers.{number_of};
    ghost use Rattle.records.specs.Records.{versions, missing};
    ghost use Rattle.records.specs.Contents.{vec, top, cut};
    ghost use Rattle.archive.specs.Reading.{range_of, log_of, outside_of};
    ghost use Rattle.archive.specs.Store.{Asks};
    ghost use Rattle.sql_tables.specs.Connections.{content_of};
    ghost use Rattle.sql_archive.specs.Kept.{store_of, RefusesRightly};

    ghost state = { store_of S.Store };

    ghost asked = { λ a. 0 };

    fn id(&self) -> Uuid {
        self.id
    }

    fn number(&self) -> ReplicaNo {
        self.tables_stand();
        self.number
    }

    fn faults(&self) -> u64 {
        self.faults
    }

    fn is_broken(&self) -> bool {
        self.broken
    }

    fn vector(&mut self) -> Result<Vector, StoreFault>
        ensures asks { Asks (store_of S.Store self.old) (store_of S.Store self.new) result
            (λ v. (replica : ℕ) → number_of v replica ≡ vec (content_of S.Store self.old.conn) replica) }
        ensures refused { RefusesRightly S.Store self.old self.new result }
    {
        if self.broken {
            return Err(self.refuse());
        }
        Ok(self.latest.numbers)
    }

    fn top(&mut self) -> Result<i64, StoreFault>
        ensures asks { Asks (store_of S.Store self.old) (store_of S.Store self.new) result
            (λ t. t ≡ top (content_of S.Store self.old.conn)) }
        ensures refused { RefusesRightly S.Store self.old self.new result }
    {
        if self.broken {
            return Err(self.refuse());
        }
        Ok(self.latest.tick)
    }

    fn at(&mut self, alloc: Global, node: &NodeId, time: Moment) -> Result<Vec<Record>, StoreFault>
        ensures asks { Asks (store_of S.Store self.old) (store_of S.Store self.new) result
            (λ v. v.items ≡ versions (content_of S.Store self.old.conn) node.now time) }
        ensures refused { RefusesRightly S.Store self.old self.new result }
    {
        if self.broken {
            return Err(self.refuse());
        }
        let answer = records_at(alloc, &mut self.conn, node, time);
        tell(&mut self.faults, &mut self.broken, answer)
    }

    fn range(
        &mut self,
        alloc: Global,
        node: &NodeId,
        from: Moment,
        to: Moment,
        direction: Direction,
        limit: usize,
        within: &Vector,
    ) -> Result<Vec<Held>, StoreFault>
        ensures asks { Asks (store_of S.Store self.old) (store_of S.Store self.new) result
            (λ v. v.items
            ≡ take limit
            (range_of
            (cut (content_of S.Store self.old.conn) (number_of within.now)) node.now from to direction)) }
        ensures refused { RefusesRightly S.Store self.old self.new result }
    {
        if self.broken {
            return Err(self.refuse());
        }
        let reading = NodeReading {
            alloc,
            node,
            direction,
            within,
        };
        let between = Between { from, to };
        let answer = range_in(
            &mut self.conn,
            &reading,
            between,
            limit,
            &self.latest.numbers,
        );
        tell(&mut self.faults, &mut self.broken, answer)
    }

    fn log(
        &mut self,
        alloc: Global,
        node: &NodeId,
        from: Moment,
        to: Moment,
        after: Option<LogPlace>,
        direction: Direction,
        limit: usize,
        within: &Vector,
    ) -> Result<Vec<Entry>, StoreFault>
        ensures asks { Asks (store_of S.Store self.old) (store_of S.Store self.new) result
            (λ v. v.items
            ≡ take limit
            (log_of
            (cut (content_of S.Store self.old.conn) (number_of within.now)) node.now from to after direction)) }
        ensures refused { RefusesRightly S.Store self.old self.new result }
    {
        if self.broken {
            return Err(self.refuse());
        }
        let reading = NodeReading {
            alloc,
            node,
            direction,
            within,
        };
        let between = Between { from, to };
        let answer = log_in(&mut self.conn, &reading, between, &after, limit);
        tell(&mut self.faults, &mut self.broken, answer)
    }

    fn next_outside(
        &mut self,
        alloc: Global,
        node: &NodeId,
        time: Moment,
        direction: Direction,
        within: &Vector,
    ) -> Result<Option<Held>, StoreFault>
        ensures asks { Asks (store_of S.Store self.old) (store_of S.Store self.new) result
            (λ h. h
            ≡ outside_of
            (cut (content_of S.Store self.old.conn) (number_of within.now)) node.now time direction) }
        ensures refused { RefusesRightly S.Store self.old self.new result }
    {
        if self.broken {
            return Err(self.refuse());
        }
        let reading = NodeReading {
            alloc,
            node,
            direction,
            within,
        };
        let answer = outside_in(&mut self.conn, &reading, time, &self.latest.numbers);
        tell(&mut self.faults, &mut self.broken, answer)
    }

    fn since(
        &mut self,
        alloc: Global,
        vector: &Vector,
        limit: usize,
    ) -> Result<Vec<Record>, StoreFault>
        ensures asks { Asks (store_of S.Store self.old) (store_of S.Store self.new) result
            (λ v. v.items ≡ missing (content_of S.Store self.old.conn) (number_of vector.now) limit) }
        ensures refused { RefusesRightly S.Store self.old self.new result }
    {
        if self.broken {
            return Err(self.refuse());
        }
        let answer = records_since(alloc, &mut self.conn, &self.latest.numbers, vector, limit);
        tell(&mut self.faults, &mut self.broken, answer)
    }

    fn learn(&mut self, candidate: &Record) -> Result<bool, LearnFault> {
        if self.broken {
            return Err(LearnFault::Store(self.refuse()));
        }
        let answer = learn_in(self.alloc, &mut self.conn, candidate);
        self.latest = latest_after(self.latest, candidate, &answer);
        flat(tell(&mut self.faults, &mut self.broken, answer))
    }

    fn reload(&mut self) -> Result<(), StoreFault> {
        if self.broken {
            return Err(self.refuse());
        }
        let answer = read_again(&mut self.conn, &self.id, self.number, &self.latest);
        tell(&mut self.faults, &mut self.broken, answer)
    }
}

impl<S: Alter> SqlArchive<S> {
    ghost use Rattle.std.specs.Prelude.{◌≡◌, ◌⊎◌, ⊤, Bool, true, false, Some, ◌≢◌, IfOk, OnOk};
    ghost use Rattle.sqlite.specs.State.{HasCleanDisk};
    ghost use Rattle.sqlite.specs.Held.{state};
    ghost use Rattle.sql_tables.specs.State.{MayBeStopped, Idles};
    ghost use Rattle.archive.specs.Store.{Asks, IsOfOpening};
    ghost use Rattle.archive.specs.Listed.{failures, is_broken};
    ghost use Rattle.sql_schema.specs.Tables.{archive_schema};
    ghost use Rattle.sql_archive.specs.Kept.{Serves, LeavesStores, store_of};
    ghost use Rattle.archive.specs.declared.fault.StoreFault.TheVariants as store;
    ghost use Rattle.std.specs.Prelude.{IfErr, Err};
    ghost use Rattle.sql_opening.specs.Opening.{checked_meta, IsNoStore};
    ghost use Rattle.sql_tables.specs.Rows.{meta_cells, IsStored};
    ghost use Rattle.sql_tables.specs.Derived.{AreKept};

    /// An archive over a connection whose tables are there: Ok only where they stand for a lawful content
    /// of this archive and replica. It is refused for what they hold, or where SQLite may refuse.
    pub(crate) fn over(
        alloc: Global,
        mut conn: Connection<S>,
        id: Uuid,
        number: ReplicaNo,
    ) -> Result<SqlArchive<S>, (StoreFault, Connection<S>)>
        requires { WhereClean S.Store conn Idles }
        ensures own { IfOk result (IsBegun id number) }
        ensures same { IfOk result (λ a. HasCleanDisk (state S.Store a.conn)
            → (state S.Store a.conn).now ≡ (state S.Store conn).now) }
        ensures stored { IfOk result (λ a. HasCleanDisk (state S.Store a.conn)
            → IsStored id number (tables_of S.Store conn)) }
        ensures kept { IfOk result (λ a. HasCleanDisk (state S.Store a.conn)
            → AreKept (tables_of S.Store conn)) }
        ensures wrong { IfErr result (λ e. HasCleanDisk (state S.Store e.1) → IsOfOpening e.0
            → checked_meta id number (meta_cells (tables_of S.Store conn)) ≡ Err e.0) }
        ensures refused { IfErr result (λ e. HasCleanDisk (state S.Store e.1)
            → e.0 ≡ StoreFault.Refused
            → MayBeStopped (state S.Store conn) (state S.Store e.1)
            ⊎ IsNoStore id number (tables_of S.Store conn)) }
        ensures opened { IfOk result (λ a. CommitsNothing S.Store conn a.conn) }
        ensures left { IfErr result (λ e. CommitsNothing S.Store conn e.1) }
    {
        match open_all(alloc, &mut conn, &id, number) {
            Ok(latest) => {
                let _schema = conn.schema();
                Ok(SqlArchive {
                    alloc,
                    conn,
                    id,
                    number,
                    latest,
                    faults: 0,
                    broken: false,
                })
            }
            Err(fault) => Err((fault, conn)),
        }
    }

    /// The connection that it has.
    pub(crate) fn into_connection(self) -> Connection<S>
        ensures { result ≡ self.conn }
    {
        self.conn
    }

    /// Has the index over live values stand: where it doesn't, it is made in one commit, which takes time and room in the measure of all
    /// moments that have a value. Reads of current values then go by no deleted one. What the archive holds stays what it is, also
    /// where this fails.
    pub fn index_live_values(&mut self) -> Result<(), StoreFault>
        ensures asks { Asks (store_of S.Store self.old) (store_of S.Store self.new) result
            (λ _. ⊤) }
        ensures indexed { HasCleanDisk (state S.Store self.new.conn)
            → OnOk result ((state S.Store self.new.conn).now.schema ≡ archive_schema true) }
    {
        if self.broken {
            return Err(self.refuse());
        }
        let answer = index_live_values(&mut self.conn);
        tell(&mut self.faults, &mut self.broken, answer)
    }

    /// Whether the index over live values stands.
    pub fn is_indexed(&self) -> bool
        ensures { (indexed : Bool)
            → (state S.Store self.now.conn).now.schema ≡ archive_schema indexed
            → result ≡ indexed }
    {
        is_indexed(self.conn.schema())
    }

    /// Between any two calls its tables stand for its content, and what a crash leaves is a store that an
    /// opening takes, also where it is broken. This call says so and does nothing.
    pub fn tables_stand(&self)
        ensures stand { Serves S.Store self.now }
        ensures left { LeavesStores S.Store self.now }
    {
        let _faults = self.faults;
    }

    /// Counts one more `Broken`.
    fn refuse(&mut self) -> StoreFault
        requires { self.old.broken ≡ true }
        ensures conn { self.new.conn ≡ self.old.conn }
        ensures id { self.new.id ≡ self.old.id }
        ensures number { self.new.number ≡ self.old.number }
        ensures faults { self.new.faults ≡ failures self.old.faults (Some result) }
        ensures broken { self.new.broken ≡ is_broken (Some result) }
        ensures ended { self.old.broken ≡ true → result ≡ store.Broken }
        ensures met { IsOfOpening result → ⊥ }
        ensures was { Serves S.Store self.old }
        ensures is { Serves S.Store self.new }
    {
        self.faults = self.faults.saturating_add(1);
        StoreFault::Broken
    }
}

impl SqlArchive<MemStore> {
    ghost use Rattle.std.specs.Prelude.{◌≡◌, ◌≢◌, false, true, [], IfOk, IfErr};
    ghost use Rattle.sqlite.specs.Held.{state};
    ghost use Rattle.sqlite.specs.Steps.{over_memory};
    ghost use Rattle.archive.specs.Store.{IsOfOpening};
    ghost use Rattle.archive.specs.Beginning.{HoldsNothing};
    ghost use Rattle.sql_archive.specs.Kept.{store_of};
    ghost use Rattle.sql_tables.specs.Rows.{content_in};

    /// An archive of this id and replica in memory, which holds nothing.
    pub fn open_in_memory(alloc: Global, id: Uuid, number: ReplicaNo) -> Result<Self, StoreFault>
        ensures own { IfOk result (IsBegun id number) }
        ensures empty { IfOk result (λ a. content_in (state over_memory a.conn).now.trees ≡ []) }
        ensures begins { IfOk result (λ a. HoldsNothing id number (store_of over_memory a)) }
        ensures refused { IfErr result (λ e. IsOfOpening e → ⊥) }
        ensures told { IfErr result (λ e. e ≢ StoreFault.Broken) }
    {
        let conn = match Connection::open_in_memory(alloc) {
            Ok(conn) => conn,
            Err(_) => return Err(StoreFault::OutOfMemory),
        };
        match make(alloc, conn, id, number) {
            Ok(archive) => Ok(archive),
            Err((fault, _)) => Err(as_told(fault)),
        }
    }

    /// An archive of this id and replica in memory that is broken: each call that reads or writes it answers `Broken`.
    pub fn broken_in_memory(alloc: Global, id: Uuid, number: ReplicaNo) -> Result<Self, StoreFault>
        ensures own { IfOk result (λ a. (a.id ≡ id) × (a.number ≡ number)) }
        ensures broken { IfOk result (λ a. (store_of over_memory a).broken ≡ true) }
        ensures told { IfErr result (λ e. e ≢ StoreFault.Broken) }
    {
        let mut archive = SqlArchive::open_in_memory(alloc, id, number)?;
        archive.broken = true;
        Ok(archive)
    }
}
