//! Either of two archives, which is an archive.

use crate::archive::Archive;
use crate::fault::{LearnFault, StoreFault};
use crate::reading::{Direction, LogPlace};
use either::Either;
use records::{Entry, Held, Moment, Record};
use stamp::{ReplicaNo, Vector};
use std::alloc::Global;
use ua_binary::NodeId;
use uuid::Uuid;

impl<L: Archive, R: Archive> Archive for Either<L, R> {
    ghost use Rattle.either.specs.Either.{either};
    ghost use Rattle.archive.specs.Either.{store_of};

    ghost state = { store_of L.state R.state };

    ghost asked = { either L.asked R.asked };

    fn id(&self) -> Uuid {
        match self {
            Either::Left(archive) => archive.id(),
            Either::Right(archive) => archive.id(),
        }
    }

    fn number(&self) -> ReplicaNo {
        match self {
            Either::Left(archive) => archive.number(),
            Either::Right(archive) => archive.number(),
        }
    }

    fn faults(&self) -> u64 {
        match self {
            Either::Left(archive) => archive.faults(),
            Either::Right(archive) => archive.faults(),
        }
    }

    fn is_broken(&self) -> bool {
        match self {
            Either::Left(archive) => archive.is_broken(),
            Either::Right(archive) => archive.is_broken(),
        }
    }

    fn vector(&mut self) -> Result<Vector, StoreFault> {
        match self {
            Either::Left(archive) => archive.vector(),
            Either::Right(archive) => archive.vector(),
        }
    }

    fn top(&mut self) -> Result<i64, StoreFault> {
        match self {
            Either::Left(archive) => archive.top(),
            Either::Right(archive) => archive.top(),
        }
    }

    fn at(
        &mut self,
        alloc: Global,
        node: &NodeId,
        time: Moment,
    ) -> Result<Vec<Record>, StoreFault> {
        match self {
            Either::Left(archive) => archive.at(alloc, node, time),
            Either::Right(archive) => archive.at(alloc, node, time),
        }
    }

    fn range(
        &mut self,
        alloc: Global,
        node: &NodeId,
        from: Moment,
        to: Moment,
        direction: Direction,
        limit: usize,
        within: &Vector,
    ) -> Result<Vec<Held>, StoreFault> {
        match self {
            Either::Left(archive) => archive.range(alloc, node, from, to, direction, limit, within),
            Either::Right(archive) => {
                archive.range(alloc, node, from, to, direction, limit, within)
            }
        }
    }

    fn log(
        &mut self,
        alloc: Global,
        node: &NodeId,
        from: Moment,
        to: Moment,
        after: Option<LogPlace>,
        direction: Direction,
        limit: usize,
        within: &Vector,
    ) -> Result<Vec<Entry>, StoreFault> {
        match self {
            Either::Left(archive) => {
                archive.log(alloc, node, from, to, after, direction, limit, within)
            }
            Either::Right(archive) => {
                archive.log(alloc, node, from, to, after, direction, limit, within)
            }
        }
    }

    fn next_outside(
        &mut self,
        alloc: Global,
        node: &NodeId,
        time: Moment,
        direction: Direction,
        within: &Vector,
    ) -> Result<Option<Held>, StoreFault> {
        match self {
            Either::Left(archive) => archive.next_outside(alloc, node, time, direction, within),
            Either::Right(archive) => archive.next_outside(alloc, node, time, direction, within),
        }
    }

    fn since(
        &mut self,
        alloc: Global,
        vector: &Vector,
        limit: usize,
    ) -> Result<Vec<Record>, StoreFault> {
        match self {
            Either::Left(archive) => archive.since(alloc, vector, limit),
            Either::Right(archive) => archive.since(alloc, vector, limit),
        }
    }

    fn learn(&mut self, candidate: &Record) -> Result<bool, LearnFault> {
        match self {
            Either::Left(archive) => archive.learn(candidate),
            Either::Right(archive) => archive.learn(candidate),
        }
    }

    fn reload(&mut self) -> Result<(), StoreFault> {
        match self {
            Either::Left(archive) => archive.reload(),
            Either::Right(archive) => archive.reload(),
        }
    }
}
