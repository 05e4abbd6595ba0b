//! Records that came from a peer, beside those of the same names that are held.

ghost use Rattle.std.specs.Prelude.{◌≡◌, ◌↔◌, ◌≤◌, ◌-◌, ◌∷◌, ◌==◌, if◌then◌else◌, ℕ, [], IsTrue};
ghost use Rattle.std.specs.List.{AllByRecursion};
ghost use Rattle.stamp.specs.Limits.{IsReplica, greatest};
ghost use Rattle.stamp.specs.Numbers.{number_of};
ghost use Rattle.records.specs.Spelling.{IsLawfulRecord};
ghost use Rattle.archive.specs.Store.{Asks, IsAskedWithin};
ghost use Rattle.exchange.specs.Batches.{AsksFor};
ghost use Rattle.peer_check.specs.Clashes.{FindsName, FindsClash};

use archive::{Archive, StoreFault};
use exchange::ExchangeFault;
use records::Record;
use stamp::{GREATEST_NUMBER, ReplicaNo, Vector};
use std::alloc::Global;
use ua_binary::TryClone;

/// One more than the greatest number of a replica.
const BEHIND_REPLICAS: u8 = 65;

/// How much of what both hold is compared.
#[derive(Clone, Copy, Debug)]
pub enum Extent {
    /// The last record of each replica.
    Last,
    /// Every record.
    All,
}

/// Two records of one origin and number that aren't equal: the number was given twice.
#[derive(Debug, Drop)]
pub struct Clash {
    /// The one that is held.
    pub held: Record,
    /// The one that a peer holds.
    pub brought: Record,
}

/// The last record of a replica that is held by who lacks those of one origin from this number on, and no other's.
fn last_before(replica: ReplicaNo, origin: ReplicaNo, number: u64) -> u64
    ensures { result ≡ (if replica == origin then number - 1 else greatest) }
{
    if replica == origin {
        number.saturating_sub(1)
    } else {
        GREATEST_NUMBER
    }
}

/// The numbers of who lacks a replica's records from this number on, and no other's.
fn numbers_before(origin: ReplicaNo, number: u64) -> Vector
    requires { number ≤ greatest }
    ensures { (replica : ℕ) → IsReplica replica
        → number_of result replica ≡ (if replica == origin then number - 1 else greatest) }
{
    let mut numbers = Vector::new();
    for n in 1..BEHIND_REPLICAS {
        if let Some(replica) = ReplicaNo::new(n) {
            numbers.raise(replica, last_before(replica, origin, number));
        }
    }
    numbers
}

/// The record of this origin and number, if one is held: the first that such numbers lack. One record is read.
fn find_name<A: Archive>(
    alloc: Global,
    archive: &mut A,
    origin: ReplicaNo,
    number: u64,
) -> Result<Option<Record>, StoreFault>
    requires least { 1 ≤ number }
    requires greatest { number ≤ greatest }
    ensures asks { Asks (A.state archive.old) (A.state archive.new) result
        (FindsName (A.state archive.old).content origin number) }
    ensures asked { IsAskedWithin 1 (A.asked archive.old) (A.asked archive.new) }
{
    let mut found = archive.since(alloc, &numbers_before(origin, number), 1)?;
    Ok(found.pop())
}

/// Whether two records are equal.
#[tactic(auto, using(records::proofs::Equal::records))]
fn are_equal(a: &Record, b: &Record) -> bool
    ensures { IsTrue result ↔ (a.now ≡ b.now) }
{
    *a == *b
}

/// The clash of a record with the one of its name, if it has one.
fn clash_of<A: Archive>(
    alloc: Global,
    archive: &mut A,
    brought: &Record,
) -> Result<Option<Clash>, ExchangeFault>
    requires { IsLawfulRecord brought.now }
    ensures asks { AsksFor (A.state archive.old) (A.state archive.new) result
        (FindsClash (A.state archive.old).content (brought.now ∷ [])) }
    ensures asked { IsAskedWithin 1 (A.asked archive.old) (A.asked archive.new) }
{
    let Some(held) = find_name(alloc, archive, brought.origin, brought.number)? else {
        return Ok(None);
    };
    if are_equal(&held, brought) {
        return Ok(None);
    }
    let brought = brought.try_clone()?;
    Ok(Some(Clash { held, brought }))
}

/// Compares records that came from a peer with those of the same names that are held, one after the other, up to the first that
/// isn't equal: that clash, or none where each of them is equal to the one that is held by its name, or none is held by it. What
/// is held stays. One record is read at a time, one for each whose name is held: of the others the numbers that are held tell it.
/// Errors are `OutOfMemory` and `Store`. The condition is `Record::is_lawful` of each record, which holds of those that a frame
/// brings.
pub fn find_clash<A: Archive>(
    alloc: Global,
    archive: &mut A,
    brought: &[Record],
) -> Result<Option<Clash>, ExchangeFault>
    requires { AllByRecursion IsLawfulRecord brought.now }
    ensures asks { AsksFor (A.state archive.old) (A.state archive.new) result
        (FindsClash (A.state archive.old).content brought.now) }
    ensures asked { IsAskedWithin 1 (A.asked archive.old) (A.asked archive.new) }
{
    let held = archive.vector()?;
    for record in brought {
        if held.covers(record.origin, record.number) {
            match clash_of(alloc, archive, record)? {
                None => {}
                Some(clash) => return Ok(Some(clash)),
            }
        }
    }
    Ok(None)
}
