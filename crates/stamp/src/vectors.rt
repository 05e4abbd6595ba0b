//! Vectors: how many records of each replica are held.

ghost use Rattle.stamp.specs.declared.fault.VectorFault.TheVariants.{BadNumber};
ghost use Rattle.stamp.specs.Fault.{vector_fault};
ghost use Rattle.std.specs.Prelude.{◌≡◌, ◌≢◌, Ok, ◌↔◌, ◌≤◌, ◌<◌, ◌+◌, ℕ, max, IsTrue, IfOk, length, nat_eq, nat_le};
ghost use Rattle.std.specs.Cmp.{partial_equiv_from_equiv};
ghost use Rattle.std.specs.Cmp.Lexicographic.{pointwise, nat_list_eq_equiv};
ghost use Rattle.std.specs.List.{flat_map};
ghost use Rattle.ua_binary.specs.declared.fault.BinaryFault.{BinaryFault};
ghost use Rattle.ua_binary.specs.Format.{Reads, Puts, PutsPart, standing_for, byte, passing, raised};
ghost use Rattle.stamp.specs.declared.fault.VectorFault.{VectorFault};
ghost use Rattle.stamp.specs.Limits.{greatest};
ghost use Rattle.stamp.specs.Numbers.{number_of, IsVector, zeros, entries, filled};
ghost use Rattle.stamp.specs.Vector.{vector, entry_above, entries_above};

use crate::fault::VectorFault;
use crate::stamps::ReplicaNo;
use std::alloc::AllocError;
use std::marker::Model;
use ua_binary::{BinaryFault, Cursor, TryClone, or_undone, put_u8, put_u64};

/// The greatest number of a record: 2^62 - 1.
pub const GREATEST_NUMBER: u64 = 4_611_686_018_427_387_903;

/// For each replica the number up to which its records are held, 0 where none is. Contracts see it
/// as the numbers of replicas 1 to 64 in this order, and speak of it as a map, by `number_of`.
#[derive(Clone, Copy, Debug)]
pub struct Vector {
    numbers: [u64; 64],
}

impl Model for Vector {
    ghost use Rattle.std.specs.Prelude.{List, ℕ};

    ghost Value = { List ℕ };

    ghost use Rattle.stamp.specs.Numbers.{IsVector};

    ghost view = { λ v. v.numbers };

    ghost invariant = { λ v. IsVector v.numbers };

    ghost inverse = { λ numbers. record { numbers = numbers } };
}

impl Vector {
    /// The vector of who holds no record: every number is 0.
    #[tactic(auto, using(crate::proofs::Maps::empties))]
    pub fn new() -> Vector
        ensures none { (replica : ℕ) → number_of result replica ≡ 0 }
        ensures zeros { result ≡ zeros }
    {
        Vector {
            numbers: no_numbers(),
        }
    }

    /// The number of a replica.
    pub fn get(&self, replica: ReplicaNo) -> u64
        ensures number { result ≡ number_of self.now replica }
        ensures vector { IsVector self.now }
    {
        self.numbers[place_of(replica)]
    }

    /// Raises the number of a replica to `number`, where it is below.
    #[tactic(auto, using(crate::proofs::Maps::raises))]
    pub fn raise(&mut self, replica: ReplicaNo, number: u64)
        requires { number ≤ greatest }
        ensures raised { number_of self.new replica ≡ max (number_of self.old replica) number }
        ensures others { (other : ℕ) → other ≢ replica → number_of self.new other ≡ number_of self.old other }
    {
        let i = place_of(replica);
        self.numbers[i] = self.numbers[i].max(number);
    }

    /// Whether the record of this number of a replica is held.
    pub fn covers(&self, replica: ReplicaNo, number: u64) -> bool
        ensures covers { IsTrue result ↔ (number ≤ number_of self.now replica) }
        ensures vector { IsVector self.now }
    {
        number <= self.get(replica)
    }

    /// Whether each replica's number is at least that in `other`.
    #[tactic(auto, using(crate::proofs::Maps::comparisons))]
    pub fn at_least(&self, other: &Vector) -> bool
        ensures { IsTrue result
            ↔ ((replica : ℕ) → number_of other.now replica ≤ number_of self.now replica) }
    {
        for i in 0..64 {
            if self.numbers[i] < other.numbers[i] {
                return false;
            }
        }
        true
    }

    /// Raises each replica's number to that in `other`, where it is below.
    #[tactic(auto, using(crate::proofs::Maps::joins))]
    pub fn join(&mut self, other: &Vector)
        ensures { (replica : ℕ)
            → number_of self.new replica
            ≡ max (number_of self.old replica) (number_of other.now replica) }
    {
        for i in 0..64 {
            self.numbers[i] = self.numbers[i].max(other.numbers[i]);
        }
    }

    /// A vector: a count of at most 64 in a byte, and for each replica with a number above 0,
    /// ascending, the replica in a byte and its number as a UInt64 (Part 6, 5.2.2.2). A field that
    /// passes the end is `Binary`; a count above 64, a replica outside 1 to 64 or a number outside 1
    /// to 2^62 - 1 is `BadNumber`; a replica that isn't above the one before it is `NotAscending`. The
    /// leftmost such field tells the fault, and the cursor then stays where it was. It takes no
    /// memory.
    #[tactic(auto, unfolding(crate::specs::Vector::vector))]
    pub fn read(cursor: &mut Cursor) -> Result<Vector, VectorFault>
        ensures { Reads (λ v. v) result cursor.old cursor.new vector.read }
    {
        let mut next = cursor.fork();
        let count = read_count(&mut next)?;
        let numbers = read_entries(&mut next, count)?;
        *cursor = next;
        Ok(Vector { numbers })
    }

    /// Writes it at the end, as `read` reads it, with the replicas whose number is above 0 alone. The
    /// one error is `OutOfMemory`, and then `out` is as it was.
    pub fn put(&self, out: &mut Vec<u8>) -> Result<(), VectorFault>
        ensures { Puts VectorFault.OutOfMemory result out.old.items out.new.items
            (vector.canon self.now) }
    {
        let len = out.len();
        let put = self.put_parts(out);
        or_undone(put, out, len)?;
        Ok(())
    }

    #[tactic(auto, using(ua_binary::proofs::Kept::kept, crate::proofs::Putting::canon_vector))]
    fn put_parts(&self, out: &mut Vec<u8>) -> Result<(), BinaryFault>
        ensures { PutsPart BinaryFault.OutOfMemory result out.old.items out.new.items
            (vector.canon self.now) }
    {
        put_u8(out, count_entries(&self.numbers))?;
        put_entries(out, &self.numbers)?;
        Ok(())
    }
}

impl PartialEq for Vector {
    ghost eq = { pointwise nat_eq };

    ghost laws = { partial_equiv_from_equiv nat_list_eq_equiv };

    fn eq(&self, other: &Vector) -> bool
        ensures computed { result ≡ pointwise nat_eq self.now other.now }
        ensures same { IsTrue result ↔ (self.now ≡ other.now) }
    {
        self.numbers == other.numbers
    }
}

impl Eq for Vector {
    ghost laws = { nat_list_eq_equiv };
}

impl TryClone for Vector {
    /// It takes no memory.
    fn try_clone(&self) -> Result<Vector, AllocError>
        ensures same { IfOk result (λ v. v ≡ self.now) }
        ensures always { result ≡ Ok self.now }
    {
        Ok(*self)
    }
}

/// No number above 0.
#[tactic(auto, unfolding(crate::specs::Numbers::zeros))]
fn no_numbers() -> [u64; 64]
    ensures { result ≡ zeros }
{
    [0; 64]
}

/// Where the number of a replica stands.
fn place_of(replica: ReplicaNo) -> usize
    ensures within { result < 64 }
    ensures place { result + 1 ≡ replica }
{
    replica.get() as usize - 1
}

/// How many entries a vector has.
fn read_count(cursor: &mut Cursor) -> Result<u8, VectorFault>
    ensures { Reads (λ x. x) result cursor.old cursor.new
        (passing (λ n. nat_le n 64) BadNumber (raised vector_fault byte)).read }
{
    let mut next = cursor.fork();
    let count = next.u8()?;
    if count > 64 {
        return Err(VectorFault::BadNumber);
    }
    *cursor = next;
    Ok(count)
}

/// A replica above `last` and its number.
fn read_entry(cursor: &mut Cursor, last: u8) -> Result<(ReplicaNo, u64), VectorFault>
    ensures entry { Reads (λ x. x) result cursor.old cursor.new (entry_above last).read }
    ensures within { IfOk result (λ e. e.1 ≤ greatest) }
{
    let mut next = cursor.fork();
    let Some(replica) = ReplicaNo::new(next.u8()?) else {
        return Err(VectorFault::BadNumber);
    };
    if replica.get() <= last {
        return Err(VectorFault::NotAscending);
    }
    let number = next.u64()?;
    if number == 0 || number > GREATEST_NUMBER {
        return Err(VectorFault::BadNumber);
    }
    *cursor = next;
    Ok((replica, number))
}

/// The numbers that so many entries give.
fn read_entries(cursor: &mut Cursor, count: u8) -> Result<[u64; 64], VectorFault>
    ensures numbers { Reads (λ x. x) result cursor.old cursor.new
        (standing_for (filled zeros) entries (entries_above 0 count)).read }
    ensures vector { IfOk result IsVector }
{
    let mut next = cursor.fork();
    let mut numbers = no_numbers();
    let mut last = 0;
    for _ in 0..count {
        let (replica, number) = read_entry(&mut next, last)?;
        numbers[place_of(replica)] = number;
        last = replica.get();
    }
    *cursor = next;
    Ok(numbers)
}

/// How many replicas have a number above 0.
#[tactic(auto, using(crate::proofs::Putting::counts))]
fn count_entries(numbers: &[u64; 64]) -> u8
    ensures { result ≡ length (entries numbers.now) }
{
    let mut count = 0;
    for number in numbers {
        if *number > 0 {
            count += 1;
        }
    }
    count
}

/// A replica and its number.
#[tactic(auto, using(ua_binary::proofs::Kept::kept))]
fn put_entry(out: &mut Vec<u8>, replica: u8, number: u64) -> Result<(), BinaryFault>
    ensures { PutsPart BinaryFault.OutOfMemory result out.old.items out.new.items
        ((entry_above 0).canon (replica, number)) }
{
    put_u8(out, replica)?;
    put_u64(out, number)
}

/// The replicas with a number above 0, each with its number.
#[tactic(auto, using(crate::proofs::Putting::puts))]
fn put_entries(out: &mut Vec<u8>, numbers: &[u64; 64]) -> Result<(), BinaryFault>
    ensures { PutsPart BinaryFault.OutOfMemory result out.old.items out.new.items
        (flat_map (entry_above 0).canon (entries numbers.now)) }
{
    for i in 0..64 {
        if numbers[i] > 0 {
            put_entry(out, i as u8 + 1, numbers[i])?;
        }
    }
    Ok(())
}
