//! Arrays of a request (Part 6, 5.2.5), of which the first items are kept while every item is read.

ghost use Rattle.std.specs.Prelude.{◌≡◌, ◌≤◌, ◌++◌, ◌∷◌, [], length, map, take, MatchResult};
ghost use Rattle.ua_binary.specs.Format.{Reads, ReadsPart, ReadsUnless, items_at, with_fault};
ghost use Rattle.ua_binary.specs.Binary.{count_at};
ghost use Rattle.ua_binary.specs.declared.fault.BinaryFault.{BinaryFault};
ghost use Rattle.ua_services.specs.Unkept.{first_items, first_items_of};

use std::alloc::Global;
use ua_binary::{BinaryFault, Cursor, Decode, Fault};

/// What is kept of a list that may have 1,000 items: one item more tells that it is too long.
pub(crate) const OF_A_THOUSAND: usize = 1_001;

/// What is kept of a list that may have 100 items.
pub(crate) const OF_A_HUNDRED: usize = 101;

/// The count of an array, whose faults are told in another way.
fn count_as<E: Fault>(cursor: &mut Cursor) -> Result<usize, E>
    ensures { Reads (λ x. x) result cursor.old cursor.new
        (λ bytes. with_fault E.told (count_at bytes)) }
{
    match cursor.count() {
        Ok(count) => Ok(count),
        Err(e) => Err(E::tell(e)),
    }
}

/// An empty list with room for so many items; want of memory is told in another way.
fn with_room<E: Fault, T: Drop>(alloc: Global, room: usize) -> Result<Vec<T>, E>
    ensures { MatchResult result (λ v. v.items ≡ []) (λ e. e ≡ E.told BinaryFault.OutOfMemory) }
{
    match Vec::with_capacity(alloc, room) {
        Ok(items) => Ok(items),
        Err(_) => Err(E::tell(BinaryFault::OutOfMemory)),
    }
}

/// Adds an item behind the kept ones where there are fewer than `most`, and drops it where there are as
/// many; want of memory is told in another way.
fn keep<E: Fault, T: Drop>(items: &mut Vec<T>, item: T, most: usize) -> Result<(), E>
    requires { length items.old.items ≤ most }
    ensures { MatchResult result (λ _. items.new.items ≡ take most (items.old.items ++ item ∷ []))
        (λ e. e ≡ E.told BinaryFault.OutOfMemory) }
{
    if items.len() >= most {
        return Ok(());
    }
    match items.push(item) {
        Ok(()) => Ok(()),
        Err(_) => Err(E::tell(BinaryFault::OutOfMemory)),
    }
}

/// So many items, one after the other, of which the first `most` are kept. A refusal leaves the cursor
/// anywhere.
fn read_items<'a, T: Decode<'a> + Drop>(
    alloc: Global,
    cursor: &mut Cursor<'a>,
    count: usize,
    most: usize,
) -> Result<Vec<T>, T::Fault>
    ensures { ReadsPart (T.Fault.told BinaryFault.OutOfMemory)
        (λ v. map T.view v.items) result cursor.old cursor.new
        (λ bytes. first_items most (items_at T.format.read count bytes)) }
{
    let room = count.min(most).min(cursor.rest().len());
    let mut items = with_room::<T::Fault, T>(alloc, room)?;
    for _ in 0..count {
        let item = T::decode(alloc, cursor)?;
        keep::<T::Fault, T>(&mut items, item, most)?;
    }
    Ok(items)
}

/// An array, of which the first `most` items are kept: every item is read and judged, and those behind
/// them are dropped. A refusal leaves the cursor where it was, and is that of the count, of the first
/// item that is refused, also behind the kept ones, or `OutOfMemory`.
#[tactic(auto, using(ua_binary::proofs::Lawful::array_read), unfolding(crate::specs::Unkept::first_items_of))]
pub(crate) fn read_first<'a, T: Decode<'a> + Drop>(
    alloc: Global,
    cursor: &mut Cursor<'a>,
    most: usize,
) -> Result<Vec<T>, T::Fault>
    ensures { ReadsUnless (T.Fault.told BinaryFault.OutOfMemory)
        (λ v. map T.view v.items) result cursor.old cursor.new
        (first_items_of most T.Fault.told T.format).read }
{
    let mut next = cursor.fork();
    let count = count_as::<T::Fault>(&mut next)?;
    let items = match read_items::<T>(alloc, &mut next, count, most) {
        Ok(items) => items,
        Err(e) => return Err(e),
    };
    *cursor = next;
    Ok(items)
}
