//! A call that looks for numbers that were given twice: how it begins, and what the first frame that answers it shows.

ghost use Rattle.std.specs.Prelude.{◌≡◌, ◌≤◌, ◌-◌, ℕ, IfOk, IfErr};
ghost use Rattle.std.specs.List.{AllByRecursion};
ghost use Rattle.stamp.specs.Limits.{IsReplica, greatest};
ghost use Rattle.stamp.specs.Numbers.{number_of};
ghost use Rattle.records.specs.Spelling.{IsLawfulRecord};
ghost use Rattle.archive.specs.Store.{IsAskedWithin};
ghost use Rattle.exchange.specs.declared.fault.ExchangeFault.TheVariants as fault;
ghost use Rattle.exchange.specs.Dialogs.{party_of};
ghost use Rattle.peer_check.specs.Beginning.{GreetsBefore, first_brought, Compares};

use crate::calling::{BEHIND_REPLICAS, party_of};
use crate::comparing::{Clash, find_clash};
use archive::Archive;
use exchange::{
    ExchangeFault, Frames, Message, Party, Replica, put_message, read_message, title_of,
};
use records::Record;
use stamp::{ReplicaNo, Vector};
use std::alloc::Global;
use ua_binary::Listing;

/// One less than a number; 0 of 0.
fn number_before(number: u64) -> u64
    ensures is { result ≡ number - 1 }
    ensures greatest { number ≤ greatest → result ≤ greatest }
{
    number.saturating_sub(1)
}

/// For each replica one less than its number here, 0 of 0: a vector that lacks the last record of each.
fn vector_before_last(held: &Vector) -> Vector
    ensures { (replica : ℕ) → IsReplica replica
        → number_of result replica ≡ number_of held.now replica - 1 }
{
    let mut numbers = Vector::new();
    for n in 1..BEHIND_REPLICAS {
        if let Some(replica) = ReplicaNo::new(n) {
            numbers.raise(replica, number_before(held.get(replica)));
        }
    }
    numbers
}

/// Appends the first frame of a call that looks for numbers that were given twice: it asks for the last record of each replica
/// of which some are held, and for all that come after it. A dialog may go on behind it, as `Dialog::asking`. Errors are
/// `OutOfMemory` and `Store`, and then `out` is as it was.
pub fn greet_before<A: Archive>(
    alloc: Global,
    replica: &mut Replica<A>,
    out: &mut Vec<u8>,
) -> Result<(), ExchangeFault>
    ensures greets { GreetsBefore (A.state replica.old.archive) (A.state replica.new.archive)
        out.old.items out.new.items result }
    ensures asked { IsAskedWithin 0 (A.asked replica.old.archive) (A.asked replica.new.archive) }
{
    let held = replica.archive.vector()?;
    let numbers = vector_before_last(&held);
    let message = Message::Asks(title_of(&replica.archive, numbers));
    put_message(alloc, out, &message)
}

/// The records that the frame which stands first brings to a party, if it is whole; none where it is no message to it. The one error
/// is `OutOfMemory`.
fn first_brought(
    alloc: Global,
    party: &Party,
    frames: &Frames,
) -> Result<Listing<Record>, ExchangeFault>
    ensures brought { IfOk result
        (λ records. records ≡ first_brought party.now frames.now.waiting) }
    ensures lawful { IfOk result (AllByRecursion IsLawfulRecord) }
    ensures starved { IfErr result (λ met. met ≡ fault.OutOfMemory) }
{
    let Some(frame) = frames.peek() else {
        return Ok(Listing::of(Vec::new(alloc)));
    };
    match read_message(alloc, party, frame.kind, frame.body) {
        Ok(Message::Carries(_, records)) => Ok(records),
        Err(ExchangeFault::OutOfMemory) => Err(ExchangeFault::OutOfMemory),
        Ok(Message::Asks(_) | Message::Ends(_)) | Err(_) => Ok(Listing::of(Vec::new(alloc))),
    }
}

/// Compares the records of the frame that stands first, if it is whole, with those of the same names that are held: the first that
/// isn't equal, with that one, or none. What is no frame, or no message to this replica, brings no records, and the frame stays
/// where it is. Nothing is learned. One record is read at a time, one for each whose name is held, up to the first that isn't
/// equal; a frame has at most 1,000 records, in 2 MiB, which bounds the reads of a call. Errors are `OutOfMemory` and `Store`.
pub fn find_first_clash<A: Archive>(
    alloc: Global,
    replica: &mut Replica<A>,
    frames: &Frames,
) -> Result<Option<Clash>, ExchangeFault>
    ensures compares { Compares A.state
        (first_brought (party_of (A.state replica.old.archive)) frames.now.waiting)
        replica.old.archive replica.new.archive result }
    ensures asked { IsAskedWithin 1 (A.asked replica.old.archive) (A.asked replica.new.archive) }
{
    let party = party_of(&replica.archive);
    let records = first_brought(alloc, &party, frames)?;
    if records.is_empty() {
        return Ok(None);
    }
    find_clash(alloc, &mut replica.archive, records.as_slice())
}
