//! A witness: archives that run, of which the premises of the laws hold.

ghost use Rattle.std.specs.Prelude.{◌≡◌, [], map, IfOk};
ghost use Rattle.std.specs.List.{AllByRecursion};
ghost use Rattle.exchange.specs.Running.{event_of};
ghost use Rattle.exchange.specs.Worlds.{IsConsistent, run};
ghost use Rattle.headline.specs.Answers.{IsInUse};
ghost use Rattle.headline.specs.Machines.{AreNew, Simulates};
ghost use Rattle.headline.specs.Executions.{Execution};

use crate::lawful::are_lawful;
use archive::{Archive, ListArchive, memory_is_honest};
use exchange::{Event, run_world};
use stamp::ReplicaNo;
use std::alloc::{AllocError, Global};
use uuid::Uuid;

/// An archive in memory is in use.
fn is_in_use(machine: &ListArchive)
    ensures { IsInUse (⟦<ListArchive as Archive>⟧.state machine.now) }
{
    memory_is_honest();
    let _number = machine.number();
}

/// Archives in memory are in use.
fn are_in_use(machines: &[ListArchive])
    ensures { AllByRecursion
        (λ machine. IsInUse (⟦<ListArchive as Archive>⟧.state machine)) machines.now }
{
    for machine in machines {
        is_in_use(machine);
    }
}

/// Two replicas of one archive that hold nothing.
fn two(
    alloc: Global,
    id: Uuid,
    one: ReplicaNo,
    other: ReplicaNo,
) -> Result<Vec<ListArchive>, AllocError>
    requires { one ≡ other → ⊥ }
    ensures { IfOk result (λ machines. AreNew ⟦<ListArchive as Archive>⟧.state machines.items) }
{
    let first = ListArchive::new(alloc, id, one);
    let second = ListArchive::new(alloc, id, other);
    is_in_use(&first);
    is_in_use(&second);
    let (_id, _one, _other) = (id.as_bytes(), one.get(), other.get());
    let Ok(machines) = vec![in alloc; first, second] else {
        return Err(AllocError);
    };
    Ok(machines)
}

/// Opens two archives in memory, two replicas of one archive that hold nothing, and lets events happen between them: updates at
/// either, batches that one sends and that come to the other, in any order. After them there is a past of just these events, and
/// the archives hold what its replicas do; its world is sound. So what the laws of this crate ask for is there, of code that runs:
/// a past, replicas of it at any time, machines of it, updates that were answered, and archives that may be read.
///
/// The numbers are to be two. Errors: how many events happened before memory was wanting; none does where one of them isn't lawful
/// (a node's id or a user of more than 256 bytes, a delete that is written, a value that has no spelling).
pub fn two_machines(
    alloc: Global,
    id: Uuid,
    one: ReplicaNo,
    other: ReplicaNo,
    events: &[Event],
) -> Result<Vec<ListArchive>, usize>
    requires { one ≡ other → ⊥ }
    ensures { IfOk result
        (λ machines. (p : Execution) × (p.events ≡ map event_of events.now)
        × Simulates ⟦<ListArchive as Archive>⟧.state p machines.items
        × IsConsistent (run p.events p.start)) }
{
    if !are_lawful(events) {
        return Err(0);
    }
    let Ok(mut machines) = two(alloc, id, one, other) else {
        return Err(0);
    };
    run_world(alloc, &mut machines, events)?;
    are_in_use(machines.as_slice());
    Ok(machines)
}
