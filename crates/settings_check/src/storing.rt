//! What an archive holds of the variables of settings is printed.

ghost use Rattle.std.specs.Prelude.{◌≡◌, ◌≢◌, [], ⊤, Err, MatchResult, IsErrOf};
ghost use Rattle.counted_io.specs.Bytes.{counted};
ghost use Rattle.archive.specs.Store.{IsAskedWithin};
ghost use Rattle.history_report.specs.Paging.{IsPut};
ghost use Rattle.settings_check.specs.Nodes.{variable_ids};
ghost use Rattle.settings_check.specs.Stored.{IsVectorOf, ends_of, TellsVariable, TellsVariables, TellsStore, Reads, check_faults, PrintsStore};

use crate::asking::ends_of;
use crate::fault::CheckFault;
use crate::nodes::variables_of;
use crate::values::{put_records, put_variable};
use archive::Archive;
use counted_io::Counted;
use stamp::Vector;
use std::alloc::Global;
use std::io::Write;
use ua_binary::NodeId;
use ua_settings::Settings;
use ua_space::Space;

/// Appends the lines of a variable.
fn tell_variable<A: Archive>(
    archive: &mut A,
    space: &Space,
    node: &NodeId,
    within: &Vector,
    out: &mut Vec<u8>,
) -> Result<(), CheckFault>
    ensures answers { MatchResult result
        (λ done. Reads (A.state archive.old) (A.state archive.new) []
        (λ R. IsVectorOf within.now R → IsPut out.old.items out.new.items
        (TellsVariable node.now (ends_of space.now R node.now))))
        (λ why. (why ≢ CheckFault.Write)
        × Reads (A.state archive.old) (A.state archive.new) (check_faults (Err why)) (λ R. ⊤)) }
    ensures asked { IsAskedWithin 1 (A.asked archive.old) (A.asked archive.new) }
{
    let alloc = *out.allocator();
    let ends = match ends_of(alloc, archive, space, node, within) {
        Ok(ends) => ends,
        Err(fault) => return Err(CheckFault::Store(fault)),
    };
    match put_variable(alloc, out, node, &ends) {
        Ok(()) => Ok(()),
        Err(_) => Err(CheckFault::OutOfMemory),
    }
}

/// Appends the lines of these variables.
fn tell_each<A: Archive>(
    archive: &mut A,
    space: &Space,
    nodes: &[NodeId],
    within: &Vector,
    out: &mut Vec<u8>,
) -> Result<(), CheckFault>
    ensures answers { MatchResult result
        (λ done. Reads (A.state archive.old) (A.state archive.new) []
        (λ R. IsVectorOf within.now R → IsPut out.old.items out.new.items
        (TellsVariables space.now R nodes.now)))
        (λ why. (why ≢ CheckFault.Write)
        × Reads (A.state archive.old) (A.state archive.new) (check_faults (Err why)) (λ R. ⊤)) }
    ensures asked { IsAskedWithin 1 (A.asked archive.old) (A.asked archive.new) }
{
    for node in nodes {
        match tell_variable(archive, space, node, within, out) {
            Ok(()) => {}
            Err(fault) => return Err(fault),
        }
    }
    Ok(())
}

/// Appends the lines of the variables of a space.
fn tell_variables<A: Archive>(
    alloc: Global,
    archive: &mut A,
    space: &Space,
    within: &Vector,
    out: &mut Vec<u8>,
) -> Result<(), CheckFault>
    ensures answers { MatchResult result
        (λ done. Reads (A.state archive.old) (A.state archive.new) []
        (λ R. IsVectorOf within.now R → IsPut out.old.items out.new.items
        (TellsVariables space.now R (variable_ids space.now))))
        (λ why. (why ≢ CheckFault.Write)
        × Reads (A.state archive.old) (A.state archive.new) (check_faults (Err why)) (λ R. ⊤)) }
    ensures asked { IsAskedWithin 1 (A.asked archive.old) (A.asked archive.new) }
{
    let nodes = match variables_of(alloc, space) {
        Ok(nodes) => nodes,
        Err(_) => return Err(CheckFault::OutOfMemory),
    };
    tell_each(archive, space, nodes.as_slice(), within, out)
}

/// Makes the lines that tell what is held, each with its end.
fn tell_store<A: Archive>(
    alloc: Global,
    archive: &mut A,
    space: &Space,
    out: &mut Vec<u8>,
) -> Result<(), CheckFault>
    ensures answers { MatchResult result
        (λ done. Reads (A.state archive.old) (A.state archive.new) []
        (λ R. IsPut out.old.items out.new.items (TellsStore space.now R)))
        (λ why. (why ≢ CheckFault.Write)
        × Reads (A.state archive.old) (A.state archive.new) (check_faults (Err why)) (λ R. ⊤)) }
    ensures asked { IsAskedWithin 1 (A.asked archive.old) (A.asked archive.new) }
{
    let within = match archive.vector() {
        Ok(within) => within,
        Err(fault) => return Err(CheckFault::Store(fault)),
    };
    match put_records(out, &within) {
        Ok(()) => {}
        Err(_) => return Err(CheckFault::OutOfMemory),
    }
    tell_variables(alloc, archive, space, &within, out)
}

/// Prints what an archive holds: how many records of each replica, and from when to when there are
/// live values of each variable of the settings, with a warning where the last of them isn't of the
/// type that the settings say. The archive stays as it is. It is asked for one value at a time,
/// twice for each variable.
///
/// Errors: `Store` where the archive met a fault of its store, and `OutOfMemory` where memory was
/// wanting; then nothing is printed. `Write` where a write failed (the writer's `faults` rose);
/// what was printed stands, a first part of the lines.
pub fn print_store<A: Archive, W: Write>(
    alloc: Global,
    archive: &mut A,
    settings: &Settings,
    output: &mut Counted<W>,
) -> Result<(), CheckFault>
    ensures prints { PrintsStore settings.now.space (A.state archive.old) (A.state archive.new)
        (W.contents output.old.inner) (W.contents output.new.inner) result }
    ensures asked { IsAskedWithin 1 (A.asked archive.old) (A.asked archive.new) }
    ensures write { IsErrOf result CheckFault.Write
        → output.new.faults ≡ counted output.old.faults }
    ensures kept { (IsErrOf result CheckFault.Write → ⊥) → output.new.faults ≡ output.old.faults }
{
    let mut text = Vec::new(alloc);
    match tell_store(alloc, archive, settings.space(), &mut text) {
        Ok(()) => {}
        Err(fault) => return Err(fault),
    }
    match output.send(text.as_slice()) {
        Ok(()) => Ok(()),
        Err(_) => Err(CheckFault::Write),
    }
}
