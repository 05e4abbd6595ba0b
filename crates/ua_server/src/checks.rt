//! Checks: what the command `check` tells.

ghost use Rattle.std.specs.Prelude.{◌≡◌, IsErrOf};
ghost use Rattle.counted_io.specs.Bytes.{counted};
ghost use Rattle.ua_server.specs.Checking.{check_fault, TellsArchive, TellsCheck};

use crate::program::ProgramFault;
use archive::Archive;
use counted_io::{Counted, ServeFault};
use historian::Server;
use settings_check::{CheckFault, print_check, print_store};
use std::io::Write;

/// What the fault of a check is called by the program.
fn check_fault(fault: CheckFault) -> ProgramFault
    ensures same { result ≡ check_fault fault }
    ensures read { result ≡ ProgramFault.Connection ServeFault.Read → ⊥ }
    ensures write { result ≡ ProgramFault.Connection ServeFault.Write → fault ≡ CheckFault.Write }
{
    match fault {
        CheckFault::Store(fault) => ProgramFault::Store(fault),
        CheckFault::Write => ProgramFault::Connection(ServeFault::Write),
        CheckFault::OutOfMemory => ProgramFault::Connection(ServeFault::OutOfMemory),
    }
}

/// Tells what the archive of a server holds, as the program tells it.
fn archive_over<A: Archive, W: Write>(
    server: &mut Server<A>,
    output: &mut Counted<W>,
) -> Result<(), ProgramFault>
    ensures read { IsErrOf result (ProgramFault.Connection ServeFault.Read) → ⊥ }
    ensures write { IsErrOf result (ProgramFault.Connection ServeFault.Write)
        → output.new.faults ≡ counted output.old.faults }
    ensures tells { TellsArchive server.old.settings (A.state server.old.replica.archive)
        (A.state server.new.replica.archive) (W.contents output.old.inner)
        (W.contents output.new.inner) result }
{
    match print_store(
        server.alloc,
        &mut server.replica.archive,
        &server.settings,
        output,
    ) {
        Ok(()) => Ok(()),
        Err(fault) => Err(check_fault(fault)),
    }
}

/// Tells what the settings of a server say, and where this is asked for what its archive holds.
pub(crate) fn check_over<A: Archive, W: Write>(
    server: &mut Server<A>,
    store: bool,
    output: &mut Counted<W>,
) -> Result<(), ProgramFault>
    ensures read { IsErrOf result (ProgramFault.Connection ServeFault.Read) → ⊥ }
    ensures write { IsErrOf result (ProgramFault.Connection ServeFault.Write)
        → output.new.faults ≡ counted output.old.faults }
    ensures tells { TellsCheck A.state server.old.settings store server.old.replica.archive
        server.new.replica.archive (W.contents output.old.inner) (W.contents output.new.inner)
        result }
{
    match print_check(server.alloc, &server.settings, output) {
        Ok(()) => {}
        Err(fault) => return Err(check_fault(fault)),
    }
    if store {
        archive_over(server, output)
    } else {
        Ok(())
    }
}
