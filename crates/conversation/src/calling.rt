//! How a call of a peer begins.

ghost use Rattle.std.specs.Prelude.{◌≡◌, ◌++◌, List, ℕ, [], IfOk};
ghost use Rattle.std.specs.Result.{result_map_both};
ghost use Rattle.ua_peers.specs.Calling.{calling};
ghost use Rattle.conversation.specs.Comparing.{checks_callee};
ghost use Rattle.conversation.specs.Starting.{GreetsPeer, AsksPeer};

use crate::answering::append;
use crate::world::World;
use archive::Archive;
use exchange::{Dialog, ExchangeFault, Replica};
use peer_check::greet_before;
use std::alloc::Global;
use ua_settings::Settings;

/// Whether calls of the peer of this number in the settings look for numbers that were given twice.
pub(crate) fn checks_callee(settings: &Settings, callee: usize) -> bool
    ensures { result ≡ checks_callee settings.now callee }
{
    match settings.peers().as_slice().get(callee) {
        None => false,
        Some(peer) => peer.checks,
    }
}

/// A dialog as its initiator, whose first frame is made. One that looks for numbers that were given twice asks for the last record of
/// each replica that is held, too.
fn greet<A: Archive>(
    alloc: Global,
    checks: bool,
    replica: &mut Replica<A>,
    frame: &mut Vec<u8>,
) -> Result<Dialog, ExchangeFault>
    requires { frame.old.items ≡ [] }
    ensures greets { GreetsPeer checks (A.state replica.old.archive) (A.state replica.new.archive)
        frame.new.items (result_map_both (λ dialog. tt) (λ fault. fault) result) }
    ensures dialog { IfOk result (λ dialog. dialog ≡ calling) }
{
    if checks {
        greet_before(alloc, replica, frame)?;
        return Ok(Dialog::asking());
    }
    let mut dialog = Dialog::initiator();
    dialog.start(alloc, replica, frame)?;
    Ok(dialog)
}

/// A dialog with the peer of this number in the settings, as its initiator, whose first frame is appended to `out`. Where that can't be
/// made, `out` is as it was.
pub(crate) fn start_call<A: Archive, C, L>(
    alloc: Global,
    callee: usize,
    world: &mut World<A, C, L>,
    out: &mut Vec<u8>,
) -> Result<Dialog, ExchangeFault>
    ensures settings { world.new.server.settings ≡ world.old.server.settings }
    ensures clock { world.new.clock ≡ world.old.clock }
    ensures log { world.new.log ≡ world.old.log }
    ensures from { world.new.from ≡ world.old.from }
    ensures now { world.new.now ≡ world.old.now }
    ensures logins { world.new.logins ≡ world.old.logins }
    ensures calls { world.new.calls ≡ world.old.calls }
    ensures connections { world.new.connections ≡ world.old.connections }
    ensures restoring { world.new.restoring ≡ world.old.restoring }
    ensures asks { (made : List ℕ) × (out.new.items ≡ out.old.items ++ made)
        × AsksPeer (checks_callee world.old.server.settings callee)
        (A.state world.old.server.replica.archive) (A.state world.new.server.replica.archive) made
        (result_map_both (λ dialog. tt) (λ fault. fault) result) }
    ensures dialog { IfOk result (λ dialog. dialog ≡ calling) }
{
    let checks = checks_callee(&world.server.settings, callee);
    let mut frame = Vec::new(alloc);
    let dialog = greet(alloc, checks, &mut world.server.replica, &mut frame)?;
    if append(frame, out) {
        Ok(dialog)
    } else {
        Err(ExchangeFault::OutOfMemory)
    }
}
