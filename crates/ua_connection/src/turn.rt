//! What one item of a connection comes to.

ghost use Rattle.std.specs.Prelude.{◌≡◌};
ghost use Rattle.ua_connection.specs.Turns.{IsOwn, Refuses, RefusesTurn, end_of};

use crate::outcome::Served;
use counted_io::ServeFault;
use ua_binary::Status;
use uacp::put_error;

/// What a turn of a connection comes to.
#[derive(Clone, Copy)]
pub enum Step {
    /// No whole chunk is there.
    NeedsInput,
    /// A Hello was acknowledged; later chunks may have so many bytes.
    Acknowledged(u32),
    /// A chunk was taken, and answered where it asks for an answer.
    Continues,
    /// The connection ends.
    Ended(Served),
}

/// Appends an Error message with this status code (Part 6, 7.1.2.5). The one error is `OutOfMemory`, which leaves `out`
/// as it was.
pub(crate) fn put_refusal(code: Status, out: &mut Vec<u8>) -> Result<Served, ServeFault>
    ensures { Refuses code result out.old.items out.new.items }
{
    match put_error(out, code) {
        Ok(()) => Ok(Served::Refused(code)),
        Err(_) => Err(ServeFault::OutOfMemory),
    }
}

/// Ends the connection by an Error message with this status code.
pub(crate) fn refuse(code: Status, out: &mut Vec<u8>) -> Result<Step, ServeFault>
    ensures refuses { RefusesTurn code result out.old.items out.new.items }
    ensures own { IsOwn ⊥ 65536 result }
{
    match put_refusal(code, out) {
        Ok(served) => Ok(Step::Ended(served)),
        Err(fault) => Err(fault),
    }
}

/// The end of a stretch of turns, where this one ends it.
pub(crate) fn end_of(turn: Result<Step, ServeFault>) -> Option<Result<Option<Served>, ServeFault>>
    ensures { result ≡ end_of turn }
{
    match turn {
        Ok(Step::NeedsInput) => Some(Ok(None)),
        Ok(Step::Acknowledged(_)) => None,
        Ok(Step::Continues) => None,
        Ok(Step::Ended(served)) => Some(Ok(Some(served))),
        Err(fault) => Some(Err(fault)),
    }
}
