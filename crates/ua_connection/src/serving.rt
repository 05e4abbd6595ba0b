//! A connection, from the first byte read to the last one written.

ghost use Rattle.std.specs.Prelude.{◌≡◌, ◌≤◌, ◌<◌, ◌⊎◌, List, [], None, IfOk, OnOk, OnErr, IsErrOf, length};
ghost use Rattle.counted_io.specs.Bytes.{CountsWhere};
ghost use Rattle.ua_connection.specs.Client.{new_client};
ghost use Rattle.ua_binary.specs.declared.codes.TheConstants.Status.{BAD_OUT_OF_MEMORY};
ghost use Rattle.ua_connection.specs.Environments.{Environment};
ghost use Rattle.ua_connection.specs.Passing.{LineEvent};
ghost use Rattle.ua_connection.specs.Turns.{NeedsBytes, IsSmall, IsOwn, IsOwnEnd, IsNoLess, Shortens, AdvancesInto, SentAll, SendsRefusal, ending_of};
ghost use Rattle.ua_connection.specs.Serving.{ServesPromptly};

use crate::clock::Clock;
use crate::connection::Connection;
use crate::line::Line;
use crate::outcome::Served;
use crate::turn::{Step, end_of, put_refusal};
use archive::Archive;
use counted_io::ServeFault;
use historian::Server;
use ua_binary::Status;

/// The bytes that one read asks for, and the bytes of answers that are written at once.
const PIECE: usize = 65536;

/// Answers items until none waits, or there are bytes enough to write, or the connection ends.
fn answer_some<A: Archive, C: Clock>(
    server: &mut Server<A>,
    connection: &mut Connection,
    clock: &mut C,
    out: &mut Vec<u8>,
) -> Result<Step, ServeFault>
    requires { IsSmall connection.old }
    ensures turned { (used : Environment) × C.gave clock.old used.readings clock.new
        × AdvancesInto server.old.settings (A.state server.old.replica.archive)
        (A.state server.new.replica.archive) connection.old used out.old.items out.new.items
        (ending_of result) connection.new }
    ensures settings { server.new.settings ≡ server.old.settings }
    ensures own { IsOwn (NeedsBytes connection.new) 65536 result }
    ensures small { IsSmall connection.new }
    ensures shorter { Shortens result connection.old connection.new }
{
    'items: loop {
        match connection.advance(server, clock, out) {
            Ok(Step::NeedsInput) => return Ok(Step::NeedsInput),
            Ok(Step::Ended(served)) => return Ok(Step::Ended(served)),
            Err(fault) => return Err(fault),
            Ok(Step::Acknowledged(_)) => {
                if out.len() >= PIECE {
                    return Ok(Step::Continues);
                }
            }
            Ok(Step::Continues) => {
                if out.len() >= PIECE {
                    return Ok(Step::Continues);
                }
            }
        }
    }
}

/// Answers the items that wait, and sends the answers.
fn answer_waiting<A: Archive, X: Line, C: Clock>(
    server: &mut Server<A>,
    connection: &mut Connection,
    line: &mut X,
    clock: &mut C,
    out: &mut Vec<u8>,
) -> Result<Option<Served>, ServeFault>
    requires { IsSmall connection.old }
    ensures drained { (used : Environment) × C.gave clock.old used.readings clock.new
        × (events : List LineEvent) × X.passed line.old events line.new
        × SentAll server.old.settings (A.state server.old.replica.archive)
        (A.state server.new.replica.archive) connection.old used events result connection.new }
    ensures settings { server.new.settings ≡ server.old.settings }
    ensures own { IsOwnEnd
        (NeedsBytes connection.new × IsNoLess connection.old connection.new) result }
    ensures small { IsSmall connection.new }
    ensures writes { CountsWhere (IsErrOf result ServeFault.Write) (X.failed_writes line.old)
        (X.failed_writes line.new) }
    ensures reads { X.failed_reads line.new ≡ X.failed_reads line.old }
{
    'parts: loop {
        out.clear();
        let turn = answer_some(server, connection, clock, out);
        line.send(out.as_slice())?;
        match end_of(turn) {
            Some(end) => return end,
            None => {}
        }
    }
}

/// Ends the connection by an Error message that says that memory ran out.
fn send_starved<X: Line>(line: &mut X, out: &mut Vec<u8>) -> Result<Served, ServeFault>
    ensures sends { (events : List LineEvent) × X.passed line.old events line.new
        × SendsRefusal BAD_OUT_OF_MEMORY events result }
    ensures writes { CountsWhere (IsErrOf result ServeFault.Write) (X.failed_writes line.old)
        (X.failed_writes line.new) }
    ensures reads { X.failed_reads line.new ≡ X.failed_reads line.old }
{
    out.clear();
    let served = put_refusal(Status::BAD_OUT_OF_MEMORY, out)?;
    line.send(out.as_slice())?;
    Ok(served)
}

/// Answers a connection on, of which nothing was answered yet.
fn serve_on<X: Line, C: Clock, A: Archive>(
    server: &mut Server<A>,
    connection: &mut Connection,
    line: &mut X,
    clock: &mut C,
) -> Result<Served, ServeFault>
    requires fresh { connection.old.client ≡ new_client }
    requires short { NeedsBytes connection.old }
    ensures serves { (used : Environment) × C.gave clock.old used.readings clock.new
        × (events : List LineEvent) × X.passed line.old events line.new
        × ServesPromptly server.old.settings (A.state server.old.replica.archive)
        (A.state server.new.replica.archive) connection.old.waiting events used result }
    ensures settings { server.new.settings ≡ server.old.settings }
    ensures reads { CountsWhere (IsErrOf result ServeFault.Read) (X.failed_reads line.old)
        (X.failed_reads line.new) }
    ensures writes { CountsWhere (IsErrOf result ServeFault.Write) (X.failed_writes line.old)
        (X.failed_writes line.new) }
{
    let mut out = Vec::new(server.alloc);
    let mut piece = [0u8; PIECE];
    'reads: loop {
        let n = line.receive(&mut piece)?;
        if n == 0 {
            return Ok(Served::EndOfInput);
        }
        match connection.feed(&piece[..n]) {
            Ok(()) => {}
            Err(_) => return send_starved(line, &mut out),
        }
        match answer_waiting(server, connection, line, clock, &mut out) {
            Ok(None) => {}
            Ok(Some(served)) => return Ok(served),
            Err(fault) => return Err(fault),
        }
    }
}

/// Answers the connection of one client of which nothing was read before.
fn serve_first<X: Line, C: Clock, A: Archive>(
    server: &mut Server<A>,
    line: &mut X,
    clock: &mut C,
) -> Result<Served, ServeFault>
    ensures serves { (used : Environment) × C.gave clock.old used.readings clock.new
        × (events : List LineEvent) × X.passed line.old events line.new
        × ServesPromptly server.old.settings (A.state server.old.replica.archive)
        (A.state server.new.replica.archive) [] events used result }
    ensures settings { server.new.settings ≡ server.old.settings }
    ensures reads { CountsWhere (IsErrOf result ServeFault.Read) (X.failed_reads line.old)
        (X.failed_reads line.new) }
    ensures writes { CountsWhere (IsErrOf result ServeFault.Write) (X.failed_writes line.old)
        (X.failed_writes line.new) }
{
    let mut connection = Connection::new(server.alloc);
    serve_on(server, &mut connection, line, clock)
}

/// Answers the connection of one client of which these first bytes were read before.
fn serve_behind<X: Line, C: Clock, A: Archive>(
    server: &mut Server<A>,
    first: &[u8],
    line: &mut X,
    clock: &mut C,
) -> Result<Served, ServeFault>
    requires some { 0 < length first.now }
    requires few { length first.now < 8 }
    ensures serves { (used : Environment) × C.gave clock.old used.readings clock.new
        × (events : List LineEvent) × X.passed line.old events line.new
        × ServesPromptly server.old.settings (A.state server.old.replica.archive)
        (A.state server.new.replica.archive) first.now events used result }
    ensures settings { server.new.settings ≡ server.old.settings }
    ensures reads { CountsWhere (IsErrOf result ServeFault.Read) (X.failed_reads line.old)
        (X.failed_reads line.new) }
    ensures writes { CountsWhere (IsErrOf result ServeFault.Write) (X.failed_writes line.old)
        (X.failed_writes line.new) }
{
    let mut connection = Connection::new(server.alloc);
    match connection.feed(first) {
        Ok(()) => {}
        Err(_) => return send_starved(line, &mut Vec::new(server.alloc)),
    }
    serve_on(server, &mut connection, line, clock)
}

/// Answers the connection of one client over an archive, of which these first bytes, if any, were read before.
///
/// What is written is the answer to the bytes that were read, by the readings that the clock gave, and what the archive holds
/// then is what that answer left; after a fault of a write it is a first part of it. Whenever more is read, all that can be
/// answered of what came till then was written before. What is written is not flushed.
///
/// Errors: `Read` and `Write` where a read or a write failed, `TooLong` where a chunk comes after 1,000,000 of them,
/// `OutOfMemory` where memory was wanting and the Error message that tells it could not be made either.
pub fn serve<X: Line, C: Clock, A: Archive>(
    server: &mut Server<A>,
    first: &[u8],
    line: &mut X,
    clock: &mut C,
) -> Result<Served, ServeFault>
    requires { length first.now < 8 }
    ensures serves { (used : Environment) × C.gave clock.old used.readings clock.new
        × (events : List LineEvent) × X.passed line.old events line.new
        × ServesPromptly server.old.settings (A.state server.old.replica.archive)
        (A.state server.new.replica.archive) first.now events used result }
    ensures settings { server.new.settings ≡ server.old.settings }
    ensures reads { CountsWhere (IsErrOf result ServeFault.Read) (X.failed_reads line.old)
        (X.failed_reads line.new) }
    ensures writes { CountsWhere (IsErrOf result ServeFault.Write) (X.failed_writes line.old)
        (X.failed_writes line.new) }
{
    if first.is_empty() {
        serve_first(server, line, clock)
    } else {
        serve_behind(server, first, line, clock)
    }
}
