//! One connection, from a reader to a writer.

ghost use Rattle.ua_server.specs.Either.{ServesEither};
ghost use Rattle.std.specs.Prelude.{◌≡◌, IfOk, IsErrOf, []};
ghost use Rattle.std.specs.Io.KnownBytes.{Consumes, IsAtEnd};
ghost use Rattle.counted_io.specs.Bytes.{counted};
ghost use Rattle.ua_connection.specs.Environments.{Environment};
ghost use Rattle.ua_server.specs.Single.{EndsAs, MakesDigits, PrintsHex, DoesAnswer, AnswersAt};

use crate::either::serve;
use crate::hexed::{HexFault, answer_hex};
use archive::Archive;
use counted_io::{Counted, ServeFault};
use historian::Server;
use std::alloc::Global;
use std::io::{Read, Write};
use ua_connection::{Clock, ConstantClock};

/// The bytes that one read of a text asks for.
const PIECE: usize = 4096;

/// All bytes that the reader has.
fn read_all<R: Read>(alloc: Global, input: &mut Counted<R>) -> Result<Vec<u8>, ServeFault>
    ensures bytes { IfOk result
        (λ bytes. Consumes (R.remaining input.old.inner) (R.remaining input.new.inner) bytes.items
        × IsAtEnd (R.remaining input.new.inner)) }
    ensures read { IsErrOf result ServeFault.Read → input.new.faults ≡ counted input.old.faults }
    ensures no_write { IsErrOf result ServeFault.Write → ⊥ }
    ensures no_long { IsErrOf result ServeFault.TooLong → ⊥ }
{
    let mut bytes = Vec::new(alloc);
    let mut piece = [0u8; PIECE];
    'pieces: loop {
        let n = input.read_piece(&mut piece)?;
        if n == 0 {
            return Ok(bytes);
        }
        if bytes.extend_from_slice(&piece[..n]).is_err() {
            return Err(ServeFault::OutOfMemory);
        }
    }
}

/// Answers one connection over a replica.
fn answer<A: Archive, R: Read, W: Write, C: Clock>(
    server: &mut Server<A>,
    input: &mut Counted<R>,
    output: &mut Counted<W>,
    clock: &mut C,
) -> Result<(), HexFault>
    ensures read { IsErrOf result (HexFault.Serve ServeFault.Read)
        → input.new.faults ≡ counted input.old.faults }
    ensures write { IsErrOf result (HexFault.Serve ServeFault.Write)
        → output.new.faults ≡ counted output.old.faults }
    ensures ends { (used : Environment) × C.gave clock.old used.readings clock.new
        × EndsAs
        (λ ending.
        ServesEither server.old.settings (A.state server.old.replica.archive)
        (A.state server.new.replica.archive) (R.remaining input.old.inner) (R.remaining input.new.inner) (W.contents output.old.inner)
        (W.contents output.new.inner) used ending) result }
    ensures settings { server.new.settings ≡ server.old.settings }
{
    match serve(input, output, server, clock) {
        Ok(_) => Ok(()),
        Err(fault) => Err(HexFault::Serve(fault)),
    }
}

/// The answer in hex digits to the connection in hex digits that the reader has.
fn hex_answer<A: Archive, R: Read, C: Clock>(
    server: &mut Server<A>,
    input: &mut Counted<R>,
    clock: &mut C,
) -> Result<Vec<u8>, HexFault>
    ensures digits { (used : Environment) × C.gave clock.old used.readings clock.new
        × MakesDigits server.old.settings (A.state server.old.replica.archive)
        (A.state server.new.replica.archive) (λ digits. digits.items) (R.remaining input.old.inner) used result }
    ensures read { IsErrOf result (HexFault.Serve ServeFault.Read)
        → input.new.faults ≡ counted input.old.faults }
    ensures settings { server.new.settings ≡ server.old.settings }
{
    let bytes = match read_all(server.alloc, input) {
        Ok(bytes) => bytes,
        Err(fault) => return Err(HexFault::Serve(fault)),
    };
    let Ok(text) = std::str::from_utf8(bytes.as_slice()) else {
        return Err(HexFault::BadHex);
    };
    let mut digits = Vec::new(server.alloc);
    match answer_hex(server, text, &mut digits, clock) {
        Ok(_) => Ok(digits),
        Err(fault) => Err(fault),
    }
}

/// Answers one connection in hex digits, and ends the line.
fn answer_in_hex<A: Archive, R: Read, W: Write, C: Clock>(
    server: &mut Server<A>,
    input: &mut Counted<R>,
    output: &mut Counted<W>,
    clock: &mut C,
) -> Result<(), HexFault>
    ensures read { IsErrOf result (HexFault.Serve ServeFault.Read)
        → input.new.faults ≡ counted input.old.faults }
    ensures write { IsErrOf result (HexFault.Serve ServeFault.Write)
        → output.new.faults ≡ counted output.old.faults }
    ensures prints { (used : Environment) × C.gave clock.old used.readings clock.new
        × PrintsHex server.old.settings (A.state server.old.replica.archive)
        (A.state server.new.replica.archive) (R.remaining input.old.inner) (W.contents output.old.inner)
        (W.contents output.new.inner) used result }
    ensures settings { server.new.settings ≡ server.old.settings }
{
    let digits = hex_answer(server, input, clock)?;
    match output.send_line(digits.as_slice()) {
        Ok(()) => Ok(()),
        Err(fault) => Err(HexFault::Serve(fault)),
    }
}

/// Answers one connection, in hex digits or in bytes.
fn answer_either<A: Archive, R: Read, W: Write, C: Clock>(
    server: &mut Server<A>,
    hex: bool,
    input: &mut Counted<R>,
    output: &mut Counted<W>,
    clock: &mut C,
) -> Result<(), HexFault>
    ensures read { IsErrOf result (HexFault.Serve ServeFault.Read)
        → input.new.faults ≡ counted input.old.faults }
    ensures write { IsErrOf result (HexFault.Serve ServeFault.Write)
        → output.new.faults ≡ counted output.old.faults }
    ensures does { (used : Environment) × C.gave clock.old used.readings clock.new
        × DoesAnswer server.old.settings (A.state server.old.replica.archive)
        (A.state server.new.replica.archive) hex (R.remaining input.old.inner) (R.remaining input.new.inner) (W.contents output.old.inner)
        (W.contents output.new.inner) used result }
    ensures settings { server.new.settings ≡ server.old.settings }
{
    if hex {
        answer_in_hex(server, input, output, clock)
    } else {
        answer(server, input, output, clock)
    }
}

/// How one connection is answered.
#[derive(Clone, Copy, Debug, PartialEq, Eq)]
pub struct AnswerTerms {
    /// Whether what comes and what goes are hex digits.
    pub hex: bool,
    /// The moment at which the clock stands; without one it is read.
    pub moment: Option<i64>,
}

/// Answers one connection: what the reader has, as `serve` does, or where `hex` is set what it has in hex digits, as
/// `answer_hex` does, with the digits of the answer and a line end. Where a moment is given the clock isn't read, and
/// stands at that.
///
/// Errors: `BadHex` where hex is asked for and the input isn't UTF-8 or isn't hex, and `Serve` as `serve` has it, or where memory for the digits was wanting; of hex nothing is written
/// then, or a first part where a write failed.
pub fn answer_at<A: Archive, R: Read, W: Write, C: Clock>(
    server: &mut Server<A>,
    terms: AnswerTerms,
    input: &mut Counted<R>,
    output: &mut Counted<W>,
    clock: &mut C,
) -> Result<(), HexFault>
    ensures read { IsErrOf result (HexFault.Serve ServeFault.Read)
        → input.new.faults ≡ counted input.old.faults }
    ensures write { IsErrOf result (HexFault.Serve ServeFault.Write)
        → output.new.faults ≡ counted output.old.faults }
    ensures does { (used : Environment) × C.gave clock.old used.readings clock.new
        × AnswersAt server.old.settings (A.state server.old.replica.archive)
        (A.state server.new.replica.archive) terms.hex terms.moment (R.remaining input.old.inner)
        (R.remaining input.new.inner) (W.contents output.old.inner) (W.contents output.new.inner)
        used result }
    ensures settings { server.new.settings ≡ server.old.settings }
{
    match terms.moment {
        None => answer_either(server, terms.hex, input, output, clock),
        Some(now) => answer_either(server, terms.hex, input, output, &mut ConstantClock(now)),
    }
}
