//! A connection written in hex digits.

ghost use Rattle.std.specs.Prelude.{◌≡◌, IfOk, IsErrOf, IsErr, IfErr};
ghost use Rattle.hex.specs.Hex.{decode_of};
ghost use Rattle.ua_connection.specs.Environments.{Environment};
ghost use Rattle.ua_server.specs.Hexed.{digits_of, AnswersHex, IsBadOrStarved};

use crate::either::{Served, serve};
use archive::Archive;
use counted_io::{Counted, ServeFault};
use hex::FromHexError;
use historian::Server;
use std::alloc::{AllocError, Global};
use thiserror::Error;
use ua_connection::Clock;

/// Why a connection in hex digits has no answer.
#[derive(Clone, Copy, Debug, PartialEq, Eq, Error)]
pub enum HexFault {
    /// The text is no hex digits, or an odd number of them.
    #[error("bad hex")]
    BadHex,
    /// The connection ended so; `OutOfMemory` tells the memory for the digits too.
    #[error("the connection ended: {0}")]
    Serve(ServeFault),
}

/// The text without spaces and line ends.
fn digits(alloc: Global, text: &str) -> Result<Vec<u8>, AllocError>
    ensures { IfOk result (λ digits. digits.items ≡ digits_of text.now) }
{
    text.as_bytes()
        .iter()
        .copied()
        .filter(|byte| *byte != b' ' && *byte != b'\n' && *byte != b'\r')
        .collect(alloc)
}

/// The bytes that the text spells.
fn decoded(alloc: Global, text: &str) -> Result<Vec<u8>, HexFault>
    ensures ok { IfOk result (λ bytes. decode_of (digits_of text.now) ≡ Ok bytes.items) }
    ensures bad { IsErrOf result HexFault.BadHex → IsErr (decode_of (digits_of text.now)) }
    ensures memory { IfErr result IsBadOrStarved }
{
    let Ok(digits) = digits(alloc, text) else {
        return Err(HexFault::Serve(ServeFault::OutOfMemory));
    };
    match hex::decode(alloc, digits.as_slice()) {
        Ok(bytes) => Ok(bytes),
        Err(FromHexError::OutOfMemory) => Err(HexFault::Serve(ServeFault::OutOfMemory)),
        Err(_) => Err(HexFault::BadHex),
    }
}

/// Answers the connection, over a replica, that the text spells in hex digits of either case; spaces and line ends (space, CR, LF) are
/// skipped. The answer is appended to `out` in digits of upper case; after an `Err` `out` is as before.
///
/// Errors: `BadHex` where the text without spaces and line ends isn't hex, `Serve(TooLong)` as `serve` has it, and
/// `Serve(OutOfMemory)` where memory ran out.
pub fn answer_hex<C: Clock, A: Archive>(
    server: &mut Server<A>,
    text: &str,
    out: &mut Vec<u8>,
    clock: &mut C,
) -> Result<Served, HexFault>
    ensures answers { (used : Environment) × C.gave clock.old used.readings clock.new
        × AnswersHex server.old.settings (A.state server.old.replica.archive)
        (A.state server.new.replica.archive) text.now used out.old.items out.new.items result }
    ensures settings { server.new.settings ≡ server.old.settings }
{
    let input = match decoded(server.alloc, text) {
        Ok(input) => input,
        Err(fault) => return Err(fault),
    };
    let mut reader = Counted::new(input.as_slice());
    let mut writer = Counted::new(Vec::new(server.alloc));
    let served = match serve(&mut reader, &mut writer, server, clock) {
        Ok(served) => served,
        Err(ServeFault::TooLong) => return Err(HexFault::Serve(ServeFault::TooLong)),
        // memory's reader and writer fail for want of memory alone
        Err(_) => return Err(HexFault::Serve(ServeFault::OutOfMemory)),
    };
    let written = writer.into_inner();
    let Ok(answer) = hex::encode_upper(server.alloc, written.as_slice()) else {
        return Err(HexFault::Serve(ServeFault::OutOfMemory));
    };
    match out.extend_from_slice(answer.as_bytes()) {
        Ok(()) => Ok(served),
        Err(_) => Err(HexFault::Serve(ServeFault::OutOfMemory)),
    }
}
