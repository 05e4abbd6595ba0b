//! Connections in hex digits.

use crate::machines::{archive_of, held};
use archive::Archive;
use server_rows::plant::clock;
use server_rows::streams::is_joined;
use std::alloc::Global;
use ua_server::{HexFault, ServeFault, Served, Server, answer_hex};
use ua_settings::Settings;

/// What is written, and how the connection ends.
type Told = (Vec<u8>, Result<Served, HexFault>);

/// A server without settings answers a connection.
fn told<A: Archive>(server: &mut Server<A>, text: &str) -> Told {
    let mut out = Vec::new(server.alloc);
    let ending = answer_hex(server, text, &mut out, &mut clock());
    (out, ending)
}

/// The digits are the first of the parts, and then one of these ends.
fn is_front(digits: &[u8], parts: &[&str], ends: &[&str]) -> bool {
    let mut rest = digits;
    for part in parts {
        match rest.strip_prefix(part.as_bytes()) {
            Some(after) => rest = after,
            None => break,
        }
    }
    for end in ends {
        if rest == end.as_bytes() {
            return true;
        }
    }
    false
}

/// Want of memory is told, and nothing else.
fn wants(told: &Told, parts: &[&str], ends: &[&str]) -> bool {
    match told.1 {
        Ok(_) => is_front(told.0.as_slice(), parts, ends),
        Err(fault) => {
            fault == HexFault::Serve(ServeFault::OutOfMemory) && told.0.as_slice().is_empty()
        }
    }
}

/// The connection is answered so.
fn is_told(told: &Told, parts: &[&str], ending: Served) -> bool {
    told.1 == Ok(ending) && is_joined(told.0.as_slice(), parts)
}

/// The parts, one after the other.
fn joined(alloc: Global, parts: &[&str]) -> Option<String> {
    let mut text = String::new(alloc);
    for part in parts {
        text.push_str(part).ok()?;
    }
    Some(text)
}

/// Whether a connection is answered so; where memory was wanting, whether that is told, nothing is held by it, and the same
/// bytes are then answered so.
fn is_served<A: Archive>(
    server: &mut Server<A>,
    text: &str,
    want: &[&str],
    ending: Served,
    ends: &[&str],
) -> bool {
    let before = held(&mut server.replica);
    let first = told(server, text);
    if is_told(&first, want, ending) {
        return true;
    }
    if !wants(&first, want, ends) || held(&mut server.replica) != before {
        return false;
    }
    let second = told(server, text);
    is_told(&second, want, ending)
}

/// The same at a server over an archive. Besides how many calls of its store were refused.
fn is_served_over<A: Archive + Drop>(
    alloc: Global,
    archive: A,
    text: &str,
    want: &[&str],
    ending: Served,
    ends: &[&str],
) -> Option<(bool, u64)> {
    let settings = Settings::bare(alloc).ok()?;
    let mut server = Server::new(alloc, settings, archive);
    let same = is_served(&mut server, text, want, ending, ends);
    Some((same, server.replica.archive.faults()))
}

/// The same of a connection in parts, at a server that holds nothing, and whose store refuses its
/// `call`-th call.
pub(crate) fn is_stream(
    alloc: Global,
    input: &[&str],
    want: &[&str],
    ending: Served,
    ends: &[&str],
    call: u64,
) -> Option<(bool, u64)> {
    let text = joined(alloc, input)?;
    let archive = archive_of(alloc, 1, call)?;
    is_served_over(alloc, archive, text.as_str(), want, ending, ends)
}
