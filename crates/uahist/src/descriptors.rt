//! How many descriptors the program may have open, and how many serving may take.

use crate::waiting::MOST_WAITING;
use std::{fs, io};
use ua_server::{Counted, Listening};

/// So many are open beside connections: the standard ones, those of the store, of the listeners, and of what waits for events.
const OTHERS: usize = 16;

/// How many may be open at a time, as the system lists it; none where it doesn't say, or there is no limit.
fn most(rt: &HostRuntime) -> Option<usize> {
    let limits = fs::read_to_string(rt, "/proc/self/limits").ok()?;
    let line = limits
        .lines()
        .find(|line| line.starts_with("Max open files"))?;
    line.split_whitespace().nth(3)?.parse::<usize>().ok()
}

/// How many serving may take: each connection, each call, and each who waits for a place takes one.
fn wanted(listening: &Listening) -> usize {
    let connections = listening.connections as usize;
    let callees = listening.callees.len();
    connections
        .saturating_add(callees)
        .saturating_add(MOST_WAITING)
        .saturating_add(OTHERS)
}

/// How many connections that come fit at a time, those who wait for a place among them, beside all calls: one at least.
pub(crate) fn fitting(rt: &HostRuntime, listening: &Listening) -> usize {
    match most(rt) {
        None => usize::MAX,
        Some(most) => most
            .saturating_sub(listening.callees.len())
            .saturating_sub(OTHERS)
            .max(1),
    }
}

/// Tells by a line on standard error where serving may take more than may be open.
pub(crate) fn tell_few(rt: &HostRuntime, listening: &Listening) -> io::Result<()> {
    let wanted = wanted(listening);
    let Some(most) = most(rt) else {
        return Ok(());
    };
    if wanted <= most {
        return Ok(());
    }
    let words = format!(in rt.alloc();
        "{most} descriptors are too few: up to {wanted} may be wanted (ulimit -n, or LimitNOFILE of the unit)"
    )?;
    let _ = crate::causes::tell(words.as_str(), &mut Counted::new(rt.stderr()));
    Ok(())
}
