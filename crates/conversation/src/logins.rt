//! How many logins were refused of late, and which answers wait for that.

ghost use Rattle.std.specs.Prelude.{◌≡◌};
ghost use Rattle.conversation.specs.Logins.{is_same_host, host_of, counts_for, is_denied};

use multiplex::{Party, Stay};
use std::alloc::{AllocError, Global};
use std::marker::Model;
use std::net::IpAddr;
use ua_session::AuditEvent;
use web_connection::WebStep;

/// So long a refusal counts, in milliseconds.
const COUNTED: u64 = 60_000;

/// So long an answer waits that waits, in milliseconds.
const DELAY: u64 = 1_000;

/// A login that was refused.
#[derive(Clone, Copy, Debug)]
pub struct RefusedLogin {
    /// From where it was asked for, if that is known.
    pub host: Option<IpAddr>,
    /// When it was refused, in milliseconds.
    pub at: u64,
}

/// Which logins were refused of late, and whether the answer that was made last waits.
#[derive(Debug, Drop)]
pub struct Logins {
    refusals: Vec<Option<RefusedLogin>>,
    // where the next one is kept
    next: usize,
    is_held: bool,
}

impl Model for Logins {
    ghost use Rattle.conversation.specs.Logins.{RefusedLogins};

    ghost Value = { RefusedLogins };

    ghost view = { λ l. record {
      refusals = l.refusals.items;
      next = l.next;
      is_held = l.is_held;
    } };
}

/// Whether two that are known are equal, or none is known.
fn is_same_host(one: Option<IpAddr>, other: Option<IpAddr>) -> bool
    ensures { result ≡ is_same_host one other }
{
    match (one, other) {
        (Some(IpAddr::V4(one)), Some(IpAddr::V4(other))) => one.octets() == other.octets(),
        (Some(IpAddr::V6(one)), Some(IpAddr::V6(other))) => one.segments() == other.segments(),
        (None, None) => true,
        _ => false,
    }
}

/// Where the other end of a connection is, if it is known.
fn host_of(stay: Stay) -> Option<IpAddr>
    ensures { result ≡ host_of stay }
{
    match stay.party {
        Party::Accepted(origin) => match origin.address {
            Some(address) => Some(address.ip()),
            None => None,
        },
        Party::Called(_) => None,
    }
}

/// Whether it was one from there, in the minute before this time.
fn counts_for(host: Option<IpAddr>, now: u64, given: Option<RefusedLogin>) -> bool
    ensures { result ≡ counts_for host now given }
{
    match given {
        Some(refusal) => {
            now.saturating_sub(refusal.at) < COUNTED && is_same_host(refusal.host, host)
        }
        None => false,
    }
}

/// Whether a browser was denied what it asked for.
pub(crate) fn is_denied(step: Result<WebStep, AllocError>) -> bool
    ensures { result ≡ is_denied step }
{
    match step {
        Ok(WebStep::Denied) => true,
        Ok(_) => false,
        Err(_) => false,
    }
}

impl Logins {
    ghost use Rattle.std.specs.Prelude.{◌≡◌, IfOk};
    ghost use Rattle.std.specs.Option.{option_copied};
    ghost use Rattle.conversation.specs.Logins.{no_refusals, refusals_of, with_refusal, is_full, after_login, after_audit, after_step, unheld, delay_of};

    /// Nothing was refused yet, and no refusal is kept. It takes no memory.
    pub fn none(alloc: Global) -> Logins
        ensures { result ≡ no_refusals 0 }
    {
        Logins {
            refusals: Vec::new(alloc),
            next: 0,
            is_held: false,
        }
    }

    /// Nothing was refused yet; of so many refusals is known at most. The one error is want of memory.
    pub fn new(alloc: Global, most: usize) -> Result<Logins, AllocError>
        ensures { IfOk result (λ logins. logins ≡ no_refusals most) }
    {
        let mut refusals = Vec::new(alloc);
        for _ in 0..most {
            refusals.push(None)?;
        }
        Ok(Logins {
            refusals,
            next: 0,
            is_held: false,
        })
    }

    /// How many logins were refused of those who are there, in the minute before this time.
    fn refusals_of(&self, host: Option<IpAddr>, now: u64) -> usize
        ensures { result ≡ refusals_of host now self.now }
    {
        self.refusals
            .iter()
            .filter(|refusal| counts_for(host, now, **refusal))
            .count()
    }

    /// Keeps one more that was refused, in place of the one that is longest ago.
    fn keep_refusal(&mut self, host: Option<IpAddr>, now: u64)
        ensures { self.new ≡ with_refusal host now self.old }
    {
        if let Some(place) = self.refusals.get_mut(self.next) {
            *place = Some(RefusedLogin { host, at: now });
        }
        let next = self.next.saturating_add(1);
        self.next = if next < self.refusals.len() { next } else { 0 };
    }

    /// Whether as many were refused of those who are there as the settings allow.
    fn is_full(&self, limit: Option<u32>, host: Option<IpAddr>, now: u64) -> bool
        ensures { result ≡ is_full limit host now self.now }
    {
        match limit {
            Some(most) => self.refusals_of(host, now) >= most as usize,
            None => false,
        }
    }

    /// Somebody asked to be let in, and was or wasn't.
    fn note_login(&mut self, limit: Option<u32>, host: Option<IpAddr>, now: u64, refused: bool)
        ensures { self.new ≡ after_login limit host now refused self.old }
    {
        let is_held = self.is_full(limit, host, now);
        if refused {
            self.keep_refusal(host, now);
        }
        self.is_held = is_held;
    }

    /// An answer was made to something else.
    pub(crate) fn release(&mut self)
        ensures { self.new ≡ unheld self.old }
    {
        self.is_held = false;
    }

    /// A client was answered, after which this stands for a log.
    pub(crate) fn note_audit(
        &mut self,
        limit: Option<u32>,
        stay: Stay,
        now: u64,
        event: Option<&AuditEvent>,
    )
        ensures { self.new ≡ after_audit limit stay now (option_copied event.entry) self.old }
    {
        match event {
            Some(AuditEvent::Activation { refused, .. }) => {
                self.note_login(limit, host_of(stay), now, refused.is_some());
            }
            Some(AuditEvent::Update { .. }) => self.release(),
            None => self.release(),
        }
    }

    /// A browser was answered.
    pub(crate) fn note_step(
        &mut self,
        limit: Option<u32>,
        stay: Stay,
        now: u64,
        step: Result<WebStep, AllocError>,
    )
        ensures { self.new ≡ after_step limit stay now step self.old }
    {
        if stay.answered == 0 {
            self.note_login(limit, host_of(stay), now, is_denied(step));
        } else {
            self.release();
        }
    }

    /// So many milliseconds the answer waits that was made last.
    pub(crate) fn delay(&self) -> u64
        ensures { result ≡ delay_of self.now }
    {
        if self.is_held { DELAY } else { 0 }
    }
}
