//! What the program tells of connections on standard error.

ghost use Rattle.std.specs.Prelude.{◌≡◌, OnOk, OnErr};
ghost use Rattle.std.specs.Fmt.InlineText.{inline_text};
ghost use Rattle.std.specs.Io.KnownBytes.{Appends};
ghost use Rattle.counted_io.specs.Bytes.{counted, AppendsPart};
ghost use Rattle.ua_server.specs.Telling.{failed_line, failed_text, turn_text, fault_text, sync_fault, outcome_text, behind_peer, behind_name, call_lines};
ghost use Rattle.ua_server.specs.Logging.{clash_name};

use crate::calls::print_clash;
use crate::program::{ProgramFault, numbered, report, tell};
use crate::recent::Recent;
use conversation::{Log, Parting, connection_fault};
use counted_io::{Counted, ServeFault};
use exchange::ExchangeFault;
use itoa::Buffer;
use multiplex::{Origin, Stay};
use peer_check::Clash;
use std::alloc::Global;
use std::fmt::InlineText;
use std::io::Write;
use ua_connection::Clock;
use ua_peers::{SyncFault, Synced};
use ua_session::AuditEvent;

/// So long, in milliseconds, connections that failed before they could be used are counted, and not told one by one.
const QUIET: u64 = 1_000;

/// Of how many peers the end of the last call is kept: as many as one replica can have.
pub(crate) const MOST_CALLED: usize = 64;

/// What two records of one number have in common: their replica, and the number.
#[derive(Clone, Copy, Debug, PartialEq, Eq)]
pub(crate) struct ClashName {
    /// The number of the replica.
    pub replica: u8,
    /// The number of both records.
    pub number: u64,
}

/// Of which records a clash is.
fn clash_name(clash: &Clash) -> ClashName
    ensures { result ≡ clash_name clash.now }
{
    ClashName {
        replica: clash.held.origin.get(),
        number: clash.held.number,
    }
}

/// Standard error, what was told of late of connections, and how calls ended last.
#[derive(Drop)]
pub(crate) struct ErrorLog<E, C> {
    pub errors: Counted<E>,
    /// When it was told last that one failed; none: it never was.
    pub told_at: Option<u64>,
    /// How many failed since then.
    pub missed: u64,
    /// The fault by which the last call of each of the first peers ended; none: it came to its end, or there was none.
    pub calls: [Option<SyncFault>; MOST_CALLED],
    /// The records of the last table that was told of a call of each of these peers; none: none was.
    pub clashes: [Option<ClashName>; MOST_CALLED],
    /// How many milliseconds the longest turn of a connection took that was told.
    pub longest: u64,
    /// Where lines are made.
    pub alloc: Global,
    /// Whether what happens is told, a line each.
    pub events: bool,
    /// What gives the time of such a line.
    pub clock: C,
    /// How many were told of late of what anybody may bring about.
    pub recent: Recent,
    /// Whether it was told that the store broke.
    pub is_break_told: bool,
    /// Whether it was told why it broke.
    pub is_cause_told: bool,
}

impl<E, C> ErrorLog<E, C> {
    ghost use Rattle.std.specs.Prelude.{◌≡◌, ◌↔◌, None, Some, IsTrue, slice_get};
    ghost use Rattle.ua_server.specs.Telling.{fresh_log, is_quiet};

    /// Nothing was told yet.
    pub fn new(alloc: Global, events: bool, clock: C, errors: Counted<E>) -> ErrorLog<E, C>
        ensures { result ≡ fresh_log alloc events clock errors }
    {
        ErrorLog {
            errors,
            told_at: None,
            missed: 0,
            calls: [None; MOST_CALLED],
            clashes: [None; MOST_CALLED],
            longest: 0,
            alloc,
            events,
            clock,
            recent: Recent::none(),
            is_break_told: false,
            is_cause_told: false,
        }
    }

    /// Whether that a connection failed was told so lately that it isn't told again.
    fn is_quiet(&self, now: u64) -> bool
        ensures { result ≡ is_quiet self.now now }
    {
        match self.told_at {
            Some(told_at) => now.saturating_sub(told_at) < QUIET,
            None => false,
        }
    }

    /// Whether the last call of a peer ended by this fault too, or came to its end too.
    fn is_told(&self, callee: usize, fault: Option<SyncFault>) -> bool
        ensures { IsTrue result ↔ (slice_get self.now.calls callee ≡ Some fault) }
    {
        match self.calls.get(callee) {
            Some(last) => *last == fault,
            None => false,
        }
    }
}

impl<E: Write, C: Clock> ErrorLog<E, C> {
    ghost use Rattle.std.specs.Prelude.{◌≡◌};
    ghost use Rattle.ua_server.specs.Telling.{LogsCall};
    ghost use Rattle.ua_server.specs.Logging.{LogsFaultOf};

    /// Tells by a line the fault by which a connection ended, if it did.
    fn log_fault(&mut self, fault: Option<ServeFault>)
        ensures { LogsFaultOf E.contents fault self.old self.new }
    {
        if let Some(fault) = fault {
            let _ = report(Err(ProgramFault::Connection(fault)), &mut self.errors);
        }
    }

    /// Tells by a line how a call of a peer ended, where the last one ended otherwise.
    fn log_outcome(&mut self, callee: usize, address: &str, outcome: Result<(), SyncFault>)
        ensures { LogsCall E.contents self.old callee address.now outcome self.new }
    {
        let fault = outcome.err();
        if self.is_told(callee, fault) {
            return;
        }
        let _ = tell_outcome(address, fault, &mut self.errors);
        if callee < MOST_CALLED {
            self.calls[callee] = fault;
        }
    }
}

impl<E: Write, C: Clock> ErrorLog<E, C> {
    ghost use Rattle.std.specs.Prelude.{◌≡◌, ◌↔◌, Some, IsTrue, slice_get};
    ghost use Rattle.ua_server.specs.Logging.{IsClashTold, LogsTable};

    /// Whether these are the records of the last table that was told of a call of a peer.
    fn is_last_clash(&self, callee: usize, name: Option<ClashName>) -> bool
        ensures { IsTrue result ↔ (slice_get self.now.clashes callee ≡ Some name) }
    {
        match self.clashes.get(callee) {
            Some(last) => *last == name,
            None => false,
        }
    }

    /// Whether the last call of a peer ended by a clash of these records too.
    fn is_clash_told(&self, callee: usize, name: Option<ClashName>) -> bool
        ensures { IsTrue result ↔ IsClashTold self.now callee name }
    {
        let twice = Some(SyncFault::Exchange(ExchangeFault::GivenTwice));
        self.is_told(callee, twice) && self.is_last_clash(callee, name)
    }

    /// Writes a table of two records of one number, where the last call of the peer didn't end by these too.
    fn log_clash(&mut self, callee: usize, clash: &Clash)
        ensures { LogsTable E.contents callee clash.now self.old self.new }
    {
        let name = Some(clash_name(clash));
        if self.is_clash_told(callee, name) {
            return;
        }
        print_clash(self.alloc, clash, &mut self.errors);
        if callee < MOST_CALLED {
            self.clashes[callee] = name;
        }
    }
}

impl<E: Write, C: Clock> Log for ErrorLog<E, C> {
    ghost use Rattle.ua_server.specs.Logging.{logs_to};

    ghost told = { logs_to E.contents C.gave };

    /// Tells that a connection came, where events are told.
    fn tell_connected(&mut self, origin: Origin) {
        if self.events {
            self.log_connected(origin);
        }
    }

    /// Tells what was done in a session, where events are told.
    fn tell_audit(&mut self, stay: Stay, event: &AuditEvent) {
        if self.events {
            self.log_audit(stay, event);
        }
    }

    /// Tells that a browser gave credentials that are no user's, where events are told.
    fn tell_denied(&mut self, stay: Stay) {
        if self.events {
            self.log_denied(stay);
        }
    }

    /// Tells by a line the fault by which a connection ended, if it did; and where events are told, why it ended.
    fn tell_parted(&mut self, parting: Parting) {
        self.log_fault(connection_fault(parting.ending));
        if self.events {
            self.log_end(parting);
        }
    }

    /// Tells by a line that a connection failed, and how many did since the last such line, at most once a second.
    fn tell_failed(&mut self, now: u64) {
        if self.is_quiet(now) {
            self.missed = self.missed.saturating_add(1);
        } else {
            let _ = tell_failed(self.missed, &mut self.errors);
            self.told_at = Some(now);
            self.missed = 0;
        }
    }

    /// Tells by a line how a call of a peer ended, where the last one ended otherwise; and where events are told, what it
    /// moved.
    fn tell_call(
        &mut self,
        callee: usize,
        address: &str,
        outcome: Result<(), SyncFault>,
        moved: Synced,
    ) {
        self.log_outcome(callee, address, outcome);
        if self.events {
            self.log_call(address, outcome, moved);
        }
    }

    /// Tells by a table of CSV the two records of one number that a call found, where the last call of that peer didn't end by
    /// these too; by a line where memory is wanting or a value has no text.
    fn tell_clash(&mut self, callee: usize, clash: &Clash) {
        self.log_clash(callee, clash);
    }

    /// Tells by a line how long the longest turn so far took, where it took longer than the one that was told last.
    fn tell_turn(&mut self, longest: u64) {
        if longest > self.longest {
            let _ = tell(turn_text(longest).as_str().as_bytes(), &mut self.errors);
            self.longest = longest;
        }
    }
}

/// Writes the line that tells that a connection failed, and so many before it.
fn tell_failed<W: Write>(missed: u64, errors: &mut Counted<W>) -> Result<(), ServeFault>
    ensures ok { OnOk result
        (Appends (W.contents errors.old.inner) (W.contents errors.new.inner)
        (failed_line missed)) }
    ensures kept { OnOk result (errors.new.faults ≡ errors.old.faults) }
    ensures part { OnErr result
        (AppendsPart (W.contents errors.old.inner) (W.contents errors.new.inner)
        (failed_line missed)) }
    ensures write { OnErr result (errors.new.faults ≡ counted errors.old.faults) }
{
    if missed == 0 {
        tell(b"connection ended (1)", errors)
    } else {
        tell(failed_text(missed).as_str().as_bytes(), errors)
    }
}

/// What tells that a connection failed, and so many before it.
fn failed_text(missed: u64) -> InlineText<100>
    ensures { inline_text result ≡ failed_text missed }
{
    let mut digits = Buffer::new();
    InlineText::new()
        .and_str("connection ended (1), and ", 40)
        .and_str(digits.format(missed), 40)
        .and_str(" before it", 10)
}

/// What tells how long a turn took.
fn turn_text(milliseconds: u64) -> InlineText<100>
    ensures { inline_text result ≡ turn_text milliseconds }
{
    let mut digits = Buffer::new();
    InlineText::new()
        .and_str("a turn took ", 40)
        .and_str(digits.format(milliseconds), 40)
        .and_str(" ms", 10)
}

/// What tells the fault by which a call ended.
pub(crate) fn fault_text(fault: SyncFault) -> InlineText<100>
    ensures { inline_text result ≡ fault_text (sync_fault fault) }
{
    match fault {
        SyncFault::Connection(fault) => numbered("connection ended", u64::from(fault.number())),
        SyncFault::Exchange(fault) => numbered("exchange ended", u64::from(fault.number())),
        SyncFault::Peer(number) => numbered("exchange ended", u64::from(number)),
    }
}

/// Writes what tells how a call of a peer ended.
fn tell_outcome<W: Write>(
    address: &str,
    fault: Option<SyncFault>,
    errors: &mut Counted<W>,
) -> Result<(), ServeFault>
    ensures ok { OnOk result
        (Appends (W.contents errors.old.inner) (W.contents errors.new.inner)
        (call_lines address.now (outcome_text fault))) }
    ensures kept { OnOk result (errors.new.faults ≡ errors.old.faults) }
    ensures part { OnErr result
        (AppendsPart (W.contents errors.old.inner) (W.contents errors.new.inner)
        (call_lines address.now (outcome_text fault))) }
    ensures write { OnErr result (errors.new.faults ≡ counted errors.old.faults) }
{
    match fault {
        None => tell_call(address, b"works again", errors),
        Some(fault) => tell_call(address, fault_text(fault).as_str().as_bytes(), errors),
    }
}

/// Writes a line that begins with `uahist: peer ` and an address.
fn tell_call<W: Write>(
    address: &str,
    text: &[u8],
    errors: &mut Counted<W>,
) -> Result<(), ServeFault>
    ensures ok { OnOk result
        (Appends (W.contents errors.old.inner) (W.contents errors.new.inner)
        (call_lines address.now text.now)) }
    ensures kept { OnOk result (errors.new.faults ≡ errors.old.faults) }
    ensures part { OnErr result
        (AppendsPart (W.contents errors.old.inner) (W.contents errors.new.inner)
        (call_lines address.now text.now)) }
    ensures write { OnErr result (errors.new.faults ≡ counted errors.old.faults) }
{
    match errors.send(b"uahist: peer ") {
        Ok(()) => tell_peer(address, text, errors),
        Err(fault) => Err(fault),
    }
}

/// Writes an address, and then a text after it, and ends the line.
fn tell_peer<W: Write>(
    address: &str,
    text: &[u8],
    errors: &mut Counted<W>,
) -> Result<(), ServeFault>
    ensures ok { OnOk result
        (Appends (W.contents errors.old.inner) (W.contents errors.new.inner)
        (behind_name address.now text.now)) }
    ensures kept { OnOk result (errors.new.faults ≡ errors.old.faults) }
    ensures part { OnErr result
        (AppendsPart (W.contents errors.old.inner) (W.contents errors.new.inner)
        (behind_name address.now text.now)) }
    ensures write { OnErr result (errors.new.faults ≡ counted errors.old.faults) }
{
    match errors.send(address.as_bytes()) {
        Ok(()) => tell_text(text, errors),
        Err(fault) => Err(fault),
    }
}

/// Writes a text after an address, and ends the line.
fn tell_text<W: Write>(text: &[u8], errors: &mut Counted<W>) -> Result<(), ServeFault>
    ensures ok { OnOk result
        (Appends (W.contents errors.old.inner) (W.contents errors.new.inner)
        (behind_peer text.now)) }
    ensures kept { OnOk result (errors.new.faults ≡ errors.old.faults) }
    ensures part { OnErr result
        (AppendsPart (W.contents errors.old.inner) (W.contents errors.new.inner)
        (behind_peer text.now)) }
    ensures write { OnErr result (errors.new.faults ≡ counted errors.old.faults) }
{
    match errors.send(b": ") {
        Ok(()) => errors.send_line(text),
        Err(fault) => Err(fault),
    }
}
