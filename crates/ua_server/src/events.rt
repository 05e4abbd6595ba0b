//! What the program tells of what happens on connections, a line each.

ghost use Rattle.std.specs.Prelude.{◌≡◌, ◌++◌, ◌≤◌, List, ℕ, length, codes, OnOk, IfOk};
ghost use Rattle.event_lines.specs.Lines.{IsEventLine, call_text};
ghost use Rattle.history_text.specs.Statuses.{status_text};
ghost use Rattle.ua_server.specs.Telling.{numbered};
ghost use Rattle.ua_server.specs.Logging.{left_out_text, behind_left_out, door_text, address_of, client_reason, peer_reason, ended_reason, end_reason, moved_of, is_still, moved_if, parting_text, call_reason};

use crate::log::{ErrorLog, fault_text};
use crate::program::{numbered, tell};
use conversation::{Door, Ended, Parting};
use counted_io::ServeFault;
use event_lines::{
    Ending, Moved, broken_line, call_line, connected_line, denial_line, end_line, login_line,
    update_line,
};
use history_text::status_text;
use itoa::Buffer;
use multiplex::{Origin, Party, SlotEnd, Stay};
use std::alloc::{AllocError, Global};
use std::io::Write;
use std::net::SocketAddr;
use ua_binary::Status;
use ua_connection::{Clock, Served};
use ua_peers::{PeerEnded, SyncFault, Synced};
use ua_session::{AuditEvent, AuditName, UpdateAudit};

/// What is told where memory for a line is wanting.
const STARVED: &[u8] = b"out of memory: something that happened isn't told";

/// Who is taken at an address of the server.
fn door_text(door: Door) -> &'static str
    ensures { result.now ≡ door_text door }
{
    match door {
        Door::Both => "clients and peers",
        Door::Clients => "clients",
        Door::Peers => "peers",
        Door::Browsers => "browsers",
    }
}

/// Where the other end of a connection is, if it is known.
fn address_of(stay: Stay) -> Option<SocketAddr>
    ensures { result ≡ address_of stay }
{
    match stay.party {
        Party::Accepted(origin) => origin.address,
        Party::Called(_) => None,
    }
}

/// Puts how many events weren't told, and ends that line.
fn put_left_out(out: &mut Vec<u8>, left_out: u64) -> Result<(), AllocError>
    ensures { OnOk result (out.new.items ≡ out.old.items ++ left_out_text left_out) }
{
    if left_out == 0 {
        return Ok(());
    }
    let mut digits = Buffer::new();
    out.extend_from_slice(digits.format(left_out).as_bytes())?;
    out.extend_from_slice(b" events more weren't told\nuahist: ")
}

/// A line, and in front of it one that says how many before it weren't told, if any.
fn behind_left_out(alloc: Global, left_out: u64, line: &[u8]) -> Result<Vec<u8>, AllocError>
    ensures { IfOk result (λ text. text.items ≡ behind_left_out left_out line.now) }
{
    let mut out = Vec::new(alloc);
    put_left_out(&mut out, left_out)?;
    out.extend_from_slice(line)?;
    Ok(out)
}

/// Puts words, and a number in brackets after them.
fn put_numbered(out: &mut Vec<u8>, words: &str, number: u64) -> Result<(), AllocError>
    requires { length words.now ≤ 40 }
    ensures { OnOk result (out.new.items ≡ out.old.items ++ numbered words.now number) }
{
    out.extend_from_slice(numbered(words, number).as_str().as_bytes())
}

/// Puts that a connection was refused by a status.
fn put_refused(alloc: Global, out: &mut Vec<u8>, status: Status) -> Result<(), AllocError>
    ensures { OnOk result
        (out.new.items ≡ out.old.items ++ (codes "refused by " ++ status_text status)) }
{
    out.extend_from_slice(b"refused by ")?;
    out.extend_from_slice(status_text(alloc, status)?.as_slice())
}

/// Puts why a client's connection ended.
fn put_client_reason(alloc: Global, out: &mut Vec<u8>, served: Served) -> Result<(), AllocError>
    ensures { OnOk result (out.new.items ≡ out.old.items ++ client_reason served) }
{
    match served {
        Served::EndOfInput => out.extend_from_slice(b"the client hung up"),
        Served::Closed => out.extend_from_slice(b"the client closed it"),
        Served::Refused(status) => put_refused(alloc, out, status),
    }
}

/// Puts why a peer's connection ended.
fn put_peer_reason(out: &mut Vec<u8>, end: PeerEnded) -> Result<(), AllocError>
    ensures { OnOk result (out.new.items ≡ out.old.items ++ peer_reason end) }
{
    match end {
        PeerEnded::EndOfInput => out.extend_from_slice(b"the peer hung up"),
        PeerEnded::Done => out.extend_from_slice(b"all was exchanged"),
        PeerEnded::Refused(number) => {
            put_numbered(out, "the peer ended the exchange", u64::from(number))
        }
        PeerEnded::Failed(fault) => put_numbered(out, "exchange ended", u64::from(fault.number())),
    }
}

/// Puts why a connection ended that met no fault.
fn put_ended_reason(alloc: Global, out: &mut Vec<u8>, end: Ended) -> Result<(), AllocError>
    ensures { OnOk result (out.new.items ≡ out.old.items ++ ended_reason end) }
{
    match end {
        Ended::Client(served) => put_client_reason(alloc, out, served),
        Ended::Peer(parted) => put_peer_reason(out, parted),
        Ended::Stranger => out.extend_from_slice(b"no peer is taken from there"),
        Ended::Browser => out.extend_from_slice(b"the browser was answered"),
    }
}

/// Puts why a connection ended.
fn put_end_reason(
    alloc: Global,
    out: &mut Vec<u8>,
    ending: SlotEnd<Result<Ended, ServeFault>>,
) -> Result<(), AllocError>
    ensures { OnOk result (out.new.items ≡ out.old.items ++ end_reason ending) }
{
    match ending {
        SlotEnd::Finished(Ok(end)) => put_ended_reason(alloc, out, end),
        SlotEnd::Finished(Err(fault)) => {
            put_numbered(out, "connection ended", u64::from(fault.number()))
        }
        SlotEnd::EndOfInput => out.extend_from_slice(b"the other end hung up"),
        SlotEnd::ReadFailed => out.extend_from_slice(b"a read failed"),
        SlotEnd::WriteFailed => out.extend_from_slice(b"a write failed"),
        SlotEnd::IdleTimeout => out.extend_from_slice(b"silent for too long"),
        SlotEnd::Displaced => out.extend_from_slice(b"it made place for the next one"),
    }
}

/// How many records an exchange moved, for a line.
fn moved_of(synced: Synced) -> Moved
    ensures { result ≡ moved_of synced }
{
    Moved {
        learned: u64::from(synced.learned),
        sent: u64::from(synced.sent),
    }
}

/// Whether no record was moved.
fn is_still(synced: Synced) -> bool
    ensures { result ≡ is_still synced }
{
    synced.learned == 0 && synced.sent == 0
}

/// How many records an exchange moved, if it moved any.
fn moved_if(synced: Synced) -> Option<Moved>
    ensures { result ≡ moved_if synced }
{
    if is_still(synced) {
        None
    } else {
        Some(moved_of(synced))
    }
}

/// The line of a connection that ended.
fn parting_line(alloc: Global, at: i64, parting: Parting) -> Result<Vec<u8>, AllocError>
    ensures { IfOk result (λ line. IsEventLine at (parting_text parting) line.items) }
{
    let mut reason = Vec::new(alloc);
    put_end_reason(alloc, &mut reason, parting.ending)?;
    let ending = Ending {
        milliseconds: parting.at.saturating_sub(parting.stay.began),
        answered: parting.stay.answered,
        reason: reason.as_slice(),
        moved: moved_if(parting.moved),
    };
    end_line(alloc, at, address_of(parting.stay), &ending)
}

/// The line of a call of a peer that ended.
fn called_line(
    alloc: Global,
    at: i64,
    address: &str,
    outcome: Result<(), SyncFault>,
    moved: Synced,
) -> Result<Vec<u8>, AllocError>
    ensures { IfOk result (λ line. IsEventLine at
        (call_text address.now (call_reason outcome) (moved_of moved)) line.items) }
{
    match outcome {
        Ok(()) => call_line(alloc, at, address, "all was exchanged", moved_of(moved)),
        Err(fault) => call_line(
            alloc,
            at,
            address,
            fault_text(fault).as_str(),
            moved_of(moved),
        ),
    }
}

impl<E: Write, C: Clock> ErrorLog<E, C> {
    ghost use Rattle.std.specs.Prelude.{◌≡◌, ◌⊎◌, ℤ, List, ℕ, IfOk, true, false, None, Some};
    ghost use Rattle.event_lines.specs.Lines.{IsEventLine, connected_text, login_text, denial_text, update_text, broken_text, call_text};
    ghost use Rattle.conversation.specs.Doors.{door_of_listener};
    ghost use Rattle.ua_server.specs.Telling.{LogsLine, told_line};
    ghost use Rattle.ua_server.specs.Logging.{IsToldAs, behind_left_out, starved_text, LogsTimed, LogsCounted, LogsLimited, LogsUpdates, LogsActivation, LogsAudited, LogsEnd, is_second_full, with_left_out, door_text, address_of, parting_text, call_reason, moved_of};

    /// Writes a line after how many weren't told, or that memory for it is wanting.
    fn tell_behind(&mut self, left_out: u64, line: &[u8])
        ensures told { (text : List ℕ)
            × ((text ≡ behind_left_out left_out line.now) ⊎ (text ≡ starved_text))
            × LogsLine E.contents self.old.errors self.new.errors (told_line text) }
        ensures same { self.new ≡ record self.old { errors = self.new.errors } }
    {
        match behind_left_out(self.alloc, left_out, line) {
            Ok(text) => {
                let _ = tell(text.as_slice(), &mut self.errors);
            }
            Err(_) => {
                let _ = tell(STARVED, &mut self.errors);
            }
        }
    }

    /// Writes the line of an event, after how many weren't told, or that memory for it is wanting.
    pub(crate) fn tell_line(&mut self, left_out: u64, line: Result<Vec<u8>, AllocError>)
        ensures told { (event : List ℕ) → (at : ℤ)
            → IfOk line (λ line. IsEventLine at event line.items)
            → (text : List ℕ) × IsToldAs left_out event at text
            × LogsLine E.contents self.old.errors self.new.errors (told_line text) }
        ensures same { self.new ≡ record self.old { errors = self.new.errors } }
    {
        let Ok(line) = line else {
            let _ = tell(STARVED, &mut self.errors);
            return;
        };
        self.tell_behind(left_out, line.as_slice());
    }

    /// Whether an event that anybody may bring about isn't told at this time: it is counted then.
    fn leaves_out(&mut self, at: i64) -> bool
        ensures told { result ≡ is_second_full self.old.recent at }
        ensures counted { result ≡ true
            → self.new ≡ record self.old { recent = with_left_out self.old.recent } }
        ensures same { result ≡ false → self.new ≡ self.old }
    {
        if !self.recent.is_second_full(at) {
            return false;
        }
        self.recent = self.recent.with_left_out();
        true
    }

    /// Writes the line of an event that anybody may bring about.
    fn tell_counted(&mut self, at: i64, line: Result<Vec<u8>, AllocError>)
        ensures { (event : List ℕ) → IfOk line (λ line. IsEventLine at event line.items)
            → LogsCounted E.contents event at self.old self.new }
    {
        self.tell_line(self.recent.left_out, line);
        self.recent = self.recent.with_told(at);
    }

    /// Tells that a connection came.
    pub(crate) fn log_connected(&mut self, origin: Origin)
        ensures { LogsLimited E.contents C.gave (connected_text origin.address
            (door_text (door_of_listener origin.listener))) self.old self.new }
    {
        let at = self.clock.now();
        if self.leaves_out(at) {
            return;
        }
        let door = door_text(Door::of_listener(origin.listener));
        let line = connected_line(self.alloc, at, origin.address, door);
        self.tell_counted(at, line);
    }

    /// Tells that somebody was let in by this name.
    fn log_login(&mut self, from: Option<SocketAddr>, name: &AuditName)
        ensures { LogsTimed E.contents C.gave (login_text from name.now None) self.old self.new }
    {
        let at = self.clock.now();
        let line = login_line(self.alloc, at, from, name, None);
        self.tell_line(0, line);
    }

    /// Tells that somebody was refused by this name.
    fn log_refusal(&mut self, from: Option<SocketAddr>, name: &AuditName, status: Status)
        ensures { LogsLimited E.contents C.gave (login_text from name.now (Some status)) self.old
            self.new }
    {
        let at = self.clock.now();
        if self.leaves_out(at) {
            return;
        }
        let line = login_line(self.alloc, at, from, name, Some(status));
        self.tell_counted(at, line);
    }

    /// Tells that somebody was let in by this name, or refused.
    fn log_activation(
        &mut self,
        from: Option<SocketAddr>,
        name: &AuditName,
        refused: Option<Status>,
    )
        ensures { LogsActivation E.contents C.gave from name.now refused self.old self.new }
    {
        match refused {
            None => self.log_login(from, name),
            Some(status) => self.log_refusal(from, name, status),
        }
    }

    /// Tells what one of the details of an update came to.
    fn log_update(&mut self, from: Option<SocketAddr>, user: &AuditName, update: &UpdateAudit)
        ensures { LogsTimed E.contents C.gave (update_text from user.now update.now) self.old
            self.new }
    {
        let at = self.clock.now();
        let line = update_line(self.alloc, at, from, user, update);
        self.tell_line(0, line);
    }

    /// Tells what each of the details of an update came to.
    fn log_updates(&mut self, from: Option<SocketAddr>, user: &AuditName, updates: &[UpdateAudit])
        ensures { LogsUpdates E.contents C.gave from user.now updates.now self.old self.new }
    {
        for update in updates {
            self.log_update(from, user, update);
        }
    }

    /// Tells what was done in a session.
    pub(crate) fn log_audit(&mut self, stay: Stay, event: &AuditEvent)
        ensures { LogsAudited E.contents C.gave (address_of stay) event.now self.old self.new }
    {
        let from = address_of(stay);
        match event {
            AuditEvent::Activation { name, refused } => self.log_activation(from, name, *refused),
            AuditEvent::Update { user, updates } => {
                self.log_updates(from, user, updates.as_slice());
            }
        }
    }

    /// Tells that a browser gave credentials that are no user's.
    pub(crate) fn log_denied(&mut self, stay: Stay)
        ensures { LogsLimited E.contents C.gave (denial_text (address_of stay)) self.old self.new }
    {
        let at = self.clock.now();
        if self.leaves_out(at) {
            return;
        }
        let line = denial_line(self.alloc, at, address_of(stay));
        self.tell_counted(at, line);
    }

    /// Tells that the store broke.
    pub(crate) fn log_break(&mut self)
        ensures { LogsTimed E.contents C.gave broken_text
            (record self.old { is_break_told = true }) self.new }
    {
        self.is_break_told = true;
        let at = self.clock.now();
        let line = broken_line(self.alloc, at);
        self.tell_line(0, line);
    }

    /// Tells why a connection ended.
    pub(crate) fn log_end(&mut self, parting: Parting)
        ensures { LogsEnd E.contents C.gave parting self.old self.new }
    {
        let at = self.clock.now();
        if !is_still(parting.moved) {
            let line = parting_line(self.alloc, at, parting);
            self.tell_line(0, line);
            return;
        }
        if self.leaves_out(at) {
            return;
        }
        let line = parting_line(self.alloc, at, parting);
        self.tell_counted(at, line);
    }

    /// Tells how a call of a peer ended, and what it moved.
    pub(crate) fn log_call(&mut self, address: &str, outcome: Result<(), SyncFault>, moved: Synced)
        ensures { LogsTimed E.contents C.gave
            (call_text address.now (call_reason outcome) (moved_of moved)) self.old self.new }
    {
        let at = self.clock.now();
        let line = called_line(self.alloc, at, address, outcome, moved);
        self.tell_line(0, line);
    }
}
