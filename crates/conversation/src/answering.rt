//! What stands first in what came, and its answer.

ghost use Rattle.std.specs.Prelude.{◌≡◌, ◌⊎◌, ◌++◌, List, ℕ, [], true, false, Option, None, Ok, Result};
ghost use Rattle.multiplex.specs.Progress.{end_in};
ghost use Rattle.multiplex.specs.declared.handler.Progress.TheVariants.{NeedsMore as Lacks};
ghost use Rattle.exchange.specs.Frames.{frame_header};
ghost use Rattle.ua_connection.specs.Turns.{NeedsBytes, ending_of};
ghost use Rattle.ua_connection.specs.declared.turn.Step.TheVariants.{NeedsInput};
ghost use Rattle.ua_peers.specs.Talking.{ending_of as peer_ending_of};
ghost use Rattle.ua_peers.specs.Peers.{TalksOnce};
ghost use Rattle.exchange.specs.Dialogs.{party_of, TellsFault};
ghost use Rattle.exchange.specs.declared.fault.ExchangeFault.{ExchangeFault as Fault};
ghost use Rattle.exchange.specs.declared.message.State.{State as Standing};
ghost use Rattle.ua_peers.specs.Peers.{ended_as, is_silent};
ghost use Rattle.conversation.specs.Admitting.{is_own_asked, AsksOwn, restoring_with, restoring_behind, own_bound, IsAdmitted, Refuses};
ghost use Rattle.conversation.specs.OtherEnds.{unless_over, is_established, IsUsable};
ghost use Rattle.conversation.specs.Answering.{IsIncomplete, client_ending, peer_ending, web_ending, AnswersClient, MeetsFrame, MeetsPeer, MeetsCompared, Tells, AnswersBrowser, LogsDenial, AnswersFirst};
ghost use Rattle.conversation.specs.Events.{audited_by, LogsAudit};
ghost use Rattle.std.specs.Option.{option_copied};
ghost use Rattle.ua_session.specs.Sessions.{SessionsState};
ghost use Rattle.conversation.specs.declared.other_end.OtherEnd.TheVariants.{Client, Peer, Browser};
ghost use Rattle.web_connection.specs.Answers.{NeedsRequest};
ghost use Rattle.web_connection.specs.declared.step.WebStep.TheVariants.{NeedsInput as NeedsBytesFirst};

use crate::admitting::{
    admission_at, ask_own, own_bound, restoring_unless, restoring_with, time_at,
};
use crate::comparing::judge_call;
use crate::ended::Ended;
use crate::log::Log;
use crate::logins::is_denied;
use crate::other_end::{NONE_MOVED, OtherEnd, PeerDialog, moved_by};
use crate::world::World;
use archive::{Archive, StoreFault};
use counted_io::ServeFault;
use exchange::{ExchangeFault, State, tell_fault};
use historian::Server;
use multiplex::{Progress, Stay};
use std::alloc::{AllocError, Global};
use ua_connection::{Clock, Connection, Step};
use ua_peers::{PeerEnded, take_first};
use ua_session::AuditEvent;
use web_connection::{WebConnection, WebStep};
use web_page::Overview;

/// What a step of a client's connection is to it.
fn client_progress(step: Result<Step, ServeFault>) -> Progress<Result<Ended, ServeFault>>
    ensures ends { end_in result ≡ client_ending (ending_of step) }
    ensures lacks { result ≡ Lacks → step ≡ Ok NeedsInput }
{
    match step {
        Ok(Step::NeedsInput) => Progress::NeedsMore,
        Ok(Step::Acknowledged(_)) => Progress::Answered,
        Ok(Step::Continues) => Progress::Answered,
        Ok(Step::Ended(served)) => Progress::Ended(Ok(Ended::Client(served))),
        Err(fault) => Progress::Ended(Err(fault)),
    }
}

/// What was done in the sessions of a client since a log was told of so many things, if something was.
fn audited_by(connection: &Connection, before: u64) -> Option<&AuditEvent>
    ensures { (old : SessionsState) → old.audits ≡ before
        → option_copied result ≡ audited_by old connection.now.client.sessions }
{
    if connection.audits() == before {
        None
    } else {
        connection.last_audit()
    }
}

/// Tells what was done in a session, if something was.
fn tell_audit<L: Log>(log: &mut L, stay: Stay, event: Option<&AuditEvent>)
    ensures { LogsAudit L.told stay (option_copied event.entry) log.old log.new }
{
    if let Some(event) = event {
        log.tell_audit(stay, event);
    }
}

/// Answers the chunk that stands first on a client's connection, if it is whole. What was done in a session is told.
fn answer_client<A: Archive, C: Clock, L: Log>(
    stay: Stay,
    world: &mut World<A, C, L>,
    connection: &mut Connection,
    out: &mut Vec<u8>,
) -> Progress<Result<Ended, ServeFault>>
    ensures answers { (made : List ℕ) × (out.new.items ≡ out.old.items ++ made)
        × AnswersClient A.state C.gave L.told stay world.old connection.old made (end_in result)
        world.new (unless_over (end_in result) (Client connection.new)) }
    ensures lacks { result ≡ Lacks
        → (out.new.items ≡ out.old.items) × NeedsBytes connection.new }
{
    let before = connection.audits();
    let step = connection.advance(&mut world.server, &mut world.clock, out);
    let event = audited_by(connection, before);
    let limit = world.server.settings.logins();
    world.logins.note_audit(limit, stay, world.now, event);
    world.restoring = restoring_unless(world.restoring, event);
    tell_audit(&mut world.log, stay, event);
    client_progress(step)
}

/// What a frame comes to is to a peer's connection, where the peer ended the dialog by this number, if it did. A fault of
/// which nothing is said couldn't be told for want of memory.
fn peer_progress(
    first: Option<Result<State, ExchangeFault>>,
    code: Option<u32>,
    silent: bool,
) -> Progress<Result<Ended, ServeFault>>
    ensures ends { end_in result ≡ peer_ending (peer_ending_of code silent first) }
    ensures lacks { result ≡ Lacks → first ≡ None }
{
    match first {
        None => Progress::NeedsMore,
        Some(Ok(State::Done)) => Progress::Ended(Ok(Ended::Peer(PeerEnded::Done))),
        Some(Ok(State::Failed)) => {
            Progress::Ended(Ok(Ended::Peer(PeerEnded::Refused(code.unwrap_or(0)))))
        }
        Some(Ok(State::Pulling | State::Pushing | State::Serving)) => Progress::Answered,
        Some(Err(fault)) => {
            if silent {
                Progress::Ended(Err(ServeFault::OutOfMemory))
            } else {
                Progress::Ended(Ok(Ended::Peer(PeerEnded::Failed(fault))))
            }
        }
    }
}

/// Takes the frame that stands first in a peer's dialog, if it is whole. What is said to it is appended to `said`, which is
/// empty.
fn take_frame<A: Archive>(
    server: &mut Server<A>,
    peer: &mut PeerDialog,
    said: &mut Vec<u8>,
) -> Progress<Result<Ended, ServeFault>>
    requires sound { IsUsable (Peer peer.old) }
    requires empty { said.old.items ≡ [] }
    ensures talks { (ends : _) × (end_in result ≡ peer_ending ends)
        × TalksOnce peer.old.dialog (A.state server.old.replica.archive)
        (A.state server.new.replica.archive) peer.old.frames.waiting said.new.items
        peer.new.frames.waiting ends peer.new.dialog }
    ensures settings { server.new.settings ≡ server.old.settings }
    ensures goes { end_in result ≡ None → IsUsable (Peer peer.new) }
    ensures lacks { result ≡ Lacks
        → (said.new.items ≡ []) × (frame_header peer.new.frames.waiting ≡ Ok None) }
{
    let first = take_first(
        server.alloc,
        &mut server.replica,
        &mut peer.dialog,
        &mut peer.frames,
        said,
    );
    if first.is_some() {
        peer.is_heard = true;
    }
    peer_progress(first, peer.dialog.peer_code(), said.as_slice().is_empty())
}

/// Tells a peer why its records aren't taken. What is said is appended to `said`, which is empty.
fn refuse_frame(
    alloc: Global,
    fault: ExchangeFault,
    said: &mut Vec<u8>,
) -> Progress<Result<Ended, ServeFault>>
    requires { said.old.items ≡ [] }
    ensures tells { (told : Result Standing Fault) × TellsFault fault told [] said.new.items
        × (end_in result ≡ peer_ending (ended_as None (is_silent said.new.items) told)) }
    ensures whole { result ≡ Lacks → ⊥ }
    ensures over { end_in result ≡ None → ⊥ }
{
    let told = tell_fault(alloc, fault, said);
    peer_progress(Some(told), None, said.as_slice().is_empty())
}

/// Learns some first records of the frame that stands first in a peer's dialog, where many of them are new, and then the frame
/// stays; else takes it, if it is whole. What is said is appended to `said`, which is empty.
fn learn_or_take<A: Archive>(
    server: &mut Server<A>,
    peer: &mut PeerDialog,
    said: &mut Vec<u8>,
) -> Progress<Result<Ended, ServeFault>>
    requires sound { IsUsable (Peer peer.old) }
    requires empty { said.old.items ≡ [] }
    ensures answers { (ends : _) × (end_in result ≡ peer_ending ends)
        × MeetsFrame (A.state server.old.replica.archive) (A.state server.new.replica.archive)
        peer.old said.new.items ends peer.new }
    ensures settings { server.new.settings ≡ server.old.settings }
    ensures goes { end_in result ≡ None → IsUsable (Peer peer.new) }
    ensures lacks { result ≡ Lacks
        → (said.new.items ≡ []) × (frame_header peer.new.frames.waiting ≡ Ok None) }
{
    match peer
        .dialog
        .learn_ahead(server.alloc, &mut server.replica, &peer.frames)
    {
        Ok(None) => take_frame(server, peer, said),
        Ok(Some(_)) => Progress::Answered,
        Err(met) => refuse_frame(server.alloc, met, said),
    }
}

/// Answers the frame that stands first in a peer's dialog, if it is whole, where its records are taken at this time; else the
/// peer is told why, and what is held stays. Of a frame that brings many new records some are learned first, and it stays. Where
/// a door names no replicas the archive is asked first how many records of its own number it holds; whether these come back is
/// noted. What is said is appended to `said`, which is empty.
fn answer_frame<A: Archive>(
    server: &mut Server<A>,
    time: i64,
    restoring: &mut bool,
    peer: &mut PeerDialog,
    said: &mut Vec<u8>,
) -> Progress<Result<Ended, ServeFault>>
    requires sound { IsUsable (Peer peer.old) }
    requires empty { said.old.items ≡ [] }
    ensures answers { (ends : _) × (end_in result ≡ peer_ending ends)
        × (((between : A) × (held : Option ℕ)
        × AsksOwn A.state (is_own_asked server.old.settings peer.old.frames.waiting)
        server.old.replica.archive between (Ok held)
        × IsAdmitted server.old.settings time
        (own_bound (restoring_with restoring.old held) (A.state between).own held)
        (party_of (A.state between)) peer.old.frames.waiting
        × (restoring.new ≡ restoring_with restoring.old held)
        × MeetsFrame (A.state between) (A.state server.new.replica.archive) peer.old said.new.items
        ends peer.new)
        ⊎ ((asked : Result (Option ℕ) StoreFault)
        × AsksOwn A.state (is_own_asked server.old.settings peer.old.frames.waiting)
        server.old.replica.archive server.new.replica.archive asked
        × Refuses server.old.settings time restoring.old
        (party_of (A.state server.new.replica.archive)) peer.old.frames.waiting asked
        said.new.items ends
        × (restoring.new ≡ restoring_behind restoring.old asked) × (peer.new ≡ peer.old))) }
    ensures settings { server.new.settings ≡ server.old.settings }
    ensures goes { end_in result ≡ None → IsUsable (Peer peer.new) }
    ensures lacks { result ≡ Lacks
        → (said.new.items ≡ []) × (frame_header peer.new.frames.waiting ≡ Ok None) }
{
    let held = match ask_own(server, &peer.frames) {
        Ok(held) => held,
        Err(met) => return refuse_frame(server.alloc, ExchangeFault::Store(met), said),
    };
    *restoring = restoring_with(*restoring, held);
    let bound = own_bound(*restoring, server.replica.archive.number(), held);
    let admission = admission_at(&server.settings, time, bound);
    match server
        .replica
        .judge_first(server.alloc, &admission, &peer.frames)
    {
        Ok(()) => learn_or_take(server, peer, said),
        Err(fault) => refuse_frame(server.alloc, fault, said),
    }
}

/// Appends bytes. Whether memory for them was there; else all stays.
pub(crate) fn append(bytes: Vec<u8>, out: &mut Vec<u8>) -> bool
    ensures appended { result ≡ true → out.new.items ≡ out.old.items ++ bytes.items }
    ensures starved { result ≡ false → out.new.items ≡ out.old.items }
{
    if out.is_empty() {
        *out = bytes;
        return true;
    }
    match out.extend_from_slice(bytes.as_slice()) {
        Ok(()) => true,
        Err(_) => false,
    }
}

/// Answers the frame that stands first in a peer's dialog, if it is whole.
fn answer_peer<A: Archive, C: Clock, L>(
    world: &mut World<A, C, L>,
    peer: &mut PeerDialog,
    out: &mut Vec<u8>,
) -> Progress<Result<Ended, ServeFault>>
    requires { IsUsable (Peer peer.old) }
    ensures answers { (made : List ℕ) × (out.new.items ≡ out.old.items ++ made)
        × MeetsPeer A.state C.gave world.old peer.old made (end_in result) world.new
        (unless_over (end_in result) (Peer peer.new)) }
    ensures sound { end_in result ≡ None → IsUsable (Peer peer.new) }
    ensures lacks { result ≡ Lacks
        → (out.new.items ≡ out.old.items) × (frame_header peer.new.frames.waiting ≡ Ok None) }
{
    world.logins.release();
    let time = time_at(&world.server.settings, &mut world.clock);
    let mut said = Vec::new(world.server.alloc);
    let progress = answer_frame(
        &mut world.server,
        time,
        &mut world.restoring,
        peer,
        &mut said,
    );
    if append(said, out) {
        progress
    } else {
        Progress::Ended(Err(ServeFault::OutOfMemory))
    }
}

/// Tells a peer why the call to it ends; or memory for that is wanting.
fn refuse_call(
    alloc: Global,
    fault: ExchangeFault,
    out: &mut Vec<u8>,
) -> Progress<Result<Ended, ServeFault>>
    ensures tells { (said : List ℕ) × (made : List ℕ) × (told : Result Standing Fault)
        × (out.new.items ≡ out.old.items ++ made) × TellsFault fault told [] said
        × Tells said (ended_as None (is_silent said) told) made (end_in result) }
    ensures whole { result ≡ Lacks → ⊥ }
    ensures over { end_in result ≡ None → ⊥ }
{
    let mut said = Vec::new(alloc);
    let progress = refuse_frame(alloc, fault, &mut said);
    if append(said, out) {
        progress
    } else {
        Progress::Ended(Err(ServeFault::OutOfMemory))
    }
}

/// Answers the frame that stands first in a peer's dialog, if it is whole. Where that is the first one of a call that looks for
/// numbers that were given twice, its records are compared before with those that are held: two of one number are told, and end
/// the call before anything of the frame is learned.
fn answer_compared<A: Archive, C: Clock, L: Log>(
    stay: Stay,
    world: &mut World<A, C, L>,
    peer: &mut PeerDialog,
    out: &mut Vec<u8>,
) -> Progress<Result<Ended, ServeFault>>
    requires { IsUsable (Peer peer.old) }
    ensures answers { (made : List ℕ) × (out.new.items ≡ out.old.items ++ made)
        × MeetsCompared A.state C.gave L.told stay.party world.old peer.old made (end_in result)
        world.new (unless_over (end_in result) (Peer peer.new)) }
    ensures sound { end_in result ≡ None → IsUsable (Peer peer.new) }
    ensures lacks { result ≡ Lacks
        → (out.new.items ≡ out.old.items) × (frame_header peer.new.frames.waiting ≡ Ok None) }
{
    match judge_call(world, stay.party, peer) {
        None => answer_peer(world, peer, out),
        Some(fault) => {
            world.logins.release();
            refuse_call(world.server.alloc, fault, out)
        }
    }
}

/// What a step of a browser's connection is to it.
fn web_progress(step: Result<WebStep, AllocError>) -> Progress<Result<Ended, ServeFault>>
    ensures ends { end_in result ≡ web_ending step }
    ensures lacks { result ≡ Lacks → step ≡ Ok NeedsBytesFirst }
{
    match step {
        Ok(WebStep::NeedsInput) => Progress::NeedsMore,
        Ok(WebStep::Continues) => Progress::Answered,
        Ok(WebStep::Ended | WebStep::Denied) => Progress::Ended(Ok(Ended::Browser)),
        Err(_) => Progress::Ended(Err(ServeFault::OutOfMemory)),
    }
}

/// Tells that a browser was denied what it asked for, if it was.
fn tell_denial<L: Log>(log: &mut L, stay: Stay, denied: bool)
    ensures { LogsDenial L.told stay denied log.old log.new }
{
    if denied {
        log.tell_denied(stay);
    }
}

/// Answers what stands first on a browser's connection, if it is whole. That it was denied what it asked for is told. The clock is
/// read once.
fn answer_browser<A: Archive, C: Clock, L: Log>(
    stay: Stay,
    world: &mut World<A, C, L>,
    web: &mut WebConnection,
    out: &mut Vec<u8>,
) -> Progress<Result<Ended, ServeFault>>
    ensures answers { (made : List ℕ) × (out.new.items ≡ out.old.items ++ made)
        × AnswersBrowser A.state C.gave L.told stay world.old web.old made (end_in result)
        world.new (unless_over (end_in result) (Browser web.new)) }
    ensures lacks { result ≡ Lacks → (out.new.items ≡ out.old.items) × NeedsRequest web.new }
{
    let server = &mut world.server;
    let overview = Overview {
        settings: &server.settings,
        calls: &world.calls,
        connections: world.connections,
        now: world.clock.now(),
    };
    let step = web.answer(overview, &mut server.replica.archive, out);
    let limit = server.settings.logins();
    world.logins.note_step(limit, stay, world.now, step);
    tell_denial(&mut world.log, stay, is_denied(step));
    web_progress(step)
}

/// Leaves the other end of a connection that ended.
fn leave_at_end(
    other: &mut OtherEnd,
    progress: Progress<Result<Ended, ServeFault>>,
) -> Progress<Result<Ended, ServeFault>>
    ensures same { result ≡ progress }
    ensures left { other.new ≡ unless_over (end_in progress) other.old }
{
    match progress {
        Progress::Ended(_) => *other = OtherEnd::Over(moved_by(other)),
        Progress::NeedsMore => {}
        Progress::Answered => {}
    }
    progress
}

/// Answers what stands first in what the other end brought, if it is whole.
pub(crate) fn answer_first<A: Archive, C: Clock, L: Log>(
    stay: Stay,
    world: &mut World<A, C, L>,
    other: &mut OtherEnd,
    out: &mut Vec<u8>,
) -> Progress<Result<Ended, ServeFault>>
    requires { IsUsable other.old }
    ensures answers { (made : List ℕ) × (out.new.items ≡ out.old.items ++ made)
        × AnswersFirst A.state C.gave L.told stay world.old other.old made (end_in result) world.new
        other.new }
    ensures sound { IsUsable other.new }
    ensures lacks { result ≡ Lacks → (out.new.items ≡ out.old.items) × IsIncomplete other.new }
{
    match other {
        OtherEnd::Client(connection) => {
            let progress = answer_client(stay, world, connection, out);
            leave_at_end(other, progress)
        }
        OtherEnd::Peer(peer) => {
            let progress = answer_compared(stay, world, peer, out);
            leave_at_end(other, progress)
        }
        OtherEnd::Browser(web) => {
            let progress = answer_browser(stay, world, web, out);
            leave_at_end(other, progress)
        }
        OtherEnd::Stranger => {
            *other = OtherEnd::Over(NONE_MOVED);
            Progress::Ended(Ok(Ended::Stranger))
        }
        OtherEnd::Unknown { .. } | OtherEnd::Over(_) => Progress::NeedsMore,
    }
}

/// Whether the other end is a client with a session that was activated, or a peer of whom a whole frame came.
pub(crate) fn is_established(other: &OtherEnd) -> bool
    ensures { result ≡ is_established other.now }
{
    match other {
        OtherEnd::Client(connection) => connection.has_user(),
        OtherEnd::Peer(peer) => peer.is_heard,
        OtherEnd::Unknown { .. } | OtherEnd::Browser(_) | OtherEnd::Stranger | OtherEnd::Over(_) =>
            false,
    }
}
