//! Which records are taken from peers.

ghost use Rattle.std.specs.Prelude.{◌≡◌, ℤ, List};
ghost use Rattle.std.specs.List.{list_any};
ghost use Rattle.std.specs.Option.{option_copied};
ghost use Rattle.exchange.specs.Admissions.{admission_of, first_frame};
ghost use Rattle.conversation.specs.Admitting.{admission_at, ahead_at, IsTimed, brings_records, is_own_asked, AsksOwn, restoring_with, restoring_unless, own_bound, was_done};

use archive::{Archive, StoreFault};
use exchange::{Admission, Bound, FrameKind, Frames};
use historian::Server;
use stamp::ReplicaNo;
use ua_connection::Clock;
use ua_session::{AuditEvent, UpdateAudit};
use ua_settings::{DoorSettings, Settings};

/// Whether a frame stands first that brings records.
fn brings_records(frames: &Frames) -> bool
    ensures { result ≡ brings_records (first_frame frames.now.waiting) }
{
    match frames.peek() {
        None => false,
        Some(frame) => frame.kind == FrameKind::Records,
    }
}

/// Whether it is asked how many records of its own number an archive holds: peers have a door, which names no replicas, and a
/// frame stands first that brings records.
fn is_own_asked(settings: &Settings, frames: &Frames) -> bool
    ensures { result ≡ is_own_asked settings.now frames.now.waiting }
{
    match settings.door() {
        None => false,
        Some(door) => door.replicas.is_none() && brings_records(frames),
    }
}

/// How many records of its own number an archive holds, where that is asked.
pub(crate) fn ask_own<A: Archive>(
    server: &mut Server<A>,
    frames: &Frames,
) -> Result<Option<u64>, StoreFault>
    ensures asks { AsksOwn A.state (is_own_asked server.old.settings frames.now.waiting)
        server.old.replica.archive server.new.replica.archive result }
    ensures settings { server.new.settings ≡ server.old.settings }
{
    if is_own_asked(&server.settings, frames) {
        let archive = &mut server.replica.archive;
        let held = archive.vector()?;
        Ok(Some(held.get(archive.number())))
    } else {
        Ok(None)
    }
}

/// Whether records of this machine's own number come back, once so many are held: where they did before, or none is held.
pub(crate) fn restoring_with(restoring: bool, held: Option<u64>) -> bool
    ensures { result ≡ restoring_with restoring held }
{
    match held {
        None => restoring,
        Some(held) => restoring || held == 0,
    }
}

/// Whether something was done of details: values have a status each, or all went well.
fn was_done(update: &UpdateAudit) -> bool
    ensures { result ≡ was_done update.now }
{
    update.values > 0 || update.worst.0 < 0x4000_0000
}

/// Whether something was done of any of these.
fn are_done(updates: &[UpdateAudit]) -> bool
    ensures { result ≡ list_any was_done updates.now }
{
    updates.iter().any(|update| was_done(update))
}

/// Whether they still come back after what a client did: an update ends that, of which something was done.
pub(crate) fn restoring_unless(restoring: bool, event: Option<&AuditEvent>) -> bool
    ensures { result ≡ restoring_unless restoring (option_copied event.entry) }
{
    match event {
        Some(AuditEvent::Update { updates, .. }) => { restoring && !are_done(updates.as_slice()) }
        Some(AuditEvent::Activation { .. }) | None => restoring,
    }
}

/// The greatest number that is taken of them: that of the last one that is held, unless they come back.
pub(crate) fn own_bound(restoring: bool, own: ReplicaNo, held: Option<u64>) -> Option<Bound>
    ensures { result ≡ own_bound restoring own held }
{
    match held {
        None => None,
        Some(number) => {
            if restoring {
                None
            } else {
                Some(Bound {
                    replica: own,
                    number,
                })
            }
        }
    }
}

/// Which records are taken at a door at this time, where there is this bound.
fn admission_of_door(door: &DoorSettings, time: i64, bound: Option<Bound>) -> Admission<'_>
    ensures { admission_of result ≡ record {
      replicas = door.now.replicas;
      bound = bound;
      ahead = door.now.ahead;
      time = time;
    } }
{
    let replicas = match &door.replicas {
        None => None,
        Some(replicas) => Some(replicas.as_slice()),
    };
    Admission {
        replicas,
        bound,
        ahead: door.ahead,
        time,
    }
}

/// Which records are taken from peers at this time, where there is this bound; all, where the settings have no door of theirs.
pub(crate) fn admission_at(settings: &Settings, time: i64, bound: Option<Bound>) -> Admission<'_>
    ensures { admission_of result ≡ admission_at settings.now time bound }
{
    match settings.door() {
        None => Admission {
            replicas: None,
            bound: None,
            ahead: None,
            time,
        },
        Some(door) => admission_of_door(door, time, bound),
    }
}

/// How many seconds a record's tick may be ahead of the time.
fn ahead_at(settings: &Settings) -> Option<u32>
    ensures { result ≡ ahead_at settings.now }
{
    match settings.door() {
        None => None,
        Some(door) => door.ahead,
    }
}

/// The time, where the settings say how far a record's tick may be ahead of it; else it isn't asked for.
pub(crate) fn time_at<C: Clock>(settings: &Settings, clock: &mut C) -> i64
    ensures { (readings : List ℤ) × C.gave clock.old readings clock.new
        × IsTimed settings.now readings result }
{
    match ahead_at(settings) {
        None => 0,
        Some(_) => clock.now(),
    }
}
