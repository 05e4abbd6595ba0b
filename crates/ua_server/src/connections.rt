//! Connections over a network, many at once, of clients and of peers.

ghost use Rattle.std.specs.Prelude.{◌≡◌, ◌⊎◌, ◌*◌, length, map, pos, Ok, Err, IfOk, IfErr};
ghost use Rattle.conversation.specs.declared.door.Door.{Door as Kind};
ghost use Rattle.counted_io.specs.declared.fault.ServeFault.TheVariants.{OutOfMemory};
ghost use Rattle.multiplex.specs.Serving.{AreAllFree};
ghost use Rattle.ua_server.specs.Telling.{fresh_log};
ghost use Rattle.ua_server.specs.Network.{limits_of, refusals_kept, serving_of, IsServingFault};
ghost use Rattle.conversation.specs.Logins.{no_refusals};
ghost use Rattle.web_page.specs.Calls.{uncalled};
ghost use Rattle.ua_server.specs.Host.{known_machine};
ghost use Rattle.ua_server.specs.Program.{Listens};
ghost use Rattle.ua_server.specs.Reopening.{successor_of};
ghost use Rattle.ua_server.specs.Listening.{IsListening, HasNoAddress, door_fault};
ghost use Rattle.ua_server.specs.declared.listening.Listening.{Listening};
ghost use Rattle.ua_server.specs.declared.program.ProgramFault.TheVariants.{Connection};

use crate::host::Host;
use crate::listening::listening_of;
use crate::log::ErrorLog;
use crate::program::ProgramFault;
use crate::reopening::successor_of;
use crate::running::{Course, serve_through};
use crate::starting::count_records;
use conversation::{Door, Logins, Network, World};
use counted_io::ServeFault;
use multiplex::Limits;
use std::alloc::{AllocError, Global};
use std::io::Write;
use ua_binary::Listing;
use ua_connection::Clock;
use ua_settings::Settings;
use web_page::LastCalls;

/// So many refused logins are known at most.
const MOST_REFUSALS: usize = 1_000;

/// How many bytes a MiB has.
const MIB: usize = 1_048_576;

/// What a server of these settings takes at most, which accepts so many connections.
fn limits_of(settings: &Settings, connections: u32) -> Limits
    ensures { result ≡ limits_of settings.now connections }
{
    Limits {
        connections: Some(u64::from(connections)),
        accept_slots: settings.connections() as usize,
        waiting_bytes: settings.waiting() as usize * MIB,
        rounds: u64::MAX,
    }
}

/// What serving so many connections by these settings goes by.
fn course_of(alloc: Global, settings: &Settings, connections: u32) -> Result<Course, AllocError>
    ensures { IfOk result (λ course. (course.limits ≡ limits_of settings.now connections)
        × (course.successor ≡ successor_of settings.now)) }
{
    Ok(Course {
        limits: limits_of(settings, connections),
        successor: successor_of(alloc, settings)?,
    })
}

/// So many slots, each of them free.
fn free_slots<X: Drop>(alloc: Global, count: usize) -> Result<Vec<Option<X>>, AllocError>
    ensures { IfOk result (λ slots. AreAllFree slots.items × (length slots.items ≡ count)) }
{
    let mut slots = Vec::new(alloc);
    for _ in 0..count {
        slots.push(None)?;
    }
    Ok(slots)
}

/// What is told where a door's address can't be listened at.
fn door_fault(door: Door) -> ProgramFault
    ensures { result ≡ door_fault door }
{
    match door {
        Door::Both | Door::Clients => ProgramFault::Address,
        Door::Peers => ProgramFault::DoorAddress,
        Door::Browsers => ProgramFault::WebAddress,
    }
}

/// What gives the connections that come to the addresses of these settings, and calls their peers; and from where peers are
/// taken.
fn listen_at<H: Host>(
    alloc: Global,
    settings: &Settings,
    host: &mut H,
) -> Result<(H::Source, Option<Listing<Network>>), ProgramFault>
    ensures ok { IfOk result
        (λ had. (listening : Listening) × IsListening settings.now listening
        × H.means.listens host.old listening (Ok had.0) host.new × (had.1 ≡ listening.from)) }
    ensures refused { IfErr result
        (λ fault. ((fault ≡ Connection OutOfMemory) × (host.new ≡ host.old))
        ⊎ (HasNoAddress settings.now fault × (host.new ≡ host.old))
        ⊎ ((listening : Listening) × IsListening settings.now listening × (door : Kind)
        × H.means.listens host.old listening (Err door) host.new × (fault ≡ door_fault door))) }
{
    let listening = match listening_of(alloc, settings) {
        Ok(listening) => listening,
        Err(fault) => return Err(fault),
    };
    match host.listen(&listening) {
        Ok(source) => Ok((source, listening.from)),
        Err(door) => Err(door_fault(door)),
    }
}

/// What is known of refused logins, where the settings limit them; nothing was refused yet.
fn logins_of(alloc: Global, settings: &Settings) -> Result<Logins, AllocError>
    ensures { IfOk result (λ logins. logins ≡ no_refusals (refusals_kept settings.now.logins)) }
{
    match settings.logins() {
        None => Ok(Logins::none(alloc)),
        Some(_) => Logins::new(alloc, MOST_REFUSALS),
    }
}

/// The peers of these settings, none of which was called yet.
fn calls_of(alloc: Global, settings: &Settings) -> Result<LastCalls, AllocError>
    ensures { IfOk result (λ calls. calls ≡ map uncalled settings.now.peers) }
{
    LastCalls::new(alloc, settings.peers().as_slice())
}

/// Tells that the server begins, and how many records it holds, where events are told; then serves so many connections at the
/// addresses of its settings, many at once, and calls the peers of these settings when they are due, till all connections have
/// ended; or, where the settings say so, till the store is broken, which is a fault, or is opened anew, once.
pub(crate) fn serve_at<H: Host, C: Clock, E: Write>(
    world: &mut World<H::Archive, C, ErrorLog<E, C>>,
    connections: u32,
    host: &mut H,
) -> Result<(), ProgramFault>
    requires { world.old.log ≡ fresh_log world.old.server.alloc world.old.server.settings.events
        world.old.clock world.old.log.errors }
    ensures listens { Listens
        (known_machine H.means H.Archive.state H.Source.effects H.Source.Reader.input
        H.Source.Writer.output H.Reader.remaining H.Writer.contents H.Rows.remaining)
        C.gave E.contents world.old.server.settings connections
        (serving_of host.old world.old) (serving_of host.new world.new) result }
    ensures fault { IfErr result IsServingFault }
{
    let alloc = world.server.alloc;
    let Ok(course) = course_of(alloc, &world.server.settings, connections) else {
        return Err(ProgramFault::Connection(ServeFault::OutOfMemory));
    };
    let callees = world.server.settings.peers().as_slice().len();
    let Ok(mut slots) = free_slots(alloc, course.limits.accept_slots.saturating_add(callees)) else {
        return Err(ProgramFault::Connection(ServeFault::OutOfMemory));
    };
    let Ok(logins) = logins_of(alloc, &world.server.settings) else {
        return Err(ProgramFault::Connection(ServeFault::OutOfMemory));
    };
    let Ok(calls) = calls_of(alloc, &world.server.settings) else {
        return Err(ProgramFault::Connection(ServeFault::OutOfMemory));
    };
    let (mut source, from) = listen_at(alloc, &world.server.settings, host)?;
    world.from = from;
    world.logins = logins;
    world.calls = calls;
    world.connections = 0;
    world.restoring = false;
    let records = count_records(&mut world.server.replica.archive, world.log.events);
    world.log.log_start(&world.server.settings, records);
    serve_through::<H, C, E>(&mut source, world, slots.as_mut_slice(), &course, host)
}
