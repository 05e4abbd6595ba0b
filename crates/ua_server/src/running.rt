//! Serving from the first connection to the last, also over a store that is opened anew.

ghost use Rattle.std.specs.Prelude.{◌≡◌, ℕ, IfErr};
ghost use Rattle.multiplex.specs.Turns.{state};
ghost use Rattle.ua_server.specs.Host.{known_machine};
ghost use Rattle.ua_server.specs.Network.{IsServingFault};
ghost use Rattle.ua_server.specs.Serving.{ServesRun, ServesThrough, limits_behind, run_result};

use crate::host::Host;
use crate::log::ErrorLog;
use crate::program::ProgramFault;
use crate::reopening::{Successor, reopen};
use crate::watched::{Watched, tell_break};
use archive::Archive;
use conversation::{Ended, World, tell_turn};
use counted_io::ServeFault;
use multiplex::{Limits, ServeReport, Slot, Source, serve};
use std::io::Write;
use ua_connection::Clock;

/// A slot of a connection that a machine's source gives.
pub(crate) type Place<H, C, E> = Slot<
    Watched<<H as Host>::Archive, C, E>,
    <<H as Host>::Source as Source>::Reader,
    <<H as Host>::Source as Source>::Writer,
    Result<Ended, ServeFault>,
>;

/// What serving goes by.
#[derive(Drop)]
pub(crate) struct Course {
    /// What is taken at most.
    pub limits: Limits,
    /// What takes the place of the store once it is broken; none: nothing does.
    pub successor: Option<Successor>,
}

/// What is left of limits once so many connections were accepted.
fn limits_behind(limits: Limits, accepted: u64) -> Limits
    ensures { result ≡ limits_behind limits accepted }
{
    Limits {
        connections: match limits.connections {
            None => None,
            Some(most) => Some(most.saturating_sub(accepted)),
        },
        ..limits
    }
}

/// What comes of a run after which no more is done.
fn run_result(broken: bool) -> Result<(), ProgramFault>
    ensures same { result ≡ run_result broken }
    ensures fault { IfErr result IsServingFault }
{
    if broken {
        Err(ProgramFault::StoreBroken)
    } else {
        Ok(())
    }
}

/// Serves connections till all have ended, or the store is broken and nobody is served then; and tells how long the longest
/// turn took, where the settings want it told, and that the store broke, where that is to be told and wasn't yet.
fn serve_run<H: Host, C: Clock, E: Write>(
    source: &mut H::Source,
    world: &mut World<H::Archive, C, ErrorLog<E, C>>,
    slots: &mut [Option<Place<H, C, E>>],
    limits: Limits,
) -> ServeReport
    ensures { (first : ℕ) → (last : ℕ) × ServesRun
        (known_machine H.means H.Archive.state H.Source.effects H.Source.Reader.input
        H.Source.Writer.output H.Reader.remaining H.Writer.contents H.Rows.remaining)
        C.gave E.contents limits
        (state source.old slots.old world.old first) (state source.new slots.new world.new last)
        result.accepted result.is_over }
{
    let alloc = world.server.alloc;
    let report = serve::<H::Source, Watched<H::Archive, C, E>>(alloc, source, world, slots, limits);
    tell_turn(world, report.longest_turn);
    tell_break(world);
    report
}

/// Serves connections till all have ended, or the store is broken and nobody is served then. Where something takes its place
/// that is opened then, once, and the connections that are open are served on, with those that are left.
pub(crate) fn serve_through<H: Host, C: Clock, E: Write>(
    source: &mut H::Source,
    world: &mut World<H::Archive, C, ErrorLog<E, C>>,
    slots: &mut [Option<Place<H, C, E>>],
    course: &Course,
    host: &mut H,
) -> Result<(), ProgramFault>
    ensures through { (first : ℕ) → (last : ℕ) × ServesThrough
        (known_machine H.means H.Archive.state H.Source.effects H.Source.Reader.input
        H.Source.Writer.output H.Reader.remaining H.Writer.contents H.Rows.remaining)
        C.gave E.contents course.now.limits course.now.successor
        (record { host = host.old; loop = state source.old slots.old world.old first })
        (record { host = host.new; loop = state source.new slots.new world.new last }) result }
    ensures fault { IfErr result IsServingFault }
{
    let report = serve_run::<H, C, E>(source, world, slots, course.limits);
    if !report.is_over {
        return run_result(false);
    }
    let Some(successor) = &course.successor else {
        return run_result(true);
    };
    match reopen(world, successor, host) {
        Ok(()) => {}
        Err(fault) => return Err(ProgramFault::Store(fault)),
    }
    let left = limits_behind(course.limits, report.accepted);
    let again = serve_run::<H, C, E>(source, world, slots, left);
    run_result(again.is_over)
}
