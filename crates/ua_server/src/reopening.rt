//! A store that broke, and is opened anew.

ghost use Rattle.std.specs.Prelude.{◌≡◌, IfOk};
ghost use Rattle.ua_server.specs.Host.{known_machine, store_terms};
ghost use Rattle.ua_server.specs.Reopening.{OpensNext, TriesAnew, LogsReopening, LogsSuccessor, broken_where, file_at, successor_of, terms_of, with_archive};

use crate::host::{Host, StoreTerms};
use crate::log::ErrorLog;
use crate::program::tell;
use archive::{Archive, StoreFault};
use conversation::World;
use std::alloc::{AllocError, Global};
use std::io::Write;
use std::mem;
use ua_binary::Text;
use ua_connection::Clock;
use ua_settings::{AfterBreak, Settings};

/// The file of a store, and by which terms it is opened.
#[derive(Drop)]
pub(crate) struct StoreFile {
    /// Where it stands.
    pub path: Text,
    /// Whose archive it holds, and how.
    pub terms: StoreTerms,
}

/// What takes the place of a store that broke.
#[derive(Drop)]
pub(crate) enum Successor {
    /// Its file, opened anew.
    File(StoreFile),
    /// An archive by these terms that is broken too: its file is closed, so that it can be told why it broke.
    Broken(StoreTerms),
}

/// The file that is opened anew, at this path.
fn file_at(alloc: Global, settings: &Settings, path: &str) -> Result<Successor, AllocError>
    ensures { IfOk result (λ successor. successor ≡ Successor.File (file_at settings.now path.now)) }
{
    Ok(Successor::File(StoreFile {
        path: Text::from_str(alloc, path)?,
        terms: StoreTerms::of(settings),
    }))
}

/// An archive that is broken, where events are told.
fn broken_where(settings: &Settings) -> Option<Successor>
    ensures { result ≡ broken_where settings.now.events (store_terms settings.now) }
{
    if settings.tells_events() {
        Some(Successor::Broken(StoreTerms::of(settings)))
    } else {
        None
    }
}

/// What takes the place of a broken store; none where the settings end serving then, or nothing is told, or the archive is in
/// memory.
pub(crate) fn successor_of(
    alloc: Global,
    settings: &Settings,
) -> Result<Option<Successor>, AllocError>
    ensures { IfOk result (λ next. next ≡ successor_of settings.now) }
{
    let Some(path) = settings.store() else {
        return Ok(None);
    };
    match settings.after_break() {
        AfterBreak::Stop => Ok(None),
        AfterBreak::Reopen => Ok(Some(file_at(alloc, settings, path)?)),
        AfterBreak::GoOn => Ok(broken_where(settings)),
    }
}

/// By which terms it is opened.
fn terms_of(successor: &Successor) -> StoreTerms
    ensures { result ≡ terms_of successor.now }
{
    match successor {
        Successor::File(file) => file.terms,
        Successor::Broken(terms) => *terms,
    }
}

/// Opens what takes the place of a broken store that was closed.
fn open_next<H: Host>(successor: &Successor, host: &mut H) -> Result<H::Archive, StoreFault>
    ensures { OpensNext H.means H.Archive.state successor.now host.old result host.new }
{
    match successor {
        Successor::File(file) => host.open_file(file.path.as_str(), file.terms),
        Successor::Broken(terms) => host.open_broken(*terms),
    }
}

/// Closes a broken archive, and opens what takes its place. An archive in memory that holds nothing stands there meanwhile,
/// and also afterwards where that is refused.
fn open_anew<H: Host>(
    archive: &mut H::Archive,
    successor: &Successor,
    host: &mut H,
) -> Result<(), StoreFault>
    ensures { TriesAnew
        (known_machine H.means H.Archive.state H.Source.effects H.Source.Reader.input
        H.Source.Writer.output H.Reader.remaining H.Writer.contents H.Rows.remaining)
        successor.now
        (record { host = host.old; archive = archive.old })
        (record { host = host.new; archive = archive.new }) result }
{
    let stand_in = match host.open_in_memory(terms_of(successor)) {
        Ok(stand_in) => stand_in,
        Err(fault) => return Err(fault),
    };
    let broken = mem::replace(archive, stand_in);
    host.close(broken);
    match open_next(successor, host) {
        Ok(opened) => {
            *archive = opened;
            Ok(())
        }
        Err(fault) => Err(fault),
    }
}

/// Tells that a file was opened anew; or keeps in mind that it was told why a store broke, where its file was closed.
fn tell_successor<E: Write, C>(successor: &Successor, log: &mut ErrorLog<E, C>)
    ensures { LogsSuccessor E.contents successor.now log.old log.new }
{
    match successor {
        Successor::File(_) => {
            let _ = tell(b"store broken, opened anew", &mut log.errors);
        }
        Successor::Broken(_) => log.is_cause_told = true,
    }
}

/// Closes the broken archive of a world, opens what takes its place, and tells so. All else stays.
pub(crate) fn reopen<H: Host, C: Clock, E: Write>(
    world: &mut World<H::Archive, C, ErrorLog<E, C>>,
    successor: &Successor,
    host: &mut H,
) -> Result<(), StoreFault>
    ensures tries { TriesAnew
        (known_machine H.means H.Archive.state H.Source.effects H.Source.Reader.input
        H.Source.Writer.output H.Reader.remaining H.Writer.contents H.Rows.remaining)
        successor.now
        (record { host = host.old; archive = world.old.server.replica.archive })
        (record { host = host.new; archive = world.new.server.replica.archive }) result }
    ensures tells { LogsReopening E.contents successor.now result world.old.log world.new.log }
    ensures others { world.new
        ≡ with_archive world.old world.new.server.replica.archive world.new.log }
{
    match open_anew(&mut world.server.replica.archive, successor, host) {
        Ok(()) => {
            tell_successor(successor, &mut world.log);
            Ok(())
        }
        Err(fault) => Err(fault),
    }
}
