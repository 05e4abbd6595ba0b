//! Imports: what the command `import` writes.

ghost use Rattle.std.specs.Prelude.{◌≡◌, IsErrOf, None};
ghost use Rattle.counted_io.specs.Bytes.{counted};
ghost use Rattle.ua_server.specs.Importing.{WritesRows, counts_told, import_fault, import_of, import_refusal, import_told, perform_of, remote_told};
ghost use Rattle.ua_server.specs.Host.{known_machine};
ghost use Rattle.ua_server.specs.Program.{DoesImporting, ImportsTo, scene_of};
ghost use Rattle.ua_session.specs.Users.{IsUserName};

use crate::host::Host;
use crate::log::ErrorLog;
use crate::program::ProgramFault;
use archive::Archive;
use command_line::{ImportWords, PerformWord};
use conversation::World;
use counted_io::{Counted, ServeFault};
use historian::Server;
use history_import::{Counts, Import, ImportFault, Perform, import_rows, may_import};
use remote_import::{RemoteFault, import_at};
use std::io::{Read, Write};
use std::net::SocketAddr;
use ua_binary::Ticks;
use ua_client::Line;
use ua_connection::Clock;
use ua_settings::Settings;

/// What rows are to do, by its word.
fn perform_of(word: PerformWord) -> Perform
    ensures { result ≡ perform_of word }
{
    match word {
        PerformWord::Insert => Perform::Insert,
        PerformWord::Replace => Perform::Replace,
        PerformWord::Update => Perform::Update,
    }
}

/// How an import came to its end, as the program tells it.
fn counts_told(counts: &Counts) -> Result<(), ProgramFault>
    ensures { result ≡ counts_told counts.now }
{
    if counts.refused == 0 {
        Ok(())
    } else {
        Err(ProgramFault::RowsRefused(counts.refused))
    }
}

/// What the fault of an import is called by the program.
fn import_fault(fault: ImportFault) -> ProgramFault
    ensures told { result ≡ import_fault fault }
    ensures read { result ≡ ProgramFault.Connection ServeFault.Read → ⊥ }
    ensures write { result ≡ ProgramFault.Connection ServeFault.Write → fault ≡ ImportFault.Write }
{
    match fault {
        ImportFault::Header => ProgramFault::NoHeader,
        ImportFault::Read => ProgramFault::UnreadRows,
        ImportFault::Write => ProgramFault::Connection(ServeFault::Write),
        ImportFault::OutOfMemory => ProgramFault::Connection(ServeFault::OutOfMemory),
    }
}

/// How an import ended, as the program tells it.
fn import_told(ended: Result<Counts, ImportFault>) -> Result<(), ProgramFault>
    ensures told { result ≡ import_told ended }
    ensures read { IsErrOf result (ProgramFault.Connection ServeFault.Read) → ⊥ }
    ensures write { IsErrOf result (ProgramFault.Connection ServeFault.Write)
        → IsErrOf ended ImportFault.Write }
{
    match ended {
        Ok(counts) => counts_told(&counts),
        Err(fault) => Err(import_fault(fault)),
    }
}

/// How an import into a running server ended, as the program tells it.
fn remote_told(ended: Result<Counts, RemoteFault>) -> Result<(), ProgramFault>
    ensures told { result ≡ remote_told ended }
    ensures read { IsErrOf result (ProgramFault.Connection ServeFault.Read) → ⊥ }
    ensures write { IsErrOf result (ProgramFault.Connection ServeFault.Write)
        → IsErrOf ended (RemoteFault.Rows ImportFault.Write) }
{
    match ended {
        Ok(counts) => counts_told(&counts),
        Err(RemoteFault::Rows(fault)) => Err(import_fault(fault)),
        Err(RemoteFault::Server(fault)) => Err(ProgramFault::Server(fault)),
    }
}

/// Why an import by these words is refused as a whole, if it is: its user isn't one who may write, or it has nowhere to write to,
/// since no running server is named, and no store by the settings.
pub(crate) fn import_refusal(settings: &Settings, words: ImportWords<'_>) -> Option<ProgramFault>
    ensures why { result ≡ import_refusal settings.now words.entry }
    ensures named { result ≡ None → IsUserName words.entry.user.now }
{
    if !may_import(settings, words.user) {
        return Some(ProgramFault::BadUser);
    }
    if words.server.is_some() || settings.store().is_some() {
        return None;
    }
    Some(ProgramFault::NoStore)
}

/// The import that the words of a line ask for, at this reading of the clock.
fn import_of(words: ImportWords<'_>, reading: i64) -> Import<'_>
    ensures { result ≡ import_of words.entry reading }
{
    Import {
        user: words.user,
        perform: perform_of(words.perform),
        reading: Ticks(reading),
    }
}

/// Writes the rows of the input into the archive, in a user's name, as the program tells it.
fn import_over<A: Archive, C: Clock, R: Read, W: Write>(
    server: &mut Server<A>,
    clock: &mut C,
    words: ImportWords<'_>,
    input: &mut Counted<R>,
    output: &mut Counted<W>,
) -> Result<(), ProgramFault>
    requires user { IsUserName words.user.now }
    ensures read { IsErrOf result (ProgramFault.Connection ServeFault.Read) → ⊥ }
    ensures write { IsErrOf result (ProgramFault.Connection ServeFault.Write)
        → output.new.faults ≡ counted output.old.faults }
    ensures imports { WritesRows A.state C.gave server.old.settings words.entry
        (record {
          archive = server.old.replica.archive;
          unread = R.remaining input.old.inner;
          written = W.contents output.old.inner;
          clock = clock.old;
        })
        (record {
          archive = server.new.replica.archive;
          unread = R.remaining input.new.inner;
          written = W.contents output.new.inner;
          clock = clock.new;
        }) result }
{
    let asked = import_of(words, clock.now());
    import_told(import_rows(server, &asked, input, output))
}

/// Writes the rows of the input into the archive, or brings them to the running server at an address, where the words name one:
/// in a session of their user. The connection is given back then.
fn import_by<H: Host, C: Clock, R: Read, W: Write, E: Write>(
    world: &mut World<H::Archive, C, ErrorLog<E, C>>,
    words: ImportWords<'_>,
    host: &mut H,
    input: &mut Counted<R>,
    output: &mut Counted<W>,
) -> Result<(), ProgramFault>
    requires user { IsUserName words.user.now }
    ensures read { IsErrOf result (ProgramFault.Connection ServeFault.Read) → ⊥ }
    ensures write { IsErrOf result (ProgramFault.Connection ServeFault.Write)
        → output.new.faults ≡ counted output.old.faults }
    ensures imports { ImportsTo
        (known_machine H.means H.Archive.state H.Source.effects H.Source.Reader.input
        H.Source.Writer.output H.Reader.remaining H.Writer.contents H.Rows.remaining)
        words.entry.server C.gave world.old.server.settings words.entry
        world.old.server.replica.archive world.new.server.replica.archive
        (scene_of (R.remaining input.old.inner) (W.contents output.old.inner) host.old
        world.old.clock world.old.log.errors)
        (scene_of (R.remaining input.new.inner) (W.contents output.new.inner) host.new
        world.new.clock world.new.log.errors) result }
{
    let Some(text) = words.server else {
        return import_over(&mut world.server, &mut world.clock, words, input, output);
    };
    let Ok(address) = text.parse::<SocketAddr>() else {
        return Err(ProgramFault::Address);
    };
    let Some((reader, writer)) = host.call(address) else {
        return Err(ProgramFault::Address);
    };
    let asked = import_of(words, world.clock.now());
    let line = Line {
        alloc: world.server.alloc,
        reader: Counted::new(reader),
        writer: Counted::new(writer),
    };
    let done = import_at(&world.server.settings, &asked, line, input, output);
    host.part(done.line.reader, done.line.writer);
    remote_told(done.ended)
}

/// Does the same with the rows of the file that the words name, which is read in pieces; without one they are those of the input.
pub(crate) fn import_from<H: Host, C: Clock, R: Read, W: Write, E: Write>(
    world: &mut World<H::Archive, C, ErrorLog<E, C>>,
    words: ImportWords<'_>,
    host: &mut H,
    input: &mut Counted<R>,
    output: &mut Counted<W>,
) -> Result<(), ProgramFault>
    requires user { IsUserName words.user.now }
    ensures read { IsErrOf result (ProgramFault.Connection ServeFault.Read) → ⊥ }
    ensures write { IsErrOf result (ProgramFault.Connection ServeFault.Write)
        → output.new.faults ≡ counted output.old.faults }
    ensures imports { DoesImporting
        (known_machine H.means H.Archive.state H.Source.effects H.Source.Reader.input
        H.Source.Writer.output H.Reader.remaining H.Writer.contents H.Rows.remaining)
        C.gave world.old.server.settings words.entry world.old.server.replica.archive
        world.new.server.replica.archive
        (scene_of (R.remaining input.old.inner) (W.contents output.old.inner) host.old
        world.old.clock world.old.log.errors)
        (scene_of (R.remaining input.new.inner) (W.contents output.new.inner) host.new
        world.new.clock world.new.log.errors) result }
{
    let Some(path) = words.file else {
        return import_by(world, words, host, input, output);
    };
    let Some(rows) = host.open_rows(path) else {
        return Err(ProgramFault::NoRows);
    };
    import_by(world, words, host, &mut Counted::new(rows), output)
}
