//! The program, over any reader and writers.

ghost use Rattle.std.specs.Prelude.{◌≡◌, ◌≤◌, IfOk, IfErr, OnOk, OnErr, IsErrOf, map, option_copied, string_bytes, None, Some, length};
ghost use Rattle.std.specs.Fmt.InlineText.{inline_text};
ghost use Rattle.std.specs.Result.{result_map_both};
ghost use Rattle.std.specs.Io.KnownBytes.{Appends};
ghost use Rattle.counted_io.specs.Bytes.{counted, AppendsPart};
ghost use Rattle.ua_connection.specs.Environments.{Environment};
ghost use Rattle.ua_server.specs.Single.{AnswersAt};
ghost use Rattle.ua_server.specs.Telling.{fresh_log, exit_status, LogsLine, fault_text, numbered, told_line, error_lines, synced_line, fault_of, dump_fault, sync_fault, place_line, server_number, server_words};
ghost use Rattle.ua_server.specs.Host.{known_machine};
ghost use Rattle.ua_server.specs.Program.{OpensArchive, OpensBy, PrintsCall, PrintsSynced, PrintsText, CallsPeer, DoesCommand, DoesAndCloses, DoesLine, HasUserName, Runs, findings_in, line_refusal, scene_of, settings_path, store_use};
ghost use Rattle.ua_server.specs.Calls.{compared_before};
ghost use Rattle.ua_server.specs.Dumping.{Dumps};

use crate::calls::{CallFault, compared_before, exchange_over, print_clash};
use crate::checks::check_over;
use crate::connections::serve_at;
use crate::dumps::{DumpFault, dump};
use crate::files::settings_at;
use crate::hexed::HexFault;
use crate::histories::{OptionFault, history_over};
use crate::host::{Host, StoreTerms};
use crate::imports::{import_from, import_refusal};
use crate::log::ErrorLog;
use crate::single::{AnswerTerms, answer_at};
use archive::{Archive, StoreFault};
use command_line::{Asked, Line, LineFault, SyncWords, read_line};
use conversation::World;
use counted_io::{Counted, ServeFault};
use exchange::ExchangeFault;
use historian::Server;
use itoa::Buffer;
use std::alloc::{AllocError, Global};
use std::convert::AsStr;
use std::error::Error;
use std::fmt;
use std::fmt::{InlineText, Write as _};
use std::io::{Read, Write};
use std::net::SocketAddr;
use ua_binary::Text;
use ua_client::ClientFault;
use ua_connection::Clock;
use ua_peers::{SyncFault, Synced};
use ua_settings::{Settings, SettingsFault};

/// What went wrong in a run of the program.
#[derive(Debug, PartialEq, Eq, Drop)]
pub enum ProgramFault {
    /// The command line is no command.
    Line(LineFault),
    /// The settings file can't be read.
    File,
    /// The settings are refused; the text says where, unless memory for it is wanting.
    Settings(SettingsFault, Option<Text>),
    /// The store can't be opened or read.
    Store(StoreFault),
    /// The input isn't hex.
    BadHex,
    /// The settings' address, or that of the peer or the server to be called, is none, or can't be listened at or called.
    Address,
    /// The address of the settings' door is none, or can't be listened at.
    DoorAddress,
    /// The network of this number in the settings' door, from 1, is none.
    DoorNetwork(u64),
    /// The address of the peer of this number in the settings, from 1, is none.
    PeerAddress(u64),
    /// The address where browsers come to is none, or can't be listened at.
    WebAddress,
    /// The store broke while connections were served, and the settings say that nobody is served then.
    StoreBroken,
    /// A connection met a fault.
    Connection(ServeFault),
    /// The connection with a peer that was called met a fault.
    Call(ServeFault),
    /// The exchange with a peer met a fault here.
    Exchange(ExchangeFault),
    /// The peer ended the exchange by this number.
    Peer(u32),
    /// This number of a replica was given to two records, of which a peer holds the one.
    NumberTwice(u64),
    /// What a history is asked by is none.
    BadOption(OptionFault),
    /// A history has a value that has no text.
    NoText,
    /// Rows are to be written in a name that isn't one of a user who may write.
    BadUser,
    /// Rows are to be written where the settings name no store, and the words no running server.
    NoStore,
    /// The file of the rows can't be opened.
    NoRows,
    /// Rows don't begin by their header.
    NoHeader,
    /// Rows can't be read.
    UnreadRows,
    /// So many rows were refused.
    RowsRefused(u64),
    /// A running server that rows were brought to didn't do what it was asked.
    Server(ClientFault),
}

/// What is said of a running server that didn't do what it was asked.
fn server_words(fault: ClientFault) -> &'static str
    ensures { result.now ≡ server_words fault }
{
    match fault {
        ClientFault::Connection(_) => "connection to the server ended",
        ClientFault::Refused(_) => "import ended: the server refused it",
        ClientFault::Format => "import ended: what came from the server is no answer",
        ClientFault::Closed => "import ended: the server closed the connection",
        ClientFault::TooLarge => "import ended: a request is too long",
        ClientFault::OutOfMemory => "import ended: out of memory",
    }
}

/// Its number, if it has one: that of a fault of a connection, or the code by which the server refused.
fn server_number(fault: ClientFault) -> Option<u64>
    ensures { result ≡ server_number fault }
{
    match fault {
        ClientFault::Connection(fault) => Some(u64::from(fault.number())),
        ClientFault::Refused(status) => Some(u64::from(status.0)),
        ClientFault::Format
        | ClientFault::Closed
        | ClientFault::TooLarge
        | ClientFault::OutOfMemory => None,
    }
}

impl ProgramFault {
    ghost use Rattle.ua_server.specs.declared.program.ProgramFault.TheVariants as told;
    ghost use Rattle.ua_server.specs.Telling.{words_of, number_told};

    /// What is said of it, without its number.
    pub fn words(&self) -> &'static str
        ensures { result.now ≡ words_of self.now }
    {
        match self {
            ProgramFault::Line(fault) => fault.text(),
            ProgramFault::File => "settings file can't be read",
            ProgramFault::Settings(..) => "settings refused",
            ProgramFault::Store(_) => "store refused",
            ProgramFault::BadHex => "bad hex",
            ProgramFault::Address => "address refused",
            ProgramFault::DoorAddress => "door's address refused",
            ProgramFault::DoorNetwork(_) => "door's network refused",
            ProgramFault::PeerAddress(_) => "peer's address refused",
            ProgramFault::WebAddress => "page's address refused",
            ProgramFault::StoreBroken => "store broken",
            ProgramFault::Connection(_) | ProgramFault::Call(_) => "connection ended",
            ProgramFault::Exchange(_) | ProgramFault::Peer(_) => "exchange ended",
            ProgramFault::NumberTwice(_) => "a number was given to two records",
            ProgramFault::BadOption(fault) => fault.text(),
            ProgramFault::NoText => "history ended: a value of a type that has no text",
            ProgramFault::BadUser => "--user: want a user of the settings who may write",
            ProgramFault::NoStore => "import refused: the settings name no store",
            ProgramFault::NoRows => "rows refused: the file can't be opened",
            ProgramFault::NoHeader => "rows refused: want the header node,time,value,status",
            ProgramFault::UnreadRows => "import ended: the rows can't be read",
            ProgramFault::RowsRefused(_) => "rows refused",
            ProgramFault::Server(fault) => server_words(*fault),
        }
    }

    /// Its number, if it has one.
    pub fn number(&self) -> Option<u64>
        ensures { result ≡ number_told self.now }
    {
        match self {
            ProgramFault::Settings(fault, _) => Some(u64::from(fault.number())),
            ProgramFault::Store(fault) => Some(u64::from(fault.number())),
            ProgramFault::Connection(fault) | ProgramFault::Call(fault) => {
                Some(u64::from(fault.number()))
            }
            ProgramFault::Exchange(fault) => Some(u64::from(fault.number())),
            ProgramFault::Peer(number) => Some(u64::from(*number)),
            ProgramFault::DoorNetwork(number)
            | ProgramFault::PeerAddress(number)
            | ProgramFault::NumberTwice(number)
            | ProgramFault::RowsRefused(number) => Some(*number),
            ProgramFault::Line(_)
            | ProgramFault::File
            | ProgramFault::BadHex
            | ProgramFault::Address
            | ProgramFault::DoorAddress
            | ProgramFault::WebAddress
            | ProgramFault::StoreBroken
            | ProgramFault::BadOption(_)
            | ProgramFault::NoText
            | ProgramFault::BadUser
            | ProgramFault::NoStore
            | ProgramFault::NoRows
            | ProgramFault::NoHeader
            | ProgramFault::UnreadRows => None,
            ProgramFault::Server(fault) => server_number(*fault),
        }
    }

    /// Where the settings are refused.
    pub fn place(&self) -> Option<&str>
        ensures { option_copied result
            ≡ (elim self.now [ told.Settings fault place ↦ place | _ ↦ None ]) }
    {
        match self {
            ProgramFault::Settings(_, Some(place)) => Some(place.as_str()),
            ProgramFault::Settings(_, None)
            | ProgramFault::Line(_)
            | ProgramFault::File
            | ProgramFault::Store(_)
            | ProgramFault::BadHex
            | ProgramFault::Address
            | ProgramFault::DoorAddress
            | ProgramFault::DoorNetwork(_)
            | ProgramFault::PeerAddress(_)
            | ProgramFault::WebAddress
            | ProgramFault::StoreBroken
            | ProgramFault::Connection(_)
            | ProgramFault::Call(_)
            | ProgramFault::Exchange(_)
            | ProgramFault::Peer(_)
            | ProgramFault::NumberTwice(_)
            | ProgramFault::BadOption(_)
            | ProgramFault::NoText
            | ProgramFault::BadUser
            | ProgramFault::NoStore
            | ProgramFault::NoRows
            | ProgramFault::NoHeader
            | ProgramFault::UnreadRows
            | ProgramFault::RowsRefused(_)
            | ProgramFault::Server(_) => None,
        }
    }
}

impl fmt::Display for ProgramFault {
    ghost use Rattle.std.specs.Prelude.{Some};
    ghost use Rattle.ua_server.specs.Telling.{fault_text};

    ghost output = { λ fault. Some (fault_text fault) };

    fn fmt<W: fmt::Write>(&self, f: &mut fmt::Formatter<W>) -> fmt::Result {
        f.write_str(self.words())?;
        match self.number() {
            None => Ok(()),
            Some(number) => write!(f, " ({number})"),
        }
    }
}

impl Error for ProgramFault {}

/// What a fault of a connection is called by the program.
fn fault_of(fault: HexFault) -> ProgramFault
    ensures { result ≡ fault_of fault }
{
    match fault {
        HexFault::BadHex => ProgramFault::BadHex,
        HexFault::Serve(fault) => ProgramFault::Connection(fault),
    }
}

/// What a command does with the store of its settings.
#[derive(Clone, Copy, Debug, PartialEq, Eq)]
pub(crate) enum StoreUse {
    /// It leaves it alone.
    Leaves,
    /// It opens it where it stands.
    Opens,
    /// It opens it, and makes it where none stands.
    Makes,
}

/// Opens the archive of the settings: that of their store, as far as that is used, or one in memory that holds nothing where
/// they name none.
fn open_archive<H: Host>(
    settings: &Settings,
    store_use: StoreUse,
    host: &mut H,
) -> Result<H::Archive, StoreFault>
    ensures { OpensArchive H.means H.Archive.state store_use settings.now settings.now.store result
        host.old host.new }
{
    let terms = StoreTerms::of(settings);
    let Some(path) = settings.store() else {
        return host.open_in_memory(terms);
    };
    let opens = match store_use {
        StoreUse::Leaves => false,
        StoreUse::Opens => host.has_store(path),
        StoreUse::Makes => true,
    };
    if opens {
        host.open_file(path, terms)
    } else {
        host.open_in_memory(terms)
    }
}

/// The server that a command is done over: of its settings, where it has some, over the archive that they name.
fn open_server<H: Host>(
    alloc: Global,
    line: &Line<'_>,
    host: &mut H,
) -> Result<Server<H::Archive>, ProgramFault>
    ensures opens { OpensBy H.means H.Archive.state (store_use line.now) (line_refusal line.now)
        (settings_path line.now)
        (result_map_both (λ server. (server.settings, server.replica.archive)) (λ fault. fault)
        result) host.old host.new }
    ensures named { OnOk result (HasUserName line.now) }
    ensures connection { (fault : ServeFault) → IsErrOf result (ProgramFault.Connection fault) → ⊥ }
{
    let settings = settings_at(alloc, settings_path(line), host)?;
    match line_refusal(line, &settings) {
        Some(fault) => return Err(fault),
        None => {}
    }
    match open_archive(&settings, store_use(line), host) {
        Ok(archive) => Ok(Server::new(alloc, settings, archive)),
        Err(fault) => Err(ProgramFault::Store(fault)),
    }
}

/// Answers one connection, as the program tells it.
fn answer_over<A: Archive, C: Clock, R: Read, W: Write>(
    server: &mut Server<A>,
    terms: AnswerTerms,
    clock: &mut C,
    input: &mut Counted<R>,
    output: &mut Counted<W>,
) -> Result<(), ProgramFault>
    ensures read { IsErrOf result (ProgramFault.Connection ServeFault.Read)
        → input.new.faults ≡ counted input.old.faults }
    ensures write { IsErrOf result (ProgramFault.Connection ServeFault.Write)
        → output.new.faults ≡ counted output.old.faults }
    ensures does { (used : Environment) × C.gave clock.old used.readings clock.new × (answered : _)
        × AnswersAt server.old.settings (A.state server.old.replica.archive)
        (A.state server.new.replica.archive) terms.hex terms.moment (R.remaining input.old.inner)
        (R.remaining input.new.inner) (W.contents output.old.inner) (W.contents output.new.inner)
        used answered × (result ≡ result_map_both (λ done. done) fault_of answered) }
{
    answer_at(server, terms, input, output, clock).map_err(fault_of)
}

/// What the fault of a dump is called by the program.
fn dump_fault(fault: DumpFault) -> ProgramFault
    ensures { result ≡ dump_fault fault }
{
    match fault {
        DumpFault::Store(fault) => ProgramFault::Store(fault),
        DumpFault::Write => ProgramFault::Connection(ServeFault::Write),
        DumpFault::OutOfMemory => ProgramFault::Connection(ServeFault::OutOfMemory),
    }
}

/// Dumps an archive, as the program tells it.
fn dump_over<A: Archive, W: Write>(
    server: &mut Server<A>,
    output: &mut Counted<W>,
) -> Result<(), ProgramFault>
    ensures read { IsErrOf result (ProgramFault.Connection ServeFault.Read) → ⊥ }
    ensures write { IsErrOf result (ProgramFault.Connection ServeFault.Write)
        → output.new.faults ≡ counted output.old.faults }
    ensures dumps { (dumped : _)
        × Dumps (A.state server.old.replica.archive) (A.state server.new.replica.archive)
        (W.contents output.old.inner) (W.contents output.new.inner) dumped
        × (result ≡ result_map_both (λ done. done) dump_fault dumped) }
{
    dump(server.alloc, &mut server.replica.archive, output).map_err(dump_fault)
}

/// What the fault of a dialog is called by the program.
fn sync_fault(fault: SyncFault) -> ProgramFault
    ensures { result ≡ sync_fault fault }
{
    match fault {
        SyncFault::Connection(fault) => ProgramFault::Call(fault),
        SyncFault::Exchange(fault) => ProgramFault::Exchange(fault),
        SyncFault::Peer(number) => ProgramFault::Peer(number),
    }
}

/// The line that tells how many records a call of a peer moved.
fn synced_line(alloc: Global, synced: Synced) -> Result<String, AllocError>
    ensures { IfOk result (λ line. string_bytes line ≡ synced_line synced) }
{
    let mut line = String::new(alloc);
    let learned = synced.learned;
    let sent = synced.sent;
    writeln!(line, "learned {learned} sent {sent}")?;
    Ok(line)
}

/// Prints the line of a dialog that came to its end.
fn print_synced<W: Write>(
    alloc: Global,
    synced: Synced,
    output: &mut Counted<W>,
) -> Result<(), ProgramFault>
    ensures prints { PrintsSynced (W.contents output.old.inner) (W.contents output.new.inner)
        (Ok synced) result }
    ensures read { IsErrOf result (ProgramFault.Connection ServeFault.Read) → ⊥ }
    ensures write { IsErrOf result (ProgramFault.Connection ServeFault.Write)
        → output.new.faults ≡ counted output.old.faults }
{
    let line = synced_line(alloc, synced).map_err(|_| ProgramFault::Connection(
        ServeFault::OutOfMemory,
    ))?;
    output
        .send(line.as_bytes())
        .map_err(|_| ProgramFault::Connection(ServeFault::Write))
}

/// Prints the line of a call that came to its end. Of another one its fault is told, and after two records of one number these
/// are printed.
fn report_call<W: Write>(
    alloc: Global,
    ending: Result<Synced, CallFault>,
    output: &mut Counted<W>,
) -> Result<(), ProgramFault>
    ensures prints { PrintsCall (W.contents output.old.inner)
        (W.contents output.new.inner) ending result }
    ensures read { IsErrOf result (ProgramFault.Connection ServeFault.Read) → ⊥ }
    ensures write { IsErrOf result (ProgramFault.Connection ServeFault.Write)
        → output.new.faults ≡ counted output.old.faults }
{
    match ending {
        Ok(synced) => print_synced(alloc, synced, output),
        Err(CallFault::Sync(fault)) => Err(sync_fault(fault)),
        Err(CallFault::Clash(clash)) => {
            print_clash(alloc, &clash, output);
            Err(ProgramFault::NumberTwice(clash.brought.number))
        }
    }
}

/// Calls the peer at an address, exchanges records with it, and prints how many were moved; where that is asked for, what both hold
/// is compared before.
fn sync_over<H: Host, W: Write>(
    server: &mut Server<H::Archive>,
    asked: SyncWords<'_>,
    host: &mut H,
    output: &mut Counted<W>,
) -> Result<(), ProgramFault>
    ensures read { IsErrOf result (ProgramFault.Connection ServeFault.Read) → ⊥ }
    ensures write { IsErrOf result (ProgramFault.Connection ServeFault.Write)
        → output.new.faults ≡ counted output.old.faults }
    ensures calls { CallsPeer
        (known_machine H.means H.Archive.state H.Source.effects H.Source.Reader.input
        H.Source.Writer.output H.Reader.remaining H.Writer.contents H.Rows.remaining)
        (compared_before asked.entry) asked.entry.peer.now
        (record {
          host = host.old;
          archive = server.old.replica.archive;
          written = W.contents output.old.inner;
        })
        (record {
          host = host.new;
          archive = server.new.replica.archive;
          written = W.contents output.new.inner;
        }) result }
{
    let Ok(address) = asked.peer.parse::<SocketAddr>() else {
        return Err(ProgramFault::Address);
    };
    let Some((reader, writer)) = host.call(address) else {
        return Err(ProgramFault::Address);
    };
    let mut reader = Counted::new(reader);
    let mut writer = Counted::new(writer);
    let compared = compared_before(asked);
    let ending = exchange_over(server, compared, &mut reader, &mut writer);
    host.part(reader, writer);
    report_call(server.alloc, ending, output)
}

/// The path of a command's settings.
fn settings_path<'a>(line: &Line<'a>) -> Option<&'a str>
    ensures { option_copied result ≡ settings_path line.now }
{
    match *line {
        Line::Answer { settings, .. } => settings,
        Line::Serve { settings, .. } => Some(settings),
        Line::Dump { settings } => Some(settings),
        Line::Sync { settings, .. } => Some(settings),
        Line::History { settings, .. } => Some(settings),
        Line::Import { settings, .. } => Some(settings),
        Line::Check { settings, .. } => Some(settings),
    }
}

/// What a command does with the store of its settings: those that only print make none, and one that only tells of the
/// settings, or brings rows to a running server, leaves it alone.
fn store_use(line: &Line<'_>) -> StoreUse
    ensures { result ≡ store_use line.now }
{
    match line {
        Line::Dump { .. } | Line::History { .. } => StoreUse::Opens,
        Line::Check { store, .. } => {
            if *store {
                StoreUse::Opens
            } else {
                StoreUse::Leaves
            }
        }
        Line::Import { asked, .. } => {
            if asked.server.is_some() {
                StoreUse::Leaves
            } else {
                StoreUse::Makes
            }
        }
        Line::Answer { .. } | Line::Serve { .. } | Line::Sync { .. } => StoreUse::Makes,
    }
}

/// Why a command is refused by its settings, before their store is opened.
fn line_refusal(line: &Line<'_>, settings: &Settings) -> Option<ProgramFault>
    ensures why { result ≡ line_refusal line.now settings.now }
    ensures named { result ≡ None → HasUserName line.now }
    ensures connection { (fault : ServeFault) → result ≡ Some (ProgramFault.Connection fault) → ⊥ }
{
    match line {
        Line::Import { asked, .. } => import_refusal(settings, *asked),
        _ => None,
    }
}

/// What a run comes to: its ending, and the clock and the standard error that it was given.
#[derive(Drop)]
pub struct Ran<C, E> {
    /// How it ended.
    pub ending: Result<(), ProgramFault>,
    /// Its clock.
    pub clock: C,
    /// Its standard error.
    pub errors: Counted<E>,
}

/// Does what a line says over the server of its settings.
fn do_command<H: Host, C: Clock, R: Read, W: Write, E: Write>(
    world: &mut World<H::Archive, C, ErrorLog<E, C>>,
    line: Line<'_>,
    host: &mut H,
    input: &mut Counted<R>,
    output: &mut Counted<W>,
) -> Result<(), ProgramFault>
    requires log { world.old.log ≡ fresh_log world.old.server.alloc world.old.server.settings.events
        world.old.clock world.old.log.errors }
    requires user { HasUserName line }
    ensures read { IsErrOf result (ProgramFault.Connection ServeFault.Read)
        → input.new.faults ≡ counted input.old.faults }
    ensures write { IsErrOf result (ProgramFault.Connection ServeFault.Write)
        → output.new.faults ≡ counted output.old.faults }
    ensures does { DoesCommand
        (known_machine H.means H.Archive.state H.Source.effects H.Source.Reader.input
        H.Source.Writer.output H.Reader.remaining H.Writer.contents H.Rows.remaining)
        C.gave E.contents line.entry world.old.server.settings world.old.server.replica.archive
        world.new.server.replica.archive
        (scene_of (R.remaining input.old.inner) (W.contents output.old.inner) host.old
        world.old.clock world.old.log.errors)
        (scene_of (R.remaining input.new.inner) (W.contents output.new.inner) host.new
        world.new.clock world.new.log.errors) result }
{
    match line {
        Line::Answer { hex, now, .. } => {
            let terms = AnswerTerms { hex, moment: now };
            answer_over(&mut world.server, terms, &mut world.clock, input, output)
        }
        Line::Serve { connections, .. } => serve_at(world, connections, host),
        Line::Dump { .. } => dump_over(&mut world.server, output),
        Line::Sync { asked, .. } => sync_over(&mut world.server, asked, host, output),
        Line::History { asked, .. } => history_over(&mut world.server, asked, output),
        Line::Import { asked, .. } => import_from(world, asked, host, input, output),
        Line::Check { store, .. } => check_over(&mut world.server, store, output),
    }
}

/// Does what a line says over the server of its settings, whose archive is closed then.
fn do_over<H: Host, C: Clock + Copy, R: Read, W: Write, E: Write>(
    mut world: World<H::Archive, C, ErrorLog<E, C>>,
    line: Line<'_>,
    host: &mut H,
    input: &mut Counted<R>,
    output: &mut Counted<W>,
) -> Ran<C, E>
    requires log { world.log ≡ fresh_log world.server.alloc world.server.settings.events world.clock
        world.log.errors }
    requires user { HasUserName line }
    ensures read { IsErrOf result.ending (ProgramFault.Connection ServeFault.Read)
        → input.new.faults ≡ counted input.old.faults }
    ensures write { IsErrOf result.ending (ProgramFault.Connection ServeFault.Write)
        → output.new.faults ≡ counted output.old.faults }
    ensures does { DoesAndCloses
        (known_machine H.means H.Archive.state H.Source.effects H.Source.Reader.input
        H.Source.Writer.output H.Reader.remaining H.Writer.contents H.Rows.remaining)
        C.gave E.contents line.entry world.server.settings world.server.replica.archive
        (scene_of (R.remaining input.old.inner) (W.contents output.old.inner) host.old world.clock
        world.log.errors)
        (scene_of (R.remaining input.new.inner) (W.contents output.new.inner) host.new result.clock
        result.errors) result.ending }
{
    let ending = do_command(&mut world, line, host, input, output);
    let World {
        server,
        clock,
        log,
        ..
    } = world;
    host.close(server.replica.archive);
    Ran {
        ending,
        clock,
        errors: log.errors,
    }
}

/// Does what a line says: over the archive of its settings, which is closed then.
fn do_line<H: Host, C: Clock + Copy, R: Read, W: Write, E: Write>(
    alloc: Global,
    line: Line<'_>,
    host: &mut H,
    clock: C,
    input: &mut Counted<R>,
    output: &mut Counted<W>,
    errors: Counted<E>,
) -> Ran<C, E>
    ensures read { IsErrOf result.ending (ProgramFault.Connection ServeFault.Read)
        → input.new.faults ≡ counted input.old.faults }
    ensures write { IsErrOf result.ending (ProgramFault.Connection ServeFault.Write)
        → output.new.faults ≡ counted output.old.faults }
    ensures does { DoesLine
        (known_machine H.means H.Archive.state H.Source.effects H.Source.Reader.input
        H.Source.Writer.output H.Reader.remaining H.Writer.contents H.Rows.remaining)
        C.gave E.contents line.entry
        (scene_of (R.remaining input.old.inner) (W.contents output.old.inner) host.old clock errors)
        (scene_of (R.remaining input.new.inner) (W.contents output.new.inner) host.new result.clock
        result.errors) result.ending }
{
    match open_server(alloc, &line, host) {
        Ok(server) => {
            let events = server.settings.tells_events();
            let log = ErrorLog::new(server.alloc, events, clock, errors);
            let world = World::new(server, clock, log);
            do_over(world, line, host, input, output)
        }
        Err(fault) => Ran {
            ending: Err(fault),
            clock,
            errors,
        },
    }
}

/// Prints the text of help, or of the version.
fn print_text<W: Write>(text: &[u8], output: &mut Counted<W>) -> Result<(), ProgramFault>
    ensures prints { PrintsText (W.contents output.old.inner) (W.contents output.new.inner) result }
    ensures read { IsErrOf result (ProgramFault.Connection ServeFault.Read) → ⊥ }
    ensures write { IsErrOf result (ProgramFault.Connection ServeFault.Write)
        → output.new.faults ≡ counted output.old.faults }
{
    output
        .send(text)
        .map_err(|_| ProgramFault::Connection(ServeFault::Write))
}

/// Does what a command line asks for. Where that names a file of settings, it is read first, and then the store that they
/// name is opened; where it gives a moment, the clock isn't read. What a connection over the network ended by is told on
/// `errors` when it ends. The clock and `errors` are given back.
///
/// Errors; what went out before one stands, and what was learned or written:
///
/// | Error | Where |
/// |---|---|
/// | `Line` | the words are no command |
/// | `File`, `Settings` | the settings file can't be read, or is refused |
/// | `Store` | the settings' store can't be opened, or can't be read for what is printed |
/// | `StoreBroken` | the store broke while it was served, and the settings say that this ends it |
/// | `Address` | the settings' address, or that of the peer or the server to be called, is none, or can't be listened at or called |
/// | `DoorAddress`, `WebAddress` | the same of the settings' door, and of where browsers come to |
/// | `DoorNetwork`, `PeerAddress` | the text of a network of the door, or of a peer that the server is to call, is none |
/// | `BadHex` | the input is to be hex, and isn't |
/// | `Connection` | the connection of standard input met a fault, or the writer of what is printed did |
/// | `Call`, `Exchange`, `Peer` | the call of a peer: its connection met a fault, the exchange met one here, or the peer ended it by a number |
/// | `NumberTwice` | the peer that was called holds another record of a number than this archive |
/// | `BadOption`, `NoText` | an option of `history` says nothing of its kind; a value of the history has no text |
/// | `BadUser`, `NoStore` | the user of an import isn't one who may write; neither do its settings name a store nor its words a server |
/// | `NoRows` | the file of the rows of an import can't be opened |
/// | `NoHeader`, `UnreadRows`, `RowsRefused` | the rows of an import don't begin by their header, can't be read, or some were refused |
/// | `Server` | a running server that rows are brought to didn't do what it was asked: the connection to it met a fault, it refused, or what came is no answer |
#[tactic(auto, using(crate::proofs::Printing::lines))]
pub fn run<S: AsStr, H: Host, C: Clock + Copy, R: Read, W: Write, E: Write>(
    alloc: Global,
    words: &[S],
    host: &mut H,
    clock: C,
    input: &mut Counted<R>,
    output: &mut Counted<W>,
    errors: Counted<E>,
) -> Ran<C, E>
    ensures read { IsErrOf result.ending (ProgramFault.Connection ServeFault.Read)
        → input.new.faults ≡ counted input.old.faults }
    ensures write { IsErrOf result.ending (ProgramFault.Connection ServeFault.Write)
        → output.new.faults ≡ counted output.old.faults }
    ensures runs { Runs (findings_in (map S.text words.now))
        (known_machine H.means H.Archive.state H.Source.effects H.Source.Reader.input
        H.Source.Writer.output H.Reader.remaining H.Writer.contents H.Rows.remaining)
        C.gave E.contents
        (scene_of (R.remaining input.old.inner) (W.contents output.old.inner) host.old clock errors)
        (scene_of (R.remaining input.new.inner) (W.contents output.new.inner) host.new result.clock
        result.errors) result.ending }
{
    match read_line(alloc, words) {
        Ok(Asked::Work(line)) => do_line(alloc, line, host, clock, input, output, errors),
        Ok(Asked::Text(text)) => Ran {
            ending: print_text(text.as_bytes(), output),
            clock,
            errors,
        },
        Err(fault) => Ran {
            ending: Err(ProgramFault::Line(fault)),
            clock,
            errors,
        },
    }
}

/// Writes a line that begins with `uahist: `.
pub(crate) fn tell<W: Write>(text: &[u8], errors: &mut Counted<W>) -> Result<(), ServeFault>
    ensures ok { OnOk result
        (Appends (W.contents errors.old.inner) (W.contents errors.new.inner) (told_line text.now)) }
    ensures kept { OnOk result (errors.new.faults ≡ errors.old.faults) }
    ensures part { OnErr result
        (AppendsPart (W.contents errors.old.inner) (W.contents errors.new.inner)
        (told_line text.now)) }
    ensures write { OnErr result (errors.new.faults ≡ counted errors.old.faults) }
{
    match errors.send(b"uahist: ") {
        Ok(()) => errors.send_line(text),
        Err(fault) => Err(fault),
    }
}

/// Tells on `errors` what went wrong, in a line that begins with `uahist: `, and where settings are refused in a second one.
/// Of a line that can't be written whole a first part stands, and the failed call is counted. Answers the exit status:
///
/// | Status | Where |
/// |---|---|
/// | 0 | nothing went wrong |
/// | 1 | an address can't be listened at or called; a connection or an exchange ended by a fault, or a number was given to two records; a value has no text; rows can't be read or were refused |
/// | 2 | the command line, the settings, an option or the input was refused, the settings name no store, or the file of rows can't be opened |
/// | 3 | the store was refused, or it broke |
pub fn report<W: Write>(ending: Result<(), ProgramFault>, errors: &mut Counted<W>) -> u8
    ensures status { result ≡ exit_status ending }
    ensures silent { OnOk ending (errors.new ≡ errors.old) }
    ensures told { IfErr ending
        (λ fault. LogsLine W.contents errors.old errors.new (error_lines fault)) }
{
    let Err(fault) = ending else {
        return 0;
    };
    let _ = tell_fault(&fault, errors);
    match fault {
        ProgramFault::Line(_)
        | ProgramFault::File
        | ProgramFault::Settings(..)
        | ProgramFault::BadHex
        | ProgramFault::BadOption(_)
        | ProgramFault::BadUser
        | ProgramFault::NoStore
        | ProgramFault::NoRows
        | ProgramFault::NoHeader => 2,
        ProgramFault::Store(_) | ProgramFault::StoreBroken => 3,
        ProgramFault::Address
        | ProgramFault::DoorAddress
        | ProgramFault::DoorNetwork(_)
        | ProgramFault::PeerAddress(_)
        | ProgramFault::WebAddress
        | ProgramFault::Connection(_)
        | ProgramFault::Call(_)
        | ProgramFault::Exchange(_)
        | ProgramFault::Peer(_)
        | ProgramFault::NumberTwice(_)
        | ProgramFault::NoText
        | ProgramFault::UnreadRows
        | ProgramFault::RowsRefused(_)
        | ProgramFault::Server(_) => 1,
    }
}

/// Writes what went wrong, and where in the settings.
fn tell_fault<W: Write>(fault: &ProgramFault, errors: &mut Counted<W>) -> Result<(), ServeFault>
    ensures ok { OnOk result
        (Appends (W.contents errors.old.inner) (W.contents errors.new.inner)
        (error_lines fault.now)) }
    ensures kept { OnOk result (errors.new.faults ≡ errors.old.faults) }
    ensures part { OnErr result
        (AppendsPart (W.contents errors.old.inner) (W.contents errors.new.inner)
        (error_lines fault.now)) }
    ensures write { OnErr result (errors.new.faults ≡ counted errors.old.faults) }
{
    match tell_text(fault, errors) {
        Ok(()) => tell_place(fault.place(), errors),
        Err(cause) => Err(cause),
    }
}

/// Writes the line that says what went wrong.
fn tell_text<W: Write>(fault: &ProgramFault, errors: &mut Counted<W>) -> Result<(), ServeFault>
    ensures ok { OnOk result
        (Appends (W.contents errors.old.inner) (W.contents errors.new.inner)
        (told_line (fault_text fault.now))) }
    ensures kept { OnOk result (errors.new.faults ≡ errors.old.faults) }
    ensures part { OnErr result
        (AppendsPart (W.contents errors.old.inner) (W.contents errors.new.inner)
        (told_line (fault_text fault.now))) }
    ensures write { OnErr result (errors.new.faults ≡ counted errors.old.faults) }
{
    match fault.number() {
        None => tell(fault.words().as_bytes(), errors),
        Some(number) => tell(numbered(fault.words(), number).as_str().as_bytes(), errors),
    }
}

/// The most bytes of words that have a number, and of such a number.
const MOST_WORDS: usize = 40;

/// Words, and a number in brackets after them.
pub(crate) fn numbered(words: &str, number: u64) -> InlineText<100>
    requires { length words.now ≤ 40 }
    ensures { inline_text result ≡ numbered words.now number }
{
    let mut digits = Buffer::new();
    InlineText::new()
        .and_str(words, MOST_WORDS)
        .and_str(" (", 2)
        .and_str(digits.format(number), MOST_WORDS)
        .and_str(")", 1)
}

/// Writes a line that begins with `uahist: `, unless there is nothing to tell.
fn tell_place<W: Write>(place: Option<&str>, errors: &mut Counted<W>) -> Result<(), ServeFault>
    ensures ok { OnOk result
        (Appends (W.contents errors.old.inner) (W.contents errors.new.inner)
        (place_line (option_copied place.entry))) }
    ensures kept { OnOk result (errors.new.faults ≡ errors.old.faults) }
    ensures part { OnErr result
        (AppendsPart (W.contents errors.old.inner) (W.contents errors.new.inner)
        (place_line (option_copied place.entry))) }
    ensures write { OnErr result (errors.new.faults ≡ counted errors.old.faults) }
{
    match place {
        None => Ok(()),
        Some(place) => tell(place.as_bytes(), errors),
    }
}
