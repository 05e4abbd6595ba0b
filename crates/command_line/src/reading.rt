//! What a line of words asks for, by the matches that `clap` finds in it.

ghost use Rattle.std.specs.Prelude.{◌≡◌, map, IfOk, IfSome, OnErr, IsErrOf, None, Some, true, codes, option_copied};
ghost use Rattle.clap.specs.Words.{kind_of, rows_of, found_of, subcommand_of, subcommand_rows_of, first_of};
ghost use Rattle.clap.specs.declared.error.ErrorKind.TheVariants as clap;
ghost use Rattle.clap.specs.Takes.{takes};
ghost use Rattle.clap.specs.Faults.{fault_of as fault_kinds};
ghost use Rattle.command_line.specs.Line.{Asks, AsksForText, AreHistoryWords, IsAnswer, IsCheck, IsDump, IsHistoryCommand, IsImportCommand, IsLine, IsMistake, IsServe, IsSync, IsText, IsTextOf, NoLine, file_in, perform_in, perform_named, uahist};

use crate::commands::command;
use crate::line::{Asked, HistoryWords, ImportWords, Line, LineFault, PerformWord, SyncWords};
use clap::ArgMatches;
use clap::error::{Error as Refusal, ErrorKind};
use std::alloc::Global;
use std::convert::AsStr;
use std::fmt::Write as _;

/// What `clap` makes of a line that it gives no matches of: the text that is asked for, or why the line is no command.
fn asked_in<'a>(alloc: Global, refusal: &Refusal) -> Result<Asked<'a>, LineFault>
    ensures text { IfOk result (IsTextOf (kind_of refusal.now)) }
    ensures words { IsErrOf result LineFault.Words → IsMistake (kind_of refusal.now) }
    ensures mistake { IsMistake (kind_of refusal.now) → IsErrOf result LineFault.Words }
{
    match refusal.kind() {
        ErrorKind::DisplayHelp | ErrorKind::DisplayVersion => text_of(alloc, refusal),
        ErrorKind::OutOfMemory => Err(LineFault::OutOfMemory),
        _ => Err(LineFault::Words),
    }
}

/// The text of help or of the version.
fn text_of<'a>(alloc: Global, refusal: &Refusal) -> Result<Asked<'a>, LineFault>
    ensures ok { IfOk result IsText }
    ensures memory { OnErr result (IsErrOf result LineFault.OutOfMemory) }
{
    let mut text = String::new(alloc);
    match write!(text, "{refusal}") {
        Ok(()) => Ok(Asked::Text(text)),
        Err(_) => Err(LineFault::OutOfMemory),
    }
}

/// Reads the options of `answer`.
fn read_answer<'a>(answer: &ArgMatches<'a>) -> Result<Line<'a>, LineFault>
    ensures ok { IfOk result (IsAnswer (rows_of (found_of answer.now))) }
    ensures words { OnErr result (NoLine (IsAnswer (rows_of (found_of answer.now)))) }
{
    let settings = answer.get_str("settings");
    let hex = answer.get_flag("hex");
    match answer.try_get_one("now") {
        Ok(now) => Ok(Line::Answer { settings, hex, now }),
        Err(_) => Err(LineFault::Words),
    }
}

/// Reads the options of `serve`.
fn read_serve<'a>(serve: &ArgMatches<'a>) -> Result<Line<'a>, LineFault>
    ensures ok { IfOk result (IsServe (rows_of (found_of serve.now))) }
    ensures words { OnErr result (NoLine (IsServe (rows_of (found_of serve.now)))) }
{
    let Some(settings) = serve.get_str("settings") else {
        return Err(LineFault::Words);
    };
    match serve.try_get_one("connections") {
        Ok(connections) => Ok(Line::Serve {
            settings,
            connections: connections.unwrap_or(u32::MAX),
        }),
        Err(_) => Err(LineFault::Words),
    }
}

/// Reads the option of `dump`.
fn read_dump<'a>(dump: &ArgMatches<'a>) -> Result<Line<'a>, LineFault>
    ensures ok { IfOk result (IsDump (rows_of (found_of dump.now))) }
    ensures words { OnErr result (NoLine (IsDump (rows_of (found_of dump.now)))) }
{
    match dump.get_str("settings") {
        Some(settings) => Ok(Line::Dump { settings }),
        None => Err(LineFault::Words),
    }
}

/// Reads the options of `sync`.
fn read_sync<'a>(sync: &ArgMatches<'a>) -> Result<Line<'a>, LineFault>
    ensures ok { IfOk result (IsSync (rows_of (found_of sync.now))) }
    ensures words { OnErr result (NoLine (IsSync (rows_of (found_of sync.now)))) }
{
    let Some(settings) = sync.get_str("settings") else {
        return Err(LineFault::Words);
    };
    let check = sync.get_flag("check");
    let verify = sync.get_flag("verify");
    match sync.get_str("peer") {
        Some(peer) => Ok(Line::Sync {
            settings,
            asked: SyncWords {
                peer,
                check,
                verify,
            },
        }),
        None => Err(LineFault::Words),
    }
}

/// What is asked of the history of this node.
fn read_words<'a>(history: &ArgMatches<'a>, node: &'a str) -> HistoryWords<'a>
    ensures { first_of (codes "node") (rows_of (found_of history.now)) ≡ Some node.now
        → AreHistoryWords (rows_of (found_of history.now)) result }
{
    let from = history.get_str("from");
    let to = history.get_str("to");
    let changes = history.get_flag("changes");
    let csv = history.get_flag("csv");
    let html = history.get_flag("html");
    HistoryWords {
        node,
        from,
        to,
        changes,
        csv,
        html,
    }
}

/// Reads the options of `history`.
fn read_history<'a>(history: &ArgMatches<'a>) -> Result<Line<'a>, LineFault>
    ensures ok { IfOk result (IsHistoryCommand (rows_of (found_of history.now))) }
    ensures words { OnErr result (NoLine (IsHistoryCommand (rows_of (found_of history.now)))) }
{
    let Some(settings) = history.get_str("settings") else {
        return Err(LineFault::Words);
    };
    match history.get_str("node") {
        Some(node) => Ok(Line::History {
            settings,
            asked: read_words(history, node),
        }),
        None => Err(LineFault::Words),
    }
}

/// What a word asks of rows.
fn perform_named(word: &str) -> Option<PerformWord>
    ensures { result ≡ perform_named word.now }
{
    if word == "insert" {
        Some(PerformWord::Insert)
    } else if word == "replace" {
        Some(PerformWord::Replace)
    } else if word == "update" {
        Some(PerformWord::Update)
    } else {
        None
    }
}

/// What rows are to do: to be inserted where no word is given.
fn perform_in(word: Option<&str>) -> Option<PerformWord>
    ensures { result ≡ perform_in (option_copied word.entry) }
{
    match word {
        Some(word) => perform_named(word),
        None => Some(PerformWord::Insert),
    }
}

/// The path of a file of rows: none where the word is `-`, which is standard input.
fn file_in(word: Option<&str>) -> Option<&str>
    ensures { option_copied result ≡ file_in (option_copied word.entry) }
{
    match word {
        Some("-") => None,
        word => word,
    }
}

/// Reads the options of `import`, and its argument.
fn read_import<'a>(import: &ArgMatches<'a>) -> Result<Line<'a>, LineFault>
    ensures ok { IfOk result (IsImportCommand (rows_of (found_of import.now))) }
    ensures words { OnErr result (NoLine (IsImportCommand (rows_of (found_of import.now)))) }
{
    let Some(settings) = import.get_str("settings") else {
        return Err(LineFault::Words);
    };
    let Some(user) = import.get_str("user") else {
        return Err(LineFault::Words);
    };
    let server = import.get_str("server");
    let file = import.get_str("file");
    match perform_in(import.get_str("perform")) {
        Some(perform) => Ok(Line::Import {
            settings,
            asked: ImportWords {
                user,
                perform,
                server,
                file: file_in(file),
            },
        }),
        None => Err(LineFault::Words),
    }
}

/// Reads the options of `check`.
fn read_check<'a>(check: &ArgMatches<'a>) -> Result<Line<'a>, LineFault>
    ensures ok { IfOk result (IsCheck (rows_of (found_of check.now))) }
    ensures words { OnErr result (NoLine (IsCheck (rows_of (found_of check.now)))) }
{
    let store = check.get_flag("store");
    match check.get_str("settings") {
        Some(settings) => Ok(Line::Check { settings, store }),
        None => Err(LineFault::Words),
    }
}

/// Reads the command that the matches name.
fn read_matches<'a>(matches: &ArgMatches<'a>) -> Result<Line<'a>, LineFault>
    ensures ok { IfOk result (IsLine (subcommand_rows_of matches.now)) }
    ensures words { OnErr result (NoLine (IsLine (subcommand_rows_of matches.now))) }
{
    if let Some(answer) = matches.subcommand_matches("answer") {
        return read_answer(answer);
    }
    if let Some(serve) = matches.subcommand_matches("serve") {
        return read_serve(serve);
    }
    if let Some(dump) = matches.subcommand_matches("dump") {
        return read_dump(dump);
    }
    if let Some(sync) = matches.subcommand_matches("sync") {
        return read_sync(sync);
    }
    if let Some(history) = matches.subcommand_matches("history") {
        return read_history(history);
    }
    if let Some(import) = matches.subcommand_matches("import") {
        return read_import(import);
    }
    match matches.subcommand_matches("check") {
        None => Err(LineFault::Words),
        Some(check) => read_check(check),
    }
}

/// What is said of a refusal, unless memory was wanting.
fn refusal_said(alloc: Global, refusal: &Refusal) -> Option<String>
    ensures { kind_of refusal.now ≡ clap.OutOfMemory → result ≡ None }
{
    if let ErrorKind::OutOfMemory = refusal.kind() {
        return None;
    }
    let mut text = String::new(alloc);
    match write!(text, "{refusal}") {
        Ok(()) => Some(text),
        Err(_) => None,
    }
}

/// What `clap` says of words that it refuses, the program's name first, as `error: unexpected argument '--port' found` and more
/// lines; none of words that it takes, or where memory ran out.
pub fn why_refused<'a, S: AsStr>(alloc: Global, words: &'a [S]) -> Option<String>
    ensures { IfSome result (λ text. takes uahist (map S.text words.now) ≡ true → ⊥) }
{
    let Ok(command) = command(alloc) else {
        return None;
    };
    match command.try_get_matches_from(words) {
        Ok(_) => None,
        Err(refusal) => refusal_said(alloc, &refusal),
    }
}

/// Reads a command line, the program's name first, as `clap` reads it.
///
/// `Ok` has the command that `clap`'s matches name and the values that they give for it, or the text of help or of the
/// version where that is asked for. Errors: `Words` where `clap` refuses the words, they name no command, or a value is no
/// number; `OutOfMemory` where memory ran out.
pub fn read_line<'a, S: AsStr>(alloc: Global, words: &'a [S]) -> Result<Asked<'a>, LineFault>
    ensures ok { IfOk result
        (Asks (fault_kinds uahist (map S.text words.now))
        (subcommand_of uahist (map S.text words.now))) }
    ensures words { IsErrOf result LineFault.Words → takes uahist (map S.text words.now) ≡ true
        → NoLine (IsLine (subcommand_of uahist (map S.text words.now))) }
    ensures help { IsErrOf result LineFault.Words → AsksForText (fault_kinds uahist (map S.text words.now))
        → ⊥ }
{
    let Ok(command) = command(alloc) else {
        return Err(LineFault::OutOfMemory);
    };
    match command.try_get_matches_from(words) {
        Ok(matches) => Ok(Asked::Work(read_matches(&matches)?)),
        Err(refusal) => asked_in(alloc, &refusal),
    }
}
