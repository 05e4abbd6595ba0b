//! The commands of the program and their options, as `clap` is told of them.

ghost use Rattle.std.specs.Prelude.{◌≡◌, IfOk, false, codes};
ghost use Rattle.clap.specs.Words.{app_of, rule_of};
ghost use Rattle.clap.specs.declared.builder.command.Command.TheViews.{out-Command};
ghost use Rattle.command_line.specs.Line.{answer_command, call_command, check_command, connections, dump_command, file, flag, histories, history_command, import_command, movers, node_command, now, option, rows_command, serve_command, servers, span_command, sync_command, uahist};

use crate::line::VERSION;
use clap::builder::ValueParser;
use clap::{Arg, ArgAction, Command};
use std::alloc::{AllocError, Global};

/// The greatest moment that a clock may stand at, 2^63 - 1.
const MOST_NOW: u64 = 9_223_372_036_854_775_807;

/// The most connections that a run serves, and as many as it serves where no number is given, 2^32 - 1.
const MOST_CONNECTIONS: u64 = 4_294_967_295;

/// An option `--NAME VALUE`.
fn option<'a>(alloc: Global, name: &'a str, value: &'a str, help: &'a str) -> Arg<'a>
    ensures rule { rule_of result ≡ option name.now }
    ensures local { result.global ≡ false }
{
    Arg::new(alloc, name)
        .long(name)
        .value_name(value)
        .help(help)
        .action(ArgAction::Set)
}

/// An option `--NAME`, which takes no value.
fn flag<'a>(alloc: Global, name: &'a str, help: &'a str) -> Arg<'a>
    ensures rule { rule_of result ≡ flag name.now }
    ensures local { result.global ≡ false }
{
    Arg::new(alloc, name)
        .long(name)
        .help(help)
        .action(ArgAction::SetTrue)
}

/// The option `--settings FILE`.
fn settings_option<'a>(alloc: Global) -> Arg<'a>
    ensures rule { rule_of result ≡ option (codes "settings") }
    ensures local { result.global ≡ false }
{
    option(alloc, "settings", "FILE", "The settings file")
}

/// The option `--now N`.
fn now_option<'a>(alloc: Global) -> Arg<'a>
    ensures rule { rule_of result ≡ now }
    ensures local { result.global ≡ false }
{
    option(
        alloc,
        "now",
        "N",
        "Stops the clock at N, in ticks of 100 ns since 1601",
    )
    .value_parser(ValueParser::unsigned(0, MOST_NOW))
}

/// The option `--connections N`.
fn connections_option<'a>(alloc: Global) -> Arg<'a>
    ensures rule { rule_of result ≡ connections }
    ensures local { result.global ≡ false }
{
    option(alloc, "connections", "N", "Ends after N connections").value_parser(
        ValueParser::unsigned(1, MOST_CONNECTIONS),
    )
}

/// The argument `FILE.csv`, which stands without a name.
fn file_argument<'a>(alloc: Global) -> Arg<'a>
    ensures rule { rule_of result ≡ file }
    ensures local { result.global ≡ false }
{
    Arg::new(alloc, "file")
        .value_name("FILE.csv")
        .help(
            "The file that has the rows; without it, or where it is -, they are those of standard input",
        )
        .action(ArgAction::Set)
}

/// The command `answer` and its options.
fn answer_command<'a>(alloc: Global) -> Result<Command<'a>, AllocError>
    ensures app { IfOk result (λ command. app_of command ≡ answer_command) }
    ensures local { IfOk result (λ command. (out-Command command).has_globals ≡ false) }
{
    let settings = settings_option(alloc);
    let hex = flag(
        alloc,
        "hex",
        "Reads and writes hex digits in place of bytes",
    );
    let now = now_option(alloc);
    let command = Command::new(alloc, "answer").about(
        "Answers one connection, from standard input to standard output",
    );
    let command = command.arg(settings)?.arg(hex)?.arg(now)?;
    Ok(command)
}

/// The command `serve` and its options.
fn serve_command<'a>(alloc: Global) -> Result<Command<'a>, AllocError>
    ensures app { IfOk result (λ command. app_of command ≡ serve_command) }
    ensures local { IfOk result (λ command. (out-Command command).has_globals ≡ false) }
{
    let settings = settings_option(alloc).required(true);
    let connections = connections_option(alloc);
    let command = Command::new(alloc, "serve").about("Serves clients and peers over TCP");
    let command = command.arg(settings)?.arg(connections)?;
    Ok(command)
}

/// The command `dump` and its option.
fn dump_command<'a>(alloc: Global) -> Result<Command<'a>, AllocError>
    ensures app { IfOk result (λ command. app_of command ≡ dump_command) }
    ensures local { IfOk result (λ command. (out-Command command).has_globals ≡ false) }
{
    let settings = settings_option(alloc).required(true);
    let command = Command::new(alloc, "dump").about("Prints the archive, a line a record");
    let command = command.arg(settings)?;
    Ok(command)
}

/// The command `sync` with the options that have to be given.
fn call_command<'a>(alloc: Global) -> Result<Command<'a>, AllocError>
    ensures app { IfOk result (λ command. app_of command ≡ call_command) }
    ensures local { IfOk result (λ command. (out-Command command).has_globals ≡ false) }
{
    let settings = settings_option(alloc).required(true);
    let peer = option(
        alloc,
        "peer",
        "ADDRESS",
        "The IP address and port where the peer serves",
    )
    .required(true);
    let command = Command::new(alloc, "sync").about("Calls a peer and exchanges records with it");
    let command = command.arg(settings)?.arg(peer)?;
    Ok(command)
}

/// The command `sync` and its options.
fn sync_command<'a>(alloc: Global) -> Result<Command<'a>, AllocError>
    ensures app { IfOk result (λ command. app_of command ≡ sync_command) }
    ensures local { IfOk result (λ command. (out-Command command).has_globals ≡ false) }
{
    let check = flag(
        alloc,
        "check",
        "Compares the last records that both hold before, and exchanges none where two of one number differ",
    );
    let verify = flag(
        alloc,
        "verify",
        "Does the same with all records that both hold, which takes as long as sending them",
    );
    let command = call_command(alloc)?;
    let command = command.arg(check)?.arg(verify)?;
    Ok(command)
}

/// The command `history` with the options that have to be given.
fn node_command<'a>(alloc: Global) -> Result<Command<'a>, AllocError>
    ensures app { IfOk result (λ command. app_of command ≡ node_command) }
    ensures local { IfOk result (λ command. (out-Command command).has_globals ≡ false) }
{
    let settings = settings_option(alloc).required(true);
    let node = option(alloc, "node", "ID", "The node, as ns=1;s=Temperature").required(true);
    let command = Command::new(alloc, "history").about("Prints a node's history");
    let command = command.arg(settings)?.arg(node)?;
    Ok(command)
}

/// The same with the options that say of which times.
fn span_command<'a>(alloc: Global) -> Result<Command<'a>, AllocError>
    ensures app { IfOk result (λ command. app_of command ≡ span_command) }
    ensures local { IfOk result (λ command. (out-Command command).has_globals ≡ false) }
{
    let from = option(
        alloc,
        "from",
        "T",
        "The first source time, as 2026-03-01T12:00:00Z",
    );
    let to = option(alloc, "to", "T", "The source time before which it ends");
    let command = node_command(alloc)?;
    let command = command.arg(from)?.arg(to)?;
    Ok(command)
}

/// The option `--changes`.
fn changes_option<'a>(alloc: Global) -> Arg<'a>
    ensures rule { rule_of result ≡ flag (codes "changes") }
    ensures local { result.global ≡ false }
{
    flag(
        alloc,
        "changes",
        "Prints who changed what and when, in place of the values",
    )
}

/// The option `--csv`.
fn csv_option<'a>(alloc: Global) -> Arg<'a>
    ensures rule { rule_of result ≡ flag (codes "csv") }
    ensures local { result.global ≡ false }
{
    flag(alloc, "csv", "Prints CSV in place of a table")
}

/// The option `--html`.
fn html_option<'a>(alloc: Global) -> Arg<'a>
    ensures rule { rule_of result ≡ flag (codes "html") }
    ensures local { result.global ≡ false }
{
    flag(
        alloc,
        "html",
        "Prints a page for a browser in place of a table",
    )
}

/// The command `history` and its options.
fn history_command<'a>(alloc: Global) -> Result<Command<'a>, AllocError>
    ensures app { IfOk result (λ command. app_of command ≡ history_command) }
    ensures local { IfOk result (λ command. (out-Command command).has_globals ≡ false) }
{
    let changes = changes_option(alloc);
    let csv = csv_option(alloc);
    let html = html_option(alloc);
    let command = span_command(alloc)?;
    let command = command.arg(changes)?.arg(csv)?.arg(html)?;
    Ok(command)
}

/// The command `import` with the options that don't say where to.
fn rows_command<'a>(alloc: Global) -> Result<Command<'a>, AllocError>
    ensures app { IfOk result (λ command. app_of command ≡ rows_command) }
    ensures local { IfOk result (λ command. (out-Command command).has_globals ≡ false) }
{
    let settings = settings_option(alloc).required(true);
    let user = option(alloc, "user", "NAME", "The user in whose name it is done").required(true);
    let perform = option(
        alloc,
        "perform",
        "WORD",
        "What the rows do: insert (as without it), replace, or update, which is either",
    );
    let command = Command::new(alloc, "import").about(
        "Writes the values of CSV, as history --csv prints them",
    );
    let command = command.arg(settings)?.arg(user)?.arg(perform)?;
    Ok(command)
}

/// The command `import` with its options and its argument.
fn import_command<'a>(alloc: Global) -> Result<Command<'a>, AllocError>
    ensures app { IfOk result (λ command. app_of command ≡ import_command) }
    ensures local { IfOk result (λ command. (out-Command command).has_globals ≡ false) }
{
    let server = option(
        alloc,
        "server",
        "ADDRESS",
        "The running server that they are brought to, as 127.0.0.1:4840; without it they are written into the settings' store",
    );
    let file = file_argument(alloc);
    let command = rows_command(alloc)?;
    let command = command.arg(server)?.arg(file)?;
    Ok(command)
}

/// The command `check` and its options.
fn check_command<'a>(alloc: Global) -> Result<Command<'a>, AllocError>
    ensures app { IfOk result (λ command. app_of command ≡ check_command) }
    ensures local { IfOk result (λ command. (out-Command command).has_globals ≡ false) }
{
    let settings = settings_option(alloc).required(true);
    let store = flag(alloc, "store", "Tells what the archive holds too");
    let command = Command::new(alloc, "check").about(
        "Tells what the settings say, and warns of what is unwise",
    );
    let command = command.arg(settings)?.arg(store)?;
    Ok(command)
}

/// The program with its commands that answer clients.
fn servers<'a>(alloc: Global) -> Result<Command<'a>, AllocError>
    ensures { IfOk result (λ command. app_of command ≡ servers) }
{
    let answer = answer_command(alloc)?;
    let serve = serve_command(alloc)?;
    let whole = Command::new(alloc, "uahist")
        .about("An OPC UA historian whose archive lives on several machines")
        .version(VERSION)
        .propagate_version(true);
    let whole = whole.subcommand(answer)?.subcommand(serve)?;
    Ok(whole)
}

/// The program with these and its commands that move whole archives.
fn movers<'a>(alloc: Global) -> Result<Command<'a>, AllocError>
    ensures { IfOk result (λ command. app_of command ≡ movers) }
{
    let dump = dump_command(alloc)?;
    let sync = sync_command(alloc)?;
    let whole = servers(alloc)?;
    let whole = whole.subcommand(dump)?.subcommand(sync)?;
    Ok(whole)
}

/// The program with these and its commands that print a node's history, and bring values.
fn histories<'a>(alloc: Global) -> Result<Command<'a>, AllocError>
    ensures { IfOk result (λ command. app_of command ≡ histories) }
{
    let history = history_command(alloc)?;
    let import = import_command(alloc)?;
    let whole = movers(alloc)?;
    let whole = whole.subcommand(history)?.subcommand(import)?;
    Ok(whole)
}

/// The program's commands and their options.
pub(crate) fn command<'a>(alloc: Global) -> Result<Command<'a>, AllocError>
    ensures { IfOk result (λ command. app_of command ≡ uahist) }
{
    let check = check_command(alloc)?;
    let whole = histories(alloc)?;
    let whole = whole.subcommand(check)?;
    Ok(whole)
}
