//! What a command line asks for.

ghost use Rattle.std.specs.Prelude.{◌≡◌};

use std::error::Error;
use std::fmt;

/// The program's version.
pub const VERSION: &str = "0.1.0";

/// What the program is asked to do.
#[derive(Clone, Copy, Debug, PartialEq, Eq)]
pub enum Line<'a> {
    /// Answer one connection from standard input to standard output, both in hex digits where `hex` is set. The server is
    /// set by the file at `settings` where that is given, and the clock stands at `now` where that is.
    Answer {
        settings: Option<&'a str>,
        hex: bool,
        now: Option<i64>,
    },
    /// Serve so many connections over TCP, many at once, by the settings of the file at `settings`.
    Serve {
        settings: &'a str,
        connections: u32,
    },
    /// Print the records of the archive that the file at `settings` sets.
    Dump {
        settings: &'a str,
    },
    /// Call a peer, by the settings of the file at `settings`, and exchange records with it.
    Sync {
        settings: &'a str,
        asked: SyncWords<'a>,
    },
    /// Print a node's history, of the archive that the file at `settings` sets.
    History {
        settings: &'a str,
        asked: HistoryWords<'a>,
    },
    /// Write the rows of a file, or of standard input, into the archive that the file at `settings` sets, or bring them to a
    /// running server.
    Import {
        settings: &'a str,
        asked: ImportWords<'a>,
    },
    /// Tell what the file at `settings` says, and where `store` is set what the archive that it sets holds.
    Check {
        settings: &'a str,
        store: bool,
    },
}

/// What a command line asks of an exchange, in its own words.
#[derive(Clone, Copy, Debug, PartialEq, Eq)]
pub struct SyncWords<'a> {
    /// The address of the peer.
    pub peer: &'a str,
    /// Whether the last records that both hold are compared before.
    pub check: bool,
    /// Whether all records that both hold are compared before.
    pub verify: bool,
}

/// What rows are to do with the values that they name.
#[derive(Clone, Copy, Debug, PartialEq, Eq)]
pub enum PerformWord {
    /// Add a value where none stands.
    Insert,
    /// Put a value in the place of one that stands.
    Replace,
    /// Do the one or the other.
    Update,
}

/// What a command line asks of an import, in its own words.
#[derive(Clone, Copy, Debug, PartialEq, Eq)]
pub struct ImportWords<'a> {
    /// The user in whose name it is done.
    pub user: &'a str,
    /// What the rows are to do.
    pub perform: PerformWord,
    /// The address of the running server that they are brought to; without one they are written into the settings' store.
    pub server: Option<&'a str>,
    /// The path of the file that has the rows; without one they are those of standard input.
    pub file: Option<&'a str>,
}

/// What a command line asks of a node's history, in its own words.
#[derive(Clone, Copy, Debug, PartialEq, Eq)]
pub struct HistoryWords<'a> {
    /// The node.
    pub node: &'a str,
    /// The first source time; the history's own without one.
    pub from: Option<&'a str>,
    /// The source time before which it ends; none without one.
    pub to: Option<&'a str>,
    /// Whether modifications are asked for, in place of values.
    pub changes: bool,
    /// Whether it is to be printed as CSV, in place of a table.
    pub csv: bool,
    /// Whether it is to be printed as a page of HTML, in place of either.
    pub html: bool,
}

/// What a command line asks for.
#[derive(Debug, PartialEq, Eq, Drop)]
pub enum Asked<'a> {
    /// To do this.
    Work(Line<'a>),
    /// To print this text: help, or the version.
    Text(String),
}

/// Why a command line is no command.
#[derive(Clone, Copy, Debug, PartialEq, Eq)]
pub enum LineFault {
    /// The words are no command of the program's.
    Words,
    /// Memory ran out.
    OutOfMemory,
}

impl LineFault {
    ghost use Rattle.command_line.specs.Line.{line_text_of};

    /// The text that tells it.
    pub fn text(self) -> &'static str
        ensures { result.now ≡ line_text_of self }
    {
        match self {
            LineFault::Words =>
                "usage: uahist answer [--settings FILE] [--hex] [--now N] | serve --settings FILE [--connections N] | dump --settings FILE | sync --settings FILE --peer ADDRESS [--check] [--verify] | history --settings FILE --node ID [--from T] [--to T] [--changes] [--csv] [--html] | import --settings FILE --user NAME [--perform insert|replace|update] [--server ADDRESS] [FILE.csv] | check --settings FILE [--store]",
            LineFault::OutOfMemory => "memory ran out before the command began",
        }
    }
}

impl fmt::Display for LineFault {
    ghost use Rattle.std.specs.Prelude.{Some};
    ghost use Rattle.command_line.specs.Line.{line_text_of};

    ghost output = { λ fault. Some (line_text_of fault) };

    fn fmt<W: fmt::Write>(&self, f: &mut fmt::Formatter<W>) -> fmt::Result {
        f.write_str(self.text())
    }
}

impl Error for LineFault {}
