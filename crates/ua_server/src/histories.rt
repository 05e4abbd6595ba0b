//! Histories: what the command `history` prints.

ghost use Rattle.std.specs.Prelude.{◌≡◌, ◌⊎◌, IsErrOf, ok_or, option_copied, Err};
ghost use Rattle.counted_io.specs.Bytes.{counted};
ghost use Rattle.history_csv.specs.Nodes.{node_in};
ghost use Rattle.ua_server.specs.Histories.{form_asked, moment_asked, report_asked, IsAskedOrStarved, PrintsHistory};
ghost use Rattle.ua_server.specs.Telling.{report_fault};

use crate::program::ProgramFault;
use archive::Archive;
use command_line::HistoryWords;
use counted_io::{Counted, ServeFault};
use historian::Server;
use history_csv::{RowFault, read_moment, read_node};
use history_report::{Form, Report, ReportFault, print_report};
use records::Moment;
use std::alloc::Global;
use std::io::Write;
use ua_binary::NodeId;

/// An option of `history` whose text says nothing of its kind.
#[derive(Clone, Copy, Debug, PartialEq, Eq)]
pub enum OptionFault {
    /// `--node` is no node id.
    Node,
    /// `--from` is no time.
    From,
    /// `--to` is no time.
    To,
}

impl OptionFault {
    ghost use Rattle.ua_server.specs.Telling.{option_text};

    /// The text that tells it.
    pub fn text(self) -> &'static str
        ensures { result.now ≡ option_text self }
    {
        match self {
            OptionFault::Node => "--node: want a node id, as ns=1;s=Temperature",
            OptionFault::From => "--from: want a time, as 2026-03-01T12:00:00Z",
            OptionFault::To => "--to: want a time, as 2026-03-01T12:00:00Z",
        }
    }
}

/// The node that a text says.
fn node_asked(alloc: Global, text: &str) -> Result<NodeId, ProgramFault>
    ensures says { (result ≡ ok_or (node_in text.now) (ProgramFault.BadOption OptionFault.Node))
        ⊎ (result ≡ Err (ProgramFault.Connection ServeFault.OutOfMemory)) }
    ensures read { IsErrOf result (ProgramFault.Connection ServeFault.Read) → ⊥ }
    ensures write { IsErrOf result (ProgramFault.Connection ServeFault.Write) → ⊥ }
{
    match read_node(alloc, text) {
        Ok(node) => Ok(node),
        Err(RowFault::OutOfMemory) => Err(ProgramFault::Connection(ServeFault::OutOfMemory)),
        Err(_) => Err(ProgramFault::BadOption(OptionFault::Node)),
    }
}

/// The moment that a text says, where there is one.
fn moment_asked(text: Option<&str>, fault: OptionFault) -> Result<Option<Moment>, ProgramFault>
    ensures says { result ≡ moment_asked fault (option_copied text.entry) }
    ensures read { IsErrOf result (ProgramFault.Connection ServeFault.Read) → ⊥ }
    ensures write { IsErrOf result (ProgramFault.Connection ServeFault.Write) → ⊥ }
{
    let Some(text) = text else {
        return Ok(None);
    };
    match read_moment(text) {
        Some(time) => Ok(Some(time)),
        None => Err(ProgramFault::BadOption(fault)),
    }
}

/// The form that the words of a line ask for: a page where they ask for CSV too.
fn form_asked(asked: &HistoryWords<'_>) -> Form
    ensures { result ≡ form_asked asked.now }
{
    if asked.html {
        Form::Page
    } else if asked.csv {
        Form::Csv
    } else {
        Form::Table
    }
}

/// The report that the words of a line ask for.
fn report_asked(alloc: Global, asked: HistoryWords<'_>) -> Result<Report, ProgramFault>
    ensures says { IsAskedOrStarved (report_asked asked.entry) result }
    ensures read { IsErrOf result (ProgramFault.Connection ServeFault.Read) → ⊥ }
    ensures write { IsErrOf result (ProgramFault.Connection ServeFault.Write) → ⊥ }
{
    let node = node_asked(alloc, asked.node)?;
    let from = moment_asked(asked.from, OptionFault::From)?;
    let to = moment_asked(asked.to, OptionFault::To)?;
    Ok(Report {
        node,
        from,
        to,
        changes: asked.changes,
        form: form_asked(&asked),
        next: None,
    })
}

/// What the fault of a report is called by the program.
fn report_fault(fault: ReportFault) -> ProgramFault
    ensures { result ≡ report_fault fault }
{
    match fault {
        ReportFault::Store(fault) => ProgramFault::Store(fault),
        ReportFault::NoText => ProgramFault::NoText,
        ReportFault::Write => ProgramFault::Connection(ServeFault::Write),
        ReportFault::OutOfMemory => ProgramFault::Connection(ServeFault::OutOfMemory),
    }
}

/// Prints the history that the words of a line ask for, as the program tells it.
pub(crate) fn history_over<A: Archive, W: Write>(
    server: &mut Server<A>,
    asked: HistoryWords<'_>,
    output: &mut Counted<W>,
) -> Result<(), ProgramFault>
    ensures read { IsErrOf result (ProgramFault.Connection ServeFault.Read) → ⊥ }
    ensures write { IsErrOf result (ProgramFault.Connection ServeFault.Write)
        → output.new.faults ≡ counted output.old.faults }
    ensures prints { PrintsHistory A.state asked.entry server.old.replica.archive
        server.new.replica.archive (W.contents output.old.inner) (W.contents output.new.inner)
        result }
{
    let report = report_asked(server.alloc, asked)?;
    print_report(server.alloc, &mut server.replica.archive, &report, output).map_err(report_fault)
}
