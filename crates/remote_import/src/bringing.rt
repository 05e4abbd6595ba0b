//! The rows of a text are brought to a server, one after the other.

ghost use Rattle.std.specs.Prelude.{◌≡◌, ◌≢◌, ◌∷◌, [], ℕ, List, Option, IsErrOf};
ghost use Rattle.counted_io.specs.Bytes.{counted};
ghost use Rattle.history_csv.specs.Rows.{value_names};
ghost use Rattle.history_import.specs.Reading.{StandsBehind};
ghost use Rattle.remote_import.specs.Bringing.{BringsNext, state_of};
ghost use Rattle.remote_import.specs.Imports.{BringsText, ImportsOver, LeavesSession};
ghost use Rattle.ua_client.specs.Talking.{flow_of};

use crate::fault::RemoteFault;
use crate::rows::bring_row;
use crate::session::{Session, end_session, open_session};
use counted_io::Counted;
use csv::Reader;
use history_import::{
    Counts, Import, ImportFault, RowEnd, fate_of, fault_behind, next_row, no_rows, read_header,
    rows_in, tell_row, tell_summary, with_one,
};
use std::io::{Read, Write};
use ua_client::Line;
use ua_settings::Settings;

/// Reads the next row and brings it; none at the end of the text.
fn bring_next<F: Read, R: Read, W: Write>(
    settings: &Settings,
    asked: &Import<'_>,
    session: &mut Session<R, W>,
    reader: &mut Reader<F>,
) -> Result<Option<RowEnd>, RemoteFault>
    ensures brings { (known : Option (List ℕ)) (rows : List (List (List ℕ)))
        → StandsBehind F.remaining reader.old known rows
        → BringsNext F.remaining reader.new known rows settings.now asked.now
        (state_of R.remaining W.contents session.old)
        (state_of R.remaining W.contents session.new) result }
    ensures fault { IsErrOf result (RemoteFault.Rows ImportFault.Write) → ⊥ }
{
    let Some(row) = next_row(session.line.alloc, reader)? else {
        return Ok(None);
    };
    let end = bring_row(settings, asked, session, row)?;
    Ok(Some(end))
}

/// Brings the rows behind the header, up to the end of the text, and tells of them.
fn bring_behind<F: Read, R: Read, W: Write, O: Write>(
    settings: &Settings,
    asked: &Import<'_>,
    session: &mut Session<R, W>,
    reader: &mut Reader<F>,
    output: &mut Counted<O>,
) -> Result<Counts, RemoteFault>
    ensures imports { (known : Option (List ℕ))
        → StandsBehind F.remaining reader.old known (value_names ∷ [])
        → BringsText settings.now asked.now known (state_of R.remaining W.contents session.old)
        (state_of R.remaining W.contents session.new) (O.contents output.old.inner)
        (O.contents output.new.inner) result }
    ensures write { IsErrOf result (RemoteFault.Rows ImportFault.Write)
        → output.new.faults ≡ counted output.old.faults }
    ensures kept { (IsErrOf result (RemoteFault.Rows ImportFault.Write) → ⊥)
        → output.new.faults ≡ output.old.faults }
{
    let alloc = session.line.alloc;
    let mut text = String::new(alloc);
    let mut counts = no_rows();
    for number in 1..u64::MAX {
        let Some(end) = bring_next(settings, asked, session, reader)? else {
            tell_summary(&mut text, &counts, output)?;
            return Ok(counts);
        };
        counts = with_one(counts, fate_of(end));
        tell_row(alloc, &mut text, number, end, output)?;
    }
    Err(RemoteFault::Rows(ImportFault::OutOfMemory))
}

/// Reads the header, and brings the rows behind it.
fn bring_all<F: Read, R: Read, W: Write, O: Write>(
    settings: &Settings,
    asked: &Import<'_>,
    session: &mut Session<R, W>,
    input: &mut Counted<F>,
    output: &mut Counted<O>,
) -> Result<Counts, RemoteFault>
    ensures imports { BringsText settings.now asked.now (F.remaining input.old.inner)
        (state_of R.remaining W.contents session.old)
        (state_of R.remaining W.contents session.new) (O.contents output.old.inner)
        (O.contents output.new.inner) result }
    ensures write { IsErrOf result (RemoteFault.Rows ImportFault.Write)
        → output.new.faults ≡ counted output.old.faults }
    ensures kept { (IsErrOf result (RemoteFault.Rows ImportFault.Write) → ⊥)
        → output.new.faults ≡ output.old.faults }
{
    let mut reader = rows_in(session.line.alloc, input);
    read_header(session.line.alloc, &mut reader)?;
    bring_behind(settings, asked, session, &mut reader, output)
}

/// Brings the rows of a text of CSV to a server in a session, in a user's name: behind the header `node,time,value,status` each
/// row is judged by the settings, which say the types of variables, and sent as one HistoryUpdate of one value; the next one is
/// read once the server answered. What is told of rows is what `import_rows` tells of rows that it writes into an archive. One
/// row is in memory at a time.
///
/// Errors: `Rows`, as those of `import_rows`; `Server` where a row wasn't answered: the connection to the server met a fault, what came
/// from it is no answer, it refused the request, or memory for that ran out. The rows before it stand, and their lines; the row that
/// wasn't answered may stand too.
pub fn bring_rows<F: Read, R: Read, W: Write, O: Write>(
    settings: &Settings,
    asked: &Import<'_>,
    session: &mut Session<R, W>,
    input: &mut Counted<F>,
    output: &mut Counted<O>,
) -> Result<Counts, RemoteFault>
    ensures imports { BringsText settings.now asked.now (F.remaining input.old.inner)
        (state_of R.remaining W.contents session.old)
        (state_of R.remaining W.contents session.new) (O.contents output.old.inner)
        (O.contents output.new.inner) result }
    ensures read { IsErrOf result (RemoteFault.Rows ImportFault.Read)
        → input.new.faults ≢ input.old.faults }
    ensures write { IsErrOf result (RemoteFault.Rows ImportFault.Write)
        → output.new.faults ≡ counted output.old.faults }
    ensures kept { (IsErrOf result (RemoteFault.Rows ImportFault.Write) → ⊥)
        → output.new.faults ≡ output.old.faults }
{
    let faults = input.faults();
    match bring_all(settings, asked, session, input, output) {
        Err(RemoteFault::Rows(ImportFault::Read)) => Err(RemoteFault::Rows(fault_behind(
            faults, input,
        ))),
        ended => ended,
    }
}

/// How an import into a running server ended, and its connection.
#[derive(Drop)]
pub struct Imported<R, W> {
    /// How it ended.
    pub ended: Result<Counts, RemoteFault>,
    /// The two ends of the connection.
    pub line: Line<R, W>,
}

/// Leaves a session: asks for its end, but where a row wasn't answered in it. The connection is given back.
fn leave_session<R: Read, W: Write>(
    session: Session<R, W>,
    asked: &Import<'_>,
    ended: &Result<Counts, RemoteFault>,
) -> Line<R, W>
    ensures { LeavesSession asked.now (state_of R.remaining W.contents session)
        (flow_of R.remaining W.contents result) ended.now }
{
    match ended {
        Err(RemoteFault::Server(_)) => session.line,
        Ok(_) | Err(RemoteFault::Rows(_)) => end_session(session, asked.reading),
    }
}

/// Brings the rows of a text to the running server at the other end of a line, in a session of the import's user, by the name and
/// the password that the settings have: `bring_rows` between opening a session and ending it. The connection is given back.
///
/// Errors: those of `bring_rows`; `Server` also where no session was opened, and then nothing was told.
pub fn import_at<F: Read, R: Read, W: Write, O: Write>(
    settings: &Settings,
    asked: &Import<'_>,
    mut line: Line<R, W>,
    input: &mut Counted<F>,
    output: &mut Counted<O>,
) -> Imported<R, W>
    ensures imports { ImportsOver settings.now asked.now (F.remaining input.old.inner)
        (flow_of R.remaining W.contents line) (flow_of R.remaining W.contents result.line)
        (O.contents output.old.inner) (O.contents output.new.inner) result.ended }
    ensures read { IsErrOf result.ended (RemoteFault.Rows ImportFault.Read)
        → input.new.faults ≢ input.old.faults }
    ensures write { IsErrOf result.ended (RemoteFault.Rows ImportFault.Write)
        → output.new.faults ≡ counted output.old.faults }
    ensures kept { (IsErrOf result.ended (RemoteFault.Rows ImportFault.Write) → ⊥)
        → output.new.faults ≡ output.old.faults }
{
    let client = match open_session(settings, asked, &mut line) {
        Ok(client) => client,
        Err(fault) => {
            return Imported {
                ended: Err(RemoteFault::Server(fault)),
                line,
            };
        }
    };
    let mut session = Session { line, client };
    let ended = bring_rows(settings, asked, &mut session, input, output);
    let line = leave_session(session, asked, &ended);
    Imported { ended, line }
}
