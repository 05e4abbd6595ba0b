//! The rows of a text are written, one after the other.

ghost use Rattle.std.specs.Prelude.{◌≡◌, ◌≢◌, ◌⊎◌, ◌∷◌, [], ℕ, List, Option, IsErrOf};
ghost use Rattle.counted_io.specs.Bytes.{counted};
ghost use Rattle.ua_session.specs.Users.{IsUserName};
ghost use Rattle.history_csv.specs.Rows.{value_names};
ghost use Rattle.history_import.specs.Imports.{Imports};
ghost use Rattle.history_import.specs.Reading.{StandsBehind, DoesOne};

use crate::asked::Import;
use crate::counts::Counts;
use crate::fates::fate_of;
use crate::fault::ImportFault;
use crate::reading::{next_row, read_header, rows_in};
use crate::row_end::RowEnd;
use crate::rows::do_row;
use crate::tally::{no_rows, with_one};
use crate::telling::{tell_row, tell_summary};
use archive::Archive;
use counted_io::Counted;
use csv::Reader;
use historian::Server;
use std::io::{Read, Write};

/// Reads the next row and does what it asks for; none at the end of the text.
fn do_next<A: Archive, R: Read>(
    server: &mut Server<A>,
    asked: &Import<'_>,
    reader: &mut Reader<R>,
) -> Result<Option<RowEnd>, ImportFault>
    requires user { IsUserName asked.now.user.now }
    ensures does { (known : Option (List ℕ)) (rows : List (List (List ℕ)))
        → StandsBehind R.remaining reader.old known rows
        → DoesOne R.remaining reader.new known rows server.old.settings asked.now
        (A.state server.old.replica.archive) (A.state server.new.replica.archive) result }
    ensures settings { server.new.settings ≡ server.old.settings }
    ensures fault { IsErrOf result ImportFault.Write → ⊥ }
{
    match next_row(server.alloc, reader) {
        Ok(Some(row)) => Ok(Some(do_row(server, asked, row))),
        Ok(None) => Ok(None),
        Err(fault) => Err(fault),
    }
}

/// Does what the rows behind the header ask for, up to the end of the text, and tells of them;
/// `text` is where lines are made.
fn do_rows<A: Archive, R: Read, W: Write>(
    server: &mut Server<A>,
    asked: &Import<'_>,
    reader: &mut Reader<R>,
    text: &mut String,
    output: &mut Counted<W>,
) -> Result<Counts, ImportFault>
    requires user { IsUserName asked.now.user.now }
    ensures imports { (known : Option (List ℕ))
        → StandsBehind R.remaining reader.old known (value_names ∷ [])
        → Imports server.old.settings asked.now (A.state server.old.replica.archive)
        (A.state server.new.replica.archive) known (W.contents output.old.inner)
        (W.contents output.new.inner) result }
    ensures settings { server.new.settings ≡ server.old.settings }
    ensures write { IsErrOf result ImportFault.Write
        → output.new.faults ≡ counted output.old.faults }
    ensures kept { (IsErrOf result ImportFault.Write → ⊥) → output.new.faults ≡ output.old.faults }
{
    let mut counts = no_rows();
    for number in 1..u64::MAX {
        let end = match do_next(server, asked, reader) {
            Ok(Some(end)) => end,
            Ok(None) => {
                return match tell_summary(text, &counts, output) {
                    Ok(()) => Ok(counts),
                    Err(fault) => Err(fault),
                };
            }
            Err(fault) => return Err(fault),
        };
        counts = with_one(counts, fate_of(end));
        match tell_row(server.alloc, text, number, end, output) {
            Ok(()) => {}
            Err(fault) => return Err(fault),
        }
    }
    Err(ImportFault::OutOfMemory)
}

/// Why rows couldn't be read: `Read` for a call of the reader that failed, where fewer had failed before; else `OutOfMemory`.
pub fn fault_behind<R>(faults: u64, input: &Counted<R>) -> ImportFault
    ensures fault { (result ≡ ImportFault.Read) ⊎ (result ≡ ImportFault.OutOfMemory) }
    ensures read { result ≡ ImportFault.Read → input.now.faults ≢ faults }
{
    if input.faults() == faults {
        ImportFault::OutOfMemory
    } else {
        ImportFault::Read
    }
}

/// Reads the header, and does what the rows behind it ask for.
fn import_all<A: Archive, R: Read, W: Write>(
    server: &mut Server<A>,
    asked: &Import<'_>,
    input: &mut Counted<R>,
    output: &mut Counted<W>,
) -> Result<Counts, ImportFault>
    requires user { IsUserName asked.now.user.now }
    ensures imports { Imports server.old.settings asked.now (A.state server.old.replica.archive)
        (A.state server.new.replica.archive) (R.remaining input.old.inner)
        (W.contents output.old.inner) (W.contents output.new.inner) result }
    ensures settings { server.new.settings ≡ server.old.settings }
    ensures write { IsErrOf result ImportFault.Write
        → output.new.faults ≡ counted output.old.faults }
    ensures kept { (IsErrOf result ImportFault.Write → ⊥) → output.new.faults ≡ output.old.faults }
{
    let mut reader = rows_in(server.alloc, input);
    match read_header(server.alloc, &mut reader) {
        Ok(()) => {}
        Err(fault) => return Err(fault),
    }
    let mut text = String::new(server.alloc);
    do_rows(server, asked, &mut reader, &mut text, output)
}

/// Writes the rows of a text of CSV into a server's archive, in a user's name: behind the header
/// `node,time,value,status`, each row is one update of one value, judged as a HistoryUpdate of that
/// user would be at this moment, and done before the next is read. A row that was refused is told by
/// a line, with its number, from 1, and why, but not one at whose place a value was live; at the end
/// of the text a last line tells how many rows there were, and what became of them. One row is in
/// memory at a time.
///
/// Errors: `Header` where the text doesn't begin by the header, `Read` where a read failed (the
/// reader's `faults` rose), `Write` where a write failed (the writer's `faults` rose), `OutOfMemory`
/// where memory was wanting to read a row or to tell of it. The rows before it stand, and their
/// lines, but for the last one's.
pub fn import_rows<A: Archive, R: Read, W: Write>(
    server: &mut Server<A>,
    asked: &Import<'_>,
    input: &mut Counted<R>,
    output: &mut Counted<W>,
) -> Result<Counts, ImportFault>
    requires user { IsUserName asked.now.user.now }
    ensures imports { Imports server.old.settings asked.now (A.state server.old.replica.archive)
        (A.state server.new.replica.archive) (R.remaining input.old.inner)
        (W.contents output.old.inner) (W.contents output.new.inner) result }
    ensures settings { server.new.settings ≡ server.old.settings }
    ensures read { IsErrOf result ImportFault.Read → input.new.faults ≢ input.old.faults }
    ensures write { IsErrOf result ImportFault.Write
        → output.new.faults ≡ counted output.old.faults }
    ensures kept { (IsErrOf result ImportFault.Write → ⊥) → output.new.faults ≡ output.old.faults }
{
    let faults = input.faults();
    match import_all(server, asked, input, output) {
        Err(ImportFault::Read) => Err(fault_behind(faults, input)),
        ended => ended,
    }
}
