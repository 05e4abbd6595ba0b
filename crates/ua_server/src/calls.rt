//! A peer that is called by hand, and compared with before where that is asked for.

ghost use Rattle.std.specs.Prelude.{◌≡◌, ◌++◌, ℕ, List, IsErrOf, IfOk, OnOk, string_bytes};
ghost use Rattle.std.specs.Fmt.InlineText.{inline_text};
ghost use Rattle.std.specs.Result.{result_map_both};
ghost use Rattle.counted_io.specs.Bytes.{CountsWhere};
ghost use Rattle.ua_server.specs.Calls.{compared_before, Exchanges, dialog_fault, entry_of, row_front, IsClashRow, IsClashTable, PrintsClash, unshown_line};

use archive::Archive;
use command_line::SyncWords;
use counted_io::{Counted, ServeFault};
use historian::Server;
use history_csv::put_change_row;
use history_text::TextFault;
use itoa::Buffer;
use peer_check::{Clash, Extent, compare};
use records::{Entry, HistoryUpdateType, Record};
use std::alloc::{AllocError, Global};
use std::fmt::{InlineText, Write as _};
use std::io::{Read, Write};
use ua_binary::TryClone;
use ua_peers::{SyncFault, Synced, sync};

/// Why a call of a peer didn't come to its end.
#[derive(Debug, Drop)]
pub(crate) enum CallFault {
    /// It met this fault.
    Sync(SyncFault),
    /// A number was given to two records: the one that is held, and the one that the peer holds.
    Clash(Clash),
}

/// How much of what both hold is compared before records are exchanged; absent where nothing is.
pub(crate) fn compared_before(asked: SyncWords<'_>) -> Option<Extent>
    ensures { result ≡ compared_before asked.entry }
{
    if asked.verify {
        Some(Extent::All)
    } else if asked.check {
        Some(Extent::Last)
    } else {
        None
    }
}

/// What a dialog with a peer came to.
fn dialog(ending: Result<Synced, SyncFault>) -> Result<Synced, CallFault>
    ensures { result ≡ result_map_both (λ synced. synced) dialog_fault ending }
{
    match ending {
        Ok(synced) => Ok(synced),
        Err(fault) => Err(CallFault::Sync(fault)),
    }
}

/// Exchanges records with a peer that was called. Where that is asked for, so much of what both hold is compared before, and two
/// records of one number end it.
pub(crate) fn exchange_over<A: Archive, R: Read, W: Write>(
    server: &mut Server<A>,
    compared: Option<Extent>,
    reader: &mut Counted<R>,
    writer: &mut Counted<W>,
) -> Result<Synced, CallFault>
    ensures exchanges { Exchanges A.state compared server.old.replica.archive
        server.new.replica.archive (R.remaining reader.old.inner) (R.remaining reader.new.inner)
        (W.contents writer.old.inner) (W.contents writer.new.inner) result }
    ensures reads { CountsWhere (IsErrOf result (CallFault.Sync (SyncFault.Connection ServeFault.Read)))
        reader.old.faults reader.new.faults }
    ensures writes { CountsWhere (IsErrOf result (CallFault.Sync (SyncFault.Connection ServeFault.Write)))
        writer.old.faults writer.new.faults }
    ensures settings { server.new.settings ≡ server.old.settings }
{
    if let Some(extent) = compared {
        match compare(server.alloc, &mut server.replica, extent, reader, writer) {
            Ok(None) => {}
            Ok(Some(clash)) => return Err(CallFault::Clash(clash)),
            Err(fault) => return Err(CallFault::Sync(fault)),
        }
    }
    dialog(sync(server.alloc, &mut server.replica, reader, writer))
}

// ---- what is told of a clash

/// A record as a modification that shows its own value, and none where it deleted one.
fn entry_of(r: &Record) -> Result<Entry, AllocError>
    ensures { IfOk result (λ entry. entry ≡ entry_of r.now) }
{
    let value = match r.asked {
        HistoryUpdateType::Delete => None,
        _ => Some(r.value.try_clone()?),
    };
    let user = r.user.try_clone()?;
    Ok(Entry {
        time: r.time,
        value,
        kind: r.asked,
        tick: r.tick,
        origin: r.origin,
        user,
    })
}

/// What stands in front of a record's row: where it is held, its replica and its number.
fn row_front(alloc: Global, place: &str, r: &Record) -> Result<String, AllocError>
    ensures { IfOk result (λ text. string_bytes text ≡ row_front place.now r.now) }
{
    let mut text = String::new(alloc);
    let replica = r.origin.get();
    let number = r.number;
    write!(text, "{place},{replica},{number},")?;
    Ok(text)
}

/// Appends the row of a record.
fn put_clash_row(alloc: Global, out: &mut Vec<u8>, place: &str, r: &Record) -> Result<(), TextFault>
    ensures { OnOk result ((row : List ℕ) × IsClashRow place.now r.now row
        × (out.new.items ≡ out.old.items ++ row)) }
{
    let entry = entry_of(r)?;
    let front = row_front(alloc, place, r)?;
    out.extend_from_slice(front.as_bytes())?;
    put_change_row(alloc, out, &r.node, &entry)
}

/// A table of two records of one number, as CSV. A value that has no text is `NoText`, and the other error is `OutOfMemory`.
fn clash_table(alloc: Global, clash: &Clash) -> Result<Vec<u8>, TextFault>
    ensures { IfOk result (λ table. IsClashTable clash.now table.items) }
{
    let mut table = Vec::new(alloc);
    table.extend_from_slice(b"held,replica,number,node,time,value,status,change,changed,user\n")?;
    put_clash_row(alloc, &mut table, "here", &clash.held)?;
    put_clash_row(alloc, &mut table, "there", &clash.brought)?;
    Ok(table)
}

/// The line that stands for a table that memory is wanting for, or in which a value would have no text.
fn unshown_line(clash: &Clash) -> InlineText<200>
    ensures { inline_text result ≡ unshown_line clash.now }
{
    let mut replica = Buffer::new();
    let mut number = Buffer::new();
    InlineText::new()
        .and_str("two records of replica ", 40)
        .and_str(replica.format(clash.held.origin.get()), 40)
        .and_str(", number ", 40)
        .and_str(number.format(clash.held.number), 40)
        .and_str(", which can't be shown\n", 30)
}

/// Prints such a table, as far as the writer takes it; where there is none, a line that says of which records.
pub(crate) fn print_clash<W: Write>(alloc: Global, clash: &Clash, output: &mut Counted<W>)
    ensures { PrintsClash clash.now (W.contents output.old.inner) (W.contents output.new.inner) }
{
    match clash_table(alloc, clash) {
        Ok(table) => {
            let _ = output.send(table.as_slice());
        }
        Err(_) => {
            let _ = output.send(unshown_line(clash).as_str().as_bytes());
        }
    }
}
