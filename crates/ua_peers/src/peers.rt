//! A dialog with a peer over a connection.

ghost use Rattle.std.specs.Prelude.{◌≡◌, false, [], IsErrOf, ◌≤◌, ◌<◌, true, length};
ghost use Rattle.exchange.specs.declared.fault.ExchangeFault.TheVariants as exchange;
ghost use Rattle.exchange.specs.Dialogs.{TellsFault};
ghost use Rattle.counted_io.specs.Bytes.{CountsWhere};
ghost use Rattle.ua_peers.specs.Peers.{is_silent, TalksOnce, MeetsTo, MeetsBehind, Meets, responding};
ghost use Rattle.ua_peers.specs.Talking.{ending_of, stop_of, IsReady, LeavesOne, LeavesAll, SentAllReplies, TellsWant};

use archive::Archive;
use counted_io::{Counted, ServeFault};
use exchange::{Dialog, ExchangeFault, Frames, Replica, State};
use std::alloc::Global;
use std::io::{Read, Write};

/// The bytes that one read asks for.
const PIECE: usize = 65536;

/// How a dialog over a connection ended where the connection met no fault.
#[derive(Clone, Copy, Debug, PartialEq, Eq)]
pub enum PeerEnded {
    /// The input was over before the dialog was.
    EndOfInput,
    /// The dialog came to its end: an `RXE` with 0 was taken or written.
    Done,
    /// The peer ended the dialog by an `RXE` with this number.
    Refused(u32),
    /// This fault ended the dialog, and an `RXE` with its number told the peer.
    Failed(ExchangeFault),
}

/// Tells the peer that what it sent is no frame, by an `RXE` with 1. Answers that fault, or `OutOfMemory` where memory for
/// telling it is wanting.
fn refuse_bytes(out: &mut Vec<u8>) -> ExchangeFault
    requires { out.old.items ≡ [] }
    ensures { TellsFault exchange.Frame (Err result) [] out.new.items }
{
    match out.extend_from_slice(b"RXEF\x0c\0\0\0\x01\0\0\0") {
        Ok(()) => ExchangeFault::Frame,
        Err(_) => ExchangeFault::OutOfMemory,
    }
}

/// Answers the frame that stands first in the bytes that wait, if it is whole: what answers it is appended to `out`, which is
/// empty. None where no whole frame stands first. `Done` and `Failed` end the dialog, and so does a fault: an `RXE` with its
/// number is in `out` then, or nothing where memory for it was wanting.
pub fn take_first<A: Archive>(
    alloc: Global,
    replica: &mut Replica<A>,
    dialog: &mut Dialog,
    frames: &mut Frames,
    out: &mut Vec<u8>,
) -> Option<Result<State, ExchangeFault>>
    requires ready { IsReady dialog.old }
    requires sound { frames.old.failed ≡ false }
    requires empty { out.old.items ≡ [] }
    ensures talks { TalksOnce dialog.old (A.state replica.old.archive)
        (A.state replica.new.archive) frames.old.waiting out.new.items frames.new.waiting
        (ending_of dialog.new.code (is_silent out.new.items) result) dialog.new }
    ensures leaves { LeavesOne frames.old frames.new dialog.old dialog.new result }
    ensures started { dialog.new.started ≡ true }
{
    match frames.next_frame() {
        Ok(None) => None,
        Ok(Some(frame)) => Some(dialog.take(alloc, replica, frame, out)),
        Err(_) => Some(Err(refuse_bytes(out))),
    }
}

/// The end of a stretch of frames, where this ends it. A fault of which nothing was written wasn't told.
fn stop_of(
    first: Option<Result<State, ExchangeFault>>,
    code: Option<u32>,
    silent: bool,
) -> Option<Result<Option<PeerEnded>, ServeFault>>
    ensures { result ≡ stop_of code silent first }
{
    match first {
        None => Some(Ok(None)),
        Some(Ok(State::Done)) => Some(Ok(Some(PeerEnded::Done))),
        Some(Ok(State::Failed)) => Some(Ok(Some(PeerEnded::Refused(code.unwrap_or(0))))),
        Some(Ok(State::Pulling | State::Pushing | State::Serving)) => None,
        Some(Err(fault)) => {
            if silent {
                Some(Err(ServeFault::OutOfMemory))
            } else {
                Some(Ok(Some(PeerEnded::Failed(fault))))
            }
        }
    }
}

/// Takes the frames that wait, and sends what answers each of them.
fn take_waiting<A: Archive, W: Write>(
    alloc: Global,
    replica: &mut Replica<A>,
    dialog: &mut Dialog,
    frames: &mut Frames,
    writer: &mut Counted<W>,
) -> Result<Option<PeerEnded>, ServeFault>
    requires ready { IsReady dialog.old }
    requires sound { frames.old.failed ≡ false }
    ensures drained { SentAllReplies dialog.old (A.state replica.old.archive)
        (A.state replica.new.archive)
        (W.contents writer.old.inner)
        (W.contents writer.new.inner) frames.old.waiting frames.new.waiting result dialog.new }
    ensures leaves { LeavesAll frames.old frames.new dialog.old dialog.new result }
    ensures writes { CountsWhere (IsErrOf result ServeFault.Write)
        writer.old.faults writer.new.faults }
{
    let mut out = Vec::new(alloc);
    'turns: loop {
        out.clear();
        let first = take_first(alloc, replica, dialog, frames, &mut out);
        writer.send(out.as_slice())?;
        let silent = out.as_slice().is_empty();
        match stop_of(first, dialog.peer_code(), silent) {
            Some(end) => return end,
            None => {}
        }
    }
}

/// Tells the peer that memory ran out, by an `RXE` with 4, which takes none.
fn send_starved<W: Write>(writer: &mut Counted<W>) -> Result<PeerEnded, ServeFault>
    ensures tells { TellsWant (W.contents writer.old.inner) (W.contents writer.new.inner) result }
    ensures writes { CountsWhere (IsErrOf result ServeFault.Write)
        writer.old.faults writer.new.faults }
{
    writer.send(b"RXEF\x0c\0\0\0\x04\0\0\0")?;
    Ok(PeerEnded::Failed(ExchangeFault::OutOfMemory))
}

/// Carries a dialog on over a connection, of which these first bytes were read before, until it ends or the input does.
pub(crate) fn run_dialog<R: Read, W: Write, A: Archive>(
    alloc: Global,
    replica: &mut Replica<A>,
    dialog: &mut Dialog,
    first: &[u8],
    reader: &mut Counted<R>,
    writer: &mut Counted<W>,
) -> Result<PeerEnded, ServeFault>
    requires ready { IsReady dialog.old }
    requires few { length first.now < 8 }
    ensures meets { MeetsTo dialog.old (A.state replica.old.archive)
        (A.state replica.new.archive) first.now
        (R.remaining reader.old.inner) (R.remaining reader.new.inner) (W.contents writer.old.inner)
        (W.contents writer.new.inner) result dialog.new }
    ensures reads { CountsWhere (IsErrOf result ServeFault.Read)
        reader.old.faults reader.new.faults }
    ensures writes { CountsWhere (IsErrOf result ServeFault.Write)
        writer.old.faults writer.new.faults }
{
    let mut frames = Frames::new(alloc);
    let mut piece = [0u8; PIECE];
    match frames.feed(first) {
        Ok(()) => {}
        Err(_) => return send_starved(writer),
    }
    'reads: loop {
        let n = reader.read_piece(&mut piece)?;
        if n == 0 {
            return Ok(PeerEnded::EndOfInput);
        }
        match frames.feed(&piece[..n]) {
            Ok(()) => {}
            Err(_) => return send_starved(writer),
        }
        match take_waiting(alloc, replica, dialog, &mut frames, writer) {
            Ok(None) => {}
            Ok(Some(parted)) => return Ok(parted),
            Err(fault) => return Err(fault),
        }
    }
}

/// Answers a peer's dialog over a replica, as its responder.
///
/// Where the reader's bytes and the writer's contents are known, and the archive's store is honest and in use, what goes
/// out is what the responder answers to the frames that were read, one after the other, and what the archive holds then is
/// what they left; after a fault of the writer it is a first part of it. The answer to a frame is sent before the next read;
/// the writer is not flushed. A fault of the dialog is told to the peer by an `RXE` with its number, `TooLong` for the
/// 1,000,001st frame among them.
///
/// Errors: `Read` and `Write` where a call of the reader or the writer failed (its `faults` rose, and it rises nowhere
/// else), `OutOfMemory` where a fault was met and memory for telling it was wanting.
pub fn serve_peer<R: Read, W: Write, A: Archive>(
    alloc: Global,
    replica: &mut Replica<A>,
    reader: &mut Counted<R>,
    writer: &mut Counted<W>,
) -> Result<PeerEnded, ServeFault>
    ensures meets { Meets responding (A.state replica.old.archive) (A.state replica.new.archive)
        (R.remaining reader.old.inner) (R.remaining reader.new.inner) (W.contents writer.old.inner)
        (W.contents writer.new.inner) result }
    ensures reads { CountsWhere (IsErrOf result ServeFault.Read)
        reader.old.faults reader.new.faults }
    ensures writes { CountsWhere (IsErrOf result ServeFault.Write)
        writer.old.faults writer.new.faults }
{
    serve_peer_from(alloc, replica, &[], reader, writer)
}

/// Answers a peer's dialog of which these first bytes were read before, as `serve_peer` does.
pub fn serve_peer_from<R: Read, W: Write, A: Archive>(
    alloc: Global,
    replica: &mut Replica<A>,
    first: &[u8],
    reader: &mut Counted<R>,
    writer: &mut Counted<W>,
) -> Result<PeerEnded, ServeFault>
    requires { length first.now < 8 }
    ensures meets { MeetsBehind responding (A.state replica.old.archive)
        (A.state replica.new.archive) first.now (R.remaining reader.old.inner)
        (R.remaining reader.new.inner) (W.contents writer.old.inner)
        (W.contents writer.new.inner) result }
    ensures reads { CountsWhere (IsErrOf result ServeFault.Read)
        reader.old.faults reader.new.faults }
    ensures writes { CountsWhere (IsErrOf result ServeFault.Write)
        writer.old.faults writer.new.faults }
{
    let mut dialog = Dialog::responder();
    run_dialog(alloc, replica, &mut dialog, first, reader, writer)
}
