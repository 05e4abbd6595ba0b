//! A connection of which the first letters tell whose it is.

ghost use Rattle.std.specs.Prelude.{◌≡◌, ◌≤◌, ◌<◌, length, take, IfOk, OnOk, OnErr, IsErrOf, Err, ℕ, List};
ghost use Rattle.std.specs.Result.{result_map_both};
ghost use Rattle.std.specs.Io.KnownBytes.{Consumes, IsAtEnd};
ghost use Rattle.counted_io.specs.Bytes.{counted, CountsWhere};
ghost use Rattle.ua_connection.specs.Environments.{Environment};
ghost use Rattle.ua_connection.specs.Passing.{LineEvent, Passes};
ghost use Rattle.ua_connection.specs.Serving.{ServesBehind, ServesPromptly};
ghost use Rattle.ua_peers.specs.Peers.{MeetsBehind, responding};
ghost use Rattle.ua_server.specs.Either.{end_of_client, end_of_peer, ServesEither};

use archive::Archive;
use conversation::Door;
use counted_io::{Counted, ServeFault};
use exchange::Replica;
use historian::Server;
use std::alloc::Global;
use std::io::{Read, Write};
use ua_connection::{Clock, Wires};
use ua_peers::{PeerEnded, serve_peer_from};

/// How a connection ended that met no fault.
#[derive(Clone, Copy, Debug, PartialEq, Eq)]
pub enum Served {
    /// The input was over.
    EndOfInput,
    /// The client closed its channel.
    Closed,
    /// This number ended it: the status code of the Error message that refused a client (Part 6, 7.1.2.5), or the number by
    /// which either side ended a peer's dialog.
    Refused(u32),
    /// The exchange with a peer came to its end.
    Exchanged,
}

/// How a client's connection ended.
fn end_of_client(served: ua_connection::Served) -> Served
    ensures { result ≡ end_of_client served }
{
    match served {
        ua_connection::Served::EndOfInput => Served::EndOfInput,
        ua_connection::Served::Closed => Served::Closed,
        ua_connection::Served::Refused(code) => Served::Refused(code.0),
    }
}

/// How a peer's dialog ended.
fn end_of_peer(parted: PeerEnded) -> Served
    ensures { result ≡ end_of_peer parted }
{
    match parted {
        PeerEnded::EndOfInput => Served::EndOfInput,
        PeerEnded::Done => Served::Exchanged,
        PeerEnded::Refused(number) => Served::Refused(number),
        PeerEnded::Failed(fault) => Served::Refused(u32::from(fault.number())),
    }
}

/// Reads the first three bytes, or all where there are fewer, and answers how many.
fn read_first<R: Read>(reader: &mut Counted<R>, first: &mut [u8]) -> Result<usize, ServeFault>
    requires { length first.old ≡ 3 }
    ensures length { length first.new ≡ 3 }
    ensures within { IfOk result (λ n. n ≤ 3) }
    ensures bytes { IfOk result
        (λ n.
        Consumes (R.remaining reader.old.inner) (R.remaining reader.new.inner) (take n first.new)) }
    ensures end { IfOk result (λ n. n < 3 → IsAtEnd (R.remaining reader.new.inner)) }
    ensures faults { OnOk result (reader.new.faults ≡ reader.old.faults) }
    ensures fault { OnErr result
        ((result ≡ Err ServeFault.Read) × (reader.new.faults ≡ counted reader.old.faults)) }
    ensures broken { OnErr result
        ((came : List ℕ) × (length came < 3)
        × Consumes (R.remaining reader.old.inner) (R.remaining reader.new.inner) came) }
{
    let mut read = 0;
    while read < first.len() {
        match reader.read_piece(&mut first[read..]) {
            Ok(0) => return Ok(read),
            Ok(n) => read += n,
            Err(fault) => return Err(fault),
        }
    }
    Ok(read)
}

/// Answers the dialog of a peer of which these first bytes were read before.
fn serve_a_peer<R: Read, W: Write, A: Archive>(
    alloc: Global,
    replica: &mut Replica<A>,
    first: &[u8],
    reader: &mut Counted<R>,
    writer: &mut Counted<W>,
) -> Result<Served, ServeFault>
    requires { length first.now < 8 }
    ensures meets { (parted : _) × (result ≡ result_map_both end_of_peer (λ fault. fault) parted)
        × MeetsBehind responding (A.state replica.old.archive)
        (A.state replica.new.archive) first.now (R.remaining reader.old.inner)
        (R.remaining reader.new.inner) (W.contents writer.old.inner)
        (W.contents writer.new.inner) parted }
    ensures reads { CountsWhere (IsErrOf result ServeFault.Read)
        reader.old.faults reader.new.faults }
    ensures writes { CountsWhere (IsErrOf result ServeFault.Write)
        writer.old.faults writer.new.faults }
{
    match serve_peer_from(alloc, replica, first, reader, writer) {
        Ok(parted) => Ok(end_of_peer(parted)),
        Err(fault) => Err(fault),
    }
}

/// Serves a client of whom these first bytes, if any, were read before, over a reader and a writer.
fn serve_wires<R: Read, W: Write, C: Clock, A: Archive>(
    reader: &mut Counted<R>,
    writer: &mut Counted<W>,
    first: &[u8],
    server: &mut Server<A>,
    clock: &mut C,
) -> Result<ua_connection::Served, ServeFault>
    requires { length first.now < 8 }
    ensures serves { (used : Environment) × C.gave clock.old used.readings clock.new
        × (events : List LineEvent)
        × Passes
        (record
        { unread = R.remaining reader.old.inner; written = W.contents writer.old.inner }) events
        (record { unread = R.remaining reader.new.inner; written = W.contents writer.new.inner })
        × ServesPromptly server.old.settings (A.state server.old.replica.archive)
        (A.state server.new.replica.archive) first.now events used result }
    ensures settings { server.new.settings ≡ server.old.settings }
    ensures reads { CountsWhere (IsErrOf result ServeFault.Read)
        reader.old.faults reader.new.faults }
    ensures writes { CountsWhere (IsErrOf result ServeFault.Write)
        writer.old.faults writer.new.faults }
{
    let mut wires = Wires { reader, writer };
    ua_connection::serve(server, first, &mut wires, clock)
}

/// Serves a client of whom these first bytes, if any, were read before, and says that it was a client's connection.
fn serve_client<R: Read, W: Write, C: Clock, A: Archive>(
    reader: &mut Counted<R>,
    writer: &mut Counted<W>,
    first: &[u8],
    server: &mut Server<A>,
    clock: &mut C,
) -> Result<Served, ServeFault>
    requires { length first.now < 8 }
    ensures serves { (used : Environment) × C.gave clock.old used.readings clock.new × (served : _)
        × (result ≡ result_map_both end_of_client (λ fault. fault) served)
        × ServesBehind server.old.settings (A.state server.old.replica.archive)
        (A.state server.new.replica.archive) first.now (R.remaining reader.old.inner)
        (R.remaining reader.new.inner) (W.contents writer.old.inner)
        (W.contents writer.new.inner) used served }
    ensures settings { server.new.settings ≡ server.old.settings }
    ensures reads { CountsWhere (IsErrOf result ServeFault.Read)
        reader.old.faults reader.new.faults }
    ensures writes { CountsWhere (IsErrOf result ServeFault.Write)
        writer.old.faults writer.new.faults }
{
    match serve_wires(reader, writer, first, server, clock) {
        Ok(served) => Ok(end_of_client(served)),
        Err(fault) => Err(fault),
    }
}

/// Answers a connection: a peer's dialog over the server's replica, as `serve_peer` does, where its first three letters are
/// `RXV` or `RXD`, and the settings have no door for peers; any other as a client's, over the replica's archive.
///
/// It waits for three bytes, or the end of the input. Where a read fails before, nothing is written and the archive is as it
/// was. The clock is read for a client alone.
///
/// Errors: `Read` and `Write` where a call of the reader or the writer failed (its `faults`
/// rose, and it rises nowhere else), `TooLong` of a client alone, `OutOfMemory` where memory was wanting and the message that
/// tells it could not be made either.
pub fn serve<R: Read, W: Write, C: Clock, A: Archive>(
    reader: &mut Counted<R>,
    writer: &mut Counted<W>,
    server: &mut Server<A>,
    clock: &mut C,
) -> Result<Served, ServeFault>
    ensures serves { (used : Environment) × C.gave clock.old used.readings clock.new
        × ServesEither server.old.settings (A.state server.old.replica.archive)
        (A.state server.new.replica.archive) (R.remaining reader.old.inner)
        (R.remaining reader.new.inner) (W.contents writer.old.inner)
        (W.contents writer.new.inner) used result }
    ensures settings { server.new.settings ≡ server.old.settings }
    ensures reads { CountsWhere (IsErrOf result ServeFault.Read)
        reader.old.faults reader.new.faults }
    ensures writes { CountsWhere (IsErrOf result ServeFault.Write)
        writer.old.faults writer.new.faults }
{
    let mut letters = [0u8; 3];
    let n = match read_first(reader, &mut letters) {
        Ok(n) => n,
        Err(fault) => return Err(fault),
    };
    let first = &letters[..n];
    if Door::of_settings(&server.settings).is_peers(first) {
        serve_a_peer(server.alloc, &mut server.replica, first, reader, writer)
    } else {
        serve_client(reader, writer, first, server, clock)
    }
}
