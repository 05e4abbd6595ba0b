//! The line of each event.

ghost use Rattle.std.specs.Prelude.{◌≡◌, ◌++◌, ◌∷◌, codes, option_copied, IfOk, OnOk};
ghost use Rattle.std.specs.Fmt.{decimal};
ghost use Rattle.history_text.specs.Statuses.{status_text};
ghost use Rattle.event_lines.specs.Names.{quoted_name};
ghost use Rattle.event_lines.specs.Lines.{IsEventLine, from_text, amount_text, archived_text, asked_text, exchanged_text, doors_text, browsers_text, records_text, start_text, connected_text, login_text, denial_text, update_text, broken_text, end_text, call_text};

use crate::parts::{
    line_at, put_amount, put_asked, put_exchanged, put_from, put_moved, put_name, put_node,
    put_number, put_status,
};
use std::alloc::{AllocError, Global};
use std::net::SocketAddr;
use ua_binary::Status;
use ua_session::{AuditName, UpdateAudit};

/// How many records an exchange with a replica moved.
#[derive(Clone, Copy, Debug, PartialEq, Eq)]
pub struct Moved {
    /// Those that were new here.
    pub learned: u64,
    /// Those that the other was sent.
    pub sent: u64,
}

/// How a connection ended.
#[derive(Clone, Copy, Debug)]
pub struct Ending<'a> {
    /// How long it was there, in milliseconds.
    pub milliseconds: u64,
    /// How many answers it was given.
    pub answered: u64,
    /// Why it ended.
    pub reason: &'a [u8],
    /// The records that it moved, where it was an exchange.
    pub moved: Option<Moved>,
}

/// A server that begins.
#[derive(Clone, Copy, Debug)]
pub struct Start<'a> {
    /// The version of its program.
    pub version: &'a str,
    /// The id of its archive.
    pub archive: &'a str,
    /// Which replica of it this is.
    pub replica: u8,
    /// The address where clients come to.
    pub clients: &'a str,
    /// The one where peers do; none where they come there too.
    pub peers: Option<&'a str>,
    /// The one where browsers do, if they come.
    pub browsers: Option<&'a str>,
    /// How many records are held, where that is known.
    pub records: Option<u64>,
}

/// Appends which program serves what.
fn put_served(line: &mut Vec<u8>, start: &Start<'_>) -> Result<(), AllocError>
    ensures { OnOk result (line.new.items ≡ line.old.items ++ (codes "started: version "
        ++ start.now.version.now ++ codes ", archive " ++ start.now.archive.now
        ++ codes ", replica " ++ decimal start.now.replica)) }
{
    line.extend_from_slice(b"started: version ")?;
    line.extend_from_slice(start.version.as_bytes())?;
    line.extend_from_slice(b", archive ")?;
    line.extend_from_slice(start.archive.as_bytes())?;
    line.extend_from_slice(b", replica ")?;
    put_number(line, u64::from(start.replica))
}

/// Appends who comes to an address.
fn put_at(line: &mut Vec<u8>, who: &str, address: &str) -> Result<(), AllocError>
    ensures { OnOk result (line.new.items ≡ line.old.items ++ (who.now ++ address.now)) }
{
    line.extend_from_slice(who.as_bytes())?;
    line.extend_from_slice(address.as_bytes())
}

/// Appends where clients come to, and where peers do.
fn put_doors(line: &mut Vec<u8>, clients: &str, peers: Option<&str>) -> Result<(), AllocError>
    ensures { OnOk result
        (line.new.items ≡ line.old.items ++ doors_text clients.now (option_copied peers.entry)) }
{
    match peers {
        None => put_at(line, "clients and peers at ", clients),
        Some(own) => {
            line.extend_from_slice(b"clients at ")?;
            line.extend_from_slice(clients.as_bytes())?;
            line.extend_from_slice(b", peers at ")?;
            line.extend_from_slice(own.as_bytes())
        }
    }
}

/// Appends where browsers come to, if they do.
fn put_page(line: &mut Vec<u8>, browsers: Option<&str>) -> Result<(), AllocError>
    ensures { OnOk result
        (line.new.items ≡ line.old.items ++ browsers_text (option_copied browsers.entry)) }
{
    match browsers {
        None => Ok(()),
        Some(address) => put_at(line, ", browsers at ", address),
    }
}

/// Appends how many records are held, where that is known.
fn put_records(line: &mut Vec<u8>, records: Option<u64>) -> Result<(), AllocError>
    ensures { OnOk result (line.new.items ≡ line.old.items ++ records_text records) }
{
    match records {
        None => Ok(()),
        Some(count) => {
            line.extend_from_slice(b"; ")?;
            put_amount(line, count, "record")
        }
    }
}

/// Appends what is said of a server that begins.
fn put_start(line: &mut Vec<u8>, start: &Start<'_>) -> Result<(), AllocError>
    ensures { OnOk result (line.new.items ≡ line.old.items ++ start_text start.now.version.now
        start.now.archive.now start.now.replica
        (doors_text start.now.clients.now (option_copied start.now.peers)
        ++ browsers_text (option_copied start.now.browsers)) start.now.records) }
{
    put_served(line, start)?;
    line.extend_from_slice(b"; ")?;
    put_doors(line, start.clients, start.peers)?;
    put_page(line, start.browsers)?;
    put_records(line, start.records)
}

/// The line of a server that begins: `TIME started: version VERSION, archive ARCHIVE, replica REPLICA; clients at ADDRESS, peers at
/// ADDRESS, browsers at ADDRESS; N records`, or `clients and peers at ADDRESS`, and without the part of browsers where they don't
/// come, and that of records where how many are held isn't known. The one error is want of memory.
pub fn start_line(alloc: Global, at: i64, start: &Start<'_>) -> Result<Vec<u8>, AllocError>
    ensures { IfOk result (λ line. IsEventLine at (start_text start.now.version.now
        start.now.archive.now start.now.replica
        (doors_text start.now.clients.now (option_copied start.now.peers)
        ++ browsers_text (option_copied start.now.browsers)) start.now.records) line.items) }
{
    let mut line = line_at(alloc, at)?;
    put_start(&mut line, start)?;
    Ok(line)
}

/// Appends what is said of a connection that came.
fn put_connected(
    alloc: Global,
    line: &mut Vec<u8>,
    from: Option<SocketAddr>,
    door: &str,
) -> Result<(), AllocError>
    ensures { OnOk result (line.new.items ≡ line.old.items ++ connected_text from door.now) }
{
    put_from(alloc, line, from)?;
    line.extend_from_slice(b" connected to ")?;
    line.extend_from_slice(door.as_bytes())
}

/// The line of a connection that came: `TIME FROM connected to DOOR`. TIME is a moment of these steps of 100 ns since 1601, FROM
/// the address of the other end, or `somebody` where it isn't known. The one error is want of memory.
pub fn connected_line(
    alloc: Global,
    at: i64,
    from: Option<SocketAddr>,
    door: &str,
) -> Result<Vec<u8>, AllocError>
    ensures { IfOk result (λ line. IsEventLine at (connected_text from door.now) line.items) }
{
    let mut line = line_at(alloc, at)?;
    put_connected(alloc, &mut line, from, door)?;
    Ok(line)
}

/// Appends what is said of a name by which a session was to be activated.
fn put_login(
    alloc: Global,
    line: &mut Vec<u8>,
    from: Option<SocketAddr>,
    name: &AuditName,
    refused: Option<Status>,
) -> Result<(), AllocError>
    ensures { OnOk result (line.new.items ≡ line.old.items ++ login_text from name.now refused) }
{
    put_from(alloc, line, from)?;
    match refused {
        None => {
            line.extend_from_slice(b" logged in as ")?;
            put_name(alloc, line, name)
        }
        Some(status) => {
            line.extend_from_slice(b" was refused as ")?;
            put_name(alloc, line, name)?;
            line.extend_from_slice(b": ")?;
            put_status(alloc, line, status)
        }
    }
}

/// The line of a name by which somebody asked to activate a session: `TIME FROM logged in as NAME`, or `TIME FROM was refused as
/// NAME: STATUS`. The one error is want of memory.
pub fn login_line(
    alloc: Global,
    at: i64,
    from: Option<SocketAddr>,
    name: &AuditName,
    refused: Option<Status>,
) -> Result<Vec<u8>, AllocError>
    ensures { IfOk result (λ line. IsEventLine at (login_text from name.now refused) line.items) }
{
    let mut line = line_at(alloc, at)?;
    put_login(alloc, &mut line, from, name, refused)?;
    Ok(line)
}

/// Appends who asked for an update, and what was asked.
fn put_asker(
    alloc: Global,
    line: &mut Vec<u8>,
    from: Option<SocketAddr>,
    user: &AuditName,
    update: &UpdateAudit,
) -> Result<(), AllocError>
    ensures { OnOk result (line.new.items ≡ line.old.items ++ (from_text from ++ codes " as "
        ++ quoted_name user.now ++ 32 ∷ asked_text update.now.kind update.now.values)) }
{
    put_from(alloc, line, from)?;
    line.extend_from_slice(b" as ")?;
    put_name(alloc, line, user)?;
    line.push(b' ')?;
    put_asked(line, update.kind, update.values as u64)
}

/// Appends of which node it was asked, and what the answer was.
fn put_answer(alloc: Global, line: &mut Vec<u8>, update: &UpdateAudit) -> Result<(), AllocError>
    ensures { OnOk result (line.new.items ≡ line.old.items ++ codes " of "
        ++ archived_text update.now.node ++ codes ": " ++ status_text update.now.worst) }
{
    line.extend_from_slice(b" of ")?;
    put_node(alloc, line, &update.node)?;
    line.extend_from_slice(b": ")?;
    put_status(alloc, line, update.worst)
}

/// Appends what is said of an update.
fn put_update(
    alloc: Global,
    line: &mut Vec<u8>,
    from: Option<SocketAddr>,
    user: &AuditName,
    update: &UpdateAudit,
) -> Result<(), AllocError>
    ensures { OnOk result (line.new.items ≡ line.old.items ++ update_text from user.now update.now) }
{
    put_asker(alloc, line, from, user, update)?;
    put_answer(alloc, line, update)
}

/// The line of one of the details of a HistoryUpdate: `TIME FROM as NAME asked to insert COUNT values of NODE: STATUS`, and so on. NODE is
/// `another node` where it is no archived variable. The one error is want of memory.
pub fn update_line(
    alloc: Global,
    at: i64,
    from: Option<SocketAddr>,
    user: &AuditName,
    update: &UpdateAudit,
) -> Result<Vec<u8>, AllocError>
    ensures { IfOk result (λ line. IsEventLine at (update_text from user.now update.now) line.items) }
{
    let mut line = line_at(alloc, at)?;
    put_update(alloc, &mut line, from, user, update)?;
    Ok(line)
}

/// Appends whose connection ended, and how long it was there.
fn put_stay(
    alloc: Global,
    line: &mut Vec<u8>,
    from: Option<SocketAddr>,
    end: &Ending<'_>,
) -> Result<(), AllocError>
    ensures { OnOk result (line.new.items ≡ line.old.items ++ (from_text from
        ++ codes " ended after " ++ decimal end.now.milliseconds ++ codes " ms and "
        ++ amount_text end.now.answered (codes "answer"))) }
{
    put_from(alloc, line, from)?;
    line.extend_from_slice(b" ended after ")?;
    put_number(line, end.milliseconds)?;
    line.extend_from_slice(b" ms and ")?;
    put_amount(line, end.answered, "answer")
}

/// Appends why it ended, and what it moved.
fn put_reason(line: &mut Vec<u8>, end: &Ending<'_>) -> Result<(), AllocError>
    ensures { OnOk result (line.new.items ≡ line.old.items ++ codes ": " ++ end.now.reason.now
        ++ exchanged_text end.now.moved) }
{
    line.extend_from_slice(b": ")?;
    line.extend_from_slice(end.reason)?;
    put_exchanged(line, end.moved)
}

/// Appends what is said of a connection that ended.
fn put_end(
    alloc: Global,
    line: &mut Vec<u8>,
    from: Option<SocketAddr>,
    end: &Ending<'_>,
) -> Result<(), AllocError>
    ensures { OnOk result (line.new.items ≡ line.old.items ++ end_text from end.now.milliseconds
        end.now.answered end.now.reason.now end.now.moved) }
{
    put_stay(alloc, line, from, end)?;
    put_reason(line, end)
}

/// The line of a connection that ended: `TIME FROM ended after MILLISECONDS ms and ANSWERED answers: REASON`, and behind that
/// ` (learned LEARNED, sent SENT)` where it was an exchange. The one error is want of memory.
pub fn end_line(
    alloc: Global,
    at: i64,
    from: Option<SocketAddr>,
    end: &Ending<'_>,
) -> Result<Vec<u8>, AllocError>
    ensures { IfOk result (λ line. IsEventLine at (end_text from end.now.milliseconds
        end.now.answered end.now.reason.now end.now.moved) line.items) }
{
    let mut line = line_at(alloc, at)?;
    put_end(alloc, &mut line, from, end)?;
    Ok(line)
}

/// Appends what is said of a browser that was denied what it asked for.
fn put_denial(alloc: Global, line: &mut Vec<u8>, from: Option<SocketAddr>) -> Result<(), AllocError>
    ensures { OnOk result (line.new.items ≡ line.old.items ++ denial_text from) }
{
    put_from(alloc, line, from)?;
    line.extend_from_slice(b" was refused as a browser: no such user or password")
}

/// The line of a browser that gave credentials that are no user's: `TIME FROM was refused as a browser: no such user or password`.
/// The one error is want of memory.
pub fn denial_line(alloc: Global, at: i64, from: Option<SocketAddr>) -> Result<Vec<u8>, AllocError>
    ensures { IfOk result (λ line. IsEventLine at (denial_text from) line.items) }
{
    let mut line = line_at(alloc, at)?;
    put_denial(alloc, &mut line, from)?;
    Ok(line)
}

/// The line of a store that broke: `TIME store broken`. The one error is want of memory.
pub fn broken_line(alloc: Global, at: i64) -> Result<Vec<u8>, AllocError>
    ensures { IfOk result (λ line. IsEventLine at broken_text line.items) }
{
    let mut line = line_at(alloc, at)?;
    line.extend_from_slice(b"store broken")?;
    Ok(line)
}

/// Appends what is said of a call.
fn put_call(line: &mut Vec<u8>, address: &str, reason: &str, moved: Moved) -> Result<(), AllocError>
    ensures { OnOk result
        (line.new.items ≡ line.old.items ++ call_text address.now reason.now moved) }
{
    line.extend_from_slice(b"peer ")?;
    line.extend_from_slice(address.as_bytes())?;
    line.extend_from_slice(b" called: ")?;
    line.extend_from_slice(reason.as_bytes())?;
    put_moved(line, moved)
}

/// The line of a call to a peer: `TIME peer ADDRESS called: REASON (learned LEARNED, sent SENT)`. The one error is want of memory.
pub fn call_line(
    alloc: Global,
    at: i64,
    address: &str,
    reason: &str,
    moved: Moved,
) -> Result<Vec<u8>, AllocError>
    ensures { IfOk result (λ line. IsEventLine at (call_text address.now reason.now moved) line.items) }
{
    let mut line = line_at(alloc, at)?;
    put_call(&mut line, address, reason, moved)?;
    Ok(line)
}
