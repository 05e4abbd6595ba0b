//! The parts of a line.

ghost use Rattle.std.specs.Prelude.{◌≡◌, ◌++◌, [], IfOk, OnOk};
ghost use Rattle.std.specs.Fmt.{decimal};
ghost use Rattle.history_text.specs.Statuses.{status_text};
ghost use Rattle.event_lines.specs.Names.{quoted_name};
ghost use Rattle.event_lines.specs.Lines.{IsEventLine, from_text, amount_text, archived_text, asked_text, moved_text, exchanged_text};

use crate::lines::Moved;
use crate::names;
use history_csv::node_text;
use history_text::{Time, status_text, time_text};
use itoa::Buffer;
use std::alloc::{AllocError, Global};
use std::net::SocketAddr;
use ua_binary::{NodeId, Status};
use ua_session::{AuditName, UpdateKind};

/// A line that says when something was, and nothing yet of what it was.
pub(crate) fn line_at(alloc: Global, at: i64) -> Result<Vec<u8>, AllocError>
    ensures { IfOk result (λ line. IsEventLine at [] line.items) }
{
    let mut line = time_text(alloc, Time { ticks: at, pico: 0 })?;
    line.push(b' ')?;
    Ok(line)
}

/// Appends who is at the other end.
pub(crate) fn put_from(
    alloc: Global,
    line: &mut Vec<u8>,
    from: Option<SocketAddr>,
) -> Result<(), AllocError>
    ensures { OnOk result (line.new.items ≡ line.old.items ++ from_text from) }
{
    match from {
        Some(address) => {
            let text = address.to_string(alloc)?;
            line.extend_from_slice(text.as_bytes())
        }
        None => line.extend_from_slice(b"somebody"),
    }
}

/// Appends a user's name.
pub(crate) fn put_name(
    alloc: Global,
    line: &mut Vec<u8>,
    name: &AuditName,
) -> Result<(), AllocError>
    ensures { OnOk result (line.new.items ≡ line.old.items ++ quoted_name name.now) }
{
    let text = names::quoted_name(alloc, name.as_str())?;
    line.extend_from_slice(text.as_bytes())
}

/// Appends a status code.
pub(crate) fn put_status(
    alloc: Global,
    line: &mut Vec<u8>,
    status: Status,
) -> Result<(), AllocError>
    ensures { OnOk result (line.new.items ≡ line.old.items ++ status_text status) }
{
    let text = status_text(alloc, status)?;
    line.extend_from_slice(text.as_slice())
}

/// Appends a number.
pub(crate) fn put_number(line: &mut Vec<u8>, n: u64) -> Result<(), AllocError>
    ensures { OnOk result (line.new.items ≡ line.old.items ++ decimal n) }
{
    let mut buffer = Buffer::new();
    line.extend_from_slice(buffer.format(n).as_bytes())
}

/// Appends a number of what has this name.
pub(crate) fn put_amount(line: &mut Vec<u8>, n: u64, noun: &str) -> Result<(), AllocError>
    ensures { OnOk result (line.new.items ≡ line.old.items ++ amount_text n noun.now) }
{
    put_number(line, n)?;
    line.push(b' ')?;
    line.extend_from_slice(noun.as_bytes())?;
    if n != 1 {
        line.push(b's')?;
    }
    Ok(())
}

/// Appends a node, where it is an archived variable.
pub(crate) fn put_node(
    alloc: Global,
    line: &mut Vec<u8>,
    node: &Option<NodeId>,
) -> Result<(), AllocError>
    ensures { OnOk result (line.new.items ≡ line.old.items ++ archived_text node.now) }
{
    let Some(node) = node else {
        return line.extend_from_slice(b"another node");
    };
    match node_text(alloc, node) {
        Ok(text) => line.extend_from_slice(text.as_slice()),
        Err(_) => Err(AllocError),
    }
}

/// Appends what was asked, of so many.
fn put_many(line: &mut Vec<u8>, asked: &str, n: u64, noun: &str) -> Result<(), AllocError>
    ensures { OnOk result
        (line.new.items ≡ line.old.items ++ (asked.now ++ amount_text n noun.now)) }
{
    line.extend_from_slice(asked.as_bytes())?;
    put_amount(line, n, noun)
}

/// Appends what was asked of a node.
pub(crate) fn put_asked(line: &mut Vec<u8>, kind: UpdateKind, values: u64) -> Result<(), AllocError>
    ensures { OnOk result (line.new.items ≡ line.old.items ++ asked_text kind values) }
{
    match kind {
        UpdateKind::Insert => put_many(line, "asked to insert ", values, "value"),
        UpdateKind::Replace => put_many(line, "asked to replace ", values, "value"),
        UpdateKind::Update => put_many(line, "asked to update ", values, "value"),
        UpdateKind::DeleteAtTime => put_many(
            line,
            "asked to delete the values at ",
            values,
            "time",
        ),
        UpdateKind::DeleteRange => line.extend_from_slice(b"asked to delete a range"),
        UpdateKind::Other => line.extend_from_slice(b"asked for an update that isn't served,"),
    }
}

/// Appends how many records an exchange moved.
pub(crate) fn put_moved(line: &mut Vec<u8>, moved: Moved) -> Result<(), AllocError>
    ensures { OnOk result (line.new.items ≡ line.old.items ++ moved_text moved) }
{
    line.extend_from_slice(b" (learned ")?;
    put_number(line, moved.learned)?;
    line.extend_from_slice(b", sent ")?;
    put_number(line, moved.sent)?;
    line.extend_from_slice(b")")
}

/// Appends the same, where there was an exchange.
pub(crate) fn put_exchanged(line: &mut Vec<u8>, moved: Option<Moved>) -> Result<(), AllocError>
    ensures { OnOk result (line.new.items ≡ line.old.items ++ exchanged_text moved) }
{
    match moved {
        Some(moved) => put_moved(line, moved),
        None => Ok(()),
    }
}
