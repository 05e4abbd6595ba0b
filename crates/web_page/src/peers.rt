//! The peers that a server calls, each with its last call.

ghost use Rattle.std.specs.Prelude.{◌≡◌, ◌++◌, Some, IfOk, OnOk};
ghost use Rattle.std.specs.Fmt.{decimal};
ghost use Rattle.history_report.specs.Html.{data_cell};
ghost use Rattle.history_report.specs.Reports.{AreLines};
ghost use Rattle.web_page.specs.Calls.{outcome_words, call_line, end_cells, AreCallCells, IsCallRow};
ghost use Rattle.web_page.specs.Front.{peer_columns, below_columns, ArePeers};

use crate::calls::{CallCause, CallEnd, LastCall, LastCalls};
use crate::html::put_cell;
use itoa::Buffer;
use std::alloc::{AllocError, Global};

/// What stands between the rows of the variables and those of the peers: the names of the columns.
#[tactic(auto, unfolding(crate::specs::Front::peer_columns))]
fn peer_columns() -> &'static [u8]
    ensures { result.now ≡ peer_columns }
{
    b"</tbody>\n</table>\n<h2>Peers</h2>\n<table>\n<thead>\n\
      <tr><th scope=\"col\">peer</th><th scope=\"col\">last call</th>\
      <th scope=\"col\">how it ended</th><th scope=\"col\">learned</th>\
      <th scope=\"col\">sent</th></tr>\n</thead>\n<tbody>\n"
}

/// How a call ended, in words.
fn outcome_words(alloc: Global, given: Option<CallCause>) -> Result<Vec<u8>, AllocError>
    ensures { IfOk result (λ text. text.items ≡ outcome_words given) }
{
    match given {
        Some(cause) => cause.words(alloc),
        None => {
            let mut text = Vec::new(alloc);
            text.extend_from_slice(b"all was exchanged")?;
            Ok(text)
        }
    }
}

/// Appends a number as a cell.
fn put_number(out: &mut Vec<u8>, number: u32) -> Result<(), AllocError>
    ensures { OnOk result (out.new.items ≡ out.old.items ++ data_cell (decimal number)) }
{
    let mut buffer = Buffer::new();
    put_cell(out, buffer.format(u64::from(number)).as_bytes())
}

/// How a call ended as cells, when by this text.
fn cells_of(alloc: Global, end: CallEnd, time: &[u8]) -> Result<Vec<u8>, AllocError>
    ensures { IfOk result (λ cells. cells.items ≡ end_cells end time.now) }
{
    let words = outcome_words(alloc, end.cause)?;
    let mut cells = Vec::new(alloc);
    put_cell(&mut cells, time)?;
    put_cell(&mut cells, words.as_slice())?;
    put_number(&mut cells, end.learned)?;
    put_number(&mut cells, end.sent)?;
    Ok(cells)
}

/// How a call ended, as cells.
fn end_cells(alloc: Global, end: CallEnd) -> Result<Vec<u8>, AllocError>
    ensures { IfOk result (λ cells. AreCallCells (Some end) cells.items) }
{
    let time = end.time_text(alloc)?;
    cells_of(alloc, end, time.as_slice())
}

/// The cells of a last call, empty ones where there was none.
fn call_cells(alloc: Global, last: Option<CallEnd>) -> Result<Vec<u8>, AllocError>
    ensures { IfOk result (λ cells. AreCallCells last cells.items) }
{
    match last {
        Some(end) => end_cells(alloc, end),
        None => {
            let mut cells = Vec::new(alloc);
            cells.extend_from_slice(b"<td></td><td></td><td></td><td></td>")?;
            Ok(cells)
        }
    }
}

/// The row of a peer at this address, with these cells of its last call.
fn call_line(alloc: Global, address: &[u8], cells: &[u8]) -> Result<Vec<u8>, AllocError>
    ensures { IfOk result (λ row. row.items ≡ call_line address.now cells.now) }
{
    let mut row = Vec::new(alloc);
    row.extend_from_slice(b"<tr>")?;
    put_cell(&mut row, address)?;
    row.extend_from_slice(cells)?;
    row.extend_from_slice(b"</tr>\n")?;
    Ok(row)
}

/// The row of a peer with its last call.
fn call_row(alloc: Global, call: &LastCall) -> Result<Vec<u8>, AllocError>
    ensures { IfOk result (λ row. IsCallRow call.now row.items) }
{
    let cells = call_cells(alloc, call.end)?;
    call_line(alloc, call.address.as_str().as_bytes(), cells.as_slice())
}

/// The rows of these peers.
fn call_rows(alloc: Global, calls: &[LastCall]) -> Result<Vec<u8>, AllocError>
    ensures { IfOk result (λ rows. AreLines IsCallRow calls.now rows.items) }
{
    let mut rows = Vec::new(alloc);
    for call in calls {
        let row = call_row(alloc, call)?;
        rows.extend_from_slice(row.as_slice())?;
    }
    Ok(rows)
}

/// Rows of peers below the names of their columns; nothing, where there is no row.
fn below_columns(alloc: Global, rows: &[u8]) -> Result<Vec<u8>, AllocError>
    ensures { IfOk result (λ text. text.items ≡ below_columns rows.now) }
{
    let mut text = Vec::new(alloc);
    if rows.is_empty() {
        return Ok(text);
    }
    text.extend_from_slice(peer_columns())?;
    text.extend_from_slice(rows)?;
    Ok(text)
}

/// The peers that are called, each with its last call.
pub(crate) fn peers_text(alloc: Global, calls: &LastCalls) -> Result<Vec<u8>, AllocError>
    ensures { IfOk result (λ text. ArePeers calls.now text.items) }
{
    let rows = call_rows(alloc, calls.as_slice())?;
    below_columns(alloc, rows.as_slice())
}
