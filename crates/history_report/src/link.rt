//! The link of a page to the next one.

ghost use Rattle.std.specs.Prelude.{◌≡◌, ◌++◌, [], codes, Some, OnOk, if◌then◌else◌};
ghost use Rattle.form_urlencoded.specs.Form.{byte_serialize};
ghost use Rattle.history_report.specs.Html.{IsField, IsNextAddress, IsNextLink};
ghost use Rattle.history_report.specs.Paging.{IsPut};

use crate::html::{moment_text, put_escaped};
use crate::report::{Next, Report};
use form_urlencoded::byte_serialize;
use history_csv::node_text;
use history_text::TextFault;
use records::Moment;
use std::alloc::{AllocError, Global};

/// Appends bytes as a form writes them.
fn put_serialized(out: &mut Vec<u8>, bytes: &[u8]) -> Result<(), AllocError>
    ensures { OnOk result (out.new.items ≡ out.old.items ++ byte_serialize bytes.now) }
{
    for piece in byte_serialize(bytes) {
        out.extend_from_slice(piece.as_bytes())?;
    }
    Ok(())
}

/// Appends a moment as a field of a query, behind this word; nothing where there is none.
fn put_field(
    alloc: Global,
    word: &[u8],
    bound: Option<Moment>,
    out: &mut Vec<u8>,
) -> Result<(), AllocError>
    ensures { OnOk result (IsPut out.old.items out.new.items (IsField word.now bound)) }
{
    let Some(moment) = bound else {
        return Ok(());
    };
    let text = moment_text(alloc, moment)?;
    out.extend_from_slice(word)?;
    put_serialized(out, text.as_slice())?;
    Ok(())
}

/// The field of a query that asks for modifications.
fn changes_field(changes: bool) -> &'static [u8]
    ensures { result.now ≡ (if changes then codes "&changes=true" else []) }
{
    if changes { b"&changes=true" } else { b"" }
}

/// Appends the address of the page that has this stretch of a report.
fn put_address(
    alloc: Global,
    report: &Report,
    next: Next,
    out: &mut Vec<u8>,
) -> Result<(), TextFault>
    ensures { OnOk result (IsPut out.old.items out.new.items (IsNextAddress report.now next)) }
{
    let node = node_text(alloc, &report.node)?;
    out.extend_from_slice(b"/history?node=")?;
    put_serialized(out, node.as_slice())?;
    put_field(alloc, b"&from=", Some(next.from), out)?;
    put_field(alloc, b"&to=", next.to, out)?;
    out.extend_from_slice(changes_field(report.changes))?;
    Ok(())
}

/// Appends the link to the next page, nothing where there is none.
pub(crate) fn put_next_link(
    alloc: Global,
    report: &Report,
    out: &mut Vec<u8>,
) -> Result<(), TextFault>
    ensures { OnOk result (IsPut out.old.items out.new.items (IsNextLink report.now)) }
{
    let Some(next) = report.next else {
        return Ok(());
    };
    let mut address = Vec::new(alloc);
    put_address(alloc, report, next, &mut address)?;
    out.extend_from_slice(b"<p><a href=\"")?;
    put_escaped(out, address.as_slice())?;
    out.extend_from_slice(b"\">Next page</a></p>\n")?;
    Ok(())
}
