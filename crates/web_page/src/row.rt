//! The row of a variable.

ghost use Rattle.std.specs.Prelude.{◌≡◌, ◌++◌, [], unwrap_or, IfOk, OnOk};
ghost use Rattle.form_urlencoded.specs.Form.{byte_serialize};
ghost use Rattle.ua_space.specs.Space.{value_type_at};
ghost use Rattle.history_csv.specs.Nodes.{node_text};
ghost use Rattle.web_page.specs.Front.{history_link, anchor_cell, link_cell, settings_cells, latest_cells, front_row};

use crate::html::{put_cell, put_escaped};
use crate::latest::Latest;
use crate::listing::Listed;
use crate::texts::{cut_text, type_text};
use form_urlencoded::byte_serialize;
use history_csv::node_text;
use std::alloc::{AllocError, Global};
use ua_binary::{NodeId, Text};
use ua_space::Space;
use ua_variant::ValueType;

/// Appends bytes as a form writes them.
fn put_serialized(out: &mut Vec<u8>, bytes: &[u8]) -> Result<(), AllocError>
    ensures { OnOk result (out.new.items ≡ out.old.items ++ byte_serialize bytes.now) }
{
    for piece in byte_serialize(bytes) {
        out.extend_from_slice(piece.as_bytes())?;
    }
    Ok(())
}

/// The text of a node id.
fn id_text(alloc: Global, node: &NodeId) -> Result<Vec<u8>, AllocError>
    ensures { IfOk result (λ text. text.items ≡ node_text node.now) }
{
    match node_text(alloc, node) {
        Ok(text) => Ok(text),
        Err(_) => Err(AllocError),
    }
}

/// The address of the page of the history of a node whose id is this text.
#[tactic(auto, unfolding(crate::specs::Front::history_link))]
fn history_link(alloc: Global, id: &[u8]) -> Result<Vec<u8>, AllocError>
    ensures { IfOk result (λ link. link.items ≡ history_link id.now) }
{
    let mut link = Vec::new(alloc);
    link.extend_from_slice(b"/history?node=")?;
    put_serialized(&mut link, id)?;
    Ok(link)
}

/// Appends a text as a cell that leads to an address.
fn put_anchor(out: &mut Vec<u8>, address: &[u8], text: &[u8]) -> Result<(), AllocError>
    ensures { OnOk result (out.new.items ≡ out.old.items ++ anchor_cell address.now text.now) }
{
    out.extend_from_slice(b"<td><a href=\"")?;
    put_escaped(out, address)?;
    out.extend_from_slice(b"\">")?;
    put_escaped(out, text)?;
    out.extend_from_slice(b"</a></td>")
}

/// Appends a node's id, as a link to its history.
fn put_link(alloc: Global, out: &mut Vec<u8>, node: &NodeId) -> Result<(), AllocError>
    ensures { OnOk result (out.new.items ≡ out.old.items ++ link_cell node.now) }
{
    let id = id_text(alloc, node)?;
    let link = history_link(alloc, id.as_slice())?;
    put_anchor(out, link.as_slice(), id.as_slice())
}

/// The type that the settings say of a variable.
fn type_of(space: &Space, node: &NodeId) -> Option<ValueType>
    ensures { result ≡ value_type_at space.now node.now }
{
    match space.variable(node.as_ref()) {
        None => None,
        Some(info) => Some(info.value_type),
    }
}

/// A text, or nothing where there is none.
fn text_or_nothing(text: &Option<Text>) -> &str
    ensures { result.now ≡ unwrap_or text.now [] }
{
    match text {
        None => "",
        Some(text) => text.as_str(),
    }
}

/// Appends what the settings say of a variable.
fn put_settings(
    alloc: Global,
    out: &mut Vec<u8>,
    space: &Space,
    listed: &Listed,
) -> Result<(), AllocError>
    ensures { OnOk result (out.new.items ≡ out.old.items ++ settings_cells space.now listed.now) }
{
    let kind = type_text(alloc, type_of(space, &listed.node))?;
    put_cell(out, text_or_nothing(&listed.folder).as_bytes())?;
    put_cell(out, listed.name.as_str().as_bytes())?;
    put_link(alloc, out, &listed.node)?;
    put_cell(out, kind.as_slice())
}

/// Appends the texts of a live value as cells.
fn put_latest(alloc: Global, out: &mut Vec<u8>, latest: &Latest) -> Result<(), AllocError>
    ensures { OnOk result (out.new.items ≡ out.old.items
        ++ latest_cells latest.now.value.items latest.now.status.items latest.now.time.items
        latest.now.age.items) }
{
    let value = cut_text(alloc, latest.value.as_slice())?;
    put_cell(out, value.as_slice())?;
    put_cell(out, latest.status.as_slice())?;
    put_cell(out, latest.time.as_slice())?;
    put_cell(out, latest.age.as_slice())
}

/// Appends the row of a variable, with these texts of its latest live value.
pub(crate) fn put_row(
    alloc: Global,
    out: &mut Vec<u8>,
    space: &Space,
    listed: &Listed,
    latest: &Latest,
) -> Result<(), AllocError>
    ensures { OnOk result (out.new.items ≡ out.old.items
        ++ front_row space.now listed.now latest.now.value.items latest.now.status.items
        latest.now.time.items latest.now.age.items) }
{
    out.extend_from_slice(b"<tr>")?;
    put_settings(alloc, out, space, listed)?;
    put_latest(alloc, out, latest)?;
    out.extend_from_slice(b"</tr>\n")
}
