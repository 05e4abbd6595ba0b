//! Node ids as text (Part 6, 5.3.1.10).

ghost use Rattle.std.specs.Prelude.{◌≡◌, ◌⊎◌, ◌++◌, OnOk, IfOk, IfErr, MatchOption, Some, None, ok_or, string_bytes};
ghost use Rattle.std.specs.Option.{option_map};
ghost use Rattle.base64.specs.Engines.{standard};
ghost use Rattle.base64.specs.GeneralPurpose.{encode_of};
ghost use Rattle.ua_binary.specs.declared.values.NodeId.TheVariants as Id;
ghost use Rattle.history_text.specs.Numbers.{unsigned_in};
ghost use Rattle.history_text.specs.Guids.{guid_in, guid_text};
ghost use Rattle.history_text.specs.declared.fault.TextFault.TheVariants as Why;
ghost use Rattle.history_csv.specs.Nodes.{split, guid_of, opaque_in, id_in, placed_in, node_in, namespace_text, node_text};
ghost use Rattle.history_csv.specs.Rows.{Answers};
ghost use Rattle.history_csv.specs.declared.fault.RowFault.TheVariants as Fault;

use crate::fault::RowFault;
use base64::DecodeAllocError;
use base64::engine::general_purpose::STANDARD;
use history_text::{TextFault, read_value, value_text};
use itoa::Buffer;
use std::alloc::{AllocError, Global};
use ua_binary::{Bytes, Guid, NodeId, Text};
use ua_variant::Scalar;

// ---- reading

/// The number of 16 bits that a text writes, perhaps behind a plus.
#[tactic(auto, using(history_text::proofs::NumbersLemmas::parsed_unsigned))]
fn u16_in(text: &str) -> Option<u16>
    ensures { result ≡ unsigned_in 16 text.now }
{
    text.parse::<u16>().ok()
}

/// The number of 32 bits that a text writes, perhaps behind a plus.
#[tactic(auto, using(history_text::proofs::NumbersLemmas::parsed_unsigned))]
fn u32_in(text: &str) -> Option<u32>
    ensures { result ≡ unsigned_in 32 text.now }
{
    text.parse::<u32>().ok()
}

/// What stands before the first equals sign, and behind it.
fn at_equals(text: &str) -> Option<(&str, &str)>
    ensures { MatchOption result (split 61 text.now ≡ None)
        (λ parts. split 61 text.now ≡ Some (parts.0.now, parts.1.now)) }
{
    text.split_once('=')
}

/// What stands before the first semicolon, and behind it.
fn at_semicolon(text: &str) -> Option<(&str, &str)>
    ensures { MatchOption result (split 59 text.now ≡ None)
        (λ parts. split 59 text.now ≡ Some (parts.0.now, parts.1.now)) }
{
    text.split_once(';')
}

/// What isn't a Guid is no node; memory may have run out.
fn guid_fault(fault: TextFault) -> RowFault
    ensures memory { (fault ≡ Why.OutOfMemory) → (result ≡ Fault.OutOfMemory) }
    ensures either { (result ≡ Fault.OutOfMemory) ⊎ (result ≡ Fault.Node) }
{
    match fault {
        TextFault::OutOfMemory => RowFault::OutOfMemory,
        _ => RowFault::Node,
    }
}

/// The Guid of a value, if it is one.
fn guid_of(value: &Scalar) -> Option<Guid>
    ensures { result ≡ guid_of value.now }
{
    match value {
        Scalar::Guid(guid) => Some(*guid),
        _ => None,
    }
}

/// The node of a namespace whose Guid a text says.
#[tactic(auto, using(crate::proofs::NodesLemmas::guid_refused))]
fn global_in(alloc: Global, namespace: u16, text: &str) -> Result<NodeId, RowFault>
    ensures { Answers
        (ok_or (option_map (Id.Global namespace) (guid_in text.now)) Fault.Node) result }
{
    match read_value(alloc, 14, text) {
        Ok(value) => match guid_of(&value) {
            Some(guid) => Ok(NodeId::Global(namespace, guid)),
            None => Err(RowFault::Node),
        },
        Err(fault) => Err(guid_fault(fault)),
    }
}

/// The node of a namespace whose bytes a text says in base64.
fn opaque_in(alloc: Global, namespace: u16, text: &str) -> Result<NodeId, RowFault>
    ensures { Answers
        (ok_or (option_map (Id.Opaque namespace) (opaque_in text.now)) Fault.Node) result }
{
    match STANDARD.decode(alloc, text.as_bytes()) {
        Ok(bytes) => Ok(NodeId::Opaque(namespace, Bytes::new(bytes))),
        Err(fault) => match fault {
            DecodeAllocError::OutOfMemory => Err(RowFault::OutOfMemory),
            DecodeAllocError::DecodeError(_) => Err(RowFault::Node),
        },
    }
}

/// The node of a namespace whose number a text says.
fn numeric_in(namespace: u16, text: &str) -> Result<NodeId, RowFault>
    ensures { result
        ≡ ok_or (option_map (Id.Numeric namespace) (unsigned_in 32 text.now)) Fault.Node }
{
    match u32_in(text) {
        Some(id) => Ok(NodeId::Numeric(namespace, id)),
        None => Err(RowFault::Node),
    }
}

/// The node of a namespace whose id, of this kind, a text says.
fn id_in(alloc: Global, namespace: u16, kind: &str, text: &str) -> Result<NodeId, RowFault>
    ensures { Answers (ok_or (id_in namespace kind.now text.now) Fault.Node) result }
{
    match kind {
        "i" => numeric_in(namespace, text),
        "s" => Ok(NodeId::Named(namespace, Text::from_str(alloc, text)?)),
        "g" => global_in(alloc, namespace, text),
        "b" => opaque_in(alloc, namespace, text),
        _ => Err(RowFault::Node),
    }
}

/// The node that a text says behind `ns=`.
fn placed_in(alloc: Global, text: &str) -> Result<NodeId, RowFault>
    ensures { Answers (ok_or (placed_in text.now) Fault.Node) result }
{
    let Some((number, rest)) = at_semicolon(text) else {
        return Err(RowFault::Node);
    };
    let Some(namespace) = u16_in(number) else {
        return Err(RowFault::Node);
    };
    let Some((kind, id)) = at_equals(rest) else {
        return Err(RowFault::Node);
    };
    id_in(alloc, namespace, kind, id)
}

/// Reads a node id: `ns=1;s=Temperature`, the number of its namespace and its id, or the id alone,
/// of namespace 0. An id is `i=` and its number in decimal, `s=` and its text, `g=` and its Guid
/// with hyphens, or `b=` and its bytes in base64 with padding. A text that is none is `Node`, and
/// `OutOfMemory` says that memory ran out.
pub fn read_node(alloc: Global, text: &str) -> Result<NodeId, RowFault>
    ensures { Answers (ok_or (node_in text.now) Fault.Node) result }
{
    let Some((kind, rest)) = at_equals(text) else {
        return Err(RowFault::Node);
    };
    if kind == "ns" {
        return placed_in(alloc, rest);
    }
    id_in(alloc, 0, kind, rest)
}

// ---- writing

/// Appends the namespace in front of an id.
fn put_namespace(out: &mut Vec<u8>, namespace: u16) -> Result<(), AllocError>
    ensures { OnOk result (out.new.items ≡ out.old.items ++ namespace_text namespace) }
{
    if namespace == 0 {
        return Ok(());
    }
    let mut buffer = Buffer::new();
    out.extend_from_slice(b"ns=")?;
    out.extend_from_slice(buffer.format(namespace).as_bytes())?;
    out.push(b';')?;
    Ok(())
}

/// A node id with a number.
#[tactic(auto, using(crate::proofs::NodesLemmas::numeric_again))]
fn numeric_text(alloc: Global, namespace: u16, id: u32) -> Result<Vec<u8>, TextFault>
    ensures written { IfOk result (λ text. text.items ≡ node_text (Id.Numeric namespace id)) }
    ensures read { IfOk result (λ text. node_in text.items ≡ Some (Id.Numeric namespace id)) }
    ensures refused { IfErr result (λ e. e ≡ Why.OutOfMemory) }
{
    let mut out = Vec::new(alloc);
    let mut buffer = Buffer::new();
    put_namespace(&mut out, namespace)?;
    out.extend_from_slice(b"i=")?;
    out.extend_from_slice(buffer.format(id).as_bytes())?;
    Ok(out)
}

/// A node id with a name.
#[tactic(auto, using(crate::proofs::NodesLemmas::named_again))]
fn named_text(alloc: Global, namespace: u16, name: &str) -> Result<Vec<u8>, TextFault>
    ensures written { IfOk result (λ text. text.items ≡ node_text (Id.Named namespace name.now)) }
    ensures read { IfOk result (λ text. node_in text.items ≡ Some (Id.Named namespace name.now)) }
    ensures refused { IfErr result (λ e. e ≡ Why.OutOfMemory) }
{
    let mut out = Vec::new(alloc);
    put_namespace(&mut out, namespace)?;
    out.extend_from_slice(b"s=")?;
    out.extend_from_slice(name.as_bytes())?;
    Ok(out)
}

/// A Guid as text.
fn guid_text(alloc: Global, id: Guid) -> Result<Vec<u8>, TextFault>
    ensures written { IfOk result (λ text. text.items ≡ guid_text id) }
    ensures read { IfOk result (λ text. guid_in text.items ≡ Some id) }
    ensures refused { IfErr result (λ e. e ≡ Why.OutOfMemory) }
{
    let value = Scalar::Guid(id);
    let text = value_text(alloc, &value)?;
    Ok(text)
}

/// A node id with a Guid.
#[tactic(auto, using(crate::proofs::NodesLemmas::global_again))]
fn global_text(alloc: Global, namespace: u16, id: &Guid) -> Result<Vec<u8>, TextFault>
    ensures written { IfOk result (λ text. text.items ≡ node_text (Id.Global namespace id.now)) }
    ensures read { IfOk result (λ text. node_in text.items ≡ Some (Id.Global namespace id.now)) }
    ensures refused { IfErr result (λ e. e ≡ Why.OutOfMemory) }
{
    let guid = guid_text(alloc, *id)?;
    let mut out = Vec::new(alloc);
    put_namespace(&mut out, namespace)?;
    out.extend_from_slice(b"g=")?;
    out.extend_from_slice(guid.as_slice())?;
    Ok(out)
}

/// Bytes in base64.
fn opaque_text(alloc: Global, id: &[u8]) -> Result<String, AllocError>
    ensures written { IfOk result (λ text. string_bytes text ≡ encode_of standard id.now) }
    ensures read { IfOk result (λ text. opaque_in (string_bytes text) ≡ Some id.now) }
{
    let text = STANDARD.encode(alloc, id)?;
    Ok(text)
}

/// A node id with bytes.
#[tactic(auto, using(crate::proofs::NodesLemmas::bytes_again))]
fn bytes_text(alloc: Global, namespace: u16, id: &[u8]) -> Result<Vec<u8>, TextFault>
    ensures written { IfOk result (λ text. text.items ≡ node_text (Id.Opaque namespace id.now)) }
    ensures read { IfOk result (λ text. node_in text.items ≡ Some (Id.Opaque namespace id.now)) }
    ensures refused { IfErr result (λ e. e ≡ Why.OutOfMemory) }
{
    let bytes = opaque_text(alloc, id)?;
    let mut out = Vec::new(alloc);
    put_namespace(&mut out, namespace)?;
    out.extend_from_slice(b"b=")?;
    out.extend_from_slice(bytes.as_bytes())?;
    Ok(out)
}

/// A node id as text: `ns=` with the number of its namespace and a semicolon, but for namespace 0;
/// then `i=` and its number in decimal, `s=` and its name, `g=` and its Guid with hyphens in lower
/// case, or `b=` and its bytes in base64 with padding. `read_node` reads it again as it was. The one
/// error is `OutOfMemory`.
pub fn node_text(alloc: Global, node: &NodeId) -> Result<Vec<u8>, TextFault>
    ensures written { IfOk result (λ text. text.items ≡ node_text node.now) }
    ensures read { IfOk result (λ text. node_in text.items ≡ Some node.now) }
    ensures refused { IfErr result (λ e. e ≡ Why.OutOfMemory) }
{
    match node {
        NodeId::Numeric(namespace, id) => numeric_text(alloc, *namespace, *id),
        NodeId::Named(namespace, name) => named_text(alloc, *namespace, name.as_str()),
        NodeId::Global(namespace, id) => global_text(alloc, *namespace, id),
        NodeId::Opaque(namespace, id) => bytes_text(alloc, *namespace, id.as_slice()),
    }
}
