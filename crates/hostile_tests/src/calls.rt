//! Calls of the libraries that read and write bytes, and of sessions. Each is made again where memory was wanting, and what
//! it was given is as before then.

ghost use Rattle.std.specs.Prelude.{IsTrue};
ghost use Rattle.ua_binary.specs.Binary.{IsShortNode};
ghost use Rattle.ua_variant.specs.DataValue.{IsShortData};
ghost use Rattle.ua_variant.specs.Variant.{IsShortVariant};

use stamp::{Vector, VectorFault};
use std::alloc::Global;
use ua_binary::{BinaryFault, Cursor, NodeId, NodeIdRef, put_node_id};
use ua_session::{SessionFault, Sessions};
use ua_variant::{
    DataValue, Variant, VariantFault, put_data_value, put_variant, read_data_value, read_variant,
};
use uacp::{Intake, Kind, UacpFault, answer_hello, put_ack, read_hello, split};

/// A call, and the bytes that it reads.
pub(crate) enum Call {
    /// A Hello comes byte by byte.
    Pieces,
    /// Spellings of the node `i=85`.
    Nodes(&'static [&'static [u8]]),
    /// Bytes that spell no node.
    NoNode(&'static [u8]),
    /// The Int32 7.
    Value(&'static [u8]),
    /// A data value with these picoseconds of its source.
    Data(&'static [u8], Option<u16>),
    /// A body of 8,169 bytes for chunks of 8,192.
    Split,
    /// Sixteen sessions, and one too many.
    Seventeen,
    /// A vector.
    Vector(&'static [u8]),
    /// Entries that don't ascend.
    NoVector(&'static [u8]),
}

const HELLO: &[u8] =
    b"HELF\x38\0\0\0\0\0\0\0\0\0\x01\0\0\0\x01\0\0\0\0\0\0\0\0\0\x18\0\0\0opc.tcp://localhost:4840";

const ACK: &[u8] = b"ACKF\x1c\0\0\0\0\0\0\0\0\0\x01\0\0\0\x01\0\0\0\x40\0\x40\0\0\0";

/// A piece is taken.
fn is_fed(intake: &mut Intake, piece: &[u8]) -> bool {
    match intake.feed(piece) {
        Ok(()) => true,
        Err(fault) => fault == UacpFault::OutOfMemory && intake.feed(piece).is_ok(),
    }
}

/// The body of a Hello is answered by the Acknowledge.
fn is_acknowledged(alloc: Global, body: &[u8]) -> bool {
    let Ok(hello) = read_hello(body) else {
        return false;
    };
    let Ok(ack) = answer_hello(&hello) else {
        return false;
    };
    let mut out = Vec::new(alloc);
    let written = put_ack(&mut out, &ack).is_ok()
        || (out.is_empty() && put_ack(&mut out, &ack).is_ok());
    written && out.as_slice() == ACK
}

/// A byte of a Hello comes, behind which so many are left: it makes the chunk whole where none is.
fn is_taken(alloc: Global, intake: &mut Intake, byte: u8, left: usize) -> bool {
    if !is_fed(intake, &[byte]) {
        return false;
    }
    match intake.next_chunk() {
        Ok(None) => left > 0,
        Ok(Some(chunk)) => {
            left == 0 && chunk.kind == Kind::Hello && is_acknowledged(alloc, chunk.body)
        }
        Err(_) => false,
    }
}

/// A Hello byte by byte: nothing before the last one.
fn are_taken(alloc: Global, intake: &mut Intake) -> bool {
    let mut left = HELLO.len();
    for byte in HELLO {
        left = left.saturating_sub(1);
        if !is_taken(alloc, intake, *byte, left) {
            return false;
        }
    }
    true
}

fn comes_in_pieces(alloc: Global) -> bool {
    let mut intake = Intake::new(alloc);
    are_taken(alloc, &mut intake)
}

/// A node in memory of its own.
fn owned(alloc: Global, node: NodeIdRef<'_>) -> Option<NodeId> {
    match node.to_owned(alloc) {
        Ok(node) => Some(node),
        Err(BinaryFault::OutOfMemory) => node.to_owned(alloc).ok(),
        Err(_) => None,
    }
}

fn is_short_node(node: &NodeId) -> bool
    ensures { IsTrue result → IsShortNode node.now }
{
    match node {
        NodeId::Numeric(_, _) => true,
        _ => false,
    }
}

/// A node is `i=85`, which is written in its shortest form.
fn is_node_written(alloc: Global, node: &NodeId) -> bool {
    if !is_short_node(node) {
        return false;
    }
    let mut out = Vec::new(alloc);
    let written = put_node_id(&mut out, node).is_ok()
        || (out.is_empty() && put_node_id(&mut out, node).is_ok());
    written && *node == NodeId::Numeric(0, 85) && out.as_slice() == [0u8, 0x55].as_slice()
}

/// The bytes spell `i=85`, all of them.
fn is_node(alloc: Global, bytes: &[u8]) -> bool {
    let mut cursor = Cursor::new(bytes);
    let Ok(read) = cursor.node_id() else {
        return false;
    };
    match owned(alloc, read) {
        Some(node) => cursor.rest().is_empty() && is_node_written(alloc, &node),
        None => false,
    }
}

fn are_nodes(alloc: Global, spellings: &[&[u8]]) -> bool {
    for bytes in spellings {
        if !is_node(alloc, bytes) {
            return false;
        }
    }
    true
}

fn is_no_node(bytes: &[u8]) -> bool {
    let mut cursor = Cursor::new(bytes);
    cursor.node_id() == Err(BinaryFault::BadEncodingByte) && cursor.rest() == bytes
}

fn is_short_variant(value: &Variant) -> bool
    ensures { IsTrue result → IsShortVariant value.now }
{
    value.size() < 0x8000_0000
}

fn is_short_data(value: &DataValue) -> bool
    ensures { IsTrue result → IsShortData value.now }
{
    let close = match value.source_pico {
        Some(pico) => pico <= 9999,
        None => true,
    };
    close && value.server_pico.is_none() && value.size() < 0x8000_0000
}

/// A value that the bytes spell, read again where memory was wanting.
fn value_of(alloc: Global, bytes: &[u8]) -> Result<Variant, VariantFault> {
    let mut cursor = Cursor::new(bytes);
    match read_variant(alloc, &mut cursor) {
        Err(VariantFault::OutOfMemory) if cursor.rest() == bytes => {
            read_variant(alloc, &mut cursor)
        }
        read => read,
    }
}

/// A value is written so.
fn is_value_written(alloc: Global, value: &Variant, bytes: &[u8]) -> bool {
    if !is_short_variant(value) {
        return false;
    }
    let mut out = Vec::new(alloc);
    let written = put_variant(&mut out, value).is_ok()
        || (out.is_empty() && put_variant(&mut out, value).is_ok());
    written && out.as_slice() == bytes
}

/// The bytes spell a value, which is written so.
fn is_value(alloc: Global, bytes: &[u8]) -> bool {
    match value_of(alloc, bytes) {
        Ok(value) => is_value_written(alloc, &value, bytes),
        Err(_) => false,
    }
}

/// A data value that the bytes spell, read again where memory was wanting.
fn data_of(alloc: Global, bytes: &[u8]) -> Result<DataValue, VariantFault> {
    let mut cursor = Cursor::new(bytes);
    match read_data_value(alloc, &mut cursor) {
        Err(VariantFault::OutOfMemory) if cursor.rest() == bytes => {
            read_data_value(alloc, &mut cursor)
        }
        read => read,
    }
}

/// A data value with these picoseconds is written in so many bytes.
fn is_data_written(alloc: Global, value: &DataValue, count: usize, pico: Option<u16>) -> bool {
    if !is_short_data(value) {
        return false;
    }
    let mut out = Vec::new(alloc);
    let written = put_data_value(&mut out, value).is_ok()
        || (out.is_empty() && put_data_value(&mut out, value).is_ok());
    written && value.source_pico == pico && out.len() == count
}

/// The bytes spell a data value with these picoseconds, which is written in as many bytes.
fn is_data(alloc: Global, bytes: &[u8], pico: Option<u16>) -> bool {
    match data_of(alloc, bytes) {
        Ok(value) => is_data_written(alloc, &value, bytes.len(), pico),
        Err(_) => false,
    }
}

/// A body of 8,169 bytes is cut into 8,168 and 1.
fn is_split() -> bool {
    let body = [7; 8169];
    let mut lens = split(&body, 8192).map(|piece| piece.len());
    (lens.next(), lens.next(), lens.next()) == (Some(8168), Some(1), None)
}

/// The session with these numbers is made.
fn is_created(sessions: &mut Sessions, id: u32, token: u32) -> bool {
    let mut made = sessions.create();
    let unmade = sessions.user_of(NodeIdRef::Numeric(1, token)) == Err(SessionFault::IdInvalid);
    if made == Err(SessionFault::OutOfMemory) && unmade {
        made = sessions.create();
    }
    made == Ok((NodeId::Numeric(1, id), NodeId::Numeric(1, token)))
}

fn are_sixteen_created(sessions: &mut Sessions) -> bool {
    for number in 1..17u32 {
        let id = number.saturating_mul(2);
        if !is_created(sessions, id, id.saturating_add(1)) {
            return false;
        }
    }
    true
}

fn refuses_the_seventeenth(alloc: Global) -> bool {
    let mut sessions = Sessions::new(alloc);
    are_sixteen_created(&mut sessions) && sessions.create() == Err(SessionFault::TooMany)
}

/// The bytes spell a vector, which is written so.
fn is_vector(alloc: Global, bytes: &[u8]) -> bool {
    let mut cursor = Cursor::new(bytes);
    let Ok(vector) = Vector::read(&mut cursor) else {
        return false;
    };
    let mut out = Vec::new(alloc);
    let written = vector.put(&mut out).is_ok() || (out.is_empty() && vector.put(&mut out).is_ok());
    written && cursor.rest().is_empty() && out.as_slice() == bytes
}

fn is_no_vector(bytes: &[u8]) -> bool {
    let mut cursor = Cursor::new(bytes);
    Vector::read(&mut cursor) == Err(VectorFault::NotAscending) && cursor.rest() == bytes
}

/// Whether a call comes to what it is told to.
pub(crate) fn is_called(alloc: Global, call: &Call) -> bool {
    match call {
        Call::Pieces => comes_in_pieces(alloc),
        Call::Nodes(spellings) => are_nodes(alloc, spellings),
        Call::NoNode(bytes) => is_no_node(bytes),
        Call::Value(bytes) => is_value(alloc, bytes),
        Call::Data(bytes, pico) => is_data(alloc, bytes, *pico),
        Call::Split => is_split(),
        Call::Seventeen => refuses_the_seventeenth(alloc),
        Call::Vector(bytes) => is_vector(alloc, bytes),
        Call::NoVector(bytes) => is_no_vector(bytes),
    }
}
