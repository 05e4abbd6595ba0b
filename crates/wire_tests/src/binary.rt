//! Values of the binary encoding, read and written.

use crate::texts::is_text;
use std::alloc::{AllocError, Global};
use ua_binary::{
    BinaryFault, Body, BodyRef, Bytes, Cursor, Encode, ExtensionObject, ExtensionRef, Guid,
    LocalizedRef, NodeId, NodeIdRef, QualifiedRef, TryClone, array_size, put_node_id, read_array,
};

/// Spellings of node ids.
static NODES: [(&[u8], NodeIdRef<'static>); 8] = [
    (&[0, 0x55], NodeIdRef::Numeric(0, 85)),
    (&[1, 0, 0x55, 0], NodeIdRef::Numeric(0, 85)),
    (&[2, 0, 0, 0x55, 0, 0, 0], NodeIdRef::Numeric(0, 85)),
    (&[1, 2, 0x39, 0x30], NodeIdRef::Numeric(2, 12345)),
    (&[3, 1, 0, 1, 0, 0, 0, b'T'], NodeIdRef::Named(1, "T")),
    (&[3, 1, 0, 255, 255, 255, 255], NodeIdRef::Named(1, "")),
    (&[5, 1, 0, 1, 0, 0, 0, 9], NodeIdRef::Opaque(1, &[9])),
    (&[5, 1, 0, 255, 255, 255, 255], NodeIdRef::Opaque(1, &[])),
];

/// The spelling of one that has a Guid.
const GLOBAL: &[u8] = &[4, 0, 1, 1, 0, 0, 0, 2, 0, 3, 0, 4, 4, 4, 4, 4, 4, 4, 4];

/// Whether bytes, all of them, are read as a node id.
fn is_node(bytes: &[u8], node: NodeIdRef<'_>) -> bool {
    let mut cursor = Cursor::new(bytes);
    cursor.node_id() == Ok(node) && cursor.rest().is_empty()
}

#[test]
fn node_forms(rt: HostRuntime) {
    for row in &NODES {
        let (bytes, node) = *row;
        assert!(rt; is_node(bytes, node), "at {bytes:?}");
    }
    let id = Guid::new(1, 2, 3, [4; 8]);
    assert!(rt; is_node(GLOBAL, NodeIdRef::Global(256, id)));
}

/// Bytes that spell no node id, and the fault.
static REFUSED_NODES: [(&[u8], BinaryFault); 5] = [
    (&[6, 0x55], BinaryFault::BadEncodingByte),
    (&[1, 0, 0x55], BinaryFault::Short),
    (&[3, 1, 0, 254, 255, 255, 255], BinaryFault::BadLength),
    (&[3, 1, 0, 1, 0, 0, 0, 0xFF], BinaryFault::BadUtf8),
    (&[], BinaryFault::Short),
];

/// Whether bytes are refused as a node id by a fault, and none of them is taken.
fn is_no_node(bytes: &[u8], fault: BinaryFault) -> bool {
    let mut cursor = Cursor::new(bytes);
    cursor.node_id() == Err(fault) && cursor.rest() == bytes
}

#[test]
fn refused_nodes(rt: HostRuntime) {
    for row in &REFUSED_NODES {
        let (bytes, fault) = *row;
        assert!(rt; is_no_node(bytes, fault), "at {bytes:?}");
    }
}

/// Whether a numeric node id is written as these bytes.
fn is_node_written(alloc: Global, namespace: u16, id: u32, bytes: &[u8]) -> bool {
    let node = NodeId::Numeric(namespace, id);
    let mut out = Vec::new(alloc);
    put_node_id(&mut out, &node).is_ok() && out.as_slice() == bytes
}

/// Numeric node ids, and how they are written.
static SHORTEST: [(u16, u32, &[u8]); 5] = [
    (0, 85, &[0, 85]),
    (0, 256, &[1, 0, 0, 1]),
    (255, 65535, &[1, 255, 255, 255]),
    (0, 65536, &[2, 0, 0, 0, 0, 1, 0]),
    (256, 85, &[2, 0, 1, 85, 0, 0, 0]),
];

#[test]
fn shortest_nodes(rt: HostRuntime) {
    for row in &SHORTEST {
        let (namespace, id, bytes) = *row;
        assert!(rt; is_node_written(rt.alloc(), namespace, id, bytes), "{id}");
    }
}

/// Bytes that spell no text, and the fault.
static REFUSED_TEXTS: [(&[u8], BinaryFault); 5] = [
    (&[2, 0, 0, 0, 0xC3, 0x28], BinaryFault::BadUtf8),
    (&[254, 255, 255, 255], BinaryFault::BadLength),
    (&[5, 0, 0, 0, 0x41], BinaryFault::Short),
    (&[255, 255, 255, 127], BinaryFault::Short),
    (&[1, 0, 0], BinaryFault::Short),
];

/// Whether bytes are refused as a text by a fault, and none of them is taken.
fn is_no_text(bytes: &[u8], fault: BinaryFault) -> bool {
    let mut cursor = Cursor::new(bytes);
    cursor.text() == Err(fault) && cursor.rest() == bytes
}

#[test]
fn refused_texts(rt: HostRuntime) {
    for row in &REFUSED_TEXTS {
        let (bytes, fault) = *row;
        assert!(rt; is_no_text(bytes, fault), "at {bytes:?}");
    }
}

/// Bytes that begin with a count, and the count.
static COUNTS: [(&[u8], Result<usize, BinaryFault>); 6] = [
    (&[255, 255, 255, 255], Ok(0)),
    (&[2, 0, 0, 0, 8, 9], Ok(2)),
    (&[2, 0, 0, 0, 8], Err(BinaryFault::Short)),
    (&[255, 255, 255, 127], Err(BinaryFault::Short)),
    (&[254, 255, 255, 255], Err(BinaryFault::BadLength)),
    (&[0, 0, 0, 128], Err(BinaryFault::BadLength)),
];

#[test]
fn counts(rt: HostRuntime) {
    for row in &COUNTS {
        let (bytes, count) = *row;
        assert!(rt; Cursor::new(bytes).count() == count, "at {bytes:?}");
    }
}

/// Localized texts: their bytes, locales and texts.
static LOCALIZED: [(&[u8], Option<&str>, Option<&str>); 4] = [
    (&[0], None, None),
    (&[2, 1, 0, 0, 0, b'T'], None, Some("T")),
    (
        &[3, 2, 0, 0, 0, b'd', b'e', 1, 0, 0, 0, b'T'],
        Some("de"),
        Some("T"),
    ),
    (
        &[3, 2, 0, 0, 0, b'd', b'e', 255, 255, 255, 255],
        Some("de"),
        None,
    ),
];

/// Whether bytes are read as a localized text.
fn is_localized(bytes: &[u8], locale: Option<&str>, text: Option<&str>) -> bool {
    Cursor::new(bytes).localized() == Ok(LocalizedRef { locale, text })
}

/// Whether a localized text with this mask is refused, and its byte isn't taken.
fn is_no_mask(mask: u8) -> bool {
    let bytes = [mask];
    let mut cursor = Cursor::new(&bytes);
    cursor.localized() == Err(BinaryFault::BadEncodingByte) && cursor.rest().len() == 1
}

#[test]
fn localized_texts(rt: HostRuntime) {
    for row in &LOCALIZED {
        let (bytes, locale, text) = *row;
        assert!(rt; is_localized(bytes, locale, text), "at {bytes:?}");
    }
    for mask in [4u8, 8, 128] {
        assert!(rt; is_no_mask(mask), "{mask}");
    }
}

/// Whether a value can be copied.
fn is_copied<T: TryClone + Drop>(value: &T) -> bool {
    value.try_clone().is_ok()
}

/// Whether an owned object is this one, and can be copied.
fn is_owned(owned: &ExtensionObject, object: ExtensionRef<'_>) -> bool {
    owned.as_ref() == object && is_copied(owned)
}

/// Whether an object is owned and copied as it is.
fn is_kept(alloc: Global, object: ExtensionRef<'_>) -> bool {
    match object.to_owned(alloc) {
        Ok(owned) => is_owned(&owned, object),
        Err(_) => false,
    }
}

/// Objects of type i=321, and their bodies.
static OBJECTS: [(&[u8], BodyRef<'static>); 4] = [
    (&[1, 0, 0x41, 1, 0], BodyRef::Absent),
    (
        &[1, 0, 0x41, 1, 1, 4, 0, 0, 0, 255, 255, 255, 255],
        BodyRef::Binary(&[255; 4]),
    ),
    (
        &[1, 0, 0x41, 1, 1, 255, 255, 255, 255],
        BodyRef::Binary(&[]),
    ),
    (&[1, 0, 0x41, 1, 2, 1, 0, 0, 0, b'<'], BodyRef::Xml(b"<")),
];

/// Whether bytes are read as such an object, which is owned and copied as it is.
fn is_object(alloc: Global, bytes: &[u8], body: BodyRef<'_>) -> bool {
    let type_id = NodeIdRef::Numeric(0, 321);
    let object = ExtensionRef { type_id, body };
    Cursor::new(bytes).extension() == Ok(object) && is_kept(alloc, object)
}

/// Whether an object whose body is of no kind is refused, and none of its bytes is taken.
fn is_no_object() -> bool {
    let mut cursor = Cursor::new(&[0, 9, 3, 0, 0, 0, 0]);
    cursor.extension() == Err(BinaryFault::BadEncodingByte) && cursor.rest().len() == 7
}

#[test]
fn extension_objects(rt: HostRuntime) {
    for row in &OBJECTS {
        let (bytes, body) = *row;
        assert!(rt; is_object(rt.alloc(), bytes, body), "at {bytes:?}");
    }
    assert!(rt; is_no_object());
}

#[test]
fn qualified_names(rt: HostRuntime) {
    let name = QualifiedRef {
        namespace: 1,
        name: Some("T"),
    };
    assert!(rt; Cursor::new(&[1, 0, 1, 0, 0, 0, b'T']).qualified() == Ok(name));
}

#[test]
fn guids(rt: HostRuntime) {
    let bytes = [
        0x91, 0x2B, 0x96, 0x72, 0x75, 0xFA, 0xE6, 0x4A, 0x8D, 0x28, 0xB4, 0x04, 0xDC, 0x7D, 0xAF,
        0x63,
    ];
    let last = [0x8D, 0x28, 0xB4, 0x04, 0xDC, 0x7D, 0xAF, 0x63];
    let guid = Guid::new(0x7296_2B91, 0xFA75, 0x4AE6, last);
    assert!(rt; Cursor::new(&bytes).guid() == Ok(guid));
}

#[test]
fn any_byte_but_zero_is_true(rt: HostRuntime) {
    for (byte, truth) in [(0u8, false), (1, true), (2, true), (255, true)] {
        let bytes = [byte];
        assert!(rt; Cursor::new(&bytes).boolean() == Ok(truth));
    }
}

/// Whether these bytes, all of them, are read as an array of objects, which has their size.
fn are_objects(alloc: Global, bytes: &[u8]) -> bool {
    let mut cursor = Cursor::new(bytes);
    let Ok(items) = read_array::<ExtensionObject>(alloc, &mut cursor) else {
        return false;
    };
    cursor.rest().is_empty() && array_size(items.as_slice()) == bytes.len()
}

/// An object of type i=321 with a body of one byte, and its bytes.
fn is_object_written(alloc: Global) -> Result<bool, AllocError> {
    let object = ExtensionObject {
        type_id: NodeId::Numeric(0, 321),
        body: Body::Binary(Bytes::from_slice(alloc, &[9])?),
    };
    let mut out = Vec::new(alloc);
    let written = object.put(&mut out).is_ok();
    Ok(written && out.as_slice() == [1, 0, 0x41, 1, 1, 1, 0, 0, 0, 9].as_slice())
}

/// Every other type of item is read, written, counted and copied as a value of that type.
#[test]
fn objects(rt: HostRuntime) -> Result<(), AllocError> {
    assert!(rt; are_objects(rt.alloc(), &[1, 0, 0, 0, 0, 9, 1, 1, 0, 0, 0, 255]));
    assert!(rt; is_object_written(rt.alloc())?);
    Ok(())
}

/// The faults, their numbers, and what is told of them.
static FAULTS: [(BinaryFault, u8, &str); 5] = [
    (BinaryFault::Short, 1, "the bytes end inside a field"),
    (BinaryFault::BadLength, 2, "a count is below -1"),
    (BinaryFault::BadUtf8, 3, "a text is not UTF-8"),
    (
        BinaryFault::BadEncodingByte,
        4,
        "an encoding byte has no meaning",
    ),
    (BinaryFault::OutOfMemory, 5, "out of memory"),
];

/// Whether a fault is told so.
fn is_told(alloc: Global, fault: BinaryFault, text: &str) -> bool {
    is_text(fault.to_string(alloc), text)
}

#[test]
fn faults(rt: HostRuntime) {
    for (fault, number, text) in &FAULTS {
        assert_eq!(rt; fault.number(), *number);
        assert!(rt; is_told(rt.alloc(), *fault, text), "{text}");
    }
}
