//! Variants and data values, read and written.

ghost use Rattle.ua_variant.specs.Variant.{IsShortVariant};
ghost use Rattle.ua_variant.specs.DataValue.{IsShortData};

use crate::texts::is_text;
use std::alloc::Global;
use std::fmt::Debug;
use ua_binary::{Cursor, TryClone};
use ua_variant::{
    DataValue, ValueType, Variant, VariantFault, put_data_value, put_variant, read_data_value,
    read_variant, same_type,
};

/// One value of each type, with the number of the type and what `{:?}` shows of it. The texts, the Guid
/// and the text id are the examples of Part 6.
static SCALARS: [(u8, &[u8], &str); 19] = [
    (1, &[0x01, 0x01], "Scalar(Boolean(true))"),
    (2, &[0x02, 0xFF], "Scalar(SByte(-1))"),
    (3, &[0x03, 0xC8], "Scalar(Byte(200))"),
    (4, &[0x04, 0xFE, 0xFF], "Scalar(Int16(-2))"),
    (5, &[0x05, 0xE8, 0x03], "Scalar(UInt16(1000))"),
    (6, &[0x06, 0x07, 0x00, 0x00, 0x00], "Scalar(Int32(7))"),
    (
        7,
        &[0x07, 0x00, 0x28, 0x6B, 0xEE],
        "Scalar(UInt32(4000000000))",
    ),
    (
        8,
        &[0x08, 0xFF, 0xFF, 0xFF, 0xFF, 0xFF, 0xFF, 0xFF, 0xFF],
        "Scalar(Int64(-1))",
    ),
    (
        9,
        &[0x09, 0x00, 0x00, 0x00, 0x00, 0x00, 0x00, 0x00, 0x80],
        "Scalar(UInt64(9223372036854775808))",
    ),
    (
        10,
        &[0x0A, 0x00, 0x00, 0xD0, 0xC0],
        "Scalar(Float([0, 0, 208, 192]))",
    ),
    (
        11,
        &[0x0B, 0x00, 0x00, 0x00, 0x00, 0x00, 0x00, 0x1A, 0xC0],
        "Scalar(Double([0, 0, 0, 0, 0, 0, 26, 192]))",
    ),
    (
        12,
        &[
            0x0C, 0x06, 0x00, 0x00, 0x00, 0xE6, 0xB0, 0xB4, 0x42, 0x6F, 0x79,
        ],
        "Scalar(String(Some(Text { inner: \"水Boy\" })))",
    ),
    (
        13,
        &[0x0D, 0x0A, 0x00, 0x00, 0x00, 0x00, 0x00, 0x00, 0x00],
        "Scalar(DateTime(Ticks(10)))",
    ),
    (
        14,
        &[
            0x0E, 0x91, 0x2B, 0x96, 0x72, 0x75, 0xFA, 0xE6, 0x4A, 0x8D, 0x28, 0xB4, 0x04, 0xDC,
            0x7D, 0xAF, 0x63,
        ],
        "Scalar(Guid(Guid { first: 1922444177, second: 64117, third: 19174, last: [141, 40, 180, 4, 220, 125, 175, 99] }))",
    ),
    (
        15,
        &[0x0F, 0x02, 0x00, 0x00, 0x00, 0x01, 0x02],
        "Scalar(ByteString(Some(Bytes { inner: [1, 2] })))",
    ),
    (
        17,
        &[
            0x11, 0x03, 0x01, 0x00, 0x06, 0x00, 0x00, 0x00, 0x48, 0x6F, 0x74, 0xE6, 0xB0, 0xB4,
        ],
        "Scalar(NodeId(Named(1, Text { inner: \"Hot水\" })))",
    ),
    (
        19,
        &[0x13, 0x00, 0x00, 0x00, 0x80],
        "Scalar(StatusCode(Status(2147483648)))",
    ),
    (
        20,
        &[0x14, 0x01, 0x00, 0x01, 0x00, 0x00, 0x00, 0x54],
        "Scalar(QualifiedName(QualifiedName { namespace: 1, name: Some(Text { inner: \"T\" }) }))",
    ),
    (
        21,
        &[
            0x15, 0x03, 0x02, 0x00, 0x00, 0x00, 0x65, 0x6E, 0x01, 0x00, 0x00, 0x00, 0x54,
        ],
        "Scalar(LocalizedText(LocalizedText { locale: Some(Text { inner: \"en\" }), text: Some(Text { inner: \"T\" }) }))",
    ),
];

/// The same of two values of each type.
static ARRAYS: [(u8, &[u8], &str); 19] = [
    (
        1,
        &[0x81, 0x02, 0x00, 0x00, 0x00, 0x01, 0x00],
        "Array(Boolean(Listing { inner: [true, false] }))",
    ),
    (
        2,
        &[0x82, 0x02, 0x00, 0x00, 0x00, 0xFF, 0x01],
        "Array(SByte(Listing { inner: [-1, 1] }))",
    ),
    (
        3,
        &[0x83, 0x02, 0x00, 0x00, 0x00, 0xC8, 0x00],
        "Array(Byte(Listing { inner: [200, 0] }))",
    ),
    (
        4,
        &[0x84, 0x02, 0x00, 0x00, 0x00, 0xFE, 0xFF, 0x01, 0x00],
        "Array(Int16(Listing { inner: [-2, 1] }))",
    ),
    (
        5,
        &[0x85, 0x02, 0x00, 0x00, 0x00, 0xE8, 0x03, 0x00, 0x00],
        "Array(UInt16(Listing { inner: [1000, 0] }))",
    ),
    (
        6,
        &[
            0x86, 0x02, 0x00, 0x00, 0x00, 0x01, 0x00, 0x00, 0x00, 0xFF, 0xFF, 0xFF, 0xFF,
        ],
        "Array(Int32(Listing { inner: [1, -1] }))",
    ),
    (
        7,
        &[
            0x87, 0x02, 0x00, 0x00, 0x00, 0x00, 0x28, 0x6B, 0xEE, 0x01, 0x00, 0x00, 0x00,
        ],
        "Array(UInt32(Listing { inner: [4000000000, 1] }))",
    ),
    (
        8,
        &[
            0x88, 0x02, 0x00, 0x00, 0x00, 0xFF, 0xFF, 0xFF, 0xFF, 0xFF, 0xFF, 0xFF, 0xFF, 0x01,
            0x00, 0x00, 0x00, 0x00, 0x00, 0x00, 0x00,
        ],
        "Array(Int64(Listing { inner: [-1, 1] }))",
    ),
    (
        9,
        &[
            0x89, 0x02, 0x00, 0x00, 0x00, 0x00, 0x00, 0x00, 0x00, 0x00, 0x00, 0x00, 0x80, 0x01,
            0x00, 0x00, 0x00, 0x00, 0x00, 0x00, 0x00,
        ],
        "Array(UInt64(Listing { inner: [9223372036854775808, 1] }))",
    ),
    (
        10,
        &[
            0x8A, 0x02, 0x00, 0x00, 0x00, 0x00, 0x00, 0xD0, 0xC0, 0x00, 0x00, 0x80, 0x3F,
        ],
        "Array(Float(Listing { inner: [[0, 0, 208, 192], [0, 0, 128, 63]] }))",
    ),
    (
        11,
        &[
            0x8B, 0x02, 0x00, 0x00, 0x00, 0x00, 0x00, 0x00, 0x00, 0x00, 0x00, 0x1A, 0xC0, 0x00,
            0x00, 0x00, 0x00, 0x00, 0x00, 0xF0, 0x3F,
        ],
        "Array(Double(Listing { inner: [[0, 0, 0, 0, 0, 0, 26, 192], [0, 0, 0, 0, 0, 0, 240, 63]] }))",
    ),
    (
        12,
        &[
            0x8C, 0x02, 0x00, 0x00, 0x00, 0x01, 0x00, 0x00, 0x00, 0x54, 0xFF, 0xFF, 0xFF, 0xFF,
        ],
        "Array(String(Listing { inner: [Some(Text { inner: \"T\" }), None] }))",
    ),
    (
        13,
        &[
            0x8D, 0x02, 0x00, 0x00, 0x00, 0x0A, 0x00, 0x00, 0x00, 0x00, 0x00, 0x00, 0x00, 0xFF,
            0xFF, 0xFF, 0xFF, 0xFF, 0xFF, 0xFF, 0xFF,
        ],
        "Array(DateTime(Listing { inner: [Ticks(10), Ticks(-1)] }))",
    ),
    (
        14,
        &[
            0x8E, 0x02, 0x00, 0x00, 0x00, 0x91, 0x2B, 0x96, 0x72, 0x75, 0xFA, 0xE6, 0x4A, 0x8D,
            0x28, 0xB4, 0x04, 0xDC, 0x7D, 0xAF, 0x63, 0x00, 0x00, 0x00, 0x00, 0x00, 0x00, 0x00,
            0x00, 0x00, 0x00, 0x00, 0x00, 0x00, 0x00, 0x00, 0x00,
        ],
        "Array(Guid(Listing { inner: [Guid { first: 1922444177, second: 64117, third: 19174, last: [141, 40, 180, 4, 220, 125, 175, 99] }, Guid { first: 0, second: 0, third: 0, last: [0, 0, 0, 0, 0, 0, 0, 0] }] }))",
    ),
    (
        15,
        &[
            0x8F, 0x02, 0x00, 0x00, 0x00, 0x02, 0x00, 0x00, 0x00, 0x01, 0x02, 0xFF, 0xFF, 0xFF,
            0xFF,
        ],
        "Array(ByteString(Listing { inner: [Some(Bytes { inner: [1, 2] }), None] }))",
    ),
    (
        17,
        &[
            0x91, 0x02, 0x00, 0x00, 0x00, 0x00, 0x48, 0x01, 0x05, 0x01, 0x04,
        ],
        "Array(NodeId(Listing { inner: [Numeric(0, 72), Numeric(5, 1025)] }))",
    ),
    (
        19,
        &[
            0x93, 0x02, 0x00, 0x00, 0x00, 0x00, 0x00, 0x00, 0x80, 0x00, 0x00, 0x00, 0x00,
        ],
        "Array(StatusCode(Listing { inner: [Status(2147483648), Status(0)] }))",
    ),
    (
        20,
        &[
            0x94, 0x02, 0x00, 0x00, 0x00, 0x01, 0x00, 0x01, 0x00, 0x00, 0x00, 0x54, 0x00, 0x00,
            0xFF, 0xFF, 0xFF, 0xFF,
        ],
        "Array(QualifiedName(Listing { inner: [QualifiedName { namespace: 1, name: Some(Text { inner: \"T\" }) }, QualifiedName { namespace: 0, name: None }] }))",
    ),
    (
        21,
        &[
            0x95, 0x02, 0x00, 0x00, 0x00, 0x03, 0x02, 0x00, 0x00, 0x00, 0x65, 0x6E, 0x01, 0x00,
            0x00, 0x00, 0x54, 0x00,
        ],
        "Array(LocalizedText(Listing { inner: [LocalizedText { locale: Some(Text { inner: \"en\" }), text: Some(Text { inner: \"T\" }) }, LocalizedText { locale: None, text: None }] }))",
    ),
];

/// Whether the value is written as these bytes, and has their size.
fn is_written(alloc: Global, value: &Variant, bytes: &[u8]) -> bool
    requires { IsShortVariant value.now }
{
    let mut out = Vec::new(alloc);
    put_variant(&mut out, value).is_ok() && out.as_slice() == bytes && value.size() == bytes.len()
}

/// Whether `{:?}` shows this of a value.
fn is_shown<T: Debug>(alloc: Global, value: &T, shown: &str) -> bool {
    is_text(format!(in alloc; "{value:?}"), shown)
}

/// Whether a value's copy is the value.
fn is_copied<T: TryClone + PartialEq + Drop>(value: &T) -> bool {
    match value.try_clone() {
        Ok(copy) => copy == *value,
        Err(_) => false,
    }
}

/// Whether the value is of this type, and is written as these bytes; whether its copy is the value; and
/// whether `{:?}` shows this of it.
fn is_value(
    alloc: Global,
    value: &Variant,
    bytes: &[u8],
    value_type: ValueType,
    shown: &str,
) -> bool
    requires { IsShortVariant value.now }
{
    same_type(value, value_type)
        && is_written(alloc, value, bytes)
        && is_shown(alloc, value, shown)
        && is_copied(value)
}

/// Whether the bytes are read as such a value, all of them.
fn there_and_back(alloc: Global, bytes: &[u8], value_type: ValueType, shown: &str) -> bool {
    let mut cursor = Cursor::new(bytes);
    match read_variant(alloc, &mut cursor) {
        Ok(value) => {
            cursor.rest().is_empty() && is_value(alloc, &value, bytes, value_type, shown)
        }
        Err(_) => false,
    }
}

#[test]
fn scalars(rt: HostRuntime) {
    for row in &SCALARS {
        let (number, bytes, shown) = *row;
        let value_type = ValueType {
            number,
            array: false,
        };
        assert!(rt;
            there_and_back(rt.alloc(), bytes, value_type, shown),
            "at {shown}"
        );
    }
}

#[test]
fn arrays(rt: HostRuntime) {
    for row in &ARRAYS {
        let (number, bytes, shown) = *row;
        let value_type = ValueType {
            number,
            array: true,
        };
        assert!(rt;
            there_and_back(rt.alloc(), bytes, value_type, shown),
            "at {shown}"
        );
    }
}

/// Whether the data value is written as these bytes, and has their size.
fn is_data_written(alloc: Global, value: &DataValue, bytes: &[u8]) -> bool
    requires { IsShortData value.now }
{
    let mut out = Vec::new(alloc);
    put_data_value(&mut out, value).is_ok()
        && out.as_slice() == bytes
        && value.size() == bytes.len()
}

/// Whether the data value is written as these bytes; whether its copy is the value; and whether `{:?}`
/// shows this of it.
fn is_data(alloc: Global, value: &DataValue, bytes: &[u8], shown: &str) -> bool
    requires { IsShortData value.now }
{
    is_data_written(alloc, value, bytes) && is_shown(alloc, value, shown) && is_copied(value)
}

/// Whether the bytes are read as such a data value, all of them.
fn data_there_and_back(alloc: Global, bytes: &[u8], shown: &str) -> bool {
    let mut cursor = Cursor::new(bytes);
    match read_data_value(alloc, &mut cursor) {
        Ok(value) => cursor.rest().is_empty() && is_data(alloc, &value, bytes, shown),
        Err(_) => false,
    }
}

/// A value with its moment; without a value, all the rest; nothing; a null value; and a value with a status.
static DATA_VALUES: [(&[u8], &str); 5] = [
    (
        &[5, 6, 7, 0, 0, 0, 10, 0, 0, 0, 0, 0, 0, 0],
        "DataValue { value: Some(Scalar(Int32(7))), status: None, source_time: Some(Ticks(10)), source_pico: None, server_time: None, server_pico: None }",
    ),
    (
        &[
            0x3E, 0, 0, 0, 0x80, 1, 0, 0, 0, 0, 0, 0, 0, 2, 0, 3, 0, 0, 0, 0, 0, 0, 0, 0x0F, 0x27,
        ],
        "DataValue { value: None, status: Some(Status(2147483648)), source_time: Some(Ticks(1)), source_pico: Some(2), server_time: Some(Ticks(3)), server_pico: Some(9999) }",
    ),
    (
        &[0],
        "DataValue { value: None, status: None, source_time: None, source_pico: None, server_time: None, server_pico: None }",
    ),
    (
        &[1, 0],
        "DataValue { value: Some(Null), status: None, source_time: None, source_pico: None, server_time: None, server_pico: None }",
    ),
    (
        &[3, 12, 1, 0, 0, 0, b'T', 0, 0, 0, 0x80],
        "DataValue { value: Some(Scalar(String(Some(Text { inner: \"T\" })))), status: Some(Status(2147483648)), source_time: None, source_pico: None, server_time: None, server_pico: None }",
    ),
];

#[test]
fn data_values(rt: HostRuntime) {
    for row in &DATA_VALUES {
        let (bytes, shown) = *row;
        assert!(rt; data_there_and_back(rt.alloc(), bytes, shown), "at {shown}");
    }
}

/// The fault of bytes that spell no value, and how many are left then.
fn value_refusal(alloc: Global, bytes: &[u8]) -> Option<(VariantFault, usize)> {
    let mut cursor = Cursor::new(bytes);
    let fault = read_variant(alloc, &mut cursor).err()?;
    Some((fault, cursor.rest().len()))
}

/// Bytes that spell no value, and the fault.
static REFUSED_VALUES: [(&[u8], VariantFault); 11] = [
    (&[0x46, 7, 0, 0, 0], VariantFault::TypeUnsupported),
    (
        &[0xC6, 0, 0, 0, 0, 0, 0, 0, 0],
        VariantFault::TypeUnsupported,
    ),
    (&[0x80, 0, 0, 0, 0], VariantFault::TypeUnsupported),
    (&[16, 0], VariantFault::TypeUnsupported),
    (&[22, 0], VariantFault::TypeUnsupported),
    (&[], VariantFault::Short),
    (&[6, 7, 0, 0], VariantFault::Short),
    (&[0x86, 2, 0, 0, 0, 1, 0, 0, 0], VariantFault::Short),
    (&[0x86, 254, 255, 255, 255], VariantFault::BadLength),
    (&[12, 1, 0, 0, 0, 255], VariantFault::BadUtf8),
    (&[17, 6, 0], VariantFault::BadEncodingByte),
];

#[test]
fn refused_values(rt: HostRuntime) {
    for row in &REFUSED_VALUES {
        let (bytes, fault) = *row;
        let refusal = value_refusal(rt.alloc(), bytes);
        assert!(rt; refusal == Some((fault, bytes.len())), "at {bytes:?}");
    }
}

/// Whether the bytes spell a data value with these picoseconds.
fn are_picoseconds(alloc: Global, bytes: &[u8], source: Option<u16>, server: Option<u16>) -> bool {
    match read_data_value(alloc, &mut Cursor::new(bytes)) {
        Ok(value) => value.source_pico == source && value.server_pico == server,
        Err(_) => false,
    }
}

/// Data values, and the picoseconds of their source and of their server.
static PICOSECONDS: [(&[u8], Option<u16>, Option<u16>); 4] = [
    (&[0x10, 0x0F, 0x27], Some(9999), None),
    (&[0x10, 0x10, 0x27], Some(9999), None),
    (&[0x20, 0xFF, 0xFF], None, Some(9999)),
    (&[0x20, 0, 0], None, Some(0)),
];

#[test]
fn picoseconds_have_a_most(rt: HostRuntime) {
    for row in &PICOSECONDS {
        let (bytes, source, server) = *row;
        assert!(rt;
            are_picoseconds(rt.alloc(), bytes, source, server),
            "at {bytes:?}"
        );
    }
}

/// The fault of bytes that spell no data value, and how many are left then.
fn data_refusal(alloc: Global, bytes: &[u8]) -> Option<(VariantFault, usize)> {
    let mut cursor = Cursor::new(bytes);
    let fault = read_data_value(alloc, &mut cursor).err()?;
    Some((fault, cursor.rest().len()))
}

/// Bytes that spell no data value, and the fault.
static REFUSED_DATA: [(&[u8], VariantFault); 6] = [
    (&[0x40], VariantFault::BadEncodingByte),
    (&[0x80], VariantFault::BadEncodingByte),
    (&[0xFF], VariantFault::BadEncodingByte),
    (&[], VariantFault::Short),
    (&[5, 6, 7, 0, 0, 0, 10], VariantFault::Short),
    (&[1, 0x46], VariantFault::TypeUnsupported),
];

#[test]
fn refused_data_values(rt: HostRuntime) {
    for row in &REFUSED_DATA {
        let (bytes, fault) = *row;
        let refusal = data_refusal(rt.alloc(), bytes);
        assert!(rt; refusal == Some((fault, bytes.len())), "at {bytes:?}");
    }
}

/// Faults, and their numbers.
static NUMBERS: [(VariantFault, u8); 4] = [
    (VariantFault::Short, 1u8),
    (VariantFault::BadEncodingByte, 4),
    (VariantFault::OutOfMemory, 5),
    (VariantFault::TypeUnsupported, 6),
];

#[test]
fn numbers_of_faults(rt: HostRuntime) {
    for row in &NUMBERS {
        let (fault, number) = *row;
        assert!(rt; fault.number() == number);
    }
}
