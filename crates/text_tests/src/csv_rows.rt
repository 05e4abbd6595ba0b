//! Rows of CSV.

use csv::{ReaderBuilder, StringRecord};
use history_csv::{
    Row, RowFault, put_change_header, put_change_row, put_value_header, put_value_row, read_node,
    read_row,
};
use history_text::TextFault;
use records::{Entry, Held, Moment};
use stamp::ReplicaNo;
use std::alloc::Global;
use ua_binary::{NodeId, Status, Text};
use ua_variant::{DataValue, HistoryUpdateType, Scalar, ValueType, Variant};

/// A value with a status.
fn value_of(value: Option<Variant>, status: Option<Status>) -> DataValue {
    DataValue {
        value,
        status,
        source_time: None,
        source_pico: None,
        server_time: None,
        server_pico: None,
    }
}

/// Whether a row that was read is written as this text.
fn is_written(alloc: Global, row: Row, text: &str) -> bool {
    let Row {
        node,
        time,
        value,
        status,
    } = row;
    let held = Held {
        time,
        value: value_of(value, Some(status)),
        extra: false,
    };
    let mut out = Vec::new(alloc);
    match put_value_row(alloc, &mut out, &node, &held) {
        Ok(()) => out.as_slice() == text.as_bytes(),
        Err(_) => false,
    }
}

/// One value of the type of this number.
fn one(number: u8) -> ValueType {
    ValueType {
        number,
        array: false,
    }
}

/// An array of the type of this number.
fn many(number: u8) -> ValueType {
    ValueType {
        number,
        array: true,
    }
}

/// The row that a text begins by.
fn row_at(alloc: Global, value_type: ValueType, text: &str) -> Result<Row, RowFault> {
    let mut reader = ReaderBuilder::new()
        .has_headers(false)
        .from_reader(alloc, text.as_bytes());
    let mut record = StringRecord::new(alloc);
    match reader.read_record(&mut record) {
        Ok(true) => read_row(alloc, value_type, &record),
        _ => Err(RowFault::OutOfMemory),
    }
}

/// Whether a text is read as a row of this type, which is written as that text.
fn is_row(alloc: Global, value_type: ValueType, text: &str, written: &str) -> bool {
    match row_at(alloc, value_type, text) {
        Ok(row) => is_written(alloc, row, written),
        Err(_) => false,
    }
}

/// Types, each with a row that is read, and how it is written.
static ROWS: [(u8, &str, &str); 10] = [
    (
        11,
        "i=2258,2026-03-01T12:00:00.0000000Z,0.1,Good\n",
        "i=2258,2026-03-01T12:00:00.0000000Z,0.1,Good\n",
    ),
    (
        11,
        "i=2258,2026-03-01T12:00:00Z,1,\r\ni=2259,@0,2,\r\n",
        "i=2258,2026-03-01T12:00:00.0000000Z,1.0,Good\n",
    ),
    (
        11,
        "\"i=2258\",\"2026-03-01T12:00:00.00000000001Z\",NaN,80320000",
        "i=2258,2026-03-01T12:00:00.00000000001Z,NaN,80320000\n",
    ),
    (
        12,
        "\"ns=1;s=a,b\",@-1,\"say \"\"hi\"\"\nnow\",809b0408\n",
        "\"ns=1;s=a,b\",@-1,\"say \"\"hi\"\"\nnow\",809B0000\n",
    ),
    (12, "s=,@-1,,\n", "s=,@-1,,Good\n"),
    (12, "s=,@-1+0001,\"\r\",\n", "s=,@-1+0001,\"\r\",Good\n"),
    (6, "i=1,@-1,,809B0000\n", "i=1,@-1,,809B0000\n"),
    (6, "i=1,@-1,-5,Good\n", "i=1,@-1,-5,Good\n"),
    (15, "i=1,@-1,00FF,\n", "i=1,@-1,00ff,Good\n"),
    (19, "i=1,@-1,,\n", "i=1,@-1,Good,Good\n"),
];

/// Types of items, each with a row of an array that is read, and how it is written.
static ARRAYS: [(u8, &str, &str); 6] = [
    (6, "i=1,@-1,\"[1, -2]\",Good\n", "i=1,@-1,\"[1,-2]\",Good\n"),
    (6, "i=1,@-1,[],\n", "i=1,@-1,[],Good\n"),
    (6, "i=1,@-1,,809B0000\n", "i=1,@-1,,809B0000\n"),
    (12, "i=1,@-1,,\n", "i=1,@-1,,Good\n"),
    (11, "i=1,@-1,[0.5],\n", "i=1,@-1,[0.5],Good\n"),
    (
        12,
        "i=1,@-1,\"[\"\"a,b\"\"]\",\n",
        "i=1,@-1,\"[\"\"a,b\"\"]\",Good\n",
    ),
];

#[test]
fn rows_are_written(rt: HostRuntime) {
    let alloc = rt.alloc();
    for (number, text, written) in &ROWS {
        let good = is_row(alloc, one(*number), text, written);
        assert!(rt; good, "{text}");
    }
}

#[test]
fn rows_of_arrays_are_written(rt: HostRuntime) {
    let alloc = rt.alloc();
    for (number, text, written) in &ARRAYS {
        let good = is_row(alloc, many(*number), text, written);
        assert!(rt; good, "{text}");
    }
}

/// Types, each with a text that is no row, and why.
static REFUSED: [(u8, &str, RowFault); 10] = [
    (6, "i=1,@0,5\n", RowFault::Fields),
    (6, "i=1,@0,5,Good,\n", RowFault::Fields),
    (6, "i=1;@0;5;Good\n", RowFault::Fields),
    (6, "x,noon,five,good\n", RowFault::Node),
    (6, "i=1,noon,five,good\n", RowFault::Time(TextFault::NoTime)),
    (
        6,
        "i=1,@0,five,good\n",
        RowFault::Value(TextFault::NoInteger),
    ),
    (6, "i=1,@0,5,good\n", RowFault::Status(TextFault::NoStatus)),
    (1, "i=1,@0,5,Good\n", RowFault::Value(TextFault::NoBoolean)),
    (17, "i=1,@0,i=85,Good\n", RowFault::Value(TextFault::NoText)),
    (6, "node,time,value,status\n", RowFault::Node),
];

/// Why a text is no row.
fn fault_of(alloc: Global, value_type: ValueType, text: &str) -> Option<RowFault> {
    match row_at(alloc, value_type, text) {
        Ok(_) => None,
        Err(fault) => Some(fault),
    }
}

#[test]
fn rows_are_refused(rt: HostRuntime) {
    let alloc = rt.alloc();
    for (number, text, fault) in &REFUSED {
        let refused = fault_of(alloc, one(*number), text) == Some(*fault);
        assert!(rt; refused, "{text}");
    }
}

/// Whether both headers stand one behind the other.
fn has_headers(alloc: Global) -> bool {
    let mut out = Vec::new(alloc);
    let values = put_value_header(alloc, &mut out).is_ok();
    let changes = put_change_header(alloc, &mut out).is_ok();
    let text = "node,time,value,status\nnode,time,value,status,change,changed,user\n";
    values && changes && out.as_slice() == text.as_bytes()
}

#[test]
fn headers_are_written(rt: HostRuntime) {
    let good = has_headers(rt.alloc());
    assert!(rt; good);
}

/// A modification at the last moment, made at noon, which shows this number, or nothing.
fn entry_of(kind: HistoryUpdateType, shown: Option<i32>, origin: ReplicaNo, user: Text) -> Entry {
    Entry {
        time: Moment::at(-1),
        value: shown.map(|number| value_of(Some(Variant::Scalar(Scalar::Int32(number))), None)),
        kind,
        tick: 134_168_400_000_000_000,
        origin,
        user,
    }
}

/// Whether a modification of a node is written so.
fn is_written_so(alloc: Global, node: &NodeId, entry: &Entry, text: &str) -> bool {
    let mut out = Vec::new(alloc);
    let done = put_change_row(alloc, &mut out, node, entry).is_ok();
    done && out.as_slice() == text.as_bytes()
}

/// Whether a modification of ns=1;s=T is written so.
fn is_row_of(alloc: Global, entry: &Entry, text: &str) -> bool {
    match read_node(alloc, "ns=1;s=T") {
        Ok(node) => is_written_so(alloc, &node, entry, text),
        Err(_) => false,
    }
}

/// Whether a modification of ns=1;s=T by `a,b` is written so.
fn is_change(alloc: Global, kind: HistoryUpdateType, shown: Option<i32>, text: &str) -> bool {
    let Some(origin) = ReplicaNo::new(1) else {
        return false;
    };
    let Ok(user) = Text::from_str(alloc, "a,b") else {
        return false;
    };
    is_row_of(alloc, &entry_of(kind, shown, origin, user), text)
}

#[test]
fn changes_are_written(rt: HostRuntime) {
    let replaced = is_change(
        rt.alloc(),
        HistoryUpdateType::Replace,
        Some(5),
        "ns=1;s=T,@-1,5,Good,replace,2026-03-01T12:00:00.0000000Z,\"a,b\"\n",
    );
    assert!(rt; replaced);
    let deleted = is_change(
        rt.alloc(),
        HistoryUpdateType::Delete,
        None,
        "ns=1;s=T,@-1,,,delete,2026-03-01T12:00:00.0000000Z,\"a,b\"\n",
    );
    assert!(rt; deleted);
}
