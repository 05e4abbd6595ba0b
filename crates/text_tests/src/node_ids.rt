//! Node ids.

use history_csv::{RowFault, node_text, read_node};
use std::alloc::Global;

/// Whether a text is read as a node id, and the node id is written as this text.
fn is_node(alloc: Global, text: &str, written: &str) -> bool {
    match read_node(alloc, text) {
        Ok(node) => match node_text(alloc, &node) {
            Ok(again) => again.as_slice() == written.as_bytes(),
            Err(_) => false,
        },
        Err(_) => false,
    }
}

/// Texts that are read, each with how the node id is written.
static NODES: [(&str, &str); 16] = [
    ("i=13", "i=13"),
    ("i=+007", "i=7"),
    ("i=4294967295", "i=4294967295"),
    ("ns=0;i=85", "i=85"),
    ("ns=2;i=0", "ns=2;i=0"),
    ("ns=65535;i=1", "ns=65535;i=1"),
    ("ns=+010;s=Hello:World", "ns=10;s=Hello:World"),
    ("ns=1;s=a;b=c, \"d\"\n", "ns=1;s=a;b=c, \"d\"\n"),
    ("ns=1;s=\u{e9}", "ns=1;s=\u{e9}"),
    ("s=", "s="),
    ("s=ns=1;i=2", "s=ns=1;i=2"),
    (
        "g=09087e75-8e5e-499b-954f-f2a9603db28a",
        "g=09087e75-8e5e-499b-954f-f2a9603db28a",
    ),
    (
        "ns=3;g=09087E75-8E5E-499B-954F-F2A9603DB28A",
        "ns=3;g=09087e75-8e5e-499b-954f-f2a9603db28a",
    ),
    (
        "ns=1;b=M/RbKBsRVkePCePcx24oRA==",
        "ns=1;b=M/RbKBsRVkePCePcx24oRA==",
    ),
    ("b=AA==", "b=AA=="),
    ("b=", "b="),
];

#[test]
fn node_ids_are_written(rt: HostRuntime) {
    let alloc = rt.alloc();
    for (text, written) in &NODES {
        let good = is_node(alloc, text, written);
        assert!(rt; good, "{text}");
    }
}

/// Texts that are no node id.
static REFUSED: [&str; 19] = [
    "",
    "i",
    "i=",
    "i=-1",
    "i=4294967296",
    "i=1 ",
    " i=1",
    "I=1",
    "x=1",
    "is=1",
    "ns=1",
    "ns=1;",
    "ns=1;i",
    "ns=;i=1",
    "ns=65536;i=1",
    "ns=1;ns=2;i=3",
    "g=09087e758e5e499b954ff2a9603db28a",
    "b=M/RbKBsRVkePCePcx24oRA",
    "b=_w==",
];

/// Whether a text is refused as no node id.
fn is_refused(alloc: Global, text: &str) -> bool {
    match read_node(alloc, text) {
        Ok(_) => false,
        Err(fault) => fault == RowFault::Node,
    }
}

#[test]
fn node_ids_are_refused(rt: HostRuntime) {
    let alloc = rt.alloc();
    for text in &REFUSED {
        let refused = is_refused(alloc, text);
        assert!(rt; refused, "{text}");
    }
}
