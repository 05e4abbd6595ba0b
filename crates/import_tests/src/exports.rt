//! What is printed of a history is read again.

use crate::plant::{by_ann, server_of};
use archive::Archive;
use counted_io::Counted;
use historian::Server;
use history_csv::read_node;
use history_import::{Counts, ImportFault, Perform, import_rows};
use history_report::{Form, Report, print_report};
use std::alloc::Global;
use ua_settings::SettingsFault;

/// Values of two nodes, in no order.
const ROWS: &str = "node,time,value,status\n\
    ns=1;s=S,2026-03-01T12:00:03Z,\"say \"\"hi\"\",\nand \u{fc}ber\",\n\
    ns=1;s=T,2026-03-01T12:00:02.00000000001Z,-2147483648,809B0000\n\
    ns=1;s=S,2026-03-01T12:00:01Z,,80320000\n\
    ns=1;s=T,2026-03-01T12:00:01Z,2147483647,\n\
    ns=1;s=T,@1,,40000000\n";

/// A node's history as CSV.
fn printed<A: Archive>(server: &mut Server<A>, node: &str) -> Option<Vec<u8>> {
    let Ok(node) = read_node(server.alloc, node) else {
        return None;
    };
    let report = Report {
        node,
        from: None,
        to: None,
        changes: false,
        form: Form::Csv,
        next: None,
    };
    let mut output = Counted::new(Vec::new(server.alloc));
    let archive = &mut server.replica.archive;
    match print_report(server.alloc, archive, &report, &mut output) {
        Ok(()) => Some(output.into_inner()),
        Err(_) => None,
    }
}

/// Imports a text into a server.
fn import<A: Archive>(server: &mut Server<A>, text: &[u8]) -> Result<Counts, ImportFault> {
    let mut input = Counted::new(text);
    let mut output = Counted::new(Vec::new(server.alloc));
    import_rows(server, &by_ann(Perform::Insert), &mut input, &mut output)
}

/// Whether so many rows are all inserted.
fn are_inserted<A: Archive>(server: &mut Server<A>, text: &[u8], count: u64) -> bool {
    match import(server, text) {
        Ok(counts) => counts.rows == count && counts.inserted == count,
        Err(_) => false,
    }
}

/// Whether a node's history, printed of one server, is written into another as the same.
fn goes_over<A: Archive>(from: &mut Server<A>, to: &mut Server<A>, node: &str, count: u64) -> bool {
    let Some(text) = printed(from, node) else {
        return false;
    };
    let written = are_inserted(to, text.as_slice(), count);
    match printed(to, node) {
        Some(again) => written && again.as_slice() == text.as_slice(),
        None => false,
    }
}

/// Whether both histories go over.
fn both_go_over(alloc: Global) -> Result<bool, SettingsFault> {
    let mut from = server_of(alloc)?;
    let mut to = server_of(alloc)?;
    let written = are_inserted(&mut from, ROWS.as_bytes(), 5);
    let numbers = goes_over(&mut from, &mut to, "ns=1;s=T", 3);
    let texts = goes_over(&mut from, &mut to, "ns=1;s=S", 2);
    Ok(written && numbers && texts)
}

#[test]
fn what_is_printed_is_read_again(rt: HostRuntime) {
    let good = both_go_over(rt.alloc());
    assert!(rt; good == Ok(true), "{good:?}");
}
