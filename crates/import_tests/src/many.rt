//! More rows than the reader takes at once.

use crate::plant::{by_ann, server_of};
use archive::Archive;
use counted_io::Counted;
use historian::Server;
use history_import::{Counts, ImportFault, Perform, import_rows};
use std::alloc::{AllocError, Global};
use std::fmt::Write as _;
use ua_settings::SettingsFault;

/// How many rows there are.
const COUNT: u64 = 400;

/// So many rows, in a text of more than 8,192 bytes.
fn rows(alloc: Global) -> Result<String, AllocError> {
    let mut text = String::new(alloc);
    text.push_str("node,time,value,status\n")?;
    for number in 1..=COUNT {
        writeln!(text, "ns=1;s=T,@{number},{number},80320000")?;
    }
    Ok(text)
}

/// Imports a text.
fn import<A: Archive>(server: &mut Server<A>, text: &str) -> Result<Counts, ImportFault> {
    let mut input = Counted::new(text.as_bytes());
    let mut output = Counted::new(Vec::new(server.alloc));
    import_rows(server, &by_ann(Perform::Insert), &mut input, &mut output)
}

/// Whether all rows are inserted, and behind that all exist.
fn are_inserted_once<A: Archive>(server: &mut Server<A>, text: &str) -> bool {
    let first = import(server, text);
    let second = import(server, text);
    let all = |found: Result<Counts, ImportFault>| match found {
        Ok(counts) => (counts.rows, counts.inserted, counts.exist),
        Err(_) => (0, 0, 0),
    };
    all(first) == (COUNT, COUNT, 0) && all(second) == (COUNT, 0, COUNT)
}

/// Whether that holds of a new server.
fn once(alloc: Global) -> Result<bool, SettingsFault> {
    let Ok(text) = rows(alloc) else {
        return Ok(false);
    };
    let mut server = server_of(alloc)?;
    Ok(are_inserted_once(&mut server, text.as_str()))
}

#[test]
fn many_rows_are_inserted_once(rt: HostRuntime) {
    let good = once(rt.alloc());
    assert!(rt; good == Ok(true), "{good:?}");
}
