//! The files of a store, before it is opened.

use crate::causes;
use archive::StoreFault;
use sql_archive::{FileArchive, SqlArchive};
use std::fs::{File, OpenOptions};
use std::io::{ErrorKind, Write};
use std::os::unix::fs::{MetadataExt, OpenOptionsExt, PermissionsExt};
use std::{fs, io};
use ua_server::StoreTerms;

/// The least bytes of a log that has a record: its header, a frame's, and the smallest page.
const LEAST_LOG: u64 = 568;

/// The rights of a store that is made: its owner's alone. Its log takes them over.
const OWNERS: u32 = 0o600;

/// The bytes of a page of a store that is made. A change writes some five pages and syncs them, so smaller ones than SQLite's
/// usual 4,096 make it cheaper.
const PAGE: usize = 1024;

/// The header of a database of SQLite that holds nothing, of one page of 1,024 bytes, and with a log beside it.
const HEADER: [u8; 100] = [
    83, 81, 76, 105, 116, 101, 32, 102, 111, 114, 109, 97, 116, 32, 51, 0, 4, 0, 2, 2, 0, 64, 32,
    32, 0, 0, 0, 0, 0, 0, 0, 1, 0, 0, 0, 0, 0, 0, 0, 0, 0, 0, 0, 1, 0, 0, 0, 4, 0, 0, 0, 0, 0, 0,
    0, 0, 0, 0, 0, 1, 0, 0, 0, 0, 0, 0, 0, 0, 0, 0, 0, 0, 0, 0, 0, 0, 0, 0, 0, 0, 0, 0, 0, 0, 0, 0,
    0, 0, 0, 0, 0, 0, 0, 0, 0, 0, 0, 46, 118, 136,
];

/// A leaf of a tree of rows, which stands after the header: of no cell, so its cells begin where the page ends.
const LEAF: [u8; 8] = [13, 0, 0, 0, 0, 4, 0, 0];

/// How many bytes a file has, 0 where none stands at the path.
fn length(rt: &HostRuntime, path: &str) -> io::Result<u64> {
    match fs::metadata(rt, path) {
        Ok(found) => Ok(found.len()),
        Err(error) if error.kind() == ErrorKind::NotFound => Ok(0),
        Err(error) => Err(error),
    }
}

/// Who may read and write the file at a path.
pub fn mode(rt: &HostRuntime, path: &str) -> Option<u32> {
    match fs::metadata(rt, path) {
        Ok(found) => Some(found.permissions().mode()),
        Err(_) => None,
    }
}

/// Whether the log of a store at a path has a record. It lies where links of the path lead.
fn has_log(rt: &HostRuntime, path: &str) -> io::Result<bool> {
    let log = match fs::canonicalize(rt, path) {
        Ok(real) => format!(in rt.alloc(); "{}-wal", real.as_str())?,
        Err(_) => format!(in rt.alloc(); "{path}-wal")?,
    };
    Ok(length(rt, log.as_str())? >= LEAST_LOG)
}

/// Whether a store stands at a path: a file that isn't empty, or a log that has a record. What can't be looked at is said to
/// stand, and left to the opening.
pub fn stands(rt: &HostRuntime, path: &str) -> bool {
    !matches!(length(rt, path), Ok(0)) || !matches!(has_log(rt, path), Ok(false))
}

/// Makes the file of a store for its owner alone.
fn make(rt: &HostRuntime, path: &str) -> io::Result<File> {
    OpenOptions::new()
        .read(true)
        .write(true)
        .create_new(true)
        .mode(OWNERS)
        .open(rt, path)
}

/// Writes a database that holds nothing: one page, of its header and of a leaf without rows.
fn write_empty(file: &mut File) -> io::Result<()> {
    let mut page = [0; PAGE];
    page[..100].copy_from_slice(&HEADER);
    page[100..108].copy_from_slice(&LEAF);
    file.write_all(&page)?;
    file.sync_all()
}

/// Makes the file of a store for its owner alone, as a database that holds nothing. What can't be written is taken back, and
/// left to the opening, which begins an empty file in pages of 4,096 bytes.
fn make_empty(rt: &HostRuntime, path: &str) -> io::Result<()> {
    let mut file = make(rt, path)?;
    match write_empty(&mut file) {
        Ok(()) => Ok(()),
        Err(_) => file.set_len(0),
    }
}

/// Makes the file of a store for its owner alone, where none stands. A store that is gone, or empty, beside a log that has
/// records is refused, and both stay: an opening would begin anew, and the log may be all that is left. What else can't be read
/// is left to the opening.
fn prepare(rt: &HostRuntime, path: &str) -> Result<(), StoreFault> {
    if !matches!(length(rt, path), Ok(0)) {
        return Ok(());
    }
    if matches!(has_log(rt, path), Ok(true)) {
        return Err(StoreFault::Refused);
    }
    let _ = make_empty(rt, path);
    Ok(())
}

/// The archive of the store at a path, which is made where none stands, with an index of live values where the terms want one.
/// Where that can't be made it is refused.
pub fn open(rt: &HostRuntime, path: &str, terms: StoreTerms) -> Result<FileArchive, StoreFault> {
    prepare(rt, path)?;
    let mut archive = SqlArchive::open(rt, path, terms.archive, terms.replica)?;
    if !terms.is_indexed {
        return Ok(archive);
    }
    match archive.index_live_values() {
        Ok(()) => Ok(archive),
        Err(StoreFault::Broken) => Err(StoreFault::Refused),
        Err(fault) => Err(fault),
    }
}

/// Closes the archive of a store that broke, and says why it broke, as far as its files tell.
pub fn why_broken(archive: FileArchive) -> &'static str {
    let files = archive.into_files();
    let met = files.tally();
    match (files.may_be_used(), met.caught > 0, met.refused > 0) {
        (false, _, true) => "a sync of its disk failed; it had been full",
        (false, _, false) => "a sync of its disk failed",
        (true, true, _) => "its disk gave other bytes than were written there",
        (true, false, true) => "a read or a write of its disk failed; it had been full",
        (true, false, false) => causes::BROKEN,
    }
}

/// Whether a program has a lock on a file, as the system lists them.
fn is_locked(rt: &HostRuntime, file: &File) -> io::Result<bool> {
    let name = format!(in rt.alloc(); ":{} ", file.metadata()?.ino())?;
    let locks = fs::read_to_string(rt, "/proc/locks")?;
    Ok(locks.contains(name.as_str()))
}

/// The file of a store, to be read and written; where none stands it is made.
fn opened(rt: &HostRuntime, path: &str) -> io::Result<File> {
    match OpenOptions::new().read(true).write(true).open(rt, path) {
        Err(error) if error.kind() == ErrorKind::NotFound => make(rt, path),
        told => told,
    }
}

/// Why a store that was refused can't be opened, as far as its file tells; or why none can be made, where none stands.
pub fn why_refused(rt: &HostRuntime, path: &str) -> Option<&'static str> {
    if matches!(length(rt, path), Ok(0)) && matches!(has_log(rt, path), Ok(true)) {
        return Some("it is gone or empty, and its log has records");
    }
    let file = match opened(rt, path) {
        Ok(file) => file,
        Err(error) => return causes::of_store(error.kind()),
    };
    if matches!(is_locked(rt, &file), Ok(true)) {
        return Some("in use by another program");
    }
    Some("no store of this program, or a damaged one, or its disk is full")
}
