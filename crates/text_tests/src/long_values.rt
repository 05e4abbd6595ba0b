//! Histories of long values: their lines are printed in several writes.

use crate::reports::{Written, empty_archive, learn, node_of};
use HistoryUpdateType::Insert;
use archive::{Archive, LearnFault, ListArchive};
use counted_io::Counted;
use history_report::{Form, Report, ReportFault, print_report};
use std::alloc::{AllocError, Global};
use std::io;
use std::io::Write;
use ua_variant::HistoryUpdateType;

/// How many values there are.
const COUNT: u8 = 12;

/// How many quotes a value has.
const QUOTES: u16 = 4_000;

/// Takes bytes as long as it has `room`, and notes the longest write.
#[derive(Drop)]
struct Noting {
    bytes: Vec<u8>,
    room: usize,
    longest: usize,
}

impl Write for Noting {
    fn write(&mut self, buf: &[u8]) -> io::Result<usize> {
        self.longest = self.longest.max(buf.len());
        let n = buf.len().min(self.room.saturating_sub(self.bytes.len()));
        self.bytes.extend_from_slice(&buf[..n])?;
        Ok(n)
    }

    fn flush(&mut self) -> io::Result<()> {
        Ok(())
    }
}

/// An archive of the values, a second apart.
fn long_archive(alloc: Global) -> Result<ListArchive, LearnFault> {
    let mut archive = empty_archive(alloc)?;
    for number in 1..=COUNT {
        let row = ("i=7", i64::from(number), Insert, Written::Quotes(QUOTES));
        learn(alloc, &mut archive, u64::from(number), &row)?;
    }
    Ok(archive)
}

/// Appends a value's row of CSV.
fn put_csv_row(out: &mut Vec<u8>, number: u8) -> Result<(), AllocError> {
    out.extend_from_slice(b"i=7,2026-03-01T12:00:")?;
    out.push(b'0' + number / 10 % 10)?;
    out.push(b'0' + number % 10)?;
    out.extend_from_slice(b".0000000Z,\"")?;
    for _ in 0..QUOTES {
        out.extend_from_slice(b"\"\"")?;
    }
    out.extend_from_slice(b"\",Good\n")
}

/// The values as CSV.
fn whole_csv(alloc: Global) -> Result<Vec<u8>, AllocError> {
    let mut text = Vec::new(alloc);
    text.extend_from_slice(b"node,time,value,status\n")?;
    for number in 1..=COUNT {
        put_csv_row(&mut text, number)?;
    }
    Ok(text)
}

/// Prints the values of an archive to a writer with so much room: how it ends, how many writes
/// failed, and what was written.
fn printed<A: Archive>(
    alloc: Global,
    archive: &mut A,
    form: Form,
    room: usize,
) -> Option<(Result<(), ReportFault>, u64, Noting)> {
    let Ok(node) = node_of(alloc, "i=7") else {
        return None;
    };
    let report = Report {
        node,
        from: None,
        to: None,
        changes: false,
        form,
        next: None,
    };
    let mut output = Counted::new(Noting {
        bytes: Vec::new(alloc),
        room,
        longest: 0,
    });
    let ended = print_report(alloc, archive, &report, &mut output);
    let faults = output.faults();
    Some((ended, faults, output.into_inner()))
}

/// Whether the values are printed in writes of at most so many bytes, and are so long.
fn is_in_parts<A: Archive>(
    alloc: Global,
    archive: &mut A,
    form: Form,
    longest: usize,
    length: usize,
) -> bool {
    let Some((ended, faults, noted)) = printed(alloc, archive, form, usize::MAX) else {
        return false;
    };
    ended == Ok(()) && faults == 0 && noted.longest <= longest && noted.bytes.len() >= length
}

/// Whether each form is printed in writes of at most 64 KiB and a line.
fn are_in_parts(alloc: Global) -> Result<bool, LearnFault> {
    let mut archive = long_archive(alloc)?;
    let table = is_in_parts(alloc, &mut archive, Form::Table, 65_536 + 4_100, 48_000);
    let csv = is_in_parts(alloc, &mut archive, Form::Csv, 65_536 + 8_100, 96_000);
    let page = is_in_parts(alloc, &mut archive, Form::Page, 65_536 + 24_100, 288_000);
    Ok(table && csv && page)
}

/// Whether CSV to a writer with so much room ends so, and a first part of the whole is written.
fn is_csv<A: Archive>(
    alloc: Global,
    archive: &mut A,
    room: usize,
    end: Result<(), ReportFault>,
    failed: u64,
) -> bool {
    let Ok(whole) = whole_csv(alloc) else {
        return false;
    };
    let Some((ended, faults, noted)) = printed(alloc, archive, Form::Csv, room) else {
        return false;
    };
    let size = room.min(whole.len());
    ended == end && faults == failed && noted.bytes.as_slice() == &whole.as_slice()[..size]
}

/// Whether CSV is written whole where there is room, and else up to where there is none.
fn are_csv(alloc: Global) -> Result<bool, LearnFault> {
    let mut archive = long_archive(alloc)?;
    let whole = is_csv(alloc, &mut archive, usize::MAX, Ok(()), 0);
    let broken = is_csv(alloc, &mut archive, 80_000, Err(ReportFault::Write), 1);
    Ok(whole && broken)
}

#[test]
fn long_values_are_printed_in_parts(rt: HostRuntime) {
    let parts = are_in_parts(rt.alloc());
    assert!(rt; parts == Ok(true), "{parts:?}");
}

#[test]
fn long_values_are_printed_whole(rt: HostRuntime) {
    let whole = are_csv(rt.alloc());
    assert!(rt; whole == Ok(true), "{whole:?}");
}
