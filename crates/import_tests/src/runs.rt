//! Imports, one after the other, into one archive.

use crate::plant::{by_ann, record_count, server_of};
use Perform::{Insert, Replace, Update};
use archive::Archive;
use counted_io::Counted;
use historian::Server;
use history_import::{Counts, ImportFault, Perform, import_rows, may_import};
use std::alloc::Global;
use std::io;
use std::io::{Read, Write};
use ua_settings::SettingsFault;

/// A run: which update is asked for, the text, how the run ends, what it tells, and how many records
/// are held then. Of the counts: all rows, inserted, replaced, exist, refused.
type Run = (
    Perform,
    &'static [u8],
    Result<(u64, u64, u64, u64, u64), ImportFault>,
    &'static str,
    usize,
);

/// Three values.
const THREE: &[u8] = b"node,time,value,status\n\
    ns=1;s=T,2026-03-01T12:00:01Z,5,\n\
    ns=1;s=S,2026-03-01T12:00:01Z,\"a,b\",80320000\n\
    ns=1;s=T,2026-03-01T12:00:02.5Z,-6,Good\n";

/// Rows of each wrong kind, and one that is written.
const WRONG: &[u8] = b"node,time,value,status\n\
    temperature,@5,5,\n\
    ns=1;s=X,@5,5,\n\
    ns=1;s=f,@5,5,\n\
    ns=1;s=T,noon,5,\n\
    ns=1;s=T,@5,five,\n\
    ns=1;s=T,@5,5,good\n\
    ns=1;s=T,@5,5\n\
    ns=1;s=T,@0,5,\n\
    ns=1;s=A,@5,5,\n\
    \xff,@5,5,\n\
    ns=1;s=T,@5,,\n\
    ns=1;s=T,@5,2147483648,\n\
    ns=1;s=B,@5,TRUE,\n\
    ns=1;s=D,@5,one,\n\
    ns=1;s=M,@5,noon,\n\
    ns=1;s=G,@5,5,\n\
    ns=1;s=Y,@5,5,\n\
    ns=1;s=A,@5,\"[1,]\",\n\
    ns=1;s=A,@5,\"[2147483648]\",\n";

/// What is told of them; the eleventh has no value, which fits each type.
const WHY: &str = "row 1: node: expected a node id, as ns=1;s=Temperature or i=2258\n\
    row 2: 80340000 Bad_NodeIdUnknown\n\
    row 3: 80720000 Bad_HistoryOperationUnsupported\n\
    row 4: time: expected a time, as 2026-03-01T12:00:00.5Z or @134168400000000000\n\
    row 5: value: expected a whole number of the type's range\n\
    row 6: status: expected a status code: eight hex digits, or Good, or nothing\n\
    row 7: expected four fields: node, time, value and status\n\
    row 8: 80230000 Bad_InvalidTimestamp\n\
    row 9: value: expected a JSON array of values, as [1, 2] or [\"on\", \"off\"]\n\
    row 10: expected UTF-8\n\
    row 12: value: expected a whole number of the type's range\n\
    row 13: value: expected true or false\n\
    row 14: value: expected a number, inf, -inf or NaN\n\
    row 15: value: expected a time, as 2026-03-01T12:00:00.5Z or @134168400000000000\n\
    row 16: value: expected a Guid, as 72962b91-fa75-4ae6-8d28-b404dc7daf63\n\
    row 17: value: expected bytes, two hex digits each\n\
    row 18: value: expected a JSON array of values, as [1, 2] or [\"on\", \"off\"]\n\
    row 19: value: expected a whole number of the type's range\n\
    19 rows: 1 inserted, 18 refused\n";

/// Runs, one after the other.
static RUNS: [Run; 11] = [
    (
        Insert,
        THREE,
        Ok((3, 3, 0, 0, 0)),
        "3 rows: 3 inserted\n",
        3,
    ),
    (Insert, THREE, Ok((3, 0, 0, 3, 0)), "3 rows: 3 exist\n", 3),
    (
        Replace,
        b"node,time,value,status\r\nns=1;s=T,2026-03-01T12:00:01Z,7,\r\nns=1;s=T,2026-03-01T12:00:09Z,8,\r\n",
        Ok((2, 0, 1, 0, 1)),
        "row 2: 80A00000 Bad_NoEntryExists\n2 rows: 1 replaced, 1 refused\n",
        4,
    ),
    (
        Update,
        b"node,time,value,status\nns=1;s=T,2026-03-01T12:00:01Z,9,\nns=1;s=T,2026-03-01T12:00:09Z,8,\n",
        Ok((2, 1, 1, 0, 0)),
        "2 rows: 1 inserted, 1 replaced\n",
        6,
    ),
    (
        Insert,
        b"node,time,value,status\nns=1;s=T,2026-03-01T12:00:03Z,9,\n\nns=1;s=T,2026-03-01T12:00:01Z,9,",
        Ok((2, 1, 0, 1, 0)),
        "2 rows: 1 inserted, 1 exist\n",
        7,
    ),
    (Insert, WRONG, Ok((19, 1, 0, 0, 18)), WHY, 8),
    (
        Insert,
        b"ns=1;s=T,2026-03-01T12:00:04Z,9,\n",
        Err(ImportFault::Header),
        "",
        8,
    ),
    (Insert, b"", Err(ImportFault::Header), "", 8),
    (
        Insert,
        b"\xef\xbb\xbfnode,time,value,status\r\n",
        Ok((0, 0, 0, 0, 0)),
        "0 rows\n",
        8,
    ),
    (
        Insert,
        b"node,time,\"value\",status\nns=1;s=T,2026-03-01T12:00:05Z,9,\n",
        Ok((1, 1, 0, 0, 0)),
        "1 row: 1 inserted\n",
        9,
    ),
    (
        Insert,
        b"node,time,value,status\nns=1;s=A,2026-03-01T12:00:01Z,\"[5, -6]\",\nns=1;s=A,2026-03-01T12:00:02Z,[],\n",
        Ok((2, 2, 0, 0, 0)),
        "2 rows: 2 inserted\n",
        11,
    ),
];

/// Gives the text, and then an error.
#[derive(Drop)]
struct Broken<'a> {
    text: &'a [u8],
}

impl Read for Broken<'_> {
    fn read(&mut self, buf: &mut [u8]) -> io::Result<usize> {
        if self.text.is_empty() {
            return Err(io::Error::from(io::ErrorKind::BrokenPipe));
        }
        let n = self.text.len().min(buf.len());
        let (piece, rest) = self.text.split_at(n);
        buf[..n].copy_from_slice(piece);
        self.text = rest;
        Ok(n)
    }
}

/// Takes nothing.
#[derive(Drop)]
struct Full;

impl Write for Full {
    fn write(&mut self, _buf: &[u8]) -> io::Result<usize> {
        Ok(0)
    }

    fn flush(&mut self) -> io::Result<()> {
        Ok(())
    }
}

/// The counts of a run that came to its end.
fn counted(counts: Counts) -> (u64, u64, u64, u64, u64) {
    let Counts {
        rows,
        inserted,
        replaced,
        exist,
        refused,
    } = counts;
    (rows, inserted, replaced, exist, refused)
}

/// Whether a run ends, tells and leaves what it should.
fn goes_so<A: Archive>(server: &mut Server<A>, run: &Run) -> bool {
    let (perform, text, end, told, held) = *run;
    if !may_import(&server.settings, "ann") {
        return false;
    }
    let mut input = Counted::new(text);
    let mut output = Counted::new(Vec::new(server.alloc));
    let ended = import_rows(server, &by_ann(perform), &mut input, &mut output).map(counted);
    let printed = output.into_inner();
    ended == end && printed.as_slice() == told.as_bytes() && record_count(server) == Ok(held)
}

/// The first run that goes otherwise.
fn wrong_run<A: Archive>(server: &mut Server<A>) -> Option<usize> {
    let mut place = 0;
    for run in &RUNS {
        if !goes_so(server, run) {
            return Some(place);
        }
        place = place.saturating_add(1usize);
    }
    None
}

/// The first run over a new server that goes otherwise.
fn wrong_of_all(alloc: Global) -> Result<Option<usize>, SettingsFault> {
    let mut server = server_of(alloc)?;
    Ok(wrong_run(&mut server))
}

#[test]
fn rows_are_written_and_told(rt: HostRuntime) {
    let wrong = wrong_of_all(rt.alloc());
    assert!(rt; wrong == Ok(None), "{wrong:?}");
}

/// Whether rows before a fault of the reader stand, and no summary is told.
fn stands_before<A: Archive>(server: &mut Server<A>) -> bool {
    let text = b"node,time,value,status\nns=1;s=T,@5,5,\nns=1;s=T,@0,5,\nns=1;s=T,@6,5,";
    let mut input = Counted::new(Broken { text });
    let mut output = Counted::new(Vec::new(server.alloc));
    let ended = import_rows(server, &by_ann(Insert), &mut input, &mut output);
    let printed = output.into_inner();
    let told = printed.as_slice() == "row 2: 80230000 Bad_InvalidTimestamp\n".as_bytes();
    ended == Err(ImportFault::Read) && told && input.faults() == 1 && record_count(server) == Ok(1)
}

/// Whether a row stands whose line can't be written, and no later one is read.
fn stands_untold<A: Archive>(server: &mut Server<A>) -> bool {
    let text = b"node,time,value,status\nns=1;s=T,@6,5,\nns=1;s=T,@0,5,\nns=1;s=T,@7,5,\n";
    let mut input = Counted::new(text as &[u8]);
    let mut output = Counted::new(Full);
    let ended = import_rows(server, &by_ann(Insert), &mut input, &mut output);
    let failed = output.faults() == 1;
    ended == Err(ImportFault::Write) && failed && record_count(server) == Ok(2)
}

/// Whether both hold of a new server.
fn stand(alloc: Global) -> Result<(bool, bool), SettingsFault> {
    let mut server = server_of(alloc)?;
    let before = stands_before(&mut server);
    let untold = stands_untold(&mut server);
    Ok((before, untold))
}

#[test]
fn rows_before_a_fault_stand(rt: HostRuntime) {
    let stood = stand(rt.alloc());
    assert!(rt; stood == Ok((true, true)), "{stood:?}");
}

/// Names, and whether rows may be written in them.
static NAMES: [(&str, bool); 5] = [
    ("ann", true),
    ("bob", false),
    ("eve", false),
    ("anonymous", false),
    ("", false),
];

/// The first name that is judged otherwise.
fn wrong_name(alloc: Global) -> Result<Option<usize>, SettingsFault> {
    let server = server_of(alloc)?;
    let mut place = 0;
    for (name, may) in &NAMES {
        if may_import(&server.settings, name) != *may {
            return Ok(Some(place));
        }
        place = place.saturating_add(1usize);
    }
    Ok(None)
}

#[test]
fn users_are_judged(rt: HostRuntime) {
    let wrong = wrong_name(rt.alloc());
    assert!(rt; wrong == Ok(None), "{wrong:?}");
}
