//! Connections of clients: rows in hex digits, and in pieces, over lists in memory and over SQLite.

use crate::clients::CLIENTS;
use crate::rows::{ROWS, SESSION};
use archive::{Archive, ListArchive, StoreFault};
use records::read_record;
use server_rows::ends::{Narrow, Slow};
use server_rows::plant::{archive_of, clock, plant};
use server_rows::streams::{
    ACK, ANSWER, BEGIN, BEGUN, HELLO, OPEN, OPENED, REQUEST, bytes_of, is_joined,
};
use sql_archive::SqlArchive;
use stamp::ReplicaNo;
use std::alloc::Global;
use std::io;
use std::io::{Read, Write};
use std::test::Fail;
use ua_server::{
    Clock, Counted, HexFault, ServeFault, Served, Server, SystemClock, answer_hex,
    answers_go_item_by_item, chunks_are_counted, dump, serve,
};
use ua_settings::Settings;
use uuid::Uuid;

/// Is interrupted before each byte that it gives or takes.
#[derive(Drop)]
struct Halting<T> {
    inner: T,
    halts: bool,
}

impl<T> Halting<T> {
    fn halt(&mut self) -> io::Result<()> {
        self.halts = !self.halts;
        if self.halts {
            return Err(io::Error::from(io::ErrorKind::Interrupted));
        }
        Ok(())
    }
}

impl Read for Halting<Slow<'_>> {
    fn read(&mut self, buf: &mut [u8]) -> io::Result<usize> {
        self.halt()?;
        self.inner.read(buf)
    }
}

impl Write for Halting<Narrow> {
    fn write(&mut self, buf: &[u8]) -> io::Result<usize> {
        self.halt()?;
        self.inner.write(buf)
    }

    fn flush(&mut self) -> io::Result<()> {
        Ok(())
    }
}

/// The parts, one after the other.
fn joined(alloc: Global, parts: &[&str]) -> Result<String, Fail> {
    let mut text = String::new(alloc);
    for part in parts {
        text.push_str(part)?;
    }
    Ok(text)
}

/// A server without settings, over an archive that holds nothing; none for want of memory.
fn bare_server(alloc: Global) -> Option<Server<ListArchive>> {
    let settings = Settings::bare(alloc).ok()?;
    let archive = archive_of(alloc, &settings);
    Some(Server::new(alloc, settings, archive))
}

/// The answer of a server.
fn answer_over<A: Archive>(
    server: &mut Server<A>,
    text: &str,
    out: &mut Vec<u8>,
) -> Result<Served, HexFault> {
    answer_hex(server, text, out, &mut clock())
}

/// The answer of a server without settings.
fn answer(alloc: Global, text: &str, out: &mut Vec<u8>) -> Result<Served, HexFault> {
    match bare_server(alloc) {
        Some(mut server) => answer_over(&mut server, text, out),
        None => Err(HexFault::Serve(ServeFault::OutOfMemory)),
    }
}

/// A server serves a client.
fn serve_over<A: Archive, R: Read, W: Write>(
    server: &mut Server<A>,
    reader: &mut Counted<R>,
    writer: &mut Counted<W>,
) -> Result<Served, ServeFault> {
    serve(reader, writer, server, &mut clock())
}

/// A server without settings serves a client.
fn serve_bare<R: Read, W: Write>(
    alloc: Global,
    reader: &mut Counted<R>,
    writer: &mut Counted<W>,
) -> Result<Served, ServeFault> {
    match bare_server(alloc) {
        Some(mut server) => serve_over(&mut server, reader, writer),
        None => Err(ServeFault::OutOfMemory),
    }
}

/// A connection in hex digits is answered so.
fn is_answered(alloc: Global, text: &str, want: &[&str], ending: Served) -> Result<bool, Fail> {
    let mut out = Vec::new(alloc);
    let served = answer(alloc, text, &mut out)?;
    Ok(served == ending && is_joined(out.as_slice(), want))
}

/// The same of a connection in parts.
fn are_answered(
    alloc: Global,
    parts: &[&str],
    want: &[&str],
    ending: Served,
) -> Result<bool, Fail> {
    let text = joined(alloc, parts)?;
    is_answered(alloc, text.as_str(), want, ending)
}

#[test]
fn answers_in_hex(rt: HostRuntime) -> Result<(), Fail> {
    for (what, input, want, ending) in ROWS {
        assert!(rt; are_answered(rt.alloc(), input, want, ending)?, "{what}");
    }
    Ok(())
}

/// What a client writes that begins a session and asks this.
fn written_by(alloc: Global, rows: &[(&str, &str, &str)]) -> Result<Vec<u8>, Fail> {
    let mut input = bytes_of(alloc, &[HELLO, OPEN, BEGIN[0], BEGIN[1]])?;
    for (_, request, _) in rows {
        let bytes = bytes_of(alloc, &[request])?;
        input.extend_from_slice(bytes.as_slice())?;
    }
    Ok(input)
}

/// What a plant writes to a client that writes this.
fn served_to<A: Archive>(
    alloc: Global,
    server: &mut Server<A>,
    input: &[u8],
) -> Result<Vec<u8>, Fail> {
    let mut reader = Counted::new(input);
    let mut writer = Counted::new(Vec::new(alloc));
    serve(&mut reader, &mut writer, server, &mut clock())?;
    Ok(writer.into_inner())
}

/// What was written behind these parts, where it begins with them.
fn behind<'a>(alloc: Global, written: &'a [u8], parts: &[&str]) -> Result<Option<&'a [u8]>, Fail> {
    let front = bytes_of(alloc, parts)?;
    Ok(written.strip_prefix(front.as_slice()))
}

/// The first row, by its name, whose answer isn't the next one that was written; what is behind all rows is named so.
fn first_other<'a>(
    alloc: Global,
    written: &[u8],
    rows: &[(&'a str, &str, &str)],
) -> Result<Option<&'a str>, Fail> {
    let begun = behind(alloc, written, &[ACK, OPENED, BEGUN[0], BEGUN[1]])?;
    let mut rest = begun.ok_or("a session")?;
    for (name, _, answer) in rows {
        match behind(alloc, rest, &[answer])? {
            Some(after) => rest = after,
            None => return Ok(Some(name)),
        }
    }
    Ok(if rest.is_empty() {
        None
    } else {
        Some("the end")
    })
}

/// The same of what a server writes to a client that asks these.
fn first_other_of<'a, A: Archive>(
    alloc: Global,
    server: &mut Server<A>,
    rows: &[(&'a str, &str, &str)],
) -> Result<Option<&'a str>, Fail> {
    let input = written_by(alloc, rows)?;
    let written = served_to(alloc, server, input.as_slice())?;
    first_other(alloc, written.as_slice(), rows)
}

/// The same of a plant over an archive.
fn first_other_over<'a, A: Archive + Drop>(
    alloc: Global,
    settings: Settings,
    archive: A,
    rows: &[(&'a str, &str, &str)],
) -> Result<Option<&'a str>, Fail> {
    let mut server = Server::new(alloc, settings, archive);
    first_other_of(alloc, &mut server, rows)
}

/// The same of a plant whose archive is a list.
fn first_other_of_a_plant<'a>(
    alloc: Global,
    rows: &[(&'a str, &str, &str)],
) -> Result<Option<&'a str>, Fail> {
    let settings = plant(alloc)?;
    let archive = archive_of(alloc, &settings);
    first_other_over(alloc, settings, archive, rows)
}

#[test]
fn serves_clients_of_a_plant(rt: HostRuntime) -> Result<(), Fail> {
    for (client, rows) in CLIENTS {
        assert_eq!(rt; first_other_of_a_plant(rt.alloc(), rows)?, None, "{client}");
    }
    Ok(())
}

/// The same of a plant whose archive was opened.
fn first_other_where_opened<'a, A: Archive + Drop>(
    alloc: Global,
    settings: Settings,
    opened: Result<A, StoreFault>,
    rows: &[(&'a str, &str, &str)],
) -> Result<Option<&'a str>, Fail> {
    match opened {
        Ok(archive) => first_other_over(alloc, settings, archive, rows),
        Err(_) => Err(Fail::from("not opened")),
    }
}

/// The same of a plant whose archive is in SQLite.
fn first_other_over_a_store<'a>(
    alloc: Global,
    rows: &[(&'a str, &str, &str)],
) -> Result<Option<&'a str>, Fail> {
    let settings = plant(alloc)?;
    let opened = SqlArchive::open_in_memory(alloc, settings.archive(), settings.replica());
    first_other_where_opened(alloc, settings, opened, rows)
}

#[test]
fn serves_clients_over_a_store(rt: HostRuntime) -> Result<(), Fail> {
    for (client, rows) in CLIENTS {
        assert_eq!(rt;
            first_other_over_a_store(rt.alloc(), rows)?,
            None,
            "{client}"
        );
    }
    Ok(())
}

/// The record of an insert of 7 at 10.
const INSERT_7: &str =
    "02010100000000000000640000000000000003010001000000540A0000000000000000000103000000616E6E010607000000";

/// Whether an archive learns the record that these bytes spell.
fn is_learned<A: Archive>(alloc: Global, archive: &mut A, bytes: &[u8]) -> Result<bool, Fail> {
    let record = read_record(alloc, bytes)?;
    Ok(record.is_lawful() && archive.learn(&record) == Ok(true))
}

/// What a dump writes of an archive.
fn dump_of<A: Archive>(alloc: Global, archive: &mut A) -> Result<Vec<u8>, Fail> {
    let mut output = Counted::new(Vec::new(alloc));
    match dump(alloc, archive, &mut output) {
        Ok(()) => Ok(output.into_inner()),
        Err(_) => Err(Fail::from("not dumped")),
    }
}

/// What a dump writes of an archive, once it learned the record with these digits.
fn dump_behind<A: Archive>(alloc: Global, archive: &mut A, digits: &str) -> Result<Vec<u8>, Fail> {
    let bytes = bytes_of(alloc, &[digits])?;
    if !is_learned(alloc, archive, bytes.as_slice())? {
        return Err(Fail::from("not learned"));
    }
    dump_of(alloc, archive)
}

/// The same of an archive that was opened.
fn dump_of_one<A: Archive + Drop>(
    alloc: Global,
    opened: Result<A, StoreFault>,
    digits: &str,
) -> Result<Vec<u8>, Fail> {
    let mut archive = opened?;
    dump_behind(alloc, &mut archive, digits)
}

/// What a dump writes of an archive in SQLite that learned the record with these digits.
fn dumped(alloc: Global, digits: &str) -> Result<Vec<u8>, Fail> {
    let one = ReplicaNo::new(1).ok_or("a replica")?;
    dump_of_one(
        alloc,
        SqlArchive::open_in_memory(alloc, Uuid::nil(), one),
        digits,
    )
}

/// Whether a dump writes the line of that record.
fn is_dumped(alloc: Global) -> Result<bool, Fail> {
    let line = joined(alloc, &["1 1 100 ", INSERT_7, "\n"])?;
    let written = dumped(alloc, INSERT_7)?;
    Ok(written.as_slice() == line.as_bytes())
}

#[test]
fn dumps_a_store(rt: HostRuntime) -> Result<(), Fail> {
    assert!(rt; is_dumped(rt.alloc())?);
    Ok(())
}

/// How a connection ends, and how many calls of its reader and of its writer failed.
type Ended = (Result<Served, ServeFault>, u64, u64);

/// How a connection to a server without settings ends.
fn ended<R: Read, W: Write>(
    alloc: Global,
    reader: &mut Counted<R>,
    writer: &mut Counted<W>,
) -> Ended {
    let result = serve_bare(alloc, reader, writer);
    (result, reader.faults(), writer.faults())
}

/// How a connection ends that sends this, and what is written to it.
fn served<R: Read + Drop>(alloc: Global, sent: R) -> (Ended, Vec<u8>) {
    let mut reader = Counted::new(sent);
    let mut writer = Counted::new(Vec::new(alloc));
    let end = ended(alloc, &mut reader, &mut writer);
    (end, writer.into_inner())
}

/// The connection is served so from pieces of this size, with no fault; the reader fails at its end where it is told to.
fn is_served(alloc: Global, bytes: &[u8], size: usize, fails: bool, want: &[u8]) -> bool {
    let ending: Ended = if fails {
        (Err(ServeFault::Read), 1, 0)
    } else {
        (Ok(Served::EndOfInput), 0, 0)
    };
    let (end, wrote) = served(alloc, Slow { bytes, size, fails });
    end == ending && wrote.as_slice() == want
}

/// How a connection ends that takes so many bytes, and which it takes.
fn served_narrow(alloc: Global, bytes: &[u8], room: usize) -> (Ended, Vec<u8>) {
    let mut reader = Counted::new(bytes);
    let mut writer = Counted::new(Narrow {
        bytes: Vec::new(alloc),
        room,
    });
    let end = ended(alloc, &mut reader, &mut writer);
    (end, writer.into_inner().bytes)
}

/// A writer that takes so many bytes has just these, and its failed call is counted.
fn is_written(alloc: Global, bytes: &[u8], room: usize, want: &[u8]) -> bool {
    let ending: Ended = if room < want.len() {
        (Err(ServeFault::Write), 0, 1)
    } else {
        (Ok(Served::EndOfInput), 0, 0)
    };
    let (end, wrote) = served_narrow(alloc, bytes, room);
    end == ending && Some(wrote.as_slice()) == want.get(..room.min(want.len()))
}

/// How many bytes answer a front of a Hello, an opening and a message.
fn answered_of(front: usize) -> usize {
    match front {
        0..56 => 0,
        56..188 => 28,
        188..243 => 163,
        _ => 215,
    }
}

/// The connection of a Hello, an opening and a message, and its answer.
fn connection(alloc: Global) -> Result<(Vec<u8>, Vec<u8>), Fail> {
    let input = bytes_of(alloc, &[HELLO, OPEN, REQUEST])?;
    let want = bytes_of(alloc, &[ACK, OPENED, ANSWER])?;
    Ok((input, want))
}

/// The first size of pieces in which a connection is served otherwise.
fn first_other_size(alloc: Global, input: &[u8], want: &[u8]) -> Option<usize> {
    for size in 1..244 {
        if !is_served(alloc, input, size, false, want) {
            return Some(size);
        }
    }
    None
}

/// How long the connection and its answer are, and the first size of pieces in which it is served otherwise.
fn served_in_pieces(alloc: Global) -> Result<(usize, usize, Option<usize>), Fail> {
    let (input, want) = connection(alloc)?;
    let other = first_other_size(alloc, input.as_slice(), want.as_slice());
    Ok((input.len(), want.len(), other))
}

#[test]
fn serves_in_pieces(rt: HostRuntime) -> Result<(), Fail> {
    assert_eq!(rt; served_in_pieces(rt.alloc())?, (243, 215, None));
    Ok(())
}

/// Whether a front of so many bytes is served so, with a fault behind it and with none.
fn is_front_served(alloc: Global, input: &[u8], want: &[u8], count: usize) -> Result<bool, Fail> {
    let bytes = input.get(..count).ok_or("a front")?;
    let out = want.get(..answered_of(count)).ok_or("a front")?;
    Ok(is_served(alloc, bytes, 1, true, out) && is_served(alloc, bytes, 1, false, out))
}

/// The first front that is served otherwise.
fn first_other_front(alloc: Global, input: &[u8], want: &[u8]) -> Result<Option<usize>, Fail> {
    for count in 0..244 {
        if !is_front_served(alloc, input, want, count)? {
            return Ok(Some(count));
        }
    }
    Ok(None)
}

/// The same of the fronts of the connection.
fn first_other_front_of_it(alloc: Global) -> Result<Option<usize>, Fail> {
    let (input, want) = connection(alloc)?;
    first_other_front(alloc, input.as_slice(), want.as_slice())
}

#[test]
fn serves_each_front(rt: HostRuntime) -> Result<(), Fail> {
    assert_eq!(rt; first_other_front_of_it(rt.alloc())?, None);
    Ok(())
}

/// The first room in which a writer has other bytes.
fn first_other_room(alloc: Global, input: &[u8], want: &[u8]) -> Option<usize> {
    for room in 0..217 {
        if !is_written(alloc, input, room, want) {
            return Some(room);
        }
    }
    None
}

/// The same where the connection is served.
fn first_other_room_of_it(alloc: Global) -> Result<Option<usize>, Fail> {
    let (input, want) = connection(alloc)?;
    Ok(first_other_room(alloc, input.as_slice(), want.as_slice()))
}

#[test]
fn stops_where_the_writer_does(rt: HostRuntime) -> Result<(), Fail> {
    assert_eq!(rt; first_other_room_of_it(rt.alloc())?, None);
    Ok(())
}

/// How a connection ends where each call is interrupted before, and what is written to it.
fn served_halting(alloc: Global, bytes: &[u8]) -> (Ended, Vec<u8>) {
    let mut reader = Counted::new(Halting {
        inner: Slow {
            bytes,
            size: 1,
            fails: false,
        },
        halts: false,
    });
    let mut writer = Counted::new(Halting {
        inner: Narrow {
            bytes: Vec::new(alloc),
            room: 1000,
        },
        halts: false,
    });
    let end = ended(alloc, &mut reader, &mut writer);
    (end, writer.into_inner().inner.bytes)
}

/// Whether the connection is served so.
fn is_served_halting(alloc: Global) -> Result<bool, Fail> {
    let (input, want) = connection(alloc)?;
    let (end, wrote) = served_halting(alloc, input.as_slice());
    Ok(end == (Ok(Served::EndOfInput), 0, 0) && wrote.as_slice() == want.as_slice())
}

/// A call that was interrupted is tried again, and counts as no failed one.
#[test]
fn goes_on_where_it_was_interrupted(rt: HostRuntime) -> Result<(), Fail> {
    assert!(rt; is_served_halting(rt.alloc())?);
    Ok(())
}

/// A connection with so many chunks of one message, of no byte each.
fn many_chunks(alloc: Global, count: u8) -> Result<Vec<u8>, Fail> {
    let mut bytes = bytes_of(alloc, &[HELLO, OPEN])?;
    for number in 0..count {
        bytes.extend_from_slice(b"MSGC\x18\0\0\0\x01\0\0\0\x01\0\0\0")?;
        bytes.extend_from_slice(&[number.saturating_add(2), 0, 0, 0, 2, 0, 0, 0])?;
    }
    Ok(bytes)
}

/// How many chunks of one message come, what goes out, and how the connection ends.
static COUNTS: [(u8, &[&str], Served); 2] = [
    (64, &[ACK, OPENED], Served::EndOfInput),
    (
        65,
        &[ACK, OPENED, "455252461000000000008080FFFFFFFF"],
        Served::Refused(0x8080_0000),
    ),
];

/// Whether a message of so many chunks is answered so.
fn are_chunks_answered(
    alloc: Global,
    count: u8,
    want: &[&str],
    ending: Served,
) -> Result<bool, Fail> {
    let input = many_chunks(alloc, count)?;
    let text = hex::encode(alloc, input.as_slice())?;
    is_answered(alloc, text.as_str(), want, ending)
}

/// A message has 64 chunks, and not 65.
#[test]
fn bounds_a_message(rt: HostRuntime) -> Result<(), Fail> {
    for (count, want, ending) in COUNTS {
        assert!(rt;
            are_chunks_answered(rt.alloc(), count, want, ending)?,
            "{count}"
        );
    }
    Ok(())
}

/// A connection with so many chunks behind the opening, each of which gives up a message.
fn many_given_up(alloc: Global, count: u32) -> Result<Vec<u8>, Fail> {
    let mut bytes = bytes_of(alloc, &[HELLO, OPEN])?;
    for number in 0..count {
        bytes.extend_from_slice(b"MSGA\x18\0\0\0\x01\0\0\0\x01\0\0\0")?;
        bytes.extend_from_slice(&number.saturating_add(2).to_le_bytes())?;
        bytes.extend_from_slice(b"\x02\0\0\0")?;
    }
    Ok(bytes)
}

/// Whether a connection of these bytes ends so, and this goes out.
fn ends(alloc: Global, input: &[u8], want: &[u8], ending: Result<Served, ServeFault>) -> bool {
    let ((result, _, _), wrote) = served(alloc, input);
    result == ending && wrote.as_slice() == want
}

/// Whether a connection with so many chunks behind the opening ends so, and only the beginning is
/// answered.
fn is_bounded(alloc: Global, count: u32, ending: Result<Served, ServeFault>) -> Result<bool, Fail> {
    let input = many_given_up(alloc, count)?;
    let want = bytes_of(alloc, &[ACK, OPENED])?;
    Ok(ends(alloc, input.as_slice(), want.as_slice(), ending))
}

/// A connection has 1,000,000 chunks, the Hello and the opening among them, and not one more.
#[test]
fn bounds_a_connection(rt: HostRuntime) -> Result<(), Fail> {
    for (count, ending) in [
        (999_998, Ok(Served::EndOfInput)),
        (999_999, Err(ServeFault::TooLong)),
    ] {
        assert!(rt; is_bounded(rt.alloc(), count, ending)?, "{count}");
    }
    Ok(())
}

/// The requests or the answers of a session, one behind the other.
fn session_of(alloc: Global, begin: &[&str], answers: bool) -> Result<String, Fail> {
    let mut text = joined(alloc, begin)?;
    for (_, request, response) in SESSION {
        text.push_str(if answers { response } else { request })?;
    }
    Ok(text)
}

/// Whether the session is answered so.
fn is_session_served(alloc: Global) -> Result<bool, Fail> {
    let text = session_of(alloc, &[HELLO, OPEN], false)?;
    let want = session_of(alloc, &[ACK, OPENED], true)?;
    is_answered(alloc, text.as_str(), &[want.as_str()], Served::EndOfInput)
}

/// Each request of a session is answered so, behind those before it.
#[test]
fn serves_a_session(rt: HostRuntime) -> Result<(), Fail> {
    assert!(rt; is_session_served(rt.alloc())?);
    Ok(())
}

#[test]
fn numbers_its_faults(rt: HostRuntime) {
    chunks_are_counted();
    answers_go_item_by_item();
    for (at, fault) in [
        ServeFault::Read,
        ServeFault::Write,
        ServeFault::TooLong,
        ServeFault::OutOfMemory,
    ]
    .iter()
    .enumerate()
    {
        assert!(rt; fault.number() as usize == at + 1);
    }
    assert!(rt; SystemClock::new(&rt).now() >= clock().now());
}
