//! The front page, over a plant of five variables.

use archive::{Archive, LearnFault, ListArchive, StoreFault};
use records::{Moment, Record};
use stamp::ReplicaNo;
use std::alloc::{AllocError, Global};
use std::test::Fail;
use ua_binary::{Listing, NodeId, Text};
use ua_settings::Settings;
use ua_variant::{Array, DataValue, HistoryUpdateType, Scalar, Variant};
use uuid::Uuid;
use web_page::{CallCause, CallEnd, LastCalls, Overview, put_front};

/// Settings with four variables in two folders, and a fifth in none.
const SETTINGS: &str = "[archive]\nid = '12345678-9abc-def0-1234-56789abcdef0'\nreplica = 7\n\
     [server]\nlisten = ''\nurl = ''\napplication = ''\nnamespace = ''\nanonymous = false\n\
     [[folder]]\nid = 'f'\nname = 'Hall <1>'\n\
     [[folder]]\nid = 'g'\nname = 'Yard & gate'\n\
     [[variable]]\nid = 'a list'\nname = 'list'\ntype = 'Double'\narray = true\nfolder = 'g'\n\
     [[variable]]\nid = 'place'\nname = 'place'\ntype = 'Int32'\nfolder = 'g'\n\
     [[variable]]\nid = 'note'\nname = \"the \\\"note\\\"\"\ntype = 'String'\nfolder = 'f'\n\
     [[variable]]\nid = 'never\"/&'\nname = \"it's <new>\"\ntype = 'Int32'\nfolder = 'f'\n\
     [[variable]]\nid = 'door'\nname = 'door'\ntype = 'Boolean'\n";

/// 2026-03-01T12:00:00Z.
const NOON: i64 = 134_168_400_000_000_000;

/// A second.
const SECOND: i64 = 10_000_000;

/// What the page begins by.
const BEGIN: &str = "<!DOCTYPE html>\n<html lang=\"en\">\n<head>\n<meta charset=\"utf-8\">\n\
     <meta http-equiv=\"Content-Security-Policy\" content=\"default-src 'none'; style-src 'unsafe-inline'\">\n\
     <meta name=\"viewport\" content=\"width=device-width, initial-scale=1\">\n\
     <title>Archive 12345678-9abc-def0-1234-56789abcdef0, replica 7</title>\n";

/// How the page looks.
const STYLE: &str = "<style>\n\
     :root{color-scheme:light dark}\n\
     body{margin:2rem;font-family:system-ui,sans-serif}\n\
     table{border-collapse:collapse;font-variant-numeric:tabular-nums}\n\
     th,td{padding:.25rem .75rem;text-align:left;vertical-align:top}\n\
     th{position:sticky;top:0;background:Canvas;box-shadow:0 1px}\n\
     td{white-space:pre-wrap;overflow-wrap:anywhere}\n\
     td:nth-last-child(-n+2){white-space:nowrap}\n\
     tr:nth-child(even) td{background:#8882}\n\
     </style>\n";

/// What stands between the look of the page and how many connections there are.
const HEADING: &str =
    "</head>\n<body>\n<h1>Archive 12345678-9abc-def0-1234-56789abcdef0, replica 7</h1>\n";

/// What stands between those and the rows.
const COLUMNS: &str = "<table>\n<thead>\n\
     <tr><th scope=\"col\">folder</th><th scope=\"col\">name</th><th scope=\"col\">id</th>\
     <th scope=\"col\">type</th><th scope=\"col\">value</th><th scope=\"col\">status</th>\
     <th scope=\"col\">time</th><th scope=\"col\">age</th></tr>\n</thead>\n<tbody>\n";

/// The row of the variable in no folder, with its latest value, the later of two, up to its age.
const DOOR: &str =
    "<tr><td></td><td>door</td><td><a href=\"/history?node=ns%3D1%3Bs%3Ddoor\">ns=1;s=door</a></td>\
     <td>Boolean</td><td>true</td><td>Good</td><td>2026-03-01T12:00:09.0000000Z</td><td>";

/// The row of the one with a long text, up to the text.
const NOTE: &str = "<tr><td>Hall &lt;1&gt;</td><td>the &quot;note&quot;</td>\
     <td><a href=\"/history?node=ns%3D1%3Bs%3Dnote\">ns=1;s=note</a></td><td>String</td><td>";

/// The row of the one without a value.
const NEVER: &str = "<tr><td>Hall &lt;1&gt;</td><td>it&#39;s &lt;new&gt;</td>\
     <td><a href=\"/history?node=ns%3D1%3Bs%3Dnever%22%2F%26\">ns=1;s=never&quot;/&amp;</a></td>\
     <td>Int32</td><td></td><td></td><td></td><td></td></tr>\n";

/// The row of the one with an array, up to its age.
const LIST: &str = "<tr><td>Yard &amp; gate</td><td>list</td>\
     <td><a href=\"/history?node=ns%3D1%3Bs%3Da+list\">ns=1;s=a list</a></td>\
     <td>Double array</td><td>[1.5,&quot;inf&quot;]</td><td>Good</td><td>2026-03-01T12:00:02.0000000Z</td><td>";

/// The row of the one whose value is of another type, which has no text, up to its age.
const PLACE: &str = "<tr><td>Yard &amp; gate</td><td>place</td>\
     <td><a href=\"/history?node=ns%3D1%3Bs%3Dplace\">ns=1;s=place</a></td>\
     <td>Int32</td><td>[NodeId]</td><td>Good</td><td>2026-03-01T12:00:02.0000000Z</td><td>";

/// What stands behind an age.
const ROW_END: &str = "</td></tr>\n";

/// What the page ends by.
const END: &str = "</tbody>\n</table>\n</body>\n</html>\n";

/// A value that is written.
#[derive(Clone, Copy)]
enum Given {
    Truth(bool),
    /// So many characters of two bytes each.
    Long(usize),
    Many,
    Place,
}

/// The number of an update, its node, seconds behind noon, and what is written.
type Row = (u64, &'static str, i64, Given);

/// Updates, one after the other.
static ROWS: [Row; 5] = [
    (1, "door", 9, Given::Truth(true)),
    (2, "door", 8, Given::Truth(false)),
    (3, "note", 1, Given::Long(1000)),
    (4, "a list", 2, Given::Many),
    (5, "place", 2, Given::Place),
];

/// A text of so many characters of two bytes each.
fn long_text(alloc: Global, count: usize) -> Result<Variant, StoreFault> {
    let mut text = String::new(alloc);
    for _ in 0..count {
        text.push_str("\u{e9}")?;
    }
    Ok(Variant::Scalar(Scalar::String(Some(Text::new(text)))))
}

/// Two levels, of which one is infinite.
fn levels(alloc: Global) -> Result<Variant, StoreFault> {
    let half = 0x3FF8_0000_0000_0000_u64.to_le_bytes();
    let infinite = 0x7FF0_0000_0000_0000_u64.to_le_bytes();
    let levels = Vec::from_slice(alloc, &[half, infinite])?;
    Ok(Variant::Array(Array::Double(Listing::of(levels))))
}

/// A value that is written.
fn variant_of(alloc: Global, given: Given) -> Result<Variant, StoreFault> {
    match given {
        Given::Truth(truth) => Ok(Variant::Scalar(Scalar::Boolean(truth))),
        Given::Long(count) => long_text(alloc, count),
        Given::Many => levels(alloc),
        Given::Place => Ok(Variant::Scalar(Scalar::NodeId(NodeId::Numeric(0, 85)))),
    }
}

/// A value as it is written, with no status and no times.
fn value_of(value: Variant) -> DataValue {
    DataValue {
        value: Some(value),
        status: None,
        source_time: None,
        source_pico: None,
        server_time: None,
        server_pico: None,
    }
}

/// The record of an update, by a replica, of a node's name, a user and a value.
fn record_by(origin: ReplicaNo, row: &Row, name: Text, user: Text, value: Variant) -> Record {
    let (number, _, second, _) = *row;
    Record {
        origin,
        number,
        tick: NOON.saturating_add(SECOND.saturating_mul(60i64.saturating_add_unsigned(number))),
        node: NodeId::Named(1, name),
        time: Moment::at(NOON.saturating_add(SECOND.saturating_mul(second))),
        asked: HistoryUpdateType::Insert,
        user,
        value: value_of(value),
    }
}

/// The record of an update.
fn record_of(alloc: Global, row: &Row) -> Result<Record, StoreFault> {
    let Some(origin) = ReplicaNo::new(7) else {
        return Err(StoreFault::WrongReplica);
    };
    let name = Text::from_str(alloc, row.1)?;
    let user = Text::from_str(alloc, "ann")?;
    let value = variant_of(alloc, row.3)?;
    Ok(record_by(origin, row, name, user, value))
}

/// What an archive answers to a record.
fn learn_record<A: Archive>(archive: &mut A, record: &Record) -> Result<bool, LearnFault> {
    if record.is_lawful() {
        archive.learn(record)
    } else {
        Err(LearnFault::Store(StoreFault::Refused))
    }
}

/// What an archive answers to an update.
fn learn<A: Archive>(alloc: Global, archive: &mut A, row: &Row) -> Result<bool, LearnFault> {
    match record_of(alloc, row) {
        Ok(record) => learn_record(archive, &record),
        Err(fault) => Err(LearnFault::Store(fault)),
    }
}

/// An archive takes all of these updates.
fn learn_all<A: Archive>(alloc: Global, archive: &mut A, rows: &[Row]) -> Result<(), LearnFault> {
    for row in rows {
        learn(alloc, archive, row)?;
    }
    Ok(())
}

/// An archive that holds nothing.
fn empty_archive(alloc: Global) -> Result<ListArchive, StoreFault> {
    match ReplicaNo::new(7) {
        Some(own) => Ok(ListArchive::new(alloc, Uuid::nil(), own)),
        None => Err(StoreFault::WrongReplica),
    }
}

/// Appends pieces of a page.
fn put_all(text: &mut Vec<u8>, pieces: &[&str]) -> Result<(), AllocError> {
    for piece in pieces {
        text.extend_from_slice(piece.as_bytes())?;
    }
    Ok(())
}

/// Appends what the long text's cell holds, and what stands behind it, up to its age.
fn put_long(text: &mut Vec<u8>) -> Result<(), AllocError> {
    for _ in 0..200 {
        text.extend_from_slice("\u{e9}".as_bytes())?;
    }
    text.extend_from_slice(b"...</td><td>Good</td><td>2026-03-01T12:00:01.0000000Z</td><td>")
}

/// Appends the page above its rows, with these words for how many connections there are.
fn put_begin(text: &mut Vec<u8>, connections: &str) -> Result<(), AllocError> {
    put_all(text, &[BEGIN, STYLE, HEADING, connections, COLUMNS])
}

/// How many seconds behind noon a page is asked for, and how old the values of the door, the note and the list are then.
type Aged = (i64, &'static str, &'static str, &'static str);

static AGES: [Aged; 8] = [
    (9, "0 s", "8 s", "7 s"),
    (8, "", "7 s", "6 s"),
    (61, "52 s", "1 min", "59 s"),
    (129, "2 min", "2 min", "2 min"),
    (3602, "59 min", "1 h", "1 h"),
    (7208, "1 h", "2 h", "2 h"),
    (86_402, "23 h", "1 d", "1 d"),
    (31_536_009, "365 d", "365 d", "365 d"),
];

/// Appends the rows with these ages, and the end of the page.
fn put_rows(text: &mut Vec<u8>, aged: &Aged) -> Result<(), AllocError> {
    let (_, door, note, list) = *aged;
    put_all(text, &[DOOR, door, ROW_END, NOTE])?;
    put_long(text)?;
    put_all(text, &[note, ROW_END, NEVER, LIST, list, ROW_END])?;
    put_all(text, &[PLACE, list, ROW_END, END])
}

/// Appends the page with these ages.
fn put_wanted(text: &mut Vec<u8>, aged: &Aged) -> Result<(), AllocError> {
    put_begin(text, "<p>3 connections</p>\n")?;
    put_rows(text, aged)
}

/// Whether this is the page of an archive.
fn is_put<A: Archive>(alloc: Global, archive: &mut A, overview: Overview<'_>, page: &[u8]) -> bool {
    let mut out = Vec::new(alloc);
    let put = put_front(alloc, archive, overview, &mut out);
    put.is_ok() && out.as_slice() == page
}

/// Whether it is that of an archive that was made, and then takes these updates.
fn is_put_over<A: Archive + Drop>(
    alloc: Global,
    made: Result<A, StoreFault>,
    rows: &[Row],
    overview: Overview<'_>,
    page: &[u8],
) -> bool {
    match made {
        Ok(mut archive) => {
            learn_all(alloc, &mut archive, rows).is_ok()
                && is_put(alloc, &mut archive, overview, page)
        }
        Err(_) => false,
    }
}

/// The same of a list.
fn is_told(alloc: Global, rows: &[Row], overview: Overview<'_>, page: &[u8]) -> bool {
    is_put_over(alloc, empty_archive(alloc), rows, overview, page)
}

/// Whether the page is right by these settings, where no peer is called, there are three connections, and it is asked for at this time.
fn is_right_by(alloc: Global, settings: &Settings, aged: &Aged) -> bool {
    let overview = Overview {
        settings,
        calls: &LastCalls::none(alloc),
        connections: 3,
        now: NOON.saturating_add(SECOND.saturating_mul(aged.0)),
    };
    let mut page = Vec::new(alloc);
    put_wanted(&mut page, aged).is_ok() && is_told(alloc, &ROWS, overview, page.as_slice())
}

/// Whether it is by the plant's settings.
fn is_right(alloc: Global, aged: &Aged) -> bool {
    match Settings::read(alloc, SETTINGS) {
        Ok(settings) => is_right_by(alloc, &settings, aged),
        Err(_) => false,
    }
}

#[test]
fn a_plants_page_is_put(rt: HostRuntime) -> Result<(), Fail> {
    for aged in &AGES {
        assert!(rt; is_right(rt.alloc(), aged), "{}", aged.0);
    }
    Ok(())
}

/// Settings with no variable and four peers.
const PEERS: &str = "[archive]\nid = '12345678-9abc-def0-1234-56789abcdef0'\nreplica = 7\n\
     [server]\nlisten = ''\nurl = ''\napplication = ''\nnamespace = ''\nanonymous = false\n\
     [[peer]]\naddress = '10.0.0.2:4841'\nevery = 10\n\
     [[peer]]\naddress = 'a<b>'\nevery = 10\n\
     [[peer]]\naddress = 'c'\nevery = 10\n\
     [[peer]]\naddress = 'd'\nevery = 10\n";

/// What is told of the peers, below the variables.
const CALLS: &str = "</tbody>\n</table>\n<h2>Peers</h2>\n<table>\n<thead>\n\
     <tr><th scope=\"col\">peer</th><th scope=\"col\">last call</th>\
     <th scope=\"col\">how it ended</th><th scope=\"col\">learned</th>\
     <th scope=\"col\">sent</th></tr>\n</thead>\n<tbody>\n\
     <tr><td>10.0.0.2:4841</td><td></td><td></td><td></td><td></td></tr>\n\
     <tr><td>a&lt;b&gt;</td><td>2026-03-01T12:00:00.0000000Z</td><td>all was exchanged</td>\
     <td>3</td><td>4294967295</td></tr>\n\
     <tr><td>c</td><td>2026-03-01T12:00:01.0000000Z</td><td>connection ended (1)</td>\
     <td>0</td><td>0</td></tr>\n\
     <tr><td>d</td><td>@-1</td><td>exchange ended (10)</td><td>12</td><td>0</td></tr>\n";

/// How the calls of the peers but the first ended: by which number, and how.
static ENDS: [(usize, CallEnd); 4] = [
    (
        3,
        CallEnd {
            at: -1,
            cause: Some(CallCause::Exchange(10)),
            learned: 12,
            sent: 0,
        },
    ),
    (
        2,
        CallEnd {
            at: NOON + SECOND,
            cause: Some(CallCause::Connection(1)),
            learned: 0,
            sent: 0,
        },
    ),
    (
        1,
        CallEnd {
            at: NOON,
            cause: None,
            learned: 3,
            sent: 4_294_967_295,
        },
    ),
    (
        4,
        CallEnd {
            at: NOON,
            cause: None,
            learned: 1,
            sent: 1,
        },
    ),
];

/// Appends the page of the peers.
fn put_calls(text: &mut Vec<u8>) -> Result<(), AllocError> {
    put_begin(text, "<p>1 connection</p>\n")?;
    put_all(text, &[CALLS, END])
}

/// Whether the page of an archive that holds nothing tells these calls.
fn are_put(alloc: Global, settings: &Settings, calls: &LastCalls) -> bool {
    let overview = Overview {
        settings,
        calls,
        connections: 1,
        now: NOON,
    };
    let mut page = Vec::new(alloc);
    put_calls(&mut page).is_ok() && is_told(alloc, &[], overview, page.as_slice())
}

/// The calls of the peers ended.
fn note_all(calls: &mut LastCalls) {
    for (callee, end) in &ENDS {
        calls.note(*callee, *end);
    }
}

/// Whether the calls that these settings ask for are told.
fn are_called_by(alloc: Global, settings: &Settings) -> bool {
    match LastCalls::new(alloc, settings.peers().as_slice()) {
        Ok(mut calls) => {
            note_all(&mut calls);
            are_put(alloc, settings, &calls)
        }
        Err(_) => false,
    }
}

/// Whether the last calls of peers are told.
fn are_called(alloc: Global) -> bool {
    match Settings::read(alloc, PEERS) {
        Ok(settings) => are_called_by(alloc, &settings),
        Err(_) => false,
    }
}

#[test]
fn the_last_calls_are_put(rt: HostRuntime) -> Result<(), Fail> {
    assert!(rt; are_called(rt.alloc()));
    Ok(())
}
