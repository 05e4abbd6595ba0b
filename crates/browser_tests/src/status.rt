//! How the server does, and how its last calls of peers ended.

use crate::portions::empty_archive;
use archive::{Archive, StoreFault};
use std::alloc::Global;
use std::test::Fail;
use ua_settings::Settings;
use web_connection::{WebConnection, WebStep};
use web_page::{CallCause, CallEnd, LastCalls, Overview};

/// Settings that call three peers.
const SETTINGS: &str = "[archive]\nid = '12345678-9abc-def0-1234-56789abcdef0'\nreplica = 7\n\
     [server]\nlisten = ''\nurl = ''\napplication = ''\nnamespace = ''\nanonymous = true\n\
     [[peer]]\naddress = '10.0.0.2:4841'\nevery = 10\n\
     [[peer]]\naddress = \"\\u001F\\\"\\\\\\n\u{e9}\\u007F\"\nevery = 10\n\
     [[peer]]\naddress = '[::1]:4841'\nevery = 10\n";

/// 2026-03-01T12:00:00Z.
const NOON: i64 = 134_168_400_000_000_000;

/// What is asked.
const REQUEST: &str = "GET /status.json HTTP/1.1\r\nHost: a\r\n\r\n";

/// What the status begins by, behind the head.
const BEGIN: &str =
    "\r\n\r\n{\"archive\":\"12345678-9abc-def0-1234-56789abcdef0\",\"replica\":7,\"connections\":12,\"records\":{},\"peers\":[";

/// A call that came to its end.
const DONE: CallEnd = CallEnd {
    at: NOON,
    cause: None,
    learned: 3,
    sent: 4_294_967_295,
};

/// One whose connection ended before.
const CUT: CallEnd = CallEnd {
    at: NOON,
    cause: Some(CallCause::Connection(1)),
    learned: 0,
    sent: 2,
};

/// One whose exchange was ended.
const ENDED: CallEnd = CallEnd {
    at: -1,
    cause: Some(CallCause::Exchange(4_294_967_295)),
    learned: 0,
    sent: 0,
};

/// The peers, none of which was called.
const NEVER: &str =
    "{\"address\":\"10.0.0.2:4841\",\"last\":null},{\"address\":\"\\u001f\\\"\\\\\\u000a\u{e9}\u{7f}\",\"last\":null},{\"address\":\"[::1]:4841\",\"last\":null}]}\n";

/// The peers, of which the second was exchanged with.
const SECOND: &str =
    "{\"address\":\"10.0.0.2:4841\",\"last\":null},{\"address\":\"\\u001f\\\"\\\\\\u000a\u{e9}\u{7f}\",\"last\":{\"ended\":\"2026-03-01T12:00:00.0000000Z\",\"fault\":null,\"learned\":3,\"sent\":4294967295}},{\"address\":\"[::1]:4841\",\"last\":null}]}\n";

/// The peers, of which the first and the last were called, and all wasn't exchanged.
const FAILED: &str =
    "{\"address\":\"10.0.0.2:4841\",\"last\":{\"ended\":\"2026-03-01T12:00:00.0000000Z\",\"fault\":\"connection ended (1)\",\"learned\":0,\"sent\":2}},{\"address\":\"\\u001f\\\"\\\\\\u000a\u{e9}\u{7f}\",\"last\":null},{\"address\":\"[::1]:4841\",\"last\":{\"ended\":\"@-1\",\"fault\":\"exchange ended (4294967295)\",\"learned\":0,\"sent\":0}}]}\n";

/// What the calls of the peers came to, and what is told of them. The last of each peer counts; there is no fourth.
static ROWS: [([Option<CallEnd>; 4], &str); 4] = [
    ([None, None, None, None], NEVER),
    ([None, None, None, Some(DONE)], NEVER),
    ([None, Some(DONE), None, None], SECOND),
    ([Some(CUT), None, Some(ENDED), None], FAILED),
];

/// Whether the request is answered by one step; appends its answer.
fn put_answer<A: Archive>(
    alloc: Global,
    archive: &mut A,
    overview: Overview<'_>,
    out: &mut Vec<u8>,
) -> bool {
    let mut connection = WebConnection::new(alloc);
    connection.feed(REQUEST.as_bytes()).is_ok()
        && connection.answer(overview, archive, out) == Ok(WebStep::Ended)
}

/// Whether a text ends by what a row says.
fn is_status_of(text: &[u8], peers: &str) -> bool {
    match text.strip_suffix(peers.as_bytes()) {
        Some(before) => before.ends_with(BEGIN.as_bytes()),
        None => false,
    }
}

/// Whether the request is answered by what a row says.
fn is_answered<A: Archive>(
    alloc: Global,
    archive: &mut A,
    overview: Overview<'_>,
    peers: &str,
) -> bool {
    let mut out = Vec::new(alloc);
    put_answer(alloc, archive, overview, &mut out) && is_status_of(out.as_slice(), peers)
}

/// The same over an archive that was made.
fn is_answered_over<A: Archive + Drop>(
    alloc: Global,
    made: Result<A, StoreFault>,
    overview: Overview<'_>,
    peers: &str,
) -> bool {
    match made {
        Ok(mut archive) => is_answered(alloc, &mut archive, overview, peers),
        Err(_) => false,
    }
}

/// Whether this is told of these calls, over an archive that holds nothing.
fn is_told_of(alloc: Global, settings: &Settings, calls: &LastCalls, peers: &str) -> bool {
    let overview = Overview {
        settings,
        calls,
        connections: 12,
        now: NOON,
    };
    is_answered_over(alloc, empty_archive(alloc), overview, peers)
}

/// The calls of all the peers ended so, and others before them.
fn note_all(calls: &mut LastCalls, ends: &[Option<CallEnd>]) {
    for (callee, end) in ends.iter().enumerate() {
        if let Some(end) = end {
            calls.note(callee, ENDED);
            calls.note(callee, *end);
        }
    }
}

/// Whether this is told behind these calls of the peers of these settings.
fn is_told_by(alloc: Global, settings: &Settings, ends: &[Option<CallEnd>], peers: &str) -> bool {
    match LastCalls::new(alloc, settings.peers().as_slice()) {
        Ok(mut calls) => {
            note_all(&mut calls, ends);
            is_told_of(alloc, settings, &calls, peers)
        }
        Err(_) => false,
    }
}

/// The same of the settings that call three peers.
fn is_told(alloc: Global, ends: &[Option<CallEnd>], peers: &str) -> bool {
    match Settings::read(alloc, SETTINGS) {
        Ok(settings) => is_told_by(alloc, &settings, ends, peers),
        Err(_) => false,
    }
}

#[test]
fn the_last_calls_are_told(rt: HostRuntime) -> Result<(), Fail> {
    for (ends, peers) in &ROWS {
        assert!(rt; is_told(rt.alloc(), ends, peers), "{peers}");
    }
    Ok(())
}
