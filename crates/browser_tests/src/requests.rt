//! Requests of browsers, each with what it is answered.

use crate::connections::{CHUNKED, Coming, Ended, is_made, is_planted, put_made, settings_of};
use crate::portions::{empty_archive, learn_many};
use Coming::{ByBytes, Crowded, Whole};
use archive::{Archive, Failure, ScriptedArchive, StoreFault};
use stamp::ReplicaNo;
use std::alloc::Global;
use std::test::Fail;
use ua_settings::Settings;
use uuid::Uuid;
use web_connection::WebStep;

/// A request: whether users need no name, its text, by what its answer begins and ends, and how many
/// steps go on.
type Row = (bool, &'static str, &'static str, &'static str, usize);

/// Requests whose answer is a page or rows.
static ANSWERED: [Row; 12] = [
    (
        true,
        "GET / HTTP/1.1\r\nHost: a\r\n\r\n",
        "HTTP/1.1 200 OK\r\nContent-Type: text/html; charset=utf-8\r\nContent-Length: ",
        "</table>\n</body>\n</html>\n",
        0,
    ),
    (
        true,
        "HEAD / HTTP/1.1\r\nHost: a\r\n\r\n",
        "HTTP/1.1 200 OK\r\nContent-Type: text/html; charset=utf-8\r\nContent-Length: ",
        "\r\nReferrer-Policy: no-referrer\r\n\r\n",
        0,
    ),
    (
        true,
        "GET /status.json HTTP/1.1\r\nHost: a\r\n\r\n",
        "HTTP/1.1 200 OK\r\nContent-Type: application/json\r\nContent-Length: 109\r\nConnection: close\r\n",
        "\r\n\r\n{\"archive\":\"12345678-9abc-def0-1234-56789abcdef0\",\"replica\":7,\"connections\":1,\"records\":{\"7\":41},\"peers\":[]}\n",
        0,
    ),
    (
        true,
        "HEAD /status.json HTTP/1.1\r\nHost: a\r\n\r\n",
        "HTTP/1.1 200 OK\r\nContent-Type: application/json\r\nContent-Length: 109\r\nConnection: close\r\n",
        "\r\nReferrer-Policy: no-referrer\r\n\r\n",
        0,
    ),
    (
        true,
        "GET /history?node=ns%3D1%3Bs%3Dn HTTP/1.1\r\nHost: a\r\n\r\n",
        "HTTP/1.1 200 OK\r\nContent-Type: text/html; charset=utf-8\r\nTransfer-Encoding: chunked\r\nConnection: close\r\n",
        "</body>\n</html>\n\r\n0\r\n\r\n",
        6,
    ),
    (
        true,
        "GET /history?node=ns%3D1%3Bs%3Dn&changes=true HTTP/1.0\r\n\r\n",
        "HTTP/1.1 200 OK\r\nContent-Type: text/html; charset=utf-8\r\nConnection: close\r\n",
        "</body>\n</html>\n",
        6,
    ),
    (
        true,
        "HEAD /history?node=ns%3D1%3Bs%3Dn HTTP/1.1\r\nHost: a\r\n\r\n",
        "HTTP/1.1 200 OK\r\nContent-Type: text/html; charset=utf-8\r\nTransfer-Encoding: chunked\r\nConnection: close\r\n",
        "\r\nReferrer-Policy: no-referrer\r\n\r\n",
        0,
    ),
    (
        true,
        "GET /history.csv?node=ns%3D1%3Bs%3Dn HTTP/1.1\r\nHost: a\r\n\r\n",
        "HTTP/1.1 200 OK\r\nContent-Type: text/csv; charset=utf-8\r\nTransfer-Encoding: chunked\r\nConnection: close\r\n",
        ",40,Good\n\r\n0\r\n\r\n",
        6,
    ),
    (
        true,
        "GET /history.csv?node=ns%3D1%3Bs%3Dn HTTP/1.0\r\n\r\n",
        "HTTP/1.1 200 OK\r\nContent-Type: text/csv; charset=utf-8\r\nConnection: close\r\n",
        "\nns=1;s=n,2026-03-01T12:00:40.0000000Z,40,Good\n",
        6,
    ),
    (
        true,
        "HEAD /history.csv?node=ns%3D1%3Bs%3Dn HTTP/1.1\r\nHost: a\r\n\r\n",
        "HTTP/1.1 200 OK\r\nContent-Type: text/csv; charset=utf-8\r\nTransfer-Encoding: chunked\r\nConnection: close\r\n",
        "\r\nReferrer-Policy: no-referrer\r\n\r\n",
        0,
    ),
    (
        true,
        "GET /history.csv?node=ns%3D1%3Bs%3Dlist HTTP/1.1\r\nHost: a\r\n\r\n",
        "HTTP/1.1 200 OK\r\nContent-Type: text/csv; charset=utf-8\r\nTransfer-Encoding: chunked\r\nConnection: close\r\n",
        "\r\n\r\n17\r\nnode,time,value,status\n\r\n",
        1,
    ),
    (
        false,
        "GET / HTTP/1.1\r\nHost: a\r\nAuthorization: Basic YW5uOnB3\r\n\r\n",
        "HTTP/1.1 200 OK\r\nContent-Type: text/html; charset=utf-8\r\n",
        "</table>\n</body>\n</html>\n",
        0,
    ),
];

/// Requests that are refused.
static REFUSED: [Row; 19] = [
    (
        true,
        "GET /history?node=ns%3D1%3Bs%3Dm HTTP/1.1\r\nHost: a\r\n\r\n",
        "HTTP/1.1 404 Not Found\r\n",
        "\n<p>There is no variable of this node id.</p></body>\n</html>\n",
        0,
    ),
    (
        true,
        "GET /history.csv?node=i%3D85 HTTP/1.1\r\nHost: a\r\n\r\n",
        "HTTP/1.1 404 Not Found\r\n",
        "\n<p>There is no variable of this node id.</p></body>\n</html>\n",
        0,
    ),
    (
        true,
        "GET /level HTTP/1.1\r\nHost: a\r\n\r\n",
        "HTTP/1.1 404 Not Found\r\n",
        "\n<p>Expected /, /history, /history.csv or /status.json.</p></body>\n</html>\n",
        0,
    ),
    (
        true,
        "GET / HTTP/1.1\r\nHost: a\r\nAuthorization: Bearer YW5uOm5v\r\n\r\n",
        "HTTP/1.1 401 Unauthorized\r\n",
        "\n<p>Expected a name and a password by the scheme Basic.</p></body>\n</html>\n",
        0,
    ),
    (
        false,
        "HEAD / HTTP/1.1\r\nHost: a\r\n\r\n",
        "HTTP/1.1 401 Unauthorized\r\n",
        "\r\n\r\n",
        0,
    ),
    (
        true,
        "GET /history?node=ns%3D1%3Bs%3Dn&from=noon HTTP/1.1\r\nHost: a\r\n\r\n",
        "HTTP/1.1 400 Bad Request\r\n",
        "\n<p>from: expected a time, as 2026-03-01T12:00:00Z.</p></body>\n</html>\n",
        0,
    ),
    (
        true,
        "POST / HTTP/1.1\r\nHost: a\r\n\r\n",
        "HTTP/1.1 405 Method Not Allowed\r\n",
        "\n<p>Expected GET or HEAD.</p></body>\n</html>\n",
        0,
    ),
    (
        true,
        "GET /history?node=ns%3D1%3Bs%3Dlist HTTP/1.1\r\nHost: a\r\n\r\n",
        "HTTP/1.1 500 Internal Server Error\r\n",
        "\n<p>A value of this history is of a type that isn't written as text.</p></body>\n</html>\n",
        0,
    ),
    (
        true,
        "GET /history HTTP/1.1\r\nHost: a\r\n\r\n",
        "HTTP/1.1 400 Bad Request\r\n",
        "\n<p>node: expected a node id, as ns%3D1%3Bs%3DTemperature or i%3D2258.</p></body>\n</html>\n",
        0,
    ),
    (
        true,
        "GET /history.csv?node=n HTTP/1.1\r\nHost: a\r\n\r\n",
        "HTTP/1.1 400 Bad Request\r\n",
        "\n<p>node: expected a node id, as ns%3D1%3Bs%3DTemperature or i%3D2258.</p></body>\n</html>\n",
        0,
    ),
    (
        true,
        "GET /history.csv?node=ns%3D1%3Bs%3Dn&from=noon HTTP/1.1\r\nHost: a\r\n\r\n",
        "HTTP/1.1 400 Bad Request\r\n",
        "\n<p>from: expected a time, as 2026-03-01T12:00:00Z.</p></body>\n</html>\n",
        0,
    ),
    (
        true,
        "GET /history?node=ns%3D1%3Bs%3Dn&to=noon HTTP/1.1\r\nHost: a\r\n\r\n",
        "HTTP/1.1 400 Bad Request\r\n",
        "\n<p>to: expected a time, as 2026-03-01T12:00:00Z.</p></body>\n</html>\n",
        0,
    ),
    (
        true,
        "GET /history.csv?node=ns%3D1%3Bs%3Dn&changes=1 HTTP/1.1\r\nHost: a\r\n\r\n",
        "HTTP/1.1 400 Bad Request\r\n",
        "\n<p>changes: expected true or false.</p></body>\n</html>\n",
        0,
    ),
    (
        true,
        "GET /history?node=ns%3D1%3Bs%3Dn&page=2 HTTP/1.1\r\nHost: a\r\n\r\n",
        "HTTP/1.1 400 Bad Request\r\n",
        "\n<p>Expected node, from, to and changes for a history, else nothing.</p></body>\n</html>\n",
        0,
    ),
    (
        true,
        "GET /?x HTTP/1.1\r\nHost: a\r\n\r\n",
        "HTTP/1.1 400 Bad Request\r\n",
        "\n<p>Expected node, from, to and changes for a history, else nothing.</p></body>\n</html>\n",
        0,
    ),
    (
        true,
        "GET /status.json?x HTTP/1.1\r\nHost: a\r\n\r\n",
        "HTTP/1.1 400 Bad Request\r\n",
        "\n<p>Expected node, from, to and changes for a history, else nothing.</p></body>\n</html>\n",
        0,
    ),
    (
        true,
        "GET /history?node=ns%3D1%3Bs%3Dn&node=ns%3D1%3Bs%3Dn HTTP/1.1\r\nHost: a\r\n\r\n",
        "HTTP/1.1 400 Bad Request\r\n",
        "\n<p>Expected each of node, from, to and changes once.</p></body>\n</html>\n",
        0,
    ),
    (
        true,
        "GET / HTTP/1.1\r\n\r\n",
        "HTTP/1.1 400 Bad Request\r\n",
        "\n<p>Expected a request of HTTP/1.1, with one Host field.</p></body>\n</html>\n",
        0,
    ),
    (
        true,
        "GET / HTTP/1.1\r\nHost: a\r\nContent-Length: 1\r\n\r\n",
        "HTTP/1.1 413 Content Too Large\r\n",
        "\n<p>Expected a request without a body.</p></body>\n</html>\n",
        0,
    ),
];

/// A head of 65 fields, which is refused before its end comes.
static LONG: [Row; 1] = [(
    true,
    "GET / HTTP/1.1\r\nHost: a\r\nX: y\r\nX: y\r\nX: y\r\nX: y\r\nX: y\r\nX: y\r\nX: y\r\nX: y\r\n\
     X: y\r\nX: y\r\nX: y\r\nX: y\r\nX: y\r\nX: y\r\nX: y\r\nX: y\r\n\
     X: y\r\nX: y\r\nX: y\r\nX: y\r\nX: y\r\nX: y\r\nX: y\r\nX: y\r\n\
     X: y\r\nX: y\r\nX: y\r\nX: y\r\nX: y\r\nX: y\r\nX: y\r\nX: y\r\n\
     X: y\r\nX: y\r\nX: y\r\nX: y\r\nX: y\r\nX: y\r\nX: y\r\nX: y\r\n\
     X: y\r\nX: y\r\nX: y\r\nX: y\r\nX: y\r\nX: y\r\nX: y\r\nX: y\r\n\
     X: y\r\nX: y\r\nX: y\r\nX: y\r\nX: y\r\nX: y\r\nX: y\r\nX: y\r\n\
     X: y\r\nX: y\r\nX: y\r\nX: y\r\nX: y\r\nX: y\r\nX: y\r\nX: y\r\n\r\n",
    "HTTP/1.1 431 Request Header Fields Too Large\r\n",
    "\n<p>Expected at most 16 KiB and 64 fields in the head of a request.</p></body>\n</html>\n",
    0,
)];

/// Requests of an archive whose store is broken.
static BROKEN: [Row; 5] = [
    (
        true,
        "GET / HTTP/1.1\r\nHost: a\r\n\r\n",
        "HTTP/1.1 503 Service Unavailable\r\n",
        "\n<p>The archive can't be read now.</p></body>\n</html>\n",
        0,
    ),
    (
        true,
        "HEAD / HTTP/1.1\r\nHost: a\r\n\r\n",
        "HTTP/1.1 503 Service Unavailable\r\n",
        "\r\n\r\n",
        0,
    ),
    (
        true,
        "GET /status.json HTTP/1.1\r\nHost: a\r\n\r\n",
        "HTTP/1.1 503 Service Unavailable\r\n",
        "\n<p>The archive can't be read now.</p></body>\n</html>\n",
        0,
    ),
    (
        true,
        "GET /history?node=ns%3D1%3Bs%3Dn HTTP/1.1\r\nHost: a\r\n\r\n",
        "HTTP/1.1 503 Service Unavailable\r\n",
        "\n<p>The archive can't be read now.</p></body>\n</html>\n",
        0,
    ),
    (
        true,
        "GET /history.csv?node=ns%3D1%3Bs%3Dn HTTP/1.1\r\nHost: a\r\n\r\n",
        "HTTP/1.1 503 Service Unavailable\r\n",
        "\n<p>The archive can't be read now.</p></body>\n</html>\n",
        0,
    ),
];

/// A request of more modifications at one moment than a page shows.
static CROWDED: [Row; 1] = [(
    true,
    "GET /history?node=ns%3D1%3Bs%3Dn&changes=true HTTP/1.1\r\nHost: a\r\n\r\n",
    "HTTP/1.1 500 Internal Server Error\r\n",
    "\n<p>More than 500 modifications stand at one moment: ask for them by /history.csv.</p></body>\n</html>\n",
    0,
)];

/// Requests whose credentials let nobody in.
static DENIED: [Row; 3] = [
    (
        true,
        "GET / HTTP/1.1\r\nHost: a\r\nAuthorization: Basic YW5uOm5v\r\n\r\n",
        "HTTP/1.1 401 Unauthorized\r\n",
        "\n<p>Expected a name and a password by the scheme Basic.</p></body>\n</html>\n",
        0,
    ),
    (
        false,
        "GET / HTTP/1.1\r\nHost: a\r\nAuthorization: Basic ZXZlOnB3\r\n\r\n",
        "HTTP/1.1 401 Unauthorized\r\n",
        "\n<p>Expected a name and a password by the scheme Basic.</p></body>\n</html>\n",
        0,
    ),
    (
        false,
        "HEAD /history.csv?node=ns%3D1%3Bs%3Dn HTTP/1.1\r\nHost: a\r\nAuthorization: Basic YW5uOm5v\r\n\r\n",
        "HTTP/1.1 401 Unauthorized\r\n",
        "\r\n\r\n",
        0,
    ),
];

/// Requests that name nobody.
static NAMELESS: [Row; 5] = [
    (
        false,
        "GET / HTTP/1.1\r\nHost: a\r\n\r\n",
        UNAUTHORIZED,
        CREDENTIALS,
        0,
    ),
    (
        false,
        "GET /status.json HTTP/1.1\r\nHost: a\r\n\r\n",
        UNAUTHORIZED,
        CREDENTIALS,
        0,
    ),
    (
        false,
        "GET /history?node=ns%3D1%3Bs%3Dn HTTP/1.1\r\nHost: a\r\n\r\n",
        UNAUTHORIZED,
        CREDENTIALS,
        0,
    ),
    (
        false,
        "GET /history.csv?node=ns%3D1%3Bs%3Dn HTTP/1.1\r\nHost: a\r\n\r\n",
        UNAUTHORIZED,
        CREDENTIALS,
        0,
    ),
    (
        false,
        "GET /history.csv?node=ns%3D1%3Bs%3Dm HTTP/1.1\r\nHost: a\r\n\r\n",
        UNAUTHORIZED,
        CREDENTIALS,
        0,
    ),
];

/// A history as CSV, which has six steps that go on.
static STEPS: [Row; 1] = [(
    true,
    CHUNKED,
    "HTTP/1.1 200 OK\r\nContent-Type: text/csv; charset=utf-8\r\nTransfer-Encoding: chunked\r\nConnection: close\r\n",
    ",40,Good\n\r\n0\r\n\r\n",
    6,
)];

/// What the answer to who isn't let in begins by.
const UNAUTHORIZED: &str = "HTTP/1.1 401 Unauthorized\r\n";

/// What its page ends by.
const CREDENTIALS: &str =
    "\n<p>Expected a name and a password by the scheme Basic.</p></body>\n</html>\n";

/// Whether a text tells nothing of the plant.
fn tells_nothing(text: &str) -> bool {
    !text.contains("level") && !text.contains("s=n") && !text.contains("12345678")
}

/// Whether a text begins and ends as a row says, and tells nothing to who isn't let in.
fn is_text_of(text: &str, row: &Row) -> bool {
    let (_, _, first, last, _) = row;
    text.starts_with(*first)
        && text.ends_with(*last)
        && (!text.starts_with(UNAUTHORIZED) || tells_nothing(text))
}

/// Whether what was made is what a row says, and the last step is this.
fn is_wanted(made: &[u8], ended: Ended, row: &Row, end: WebStep) -> bool {
    match str::from_utf8(made) {
        Ok(text) => is_text_of(text, row) && ended == Some((row.4, end)),
        Err(_) => false,
    }
}

/// Whether a request is answered as its row says, the last step is this, and it is answered in the
/// same way where it comes so.
fn is_answered_by<A: Archive>(
    alloc: Global,
    settings: &Settings,
    archive: &mut A,
    row: &Row,
    way: (WebStep, Coming),
) -> bool {
    let mut whole = Vec::new(alloc);
    let ended = put_made(alloc, settings, archive, (row.1, Whole), &mut whole);
    let wanted = (whole.as_slice(), ended);
    is_wanted(whole.as_slice(), ended, row, way.0)
        && is_made(alloc, settings, archive, (row.1, way.1), wanted)
}

/// The same by the plant's settings.
fn is_answered<A: Archive>(
    alloc: Global,
    archive: &mut A,
    row: &Row,
    way: (WebStep, Coming),
) -> bool {
    match settings_of(alloc, row.0) {
        Some(settings) => is_answered_by(alloc, &settings, archive, row, way),
        None => false,
    }
}

/// The first of these requests that is answered otherwise.
fn first_other<A: Archive>(
    alloc: Global,
    archive: &mut A,
    rows: &[Row],
    way: (WebStep, Coming),
) -> Option<&'static str> {
    for row in rows {
        if !is_answered(alloc, archive, row, way) {
            return Some(row.1);
        }
    }
    None
}

/// A test that fails at the request that is answered otherwise.
fn judged(other: Option<&'static str>) -> Result<(), Fail> {
    match other {
        None => Ok(()),
        Some(request) => Err(Fail::from(request)),
    }
}

/// Whether these requests are answered so.
fn are_answered(alloc: Global, rows: &[Row], way: (WebStep, Coming)) -> Result<(), Fail> {
    judged(first_other_over(alloc, empty_archive(alloc), rows, way))
}

/// An archive whose store breaks once it has taken the plant's 41 values.
fn breaking_archive(alloc: Global) -> Result<ScriptedArchive, StoreFault> {
    match ReplicaNo::new(7) {
        Some(own) => Ok(ScriptedArchive::new(alloc, Uuid::nil(), own, 42, Failure::BrokenBefore)),
        None => Err(StoreFault::WrongReplica),
    }
}

/// The first request of a crowded moment that is answered otherwise over an archive, which takes 501 modifications at one moment.
fn first_other_crowded<A: Archive>(alloc: Global, archive: &mut A) -> Option<&'static str> {
    if learn_many(alloc, archive, 1, 501, 501).is_ok() {
        first_other(alloc, archive, &CROWDED, (WebStep::Ended, ByBytes))
    } else {
        Some("a plant")
    }
}

/// The same over an archive that was made.
fn first_other_crowded_over<A: Archive + Drop>(
    alloc: Global,
    made: Result<A, StoreFault>,
) -> Option<&'static str> {
    match made {
        Ok(mut archive) => first_other_crowded(alloc, &mut archive),
        Err(_) => Some("an archive"),
    }
}

/// The first of these requests that is answered otherwise over an archive that was made, and is the
/// plant's then.
fn first_other_over<A: Archive + Drop>(
    alloc: Global,
    made: Result<A, StoreFault>,
    rows: &[Row],
    way: (WebStep, Coming),
) -> Option<&'static str> {
    match made {
        Ok(mut archive) => first_other_planted(alloc, &mut archive, rows, way),
        Err(_) => Some("an archive"),
    }
}

/// The same over an archive that holds nothing yet.
fn first_other_planted<A: Archive>(
    alloc: Global,
    archive: &mut A,
    rows: &[Row],
    way: (WebStep, Coming),
) -> Option<&'static str> {
    if is_planted(alloc, archive) {
        first_other(alloc, archive, rows, way)
    } else {
        Some("a plant")
    }
}

#[test]
fn requests_are_answered(rt: HostRuntime) -> Result<(), Fail> {
    are_answered(rt.alloc(), &ANSWERED, (WebStep::Ended, ByBytes))
}

#[test]
fn requests_are_refused(rt: HostRuntime) -> Result<(), Fail> {
    are_answered(rt.alloc(), &REFUSED, (WebStep::Ended, ByBytes))
}

#[test]
fn long_heads_are_refused(rt: HostRuntime) -> Result<(), Fail> {
    are_answered(rt.alloc(), &LONG, (WebStep::Ended, Crowded))
}

#[test]
fn a_broken_store_is_told(rt: HostRuntime) -> Result<(), Fail> {
    let alloc = rt.alloc();
    let way = (WebStep::Ended, ByBytes);
    judged(first_other_over(alloc, breaking_archive(alloc), &BROKEN, way))
}

#[test]
fn a_crowded_moment_is_told(rt: HostRuntime) -> Result<(), Fail> {
    let alloc = rt.alloc();
    judged(first_other_crowded_over(alloc, empty_archive(alloc)))
}

#[test]
fn wrong_credentials_are_denied(rt: HostRuntime) -> Result<(), Fail> {
    are_answered(rt.alloc(), &DENIED, (WebStep::Denied, ByBytes))
}

#[test]
fn nobody_is_told_nothing(rt: HostRuntime) -> Result<(), Fail> {
    are_answered(rt.alloc(), &NAMELESS, (WebStep::Ended, ByBytes))
}

#[test]
fn later_bytes_are_left_aside(rt: HostRuntime) -> Result<(), Fail> {
    are_answered(rt.alloc(), &STEPS, (WebStep::Ended, Crowded))
}
