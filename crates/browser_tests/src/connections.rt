//! Connections of browsers, each from the bytes that come to those that are answered, and a history that is sent by one.

use crate::portions::{Written, empty_archive, learn, learn_many, printed, report_of};
use Coming::{ByBytes, Crowded, Whole};
use archive::{Archive, StoreFault};
use history_report::Form;
use std::alloc::{AllocError, Global};
use std::test::Fail;
use ua_settings::Settings;
use web_connection::{WebConnection, WebStep};
use web_page::{LastCalls, Overview};

/// Settings of the plant where users need a name: a user and two variables.
const CLOSED: &str = "[archive]\nid = '12345678-9abc-def0-1234-56789abcdef0'\nreplica = 7\n\
     [server]\nlisten = ''\nurl = ''\napplication = ''\nnamespace = ''\nanonymous = false\n\
     [[user]]\nname = 'ann'\npassword = 'pw'\n\
     [[variable]]\nid = 'n'\nname = 'level'\ntype = 'Int32'\n\
     [[variable]]\nid = 'list'\nname = 'levels'\ntype = 'Double'\narray = true\n";

/// The same where users need none.
const OPEN: &str = "[archive]\nid = '12345678-9abc-def0-1234-56789abcdef0'\nreplica = 7\n\
     [server]\nlisten = ''\nurl = ''\napplication = ''\nnamespace = ''\nanonymous = true\n\
     [[user]]\nname = 'ann'\npassword = 'pw'\n\
     [[variable]]\nid = 'n'\nname = 'level'\ntype = 'Int32'\n\
     [[variable]]\nid = 'list'\nname = 'levels'\ntype = 'Double'\narray = true\n";

/// The settings of the plant.
pub(crate) fn settings_of(alloc: Global, anonymous: bool) -> Option<Settings> {
    Settings::read(alloc, if anonymous { OPEN } else { CLOSED }).ok()
}

/// An archive takes 40 values of one variable, and one without a text of the other.
pub(crate) fn is_planted<A: Archive>(alloc: Global, archive: &mut A) -> bool {
    learn_many(alloc, archive, 1, 40, 1).is_ok()
        && learn(alloc, archive, &(41, "list", 1, Written::Many)).is_ok()
}

/// How many steps went on, and the last step; absent where the test is at fault.
pub(crate) type Ended = Option<(usize, WebStep)>;

/// Takes a step; no peer is called.
fn take_step<A: Archive>(
    settings: &Settings,
    archive: &mut A,
    connection: &mut WebConnection,
    out: &mut Vec<u8>,
) -> Result<WebStep, AllocError> {
    let overview = Overview {
        settings,
        calls: &LastCalls::none(*out.allocator()),
        connections: 1,
        now: 0,
    };
    connection.answer(overview, archive, out)
}

/// Takes steps until one doesn't go on.
fn answer_all<A: Archive>(
    settings: &Settings,
    archive: &mut A,
    connection: &mut WebConnection,
    out: &mut Vec<u8>,
) -> Ended {
    for count in 0..20 {
        match take_step(settings, archive, connection, out) {
            Ok(WebStep::Continues) => {}
            Ok(step) => return Some((count, step)),
            Err(_) => return None,
        }
    }
    None
}

/// A request comes at once.
fn answer_whole<A: Archive>(
    settings: &Settings,
    archive: &mut A,
    connection: &mut WebConnection,
    request: &str,
    out: &mut Vec<u8>,
) -> Ended {
    match connection.feed(request.as_bytes()) {
        Ok(()) => answer_all(settings, archive, connection, out),
        Err(_) => None,
    }
}

/// Whether more input is needed, and nothing was made.
fn is_waiting<A: Archive>(
    settings: &Settings,
    archive: &mut A,
    connection: &mut WebConnection,
    out: &mut Vec<u8>,
) -> bool {
    take_step(settings, archive, connection, out) == Ok(WebStep::NeedsInput) && out.is_empty()
}

/// Whether more input is needed, and nothing was made, before each of these bytes.
fn is_waiting_before<A: Archive>(
    settings: &Settings,
    archive: &mut A,
    connection: &mut WebConnection,
    bytes: &[u8],
    out: &mut Vec<u8>,
) -> bool {
    for byte in bytes {
        if !is_waiting(settings, archive, connection, out) || connection.feed(&[*byte]).is_err() {
            return false;
        }
    }
    true
}

/// A request comes byte by byte; nothing is made before the last byte.
fn answer_bytes<A: Archive>(
    settings: &Settings,
    archive: &mut A,
    connection: &mut WebConnection,
    request: &str,
    out: &mut Vec<u8>,
) -> Ended {
    if is_waiting_before(settings, archive, connection, request.as_bytes(), out) {
        answer_all(settings, archive, connection, out)
    } else {
        None
    }
}

/// A request comes at once, and another one behind each step.
fn answer_crowded<A: Archive>(
    settings: &Settings,
    archive: &mut A,
    connection: &mut WebConnection,
    request: &str,
    out: &mut Vec<u8>,
) -> Ended {
    for count in 0..20 {
        let bytes = if count == 0 { request } else { PLAIN };
        if connection.feed(bytes.as_bytes()).is_err() {
            return None;
        }
        match take_step(settings, archive, connection, out) {
            Ok(WebStep::Continues) => {}
            Ok(step) => return Some((count, step)),
            Err(_) => return None,
        }
    }
    None
}

/// How a request comes: at once, byte by byte, or at once and another one behind each step.
#[derive(Clone, Copy)]
pub(crate) enum Coming {
    Whole,
    ByBytes,
    Crowded,
}

/// A request comes so.
fn answer<A: Archive>(
    settings: &Settings,
    archive: &mut A,
    connection: &mut WebConnection,
    asked: (&str, Coming),
    out: &mut Vec<u8>,
) -> Ended {
    match asked.1 {
        Whole => answer_whole(settings, archive, connection, asked.0, out),
        ByBytes => answer_bytes(settings, archive, connection, asked.0, out),
        Crowded => answer_crowded(settings, archive, connection, asked.0, out),
    }
}

/// Appends what is made of a request that comes so.
pub(crate) fn put_made<A: Archive>(
    alloc: Global,
    settings: &Settings,
    archive: &mut A,
    asked: (&str, Coming),
    out: &mut Vec<u8>,
) -> Ended {
    let mut connection = WebConnection::new(alloc);
    answer(settings, archive, &mut connection, asked, out)
}

/// Whether this is made of a request that comes so, and it ends so.
pub(crate) fn is_made<A: Archive>(
    alloc: Global,
    settings: &Settings,
    archive: &mut A,
    asked: (&str, Coming),
    wanted: (&[u8], Ended),
) -> bool {
    let mut out = Vec::new(alloc);
    let ended = put_made(alloc, settings, archive, asked, &mut out);
    ended == wanted.1 && out.as_slice() == wanted.0
}

/// The bytes of a piece of so many, and the text behind it and the end of its line.
fn split_piece(text: &str, size: usize) -> Option<(&[u8], &str)> {
    let bytes = text.as_bytes();
    let piece = bytes.get(..size)?;
    let behind = str::from_utf8(bytes.get(size..)?).ok()?;
    Some((piece, behind.strip_prefix("\r\n")?))
}

/// The bytes of a chunk, and the text behind it.
fn split_chunk(text: &str) -> Option<(&[u8], &str)> {
    let (size, rest) = text.split_once("\r\n")?;
    split_piece(rest, usize::from_str_radix(size, 16).ok()?)
}

/// Whether a text is the chunks of these bytes, with the last one, which is empty.
fn are_chunks_of(text: &str, bytes: &[u8]) -> bool {
    let mut text = text;
    let mut bytes = bytes;
    for _ in 0..20 {
        let Some((piece, behind)) = split_chunk(text) else {
            return false;
        };
        let Some(rest) = bytes.strip_prefix(piece) else {
            return false;
        };
        if piece.is_empty() {
            return behind.is_empty() && rest.is_empty();
        }
        text = behind;
        bytes = rest;
    }
    false
}

/// A history as CSV is asked for by HTTP/1.1.
pub(crate) const CHUNKED: &str = "GET /history.csv?node=ns%3D1%3Bs%3Dn HTTP/1.1\r\nHost: a\r\n\r\n";

/// The same by HTTP/1.0.
const PLAIN: &str = "GET /history.csv?node=ns%3D1%3Bs%3Dn HTTP/1.0\r\n\r\n";

/// A history as a page is asked for by HTTP/1.1.
const CHUNKED_PAGE: &str = "GET /history?node=ns%3D1%3Bs%3Dn HTTP/1.1\r\nHost: a\r\n\r\n";

/// The same by HTTP/1.0.
const PLAIN_PAGE: &str = "GET /history?node=ns%3D1%3Bs%3Dn HTTP/1.0\r\n\r\n";

/// The request of a history in this form, by HTTP/1.1, which takes chunks, or by HTTP/1.0.
fn request_of(form: Form, chunked: bool) -> &'static str {
    match (form, chunked) {
        (Form::Page, true) => CHUNKED_PAGE,
        (Form::Page, false) => PLAIN_PAGE,
        (_, true) => CHUNKED,
        (_, false) => PLAIN,
    }
}

/// What stands behind the head of an answer.
fn body_of(made: &[u8]) -> &str {
    match str::from_utf8(made) {
        Ok(text) => match text.split_once("\r\n\r\n") {
            Some((_, body)) => body,
            None => "",
        },
        Err(_) => "",
    }
}

/// Whether the body of what was made is these bytes, as chunks or as they are.
fn is_body(made: &[u8], chunked: bool, wanted: &[u8]) -> bool {
    let body = body_of(made);
    if chunked {
        are_chunks_of(body, wanted)
    } else {
        body.as_bytes() == wanted
    }
}

/// Whether the history is sent as these bytes by HTTP/1.1, in chunks, or by HTTP/1.0.
fn is_sent_as<A: Archive>(
    alloc: Global,
    settings: &Settings,
    archive: &mut A,
    asked: (Form, bool),
    wanted: &[u8],
) -> bool {
    let mut made = Vec::new(alloc);
    let (form, chunked) = asked;
    let request = request_of(form, chunked);
    let ended = put_made(alloc, settings, archive, (request, Whole), &mut made);
    ended.is_some() && is_body(made.as_slice(), chunked, wanted)
}

/// Whether the history is sent as these bytes, by HTTP/1.0 and by HTTP/1.1.
fn is_sent_both<A: Archive>(alloc: Global, archive: &mut A, form: Form, wanted: &[u8]) -> bool {
    match settings_of(alloc, true) {
        Some(settings) => {
            is_sent_as(alloc, &settings, archive, (form, false), wanted)
                && is_sent_as(alloc, &settings, archive, (form, true), wanted)
        }
        None => false,
    }
}

/// Whether the history is sent as it is printed in this form.
fn is_sent_whole<A: Archive>(alloc: Global, archive: &mut A, form: Form) -> bool {
    match report_of(alloc, false, form) {
        Ok(report) => {
            let (ended, wanted) = printed(alloc, archive, &report);
            ended.is_ok() && is_sent_both(alloc, archive, form, wanted.as_slice())
        }
        Err(_) => false,
    }
}

/// The same of an archive that was made, and is the plant's then.
fn is_sent_over<A: Archive + Drop>(alloc: Global, made: Result<A, StoreFault>) -> bool {
    match made {
        Ok(mut archive) => {
            is_planted(alloc, &mut archive)
                && is_sent_whole(alloc, &mut archive, Form::Csv)
                && is_sent_whole(alloc, &mut archive, Form::Page)
        }
        Err(_) => false,
    }
}

/// The same of a list.
fn is_sent(alloc: Global) -> bool {
    is_sent_over(alloc, empty_archive(alloc))
}

#[test]
fn a_history_is_sent_whole(rt: HostRuntime) -> Result<(), Fail> {
    assert!(rt; is_sent(rt.alloc()));
    Ok(())
}
