//! Browsers beside clients and peers.

use crate::scripts::{Caller, Heard, heard_in_plant};
use conversation::Door;
use std::alloc::Global;
use std::test::Fail;

/// What a browser says, and what its answer begins and ends by; nothing where it is waited for more.
type Row = (&'static str, &'static str, &'static str);

/// Browsers that come at once.
static ROWS: [Row; 9] = [
    (
        "GET /status.json HTTP/1.1\r\nHost: a\r\n\r\n",
        "HTTP/1.1 200 OK\r\n",
        ",\"records\":{},\"peers\":[]}\n",
    ),
    (
        "GET / HTTP/1.1\r\nHost: a\r\n\r\n",
        "HTTP/1.1 200 OK\r\n",
        "</html>\n",
    ),
    (
        "HEAD / HTTP/1.1\r\nHost: a\r\n\r\n",
        "HTTP/1.1 200 OK\r\n",
        "\r\n\r\n",
    ),
    (
        "GET /history.csv?node=ns%3D1%3Bs%3DT HTTP/1.1\r\nHost: a\r\n\r\n",
        "HTTP/1.1 200 OK\r\n",
        "\r\n\r\n17\r\nnode,time,value,status\n\r\n0\r\n\r\n",
    ),
    (
        "GET /history.csv?node=ns%3D1%3Bs%3DT HTTP/1.0\r\n\r\n",
        "HTTP/1.1 200 OK\r\n",
        "\r\n\r\nnode,time,value,status\n",
    ),
    (
        "GET /none HTTP/1.1\r\nHost: a\r\n\r\n",
        "HTTP/1.1 404 Not Found\r\n",
        "</html>\n",
    ),
    ("RXVF\r\n\r\n", "HTTP/1.1 400 Bad Request\r\n", "</html>\n"),
    (
        "GET / HTTP/1.1\r\nHost: a\r\nAuthorization: Basic YTpi\r\n\r\n",
        "HTTP/1.1 401 Unauthorized\r\n",
        "</html>\n",
    ),
    ("GET / HTTP/1.1\r\nHost: a\r\n", "", ""),
];

/// The browsers, each of which reads and writes so many bytes at a time.
fn browsers(alloc: Global, each: usize) -> Result<Vec<Caller<'static>>, Fail> {
    let mut callers = Vec::new(alloc);
    for (number, (text, _, _)) in ROWS.iter().enumerate() {
        callers.push(Caller {
            door: Door::Browsers,
            address: None,
            text: text.as_bytes(),
            each,
            pace: number.saturating_add(1),
        })?;
    }
    Ok(callers)
}

/// Whether this is the answer of a row.
fn is_answer(row: &Row, read: &[u8]) -> bool {
    let (_, begin, end) = *row;
    read.starts_with(begin.as_bytes())
        && read.ends_with(end.as_bytes())
        && begin.is_empty() == read.is_empty()
}

/// What the first of the browsers said that read something else than the answer of its row.
fn first_other(heard: &[Heard]) -> Option<&'static str> {
    for (number, text) in heard {
        match ROWS.get(*number) {
            Some(row) => {
                if !is_answer(row, text.as_slice()) {
                    return Some(row.0);
                }
            }
            None => return Some("no row"),
        }
    }
    None
}

/// How many of the browsers are answered, and what the first of them said whose answer is another one, where each reads and
/// writes so many bytes at a time.
fn answered(alloc: Global, each: usize) -> Result<(usize, Option<&'static str>), Fail> {
    let callers = browsers(alloc, each)?;
    let heard = heard_in_plant(alloc, callers.as_slice(), None)?;
    Ok((heard.len(), first_other(heard.as_slice())))
}

#[test]
fn browsers_are_answered(rt: HostRuntime) -> Result<(), Fail> {
    for each in [1, 7, 1000] {
        assert_eq!(rt; answered(rt.alloc(), each)?, (ROWS.len(), None), "{each}");
    }
    Ok(())
}

/// How slowly the browsers who came before read and write: each is done before the next one has said all.
static PACES: [usize; 3] = [40, 160, 640];

/// So many browsers who take their time, and behind them one who asks at once how the server does.
fn waiting(alloc: Global, silent: usize) -> Result<Vec<Caller<'static>>, Fail> {
    let mut callers = Vec::new(alloc);
    for pace in PACES.get(..silent).ok_or("so many")?.iter().chain(&[10]) {
        callers.push(Caller {
            door: Door::Browsers,
            address: None,
            text: b"GET /status.json HTTP/1.1\r\nHost: a\r\n\r\n",
            each: 1000,
            pace: *pace,
        })?;
    }
    Ok(callers)
}

/// What the status tells of connections, where so many came before.
static COUNTED: [(usize, &str); 3] = [
    (
        0,
        "\"replica\":1,\"connections\":1,\"records\":{},\"peers\":[]}\n",
    ),
    (
        1,
        "\"replica\":1,\"connections\":2,\"records\":{},\"peers\":[]}\n",
    ),
    (
        3,
        "\"replica\":1,\"connections\":4,\"records\":{},\"peers\":[]}\n",
    ),
];

/// Whether there is an answer, which ends so.
fn ends_by(answer: Option<&Heard>, end: &str) -> bool {
    match answer {
        Some((_, text)) => text.as_slice().ends_with(end.as_bytes()),
        None => false,
    }
}

/// How many are answered where so many came before, and whether the first answer and the last one end so.
fn counted(
    alloc: Global,
    silent: usize,
    first: &str,
    last: &str,
) -> Result<(usize, bool, bool), Fail> {
    let callers = waiting(alloc, silent)?;
    let heard = heard_in_plant(alloc, callers.as_slice(), None)?;
    Ok((
        heard.len(),
        ends_by(heard.first(), first),
        ends_by(heard.last(), last),
    ))
}

/// Connections are counted while they last: the first answer tells of all, the last one of itself.
#[test]
fn connections_are_counted(rt: HostRuntime) -> Result<(), Fail> {
    let (_, alone) = COUNTED[0];
    for (silent, want) in &COUNTED {
        assert_eq!(rt;
            counted(rt.alloc(), *silent, want, alone)?,
            (silent.saturating_add(1), true, true),
            "{silent}"
        );
    }
    Ok(())
}
