//! The heads of answers, and how refusals are told.

use std::alloc::{AllocError, Global};
use web_request::{
    Answer, Body, Kind, Part, Refusal, Status, put_chunk, put_head, put_last_chunk, put_refusal,
};

/// Whether the head of an answer is written so, behind what was there.
fn is_head(alloc: Global, answer: Answer, text: &str) -> bool {
    let mut out = Vec::new(alloc);
    match put_head(alloc, &mut out, answer) {
        Ok(()) => out.as_slice() == text.as_bytes(),
        Err(_) => false,
    }
}

/// Answers, each with its head.
static HEADS: [(Answer, &str); 5] = [
    (
        Answer {
            status: Status::Success,
            kind: Kind::Csv,
            body: Body::Length(12_345),
            keeps_open: true,
        },
        "HTTP/1.1 200 OK\r\nContent-Type: text/csv; charset=utf-8\r\nContent-Length: 12345\r\nConnection: keep-alive\r\nCache-Control: no-store\r\nContent-Security-Policy: default-src 'none'; style-src 'unsafe-inline'\r\nX-Content-Type-Options: nosniff\r\nX-Frame-Options: DENY\r\nReferrer-Policy: no-referrer\r\n\r\n",
    ),
    (
        Answer {
            status: Status::Unauthorized,
            kind: Kind::Html,
            body: Body::Length(0),
            keeps_open: false,
        },
        "HTTP/1.1 401 Unauthorized\r\nContent-Type: text/html; charset=utf-8\r\nContent-Length: 0\r\nConnection: close\r\nCache-Control: no-store\r\nContent-Security-Policy: default-src 'none'; style-src 'unsafe-inline'\r\nX-Content-Type-Options: nosniff\r\nX-Frame-Options: DENY\r\nReferrer-Policy: no-referrer\r\nWWW-Authenticate: Basic realm=\"uahist\", charset=\"UTF-8\"\r\n\r\n",
    ),
    (
        Answer {
            status: Status::MethodNotAllowed,
            kind: Kind::Json,
            body: Body::Length(2),
            keeps_open: false,
        },
        "HTTP/1.1 405 Method Not Allowed\r\nContent-Type: application/json\r\nContent-Length: 2\r\nConnection: close\r\nCache-Control: no-store\r\nContent-Security-Policy: default-src 'none'; style-src 'unsafe-inline'\r\nX-Content-Type-Options: nosniff\r\nX-Frame-Options: DENY\r\nReferrer-Policy: no-referrer\r\nAllow: GET, HEAD\r\n\r\n",
    ),
    (
        Answer {
            status: Status::Success,
            kind: Kind::Csv,
            body: Body::Chunked,
            keeps_open: false,
        },
        "HTTP/1.1 200 OK\r\nContent-Type: text/csv; charset=utf-8\r\nTransfer-Encoding: chunked\r\nConnection: close\r\nCache-Control: no-store\r\nContent-Security-Policy: default-src 'none'; style-src 'unsafe-inline'\r\nX-Content-Type-Options: nosniff\r\nX-Frame-Options: DENY\r\nReferrer-Policy: no-referrer\r\n\r\n",
    ),
    (
        Answer {
            status: Status::Success,
            kind: Kind::Csv,
            body: Body::UntilClose,
            keeps_open: false,
        },
        "HTTP/1.1 200 OK\r\nContent-Type: text/csv; charset=utf-8\r\nConnection: close\r\nCache-Control: no-store\r\nContent-Security-Policy: default-src 'none'; style-src 'unsafe-inline'\r\nX-Content-Type-Options: nosniff\r\nX-Frame-Options: DENY\r\nReferrer-Policy: no-referrer\r\n\r\n",
    ),
];

#[test]
fn heads_are_written(rt: HostRuntime) {
    let alloc = rt.alloc();
    for (answer, text) in &HEADS {
        let good = is_head(alloc, *answer, text);
        assert!(rt; good, "{text}");
    }
}

/// The answer to a refused request.
fn told(alloc: Global, why: Refusal, head_only: bool) -> Result<Vec<u8>, AllocError> {
    let mut out = Vec::new(alloc);
    put_refusal(alloc, &mut out, why, head_only)?;
    Ok(out)
}

/// Refusals, each with how its answer begins, and a line of its page.
static TOLD: [(Refusal, &str, &str); 16] = [
    (
        Refusal::NotHttp,
        "HTTP/1.1 400 Bad Request\r\n",
        "\n<p>Expected a request of HTTP/1.1, with one Host field.</p>",
    ),
    (
        Refusal::TooLong,
        "HTTP/1.1 431 Request Header Fields Too Large\r\n",
        "\n<p>Expected at most 16 KiB and 64 fields in the head of a request.</p>",
    ),
    (
        Refusal::Method,
        "HTTP/1.1 405 Method Not Allowed\r\n",
        "\n<p>Expected GET or HEAD.</p>",
    ),
    (
        Refusal::Path,
        "HTTP/1.1 404 Not Found\r\n",
        "\n<p>Expected /, /history, /history.csv or /status.json.</p>",
    ),
    (
        Refusal::Body,
        "HTTP/1.1 413 Content Too Large\r\n",
        "\n<p>Expected a request without a body.</p>",
    ),
    (
        Refusal::Credentials,
        "HTTP/1.1 401 Unauthorized\r\n",
        "\n<p>Expected a name and a password by the scheme Basic.</p>",
    ),
    (
        Refusal::Part(Part::Node),
        "HTTP/1.1 400 Bad Request\r\n",
        "\n<p>node: expected a node id, as ns%3D1%3Bs%3DTemperature or i%3D2258.</p>",
    ),
    (
        Refusal::Part(Part::From),
        "HTTP/1.1 400 Bad Request\r\n",
        "\n<p>from: expected a time, as 2026-03-01T12:00:00Z.</p>",
    ),
    (
        Refusal::Part(Part::To),
        "HTTP/1.1 400 Bad Request\r\n",
        "\n<p>to: expected a time, as 2026-03-01T12:00:00Z.</p>",
    ),
    (
        Refusal::Part(Part::Changes),
        "HTTP/1.1 400 Bad Request\r\n",
        "\n<p>changes: expected true or false.</p>",
    ),
    (
        Refusal::Part(Part::Unknown),
        "HTTP/1.1 400 Bad Request\r\n",
        "\n<p>Expected node, from, to and changes for a history, else nothing.</p>",
    ),
    (
        Refusal::Part(Part::Twice),
        "HTTP/1.1 400 Bad Request\r\n",
        "\n<p>Expected each of node, from, to and changes once.</p>",
    ),
    (
        Refusal::Unknown,
        "HTTP/1.1 404 Not Found\r\n",
        "\n<p>There is no variable of this node id.</p>",
    ),
    (
        Refusal::Store,
        "HTTP/1.1 503 Service Unavailable\r\n",
        "\n<p>The archive can't be read now.</p>",
    ),
    (
        Refusal::NoText,
        "HTTP/1.1 500 Internal Server Error\r\n",
        "\n<p>A value of this history is of a type that isn't written as text.</p>",
    ),
    (
        Refusal::Crowded,
        "HTTP/1.1 500 Internal Server Error\r\n",
        "\n<p>More than 500 modifications stand at one moment: ask for them by /history.csv.</p>",
    ),
];

/// Whether a refusal is told so: by a page, and by its head alone.
fn is_told(alloc: Global, row: &(Refusal, &str, &str)) -> bool {
    let (why, first, line) = row;
    let (Ok(page), Ok(head)) = (told(alloc, *why, false), told(alloc, *why, true)) else {
        return false;
    };
    let (Ok(page), Ok(head)) = (str::from_utf8(&page), str::from_utf8(&head)) else {
        return false;
    };
    page.starts_with(*first)
        && page.starts_with(head)
        && page.contains(*line)
        && head.ends_with("\r\n\r\n")
        && page.ends_with("</html>\n")
}

#[test]
fn refusals_are_told(rt: HostRuntime) {
    let alloc = rt.alloc();
    for row in &TOLD {
        let good = is_told(alloc, row);
        assert!(rt; good, "{}", row.1);
    }
}

#[test]
fn a_refusal_is_told_whole(rt: HostRuntime) -> Result<(), AllocError> {
    let alloc = rt.alloc();
    let text = told(alloc, Refusal::Method, false)?;
    assert_eq!(rt;
        text.as_slice(),
        b"HTTP/1.1 405 Method Not Allowed\r\nContent-Type: text/html; charset=utf-8\r\nContent-Length: 188\r\nConnection: close\r\nCache-Control: no-store\r\nContent-Security-Policy: default-src 'none'; style-src 'unsafe-inline'\r\nX-Content-Type-Options: nosniff\r\nX-Frame-Options: DENY\r\nReferrer-Policy: no-referrer\r\nAllow: GET, HEAD\r\n\r\n<!DOCTYPE html>\n<html lang=\"en\">\n<head><meta charset=\"utf-8\"><title>405 Method Not Allowed</title></head>\n<body><h1>405 Method Not Allowed</h1>\n<p>Expected GET or HEAD.</p></body>\n</html>\n".as_slice()
    );
    Ok(())
}

/// Pieces as chunks, and the last chunk.
fn chunks(alloc: Global, pieces: &[&[u8]]) -> Result<Vec<u8>, AllocError> {
    let mut out = Vec::new(alloc);
    for piece in pieces {
        put_chunk(&mut out, piece)?;
    }
    put_last_chunk(&mut out)?;
    Ok(out)
}

#[test]
fn pieces_are_chunks(rt: HostRuntime) -> Result<(), AllocError> {
    let alloc = rt.alloc();
    let text = chunks(alloc, &[b"Wiki", b"", b"pedia in\n\nchunks."])?;
    assert_eq!(rt;
        text.as_slice(),
        b"4\r\nWiki\r\n11\r\npedia in\n\nchunks.\r\n0\r\n\r\n".as_slice()
    );
    Ok(())
}
