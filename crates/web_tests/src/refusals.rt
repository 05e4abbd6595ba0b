//! Requests that are refused.

use std::alloc::Global;
use web_request::{Part, Refusal, RequestFault, read_request};

/// Texts, each with why it is refused, and whether by a head alone.
static REFUSED: [(&str, Refusal, bool); 34] = [
    ("\x16\x03\x01", Refusal::NotHttp, false),
    ("GET / HTTP/2.0\r\nHost: a\r\n\r\n", Refusal::NotHttp, false),
    (
        "GET  / HTTP/1.1\r\nHost: a\r\n\r\n",
        Refusal::NotHttp,
        false,
    ),
    ("GET / HTTP/1.1\r\n\r\n", Refusal::NotHttp, false),
    (
        "GET / HTTP/1.1\r\nHost: a\r\nHost: a\r\n\r\n",
        Refusal::NotHttp,
        false,
    ),
    ("GET / HTTP/1.1\nHost: a\n\n", Refusal::NotHttp, false),
    (
        "GET / HTTP/1.1\r\nHost : a\r\n\r\n",
        Refusal::NotHttp,
        false,
    ),
    (
        "GET / HTTP/1.1\r\nHost: a\r\nContent-Length: 1\r\nTransfer-Encoding: chunked\r\n\r\n",
        Refusal::NotHttp,
        false,
    ),
    (
        "GET / HTTP/1.1\r\nHost: a\r\nContent-Length: -1\r\n\r\n",
        Refusal::NotHttp,
        false,
    ),
    ("POST / HTTP/1.1\r\nHost: a\r\n\r\n", Refusal::Method, false),
    ("get / HTTP/1.1\r\nHost: a\r\n\r\n", Refusal::Method, false),
    (
        "OPTIONS * HTTP/1.1\r\nHost: a\r\n\r\n",
        Refusal::Method,
        false,
    ),
    (
        "GET /favicon.ico HTTP/1.1\r\nHost: a\r\n\r\n",
        Refusal::Path,
        false,
    ),
    (
        "HEAD /History HTTP/1.1\r\nHost: a\r\n\r\n",
        Refusal::Path,
        true,
    ),
    (
        "GET /history/ HTTP/1.1\r\nHost: a\r\n\r\n",
        Refusal::Path,
        false,
    ),
    (
        "GET http://a/ HTTP/1.1\r\nHost: a\r\n\r\n",
        Refusal::Path,
        false,
    ),
    (
        "GET / HTTP/1.1\r\nHost: a\r\nContent-Length: 1\r\n\r\nx",
        Refusal::Body,
        false,
    ),
    (
        "HEAD / HTTP/1.1\r\nHost: a\r\nTransfer-Encoding: chunked\r\n\r\n",
        Refusal::Body,
        true,
    ),
    (
        "GET /history HTTP/1.1\r\nHost: a\r\n\r\n",
        Refusal::Part(Part::Node),
        false,
    ),
    (
        "GET /history?node= HTTP/1.1\r\nHost: a\r\n\r\n",
        Refusal::Part(Part::Node),
        false,
    ),
    (
        "GET /history?node=x HTTP/1.1\r\nHost: a\r\n\r\n",
        Refusal::Part(Part::Node),
        false,
    ),
    (
        "HEAD /history?node=i=x HTTP/1.1\r\nHost: a\r\n\r\n",
        Refusal::Part(Part::Node),
        true,
    ),
    (
        "GET /history?node=i=1&from=x HTTP/1.1\r\nHost: a\r\n\r\n",
        Refusal::Part(Part::From),
        false,
    ),
    (
        "GET /history?node=i=1&from=@1&to=x HTTP/1.1\r\nHost: a\r\n\r\n",
        Refusal::Part(Part::To),
        false,
    ),
    (
        "GET /history?node=i=1&changes=on HTTP/1.1\r\nHost: a\r\n\r\n",
        Refusal::Part(Part::Changes),
        false,
    ),
    (
        "GET /history?node=i=1&nodes=i=1 HTTP/1.1\r\nHost: a\r\n\r\n",
        Refusal::Part(Part::Unknown),
        false,
    ),
    (
        "GET /?x HTTP/1.1\r\nHost: a\r\n\r\n",
        Refusal::Part(Part::Unknown),
        false,
    ),
    (
        "GET /status.json?node=i=1 HTTP/1.1\r\nHost: a\r\n\r\n",
        Refusal::Part(Part::Unknown),
        false,
    ),
    (
        "GET /history?node=i=1&node=i=1 HTTP/1.1\r\nHost: a\r\n\r\n",
        Refusal::Part(Part::Twice),
        false,
    ),
    (
        "GET /history?node=i=1&to=&to=@1 HTTP/1.1\r\nHost: a\r\n\r\n",
        Refusal::Part(Part::Twice),
        false,
    ),
    (
        "GET / HTTP/1.1\r\nHost: a\r\nAuthorization: Bearer YTo=\r\n\r\n",
        Refusal::Credentials,
        false,
    ),
    (
        "HEAD / HTTP/1.1\r\nHost: a\r\nAuthorization: Basic YTo\r\n\r\n",
        Refusal::Credentials,
        true,
    ),
    (
        "GET / HTTP/1.1\r\nHost: a\r\nAuthorization: Basic bm8gY29sb24=\r\n\r\n",
        Refusal::Credentials,
        false,
    ),
    (
        "GET / HTTP/1.1\r\nHost: a\r\nAuthorization: Basic YTo=\r\nAuthorization: Basic YTo=\r\n\r\n",
        Refusal::Credentials,
        false,
    ),
];

/// Whether a text is refused so.
fn is_refused(alloc: Global, text: &str, why: Refusal, head_only: bool) -> bool {
    match read_request(alloc, text.as_bytes()) {
        Ok(_) => false,
        Err(fault) => fault == RequestFault::Refused(why, head_only),
    }
}

#[test]
fn wrong_requests_are_refused(rt: HostRuntime) {
    let alloc = rt.alloc();
    for (text, why, head_only) in &REFUSED {
        let good = is_refused(alloc, text, *why, *head_only);
        assert!(rt; good, "{text}");
    }
}
