//! How a request is read from the bytes that came.

ghost use Rattle.std.specs.Prelude.{◌≡◌, ◌≤◌, List, ℕ, length, map, All, IfOk, IfSome};
ghost use Rattle.http1.specs.Head.{pairs};
ghost use Rattle.http1.specs.Message.{AcceptsRequest};
ghost use Rattle.http1.specs.declared.framing.Framing.{Framing};
ghost use Rattle.httparse.specs.Grammar.{RequestHead};
ghost use Rattle.httparse.specs.Spans.{IsHeaderWithin, IsRequestAt, IsRequestWithin, header_bytes};
ghost use Rattle.web_request.specs.Asking.{Answers};
ghost use Rattle.web_request.specs.Requests.{is_head, head_only_of, has_body, keeps_open, request_by, refused_by, limits, AnswersHead, AnswersFirst, ReadsRequest};

use crate::credentials::credentials_of;
use crate::head::Head;
use crate::page::{Fault, Refusal, Request, RequestFault};
use crate::target::page_of;
use http1::fields::{ContentLength, KnownFields, TransferEncoding};
use http1::{Event, Header, Limits, ReadError, Server};
use httparse::spans::{EMPTY_HEADER_SPAN, HeaderSpan, RequestSpans};
use std::alloc::{AllocError, Global};

/// A head has at most 16 KiB; the other limits are of bodies, which aren't read.
const LIMITS: Limits = Limits {
    max_head_len: 16_384,
    max_extensions_len: 16_384,
    max_trailers_len: 16_384,
};

/// The most fields of a head.
const MOST_FIELDS: usize = 64;

/// Whether a method is HEAD.
fn is_head(method: &[u8]) -> bool
    ensures { result ≡ is_head method.now }
{
    method == b"HEAD".as_slice()
}

/// Whether only the head of an answer is asked for.
fn head_only_of(method: &[u8]) -> Result<bool, Refusal>
    ensures { result ≡ head_only_of method.now }
{
    if is_head(method) {
        return Ok(true);
    }
    if method == b"GET".as_slice() {
        return Ok(false);
    }
    Err(Refusal::Method)
}

/// Whether a body follows the head.
fn has_body(known: &KnownFields) -> bool
    ensures { result ≡ has_body known.now }
{
    match (known.transfer_encoding, known.content_length) {
        (TransferEncoding::Absent, ContentLength::Absent) => false,
        (TransferEncoding::Absent, ContentLength::Value(length)) => length != 0,
        _ => true,
    }
}

/// Whether the connection may be kept.
fn keeps_open(minor: u8, known: &KnownFields) -> bool
    ensures { result ≡ keeps_open minor known.now }
{
    !known.close && (minor > 0 || known.keep_alive)
}

/// The request that the parts of a head make.
fn request_by(alloc: Global, head: &Head<'_>) -> Result<Request, Fault>
    ensures { Answers (request_by head.now.method.now head.now.target.now head.now.minor
        (pairs head.now.headers.now) head.now.length) result }
{
    let head_only = head_only_of(head.method)?;
    let known = KnownFields::from_headers(head.headers);
    if has_body(&known) {
        return Err(Fault::Refused(Refusal::Body));
    }
    let credentials = credentials_of(alloc, head.headers)?;
    let page = page_of(alloc, head.target)?;
    Ok(Request {
        page,
        head_only,
        credentials,
        keeps_open: keeps_open(head.minor, &known),
        takes_chunks: head.minor > 0,
        length: head.length,
    })
}

/// The headers that spans cover.
fn headers_at<'a>(
    alloc: Global,
    came: &'a [u8],
    spans: &[HeaderSpan],
) -> Result<Vec<Header<'a>>, AllocError>
    requires { All (IsHeaderWithin (length came.now)) spans.now }
    ensures { IfOk result (λ headers. pairs headers.items ≡ map (header_bytes came.now) spans.now) }
{
    let mut headers = Vec::new(alloc);
    for span in spans {
        headers.push(Header {
            name: span.name.of(came),
            value: span.value.of(came),
        })?;
    }
    Ok(headers)
}

/// The request whose head these spans cover.
fn request_at(
    alloc: Global,
    came: &[u8],
    spans: &[HeaderSpan],
    head: RequestSpans,
) -> Result<Request, RequestFault>
    requires { IsRequestWithin came.now spans.now head }
    ensures { (tree : RequestHead) → IsRequestAt came.now spans.now head tree
        → AnswersHead tree result }
{
    let Ok(headers) = headers_at(alloc, came, &spans[..head.headers]) else {
        return Err(RequestFault::OutOfMemory);
    };
    let method = head.method.of(came);
    let parts = Head {
        method,
        target: head.path.of(came),
        minor: head.version,
        headers: &headers,
        length: head.len,
    };
    match request_by(alloc, &parts) {
        Ok(request) => Ok(request),
        Err(Fault::OutOfMemory) => Err(RequestFault::OutOfMemory),
        Err(Fault::Refused(why)) => Err(RequestFault::Refused(why, is_head(method))),
    }
}

/// Why bytes are refused that no head begins.
fn refused_by(error: ReadError) -> Refusal
    ensures { result ≡ refused_by error }
{
    if error.status() == 400 {
        return Refusal::NotHttp;
    }
    Refusal::TooLong
}

/// The request that stands first in the bytes that came.
fn request_in(alloc: Global, came: &[u8]) -> Result<Option<Request>, RequestFault>
    ensures reads { ReadsRequest came.now result }
    ensures within { IfOk result
        (λ read. IfSome read (λ request. request.length ≤ length came.now)) }
{
    let mut spans = [EMPTY_HEADER_SPAN; MOST_FIELDS];
    let mut server = Server::new(LIMITS);
    match server.read(came, &mut spans) {
        Ok(read) => match read.event {
            Event::Head(head) => Ok(Some(request_at(alloc, came, &spans, head)?)),
            _ => Ok(None),
        },
        Err(error) => Err(RequestFault::Refused(refused_by(error), false)),
    }
}

/// Reads the request that stands first in the bytes that came on a connection (RFC 9112, 2 to 6),
/// however many follow it. None says that its head isn't whole yet: call again with more. A head
/// has at most 16 KiB and 64 fields, its lines end in CR LF, it has one Host, and no body follows
/// it; of its method, its body, its credentials and its target the first is refused that is wrong.
/// `RequestFault` says why, or that memory ran out.
pub fn read_request(alloc: Global, came: &[u8]) -> Result<Option<Request>, RequestFault>
    ensures reads { ReadsRequest came.now result }
    ensures found { (head : RequestHead) (framing : Framing) (rest : List ℕ)
        → AcceptsRequest limits came.now head framing rest → length head.fields ≤ 64
        → AnswersFirst head result }
    ensures within { IfOk result
        (λ read. IfSome read (λ request. request.length ≤ length came.now)) }
{
    request_in(alloc, came)
}
