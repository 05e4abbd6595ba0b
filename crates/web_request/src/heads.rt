//! How the head of an answer is written.

ghost use Rattle.std.specs.Prelude.{◌≡◌, [], ◌++◌, codes, IfOk, OnOk, OnErr};
ghost use Rattle.web_request.specs.Heads.{status_words, kind_text, line, head_field, guards, demand, connection_text, framing, body_fields, head_text};

use crate::answer::{Answer, Body, Kind, Status};
use itoa::Buffer;
use std::alloc::{AllocError, Global};

/// A status by its code and its reason.
pub(crate) fn status_text(status: Status) -> &'static str
    ensures { result.now ≡ status_words status }
{
    match status {
        Status::Success => "200 OK",
        Status::BadRequest => "400 Bad Request",
        Status::Unauthorized => "401 Unauthorized",
        Status::Forbidden => "403 Forbidden",
        Status::NotFound => "404 Not Found",
        Status::MethodNotAllowed => "405 Method Not Allowed",
        Status::ContentTooLarge => "413 Content Too Large",
        Status::FieldsTooLarge => "431 Request Header Fields Too Large",
        Status::InternalError => "500 Internal Server Error",
        Status::Unavailable => "503 Service Unavailable",
    }
}

/// What a body is, by its media type.
fn kind_text(kind: Kind) -> &'static str
    ensures { result.now ≡ kind_text kind }
{
    match kind {
        Kind::Html => "text/html; charset=utf-8",
        Kind::Csv => "text/csv; charset=utf-8",
        Kind::Json => "application/json",
    }
}

/// Whether the connection is kept.
fn connection_text(keeps_open: bool) -> &'static str
    ensures { result.now ≡ connection_text keeps_open }
{
    if keeps_open { "keep-alive" } else { "close" }
}

/// Appends the first line.
#[tactic(auto, unfolding(crate::specs::Heads::line))]
fn put_status(out: &mut Vec<u8>, status: Status) -> Result<(), AllocError>
    ensures { OnOk result (out.new.items
        ≡ out.old.items ++ line (codes "HTTP/1.1 " ++ status_words status)) }
{
    out.extend_from_slice(b"HTTP/1.1 ")?;
    out.extend_from_slice(status_text(status).as_bytes())?;
    out.extend_from_slice(b"\r\n")?;
    Ok(())
}

/// Appends the empty line.
#[tactic(auto, unfolding(crate::specs::Heads::line))]
fn put_line(out: &mut Vec<u8>) -> Result<(), AllocError>
    ensures { OnOk result (out.new.items ≡ out.old.items ++ line []) }
{
    out.extend_from_slice(b"\r\n")
}

/// Appends a field.
#[tactic(auto, unfolding(crate::specs::Heads::head_field))]
fn put_field(out: &mut Vec<u8>, name: &str, value: &str) -> Result<(), AllocError>
    ensures { OnOk result (out.new.items ≡ out.old.items ++ head_field name.now value.now) }
{
    out.extend_from_slice(name.as_bytes())?;
    out.extend_from_slice(b": ")?;
    out.extend_from_slice(value.as_bytes())?;
    out.extend_from_slice(b"\r\n")?;
    Ok(())
}

/// Appends the fields that every answer has.
#[tactic(auto, unfolding(crate::specs::Heads::guards))]
fn put_guards(out: &mut Vec<u8>) -> Result<(), AllocError>
    ensures { OnOk result (out.new.items ≡ out.old.items ++ guards) }
{
    put_field(out, "Cache-Control", "no-store")?;
    put_field(
        out,
        "Content-Security-Policy",
        "default-src 'none'; style-src 'unsafe-inline'",
    )?;
    put_field(out, "X-Content-Type-Options", "nosniff")?;
    put_field(out, "X-Frame-Options", "DENY")?;
    put_field(out, "Referrer-Policy", "no-referrer")?;
    Ok(())
}

/// Appends what a status asks for.
fn put_demand(out: &mut Vec<u8>, status: Status) -> Result<(), AllocError>
    ensures { OnOk result (out.new.items ≡ out.old.items ++ demand status) }
{
    match status {
        Status::Unauthorized => put_field(
            out,
            "WWW-Authenticate",
            "Basic realm=\"uahist\", charset=\"UTF-8\"",
        ),
        Status::MethodNotAllowed => put_field(out, "Allow", "GET, HEAD"),
        _ => Ok(()),
    }
}

/// Appends the field by which the end of a body is told, where there is one.
fn put_framing(out: &mut Vec<u8>, body: Body) -> Result<(), AllocError>
    ensures { OnOk result (out.new.items ≡ out.old.items ++ framing body) }
{
    let mut buffer = Buffer::new();
    match body {
        Body::Length(length) => put_field(out, "Content-Length", buffer.format(length)),
        Body::Chunked => put_field(out, "Transfer-Encoding", "chunked"),
        Body::UntilClose => Ok(()),
    }
}

/// Appends the fields that tell of the body and of the connection.
fn put_facts(out: &mut Vec<u8>, answer: Answer) -> Result<(), AllocError>
    ensures { OnOk result (out.new.items ≡ out.old.items ++ body_fields answer) }
{
    put_field(out, "Content-Type", kind_text(answer.kind))?;
    put_framing(out, answer.body)?;
    put_field(out, "Connection", connection_text(answer.keeps_open))?;
    Ok(())
}

/// The head of an answer, in memory of its own.
pub(crate) fn head_text(alloc: Global, answer: Answer) -> Result<Vec<u8>, AllocError>
    ensures { IfOk result (λ text. text.items ≡ head_text answer) }
{
    let mut out = Vec::new(alloc);
    put_status(&mut out, answer.status)?;
    put_facts(&mut out, answer)?;
    put_guards(&mut out)?;
    put_demand(&mut out, answer.status)?;
    put_line(&mut out)?;
    Ok(out)
}

/// Appends the head of an answer, with the empty line behind it (RFC 9112, 4 and 5): the status,
/// and fields for what the body is, how its end is told and whether the connection is kept; no cache
/// keeps it, and a page in it loads nothing but its own style, has no script and isn't shown in another.
/// With 401 it asks for Basic credentials in UTF-8 (RFC 7617, 2), with 405 it tells GET and HEAD.
/// The one error is that memory ran out, and then nothing is appended.
pub fn put_head(alloc: Global, out: &mut Vec<u8>, answer: Answer) -> Result<(), AllocError>
    ensures written { OnOk result (out.new.items ≡ out.old.items ++ head_text answer) }
    ensures kept { OnErr result (out.new.items ≡ out.old.items) }
{
    let text = head_text(alloc, answer)?;
    out.extend_from_slice(text.as_slice())
}
