//! How a refusal is told.

ghost use Rattle.std.specs.Prelude.{◌≡◌, ◌++◌, IfOk, OnOk, OnErr};
ghost use Rattle.web_request.specs.Refusals.{status_of, part_advice, advice, page_text, refusal_text};

use crate::answer::{Answer, Body, Kind, Status};
use crate::heads::{head_text, status_text};
use crate::page::{Part, Refusal};
use std::alloc::{AllocError, Global};

/// What is told of a value that has no text.
const NO_TEXT: &str = "A value of this history is of a type that isn't written as text.";

/// What is told of too many modifications at one moment.
const CROWDED: &str =
    "More than 500 modifications stand at one moment: ask for them by /history.csv.";

/// The status of a refusal.
fn status_of(why: Refusal) -> Status
    ensures { result ≡ status_of why }
{
    match why {
        Refusal::NotHttp | Refusal::Part(_) => Status::BadRequest,
        Refusal::TooLong => Status::FieldsTooLarge,
        Refusal::Method => Status::MethodNotAllowed,
        Refusal::Path | Refusal::Unknown => Status::NotFound,
        Refusal::Body => Status::ContentTooLarge,
        Refusal::Credentials => Status::Unauthorized,
        Refusal::Store => Status::Unavailable,
        Refusal::NoText | Refusal::Crowded => Status::InternalError,
    }
}

/// What would be right in place of a part of a query.
fn part_advice(part: Part) -> &'static str
    ensures { result.now ≡ part_advice part }
{
    match part {
        Part::Node => "node: expected a node id, as ns%3D1%3Bs%3DTemperature or i%3D2258.",
        Part::From => "from: expected a time, as 2026-03-01T12:00:00Z.",
        Part::To => "to: expected a time, as 2026-03-01T12:00:00Z.",
        Part::Changes => "changes: expected true or false.",
        Part::Unknown => "Expected node, from, to and changes for a history, else nothing.",
        Part::Twice => "Expected each of node, from, to and changes once.",
    }
}

/// What would be right.
fn advice(why: Refusal) -> &'static str
    ensures { result.now ≡ advice why }
{
    match why {
        Refusal::NotHttp => "Expected a request of HTTP/1.1, with one Host field.",
        Refusal::TooLong => "Expected at most 16 KiB and 64 fields in the head of a request.",
        Refusal::Method => "Expected GET or HEAD.",
        Refusal::Path => "Expected /, /history, /history.csv or /status.json.",
        Refusal::Body => "Expected a request without a body.",
        Refusal::Part(part) => part_advice(part),
        Refusal::Credentials => "Expected a name and a password by the scheme Basic.",
        Refusal::Unknown => "There is no variable of this node id.",
        Refusal::Store => "The archive can't be read now.",
        Refusal::NoText => NO_TEXT,
        Refusal::Crowded => CROWDED,
    }
}

/// The page that tells a refusal.
fn page_text(alloc: Global, why: Refusal) -> Result<Vec<u8>, AllocError>
    ensures { IfOk result (λ text. text.items ≡ page_text why) }
{
    let title = status_text(status_of(why)).as_bytes();
    let mut out = Vec::new(alloc);
    out.extend_from_slice(
        b"<!DOCTYPE html>\n<html lang=\"en\">\n<head><meta charset=\"utf-8\"><title>",
    )?;
    out.extend_from_slice(title)?;
    out.extend_from_slice(b"</title></head>\n<body><h1>")?;
    out.extend_from_slice(title)?;
    out.extend_from_slice(b"</h1>\n<p>")?;
    out.extend_from_slice(advice(why).as_bytes())?;
    out.extend_from_slice(b"</p></body>\n</html>\n")?;
    Ok(out)
}

/// The answer to a request that is refused, in memory of its own.
fn refusal_text(alloc: Global, why: Refusal, head_only: bool) -> Result<Vec<u8>, AllocError>
    ensures { IfOk result (λ text. text.items ≡ refusal_text why head_only) }
{
    let page = page_text(alloc, why)?;
    let answer = Answer {
        status: status_of(why),
        kind: Kind::Html,
        body: Body::Length(page.len()),
        keeps_open: false,
    };
    let mut out = head_text(alloc, answer)?;
    if !head_only {
        out.extend_from_slice(page.as_slice())?;
    }
    Ok(out)
}

/// Appends the answer to a request that is refused: a page that says what was expected in its
/// place, or its head alone. It tells that the connection is closed behind it, since what follows
/// isn't read. The one error is that memory ran out, and then nothing is appended.
pub fn put_refusal(
    alloc: Global,
    out: &mut Vec<u8>,
    why: Refusal,
    head_only: bool,
) -> Result<(), AllocError>
    ensures written { OnOk result (out.new.items ≡ out.old.items ++ refusal_text why head_only) }
    ensures kept { OnErr result (out.new.items ≡ out.old.items) }
{
    let text = refusal_text(alloc, why, head_only)?;
    out.extend_from_slice(text.as_slice())
}
