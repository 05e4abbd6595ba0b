//! How an answer is written around its page.

ghost use Rattle.std.specs.Prelude.{◌≡◌, IfOk};
ghost use Rattle.web_request.specs.Refusals.{refusal_text};
ghost use Rattle.web_connection.specs.Texts.{told_of, answer_text};

use std::alloc::{AllocError, Global};
use web_request::{Answer, Body, Kind, Refusal, Status, put_head, put_refusal};

/// What the head of an answer tells.
pub(crate) fn told_of(kind: Kind, body: Body) -> Answer
    ensures { result ≡ told_of kind body }
{
    Answer {
        status: Status::Success,
        kind,
        body,
        keeps_open: false,
    }
}

/// The answer that is a page, or its head alone.
pub(crate) fn page_text(
    alloc: Global,
    kind: Kind,
    page: &[u8],
    head_only: bool,
) -> Result<Vec<u8>, AllocError>
    ensures { IfOk result (λ text. text.items ≡ answer_text kind page.now head_only) }
{
    let mut out = Vec::new(alloc);
    put_head(alloc, &mut out, told_of(kind, Body::Length(page.len())))?;
    if !head_only {
        out.extend_from_slice(page)?;
    }
    Ok(out)
}

/// The answer that is a refusal, or its head alone.
pub(crate) fn refusal_text(
    alloc: Global,
    why: Refusal,
    head_only: bool,
) -> Result<Vec<u8>, AllocError>
    ensures { IfOk result (λ text. text.items ≡ refusal_text why head_only) }
{
    let mut out = Vec::new(alloc);
    put_refusal(alloc, &mut out, why, head_only)?;
    Ok(out)
}
