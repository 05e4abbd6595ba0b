//! The pages that are told whole.

ghost use Rattle.std.specs.Prelude.{◌≡◌, ℕ, List, MatchResult, IfOk};
ghost use Rattle.archive.specs.Store.{IsAskedWithin};
ghost use Rattle.stamp.specs.Numbers.{number_of};
ghost use Rattle.web_page.specs.Calls.{overview_of};
ghost use Rattle.web_page.specs.Front.{IsFront};
ghost use Rattle.web_request.specs.declared.answer.Kind.TheVariants.{Html, Json};
ghost use Rattle.web_connection.specs.Status.{IsStatusJson};
ghost use Rattle.web_connection.specs.Texts.{answer_text};
ghost use Rattle.web_connection.specs.Answers.{IsStatus, Makes, OnlyAsks, TellsPage};

use crate::status::status_text;
use crate::texts::{page_text, refusal_text};
use archive::Archive;
use stamp::Vector;
use std::alloc::{AllocError, Global};
use web_page::{Overview, PageFault, put_front};
use web_request::{Kind, Refusal};

/// The page that a person begins at.
pub(crate) fn front_text<A: Archive>(
    alloc: Global,
    archive: &mut A,
    overview: Overview<'_>,
    head_only: bool,
) -> Result<Vec<u8>, AllocError>
    ensures answers { MatchResult result
        (λ text. Makes (A.state archive.old) (A.state archive.new)
        (λ R faults. TellsPage Html head_only (IsFront (overview_of overview.entry) R) faults
        text.items))
        (λ starved. OnlyAsks (A.state archive.old) (A.state archive.new)) }
    ensures asked { IsAskedWithin 8 (A.asked archive.old) (A.asked archive.new) }
{
    let mut page = Vec::new(alloc);
    match put_front(alloc, archive, overview, &mut page) {
        Ok(()) => page_text(alloc, Kind::Html, page.as_slice(), head_only),
        Err(PageFault::Store(_)) => refusal_text(alloc, Refusal::Store, head_only),
        Err(PageFault::OutOfMemory) => Err(AllocError),
    }
}

/// The page that says how the server does, by the number of each replica's last record and by its
/// last calls of peers.
fn state_page(
    alloc: Global,
    overview: Overview<'_>,
    vector: &Vector,
    head_only: bool,
) -> Result<Vec<u8>, AllocError>
    ensures { IfOk result (λ text. (page : List ℕ)
        × IsStatusJson (overview_of overview.entry) (number_of vector.now) page
        × (text.items ≡ answer_text Json page head_only)) }
{
    let page = status_text(alloc, overview, vector)?;
    page_text(alloc, Kind::Json, page.as_slice(), head_only)
}

/// How the server does.
pub(crate) fn state_text<A: Archive>(
    alloc: Global,
    archive: &mut A,
    overview: Overview<'_>,
    head_only: bool,
) -> Result<Vec<u8>, AllocError>
    ensures answers { MatchResult result
        (λ text. Makes (A.state archive.old) (A.state archive.new)
        (λ R faults. TellsPage Json head_only (IsStatus (overview_of overview.entry) R) faults
        text.items))
        (λ starved. OnlyAsks (A.state archive.old) (A.state archive.new)) }
    ensures asked { IsAskedWithin 8 (A.asked archive.old) (A.asked archive.new) }
{
    match archive.vector() {
        Ok(vector) => state_page(alloc, overview, &vector, head_only),
        Err(_) => refusal_text(alloc, Refusal::Store, head_only),
    }
}
