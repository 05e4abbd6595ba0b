//! Which page a target names.

ghost use Rattle.std.specs.Prelude.{◌≡◌, ◌<◌, IfSome, length, position};
ghost use Rattle.web_request.specs.Asking.{Answers};
ghost use Rattle.web_request.specs.Targets.{is_mark, unasked, history_in, csv_in, page_at, target_page};

use crate::page::{Fault, Page, Part, Refusal};
use crate::query::question_in;
use std::alloc::Global;

/// Where the first question mark stands.
fn mark_of(target: &[u8]) -> Option<usize>
    ensures place { result ≡ position is_mark target.now }
    ensures within { IfSome result (λ mark. mark < length target.now) }
{
    target.iter().position(|&b| b == b'?')
}

/// A page that is asked nothing by a query.
#[tactic(auto, unfolding(crate::specs::Targets::unasked))]
fn unasked(query: &[u8], page: Page) -> Result<Page, Fault>
    ensures { Answers (unasked query.now page) result }
{
    if !query.is_empty() {
        return Err(Fault::Refused(Refusal::Part(Part::Unknown)));
    }
    Ok(page)
}

/// A history as a page, that a query asks for.
#[tactic(auto, unfolding(crate::specs::Targets::history_in))]
fn history_in(alloc: Global, query: &[u8]) -> Result<Page, Fault>
    ensures { Answers (history_in query.now) result }
{
    let question = question_in(alloc, query)?;
    Ok(Page::History(question))
}

/// The same as CSV.
#[tactic(auto, unfolding(crate::specs::Targets::csv_in))]
fn csv_in(alloc: Global, query: &[u8]) -> Result<Page, Fault>
    ensures { Answers (csv_in query.now) result }
{
    let question = question_in(alloc, query)?;
    Ok(Page::Csv(question))
}

/// The page of a path, with what its query asks.
#[tactic(auto, unfolding(crate::specs::Targets::page_at))]
fn page_at(alloc: Global, path: &[u8], query: &[u8]) -> Result<Page, Fault>
    ensures { Answers (page_at path.now query.now) result }
{
    if path == b"/".as_slice() {
        return unasked(query, Page::Front);
    }
    if path == b"/history".as_slice() {
        return history_in(alloc, query);
    }
    if path == b"/history.csv".as_slice() {
        return csv_in(alloc, query);
    }
    if path == b"/status.json".as_slice() {
        return unasked(query, Page::Status);
    }
    Err(Fault::Refused(Refusal::Path))
}

/// The page that a target names.
#[tactic(auto, unfolding(crate::specs::Targets::target_page))]
pub(crate) fn page_of(alloc: Global, target: &[u8]) -> Result<Page, Fault>
    ensures { Answers (target_page target.now) result }
{
    let Some(mark) = mark_of(target) else {
        return page_at(alloc, target, &[]);
    };
    let (path, _) = target.split_at(mark);
    let (_, query) = target.split_at(mark + 1);
    page_at(alloc, path, query)
}
