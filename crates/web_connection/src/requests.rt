//! What a request is answered.

ghost use Rattle.std.specs.Prelude.{◌≡◌, ◌≢◌, ◌↔◌, [], true, MatchResult, MatchOption, IfOk, None};
ghost use Rattle.archive.specs.Store.{IsAskedWithin};
ghost use Rattle.web_request.specs.Requests.{IsCutHead};
ghost use Rattle.web_page.specs.Calls.{overview_of};
ghost use Rattle.web_connection.specs.Access.{are_wrong};
ghost use Rattle.web_connection.specs.Answers.{Makes, OnlyAsks, lacks_variable, refusal_of, sending_of, TellsAsked, AnswersRequest, AnswersInput, AreWrongIn};
ghost use Rattle.web_connection.specs.declared.sending.Rest.TheVariants.{Denied};

use crate::access::{are_wrong, is_let_in};
use crate::history::{is_variable, told_csv, told_page};
use crate::pages::{front_text, state_text};
use crate::sending::{Rest, Told};
use crate::texts::refusal_text;
use archive::Archive;
use std::alloc::{AllocError, Global};
use ua_settings::Settings;
use web_page::Overview;
use web_request::{Page, Refusal, Request, RequestFault, read_request};

/// Whether a history is asked for of a node that is no variable of the settings.
fn lacks_variable(settings: &Settings, page: &Page) -> bool
    ensures { result ≡ lacks_variable settings.now.space page.now }
{
    match page {
        Page::Front | Page::Status => false,
        Page::History(question) | Page::Csv(question) => !is_variable(settings, &question.node),
    }
}

/// Why a request isn't answered by its page, if it isn't.
fn refusal_of(settings: &Settings, request: &Request) -> Option<Refusal>
    ensures { result ≡ refusal_of settings.now request.now }
{
    if !is_let_in(settings, &request.credentials) {
        return Some(Refusal::Credentials);
    }
    if lacks_variable(settings, &request.page) {
        return Some(Refusal::Unknown);
    }
    None
}

/// What is after a refusal.
fn refused_rest(settings: &Settings, request: &Request) -> Rest
    ensures none { sending_of result ≡ None }
    ensures denied { (result ≡ Denied) ↔ (are_wrong settings.now request.now.credentials ≡ true) }
{
    if are_wrong(settings, &request.credentials) {
        Rest::Denied
    } else {
        Rest::Over
    }
}

/// What somebody who is let in is told.
fn told_request<A: Archive>(
    alloc: Global,
    archive: &mut A,
    overview: Overview<'_>,
    request: Request,
) -> Result<Told, AllocError>
    ensures answers { MatchResult result
        (λ told. Makes (A.state archive.old) (A.state archive.new)
        (λ R faults. TellsAsked (overview_of overview.entry) R request.page request.head_only
        request.takes_chunks faults told.text.items (sending_of told.rest)))
        (λ starved. OnlyAsks (A.state archive.old) (A.state archive.new)) }
    ensures let_in { IfOk result (λ told. told.rest ≢ Denied) }
    ensures asked { IsAskedWithin 8 (A.asked archive.old) (A.asked archive.new) }
{
    let Request {
        page,
        head_only,
        takes_chunks,
        ..
    } = request;
    match page {
        Page::Front => Ok(Told {
            text: front_text(alloc, archive, overview, head_only)?,
            rest: Rest::Over,
        }),
        Page::Status => Ok(Told {
            text: state_text(alloc, archive, overview, head_only)?,
            rest: Rest::Over,
        }),
        Page::Csv(question) => told_csv(alloc, archive, question, head_only, takes_chunks),
        Page::History(question) => told_page(alloc, archive, question, head_only, takes_chunks),
    }
}

/// What a request is answered.
fn answer_request<A: Archive>(
    alloc: Global,
    archive: &mut A,
    overview: Overview<'_>,
    request: Request,
) -> Result<Told, AllocError>
    ensures answers { MatchResult result
        (λ told. Makes (A.state archive.old) (A.state archive.new)
        (λ R faults. AnswersRequest (overview_of overview.entry) R request faults told.text.items
        (sending_of told.rest)))
        (λ starved. OnlyAsks (A.state archive.old) (A.state archive.new)) }
    ensures denied { IfOk result
        (λ told. (told.rest ≡ Denied)
        ↔ (are_wrong overview.entry.settings.now request.credentials ≡ true)) }
    ensures asked { IsAskedWithin 8 (A.asked archive.old) (A.asked archive.new) }
{
    match refusal_of(overview.settings, &request) {
        Some(why) => Ok(Told {
            text: refusal_text(alloc, why, request.head_only)?,
            rest: refused_rest(overview.settings, &request),
        }),
        None => told_request(alloc, archive, overview, request),
    }
}

/// What is answered to what came; none where no whole head came.
pub(crate) fn answer_first<A: Archive>(
    alloc: Global,
    archive: &mut A,
    overview: Overview<'_>,
    came: &[u8],
) -> Result<Option<Told>, AllocError>
    ensures answers { MatchResult result
        (λ answer. MatchOption answer
        (IsCutHead came.now × Makes (A.state archive.old) (A.state archive.new)
        (λ R faults. faults ≡ []))
        (λ told. Makes (A.state archive.old) (A.state archive.new)
        (λ R faults. AnswersInput (overview_of overview.entry) R came.now faults told.text.items
        (sending_of told.rest))))
        (λ starved. OnlyAsks (A.state archive.old) (A.state archive.new)) }
    ensures denied { IfOk result (λ answer. MatchOption answer
        (¬ AreWrongIn overview.entry.settings.now came.now)
        (λ told. (told.rest ≡ Denied) ↔ AreWrongIn overview.entry.settings.now came.now)) }
    ensures asked { IsAskedWithin 8 (A.asked archive.old) (A.asked archive.new) }
{
    match read_request(alloc, came) {
        Ok(None) => Ok(None),
        Ok(Some(request)) => Ok(Some(answer_request(alloc, archive, overview, request)?)),
        Err(RequestFault::Refused(why, head_only)) => Ok(Some(Told {
            text: refusal_text(alloc, why, head_only)?,
            rest: Rest::Over,
        })),
        Err(RequestFault::OutOfMemory) => Err(AllocError),
    }
}
