//! A browser's connection: the bytes that came of its request, and what is still to be sent.

ghost use Rattle.std.specs.Prelude.{◌≡◌, ◌≢◌, ◌↔◌, ◌++◌, [], List, ℕ, None, Ok, IfOk, OnOk, OnErr, MatchOption, MatchResult};
ghost use Rattle.archive.specs.Store.{IsAskedWithin};
ghost use Rattle.web_connection.specs.declared.step.WebStep.TheVariants.{NeedsInput};
ghost use Rattle.web_connection.specs.declared.sending.Rest.TheVariants.{Denied};
ghost use Rattle.web_page.specs.Calls.{overview_of};
ghost use Rattle.web_request.specs.Requests.{IsCutHead};
ghost use Rattle.web_connection.specs.Answers.{AnswersWeb, GoesFurther, IsDenied, Makes, NeedsRequest, OnlyAsks, new_web, sending_of, with_input, web_of, step_of};

use crate::history::next_portion;
use crate::requests::answer_first;
use crate::sending::{Rest, Sending, Told};
use crate::step::WebStep;
use archive::Archive;
use std::alloc::{AllocError, Global};
use std::marker::Model;
use web_page::Overview;

/// Keeps what is still to be sent. What the step comes to.
fn keep(rest: Rest, sending: &mut Option<Sending>) -> WebStep
    ensures kept { sending.new ≡ sending_of rest }
    ensures same { result ≡ step_of rest }
    ensures goes { result ≢ NeedsInput }
{
    match rest {
        Rest::Sending(left) => {
            *sending = Some(left);
            WebStep::Continues
        }
        Rest::Over => {
            *sending = None;
            WebStep::Ended
        }
        Rest::Denied => {
            *sending = None;
            WebStep::Denied
        }
    }
}

/// What is told next, by what came and what of a history is still to be sent; none where no whole
/// head came.
fn tell_next<A: Archive>(
    alloc: Global,
    came: &[u8],
    sending: Option<Sending>,
    overview: Overview<'_>,
    archive: &mut A,
) -> Result<Option<Told>, AllocError>
    ensures answers { MatchResult result
        (λ answer. MatchOption answer
        ((sending ≡ None) × IsCutHead came.now
        × Makes (A.state archive.old) (A.state archive.new) (λ R faults. faults ≡ []))
        (λ told. Makes (A.state archive.old) (A.state archive.new)
        (λ R faults. GoesFurther (overview_of overview.entry) R came.now sending faults
        told.text.items (sending_of told.rest))))
        (λ starved. OnlyAsks (A.state archive.old) (A.state archive.new)) }
    ensures denied { IfOk result (λ answer. MatchOption answer
        (¬ IsDenied overview.entry.settings.now (web_of came.now sending))
        (λ told. (told.rest ≡ Denied)
        ↔ IsDenied overview.entry.settings.now (web_of came.now sending))) }
    ensures asked { IsAskedWithin 8 (A.asked archive.old) (A.asked archive.new) }
{
    match sending {
        None => answer_first(alloc, archive, overview, came),
        Some(left) => match next_portion(alloc, archive, left) {
            Ok(told) => Ok(Some(told)),
            Err(_) => Err(AllocError),
        },
    }
}

/// Appends what is told; what is still to be sent is kept.
fn send(out: &mut Vec<u8>, told: Told, sending: &mut Option<Sending>) -> Result<WebStep, AllocError>
    ensures ok { IfOk result (λ step. (out.new.items ≡ out.old.items ++ told.text.items)
        × (sending.new ≡ sending_of told.rest) × (step ≡ step_of told.rest)) }
    ensures err { OnErr result (out.new.items ≡ out.old.items) }
    ensures goes { result ≢ Ok NeedsInput }
{
    out.extend_from_slice(told.text.as_slice())?;
    Ok(keep(told.rest, sending))
}

/// Makes the next part of the answer.
fn take_step<A: Archive>(
    came: &[u8],
    sending: &mut Option<Sending>,
    overview: Overview<'_>,
    archive: &mut A,
    out: &mut Vec<u8>,
) -> Result<WebStep, AllocError>
    ensures answers { (made : List ℕ) × (out.new.items ≡ out.old.items ++ made)
        × AnswersWeb (overview_of overview.entry) (A.state archive.old) (A.state archive.new)
        (web_of came.now sending.old) made result (web_of came.now sending.new) }
    ensures lacks { result ≡ Ok NeedsInput
        → (out.new.items ≡ out.old.items) × NeedsRequest (web_of came.now sending.new) }
    ensures asked { IsAskedWithin 8 (A.asked archive.old) (A.asked archive.new) }
{
    let alloc = *out.allocator();
    match tell_next(alloc, came, sending.take(), overview, archive) {
        Ok(None) => Ok(WebStep::NeedsInput),
        Ok(Some(told)) => send(out, told, sending),
        Err(_) => Err(AllocError),
    }
}

/// One connection of a browser, which carries one request. It reads and writes nothing: `feed` takes
/// the bytes that came, and `answer` makes what is to be written.
#[derive(Drop)]
pub struct WebConnection {
    came: Vec<u8>,
    sending: Option<Sending>,
}

impl Model for WebConnection {
    ghost use Rattle.web_connection.specs.Answers.{WebState, web_of};

    ghost Value = { WebState };

    ghost view = { λ c. web_of c.came.items c.sending };
}

impl WebConnection {
    /// Nothing came yet. It takes no memory.
    pub fn new(alloc: Global) -> WebConnection
        ensures { result ≡ new_web }
    {
        WebConnection {
            came: Vec::new(alloc),
            sending: None,
        }
    }

    /// Takes the next bytes of the browser; what comes while a history is being sent is left aside.
    /// The one error is want of memory, which changes nothing.
    pub fn feed(&mut self, bytes: &[u8]) -> Result<(), AllocError>
        ensures ok { OnOk result (self.new ≡ with_input self.old bytes.now) }
        ensures err { OnErr result (self.new ≡ self.old) }
    {
        if self.sending.is_some() {
            return Ok(());
        }
        self.came.extend_from_slice(bytes)
    }

    /// Makes the next part of the answer, and appends it to `out`: what came is refused, or the page
    /// that is asked for is told, whole or its head alone; a history, as CSV or as a page, is begun, and
    /// goes on at each call, by at most eight values or modifications, and 64 KiB and a line, of the
    /// records that were held when it began. Who isn't one of the settings' users is told that, and no
    /// page; where credentials were given, the step is `Denied`. The archive stays as it is; where its
    /// store meets a fault that is told, or a history that was begun is broken off.
    ///
    /// The one error is want of memory, and then nothing is appended. The connection is over then, as
    /// it is after `Ended` and `Denied`.
    pub fn answer<A: Archive>(
        &mut self,
        overview: Overview<'_>,
        archive: &mut A,
        out: &mut Vec<u8>,
    ) -> Result<WebStep, AllocError>
        ensures answers { (made : List ℕ) × (out.new.items ≡ out.old.items ++ made)
            × AnswersWeb (overview_of overview.entry) (A.state archive.old) (A.state archive.new)
            self.old made result self.new }
        ensures lacks { result ≡ Ok NeedsInput
            → (out.new.items ≡ out.old.items) × NeedsRequest self.new }
        ensures asked { IsAskedWithin 8 (A.asked archive.old) (A.asked archive.new) }
    {
        take_step(
            self.came.as_slice(),
            &mut self.sending,
            overview,
            archive,
            out,
        )
    }
}
