//! Histories, portion by portion: as CSV, and as a page.

ghost use Rattle.std.specs.Prelude.{◌≡◌, ◌≢◌, ◌⊎◌, ◌++◌, [], MatchResult, IfOk, OnOk, None, false};
ghost use Rattle.web_request.specs.Refusals.{refusal_text};
ghost use Rattle.web_request.specs.declared.answer.Kind.TheVariants.{Csv};
ghost use Rattle.history_report.specs.declared.report.Form.TheVariants as forms;
ghost use Rattle.archive.specs.Store.{IsAskedWithin};
ghost use Rattle.http1.specs.Encoder.{piece_text, end_text};
ghost use Rattle.web_connection.specs.Texts.{history_head, coding_of};
ghost use Rattle.web_connection.specs.Answers.{Makes, OnlyAsks, TellsStoreFault, TellsHistory, TellsCsv, IsBegun, BeginsHistory, GoesOn, IsPortionText, rest_of, sending_of, is_variable, report_of};
ghost use Rattle.web_connection.specs.declared.sending.Rest.TheVariants.{Denied};

use crate::sending::{Rest, Sending, Told};
use crate::texts::{refusal_text, told_of};
use archive::Archive;
use history_report::{Form, PartFault, Portions, Report, ReportFault};
use std::alloc::{AllocError, Global};
use ua_binary::NodeId;
use ua_settings::Settings;
use web_request::{Body, Kind, Question, Refusal, put_chunk, put_head, put_last_chunk};

/// Whether the settings have a variable of this id.
pub(crate) fn is_variable(settings: &Settings, node: &NodeId) -> bool
    ensures { result ≡ is_variable settings.now.space node.now }
{
    settings.space().variable(node.as_ref()).is_some()
}

/// The report that a question asks for.
fn report_of(question: Question, form: Form) -> Report
    ensures { result ≡ report_of question form }
{
    Report {
        node: question.node,
        from: question.from,
        to: question.to,
        changes: question.changes,
        form,
        next: None,
    }
}

/// The head of a history.
fn history_head(alloc: Global, kind: Kind, chunked: bool) -> Result<Vec<u8>, AllocError>
    ensures { IfOk result (λ text. text.items ≡ history_head kind chunked) }
{
    let body = if chunked {
        Body::Chunked
    } else {
        Body::UntilClose
    };
    let mut out = Vec::new(alloc);
    put_head(alloc, &mut out, told_of(kind, body))?;
    Ok(out)
}

/// Appends a portion in its frame.
fn put_portion(out: &mut Vec<u8>, portion: &[u8], chunked: bool) -> Result<(), AllocError>
    ensures { OnOk result
        (out.new.items ≡ out.old.items ++ piece_text (coding_of chunked) portion.now) }
{
    if chunked {
        put_chunk(out, portion)
    } else {
        out.extend_from_slice(portion)
    }
}

/// Appends what ends a history.
fn put_end(out: &mut Vec<u8>, chunked: bool) -> Result<(), AllocError>
    ensures { OnOk result
        (out.new.items ≡ out.old.items ++ end_text (coding_of chunked) []) }
{
    if chunked { put_last_chunk(out) } else { Ok(()) }
}

/// The head of a history, and its first portion.
fn begun_text(
    alloc: Global,
    kind: Kind,
    header: &[u8],
    chunked: bool,
) -> Result<Vec<u8>, AllocError>
    ensures { IfOk result (λ text. text.items
        ≡ history_head kind chunked ++ piece_text (coding_of chunked) header.now) }
{
    let mut out = history_head(alloc, kind, chunked)?;
    put_portion(&mut out, header, chunked)?;
    Ok(out)
}

/// A history of this header is begun; or its head is told, where that alone is asked for.
fn begun(
    alloc: Global,
    kind: Kind,
    head_only: bool,
    header: &[u8],
    sending: Sending,
) -> Result<Told, AllocError>
    ensures told { IfOk result (λ told.
        IsBegun kind head_only header.now sending told.text.items (sending_of told.rest)) }
    ensures let_in { IfOk result (λ told. told.rest ≢ Denied) }
{
    if head_only {
        return Ok(Told {
            text: history_head(alloc, kind, sending.chunked)?,
            rest: Rest::Over,
        });
    }
    Ok(Told {
        text: begun_text(alloc, kind, header, sending.chunked)?,
        rest: Rest::Sending(sending),
    })
}

/// A history is refused.
fn refused(alloc: Global, why: Refusal, head_only: bool) -> Result<Told, AllocError>
    ensures told { IfOk result (λ told.
        (told.text.items ≡ refusal_text why head_only) × (sending_of told.rest ≡ None)) }
    ensures let_in { IfOk result (λ told. told.rest ≢ Denied) }
{
    Ok(Told {
        text: refusal_text(alloc, why, head_only)?,
        rest: Rest::Over,
    })
}

/// Begins a history as CSV.
fn begin_csv<A: Archive>(
    alloc: Global,
    archive: &mut A,
    question: Question,
    chunked: bool,
) -> Result<Told, AllocError>
    ensures answers { MatchResult result
        (λ told. Makes (A.state archive.old) (A.state archive.new)
        (λ R faults. (TellsStoreFault false faults told.text.items × (sending_of told.rest ≡ None))
        ⊎ ((faults ≡ []) × BeginsHistory R Csv (report_of question forms.Csv) false chunked
        told.text.items (sending_of told.rest))))
        (λ starved. OnlyAsks (A.state archive.old) (A.state archive.new)) }
    ensures let_in { IfOk result (λ told. told.rest ≢ Denied) }
    ensures asked { IsAskedWithin 8 (A.asked archive.old) (A.asked archive.new) }
{
    let mut names = Vec::new(alloc);
    match Portions::begin(alloc, archive, report_of(question, Form::Csv), &mut names) {
        Ok(portions) => {
            let sending = Sending { portions, chunked };
            begun(alloc, Kind::Csv, false, names.as_slice(), sending)
        }
        Err(ReportFault::Store(_)) => refused(alloc, Refusal::Store, false),
        Err(_) => Err(AllocError),
    }
}

/// A history as CSV: its beginning, or its head alone.
pub(crate) fn told_csv<A: Archive>(
    alloc: Global,
    archive: &mut A,
    question: Question,
    head_only: bool,
    chunked: bool,
) -> Result<Told, AllocError>
    ensures answers { MatchResult result
        (λ told. Makes (A.state archive.old) (A.state archive.new)
        (λ R faults. TellsCsv R question head_only chunked faults told.text.items
        (sending_of told.rest)))
        (λ starved. OnlyAsks (A.state archive.old) (A.state archive.new)) }
    ensures let_in { IfOk result (λ told. told.rest ≢ Denied) }
    ensures asked { IsAskedWithin 8 (A.asked archive.old) (A.asked archive.new) }
{
    if head_only {
        return Ok(Told {
            text: history_head(alloc, Kind::Csv, chunked)?,
            rest: Rest::Over,
        });
    }
    begin_csv(alloc, archive, question, chunked)
}

/// A history as a page: the beginning of its first part, which leads to the rest, or its head alone.
pub(crate) fn told_page<A: Archive>(
    alloc: Global,
    archive: &mut A,
    question: Question,
    head_only: bool,
    chunked: bool,
) -> Result<Told, AllocError>
    ensures answers { MatchResult result
        (λ told. Makes (A.state archive.old) (A.state archive.new)
        (λ R faults. TellsHistory R question head_only chunked faults told.text.items
        (sending_of told.rest)))
        (λ starved. OnlyAsks (A.state archive.old) (A.state archive.new)) }
    ensures let_in { IfOk result (λ told. told.rest ≢ Denied) }
    ensures asked { IsAskedWithin 8 (A.asked archive.old) (A.asked archive.new) }
{
    let mut header = Vec::new(alloc);
    match Portions::begin_part(alloc, archive, report_of(question, Form::Page), &mut header) {
        Ok(portions) => {
            let sending = Sending { portions, chunked };
            begun(alloc, Kind::Html, head_only, header.as_slice(), sending)
        }
        Err(PartFault::Crowded) => refused(alloc, Refusal::Crowded, head_only),
        Err(PartFault::Report(ReportFault::Store(_))) => refused(alloc, Refusal::Store, head_only),
        Err(PartFault::Report(ReportFault::NoText)) => refused(alloc, Refusal::NoText, head_only),
        Err(_) => Err(AllocError),
    }
}

/// A portion in its frame.
fn sent_text(alloc: Global, portion: &[u8], chunked: bool) -> Result<Vec<u8>, AllocError>
    ensures { IfOk result (λ text. text.items ≡ piece_text (coding_of chunked) portion.now) }
{
    let mut out = Vec::new(alloc);
    put_portion(&mut out, portion, chunked)?;
    Ok(out)
}

/// The last portion in its frame, and the end after it.
fn last_text(alloc: Global, portion: &[u8], chunked: bool) -> Result<Vec<u8>, AllocError>
    ensures { IfOk result (λ text. text.items
        ≡ piece_text (coding_of chunked) portion.now ++ end_text (coding_of chunked) []) }
{
    let mut out = Vec::new(alloc);
    put_portion(&mut out, portion, chunked)?;
    put_end(&mut out, chunked)?;
    Ok(out)
}

/// A portion as it is sent: after the last one stands the end. Where the store met a fault, or a value
/// has no text, there is no end.
fn portion_text(
    alloc: Global,
    portion: &[u8],
    next: Result<bool, ReportFault>,
    chunked: bool,
) -> Result<Vec<u8>, AllocError>
    ensures { IfOk result (λ text. IsPortionText chunked portion.now next text.items) }
{
    match next {
        Ok(true) => sent_text(alloc, portion, chunked),
        Ok(false) => last_text(alloc, portion, chunked),
        Err(ReportFault::Store(_)) => sent_text(alloc, portion, chunked),
        Err(ReportFault::NoText) => sent_text(alloc, portion, chunked),
        Err(ReportFault::Write) => Err(AllocError),
        Err(ReportFault::OutOfMemory) => Err(AllocError),
    }
}

/// What is after a portion.
fn rest_of(portions: Portions, next: Result<bool, ReportFault>, chunked: bool) -> Rest
    ensures left { sending_of result ≡ rest_of chunked portions next }
    ensures let_in { result ≢ Denied }
{
    match next {
        Ok(true) => Rest::Sending(Sending { portions, chunked }),
        Ok(false) => Rest::Over,
        Err(_) => Rest::Over,
    }
}

/// The next portion of a history that is being sent. Where the archive's store meets a fault, or a
/// value has no text, the answer is broken off without its end, so that a browser sees it.
pub(crate) fn next_portion<A: Archive>(
    alloc: Global,
    archive: &mut A,
    sending: Sending,
) -> Result<Told, AllocError>
    ensures answers { MatchResult result
        (λ told. Makes (A.state archive.old) (A.state archive.new)
        (λ R faults. GoesOn R sending faults told.text.items (sending_of told.rest)))
        (λ starved. OnlyAsks (A.state archive.old) (A.state archive.new)) }
    ensures let_in { IfOk result (λ told. told.rest ≢ Denied) }
    ensures asked { IsAskedWithin 8 (A.asked archive.old) (A.asked archive.new) }
{
    let Sending {
        mut portions,
        chunked,
    } = sending;
    let mut portion = Vec::new(alloc);
    let next = portions.next(alloc, archive, &mut portion);
    match portion_text(alloc, portion.as_slice(), next, chunked) {
        Ok(text) => Ok(Told {
            text,
            rest: rest_of(portions, next, chunked),
        }),
        Err(_) => Err(AllocError),
    }
}
