//! What an archive is asked for, a page at a time.

ghost use Rattle.std.specs.Prelude.{◌≡◌, MatchResult};
ghost use Rattle.archive.specs.Reading.{place_of};
ghost use Rattle.archive.specs.Store.{IsAskedWithin};
ghost use Rattle.history_report.specs.Paging.{IsBehind, place_behind, values_left, changes_left, Offers, GivesPage, Fails};

use crate::report::Report;
use crate::span::Span;
use archive::{Archive, Direction, LogPlace, StoreFault};
use records::{Entry, Held};
use stamp::{Stamp, Vector};
use std::alloc::Global;

/// The most items of a page.
const MOST: usize = 8;

/// What is still to come of a node's history.
#[derive(Debug, Drop)]
pub(crate) struct Pages {
    /// The records that are shown.
    pub(crate) within: Vector,
    /// The moments that are still to come.
    pub(crate) span: Span,
    /// The place behind which modifications are still to come.
    pub(crate) after: Option<LogPlace>,
}

/// The moments of a span that are behind the last of some live values, where there is one.
pub(crate) fn span_behind(span: Span, rows: &[Held]) -> Span
    ensures { IsBehind rows.now span.from span.to result.from result.to }
{
    match rows.last() {
        Some(last) => span.behind(last.time),
        None => span,
    }
}

/// The first live values that are still to come, and stay so; none where nothing is.
pub(crate) fn first_values<A: Archive>(
    alloc: Global,
    archive: &mut A,
    report: &Report,
    pages: &Pages,
) -> Result<Vec<Held>, StoreFault>
    ensures offers { MatchResult result
        (λ page. Offers (A.state archive.old) (A.state archive.new) page.items
        (values_left report.now.node pages.now))
        (λ why. Fails (A.state archive.old) (A.state archive.new) why) }
    ensures asked { IsAskedWithin 8 (A.asked archive.old) (A.asked archive.new) }
{
    let Span { from, to } = pages.span;
    let way = Direction::Forward;
    archive.range(alloc, &report.node, from, to, way, MOST, &pages.within)
}

/// The next page of live values; an empty one is the last.
pub(crate) fn next_values<A: Archive>(
    alloc: Global,
    archive: &mut A,
    report: &Report,
    pages: &mut Pages,
) -> Result<Vec<Held>, StoreFault>
    ensures pages { MatchResult result
        (λ page. GivesPage (A.state archive.old) (A.state archive.new) page.items
        (values_left report.now.node pages.new) (values_left report.now.node pages.old))
        (λ why. Fails (A.state archive.old) (A.state archive.new) why) }
    ensures same { pages.new.within ≡ pages.old.within }
    ensures asked { IsAskedWithin 8 (A.asked archive.old) (A.asked archive.new) }
{
    let page = match first_values(alloc, archive, report, pages) {
        Ok(page) => page,
        Err(fault) => return Err(fault),
    };
    pages.span = span_behind(pages.span, page.as_slice());
    Ok(page)
}

/// The place of a modification.
fn place_of(entry: &Entry) -> LogPlace
    ensures { result ≡ place_of entry.now }
{
    LogPlace {
        time: entry.time,
        stamp: Stamp {
            tick: entry.tick,
            origin: entry.origin,
        },
    }
}

/// What is still to come is behind the last of some modifications, where there is one.
pub(crate) fn go_behind(pages: &mut Pages, rows: &[Entry])
    ensures { pages.new ≡ record pages.old { after = place_behind pages.old.after rows.now } }
{
    match rows.last() {
        Some(last) => pages.after = Some(place_of(last)),
        None => {}
    }
}

/// The first modifications that are still to come, and stay so; none where nothing is.
pub(crate) fn first_changes<A: Archive>(
    alloc: Global,
    archive: &mut A,
    report: &Report,
    pages: &Pages,
) -> Result<Vec<Entry>, StoreFault>
    ensures offers { MatchResult result
        (λ page. Offers (A.state archive.old) (A.state archive.new) page.items
        (changes_left report.now.node pages.now))
        (λ why. Fails (A.state archive.old) (A.state archive.new) why) }
    ensures asked { IsAskedWithin 8 (A.asked archive.old) (A.asked archive.new) }
{
    let Span { from, to } = pages.span;
    let (after, way) = (pages.after, Direction::Forward);
    archive.log(
        alloc,
        &report.node,
        from,
        to,
        after,
        way,
        MOST,
        &pages.within,
    )
}

/// The next page of modifications; an empty one is the last.
pub(crate) fn next_changes<A: Archive>(
    alloc: Global,
    archive: &mut A,
    report: &Report,
    pages: &mut Pages,
) -> Result<Vec<Entry>, StoreFault>
    ensures pages { MatchResult result
        (λ page. GivesPage (A.state archive.old) (A.state archive.new) page.items
        (changes_left report.now.node pages.new) (changes_left report.now.node pages.old))
        (λ why. Fails (A.state archive.old) (A.state archive.new) why) }
    ensures same { pages.new.within ≡ pages.old.within }
    ensures asked { IsAskedWithin 8 (A.asked archive.old) (A.asked archive.new) }
{
    let page = match first_changes(alloc, archive, report, pages) {
        Ok(page) => page,
        Err(fault) => return Err(fault),
    };
    go_behind(pages, page.as_slice());
    Ok(page)
}
