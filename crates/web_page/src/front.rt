//! The page that a person begins at.

ghost use Rattle.std.specs.Prelude.{◌≡◌, ◌++◌, [], ⊤, slice_get, MatchResult, IfOk, OnOk, OnErr};
ghost use Rattle.archive.specs.Store.{IsAskedWithin};
ghost use Rattle.history_report.specs.Html.{page_begin};
ghost use Rattle.history_report.specs.Paging.{IsPut};
ghost use Rattle.settings_check.specs.Stored.{IsVectorOf, Reads};
ghost use Rattle.web_page.specs.Listing.{listed_variables};
ghost use Rattle.web_page.specs.Front.{IsRowOf, IsVariableRow, AreRows, IsFront, IsPageAround, front_heading, front_style, connections_text, front_columns, front_begin, front_end, page_faults};
ghost use Rattle.web_page.specs.Calls.{overview_of};

use crate::asking::latest_of;
use crate::calls::Overview;
use crate::fault::PageFault;
use crate::html::put_escaped;
use crate::latest::latest_texts;
use crate::listing::{Listed, variables_of};
use crate::peers::peers_text;
use crate::row::put_row;
use archive::Archive;
use itoa::Buffer;
use records::Held;
use stamp::Vector;
use std::alloc::{AllocError, Global};
use ua_settings::Settings;
use uuid::Uuid;

// ---- above and below the rows

/// What a page begins by, up to its title.
#[tactic(auto, unfolding(history_report::specs::Html::page_begin))]
fn page_begin() -> &'static [u8]
    ensures { result.now ≡ page_begin }
{
    b"<!DOCTYPE html>\n<html lang=\"en\">\n<head>\n<meta charset=\"utf-8\">\n\
      <meta http-equiv=\"Content-Security-Policy\" \
      content=\"default-src 'none'; style-src 'unsafe-inline'\">\n\
      <meta name=\"viewport\" content=\"width=device-width, initial-scale=1\">\n\
      <title>"
}

/// What stands between the title and the heading: how the page looks.
#[tactic(auto, unfolding(crate::specs::Front::front_style, crate::specs::Front::table_style))]
fn front_style() -> &'static [u8]
    ensures { result.now ≡ front_style }
{
    b"</title>\n<style>\n\
      :root{color-scheme:light dark}\n\
      body{margin:2rem;font-family:system-ui,sans-serif}\n\
      table{border-collapse:collapse;font-variant-numeric:tabular-nums}\n\
      th,td{padding:.25rem .75rem;text-align:left;vertical-align:top}\n\
      th{position:sticky;top:0;background:Canvas;box-shadow:0 1px}\n\
      td{white-space:pre-wrap;overflow-wrap:anywhere}\n\
      td:nth-last-child(-n+2){white-space:nowrap}\n\
      tr:nth-child(even) td{background:#8882}\n\
      </style>\n</head>\n<body>\n<h1>"
}

/// What stands above the rows: the names of the columns.
#[tactic(auto, unfolding(crate::specs::Front::front_columns))]
fn front_columns() -> &'static [u8]
    ensures { result.now ≡ front_columns }
{
    b"<table>\n<thead>\n\
      <tr><th scope=\"col\">folder</th><th scope=\"col\">name</th><th scope=\"col\">id</th>\
      <th scope=\"col\">type</th><th scope=\"col\">value</th><th scope=\"col\">status</th>\
      <th scope=\"col\">time</th><th scope=\"col\">age</th></tr>\n\
      </thead>\n<tbody>\n"
}

/// Which replica of which archive it is.
fn heading(alloc: Global, settings: &Settings) -> Result<Vec<u8>, AllocError>
    ensures { IfOk result (λ text. text.items ≡ front_heading settings.now) }
{
    let mut buffer = Uuid::encode_buffer();
    let id = settings.archive().hyphenated().encode_lower(&mut buffer);
    let mut digits = Buffer::new();
    let replica = digits.format(u64::from(settings.replica().get()));
    let mut text = Vec::new(alloc);
    text.extend_from_slice(b"Archive ")?;
    text.extend_from_slice(id.as_bytes())?;
    text.extend_from_slice(b", replica ")?;
    text.extend_from_slice(replica.as_bytes())?;
    Ok(text)
}

/// How many connections there are, between the heading and the table.
#[tactic(auto, unfolding(crate::specs::Front::connections_text))]
fn connections_text(alloc: Global, count: u64) -> Result<Vec<u8>, AllocError>
    ensures { IfOk result (λ text. text.items ≡ connections_text count) }
{
    let mut buffer = Buffer::new();
    let digits = buffer.format(count);
    let noun: &[u8] = if count == 1 {
        b" connection</p>\n"
    } else {
        b" connections</p>\n"
    };
    let mut text = Vec::new(alloc);
    text.extend_from_slice(b"</h1>\n<p>")?;
    text.extend_from_slice(digits.as_bytes())?;
    text.extend_from_slice(noun)?;
    Ok(text)
}

/// Appends the part of the page above its rows.
fn put_begin(alloc: Global, out: &mut Vec<u8>, overview: Overview<'_>) -> Result<(), AllocError>
    ensures { OnOk result
        (out.new.items ≡ out.old.items ++ front_begin (overview_of overview.entry)) }
{
    let text = heading(alloc, overview.settings)?;
    let connections = connections_text(alloc, overview.connections)?;
    out.extend_from_slice(page_begin())?;
    put_escaped(out, text.as_slice())?;
    out.extend_from_slice(front_style())?;
    put_escaped(out, text.as_slice())?;
    out.extend_from_slice(connections.as_slice())?;
    out.extend_from_slice(front_columns())
}

// ---- rows

/// Appends the row of a variable with the first of these live values, if there is one.
fn put_told(
    alloc: Global,
    out: &mut Vec<u8>,
    overview: Overview<'_>,
    listed: &Listed,
    values: &[Held],
) -> Result<(), AllocError>
    ensures { OnOk result (IsPut out.old.items out.new.items
        (IsRowOf overview.entry.settings.now.space overview.entry.now listed.now
        (slice_get values.now 0))) }
{
    let latest = latest_texts(alloc, values, overview.now)?;
    put_row(alloc, out, overview.settings.space(), listed, &latest)
}

/// Appends the row of a variable.
fn put_variable<A: Archive>(
    archive: &mut A,
    overview: Overview<'_>,
    listed: &Listed,
    within: &Vector,
    out: &mut Vec<u8>,
) -> Result<(), PageFault>
    ensures answers { MatchResult result
        (λ done. Reads (A.state archive.old) (A.state archive.new) []
        (λ R. IsVectorOf within.now R → IsPut out.old.items out.new.items
        (IsVariableRow overview.entry.settings.now.space overview.entry.now R listed.now)))
        (λ why. Reads (A.state archive.old) (A.state archive.new) (page_faults why) (λ R. ⊤)) }
    ensures asked { IsAskedWithin 1 (A.asked archive.old) (A.asked archive.new) }
{
    let alloc = *out.allocator();
    let values = match latest_of(alloc, archive, &listed.node, within) {
        Ok(values) => values,
        Err(fault) => return Err(PageFault::Store(fault)),
    };
    match put_told(alloc, out, overview, listed, values.as_slice()) {
        Ok(()) => Ok(()),
        Err(_) => Err(PageFault::OutOfMemory),
    }
}

/// Appends the rows of these variables.
fn put_rows<A: Archive>(
    archive: &mut A,
    overview: Overview<'_>,
    listed: &[Listed],
    within: &Vector,
    out: &mut Vec<u8>,
) -> Result<(), PageFault>
    ensures answers { MatchResult result
        (λ done. Reads (A.state archive.old) (A.state archive.new) []
        (λ R. IsVectorOf within.now R → IsPut out.old.items out.new.items
        (AreRows overview.entry.settings.now.space overview.entry.now R listed.now)))
        (λ why. Reads (A.state archive.old) (A.state archive.new) (page_faults why) (λ R. ⊤)) }
    ensures asked { IsAskedWithin 1 (A.asked archive.old) (A.asked archive.new) }
{
    for one in listed {
        match put_variable(archive, overview, one, within, out) {
            Ok(()) => {}
            Err(fault) => return Err(fault),
        }
    }
    Ok(())
}

/// Appends the rows of the variables of the settings.
fn put_listed<A: Archive>(
    alloc: Global,
    archive: &mut A,
    overview: Overview<'_>,
    within: &Vector,
    out: &mut Vec<u8>,
) -> Result<(), PageFault>
    ensures answers { MatchResult result
        (λ done. Reads (A.state archive.old) (A.state archive.new) []
        (λ R. IsVectorOf within.now R → IsPut out.old.items out.new.items
        (AreRows overview.entry.settings.now.space overview.entry.now R
        (listed_variables overview.entry.settings.now.space))))
        (λ why. Reads (A.state archive.old) (A.state archive.new) (page_faults why) (λ R. ⊤)) }
    ensures asked { IsAskedWithin 1 (A.asked archive.old) (A.asked archive.new) }
{
    let listed = match variables_of(alloc, overview.settings.space()) {
        Ok(listed) => listed,
        Err(_) => return Err(PageFault::OutOfMemory),
    };
    put_rows(archive, overview, listed.as_slice(), within, out)
}

/// Appends the rows of the variables of the settings, as the archive is now.
fn put_table<A: Archive>(
    alloc: Global,
    archive: &mut A,
    overview: Overview<'_>,
    out: &mut Vec<u8>,
) -> Result<(), PageFault>
    ensures answers { MatchResult result
        (λ done. Reads (A.state archive.old) (A.state archive.new) []
        (λ R. IsPut out.old.items out.new.items
        (AreRows overview.entry.settings.now.space overview.entry.now R
        (listed_variables overview.entry.settings.now.space))))
        (λ why. Reads (A.state archive.old) (A.state archive.new) (page_faults why) (λ R. ⊤)) }
    ensures asked { IsAskedWithin 1 (A.asked archive.old) (A.asked archive.new) }
{
    let within = match archive.vector() {
        Ok(within) => within,
        Err(fault) => return Err(PageFault::Store(fault)),
    };
    put_listed(alloc, archive, overview, &within, out)
}

// ---- the page

/// The page around these rows.
fn page_around(alloc: Global, overview: Overview<'_>, rows: &[u8]) -> Result<Vec<u8>, AllocError>
    ensures { IfOk result
        (λ page. IsPageAround (overview_of overview.entry) rows.now page.items) }
{
    let peers = peers_text(alloc, overview.calls)?;
    let mut page = Vec::new(alloc);
    put_begin(alloc, &mut page, overview)?;
    page.extend_from_slice(rows)?;
    page.extend_from_slice(peers.as_slice())?;
    page.extend_from_slice(b"</tbody>\n</table>\n</body>\n</html>\n")?;
    Ok(page)
}

/// Appends the page around these rows.
fn put_whole(
    alloc: Global,
    out: &mut Vec<u8>,
    overview: Overview<'_>,
    rows: &[u8],
) -> Result<(), AllocError>
    ensures put { OnOk result
        (IsPut out.old.items out.new.items (IsPageAround (overview_of overview.entry) rows.now)) }
    ensures kept { OnErr result (out.new.items ≡ out.old.items) }
{
    let page = page_around(alloc, overview, rows)?;
    out.extend_from_slice(page.as_slice())
}

/// Appends the front page: plain HTML without a script: which replica of which archive it is, how
/// many connections there are, and a table of the variables of the settings: folder, name, id (a
/// link to `/history` of it), type, and the value, status, time and age of the latest live value.
/// The age is in seconds below a minute, in minutes below an hour, in hours below a day, else in
/// days, each cut; a time that is to come has none. First stand those in no folder, then folder by
/// folder. Of a value its first 200 characters are shown, and of one of a type that has no text
/// its type in brackets. Where peers are called, a second table tells the last call of each: when it
/// ended, how, and how many records it moved. The archive stays as it is; it is asked for one value
/// of each variable. The page is made in memory before it is appended.
///
/// Errors: `Store` where the archive met a fault of its store, and `OutOfMemory` where memory was
/// wanting; then nothing is appended.
pub fn put_front<A: Archive>(
    alloc: Global,
    archive: &mut A,
    overview: Overview<'_>,
    out: &mut Vec<u8>,
) -> Result<(), PageFault>
    ensures answers { MatchResult result
        (λ done. Reads (A.state archive.old) (A.state archive.new) []
        (λ R. IsPut out.old.items out.new.items (IsFront (overview_of overview.entry) R)))
        (λ why. Reads (A.state archive.old) (A.state archive.new) (page_faults why) (λ R. ⊤)) }
    ensures kept { OnErr result (out.new.items ≡ out.old.items) }
    ensures asked { IsAskedWithin 1 (A.asked archive.old) (A.asked archive.new) }
{
    let mut rows = Vec::new(alloc);
    match put_table(alloc, archive, overview, &mut rows) {
        Ok(()) => {}
        Err(fault) => return Err(fault),
    }
    match put_whole(alloc, out, overview, rows.as_slice()) {
        Ok(()) => Ok(()),
        Err(_) => Err(PageFault::OutOfMemory),
    }
}
