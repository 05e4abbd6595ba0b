//! Pages of HTML.

ghost use Rattle.std.specs.Prelude.{◌≡◌, ◌≤◌, ◌++◌, ◌∷◌, [], IfOk, OnOk, codes, if◌then◌else◌};
ghost use Rattle.std.specs.Int.{w64};
ghost use Rattle.std.specs.Int.RustNames.{FitsSigned};
ghost use Rattle.history_csv.specs.Nodes.{node_text};
ghost use Rattle.history_csv.specs.Rows.{value_names, change_names, time_of};
ghost use Rattle.history_text.specs.Times.{IsTimeText};
ghost use Rattle.history_report.specs.Html.{is_forbidden, printable_byte, entity, escaped, data_cell, page_row, head_row, page_begin, page_middle, page_footer, IsBound, IsStretch, IsDrawing, IsPageHeader};
ghost use Rattle.history_report.specs.Paging.{IsPut};

use crate::link::put_next_link;
use crate::report::Report;
use crate::table::{Made, Shown};
use history_csv::node_text;
use history_text::{TextFault, Time, time_text};
use records::Moment;
use std::alloc::{AllocError, Global};

// ---- a text in a page

/// Whether a byte behind this one is of a control that HTML forbids or reads as another.
fn is_forbidden(before: u8, byte: u8) -> bool
    ensures { result ≡ is_forbidden before byte }
{
    before == 194 && byte < 160 || byte == 127 || byte < 32 && !(byte == b'\t' || byte == b'\n')
}

/// A byte behind this one as a page has it: in place of a forbidden one `?`, or the second byte of
/// `¿`.
fn printable_byte(before: u8, byte: u8) -> u8
    ensures { result ≡ printable_byte before byte }
{
    if !is_forbidden(before, byte) {
        byte
    } else if before == 194 {
        191
    } else {
        b'?'
    }
}

/// Appends a byte as HTML writes it: as an entity, where it might end a text.
fn put_byte(out: &mut Vec<u8>, byte: u8) -> Result<(), AllocError>
    ensures { OnOk result (out.new.items ≡ out.old.items ++ entity byte) }
{
    match byte {
        b'&' => out.extend_from_slice(b"&amp;"),
        b'<' => out.extend_from_slice(b"&lt;"),
        b'>' => out.extend_from_slice(b"&gt;"),
        b'"' => out.extend_from_slice(b"&quot;"),
        b'\'' => out.extend_from_slice(b"&#39;"),
        _ => Ok(out.push(byte)?),
    }
}

/// Appends a text that no byte of which is read as markup.
pub(crate) fn put_escaped(out: &mut Vec<u8>, text: &[u8]) -> Result<(), AllocError>
    ensures { OnOk result (out.new.items ≡ out.old.items ++ escaped text.now) }
{
    let mut before = 0;
    for byte in text {
        put_byte(out, printable_byte(before, *byte))?;
        before = *byte;
    }
    Ok(())
}

// ---- rows

/// Appends a field as a cell.
fn put_cell(out: &mut Vec<u8>, text: &[u8]) -> Result<(), AllocError>
    ensures { OnOk result (out.new.items ≡ out.old.items ++ data_cell text.now) }
{
    out.extend_from_slice(b"<td>")?;
    put_escaped(out, text)?;
    out.extend_from_slice(b"</td>")
}

/// Appends the cells that a value and a modification both have.
fn put_shown(out: &mut Vec<u8>, shown: &Shown<'_>) -> Result<(), AllocError>
    ensures { OnOk result (out.new.items ≡ out.old.items ++ data_cell shown.now.time.now
        ++ data_cell shown.now.value.now ++ data_cell shown.now.status.now) }
{
    put_cell(out, shown.time)?;
    put_cell(out, shown.value)?;
    put_cell(out, shown.status)
}

/// Appends what was done, when, and by whom.
fn put_made(out: &mut Vec<u8>, made: &Made<'_>) -> Result<(), AllocError>
    ensures { OnOk result (out.new.items ≡ out.old.items ++ data_cell made.now.change.now
        ++ data_cell made.now.changed.now ++ data_cell made.now.user.now) }
{
    put_cell(out, made.change)?;
    put_cell(out, made.changed)?;
    put_cell(out, made.user)
}

/// The row of a live value.
pub(crate) fn value_row(alloc: Global, shown: &Shown<'_>) -> Result<Vec<u8>, AllocError>
    ensures { IfOk result (λ row. row.items
        ≡ page_row ([] ∷ shown.now.time.now ∷ shown.now.value.now ∷ shown.now.status.now ∷ [])) }
{
    let mut row = Vec::new(alloc);
    row.extend_from_slice(b"<tr>")?;
    put_shown(&mut row, shown)?;
    row.extend_from_slice(b"</tr>\n")?;
    Ok(row)
}

/// The row of a modification.
pub(crate) fn change_row(
    alloc: Global,
    shown: &Shown<'_>,
    made: &Made<'_>,
) -> Result<Vec<u8>, AllocError>
    ensures { IfOk result (λ row. row.items
        ≡ page_row ([] ∷ shown.now.time.now ∷ shown.now.value.now ∷ shown.now.status.now
        ∷ made.now.change.now ∷ made.now.changed.now ∷ made.now.user.now ∷ [])) }
{
    let mut row = Vec::new(alloc);
    row.extend_from_slice(b"<tr class=\"")?;
    put_escaped(&mut row, made.change)?;
    row.extend_from_slice(b"\">")?;
    put_shown(&mut row, shown)?;
    put_made(&mut row, made)?;
    row.extend_from_slice(b"</tr>\n")?;
    Ok(row)
}

// ---- above and below the rows

/// What a page begins by, up to its title.
#[tactic(auto, unfolding(crate::specs::Html::page_begin))]
fn page_begin() -> &'static [u8]
    ensures { result.now ≡ page_begin }
{
    b"<!DOCTYPE html>\n<html lang=\"en\">\n<head>\n<meta charset=\"utf-8\">\n\
      <meta http-equiv=\"Content-Security-Policy\" \
      content=\"default-src 'none'; style-src 'unsafe-inline'\">\n\
      <meta name=\"viewport\" content=\"width=device-width, initial-scale=1\">\n\
      <title>"
}

/// What stands between a page's title and its heading: how it looks.
#[tactic(auto, unfolding(crate::specs::Html::page_style, crate::specs::Html::cell_style, crate::specs::Html::figure_style, crate::specs::Html::edge_style))]
fn page_middle() -> &'static [u8]
    ensures { result.now ≡ page_middle }
{
    b"</title>\n<style>\n\
      :root{color-scheme:light dark}\n\
      body{margin:2rem;font-family:system-ui,sans-serif}\n\
      table{border-collapse:collapse;font-variant-numeric:tabular-nums}\n\
      th,td{padding:.25rem .75rem;text-align:left;vertical-align:top}\n\
      th{position:sticky;top:0;background:Canvas;box-shadow:0 1px}\n\
      h1,td{white-space:pre-wrap;overflow-wrap:anywhere}\n\
      tr{break-inside:avoid}\n\
      tr:nth-child(even) td{background:#8882}\n\
      @media print{th{position:static}}\n\
      td:first-child,td:nth-child(5){white-space:nowrap}\n\
      .insert td:first-child{box-shadow:inset .25rem 0 #2a7}\n\
      .replace td:first-child,.update td:first-child{box-shadow:inset .25rem 0 #d90}\n\
      .delete td:first-child{box-shadow:inset .25rem 0 #c33}\n\
      .delete td:nth-child(2){text-decoration:line-through}\n\
      figure{display:grid;grid-template-columns:auto 1fr 1fr;gap:.25rem .75rem;max-width:60rem}\n\
      figure{margin:1rem 0;font-size:.85rem;font-variant-numeric:tabular-nums;break-inside:avoid}\n\
      svg{grid-area:1/2/3/4;width:100%;height:12rem;overflow:visible}\n\
      path{fill:none;stroke:currentColor;stroke-width:1.5px;stroke-linecap:round}\n\
      path{stroke-linejoin:round;vector-effect:non-scaling-stroke}\n\
      .old{stroke:#d90}\n\
      span:nth-of-type(1){grid-area:1/1;text-align:right}\n\
      span:nth-of-type(2){grid-area:2/1;text-align:right;align-self:end}\n\
      span:nth-of-type(3){grid-area:3/2}\n\
      span:nth-of-type(4){grid-area:3/3;text-align:right}\n\
      </style>\n</head>\n<body>\n<h1>"
}

/// The names of the columns, as a row.
fn head_row(changes: bool) -> &'static [u8]
    ensures { result.now ≡ head_row (if changes then change_names else value_names) }
{
    if changes {
        b"<tr><th scope=\"col\">time</th><th scope=\"col\">value</th>\
          <th scope=\"col\">status</th><th scope=\"col\">change</th>\
          <th scope=\"col\">changed</th><th scope=\"col\">user</th></tr>\n"
    } else {
        b"<tr><th scope=\"col\">time</th><th scope=\"col\">value</th>\
          <th scope=\"col\">status</th></tr>\n"
    }
}

/// What stands below a page's rows: by it a reader sees that the page is whole.
pub(crate) fn page_footer() -> &'static [u8]
    ensures { result.now ≡ page_footer }
{
    b"</tbody>\n</table>\n\
      <p>Here the page ends. Without this line it isn't whole.</p>\n\
      </body>\n</html>\n"
}

/// The parts of a moment.
fn parts_of(moment: Moment) -> Time
    ensures same { result ≡ time_of moment }
    ensures pico { result.pico ≤ 9_999 }
    ensures fits { FitsSigned w64 result.ticks }
{
    Time {
        ticks: moment.ticks,
        pico: moment.pico,
    }
}

/// A moment's text.
pub(crate) fn moment_text(alloc: Global, moment: Moment) -> Result<Vec<u8>, AllocError>
    ensures { IfOk result (λ text. IsTimeText (time_of moment) text.items) }
{
    let text = time_text(alloc, parts_of(moment))?;
    Ok(text)
}

/// Appends a moment that is asked for behind a word, nothing where none is.
fn put_bound(
    alloc: Global,
    word: &[u8],
    bound: Option<Moment>,
    out: &mut Vec<u8>,
) -> Result<(), AllocError>
    ensures { OnOk result (IsPut out.old.items out.new.items (IsBound word.now bound)) }
{
    let Some(moment) = bound else {
        return Ok(());
    };
    let text = moment_text(alloc, moment)?;
    out.extend_from_slice(word)?;
    put_escaped(out, text.as_slice())?;
    Ok(())
}

/// What is shown, in a word.
fn shown_word(changes: bool) -> &'static [u8]
    ensures { result.now ≡ (if changes then codes "Modifications" else codes "Values") }
{
    if changes { b"Modifications" } else { b"Values" }
}

/// Appends what is shown, and of which stretch.
fn put_stretch(alloc: Global, report: &Report, out: &mut Vec<u8>) -> Result<(), AllocError>
    ensures { OnOk result (IsPut out.old.items out.new.items (IsStretch report.now)) }
{
    out.extend_from_slice(shown_word(report.changes))?;
    put_bound(alloc, b" from ", report.from, out)?;
    put_bound(alloc, b" before ", report.to, out)?;
    Ok(())
}

/// Appends a page's beginning: the node as its title and its heading.
fn put_top(node: &[u8], out: &mut Vec<u8>) -> Result<(), AllocError>
    ensures { OnOk result (out.new.items ≡ out.old.items ++ page_begin ++ escaped node.now
        ++ page_middle ++ escaped node.now ++ codes "</h1>\n<p>") }
{
    out.extend_from_slice(page_begin())?;
    put_escaped(out, node)?;
    out.extend_from_slice(page_middle())?;
    put_escaped(out, node)?;
    out.extend_from_slice(b"</h1>\n<p>")
}

/// Appends a drawing, and a page's table up to its rows.
fn put_head(changes: bool, drawing: &[u8], out: &mut Vec<u8>) -> Result<(), AllocError>
    ensures { OnOk result (out.new.items ≡ out.old.items ++ drawing.now
        ++ codes "<table>\n<thead>\n"
        ++ head_row (if changes then change_names else value_names)
        ++ codes "</thead>\n<tbody>\n") }
{
    out.extend_from_slice(drawing)?;
    out.extend_from_slice(b"<table>\n<thead>\n")?;
    out.extend_from_slice(head_row(changes))?;
    out.extend_from_slice(b"</thead>\n<tbody>\n")
}

/// Appends the part of a page above its rows.
pub(crate) fn put_page_header(
    alloc: Global,
    report: &Report,
    drawing: &[u8],
    out: &mut Vec<u8>,
) -> Result<(), TextFault>
    requires { IsDrawing report.now drawing.now }
    ensures { OnOk result (IsPut out.old.items out.new.items (IsPageHeader report.now)) }
{
    let node = node_text(alloc, &report.node)?;
    put_top(node.as_slice(), out)?;
    put_stretch(alloc, report, out)?;
    out.extend_from_slice(b"</p>\n")?;
    put_next_link(alloc, report, out)?;
    put_head(report.changes, drawing, out)?;
    Ok(())
}
