//! A drawing, with the texts at its edges.

ghost use Rattle.std.specs.Prelude.{◌≡◌, ◌++◌, OnOk};
ghost use Rattle.history_report.specs.Html.{figure_begin, edge, IsEdge, AreEdges, IsFigureLine, AreMarks, IsPlot, IsFigure};
ghost use Rattle.history_report.specs.Paging.{IsPut};

use crate::html::{moment_text, put_escaped};
use crate::number::{Number, number_text};
use crate::path::{marks_of, path_of};
use crate::trend::{Column, Columns, Edges};
use history_text::TextFault;
use records::Moment;
use std::alloc::{AllocError, Global};

/// What a drawing begins by, up to its path.
#[tactic(auto, unfolding(crate::specs::Html::figure_begin))]
fn figure_begin() -> &'static [u8]
    ensures { result.now ≡ figure_begin }
{
    b"<figure>\n<svg viewBox=\"0 0 999 1000\" preserveAspectRatio=\"none\" role=\"img\" \
      aria-label=\"The numbers over time\"><path d=\""
}

/// Appends a text at an edge.
fn put_edge(out: &mut Vec<u8>, text: &[u8]) -> Result<(), AllocError>
    ensures { OnOk result (out.new.items ≡ out.old.items ++ edge text.now) }
{
    out.extend_from_slice(b"<span>")?;
    put_escaped(out, text)?;
    out.extend_from_slice(b"</span>")
}

/// Appends a number at an edge.
fn put_number_edge(alloc: Global, number: Number, out: &mut Vec<u8>) -> Result<(), TextFault>
    ensures { OnOk result (IsPut out.old.items out.new.items IsEdge) }
{
    let text = number_text(alloc, number)?;
    put_edge(out, text.as_slice())?;
    Ok(())
}

/// Appends a time at an edge.
fn put_time_edge(alloc: Global, time: Moment, out: &mut Vec<u8>) -> Result<(), TextFault>
    ensures { OnOk result (IsPut out.old.items out.new.items IsEdge) }
{
    let text = moment_text(alloc, time)?;
    put_edge(out, text.as_slice())?;
    Ok(())
}

/// Appends the edges of a drawing.
fn put_edges(alloc: Global, edges: Edges, out: &mut Vec<u8>) -> Result<(), TextFault>
    ensures { OnOk result (IsPut out.old.items out.new.items AreEdges) }
{
    put_number_edge(alloc, edges.high, out)?;
    put_number_edge(alloc, edges.low, out)?;
    put_time_edge(alloc, edges.first, out)?;
    put_time_edge(alloc, edges.last, out)?;
    Ok(())
}

/// Appends a drawing's marks, nothing where there are none.
fn put_marks(alloc: Global, columns: &[Column], out: &mut Vec<u8>) -> Result<(), AllocError>
    ensures { OnOk result (IsPut out.old.items out.new.items AreMarks) }
{
    let marks = marks_of(alloc, columns)?;
    if marks.is_empty() {
        return Ok(());
    }
    out.extend_from_slice(b"<path class=\"old\" d=\"")?;
    out.extend_from_slice(marks.as_slice())?;
    out.extend_from_slice(b"\"><title>Corrected</title></path>")?;
    Ok(())
}

/// Appends a drawing's path, and what stands before it.
fn put_line(alloc: Global, columns: &[Column], out: &mut Vec<u8>) -> Result<(), AllocError>
    ensures { OnOk result (IsPut out.old.items out.new.items IsFigureLine) }
{
    let path = path_of(alloc, columns)?;
    out.extend_from_slice(figure_begin())?;
    out.extend_from_slice(path.as_slice())?;
    out.extend_from_slice(b"\"/>")?;
    Ok(())
}

/// Appends a drawing up to the texts at its edges: its path and its marks.
fn put_plot(alloc: Global, columns: &[Column], out: &mut Vec<u8>) -> Result<(), AllocError>
    ensures { OnOk result (IsPut out.old.items out.new.items IsPlot) }
{
    put_line(alloc, columns, out)?;
    put_marks(alloc, columns, out)?;
    out.extend_from_slice(b"</svg>\n")?;
    Ok(())
}

/// A drawing of these columns.
pub(crate) fn put_figure(
    alloc: Global,
    columns: &Columns,
    out: &mut Vec<u8>,
) -> Result<(), TextFault>
    ensures { OnOk result (IsPut out.old.items out.new.items IsFigure) }
{
    put_plot(alloc, columns.columns.as_slice(), out)?;
    put_edges(alloc, columns.edges, out)?;
    out.extend_from_slice(b"\n</figure>\n")?;
    Ok(())
}
