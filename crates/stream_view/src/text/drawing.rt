//! Draws the whole text.

ghost use Rattle.std.specs.Prelude.{◌≡◌, ◌+◌, [], ℕ, List, OnOk, true};
ghost use Rattle.stream_view.specs.Charts.{layout_in};
ghost use Rattle.stream_view.specs.Growth.{HasMoreLines, HasPieces, lines_in};
ghost use Rattle.stream_view.specs.LeftOut.{IsLeftOutAs, left_out_shown};
ghost use Rattle.stream_view.specs.Lines.{LinesWritten};
ghost use Rattle.stream_view.specs.Rows.{AreTicks, layout_of, row_at};
ghost use Rattle.stream_view.specs.Texts.{HeadLinesWritten, IsHeadedBy, LeftOutWritten, RowsWritten, TextWritten, heading_characters};

use crate::captions::diagnostic_lines::{DiagnosticLine, DiagnosticLines, LineKind};
use crate::captions::heading::heading;
use crate::captions::left_out::left_out;
use crate::captions::overlap::overlap;
use crate::captions::passed_over::passed_over;
use crate::captions::running_alone::{alone_line, longest_alone};
use crate::draw_fault::DrawFault;
use crate::picture::Picture;
use crate::text::axis::{push_axis, tick_cells};
use crate::text::chart::Chart;
use crate::text::concurrency::push_concurrency;
use crate::text::line::Line;
use crate::text::line_buffer::{LineBuffer, Style};
use crate::text::longest::push_longest;
use crate::text::rendition::Rendition;
use crate::text::row::row_of;
use crate::text::writing::write_line;
use crate::writing::flush;
use std::alloc::Global;
use std::cmp::Reverse;
use std::io::Write;

/// Writes the picture as a text in lines of at most `width` columns, at least 60. With
/// `has_colour`, the text has the sequences of colours. Memory is needed for one row at a time.
///
/// `DrawFault::Memory` if memory is refused. `DrawFault::Gone` or `DrawFault::Unwritten` if a write
/// or a flush fails. After an `Err`, `out` may have the first bytes of the text.
pub fn draw_text<W: Write>(
    alloc: Global,
    picture: &Picture<'_>,
    width: u32,
    has_colour: bool,
    out: &mut W,
) -> Result<(), DrawFault>
    ensures lines { OnOk result (LinesWritten width has_colour (W.contents out.old) (W.contents out.new)) }
    ensures rows { OnOk result (TextWritten width has_colour picture.now (W.contents out.old) (W.contents out.new)) }
{
    let style = Style {
        width: width as usize,
        has_colour,
    };
    let chart = Chart::of(alloc, picture, style.width)?;
    draw_head(alloc, picture, &chart, style, out)?;
    draw_rows(alloc, picture, &chart, style, out)?;
    draw_left_out(alloc, picture, &chart, style, out)?;
    draw_tail(alloc, picture, &chart, style, false, out)?;
    flush(out)?;
    Ok(())
}

/// Writes the lines above the rows.
fn draw_head<W: Write>(
    alloc: Global,
    picture: &Picture<'_>,
    chart: &Chart,
    style: Style,
    out: &mut W,
) -> Result<(), DrawFault>
    ensures { OnOk result (HeadLinesWritten style.width style.has_colour picture.now (W.contents out.old) (W.contents out.new)) }
{
    let mut line_buffer = LineBuffer::new(alloc, style);
    push_head(&mut line_buffer, picture);
    push_axis(&mut line_buffer, picture, chart);
    line_buffer.send(out)
}

/// Writes the line about the steps without a row.
pub fn draw_left_out<W: Write>(
    alloc: Global,
    picture: &Picture<'_>,
    chart: &Chart,
    style: Style,
    out: &mut W,
) -> Result<(), DrawFault>
    ensures { OnOk result (LeftOutWritten style.width style.has_colour (chart.now.action + 1) picture.now.rows (W.contents out.old) (W.contents out.new)) }
{
    let mut line_buffer = LineBuffer::new(alloc, style);
    push_left_out(&mut line_buffer, picture, chart);
    line_buffer.send(out)
}

/// Writes the lines below the rows. The longest steps are among them, if they are wanted.
pub fn draw_tail<W: Write>(
    alloc: Global,
    picture: &Picture<'_>,
    chart: &Chart,
    style: Style,
    is_longest_wanted: bool,
    out: &mut W,
) -> Result<(), DrawFault>
    ensures { OnOk result (LinesWritten style.width style.has_colour (W.contents out.old) (W.contents out.new)) }
{
    let mut line_buffer = LineBuffer::new(alloc, style);
    push_concurrency(&mut line_buffer, picture, chart);
    push_alone(&mut line_buffer, picture);
    push_longest(&mut line_buffer, picture, is_longest_wanted);
    push_diagnostics(&mut line_buffer, picture);
    push_passed(&mut line_buffer, picture);
    line_buffer.send(out)
}

/// Adds the heading, and how many steps ran at once.
fn push_head(line_buffer: &mut LineBuffer, picture: &Picture<'_>)
    ensures style { line_buffer.new.style ≡ line_buffer.old.style }
    ensures headed { line_buffer.old.lines.items ≡ [] → line_buffer.new.is_whole ≡ true
        → IsHeadedBy line_buffer.old.style.width (heading_characters picture.now) (lines_in line_buffer.new) }
{
    let what = heading(line_buffer.alloc(), picture);
    line_buffer.push_message(0, &what, Some(Rendition::Bold));
    push_overlap(line_buffer, picture);
}

/// Adds how many steps ran at once.
pub fn push_overlap(line_buffer: &mut LineBuffer, picture: &Picture<'_>)
    ensures style { line_buffer.new.style ≡ line_buffer.old.style }
    ensures more { HasMoreLines line_buffer.old line_buffer.new }
{
    if let Some(text) = overlap(line_buffer.alloc(), picture) {
        line_buffer.push_message(0, &text, None);
    }
}

/// Writes the rows, one line each.
pub fn draw_rows<W: Write>(
    alloc: Global,
    picture: &Picture<'_>,
    chart: &Chart,
    style: Style,
    out: &mut W,
) -> Result<(), DrawFault>
    requires { layout_in chart.now ≡ layout_of style.width picture.now }
    ensures { OnOk result ((ticks : List ℕ) × AreTicks (layout_of style.width picture.now) ticks
        × RowsWritten style.width style.has_colour picture.now ticks picture.now.rows.places.items (W.contents out.old) (W.contents out.new)) }
{
    let ticks = tick_cells(alloc, chart)?;
    for place in &picture.rows.places {
        let line = line_of(alloc, picture, chart, &ticks, *place, style.width);
        write_line(alloc, &line, style.has_colour, out)?;
    }
    Ok(())
}

/// The row of the step at index `place`; an empty line if there is no such step.
fn line_of(
    alloc: Global,
    picture: &Picture<'_>,
    chart: &Chart,
    ticks: &[char],
    place: usize,
    width: usize,
) -> Line
    requires { layout_in chart.now ≡ layout_of width picture.now }
    ensures width { result.width ≡ width }
    ensures row { HasPieces result (row_at width picture.now ticks.now place) }
{
    match picture.timeline.steps().get(place) {
        Some(step) => row_of(alloc, picture, chart, ticks, step, width),
        None => Line::new(alloc, width),
    }
}

/// Adds the line about the steps without a row, if there are any.
fn push_left_out(line_buffer: &mut LineBuffer, picture: &Picture<'_>, chart: &Chart)
    ensures style { line_buffer.new.style ≡ line_buffer.old.style }
    ensures listed { line_buffer.old.lines.items ≡ [] → line_buffer.new.is_whole ≡ true
        → IsLeftOutAs line_buffer.old.style.width (chart.now.action + 1) (left_out_shown picture.now.rows) (lines_in line_buffer.new) }
{
    if picture.rows.left_out == 0 {
        return;
    }
    let text = left_out(line_buffer.alloc(), picture);
    line_buffer.push_message(chart.indent(), &text, Some(Rendition::Dim));
}

/// Adds the steps that ran alone.
fn push_alone(line_buffer: &mut LineBuffer, picture: &Picture<'_>)
    ensures { line_buffer.new.style ≡ line_buffer.old.style }
{
    match longest_alone(line_buffer.alloc(), picture) {
        Ok(listed) => push_alone_lines(line_buffer, picture, &listed),
        Err(_) => line_buffer.merge_whole(false),
    }
}

/// Adds the title and the lines of the steps that ran alone, if there are any.
fn push_alone_lines(
    line_buffer: &mut LineBuffer,
    picture: &Picture<'_>,
    listed: &[(Reverse<u64>, usize)],
)
    ensures { line_buffer.new.style ≡ line_buffer.old.style }
{
    if listed.is_empty() {
        return;
    }
    line_buffer.push_title("Running alone");
    for (_, place) in listed {
        push_alone_line(line_buffer, picture, *place);
    }
}

/// Adds the line of the step at index `place`, which ran alone.
fn push_alone_line(line_buffer: &mut LineBuffer, picture: &Picture<'_>, place: usize)
    ensures { line_buffer.new.style ≡ line_buffer.old.style }
{
    if let Some(step) = picture.timeline.steps().get(place) {
        line_buffer.push_fitted(&alone_line(line_buffer.alloc(), picture, place, step));
    }
}

/// Adds the diagnostics.
fn push_diagnostics(line_buffer: &mut LineBuffer, picture: &Picture<'_>)
    ensures { line_buffer.new.style ≡ line_buffer.old.style }
{
    let diagnostic_lines = DiagnosticLines::of(line_buffer.alloc(), picture);
    line_buffer.merge_whole(diagnostic_lines.is_whole());
    for diagnostic_line in diagnostic_lines.list() {
        push_diagnostic_line(line_buffer, diagnostic_line);
    }
}

/// Adds a line of the diagnostics, and an empty line before it, unless it is a detail.
fn push_diagnostic_line(line_buffer: &mut LineBuffer, diagnostic_line: &DiagnosticLine)
    ensures { line_buffer.new.style ≡ line_buffer.old.style }
{
    let (indent, rendition) = match diagnostic_line.kind {
        LineKind::Detail => (2, None),
        LineKind::Error => (0, Some(Rendition::Red)),
        LineKind::Warning => (0, Some(Rendition::Yellow)),
        LineKind::Remaining => (0, None),
    };
    if indent == 0 {
        line_buffer.push_empty();
    }
    line_buffer.push_wrapped(indent, &diagnostic_line.text, rendition);
}

/// Adds how many lines were passed over, if any.
fn push_passed(line_buffer: &mut LineBuffer, picture: &Picture<'_>)
    ensures { line_buffer.new.style ≡ line_buffer.old.style }
{
    if let Some(text) = passed_over(line_buffer.alloc(), picture) {
        line_buffer.push_empty();
        line_buffer.push_message(0, &text, None);
    }
}
