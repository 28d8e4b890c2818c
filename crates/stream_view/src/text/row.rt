//! The row of a step.

ghost use Rattle.std.specs.Prelude.{◌≡◌, [], is_some};
ghost use Rattle.stream_view.specs.Charts.{layout_in};
ghost use Rattle.term_text.specs.Fitting.{at_left, fitted};
ghost use Rattle.stream_view.specs.Growth.{GrewTo, HasPieces};
ghost use Rattle.stream_view.specs.Lines.{with_characters};
ghost use Rattle.stream_view.specs.Rows.{bar_of, bound_words, end_half_of, first_half_of, length_characters, length_words, mark_of, rendition_of, with_bar, with_dim, with_length, with_names, with_row};
ghost use Rattle.term_words.specs.MessageTexts.{HasText};
ghost use Rattle.term_text.specs.Fitted.{shown_characters};

use crate::kind::Kind;
use crate::picture::Picture;
use crate::text::bar::Bar;
use crate::text::chart::{Chart, DURATION};
use crate::text::line::Line;
use crate::text::rendition::Rendition;
use crate::words::within::shown_within;
use std::alloc::Global;
use stream_timeline::{Step, halves_of};
use term_text::without_blanks;
use term_words::MessageText;

/// The row of a step: its action, address, mark, duration and bar. `ticks` are the characters in
/// the cells that no bar covers.
pub fn row_of(
    alloc: Global,
    picture: &Picture<'_>,
    chart: &Chart,
    ticks: &[char],
    step: &Step,
    width: usize,
) -> Line
    ensures width { result.width ≡ width }
    ensures row { HasPieces result (with_row width (layout_in chart.now) picture.now.time_range ticks.now step.now []) }
{
    let mut line = Line::new(alloc, width);
    push_names(alloc, &mut line, chart, step);
    line.push(' ');
    push_length(alloc, &mut line, picture, step);
    line.push(' ');
    push_bar(&mut line, picture, chart, ticks, step);
    line
}

/// The colour of a step: red if it failed, else that of its kind.
fn rendition_of(step: &Step) -> Rendition
    ensures { result ≡ rendition_of step.now }
{
    if step.has_failed() {
        Rendition::Red
    } else {
        Kind::of(step.action()).rendition()
    }
}

/// Adds the action of a step in its colour, and its address.
fn push_names(alloc: Global, line: &mut Line, chart: &Chart, step: &Step)
    ensures width { line.new.width ≡ line.old.width }
    ensures pieces { GrewTo line.old line.new (with_names line.old.width (layout_in chart.now) step.now line.old.pieces.items) }
{
    line.begin(rendition_of(step));
    push_text(alloc, line, step.action(), chart.action);
    line.end();
    line.push(' ');
    push_text(alloc, line, step.address(), chart.label);
}

/// Adds a text, fitted to `columns` columns and padded with blanks.
fn push_text(alloc: Global, line: &mut Line, text: &str, columns: usize)
    ensures width { line.new.width ≡ line.old.width }
    ensures pieces { GrewTo line.old line.new (with_characters line.old.width line.old.pieces.items
        (at_left columns (fitted columns (shown_characters text.now)))) }
{
    match shown_within(alloc, text.as_bytes(), columns) {
        Ok(text) => line.push_left(&text, columns),
        Err(_) => line.refuse(),
    }
}

/// Adds the mark of a step and its length, red if the step failed.
fn push_length(alloc: Global, line: &mut Line, picture: &Picture<'_>, step: &Step)
    ensures width { line.new.width ≡ line.old.width }
    ensures pieces { GrewTo line.old line.new (with_length line.old.width picture.now.time_range step.now line.old.pieces.items) }
{
    if step.has_failed() {
        line.begin(Rendition::Red);
        push_marked(alloc, line, picture, step);
        line.end();
    } else {
        push_marked(alloc, line, picture, step);
    }
}

/// Adds the mark of a step and its length.
fn push_marked(alloc: Global, line: &mut Line, picture: &Picture<'_>, step: &Step)
    ensures width { line.new.width ≡ line.old.width }
    ensures pieces { GrewTo line.old line.new (with_characters line.old.width line.old.pieces.items
        (length_characters picture.now.time_range step.now)) }
{
    line.push(mark_of(step));
    match length_of(alloc, picture, step).within(DURATION) {
        Ok(text) => line.push_right(&text, DURATION),
        Err(_) => line.refuse(),
    }
}

/// The mark of a step: whether it failed or has no end.
fn mark_of(step: &Step) -> char
    ensures { result ≡ mark_of step.now }
{
    if step.has_failed() {
        '✗'
    } else if step.end().is_none() {
        '…'
    } else {
        ' '
    }
}

/// The length of a step, with the sign of a bound.
pub fn length_of(alloc: Global, picture: &Picture<'_>, step: &Step) -> MessageText
    ensures { HasText result (length_words picture.now.time_range step.now) }
{
    let mut length = MessageText::new(alloc);
    length.text(bound_of(step));
    length.duration(step.length(picture.time_range) as u128);
    length
}

/// The sign before the length of a step without an end: `≤` if the step failed, else `≥`.
fn bound_of(step: &Step) -> &'static str
    ensures { result.now ≡ bound_words step.now }
{
    if step.end().is_some() {
        ""
    } else if step.has_failed() {
        "≤"
    } else {
        "≥"
    }
}

/// Adds the bar of a step, and the ticks in the cells that the bar does not cover.
fn push_bar(line: &mut Line, picture: &Picture<'_>, chart: &Chart, ticks: &[char], step: &Step)
    ensures width { line.new.width ≡ line.old.width }
    ensures pieces { GrewTo line.old line.new (with_bar line.old.width (rendition_of step.now) ticks.now
        (bar_of chart.now.cells picture.now.time_range step.now) line.old.pieces.items) }
{
    let bar = bar_of(picture, chart, step);
    let first = bar.first_cell(chart.cells);
    let end = bar.end_cell(chart.cells);
    push_dim(line, &ticks[..(first as usize).min(ticks.len())]);
    line.begin(rendition_of(step));
    bar.push_to(line, first, end);
    line.end();
    push_dim(
        line,
        without_blanks(&ticks[(end as usize).min(ticks.len())..]),
    );
}

/// The bar of a step.
fn bar_of(picture: &Picture<'_>, chart: &Chart, step: &Step) -> Bar
    ensures failed { result.has_failed ≡ step.now.failed }
    ensures ended { result.has_ended ≡ is_some step.now.end }
    ensures first { result.halves.first ≡ first_half_of chart.now.cells picture.now.time_range step.now }
    ensures end { result.halves.end ≡ end_half_of chart.now.cells picture.now.time_range step.now }
{
    Bar {
        halves: halves_of(
            chart.cells,
            picture.span(),
            picture.begin_of(step),
            picture.until_of(step),
        ),
        has_failed: step.has_failed(),
        has_ended: step.end().is_some(),
    }
}

/// Adds cells that no bar covers, dim if there are any.
fn push_dim(line: &mut Line, cells: &[char])
    ensures width { line.new.width ≡ line.old.width }
    ensures pieces { GrewTo line.old line.new (with_dim line.old.width line.old.pieces.items cells.now) }
{
    if !cells.is_empty() {
        line.push_rendered(cells, Rendition::Dim);
    }
}
