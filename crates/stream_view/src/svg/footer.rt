//! The markup below the rows.

ghost use Rattle.std.specs.Prelude.{◌≡◌, ◌++◌, [], OnOk, true};
ghost use Rattle.stream_view.specs.LeftOut.{left_out_shown};
ghost use Rattle.stream_view.specs.Markup.{IsLeftOutIn, PartsWritten};

use crate::captions::diagnostic_lines::{DiagnosticLine, DiagnosticLines, LineKind};
use crate::captions::left_out::left_out;
use crate::captions::passed_over::passed_over;
use crate::captions::running_alone::{alone_text, alone_time, longest_alone};
use crate::draw_fault::DrawFault;
use crate::picture::Picture;
use crate::svg::dimensions::{CHARACTER, EDGE, ROW, ROWS_IN_SIGHT, WIDTH};
use crate::svg::fragment::Fragment;
use crate::svg::header::push_ticks;
use crate::svg::markup::Markup;
use crate::svg::scale::Scale;
use std::alloc::Global;
use std::cmp::Reverse;
use std::io::Write;
use stream_timeline::Step;
use term_text::{ShownText, wrapped};
use term_words::MessageText;

/// Where a line about a step that ran alone has the end of its duration and the begin of its text.
/// In tenths of a pixel from the margin.
const ALONE_END: u64 = 620;

const ALONE_TEXT: u64 = 720;

/// The indent of details: two characters.
const INDENT: u64 = 2 * CHARACTER;

/// The distance of two lines, and the gap before a group of lines, in pixels.
const LINE: u64 = 18;

const GAP: u64 = 14;

/// How many characters fit into a line.
const COLUMNS: usize = ((WIDTH - 2 * EDGE) * 10 / CHARACTER) as usize;

/// The markup below the rows, and the height of the SVG.
#[derive(Drop)]
pub struct Footer {
    /// The axis again, where the first one may be out of sight.
    axis: Markup,
    /// The line about the steps without a row.
    left_out: Markup,
    rest: Markup,
    pub height: u64,
}

impl Footer {
    /// The markup below the rows, from the height `y` on.
    pub fn of(alloc: Global, picture: &Picture<'_>, scale: Scale, y: u64) -> Footer
        ensures { result.left_out.is_whole ≡ true → IsLeftOutIn (left_out_shown picture.now.rows) result.left_out.parts.items }
    {
        let mut axis = Markup::new(alloc);
        let y = push_axis(&mut axis, picture, scale, y);
        let mut left_out = Markup::new(alloc);
        let y = push_left_out(&mut left_out, picture, y);
        let mut rest = Markup::new(alloc);
        let height = push_rest(&mut rest, picture, y);
        Footer {
            axis,
            left_out,
            rest,
            height,
        }
    }

    /// Writes the markup, and clears it.
    pub fn send<W: Write>(&mut self, out: &mut W) -> Result<(), DrawFault>
        ensures { OnOk result ((self.old.left_out.is_whole ≡ true)
            × PartsWritten (self.old.axis.parts.items ++ self.old.left_out.parts.items ++ self.old.rest.parts.items)
            (W.contents out.old) (W.contents out.new)) }
    {
        self.axis.send(out)?;
        self.left_out.send(out)?;
        self.rest.send(out)
    }
}

/// Adds the axis again at the height `y`, if there are many rows. Returns the height at which the
/// next part begins.
fn push_axis(markup: &mut Markup, picture: &Picture<'_>, scale: Scale, y: u64) -> u64 {
    if picture.rows.places.len() <= ROWS_IN_SIGHT {
        return y;
    }
    push_ticks(markup, scale, y.saturating_add(13));
    y.saturating_add(ROW)
}

/// Adds the line about the steps without a row, if there are any. Returns the height at which the
/// next part begins.
fn push_left_out(markup: &mut Markup, picture: &Picture<'_>, y: u64) -> u64
    ensures { markup.old.parts.items ≡ [] → markup.new.is_whole ≡ true → IsLeftOutIn (left_out_shown picture.now.rows) markup.new.parts.items }
{
    if picture.rows.left_out == 0 {
        return y;
    }
    let text = left_out(markup.alloc(), picture);
    markup.line_of(EDGE * 10, y.saturating_add(14), Fragment::SmallSoft, &text);
    y.saturating_add(ROW)
}

/// Adds the other parts, from the height `y` on. Returns the height of the SVG.
fn push_rest(markup: &mut Markup, picture: &Picture<'_>, y: u64) -> u64 {
    let y = push_alone(markup, picture, y);
    let y = push_diagnostics(markup, picture, y);
    let y = push_passed(markup, picture, y);
    y.saturating_add(EDGE)
}

/// Adds the diagnostics. Returns the height at which the next part begins.
fn push_diagnostics(markup: &mut Markup, picture: &Picture<'_>, y: u64) -> u64 {
    let diagnostic_lines = DiagnosticLines::of(markup.alloc(), picture);
    markup.merge_whole(diagnostic_lines.is_whole());
    let mut y = y;
    for diagnostic_line in diagnostic_lines.list() {
        y = push_diagnostic_line(markup, diagnostic_line, y);
    }
    y
}

/// Adds how many lines were passed over, if any. Returns the height at which the next part begins.
fn push_passed(markup: &mut Markup, picture: &Picture<'_>, y: u64) -> u64 {
    let Some(text) = passed_over(markup.alloc(), picture) else {
        return y;
    };
    let y = y.saturating_add(GAP);
    markup.line_of(EDGE * 10, y.saturating_add(12), Fragment::SmallSoft, &text);
    y.saturating_add(LINE)
}

/// Adds the steps that ran alone. Returns the height at which the next part begins.
fn push_alone(markup: &mut Markup, picture: &Picture<'_>, y: u64) -> u64 {
    match longest_alone(markup.alloc(), picture) {
        Ok(listed) if !listed.is_empty() => push_lines(markup, picture, &listed, y),
        Ok(_) => y,
        Err(_) => {
            markup.merge_whole(false);
            y
        }
    }
}

/// Adds the title and the lines of the steps that ran alone. Returns the height at which the next
/// part begins.
fn push_lines(
    markup: &mut Markup,
    picture: &Picture<'_>,
    listed: &[(Reverse<u64>, usize)],
    y: u64,
) -> u64 {
    let mut title = MessageText::new(markup.alloc());
    title.text("Running alone");
    markup.line_of(
        EDGE * 10,
        y.saturating_add(GAP + 12),
        Fragment::SubInk,
        &title,
    );
    let mut y = y.saturating_add(GAP + 20);
    for (_, place) in listed {
        if let Some(step) = picture.timeline.steps().get(*place) {
            push_alone_line(markup, picture, *place, step, y.saturating_add(12));
            y = y.saturating_add(LINE);
        }
    }
    y
}

/// Adds the line of the step at index `place`, which ran alone.
fn push_alone_line(markup: &mut Markup, picture: &Picture<'_>, place: usize, step: &Step, y: u64) {
    let time = alone_time(markup.alloc(), picture, place);
    markup.line_of(EDGE * 10 + ALONE_END, y, Fragment::InkEnd, &time);
    let text = alone_text(markup.alloc(), picture, step);
    markup.line_of(EDGE * 10 + ALONE_TEXT, y, Fragment::Ink, &text);
}

/// Adds a line of the diagnostics. Returns the height at which the next line begins.
fn push_diagnostic_line(markup: &mut Markup, diagnostic_line: &DiagnosticLine, y: u64) -> u64 {
    let (indent, columns, class, gap) = match diagnostic_line.kind {
        LineKind::Detail => (INDENT, COLUMNS - 2, Fragment::Soft, 0),
        LineKind::Error => (0, COLUMNS, Fragment::Fail, GAP),
        LineKind::Warning | LineKind::Remaining => (0, COLUMNS, Fragment::Ink, GAP),
    };
    if diagnostic_line.text.characters().is_empty() {
        return y.saturating_add(GAP);
    }
    let y = y.saturating_add(gap);
    match wrapped(markup.alloc(), &diagnostic_line.text, columns) {
        Ok(lines) => push_wrapped(markup, EDGE * 10 + indent, class, &lines, y),
        Err(_) => {
            markup.merge_whole(false);
            y
        }
    }
}

/// Adds lines of text of the class `class`. Returns the height at which the next line begins.
fn push_wrapped(markup: &mut Markup, x: u64, class: Fragment, lines: &[ShownText], y: u64) -> u64 {
    let mut y = y;
    for line in lines {
        markup.line(x, y.saturating_add(12), class, line);
        y = y.saturating_add(LINE);
    }
    y
}
