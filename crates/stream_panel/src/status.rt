//! The first line of a panel: how far the apply is.

ghost use Rattle.std.specs.Prelude.{◌≡◌, ◌≤◌, ◌<◌, ◌∷◌, [], min};
ghost use Rattle.term_text.specs.Fitted.{shown_characters};
ghost use Rattle.term_words.specs.MessageTexts.{AppendsText, HasText};
ghost use Rattle.stream_watch.specs.State.{state_of};
ghost use Rattle.stream_panel.specs.Canvases.{Draws, DrawsLines};
ghost use Rattle.stream_panel.specs.Status.{bar_and_status, bar_cells, bold_within, has_bar, left_of, left_words, status_line, status_part, status_words};

use crate::bar::push_bar;
use crate::canvas::Canvas;
use crate::stretch::{push_front, push_stretch};
use crate::view::View;
use std::alloc::{AllocError, Global};
use stream_watch::{Counts, Watcher};
use term_text::{Rendition, ShownText, fitted};
use term_words::MessageText;

/// How many columns the time and the blanks after it have.
const FRONT: usize = 8;

/// How many cells a bar has at least.
const LEAST_CELLS: usize = 8;

/// How many cells a bar has at most.
const MOST_CELLS: usize = 20;

/// Adds the line that says how far the apply is.
pub(crate) fn push_status_line(out: &mut Canvas, watcher: &Watcher, view: View)
    ensures { DrawsLines out.old out.new view.has_colour (status_line view (state_of watcher.now) ∷ []) }
{
    let clock = watcher.clock();
    let mut status = MessageText::new(out.alloc());
    push_status(&mut status, watcher, view.is_waiting);
    push_front(
        out,
        view.has_colour,
        Some(Rendition::Dim),
        view.age(clock.first, clock.now),
    );
    push_shown_status(
        out,
        view.has_colour,
        watcher.counts(),
        watcher.open_changes(),
        view.line_columns().saturating_sub(FRONT),
        &status,
    );
    out.end_line();
}

/// Adds the status as it is shown, and a bar before it where there is room, in `room` columns.
fn push_shown_status(
    out: &mut Canvas,
    has_colour: bool,
    counts: Counts,
    running: u64,
    room: usize,
    status: &MessageText,
)
    ensures { (words : _) → HasText status.now words
        → Draws out.old out.new has_colour (status_part counts running room (shown_characters words)) }
{
    match status.shown() {
        Ok(status) => push_status_part(out, has_colour, counts, running, room, &status),
        Err(_) => out.lose(),
    }
}

/// Adds to an empty text how many changes are done, failed, under way and left.
#[tactic(auto, unfolding(crate::specs::Status::status_words))]
fn push_status(text: &mut MessageText, watcher: &Watcher, is_waiting: bool)
    ensures { HasText text.old [] → HasText text.new (status_words is_waiting (state_of watcher.now)) }
{
    if is_waiting {
        text.text("waiting for the first line");
    } else {
        watcher.push_state(text);
        push_left(text, watcher.counts(), watcher.open_changes());
    }
}

/// Adds how many planned changes are left.
fn push_left(text: &mut MessageText, counts: Counts, running: u64)
    ensures { AppendsText text.old text.new (left_words counts running) }
{
    if counts.planned > 0 {
        text.text(", ");
        text.count(left_of(counts, running));
        text.text(" left");
    }
}

/// How many planned changes neither ended nor run.
fn left_of(counts: Counts, running: u64) -> u64
    ensures { result ≡ left_of counts running }
{
    counts
        .planned
        .saturating_sub(counts.done)
        .saturating_sub(counts.failed)
        .saturating_sub(running)
}

/// Adds the status, and a bar before it where there is room, in `room` columns.
fn push_status_part(
    out: &mut Canvas,
    has_colour: bool,
    counts: Counts,
    running: u64,
    room: usize,
    status: &ShownText,
)
    ensures { Draws out.old out.new has_colour (status_part counts running room status.now) }
{
    let cells = bar_cells(room, status);
    if has_bar(counts, cells) {
        push_bar(out, has_colour, counts, running, cells);
        push_stretch(out, has_colour, None, &[' ']);
        push_fitted(out, has_colour, room.saturating_sub(cells + 1), status);
    } else {
        push_fitted(out, has_colour, room, status);
    }
}

/// How many cells a bar has at most beside the status, in `room` columns.
fn bar_cells(room: usize, status: &ShownText) -> usize
    ensures { result ≡ bar_cells room status.now }
{
    MOST_CELLS.min(room.saturating_sub(1).saturating_sub(status.columns()))
}

/// Whether there is a bar: changes are planned, and there is room for eight cells.
fn has_bar(counts: Counts, cells: usize) -> bool
    ensures { result ≡ has_bar counts cells }
{
    counts.planned > 0 && cells >= LEAST_CELLS
}

/// Adds the status, fitted to so many columns.
fn push_fitted(out: &mut Canvas, has_colour: bool, columns: usize, status: &ShownText)
    ensures { Draws out.old out.new has_colour (bold_within columns status.now) }
{
    match fitted(out.alloc(), status, columns) {
        Ok(status) => push_stretch(out, has_colour, Some(Rendition::Bold), status.characters()),
        Err(_) => out.lose(),
    }
}
