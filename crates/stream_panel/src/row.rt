//! The rows of a panel: a line for each open step.

ghost use Rattle.std.specs.Prelude.{◌≡◌, ◌-◌, ◌∷◌, [], map, option_map};
ghost use Rattle.std.specs.Option.{option_copied};
ghost use Rattle.term_words.specs.MessageTexts.{AppendsText, HasText};
ghost use Rattle.stream_watch.specs.Lengths.{lengths_of, lengths_view};
ghost use Rattle.stream_watch.specs.State.{state_of};
ghost use Rattle.stream_watch.specs.Steps.{step_view};
ghost use Rattle.stream_panel.specs.Canvases.{Draws, DrawsLines};
ghost use Rattle.stream_panel.specs.Rows.{action_rendition, kind_part, more_line, more_lines, more_words, part_with_others, row_front, row_line, row_of, row_part, row_words};

use crate::canvas::Canvas;
use crate::others::{others_rendition, push_others, push_words_and_others};
use crate::stretch::{push_copies, push_front, push_stretch, push_within};
use crate::view::View;
use stream_watch::{KindLengths, Lengths, OpenStep, Watcher, push_provisioner_of, push_step};
use term_text::Rendition;
use term_words::MessageText;

/// How many columns stand before the words of a row: a time, two blanks, a sign and a blank.
const FRONT: usize = 10;

/// How long the longest of the others took at least, in microseconds.
const LONG: u64 = 1_000_000;

/// Adds the rows of steps.
pub(crate) fn push_rows(out: &mut Canvas, watcher: &Watcher, view: View, steps: &[OpenStep])
    ensures { DrawsLines out.old out.new view.has_colour
        (map (λ step. row_line view (state_of watcher.now) (step_view step)) steps.now) }
{
    for step in steps {
        push_row(out, watcher, view, step);
    }
}

/// Adds the row of a step.
fn push_row(out: &mut Canvas, watcher: &Watcher, view: View, step: &OpenStep)
    ensures { DrawsLines out.old out.new view.has_colour (row_line view (state_of watcher.now) (step_view step.now) ∷ []) }
{
    let age = view.age(step.begin, watcher.clock().now);
    push_row_of(out, watcher.lengths(), view, age, step);
    out.end_line();
}

/// Adds the row of a step of this age, without a line feed.
fn push_row_of(out: &mut Canvas, lengths: &Lengths, view: View, age: u64, step: &OpenStep)
    ensures { Draws out.old out.new view.has_colour (row_of view (lengths_of lengths.now) age (step_view step.now)) }
{
    let action = step.action.as_str();
    let mut text = MessageText::new(out.alloc());
    push_row_words(&mut text, step);
    push_row_front(out, view.has_colour, action, age);
    push_row_part(
        out,
        view.has_colour,
        view.line_columns().saturating_sub(FRONT),
        age,
        lengths.of(action, step.kind.as_str()),
        &text,
    );
}

/// Adds the time since a step began, and a sign.
fn push_row_front(out: &mut Canvas, has_colour: bool, action: &str, age: u64)
    ensures { Draws out.old out.new has_colour (row_front action.now age) }
{
    push_front(out, has_colour, None, age);
    push_stretch(out, has_colour, Some(action_rendition(action)), &['▸']);
    push_stretch(out, has_colour, None, &[' ']);
}

/// Adds the action, the address, and the provisioner that runs.
#[tactic(auto, unfolding(crate::specs::Rows::row_words))]
fn push_row_words(text: &mut MessageText, step: &OpenStep)
    ensures { AppendsText text.old text.new (row_words (step_view step.now)) }
{
    push_step(text, step.action.as_str(), step.address.as_str());
    push_provisioner_of(text, step);
}

/// Adds the words of a row and, where the longest of the others took a second, how long they took.
fn push_row_part(
    out: &mut Canvas,
    has_colour: bool,
    room: usize,
    age: u64,
    lengths: Option<&KindLengths>,
    text: &MessageText,
)
    ensures { (words : _) → HasText text.now words
        → Draws out.old out.new has_colour (row_part room age (option_map lengths_view (option_copied lengths.entry)) words) }
{
    match lengths {
        Some(lengths) => push_kind_part(out, has_colour, room, age, lengths, text),
        None => push_within(out, has_colour, None, room, text),
    }
}

/// Adds the words of a row and, where the longest of the others took a second, how long they took.
fn push_kind_part(
    out: &mut Canvas,
    has_colour: bool,
    room: usize,
    age: u64,
    lengths: &KindLengths,
    text: &MessageText,
)
    ensures { (words : _) → HasText text.now words
        → Draws out.old out.new has_colour (kind_part room age (lengths_view lengths.now) words) }
{
    if lengths.longest < LONG {
        push_within(out, has_colour, None, room, text);
    } else {
        push_long_others(out, has_colour, room, age, lengths, text);
    }
}

/// Adds the words of a row, and how long others took.
fn push_long_others(
    out: &mut Canvas,
    has_colour: bool,
    room: usize,
    age: u64,
    lengths: &KindLengths,
    text: &MessageText,
)
    ensures { (words : _) → HasText text.now words
        → Draws out.old out.new has_colour (part_with_others room age (lengths_view lengths.now) words) }
{
    let rendition = others_rendition(age, lengths.longest);
    let mut others = MessageText::new(out.alloc());
    push_others(&mut others, lengths.shortest, lengths.longest);
    match others.shown() {
        Ok(others) => push_words_and_others(out, has_colour, room, rendition, &others, text),
        Err(_) => out.lose(),
    }
}

/// How the sign of a step is rendered.
fn action_rendition(action: &str) -> Rendition
    ensures { result ≡ action_rendition action.now }
{
    match action {
        "create" => Rendition::Green,
        "update" => Rendition::Yellow,
        "delete" | "replace" => Rendition::Magenta,
        "read" | "refresh" => Rendition::Cyan,
        _ => Rendition::White,
    }
}

/// Adds how many steps have no row, where some have none.
pub(crate) fn push_more(out: &mut Canvas, view: View, count: usize)
    ensures { DrawsLines out.old out.new view.has_colour (more_lines view count) }
{
    if count > 0 {
        push_more_line(out, view, count);
    }
}

/// Adds the line that says how many steps have no row.
fn push_more_line(out: &mut Canvas, view: View, count: usize)
    ensures { DrawsLines out.old out.new view.has_colour (more_line view count ∷ []) }
{
    let mut text = MessageText::new(out.alloc());
    push_more_words(&mut text, count);
    push_copies(out, view.has_colour, None, ' ', FRONT);
    push_within(
        out,
        view.has_colour,
        Some(Rendition::Dim),
        view.line_columns().saturating_sub(FRONT),
        &text,
    );
    out.end_line();
}

/// Adds how many further steps there are.
fn push_more_words(text: &mut MessageText, count: usize)
    ensures { AppendsText text.old text.new (more_words count) }
{
    text.text("and ");
    text.count(count as u64);
    text.text(" more");
}
