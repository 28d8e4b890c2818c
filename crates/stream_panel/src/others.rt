//! How long other steps of an action and a type took.

ghost use Rattle.std.specs.Prelude.{◌≡◌};
ghost use Rattle.stream_watch.specs.Printed.{time_text};
ghost use Rattle.term_words.specs.MessageTexts.{AppendsText, HasText};
ghost use Rattle.stream_panel.specs.Canvases.{Draws};
ghost use Rattle.stream_panel.specs.Rows.{others_rendition, others_words, padded, to_words, words_and_others};

use crate::canvas::Canvas;
use crate::stretch::{push_copies, push_stretch, push_within};
use std::alloc::Global;
use stream_watch::push_time;
use term_text::{Rendition, ShownText};
use term_words::MessageText;

/// How many columns the words of a row have at least, where something stands beside them.
const LEAST_WORDS: usize = 30;

/// Adds words and, right of them, how long others took. The words have thirty columns at least, or
/// stand alone.
pub(crate) fn push_words_and_others(
    out: &mut Canvas,
    has_colour: bool,
    room: usize,
    others_as: Rendition,
    others: &ShownText,
    text: &MessageText,
)
    ensures { (words : _) → HasText text.now words
        → Draws out.old out.new has_colour (words_and_others room others_as others.now words) }
{
    let left = room.saturating_sub(others.columns());
    if left < LEAST_WORDS {
        push_within(out, has_colour, None, room, text);
    } else {
        push_padded(out, has_colour, left, text);
        push_stretch(out, has_colour, Some(others_as), others.characters());
    }
}

/// Adds words, padded to so many columns.
fn push_padded(out: &mut Canvas, has_colour: bool, columns: usize, text: &MessageText)
    ensures { (words : _) → HasText text.now words → Draws out.old out.new has_colour (padded columns words) }
{
    match text.within(columns) {
        Ok(text) => {
            push_stretch(out, has_colour, None, text.characters());
            push_copies(
                out,
                has_colour,
                None,
                ' ',
                columns.saturating_sub(text.columns()),
            );
        }
        Err(_) => out.lose(),
    }
}

/// Adds the times of the shortest and of the longest step.
#[tactic(auto, unfolding(crate::specs::Rows::others_words))]
pub(crate) fn push_others(text: &mut MessageText, shortest: u64, longest: u64)
    ensures { AppendsText text.old text.new (others_words shortest longest) }
{
    let shorter = time_of(text.alloc(), shortest);
    let longer = time_of(text.alloc(), longest);
    text.text("  others ");
    text.add(&shorter);
    push_longer(text, &shorter, &longer);
}

/// A time of so many microseconds.
fn time_of(alloc: Global, elapsed: u64) -> MessageText
    ensures { HasText result (time_text elapsed) }
{
    let mut time = MessageText::new(alloc);
    push_time(&mut time, elapsed);
    time
}

/// Adds the longer time, unless it reads as the shorter one.
fn push_longer(text: &mut MessageText, shorter: &MessageText, longer: &MessageText)
    ensures { (shorter_time longer_time : _) → HasText shorter.now shorter_time → HasText longer.now longer_time
        → AppendsText text.old text.new (to_words shorter_time longer_time) }
{
    if !shorter.is_whole() || !longer.is_whole() {
        text.lose();
    } else if shorter.as_bytes() != longer.as_bytes() {
        text.text(" to ");
        text.add(longer);
    }
}

/// How the times of others are rendered beside a step of this age: one that takes longer than all
/// others catches the eye.
pub(crate) fn others_rendition(age: u64, longest: u64) -> Rendition
    ensures { result ≡ others_rendition age longest }
{
    if age > longest {
        Rendition::Yellow
    } else {
        Rendition::Dim
    }
}
