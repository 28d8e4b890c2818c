//! Lines that are added to a text, with colours or without them.

ghost use Rattle.std.specs.Prelude.{◌≡◌, ◌∷◌, [], IfOk};
ghost use Rattle.stream_watch.specs.Printed.{begin_bytes, behind_front, end_bytes, later_line, later_lines, pieces_in, stretch, time_front, time_text, timed_line, timed_lines};
ghost use Rattle.term_text.specs.Fitted.{shown_characters};
ghost use Rattle.term_words.specs.MessageTexts.{AppendsText, HasText};

use crate::mark::{Mark, Sign};
use std::alloc::{AllocError, Global};
use term_text::{Rendition, ShownText, broken};
use term_words::MessageText;

/// How many microseconds a second has.
const SECOND: u64 = 1_000_000;

/// How many columns a time has.
const TIME: usize = 6;

/// How many columns stand before a text: a time, two blanks, a sign and a blank.
const FRONT: usize = 10;

/// Adds a duration of so many microseconds: its whole seconds, fitted to six columns.
#[tactic(auto, unfolding(crate::specs::Printed::time_text))]
pub fn push_time(text: &mut MessageText, elapsed: u64)
    ensures { AppendsText text.old text.new (time_text elapsed) }
{
    let mut time = MessageText::new(text.alloc());
    time.duration(u128::from(elapsed / SECOND * SECOND));
    text.add_within(TIME, &time);
}

/// The lines of a text: one, or as many as it needs within a width. `Err` means that memory is
/// refused, or was while the text was made.
pub(crate) fn pieces(
    alloc: Global,
    width: Option<usize>,
    text: &MessageText,
) -> Result<Vec<ShownText>, AllocError>
    ensures { (words : _) → HasText text.now words → IfOk result (λ pieces. pieces.items ≡ pieces_in width (shown_characters words)) }
{
    let text = text.shown()?;
    match width {
        Some(width) => broken(alloc, &text, width.saturating_sub(FRONT)),
        None => only(alloc, text.trimmed()),
    }
}

/// The text as the only one of a list. `Err` means that memory is refused.
fn only(alloc: Global, text: ShownText) -> Result<Vec<ShownText>, AllocError>
    ensures { IfOk result (λ texts. texts.items ≡ text ∷ []) }
{
    let mut texts = Vec::new(alloc);
    texts.push(text)?;
    Ok(texts)
}

/// Adds the first of the lines with its time, and the others below it.
pub(crate) fn push_timed_lines(
    out: &mut MessageText,
    has_colour: bool,
    elapsed: u64,
    mark: Mark,
    pieces: &[ShownText],
)
    ensures { AppendsText out.old out.new (timed_lines has_colour elapsed mark pieces.now) }
{
    if let Some((first, rest)) = pieces.split_first() {
        push_timed_line(out, has_colour, elapsed, mark, first.characters());
        push_later_lines(out, has_colour, mark, mark.text_rendition(), rest);
    }
}

/// Adds lines that belong to the one before them.
pub(crate) fn push_later_lines(
    out: &mut MessageText,
    has_colour: bool,
    mark: Mark,
    rendition: Option<Rendition>,
    pieces: &[ShownText],
)
    ensures { AppendsText out.old out.new (later_lines has_colour mark rendition pieces.now) }
{
    for piece in pieces {
        push_later_line(out, has_colour, mark, rendition, piece.characters());
    }
}

/// Adds a line with a time.
fn push_timed_line(out: &mut MessageText, has_colour: bool, elapsed: u64, mark: Mark, text: &[char])
    ensures { AppendsText out.old out.new (timed_line has_colour elapsed mark text.now) }
{
    push_time_front(out, has_colour, elapsed);
    push_behind_front(out, has_colour, mark.sign(), mark.text_rendition(), text);
}

/// Adds a line that belongs to the one before it.
fn push_later_line(
    out: &mut MessageText,
    has_colour: bool,
    mark: Mark,
    rendition: Option<Rendition>,
    text: &[char],
)
    ensures { AppendsText out.old out.new (later_line has_colour mark rendition text.now) }
{
    out.blanks(TIME);
    push_behind_front(out, has_colour, mark.bar(), rendition, text);
}

/// Adds a time, right in the first columns of a line.
fn push_time_front(out: &mut MessageText, has_colour: bool, elapsed: u64)
    ensures { AppendsText out.old out.new (time_front has_colour elapsed) }
{
    let mut time = MessageText::new(out.alloc());
    push_time(&mut time, elapsed);
    push_begin(out, has_colour, Some(Rendition::Dim));
    out.add_right(TIME, &time);
    push_end(out, has_colour, Some(Rendition::Dim));
}

/// Adds what stands after the first columns of a line: two blanks, a sign, a blank, the text and a
/// line feed, without blanks at the end.
fn push_behind_front(
    out: &mut MessageText,
    has_colour: bool,
    sign: Sign,
    rendition: Option<Rendition>,
    text: &[char],
)
    ensures { AppendsText out.old out.new (behind_front has_colour sign rendition text.now) }
{
    if text.is_empty() && sign.character == ' ' {
        return out.text("\n");
    }
    let character = sign.character;
    out.text("  ");
    push_stretch(out, has_colour, sign.rendition, &[character]);
    if !text.is_empty() {
        out.text(" ");
        push_stretch(out, has_colour, rendition, text);
    }
    out.text("\n");
}

/// Adds characters with a rendition or without one.
fn push_stretch(
    out: &mut MessageText,
    has_colour: bool,
    rendition: Option<Rendition>,
    characters: &[char],
)
    ensures { AppendsText out.old out.new (stretch has_colour rendition characters.now) }
{
    push_begin(out, has_colour, rendition);
    out.characters(characters);
    push_end(out, has_colour, rendition);
}

/// Adds what starts a stretch with a rendition.
fn push_begin(out: &mut MessageText, has_colour: bool, rendition: Option<Rendition>)
    ensures { AppendsText out.old out.new (begin_bytes has_colour rendition) }
{
    match rendition {
        Some(rendition) if has_colour => out.text(rendition.sequence()),
        _ => {}
    }
}

/// Adds what ends a stretch with a rendition.
fn push_end(out: &mut MessageText, has_colour: bool, rendition: Option<Rendition>)
    ensures { AppendsText out.old out.new (end_bytes has_colour rendition) }
{
    match rendition {
        Some(_) if has_colour => out.text(Rendition::end()),
        _ => {}
    }
}
