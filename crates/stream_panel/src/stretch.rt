//! Stretches of characters that are rendered alike. A line of a panel is made of them.

ghost use Rattle.std.specs.Prelude.{◌≡◌, IfOk, encode_utf8_all, replicate};
ghost use Rattle.term_words.specs.MessageTexts.{AppendsText, HasText};
ghost use Rattle.stream_panel.specs.Canvases.{Draws};
ghost use Rattle.stream_panel.specs.Stretches.{bytes_of, copies, front, rendered, rendered_bytes, within};

use crate::canvas::{Canvas, columns};
use std::alloc::{AllocError, Global};
use stream_watch::push_time;
use term_text::Rendition;
use term_words::MessageText;

/// How many columns a time has.
const TIME: usize = 6;

/// Adds characters as one stretch, if there are any.
pub(crate) fn push_stretch(
    out: &mut Canvas,
    has_colour: bool,
    rendition: Option<Rendition>,
    characters: &[char],
)
    ensures { Draws out.old out.new has_colour (rendered rendition characters.now) }
{
    push_characters(&mut out.text, has_colour, rendition, characters);
    out.columns = out.columns.saturating_add(columns(characters));
}

/// Adds characters as one stretch, if there are any.
fn push_characters(
    text: &mut MessageText,
    has_colour: bool,
    rendition: Option<Rendition>,
    characters: &[char],
)
    ensures { AppendsText text.old text.new (bytes_of has_colour (rendered rendition characters.now)) }
{
    if !characters.is_empty() {
        push_rendered(text, has_colour, rendition, characters);
    }
}

/// Adds characters with the sequences of a rendition around them, where there is one and lines have
/// colours.
fn push_rendered(
    text: &mut MessageText,
    has_colour: bool,
    rendition: Option<Rendition>,
    characters: &[char],
)
    ensures { AppendsText text.old text.new (rendered_bytes has_colour rendition (encode_utf8_all characters.now)) }
{
    match rendition {
        Some(rendition) if has_colour => {
            text.text(rendition.sequence());
            text.characters(characters);
            text.text(Rendition::end());
        }
        _ => text.characters(characters),
    }
}

/// Adds a character so many times.
pub(crate) fn push_copies(
    out: &mut Canvas,
    has_colour: bool,
    rendition: Option<Rendition>,
    character: char,
    count: usize,
)
    ensures { Draws out.old out.new has_colour (copies rendition character count) }
{
    match copies_of(out.alloc(), character, count) {
        Ok(characters) => push_stretch(out, has_colour, rendition, &characters),
        Err(_) => out.lose(),
    }
}

/// Copies a character so many times. `Err` means that memory is refused.
fn copies_of(alloc: Global, character: char, count: usize) -> Result<Vec<char>, AllocError>
    ensures { IfOk result (λ characters. characters.items ≡ replicate count character) }
{
    vec![in alloc; character; count]
}

/// Adds a message as it is shown, fitted to so many columns.
pub(crate) fn push_within(
    out: &mut Canvas,
    has_colour: bool,
    rendition: Option<Rendition>,
    columns: usize,
    text: &MessageText,
)
    ensures { (words : _) → HasText text.now words → Draws out.old out.new has_colour (within rendition columns words) }
{
    match text.within(columns) {
        Ok(text) => push_stretch(out, has_colour, rendition, text.characters()),
        Err(_) => out.lose(),
    }
}

/// Adds the front of a line: a duration of so many microseconds, right in six columns, and two
/// blanks.
pub(crate) fn push_front(out: &mut Canvas, has_colour: bool, rendition: Option<Rendition>, age: u64)
    ensures { Draws out.old out.new has_colour (front rendition age) }
{
    let mut time = MessageText::new(out.alloc());
    push_time(&mut time, age);
    let mut right = MessageText::new(out.alloc());
    right.add_right(TIME, &time);
    push_within(out, has_colour, rendition, TIME, &right);
    push_stretch(out, has_colour, None, &[' ', ' ']);
}
