//! Markup that is collected before it is written.

ghost use Rattle.std.specs.Prelude.{◌≡◌, ◌∷◌, [], IfOk, OnOk, string_bytes, true};
ghost use Rattle.std.specs.List.{flat_map};
ghost use Rattle.term_text.specs.Fitted.{shown_characters};
ghost use Rattle.stream_view.specs.Growth.{HasParts, box_begin};
ghost use Rattle.stream_view.specs.Markup.{PartsWritten, line_begin, line_parts, markup_part_bytes, shown_parts, text_parts};
ghost use Rattle.term_words.specs.MessageTexts.{HasText};
ghost use Rattle.stream_view.specs.declared.svg.markup_part.MarkupPart.TheVariants as markup_part;

use crate::draw_fault::DrawFault;
use crate::svg::fragment::Fragment;
use crate::svg::markup_part::MarkupPart;
use crate::writing::write_text;
use std::alloc::{AllocError, Global};
use std::io::Write;
use term_text::ShownText;
use term_words::MessageText;

/// Parts of the SVG that have not been written yet. If memory is refused, `is_whole` records that
/// until they are written, so that adding a part can't fail.
#[derive(Drop)]
pub struct Markup {
    alloc: Global,
    parts: Vec<MarkupPart>,
    /// Whether nothing was lost for want of memory.
    is_whole: bool,
}

impl Markup {
    /// No markup.
    pub fn new(alloc: Global) -> Markup
        ensures { result.parts.items ≡ [] }
    {
        Markup {
            alloc,
            parts: Vec::new(alloc),
            is_whole: true,
        }
    }

    /// The allocator of the parts.
    pub fn alloc(&self) -> Global {
        self.alloc
    }

    /// Records that memory was refused, if `is_whole` is false.
    pub fn merge_whole(&mut self, is_whole: bool) {
        self.is_whole &= is_whole;
    }

    /// Adds a fixed text.
    pub fn fixed(&mut self, fragment: Fragment)
        ensures { HasParts self.old self.new (markup_part.Fixed fragment ∷ []) }
    {
        self.is_whole &= self.parts.push(MarkupPart::Fixed(fragment)).is_ok();
    }

    /// Adds parts.
    pub fn add(&mut self, parts: &[MarkupPart])
        ensures { HasParts self.old self.new parts.now }
    {
        self.is_whole &= self.parts.extend_from_slice(parts).is_ok();
    }

    /// Adds a text, whose characters are escaped.
    pub fn text(&mut self, text: &ShownText)
        ensures { HasParts self.old self.new (text_parts text.now) }
    {
        for character in text.characters() {
            self.is_whole &= self.parts.push(MarkupPart::Character(*character)).is_ok();
        }
    }

    /// Adds a text, or records that memory was refused for it.
    pub fn text_if_any(&mut self, text: &Result<ShownText, AllocError>)
        ensures { (characters : _) → IfOk text.now (λ shown. shown ≡ characters) → HasParts self.old self.new (text_parts characters) }
    {
        match text {
            Ok(text) => self.text(text),
            Err(_) => self.is_whole = false,
        }
    }

    /// Adds bytes as they are shown.
    pub fn shown(&mut self, bytes: &[u8])
        ensures { HasParts self.old self.new (shown_parts bytes.now) }
    {
        self.text_if_any(&ShownText::of(self.alloc, bytes));
    }

    /// Adds a message.
    pub fn message(&mut self, message: &MessageText)
        ensures { (words : _) → HasText message.now words → HasParts self.old self.new (shown_parts words) }
    {
        self.text_if_any(&message.shown());
    }

    /// Adds the begin of a line of text: its place and its class.
    pub fn begin_text(&mut self, x: u64, y: u64, class: Fragment)
        ensures { HasParts self.old self.new (line_begin x y class) }
    {
        self.add(&[
            MarkupPart::Fixed(Fragment::TextX),
            MarkupPart::Tenths(x),
            MarkupPart::Fixed(Fragment::Y),
            MarkupPart::Number(y),
            MarkupPart::Fixed(Fragment::Class),
            MarkupPart::Fixed(class),
            MarkupPart::Fixed(Fragment::TagEnd),
        ]);
    }

    /// Adds a line of text.
    pub fn line(&mut self, x: u64, y: u64, class: Fragment, text: &ShownText) {
        self.begin_text(x, y, class);
        self.text(text);
        self.fixed(Fragment::TextLineEnd);
    }

    /// Adds a line with a message.
    pub fn line_of(&mut self, x: u64, y: u64, class: Fragment, message: &MessageText)
        ensures { (words : _) → HasText message.now words → HasParts self.old self.new (line_parts x y class (shown_characters words)) }
    {
        self.begin_text(x, y, class);
        self.message(message);
        self.fixed(Fragment::TextLineEnd);
    }

    /// Adds the begin of a box: its place, width and height. `x` and `width` are in tenths of a
    /// pixel, `y` and `height` in pixels.
    pub fn begin_box(&mut self, x: u64, y: u64, width: u64, height: u64)
        ensures { HasParts self.old self.new (box_begin x y width height) }
    {
        self.add(&[
            MarkupPart::Fixed(Fragment::RectX),
            MarkupPart::Tenths(x),
            MarkupPart::Fixed(Fragment::Y),
            MarkupPart::Number(y),
            MarkupPart::Fixed(Fragment::Width),
            MarkupPart::Tenths(width),
            MarkupPart::Fixed(Fragment::Height),
            MarkupPart::Number(height),
        ]);
    }

    /// Writes the parts, and clears them. `DrawFault::Memory` if memory is refused, or was while
    /// parts were added. `DrawFault::Gone` or `DrawFault::Unwritten` if a write fails.
    pub fn send<W: Write>(&mut self, out: &mut W) -> Result<(), DrawFault>
        ensures { OnOk result ((self.old.is_whole ≡ true) × PartsWritten self.old.parts.items (W.contents out.old) (W.contents out.new)) }
    {
        if !self.is_whole {
            return Err(DrawFault::Memory);
        }
        let text = text_of(self.alloc, &self.parts)?;
        self.parts.clear();
        write_text(text.as_str(), out)
    }
}

/// The text of the parts. `Err` means that memory was refused.
fn text_of(alloc: Global, parts: &[MarkupPart]) -> Result<String, AllocError>
    ensures { IfOk result (λ text. string_bytes text ≡ flat_map markup_part_bytes parts.now) }
{
    let mut text = String::new(alloc);
    for markup_part in parts {
        markup_part.push_to(&mut text)?;
    }
    Ok(text)
}
