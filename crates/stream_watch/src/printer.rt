//! What was printed, before it is written.

ghost use Rattle.std.specs.Prelude.{◌≡◌, [], IsTrue};
ghost use Rattle.stream_watch.specs.Printed.{HasPrinted, Prints, further_bytes, line_bytes};
ghost use Rattle.term_words.specs.MessageTexts.{HasText};

use crate::lines::{pieces, push_later_lines, push_timed_lines};
use crate::mark::Mark;
use std::alloc::Global;
use term_words::MessageText;

/// Collects lines before they are written. If memory is refused, `is_whole` records that for good,
/// so that printing can't fail.
#[derive(Drop)]
pub struct Printer {
    alloc: Global,
    /// How many columns a line has at most. Without a width, a line is as long as its text.
    width: Option<usize>,
    /// Whether lines have the sequences of colours.
    has_colour: bool,
    printed: MessageText,
}

impl Printer {
    /// A printer of lines of at most `width` columns, with colours or without them. A width is 11
    /// at least: ten columns stand before a text.
    pub fn new(alloc: Global, width: Option<usize>, has_colour: bool) -> Printer
        ensures width { result.width ≡ width }
        ensures has_colour { result.has_colour ≡ has_colour }
        ensures empty { HasPrinted result [] }
    {
        Printer {
            alloc,
            width,
            has_colour,
            printed: MessageText::new(alloc),
        }
    }

    /// Prints a text after a time and a mark. `elapsed` is the time in microseconds. A text that
    /// has no room on one line goes on in further lines.
    pub fn line(&mut self, elapsed: u64, mark: Mark, text: &MessageText)
        ensures { (words : _) → HasText text.now words → Prints self.old self.new (line_bytes self.old.width self.old.has_colour elapsed mark words) }
    {
        match pieces(self.alloc, self.width, text) {
            Ok(pieces) => {
                push_timed_lines(&mut self.printed, self.has_colour, elapsed, mark, &pieces)
            }
            Err(_) => self.printed.lose(),
        }
    }

    /// Prints a text that belongs to the line before it, which has this mark.
    pub fn further(&mut self, mark: Mark, text: &MessageText)
        ensures { (words : _) → HasText text.now words → Prints self.old self.new (further_bytes self.old.width self.old.has_colour mark words) }
    {
        match pieces(self.alloc, self.width, text) {
            Ok(pieces) => {
                push_later_lines(&mut self.printed, self.has_colour, mark, None, &pieces)
            }
            Err(_) => self.printed.lose(),
        }
    }

    /// What was printed since the last `clear`.
    pub fn as_bytes(&self) -> &[u8]
        ensures { (bytes : _) → HasPrinted self.now bytes → IsTrue self.now.printed.is_whole → result.now ≡ bytes }
    {
        self.printed.as_bytes()
    }

    /// Whether nothing was ever lost for want of memory.
    pub fn is_whole(&self) -> bool
        ensures { result ≡ self.now.printed.is_whole }
    {
        self.printed.is_whole()
    }

    /// Takes away what was printed. A printer that has lost something stays without being whole.
    pub fn clear(&mut self)
        ensures width { self.new.width ≡ self.old.width }
        ensures has_colour { self.new.has_colour ≡ self.old.has_colour }
        ensures whole { self.new.printed.is_whole ≡ self.old.printed.is_whole }
        ensures empty { HasPrinted self.new [] }
    {
        self.printed.clear();
    }
}
