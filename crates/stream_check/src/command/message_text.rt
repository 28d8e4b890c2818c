//! Builds the text of a message.

ghost use Rattle.std.specs.Prelude.{◌≡◌, ◌++◌, [], IfOk, OnErr, decimal, false, string_bytes};
ghost use Rattle.stream_check.specs.MessageTexts.{HasText, AppendsText};

use std::alloc::{AllocError, Global};
use term_text::{escape_controls_within, push_controls_escaped};

/// The text of a message that is built. Refused memory is remembered until `words`, so that
/// appending returns no error.
#[derive(Drop)]
pub struct MessageText {
    alloc: Global,
    text: String,
    /// Whether memory sufficed for all of the text so far.
    is_whole: bool,
}

impl MessageText {
    /// An empty text.
    pub fn new(alloc: Global) -> MessageText
        ensures { HasText result [] }
    {
        MessageText {
            alloc,
            text: String::new(alloc),
            is_whole: true,
        }
    }

    /// Returns the text. `Err` where memory was refused for a part of it.
    pub fn words(self) -> Result<String, AllocError>
        ensures { (words : _) → HasText self words → IfOk result (λ text. string_bytes text ≡ words) }
    {
        if self.is_whole {
            Ok(self.text)
        } else {
            Err(AllocError)
        }
    }

    /// Appends a text.
    pub fn text(&mut self, text: &str)
        ensures { AppendsText self.old self.new text.now }
    {
        self.is_whole &= self.text.push_str(text).is_ok();
    }

    /// Appends a number and a text after it.
    pub fn count(&mut self, count: u64, suffix: &str)
        ensures { AppendsText self.old self.new (decimal count ++ suffix.now) }
    {
        self.number(count);
        self.text(suffix);
    }

    /// Appends a number.
    fn number(&mut self, number: u64)
        ensures { AppendsText self.old self.new (decimal number) }
    {
        let text = number.to_string(self.alloc);
        self.made(text);
    }

    /// Appends a text of the stream with control characters escaped, cut to `most` bytes.
    pub fn escaped(&mut self, most: usize, text: &str) {
        let escaped = escape_controls_within(self.alloc, most, text.as_bytes());
        self.made(escaped);
    }

    /// Appends a text, or remembers that memory was refused for it.
    pub fn made(&mut self, text: Result<String, AllocError>)
        ensures made { IfOk text (λ made. AppendsText self.old self.new (string_bytes made)) }
        ensures refused { OnErr text (self.new.is_whole ≡ false) }
    {
        match text {
            Ok(text) => self.text(text.as_str()),
            Err(_) => self.is_whole = false,
        }
    }

    /// Appends bytes of the stream with control characters escaped.
    pub fn bytes(&mut self, bytes: &[u8]) {
        self.is_whole &= push_controls_escaped(&mut self.text, bytes).is_ok();
    }
}
