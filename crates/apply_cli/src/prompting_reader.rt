//! A reader that first prints what it waits for.

ghost use Rattle.std.specs.Prelude.{◌≡◌};
ghost use Rattle.std.specs.Io.{ReadsAtMost};
ghost use Rattle.std.specs.Io.KnownBytes.{ReadConsumes};

use std::io::{self, Read, Write};
use stream_tool::report;

/// A reader that prints on `faults`, before its first read, what it waits for. So a person who
/// types a command without an input sees why nothing happens.
#[derive(Drop)]
pub struct PromptingReader<R: Drop, E: Drop> {
    input: R,
    faults: E,
    text: Option<&'static str>,
}

impl<R: Read + Drop, E: Write + Drop> PromptingReader<R, E> {
    /// Wraps `input`. `text` is printed before the first read; `None` prints nothing.
    pub fn new(input: R, faults: E, text: Option<&'static str>) -> PromptingReader<R, E>
        ensures { result ≡ record { input = input; faults = faults; text = text.entry } }
    {
        PromptingReader {
            input,
            faults,
            text,
        }
    }
}

impl<R: Read + Drop, E: Write + Drop> Read for PromptingReader<R, E> {
    ghost remaining = { λ prompting_reader. R.remaining prompting_reader.input };

    fn read(&mut self, buf: &mut [u8]) -> io::Result<usize>
        ensures bound { ReadsAtMost result buf.new }
        ensures bytes { ReadConsumes (R.remaining self.old.input) (R.remaining self.new.input) result buf.new }
    {
        if let Some(text) = self.text.take() {
            report(&mut self.faults, text);
        }
        self.input.read(buf)
    }
}
