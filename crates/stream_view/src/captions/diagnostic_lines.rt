//! The lines that show the diagnostics.

ghost use Rattle.std.specs.Prelude.{◌≤◌};

use crate::picture::Picture;
use crate::words::within::shown_within;
use std::alloc::Global;
use stream_timeline::Diagnostic;
use term_text::ShownText;
use term_words::MessageText;

/// The kind of a line. It decides the indent, the colour and the gap before the line.
#[derive(Clone, Copy)]
pub enum LineKind {
    /// The summary of an error.
    Error,
    /// The summary of a warning.
    Warning,
    /// A line of a detail, or the number of its further lines.
    Detail,
    /// The number of diagnostics that are not shown.
    Remaining,
}

/// A line of the diagnostics, before it is wrapped. An empty line comes before each line that is
/// not a detail.
#[derive(Drop)]
pub struct DiagnosticLine {
    pub kind: LineKind,
    pub text: ShownText,
}

/// How many diagnostics are shown.
const MOST: usize = 20;

/// The greatest width of a line before it is wrapped.
const COLUMNS: usize = 1_000;

/// The lines that show the diagnostics. If memory is refused, `is_whole` records that, and whoever
/// writes the lines reports it.
#[derive(Drop)]
pub struct DiagnosticLines {
    alloc: Global,
    list: Vec<DiagnosticLine>,
    /// Whether no line was lost for want of memory.
    is_whole: bool,
}

impl DiagnosticLines {
    /// The lines of the first diagnostics, errors before warnings, and the number of the others.
    pub fn of(alloc: Global, picture: &Picture<'_>) -> DiagnosticLines {
        let errors = picture.timeline.errors();
        let warnings = picture.timeline.warnings();
        let mut diagnostic_lines = DiagnosticLines {
            alloc,
            list: Vec::new(alloc),
            is_whole: true,
        };
        let count = diagnostic_lines.push_all(LineKind::Error, errors.stored(), MOST);
        let count = count
            + diagnostic_lines.push_all(LineKind::Warning, warnings.stored(), MOST - count);
        let all = errors.count().saturating_add(warnings.count());
        diagnostic_lines.push_rest(all.saturating_sub(count as u64));
        diagnostic_lines
    }

    /// The lines.
    pub fn list(&self) -> &[DiagnosticLine] {
        self.list.as_slice()
    }

    /// Whether no line was lost for want of memory.
    pub fn is_whole(&self) -> bool {
        self.is_whole
    }

    /// Adds the lines of the first `most` diagnostics. Returns how many of them there were.
    fn push_all(&mut self, kind: LineKind, diagnostics: &[Diagnostic], most: usize) -> usize
        ensures { result ≤ most }
    {
        for diagnostic in diagnostics.iter().take(most) {
            self.push_diagnostic(kind, diagnostic);
        }
        diagnostics.len().min(most)
    }

    /// Adds the number of diagnostics that are not shown, unless it is 0.
    fn push_rest(&mut self, count: u64) {
        if count > 0 {
            let mut line = MessageText::new(self.alloc);
            line.more_things(count, "diagnostic");
            self.push(LineKind::Remaining, &line);
        }
    }

    /// Adds the lines of a diagnostic.
    fn push_diagnostic(&mut self, kind: LineKind, diagnostic: &Diagnostic) {
        self.push(kind, &short(self.alloc, kind, diagnostic));
        for line in diagnostic.detail() {
            self.push_line(LineKind::Detail, line.as_slice());
        }
        self.push_more(diagnostic.more_lines());
    }

    /// Adds the number of lines of the detail that are not shown, unless it is 0.
    fn push_more(&mut self, count: u64) {
        if count > 0 {
            let mut line = MessageText::new(self.alloc);
            line.text("… ");
            line.more_things(count, "line");
            self.push(LineKind::Detail, &line);
        }
    }

    /// Adds a line.
    fn push(&mut self, kind: LineKind, line: &MessageText) {
        self.is_whole &= line.is_whole();
        self.push_line(kind, line.as_bytes());
    }

    /// Adds a line of these bytes, without the blanks, tabs and carriage returns at its end.
    fn push_line(&mut self, kind: LineKind, line: &[u8]) {
        match shown_within(self.alloc, without_blank_end(line), COLUMNS) {
            Ok(text) => self.is_whole &= self.list.push(DiagnosticLine { kind, text }).is_ok(),
            Err(_) => self.is_whole = false,
        }
    }
}

/// The summary of a diagnostic, with its address, file and line where they are known.
fn short(alloc: Global, kind: LineKind, diagnostic: &Diagnostic) -> MessageText {
    let mut line = MessageText::new(alloc);
    line.text(match kind {
        LineKind::Error => "Error: ",
        _ => "Warning: ",
    });
    line.bytes(diagnostic.summary());
    push_place(&mut line, diagnostic);
    line
}

/// Adds the address, file and line of a diagnostic in parentheses, where they are known.
fn push_place(line: &mut MessageText, diagnostic: &Diagnostic) {
    let mut before = " (";
    if let Some(address) = diagnostic.address() {
        line.text(before);
        line.bytes(address);
        before = ", ";
    }
    if let Some(file) = diagnostic.file() {
        line.text(before);
        line.bytes(file);
        push_number(line, diagnostic.line());
    } else if diagnostic.address().is_none() {
        return;
    }
    line.text(")");
}

/// Adds the number of a line in a file, if it is known.
fn push_number(line: &mut MessageText, number: Option<u64>) {
    if let Some(number) = number {
        line.text(":");
        line.number(number);
    }
}

/// The line without the blanks, tabs and carriage returns at its end.
fn without_blank_end(line: &[u8]) -> &[u8] {
    let mut len = line.len();
    'back: while len > 0 && matches!(line[len - 1], b' ' | b'\t' | b'\r') {
        len -= 1;
    }
    &line[..len]
}
