//! Tells diagnostics.

ghost use Rattle.std.specs.Prelude.{◌≡◌, ◌∷◌, [], IfOk, OnOk, is_some, map, option_map, string_bytes, unwrap_or};
ghost use Rattle.std.specs.Option.{option_copied};
ghost use Rattle.serde_json.specs.View.{view};
ghost use Rattle.term_words.specs.MessageTexts.{AppendsText, HasText};
ghost use Rattle.stream_watch.specs.DiagnosticRow.{address_of, body_lines, diagnostic_told, diagnostic_words, file_of, file_words, gap_lines, in_one_line, line_of, place_words, severity_mark, severity_told, severity_words, snippet_part, summary_words, text_or_nothing, without_end_blanks, without_front_blanks, without_outer_blanks, without_reads};
ghost use Rattle.stream_watch.specs.FurtherLines.{TellsFurther};
ghost use Rattle.stream_watch.specs.State.{Tells, line_at, looks_of, nothing, state_of};

use crate::mark::Mark;
use crate::watcher::Watcher;
use apply_json_tree::members::{member, non_empty_text_member, text_member};
use serde_json::Value;
use std::alloc::{AllocError, Global};
use term_text::text_lines;
use term_words::MessageText;

impl Watcher {
    /// Tells a diagnostic. `false` where it has no severity. `Err` where memory is refused.
    pub fn diagnostic(&mut self, tree: &Value) -> Result<bool, AllocError>
        ensures is { IfOk result (λ is. is ≡ is_some (diagnostic_told (looks_of self.old) (state_of self.old) (view tree.now))) }
        ensures told { OnOk result (Tells self.old self.new
            (unwrap_or (diagnostic_told (looks_of self.old) (state_of self.old) (view tree.now)) (nothing (state_of self.old)))) }
    {
        let Some(diagnostic) = member(tree, "diagnostic") else {
            return Ok(false);
        };
        let Some(severity) = text_member(diagnostic, "severity") else {
            return Ok(false);
        };
        self.diagnostic_of(severity, diagnostic)?;
        Ok(true)
    }

    /// Tells a diagnostic with this severity. `Err` where memory is refused.
    fn diagnostic_of(&mut self, severity: &str, diagnostic: &Value) -> Result<(), AllocError>
        ensures { OnOk result (Tells self.old self.new
            (severity_told (looks_of self.old) (state_of self.old) severity.now (view diagnostic.now))) }
    {
        self.report_refreshes();
        let mark = mark_of(severity);
        self.diagnostic_line(mark, severity, diagnostic)?;
        self.diagnostic_body(mark, diagnostic)?;
        self.forget_reads_of(diagnostic);
        Ok(())
    }

    /// Tells severity, summary and place. `Err` where memory is refused.
    fn diagnostic_line(
        &mut self,
        mark: Mark,
        severity: &str,
        diagnostic: &Value,
    ) -> Result<(), AllocError>
        ensures { OnOk result (Tells self.old self.new
            (record { bytes = line_at (looks_of self.old) (state_of self.old) mark (diagnostic_words severity.now (view diagnostic.now)); state = state_of self.old })) }
    {
        let text = diagnostic_text(self.alloc, severity, diagnostic)?;
        self.line(mark, &text);
        Ok(())
    }

    /// Tells the snippet and the detail. `Err` where memory is refused.
    fn diagnostic_body(&mut self, mark: Mark, diagnostic: &Value) -> Result<(), AllocError>
        ensures { OnOk result (TellsFurther self.old self.new mark (body_lines (view diagnostic.now))) }
    {
        let snippet = member(diagnostic, "snippet");
        self.diagnostic_snippet(mark, snippet)?;
        let lines = text_lines(self.alloc, text_or_nothing(diagnostic, "detail").as_bytes())?;
        self.diagnostic_gap(mark, snippet.is_some(), lines.as_slice());
        self.further_lines(mark, lines.as_slice());
        Ok(())
    }

    /// Tells the snippet, where there is one. `Err` where memory is refused.
    fn diagnostic_snippet(&mut self, mark: Mark, snippet: Option<&Value>) -> Result<(), AllocError>
        ensures { OnOk result (TellsFurther self.old self.new mark (snippet_part (option_map (λ snippet. view snippet.now) snippet.entry))) }
    {
        match snippet {
            Some(snippet) => self.snippet(mark, snippet),
            None => Ok(()),
        }
    }

    /// Tells the empty line between a snippet and the lines of a detail.
    fn diagnostic_gap(&mut self, mark: Mark, has_snippet: bool, lines: &[String])
        ensures { TellsFurther self.old self.new mark (gap_lines has_snippet (map string_bytes lines.now)) }
    {
        if has_snippet && !lines.is_empty() {
            self.further_text(mark, &MessageText::new(self.alloc));
        }
    }

    /// Tells lines that belong to the line before them.
    pub(crate) fn further_lines(&mut self, mark: Mark, lines: &[String])
        ensures { TellsFurther self.old self.new mark (map string_bytes lines.now) }
    {
        for line in lines {
            self.further_text(mark, &text_of(self.alloc, line.as_str()));
        }
    }

    /// Tells a text that belongs to the line before it.
    pub(crate) fn further_text(&mut self, mark: Mark, text: &MessageText)
        ensures { (words : _) → HasText text.now words → TellsFurther self.old self.new mark (words ∷ []) }
    {
        self.further(mark, text);
    }

    /// The reads at the address of a diagnostic are open no longer.
    fn forget_reads_of(&mut self, diagnostic: &Value)
        ensures { Tells self.old self.new
            (record { bytes = []; state = without_reads (address_of (view diagnostic.now)) (state_of self.old) }) }
    {
        if let Some(address) = non_empty_text_member(diagnostic, "address") {
            self.steps.forget_reads(address);
        }
    }
}

/// Returns severity, summary and place. `Err` where memory is refused.
fn diagnostic_text(
    alloc: Global,
    severity: &str,
    diagnostic: &Value,
) -> Result<MessageText, AllocError>
    ensures { IfOk result (λ text. HasText text (diagnostic_words severity.now (view diagnostic.now))) }
{
    let mut text = MessageText::new(alloc);
    push_severity(&mut text, severity);
    text.text(": ");
    push_summary(&mut text, alloc, diagnostic)?;
    push_place(&mut text, diagnostic);
    Ok(text)
}

/// Returns a text as it is.
pub fn text_of(alloc: Global, words: &str) -> MessageText
    ensures { HasText result words.now }
{
    let mut text = MessageText::new(alloc);
    text.text(words);
    text
}

/// Returns the mark of a severity.
fn mark_of(severity: &str) -> Mark
    ensures { result ≡ severity_mark severity.now }
{
    match severity {
        "error" => Mark::Failed,
        "warning" => Mark::Warning,
        _ => Mark::Other,
    }
}

/// Adds the severity.
fn push_severity(text: &mut MessageText, severity: &str)
    ensures { AppendsText text.old text.new (severity_words severity.now) }
{
    match severity {
        "error" => text.text("Error"),
        "warning" => text.text("Warning"),
        _ => text.escaped(severity.as_bytes()),
    }
}

/// Returns the member of that name, or an empty text if it is no text.
pub fn text_or_nothing<'a>(object: &'a Value, name: &str) -> &'a str
    ensures { result.now ≡ text_or_nothing name.now (view object.now) }
{
    match text_member(object, name) {
        Some(text) => text,
        None => "",
    }
}

/// Adds the lines of the summary, with a blank between them. `Err` where memory is refused.
fn push_summary(text: &mut MessageText, alloc: Global, diagnostic: &Value) -> Result<(), AllocError>
    ensures { OnOk result (AppendsText text.old text.new (summary_words (view diagnostic.now))) }
{
    let lines = text_lines(alloc, text_or_nothing(diagnostic, "summary").as_bytes())?;
    push_in_one_line(text, lines.as_slice());
    Ok(())
}

/// Adds lines with a blank between them.
fn push_in_one_line(text: &mut MessageText, lines: &[String])
    ensures { AppendsText text.old text.new (in_one_line (map string_bytes lines.now)) }
{
    let mut separator = "";
    for line in lines {
        text.text(separator);
        text.bytes(without_outer_blanks(line.as_str().as_bytes()));
        separator = " ";
    }
}

/// Returns the line without blanks at both ends.
fn without_outer_blanks(line: &[u8]) -> &[u8]
    ensures { result.now ≡ without_outer_blanks line.now }
{
    without_end_blanks(without_front_blanks(line))
}

/// Returns the line without blanks at its front.
fn without_front_blanks(line: &[u8]) -> &[u8]
    ensures { result.now ≡ without_front_blanks line.now }
{
    let mut len = 0;
    'front: while len < line.len() && line[len] == b' ' {
        len += 1;
    }
    &line[len..]
}

/// Returns the line without blanks at its end.
fn without_end_blanks(line: &[u8]) -> &[u8]
    ensures { result.now ≡ without_end_blanks line.now }
{
    let mut len = line.len();
    'back: while len > 0 && line[len - 1] == b' ' {
        len -= 1;
    }
    &line[..len]
}

/// Adds address, file and line in parentheses, where they are known.
fn push_place(text: &mut MessageText, diagnostic: &Value)
    ensures { AppendsText text.old text.new
        (place_words (address_of (view diagnostic.now)) (file_of (view diagnostic.now)) (line_of (view diagnostic.now))) }
{
    let address = non_empty_text_member(diagnostic, "address");
    push_place_of(text, address, file_of(diagnostic), line_of(diagnostic));
}

/// Adds this address, file and line in parentheses.
fn push_place_of(
    text: &mut MessageText,
    address: Option<&str>,
    file: Option<&str>,
    line: Option<u64>,
)
    ensures { AppendsText text.old text.new (place_words (option_copied address.entry) (option_copied file.entry) line) }
{
    match (address, file) {
        (None, None) => {}
        (Some(address), None) => {
            text.text(" (");
            text.escaped(address.as_bytes());
            text.text(")");
        }
        (None, Some(file)) => {
            text.text(" (");
            push_file(text, file, line);
            text.text(")");
        }
        (Some(address), Some(file)) => {
            text.text(" (");
            text.escaped(address.as_bytes());
            text.text(", ");
            push_file(text, file, line);
            text.text(")");
        }
    }
}

/// Adds the file, and its line where that is known.
fn push_file(text: &mut MessageText, file: &str, line: Option<u64>)
    ensures { AppendsText text.old text.new (file_words file.now line) }
{
    text.escaped(file.as_bytes());
    if let Some(line) = line {
        text.text(":");
        text.number(line);
    }
}

/// Returns the file of a diagnostic.
fn file_of(diagnostic: &Value) -> Option<&str>
    ensures { option_copied result ≡ file_of (view diagnostic.now) }
{
    non_empty_text_member(member(diagnostic, "range")?, "filename")
}

/// Returns the line of the file in which the range of a diagnostic starts.
fn line_of(diagnostic: &Value) -> Option<u64>
    ensures { result ≡ line_of (view diagnostic.now) }
{
    member(member(member(diagnostic, "range")?, "start")?, "line")?.as_u64()
}
