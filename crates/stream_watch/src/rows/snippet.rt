//! Tells the code that a diagnostic is about.

ghost use Rattle.std.specs.Prelude.{◌≡◌, ◌∷◌, ◌++◌, [], IfOk, OnOk, codes, map, option_map, option_to_list};
ghost use Rattle.std.specs.Fmt.{decimal};
ghost use Rattle.std.specs.List.{filter_map, slice_split};
ghost use Rattle.std.specs.Option.{option_map_or};
ghost use Rattle.serde_json.specs.View.{view};
ghost use Rattle.apply_json.specs.Tree.{non_empty_text_of, text_of};
ghost use Rattle.term_text.specs.LineTexts.{is_line_feed};
ghost use Rattle.term_words.specs.MessageTexts.{AppendsText, HasText, right_text};
ghost use Rattle.stream_watch.specs.FurtherLines.{TellsFurther};
ghost use Rattle.stream_watch.specs.Joined.{before_more, before_next, joined, more_words};
ghost use Rattle.stream_watch.specs.SnippetRow.{call_of, call_words, calling_words, code_lines, code_words, context_words, dots_after, first_number, items_of, name_of, numbered, parameters_words, read_words, signature_words, snippet_lines, value_words};
ghost use Rattle.stream_watch.specs.Words.{whole_of};

use crate::mark::Mark;
use crate::watcher::Watcher;
use apply_json_tree::members::{array_or_empty, member, non_empty_text_member, text_member};
use serde_json::Value;
use std::alloc::{AllocError, Global};
use term_text::line_text;
use term_words::MessageText;

/// In how many columns the number of a line stands, at its right.
const NUMBER_COLUMNS: usize = 4;

impl Watcher {
    /// Tells the code that a diagnostic is about, and the values in it. `Err` where memory is
    /// refused.
    pub(crate) fn snippet(&mut self, mark: Mark, snippet: &Value) -> Result<(), AllocError>
        ensures { OnOk result (TellsFurther self.old self.new mark (snippet_lines (view snippet.now))) }
    {
        self.snippet_code(mark, snippet)?;
        self.snippet_values(mark, items_of(snippet, "values"));
        self.snippet_call(mark, snippet);
        Ok(())
    }

    /// Tells the code, where there is some. `Err` where memory is refused.
    fn snippet_code(&mut self, mark: Mark, snippet: &Value) -> Result<(), AllocError>
        ensures { OnOk result (TellsFurther self.old self.new mark
            (option_map_or (code_lines (view snippet.now)) (text_of (codes "code") (view snippet.now)) [])) }
    {
        let Some(code) = text_member(snippet, "code") else {
            return Ok(());
        };
        self.snippet_context(mark, snippet);
        self.snippet_lines(mark, first_number(snippet), code)?;
        Ok(())
    }

    /// Tells the context of the code, where it is known.
    fn snippet_context(&mut self, mark: Mark, snippet: &Value)
        ensures { TellsFurther self.old self.new mark
            (option_to_list (option_map context_words (non_empty_text_of (codes "context") (view snippet.now)))) }
    {
        if let Some(context) = non_empty_text_member(snippet, "context") {
            self.further_text(mark, &context_text(self.alloc, context));
        }
    }

    /// Tells the lines of the code, from this number on. `Err` where memory is refused.
    fn snippet_lines(&mut self, mark: Mark, first: u64, code: &str) -> Result<(), AllocError>
        ensures { OnOk result (TellsFurther self.old self.new mark (numbered first (slice_split is_line_feed code.now))) }
    {
        let mut number = first;
        for line in code.as_bytes().split(|byte| *byte == b'\n') {
            self.snippet_line(mark, number, line)?;
            number = number.saturating_add(1);
        }
        Ok(())
    }

    /// Tells a line of the code with its number. `Err` where memory is refused.
    fn snippet_line(&mut self, mark: Mark, number: u64, line: &[u8]) -> Result<(), AllocError>
        ensures { OnOk result (TellsFurther self.old self.new mark (code_words number line.now ∷ [])) }
    {
        let text = code_text(self.alloc, number, line)?;
        self.further_text(mark, &text);
        Ok(())
    }

    /// Tells the values that the code reads.
    fn snippet_values(&mut self, mark: Mark, values: &[Value])
        ensures { TellsFurther self.old self.new mark (filter_map value_words (map view values.now)) }
    {
        for value in values {
            self.snippet_value(mark, value);
        }
    }

    /// Tells a value that the code reads, where it has both texts.
    fn snippet_value(&mut self, mark: Mark, value: &Value)
        ensures { TellsFurther self.old self.new mark (option_to_list (value_words (view value.now))) }
    {
        let Some(traversal) = text_member(value, "traversal") else {
            return;
        };
        if let Some(statement) = text_member(value, "statement") {
            self.further_text(mark, &value_text(self.alloc, traversal, statement));
        }
    }

    /// Tells the function that the code calls, where that is known.
    fn snippet_call(&mut self, mark: Mark, snippet: &Value)
        ensures { TellsFurther self.old self.new mark (option_to_list (call_of (view snippet.now))) }
    {
        if let Some(call) = member(snippet, "function_call") {
            self.called_function(mark, call);
        }
    }

    /// Tells a function that is called, where it has a name.
    fn called_function(&mut self, mark: Mark, call: &Value)
        ensures { TellsFurther self.old self.new mark (option_to_list (call_words (view call.now))) }
    {
        if let Some(name) = text_member(call, "called_as") {
            self.further_text(mark, &call_text(self.alloc, call, name));
        }
    }
}

/// Returns what is told of the context of the code.
fn context_text(alloc: Global, context: &str) -> MessageText
    ensures { HasText result (context_words context.now) }
{
    let mut text = MessageText::new(alloc);
    text.text("in ");
    text.escaped(context.as_bytes());
    text.text(":");
    text
}

/// Returns what is told of a line of the code. `Err` where memory is refused.
fn code_text(alloc: Global, number: u64, line: &[u8]) -> Result<MessageText, AllocError>
    ensures { IfOk result (λ text. HasText text (code_words number line.now)) }
{
    let line = line_text(alloc, line)?;
    let mut text = MessageText::new(alloc);
    push_right(&mut text, alloc, number);
    text.text(": ");
    text.text(line.as_str());
    Ok(text)
}

/// Returns what is told of a value that the code reads.
fn value_text(alloc: Global, traversal: &str, statement: &str) -> MessageText
    ensures { HasText result (read_words traversal.now statement.now) }
{
    let mut text = MessageText::new(alloc);
    text.text("      ");
    text.escaped(traversal.as_bytes());
    text.text(" ");
    text.escaped(statement.as_bytes());
    text
}

/// Returns what is told of a function that the code calls by this name.
fn call_text(alloc: Global, call: &Value, name: &str) -> MessageText
    ensures { HasText result (calling_words (view call.now) name.now) }
{
    let mut text = MessageText::new(alloc);
    text.text("      while calling ");
    text.escaped(name.as_bytes());
    text.text("(");
    push_parameters(&mut text, call);
    text.text(")");
    text
}

/// Returns the number of the first line of the code.
fn first_number(snippet: &Value) -> u64
    ensures { result ≡ first_number (view snippet.now) }
{
    match start_line_of(snippet) {
        Some(line) => line.max(1),
        None => 1,
    }
}

/// Returns the line in which the code starts.
fn start_line_of(snippet: &Value) -> Option<u64>
    ensures { result ≡ whole_of (codes "start_line") (view snippet.now) }
{
    member(snippet, "start_line")?.as_u64()
}

/// Returns the items of the array of that name, or no items.
fn items_of<'a>(tree: &'a Value, name: &str) -> &'a [Value]
    ensures { map view result.now ≡ items_of name.now (view tree.now) }
{
    match array_or_empty(member(tree, name)) {
        Some(items) => items,
        None => &[],
    }
}

/// Adds the number of a line, right in its columns.
fn push_right(text: &mut MessageText, alloc: Global, number: u64)
    ensures { AppendsText text.old text.new (right_text 4 (decimal number)) }
{
    let mut digits = MessageText::new(alloc);
    digits.number(number);
    text.add_right(NUMBER_COLUMNS, &digits);
}

/// Adds the names of the parameters of a function that is called, where they are known.
fn push_parameters(text: &mut MessageText, call: &Value)
    ensures { AppendsText text.old text.new (parameters_words (view call.now)) }
{
    if let Some(signature) = member(call, "signature") {
        push_signature(text, signature);
    }
}

/// Adds the names of the parameters, with `...` behind the last where it takes any number of
/// values.
fn push_signature(text: &mut MessageText, signature: &Value)
    ensures { AppendsText text.old text.new (signature_words (view signature.now)) }
{
    let before = push_names(text, items_of(signature, "params"));
    if let Some(parameter) = member(signature, "variadic_param") {
        push_variadic(text, before, parameter);
    }
}

/// Adds the names of parameters. Returns what stands before a further name.
fn push_names(text: &mut MessageText, parameters: &[Value]) -> &'static str
    ensures words { AppendsText text.old text.new (joined (codes ", ") (filter_map name_of (map view parameters.now))) }
    ensures before { result.now ≡ before_more (codes ", ") (filter_map name_of (map view parameters.now)) }
{
    let mut before = "";
    for parameter in parameters {
        before = push_name(text, before, parameter);
    }
    before
}

/// Adds the name of a parameter, where it has one. Returns what stands before the next name.
fn push_name(text: &mut MessageText, before: &'static str, parameter: &Value) -> &'static str
    ensures words { AppendsText text.old text.new (more_words before.now (name_of (view parameter.now))) }
    ensures before { result.now ≡ before_next (codes ", ") before.now (name_of (view parameter.now)) }
{
    match text_member(parameter, "name") {
        Some(name) => {
            text.text(before);
            text.escaped(name.as_bytes());
            ", "
        }
        None => before,
    }
}

/// Adds the name of the parameter that takes any number of values, where it has one, and `...`
/// behind the last name.
fn push_variadic(text: &mut MessageText, before: &'static str, parameter: &Value)
    ensures { AppendsText text.old text.new
        (more_words before.now (name_of (view parameter.now)) ++ dots_after (before_next (codes ", ") before.now (name_of (view parameter.now)))) }
{
    let behind = push_name(text, before, parameter);
    push_dots(text, behind);
}

/// Adds `...`, where something would stand before one more name.
fn push_dots(text: &mut MessageText, before: &str)
    ensures { AppendsText text.old text.new (dots_after before.now) }
{
    if !before.is_empty() {
        text.text("...");
    }
}
