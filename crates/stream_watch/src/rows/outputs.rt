//! Tells planned outputs, and the outputs of an apply.

ghost use Rattle.std.specs.Prelude.{◌≡◌, ◌∷◌, [], IfOk, OnOk, codes, count_by, is_some, map, unwrap_or};
ghost use Rattle.std.specs.Option.{option_copied};
ghost use Rattle.serde_json.specs.View.{view};
ghost use Rattle.term_words.specs.MessageTexts.{HasText};
ghost use Rattle.term_words.specs.Words.{number_words};
ghost use Rattle.stream_watch.specs.FurtherLines.{TellsFurther};
ghost use Rattle.stream_watch.specs.OutputRows.{all_told, count_bytes, has_outputs, is_unplanned, outputs_told, planned_action, planned_bytes, planned_outputs, planned_words, raw_words, shown_value, unplanned, value_outputs, value_words};
ghost use Rattle.stream_watch.specs.Outputs.{output_view};
ghost use Rattle.stream_watch.specs.State.{Tells, looks_of, nothing, state_of};

use crate::mark::Mark;
use crate::message::outputs::output::Output;
use crate::message::outputs::read_outputs;
use crate::watcher::Watcher;
use apply_json_tree::members::member;
use serde_json::Value;
use std::alloc::{AllocError, Global};
use term_words::MessageText;

/// How many bytes an output has at most.
const MAX_OUTPUT: usize = 1024;

impl Watcher {
    /// Tells the outputs of the message in the line. `false` where they are no object. `Err` where
    /// memory is refused.
    pub fn outputs(&mut self, tree: &Value, line: &[u8]) -> Result<bool, AllocError>
        ensures is { IfOk result (λ is. is
            ≡ is_some (outputs_told (looks_of self.old) (state_of self.old) self.old.find (view tree.now) line.now)) }
        ensures told { OnOk result (Tells self.old self.new
            (unwrap_or (outputs_told (looks_of self.old) (state_of self.old) self.old.find (view tree.now) line.now)
            (nothing (state_of self.old)))) }
    {
        if !has_outputs(tree) {
            return Ok(false);
        }
        let outputs = read_outputs(self.alloc, &mut self.scratch, self.find, line)?;
        self.all_outputs(outputs.as_slice());
        Ok(true)
    }

    /// Tells outputs.
    fn all_outputs(&mut self, outputs: &[Output])
        ensures { Tells self.old self.new (all_told (looks_of self.old) (state_of self.old) (map output_view outputs.now)) }
    {
        self.report_refreshes();
        self.planned_outputs(outputs);
        self.value_outputs(outputs);
    }

    /// Tells what is planned of the outputs.
    fn planned_outputs(&mut self, outputs: &[Output])
        ensures { Tells self.old self.new
            (record { bytes = planned_outputs (looks_of self.old) (state_of self.old) (map output_view outputs.now); state = state_of self.old }) }
    {
        for output in outputs {
            self.planned_output(output);
        }
    }

    /// Tells what is planned of an output.
    fn planned_output(&mut self, output: &Output)
        ensures { Tells self.old self.new
            (record { bytes = planned_bytes (looks_of self.old) (state_of self.old) (output_view output.now) (planned_action (output_view output.now)); state = state_of self.old }) }
    {
        if let Some(action) = output.planned_action() {
            if action != "noop" {
                self.line(
                    Mark::planned(action),
                    &planned_text(self.alloc, action, output),
                );
            }
        }
    }

    /// Tells the other outputs, with their number before them.
    fn value_outputs(&mut self, outputs: &[Output])
        ensures { Tells self.old self.new
            (record { bytes = value_outputs (looks_of self.old) (state_of self.old) (map output_view outputs.now); state = state_of self.old }) }
    {
        self.output_count(count_unplanned(outputs));
        self.output_values(outputs);
    }

    /// Tells a number of outputs, unless it is 0.
    fn output_count(&mut self, count: usize)
        ensures { Tells self.old self.new
            (record { bytes = count_bytes (looks_of self.old) (state_of self.old) count; state = state_of self.old }) }
    {
        if count > 0 {
            self.line(Mark::Sum, &count_text(self.alloc, count as u64));
        }
    }

    /// Tells the outputs that are not planned, with their values.
    fn output_values(&mut self, outputs: &[Output])
        ensures { TellsFurther self.old self.new Mark.Output (map value_words (unplanned (map output_view outputs.now))) }
    {
        for output in outputs {
            self.output_value(output);
        }
    }

    /// Tells an output with its value, unless it is planned.
    fn output_value(&mut self, output: &Output)
        ensures { TellsFurther self.old self.new Mark.Output (map value_words (unplanned (output_view output.now ∷ []))) }
    {
        if output.is_unplanned() {
            self.further_text(Mark::Output, &value_text(self.alloc, output));
        }
    }
}

impl Output {
    /// Returns the planned action, where the output has no value.
    fn planned_action(&self) -> Option<&str>
        ensures { option_copied result ≡ planned_action (output_view self.now) }
    {
        match self.value {
            Some(_) => None,
            None => Some(self.action.as_ref()?.as_str()),
        }
    }

    /// Whether no action is planned for the output.
    fn is_unplanned(&self) -> bool
        ensures { result ≡ is_unplanned (output_view self.now) }
    {
        self.planned_action().is_none()
    }

    /// Returns the value as it is told.
    fn shown_value(&self) -> &str
        ensures { result.now ≡ shown_value (output_view self.now) }
    {
        if self.is_sensitive {
            return "(sensitive)";
        }
        match &self.value {
            Some(value) => value.as_str(),
            None => "(no value)",
        }
    }
}

/// Whether the message has an object of outputs.
fn has_outputs(tree: &Value) -> bool
    ensures { result ≡ has_outputs (view tree.now) }
{
    match member(tree, "outputs") {
        Some(outputs) => outputs.is_object(),
        None => false,
    }
}

/// Returns what is told of a planned output.
fn planned_text(alloc: Global, action: &str, output: &Output) -> MessageText
    ensures { HasText result (planned_words action.now (output_view output.now)) }
{
    let mut text = MessageText::new(alloc);
    text.text("plan to ");
    text.escaped(action.as_bytes());
    text.text(" output ");
    text.escaped(output.name.as_str().as_bytes());
    if output.is_sensitive {
        text.text(" (sensitive)");
    }
    text
}

/// Returns a number of outputs.
fn count_text(alloc: Global, count: u64) -> MessageText
    ensures { HasText result (number_words count (codes "output")) }
{
    let mut text = MessageText::new(alloc);
    text.things(count, "output");
    text
}

/// Returns how many outputs are not planned.
fn count_unplanned(outputs: &[Output]) -> usize
    ensures { result ≡ count_by is_unplanned (map output_view outputs.now) }
{
    let mut count = 0;
    for output in outputs {
        if output.is_unplanned() {
            count += 1;
        }
    }
    count
}

/// Returns what is told of an output with its value.
fn value_text(alloc: Global, output: &Output) -> MessageText
    ensures { HasText result (value_words (output_view output.now)) }
{
    let raw = raw_text(alloc, output);
    let mut text = MessageText::new(alloc);
    text.escaped_within(MAX_OUTPUT, raw.as_bytes());
    if !raw.is_whole() {
        text.lose();
    }
    text
}

/// Returns name and value of an output.
fn raw_text(alloc: Global, output: &Output) -> MessageText
    ensures { HasText result (raw_words (output_view output.now)) }
{
    let mut raw = MessageText::new(alloc);
    raw.text(output.name.as_str());
    raw.text(" = ");
    raw.text(output.shown_value());
    raw
}
