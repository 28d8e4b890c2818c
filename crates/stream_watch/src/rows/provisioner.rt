//! Tells what provisioners do.

ghost use Rattle.std.specs.Prelude.{◌≡◌, IfOk, OnOk, codes, is_some, map, option_map, string_bytes, unwrap_or};
ghost use Rattle.serde_json.specs.View.{view};
ghost use Rattle.apply_json.specs.Tree.{text_of};
ghost use Rattle.term_words.specs.MessageTexts.{AppendsText};
ghost use Rattle.stream_watch.specs.ProvisionerRows.{broken_told, broken_words, lines_told, output_told, output_words, provision_told, provisioner_name, provisioner_at_words, running_told};
ghost use Rattle.stream_watch.specs.State.{Tells, line_told, looks_of, nothing, state_of};

use crate::mark::Mark;
use crate::rows::step::hook_in;
use crate::watcher::Watcher;
use crate::words::{length_since, push_length};
use apply_json_tree::members::{non_empty_text_member, text_member};
use serde_json::Value;
use std::alloc::AllocError;
use stream_message::Stage;
use term_text::text_lines;
use term_words::MessageText;

impl Watcher {
    /// Tells of a provisioner. `false` where the message lacks the address, or its output. `Err`
    /// where memory is refused.
    pub fn provision(&mut self, stage: Stage, tree: &Value, moment: i64) -> Result<bool, AllocError>
        ensures is { IfOk result (λ is. is ≡ is_some (provision_told (looks_of self.old) (state_of self.old) stage (view tree.now) moment)) }
        ensures told { OnOk result (Tells self.old self.new
            (unwrap_or (provision_told (looks_of self.old) (state_of self.old) stage (view tree.now) moment) (nothing (state_of self.old)))) }
    {
        let Some(message) = hook_in(tree) else {
            return Ok(false);
        };
        let name = provisioner_name(message.hook);
        match stage {
            Stage::Start => self.provisioner_began(name, message.address, moment)?,
            Stage::Progress => return self.provisioner_wrote(name, message.address, message.hook),
            Stage::Complete => {
                let _ = self.steps.stop(message.address);
            }
            Stage::Errored => self.provisioner_failed(name, message.address, moment),
        }
        Ok(true)
    }

    /// Tells that a provisioner began. `Err` where memory is refused.
    fn provisioner_began(
        &mut self,
        name: &str,
        address: &str,
        moment: i64,
    ) -> Result<(), AllocError>
        ensures { OnOk result (Tells self.old self.new (running_told (looks_of self.old) (state_of self.old) name.now address.now moment)) }
    {
        self.steps.run(self.alloc, address, name, moment)?;
        let mut text = MessageText::new(self.alloc);
        push_provisioner(&mut text, name, address);
        self.line(Mark::Begin, &text);
        Ok(())
    }

    /// Tells each line of what a provisioner put out. `false` where there is no text. `Err` where
    /// memory is refused.
    fn provisioner_wrote(
        &mut self,
        name: &str,
        address: &str,
        hook: &Value,
    ) -> Result<bool, AllocError>
        ensures is { IfOk result (λ is. is ≡ is_some (text_of (codes "output") (view hook.now))) }
        ensures told { OnOk result (Tells self.old self.new
            (unwrap_or (option_map (output_told (looks_of self.old) (state_of self.old) name.now address.now) (text_of (codes "output") (view hook.now)))
            (nothing (state_of self.old)))) }
    {
        let Some(output) = text_member(hook, "output") else {
            return Ok(false);
        };
        let lines = text_lines(self.alloc, output.as_bytes())?;
        if lines.is_empty() {
            self.output_line(name, address, "");
        } else {
            self.output_lines(name, address, &lines);
        }
        Ok(true)
    }

    /// Tells lines of what a provisioner put out.
    fn output_lines(&mut self, name: &str, address: &str, lines: &[String])
        ensures { Tells self.old self.new (lines_told (looks_of self.old) (state_of self.old) name.now address.now (map string_bytes lines.now)) }
    {
        for line in lines {
            self.output_line(name, address, line.as_str());
        }
    }

    /// Tells a line of what a provisioner put out.
    fn output_line(&mut self, name: &str, address: &str, line: &str)
        ensures { Tells self.old self.new
            (line_told (looks_of self.old) (state_of self.old) Mark.Output (output_words name.now address.now line.now)) }
    {
        let mut text = MessageText::new(self.alloc);
        push_output(&mut text, name, address, line);
        self.line(Mark::Output, &text);
    }

    /// Tells that a provisioner failed.
    fn provisioner_failed(&mut self, name: &str, address: &str, moment: i64)
        ensures { Tells self.old self.new (broken_told (looks_of self.old) (state_of self.old) name.now address.now moment) }
    {
        let length = length_since(self.steps.stop(address), moment);
        let mut text = MessageText::new(self.alloc);
        push_failed(&mut text, name, address, length);
        self.line(Mark::Failed, &text);
    }
}

/// Returns the name of the provisioner of which a message tells.
fn provisioner_name(hook: &Value) -> &str
    ensures { result.now ≡ provisioner_name (view hook.now) }
{
    non_empty_text_member(hook, "provisioner").unwrap_or("provisioner")
}

/// Adds the name of a provisioner and its address.
fn push_provisioner(text: &mut MessageText, name: &str, address: &str)
    ensures { AppendsText text.old text.new (provisioner_at_words name.now address.now) }
{
    text.escaped(name.as_bytes());
    text.text(" of ");
    text.escaped(address.as_bytes());
}

/// Adds a line of what a provisioner put out, which needs no escape.
fn push_output(text: &mut MessageText, name: &str, address: &str, line: &str)
    ensures { AppendsText text.old text.new (output_words name.now address.now line.now) }
{
    text.escaped(address.as_bytes());
    text.text(" (");
    text.escaped(name.as_bytes());
    text.text("): ");
    text.text(line);
}

/// Adds that a provisioner failed.
fn push_failed(text: &mut MessageText, name: &str, address: &str, length: Option<u128>)
    ensures { AppendsText text.old text.new (broken_words name.now address.now length) }
{
    push_provisioner(text, name, address);
    text.text(" failed");
    push_length(text, " after ", length);
}
