//! Tells a line of the stream.

ghost use Rattle.std.specs.Prelude.{◌≡◌, IfOk, OnOk, is_some, map, option_map, string_bytes, unwrap_or};
ghost use Rattle.serde_json.specs.View.{view};
ghost use Rattle.term_words.specs.MessageTexts.{AppendsText, HasText};
ghost use Rattle.stream_watch.specs.State.{Tells, looks_of, nothing, state_of};
ghost use Rattle.stream_watch.specs.Telling.{at_moment, kind_told, lines_or_line_told, message_told, moment_of, other_told, passed_text_told, passed_told, progress_told, row_or_text_told, row_told, text_lines_told, text_told, told_at, too_long_told, too_long_words, under_way_told_if, unknown_told, version_told, version_words};

use crate::mark::Mark;
use crate::message::progress::read_progress;
use crate::message::reading::read_message;
use crate::rows::diagnostic::{text_of, text_or_nothing};
use crate::watcher::Watcher;
use apply_json_tree::members::text_member;
use serde_json::Value;
use std::alloc::AllocError;
use stream_message::{Kind, instant_of};
use term_text::{line_text, text_lines};
use term_words::MessageText;

/// How many bytes a line of another program has at most.
const MAX_PASSED: usize = 1024;

impl Watcher {
    /// Tells a line: its message, or the line where it has none. `Err` where memory is refused.
    pub fn text(&mut self, line: &[u8]) -> Result<(), AllocError>
        ensures { OnOk result (Tells self.old self.new (text_told (looks_of self.old) (state_of self.old) self.old.find line.now)) }
    {
        match read_progress(self.alloc, &mut self.scratch, self.find, line)? {
            Some(message) => {
                self.progress(message.moment);
                Ok(())
            }
            None => self.message_or_line(line),
        }
    }

    /// Tells progress of a step: the time goes on, and a mark may have passed.
    fn progress(&mut self, moment: Option<i64>)
        ensures { Tells self.old self.new (progress_told (looks_of self.old) moment (state_of self.old)) }
    {
        self.clock = self.clock.after(moment);
        self.under_way_if(moment.is_some());
    }

    /// Tells the message of a line, or the line where it has none. `Err` where memory is refused.
    fn message_or_line(&mut self, line: &[u8]) -> Result<(), AllocError>
        ensures { OnOk result (Tells self.old self.new (text_told (looks_of self.old) (state_of self.old) self.old.find line.now)) }
    {
        match read_message(self.alloc, &mut self.scratch, self.find, line)? {
            Some(tree) => self.message(&tree, line),
            None => self.passed(line),
        }
    }

    /// Tells a message, and what is under way where a mark has passed. `line` is the line that has
    /// the message. `Err` where memory is refused.
    fn message(&mut self, tree: &Value, line: &[u8]) -> Result<(), AllocError>
        ensures { OnOk result (Tells self.old self.new (message_told (looks_of self.old) (state_of self.old) self.old.find line.now (view tree.now))) }
    {
        let moment = moment_of(tree);
        self.message_at(moment, tree, line)?;
        self.under_way_if(moment.is_some());
        Ok(())
    }

    /// Tells a message with this moment, or with none. `Err` where memory is refused.
    fn message_at(
        &mut self,
        moment: Option<i64>,
        tree: &Value,
        line: &[u8],
    ) -> Result<(), AllocError>
        ensures { OnOk result (Tells self.old self.new
            (told_at (looks_of self.old) (at_moment moment (state_of self.old)) self.old.find line.now (view tree.now) moment)) }
    {
        self.clock = self.clock.after(moment);
        self.row_or_text(tree, moment.unwrap_or(self.clock.now), line)
    }

    /// Tells what is under way, where the message has a moment.
    fn under_way_if(&mut self, has_moment: bool)
        ensures { Tells self.old self.new (under_way_told_if has_moment (looks_of self.old) (state_of self.old)) }
    {
        if has_moment {
            self.under_way();
        }
    }

    /// Tells a message by the row of its type, or else by its text. `Err` where memory is refused.
    fn row_or_text(&mut self, tree: &Value, moment: i64, line: &[u8]) -> Result<(), AllocError>
        ensures { OnOk result (Tells self.old self.new
            (row_or_text_told (looks_of self.old) (state_of self.old) self.old.find line.now (view tree.now) moment)) }
    {
        let is_told = self.row(tree, moment, line)?;
        if is_told {
            Ok(())
        } else {
            self.other(tree, line)
        }
    }

    /// Tells the message by the row of its type. `false` where the type has none, or where the
    /// message lacks a member that its row names: nothing changes then. `Err` where memory is
    /// refused.
    fn row(&mut self, tree: &Value, moment: i64, line: &[u8]) -> Result<bool, AllocError>
        ensures is { IfOk result (λ is. is
            ≡ is_some (row_told (looks_of self.old) (state_of self.old) self.old.find line.now (view tree.now) moment)) }
        ensures told { OnOk result (Tells self.old self.new
            (unwrap_or (row_told (looks_of self.old) (state_of self.old) self.old.find line.now (view tree.now) moment) (nothing (state_of self.old)))) }
    {
        match text_member(tree, "type") {
            Some(name) => self.row_of(Kind::named(name), name, tree, moment, line),
            None => Ok(false),
        }
    }

    /// Tells the message by the row of its kind. `false` where the kind has none, or where the
    /// message lacks a member that its row names: nothing changes then. `Err` where memory is
    /// refused.
    fn row_of(
        &mut self,
        kind: Kind,
        name: &str,
        tree: &Value,
        moment: i64,
        line: &[u8],
    ) -> Result<bool, AllocError>
        ensures is { IfOk result (λ is. is
            ≡ is_some (kind_told (looks_of self.old) (state_of self.old) self.old.find line.now name.now (view tree.now) moment kind)) }
        ensures told { OnOk result (Tells self.old self.new
            (unwrap_or (kind_told (looks_of self.old) (state_of self.old) self.old.find line.now name.now (view tree.now) moment kind)
            (nothing (state_of self.old)))) }
    {
        match kind {
            Kind::Version => Ok(self.version(tree)),
            Kind::Planned => Ok(self.planned(tree)),
            Kind::Apply(stage) => self.step(stage, tree, moment),
            Kind::Ephemeral(stage) => self.step(stage, tree, moment),
            Kind::Refresh(stage) => self.refresh(stage, tree, moment),
            Kind::Provision(stage) => self.provision(stage, tree, moment),
            Kind::Diagnostic => self.diagnostic(tree),
            Kind::Summary => Ok(self.summary(tree)),
            Kind::Outputs => self.outputs(tree, line),
            Kind::Other => Ok(self.unknown(name, tree)),
        }
    }

    /// Tells a change outside of Terraform, if that is the name of the type. `false` where it is
    /// not, or where the message lacks what its row names: nothing changes then.
    fn unknown(&mut self, name: &str, tree: &Value) -> bool
        ensures is { result ≡ is_some (unknown_told name.now (looks_of self.old) (view tree.now) (state_of self.old)) }
        ensures told { Tells self.old self.new
            (unwrap_or (unknown_told name.now (looks_of self.old) (view tree.now) (state_of self.old)) (nothing (state_of self.old))) }
    {
        if name == "resource_drift" {
            self.drift(tree)
        } else {
            false
        }
    }

    /// Tells the version. `false` where the message has none: nothing changes then.
    fn version(&mut self, tree: &Value) -> bool
        ensures is { result ≡ is_some (version_told (looks_of self.old) (view tree.now) (state_of self.old)) }
        ensures told { Tells self.old self.new (unwrap_or (version_told (looks_of self.old) (view tree.now) (state_of self.old)) (nothing (state_of self.old))) }
    {
        match text_member(tree, "terraform") {
            Some(version) => {
                let mut text = MessageText::new(self.alloc);
                push_version(&mut text, version);
                self.line_after_refreshes(Mark::Sum, &text);
                true
            }
            None => false,
        }
    }

    /// Tells a message of another type by its text. The line is passed over where it has none. `Err`
    /// where memory is refused.
    fn other(&mut self, tree: &Value, line: &[u8]) -> Result<(), AllocError>
        ensures { OnOk result (Tells self.old self.new (other_told (looks_of self.old) line.now (view tree.now) (state_of self.old))) }
    {
        let lines = text_lines(self.alloc, text_or_nothing(tree, "@message").as_bytes())?;
        self.lines_or_line(lines.as_slice(), line)
    }

    /// Tells the lines of a text. The line is passed over where there are none. `Err` where memory
    /// is refused.
    fn lines_or_line(&mut self, lines: &[String], line: &[u8]) -> Result<(), AllocError>
        ensures { OnOk result (Tells self.old self.new (lines_or_line_told (looks_of self.old) line.now (map string_bytes lines.now) (state_of self.old))) }
    {
        match lines.split_first() {
            Some((first, rest)) => {
                self.text_of_lines(first.as_str(), rest);
                Ok(())
            }
            None => self.passed(line),
        }
    }

    /// Tells a text of these lines.
    fn text_of_lines(&mut self, first: &str, rest: &[String])
        ensures { Tells self.old self.new (text_lines_told (looks_of self.old) first.now (map string_bytes rest.now) (state_of self.old)) }
    {
        let text = text_of(self.alloc, first);
        self.line(Mark::Other, &text);
        self.further_lines(Mark::Other, rest);
    }

    /// Tells a line that is no message, unless it is blank. `Err` where memory is refused.
    fn passed(&mut self, line: &[u8]) -> Result<(), AllocError>
        ensures { OnOk result (Tells self.old self.new (passed_told (looks_of self.old) line.now (state_of self.old))) }
    {
        let text = line_text(self.alloc, line)?;
        self.passed_text(text.as_str());
        Ok(())
    }

    /// Tells the text of a line that is no message, unless it is empty.
    fn passed_text(&mut self, text: &str)
        ensures { Tells self.old self.new (passed_text_told (looks_of self.old) text.now (state_of self.old)) }
    {
        if !text.is_empty() {
            let mut cut = MessageText::new(self.alloc);
            cut.escaped_within(MAX_PASSED, text.as_bytes());
            self.line(Mark::Passed, &cut);
        }
    }

    /// Tells that the line of this number is too long.
    pub fn too_long(&mut self, number: u64)
        ensures { Tells self.old self.new (too_long_told (looks_of self.old) number (state_of self.old)) }
    {
        let mut text = MessageText::new(self.alloc);
        push_too_long(&mut text, number);
        self.line(Mark::Passed, &text);
    }
}

/// Adds the version of Terraform.
fn push_version(text: &mut MessageText, version: &str)
    ensures { AppendsText text.old text.new (version_words version.now) }
{
    text.text("Terraform ");
    text.escaped(version.as_bytes());
}

/// Adds that the line of this number is too long.
fn push_too_long(text: &mut MessageText, number: u64)
    ensures { AppendsText text.old text.new (too_long_words number) }
{
    text.text("line ");
    text.number(number);
    text.text(" is longer than 67108864 bytes");
}

/// Returns the moment of a message, in microseconds since the start of 1970, where it has one.
fn moment_of(tree: &Value) -> Option<i64>
    ensures { result ≡ moment_of (view tree.now) }
{
    instant_of(text_member(tree, "@timestamp")?)
}
