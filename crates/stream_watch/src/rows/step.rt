//! Tells steps: their begins and their ends.

ghost use Rattle.std.specs.Prelude.{◌≡◌, IfOk, OnOk, is_some, option_map, unwrap_or};
ghost use Rattle.serde_json.specs.View.{view};
ghost use Rattle.term_words.specs.MessageTexts.{AppendsText};
ghost use Rattle.stream_watch.specs.Hooks.{hook_of, hook_view, kind_of};
ghost use Rattle.stream_watch.specs.Noted.{with_noted};
ghost use Rattle.stream_watch.specs.State.{Tells, looks_of, nothing, state_of};
ghost use Rattle.stream_watch.specs.StepRows.{began_told, done_told, done_words, failed_told, failed_words, id_words, kept_id_words, named_view, share_words, stated_length, step_length, step_of, step_told, told_before, without_step};
ghost use Rattle.stream_watch.specs.Steps.{is_step};

use crate::clock::gap;
use crate::counts::{Counts, is_change};
use crate::mark::Mark;
use crate::rows::diagnostic::text_or_nothing;
use crate::watcher::Watcher;
use crate::words::{length_since, push_length, push_step};
use apply_json_tree::members::{member, non_empty_text_member, text_member};
use serde_json::Value;
use std::alloc::AllocError;
use stream_message::Stage;
use term_words::MessageText;

/// What the messages of an object name.
#[derive(Clone, Copy)]
pub struct HookMessage<'a> {
    /// `hook`.
    pub hook: &'a Value,
    /// The address of its resource.
    pub address: &'a str,
}

/// What the messages of a step name.
#[derive(Clone, Copy)]
pub struct StepMessage<'a> {
    /// `hook`.
    pub hook: &'a Value,
    pub action: &'a str,
    /// The address of its resource.
    pub address: &'a str,
}

/// Returns what the message names. `None` where it lacks `hook` or the address.
pub fn hook_in<'a>(tree: &'a Value) -> Option<HookMessage<'a>>
    ensures { option_map hook_view result ≡ hook_of (view tree.now) }
{
    let hook = member(tree, "hook")?;
    let resource = member(hook, "resource")?;
    let address = non_empty_text_member(resource, "addr")?;
    Some(HookMessage { hook, address })
}

/// Returns what the message names. `None` where it lacks the action or the address.
fn step_in<'a>(tree: &'a Value) -> Option<StepMessage<'a>>
    ensures { option_map named_view result ≡ step_of (view tree.now) }
{
    let HookMessage { hook, address } = hook_in(tree)?;
    let action = text_member(hook, "action")?;
    Some(StepMessage {
        hook,
        action,
        address,
    })
}

impl Watcher {
    /// Tells of a step. `false` where the message lacks the action or the address. `Err` where
    /// memory is refused.
    pub fn step(&mut self, stage: Stage, tree: &Value, moment: i64) -> Result<bool, AllocError>
        ensures is { IfOk result (λ is. is ≡ is_some (step_told (looks_of self.old) (state_of self.old) stage (view tree.now) moment)) }
        ensures told { OnOk result (Tells self.old self.new
            (unwrap_or (step_told (looks_of self.old) (state_of self.old) stage (view tree.now) moment) (nothing (state_of self.old)))) }
    {
        let Some(message) = step_in(tree) else {
            return Ok(false);
        };
        match stage {
            Stage::Start => self.step_began(message, moment)?,
            Stage::Progress => {}
            Stage::Complete => {
                self.note_length(message.address, message.action, false, moment)?;
                self.step_ended(message, moment);
            }
            Stage::Errored => self.step_failed(message, moment),
        }
        Ok(true)
    }

    /// Tells that a step began. `Err` where memory is refused.
    fn step_began(&mut self, message: StepMessage<'_>, moment: i64) -> Result<(), AllocError>
        ensures { OnOk result (Tells self.old self.new (began_told (looks_of self.old) (state_of self.old) (named_view message.entry) moment)) }
    {
        self.report_before(message.action);
        self.counts = self.counts.with_begun(message.action);
        self.steps.begin(
            self.alloc,
            message.address,
            message.action,
            kind_of(message.hook),
            false,
            moment,
        )?;
        let mut text = MessageText::new(self.alloc);
        push_step(&mut text, message.action, message.address);
        self.line(Mark::Begin, &text);
        Ok(())
    }

    /// Tells of refreshes before a step of this action, if it is a create, an update or a delete.
    fn report_before(&mut self, action: &str)
        ensures { Tells self.old self.new (told_before (looks_of self.old) (state_of self.old) action.now) }
    {
        if is_change(action) {
            self.report_refreshes();
        }
    }

    /// Keeps how long the open step with this address and action took, where there is one. `Err`
    /// where memory is refused.
    pub fn note_length(
        &mut self,
        address: &str,
        action: &str,
        is_refresh: bool,
        moment: i64,
    ) -> Result<(), AllocError>
        ensures { OnOk result (Tells self.old self.new (nothing (with_noted (is_step address.now action.now is_refresh) moment (state_of self.old)))) }
    {
        if let Some(step) = self.steps.open(address, action, is_refresh) {
            let took = gap(step.begin, moment);
            self.lengths
                .add(self.alloc, step.action.as_str(), step.kind.as_str(), took)?;
        }
        Ok(())
    }

    /// Tells that a step ended well.
    fn step_ended(&mut self, message: StepMessage<'_>, moment: i64)
        ensures { Tells self.old self.new (done_told (looks_of self.old) (state_of self.old) (named_view message.entry) moment) }
    {
        let length = self.step_length(message, moment);
        self.counts = self.counts.with_done(message.action);
        let mut text = MessageText::new(self.alloc);
        push_done(&mut text, self.counts, message, length);
        self.line(Mark::Done, &text);
    }

    /// Tells that a step failed.
    fn step_failed(&mut self, message: StepMessage<'_>, moment: i64)
        ensures { Tells self.old self.new (failed_told (looks_of self.old) (state_of self.old) (named_view message.entry) moment) }
    {
        let length = self.step_length(message, moment);
        self.counts = self.counts.with_failed(message.action);
        let mut text = MessageText::new(self.alloc);
        push_failed(&mut text, message, length);
        self.line(Mark::Failed, &text);
    }

    /// Ends the step. Returns how long it took, in microseconds: by moments, or as the message says
    /// where the step is not open. `None` where that is unknown too.
    fn step_length(&mut self, message: StepMessage<'_>, moment: i64) -> Option<u128>
        ensures length { result ≡ step_length (state_of self.old).steps (named_view message.entry) moment }
        ensures told { Tells self.old self.new (nothing (without_step (named_view message.entry) (state_of self.old))) }
    {
        let begin = self.steps.end(message.address, message.action, false);
        match length_since(begin, moment) {
            Some(length) => Some(length),
            None => stated_length(message.hook),
        }
    }
}

/// Returns the type of the resource. It is empty where the message has none.
pub fn kind_of<'a>(hook: &'a Value) -> &'a str
    ensures { result.now ≡ kind_of (view hook.now) }
{
    match member(hook, "resource") {
        Some(resource) => text_or_nothing(resource, "resource_type"),
        None => "",
    }
}

/// Returns how long a step took as the message says, in microseconds. `None` where it says nothing.
fn stated_length(hook: &Value) -> Option<u128>
    ensures { result ≡ stated_length (view hook.now) }
{
    let seconds = member(hook, "elapsed_seconds")?.as_u64()?;
    Some(u128::from(seconds) * 1_000_000)
}

/// Adds that a step ended well.
fn push_done(text: &mut MessageText, counts: Counts, message: StepMessage<'_>, length: Option<u128>)
    ensures { AppendsText text.old text.new (done_words counts (named_view message.entry) length) }
{
    push_step(text, message.action, message.address);
    push_length(text, " in ", length);
    push_share(text, counts, message.action);
    push_kept_id(text, message);
}

/// Adds that a step failed.
fn push_failed(text: &mut MessageText, message: StepMessage<'_>, length: Option<u128>)
    ensures { AppendsText text.old text.new (failed_words (named_view message.entry) length) }
{
    push_step(text, message.action, message.address);
    text.text(" failed");
    push_length(text, " after ", length);
}

/// Adds which one of the planned changes is done, if the action is one.
fn push_share(text: &mut MessageText, counts: Counts, action: &str)
    ensures { AppendsText text.old text.new (share_words counts action.now) }
{
    if is_change(action) && counts.planned > 0 {
        text.text(" (");
        text.count(counts.done);
        text.text(" of ");
        text.count(counts.planned);
        text.text(")");
    }
}

/// Adds the id of the object, unless it was deleted.
fn push_kept_id(text: &mut MessageText, message: StepMessage<'_>)
    ensures { AppendsText text.old text.new (kept_id_words (named_view message.entry)) }
{
    if message.action != "delete" {
        push_id(text, message.hook);
    }
}

/// Adds the id of the object, where the message has one.
fn push_id(text: &mut MessageText, hook: &Value)
    ensures { AppendsText text.old text.new (id_words (view hook.now)) }
{
    if let Some(id) = text_member(hook, "id_value") {
        let key = non_empty_text_member(hook, "id_key").unwrap_or("id");
        text.text(" [");
        text.escaped(key.as_bytes());
        text.text("=");
        text.escaped(id.as_bytes());
        text.text("]");
    }
}
