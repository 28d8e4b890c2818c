//! Tells planned changes, and changes outside of Terraform.

ghost use Rattle.std.specs.Prelude.{◌≡◌, codes, IfOk, is_some, option_map, unwrap_or};
ghost use Rattle.serde_json.specs.View.{view};
ghost use Rattle.apply_json.specs.Tree.{text_of};
ghost use Rattle.term_text.specs.Shown.{shown_text};
ghost use Rattle.term_words.specs.MessageTexts.{AppendsText, HasText};
ghost use Rattle.stream_watch.specs.Changes.{behind_because, change_of, change_view, drift_told, drift_words, import_words, imported_note, in_parentheses, moved_note, notes_of, object_words, planned_told, planned_words, reason_note, spaced, with_note};
ghost use Rattle.stream_watch.specs.State.{Tells, looks_of, nothing, state_of};

use crate::mark::Mark;
use crate::watcher::Watcher;
use crate::words::push_comma;
use apply_json_tree::members::{member, non_empty_text_member, text_member};
use memchr::memmem;
use serde_json::Value;
use std::alloc::{AllocError, Global};
use term_words::MessageText;

/// What a `planned_change` or a `resource_drift` names.
#[derive(Clone, Copy)]
pub struct Change<'a> {
    /// `change`.
    pub object: &'a Value,
    pub action: &'a str,
    pub address: &'a str,
}

/// The reason follows this word.
const BECAUSE: &[u8; 8] = b"because_";

/// Returns what the message names. `None` where it lacks the action or the address.
#[tactic(auto, unfolding(crate::specs::Changes::change_of))]
fn change_in<'a>(tree: &'a Value) -> Option<Change<'a>>
    ensures { option_map change_view result ≡ change_of (view tree.now) }
{
    let object = member(tree, "change")?;
    let action = text_member(object, "action")?;
    let resource = member(object, "resource")?;
    Some(Change {
        object,
        action,
        address: non_empty_text_member(resource, "addr")?,
    })
}

impl Watcher {
    /// Tells a planned change. `false` where the message lacks the action or the address: nothing
    /// changes then.
    pub fn planned(&mut self, tree: &Value) -> bool
        ensures is { result ≡ is_some (planned_told (looks_of self.old) (view tree.now) (state_of self.old)) }
        ensures told { Tells self.old self.new (unwrap_or (planned_told (looks_of self.old) (view tree.now) (state_of self.old)) (nothing (state_of self.old))) }
    {
        let Some(change) = change_in(tree) else {
            return false;
        };
        let mut text = MessageText::new(self.alloc);
        push_planned(&mut text, change);
        self.counts = self.counts.with_planned(change.action);
        self.line_after_refreshes(Mark::planned(change.action), &text);
        true
    }

    /// Tells a change outside of Terraform. `false` where the message lacks the action or the
    /// address: nothing changes then.
    pub fn drift(&mut self, tree: &Value) -> bool
        ensures is { result ≡ is_some (drift_told (looks_of self.old) (view tree.now) (state_of self.old)) }
        ensures told { Tells self.old self.new (unwrap_or (drift_told (looks_of self.old) (view tree.now) (state_of self.old)) (nothing (state_of self.old))) }
    {
        let Some(change) = change_in(tree) else {
            return false;
        };
        let mut text = MessageText::new(self.alloc);
        push_drift(&mut text, change);
        self.line_after_refreshes(Mark::Drift, &text);
        true
    }
}

/// Adds that the change is planned.
#[tactic(auto, unfolding(crate::specs::Changes::planned_words))]
fn push_planned(text: &mut MessageText, change: Change<'_>)
    ensures { AppendsText text.old text.new (planned_words (change_view change.entry)) }
{
    text.text("plan to ");
    text.escaped(change.action.as_bytes());
    text.text(" ");
    push_object(text, change);
}

/// Adds that the object was changed outside of Terraform.
#[tactic(auto, unfolding(crate::specs::Changes::drift_words))]
fn push_drift(text: &mut MessageText, change: Change<'_>)
    ensures { AppendsText text.old text.new (drift_words (change_view change.entry)) }
{
    text.text("changed outside of Terraform (");
    text.escaped(change.action.as_bytes());
    text.text("): ");
    push_object(text, change);
}

/// Adds the address and, in parentheses, what else is known of the change.
#[tactic(auto, unfolding(crate::specs::Changes::object_words))]
fn push_object(text: &mut MessageText, change: Change<'_>)
    ensures { AppendsText text.old text.new (object_words (change_view change.entry)) }
{
    text.escaped(change.address.as_bytes());
    push_in_parentheses(text, &notes_of(text.alloc(), change));
}

/// Adds notes in parentheses, unless there are none. If the notes lost something, so does the text.
fn push_in_parentheses(text: &mut MessageText, notes: &MessageText)
    ensures { (words : _) → HasText notes.now words → AppendsText text.old text.new (in_parentheses words) }
{
    if !notes.is_whole() {
        text.lose();
    } else if !notes.as_bytes().is_empty() {
        text.text(" (");
        text.add(notes);
        text.text(")");
    }
}

/// Returns what else is known of the change.
#[tactic(auto, unfolding(crate::specs::Changes::notes_of))]
fn notes_of(alloc: Global, change: Change<'_>) -> MessageText
    ensures { HasText result (notes_of (change_view change.entry)) }
{
    let mut notes = MessageText::new(alloc);
    push_moved(&mut notes, change);
    push_imported(&mut notes, change);
    push_reason(&mut notes, change);
    notes
}

/// Adds where the object was before, if it was elsewhere.
#[tactic(auto, unfolding(crate::specs::Changes::moved_note))]
fn push_moved(notes: &mut MessageText, change: Change<'_>)
    ensures { (before : _) → HasText notes.old before → HasText notes.new (with_note (moved_note (change_view change.entry)) before) }
{
    let Some(resource) = member(change.object, "previous_resource") else {
        return;
    };
    if let Some(old) = non_empty_text_member(resource, "addr") {
        if old != change.address {
            push_comma(notes);
            notes.text("moved from ");
            notes.escaped(old.as_bytes());
        }
    }
}

/// Adds that the object is imported, with its id if there is one.
#[tactic(auto, unfolding(crate::specs::Changes::imported_note))]
fn push_imported(notes: &mut MessageText, change: Change<'_>)
    ensures { (before : _) → HasText notes.old before → HasText notes.new (with_note (imported_note (change_view change.entry)) before) }
{
    let Some(importing) = member(change.object, "importing") else {
        return;
    };
    if importing.is_object() {
        push_comma(notes);
        push_import(notes, importing);
    }
}

/// Adds that an object is imported, with its id if there is one.
fn push_import(notes: &mut MessageText, importing: &Value)
    ensures { AppendsText notes.old notes.new (import_words (text_of (codes "id") (view importing.now))) }
{
    notes.text("imported");
    if let Some(id) = text_member(importing, "id") {
        notes.text(" [id=");
        notes.escaped(id.as_bytes());
        notes.text("]");
    }
}

/// Adds the reason for the change, unless it is empty.
#[tactic(auto, unfolding(crate::specs::Changes::reason_note))]
fn push_reason(notes: &mut MessageText, change: Change<'_>)
    ensures { (before : _) → HasText notes.old before → HasText notes.new (with_note (reason_note (change_view change.entry)) before) }
{
    if let Some(reason) = text_member(change.object, "reason") {
        let words = behind_because(reason.as_bytes());
        if !words.is_empty() {
            push_comma(notes);
            push_spaced(notes, words);
        }
    }
}

/// Returns what follows the first `because_`, or all.
#[tactic(auto, unfolding(crate::specs::Changes::behind_because))]
fn behind_because(reason: &[u8]) -> &[u8]
    ensures { result.now ≡ behind_because reason.now }
{
    match memmem::find(reason, BECAUSE) {
        Some(place) => reason.split_at(place + BECAUSE.len()).1,
        None => reason,
    }
}

/// Adds a text with a blank in place of each `_`.
fn push_spaced(notes: &mut MessageText, words: &[u8])
    ensures { AppendsText notes.old notes.new (shown_text (spaced words.now)) }
{
    match spaced(notes.alloc(), words) {
        Ok(words) => notes.escaped(&words),
        Err(_) => notes.lose(),
    }
}

/// Returns a text with a blank in place of each `_`. `Err` where memory is refused.
fn spaced(alloc: Global, text: &[u8]) -> Result<Vec<u8>, AllocError>
    ensures { IfOk result (λ words. words.items ≡ spaced text.now) }
{
    text.iter()
        .map(|byte| if *byte == b'_' { b' ' } else { *byte })
        .collect(alloc)
}
