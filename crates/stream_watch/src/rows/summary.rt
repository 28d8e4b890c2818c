//! Tells the sums of a plan or an apply.

ghost use Rattle.std.specs.Prelude.{◌≡◌, ◌++◌, is_some, unwrap_or};
ghost use Rattle.serde_json.specs.View.{view};
ghost use Rattle.term_words.specs.MessageTexts.{AppendsText};
ghost use Rattle.stream_watch.specs.State.{Tells, looks_of, nothing, state_of};
ghost use Rattle.stream_watch.specs.SummaryRow.{changes_in, done_words, imports_in, plan_words, sum_in, summary_told, sums_words};
ghost use Rattle.stream_watch.specs.Words.{whole_of};

use crate::mark::Mark;
use crate::watcher::Watcher;
use apply_json_tree::members::{member, text_member};
use serde_json::Value;
use term_words::MessageText;

impl Watcher {
    /// Tells the sums. `false` where the message names no operation: nothing changes then.
    #[tactic(auto, unfolding(crate::specs::SummaryRow::summary_words))]
    pub fn summary(&mut self, tree: &Value) -> bool
        ensures is { result ≡ is_some (summary_told (looks_of self.old) (view tree.now) (state_of self.old)) }
        ensures told { Tells self.old self.new (unwrap_or (summary_told (looks_of self.old) (view tree.now) (state_of self.old)) (nothing (state_of self.old))) }
    {
        let Some(changes) = member(tree, "changes") else {
            return false;
        };
        let Some(operation) = text_member(changes, "operation") else {
            return false;
        };
        let mut text = MessageText::new(self.alloc);
        push_sums(&mut text, operation, changes);
        self.line_after_refreshes(Mark::Sum, &text);
        true
    }
}

/// Adds the sums of an operation.
fn push_sums(text: &mut MessageText, operation: &str, changes: &Value)
    ensures { AppendsText text.old text.new (sums_words operation.now (view changes.now)) }
{
    if operation == "plan" {
        push_plan(text, changes);
    } else {
        push_done(text, operation, changes);
    }
}

/// Adds the sums of a plan.
#[tactic(auto, unfolding(crate::specs::SummaryRow::plan_words))]
fn push_plan(text: &mut MessageText, changes: &Value)
    ensures { AppendsText text.old text.new (plan_words (view changes.now)) }
{
    text.text("plan: ");
    push_changes(
        text,
        changes,
        " to add, ",
        " to change, ",
        " to destroy",
        " to import",
    );
}

/// Adds the sums of another operation.
#[tactic(auto, unfolding(crate::specs::SummaryRow::done_words))]
fn push_done(text: &mut MessageText, operation: &str, changes: &Value)
    ensures { AppendsText text.old text.new (done_words operation.now (view changes.now)) }
{
    text.escaped(operation.as_bytes());
    text.text(" complete: ");
    push_changes(
        text,
        changes,
        " added, ",
        " changed, ",
        " destroyed",
        " imported",
    );
}

/// Adds what is added, changed, removed and imported, each with its words.
#[tactic(auto, unfolding(crate::specs::SummaryRow::changes_in))]
fn push_changes(
    text: &mut MessageText,
    changes: &Value,
    added: &str,
    changed: &str,
    removed: &str,
    imported: &str,
)
    ensures { AppendsText text.old text.new (changes_in (view changes.now) added.now changed.now removed.now imported.now) }
{
    push_sum(text, changes, "add", added);
    push_sum(text, changes, "change", changed);
    push_sum(text, changes, "remove", removed);
    push_imports(text, changes, imported);
}

/// Returns the whole number of that name.
fn sum_of(changes: &Value, name: &str) -> Option<u64>
    ensures { result ≡ whole_of name.now (view changes.now) }
{
    member(changes, name)?.as_u64()
}

/// Adds the sum of that name, and `?` where it is no whole number, with its words.
fn push_sum(text: &mut MessageText, changes: &Value, name: &str, words: &str)
    ensures { AppendsText text.old text.new (sum_in (view changes.now) name.now ++ words.now) }
{
    match sum_of(changes, name) {
        Some(sum) => text.count(sum),
        None => text.text("?"),
    }
    text.text(words);
}

/// Adds the number of imports with its words, unless it is 0 or absent.
#[tactic(auto, unfolding(crate::specs::SummaryRow::imports_in))]
fn push_imports(text: &mut MessageText, changes: &Value, words: &str)
    ensures { AppendsText text.old text.new (imports_in (view changes.now) words.now) }
{
    let imports = sum_of(changes, "import").unwrap_or(0);
    if imports > 0 {
        text.text(", ");
        text.count(imports);
        text.text(words);
    }
}
