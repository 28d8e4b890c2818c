//! Summaries.

ghost use Rattle.std.specs.Prelude.{◌≡◌, unwrap_or};
ghost use Rattle.serde_json.specs.View.{view};
ghost use Rattle.stream_record_lines.specs.Messages.{summary_named, summary_of};
ghost use Rattle.stream_record_lines.specs.declared.event.Event.TheVariants as event_variant;

use crate::event::Event;
use crate::members::changes_text;
use apply_json::is_text;
use serde_json::Value;

/// What a summary is of (Machine-Readable UI, "Change Summary", `operation`).
#[derive(Clone, Copy, Debug, PartialEq, Eq)]
pub enum Summary {
    Plan,
    Apply,
    Destroy,
}

/// What a summary states. Other operations are of no use.
pub fn summary_event(tree: &Value) -> Event
    ensures { result ≡ unwrap_or (summary_of (view tree.now)) event_variant.Other }
{
    let Some(operation) = changes_text(tree, "operation") else {
        return Event::Other;
    };
    match summary_named(operation) {
        Some(summary) => Event::Summary(summary),
        None => Event::Other,
    }
}

/// The summary of an operation.
fn summary_named(operation: &str) -> Option<Summary>
    ensures { result ≡ summary_named operation.now }
{
    if is_text(operation, "plan") {
        Some(Summary::Plan)
    } else if is_text(operation, "apply") {
        Some(Summary::Apply)
    } else if is_text(operation, "destroy") {
        Some(Summary::Destroy)
    } else {
        None
    }
}
