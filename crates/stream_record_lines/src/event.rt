//! What a message states, as far as a script can repeat it. Every `Err` means that memory was
//! refused.

ghost use Rattle.std.specs.Prelude.{◌≡◌, IfOk, codes};
ghost use Rattle.serde_json.specs.View.{view};
ghost use Rattle.apply_json.specs.Tree.{text_of};
ghost use Rattle.stream_record_lines.specs.Messages.{event_of};
ghost use Rattle.stream_record_lines.specs.Outputs.{outputs_of};
ghost use Rattle.stream_record_lines.specs.declared.event.Event.TheVariants as event_variant;

use crate::diagnostic::diagnostic_event;
use crate::outputs::{Outputs, read_outputs};
use crate::provisioner::{Provisioner, provisioner_event};
use crate::step::{Step, step_event};
use crate::summary::{Summary, summary_event};
use apply_json::Scratch;
use apply_json_tree::members::text_member;
use apply_model::{Note, Text};
use serde_json::Value;
use std::alloc::{AllocError, Global};
use stream_message::Kind;

/// What a message states, as far as a script can repeat it (Machine-Readable UI, "Message Types").
#[derive(Debug, Drop)]
pub enum Event {
    /// `version`.
    Version {
        /// The version of the interface (`ui`).
        ui: Option<Text>,
    },
    Step(Step),
    Provisioner(Provisioner),
    /// A message about an ephemeral resource.
    Ephemeral,
    /// An error or a warning.
    Diagnostic(Note),
    Summary(Summary),
    Outputs(Outputs),
    /// A message about a step or a provisioner that lacks a member.
    Malformed,
    /// Any other message.
    Other,
}

/// Reads what the message of this kind states. `tree` is that of its text. `scratch` grows to the
/// length of the text.
pub fn read_event(
    alloc: Global,
    scratch: &mut Scratch,
    text: &[u8],
    tree: &Value,
    kind: Kind,
) -> Result<Event, AllocError>
    ensures { IfOk result (λ event. event ≡ event_of text.now (view tree.now) kind) }
{
    match kind {
        Kind::Version => version_event(alloc, tree),
        Kind::Apply(stage) => step_event(alloc, stage, tree),
        Kind::Provision(stage) => provisioner_event(alloc, stage, tree),
        Kind::Ephemeral(_) => Ok(Event::Ephemeral),
        Kind::Summary => Ok(summary_event(tree)),
        Kind::Diagnostic => diagnostic_event(alloc, scratch, text, tree),
        Kind::Outputs => outputs_event(alloc, scratch, text),
        Kind::Refresh(_) | Kind::Planned | Kind::Other => Ok(Event::Other),
    }
}

/// What a version states.
fn version_event(alloc: Global, tree: &Value) -> Result<Event, AllocError>
    ensures { IfOk result (λ event. event ≡ event_variant.Version (text_of (codes "ui") (view tree.now))) }
{
    let ui = Text::of_option(alloc, text_member(tree, "ui"))?;
    Ok(Event::Version { ui })
}

/// What the outputs of a text state.
fn outputs_event(alloc: Global, scratch: &mut Scratch, text: &[u8]) -> Result<Event, AllocError>
    ensures { IfOk result (λ event. event ≡ event_variant.Outputs (outputs_of text.now)) }
{
    let outputs = read_outputs(alloc, scratch, text)?;
    Ok(Event::Outputs(outputs))
}
