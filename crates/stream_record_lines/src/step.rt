//! What messages state of steps. Every `Err` means that memory was refused.

ghost use Rattle.std.specs.Prelude.{◌≡◌, IfOk, unwrap_or};
ghost use Rattle.serde_json.specs.View.{view};
ghost use Rattle.stream_record_lines.specs.Messages.{kind_named, seconds_of, stage_of_step, step_at, step_of};
ghost use Rattle.stream_record_lines.specs.declared.event.Event.TheVariants as event_variant;

use crate::event::Event;
use crate::members::{hook_address, hook_count, hook_text};
use apply_json::is_text;
use apply_model::{StepKind, Text};
use serde_json::Value;
use std::alloc::{AllocError, Global};
use stream_message::Stage;

/// What a message states of a step (Machine-Readable UI, "Operation Messages").
#[derive(Debug, Drop)]
pub struct Step {
    /// The address of the object.
    pub address: Text,
    /// The action.
    pub kind: StepKind,
    pub stage: StepStage,
}

/// The stage of a step.
#[derive(Debug, Drop)]
pub enum StepStage {
    /// `apply_start`.
    Began {
        /// The id of the object (`id_value`).
        id: Option<Text>,
    },
    /// `apply_progress`.
    Progress {
        /// The seconds since the step began (`elapsed_seconds`).
        seconds: u64,
    },
    /// `apply_complete`.
    Completed {
        /// How many seconds the step took (`elapsed_seconds`).
        seconds: u64,
        /// The member of the object that is its id (`id_key`).
        id_key: Option<Text>,
        /// The id of the object (`id_value`).
        id: Option<Text>,
    },
    /// `apply_errored`.
    Failed {
        /// How many seconds the step took (`elapsed_seconds`).
        seconds: u64,
    },
}

/// What a message about a step states. It is malformed if it lacks the address, the action, or the
/// seconds that its stage needs.
pub fn step_event(alloc: Global, stage: Stage, tree: &Value) -> Result<Event, AllocError>
    ensures { IfOk result (λ event. event ≡ unwrap_or (step_of stage (view tree.now)) event_variant.Malformed) }
{
    let Some(address) = hook_address(tree) else {
        return Ok(Event::Malformed);
    };
    let Some(word) = hook_text(tree, "action") else {
        return Ok(Event::Malformed);
    };
    match step_stage(alloc, stage, tree)? {
        Some(stage) => step_at(alloc, address, word, stage),
        None => Ok(Event::Malformed),
    }
}

/// A stage of the action with this word. Only four actions are steps.
fn step_at(alloc: Global, address: &str, word: &str, stage: StepStage) -> Result<Event, AllocError>
    ensures { IfOk result (λ event. event ≡ step_at address.now word.now stage) }
{
    let Some(kind) = kind_named(word) else {
        return Ok(Event::Other);
    };
    let address = Text::new(alloc, address)?;
    Ok(Event::Step(Step {
        address,
        kind,
        stage,
    }))
}

/// The kind of step that a word names.
fn kind_named(word: &str) -> Option<StepKind>
    ensures { result ≡ kind_named word.now }
{
    if is_text(word, "create") {
        Some(StepKind::Create)
    } else if is_text(word, "update") {
        Some(StepKind::Update)
    } else if is_text(word, "delete") {
        Some(StepKind::Delete)
    } else if is_text(word, "read") {
        Some(StepKind::Read)
    } else {
        None
    }
}

/// The seconds of a message.
fn seconds_of(tree: &Value) -> Option<u64>
    ensures { result ≡ seconds_of (view tree.now) }
{
    hook_count(tree, "elapsed_seconds")
}

/// The stage of a step. `None` if the message lacks the seconds that it needs.
fn step_stage(alloc: Global, stage: Stage, tree: &Value) -> Result<Option<StepStage>, AllocError>
    ensures { IfOk result (λ found. found ≡ stage_of_step stage (view tree.now)) }
{
    match stage {
        Stage::Start => {
            let id = Text::of_option(alloc, hook_text(tree, "id_value"))?;
            Ok(Some(StepStage::Began { id }))
        }
        Stage::Progress => Ok(progress_of(tree)),
        Stage::Complete => completion_of(alloc, tree),
        Stage::Errored => Ok(failure_of(tree)),
    }
}

/// Progress of a step.
fn progress_of(tree: &Value) -> Option<StepStage>
    ensures { result ≡ stage_of_step Stage.Progress (view tree.now) }
{
    let seconds = seconds_of(tree)?;
    Some(StepStage::Progress { seconds })
}

/// The failure of a step.
fn failure_of(tree: &Value) -> Option<StepStage>
    ensures { result ≡ stage_of_step Stage.Errored (view tree.now) }
{
    let seconds = seconds_of(tree)?;
    Some(StepStage::Failed { seconds })
}

/// The completion of a step.
fn completion_of(alloc: Global, tree: &Value) -> Result<Option<StepStage>, AllocError>
    ensures { IfOk result (λ found. found ≡ stage_of_step Stage.Complete (view tree.now)) }
{
    let Some(seconds) = seconds_of(tree) else {
        return Ok(None);
    };
    let id_key = Text::of_option(alloc, hook_text(tree, "id_key"))?;
    let id = Text::of_option(alloc, hook_text(tree, "id_value"))?;
    Ok(Some(StepStage::Completed {
        seconds,
        id_key,
        id,
    }))
}
