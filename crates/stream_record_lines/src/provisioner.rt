//! What messages state of provisioners. Every `Err` means that memory was refused.

ghost use Rattle.std.specs.Prelude.{◌≡◌, IfOk, unwrap_or};
ghost use Rattle.serde_json.specs.View.{view};
ghost use Rattle.stream_record_lines.specs.Messages.{provisioner_name, provisioner_of, stage_of_provisioner};
ghost use Rattle.stream_record_lines.specs.declared.event.Event.TheVariants as event_variant;

use crate::event::Event;
use crate::members::{hook_address, hook_text};
use apply_json_tree::members::{member, non_empty_text_member};
use apply_model::Text;
use serde_json::Value;
use std::alloc::{AllocError, Global};
use stream_message::Stage;

/// What a message states of a provisioner (Machine-Readable UI, "Operation Messages").
#[derive(Debug, Drop)]
pub struct Provisioner {
    /// The address of the object.
    pub address: Text,
    /// The name, `?` if it is missing or empty.
    pub name: Text,
    pub stage: ProvisionerStage,
}

/// The stage of a provisioner.
#[derive(Debug, Drop)]
pub enum ProvisionerStage {
    /// `provision_start`.
    Began,
    /// `provision_progress`.
    Wrote {
        /// What the provisioner wrote (`output`).
        output: Text,
    },
    /// `provision_complete`.
    Ended,
    /// `provision_errored`.
    Failed,
}

/// What a message about a provisioner states. It is malformed if it lacks the address, or the
/// output that its stage needs.
pub fn provisioner_event(alloc: Global, stage: Stage, tree: &Value) -> Result<Event, AllocError>
    ensures { IfOk result (λ event. event ≡ unwrap_or (provisioner_of stage (view tree.now)) event_variant.Malformed) }
{
    let Some(address) = hook_address(tree) else {
        return Ok(Event::Malformed);
    };
    let Some(stage) = provisioner_stage(alloc, stage, tree)? else {
        return Ok(Event::Malformed);
    };
    let address = Text::new(alloc, address)?;
    let name = Text::new(alloc, provisioner_name(tree))?;
    Ok(Event::Provisioner(Provisioner {
        address,
        name,
        stage,
    }))
}

/// The stage of a provisioner. `None` if the message lacks its output.
fn provisioner_stage(
    alloc: Global,
    stage: Stage,
    tree: &Value,
) -> Result<Option<ProvisionerStage>, AllocError>
    ensures { IfOk result (λ found. found ≡ stage_of_provisioner stage (view tree.now)) }
{
    match stage {
        Stage::Start => Ok(Some(ProvisionerStage::Began)),
        Stage::Progress => output_of(alloc, tree),
        Stage::Complete => Ok(Some(ProvisionerStage::Ended)),
        Stage::Errored => Ok(Some(ProvisionerStage::Failed)),
    }
}

/// What a provisioner wrote.
fn output_of(alloc: Global, tree: &Value) -> Result<Option<ProvisionerStage>, AllocError>
    ensures { IfOk result (λ found. found ≡ stage_of_provisioner Stage.Progress (view tree.now)) }
{
    let Some(output) = hook_text(tree, "output") else {
        return Ok(None);
    };
    let output = Text::new(alloc, output)?;
    Ok(Some(ProvisionerStage::Wrote { output }))
}

/// The name of the provisioner.
fn provisioner_name(tree: &Value) -> &str
    ensures { result.now ≡ provisioner_name (view tree.now) }
{
    match member(tree, "hook") {
        Some(hook) => non_empty_text_member(hook, "provisioner").unwrap_or("?"),
        None => "?",
    }
}
