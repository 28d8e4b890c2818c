//! The diagnostics of no step that a command prints.
//!
//! Every `Err` means that memory was refused.

ghost use Rattle.std.specs.Prelude.{◌≡◌, ◌++◌, IfOk, OnOk};
ghost use Rattle.apply_text_planning.specs.Notes.{forgotten_in, forgotten_note_of, targeting_note, unfinished_note};
ghost use Rattle.apply_command.specs.Notes as specs;

use crate::reading::is_partial;
use apply_model::{ChangeDetails, Note, Plan};
use apply_plan_terraform::PlanNote;
use apply_planning_failures::has_error;
use apply_text_planning::{forgotten_note, targeting_note, unfinished_note};
use std::alloc::{AllocError, Global};

/// The diagnostics of no step. `failures` are those of the planning, and `script` those that the
/// script states.
pub(crate) fn command_notes(
    alloc: Global,
    applies: bool,
    note: Option<PlanNote>,
    plan: &Plan,
    details: &[ChangeDetails],
    failures: Vec<Note>,
    script: Vec<Note>,
) -> Result<Vec<Note>, AllocError>
    ensures { IfOk result (λ notes. notes.items ≡ specs.command_notes applies note
        (forgotten_note_of (forgotten_in plan.now.changes details.now)) failures.items script.items) }
{
    if applies {
        let mut notes = script;
        push_plan_notes(alloc, &mut notes, note, plan, details)?;
        if is_partial(note) {
            notes.push(PlanNote::Partial.note(alloc)?)?;
        }
        return Ok(notes);
    }
    let (mut notes, mut script) = (failures, script);
    notes.append(&mut script)?;
    push_plan_notes(alloc, &mut notes, note, plan, details)?;
    if note == Some(PlanNote::Unfinished) && !has_error(&notes) {
        notes.push(unfinished_note(alloc)?)?;
    }
    Ok(notes)
}

/// Appends what the plan itself warns of: -target, and objects that it forgets.
fn push_plan_notes(
    alloc: Global,
    notes: &mut Vec<Note>,
    note: Option<PlanNote>,
    plan: &Plan,
    details: &[ChangeDetails],
) -> Result<(), AllocError>
    ensures { OnOk result (notes.new.items ≡ notes.old.items ++ (specs.note_if (specs.is_partial note) targeting_note
        ++ specs.option_list (forgotten_note_of (forgotten_in plan.now.changes details.now)))) }
{
    if is_partial(note) {
        notes.push(targeting_note(alloc)?)?;
    }
    if let Some(forgotten) = forgotten_note(alloc, plan, details)? {
        notes.push(forgotten)?;
    }
    Ok(())
}
