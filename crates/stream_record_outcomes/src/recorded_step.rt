//! A step of the stream, as a script states it.
//!
//! Every `Err` means that memory was refused.

ghost use Rattle.std.specs.Prelude.{◌≡◌, IfOk};
ghost use Rattle.std.specs.Option.{option_copied};
ghost use Rattle.stream_record_outcomes.specs.Recording.{recorded_step};

use crate::fate::{Fate, fate_of};
use crate::outcome::{fails_by_provisioner, provider_seconds, stated_outcome, stated_runs};
use crate::provisioner_run::kept_runs;
use crate::step_warning::StepWarnings;
use crate::timed_fact::timed_facts;
use crate::took::{took, within_limit};
use crate::warnings::{push_limited, step_warnings};
use apply_model::{Note, Outcome};
use std::alloc::{AllocError, Global};
use stream_record_steps::{BegunStep, PlannedStep};

/// A step of the stream, as a script states it.
#[derive(Debug, Drop)]
pub struct RecordedStep {
    /// The outcome, without what the step waits for.
    pub outcome: Outcome,
    pub fate: Fate,
    /// What the script does not say of the step.
    pub warnings: StepWarnings,
}

/// A step that began, with its diagnostic. `cut_off_at` is the second of the last message, if the
/// stream was cut off.
pub fn recorded_step(
    alloc: Global,
    cut_off_at: Option<i64>,
    step: &PlannedStep<'_>,
    note: Option<&Note>,
    begun: &BegunStep,
) -> Result<RecordedStep, AllocError>
    ensures { IfOk result (λ recorded. recorded ≡ recorded_step cut_off_at step.now (option_copied note.entry) begun.now) }
{
    let took = took(begun, cut_off_at);
    let whole = within_limit(took);
    let fate = fate_of(step.kind(), begun, note);
    let fails = fails_by_provisioner(step, begun, fate);
    let facts = timed_facts(alloc, begun, whole)?;
    let runs = stated_runs(alloc, step, begun, fate, whole, &facts)?;
    let seconds = provider_seconds(step.kind(), whole, fails, &runs);
    let mut warnings = step_warnings(alloc, step, took, begun, note, fate)?;
    let count = runs.len();
    let runs = kept_runs(runs, fails)?;
    push_limited(&mut warnings, count, &runs)?;
    let outcome = stated_outcome(alloc, step, begun, note, fate, seconds, &runs)?;
    Ok(RecordedStep {
        outcome,
        fate,
        warnings: StepWarnings::new(warnings),
    })
}
