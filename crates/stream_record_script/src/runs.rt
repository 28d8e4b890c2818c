//! The steps of a plan, with what a stream and their outcomes report of them.
//!
//! Every `Err` means that memory was refused.

ghost use Rattle.std.specs.Prelude.{◌≡◌, ◌<◌, ◌^◌, IfOk, IfSome};
ghost use Rattle.std.specs.Option.{option_copied};
ghost use Rattle.apply_model.specs.Script.Outcome.{took};
ghost use Rattle.stream_record_outcomes.specs.Recording.{AreAllowed};
ghost use Rattle.stream_record_steps.specs.Begun.{begun_at};
ghost use Rattle.stream_record_script.specs.Runs.{recorded_at, run_at, run_fate_of, run_of, steps_of_plan};

use std::alloc::{AllocError, Global};
use stream_record_outcomes::{Fate, RecordedStep};
use stream_record_steps::{BegunStep, BegunSteps, PlannedStep};
use stream_record_waits::{RunFate, StepOfPlan, StepRun};

/// All steps of the plan, with how each ran that began. `recorded` has the outcomes of the steps.
pub fn steps_of_plan(
    alloc: Global,
    begun: &BegunSteps<'_>,
    recorded: &[Option<RecordedStep>],
) -> Result<Vec<StepOfPlan>, AllocError>
    requires { AreAllowed begun.now.planned recorded.now }
    ensures { IfOk result (λ steps. steps.items ≡ steps_of_plan begun.now recorded.now) }
{
    let planned = begun.planned();
    let mut steps = Vec::new(alloc);
    for (place, step) in planned.iter().enumerate() {
        let run = run_at(begun, recorded, place, step);
        steps.push(StepOfPlan {
            is_first: step.is_first(),
            run,
        })?;
    }
    Ok(steps)
}

/// How the step at a place ran. `None` if it did not begin.
fn run_at(
    begun: &BegunSteps<'_>,
    recorded: &[Option<RecordedStep>],
    place: usize,
    step: &PlannedStep<'_>,
) -> Option<StepRun>
    requires { IfSome (recorded_at recorded.now place) (λ found. took step.now.kind found.outcome < 2 ^ 32) }
    ensures { result ≡ run_at begun.now recorded.now place step.now }
{
    let found = recorded_at(recorded, place)?;
    let begun = begun.step(place)?;
    Some(run_of(step, found, begun))
}

/// The outcome of the step at a place. `None` if it did not begin.
pub fn recorded_at(recorded: &[Option<RecordedStep>], place: usize) -> Option<&RecordedStep>
    ensures { option_copied result ≡ recorded_at recorded.now place }
{
    match recorded.get(place) {
        Some(Some(found)) => Some(found),
        _ => None,
    }
}

/// How a step ran that began.
fn run_of(step: &PlannedStep<'_>, found: &RecordedStep, begun: &BegunStep) -> StepRun
    requires { took step.now.kind found.now.outcome < 2 ^ 32 }
    ensures { result ≡ run_of step.now found.now begun.now }
{
    let end = match &begun.end {
        Some(end) => Some(end.line),
        None => None,
    };
    StepRun {
        line: begun.line,
        previous: begun.previous,
        end,
        fate: run_fate_of(found.fate),
        seconds: found.outcome.took(step.kind()),
    }
}

fn run_fate_of(fate: Fate) -> RunFate
    ensures { result ≡ run_fate_of fate }
{
    match fate {
        Fate::Done => RunFate::Done,
        Fate::Warned => RunFate::Warned,
        Fate::Failed => RunFate::Failed,
    }
}
