//! Tests whether an event can happen.

ghost use Rattle.std.specs.Prelude.{◌≡◌, ◌↔◌, ◌==◌, false, length, nat_lt, not, slice_get, IsTrue};
ghost use Rattle.std.specs.List.{list_any};
ghost use Rattle.std.specs.Option.{option_copied, option_map_or};
ghost use Rattle.apply_model.specs.Script.Outcome.{has_failed, ran};
ghost use Rattle.apply_model.specs.Script.OutcomeMap.{outcome_of};
ghost use Rattle.apply_events.specs.Fits.{Fits, HasStep, IsOfPlan, can_happen, happens, may_be_asked};
ghost use Rattle.apply_events.specs.ProgressTimes.{progress_times};

use crate::applied::{applied_steps, kind_at};
use crate::event::{Event, LATEST};
use crate::running_provisioners::running_provisioner;
use crate::step_facts::StepFacts;
use crate::what::What;
use apply_hooks::{MAX_HOOKS, Phase};
use apply_model::{Plan, Provisioner, Script, StepKind};

/// Whether the event can happen, whatever the hooks answer. The plan has its step, the script skips
/// no step of the change up to it, and `at` is at most `LATEST`. A step with that outcome can have
/// an event of that kind. The worker does not matter.
pub fn fits(plan: &Plan, script: &Script, event: &Event) -> bool
    ensures { IsTrue result ↔ Fits plan.now script.now event.now }
{
    is_of_plan(plan, event) && happens(plan, script, event)
}

/// Whether the plan has the step of the event, and `at` is at most `LATEST`.
pub fn is_of_plan(plan: &Plan, event: &Event) -> bool
    ensures { IsTrue result ↔ IsOfPlan plan.now event.now }
{
    has_step(plan, event) && event.at <= LATEST
}

/// Whether the plan has the event's step.
fn has_step(plan: &Plan, event: &Event) -> bool
    ensures { IsTrue result ↔ HasStep plan.now event.now.change event.now.step }
{
    event.change < plan.len() && (event.step as usize) < plan.change(event.change).steps().len()
}

/// Whether the step of the event is applied, and its outcome allows the event.
fn happens(plan: &Plan, script: &Script, event: &Event) -> bool
    ensures { result ≡ happens plan.now script.now event.now }
{
    if event.change >= plan.len() {
        return false;
    }
    match kind_at(applied_steps(plan, script, event.change), event.step) {
        Some(kind) => can_happen(script, kind, event),
        None => false,
    }
}

/// Whether the outcome of the step, which is of that kind, allows the event.
fn can_happen(script: &Script, kind: StepKind, event: &Event) -> bool
    ensures { result ≡ can_happen kind (outcome_of script.now event.now.change event.now.step) event.now.what }
{
    let StepFacts {
        seconds,
        fails,
        warns,
        only_warns,
    } = StepFacts::new(script, event.change, event.step, kind);
    match event.what {
        What::Start => true,
        What::Progress(after) => is_progress_time(after, seconds),
        What::Complete(after) => !fails && !only_warns && after == seconds,
        What::Errored(after) => fails && after == seconds,
        What::ErrorNote => fails,
        What::WarnNote => !fails && warns,
        What::Halted { phase, hook } => may_be_asked(fails, phase) && (hook as usize) < MAX_HOOKS,
        What::ProvisionStart(number) => ran_at(script, event, number).is_some(),
        What::ProvisionOutput { prov, line } => has_output(ran_at(script, event, prov), line),
        What::ProvisionComplete(number) => completes(ran_at(script, event, number)),
        What::ProvisionErrored(number) => errs(ran_at(script, event, number)),
    }
}

/// The provisioner of that number of the event's step. `None` where it does not run.
fn ran_at<'a>(script: &'a Script, event: &Event, number: u8) -> Option<&'a Provisioner>
    ensures { option_copied result
        ≡ slice_get (ran (outcome_of script.now event.now.change event.now.step).provisioners) number }
{
    running_provisioner(script.outcome(event.change, event.step)?, number)
}

/// Whether there is a provisioner and it prints a text of that number.
fn has_output(provisioner: Option<&Provisioner>, line: u8) -> bool
    ensures { result ≡ option_map_or (λ provisioner. nat_lt line (length provisioner.output))
        (option_copied provisioner.entry) false }
{
    match provisioner {
        Some(provisioner) => line < provisioner.output.len(),
        None => false,
    }
}

/// Whether there is a provisioner and it succeeds.
fn completes(provisioner: Option<&Provisioner>) -> bool
    ensures { result ≡ option_map_or (λ provisioner. not (has_failed provisioner))
        (option_copied provisioner.entry) false }
{
    match provisioner {
        Some(provisioner) => provisioner.failed.is_none(),
        None => false,
    }
}

/// Whether there is a provisioner and it fails.
fn errs(provisioner: Option<&Provisioner>) -> bool
    ensures { result ≡ option_map_or has_failed (option_copied provisioner.entry) false }
{
    match provisioner {
        Some(provisioner) => provisioner.failed.is_some(),
        None => false,
    }
}

/// Whether a step of `seconds` seconds reports progress after `after` seconds.
fn is_progress_time(after: u32, seconds: u32) -> bool
    ensures { result ≡ list_any (λ time. time == after) (progress_times seconds) }
{
    if after == 0 {
        false
    } else if after < seconds {
        after % 10 == 0
    } else {
        false
    }
}

/// Whether hooks are asked in the phase about a step that fails, or does not.
fn may_be_asked(fails: bool, phase: Phase) -> bool
    ensures { result ≡ may_be_asked fails phase }
{
    match phase {
        Phase::Pre => true,
        Phase::PostDone => !fails,
        Phase::PostFailed => fails,
    }
}
