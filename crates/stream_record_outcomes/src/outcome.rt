//! The outcome of a step, as a script states it.
//!
//! Every `Err` means that memory was refused.

ghost use Rattle.std.specs.Prelude.{◌≡◌, ◌≤◌, [], IfOk, length};
ghost use Rattle.std.specs.Option.{option_copied};
ghost use Rattle.apply_model.specs.Script.Limits.{max_provisioners};
ghost use Rattle.stream_record_outcomes.specs.Outcome.{diag_of, ending_of, error_of, failure_by, fails_by_provisioner, id_of, id_of_end, last_until, provider_seconds, stated_runs, states_provisioners, unless_empty};
ghost use Rattle.stream_record_outcomes.specs.Provisioners.{may_provision, provisioners_of};
ghost use Rattle.stream_record_outcomes.specs.Times.{timed_facts};

use crate::copies::copied_diag;
use crate::fate::Fate;
use crate::last_provisioner::last_provisioner;
use crate::provisioner_run::{ProvisionerRun, begin_at_once, runs_in};
use crate::provisioners::{provisioners_of, unknown_error};
use crate::timed_fact::TimedFact;
use apply_model::{Diag, Ending, Note, Outcome, StepKind, Text, Waits};
use std::alloc::{AllocError, Global};
use stream_record_steps::{BegunStep, EndResult, PlannedStep};

/// Whether a script may state provisioners of the step.
pub fn may_provision(step: &PlannedStep<'_>) -> bool
    ensures { result ≡ may_provision step.now }
{
    match step.kind() {
        StepKind::Create => true,
        StepKind::Delete => step.is_first() && step.change().deposed().is_none(),
        StepKind::Update | StepKind::Read => false,
    }
}

/// Whether the last provisioner makes the step fail.
pub fn fails_by_provisioner(step: &PlannedStep<'_>, begun: &BegunStep, fate: Fate) -> bool
    ensures { result ≡ fails_by_provisioner step.now begun.now fate }
{
    fate.is_failed()
        && may_provision(step)
        && last_provisioner(begun.facts.as_slice()).fails_its_step()
}

/// Whether the script states provisioners of the step.
fn states_provisioners(step: &PlannedStep<'_>, begun: &BegunStep, fate: Fate) -> bool
    ensures { result ≡ states_provisioners step.now begun.now fate }
{
    may_provision(step)
        && last_provisioner(begun.facts.as_slice()).is_present()
        && (fate.is_done() || fails_by_provisioner(step, begun, fate))
}

/// The provisioners that the script states, before those that are too many are left out. `facts`
/// are those of the step, with their seconds.
pub fn stated_runs<'a>(
    alloc: Global,
    step: &PlannedStep<'_>,
    begun: &BegunStep,
    fate: Fate,
    whole: u32,
    facts: &'a [TimedFact<'a>],
) -> Result<Vec<ProvisionerRun<'a>>, AllocError>
    requires { facts.now ≡ timed_facts whole begun.now }
    ensures { IfOk result (λ runs. runs.items ≡ stated_runs step.now whole begun.now fate) }
{
    if !states_provisioners(step, begun, fate) {
        return Ok(Vec::new(alloc));
    }
    if !step.kind().is_delete() {
        return runs_in(alloc, false, whole, facts);
    }
    let fails = fails_by_provisioner(step, begun, fate);
    let mut runs = runs_in(alloc, !fails, whole, facts)?;
    begin_at_once(&mut runs);
    Ok(runs)
}

/// How long the provider takes.
pub fn provider_seconds(kind: StepKind, whole: u32, fails: bool, runs: &[ProvisionerRun<'_>]) -> u32
    ensures { result ≡ provider_seconds kind whole fails runs.now }
{
    let Some(first) = runs.first() else {
        return whole;
    };
    if !kind.is_delete() {
        first.begin
    } else if fails {
        0
    } else {
        whole.saturating_sub(last_until(runs))
    }
}

/// Until when the last provisioner ran.
fn last_until(runs: &[ProvisionerRun<'_>]) -> u32
    ensures { result ≡ last_until 0 runs.now }
{
    match runs.last() {
        Some(run) => run.until,
        None => 0,
    }
}

/// The outcome of a step whose provider takes these seconds, with these provisioners.
pub fn stated_outcome(
    alloc: Global,
    step: &PlannedStep<'_>,
    begun: &BegunStep,
    note: Option<&Note>,
    fate: Fate,
    seconds: u32,
    runs: &[ProvisionerRun<'_>],
) -> Result<Outcome, AllocError>
    requires { length runs.now ≤ max_provisioners }
    ensures { IfOk result (λ outcome. let fails = fails_by_provisioner step.now begun.now fate in outcome ≡ record {
      seconds = seconds;
      provisioners = provisioners_of (failure_by fails (option_copied note.entry)) runs.now;
      result = ending_of step.now.kind begun.now (option_copied note.entry) fails fate;
      after = [];
    }) }
{
    let fails = fails_by_provisioner(step, begun, fate);
    let failure = failure_by(alloc, fails, note)?;
    let provisioners = provisioners_of(alloc, failure.as_ref(), runs)?;
    let result = ending_of(alloc, step.kind(), begun, note, fails, fate)?;
    Ok(Outcome {
        seconds,
        provisioners,
        result,
        after: Waits::new(Vec::new(alloc)),
    })
}

/// The error of the last provisioner, if it makes the step fail.
fn failure_by(alloc: Global, fails: bool, note: Option<&Note>) -> Result<Option<Diag>, AllocError>
    ensures { IfOk result (λ failure. failure ≡ failure_by fails (option_copied note.entry)) }
{
    if fails {
        Ok(Some(error_of(alloc, note)?))
    } else {
        Ok(None)
    }
}

/// How the provider ends.
fn ending_of(
    alloc: Global,
    kind: StepKind,
    begun: &BegunStep,
    note: Option<&Note>,
    by_provisioner: bool,
    fate: Fate,
) -> Result<Ending, AllocError>
    ensures { IfOk result (λ ending. ending ≡ ending_of kind begun.now (option_copied note.entry) by_provisioner fate) }
{
    match fate {
        Fate::Done => Ok(Ending::Done {
            id: Text::of_option(alloc, id_of(kind, begun))?,
            warning: diag_of(alloc, note)?,
        }),
        Fate::Warned => Ok(Ending::Warned {
            diag: error_of(alloc, note)?,
        }),
        Fate::Failed => if by_provisioner {
            Ok(Ending::Done {
                id: None,
                warning: None,
            })
        } else {
            Ok(Ending::Failed {
                diag: error_of(alloc, note)?,
            })
        },
    }
}

fn diag_of(alloc: Global, note: Option<&Note>) -> Result<Option<Diag>, AllocError>
    ensures { IfOk result (λ diag. diag ≡ diag_of (option_copied note.entry)) }
{
    match note {
        Some(note) => Ok(Some(copied_diag(alloc, &note.diag)?)),
        None => Ok(None),
    }
}

/// The error of a step that failed.
fn error_of(alloc: Global, note: Option<&Note>) -> Result<Diag, AllocError>
    ensures { IfOk result (λ diag. diag ≡ error_of (option_copied note.entry)) }
{
    match note {
        Some(note) => copied_diag(alloc, &note.diag),
        None => unknown_error(alloc),
    }
}

/// The id of the object: that of the completion, but of no delete.
fn id_of(kind: StepKind, begun: &BegunStep) -> Option<&str>
    ensures { option_copied result ≡ id_of kind begun.now }
{
    if kind.is_delete() {
        return None;
    }
    match &begun.end {
        Some(end) => id_of_end(&end.result),
        None => None,
    }
}

fn id_of_end(end: &EndResult) -> Option<&str>
    ensures { option_copied result ≡ id_of_end end.now }
{
    match end {
        EndResult::Completed { id: Some(id), .. } => unless_empty(id.as_str()),
        EndResult::Completed { id: None, .. } | EndResult::Failed => None,
    }
}

/// The text, unless it is empty.
fn unless_empty(text: &str) -> Option<&str>
    ensures { option_copied result ≡ unless_empty text.now }
{
    if text.is_empty() { None } else { Some(text) }
}
