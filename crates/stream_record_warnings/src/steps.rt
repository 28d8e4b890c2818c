//! Warnings about the steps that began.

ghost use Rattle.std.specs.Prelude.{◌≡◌, map};
ghost use Rattle.std.specs.Option.{option_copied};
ghost use Rattle.stream_record_warnings.specs.StepWarnings.{early_warning, early_warnings, reason_warnings, reason_words, step_warning, step_warnings, warnings_at};
ghost use Rattle.term_words.specs.MessageTexts.{AppendsText};

use crate::lines::{begin_line, end};
use crate::names::{push_step, step_at};
use stream_record_outcomes::{RecordedStep, StepWarning};
use stream_record_steps::{BegunSteps, PlannedStep};
use term_words::MessageText;

/// Adds the warnings about the steps that began, in the order of their starts.
pub fn push_step_warnings(
    text: &mut MessageText,
    begun: &BegunSteps<'_>,
    recorded: &[Option<RecordedStep>],
    early: &[Vec<usize>],
)
    ensures { AppendsText text.old text.new (step_warnings begun.now recorded.now (map (λ places. places.items) early.now)) }
{
    for place in begun.begins() {
        push_warnings_at(text, begun, recorded, early, *place);
    }
}

/// Adds the warnings about the step at a place.
fn push_warnings_at(
    text: &mut MessageText,
    begun: &BegunSteps<'_>,
    recorded: &[Option<RecordedStep>],
    early: &[Vec<usize>],
    place: usize,
)
    ensures { AppendsText text.old text.new (warnings_at begun.now recorded.now (map (λ places. places.items) early.now) place) }
{
    let planned = begun.planned();
    let (Some(step), Some(run)) = (step_at(planned, place), begun.step(place)) else {
        return;
    };
    if let Some(Some(recorded)) = recorded.get(place) {
        push_reasons(text, run.line, step, recorded.warnings.as_slice());
    }
    if let Some(early) = early.get(place) {
        push_early(text, run.line, step, planned, early.as_slice());
    }
}

/// Adds a warning about a step for each of these reasons.
fn push_reasons(text: &mut MessageText, line: u64, step: &PlannedStep<'_>, warnings: &[StepWarning])
    ensures { AppendsText text.old text.new (reason_warnings line step.now warnings.now) }
{
    for warning in warnings {
        push_reason(text, line, step, warning);
    }
}

/// Adds a warning about a step, for this reason.
fn push_reason(text: &mut MessageText, line: u64, step: &PlannedStep<'_>, warning: &StepWarning)
    ensures { AppendsText text.old text.new (step_warning line step.now (reason_words warning.now)) }
{
    begin_line(text, line);
    text.text(": the ");
    push_step(text, step);
    push_reason_words(text, warning);
    end(text);
}

/// Adds what a warning says of its step.
fn push_reason_words(text: &mut MessageText, warning: &StepWarning)
    ensures { AppendsText text.old text.new (reason_words warning.now) }
{
    match warning {
        StepWarning::NoEnd { failed: false } => {
            text.text(" has no end, and is told as one that is done");
        }
        StepWarning::NoEnd { failed: true } => {
            text.text(" has no end, and is told as one that failed");
        }
        StepWarning::TooLong { seconds } => {
            text.text(" took ");
            text.number(*seconds);
            text.text(" seconds, and is told with 86400");
        }
        StepWarning::OddProgress => {
            text.text(" has progress at other seconds than each tenth before its end");
        }
        StepWarning::Unexplained => text.text(" failed, and no diagnostic says why"),
        StepWarning::OtherId { key } => {
            text.text(" tells ");
            text.escaped(key.as_str().as_bytes());
            text.text(" in place of id");
        }
        StepWarning::NotProvisionable => {
            text.text(" has provisioners, which such a step can't have");
        }
        StepWarning::ProvisionersLeftOut => {
            text.text(" failed behind its provisioners, which are left out");
        }
        StepWarning::TooManyProvisioners { count } => {
            text.text(" has ");
            text.number(*count as u64);
            text.text(" provisioners, and is told with 8");
        }
        StepWarning::TooMuchOutput { count } => {
            text.text(" has a provisioner with ");
            text.number(*count as u64);
            text.text(" outputs, and is told with 100");
        }
    }
}

/// Adds a warning for each step that was not done when this one began, though it waits for it.
fn push_early(
    text: &mut MessageText,
    line: u64,
    step: &PlannedStep<'_>,
    planned: &[PlannedStep<'_>],
    early: &[usize],
)
    ensures { AppendsText text.old text.new (early_warnings line step.now planned.now early.now) }
{
    for place in early {
        if let Some(other) = step_at(planned, *place) {
            push_early_step(text, line, step, other);
        }
    }
}

/// Adds a warning about another step that was not done when this one began.
fn push_early_step(
    text: &mut MessageText,
    line: u64,
    step: &PlannedStep<'_>,
    other: &PlannedStep<'_>,
)
    ensures { AppendsText text.old text.new (early_warning line step.now other.now) }
{
    begin_line(text, line);
    text.text(": the ");
    push_step(text, step);
    text.text(" began before the ");
    push_step(text, other);
    text.text(" was done, for which it waits in the graph");
    end(text);
}
