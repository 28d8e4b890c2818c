//! Steps of a script.

ghost use Rattle.std.specs.Prelude.{◌≡◌, ◌<◌, Some, length, slice_get};
ghost use Rattle.stream_record.specs.ScriptText.{answered_text, ending_text, step_text, steps_text};
ghost use Rattle.term_words.specs.MessageTexts.{AppendsText};

use crate::diagnostics::{push_diag, push_diag_member};
use crate::parts::{as_text, push_closing, push_opening, push_text_member};
use crate::provisioners::push_provisioners;
use crate::waits::push_waits;
use apply_model::{Ending, Outcome, Plan, ScriptStep, StepOutcomes};
use term_words::MessageText;

/// Adds the steps of a change, if there are some.
pub fn push_steps(text: &mut MessageText, plan: &Plan, steps: &StepOutcomes)
    ensures { AppendsText text.old text.new (steps_text plan.now.changes steps.now) }
{
    let mut later = false;
    for number in 0..steps.len() {
        let step = step_at(steps, number);
        push_opening(text, ",\"steps\":[", later);
        push_step(text, plan, step);
        later = true;
    }
    push_closing(text, "]", later);
}

/// The step of this number.
fn step_at(steps: &StepOutcomes, number: usize) -> &ScriptStep
    requires { number < length steps.now }
    ensures { Some result.now ≡ slice_get steps.now number }
{
    steps.get(number).unwrap()
}

/// Adds a step.
fn push_step(text: &mut MessageText, plan: &Plan, step: &ScriptStep)
    ensures { AppendsText text.old text.new (step_text plan.now.changes step.now) }
{
    match step {
        ScriptStep::Answered(outcome) => push_answered(text, plan, outcome),
        ScriptStep::Skipped { after } => {
            text.text("{\"skipped\":true");
            push_waits(text, plan, after);
            text.text("}");
        }
    }
}

/// Adds a step that the provider answers.
fn push_answered(text: &mut MessageText, plan: &Plan, outcome: &Outcome)
    ensures { AppendsText text.old text.new (answered_text plan.now.changes outcome.now) }
{
    text.text("{\"seconds\":");
    text.number(outcome.seconds as u64);
    push_ending(text, &outcome.result);
    push_provisioners(text, &outcome.provisioners);
    push_waits(text, plan, &outcome.after);
    text.text("}");
}

/// Adds how the provider ends a step.
fn push_ending(text: &mut MessageText, ending: &Ending)
    ensures { AppendsText text.old text.new (ending_text ending.now) }
{
    match ending {
        Ending::Done { id, warning } => {
            push_text_member(text, ",\"id\":", as_text(id));
            push_diag_member(text, ",\"warning\":{", warning.as_ref());
        }
        Ending::Failed { diag } => push_diag(text, ",\"failed\":{", None, diag),
        Ending::Warned { diag } => {
            push_diag(text, ",\"failed\":{\"severity\":\"warning\",", None, diag);
        }
    }
}
