//! What the steps of a script wait for.

ghost use Rattle.std.specs.Prelude.{◌≡◌, ◌+◌, ◌==◌, length};
ghost use Rattle.std.specs.Option.{option_copied};
ghost use Rattle.stream_record.specs.ScriptText.{number_text, wait_object_text, waited_change, waited_text, waits_text};
ghost use Rattle.term_words.specs.MessageTexts.{AppendsText};

use crate::parts::{push_closing, push_opening, push_text_member};
use apply_model::{Change, Plan, Wait, Waits};
use term_words::MessageText;

/// Adds the steps of the plan that a step waits for, if there are some.
pub fn push_waits(text: &mut MessageText, plan: &Plan, waits: &Waits)
    ensures { AppendsText text.old text.new (waits_text plan.now.changes waits.now) }
{
    let mut later = false;
    for number in 0..waits.len() {
        let wait = waits.get(number);
        if let Some(change) = waited_change(plan, wait) {
            push_opening(text, ",\"after\":[", later);
            push_wait(text, change, wait.step);
            later = true;
        }
    }
    push_closing(text, "]", later);
}

/// The change of the step that is waited for. `None` if the plan does not have that step.
fn waited_change(plan: &Plan, wait: Wait) -> Option<&Change>
    ensures { option_copied result ≡ waited_change plan.now.changes wait }
{
    if wait.change < plan.len() {
        let change = plan.change(wait.change);
        if (wait.step as usize) < change.steps().len() {
            return Some(change);
        }
    }
    None
}

/// Adds a wait for a step: a text where the last step of a current object is meant.
fn push_wait(text: &mut MessageText, change: &Change, step: u8)
    ensures { AppendsText text.old text.new (waited_text step change.now) }
{
    if is_last(change, step) && change.deposed().is_none() {
        text.json_string(change.address());
    } else {
        push_wait_object(text, change, step);
    }
}

/// Whether the step of that number is the last of the change.
fn is_last(change: &Change, step: u8) -> bool
    ensures { result ≡ (step + 1 == length change.now.steps) }
{
    step as usize + 1 == change.steps().len()
}

/// Adds a wait for a step as an object.
fn push_wait_object(text: &mut MessageText, change: &Change, step: u8)
    ensures { AppendsText text.old text.new (wait_object_text step change.now) }
{
    text.text("{\"address\":");
    text.json_string(change.address());
    push_text_member(text, ",\"deposed\":", change.deposed());
    push_number(text, change, step);
    text.text("}");
}

/// Adds the number of a step, unless it is the last of its change.
fn push_number(text: &mut MessageText, change: &Change, step: u8)
    ensures { AppendsText text.old text.new (number_text step change.now) }
{
    if !is_last(change, step) {
        text.text(",\"step\":");
        text.number(step as u64);
    }
}
