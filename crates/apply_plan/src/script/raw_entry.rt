//! An entry of a script, before its texts are copied.

ghost use Rattle.std.specs.Prelude.{◌≡◌, ◌<◌, ◌≤◌, Err, IfOk, OnOk, length, map, option_map};
ghost use Rattle.std.specs.List.{enumerate_from, list_any, zip};
ghost use Rattle.serde_json.specs.Data.{Data};
ghost use Rattle.apply_json.specs.Verbatim.{IsMixedRead};
ghost use Rattle.apply_json.specs.Tokens.{IsNoValue};
ghost use Rattle.apply_plan.specs.Script.Entry.{entry_of, is_verbatim_name};
ghost use Rattle.apply_plan.specs.Script.Members.{entry_read};
ghost use Rattle.apply_plan.specs.Script.Limit.{exceeds};
ghost use Rattle.apply_plan.specs.Script.Refusals.{fault_of_steps, misplaces_provisioners, passes, warns_not_a_read};
ghost use Rattle.apply_plan.specs.Script.RawView.{entry_view, step_view, waits_within};

use crate::script::entry_slots::EntrySlots;
use crate::script::limit::Limit;
use crate::script::raw_step::RawStep;
use crate::script::script_error::ScriptError;
use apply_json::{ReadFault, Reader, non_empty, read_object};
use apply_model::StepKind;
use std::alloc::Global;

/// An entry whose members are all valid. Its change is not known yet.
#[derive(Drop)]
pub struct RawEntry<'a> {
    pub address: &'a str,
    pub deposed: Option<&'a str>,
    pub steps: Vec<RawStep<'a>>,
}

impl<'a> RawEntry<'a> {
    /// Reads an entry. `None` means that it is invalid.
    ///
    /// `Err` means that the text is not JSON, or that memory was refused.
    pub fn read(
        alloc: Global,
        reader: &mut Reader<'a>,
        depth: usize,
    ) -> Result<Option<RawEntry<'a>>, ReadFault>
        ensures ok { IfOk result (λ answer. (d : Data) × IsMixedRead is_verbatim_name depth reader.old d reader.new
            × (option_map entry_view answer ≡ entry_of d)) }
        ensures shorter { OnOk result (length reader.new < length reader.old) }
        ensures err { result ≡ Err ReadFault.NotJson → IsNoValue depth reader.old }
    {
        let mut slots = EntrySlots::new();
        let read = read_object(alloc, reader, depth, &mut slots);
        read.and(Ok(RawEntry::of(slots)))
    }

    /// Checks the members. `None` means that one is invalid or missing.
    fn of(slots: EntrySlots<'a>) -> Option<RawEntry<'a>>
        ensures { option_map entry_view result ≡ entry_read slots.entry }
    {
        let texts = slots.address.text().zip(slots.deposed.text_or(""));
        let Some(((address, deposed), steps)) = texts.zip(slots.steps) else {
            return None;
        };
        Some(RawEntry {
            address,
            deposed: non_empty(deposed),
            steps,
        })
    }

    /// The first fault of the steps of entry `number`, by the steps of its change.
    ///
    /// `kinds` are the kinds of these steps. `is_deposed` states whether the change is for a
    /// deposed object.
    #[tactic(auto, unfolding(crate::specs::Script::Refusals::fault_of_steps))]
    pub fn fault(&self, number: u32, is_deposed: bool, kinds: &[StepKind]) -> Option<ScriptError>
        ensures { result ≡ fault_of_steps number is_deposed kinds.now (map step_view self.now.steps.items) }
    {
        if self.steps.len() > kinds.len() {
            Some(ScriptError::TooManySteps(number))
        } else if exceeds_any(Limit::Seconds, &self.steps) {
            Some(ScriptError::SecondsRange(number))
        } else if exceeds_any(Limit::Provisioners, &self.steps) {
            Some(ScriptError::TooManyProvisioners(number))
        } else if exceeds_any(Limit::Output, &self.steps) {
            Some(ScriptError::TooMuchOutput(number))
        } else if misplaces_any_provisioners(is_deposed, kinds, &self.steps) {
            Some(ScriptError::NotACreate(number))
        } else if warns_any_not_a_read(kinds, &self.steps) {
            Some(ScriptError::WarnsNotARead(number))
        } else {
            None
        }
    }

    /// How many items the `after` lists of the entry have. `None` means more than `limit`.
    pub fn count_of_waits(&self, limit: usize) -> Option<usize>
        ensures { result ≡ waits_within limit self.now.steps.items }
    {
        let mut left = limit;
        for step in &self.steps {
            if step.after.len() > left {
                return None;
            }
            left -= step.after.len();
        }
        Some(limit - left)
    }
}

/// Whether a step exceeds the limit.
fn exceeds_any(limit: Limit, steps: &[RawStep<'_>]) -> bool
    ensures { result ≡ list_any (λ step. passes (exceeds limit) (step_view step)) steps.now }
{
    steps.iter().any(|step| step.exceeds(limit))
}

/// Whether a step has provisioners that it cannot run.
fn misplaces_any_provisioners(is_deposed: bool, kinds: &[StepKind], steps: &[RawStep<'_>]) -> bool
    requires { length steps.now ≤ length kinds.now }
    ensures { result
        ≡ list_any (misplaces_provisioners is_deposed) (zip (enumerate_from 0 kinds.now) (map step_view steps.now)) }
{
    for (number, step) in steps.iter().enumerate() {
        if step.misplaces_provisioners(is_deposed, number, kinds[number]) {
            return true;
        }
    }
    false
}

/// Whether a step other than a read fails with only a warning.
fn warns_any_not_a_read(kinds: &[StepKind], steps: &[RawStep<'_>]) -> bool
    requires { length steps.now ≤ length kinds.now }
    ensures { result ≡ list_any warns_not_a_read (zip (enumerate_from 0 kinds.now) (map step_view steps.now)) }
{
    for (number, step) in steps.iter().enumerate() {
        if step.warns_not_a_read(kinds[number]) {
            return true;
        }
    }
    false
}
