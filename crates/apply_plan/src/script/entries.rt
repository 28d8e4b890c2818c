//! Reads the entries of a script into outcomes of steps.

ghost use Rattle.std.specs.Prelude.{◌≡◌, ◌+◌, ◌<◌, ◌≤◌, [], IfOk, List, OnOk, length};
ghost use Rattle.serde_json.specs.Data.{Data};
ghost use Rattle.apply_model.specs.Script.Limits.{max_waits};
ghost use Rattle.apply_plan.specs.Results.{Gives};
ghost use Rattle.apply_plan.specs.Script.Entry.{is_verbatim_name};
ghost use Rattle.apply_plan.specs.Script.EntriesView.{AreCovered, HoldsEntries, StoresOneMore};
ghost use Rattle.apply_plan.specs.Script.NeverBeginning.{never_beginning_in};
ghost use Rattle.apply_plan.specs.Script.OutcomeMap.{by_number, script_of_entries};

use crate::script::entry_resolution::resolve_entry;
use crate::script::raw_entry::RawEntry;
use crate::script::script_error::ScriptError;
use crate::zip_results::zip_results;
use apply_json::{Collector, ReadFault, Reader, skip_member};
use apply_model::{Plan, Script, StepOutcomes};
use apply_resolve::{ChangeNumbers, all_unreachable, first_unreachable};
use std::alloc::{AllocError, Global};

/// The outcomes that were read, up to the first faulty entry.
#[derive(Drop)]
pub struct Entries<'a> {
    plan: &'a Plan,
    numbers: ChangeNumbers<'a>,
    /// The outcomes of the steps of each change, by the number of the change.
    outcomes: Vec<Option<StepOutcomes>>,
    /// For each entry, the number of its change and how many steps it states.
    step_counts: Vec<(u32, u8)>,
    /// How many items all `after` lists have together.
    waits: usize,
    fault: Option<ScriptError>,
}

impl<'a> Entries<'a> {
    /// The state before any entry was read. `Err` means that memory was refused.
    pub fn new(alloc: Global, plan: &'a Plan) -> Result<Entries<'a>, AllocError>
        ensures { IfOk result (λ entries. (entries.plan ≡ plan.entry) × HoldsEntries entries []) }
    {
        let (numbers, outcomes) = zip_results(
            ChangeNumbers::of(alloc, plan),
            nothing(alloc, plan.len()),
        )?;
        let step_counts = Vec::new(alloc);
        Ok(Entries {
            plan,
            numbers,
            outcomes,
            step_counts,
            waits: 0,
            fault: None,
        })
    }

    /// Forgets all entries, for a second member `changes`.
    ///
    /// The time grows with the entries that were read, not with the plan.
    pub fn forget(&mut self)
        requires { (ds : List Data) × HoldsEntries self.old ds }
        ensures plan { self.new.plan ≡ self.old.plan }
        ensures none { HoldsEntries self.new [] }
    {
        clear_outcomes(&mut self.outcomes, &mut self.step_counts);
        self.waits = 0;
        self.fault = None;
    }

    /// Stores the outcomes of an entry. `Err` means that memory was refused.
    fn store(&mut self, change: u32, steps: StepOutcomes, waits: usize) -> Result<(), AllocError>
        requires change { change < length self.old.outcomes.items }
        requires steps { length steps ≤ 2 }
        requires waits { self.old.waits + waits ≤ max_waits }
        ensures { OnOk result (StoresOneMore self.old change steps waits self.new) }
    {
        self.step_counts.push((change, steps.len() as u8))?;
        self.waits += waits;
        self.outcomes[change as usize] = Some(steps);
        Ok(())
    }

    /// Builds the script.
    ///
    /// `Err` is the first fault of an entry, `ScriptError::NeverBegins` for the first entry with a
    /// step that can never start, or `ScriptError::Memory`.
    pub fn script(self, alloc: Global) -> Result<Script, ScriptError>
        requires { (ds : List Data) × HoldsEntries self ds }
        ensures { (ds : List Data) → HoldsEntries self.entry ds → Gives ScriptError.Memory (λ script. script) result
            (script_of_entries self.entry.plan.now ds) }
    {
        if let Some(fault) = self.fault {
            return Err(fault);
        }
        let script = Script::new(self.outcomes);
        match first_unreachable(alloc, &script, self.plan.len(), &self.step_counts)? {
            Some(number) => Err(ScriptError::NeverBegins(number)),
            None => Ok(script),
        }
    }

    /// The numbers of all entries with a step that can never start.
    ///
    /// `Err` is the first fault of an entry, or `ScriptError::Memory`.
    pub fn never_beginning(self, alloc: Global) -> Result<Vec<u32>, ScriptError>
        requires { (ds : List Data) × HoldsEntries self ds }
        ensures { (ds : List Data) → HoldsEntries self.entry ds → Gives ScriptError.Memory (λ numbers. numbers.items) result
            (never_beginning_in self.entry.plan.now ds) }
    {
        if let Some(fault) = self.fault {
            return Err(fault);
        }
        let script = Script::new(self.outcomes);
        Ok(all_unreachable(alloc, &script, self.plan.len(), &self.step_counts)?)
    }
}

impl<'a> Collector<'a> for Entries<'a> {
    ghost is_verbatim = { is_verbatim_name };

    ghost holds = { λ start entries ds. (entries.plan ≡ start.plan) × HoldsEntries entries ds };

    fn take(
        &mut self,
        alloc: Global,
        reader: &mut Reader<'a>,
        depth: usize,
    ) -> Result<(), ReadFault> {
        if self.fault.is_some() {
            return skip_member(reader, depth);
        }
        let entry = RawEntry::read(alloc, reader, depth)?;
        let number = self.step_counts.len() as u32;
        let outcomes = resolve_entry(
            alloc,
            number,
            self.waits,
            &entry,
            self.plan,
            &self.numbers,
            &self.outcomes,
        );
        // Dropped here, so that each way out below needs no drop of its own.
        drop(entry);
        match outcomes {
            Ok((change, steps, waits)) => {
                self.store(change, steps, waits)?;
                Ok(())
            }
            Err(ScriptError::Memory) => Err(ReadFault::Memory),
            Err(fault) => {
                self.fault = Some(fault);
                Ok(())
            }
        }
    }
}

/// A list of `count` changes without outcomes. `Err` means that memory was refused.
fn nothing(alloc: Global, count: u32) -> Result<Vec<Option<StepOutcomes>>, AllocError>
    ensures { IfOk result (λ outcomes. outcomes.items ≡ by_number count []) }
{
    let mut outcomes = Vec::with_capacity(alloc, count as usize)?;
    for _ in 0..count {
        outcomes.push(None)?;
    }
    Ok(outcomes)
}

/// Removes all outcomes. Each change with outcomes must be in `step_counts`.
fn clear_outcomes(outcomes: &mut [Option<StepOutcomes>], step_counts: &mut Vec<(u32, u8)>)
    requires { AreCovered outcomes.old step_counts.old.items }
    ensures outcomes { outcomes.new ≡ by_number (length outcomes.old) [] }
    ensures step_counts { step_counts.new.items ≡ [] }
{
    while let Some((change, _steps)) = step_counts.pop() {
        outcomes[change as usize] = None;
    }
}
