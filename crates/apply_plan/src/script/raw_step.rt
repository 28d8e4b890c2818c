//! A step of a script, before its texts are copied.

ghost use Rattle.std.specs.Prelude.{◌≡◌, ℕ, IfOk, IfSome, map, option_map};
ghost use Rattle.apply_json.specs.ShallowView.{shallow_view};
ghost use Rattle.apply_plan.specs.Script.Entry.{EntryStep, step_from};
ghost use Rattle.apply_plan.specs.Script.Members.{flag_read, is_present, outcome_by, step_read};
ghost use Rattle.apply_model.specs.Plan.StepKind.{is_kind};
ghost use Rattle.apply_model.specs.Script.Outcome.{IsBounded};
ghost use Rattle.apply_plan.specs.Script.Limit.{exceeds};
ghost use Rattle.apply_plan.specs.Script.Refusals.{misplaces_provisioners, passes, takes_provisioners, warns_not_a_read};
ghost use Rattle.apply_plan.specs.Script.RawView.{ending_view, entry_step_view, outcome_view, provisioner_view, step_view};
ghost use Rattle.apply_plan.specs.Script.WaitedStep.{with_waits};

use crate::script::limit::Limit;
use crate::script::list_item::ListItem;
use crate::script::raw_ending::RawEnding;
use crate::script::raw_outcome::RawOutcome;
use crate::script::raw_provisioner::RawProvisioner;
use crate::script::raw_wait::RawWait;
use crate::script::step_slots::StepSlots;
use apply_json::{ReadFault, Reader, Shallow, read_object};
use apply_model::{ScriptStep, StepKind, Waits};
use std::alloc::{AllocError, Global};

/// A step whose members are all valid.
#[derive(Drop)]
pub struct RawStep<'a> {
    /// The outcome. `None` means that the step is skipped.
    pub outcome: Option<RawOutcome<'a>>,
    /// Not limited yet: [`crate::script::raw_entry`] counts the items of an entry later.
    pub after: Vec<RawWait<'a>>,
}

impl<'a> ListItem<'a> for RawStep<'a> {
    ghost Seen = { EntryStep };

    ghost see = { entry_step_view };

    ghost part = { step_from };

    fn read(
        alloc: Global,
        reader: &mut Reader<'a>,
        depth: usize,
    ) -> Result<Option<RawStep<'a>>, ReadFault> {
        let mut slots = StepSlots::new(alloc);
        let read = read_object(alloc, reader, depth, &mut slots);
        read.and(Ok(RawStep::of(slots)))
    }
}

impl<'a> RawStep<'a> {
    /// Checks the members. `None` means that one is invalid or missing.
    fn of(slots: StepSlots<'a>) -> Option<RawStep<'a>>
        ensures { option_map entry_step_view result ≡ step_read slots.entry }
    {
        let skipped = flag_or_false(slots.skipped);
        let ending = RawEnding::of_members(slots.id, slots.warning, slots.failed);
        let outcome = outcome_of(skipped, slots.seconds, ending, slots.provisioners)?;
        let after = slots.after?;
        Some(RawStep { outcome, after })
    }

    /// Whether the step exceeds the limit. A skipped step exceeds none.
    pub fn exceeds(&self, limit: Limit) -> bool
        ensures { result ≡ passes (exceeds limit) (step_view self.now) }
    {
        match &self.outcome {
            Some(outcome) => outcome.exceeds(limit),
            None => false,
        }
    }

    /// Whether the step has provisioners that it cannot run.
    ///
    /// `number` and `kind` describe the step in its change. `is_deposed` states whether the change
    /// is for a deposed object.
    pub fn misplaces_provisioners(&self, is_deposed: bool, number: usize, kind: StepKind) -> bool
        ensures { result ≡ misplaces_provisioners is_deposed ((number, kind), step_view self.now) }
    {
        match &self.outcome {
            Some(outcome) => outcome.has_provisioners()
                && !takes_provisioners(is_deposed, number, kind),
            None => false,
        }
    }

    /// Whether the step, of this kind, is not a read and fails with only a warning.
    pub fn warns_not_a_read(&self, kind: StepKind) -> bool
        ensures { (number : ℕ) → result ≡ warns_not_a_read ((number, kind), step_view self.now) }
    {
        match &self.outcome {
            Some(outcome) => outcome.only_warns() && !is_read(kind),
            None => false,
        }
    }

    /// The step with copies of its texts, waiting for `after`. `Err` means that memory was refused.
    pub fn copied(&self, alloc: Global, after: Waits) -> Result<ScriptStep, AllocError>
        requires { IfSome (step_view self.now) IsBounded }
        ensures { IfOk result (λ copy. copy ≡ with_waits (step_view self.now) after) }
    {
        match &self.outcome {
            Some(outcome) => match outcome.copied(alloc, after) {
                Ok(copy) => Ok(ScriptStep::Answered(copy)),
                Err(refused) => Err(refused),
            },
            None => Ok(ScriptStep::Skipped { after }),
        }
    }
}

/// Combines the parts of a step into its outcome. `Some(None)` means that the step is skipped.
///
/// `None` means that a part is invalid, that a skipped step has further members, or that a step
/// whose provider fails has provisioners.
fn outcome_of<'a>(
    skipped: Option<bool>,
    seconds: Shallow<'a>,
    ending: Option<RawEnding<'a>>,
    provisioners: Option<Vec<RawProvisioner<'a>>>,
) -> Option<Option<RawOutcome<'a>>>
    ensures { option_map (λ outcome. option_map outcome_view outcome) result
        ≡ outcome_by skipped (shallow_view seconds.entry) (option_map ending_view ending.entry)
        (option_map (λ input. map provisioner_view input.items) provisioners.entry) }
{
    // Not joined by `zip`: an ending is large to move.
    let Some(provisioners) = provisioners else {
        return None;
    };
    let Some(ending) = ending else {
        return None;
    };
    let Some(skipped) = skipped else {
        return None;
    };
    if skipped {
        if is_present(seconds) || !ending.is_bare() || !provisioners.is_empty() {
            return None;
        }
        return Some(None);
    }
    let Some(seconds) = seconds.whole() else {
        return None;
    };
    match RawOutcome::new(seconds, ending, provisioners) {
        Some(outcome) => Some(Some(outcome)),
        None => None,
    }
}

/// The flag, or `false` if it is absent. `None` means a value of another type.
fn flag_or_false(input: Shallow<'_>) -> Option<bool>
    ensures { result ≡ flag_read (shallow_view input.entry) }
{
    match input {
        Shallow::Absent => Some(false),
        Shallow::Bool(flag) => Some(flag),
        _ => None,
    }
}

/// Whether the member is present and not `null`.
fn is_present(input: Shallow<'_>) -> bool
    ensures { result ≡ is_present (shallow_view input.entry) }
{
    match input {
        Shallow::Absent => false,
        _ => true,
    }
}

/// Whether a step can run provisioners, by its number and kind in its change.
///
/// A create can. A delete can if it is the first step of a change whose object is not deposed.
fn takes_provisioners(is_deposed: bool, number: usize, kind: StepKind) -> bool
    ensures { result ≡ takes_provisioners is_deposed (number, kind) }
{
    kind.is_create() || kind.is_delete() && number == 0 && !is_deposed
}

/// Whether the kind is a read.
fn is_read(kind: StepKind) -> bool
    ensures { result ≡ is_kind StepKind.Read kind }
{
    match kind {
        StepKind::Read => true,
        StepKind::Create | StepKind::Update | StepKind::Delete => false,
    }
}
