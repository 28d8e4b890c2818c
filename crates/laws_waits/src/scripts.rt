//! Scripts that `record` makes of the steps that began.

ghost use Rattle.std.specs.Prelude.{◌≡◌, ℕ, List, Option, Some, false, map, slice_get};
ghost use Rattle.apply_events.specs.Step.{Work};
ghost use Rattle.apply_model.specs.declared.plan.step_kind.StepKind.{StepKind};
ghost use Rattle.apply_model.specs.declared.script.wait.Wait.{Wait};
ghost use Rattle.apply_model.specs.Plan.ResourceChange.{ResourceChange};
ghost use Rattle.apply_model.specs.Plan.SavedPlan.{SavedPlan};
ghost use Rattle.laws_lanes.specs.Alike.{GoesAlike};
ghost use Rattle.laws_record.specs.Writable.{written};
ghost use Rattle.laws_waits.specs.Again.{IsKnown, with_script};
ghost use Rattle.laws_waits.specs.Places.{StandsAt, name_of, place_of};
ghost use Rattle.laws_waits.specs.Scripts.{AreOfPlan, HasStepsThatBegan, recorded_script};
ghost use Rattle.stream_record.specs.EvenScript as even;
ghost use Rattle.stream_record_outcomes.specs.declared.recorded_step.RecordedStep.{RecordedStep};
ghost use Rattle.stream_record_script.specs.Runs.{steps_of_plan};
ghost use Rattle.stream_record_steps.specs.Begun.{Begun};
ghost use Rattle.stream_record_steps.specs.Steps.{planned_steps};
ghost use Rattle.stream_record_waits.specs.Recorded.{AreRecordedWaits};
ghost use Rattle.stream_record_waits.specs.declared.choices.Choices.{Choices};

use laws_lanes::a_step_that_fails_is_never_done;

/// A script and a stream have the steps of a plan in the same order, and each step stands at its
/// place: after the steps of all changes before, and those of its own change before it.
pub fn each_step_of_a_plan_stands_at_its_place()
    ensures in_script { (changes : List ResourceChange) (c k : ℕ) (change : ResourceChange)
        (kind : StepKind) → slice_get changes c ≡ Some change → slice_get change.steps k ≡ Some kind
        → slice_get (even.planned_steps changes) (place_of changes c k)
        ≡ Some (record { change = c; step = k }) }
    ensures in_stream { (changes : List ResourceChange) (c k : ℕ) (change : ResourceChange)
        (kind : StepKind) → slice_get changes c ≡ Some change → slice_get change.steps k ≡ Some kind
        → slice_get (planned_steps changes) (place_of changes c k)
        ≡ Some (record {
          change = change;
          change_number = c;
          number = k;
          place = place_of changes c k;
          kind = kind;
        }) }
    ensures stands { (changes : List ResourceChange) (place : ℕ) (name : Wait)
        → slice_get (even.planned_steps changes) place ≡ Some name → StandsAt changes place name }
    ensures same_order { (changes : List ResourceChange)
        → even.planned_steps changes ≡ map name_of (planned_steps changes) }
{}

/// A recorded script has each step that began, with its outcome and its waits. Each other step is
/// not applied, or waits for a step that failed or did not begin.
pub fn a_recorded_script_has_the_steps_that_began()
    ensures { (plan : SavedPlan) (begun : Begun) (recorded : List (Option RecordedStep))
        (after : List (List ℕ)) → AreOfPlan plan begun recorded after
        → HasStepsThatBegan plan begun recorded after (recorded_script plan begun recorded after) }
{}

/// A work goes alike with the script that `record` makes of its stream, with a graph of its waits.
/// `text`: it goes alike with what the text of the script states, which is what a run reads.
/// `known`: so it does wherever the waits of the script are those of the work, with a graph or
/// without one.
pub fn a_work_goes_alike_with_its_recorded_script()
    ensures script { (work : Work) (lanes : ℕ) (begun : Begun) (recorded : List (Option RecordedStep))
        (graph : List (List ℕ)) (choices : Choices) (after early : List (List ℕ))
        → IsKnown work lanes begun recorded graph → choices.begins ≡ false
        → AreRecordedWaits (steps_of_plan begun recorded) (Some graph) choices after early
        → GoesAlike work (with_script work (recorded_script work.plan begun recorded after)) lanes }
    ensures text { (work : Work) (lanes : ℕ) (begun : Begun) (recorded : List (Option RecordedStep))
        (graph : List (List ℕ)) (choices : Choices) (after early : List (List ℕ))
        → IsKnown work lanes begun recorded graph → choices.begins ≡ false
        → AreRecordedWaits (steps_of_plan begun recorded) (Some graph) choices after early
        → GoesAlike work (with_script work
        (written work.plan.changes (recorded_script work.plan begun recorded after))) lanes }
    ensures known { (work : Work) (lanes : ℕ) (begun : Begun) (recorded : List (Option RecordedStep))
        (after : List (List ℕ)) → IsKnown work lanes begun recorded after
        → GoesAlike work (with_script work
        (written work.plan.changes (recorded_script work.plan begun recorded after))) lanes }
{
    a_step_that_fails_is_never_done();
}
