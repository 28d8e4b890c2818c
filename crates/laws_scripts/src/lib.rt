//! Laws of scripts that were read: each outcome is one that its step can have.
//!
//! Each function does nothing: its contract is the law. No program links this crate.
#![tactic(auto)]

ghost use Rattle.std.specs.Prelude.{◌≡◌, ℕ, List, Ok, Some, slice_get};
ghost use Rattle.apply_model.specs.Plan.ResourceChange.{ResourceChange};
ghost use Rattle.apply_model.specs.Plan.SavedPlan.{SavedPlan};
ghost use Rattle.apply_model.specs.Script.OutcomeMap.{OutcomeMap, outcome_of};
ghost use Rattle.apply_model.specs.declared.plan.step_kind.StepKind.{StepKind};
ghost use Rattle.apply_plan.specs.Plan.SavedPlan.{plan_of};
ghost use Rattle.apply_plan.specs.Script.OutcomeMap.{script_of};
ghost use Rattle.laws_scripts.specs.Kinds.{AreKinds};
ghost use Rattle.laws_scripts.specs.Outcomes.{IsOfStep};

/// Each outcome of a script that was read is one that its step can have: provisioners stand only
/// where they may, and print in time; no text is empty that must not be; only a read only warns.
pub fn each_outcome_of_a_read_script_is_one_of_its_step()
    ensures { (plan : SavedPlan) (bytes : List ℕ) (script : OutcomeMap) (c k : ℕ) (change : ResourceChange) (kind : StepKind)
        → script_of plan bytes ≡ Ok script
        → slice_get plan.changes c ≡ Some change → slice_get change.steps k ≡ Some kind
        → IsOfStep change k kind (outcome_of script c k) }
{}

/// A change of a plan that was read has no step, one, or two of different kinds.
pub fn steps_of_a_change_are_of_different_kinds()
    ensures { (bytes : List ℕ) (plan : SavedPlan) (c : ℕ) (change : ResourceChange)
        → plan_of bytes ≡ Ok plan → slice_get plan.changes c ≡ Some change → AreKinds change.steps }
{}
