//! Laws of plans that were read. Each function does nothing: its contract is the law.

ghost use Rattle.std.specs.Prelude.{◌≡◌, ℕ, List, Ok};
ghost use Rattle.std.specs.List.{AllByRecursion};
ghost use Rattle.serde_json.specs.Data.{Data};
ghost use Rattle.laws_run.specs.Plans.{HasRelativeAddress, NamesEachObjectOnce, PlansAgree};
ghost use Rattle.apply_model.specs.Plan.SavedPlan.{SavedPlan};
ghost use Rattle.apply_plan.specs.Plan.SavedPlan.{plan_of, plan_of_tree};

/// A plan that was read changes each object once: no two changes have the same address and the same
/// deposed key.
pub fn each_object_is_named_once()
    ensures { (bytes : List ℕ) (plan : SavedPlan) → plan_of bytes ≡ Ok plan
        → NamesEachObjectOnce plan.changes }
{}

/// In a plan that was read, the module's address, a dot and the relative address make the address.
/// The relative address is never empty.
pub fn relative_addresses_join_their_module()
    ensures { (bytes : List ℕ) (plan : SavedPlan) → plan_of bytes ≡ Ok plan
        → AllByRecursion HasRelativeAddress plan.changes }
{}

/// Unknown members of a plan are ignored, wherever they stand.
///
/// Two trees are read alike if they agree on the members that are read. These stand at the top
/// level, in the elements, in `change` and in `before`.
pub fn unknown_members_of_a_plan_are_ignored()
    ensures { (one other : Data) → PlansAgree one other → plan_of_tree one ≡ plan_of_tree other }
{}
