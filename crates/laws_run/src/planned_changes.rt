//! Laws of the lines of planned changes in Terraform's form. Each function does nothing: its
//! contract is the law.

ghost use Rattle.std.specs.Prelude.{List, Ok, Some, map, ℕ, ◌≡◌, flat_map, length, ◌++◌, ◌+◌};
ghost use Rattle.std.specs.List.{enumerate_from, AllByRecursion, concat};
ghost use Rattle.serde_json.specs.Data.{Data};
ghost use Rattle.apply_json.specs.Tree.{tree_of};
ghost use Rattle.apply_model.specs.Plan.SavedPlan.{SavedPlan};
ghost use Rattle.apply_model.specs.Script.OutcomeMap.{OutcomeMap};
ghost use Rattle.apply_plan.specs.Plan.SavedPlan.{plan_of};
ghost use Rattle.apply_events.specs.declared.event.Event.{Event};
ghost use Rattle.apply_text.specs.declared.operation.Operation.{Operation};
ghost use Rattle.apply_plan_terraform.specs.Changes.{elements_of};
ghost use Rattle.apply_plan_terraform.specs.ReadDetails.{DetailsOfPlan, details_of};
ghost use Rattle.apply_writer.specs.Stream.Terraform.{StreamExtras, planned_at, terraform_head_chunks};
ghost use Rattle.laws_run.specs.PlannedWords.{HaveLinesInTheirWords, OnlyPlannedHaveType};
ghost use Rattle.apply_text.specs.Laws.{line_feeds};
ghost use Rattle.apply_model.specs.declared.details.change_details.ChangeDetails.{ChangeDetails};
ghost use Rattle.apply_text_terraform.specs.Lines.{version_text};
ghost use Rattle.laws_run.specs.PlannedChanges.{AllButNoOpsArePlanned, IsPlannedChangeLine, planned_in};

/// In Terraform's form only the lines of planned changes have the type `planned_change`.
///
/// The stream is the version, the lines of planned changes, and the lines of events, of diagnostics
/// of no step and of the end. A line has the type that its last member names.
pub fn only_planned_changes_have_type_planned_change()
    ensures { (plan : SavedPlan) (script : OutcomeMap) (extras : StreamExtras) (start : ℕ) (operation : Operation) (taken : List Event)
        → OnlyPlannedHaveType plan script extras start operation taken }
{}

/// Each element of `resource_changes` has a line with its address and the word for its `actions`.
/// The lines have the order of the elements.
///
/// The word is the action itself for `create`, `read`, `update` and `delete`, `replace` for two
/// actions, and `remove` for `forget`. An element whose `actions` are `["no-op"]` has no line.
pub fn planned_changes_name_the_action_of_the_plan()
    ensures { (bytes : List ℕ) (plan : SavedPlan) (details : DetailsOfPlan) (start : ℕ) → plan_of bytes ≡ Ok plan
        → details_of bytes ≡ Some details
        → (tree : Data) × (tree_of bytes ≡ Some tree)
        × HaveLinesInTheirWords start (elements_of tree) (map (planned_at start details.changes) (enumerate_from 0 plan.changes)) }
{}

/// A stream in Terraform's form begins with the version and one line for each planned change, in
/// the plan's order.
///
/// Each of these lines is a message of the type `planned_change`, names its change, and has one
/// line feed.
pub fn each_planned_change_has_one_line()
    ensures pieces { (plan : SavedPlan) (details : List ChangeDetails) (start : ℕ)
        → concat (terraform_head_chunks plan details start)
        ≡ version_text plan start ++ flat_map (planned_at start details) (planned_in details plan) }
    ensures planned { (plan : SavedPlan) (details : List ChangeDetails) (start : ℕ)
        → AllByRecursion (λ p. IsPlannedChangeLine start p.1 (planned_at start details p)) (planned_in details plan) }
    ensures lines { (plan : SavedPlan) (details : List ChangeDetails) (start : ℕ)
        → line_feeds (concat (terraform_head_chunks plan details start)) ≡ 1 + length (planned_in details plan) }
{}

/// Each element of `resource_changes` is planned unless its `actions` are `["no-op"]`.
///
/// The planned changes have the order of the elements, and there are no others. The plan was read.
pub fn all_but_no_ops_are_planned()
    ensures { (bytes : List ℕ) (plan : SavedPlan) (details : DetailsOfPlan) → plan_of bytes ≡ Ok plan
        → details_of bytes ≡ Some details → AllButNoOpsArePlanned bytes plan details.changes }
{}
