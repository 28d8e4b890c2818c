//! Laws that compare findings with what a run refuses.

ghost use Rattle.std.specs.Prelude.{◌≡◌, ◌<◌, ◌++◌, ◌||◌, ℕ, List, Bool, Err, None, Ok, Option, Some, false, is_err, length, not, true};
ghost use Rattle.apply_model.specs.Plan.SavedPlan.{SavedPlan};
ghost use Rattle.apply_model.specs.Script.OutcomeMap.{OutcomeMap};
ghost use Rattle.apply_plan.specs.Plan.SavedPlan.{plan_of};
ghost use Rattle.apply_plan.specs.declared.plan.plan_error.PlanError.{PlanError};
ghost use Rattle.apply_plan.specs.Script.NeverBeginning.{never_beginning_of};
ghost use Rattle.apply_plan.specs.Script.OutcomeMap.{script_of};
ghost use Rattle.apply_plan.specs.declared.script.script_error.ScriptError.{ScriptError};
ghost use Rattle.apply_plan_terraform.specs.Extras.{extras_of_bytes};
ghost use Rattle.apply_plan_terraform.specs.ReadDetails.{DetailsOfPlan, details_of};
ghost use Rattle.apply_planning_script.specs.Told.{told_by_script};
ghost use Rattle.input_validate.specs.declared.form.Form.{Form};
ghost use Rattle.input_validate.specs.Doubts.{doubts};
ghost use Rattle.input_validate.specs.InForm.{findings_before_doubts, findings_in};
ghost use Rattle.laws_validate.specs.Laws.{HasObjectsOf, IsPlannerOf, Planner, are_script, has_refusal, has_refusal_in, has_refusal_of, has_refusal_to, has_refusal_to_planned, has_script_refusal, reads_extras, reads_planning, run_refuses, run_refuses_in};
ghost use Rattle.input_validate.specs.Whole.{after_first, entry_of_refusal, given_findings, plan_findings, refused_for, script_findings, stuck_entries, waits_without_lanes};

/// A plan has an error if and only if a run refuses the plan.
pub fn findings_of_plans_are_refusals()
    ensures { (bytes : List ℕ) → has_refusal (plan_findings bytes) ≡ is_err (plan_of bytes) }
{}

/// Without a look at a plan, a script has an error if and only if it is no script, or a step goes
/// beyond a limit. It is no script if its bytes are too many or not JSON, or if its top level or an
/// entry is malformed.
pub fn findings_of_scripts_are_refusals()
    ensures { (bytes : List ℕ) → has_refusal (script_findings None bytes) ≡ not (are_script bytes) }
{}

/// A plan, or a script for it, has an error if and only if a run of the same bytes refuses one of
/// them. `lanes` tells whether the run has `--parallelism`; without it no step may wait.
pub fn findings_are_refusals_of_a_run()
    ensures { (lanes : Bool) (plan : List ℕ) (script : Option (List ℕ))
        → (has_refusal (plan_findings plan) || has_refusal (given_findings lanes (plan_of plan) script)) ≡ run_refuses lanes plan script }
{}

/// The same holds in each form. A run in Terraform's form also refuses wrong `outputs` and
/// `diagnostics` at the top of the script. A command that makes its plan also refuses a wrong
/// `planning`, by the objects that the plan has before it is made.
pub fn findings_are_refusals_of_a_run_in_its_form()
    ensures { (form : Form) (planner : Planner) (lanes : Bool) (plan : List ℕ) (script : Option (List ℕ)) → IsPlannerOf form plan planner
        → (has_refusal (plan_findings plan) || has_refusal (findings_in form lanes plan script)) ≡ run_refuses_in form planner lanes plan script }
{}

/// Doubts follow all other findings of a script. There are none if a run in this form refuses the
/// plan or the script.
pub fn doubts_are_of_accepted_scripts()
    ensures refused { (form : Form) (planner : Planner) (lanes : Bool) (plan : List ℕ) (script : Option (List ℕ)) → IsPlannerOf form plan planner
        → run_refuses_in form planner lanes plan script ≡ true → findings_in form lanes plan script ≡ findings_before_doubts form lanes plan script }
    ensures accepted { (form : Form) (planner : Planner) (lanes : Bool) (plan : List ℕ) (script : Option (List ℕ)) → IsPlannerOf form plan planner
        → run_refuses_in form planner lanes plan script ≡ false → findings_in form lanes plan script
        ≡ findings_before_doubts form lanes plan script ++ doubts form lanes plan script }
{}

/// If a run refuses a script for a plan, an error is reported in the entry that the refusal names.
/// This holds whatever other errors there are.
pub fn the_refusal_of_a_run_is_reported_in_its_entry()
    ensures { (lanes : Bool) (plan : SavedPlan) (bytes : List ℕ) (refusal : ScriptError) (n : ℕ) → script_of plan bytes ≡ Err refusal
        → entry_of_refusal refusal ≡ Some n → has_refusal_in n (given_findings lanes (Ok plan) (Some bytes)) ≡ true }
{}

/// If a script has no other error, the refusal is reported after the warnings. Each further entry
/// with a step that can never start follows, and then waits without lanes.
pub fn the_refusal_of_a_run_is_reported()
    ensures { (lanes : Bool) (plan : SavedPlan) (bytes : List ℕ) (refusal : ScriptError) → has_refusal (script_findings (Some plan.changes) bytes) ≡ false
        → script_of plan bytes ≡ Err refusal → given_findings lanes (Ok plan) (Some bytes)
        ≡ script_findings (Some plan.changes) bytes ++ (refused_for refusal ++ stuck_entries (after_first (never_beginning_of plan bytes))
        ++ waits_without_lanes lanes (Some plan.changes) bytes) }
{}

/// If a run refuses a script for steps that can never start, each entry with such a step is
/// reported. The entries follow the warnings, in their order. Waits without lanes come last.
pub fn each_entry_that_never_begins_is_reported()
    ensures { (lanes : Bool) (plan : SavedPlan) (bytes numbers : List ℕ) → never_beginning_of plan bytes ≡ Ok numbers → 0 < length numbers
        → given_findings lanes (Ok plan) (Some bytes)
        ≡ script_findings (Some plan.changes) bytes ++ (stuck_entries numbers ++ waits_without_lanes lanes (Some plan.changes) bytes) }
{}

/// If a run in Terraform's form refuses `outputs` or `diagnostics`, an error is reported where the
/// refusal points. That is the output or the diagnostic with its number, or the member itself.
pub fn the_refusal_of_a_run_in_terraforms_form_is_reported()
    ensures { (form : Form) (lanes : Bool) (plan bytes : List ℕ) (saved : SavedPlan) (script : OutcomeMap) (details : DetailsOfPlan) (refusal : ScriptError)
        → reads_extras form ≡ true → plan_of plan ≡ Ok saved → script_of saved bytes ≡ Ok script → details_of plan ≡ Some details
        → extras_of_bytes details.outputs bytes ≡ Err refusal → has_refusal_to refusal (findings_in form lanes plan (Some bytes)) ≡ true }
{}

/// If a command that makes its plan refuses `planning` of a script, an error is reported where the
/// refusal points. That is the entry with its number, or the member itself.
pub fn the_refusal_of_planning_is_reported()
    ensures { (form : Form) (planner : Planner) (lanes : Bool) (plan bytes : List ℕ) (saved : SavedPlan) (script : OutcomeMap) (refusal : ScriptError)
        → reads_planning form ≡ true → HasObjectsOf plan planner → plan_of plan ≡ Ok saved → script_of saved bytes ≡ Ok script
        → told_by_script planner.rules planner.planned planner.objects (Some bytes) ≡ Err refusal
        → has_refusal_to_planned refusal (findings_in form lanes plan (Some bytes)) ≡ true }
{}

/// If a run refuses a plan, the same error is reported where the refusal points, whatever other
/// errors there are. That is the top, one of three members there, or the element with its number.
pub fn the_refusal_of_a_plan_is_reported()
    ensures { (bytes : List ℕ) (refusal : PlanError) → plan_of bytes ≡ Err refusal → has_refusal_of refusal (plan_findings bytes) ≡ true }
{}

/// If a run refuses a script for a plan, the same error is reported where the refusal points,
/// whatever other errors there are. That is the top, or the entry that the refusal names.
pub fn the_refusal_of_a_script_is_reported()
    ensures { (lanes : Bool) (plan : SavedPlan) (bytes : List ℕ) (refusal : ScriptError) → script_of plan bytes ≡ Err refusal
        → has_script_refusal refusal (given_findings lanes (Ok plan) (Some bytes)) ≡ true }
{}
