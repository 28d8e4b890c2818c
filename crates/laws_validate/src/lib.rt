//! Laws of `validate`: it reports an error exactly where a run refuses the plan or the script.
//!
//! Each function does nothing: its contract is the law. No program links this crate.
#![tactic(auto)]

ghost use Rattle.std.specs.Prelude.{◌≡◌, ◌↔◌, [], ◌∷◌, ◌++◌, ℕ, All, Bool, List, Result, Some, false, is_some, length, nat_lt, slice_get, true};
ghost use Rattle.std.specs.List.{Contains};
ghost use Rattle.serde_json.specs.Data.{Data};
ghost use Rattle.apply_json.specs.ShallowView.{members_in};
ghost use Rattle.apply_json.specs.Tree.{tree_of};
ghost use Rattle.apply_model.specs.Plan.SavedPlan.{SavedPlan};
ghost use Rattle.apply_plan.specs.Bytes.{max_bytes};
ghost use Rattle.apply_plan.specs.declared.plan.plan_error.PlanError.{PlanError};
ghost use Rattle.apply_plan.specs.Script.Entry.{diag_from, entry_of, failure_from, output_from, provisioner_from, step_from, wait_from};
ghost use Rattle.apply_plan.specs.Script.OutcomeMap.{script_of_tree};
ghost use Rattle.apply_plan_terraform.specs.Texts.{part_named};
ghost use Rattle.apply_plan_terraform.specs.declared.texts.part.Part.TheVariants as part;
ghost use Rattle.input_validate.specs.Extras.{note_names, plan_output_names};
ghost use Rattle.input_validate.specs.Findings.{is_refusal};
ghost use Rattle.input_validate.specs.InForm.{findings_in};
ghost use Rattle.input_validate.specs.ScriptFindings.{diagnostic_names, entry_names, failure_names, output_names, provisioner_names, step_names, wait_names};
ghost use Rattle.input_validate.specs.Rules.{is_known, texts_in};
ghost use Rattle.input_validate.specs.Whole.{given_findings, plan_findings};
ghost use Rattle.input_validate.specs.declared.findings.name.Name.{Name};
ghost use Rattle.input_validate.specs.declared.findings.path.Segment.{Segment};
ghost use Rattle.input_validate.specs.declared.findings.path.Segment.TheVariants.{Other};
ghost use Rattle.input_validate.specs.declared.form.Form.{Form};
ghost use Rattle.laws_validate.specs.Paths.{ArePlaced, value_at};
ghost use Rattle.laws_validate.specs.Reading.{Counts, without_unknown};
ghost use Rattle.laws_validate.specs.IgnoredMembers.{IsRead, IsIgnored, warning_at};
ghost use Rattle.laws_validate.specs.IgnoredInForm.{IsReadIn};

mod against_runs;

pub use against_runs::{
    doubts_are_of_accepted_scripts, each_entry_that_never_begins_is_reported,
    findings_are_refusals_of_a_run, findings_are_refusals_of_a_run_in_its_form,
    findings_of_plans_are_refusals, findings_of_scripts_are_refusals,
    the_refusal_of_a_plan_is_reported, the_refusal_of_a_run_in_terraforms_form_is_reported,
    the_refusal_of_a_run_is_reported, the_refusal_of_a_run_is_reported_in_its_entry,
    the_refusal_of_a_script_is_reported, the_refusal_of_planning_is_reported,
};

/// The path of each finding of a plan leads to a value of its tree. If a member is missing, the
/// path leads to the object that lacks it. No finding of a plan is a warning.
pub fn findings_in_plans_are_placed()
    ensures placed { (bytes : List ℕ) → ArePlaced (tree_of bytes) (plan_findings bytes) }
    ensures refusals { (bytes : List ℕ) → All (λ finding. is_refusal finding ≡ true) (plan_findings bytes) }
{}

/// The path of each finding of a script leads to a value of its tree. If a member is missing, the
/// path leads to the object that lacks it. This holds with a plan and without.
pub fn findings_in_scripts_are_placed()
    ensures { (lanes : Bool) (plan : Result SavedPlan PlanError) (script : List ℕ)
        → ArePlaced (tree_of script) (given_findings lanes plan (Some script)) }
{}

/// The warning that a member is not read is reported for a member of a script if and only if no run
/// reads that member (`exactly`). So each member of an object that a run reads has this warning,
/// unless the run knows its name (`each`). The script has to be no larger than a run reads.
pub fn warnings_report_what_no_run_reads()
    ensures exactly { (lanes : Bool) (plan : Result SavedPlan PlanError) (script : List ℕ) (tree : Data) (path : List Segment)
        → nat_lt max_bytes (length script) ≡ false → tree_of script ≡ Some tree
        → Contains (given_findings lanes plan (Some script)) (warning_at path) ↔ IsIgnored IsRead tree path }
    ensures each { (lanes : Bool) (plan : Result SavedPlan PlanError) (script : List ℕ) (tree : Data) (front : List Segment)
        (names : List Name) (value : Data) (n : ℕ) (text : List ℕ)
        → nat_lt max_bytes (length script) ≡ false → tree_of script ≡ Some tree → IsRead front names
        → value_at front tree ≡ Some value → slice_get (texts_in (members_in value)) n ≡ Some text
        → Contains (given_findings lanes plan (Some script)) (warning_at (front ++ Other n ∷ [])) ↔ (is_known names text ≡ false) }
{}

/// The path of each finding of a script leads to its place, in each form.
pub fn findings_in_scripts_are_placed_in_each_form()
    ensures { (form : Form) (lanes : Bool) (plan script : List ℕ)
        → ArePlaced (tree_of script) (findings_in form lanes plan (Some script)) }
{}

/// The law of these warnings holds in each form. A run in Terraform's form also reads the members of
/// `outputs` and of `diagnostics` at the top of a script. A command that makes its plan also reads
/// those of `planning`, with their failures.
pub fn warnings_report_what_no_run_in_a_form_reads()
    ensures exactly { (form : Form) (lanes : Bool) (plan script : List ℕ) (tree : Data) (path : List Segment)
        → nat_lt max_bytes (length script) ≡ false → tree_of script ≡ Some tree
        → Contains (findings_in form lanes plan (Some script)) (warning_at path) ↔ IsIgnored (IsReadIn form) tree path }
    ensures each { (form : Form) (lanes : Bool) (plan script : List ℕ) (tree : Data) (front : List Segment)
        (names : List Name) (value : Data) (n : ℕ) (text : List ℕ)
        → nat_lt max_bytes (length script) ≡ false → tree_of script ≡ Some tree → IsReadIn form front names
        → value_at front tree ≡ Some value → slice_get (texts_in (members_in value)) n ≡ Some text
        → Contains (findings_in form lanes plan (Some script)) (warning_at (front ++ Other n ∷ [])) ↔ (is_known names text ≡ false) }
{}

/// A member that `validate` reports as not read does not matter to a run, and every other member
/// does.
///
/// A run reads the same from a script without these members (`same`), and what is left has none of
/// them (`none`). Each other member counts: there are an object and a value with
/// which the run reads another thing than without (`each`). In Terraform's form a run keeps exactly
/// the known members of an output and of a diagnostic (`outputs`, `diagnostics`).
pub fn what_is_warned_of_is_what_no_run_reads()
    ensures same { (plan : SavedPlan) (script : Data) → script_of_tree plan (without_unknown script) ≡ script_of_tree plan script }
    ensures none { (script : Data) (path : List Segment) → IsIgnored IsRead (without_unknown script) path → ⊥ }
    ensures each { All (Counts entry_of) entry_names × All (Counts step_from) step_names × All (Counts diag_from) diagnostic_names
        × All (Counts failure_from) failure_names × All (Counts provisioner_from) provisioner_names
        × All (Counts output_from) output_names × All (Counts wait_from) wait_names }
    ensures outputs { (text : List ℕ) → is_known plan_output_names text ≡ is_some (part_named part.Output text) }
    ensures diagnostics { (text : List ℕ) → is_known note_names text ≡ is_some (part_named part.Diagnostic text) }
{}
