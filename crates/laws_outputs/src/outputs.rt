//! The outputs that a run in Terraform's form prints, after `record` and a second run.

ghost use Rattle.std.specs.Prelude.{◌≡◌, ℕ, List, None, Option, false};
ghost use Rattle.std.specs.List.{AllByRecursion};
ghost use Rattle.serde_json.specs.Data.{Members};
ghost use Rattle.apply_model.specs.declared.details.output.Output.{Output};
ghost use Rattle.apply_plan_terraform.specs.Outputs.{OutputsOfPlan, fault_of, written_outputs};
ghost use Rattle.apply_run.specs.Read.{IsStated, StatedInputs, extras_of};
ghost use Rattle.laws_outputs.specs.Again.{AreShownAlike, told_again};
ghost use Rattle.laws_outputs.specs.NamesInOrder.{AreInOrder};

/// The outputs that a run prints come again: `record` writes a script of them, and a run of the
/// same plan with that script prints them too.
///
/// The premises: the names of the plan's outputs and of the script's outputs are in byte order, and
/// the script's outputs have no error. `shown`: the two lists are equal but for the values of
/// sensitive outputs. No line shows such a value, so the recorded script has none. `exact`: if no
/// output is sensitive, the two lists are equal.
pub fn outputs_come_again()
    ensures shown { (plan : OutputsOfPlan) (script : Members) → AreInOrder plan.known → AreInOrder script
        → fault_of plan 0 script ≡ None
        → AreShownAlike (told_again plan (written_outputs plan script)) (written_outputs plan script) }
    ensures exact { (plan : OutputsOfPlan) (script : Members) → AreInOrder plan.known → AreInOrder script
        → fault_of plan 0 script ≡ None
        → AllByRecursion (λ (output : Output). output.sensitive ≡ false) (written_outputs plan script)
        → told_again plan (written_outputs plan script) ≡ written_outputs plan script }
{}

/// The outputs come again for each plan and script that can be read, and for a plan without a
/// script. `plan` and `script` are the bytes of the two.
///
/// `in_order` and `without_error`: what is read meets the premises of `outputs_come_again`.
pub fn outputs_that_were_read_come_again()
    ensures in_order { (plan : List ℕ) (script : Option (List ℕ)) (stated : StatedInputs) → IsStated plan script stated
        → AreInOrder stated.details.outputs.known × AreInOrder stated.extras.outputs }
    ensures without_error { (plan : List ℕ) (script : Option (List ℕ)) (stated : StatedInputs) → IsStated plan script stated
        → fault_of stated.details.outputs 0 stated.extras.outputs ≡ None }
    ensures shown { (plan : List ℕ) (script : Option (List ℕ)) (stated : StatedInputs) → IsStated plan script stated
        → AreShownAlike (told_again stated.details.outputs (extras_of stated).outputs) (extras_of stated).outputs }
{}
