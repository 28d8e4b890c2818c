//! Laws of the scripts that `record` writes: a run reads them back.

ghost use Rattle.std.specs.Prelude.{◌≡◌, ◌<◌, ℕ, List, Ok, length};
ghost use Rattle.std.specs.List.{AllByRecursion};
ghost use Rattle.serde_json.specs.Data.{no_members};
ghost use Rattle.apply_model.specs.declared.details.note.Note.{Note};
ghost use Rattle.apply_model.specs.Plan.ResourceChange.{ResourceChange};
ghost use Rattle.apply_model.specs.Plan.SavedPlan.{SavedPlan};
ghost use Rattle.apply_model.specs.Script.OutcomeMap.{OutcomeMap, first_skipped, stated_step};
ghost use Rattle.apply_plan.specs.Script.OutcomeMap.{script_of};
ghost use Rattle.apply_plan_terraform.specs.Extras.{extras_of_bytes, with_notes};
ghost use Rattle.apply_plan_terraform.specs.Outputs.{OutputsOfPlan};
ghost use Rattle.laws_record.specs.Extras.{IsOfPlan, outputs_by_name};
ghost use Rattle.laws_record.specs.Writable.{IsWritable, IsWritableNote, IsWritableOutput, NoneIsEmpty, written};
ghost use Rattle.stream_record.specs.declared.output.Output.{Output};
ghost use Rattle.stream_record.specs.ScriptText.{script_within};

/// A run reads back each script that `record` writes.
///
/// `read`: the text that `stream_record` writes is a script of the plan, if the script, its outputs
/// and its diagnostics may be written. `steps`: what is read states each step of the plan's changes
/// as the script does: its outcome, and the steps it waits for. `skipped`: the first skipped step of
/// each change is the same. `same`: what is read is the script itself, if the script has an item
/// for each change, and no list of steps is empty.
pub fn a_run_reads_back_what_record_writes()
    ensures read { (plan : SavedPlan) (script : OutcomeMap) (outputs : List Output) (notes : List Note)
        (text : List ℕ) → IsWritable plan.changes script → AllByRecursion IsWritableOutput outputs
        → AllByRecursion IsWritableNote notes → script_within plan.changes script outputs notes ≡ Ok text
        → script_of plan text ≡ Ok (written plan.changes script) }
    ensures steps { (changes : List ResourceChange) (script : OutcomeMap) (c k : ℕ)
        → c < length changes → stated_step (written changes script) c k ≡ stated_step script c k }
    ensures skipped { (changes : List ResourceChange) (script : OutcomeMap) (c : ℕ)
        → c < length changes → first_skipped (written changes script) c ≡ first_skipped script c }
    ensures same { (changes : List ResourceChange) (script : OutcomeMap)
        → length script ≡ length changes → NoneIsEmpty script → written changes script ≡ script }
{}

/// Terraform's form reads back the outputs and the diagnostics of no step of each script that
/// `record` writes. The plan has each output, and no type is `null`.
pub fn a_run_in_form_reads_back_outputs_and_diagnostics()
    ensures { (changes : List ResourceChange) (plan : OutputsOfPlan) (script : OutcomeMap) (outputs : List Output) (notes : List Note)
        (text : List ℕ) → IsWritable changes script → AllByRecursion IsWritableOutput outputs
        → AllByRecursion IsWritableNote notes → AllByRecursion (IsOfPlan plan) outputs
        → script_within changes script outputs notes ≡ Ok text
        → extras_of_bytes plan text ≡ Ok (with_notes (outputs_by_name outputs no_members) notes) }
{}
