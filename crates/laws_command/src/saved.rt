//! The law of a job that applies a saved plan, whatever else its words could say.

ghost use Rattle.std.specs.Prelude.{◌≡◌, ◌↔◌, ℕ, Bool, Option};
ghost use Rattle.apply_cli.specs.Invocation.{reading_asked, reading_for};
ghost use Rattle.apply_cli_args.specs.declared.invocation.Invocation.{Invocation};
ghost use Rattle.apply_run.specs.declared.form_report.FormReport.{FormReport};
ghost use Rattle.apply_run.specs.declared.refusal.Refusal.{Refusal};
ghost use Rattle.apply_run.specs.Bytes.{Inputs};
ghost use Rattle.apply_run.specs.FromBytes.{WasRefusedBy, WasRefusedOf, WasReportedBy, WasReportedOf};
ghost use Rattle.apply_run.specs.Run.{SinkState};
ghost use Rattle.apply_run.specs.Schedule.{Schedule};
ghost use Rattle.apply_text.specs.declared.operation.Operation.{Operation};
ghost use Rattle.apply_text_terraform.specs.declared.command.Command.TheVariants.{Saved};
ghost use Rattle.apply_text_terraform.specs.declared.form.Form.{Form};

/// Do old jobs still print what they printed? Without `--command`, or with `--command saved`, a
/// plan is read, refused and applied as in its form alone.
///
/// Nothing depends on what the script says of a planning. The law holds of each job, and of each
/// invocation that words state.
pub fn a_saved_plan_is_applied_in_its_form_alone()
    ensures applied { (form : Form) (refresh : Bool) (parallelism : Option ℕ) (schedule : Schedule) (given : Inputs) (start : ℕ) (operation : Operation)
        (report : FormReport) (before after : SinkState)
        → (WasReportedOf schedule (reading_for form Saved refresh parallelism) given start operation report before after
        ↔ WasReportedBy schedule form given start operation report before after) }
    ensures refused { (form : Form) (refresh : Bool) (parallelism : Option ℕ) (schedule : Schedule) (given : Inputs) (start : ℕ) (operation : Operation)
        (refusal : Refusal) (before after : SinkState)
        → (WasRefusedOf schedule (reading_for form Saved refresh parallelism) given start operation refusal before after
        ↔ WasRefusedBy schedule form given start operation refusal before after) }
    ensures asked { (invocation : Invocation) (schedule : Schedule) (given : Inputs) (start : ℕ) (operation : Operation)
        (report : FormReport) (before after : SinkState) → invocation.command ≡ Saved
        → (WasReportedOf schedule (reading_asked invocation) given start operation report before after
        ↔ WasReportedBy schedule invocation.form given start operation report before after) }
{}
