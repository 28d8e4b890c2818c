//! Laws of lines: when two scripts give the same. Each function does nothing: its contract is the
//! law.

ghost use Rattle.std.specs.Prelude.{◌≡◌, List, Option, false, ℕ};
ghost use Rattle.apply_model.specs.Plan.SavedPlan.{SavedPlan};
ghost use Rattle.apply_model.specs.Script.OutcomeMap.{OutcomeMap};
ghost use Rattle.apply_events.specs.declared.event.Event.{Event};
ghost use Rattle.apply_events.specs.Diagnostics.{is_note};
ghost use Rattle.apply_text.specs.Lines as plain;
ghost use Rattle.apply_text_terraform.specs.Lines as terraform;
ghost use Rattle.laws_texts.specs.Alike as plain_messages;
ghost use Rattle.laws_texts.specs.Terraform as terraform_messages;

/// The line of a hook message is the same for two scripts, if the provisioners of its step run
/// alike, a provisioner that it names ran, and a completion shows the same id.
///
/// `plain`: in the default form. `terraform`: in Terraform's form, with the id that the plan gives.
pub fn hook_messages_of_steps_that_run_alike_are_the_same()
    ensures plain { (plan : SavedPlan) (one other : OutcomeMap) (start clock : ℕ) (event : Event) → is_note event.what ≡ false
        → plain_messages.IsToldAlike plan one other event
        → plain.event_text plan other start clock event ≡ plain.event_text plan one start clock event }
    ensures terraform { (plan : SavedPlan) (one other : OutcomeMap) (start clock : ℕ) (planned : Option (List ℕ)) (event : Event)
        → is_note event.what ≡ false → terraform_messages.IsToldAlike plan one other planned event
        → terraform.event_text plan other start clock planned event ≡ terraform.event_text plan one start clock planned event }
{}
