//! Laws of the lines of whole streams in Terraform's form. Each function does nothing: its contract
//! is the law.

ghost use Rattle.std.specs.Prelude.{ℕ, List};
ghost use Rattle.std.specs.List.{AllByRecursion};
ghost use Rattle.apply_model.specs.declared.details.output.Output.{Output};
ghost use Rattle.apply_model.specs.Plan.SavedPlan.{SavedPlan};
ghost use Rattle.apply_model.specs.Script.OutcomeMap.{OutcomeMap};
ghost use Rattle.stream_check.specs.Message as message;
ghost use Rattle.apply_events.specs.declared.event.Event.{Event};
ghost use Rattle.apply_text.specs.declared.operation.Operation.{Operation};
ghost use Rattle.apply_text_terraform.specs.Lines.{outputs_text};
ghost use Rattle.apply_writer.specs.Stream.Form.{stream_in};
ghost use Rattle.apply_writer.specs.Stream.Terraform.{StreamExtras, terraform_form};
ghost use Rattle.laws_check.specs.FormTexts.{HasFormTexts, HasOutputTexts, StreamIsReadBackAs};
ghost use Rattle.laws_check.specs.Texts.{FitBits};
ghost use Rattle.laws_check.specs.ReadBackInForm.{IsReadBackAs, stream_read_back_in_form};

/// The line of outputs is read back as a message of outputs. The types and values may be the texts
/// of any JSON values.
pub fn the_line_of_outputs_is_read_back()
    ensures { (outputs : List Output) (start latest : ℕ) → AllByRecursion HasOutputTexts outputs
        → IsReadBackAs (outputs_text start latest outputs) message.outputs }
{}

/// A stream in Terraform's form is one line after another, and each line is read back as one
/// message.
///
/// The messages are the version, each planned change, each event but the end of a read that failed,
/// and each diagnostic of no step. The summary and the outputs follow if nothing reports an error.
pub fn every_line_in_terraforms_form_is_read_back()
    ensures { (plan : SavedPlan) (script : OutcomeMap) (extras : StreamExtras) (start : ℕ) (operation : Operation)
        → HasFormTexts plan script extras → (taken : List Event) → FitBits plan taken
        → StreamIsReadBackAs (stream_in (terraform_form plan script extras start operation) taken)
        (stream_read_back_in_form plan script extras operation taken) }
{}
