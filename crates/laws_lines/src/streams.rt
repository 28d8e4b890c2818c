//! Laws of whole streams.

ghost use Rattle.std.specs.Prelude.{◌≡◌, ℕ, List, false, map};
ghost use Rattle.stream_lines.specs.Cut.{cut_lines};
ghost use Rattle.apply_model.specs.Plan.SavedPlan.{SavedPlan};
ghost use Rattle.apply_model.specs.Script.OutcomeMap.{OutcomeMap};
ghost use Rattle.apply_events.specs.declared.event.Event.{Event};
ghost use Rattle.apply_text.specs.declared.operation.Operation.{Operation};
ghost use Rattle.apply_text.specs.Lines.{stream_of};
ghost use Rattle.apply_writer.specs.Stream.Form.{stream_in};
ghost use Rattle.apply_writer.specs.Stream.Terraform.{StreamExtras, terraform_form};
ghost use Rattle.stream_record_lines.specs.declared.stated_line.StatedLine.TheVariants.{Message};
ghost use Rattle.stream_record_lines.specs.Lines.{stated_line};
ghost use Rattle.laws_check.specs.FormTexts.{HasFormTexts};
ghost use Rattle.laws_check.specs.Texts.{FitBits, HasTexts};
ghost use Rattle.laws_lines.specs.Streams.{AreTold, stream_told, stream_told_in_form};

/// The lines of the stream of a run state, one after another, the version, the planned changes, the
/// events, the diagnostics of no step, the summary and the outputs.
///
/// The lines are those of the bytes, cut at their line feeds.
pub fn each_line_of_a_stream_states_its_message()
    ensures default { (plan : SavedPlan) (script : OutcomeMap) (start : ℕ) (operation : Operation) (taken : List Event)
        → HasTexts plan script → FitBits plan taken → AreTold script start taken
        → map (stated_line false) (cut_lines (stream_of plan script start operation taken))
        ≡ map Message (stream_told plan script start operation taken) }
    ensures terraform { (plan : SavedPlan) (script : OutcomeMap) (extras : StreamExtras) (start : ℕ) (operation : Operation)
        (taken : List Event) → HasFormTexts plan script extras → FitBits plan taken → AreTold script start taken
        → map (stated_line false) (cut_lines (stream_in (terraform_form plan script extras start operation) taken))
        ≡ map Message (stream_told_in_form plan script extras start operation taken) }
{}
