//! Laws of streams. Each function does nothing; its contract is the law.

ghost use Rattle.std.specs.Prelude.{◌≡◌, ◌≢◌, ◌||◌, ◌++◌, ◌∷◌, [], ℕ, List, Ok, true, false};
ghost use Rattle.std.specs.List.{list_any};
ghost use Rattle.stream_check.specs.Laws.{IsWhole, StateMessages, is_end, is_start};
ghost use Rattle.stream_check.specs.Lines.{line_message, verdict_of};
ghost use Rattle.stream_check.specs.Tally.{is_summary};
ghost use Rattle.stream_check.specs.declared.rules.mode.Mode.{Mode};
ghost use Rattle.stream_check.specs.Message.{Message, step};
ghost use Rattle.stream_check.specs.declared.messages.action.Action.{Action};
ghost use Rattle.stream_check.specs.declared.messages.action.Action.TheVariants.{Read, Refresh};
ghost use Rattle.stream_check.specs.declared.messages.timed_stage.TimedStage.{TimedStage};
ghost use Rattle.stream_check.specs.declared.verdict.whole.Whole.{Whole};

/// In an accepted stream, each create, update and delete of an object ends as often as it starts,
/// and never before it starts. The totals are the counts of completed steps. The summary states the
/// same totals.
pub fn each_step_ends_once()
    ensures { (mode : Mode) (texts : List (List ℕ)) (whole : Whole) → verdict_of mode texts ≡ Ok whole
        → (messages : List Message) × IsWhole mode texts whole messages }
{}

/// An accepted stream of an apply without errors has a summary. So a stream that is cut off before
/// its summary is not accepted.
pub fn a_stream_without_errors_is_summed_up()
    ensures { (mode : Mode) (texts : List (List ℕ)) (whole : Whole) → verdict_of mode texts ≡ Ok whole
        → whole.has_errors ≡ false → whole.is_plan ≡ false
        → (messages : List Message) × StateMessages mode.find [] messages texts × (list_any is_summary messages ≡ true) }
{}

/// Adding or removing one line that starts or ends a create, an update or a delete makes an
/// accepted stream unacceptable. So such a line that stands twice is reported, wherever it stands.
pub fn no_start_or_end_is_one_too_many()
    ensures { (mode : Mode) (front back : List (List ℕ)) (line : List ℕ) (address : List ℕ) (action : Action) (stage : TimedStage)
        → line_message mode.find line ≡ Ok (step address action stage) → action ≢ Read → action ≢ Refresh
        → (is_start stage || is_end stage) ≡ true → (few many : Whole) → verdict_of mode (front ++ back) ≡ Ok few
        → verdict_of mode (front ++ line ∷ back) ≡ Ok many → ⊥ }
{}
