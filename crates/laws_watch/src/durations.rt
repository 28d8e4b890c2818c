//! Laws of durations.

ghost use Rattle.std.specs.Prelude.{◌≡◌, ◌++◌, ◌∷◌, ℕ, ℤ, All, List, Some, codes, false, slice_index_or};
ghost use Rattle.std.specs.Str.{bytes_eq};
ghost use Rattle.stream_message.specs.declared.stage.Stage.TheVariants.{Complete, Errored};
ghost use Rattle.stream_timeline.specs.Intervals.{length_of};
ghost use Rattle.stream_timeline.specs.Steps.{StepRead};
ghost use Rattle.stream_timeline.specs.TimelineRead.{timeline_of};
ghost use Rattle.stream_timeline.specs.declared.reading.time_range.TimeRange.{TimeRange};
ghost use Rattle.stream_watch.specs.State.{State, line_told};
ghost use Rattle.stream_watch.specs.StepRows.{NamedStep, done_state, done_words, failed_state, failed_words, noted_step, step_length, told_of_step};
ghost use Rattle.stream_watch.specs.Counts.{with_done};
ghost use Rattle.stream_watch.specs.declared.looks.Looks.{Looks};
ghost use Rattle.stream_watch.specs.declared.mark.Mark.TheVariants.{Done, Failed};
ghost use Rattle.laws_watch.specs.Durations.{IsEndOf, IsTimed, ended_place, told_length};

/// Does `watch` tell the same duration of an end as `view` draws? Yes, where each message has a
/// moment, and no diagnostic closes the step as a read that failed. The step is the one that `view`
/// ends there, if one is open. Lines behind the end change nothing.
pub fn a_duration_is_that_of_view()
    ensures length { (looks : Looks) (lines : List (List ℕ)) (line : List ℕ) (rest : List (List ℕ)) (step : NamedStep) (moment : ℤ) (place : ℕ) (time_range : TimeRange) (absent : StepRead)
        → All (IsTimed step.address step.action) lines → IsEndOf step moment line
        → bytes_eq (codes "refresh") step.action ≡ false → ended_place lines step ≡ Some place
        → told_length looks lines step moment ≡ Some (length_of time_range (slice_index_or (timeline_of (lines ++ line ∷ rest)).steps place absent)) }
    ensures done { (looks : Looks) (state : State) (step : NamedStep) (moment : ℤ) → told_of_step looks state Complete moment step
        ≡ line_told looks (done_state (noted_step step moment state) step) Done
        (done_words (with_done step.action (noted_step step moment state).counts) step (step_length state.steps step moment)) }
    ensures failed { (looks : Looks) (state : State) (step : NamedStep) (moment : ℤ) → told_of_step looks state Errored moment step
        ≡ line_told looks (failed_state state step) Failed (failed_words step (step_length state.steps step moment)) }
{}
