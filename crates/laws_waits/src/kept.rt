//! Waits of a graph that a stream kept.

ghost use Rattle.std.specs.Prelude.{◌≡◌, ℕ, List, Some, false, length};
ghost use Rattle.laws_waits.specs.Kept.{AreKept};
ghost use Rattle.stream_record_waits.specs.Recorded.{AreRecordedWaits, no_waits};
ghost use Rattle.stream_record_waits.specs.declared.choices.Choices.{Choices};
ghost use Rattle.stream_record_waits.specs.declared.step_of_plan.StepOfPlan.{StepOfPlan};

/// With a graph whose waits the stream kept, `record` finds just the waits of the graph, and no
/// step that began too early. This holds where it puts no step back: without `--begins`.
pub fn waits_that_a_stream_kept_come_again()
    ensures waits { (steps : List StepOfPlan) (graph : List (List ℕ)) (choices : Choices)
        (after early : List (List ℕ)) → choices.begins ≡ false → AreKept steps graph
        → AreRecordedWaits steps (Some graph) choices after early → after ≡ graph }
    ensures early { (steps : List StepOfPlan) (graph : List (List ℕ)) (choices : Choices)
        (after early : List (List ℕ)) → choices.begins ≡ false → AreKept steps graph
        → AreRecordedWaits steps (Some graph) choices after early
        → early ≡ no_waits (length steps) }
{}
