//! Laws of the schedule by which `record` finds waits without a graph: it is that of the run.
//!
//! For the stream of a run without waits, each turn starts as in the run, and no step gets a wait.
//! Each function does nothing: its contract is the law. No program links this crate.
#![tactic(auto)]

ghost use Rattle.std.specs.Prelude.{◌≡◌, ◌<◌, [], List, None, Option, length, true, ℕ, IfSome};
ghost use Rattle.apply_events.specs.Step.{Work};
ghost use Rattle.apply_events.specs.Waits.Schedule.{schedule};
ghost use Rattle.apply_events.specs.Waits.TimeLine.{IsTimeLine};
ghost use Rattle.apply_events.specs.declared.event.Event.{Event};
ghost use Rattle.stream_record_waits.specs.Behind.{AreBehind};
ghost use Rattle.stream_record_waits.specs.Course.{after_rounds, first_ready, turns_of};
ghost use Rattle.stream_record_waits.specs.Graph.{waits_at};
ghost use Rattle.stream_record_waits.specs.Recorded.{AreRecordedWaits, found_basis};
ghost use Rattle.stream_record_waits.specs.Steps.{has_begun};
ghost use Rattle.stream_record_waits.specs.declared.choices.Choices.{Choices};
ghost use Rattle.stream_record_waits.specs.declared.step_of_plan.StepOfPlan.{StepOfPlan};
ghost use Rattle.laws_queue.specs.Dealing.{NamesNone, started_changes};
ghost use Rattle.laws_queue.specs.OfLanes.{HasNoWaits, IsOfLanes};
ghost use Rattle.laws_queue.specs.OfRun.{IsOfRun};
ghost use Rattle.laws_record.specs.Schedules.{KeepsTime, without_order};
ghost use Rattle.laws_queue.specs.Schedules.{StartsAsInRun};

// ---- the run

/// A run of a work without waits starts the changes in the plan's order, each as one turn, in the
/// lane that is free first, when that lane is free.
pub fn a_run_without_waits_starts_the_changes_in_turn()
    ensures { (work : Work) (lanes : ℕ) → NamesNone work
        → schedule work lanes ≡ started_changes work lanes (length work.plan.changes) }
{}

/// The lines of the stream of such a run agree with its lanes. Each step that began took as long,
/// and a second step follows the first one at once. If a step ended in a line before a change
/// started, the step had ended in the lanes when the change began.
pub fn steps_of_a_run_are_those_of_its_lanes()
    ensures { (work : Work) (lanes : ℕ) (events : List Event) (line : ℕ → ℕ) (steps : List StepOfPlan)
        → 0 < lanes → NamesNone work → IsTimeLine work lanes events → IsOfRun work events line steps
        → IsOfLanes work lanes steps }
{}

// ---- the schedule of `record`

/// Without the order of the stream, the schedule of `record` starts changes as the run does. In
/// each round it takes up the turn of a change, at the time and in the lane at which the run starts
/// it.
pub fn each_turn_starts_as_in_the_run()
    ensures { (work : Work) (lanes : ℕ) (steps : List StepOfPlan) (found : List (List ℕ)) (behind : List (Option ℕ)) (rounds : ℕ)
        → 0 < lanes → IsOfLanes work lanes steps → HasNoWaits steps found
        → let plain = without_order (found_basis steps None behind found) in
        IfSome (first_ready plain (after_rounds plain lanes rounds) (turns_of plain))
        (StartsAsInRun work lanes (after_rounds plain lanes rounds)) }
{}

/// The stream of a run without waits keeps time: `record` puts no step back.
///
/// `by_lanes`: the premises state what the lanes did. `by_events`: they state the events of the run
/// and the lines of its hook messages.
pub fn the_stream_of_a_run_without_waits_keeps_time()
    ensures by_lanes { (work : Work) (lanes : ℕ) (steps : List StepOfPlan) (found : List (List ℕ)) (behind : List (Option ℕ))
        → 0 < lanes → IsOfLanes work lanes steps → HasNoWaits steps found → AreBehind steps behind
        → KeepsTime (found_basis steps None behind found) lanes }
    ensures by_events { (work : Work) (lanes : ℕ) (events : List Event) (line : ℕ → ℕ) (steps : List StepOfPlan)
        (found : List (List ℕ)) (behind : List (Option ℕ))
        → 0 < lanes → NamesNone work → IsTimeLine work lanes events → IsOfRun work events line steps
        → HasNoWaits steps found → AreBehind steps behind
        → KeepsTime (found_basis steps None behind found) lanes }
{}

/// Without a graph, `record` gives no waits to the steps that began in the stream of such a run.
///
/// `by_lanes` and `by_events` have the same premises as above.
pub fn steps_of_a_run_without_waits_get_no_waits()
    ensures by_lanes { (work : Work) (lanes : ℕ) (steps : List StepOfPlan) (choices : Choices) (after early : List (List ℕ))
        → 0 < lanes → IsOfLanes work lanes steps → choices.lanes ≡ lanes
        → AreRecordedWaits steps None choices after early
        → (step : ℕ) → has_begun steps step ≡ true → waits_at after step ≡ [] }
    ensures by_events { (work : Work) (lanes : ℕ) (events : List Event) (line : ℕ → ℕ) (steps : List StepOfPlan)
        (choices : Choices) (after early : List (List ℕ))
        → 0 < lanes → NamesNone work → IsTimeLine work lanes events → IsOfRun work events line steps
        → choices.lanes ≡ lanes → AreRecordedWaits steps None choices after early
        → (step : ℕ) → has_begun steps step ≡ true → waits_at after step ≡ [] }
{}
