//! Laws of time lines: plans that are applied in lanes, whether steps wait for others or not.
//!
//! Each function does nothing, or calls the laws that its own law follows from: its contract is the
//! law.

ghost use Rattle.std.specs.Prelude.{◌≡◌, ◌<◌, ◌≤◌, ◌↔◌, ◌++◌, ◌∷◌, ℕ, All, List, Some, count_by, false, length, slice_get, true};
ghost use Rattle.std.specs.List.{Contains};
ghost use Rattle.std.specs.List.Sorted.{IsNonDecreasingBy};
ghost use Rattle.apply_model.specs.declared.script.wait.Wait.{Wait};
ghost use Rattle.apply_events.specs.Step.{Step, Work, steps_of};
ghost use Rattle.apply_model.specs.Script.Waits.{has_waits};
ghost use Rattle.apply_events.specs.declared.event.Event.{Event};
ghost use Rattle.apply_events.specs.declared.lanes.lane_time.LaneTime.{LaneTime};
ghost use Rattle.apply_events.specs.declared.lanes.turn.StartedTurn.{StartedTurn};
ghost use Rattle.apply_events.specs.Fits.{IsApplied, IsOfPlan};
ghost use Rattle.apply_events.specs.Lanes.TimeLine as plain;
ghost use Rattle.apply_events.specs.Lanes.ToCome.{max_events};
ghost use Rattle.apply_events.specs.Laws.{IsWithinLimits};
ghost use Rattle.apply_events.specs.Waits.Done.{done_at};
ghost use Rattle.apply_events.specs.Waits.Merging.{time_line};
ghost use Rattle.apply_events.specs.Waits.Schedule.{schedule};
ghost use Rattle.apply_events.specs.Waits.StartedTurns.{IsAppliedInTurns, WereStarted};
ghost use Rattle.apply_events.specs.Waits.TimeLine.{IsTimeLine};
ghost use Rattle.laws_run.specs.WaitingSteps.{AreWhole, BeginWhereAllIsDone, HasFewSteps, IsNext, LeaveOutNoneWithoutNeed, LeaveOutWhatWaitsInVain, NamesSteps, OnlyWarns, ComeAfterWhatTheyWaitFor, TakesAsLong, has_events, is_done_along, is_of_step, is_under_way, time_of_all};
ghost use Rattle.laws_run.specs.ChangesUnderWay.{open_after};
ghost use Rattle.laws_run.specs.StepsUnderWay.{open_steps_after, steps_on_both_sides, steps_under_way_at};

/// Where no step names what it waits for, time lines are those of `time_lines_without_waits`.
pub fn without_waits_changes_are_dealt_out()
    ensures { (work : Work) (n : ℕ) (events : List Event) → 0 < n → has_waits work.script ≡ false
        → (IsTimeLine work n events ↔ plain.IsTimeLine work n events) }
{}

/// The schedule starts each turn that can begin, each turn when the turn is ready and its lane is
/// free.
pub fn the_schedule_starts_each_turn_that_can_begin()
    ensures { (work : Work) (n : ℕ) → 0 < n → WereStarted work n (schedule work n) }
{}

/// A time line has the events of lanes that start turns one after another, and that may be idle
/// between turns.
pub fn a_time_line_is_applied_in_turns()
    ensures { (work : Work) (n : ℕ) (events : List Event) → 0 < n → IsTimeLine work n events → IsAppliedInTurns work n events }
{}

/// A time line exists: `time_line` is one.
pub fn there_is_a_time_line()
    ensures { (work : Work) (n : ℕ) → 0 < n → IsTimeLine work n (time_line work n) }
{}

/// Two time lines of the same work by the same number of lanes are equal.
pub fn time_lines_are_unique()
    ensures { (work : Work) (n : ℕ) (first second : List Event) → IsTimeLine work n first → IsTimeLine work n second
        → first ≡ second }
{}

/// The times of the events never fall along a time line.
pub fn times_of_a_time_line_never_fall()
    ensures { (work : Work) (n : ℕ) (events : List Event) → IsTimeLine work n events
        → IsNonDecreasingBy (λ (event : Event). event.at) events }
{}

/// Each event of a step comes after every event of each step that it waits for.
pub fn a_step_comes_after_what_it_waits_for()
    ensures { (work : Work) (n : ℕ) (events : List Event) → 0 < n → HasFewSteps work → IsTimeLine work n events
        → ComeAfterWhatTheyWaitFor work events }
{}

/// A step has events if and only if each step that it waits for is done.
///
/// `begins`: the step is not skipped, and has no skipped step before it in its change. `applied`:
/// no other step has events.
pub fn a_step_begins_exactly_where_its_waits_are_done()
    ensures begins { (work : Work) (n : ℕ) (events : List Event) → 0 < n → HasFewSteps work → IsTimeLine work n events
        → BeginWhereAllIsDone work events }
    ensures applied { (work : Work) (n : ℕ) (events : List Event) → 0 < n → IsTimeLine work n events
        → All (λ event. IsApplied work.plan work.script event.change event.step) events }
{}

/// A step that only warns, and that no hook halts, is done if it has events. So the steps that wait
/// for it begin.
pub fn a_step_that_only_warns_is_done()
    ensures { (work : Work) (events : List Event) (name : Wait) (step : Step)
        → slice_get (steps_of work name.change) name.step ≡ Some step → OnlyWarns step
        → is_done_along work events name ≡ has_events events name }
{}

/// A step that could begin has no events if and only if the step is skipped or waits in vain. The
/// script names steps of its plan alone.
///
/// A step waits in vain for a step that failed, was halted or is skipped, directly or through other
/// steps. `without_need`: if no step failed, was halted or is skipped, each step that could begin
/// has events.
///
/// `a_read_script_leaves_out_what_waits_in_vain` states this of a script that was read, without
/// these premises.
pub fn what_waits_in_vain_is_left_out()
    ensures in_vain { (work : Work) (n : ℕ) (events : List Event) → 0 < n → HasFewSteps work → NamesSteps work
        → IsTimeLine work n events → LeaveOutWhatWaitsInVain work events }
    ensures without_need { (work : Work) (n : ℕ) (events : List Event) → 0 < n → HasFewSteps work → NamesSteps work
        → IsTimeLine work n events → LeaveOutNoneWithoutNeed work events }
{}

/// A step that has events has all its events: those of a step that starts at one time in one lane.
pub fn steps_are_whole()
    ensures { (work : Work) (n : ℕ) (events : List Event) → 0 < n → IsTimeLine work n events → AreWhole work events }
{}

/// Which steps begin does not depend on the number of lanes.
pub fn any_number_of_lanes_begins_the_same_steps()
    ensures { (work : Work) (n m : ℕ) (events others : List Event) → 0 < n → 0 < m → HasFewSteps work
        → IsTimeLine work n events → IsTimeLine work m others
        → (name : Wait) → has_events events name ≡ has_events others name }
{}

/// No event of a time line comes later than the sum of the times of all steps that begin.
pub fn a_time_line_ends_by_the_sum_of_all_times()
    ensures { (work : Work) (n : ℕ) (events : List Event) → 0 < n → IsTimeLine work n events
        → All (λ event. event.at ≤ time_of_all work (schedule work n)) events }
{}

/// A step takes at least as long as each chain of waits that ends with it.
///
/// `done`: a step is done no sooner than such a chain takes. `events`: a step with events ends no
/// sooner, whether the step is done, has failed or was halted. So a time line is as long as each
/// chain of waits of steps that begin.
pub fn no_step_ends_before_its_chain_of_waits()
    ensures done { (work : Work) (n : ℕ) (name : Wait) (at : LaneTime) (seconds : ℕ) → 0 < n → HasFewSteps work
        → done_at work (schedule work n) name ≡ Some at → TakesAsLong work name seconds → seconds ≤ at.second }
    ensures events { (work : Work) (n : ℕ) (events : List Event) (name : Wait) (seconds : ℕ) → 0 < n → HasFewSteps work
        → IsTimeLine work n events → has_events events name ≡ true → TakesAsLong work name seconds
        → (event : Event) × Contains events event × (is_of_step name event ≡ true) × (seconds ≤ event.at) }
{
    the_schedule_starts_each_turn_that_can_begin();
}

/// At no time are more turns under way than there are lanes.
pub fn no_more_turns_are_under_way_than_lanes()
    ensures { (work : Work) (n : ℕ) (at : LaneTime) → 0 < n → count_by (is_under_way work at) (schedule work n) ≤ n }
{}

/// A time line of a plan and a script that were read has at most 189,180,000 events. The hooks do
/// not matter.
///
/// `of_plan`: each event is of a step of the plan, and comes within 10,000 times two days.
pub fn a_time_line_has_few_events()
    ensures few { (work : Work) (n : ℕ) (events : List Event) → 0 < n → IsWithinLimits work → IsTimeLine work n events
        → length events ≤ max_events }
    ensures of_plan { (work : Work) (n : ℕ) (events : List Event) → 0 < n → IsWithinLimits work → IsTimeLine work n events
        → All (IsOfPlan work.plan) events }
{}

/// The turn that is ready first starts first, in the lane that is free first, as soon as both are.
/// The starts never fall.
pub fn the_turn_that_is_ready_first_starts_first()
    ensures { (work : Work) (n : ℕ) (later before : List StartedTurn) (one : StartedTurn) → 0 < n → schedule work n ≡ later ++ one ∷ before
        → IsNext work n before one }
{}

/// At no time are more steps under way than there are lanes, nor more changes.
///
/// - `changes_at_a_place`: at each place of a time line at most N changes have started and are not
///   over.
/// - `steps_at_a_place`: at each place at most N steps have started and are not over. A step is
///   over with its end, or with its warning if the step only warns.
/// - `on_both_sides`: at most N steps have an event before the place and an event after it.
/// - `at_a_moment`: at each time at most N steps have an event by then and a later event.
pub fn no_more_steps_are_under_way_than_lanes()
    ensures changes_at_a_place { (work : Work) (n : ℕ) (front rest : List Event) → IsTimeLine work n (front ++ rest)
        → open_after work front ≤ n }
    ensures steps_at_a_place { (work : Work) (n : ℕ) (front rest : List Event) → IsTimeLine work n (front ++ rest)
        → open_steps_after work front ≤ n }
    ensures on_both_sides { (work : Work) (n : ℕ) (front rest : List Event) → IsTimeLine work n (front ++ rest)
        → steps_on_both_sides work front rest ≤ n }
    ensures at_a_moment { (work : Work) (n moment : ℕ) (events : List Event) → IsTimeLine work n events
        → steps_under_way_at work moment events ≤ n }
{}
