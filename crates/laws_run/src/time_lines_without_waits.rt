//! Laws of time lines of changes that wait for nothing. For steps that wait for others see
//! `time_lines`.
//!
//! Each function does nothing, or calls the laws that its own law follows from: its contract is the
//! law.

ghost use Rattle.std.specs.Prelude.{All, IsTrue, List, [], get_or, length, sum_by, ℕ, ◌*◌, ◌++◌, ◌<◌, ◌≡◌, ◌≤◌};
ghost use Rattle.std.specs.List.{range_with_len};
ghost use Rattle.std.specs.List.Sorted.{IsNonDecreasingBy};
ghost use Rattle.apply_events.specs.Partition.{IsPartition};
ghost use Rattle.apply_events.specs.declared.event.Event.{Event};
ghost use Rattle.apply_events.specs.ChangeEvents.{span_of};
ghost use Rattle.apply_events.specs.OfWorker.{of_worker};
ghost use Rattle.apply_events.specs.Step.{Work};
ghost use Rattle.apply_events.specs.WorkerEvents.{worker_events};
ghost use Rattle.apply_events.specs.Lanes.Dealing.{lanes};
ghost use Rattle.laws_run.specs.ChangesUnderWay.{is_under_way_at, open_after, waits_at};
ghost use Rattle.laws_run.specs.Sharing.{free_before, under_way};
ghost use Rattle.laws_run.specs.StepTimes.{HasOneBegin};
ghost use Rattle.apply_events.specs.Lanes.TimeLine.{IsTimeLine};
ghost use Rattle.apply_events.specs.Waits.TimeLine as waiting;

use crate::steps_are_whole;

/// Two time lines of the same work by the same number of lanes are equal.
pub fn time_lines_without_waits_are_unique()
    ensures { (work : Work) (n : ℕ) (first second : List Event) → IsTimeLine work n first → IsTimeLine work n second
        → first ≡ second }
{}

/// Each change of the plan has one lane, and each lane has its changes in the plan's order.
pub fn lanes_deal_out_the_changes()
    ensures { (work : Work) (n : ℕ) → 0 < n → IsPartition n (length work.plan.changes) (lanes work n) }
{}

/// The times of the events never fall along a time line.
pub fn times_never_fall_without_waits()
    ensures { (work : Work) (n : ℕ) (events : List Event) → IsTimeLine work n events
        → IsNonDecreasingBy (λ (event : Event). event.at) events }
{}

/// A step starts once, and each event of a step that names elapsed seconds comes so many seconds
/// after the start.
///
/// So between a step's start and its end lie exactly the seconds that the end names. `of_steps`:
/// the law holds where steps wait for others, too.
pub fn a_step_takes_the_seconds_that_its_end_names()
    ensures of_changes { (work : Work) (n change step : ℕ) (events : List Event) → IsTimeLine work n events
        → HasOneBegin change step events }
    ensures of_steps { (work : Work) (n change step : ℕ) (events : List Event) → waiting.IsTimeLine work n events
        → HasOneBegin change step events }
{
    steps_are_whole();
}

/// One lane applies all changes in the plan's order.
pub fn one_lane_has_all_changes_in_order()
    ensures { (work : Work) (events : List Event) → IsTimeLine work 1 events
        → events ≡ worker_events work 0 (range_with_len 0 (length work.plan.changes)) }
{}

/// No event of a time line comes later than the sum of all spans.
pub fn a_time_line_ends_by_the_sum_of_all_spans()
    ensures { (work : Work) (n : ℕ) (events : List Event) → 0 < n → IsTimeLine work n events
        → All (λ event. event.at ≤ sum_by (span_of work) (range_with_len 0 (length work.plan.changes))) events }
{}

/// At no time are more changes under way than there are lanes.
///
/// `at_a_place`: at each place of a time line at most N changes have a step that has started and is
/// not over. A step is over with its end, or with its warning if the step only warns.
/// `at_a_moment`: at each time at most N changes have started and their spans are not over.
pub fn no_more_changes_are_under_way_than_lanes()
    ensures at_a_place { (work : Work) (n : ℕ) (front rest : List Event) → IsTimeLine work n (front ++ rest)
        → open_after work front ≤ n }
    ensures at_a_moment { (work : Work) (n moment : ℕ) → under_way work n moment ≤ n }
{}

/// No lane is idle while a change waits.
///
/// `at_a_moment`: while all events of some change are still to come, each lane has a change with an
/// event by then and a later event. `lowest_first`: a change goes to the lane that is free first.
/// Of lanes that are free at the same time, the change goes to the lowest.
pub fn no_lane_is_idle_while_a_change_waits()
    ensures at_a_moment { (work : Work) (n moment c lane : ℕ) (events : List Event) → IsTimeLine work n events
        → IsTrue (waits_at moment c events) → lane < n
        → (other : ℕ) × IsTrue (is_under_way_at moment other (of_worker lane events)) }
    ensures lowest_first { (work : Work) (n lane other place : ℕ) → lane < n → other < n
        → place < length (get_or (lanes work n) lane [])
        → (free_before work (lanes work n) lane (get_or (get_or (lanes work n) lane []) place 0)
        ≤ free_before work (lanes work n) other (get_or (get_or (lanes work n) lane []) place 0))
        × (other < lane → free_before work (lanes work n) lane (get_or (get_or (lanes work n) lane []) place 0)
        < free_before work (lanes work n) other (get_or (get_or (lanes work n) lane []) place 0)) }
{}

/// No time line ends before the sum of all spans divided by the number of lanes.
///
/// `of_events`: all events are by `end`. `of_lanes`: all lanes are free by `end`.
pub fn no_time_line_ends_before_the_mean()
    ensures of_events { (work : Work) (n end : ℕ) (events : List Event) → 0 < n → IsTimeLine work n events
        → All (λ event. event.at ≤ end) events
        → sum_by (span_of work) (range_with_len 0 (length work.plan.changes)) ≤ n * end }
    ensures of_lanes { (work : Work) (n end : ℕ) → 0 < n
        → ((lane : ℕ) → lane < n → sum_by (span_of work) (get_or (lanes work n) lane []) ≤ end)
        → sum_by (span_of work) (range_with_len 0 (length work.plan.changes)) ≤ n * end }
{}
