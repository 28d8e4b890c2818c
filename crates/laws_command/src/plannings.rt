//! Laws of plannings: when objects are refreshed and read.

ghost use Rattle.std.specs.Prelude.{◌≡◌, ◌<◌, ◌≤◌, ◌++◌, ℕ, List};
ghost use Rattle.apply_events.specs.declared.event.Event.{Event};
ghost use Rattle.apply_events.specs.Waits.Merging.{time_line};
ghost use Rattle.apply_planning.specs.declared.told.Told.{Told};
ghost use Rattle.apply_planning.specs.PlanningWork.{planning_work};
ghost use Rattle.laws_command.specs.Plannings.{BeginWhereAllIsDone, ComeAfterWhatTheyNeed, RunOnce};
ghost use Rattle.laws_run.specs.ChangesUnderWay.{open_after};

use laws_run::{
    a_step_begins_exactly_where_its_waits_are_done, a_step_comes_after_what_it_waits_for,
    no_more_steps_are_under_way_than_lanes, steps_are_whole, there_is_a_time_line,
};

/// How many objects are refreshed and read at once? With `--parallelism N` at most N.
///
/// At each place of a planning at most as many objects as lanes have started and have neither ended
/// nor failed.
pub fn no_more_objects_are_under_way_than_lanes()
    ensures { (told : List Told) (lanes : ℕ) (front rest : List Event) → 0 < lanes
        → time_line (planning_work told) lanes ≡ front ++ rest → open_after (planning_work told) front ≤ lanes }
{
    there_is_a_time_line();
    no_more_steps_are_under_way_than_lanes();
}

/// Is an object refreshed before what it depends on? Never: each event of an object comes after
/// every event of each object whose name it depends on.
pub fn a_refresh_comes_after_what_it_waits_for()
    ensures { (told : List Told) (lanes : ℕ) → 0 < lanes → ComeAfterWhatTheyNeed told (time_line (planning_work told) lanes) }
{
    there_is_a_time_line();
    a_step_comes_after_what_it_waits_for();
    a_step_begins_exactly_where_its_waits_are_done();
}

/// Is an object refreshed or read twice? Never: one that is not left out starts once, and ends once
/// or fails.
pub fn each_object_is_refreshed_or_read_once()
    ensures { (told : List Told) (lanes : ℕ) → 0 < lanes → RunOnce told (time_line (planning_work told) lanes) }
{
    there_is_a_time_line();
    steps_are_whole();
}

/// Which objects are left out? Those that wait for one that fails with an error or is left out
/// itself, and no other.
pub fn what_waits_for_a_failure_is_left_out()
    ensures { (told : List Told) (lanes : ℕ) → 0 < lanes → BeginWhereAllIsDone told (time_line (planning_work told) lanes) }
{
    there_is_a_time_line();
    a_step_begins_exactly_where_its_waits_are_done();
}
