//! Laws of the schedule by which `record` finds waits.

ghost use Rattle.std.specs.Prelude.{◌≡◌, ℕ, List, Some, false};
ghost use Rattle.laws_record.specs.Schedules.{KeepsTime, StartsBehind, begin_of, waits_of};
ghost use Rattle.stream_record_waits.specs.Course.{Basis, Course, first_ready, is_put_back, pinned_waits};
ghost use Rattle.stream_record_waits.specs.LaneTime.{first_earliest};
ghost use Rattle.stream_record_waits.specs.declared.course.ReadyTurn.{ReadyTurn};

/// A stream whose steps begin no earlier than the schedule lets them gets no wait that it did not
/// have: no step is put back behind another one. `lanes` is how many changes run at once.
pub fn a_stream_that_keeps_time_gets_no_wait()
    ensures { (basis : Basis) (lanes : ℕ) → KeepsTime basis lanes → pinned_waits basis lanes ≡ waits_of basis }
{}

/// In a schedule of `record` each turn starts behind the step behind which it begins in the stream:
/// that step has ended before in the time line, or the turn was put back and waits for it. `turn` is
/// the one that is ready first in a round, and is not put back.
pub fn a_turn_starts_behind_the_step_that_it_began_behind()
    ensures { (basis : Basis) (course : Course) (turns : List ℕ) (turn : ReadyTurn)
        → first_ready basis course turns ≡ Some turn
        → is_put_back basis course turn.step (begin_of course turn) (first_earliest course.free) ≡ false
        → StartsBehind basis course turn }
{}
