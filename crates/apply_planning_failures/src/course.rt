//! What a planning meets, event by event.
//!
//! Every `Err` means that memory was refused, or that there are 2^32 events.

ghost use Rattle.std.specs.Prelude.{◌≡◌, IfOk};
ghost use Rattle.apply_events.specs.Waits.Merging.{time_line};
ghost use Rattle.apply_planning.specs.PlanningWork.{planning_work};
ghost use Rattle.apply_planning.specs.Schedule.{IsScheduleOf};
ghost use Rattle.apply_planning_failures.specs.Course.{IsCourseOf};

use crate::failures::{is_note, push_failure};
use crate::met::Course;
use apply_planning::{Schedule, Told};
use std::alloc::{AllocError, Global};

/// What the planning of these objects meets. None of its events is kept.
pub fn course_of(alloc: Global, schedule: &Schedule, told: &[Told]) -> Result<Course, AllocError>
    requires { IsScheduleOf told.now schedule.now }
    ensures { IfOk result (IsCourseOf (record { told = told.now; events = time_line (planning_work told.now) schedule.now.lanes })) }
{
    let mut events = schedule.events(alloc, told)?;
    let mut notes = Vec::new(alloc);
    let mut begun = vec![in alloc; false; told.len()]?;
    let mut event_count: u32 = 0;
    while let Some(event) = events.next() {
        if event_count == u32::MAX {
            return Err(AllocError);
        }
        event_count += 1;
        let number = event.change as usize;
        begun[number] = true;
        push_failure(alloc, &mut notes, is_note(event.what), told.get(number))?;
    }
    Ok(Course {
        notes,
        begun,
        event_count,
    })
}
