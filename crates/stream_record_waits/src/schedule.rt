//! The schedule of the steps that began.

ghost use Rattle.std.specs.Prelude.{◌≡◌, ◌<◌, ◌^◌, IfOk, length, map, ℕ};
ghost use Rattle.stream_record_waits.specs.Basis.{IsSound, basis_of, course_of, first_mark};
ghost use Rattle.stream_record_waits.specs.Course.{first_course, schedule, seconds_at};
ghost use Rattle.stream_record_waits.specs.Steps.{lists_in};

use crate::basis::StepBasis;
use crate::course::{LaneCourse, Mark};
use crate::lane_time::LaneTime;
use crate::waiters::waiters_of;
use std::alloc::{AllocError, Global};

/// The schedule in so many lanes. `Err` where memory is refused.
pub(crate) fn schedule(
    alloc: Global,
    basis: &StepBasis<'_>,
    lanes: u8,
) -> Result<LaneCourse, AllocError>
    requires sound { IsSound (basis_of basis.now) }
    requires lanes { 0 < lanes }
    ensures course { IfOk result (λ course. course_of course ≡ schedule (basis_of basis.now) lanes) }
    ensures pinned { IfOk result (λ course. length course.pinned.items ≡ length basis.now.steps.now) }
{
    seconds_are_short(basis);
    let waiters = waiters_of(alloc, basis)?;
    let mut marks = first_marks(alloc, basis.after)?;
    let mut course = first_course(alloc, basis.steps.len(), lanes)?;
    let mut turns = course.ready_turns(alloc, basis, &mut marks)?;
    for round in 0..2 * basis.steps.len() {
        let Some(step) = course.round(basis, &turns) else {
            return Ok(course);
        };
        course.renew_after(basis, waiters.as_slice(), &mut marks, &mut turns, step);
    }
    Ok(course)
}

/// Each step takes seconds of 32 bits.
fn seconds_are_short(basis: &StepBasis<'_>)
    ensures { (step : ℕ) → step < length basis.now.steps.now → seconds_at (basis_of basis.now) step < 2 ^ 32 }
{
    for step in 0..basis.steps.len() {
        let _seconds = basis.seconds(step);
    }
}

/// The course before the first round.
fn first_course(alloc: Global, count: usize, lanes: u8) -> Result<LaneCourse, AllocError>
    ensures { IfOk result (λ course. course_of course ≡ first_course count lanes) }
{
    Ok(LaneCourse {
        ends: vec![in alloc; None; count]?,
        free: vec![in alloc; LaneTime::first(); lanes as usize]?,
        pinned: vec![in alloc; false; count]?,
    })
}

/// The mark of each step before the first round.
fn first_marks(alloc: Global, after: &[Vec<usize>]) -> Result<Vec<Mark>, AllocError>
    ensures { IfOk result (λ marks. marks.items ≡ map first_mark (lists_in after.now)) }
{
    let mut marks = Vec::with_capacity(alloc, after.len())?;
    for waits in after {
        marks.push(Mark {
            left: waits.len(),
            at: LaneTime::first(),
        })?;
    }
    Ok(marks)
}
