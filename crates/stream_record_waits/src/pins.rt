//! The waits of steps with those of the steps that were put back.

ghost use Rattle.std.specs.Prelude.{◌≡◌, ◌++◌, IfOk, OnOk, filter, length, nat_lt};
ghost use Rattle.stream_record_waits.specs.Basis.{IsSound, basis_of, course_of};
ghost use Rattle.stream_record_waits.specs.Course.{first_pinned, with_wait};
ghost use Rattle.stream_record_waits.specs.Steps.{lists_in};

use crate::basis::StepBasis;
use crate::course::LaneCourse;
use std::alloc::{AllocError, Global};

/// The waits of all steps, with those of the steps that were put back. `Err` where memory is
/// refused.
pub(crate) fn with_pins(
    alloc: Global,
    basis: &StepBasis<'_>,
    course: &LaneCourse,
) -> Result<Vec<Vec<usize>>, AllocError>
    requires sound { IsSound (basis_of basis.now) }
    requires pinned { length course.now.pinned.items ≡ length basis.now.steps.now }
    ensures { IfOk result (λ waits. lists_in waits.items ≡ first_pinned (basis_of basis.now) (course_of course.now) (length basis.now.steps.now)) }
{
    let mut waits = Vec::new(alloc);
    for step in 0..basis.steps.len() {
        let pin = course.pin(basis, step);
        let row = with_wait(alloc, pin, basis.after[step].as_slice())?;
        waits.push(row)?;
    }
    Ok(waits)
}

/// The numbers in their order with one more, unless it is there.
fn with_wait(
    alloc: Global,
    wait: Option<usize>,
    numbers: &[usize],
) -> Result<Vec<usize>, AllocError>
    ensures { IfOk result (λ row. row.items ≡ with_wait wait numbers.now) }
{
    let Some(wait) = wait else {
        return Vec::from_slice(alloc, numbers);
    };
    let mut row = lower(alloc, numbers, wait)?;
    row.push(wait)?;
    add_higher(&mut row, numbers, wait)?;
    Ok(row)
}

/// The numbers that are lower than one.
fn lower(alloc: Global, numbers: &[usize], limit: usize) -> Result<Vec<usize>, AllocError>
    ensures { IfOk result (λ row. row.items ≡ filter (λ number. nat_lt number limit) numbers.now) }
{
    let mut row = Vec::new(alloc);
    for number in numbers {
        if *number < limit {
            row.push(*number)?;
        }
    }
    Ok(row)
}

/// Adds the numbers that are higher than one.
fn add_higher(row: &mut Vec<usize>, numbers: &[usize], limit: usize) -> Result<(), AllocError>
    ensures { OnOk result (row.new.items ≡ row.old.items ++ filter (λ number. nat_lt limit number) numbers.now) }
{
    for number in numbers {
        if limit < *number {
            row.push(*number)?;
        }
    }
    Ok(())
}
