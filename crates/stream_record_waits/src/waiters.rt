//! The steps that wait for each step, or may once they are put back.

ghost use Rattle.std.specs.Prelude.{◌≡◌, ◌∷◌, ◌<◌, All, IfOk, IfSome, OnOk, [], length, option_to_list};
ghost use Rattle.stream_record_waits.specs.Basis.{IsSound, basis_of};
ghost use Rattle.stream_record_waits.specs.Steps.{lists_in};
ghost use Rattle.stream_record_waits.specs.Waiters.{AreWaiters, Joins, all_waits};

use crate::basis::StepBasis;
use crate::no_waits::no_waits;
use crate::steps::step_before;
use std::alloc::{AllocError, Global};

/// The steps that wait for each step, or may once they are put back. `Err` where memory is refused.
pub(crate) fn waiters_of(
    alloc: Global,
    basis: &StepBasis<'_>,
) -> Result<Vec<Vec<usize>>, AllocError>
    requires { IsSound (basis_of basis.now) }
    ensures { IfOk result (λ waiters. AreWaiters (basis_of basis.now) (lists_in waiters.items)) }
{
    let mut waiters = no_waits(alloc, basis.steps.len())?;
    for step in 0..basis.steps.len() {
        add_all_waits(&mut waiters, basis, step)?;
    }
    Ok(waiters)
}

/// A step joins the waiters of all steps for which it may wait.
fn add_all_waits(
    waiters: &mut Vec<Vec<usize>>,
    basis: &StepBasis<'_>,
    step: usize,
) -> Result<(), AllocError>
    requires sound { IsSound (basis_of basis.now) }
    requires waiters { length waiters.old.items ≡ length basis.now.steps.now }
    requires step { step < length basis.now.steps.now }
    ensures { OnOk result (Joins step (all_waits (basis_of basis.now) step) (lists_in waiters.old.items) (lists_in waiters.new.items)) }
{
    add_to_one(waiters, basis.behind[step], step)?;
    add_to_one(waiters, step_before(basis.steps, step), step)?;
    add_to_all(waiters, basis.after[step].as_slice(), step)?;
    Ok(())
}

/// A step joins the waiters of a step, if there is one.
fn add_to_one(
    waiters: &mut Vec<Vec<usize>>,
    wait: Option<usize>,
    step: usize,
) -> Result<(), AllocError>
    requires { IfSome wait (λ wait. wait < length waiters.old.items) }
    ensures { OnOk result (Joins step (option_to_list wait) (lists_in waiters.old.items) (lists_in waiters.new.items)) }
{
    match wait {
        Some(wait) => add(waiters, wait, step),
        None => Ok(()),
    }
}

/// A step joins the waiters of these steps.
fn add_to_all(waiters: &mut Vec<Vec<usize>>, waits: &[usize], step: usize) -> Result<(), AllocError>
    requires { All (λ wait. wait < length waiters.old.items) waits.now }
    ensures { OnOk result (Joins step waits.now (lists_in waiters.old.items) (lists_in waiters.new.items)) }
{
    for wait in waits {
        add(waiters, *wait, step)?;
    }
    Ok(())
}

/// A step joins the waiters of a step.
fn add(waiters: &mut Vec<Vec<usize>>, wait: usize, step: usize) -> Result<(), AllocError>
    requires { wait < length waiters.old.items }
    ensures { OnOk result (Joins step (wait ∷ []) (lists_in waiters.old.items) (lists_in waiters.new.items)) }
{
    waiters[wait].push(step)?;
    Ok(())
}
