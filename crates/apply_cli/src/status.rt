//! The exit statuses.

ghost use Rattle.std.specs.Prelude.{◌≡◌, ◌≤◌, ◌↔◌, IsTrue};
ghost use Rattle.apply_cli.specs.Status.{input_status_of, refusal_status_of};

use crate::input_fault::InputFault;
use apply_plan::{PlanError, ScriptError};
use apply_run::Refusal;

/// A step failed, or was halted.
const UNFINISHED: u8 = 1;

/// The arguments, the input or the script could not be read, or were refused.
pub const REFUSED: u8 = 2;

/// Memory or a thread was refused, or the output could not be written.
pub const FAILED: u8 = 3;

/// Returns the status for an input that could not be read.
pub fn input_status(fault: InputFault) -> u8
    ensures status { result ≡ input_status_of fault }
    ensures bad { (2 ≤ result) × (result ≤ 3) }
{
    match fault {
        InputFault::Read => REFUSED,
        InputFault::Memory => FAILED,
    }
}

/// Returns the status for a plan that was not applied, or not to the end.
pub fn refusal_status(refusal: Refusal) -> u8
    ensures status { result ≡ refusal_status_of refusal }
    ensures bad { (2 ≤ result) × (result ≤ 3) }
{
    match refusal {
        Refusal::Plan(PlanError::Memory) | Refusal::Script(ScriptError::Memory) => FAILED,
        Refusal::Plan(_) | Refusal::Script(_) | Refusal::Waits | Refusal::Size => REFUSED,
        Refusal::Fault(_) => FAILED,
    }
}

/// Returns the status for a run that succeeded: 1 if its stream reports an error, else 0.
pub fn run_status(contains_error: bool) -> u8
    ensures status { (result ≡ 1) ↔ IsTrue contains_error }
    ensures good { result ≤ 1 }
{
    if contains_error { UNFINISHED } else { 0 }
}
