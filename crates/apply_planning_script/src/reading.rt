//! Reads what a script says of a planning.

ghost use Rattle.std.specs.Prelude.{◌≡◌, option_map};
ghost use Rattle.apply_plan.specs.NoTree.{script_refusal};
ghost use Rattle.apply_plan.specs.Results.{Gives};
ghost use Rattle.apply_planning_script.specs.Planning.{said_in, said_in_option};
ghost use Rattle.apply_planning_script.specs.RawItems.{read_view};

use crate::planning_slots::PlanningSlots;
use crate::raw_items::RawItems;
use apply_json::{JsonFault, Scratch, read_slots};
use apply_plan::{MAX_BYTES, ScriptError};
use std::alloc::Global;

/// Reads the items of `planning` from the bytes of a script. Items after the first one that is none
/// do not count.
///
/// `scratch` grows to the length of the bytes. `Err` is `TooLarge`, `NotJson`, `BadShape(None)` or
/// `Memory`.
pub fn read_items<'a>(
    alloc: Global,
    scratch: &'a mut Scratch,
    bytes: &'a [u8],
) -> Result<RawItems<'a>, ScriptError>
    ensures { Gives ScriptError.Memory read_view result (said_in bytes.now) }
{
    let mut slots = PlanningSlots::new(alloc);
    match read_slots(alloc, scratch, bytes, MAX_BYTES, &mut slots) {
        Ok(()) => slots.items(),
        Err(fault) => Err(refusal(fault)),
    }
}

/// The error of a script for the fault of the JSON reader.
fn refusal(fault: JsonFault) -> ScriptError
    ensures { result ≡ script_refusal fault }
{
    match fault {
        JsonFault::TooLarge => ScriptError::TooLarge,
        JsonFault::NotJson => ScriptError::NotJson,
        JsonFault::Memory => ScriptError::Memory,
    }
}

/// Reads the items of a script that may be absent. Its errors are those of `read_items`.
pub fn read_script<'a>(
    alloc: Global,
    scratch: &'a mut Scratch,
    script: Option<&'a [u8]>,
) -> Result<RawItems<'a>, ScriptError>
    ensures { Gives ScriptError.Memory read_view result (said_in_option (option_map (λ bytes. bytes.now) script.entry)) }
{
    match script {
        Some(bytes) => read_items(alloc, scratch, bytes),
        None => Ok(RawItems::new(alloc)),
    }
}
