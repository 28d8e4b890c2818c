//! Reading a script.

ghost use Rattle.std.specs.Prelude.{◌≡◌, ◌≢◌, ◌≤◌, IfErr, IfOk, List, Ok, length};
ghost use Rattle.std.specs.Result.{result_err};
ghost use Rattle.serde_json.specs.Data.{Data};
ghost use Rattle.apply_plan.specs.Bytes.{max_bytes};
ghost use Rattle.apply_plan.specs.Results.{Gives};
ghost use Rattle.apply_plan.specs.Script.EntriesView.{HoldsEntries};
ghost use Rattle.apply_plan.specs.Script.NeverBeginning.{elements_in, never_beginning_of, refusal_of};
ghost use Rattle.apply_plan.specs.Script.OutcomeMap.{script_of};

use crate::bytes::MAX_BYTES;
use crate::script::entries::Entries;
use crate::script::script_error::ScriptError;
use crate::script::script_slots::ScriptSlots;
use apply_json::{ArrayPresence, Scratch, read_slots};
use apply_model::{Plan, Script};
use std::alloc::Global;

/// Reads a script of outcomes for a plan.
///
/// A script is a JSON object with an array `changes`. Each entry of `changes` has the `address` and
/// the `deposed` key of a change, and the outcomes of its first steps.
///
/// Unknown members are ignored, `null` counts as absent, and the last of two members with the same
/// name counts. `Err` is the first fault in the order of [`ScriptError`]. `ScriptError::Memory`
/// comes as soon as memory is refused, but never for a script that is too large.
pub fn read_script(alloc: Global, bytes: &[u8], plan: &Plan) -> Result<Script, ScriptError>
    ensures defined { Gives ScriptError.Memory (λ script. script) result
        (script_of plan.now bytes.now) }
    ensures memory { result ≡ Err ScriptError.Memory → length bytes.now ≤ max_bytes }
{
    let mut scratch = Scratch::new(alloc);
    read_entries(alloc, &mut scratch, bytes, plan)?.script(alloc)
}

/// Lists the numbers of all entries with a step that can never start.
///
/// [`read_script`] names only the first of these entries. The list is empty for a valid script.
/// `Err` is any other fault, as in [`read_script`].
pub fn never_beginning(alloc: Global, bytes: &[u8], plan: &Plan) -> Result<Vec<u32>, ScriptError>
    ensures defined { Gives ScriptError.Memory (λ numbers. numbers.items) result
        (never_beginning_of plan.now bytes.now) }
    ensures first { result_err (script_of plan.now bytes.now) ≡ refusal_of (never_beginning_of plan.now bytes.now) }
    ensures memory { result ≡ Err ScriptError.Memory → length bytes.now ≤ max_bytes }
{
    let mut scratch = Scratch::new(alloc);
    read_entries(alloc, &mut scratch, bytes, plan)?.never_beginning(alloc)
}

/// Reads the entries of a script. A fault of an entry is stored in `Entries`.
///
/// `Err` is `TooLarge`, `NotJson`, `BadShape(None)` or `Memory`.
fn read_entries<'a>(
    alloc: Global,
    scratch: &'a mut Scratch,
    bytes: &'a [u8],
    plan: &'a Plan,
) -> Result<Entries<'a>, ScriptError>
    ensures ok { IfOk result (λ entries. (entries.plan ≡ plan.entry)
        × (ds : List Data) × (elements_in bytes.now ≡ Ok ds) × HoldsEntries entries ds) }
    ensures err { IfErr result (λ refusal. refusal ≢ ScriptError.Memory → elements_in bytes.now ≡ Err refusal) }
    ensures memory { result ≢ Err ScriptError.TooLarge → length bytes.now ≤ max_bytes }
{
    if bytes.len() > MAX_BYTES {
        return Err(ScriptError::TooLarge);
    }
    let mut slots = ScriptSlots::new(alloc, plan)?;
    match read_slots(alloc, scratch, bytes, MAX_BYTES, &mut slots) {
        Ok(()) => slots.entries(),
        Err(fault) => Err(ScriptError::of_json(fault)),
    }
}
