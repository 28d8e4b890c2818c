//! Locates the first step of a script that waits for other steps.
//!
//! Every `Err` means that memory was refused.

ghost use Rattle.std.specs.Prelude.{◌≡◌, IfOk, map};
ghost use Rattle.std.specs.List.{list_any, position_from};
ghost use Rattle.std.specs.Option.{option_copied};
ghost use Rattle.serde_json.specs.View.{view};
ghost use Rattle.input_validate.specs.AgainstPlan.{entry_waiting, first_waiting, has_waiting, is_waited_for, is_waiting, path_in, path_to, place_of_waits, step_waiting, waits_findings};
ghost use Rattle.input_validate.specs.Findings.{reported};

use crate::against_plan::planned::Planned;
use crate::against_plan::violations::change_at;
use crate::findings::list::Findings;
use crate::findings::name::Name;
use crate::findings::path::{Path, Segment};
use crate::findings::problem::Problem;
use crate::rules::members::items_at;
use crate::script::step::is_skipped;
use serde_json::Value;
use std::alloc::{AllocError, Global};

/// Returns whether a step really waits for an item of its `after`. A change without steps is
/// nothing to wait for.
fn is_waited_for<'a>(planned: Option<&Planned<'a>>, item: &'a Value) -> bool
    ensures { result ≡ is_waited_for (option_copied planned.entry) (view item.now) }
{
    match change_at(planned, item) {
        Some(change) => !change.steps().is_empty(),
        None => true,
    }
}

/// Returns whether a step really waits for one of these items of its `after`.
fn is_any_waited_for<'a>(planned: Option<&Planned<'a>>, items: &'a [Value]) -> bool
    ensures { result ≡ list_any (is_waited_for (option_copied planned.entry)) (map view items.now) }
{
    for item in items {
        if is_waited_for(planned, item) {
            return true;
        }
    }
    false
}

/// Returns whether a step waits for other steps. A skipped step waits for nothing.
fn is_waiting<'a>(planned: Option<&Planned<'a>>, step: &'a Value) -> bool
    ensures { result ≡ is_waiting (option_copied planned.entry) (view step.now) }
{
    !is_skipped(step) && is_any_waited_for(planned, items_at(step, Name::After))
}

/// Finds the first of these steps that waits.
fn first_of<'a>(planned: Option<&Planned<'a>>, steps: &'a [Value]) -> Option<usize>
    ensures { result ≡ position_from (is_waiting (option_copied planned.entry)) 0 (map view steps.now) }
{
    for (number, step) in steps.iter().enumerate() {
        if is_waiting(planned, step) {
            return Some(number);
        }
    }
    None
}

/// Finds the first step of an entry that waits.
fn first_waiting<'a>(planned: Option<&Planned<'a>>, entry: &'a Value) -> Option<usize>
    ensures { result ≡ first_waiting (option_copied planned.entry) (view entry.now) }
{
    first_of(planned, items_at(entry, Name::Steps))
}

/// Returns whether an entry has a step that waits.
fn has_waiting<'a>(planned: Option<&Planned<'a>>, entry: &'a Value) -> bool
    ensures { result ≡ has_waiting (option_copied planned.entry) (view entry.now) }
{
    first_waiting(planned, entry).is_some()
}

/// Finds the first of these entries that has a waiting step.
fn first_entry_of<'a>(planned: Option<&Planned<'a>>, entries: &'a [Value]) -> Option<usize>
    ensures { result ≡ position_from (has_waiting (option_copied planned.entry)) 0 (map view entries.now) }
{
    for (number, entry) in entries.iter().enumerate() {
        if has_waiting(planned, entry) {
            return Some(number);
        }
    }
    None
}

/// Finds the first entry of a script that has a waiting step.
fn entry_waiting<'a>(planned: Option<&Planned<'a>>, script: &'a Value) -> Option<usize>
    ensures { result ≡ entry_waiting (option_copied planned.entry) (view script.now) }
{
    first_entry_of(planned, items_at(script, Name::Changes))
}

/// Makes the path to the `after` of the first waiting step. The path is empty if no step waits.
pub fn place_of_waits<'a>(
    alloc: Global,
    planned: Option<&Planned<'a>>,
    script: &'a Value,
) -> Result<Path, AllocError>
    ensures { IfOk result (λ path. path ≡ place_of_waits (option_copied planned.entry) (view script.now)) }
{
    match entry_waiting(planned, script) {
        Some(entry) => path_in(alloc, planned, script, entry),
        None => Ok(Path::here(alloc)),
    }
}

/// Reports, once and at the first waiting step, that steps of a script wait.
pub fn waits_findings<'a>(
    alloc: Global,
    planned: Option<&Planned<'a>>,
    script: &'a Value,
) -> Result<Findings, AllocError>
    ensures { IfOk result (λ f. f ≡ reported (waits_findings (option_copied planned.entry) (view script.now))) }
{
    match entry_waiting(planned, script) {
        Some(entry) => Findings::one(
            alloc,
            path_in(alloc, planned, script, entry)?,
            Problem::Waits,
        ),
        None => Ok(Findings::none(alloc)),
    }
}

/// Makes the path to the `after` of the first waiting step in the entry with this number.
fn path_in<'a>(
    alloc: Global,
    planned: Option<&Planned<'a>>,
    script: &'a Value,
    entry: usize,
) -> Result<Path, AllocError>
    ensures { IfOk result (λ path. path ≡ path_in (option_copied planned.entry) (view script.now) entry) }
{
    let entries = items_at(script, Name::Changes);
    path_to(alloc, entry, step_waiting(planned, entries, entry))
}

/// Finds the first waiting step in the entry with this number. The answer is 0 if no step waits.
fn step_waiting<'a>(planned: Option<&Planned<'a>>, entries: &'a [Value], entry: usize) -> usize
    ensures { result ≡ step_waiting (option_copied planned.entry) (map view entries.now) entry }
{
    match entries.get(entry) {
        Some(chosen) => first_waiting(planned, chosen).unwrap_or(0),
        None => 0,
    }
}

/// Makes the path to the `after` of a step.
fn path_to(alloc: Global, entry: usize, step: usize) -> Result<Path, AllocError>
    ensures { IfOk result (λ path. path ≡ path_to entry step) }
{
    let mut path = Path::here(alloc);
    path.begin_with(Segment::Member(Name::After))?;
    path.begin_with(Segment::Item(step))?;
    path.begin_with(Segment::Member(Name::Steps))?;
    path.begin_with(Segment::Item(entry))?;
    path.begin_with(Segment::Member(Name::Changes))?;
    Ok(path)
}
