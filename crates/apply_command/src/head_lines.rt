//! Which lines of the plan stand before an apply.
//!
//! Every `Err` means that memory was refused, or that there would be 2^32 lines before an apply. No
//! plan and no script have so many.

ghost use Rattle.std.specs.Prelude.{◌≡◌, ◌<◌, ◌+◌, ◌^◌, ◌++◌, length, map, true, IfOk, OnOk};
ghost use Rattle.std.specs.List.{list_all};
ghost use Rattle.apply_command.specs.declared.head_line.HeadLine.TheVariants as line;
ghost use Rattle.apply_command.specs.Head as specs;
ghost use Rattle.apply_command.specs.InTime.{is_in_time};

use crate::head_line::HeadLine;
use apply_prior::PlannedOutput;
use std::alloc::{AllocError, Global};

/// The lines of the plan, if it is told: drifts and changes by their numbers, the sums, and the
/// outputs, if there are some. The version and `event_count` events come before them.
pub(crate) fn plan_lines(
    alloc: Global,
    event_count: u32,
    is_told: bool,
    drifts: &[usize],
    changes: &[u32],
    outputs: &[PlannedOutput],
) -> Result<Vec<HeadLine>, AllocError>
    ensures lines { IfOk result (λ lines. lines.items ≡ specs.plan_lines is_told drifts.now changes.now outputs.now) }
    ensures few { IfOk result (λ lines. 1 + event_count + length lines.items < 2 ^ 32) }
    ensures in_time { IfOk result (λ lines. list_all is_in_time lines.items ≡ true) }
{
    let mut lines = Vec::new(alloc);
    if is_told {
        push_drifts(&mut lines, drifts)?;
        push_changes(&mut lines, changes)?;
        lines.push(HeadLine::Summary)?;
        if !outputs.is_empty() {
            lines.push(HeadLine::Outputs)?;
        }
    }
    if lines.len() >= (u32::MAX - event_count) as usize {
        return Err(AllocError);
    }
    Ok(lines)
}

/// Appends a line for each of these drifts.
fn push_drifts(lines: &mut Vec<HeadLine>, drifts: &[usize]) -> Result<(), AllocError>
    ensures lines { OnOk result (lines.new.items ≡ lines.old.items ++ map line.Drift drifts.now) }
    ensures in_time { OnOk result (list_all is_in_time lines.old.items ≡ true → list_all is_in_time lines.new.items ≡ true) }
{
    for number in drifts {
        lines.push(HeadLine::Drift(*number))?;
    }
    Ok(())
}

/// Appends a line for each of these changes.
fn push_changes(lines: &mut Vec<HeadLine>, changes: &[u32]) -> Result<(), AllocError>
    ensures lines { OnOk result (lines.new.items ≡ lines.old.items ++ map line.Planned changes.now) }
    ensures in_time { OnOk result (list_all is_in_time lines.old.items ≡ true → list_all is_in_time lines.new.items ≡ true) }
{
    for number in changes {
        lines.push(HeadLine::Planned(*number))?;
    }
    Ok(())
}
