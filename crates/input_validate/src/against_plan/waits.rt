//! Counts the items of `after`, of which a script may have 1,000,000.
//!
//! Every `Err` means that memory was refused.

ghost use Rattle.std.specs.Prelude.{◌≡◌, IfOk};
ghost use Rattle.serde_json.specs.View.{items_view, view};
ghost use Rattle.apply_json.specs.Tree.{list_of};
ghost use Rattle.input_validate.specs.AgainstPlan.{beyond_at, beyond_in, waits_left_after, waits_beyond};
ghost use Rattle.input_validate.specs.Findings.{reported};

use crate::findings::list::Findings;
use crate::findings::name::Name;
use crate::findings::path::Segment;
use crate::findings::problem::Problem;
use crate::rules::members::{count_at, items_at};
use serde_json::Value;
use std::alloc::{AllocError, Global};

/// Counts how many more items a script may have after these steps, if `most` were left before them.
/// `None` if the steps have more than `most` items.
pub fn waits_left_after(most: usize, steps: &[Value]) -> Option<usize>
    ensures { result ≡ waits_left_after most (list_of (items_view steps.now)) }
{
    let mut left = most;
    for step in steps {
        let count = count_at(step, Name::After);
        if count > left {
            return None;
        }
        left -= count;
    }
    Some(left)
}

/// Reports the first item after the first `most` items of these steps.
fn walk_beyond(alloc: Global, most: usize, steps: &[Value]) -> Result<Findings, AllocError>
    ensures { IfOk result (λ f. f ≡ reported (waits_beyond most 0 (list_of (items_view steps.now)))) }
{
    let mut left = most;
    for (number, step) in steps.iter().enumerate() {
        let count = count_at(step, Name::After);
        if count > left {
            return beyond(alloc, number, left);
        }
        left -= count;
    }
    Ok(Findings::none(alloc))
}

/// Reports one item as beyond the limit. `step` and `item` are its place.
fn beyond(alloc: Global, step: usize, item: usize) -> Result<Findings, AllocError>
    ensures { IfOk result (λ f. f ≡ reported (beyond_at step item)) }
{
    let findings = Findings::here(alloc, Problem::TooManyWaits)?;
    let findings = findings.under(Segment::Item(item))?;
    let findings = findings.under(Segment::Member(Name::After))?;
    findings.under(Segment::Item(step))
}

/// Reports the first item of an entry that is beyond the limit. Nothing is reported without a plan,
/// or if an earlier entry went beyond the limit already.
pub fn walk_beyond_in(
    alloc: Global,
    has_plan: bool,
    left: Option<usize>,
    entry: &Value,
) -> Result<Findings, AllocError>
    ensures { IfOk result (λ f. f ≡ reported (beyond_in has_plan left (view entry.now))) }
{
    match left {
        Some(most) if has_plan => {
            let findings = walk_beyond(alloc, most, items_at(entry, Name::Steps))?;
            findings.under(Segment::Member(Name::Steps))
        }
        _ => Ok(Findings::none(alloc)),
    }
}
