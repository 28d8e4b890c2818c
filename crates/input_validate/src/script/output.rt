//! Checks the `output` of a provisioner.
//!
//! Every `Err` means that memory was refused.

ghost use Rattle.std.specs.Prelude.{◌≡◌, IfOk, None};
ghost use Rattle.std.specs.Option.{option_copied};
ghost use Rattle.serde_json.specs.View.{items_view, view};
ghost use Rattle.apply_json.specs.Tree.{list_of};
ghost use Rattle.input_validate.specs.Findings.{reported};
ghost use Rattle.input_validate.specs.ScriptFindings.{comes_after, in_output, in_outputs, is_over, output_violations, outputs_after, whole_at};

use crate::findings::expected::Expected;
use crate::findings::list::{Findings, joined};
use crate::findings::name::Name;
use crate::findings::path::Segment;
use crate::findings::problem::Problem;
use crate::rules::ignored_members::walk_ignored;
use crate::rules::members::{faults, items_at, walk_violations};
use crate::rules::rule::MemberRule;
use crate::rules::violation::Violation;
use apply_json_tree::members::member;
use serde_json::Value;
use std::alloc::{AllocError, Global};

const TABLE: [MemberRule; 2] = [
    MemberRule {
        name: Name::After,
        expected: Expected::WholeOrAbsent,
    },
    MemberRule {
        name: Name::Text,
        expected: Expected::Text,
    },
];

pub(crate) const NAMES: [Name; 2] = [Name::After, Name::Text];

/// Reads a member that is a whole number.
pub(crate) fn whole_at(value: &Value, name: Name) -> Option<u64>
    ensures { result ≡ whole_at name (view value.now) }
{
    member(value, name.text())?.as_u64()
}

/// Returns whether a number is over a limit. It is not if one of them is missing.
fn is_over(most: Option<u64>, number: Option<u64>) -> bool
    ensures { result ≡ is_over most number }
{
    match (most, number) {
        (Some(most), Some(number)) => number > most,
        _ => false,
    }
}

/// Tests whether an item comes after the end of its provisioner, or before the item in front of it.
fn violations(seconds: Option<u64>, before: Option<u64>, item: &Value) -> [Violation; 2]
    ensures { result ≡ output_violations seconds before (view item.now) }
{
    let after = whole_at(item, Name::After);
    [
        Violation {
            holds: is_over(seconds, after),
            at: Some(Name::After),
            problem: Problem::AfterTheEnd(seconds.unwrap_or(0)),
        },
        Violation {
            holds: is_over(after, before),
            at: Some(Name::After),
            problem: Problem::OutOfOrder(before.unwrap_or(0)),
        },
    ]
}

/// Returns the second at which an item comes. An item without `after` comes at the end of its
/// provisioner.
fn comes_after(seconds: Option<u64>, item: &Value) -> Option<u64>
    ensures { result ≡ comes_after seconds (view item.now) }
{
    match member(item, Name::After.text()) {
        Some(after) => after.as_u64(),
        None => seconds,
    }
}

/// Checks an item. `seconds` is how long its provisioner takes, and `before` is when the previous
/// item comes.
#[tactic(auto, unfolding(crate::specs::ScriptFindings::in_output))]
fn walk_output(
    alloc: Global,
    seconds: Option<u64>,
    before: Option<u64>,
    item: &Value,
) -> Result<Findings, AllocError>
    ensures { IfOk result (λ f. f ≡ reported (in_output seconds before (view item.now))) }
{
    if !item.is_object() {
        return Ok(Findings::none(alloc));
    }
    let all = faults(alloc, item, &TABLE);
    let all = joined(
        all,
        walk_violations(alloc, &violations(seconds, before, item)),
    );
    joined(all, walk_ignored(alloc, item, &NAMES))
}

/// Checks the items of a provisioner that takes `seconds`.
fn walk_items(alloc: Global, seconds: Option<u64>, items: &[Value]) -> Result<Findings, AllocError>
    ensures { IfOk result (λ f. f ≡ reported (outputs_after seconds None 0 (list_of (items_view items.now)))) }
{
    let mut all = Findings::none(alloc);
    let mut before = None;
    for (number, item) in items.iter().enumerate() {
        let findings = walk_output(alloc, seconds, before, item)?.under(Segment::Item(number))?;
        all = all.then(findings)?;
        before = comes_after(seconds, item);
    }
    Ok(all)
}

/// Checks when the items of a provisioner come, and their members.
pub fn walk_outputs(alloc: Global, provisioner: &Value) -> Result<Findings, AllocError>
    ensures { IfOk result (λ f. f ≡ reported (in_outputs (view provisioner.now))) }
{
    let seconds = whole_at(provisioner, Name::Seconds);
    let findings = walk_items(alloc, seconds, items_at(provisioner, Name::Output))?;
    findings.under(Segment::Member(Name::Output))
}
