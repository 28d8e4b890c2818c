//! Checks `planning` in the tree of a script.
//!
//! Every `Err` means that memory was refused.

ghost use Rattle.std.specs.Prelude.{◌≡◌, [], IfOk};
ghost use Rattle.std.specs.Option.{option_copied};
ghost use Rattle.serde_json.specs.View.{items_view, view};
ghost use Rattle.apply_json.specs.Tree.{list_of};
ghost use Rattle.input_validate.specs.Findings.{reported};
ghost use Rattle.input_validate.specs.Planning.{in_planned_after, in_planning, planning_violation};
ghost use Rattle.input_validate.specs.Rules.{items_after};

use crate::against_plan::first_named::FirstNamed;
use crate::findings::expected::Expected;
use crate::findings::list::Findings;
use crate::findings::name::Name;
use crate::findings::path::Segment;
use crate::findings::problem::Problem;
use crate::planning::entry::walk_planned;
use crate::planning::known_objects::KnownObjects;
use crate::planning::object::planned_name;
use crate::rules::members::{count_at, fault, items_at, walk_violations};
use crate::rules::rule::MemberRule;
use crate::rules::violation::Violation;
use serde_json::Value;
use std::alloc::{AllocError, Global};

/// The most entries that a run reads.
pub const MAX_PLANNED: usize = 9_999;

const PLANNING: MemberRule = MemberRule {
    name: Name::Planning,
    expected: Expected::ArrayOrAbsent,
};

/// Checks the entries in order.
fn walk_entries<'a>(
    alloc: Global,
    known: Option<&KnownObjects<'a>>,
    entries: &'a [Value],
) -> Result<Findings, AllocError>
    ensures { IfOk result (λ f. f ≡ reported (items_after (in_planned_after (option_copied known.entry)) [] (list_of (items_view entries.now)))) }
{
    let mut all = Findings::none(alloc);
    let mut named = FirstNamed::new(alloc);
    for (number, entry) in entries.iter().enumerate() {
        let name = planned_name(entry);
        let findings = walk_planned(alloc, known, named.get(name), entry)?;
        all = all.then(findings.under(Segment::Item(number))?)?;
        named.push(name, number)?;
    }
    Ok(all)
}

/// Tests whether a script has more entries than a run reads.
fn planning_violation(script: &Value) -> Violation
    ensures { result ≡ planning_violation (view script.now) }
{
    Violation {
        holds: count_at(script, Name::Planning) > MAX_PLANNED,
        at: Some(Name::Planning),
        problem: Problem::TooManyPlanned,
    }
}

/// Checks `planning` at the top of a script. With `known`, it is compared with the objects of the
/// plan.
#[tactic(auto, unfolding(crate::specs::Planning::in_planning))]
pub fn walk_planning<'a>(
    alloc: Global,
    known: Option<&KnownObjects<'a>>,
    script: &'a Value,
) -> Result<Findings, AllocError>
    ensures { IfOk result (λ f. f ≡ reported (in_planning (option_copied known.entry) (view script.now))) }
{
    let entries = walk_entries(alloc, known, items_at(script, Name::Planning))?;
    let all = fault(alloc, script, PLANNING)?;
    let all = all.then(walk_violations(alloc, &[planning_violation(script)])?)?;
    let all = all.then(entries.under(Segment::Member(Name::Planning))?)?;
    Ok(all)
}
