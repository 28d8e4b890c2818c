//! Checks the top level of a script.
//!
//! Every `Err` means that memory was refused.

ghost use Rattle.std.specs.Prelude.{◌≡◌, [], IfOk};
ghost use Rattle.std.specs.Option.{option_copied};
ghost use Rattle.serde_json.specs.View.{items_view, view};
ghost use Rattle.apply_json.specs.Tree.{list_of};
ghost use Rattle.input_validate.specs.AgainstPlan.{left_after};
ghost use Rattle.input_validate.specs.Findings.{reported};
ghost use Rattle.input_validate.specs.ScriptFindings.{in_entry_after, in_script};
ghost use Rattle.input_validate.specs.Rules.{items_after};

use crate::against_plan::first_named::FirstNamed;
use crate::against_plan::planned::Planned;
use crate::against_plan::waits::waits_left_after;
use crate::findings::expected::Expected;
use crate::findings::list::Findings;
use crate::findings::name::Name;
use crate::findings::path::Segment;
use crate::findings::problem::Problem;
use crate::plan::object_name::ObjectName;
use crate::rules::ignored_members::walk_ignored;
use crate::rules::members::{fault, items_at};
use crate::rules::rule::MemberRule;
use crate::script::entry::walk_entry;
use apply_plan::MAX_WAITS;
use serde_json::Value;
use std::alloc::{AllocError, Global};

pub(crate) const NAMES: [Name; 5] = [
    Name::Changes,
    Name::Outputs,
    Name::Diagnostics,
    Name::Planning,
    Name::Schema,
];

const CHANGES: MemberRule = MemberRule {
    name: Name::Changes,
    expected: Expected::Array,
};

/// Checks the entries in order.
fn walk_entries<'a>(
    alloc: Global,
    planned: Option<&Planned<'a>>,
    entries: &'a [Value],
) -> Result<Findings, AllocError>
    ensures { IfOk result (λ f. f ≡ reported (items_after (in_entry_after (option_copied planned.entry)) [] (list_of (items_view entries.now)))) }
{
    let mut all = Findings::none(alloc);
    let mut named = FirstNamed::new(alloc);
    let mut left = Some(MAX_WAITS);
    for (number, entry) in entries.iter().enumerate() {
        let name = ObjectName::of(entry);
        let findings = walk_entry(alloc, planned, named.get(name), left, entry)?;
        all = all.then(findings.under(Segment::Item(number))?)?;
        named.push(name, number)?;
        left = left_after(left, entry);
    }
    Ok(all)
}

/// Counts how many items of `after` the script may still have after an entry.
fn left_after(left: Option<usize>, entry: &Value) -> Option<usize>
    ensures { result ≡ left_after left (view entry.now) }
{
    waits_left_after(left?, items_at(entry, Name::Steps))
}

/// Checks the tree of a script. With a plan, the script is compared with the changes of the plan.
#[tactic(auto, unfolding(crate::specs::ScriptFindings::in_script))]
pub fn walk_script<'a>(
    alloc: Global,
    planned: Option<&Planned<'a>>,
    script: &'a Value,
) -> Result<Findings, AllocError>
    ensures { IfOk result (λ f. f ≡ reported (in_script (option_copied planned.entry) (view script.now))) }
{
    if !Expected::Object.suits(script) {
        return Findings::here(alloc, Problem::IsNot(Expected::Object));
    }
    let entries = walk_entries(alloc, planned, items_at(script, Name::Changes))?;
    let all = fault(alloc, script, CHANGES)?;
    let all = all.then(entries.under(Segment::Member(Name::Changes))?)?;
    let all = all.then(walk_ignored(alloc, script, &NAMES)?)?;
    Ok(all)
}
