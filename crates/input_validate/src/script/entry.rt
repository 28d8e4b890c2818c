//! Checks an entry of `changes`.

ghost use Rattle.std.specs.Prelude.{◌≡◌, IfOk};
ghost use Rattle.std.specs.Option.{option_copied};
ghost use Rattle.serde_json.specs.View.{view};
ghost use Rattle.input_validate.specs.Findings.{reported};
ghost use Rattle.input_validate.specs.ScriptFindings.{in_entry};

use crate::against_plan::planned::Planned;
use crate::against_plan::violations::{
    change_at, repeat_violation, step_count_violation, walk_unknown,
};
use crate::against_plan::waits::walk_beyond_in;
use crate::findings::expected::Expected;
use crate::findings::list::{Findings, joined};
use crate::findings::name::Name;
use crate::findings::problem::Problem;
use crate::rules::ignored_members::walk_ignored;
use crate::rules::members::{fault, faults, walk_items_at, walk_violations};
use crate::rules::rule::MemberRule;
use crate::script::step::Step;
use serde_json::Value;
use std::alloc::{AllocError, Global};

const TABLE: [MemberRule; 2] = [
    MemberRule {
        name: Name::Address,
        expected: Expected::Text,
    },
    MemberRule {
        name: Name::Deposed,
        expected: Expected::TextOrAbsent,
    },
];

pub(crate) const NAMES: [Name; 3] = [Name::Address, Name::Deposed, Name::Steps];

const STEPS: MemberRule = MemberRule {
    name: Name::Steps,
    expected: Expected::Array,
};

/// Checks an entry. With a plan, the entry is compared with the changes of the plan. `first` is the
/// number of the first earlier entry about the same change. `left` is how many items of `after` the
/// script may still have. `Err` means that memory was refused.
#[tactic(auto, unfolding(crate::specs::ScriptFindings::in_entry))]
pub fn walk_entry<'a>(
    alloc: Global,
    planned: Option<&Planned<'a>>,
    first: Option<usize>,
    left: Option<usize>,
    entry: &'a Value,
) -> Result<Findings, AllocError>
    ensures { IfOk result (λ f. f ≡ reported (in_entry (option_copied planned.entry) first left (view entry.now))) }
{
    if !Expected::Entry.suits(entry) {
        return Findings::here(alloc, Problem::IsNot(Expected::Entry));
    }
    let change = change_at(planned, entry);
    let step = Step { planned, change };
    let all = faults(alloc, entry, &TABLE);
    let all = joined(all, walk_unknown(alloc, planned, entry));
    let all = joined(
        all,
        walk_violations(alloc, &[repeat_violation(change, first)]),
    );
    let all = joined(all, fault(alloc, entry, STEPS));
    let all = joined(
        all,
        walk_violations(alloc, &[step_count_violation(change, entry)]),
    );
    let all = joined(all, walk_items_at(alloc, &step, entry, Name::Steps));
    let all = joined(all, walk_beyond_in(alloc, planned.is_some(), left, entry));
    joined(all, walk_ignored(alloc, entry, &NAMES))
}
