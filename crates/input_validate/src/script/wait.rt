//! Checks an item of `after`.

use crate::against_plan::planned::Planned;
use crate::against_plan::violations::{change_at, missing_step_violation, walk_unknown};
use crate::findings::expected::Expected;
use crate::findings::list::{Findings, joined};
use crate::findings::name::Name;
use crate::findings::problem::Problem;
use crate::rules::ignored_members::walk_ignored;
use crate::rules::members::{faults, walk_violations};
use crate::rules::rule::MemberRule;
use crate::rules::walk::Walk;
use crate::script::output::whole_at;
use serde_json::Value;
use std::alloc::{AllocError, Global};

const TABLE: [MemberRule; 3] = [
    MemberRule {
        name: Name::Address,
        expected: Expected::Text,
    },
    MemberRule {
        name: Name::Deposed,
        expected: Expected::TextOrAbsent,
    },
    MemberRule {
        name: Name::Step,
        expected: Expected::WholeOrAbsent,
    },
];

pub(crate) const NAMES: [Name; 3] = [Name::Address, Name::Deposed, Name::Step];

/// An item of `after`: an address, or an object that names a step. `planned` holds the changes of
/// the plan.
#[derive(Drop)]
pub struct Wait<'p, 'a> {
    pub planned: Option<&'p Planned<'a>>,
}

impl<'a> Walk<'a> for Wait<'_, 'a> {
    ghost use Rattle.std.specs.Option.{option_copied};
    ghost use Rattle.input_validate.specs.ScriptFindings.{in_wait};

    ghost findings = { λ wait _ d. in_wait (option_copied wait.planned) d };

    #[tactic(auto, unfolding(crate::specs::ScriptFindings::in_wait))]
    fn walk(
        &self,
        alloc: Global,
        _number: usize,
        value: &'a Value,
    ) -> Result<Findings, AllocError> {
        if value.as_str().is_some() {
            return walk_unknown(alloc, self.planned, value);
        }
        if !Expected::Wait.suits(value) {
            return Findings::here(alloc, Problem::IsNot(Expected::Wait));
        }
        let change = change_at(self.planned, value);
        let all = faults(alloc, value, &TABLE);
        let all = joined(all, walk_unknown(alloc, self.planned, value));
        let all = joined(
            all,
            walk_violations(
                alloc,
                &[missing_step_violation(change, whole_at(value, Name::Step))],
            ),
        );
        joined(all, walk_ignored(alloc, value, &NAMES))
    }
}
