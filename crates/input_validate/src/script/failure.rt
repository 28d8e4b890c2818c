//! Checks the `failed` of a step.

ghost use Rattle.input_validate.specs.ScriptFindings.{in_failure};

use crate::findings::expected::Expected;
use crate::findings::list::Findings;
use crate::findings::name::Name;
use crate::rules::object::walk_object;
use crate::rules::rule::MemberRule;
use crate::rules::walk::Walk;
use serde_json::Value;
use std::alloc::{AllocError, Global};

const TABLE: [MemberRule; 5] = [
    MemberRule {
        name: Name::Summary,
        expected: Expected::Text,
    },
    MemberRule {
        name: Name::Detail,
        expected: Expected::TextOrAbsent,
    },
    MemberRule {
        name: Name::Severity,
        expected: Expected::Severity,
    },
    MemberRule {
        name: Name::Range,
        expected: Expected::ObjectOrAbsent,
    },
    MemberRule {
        name: Name::Snippet,
        expected: Expected::ObjectOrAbsent,
    },
];

pub(crate) const NAMES: [Name; 5] = [
    Name::Summary,
    Name::Detail,
    Name::Severity,
    Name::Range,
    Name::Snippet,
];

/// Why a step failed: a diagnostic with a severity.
#[derive(Clone, Copy)]
pub struct Failure;

impl<'a> Walk<'a> for Failure {
    ghost findings = { λ _ _ d. in_failure d };

    #[tactic(auto, unfolding(crate::specs::ScriptFindings::in_failure))]
    fn walk(
        &self,
        alloc: Global,
        _number: usize,
        value: &'a Value,
    ) -> Result<Findings, AllocError> {
        walk_object(alloc, value, Expected::Diagnostic, &TABLE, &NAMES)
    }
}
