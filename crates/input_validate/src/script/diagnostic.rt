//! Checks a diagnostic.

ghost use Rattle.std.specs.Prelude.{◌≡◌, IfOk};
ghost use Rattle.serde_json.specs.View.{view};
ghost use Rattle.input_validate.specs.Findings.{reported};
ghost use Rattle.input_validate.specs.ScriptFindings.{in_diagnostic};

use crate::findings::expected::Expected;
use crate::findings::list::Findings;
use crate::findings::name::Name;
use crate::rules::object::walk_object;
use crate::rules::rule::MemberRule;
use crate::rules::walk::Walk;
use serde_json::Value;
use std::alloc::{AllocError, Global};

const TABLE: [MemberRule; 4] = [
    MemberRule {
        name: Name::Summary,
        expected: Expected::Text,
    },
    MemberRule {
        name: Name::Detail,
        expected: Expected::TextOrAbsent,
    },
    MemberRule {
        name: Name::Range,
        expected: Expected::ObjectOrAbsent,
    },
    MemberRule {
        name: Name::Snippet,
        expected: Expected::ObjectOrAbsent,
    },
];

pub(crate) const NAMES: [Name; 4] = [Name::Summary, Name::Detail, Name::Range, Name::Snippet];

/// A diagnostic: the warning of a step, or why a provisioner failed.
#[derive(Clone, Copy)]
pub struct Diagnostic;

impl<'a> Walk<'a> for Diagnostic {
    ghost findings = { λ _ _ d. in_diagnostic d };

    #[tactic(auto, unfolding(crate::specs::ScriptFindings::in_diagnostic))]
    fn walk(
        &self,
        alloc: Global,
        _number: usize,
        value: &'a Value,
    ) -> Result<Findings, AllocError> {
        walk_object(alloc, value, Expected::Diagnostic, &TABLE, &NAMES)
    }
}
