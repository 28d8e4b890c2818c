//! Checks a diagnostic that belongs to no step.

ghost use Rattle.input_validate.specs.Extras.{in_note};

use crate::findings::expected::Expected;
use crate::findings::list::Findings;
use crate::findings::name::Name;
use crate::rules::object::walk_object;
use crate::rules::rule::MemberRule;
use crate::rules::walk::Walk;
use serde_json::Value;
use std::alloc::{AllocError, Global};

const TABLE: [MemberRule; 6] = [
    MemberRule {
        name: Name::Severity,
        expected: Expected::NoteSeverity,
    },
    MemberRule {
        name: Name::Summary,
        expected: Expected::Text,
    },
    MemberRule {
        name: Name::Detail,
        expected: Expected::TextOrAbsent,
    },
    MemberRule {
        name: Name::Address,
        expected: Expected::TextOrAbsent,
    },
    MemberRule {
        name: Name::Range,
        expected: Expected::ObjectOrAbsent,
    },
    MemberRule {
        name: Name::Snippet,
        expected: Expected::ObjectOrAbsent,
    },
];

pub(crate) const NAMES: [Name; 6] = [
    Name::Severity,
    Name::Summary,
    Name::Detail,
    Name::Address,
    Name::Range,
    Name::Snippet,
];

/// An item of `diagnostics` at the top of a script.
#[derive(Clone, Copy)]
pub struct Note;

impl<'a> Walk<'a> for Note {
    ghost findings = { λ _ _ d. in_note d };

    #[tactic(auto, unfolding(crate::specs::Extras::in_note))]
    fn walk(
        &self,
        alloc: Global,
        _number: usize,
        value: &'a Value,
    ) -> Result<Findings, AllocError> {
        walk_object(alloc, value, Expected::Note, &TABLE, &NAMES)
    }
}
