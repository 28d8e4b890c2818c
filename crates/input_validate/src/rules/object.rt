//! Checks objects that have no objects or arrays to check inside.

ghost use Rattle.std.specs.Prelude.{◌≡◌, ◌++◌, IfOk};
ghost use Rattle.serde_json.specs.View.{view};
ghost use Rattle.input_validate.specs.Findings.{reported};
ghost use Rattle.input_validate.specs.Rules.{faults_of, ignored, where_suits};

use crate::findings::expected::Expected;
use crate::findings::list::{Findings, joined};
use crate::findings::name::Name;
use crate::findings::problem::Problem;
use crate::rules::ignored_members::walk_ignored;
use crate::rules::members::faults;
use crate::rules::rule::MemberRule;
use serde_json::Value;
use std::alloc::{AllocError, Global};

/// Checks that a value is an object, its members by a table, and that it has no other members than
/// `names`. `Err` means that memory was refused.
pub fn walk_object(
    alloc: Global,
    value: &Value,
    expected: Expected,
    table: &[MemberRule],
    names: &[Name],
) -> Result<Findings, AllocError>
    ensures { IfOk result (λ f. f ≡ reported (where_suits expected (view value.now) (faults_of table.now (view value.now) ++ ignored names.now (view value.now)))) }
{
    if !expected.suits(value) {
        return Findings::here(alloc, Problem::IsNot(expected));
    }
    let all = faults(alloc, value, table);
    joined(all, walk_ignored(alloc, value, names))
}
