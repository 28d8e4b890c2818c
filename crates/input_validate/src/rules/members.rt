//! Checks the members of an object.
//!
//! Every `Err` means that memory was refused.

ghost use Rattle.std.specs.Prelude.{◌≡◌, IfOk, length, option_map};
ghost use Rattle.serde_json.specs.View.{items_view, view};
ghost use Rattle.apply_json.specs.Tree.{list_of};
ghost use Rattle.input_validate.specs.Findings.{reported};
ghost use Rattle.input_validate.specs.Rules.{fault_of, faults_of, violation_finding, in_items, in_list, inside, is_set, items_at, mismatch, violation_findings};

use crate::findings::expected::Expected;
use crate::findings::list::{Findings, joined};
use crate::findings::name::Name;
use crate::findings::path::Segment;
use crate::findings::problem::Problem;
use crate::rules::rule::MemberRule;
use crate::rules::violation::Violation;
use crate::rules::walk::{Walk, walk_items};
use apply_json_tree::members::member;
use serde_json::Value;
use std::alloc::{AllocError, Global};

/// Returns what is wrong with a member: it is missing, or it is something else.
fn mismatch(expected: Expected, stated: Option<&Value>) -> Problem
    ensures { result ≡ mismatch expected (option_map (λ value. view value.now) stated.entry) }
{
    match stated {
        Some(_) => Problem::IsNot(expected),
        None => Problem::IsMissing(expected),
    }
}

/// Checks one member.
pub fn fault(alloc: Global, value: &Value, rule: MemberRule) -> Result<Findings, AllocError>
    ensures { IfOk result (λ f. f ≡ reported (fault_of (view value.now) rule)) }
{
    if rule.expected.is_met(member(value, rule.name.text())) {
        return Ok(Findings::none(alloc));
    }
    let problem = mismatch(rule.expected, value.get(rule.name.text()));
    Findings::at(alloc, Segment::Member(rule.name), problem)
}

/// Checks each member of a table.
pub fn faults(alloc: Global, value: &Value, table: &[MemberRule]) -> Result<Findings, AllocError>
    ensures { IfOk result (λ f. f ≡ reported (faults_of table.now (view value.now))) }
{
    let mut all = Findings::none(alloc);
    for rule in table {
        all = all.then(fault(alloc, value, *rule)?)?;
    }
    Ok(all)
}

/// Checks the value of a member. A member that is absent or `null` has no findings.
pub fn walk_inside<'a, W: Walk<'a>>(
    alloc: Global,
    walk: &W,
    value: &'a Value,
    name: Name,
) -> Result<Findings, AllocError>
    ensures { IfOk result (λ f. f ≡ reported (inside (W.findings walk.now 0) name (view value.now))) }
{
    match member(value, name.text()) {
        Some(inner) => walk.walk(alloc, 0, inner)?.under(Segment::Member(name)),
        None => Ok(Findings::none(alloc)),
    }
}

/// An array, each of whose items the inner walk checks.
#[derive(Drop)]
struct Items<'a, W>(&'a W);

impl<'a, W: Walk<'a>> Walk<'a> for Items<'_, W> {
    ghost use Rattle.input_validate.specs.Rules.{in_items};

    ghost findings = { λ items _ d. in_items (W.findings items.0.now) d };

    fn walk(
        &self,
        alloc: Global,
        _number: usize,
        value: &'a Value,
    ) -> Result<Findings, AllocError> {
        match value.as_array() {
            Some(items) => walk_items(alloc, self.0, items),
            None => Ok(Findings::none(alloc)),
        }
    }
}

/// Checks the items of a member that is an array.
pub fn walk_items_at<'a, W: Walk<'a>>(
    alloc: Global,
    walk: &W,
    value: &'a Value,
    name: Name,
) -> Result<Findings, AllocError>
    ensures { IfOk result (λ f. f ≡ reported (inside (in_items (W.findings walk.now)) name (view value.now))) }
{
    walk_inside(alloc, &Items(walk), value, name)
}

/// Checks that a member is an array, and checks its items.
pub fn walk_list<'a, W: Walk<'a>>(
    alloc: Global,
    walk: &W,
    value: &'a Value,
    rule: MemberRule,
) -> Result<Findings, AllocError>
    ensures { IfOk result (λ f. f ≡ reported (in_list (W.findings walk.now) rule (view value.now))) }
{
    let itself = fault(alloc, value, rule);
    joined(itself, walk_items_at(alloc, walk, value, rule.name))
}

/// Returns whether a member is `true`.
pub fn is_set(value: &Value, name: Name) -> bool
    ensures { result ≡ is_set name (view value.now) }
{
    match member(value, name.text()) {
        Some(flag) => flag.as_bool().unwrap_or(false),
        None => false,
    }
}

/// Returns the items of a member. There are none if the member is no array.
pub fn items_at(value: &Value, name: Name) -> &[Value]
    ensures { list_of (items_view result.now) ≡ items_at name (view value.now) }
{
    match member(value, name.text()) {
        Some(list) => match list.as_array() {
            Some(items) => items.as_slice(),
            None => &[],
        },
        None => &[],
    }
}

/// Counts the items of a member.
pub fn count_at(value: &Value, name: Name) -> usize
    ensures { result ≡ length (items_at name (view value.now)) }
{
    items_at(value, name).len()
}

/// Lists the findings of some tests.
pub fn walk_violations(alloc: Global, violations: &[Violation]) -> Result<Findings, AllocError>
    ensures { IfOk result (λ f. f ≡ reported (violation_findings violations.now)) }
{
    let mut all = Findings::none(alloc);
    for violation in violations {
        all = all.then(violation_finding(alloc, *violation)?)?;
    }
    Ok(all)
}

/// Makes the finding of a test, if the rule is broken.
fn violation_finding(alloc: Global, violation: Violation) -> Result<Findings, AllocError>
    ensures { IfOk result (λ f. f ≡ reported (violation_finding violation)) }
{
    if !violation.holds {
        return Ok(Findings::none(alloc));
    }
    match violation.at {
        Some(name) => Findings::at(alloc, Segment::Member(name), violation.problem),
        None => Findings::here(alloc, violation.problem),
    }
}
