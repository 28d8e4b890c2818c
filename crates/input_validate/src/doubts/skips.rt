//! Finds steps that are skipped where nothing fails.
//!
//! Every `Err` means that memory was refused.

ghost use Rattle.std.specs.Prelude.{◌≡◌, IfOk};
ghost use Rattle.std.specs.Option.{option_copied};
ghost use Rattle.serde_json.specs.View.{view};
ghost use Rattle.input_validate.specs.Doubts.{is_update, needless_skips, skip_of_step, skip_violation, skips_in_entry};
ghost use Rattle.input_validate.specs.Findings.{reported};

use crate::against_plan::planned::Planned;
use crate::against_plan::violations::{change_at, kind_of};
use crate::doubts::failed::failed_in_script;
use crate::findings::list::Findings;
use crate::findings::name::Name;
use crate::findings::problem::Problem;
use crate::rules::members::{walk_items_at, walk_violations};
use crate::rules::violation::Violation;
use crate::rules::walk::Walk;
use crate::script::step::is_skipped;
use apply_plan::{Change, StepKind};
use serde_json::Value;
use std::alloc::{AllocError, Global};

/// Tests whether a step is skipped.
fn skip_violation(step: &Value) -> Violation
    ensures { result ≡ skip_violation (view step.now) }
{
    Violation {
        holds: is_skipped(step),
        at: Some(Name::Skipped),
        problem: Problem::NeedlessSkip,
    }
}

/// A step that is skipped.
#[derive(Clone, Copy)]
struct SkippedStep;

impl<'a> Walk<'a> for SkippedStep {
    ghost findings = { λ _ _ d. skip_of_step d };

    fn walk(
        &self,
        alloc: Global,
        _number: usize,
        value: &'a Value,
    ) -> Result<Findings, AllocError> {
        walk_violations(alloc, &[skip_violation(value)])
    }
}

/// Returns whether a change is an update.
fn is_update(change: Option<&Change>) -> bool
    ensures { result ≡ is_update (option_copied change.entry) }
{
    match kind_of(change, 0) {
        Some(StepKind::Update) => true,
        _ => false,
    }
}

/// An entry with skipped steps. Updates are passed over: one may turn out to be none.
#[derive(Drop)]
struct Skips<'p, 'a> {
    planned: &'p Planned<'a>,
}

impl<'a> Walk<'a> for Skips<'_, 'a> {
    ghost findings = { λ skips _ d. skips_in_entry skips.planned.now d };

    fn walk(
        &self,
        alloc: Global,
        _number: usize,
        value: &'a Value,
    ) -> Result<Findings, AllocError> {
        if is_update(change_at(Some(self.planned), value)) {
            Ok(Findings::none(alloc))
        } else {
            walk_items_at(alloc, &SkippedStep, value, Name::Steps)
        }
    }
}

/// Lists the steps of a script that are skipped, unless something fails.
pub fn needless_skips<'a>(
    alloc: Global,
    planned: &Planned<'a>,
    script: &'a Value,
) -> Result<Findings, AllocError>
    ensures { IfOk result (λ f. f ≡ reported (needless_skips planned.now (view script.now))) }
{
    if failed_in_script(alloc, script)?.count() > 0 {
        return Ok(Findings::none(alloc));
    }
    walk_items_at(alloc, &Skips { planned }, script, Name::Changes)
}
