//! Finds what fails in a script. None of these findings is reported; only their number counts.
//!
//! Every `Err` means that memory was refused.

ghost use Rattle.std.specs.Prelude.{◌≡◌, IfOk};
ghost use Rattle.serde_json.specs.View.{view};
ghost use Rattle.input_validate.specs.Doubts.{error_of_note, error_violation, failed_here, failed_in_entry, failed_in_script, failed_in_step, failed_violation};
ghost use Rattle.input_validate.specs.Findings.{reported};

use crate::findings::list::{Findings, joined};
use crate::findings::name::Name;
use crate::findings::problem::Problem;
use crate::rules::members::{walk_items_at, walk_violations};
use crate::rules::violation::Violation;
use crate::rules::walk::Walk;
use apply_json_tree::members::{is_text, member};
use serde_json::Value;
use std::alloc::{AllocError, Global};

/// Tests whether `failed` stands at a step or a provisioner.
fn failed_violation(value: &Value) -> Violation
    ensures { result ≡ failed_violation (view value.now) }
{
    Violation {
        holds: member(value, Name::Failed.text()).is_some(),
        at: Some(Name::Failed),
        problem: Problem::UnheededFailure,
    }
}

/// A provisioner that fails.
#[derive(Clone, Copy)]
struct FailedHere;

impl<'a> Walk<'a> for FailedHere {
    ghost findings = { λ _ _ d. failed_here d };

    fn walk(
        &self,
        alloc: Global,
        _number: usize,
        value: &'a Value,
    ) -> Result<Findings, AllocError> {
        walk_violations(alloc, &[failed_violation(value)])
    }
}

/// A step that fails, by itself or by one of its provisioners.
#[derive(Clone, Copy)]
struct FailedInStep;

impl<'a> Walk<'a> for FailedInStep {
    ghost findings = { λ _ _ d. failed_in_step d };

    fn walk(
        &self,
        alloc: Global,
        _number: usize,
        value: &'a Value,
    ) -> Result<Findings, AllocError> {
        let itself = walk_violations(alloc, &[failed_violation(value)]);
        joined(
            itself,
            walk_items_at(alloc, &FailedHere, value, Name::Provisioners),
        )
    }
}

/// An entry with steps that fail.
#[derive(Clone, Copy)]
struct FailedInEntry;

impl<'a> Walk<'a> for FailedInEntry {
    ghost findings = { λ _ _ d. failed_in_entry d };

    fn walk(
        &self,
        alloc: Global,
        _number: usize,
        value: &'a Value,
    ) -> Result<Findings, AllocError> {
        walk_items_at(alloc, &FailedInStep, value, Name::Steps)
    }
}

/// Tests whether the severity of a diagnostic of no step is `error`.
fn error_violation(note: &Value) -> Violation
    ensures { result ≡ error_violation (view note.now) }
{
    let holds = match member(note, Name::Severity.text()) {
        Some(severity) => is_text(severity, "error"),
        None => false,
    };
    Violation {
        holds,
        at: None,
        problem: Problem::UnheededFailure,
    }
}

/// A diagnostic of no step that is an error.
#[derive(Clone, Copy)]
struct ErrorNote;

impl<'a> Walk<'a> for ErrorNote {
    ghost findings = { λ _ _ d. error_of_note d };

    fn walk(
        &self,
        alloc: Global,
        _number: usize,
        value: &'a Value,
    ) -> Result<Findings, AllocError> {
        walk_violations(alloc, &[error_violation(value)])
    }
}

/// Lists what fails in a script: steps, provisioners, and diagnostics of no step that are errors.
pub fn failed_in_script(alloc: Global, script: &Value) -> Result<Findings, AllocError>
    ensures { IfOk result (λ f. f ≡ reported (failed_in_script (view script.now))) }
{
    let steps = walk_items_at(alloc, &FailedInEntry, script, Name::Changes);
    joined(
        steps,
        walk_items_at(alloc, &ErrorNote, script, Name::Diagnostics),
    )
}
