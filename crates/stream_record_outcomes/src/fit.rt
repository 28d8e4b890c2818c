//! Which diagnostics fit a step.

ghost use Rattle.std.specs.Prelude.{◌≡◌, true};
ghost use Rattle.std.specs.Option.{option_copied, option_map_or};
ghost use Rattle.stream_record_outcomes.specs.Assignment.{fit_of, fit_of_end, fit_without_end, is_unaddressed, same_address, same_severity};

use crate::last_provisioner::last_provisioner;
use apply_json::is_text;
use apply_model::{Note, Severity, StepKind};
use std::marker::Model;
use stream_record_steps::{BegunStep, EndResult, PlannedStep};

/// Diagnostics of a severity, or of any, with an address, or with none.
#[derive(Drop)]
pub struct Fit<'a> {
    pub severity: Option<Severity>,
    pub address: Option<&'a str>,
}

impl<'a> Model for Fit<'a> {
    ghost use Rattle.std.specs.Option.{option_copied};
    ghost use Rattle.stream_record_outcomes.specs.Assignment.{Fit};

    ghost Value = { Fit };

    ghost view = { λ fit. record { severity = fit.severity; address = option_copied fit.address } };
}

impl<'a> Fit<'a> {
    ghost use Rattle.stream_record_outcomes.specs.Assignment.{error_fit, fits};

    /// Errors with this address, or with none.
    pub fn error(address: Option<&'a str>) -> Fit<'a>
        ensures { result ≡ error_fit (option_copied address.entry) }
    {
        Fit {
            severity: Some(Severity::Error),
            address,
        }
    }

    /// Whether it is one of these diagnostics.
    pub fn fits(&self, note: &Note) -> bool
        ensures { result ≡ fits self.now note.now }
    {
        has_severity(self.severity, note.severity) && same_address(note.address(), self.address)
    }
}

/// Whether the severity is the wanted one, or any is wanted.
fn has_severity(wanted: Option<Severity>, severity: Severity) -> bool
    ensures { result ≡ option_map_or (same_severity severity) wanted true }
{
    match wanted {
        Some(wanted) => severity == wanted,
        None => true,
    }
}

fn same_address(left: Option<&str>, right: Option<&str>) -> bool
    ensures { result ≡ same_address (option_copied left.entry) (option_copied right.entry) }
{
    match (left, right) {
        (Some(left), Some(right)) => is_text(left, right),
        (None, None) => true,
        (Some(_), None) | (None, Some(_)) => false,
    }
}

/// The diagnostics that fit the step, if any do.
pub fn fit_of<'a>(
    is_default_form: bool,
    step: &PlannedStep<'a>,
    begun: &BegunStep,
) -> Option<Fit<'a>>
    ensures { result ≡ fit_of is_default_form step.now begun.now }
{
    match &begun.end {
        Some(end) => fit_of_end(is_default_form, step, begun, &end.result),
        None => Some(fit_without_end(step)),
    }
}

/// Of a step that was done it is a warning, and of one that failed an error.
fn fit_of_end<'a>(
    is_default_form: bool,
    step: &PlannedStep<'a>,
    begun: &BegunStep,
    end: &EndResult,
) -> Option<Fit<'a>>
    ensures { result ≡ fit_of_end is_default_form step.now begun.now end.now }
{
    let is_unaddressed = is_unaddressed(is_default_form, step.kind());
    let address = Some(step.change().address());
    match end {
        EndResult::Completed { .. } => if is_unaddressed {
            None
        } else {
            Some(Fit {
                severity: Some(Severity::Warning),
                address,
            })
        },
        EndResult::Failed => {
            let is_of_provisioner = last_provisioner(begun.facts.as_slice()).fails_its_step();
            let is_missing = is_unaddressed && !is_of_provisioner;
            Some(Fit::error(if is_missing { None } else { address }))
        }
    }
}

/// Of a step without an end it is an error, and of a read a warning too.
fn fit_without_end<'a>(step: &PlannedStep<'a>) -> Fit<'a>
    ensures { result ≡ fit_without_end step.now }
{
    let severity = if step.kind() == StepKind::Read {
        None
    } else {
        Some(Severity::Error)
    };
    Fit {
        severity,
        address: Some(step.change().address()),
    }
}

/// Whether a provider's diagnostics of such a step have no address: of a delete in Terraform's
/// form.
fn is_unaddressed(is_default_form: bool, kind: StepKind) -> bool
    ensures { result ≡ is_unaddressed is_default_form kind }
{
    kind.is_delete() && !is_default_form
}
