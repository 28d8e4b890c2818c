//! What the script does not say of a step.
//!
//! Every `Err` means that memory was refused.

ghost use Rattle.std.specs.Prelude.{◌≡◌, ◌++◌, [], ◌∷◌, IfOk, OnOk};
ghost use Rattle.std.specs.List.{filter_map};
ghost use Rattle.std.specs.Option.{option_copied};
ghost use Rattle.stream_record_outcomes.specs.Warnings.{has_odd_progress, is_odd_fact, lacks_end, left_out, other_key, own_warnings, too_many, too_much, warn_if};

use crate::copies::copied_text;
use crate::fate::Fate;
use crate::last_provisioner::last_provisioner;
use crate::outcome::{fails_by_provisioner, may_provision};
use crate::provisioner_run::ProvisionerRun;
use crate::provisioners::count_outputs;
use crate::step_warning::StepWarning;
use crate::took::progress_of;
use apply_model::{MAX_OUTPUTS, MAX_PROVISIONERS, MAX_SECONDS, Note, StepKind};
use std::alloc::{AllocError, Global};
use stream_record_steps::{BegunStep, EndResult, PlannedStep, StepFact};

/// The warnings of a step, but for those of provisioners and outputs that are too many.
pub fn step_warnings(
    alloc: Global,
    step: &PlannedStep<'_>,
    took: u64,
    begun: &BegunStep,
    note: Option<&Note>,
    fate: Fate,
) -> Result<Vec<StepWarning>, AllocError>
    ensures { IfOk result (λ warnings. warnings.items
        ≡ own_warnings step.now.kind took begun.now (option_copied note.entry) fate ++ left_out step.now begun.now fate) }
{
    let mut warnings = own_warnings(alloc, step.kind(), took, begun, note, fate)?;
    push_left_out(&mut warnings, step, begun, fate)?;
    Ok(warnings)
}

/// The warnings of the step itself.
fn own_warnings(
    alloc: Global,
    kind: StepKind,
    took: u64,
    begun: &BegunStep,
    note: Option<&Note>,
    fate: Fate,
) -> Result<Vec<StepWarning>, AllocError>
    ensures { IfOk result (λ warnings. warnings.items ≡ own_warnings kind took begun.now (option_copied note.entry) fate) }
{
    let mut warnings = Vec::new(alloc);
    let failed = fate.is_failed();
    push_if(
        &mut warnings,
        lacks_end(kind, begun, note),
        StepWarning::NoEnd { failed },
    )?;
    let is_too_long = took > u64::from(MAX_SECONDS);
    push_if(
        &mut warnings,
        is_too_long,
        StepWarning::TooLong { seconds: took },
    )?;
    push_if(
        &mut warnings,
        has_odd_progress(took, begun),
        StepWarning::OddProgress,
    )?;
    push_if(
        &mut warnings,
        failed && note.is_none(),
        StepWarning::Unexplained,
    )?;
    if let Some(end) = &begun.end {
        push_other_key(alloc, &mut warnings, &end.result)?;
    }
    Ok(warnings)
}

/// Adds the warning, if it is due.
fn push_if(
    warnings: &mut Vec<StepWarning>,
    is_due: bool,
    warning: StepWarning,
) -> Result<(), AllocError>
    ensures { OnOk result (warnings.new.items ≡ warnings.old.items ++ warn_if is_due warning) }
{
    if is_due {
        warnings.push(warning)?;
    }
    Ok(())
}

/// Whether the step has no end, though it should have one.
fn lacks_end(kind: StepKind, begun: &BegunStep, note: Option<&Note>) -> bool
    ensures { result ≡ lacks_end kind begun.now (option_copied note.entry) }
{
    begun.end.is_none() && !(kind == StepKind::Read && note.is_some())
}

/// Whether progress comes at other seconds than each tenth before the end.
fn has_odd_progress(took: u64, begun: &BegunStep) -> bool
    ensures { result ≡ has_odd_progress took begun.now }
{
    let has_end = begun.end.is_some();
    for fact in begun.facts.as_slice() {
        if is_odd_fact(has_end, took, fact) {
            return true;
        }
    }
    false
}

fn is_odd_fact(has_end: bool, took: u64, fact: &StepFact) -> bool
    ensures { result ≡ is_odd_fact has_end took fact.now }
{
    match progress_of(&fact.stated) {
        Some(seconds) => seconds % 10 != 0 || has_end && took <= seconds,
        None => false,
    }
}

/// Adds a warning if the completion names a member other than `id`.
fn push_other_key(
    alloc: Global,
    warnings: &mut Vec<StepWarning>,
    end: &EndResult,
) -> Result<(), AllocError>
    ensures { OnOk result (warnings.new.items ≡ warnings.old.items ++ other_key end.now) }
{
    if let EndResult::Completed {
        id_key: Some(key),
        ..
    } = end
    {
        if key.as_str() != "id" {
            let key = copied_text(alloc, key)?;
            warnings.push(StepWarning::OtherId { key })?;
        }
    }
    Ok(())
}

/// Adds a warning if the step has provisioners that the script leaves out.
fn push_left_out(
    warnings: &mut Vec<StepWarning>,
    step: &PlannedStep<'_>,
    begun: &BegunStep,
    fate: Fate,
) -> Result<(), AllocError>
    ensures { OnOk result (warnings.new.items ≡ warnings.old.items ++ left_out step.now begun.now fate) }
{
    if !last_provisioner(begun.facts.as_slice()).is_present() {
        return Ok(());
    }
    if !may_provision(step) {
        return push_if(warnings, true, StepWarning::NotProvisionable);
    }
    let is_left_out = fate.is_failed() && !fails_by_provisioner(step, begun, fate);
    push_if(warnings, is_left_out, StepWarning::ProvisionersLeftOut)
}

/// Adds the warnings of provisioners and outputs that are too many. The step has so many
/// provisioners, of which these are kept.
pub fn push_limited(
    warnings: &mut Vec<StepWarning>,
    count: usize,
    kept: &[ProvisionerRun<'_>],
) -> Result<(), AllocError>
    ensures { OnOk result (warnings.new.items ≡ warnings.old.items ++ (too_many count ++ filter_map too_much kept.now)) }
{
    let is_too_many = count > MAX_PROVISIONERS;
    push_if(
        warnings,
        is_too_many,
        StepWarning::TooManyProvisioners { count },
    )?;
    for run in kept {
        push_too_much(warnings, run)?;
    }
    Ok(())
}

/// Adds a warning if the provisioner has too many outputs.
fn push_too_much(
    warnings: &mut Vec<StepWarning>,
    run: &ProvisionerRun<'_>,
) -> Result<(), AllocError>
    ensures { OnOk result (warnings.new.items ≡ warnings.old.items ++ filter_map too_much (run.now ∷ [])) }
{
    let count = count_outputs(run);
    push_if(
        warnings,
        count > MAX_OUTPUTS,
        StepWarning::TooMuchOutput { count },
    )
}
