//! The provisioners of a step, as a script states them.
//!
//! Every `Err` means that memory was refused.

ghost use Rattle.std.specs.Prelude.{◌≡◌, ◌≤◌, IfOk, count_by, length, take};
ghost use Rattle.std.specs.List.{filter_map};
ghost use Rattle.std.specs.Option.{option_copied};
ghost use Rattle.apply_model.specs.Script.Limits.{max_outputs, max_provisioners};
ghost use Rattle.stream_record_outcomes.specs.Provisioners.{error_of_run, name_or_mark, output_of, provisioner_of, provisioners_of, timed_output, unknown_error, writes};

use crate::copies::{copied_diag, copied_text};
use crate::provisioner_run::ProvisionerRun;
use crate::timed_fact::TimedFact;
use apply_model::{Diag, MAX_OUTPUTS, Provisioner, Provisioners, Text, TimedText, TimedTexts};
use std::alloc::{AllocError, Global};
use stream_record_steps::Stated;

/// The provisioners. With a failure the last one makes the step fail.
pub fn provisioners_of(
    alloc: Global,
    failure: Option<&Diag>,
    runs: &[ProvisionerRun<'_>],
) -> Result<Provisioners, AllocError>
    requires { length runs.now ≤ max_provisioners }
    ensures { IfOk result (λ provisioners. provisioners ≡ provisioners_of (option_copied failure.entry) runs.now) }
{
    let mut provisioners = Vec::new(alloc);
    for place in 0..runs.len() {
        let is_last = place + 1 == runs.len();
        let provisioner = provisioner_of(
            alloc,
            if is_last { failure } else { None },
            &runs[place],
        )?;
        provisioners.push(provisioner)?;
    }
    Ok(Provisioners::new(provisioners))
}

fn provisioner_of(
    alloc: Global,
    failure: Option<&Diag>,
    run: &ProvisionerRun<'_>,
) -> Result<Provisioner, AllocError>
    ensures { IfOk result (λ provisioner. provisioner ≡ provisioner_of (option_copied failure.entry) run.now) }
{
    let seconds = run.seconds();
    let output = first_outputs(alloc, run.begin, seconds, run.facts)?;
    let failed = error_of_run(alloc, failure, run)?;
    Ok(Provisioner {
        name: Text::new(alloc, name_or_mark(run.name))?,
        seconds,
        output,
        failed,
        may_fail: failure.is_none() && run.went_on(),
    })
}

/// The name, `?` if it is empty.
fn name_or_mark(name: &str) -> &str
    ensures { result.now ≡ name_or_mark name.now }
{
    if name.is_empty() { "?" } else { name }
}

/// The error of a provisioner.
fn error_of_run(
    alloc: Global,
    failure: Option<&Diag>,
    run: &ProvisionerRun<'_>,
) -> Result<Option<Diag>, AllocError>
    ensures { IfOk result (λ error. error ≡ error_of_run (option_copied failure.entry) run.now) }
{
    match failure {
        Some(diag) => Ok(Some(copied_diag(alloc, diag)?)),
        None => if run.went_on() {
            Ok(Some(unknown_error(alloc)?))
        } else {
            Ok(None)
        },
    }
}

/// An error of which no diagnostic is known.
pub fn unknown_error(alloc: Global) -> Result<Diag, AllocError>
    ensures { IfOk result (λ diag. diag ≡ unknown_error) }
{
    Ok(Diag {
        summary: Text::new(alloc, "failed")?,
        detail: Text::new(alloc, "")?,
        range: None,
        snippet: None,
    })
}

/// The first 100 outputs among the facts of a provisioner.
fn first_outputs(
    alloc: Global,
    begin: u32,
    seconds: u32,
    facts: &[TimedFact<'_>],
) -> Result<TimedTexts, AllocError>
    ensures { IfOk result (λ texts. texts ≡ take max_outputs (filter_map (timed_output begin seconds) facts.now)) }
{
    let mut texts = Vec::new(alloc);
    for fact in facts {
        if texts.len() == MAX_OUTPUTS {
            break;
        }
        if let Some(text) = timed_output(alloc, begin, seconds, fact)? {
            texts.push(text)?;
        }
    }
    Ok(TimedTexts::new(texts))
}

/// An output of a provisioner, no later than its end.
fn timed_output(
    alloc: Global,
    begin: u32,
    seconds: u32,
    fact: &TimedFact<'_>,
) -> Result<Option<TimedText>, AllocError>
    ensures { IfOk result (λ text. text ≡ timed_output begin seconds fact.now) }
{
    match output_of(fact.stated) {
        Some(output) => Ok(Some(TimedText {
            after: fact.second.saturating_sub(begin).min(seconds),
            text: copied_text(alloc, output)?,
        })),
        None => Ok(None),
    }
}

/// What the provisioner wrote.
fn output_of(stated: &Stated) -> Option<&Text>
    ensures { option_copied result ≡ output_of stated.now }
{
    match stated {
        Stated::Wrote { output } => Some(output),
        Stated::Progress { .. }
        | Stated::ProvisionerBegan { .. }
        | Stated::ProvisionerEnded
        | Stated::ProvisionerFailed => None,
    }
}

/// How many outputs a provisioner has.
pub fn count_outputs(run: &ProvisionerRun<'_>) -> usize
    ensures { result ≡ count_by writes run.now.facts }
{
    run.facts.iter().filter(|fact| writes(fact)).count()
}

fn writes(fact: &TimedFact<'_>) -> bool
    ensures { result ≡ writes fact.now }
{
    output_of(fact.stated).is_some()
}
