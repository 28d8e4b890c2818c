//! How long a step took, in seconds.

ghost use Rattle.std.specs.Prelude.{◌≡◌, ◌≤◌, min};
ghost use Rattle.std.specs.Int.{int_gap};
ghost use Rattle.apply_model.specs.Script.Limits.{max_seconds};
ghost use Rattle.stream_record_outcomes.specs.Took.{after_progress, last_progress, progress_of, took, took_without_end};

use apply_model::MAX_SECONDS;
use stream_record_steps::{BegunStep, Stated, StepFact};

/// How long a step took, `u64::MAX` at most.
pub fn took(begun: &BegunStep, cut_off_at: Option<i64>) -> u64
    ensures { result ≡ took cut_off_at begun.now }
{
    match &begun.end {
        Some(end) => end.seconds,
        None => took_without_end(begun, cut_off_at),
    }
}

/// The seconds that a script may state of a step that took so long.
pub fn within_limit(took: u64) -> u32
    ensures value { result ≡ min took max_seconds }
    ensures bound { result ≤ max_seconds }
{
    took.min(u64::from(MAX_SECONDS)) as u32
}

fn took_without_end(begun: &BegunStep, cut_off_at: Option<i64>) -> u64
    ensures { result ≡ took_without_end cut_off_at begun.now }
{
    let progress = after_progress(begun.facts.as_slice());
    match cut_off_at {
        Some(second) => progress.max(gap(begun.second, second)),
        None => progress,
    }
}

/// One second more than the last progress, if there is one.
fn after_progress(facts: &[StepFact]) -> u64
    ensures { result ≡ after_progress facts.now }
{
    match last_progress(facts) {
        Some(seconds) => seconds.saturating_add(1),
        None => 0,
    }
}

/// The seconds that the last progress states.
fn last_progress(facts: &[StepFact]) -> Option<u64>
    ensures { result ≡ last_progress facts.now }
{
    let mut last = None;
    for fact in facts {
        last = progress_of(&fact.stated).or(last);
    }
    last
}

/// The seconds that progress states.
pub fn progress_of(stated: &Stated) -> Option<u64>
    ensures { result ≡ progress_of stated.now }
{
    match stated {
        Stated::Progress { seconds } => Some(*seconds),
        Stated::ProvisionerBegan { .. }
        | Stated::Wrote { .. }
        | Stated::ProvisionerEnded
        | Stated::ProvisionerFailed => None,
    }
}

/// How far a second is after another, 0 if it is before.
pub fn gap(from: i64, to: i64) -> u64
    ensures { result ≡ int_gap from to }
{
    if to <= from { 0 } else { to.abs_diff(from) }
}
