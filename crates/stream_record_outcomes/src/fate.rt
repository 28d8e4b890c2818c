//! Whether a step was done.

ghost use Rattle.std.specs.Prelude.{◌≡◌};
ghost use Rattle.std.specs.Option.{option_copied};
ghost use Rattle.stream_record_outcomes.specs.Outcome.{fate_of, fate_of_end, fate_without_end, is_done, is_warning};
ghost use Rattle.stream_record_outcomes.specs.Warnings.{is_failed_fate};

use apply_model::{Note, Severity, StepKind};
use stream_record_steps::{BegunStep, EndResult};

/// Whether a step was done.
#[derive(Clone, Copy, Debug, PartialEq, Eq)]
pub enum Fate {
    Done,
    /// The provider of a read failed, and only a warning followed.
    Warned,
    Failed,
}

impl Fate {
    pub(crate) fn is_done(self) -> bool
        ensures { result ≡ is_done self }
    {
        match self {
            Fate::Done => true,
            Fate::Warned | Fate::Failed => false,
        }
    }

    pub(crate) fn is_failed(self) -> bool
        ensures { result ≡ is_failed_fate self }
    {
        match self {
            Fate::Failed => true,
            Fate::Done | Fate::Warned => false,
        }
    }
}

/// Whether the step with this diagnostic was done.
pub(crate) fn fate_of(kind: StepKind, begun: &BegunStep, note: Option<&Note>) -> Fate
    ensures { result ≡ fate_of kind begun.now (option_copied note.entry) }
{
    match &begun.end {
        Some(end) => fate_of_end(&end.result),
        None => fate_without_end(kind, note),
    }
}

fn fate_of_end(end: &EndResult) -> Fate
    ensures { result ≡ fate_of_end end.now }
{
    match end {
        EndResult::Completed { .. } => Fate::Done,
        EndResult::Failed => Fate::Failed,
    }
}

/// Whether a step without an end was done.
fn fate_without_end(kind: StepKind, note: Option<&Note>) -> Fate
    ensures { result ≡ fate_without_end kind (option_copied note.entry) }
{
    match note {
        None => Fate::Done,
        Some(note) => if kind == StepKind::Read && is_warning(note.severity) {
            Fate::Warned
        } else {
            Fate::Failed
        },
    }
}

pub(crate) fn is_warning(severity: Severity) -> bool
    ensures { result ≡ is_warning severity }
{
    match severity {
        Severity::Error => false,
        Severity::Warning => true,
    }
}
