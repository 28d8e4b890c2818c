//! The answer of a provider to a step, and the provisioners of the step.

ghost use Rattle.std.specs.Prelude.{◌≡◌, ◌<◌, ◌^◌};
ghost use Rattle.std.specs.Option.{option_copied};

use crate::plan::step_kind::StepKind;
use crate::script::diag::Diag;
use crate::script::ending::Ending;
use crate::script::provisioners::Provisioners;
use crate::script::waits::Waits;

/// The longest time of a step with all its provisioners in a script, in seconds: one day.
pub const MAX_SECONDS: u32 = 86_400;

/// The answer of a provider to a step: how long the provider takes, and how it ends. Provisioners
/// run after a create, and before a delete.
#[derive(Debug, Drop)]
pub struct Outcome {
    /// How long the provider takes, in seconds. In a script the provider and all provisioners take
    /// at most 86,400 seconds together.
    pub seconds: u32,
    /// The provisioners of the step. They run after the provider, but before the provider of a
    /// delete.
    pub provisioners: Provisioners,
    /// How the provider ends.
    pub result: Ending,
    /// The steps that this step waits for, in addition to the step before it in its change. They
    /// matter only where changes are applied with a parallelism.
    pub after: Waits,
}

impl Outcome {
    ghost use Rattle.apply_model.specs.Script.Outcome.{end_id, failure_of, fails, seconds_before, seconds_after, took};
    ghost use Rattle.apply_model.specs.Script.Waits.{names_a_wait};

    /// How long the provider takes before the provisioners, in seconds. It is 0 for a delete, whose
    /// provisioners run first.
    pub fn seconds_before(&self, kind: StepKind) -> u32
        ensures { result ≡ seconds_before kind self.now }
    {
        if kind.is_delete() { 0 } else { self.seconds }
    }

    /// How long the provider takes after the provisioners, in seconds. It is 0 unless the step is a
    /// delete and no provisioner makes the step fail.
    pub fn seconds_after(&self, kind: StepKind) -> u32
        ensures { result ≡ seconds_after kind self.now }
    {
        if kind.is_delete() && !self.provisioners.make_fail() {
            self.seconds
        } else {
            0
        }
    }

    /// How long a step of that kind takes, in seconds: the provider and the provisioners that run.
    /// The last provisioner to run is the first that makes the step fail. After such a failure the
    /// provider of a delete does nothing.
    pub fn took(&self, kind: StepKind) -> u32
        requires { took kind self.now < 2 ^ 32 }
        ensures { result ≡ took kind self.now }
    {
        self.seconds_before(kind) + self.provisioners.seconds() + self.seconds_after(kind)
    }

    /// Whether the step fails. It fails if its provider fails, or a provisioner that may not fail
    /// does.
    pub fn fails(&self) -> bool
        ensures { result ≡ fails self.now }
    {
        self.failure().is_some()
    }

    /// The error of a step that fails: of the provider, or else of the first provisioner that makes
    /// the step fail.
    pub fn failure(&self) -> Option<&Diag>
        ensures { option_copied result ≡ failure_of self.now }
    {
        match &self.result {
            Ending::Failed { diag } => Some(diag),
            Ending::Done { .. } | Ending::Warned { .. } => self.provisioners.first_failure(),
        }
    }

    /// The id that the end of a step of that kind reports: the id that the provider returns. `None`
    /// for a delete, and where the provider fails, only warns or returns no id.
    pub fn end_id(&self, kind: StepKind) -> Option<&str>
        ensures { option_copied result ≡ end_id kind self.now.result }
    {
        match kind {
            StepKind::Delete => None,
            StepKind::Create | StepKind::Update | StepKind::Read => self.result.id(),
        }
    }

    /// Whether the script names a step that this step waits for.
    pub fn names_a_wait(&self) -> bool
        ensures { result ≡ names_a_wait self.now }
    {
        self.after.len() > 0
    }
}
