//! A provisioner of a step.

ghost use Rattle.std.specs.Prelude.{◌≡◌};
ghost use Rattle.std.specs.Option.{option_copied};

use crate::script::diag::Diag;
use crate::script::timed_texts::TimedTexts;
use crate::text::Text;

/// A provisioner. It runs after the provider's create, or before the provider's delete
/// (Machine-Readable UI, "Operation Messages": `provision_start`, `provision_progress`,
/// `provision_complete` and `provision_errored`).
#[derive(Debug, Drop)]
pub struct Provisioner {
    /// The name, such as `local-exec`. It is never empty in a script.
    pub name: Text,
    /// How long the provisioner takes, in seconds. In a script a step and all its provisioners take
    /// at most 86,400 seconds together.
    pub seconds: u32,
    /// The texts that the provisioner prints, and when.
    pub output: TimedTexts,
    /// The error, if the provisioner fails.
    pub failed: Option<Diag>,
    /// Whether the step goes on after a failure of this provisioner. If so, the next provisioner
    /// runs.
    pub may_fail: bool,
}

impl Provisioner {
    ghost use Rattle.apply_model.specs.Script.Outcome.{failure_by, makes_fail};

    /// The error by which the provisioner makes the step fail. `None` where it succeeds or may
    /// fail.
    pub fn failure(&self) -> Option<&Diag>
        ensures { option_copied result ≡ failure_by self.now }
    {
        if self.may_fail {
            None
        } else {
            self.failed.as_ref()
        }
    }

    /// Whether the provisioner makes the step fail.
    pub fn makes_fail(&self) -> bool
        ensures { result ≡ makes_fail self.now }
    {
        self.failure().is_some()
    }
}
