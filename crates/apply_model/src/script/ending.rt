//! How the provider ends a step.

ghost use Rattle.std.specs.Prelude.{◌≡◌};
ghost use Rattle.std.specs.Option.{option_copied};

use crate::script::diag::Diag;
use crate::text::Text;

/// How the provider ends a step.
#[derive(Debug, Drop)]
pub enum Ending {
    /// The provider succeeds.
    Done {
        /// The id of the object after the step, never empty. `None` where the provider returns
        /// none.
        id: Option<Text>,
        /// A warning of the provider.
        warning: Option<Diag>,
    },
    /// The provider fails, and the step with it.
    Failed {
        /// The error.
        diag: Diag,
    },
    /// The provider of a read fails, and only a warning follows, as for a data source of a `check`
    /// block. The step has no end event and does not count as failed. A script states this of reads
    /// only.
    Warned {
        /// The warning.
        diag: Diag,
    },
}

impl Ending {
    ghost use Rattle.apply_model.specs.Script.Outcome.{is_warned, provider_id, warning_in};

    /// The id that the provider returns for the object. `None` where it returns none or fails.
    pub fn id(&self) -> Option<&str>
        ensures { option_copied result ≡ provider_id self.now }
    {
        match self {
            Ending::Done { id: Some(id), .. } => Some(id.as_str()),
            Ending::Done { id: None, .. } | Ending::Failed { .. } | Ending::Warned { .. } => None,
        }
    }

    /// The warning: of a provider that succeeds, or in place of the error of a read that only
    /// warns.
    pub fn warning(&self) -> Option<&Diag>
        ensures { option_copied result ≡ warning_in self.now }
    {
        match self {
            Ending::Done { warning, .. } => warning.as_ref(),
            Ending::Failed { .. } => None,
            Ending::Warned { diag } => Some(diag),
        }
    }

    /// Whether the provider fails and only a warning follows.
    pub fn only_warns(&self) -> bool
        ensures { result ≡ is_warned self.now }
    {
        match self {
            Ending::Done { .. } | Ending::Failed { .. } => false,
            Ending::Warned { .. } => true,
        }
    }
}
