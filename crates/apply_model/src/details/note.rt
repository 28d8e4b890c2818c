//! Diagnostics that belong to no step.

ghost use Rattle.std.specs.Prelude.{◌≡◌};
ghost use Rattle.std.specs.Option.{option_copied};

use crate::script::diag::Diag;
use crate::text::Text;

/// How severe a diagnostic is (Machine-Readable UI, "Diagnostic", `severity`).
#[derive(Clone, Copy, Debug, PartialEq, Eq)]
pub enum Severity {
    /// The apply has failed.
    Error,
    /// The apply goes on.
    Warning,
}

/// A diagnostic that belongs to no step (Machine-Readable UI, "Diagnostic"). Its source is a check,
/// a condition, an expression of the configuration, or the plan as a whole.
#[derive(Debug, Drop)]
pub struct Note {
    /// How severe the diagnostic is.
    pub severity: Severity,
    /// The summary, the detail and the place in the configuration.
    pub diag: Diag,
    /// The address of the resource that the diagnostic is about, never empty. `None` where it is
    /// about none.
    pub address: Option<Text>,
}

impl Note {
    /// The address that the diagnostic is about. `None` where it is about none.
    pub fn address(&self) -> Option<&str>
        ensures { option_copied result ≡ self.now.address }
    {
        self.address.as_ref().map(Text::as_str)
    }
}
