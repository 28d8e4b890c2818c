//! The words of messages for the severity of a diagnostic.

ghost use Rattle.std.specs.Prelude.{◌≡◌};
ghost use Rattle.apply_text_terraform.specs.Message.{severity_words};

use apply_model::Severity;

/// The words of a message for the severity of its diagnostic.
#[derive(Clone, Copy, Drop)]
pub struct SeverityWords {
    /// The level of the message.
    pub level: &'static str,
    /// The severity of the diagnostic.
    pub severity: &'static str,
    /// The word before the summary in the text of the message.
    pub label: &'static str,
}

impl SeverityWords {
    /// The words for a severity.
    pub fn new(severity: Severity) -> SeverityWords
        ensures level { result.level.now ≡ (severity_words severity).0 }
        ensures severity { result.severity.now ≡ (severity_words severity).1 }
        ensures label { result.label.now ≡ (severity_words severity).2 }
    {
        match severity {
            Severity::Error => SeverityWords {
                level: "error",
                severity: "error",
                label: "Error",
            },
            Severity::Warning => SeverityWords {
                level: "warn",
                severity: "warning",
                label: "Warning",
            },
        }
    }
}
