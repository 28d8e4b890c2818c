//! A step of a change, together with its outcome in the script.

ghost use Rattle.std.specs.Prelude.{◌≡◌, slice_get, unwrap_or};
ghost use Rattle.std.specs.Option.{option_copied};
ghost use Rattle.apply_text.specs.AppliedStep.{diag_view, ending_view, outcome_view};
ghost use Rattle.apply_text.specs.Message as messages;
ghost use Rattle.apply_text.specs.Message.{halted_with, no_diag};

use apply_model::{Change, Diag, Outcome, Provisioner, StepKind, Text};

/// A step of a change, together with its outcome in the script. Without an outcome the step
/// succeeds, and the script gives neither an id nor a diagnostic.
#[derive(Clone, Copy, Drop)]
pub struct AppliedStep<'a> {
    pub change: &'a Change,
    pub kind: StepKind,
    pub outcome: Option<&'a Outcome>,
}

/// The texts of a diagnostic.
#[derive(Clone, Copy, Drop)]
pub struct DiagTexts<'a> {
    pub summary: &'a str,
    pub detail: &'a str,
    /// The place in the configuration, as JSON.
    pub range: Option<&'a str>,
    /// The source text at that place, as JSON.
    pub snippet: Option<&'a str>,
}

impl<'a> DiagTexts<'a> {
    /// Builds the diagnostic of a hook that halts the run. `detail` names the hook and its answer.
    pub fn of_halt(detail: &'a str) -> DiagTexts<'a>
        ensures { diag_view result ≡ halted_with detail.now }
    {
        DiagTexts {
            summary: "execution halted",
            detail,
            range: None,
            snippet: None,
        }
    }

    /// Borrows the texts of `diag`.
    pub fn new(diag: &'a Diag) -> DiagTexts<'a>
        ensures { diag_view result ≡ diag.now }
    {
        DiagTexts {
            summary: diag.summary.as_str(),
            detail: diag.detail.as_str(),
            range: borrowed(&diag.range),
            snippet: borrowed(&diag.snippet),
        }
    }

    /// Borrows the texts of `diag`. All texts are empty for `None`.
    fn of_option(diag: Option<&'a Diag>) -> DiagTexts<'a>
        ensures { diag_view result ≡ unwrap_or (option_copied diag.entry) no_diag }
    {
        match diag {
            Some(diag) => DiagTexts::new(diag),
            None => DiagTexts {
                summary: "",
                detail: "",
                range: None,
                snippet: None,
            },
        }
    }
}

/// Borrows an optional text.
fn borrowed(text: &Option<Text>) -> Option<&str>
    ensures { option_copied result ≡ text.now }
{
    match text {
        Some(text) => Some(text.as_str()),
        None => None,
    }
}

impl<'a> AppliedStep<'a> {
    /// The id that the start message shows: the prior id. `None` for a create, or when there is no
    /// prior id.
    pub fn start_id(&self) -> Option<&'a str>
        ensures { option_copied result ≡ messages.start_id self.now.kind self.now.change.now }
    {
        match self.kind {
            StepKind::Create => None,
            StepKind::Update | StepKind::Delete | StepKind::Read => self.change.prior_id(),
        }
    }

    /// The id that the completion message shows: the id that the script gives. `None` for a delete,
    /// or when the script gives no id.
    pub fn end_id(&self) -> Option<&'a str>
        ensures { option_copied result ≡ messages.end_id self.now.kind (ending_view self.now) }
    {
        self.outcome?.end_id(self.kind)
    }

    /// The reason of a failure: the provider's diagnostic, or the failed provisioner's. Its texts
    /// are empty when the step does not fail.
    pub fn failure(&self) -> DiagTexts<'a>
        ensures { diag_view result ≡ messages.failure_diag (outcome_view self.now) }
    {
        match self.outcome {
            Some(outcome) => DiagTexts::of_option(outcome.failure()),
            None => DiagTexts::of_option(None),
        }
    }

    /// The provider's warning, or the reason of a failure that only warns. Its texts are empty when
    /// there is none.
    pub fn warning(&self) -> DiagTexts<'a>
        ensures { diag_view result ≡ messages.warning_of (ending_view self.now) }
    {
        match self.outcome {
            Some(outcome) => DiagTexts::of_option(outcome.result.warning()),
            None => DiagTexts::of_option(None),
        }
    }

    /// The name of provisioner `number`, counted from 0. Empty when there is no such provisioner.
    pub fn provisioner_name(&self, number: u8) -> &'a str
        ensures { result.now ≡ messages.name_of (outcome_view self.now) number }
    {
        match self.provisioner(number) {
            Some(provisioner) => provisioner.name.as_str(),
            None => "",
        }
    }

    /// Output `line` of provisioner `number`, both counted from 0. Empty when there is no such
    /// output.
    pub fn output(&self, number: u8, line: u8) -> &'a str
        ensures { result.now ≡ messages.output_of (outcome_view self.now) number line }
    {
        match self.provisioner(number) {
            Some(provisioner) if line < provisioner.output.len() => {
                provisioner.output.get(line).text.as_str()
            }
            _ => "",
        }
    }

    /// Provisioner `number`, if it exists.
    fn provisioner(&self, number: u8) -> Option<&'a Provisioner>
        ensures { option_copied result ≡ slice_get (outcome_view self.now).provisioners number }
    {
        let outcome = self.outcome?;
        if number < outcome.provisioners.len() {
            Some(outcome.provisioners.get(number))
        } else {
            None
        }
    }
}
