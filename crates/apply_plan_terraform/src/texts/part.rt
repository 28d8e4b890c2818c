//! The parts of a plan and a script that are read for Terraform's form.

ghost use Rattle.std.specs.Prelude.{◌≡◌};
ghost use Rattle.apply_plan_terraform.specs.Sections.{is_companion};
ghost use Rattle.apply_plan_terraform.specs.Texts as texts;
ghost use Rattle.apply_plan_terraform.specs.Texts.{is_text, part_named};

use apply_json::is_text;

/// Which part of a plan or a script a value is. Values of no part are skipped.
#[derive(Clone, Copy, Debug, PartialEq, Eq)]
pub enum Part {
    /// The top level of a plan.
    Plan,
    /// `prior_state` of a plan.
    State,
    /// `values` of a state.
    Values,
    /// The top level of a script.
    Script,
    /// `diagnostics` of a script, stored as JSON text.
    Diagnostics,
    /// A diagnostic of a script.
    Diagnostic,
    /// Outputs by their names.
    Outputs,
    /// An output.
    Output,
    /// `output_changes` of a plan, by the names of the outputs.
    OutputChanges,
    /// The planned change of an output.
    OutputChange,
    /// A value that is stored as JSON text.
    Text,
}

impl Part {
    /// Whether any value of this part is stored as JSON text, objects too.
    pub fn is_text(self) -> bool
        ensures { result ≡ is_text self }
    {
        match self {
            Part::Text | Part::Diagnostics => true,
            Part::Plan | Part::State | Part::Values | Part::Script | Part::Diagnostic => false,
            Part::Outputs | Part::Output | Part::OutputChanges | Part::OutputChange => false,
        }
    }

    /// Whether the part is the other section, next to the outputs: `output_changes` or
    /// `diagnostics`.
    pub fn is_companion(self) -> bool
        ensures { result ≡ is_companion self }
    {
        match self {
            Part::OutputChanges | Part::Diagnostics => true,
            Part::Plan | Part::State | Part::Values | Part::Script | Part::Diagnostic => false,
            Part::Outputs | Part::Output | Part::OutputChange | Part::Text => false,
        }
    }

    /// The part that the member with that name is. `None` when the member is skipped.
    pub fn named(self, name: &str) -> Option<Part>
        ensures { result ≡ part_named self name.now }
    {
        match self {
            Part::Plan => if is_text(name, "prior_state") {
                Some(Part::State)
            } else if is_text(name, "output_changes") {
                Some(Part::OutputChanges)
            } else {
                None
            },
            Part::State => if is_text(name, "values") {
                Some(Part::Values)
            } else {
                None
            },
            Part::Values => if is_text(name, "outputs") {
                Some(Part::Outputs)
            } else {
                None
            },
            Part::Script => if is_text(name, "outputs") {
                Some(Part::Outputs)
            } else if is_text(name, "diagnostics") {
                Some(Part::Diagnostics)
            } else {
                None
            },
            Part::Diagnostic => if is_of_diagnostic(name) {
                Some(Part::Text)
            } else {
                None
            },
            Part::Outputs => Some(Part::Output),
            Part::Output => if is_text(name, "sensitive")
                || is_text(name, "type")
                || is_text(name, "value")
            {
                Some(Part::Text)
            } else {
                None
            },
            Part::OutputChanges => Some(Part::OutputChange),
            Part::OutputChange => if is_text(name, "actions") || is_text(name, "after_unknown") {
                Some(Part::Text)
            } else {
                None
            },
            Part::Text | Part::Diagnostics => None,
        }
    }
}

/// Whether a diagnostic has a member with that name.
fn is_of_diagnostic(name: &str) -> bool
    ensures { result ≡ texts.is_of_diagnostic name.now }
{
    is_text(name, "severity")
        || is_text(name, "summary")
        || is_text(name, "detail")
        || is_text(name, "address")
        || is_text(name, "range")
        || is_text(name, "snippet")
}
