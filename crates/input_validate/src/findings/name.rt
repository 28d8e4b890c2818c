//! The names of the members that `validate` knows.

ghost use Rattle.std.specs.Prelude.{◌≡◌};
ghost use Rattle.input_validate.specs.Names.{name_text};

/// A member of a plan or of a script that a run reads, or that `validate` accepts without reading
/// it.
#[derive(Clone, Copy, Debug)]
pub enum Name {
    Actions,
    Address,
    After,
    Change,
    Changes,
    Deposed,
    Detail,
    Diagnostics,
    Failed,
    FormatVersion,
    Gone,
    Id,
    Index,
    Kind,
    Mode,
    ModuleAddress,
    Name,
    OnFailure,
    Output,
    Outputs,
    Planning,
    Provisioner,
    Provisioners,
    Range,
    ResourceChanges,
    Schema,
    Seconds,
    Sensitive,
    Severity,
    Skipped,
    Snippet,
    Step,
    Steps,
    Summary,
    TerraformVersion,
    Text,
    Value,
    Warning,
}

impl Name {
    /// Returns the name as it stands in JSON.
    pub fn text(self) -> &'static str
        ensures { result.now ≡ name_text self }
    {
        match self {
            Name::Actions => "actions",
            Name::Address => "address",
            Name::After => "after",
            Name::Change => "change",
            Name::Changes => "changes",
            Name::Deposed => "deposed",
            Name::Detail => "detail",
            Name::Diagnostics => "diagnostics",
            Name::Failed => "failed",
            Name::FormatVersion => "format_version",
            Name::Gone => "gone",
            Name::Id => "id",
            Name::Index => "index",
            Name::Kind => "type",
            Name::Mode => "mode",
            Name::ModuleAddress => "module_address",
            Name::Name => "name",
            Name::OnFailure => "on_failure",
            Name::Output => "output",
            Name::Outputs => "outputs",
            Name::Planning => "planning",
            Name::Provisioner => "provisioner",
            Name::Provisioners => "provisioners",
            Name::Range => "range",
            Name::ResourceChanges => "resource_changes",
            Name::Schema => "$schema",
            Name::Seconds => "seconds",
            Name::Sensitive => "sensitive",
            Name::Severity => "severity",
            Name::Skipped => "skipped",
            Name::Snippet => "snippet",
            Name::Step => "step",
            Name::Steps => "steps",
            Name::Summary => "summary",
            Name::TerraformVersion => "terraform_version",
            Name::Text => "text",
            Name::Value => "value",
            Name::Warning => "warning",
        }
    }
}
