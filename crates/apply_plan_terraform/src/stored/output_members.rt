//! The stored members of an output.

ghost use Rattle.std.specs.Prelude.{◌≡◌, string_bytes};
ghost use Rattle.serde_json.specs.Data.{no_members, put, string};
ghost use Rattle.apply_plan_terraform.specs.StoredOutputs.{members_of_output, name_of};

use crate::stored::output_member::OutputMember;
use crate::stored::sensitivity::Sensitivity;

/// The stored members of an output, each as JSON text.
#[derive(Debug, Drop)]
pub struct OutputMembers {
    /// `sensitive`.
    pub sensitive: Sensitivity,
    /// `type`.
    pub kind: Option<String>,
    /// `value`.
    pub value: Option<String>,
}

impl OutputMembers {
    /// No member.
    pub fn none() -> OutputMembers
        ensures { members_of_output result ≡ no_members }
    {
        OutputMembers {
            sensitive: Sensitivity::Absent,
            kind: None,
            value: None,
        }
    }

    /// Stores the text of a member. Replaces an earlier one.
    pub fn put(&mut self, member: OutputMember, text: String)
        ensures { members_of_output self.new
            ≡ put (name_of member) (string (string_bytes text)) (members_of_output self.old) }
    {
        match member {
            OutputMember::Sensitive => self.sensitive = Sensitivity::of(text),
            OutputMember::Type => self.kind = Some(text),
            OutputMember::Value => self.value = Some(text),
        }
    }
}
