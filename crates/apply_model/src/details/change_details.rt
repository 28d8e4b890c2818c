//! What only Terraform's form of a stream shows of a planned change.

ghost use Rattle.std.specs.Prelude.{◌≡◌, option_map};
ghost use Rattle.std.specs.Option.{option_copied};
ghost use Rattle.apply_model.specs.Details.{reason_word};

use crate::details::importing::Importing;
use crate::details::previous_resource::PreviousResource;
use crate::details::reason::Reason;
use crate::text::Text;

/// What only Terraform's form of a stream shows of a planned change (JSON Output Format, "Plan
/// Representation").
#[derive(Debug, Drop)]
pub struct ChangeDetails {
    /// Whether the object is to be forgotten: it stays, and Terraform stops tracking it.
    pub forgets: bool,
    /// Why the change was planned. `None` where the plan gives no reason.
    pub reason: Option<Reason>,
    /// The import of the object. `None` where the change imports nothing.
    pub importing: Option<Importing>,
    /// The configuration that Terraform generated for an imported object. `None` where it generated
    /// none.
    pub generated_config: Option<Text>,
    /// The id that the object is to have. `None` where the id is unknown or sensitive.
    pub planned_id: Option<Text>,
    /// The resource that the object was before it was moved. `None` where the plan names none.
    pub previous: Option<PreviousResource>,
}

impl ChangeDetails {
    /// The id that the object is to have. `None` where the id is unknown or sensitive.
    pub fn planned_id(&self) -> Option<&str>
        ensures { option_copied result ≡ self.now.planned_id }
    {
        self.planned_id.as_ref().map(Text::as_str)
    }

    /// The word of a stream for the reason of the change. `None` where the plan gives no reason.
    pub fn reason_word(&self) -> Option<&'static str>
        ensures { option_copied result ≡ option_map reason_word self.now.reason }
    {
        match self.reason {
            Some(reason) => Some(reason.word()),
            None => None,
        }
    }

    /// The configuration that Terraform generated for an imported object. `None` where it generated
    /// none.
    pub fn generated_config(&self) -> Option<&str>
        ensures { option_copied result ≡ self.now.generated_config }
    {
        self.generated_config.as_ref().map(Text::as_str)
    }
}
