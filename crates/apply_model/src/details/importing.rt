//! The import of an object.

ghost use Rattle.std.specs.Prelude.{◌≡◌};
ghost use Rattle.std.specs.Option.{option_copied};

use crate::text::Text;

/// Marks a change that imports its object (JSON Output Format, "Change Representation",
/// `importing`).
#[derive(Debug, Drop)]
pub struct Importing {
    /// The id by which Terraform imports the object. `None` where the plan has none.
    pub id: Option<Text>,
}

impl Importing {
    /// The id by which Terraform imports the object. `None` where the plan has none.
    pub fn id(&self) -> Option<&str>
        ensures { option_copied result ≡ self.now.id }
    {
        self.id.as_ref().map(Text::as_str)
    }
}
