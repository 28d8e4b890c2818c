//! The address that an object had before it was moved.

ghost use Rattle.std.specs.Prelude.{◌≡◌};
ghost use Rattle.apply_model.specs.Plan.Address.{provider_of};

use crate::plan::address::provider;
use crate::plan::key::Key;
use crate::text::Text;

/// The resource that an object was before it was moved, by the parts of its address (JSON Output
/// Format, "Plan Representation", `previous_address`).
#[derive(Debug, Drop)]
pub struct PreviousResource {
    /// The whole address.
    pub address: Text,
    /// The address of the module, empty for the root module.
    pub module_address: Text,
    /// The address within the module.
    pub resource: Text,
    /// The resource type.
    pub kind_name: Text,
    /// The resource's name.
    pub name: Text,
    /// The instance key.
    pub key: Key,
}

impl PreviousResource {
    /// The provider that the type implies: the text before its first underscore, or the whole type.
    pub fn provider(&self) -> &str
        ensures { result.now ≡ provider_of self.now.kind_name }
    {
        provider(self.kind_name.as_str())
    }
}
