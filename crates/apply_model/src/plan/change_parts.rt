//! The parts of a change.

use crate::plan::action::Action;
use crate::plan::key::Key;
use crate::plan::mode::Mode;
use crate::text::Text;

/// The parts of a change. They make a change if the address begins with the address of the module.
#[derive(Debug, Drop)]
pub struct ChangeParts {
    /// The absolute address.
    pub address: Text,
    /// The address of the module, empty for the root module.
    pub module_address: Text,
    /// Whether it is a managed resource or a data source.
    pub mode: Mode,
    /// The resource type.
    pub kind_name: Text,
    /// The resource's name.
    pub name: Text,
    /// The instance key.
    pub key: Key,
    /// The key of a deposed object. `None` for the current object at the address.
    pub deposed: Option<Text>,
    /// The id that the object had before the change. `None` where it had none, or where the id is
    /// sensitive.
    pub prior_id: Option<Text>,
    /// The planned action.
    pub action: Action,
}
