//! A planned change of one object.

ghost use Rattle.std.specs.Prelude.{◌≡◌, ◌≤◌, is_some, length, true};
ghost use Rattle.std.specs.Option.{option_copied};
ghost use Rattle.apply_model.specs.Plan.Address.{provider_of, relative_address};
ghost use Rattle.apply_model.specs.Plan.ChangeParts.{change_of_parts};
ghost use Rattle.apply_model.specs.Plan.ResourceChange.{resource_of};

use crate::plan::address::{provider, relative_address};
use crate::plan::change_parts::ChangeParts;
use crate::plan::key::Key;
use crate::plan::mode::Mode;
use crate::plan::step_kind::StepKind;
use crate::text::Text;
use std::marker::Model;

/// A planned change of one object (JSON Output Format, "Plan Representation", `resource_changes`).
///
/// Contracts see the members of the change, with its steps in place of its actions.
#[derive(Debug, Drop)]
pub struct Change {
    parts: ChangeParts,
}

impl Model for Change {
    ghost use Rattle.std.specs.Prelude.{◌≡◌, is_some, true};
    ghost use Rattle.apply_model.specs.Plan.Address.{relative_address};
    ghost use Rattle.apply_model.specs.Plan.ChangeParts.{change_of_parts};
    ghost use Rattle.apply_model.specs.Plan.ResourceChange.{ResourceChange};

    ghost Value = { ResourceChange };

    ghost view = { λ c. change_of_parts c.parts };

    ghost invariant = { λ c. is_some (relative_address c.parts.module_address c.parts.address) ≡ true };
}

impl Change {
    /// A change with these parts.
    pub fn new(parts: ChangeParts) -> Change
        requires fits { is_some (relative_address parts.module_address parts.address) ≡ true }
        ensures { result ≡ change_of_parts parts }
    {
        Change { parts }
    }

    /// The absolute address.
    pub fn address(&self) -> &str
        ensures { result.now ≡ self.now.address }
    {
        self.parts.address.as_str()
    }

    /// The address of the module, empty for the root module.
    pub fn module(&self) -> &str
        ensures { result.now ≡ self.now.module_address }
    {
        self.parts.module_address.as_str()
    }

    /// The address within the module, as a part of the address.
    pub fn resource(&self) -> &str
        ensures { result.now ≡ resource_of self.now }
    {
        let ChangeParts {
            module_address,
            address,
            ..
        } = &self.parts;
        relative_address(module_address.as_str(), address.as_str()).unwrap()
    }

    /// The resource type.
    pub fn kind_name(&self) -> &str
        ensures { result.now ≡ self.now.kind_name }
    {
        self.parts.kind_name.as_str()
    }

    /// The provider that the type implies: the text before its first underscore, or the whole type.
    pub fn provider(&self) -> &str
        ensures { result.now ≡ provider_of self.now.kind_name }
    {
        provider(self.kind_name())
    }

    /// The resource's name.
    pub fn name(&self) -> &str
        ensures { result.now ≡ self.now.name }
    {
        self.parts.name.as_str()
    }

    /// Whether it is a managed resource or a data source.
    pub fn mode(&self) -> Mode
        ensures { result ≡ self.now.mode }
    {
        self.parts.mode
    }

    /// The instance key.
    pub fn key(&self) -> &Key
        ensures { result.now ≡ self.now.key }
    {
        &self.parts.key
    }

    /// The key of a deposed object. `None` for the current object at the address.
    pub fn deposed(&self) -> Option<&str>
        ensures { option_copied result ≡ self.now.deposed }
    {
        self.parts.deposed.as_ref().map(Text::as_str)
    }

    /// The id that the object had before the change. `None` where it had none, or where the id is
    /// sensitive.
    pub fn prior_id(&self) -> Option<&str>
        ensures { option_copied result ≡ self.now.prior_id }
    {
        self.parts.prior_id.as_ref().map(Text::as_str)
    }

    /// The steps in the order in which they are applied: two of a replacement, and at most one
    /// otherwise.
    pub fn steps(&self) -> &[StepKind]
        ensures steps { result.now ≡ self.now.steps }
        ensures few { length self.now.steps ≤ 2 }
    {
        self.parts.action.steps()
    }
}
