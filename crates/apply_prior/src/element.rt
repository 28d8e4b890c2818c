//! Objects in a tree. Their texts are borrowed from it.

ghost use Rattle.std.specs.Prelude.{◌≡◌, is_some, true};
ghost use Rattle.apply_model.specs.Plan.Address.{relative_address};

use crate::actions::action_of;
use crate::ids::id_of;
use crate::index::Index;
use crate::names::Names;
use apply_json::non_empty;
use apply_json_tree::members::{member, non_empty_text_member, text_member_or};
use apply_model::{Action, Change, ChangeParts, Mode, Text, relative_address};
use apply_resolve::ObjectId;
use serde_json::Value;
use std::alloc::{AllocError, Global};

/// An object whose address lies in its module.
#[derive(Clone, Copy)]
pub struct Element<'a> {
    pub names: Names<'a>,
    pub module_address: &'a str,
    pub deposed: Option<&'a str>,
    pub prior_id: Option<&'a str>,
    pub action: Action,
    ghost fits: { is_some (relative_address module_address.now names.address.now) ≡ true },
}

impl<'a> Element<'a> {
    ghost use Rattle.std.specs.Prelude.{IfOk, option_map};
    ghost use Rattle.std.specs.Option.{option_copied};
    ghost use Rattle.serde_json.specs.View.{view};
    ghost use Rattle.apply_model.specs.Plan.Action.{steps_of_action};
    ghost use Rattle.apply_prior.specs.Elements.{in_its_module};
    ghost use Rattle.apply_prior.specs.Objects.{state_object, vanished_by_mode};
    ghost use Rattle.apply_prior.specs.Views.{drifted, element_view, index_view};

    /// The object with these members. `None` means that its address does not lie in its module.
    fn new(
        names: Names<'a>,
        module_address: &'a str,
        deposed: Option<&'a str>,
        prior_id: Option<&'a str>,
        action: Action,
    ) -> Option<Element<'a>>
        ensures { option_map element_view result ≡ in_its_module (record {
          address = names.entry.address.now;
          module_address = module_address.now;
          mode = names.entry.mode;
          kind_name = names.entry.kind_name.now;
          name = names.entry.name.now;
          key = index_view names.entry.key;
          deposed = option_copied deposed.entry;
          prior_id = option_copied prior_id.entry;
          steps = steps_of_action action;
        }) }
    {
        if relative_address(module_address, names.address).is_none() {
            return None;
        }
        Some(Element {
            names,
            module_address,
            deposed,
            prior_id,
            action,
        })
    }

    /// The object of an element of `resource_drift`. `None` means that a member is invalid or
    /// missing.
    pub fn of_drift(element: &'a Value) -> Option<Element<'a>>
        ensures { option_map element_view result ≡ drifted (view element.now) }
    {
        let names = Names::of(element)?;
        let module_address = text_member_or(element, "module_address", "")?;
        let deposed = text_member_or(element, "deposed", "")?;
        let change = member(element, "change")?;
        let action = action_of(change)?;
        let prior_id = id_of(member(change, "before"), member(change, "before_sensitive"));
        Element::new(names, module_address, non_empty(deposed), prior_id, action)
    }

    /// The object of an element of the prior state in that module. `None` means that a member is
    /// invalid or missing.
    pub fn of_state(module_address: &'a str, element: &'a Value) -> Option<Element<'a>>
        ensures { option_map element_view result ≡ state_object module_address.now (view element.now) }
    {
        let names = Names::of(element)?;
        let deposed = non_empty_text_member(element, "deposed_key");
        let prior_id = id_of(
            member(element, "values"),
            member(element, "sensitive_values"),
        );
        Element::new(names, module_address, deposed, prior_id, Action::NoOp)
    }

    /// The object of a drift, as one that has vanished. `None` for a data source.
    pub fn of_vanished(change: &'a Change) -> Option<Element<'a>>
        ensures { option_map element_view result ≡ vanished_by_mode change.now.mode change.now }
    {
        match change.mode() {
            Mode::Managed => {
                let names = Names {
                    address: change.address(),
                    mode: Mode::Managed,
                    kind_name: change.kind_name(),
                    name: change.name(),
                    key: Index::of_key(change.key()),
                };
                Element::new(names, change.module(), change.deposed(), None, Action::NoOp)
            }
            Mode::DataSource => None,
        }
    }

    /// The address and the deposed key.
    pub fn id(&self) -> ObjectId<'a>
        ensures address { result.address.now ≡ (element_view self.now).address }
        ensures deposed { option_copied result.deposed ≡ (element_view self.now).deposed }
    {
        ObjectId {
            address: self.names.address,
            deposed: self.deposed,
        }
    }

    /// The object as a change, with copies of the texts. `Err` means that memory was refused.
    pub fn copied(&self, alloc: Global) -> Result<Change, AllocError>
        ensures { IfOk result (λ change. change ≡ element_view self.now) }
    {
        let Element {
            names,
            module_address,
            deposed,
            prior_id,
            action,
        } = *self;
        Ok(Change::new(ChangeParts {
            address: Text::new(alloc, names.address)?,
            module_address: Text::new(alloc, module_address)?,
            mode: names.mode,
            kind_name: Text::new(alloc, names.kind_name)?,
            name: Text::new(alloc, names.name)?,
            key: names.key.copied(alloc)?,
            deposed: Text::of_option(alloc, deposed)?,
            prior_id: Text::of_option(alloc, prior_id)?,
            action,
        }))
    }
}
