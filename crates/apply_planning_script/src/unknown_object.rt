//! Objects that a script names and the plan does not know.
//!
//! Every `Err` means that memory was refused.

ghost use Rattle.std.specs.Prelude.{◌≡◌, IfOk, is_some, option_map, true};
ghost use Rattle.std.specs.Option.{option_copied};
ghost use Rattle.apply_address.specs.Parts.{parts_view};
ghost use Rattle.apply_model.specs.Plan.Address.{relative_address};
ghost use Rattle.apply_planning_script.specs.Planning.{mode_at};
ghost use Rattle.apply_planning_script.specs.Told.{object_view, unknown_at, unknown_with};

use apply_address::{AddressParts, parts_of};
use apply_model::{Action, Change, ChangeParts, Mode, Text};
use apply_prior::PriorObject;
use std::alloc::{AllocError, Global};

/// The mode of a resource with that address. `None` where the text is no address of a resource.
pub fn mode_at(alloc: Global, address: &str) -> Result<Option<Mode>, AllocError>
    ensures { IfOk result (λ mode. mode ≡ mode_at address.now) }
{
    match parts_of(alloc, address) {
        Ok(Some(parts)) => Ok(Some(parts.mode())),
        Ok(None) => Ok(None),
        Err(refused) => Err(refused),
    }
}

/// An object that the plan does not know, by its address and its deposed key. `None` where the
/// address is not that of a resource.
pub fn unknown_object(
    alloc: Global,
    address: &str,
    deposed: Option<&str>,
) -> Result<Option<PriorObject>, AllocError>
    ensures { IfOk result (λ object. option_map object_view object ≡ unknown_at address.now (option_copied deposed.entry)) }
{
    match parts_of(alloc, address) {
        Ok(Some(parts)) => match object_with(alloc, address, deposed, parts) {
            Ok(object) => Ok(Some(object)),
            Err(refused) => Err(refused),
        },
        Ok(None) => Ok(None),
        Err(refused) => Err(refused),
    }
}

/// The object with these parts of its address.
fn object_with(
    alloc: Global,
    address: &str,
    deposed: Option<&str>,
    parts: AddressParts<'_>,
) -> Result<PriorObject, AllocError>
    requires { is_some (relative_address parts.module_address.now address.now) ≡ true }
    ensures { IfOk result (λ object. object_view object ≡ unknown_with address.now (option_copied deposed.entry) (parts_view parts.entry)) }
{
    let mode = parts.mode();
    let AddressParts {
        module_address,
        resource: _,
        kind_name,
        name,
        key,
    } = parts;
    let object = Change::new(ChangeParts {
        address: Text::new(alloc, address)?,
        module_address: Text::new(alloc, module_address)?,
        mode,
        kind_name: Text::new(alloc, kind_name)?,
        name: Text::new(alloc, name)?,
        key,
        deposed: Text::of_option(alloc, deposed)?,
        prior_id: None,
        action: Action::NoOp,
    });
    Ok(PriorObject {
        object,
        depends_on: Vec::new(alloc),
        id_before: None,
    })
}
