//! Names of objects, as other objects depend on them.
//!
//! Every `Err` means that memory was refused.

ghost use Rattle.std.specs.Prelude.{◌≡◌, IfOk};
ghost use Rattle.apply_planning_script.specs.Names.{mode_prefix, name_of};

use apply_address::module_prefix;
use apply_model::{Change, Mode, Text};
use std::alloc::{AllocError, Global};

/// The name of an object: the address of its module without instance keys, `data.` of a data
/// source, its type and its name.
pub fn name_of(alloc: Global, object: &Change) -> Result<Text, AllocError>
    ensures { IfOk result (λ name. name ≡ name_of object.now) }
{
    let mut name = module_prefix(alloc, object.module())?;
    name.push_str(mode_prefix(object.mode()))?;
    name.push_str(object.kind_name())?;
    name.push_str(".")?;
    name.push_str(object.name())?;
    Text::new(alloc, name.as_str())
}

/// What stands before the type of a resource of this mode.
fn mode_prefix(mode: Mode) -> &'static str
    ensures { result.now ≡ mode_prefix mode }
{
    match mode {
        Mode::Managed => "",
        Mode::DataSource => "data.",
    }
}
