//! Names of modules: their addresses without instance keys.
//!
//! Every `Err` means that memory was refused.

ghost use Rattle.std.specs.Prelude.{◌≡◌, ◌<◌, ◌++◌, length, option_map, string_bytes, IfOk, IfSome, OnOk, Some};
ghost use Rattle.std.specs.Option.{option_copied};
ghost use Rattle.apply_address.specs.Modules.{module_at, module_prefix, plain_module, plain_modules};

use crate::named::Named;
use std::alloc::{AllocError, Global};

/// The name of the module at the front of a module's address, and the address within that module.
/// `None` in its place where the whole text is read. `None` where the text begins with no module.
#[tactic(auto, unfolding(crate::specs::Modules::module_at))]
fn module_at(text: &str) -> Option<(&str, Option<&str>)>
    ensures value { option_map (λ first. (first.0.now, option_copied first.1)) result ≡ module_at text.now }
    ensures shorter { IfSome result (λ first. IfSome first.1 (λ remainder. length remainder.now < length text.now)) }
{
    let (named, remainder) = Named::first(text.strip_prefix("module.")?)?;
    if remainder.is_empty() {
        Some((named.name, None))
    } else {
        Some((named.name, Some(remainder.strip_prefix(".")?)))
    }
}

/// Adds a module without its key, and a dot.
fn push_module(plain: &mut String, name: &str) -> Result<(), AllocError>
    ensures { OnOk result (string_bytes plain.new ≡ string_bytes plain.old ++ plain_module name.now) }
{
    plain.push_str("module.")?;
    plain.push_str(name)?;
    plain.push_str(".")?;
    Ok(())
}

/// The modules of an address without their keys, each with a dot after it. `None` where the text is
/// no address of a module.
fn plain_modules(alloc: Global, text: &str) -> Result<Option<String>, AllocError>
    ensures { IfOk result (λ plain. option_map string_bytes plain ≡ plain_modules (length text.now) (Some text.now)) }
{
    let mut plain = String::new(alloc);
    let mut rest = Some(text);
    while let Some(text) = rest {
        let Some((name, next)) = module_at(text) else {
            return Ok(None);
        };
        push_module(&mut plain, name)?;
        rest = next;
    }
    Ok(Some(plain))
}

/// What stands before the name of a resource in a module: the address of the module without
/// instance keys, and a dot. It is empty for the root module.
///
/// A text that is no address of a module stays as it is.
#[tactic(auto, unfolding(crate::specs::Modules::module_prefix))]
pub fn module_prefix(alloc: Global, module_address: &str) -> Result<String, AllocError>
    ensures { IfOk result (λ prefix. string_bytes prefix ≡ module_prefix module_address.now) }
{
    if module_address.is_empty() {
        return Ok(String::new(alloc));
    }
    if let Some(plain) = plain_modules(alloc, module_address)? {
        return Ok(plain);
    }
    let mut prefix = String::from_str(alloc, module_address)?;
    prefix.push_str(".")?;
    Ok(prefix)
}
