//! Lists in which each item must be valid.

ghost use Rattle.std.specs.Prelude.{◌≡◌, OnOk, option_map};
ghost use Rattle.apply_plan.specs.ValidItems.{added};

use std::alloc::AllocError;

/// Adds an item to a list. A missing item turns the list into `None` for good.
///
/// `Err` means that memory was refused.
pub fn add<T: Drop>(list: &mut Option<Vec<T>>, item: Option<T>) -> Result<(), AllocError>
    ensures { OnOk result (option_map (λ valid. valid.items) list.new ≡ added (option_map (λ valid. valid.items) list.old) item) }
{
    match item {
        Some(item) => {
            if let Some(valid) = list {
                valid.push(item)?;
            }
            Ok(())
        }
        None => {
            *list = None;
            Ok(())
        }
    }
}
