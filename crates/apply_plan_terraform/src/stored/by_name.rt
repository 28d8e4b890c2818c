//! Outputs by name.

ghost use Rattle.std.specs.Prelude.{◌≡◌, IfOk};
ghost use Rattle.serde_json.specs.Data.{no_members};
ghost use Rattle.apply_plan_terraform.specs.StoredOutputs.{members_view, put_all};

use crate::stored::stored_output::StoredOutput;
use serde_json::Map;
use std::alloc::{AllocError, Global};

/// Puts the outputs into a map. Of outputs with the same name the last one counts. `Err` when
/// memory is refused.
pub fn by_name(
    alloc: Global,
    outputs: Vec<(String, StoredOutput)>,
) -> Result<Map<String, StoredOutput>, AllocError>
    ensures { IfOk result (λ collected. members_view collected.entries ≡ put_all outputs.items no_members) }
{
    let mut collected = Map::new(alloc);
    for (name, output) in outputs {
        drop(collected.insert(name, output)?);
    }
    Ok(collected)
}
