//! Outputs by name, in the order in which their names came.

ghost use Rattle.std.specs.Prelude.{◌≡◌, IfOk, map};
ghost use Rattle.stream_watch.specs.Outputs.{output_view};
ghost use Rattle.stream_watch.specs.OutputSlots.{entries_view, entry_view};

use crate::message::outputs::output::Output;
use crate::message::outputs::statement::Statement;
use indexmap::IndexMap;
use std::alloc::{AllocError, Global};

/// Returns the outputs, in the order of the map. `Err` where memory is refused.
pub fn in_order(
    alloc: Global,
    found: IndexMap<String, Statement>,
) -> Result<Vec<Output>, AllocError>
    ensures { IfOk result (λ outputs. map output_view outputs.items ≡ entries_view found.entries) }
{
    let mut outputs = Vec::new(alloc);
    for (name, statement) in found {
        outputs.push(with_name(name, statement))?;
    }
    Ok(outputs)
}

/// The output of that name.
fn with_name(name: String, statement: Statement) -> Output
    ensures { output_view result ≡ entry_view (name, statement) }
{
    Output {
        name,
        action: statement.action,
        is_sensitive: statement.is_sensitive,
        value: statement.value,
    }
}
