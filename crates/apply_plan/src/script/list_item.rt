//! Items of the arrays of a script.

ghost use Rattle.std.specs.Prelude.{◌≡◌, ◌<◌, Err, IfOk, OnOk, Option, length, option_map};
ghost use Rattle.serde_json.specs.Data.{Data};
ghost use Rattle.apply_json.specs.Verbatim.{IsMixedRead};
ghost use Rattle.apply_json.specs.Tokens.{IsNoValue};
ghost use Rattle.apply_plan.specs.Script.Entry.{is_verbatim_name};

use apply_json::{ReadFault, Reader};
use std::alloc::Global;

/// A type that can be read as an item of an array.
pub trait ListItem<'a>: Drop {
    /// The type that contracts see.
    ghost Seen: { Type 0 };

    /// The item, as contracts see it.
    ghost see: { Self → Self.Seen };

    /// The item that a tree states. None means that the tree is invalid.
    ghost part: { Data → Option Self.Seen };

    /// Reads an item. `None` means that it is invalid.
    ///
    /// `Err` means that the text is not JSON, or that memory was refused.
    fn read(alloc: Global, reader: &mut Reader<'a>, depth: usize) -> Result<Option<Self>, ReadFault>
        ensures ok { IfOk result (λ answer. (d : Data) × IsMixedRead is_verbatim_name depth reader.old d reader.new
            × (option_map Self.see answer ≡ Self.part d)) }
        ensures shorter { OnOk result (length reader.new < length reader.old) }
        ensures err { result ≡ Err ReadFault.NotJson → IsNoValue depth reader.old };
}
