//! Reads the selected members of a line.

ghost use Rattle.std.specs.Prelude.{◌≡◌, IfErr, OnOk, Some, length};
ghost use Rattle.serde_json.specs.Data.{Data, no_members};
ghost use Rattle.apply_json.specs.Parsed.{IsNoTree};
ghost use Rattle.apply_json.specs.ShallowView.{members_in};
ghost use Rattle.apply_json.specs.Tree.{tree_of};
ghost use Rattle.stream_message.specs.declared.selection.Selection.{Selection};
ghost use Rattle.stream_message.specs.Slots.{HoldsLine};

use crate::line_slots::LineSlots;
use apply_json::{JsonFault, Scratch, read_slots};
use std::alloc::Global;

/// Reads the selected members of a line into `line`, which is as [`LineSlots::new`] makes it. A
/// value that is no object has no members. `scratch` grows to the length of the line.
///
/// `Err` with `JsonFault::NotJson` where the text is not UTF-8, is no JSON (RFC 8259), or nests
/// more than 127 deep. `Err` with `JsonFault::Memory` where memory is refused. No line is
/// `JsonFault::TooLarge`. After an `Err` the slots are of no use.
#[inline(always)]
pub fn read_line<'a>(
    alloc: Global,
    scratch: &'a mut Scratch,
    text: &'a [u8],
    line: &mut LineSlots<'a>,
) -> Result<(), JsonFault>
    requires { (selection : Selection) × HoldsLine selection line.old no_members }
    ensures ok { OnOk result ((tree : Data) × (tree_of text.now ≡ Some tree)
        × ((selection : Selection) → HoldsLine selection line.old no_members → HoldsLine selection line.new (members_in tree))) }
    ensures err { IfErr result (λ fault. IsNoTree (length text.now) fault text.now) }
{
    match read_slots(alloc, scratch, text, text.len(), line) {
        Ok(()) => Ok(()),
        Err(fault) => Err(fault),
    }
}
