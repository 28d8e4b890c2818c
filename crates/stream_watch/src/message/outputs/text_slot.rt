//! The member `outputs` of a message, as JSON text.

ghost use Rattle.std.specs.Prelude.{◌≡◌, IfOk, option_map, string_bytes};
ghost use Rattle.stream_watch.specs.Outputs.{is_outputs, outputs_text};
ghost use Rattle.stream_watch.specs.OutputSlots.{HoldsText};

use apply_json::{
    JsonFault, ReadFault, Reader, Scratch, Slots, is_text, read_slots, read_verbatim, skip_member,
};
use std::alloc::{AllocError, Global};

/// The member `outputs` of a message, as JSON text.
#[derive(Drop)]
pub struct TextSlot {
    pub text: Option<String>,
}

impl<'a> Slots<'a> for TextSlot {
    ghost is_verbatim = { is_outputs };

    ghost holds = { λ _ slot ms. HoldsText slot ms };

    fn take(
        &mut self,
        alloc: Global,
        name: &str,
        reader: &mut Reader<'a>,
        depth: usize,
    ) -> Result<(), ReadFault> {
        if is_text(name, "outputs") {
            self.text = Some(read_verbatim(alloc, reader, depth)?);
            Ok(())
        } else {
            skip_member(reader, depth)
        }
    }
}

/// Reads the member `outputs` of a message's text, as JSON text. `scratch` grows to the length of
/// the text. `None` if the text is no JSON or has no such member. `Err` where memory is refused.
pub fn read_outputs_text(
    alloc: Global,
    scratch: &mut Scratch,
    text: &[u8],
) -> Result<Option<String>, AllocError>
    ensures { IfOk result (λ found. option_map string_bytes found ≡ outputs_text text.now) }
{
    let mut slot = TextSlot { text: None };
    match read_slots(alloc, scratch, text, text.len(), &mut slot) {
        Ok(()) => Ok(slot.text),
        Err(JsonFault::Memory) => Err(AllocError),
        Err(JsonFault::TooLarge | JsonFault::NotJson) => Ok(None),
    }
}
