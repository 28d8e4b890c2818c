//! A member of an object, as JSON text.

ghost use Rattle.std.specs.Prelude.{◌≡◌, IfOk, option_map, string_bytes};
ghost use Rattle.stream_record_lines.specs.JsonMembers.{HoldsJson, each_member, member_json};

use apply_json::{
    JsonFault, ReadFault, Reader, Scratch, Slots, is_text, read_slots, read_verbatim, skip_member,
};
use std::alloc::{AllocError, Global};

/// A member of an object, as JSON text.
#[derive(Drop)]
pub struct JsonMember<'a> {
    pub name: &'a str,
    /// `None` if the object lacks the member.
    pub json: Option<String>,
}

impl<'a> Slots<'a> for JsonMember<'a> {
    ghost is_verbatim = { each_member };

    ghost holds = { λ start slot ms. HoldsJson start.name.now slot ms };

    fn take(
        &mut self,
        alloc: Global,
        name: &str,
        reader: &mut Reader<'a>,
        depth: usize,
    ) -> Result<(), ReadFault> {
        if is_text(name, self.name) {
            self.json = Some(read_verbatim(alloc, reader, depth)?);
            Ok(())
        } else {
            skip_member(reader, depth)
        }
    }
}

/// Reads the member `name` of an object, as JSON text: without blanks, numbers as they were
/// written, and strings in the shortest escapes (RFC 8259). `scratch` grows to the length of the
/// text. `None` if the text is no JSON object or lacks the member. `Err` where memory is refused.
pub fn read_member_json(
    alloc: Global,
    scratch: &mut Scratch,
    name: &str,
    text: &[u8],
) -> Result<Option<String>, AllocError>
    ensures { IfOk result (λ found. option_map string_bytes found ≡ member_json name.now text.now) }
{
    let mut slot = JsonMember { name, json: None };
    match read_slots(alloc, scratch, text, text.len(), &mut slot) {
        Ok(()) => Ok(slot.json),
        Err(JsonFault::Memory) => Err(AllocError),
        Err(JsonFault::TooLarge | JsonFault::NotJson) => Ok(None),
    }
}
