//! The type and the timestamp of a line, which suffice for most lines of a stream.

ghost use Rattle.std.specs.Prelude.{◌≡◌, IfErr, IfOk, Some, length};
ghost use Rattle.serde_json.specs.Data.{Data};
ghost use Rattle.apply_json.specs.Verbatim.{none_verbatim};
ghost use Rattle.apply_json.specs.Parsed.{IsNoTree};
ghost use Rattle.apply_json.specs.ShallowView.{members_in};
ghost use Rattle.apply_json.specs.Tree.{tree_of};
ghost use Rattle.stream_message.specs.Runs.{is_version};
ghost use Rattle.stream_message.specs.Slots.{HoldsHead};
ghost use Rattle.stream_message.specs.SlotValues.{kind_in, time_in};

use crate::kind::Kind;
use crate::timestamp::instant_of;
use apply_json::{
    JsonFault, ReadFault, Reader, Scratch, Shallow, Slots, is_text, read_shallow_into, read_slots,
    skip_member,
};
use std::alloc::Global;

/// The members `type` and `@timestamp` of a line (Machine-Readable UI, "Message Types").
#[derive(Clone, Copy, Drop)]
pub struct LineHead<'a> {
    /// `type`.
    pub type_name: Shallow<'a>,
    /// `@timestamp`.
    pub timestamp: Shallow<'a>,
}

impl<'a> LineHead<'a> {
    ghost use Rattle.serde_json.specs.Data.{no_members};

    /// The head of an object without members.
    pub(crate) fn new() -> LineHead<'a>
        ensures { HoldsHead result no_members }
    {
        LineHead {
            type_name: Shallow::Absent,
            timestamp: Shallow::Absent,
        }
    }

    /// Returns the kind of the message. `None` if the line has no text `type`: it is no message.
    pub fn kind(&self) -> Option<Kind>
        ensures { result ≡ kind_in self.now }
    {
        match self.type_name.text() {
            Some(name) => Some(Kind::named(name)),
            None => None,
        }
    }

    /// Whether the message is a `version`, with which a run of Terraform begins.
    pub fn is_version(&self) -> bool
        ensures { result ≡ is_version (kind_in self.now) }
    {
        matches!(self.kind(), Some(Kind::Version))
    }

    /// Returns the timestamp of the message, in microseconds since the start of 1970, rounded down.
    /// `None` if the line is no message, or has no valid `@timestamp`.
    pub fn time(&self) -> Option<i64>
        ensures { result ≡ time_in self.now }
    {
        self.type_name.text()?;
        instant_of(self.timestamp.text()?)
    }
}

impl<'a> Slots<'a> for LineHead<'a> {
    ghost is_verbatim = { none_verbatim };

    ghost holds = { λ _ head ms. HoldsHead head ms };

    #[inline(always)]
    fn take(
        &mut self,
        _alloc: Global,
        name: &str,
        reader: &mut Reader<'a>,
        depth: usize,
    ) -> Result<(), ReadFault> {
        if is_text(name, "type") {
            read_shallow_into(reader, depth, &mut self.type_name)
        } else if is_text(name, "@timestamp") {
            read_shallow_into(reader, depth, &mut self.timestamp)
        } else {
            skip_member(reader, depth)
        }
    }
}

/// Reads the type and the timestamp of a line. A value that is no object has none. `scratch` grows
/// to the length of the line.
///
/// `Err` with `JsonFault::NotJson` where the text is not UTF-8, is no JSON (RFC 8259), or nests
/// more than 127 deep. `Err` with `JsonFault::Memory` where memory is refused. No line is
/// `JsonFault::TooLarge`.
pub fn read_head<'a>(
    alloc: Global,
    scratch: &'a mut Scratch,
    text: &'a [u8],
) -> Result<LineHead<'a>, JsonFault>
    ensures ok { IfOk result (λ head. (tree : Data) × (tree_of text.now ≡ Some tree)
        × HoldsHead head (members_in tree)) }
    ensures err { IfErr result (λ fault. IsNoTree (length text.now) fault text.now) }
{
    let mut head = LineHead::new();
    match read_slots(alloc, scratch, text, text.len(), &mut head) {
        Ok(()) => Ok(head),
        Err(fault) => Err(fault),
    }
}
