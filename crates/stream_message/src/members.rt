//! Reads members into slots, and slots as texts and numbers.

ghost use Rattle.std.specs.Prelude.{◌≡◌, ◌<◌, Err, OnOk, Some, length, option_map};
ghost use Rattle.serde_json.specs.Data.{Data};
ghost use Rattle.std.specs.Option.{option_copied};
ghost use Rattle.apply_json.specs.ShallowView.{shallow_view};
ghost use Rattle.apply_json.specs.Tokens.{IsNoValue, IsRead};
ghost use Rattle.stream_message.specs.Slots.{shallow_value};
ghost use Rattle.stream_message.specs.Selected.{is_selected};
ghost use Rattle.stream_message.specs.SlotValues.{text_of_slot, whole_of_slot};

use apply_json::{ReadFault, Reader, Shallow, is_text, read_shallow};

/// Whether the member `name` is selected, and has this name.
#[inline(always)]
pub fn is_selected(selected: bool, name: &str, member: &str) -> bool
    ensures { result ≡ is_selected selected name.now member.now }
{
    selected && is_text(name, member)
}

/// Returns the text of a member, if it is a text.
#[inline(always)]
pub fn text_in<'a>(value: Option<Shallow<'a>>) -> Option<&'a str>
    ensures { option_copied result ≡ text_of_slot (option_map shallow_view value.entry) }
{
    value?.text()
}

/// Returns the whole number of a member, if it is one from 0 to 2^64 - 1.
#[inline(always)]
pub fn whole_in(value: Option<Shallow<'_>>) -> Option<u64>
    ensures { result ≡ whole_of_slot (option_map shallow_view value.entry) }
{
    value?.whole()
}

/// Reads a member into its slot. Arrays and objects may nest `depth` deep. `Err` is always
/// `ReadFault::NotJson`.
#[inline(always)]
pub fn read_into_slot<'a>(
    reader: &mut Reader<'a>,
    depth: usize,
    slot: &mut Option<Shallow<'a>>,
) -> Result<(), ReadFault>
    ensures ok { OnOk result ((d : Data) × IsRead depth reader.old d reader.new
        × (option_map shallow_view slot.new ≡ shallow_value (Some d))) }
    ensures shorter { OnOk result (length reader.new < length reader.old) }
    ensures err { result ≡ Err ReadFault.NotJson → IsNoValue depth reader.old }
{
    match read_shallow(reader, depth) {
        Ok(value) => {
            *slot = Some(value);
            Ok(())
        }
        Err(_) => Err(ReadFault::NotJson),
    }
}
