//! The member `id` of `before` and of `before_sensitive`.

ghost use Rattle.std.specs.Prelude.{◌≡◌, ◌<◌, Err, OnOk, Some, length};
ghost use Rattle.std.specs.Option.{option_copied};
ghost use Rattle.serde_json.specs.Data.{Data};
ghost use Rattle.apply_json.specs.Verbatim.{none_verbatim};
ghost use Rattle.apply_json.specs.ShallowView.{shallow_view};
ghost use Rattle.apply_json.specs.Tokens.{IsNoValue, IsRead};
ghost use Rattle.apply_plan.specs.Plan.Members.{HoldsId, id_member, sensitive_member, is_true_read};

use crate::filled_text::filled_text;
use crate::members::take_member;
use apply_json::{ReadFault, Reader, Shallow, Slots, read_object, read_shallow_into};
use std::alloc::Global;

/// The members of `before` or `before_sensitive`, while they are read.
#[derive(Clone, Copy, Drop)]
pub struct IdSlots<'a> {
    pub id: Shallow<'a>,
}

impl<'a> IdSlots<'a> {
    ghost use Rattle.serde_json.specs.Data.{no_members};

    /// Slots before any member was read.
    pub fn new() -> IdSlots<'a>
        ensures { HoldsId result no_members }
    {
        IdSlots {
            id: Shallow::Absent,
        }
    }
}

impl<'a> Slots<'a> for IdSlots<'a> {
    ghost is_verbatim = { none_verbatim };

    ghost holds = { λ _ slots ms. HoldsId slots ms };

    fn take(
        &mut self,
        _alloc: Global,
        name: &str,
        reader: &mut Reader<'a>,
        depth: usize,
    ) -> Result<(), ReadFault> {
        take_member! {
            name, reader, depth,
            "id" => read_shallow_into(reader, depth, &mut self.id),
        }
    }
}

/// Reads the `id` of `before` into its slot.
///
/// The slot becomes `None` for an empty text and for a value of another type. `Err` means that the
/// text is not JSON.
pub fn read_id<'a>(
    alloc: Global,
    reader: &mut Reader<'a>,
    depth: usize,
    slot: &mut Option<&'a str>,
) -> Result<(), ReadFault>
    ensures ok { OnOk result ((d : Data) × IsRead depth reader.old d reader.new
        × (option_copied slot.new ≡ id_member (Some d))) }
    ensures shorter { OnOk result (length reader.new < length reader.old) }
    ensures err { result ≡ Err ReadFault.NotJson → IsNoValue depth reader.old }
{
    let mut slots = IdSlots::new();
    match read_object(alloc, reader, depth, &mut slots) {
        Ok(_) => {
            *slot = filled_text(slots.id);
            Ok(())
        }
        Err(fault) => Err(fault),
    }
}

/// Reads `before_sensitive` into its slot: whether the id is hidden.
///
/// `true` hides all values, and an object hides the id if its `id` is `true`. `Err` means that the
/// text is not JSON.
pub fn read_hides_id(
    alloc: Global,
    reader: &mut Reader<'_>,
    depth: usize,
    slot: &mut bool,
) -> Result<(), ReadFault>
    ensures ok { OnOk result ((d : Data) × IsRead depth reader.old d reader.new
        × (slot.new ≡ sensitive_member (Some d))) }
    ensures shorter { OnOk result (length reader.new < length reader.old) }
    ensures err { result ≡ Err ReadFault.NotJson → IsNoValue depth reader.old }
{
    let mut slots = IdSlots::new();
    let value = read_object(alloc, reader, depth, &mut slots)?;
    *slot = is_true(value) || is_true(slots.id);
    Ok(())
}

/// Whether the value is `true`.
fn is_true(input: Shallow<'_>) -> bool
    ensures { result ≡ is_true_read (shallow_view input.entry) }
{
    match input {
        Shallow::Bool(b) => b,
        _ => false,
    }
}
