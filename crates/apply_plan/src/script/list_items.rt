//! Reads an array of a script into a list.

ghost use Rattle.std.specs.Prelude.{◌≡◌, ◌<◌, Err, OnOk, Some, if◌then◌else◌, length, map, option_map};
ghost use Rattle.serde_json.specs.Data.{Data};
ghost use Rattle.apply_json.specs.Verbatim.{IsMixedRead};
ghost use Rattle.apply_json.specs.Tokens.{IsNoValue};
ghost use Rattle.apply_plan.specs.Script.Entry.{all_some, is_verbatim_name};
ghost use Rattle.apply_plan.specs.Script.Members.{each_member, needed_member};

use crate::script::list_item::ListItem;
use crate::valid_items::add;
use apply_json::{ArrayPresence, Collector, ReadFault, Reader, read_list};
use std::alloc::Global;

/// The items that were read. `None` means that one of them was invalid.
#[derive(Drop)]
struct ListItems<T> {
    items: Option<Vec<T>>,
}

impl<'a, T: ListItem<'a>> Collector<'a> for ListItems<T> {
    ghost is_verbatim = { is_verbatim_name };

    ghost holds = { λ _ items_read ds. option_map (λ made. map T.see made.items) items_read.items ≡ all_some (map T.part ds) };

    fn take(
        &mut self,
        alloc: Global,
        reader: &mut Reader<'a>,
        depth: usize,
    ) -> Result<(), ReadFault> {
        let item = T::read(alloc, reader, depth)?;
        add(&mut self.items, item)?;
        Ok(())
    }
}

/// Reads an array into its slot. `null` is an empty list, unless `are_needed`.
///
/// The slot becomes `None` for another value, and if an item is invalid. `Err` means that the text
/// is not JSON, or that memory was refused.
pub fn read_items<'a, T: ListItem<'a>>(
    alloc: Global,
    reader: &mut Reader<'a>,
    depth: usize,
    are_needed: bool,
    slot: &mut Option<Vec<T>>,
) -> Result<(), ReadFault>
    ensures ok { OnOk result ((d : Data) × IsMixedRead is_verbatim_name depth reader.old d reader.new
        × (option_map (λ made. map T.see made.items) slot.new
        ≡ (if are_needed then needed_member T.part (Some d) else each_member T.part (Some d)))) }
    ensures shorter { OnOk result (length reader.new < length reader.old) }
    ensures err { result ≡ Err ReadFault.NotJson → IsNoValue depth reader.old }
{
    let mut items_read = ListItems {
        items: Some(Vec::new(alloc)),
    };
    *slot = match read_list(alloc, reader, depth, &mut items_read)? {
        ArrayPresence::List => items_read.items,
        ArrayPresence::Absent => if are_needed { None } else { items_read.items },
        ArrayPresence::Other => None,
    };
    Ok(())
}
