//! An item of `planning`, before its texts are copied.

ghost use Rattle.std.specs.Prelude.{◌≡◌, ◌<◌, Err, IfOk, OnOk, length, option_map};
ghost use Rattle.std.specs.Option.{option_copied};
ghost use Rattle.serde_json.specs.Data.{Data};
ghost use Rattle.apply_json.specs.Tokens.{IsNoValue};
ghost use Rattle.apply_json.specs.Verbatim.{IsMixedRead};
ghost use Rattle.apply_plan.specs.Script.Entry.{is_verbatim_name};
ghost use Rattle.apply_plan.specs.Script.RawView.{failure_view};
ghost use Rattle.apply_planning_script.specs.Items.{do_clash, item_of, item_with};
ghost use Rattle.apply_planning_script.specs.ItemSlots.{item_read, item_view, object_of_raw};

use crate::item_slots::ItemSlots;
use crate::object_index::AboutObject;
use crate::scalars::{filled_text, flag_or_false, number_or_none};
use apply_json::{ReadFault, Reader, non_empty, read_object};
use apply_model::MAX_SECONDS;
use apply_plan::parts::RawFailure;
use apply_resolve::ObjectId;
use std::alloc::Global;

/// An item of `planning` whose members are all valid. Its object is not known yet.
#[derive(Drop)]
pub struct RawItem<'a> {
    pub address: &'a str,
    pub deposed: Option<&'a str>,
    /// At most 86,400.
    pub seconds: u32,
    pub id: Option<&'a str>,
    pub failure: Option<RawFailure<'a>>,
    /// Whether the object has vanished.
    pub is_gone: bool,
    /// Whether the stream tells nothing of the object.
    pub is_skipped: bool,
}

impl<'a> RawItem<'a> {
    /// Reads an item. `None` means that it is invalid.
    ///
    /// `Err` means that the text is not JSON, or that memory was refused.
    pub fn read(
        alloc: Global,
        reader: &mut Reader<'a>,
        depth: usize,
    ) -> Result<Option<RawItem<'a>>, ReadFault>
        ensures ok { IfOk result (λ answer. (d : Data) × IsMixedRead is_verbatim_name depth reader.old d reader.new
            × (option_map item_view answer ≡ item_of d)) }
        ensures shorter { OnOk result (length reader.new < length reader.old) }
        ensures err { result ≡ Err ReadFault.NotJson → IsNoValue depth reader.old }
    {
        let mut slots = ItemSlots::new();
        let read = read_object(alloc, reader, depth, &mut slots);
        read.and(Ok(RawItem::of(slots)))
    }

    /// Checks the members. `None` means that one is invalid or missing, or that they clash.
    fn of(slots: ItemSlots<'a>) -> Option<RawItem<'a>>
        ensures { option_map item_view result ≡ item_read slots.entry }
    {
        let names = filled_text(slots.address).zip(slots.deposed.text_or(""));
        let texts = names.zip(slots.id.text_or(""));
        let flags = flag_or_false(slots.gone).zip(flag_or_false(slots.skipped));
        let others = number_or_none(slots.seconds).zip(flags);
        let scalars = texts.zip(others);
        let Some(((((address, deposed), id), (seconds, (is_gone, is_skipped))), failure)) =
            scalars.zip(slots.failed) else {
            return None;
        };
        let (deposed, id) = (non_empty(deposed), non_empty(id));
        RawItem::with(address, deposed, id, seconds, is_gone, is_skipped, failure)
    }

    /// The item with these members. `None` means that they do not go together.
    fn with(
        address: &'a str,
        deposed: Option<&'a str>,
        id: Option<&'a str>,
        seconds: Option<u64>,
        is_gone: bool,
        is_skipped: bool,
        failure: Option<RawFailure<'a>>,
    ) -> Option<RawItem<'a>>
        ensures { option_map item_view result ≡ item_with address.now (option_copied deposed.entry) (option_copied id.entry)
            seconds is_gone is_skipped (option_map failure_view failure.entry) }
    {
        if do_clash(
            seconds,
            id.is_some(),
            failure.is_some(),
            is_gone,
            is_skipped,
        ) {
            return None;
        }
        Some(RawItem {
            address,
            deposed,
            seconds: seconds.unwrap_or(0) as u32,
            id,
            failure,
            is_gone,
            is_skipped,
        })
    }
}

impl AboutObject for RawItem<'_> {
    ghost about = { object_of_raw };

    fn id(&self) -> ObjectId<'_> {
        ObjectId {
            address: self.address,
            deposed: self.deposed,
        }
    }
}

/// Whether members do not go together: too many seconds, a failure of what has vanished, or
/// anything more of what is skipped.
fn do_clash(
    seconds: Option<u64>,
    has_id: bool,
    fails: bool,
    is_gone: bool,
    is_skipped: bool,
) -> bool
    ensures { result ≡ do_clash seconds has_id fails is_gone is_skipped }
{
    seconds.unwrap_or(0) > MAX_SECONDS as u64
        || is_gone && fails
        || is_skipped && (seconds.is_some() || has_id || fails || is_gone)
}
