//! The items that a bus carries.

ghost use Rattle.std.specs.Prelude.{◌≡◌};
ghost use Rattle.apply_bus.specs.Items.{close_count};

use apply_events::Event;

/// An item that a bus carries.
#[derive(Clone, Copy, Debug, PartialEq, Eq)]
pub enum Item {
    /// An event. It names its worker.
    Event(Event),
    /// The worker with this number sends nothing more.
    Close(u8),
}

/// Returns 1 for a close, and 0 for an event.
pub(crate) fn close_count(item: &Item) -> u8
    ensures { result ≡ close_count item.now }
{
    match item {
        Item::Event(_) => 0,
        Item::Close(_) => 1,
    }
}
