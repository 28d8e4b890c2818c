//! Whether an object is present.

ghost use Rattle.std.specs.Prelude.{◌≡◌, Some};
ghost use Rattle.serde_json.specs.Data.{Data};
ghost use Rattle.apply_json.specs.ShallowView.{shallow_view, shallow_of};
ghost use Rattle.stream_message.specs.Slots.{presence_of};

use apply_json::Shallow;

/// Whether an object is present.
#[derive(Clone, Copy, Drop)]
pub enum Presence {
    Missing,
    /// The value is present, also as `null`, and no object.
    NoObject,
    Object,
}

impl Presence {
    /// The presence of a value that was read.
    pub(crate) fn of(value: Shallow<'_>) -> Presence
        ensures { (d : Data) → shallow_view value.entry ≡ shallow_of (Some d) → result ≡ presence_of (Some d) }
    {
        match value {
            Shallow::Object => Presence::Object,
            _ => Presence::NoObject,
        }
    }
}
