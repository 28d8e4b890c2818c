//! Selects the members and items of a value that a tree stores.

ghost use Rattle.std.specs.Prelude.{◌≡◌};
ghost use Rattle.apply_json_tree.specs.Trimmed.{Selection};

/// Selects what a tree stores of a value: members of an object by name, and the first items of an
/// array. Each variant of a shape is named after the value that it describes.
pub trait Shape: Copy {
    /// The selected members and items, by the shape of the value that has them.
    ghost selection: { Selection Self };

    /// The shape of the member `name`. `None` means that the member is skipped.
    fn member(self, name: &str) -> Option<Self>
        ensures { result ≡ selection.member_shape self name.now };

    /// The shape of each item.
    fn item(self) -> Self
        ensures { result ≡ selection.item_shape self };

    /// How many items are stored, from the first. `None` means all.
    fn limit(self) -> Option<usize>
        ensures { result ≡ selection.item_limit self };
}
