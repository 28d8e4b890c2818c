//! The members of `changes`.

ghost use Rattle.std.specs.Prelude.{◌≡◌, ◌<◌, Err, OnOk, Some, length};
ghost use Rattle.std.specs.Option.{option_copied};
ghost use Rattle.serde_json.specs.Data.{Data};
ghost use Rattle.apply_json.specs.Verbatim.{none_verbatim};
ghost use Rattle.apply_json.specs.Tokens.{IsNoValue, IsRead};
ghost use Rattle.stream_message.specs.Slots.{HoldsChanges, inside, presence_of};
ghost use Rattle.stream_message.specs.SlotValues.{added_in, changed_in, imported_in, operation_in, removed_in};

use crate::members::{read_into_slot, text_in, whole_in};
use crate::presence::Presence;
use apply_json::{ReadFault, Reader, Shallow, Slots, is_text, read_object, skip_member};
use std::alloc::Global;

/// The members of `changes` (Machine-Readable UI, "Message Types"). Its methods count a member with
/// another type than theirs as missing.
#[derive(Clone, Copy, Drop)]
pub struct ChangesSlots<'a> {
    pub is: Presence,
    pub operation: Option<Shallow<'a>>,
    /// `add`.
    pub added: Option<Shallow<'a>>,
    /// `change`.
    pub changed: Option<Shallow<'a>>,
    /// `remove`.
    pub removed: Option<Shallow<'a>>,
    /// `import`.
    pub imported: Option<Shallow<'a>>,
}

impl<'a> ChangesSlots<'a> {
    ghost use Rattle.serde_json.specs.Data.{no_members};
    ghost use Rattle.std.specs.Prelude.{None};

    /// Slots of a message without `changes`.
    pub(crate) fn new() -> ChangesSlots<'a>
        ensures is { result.is ≡ presence_of None }
        ensures holds { HoldsChanges result no_members }
    {
        ChangesSlots {
            is: Presence::Missing,
            operation: None,
            added: None,
            changed: None,
            removed: None,
            imported: None,
        }
    }

    /// Reads `changes` into its slots. Arrays and objects may nest `depth` deep. `Err` with
    /// `ReadFault::NotJson` where the value is no JSON. `Err` with `ReadFault::Memory` where memory
    /// is refused.
    pub(crate) fn read(
        alloc: Global,
        reader: &mut Reader<'a>,
        depth: usize,
        changes: &mut ChangesSlots<'a>,
    ) -> Result<(), ReadFault>
        ensures ok { OnOk result ((d : Data) × IsRead depth reader.old d reader.new
            × (changes.new.is ≡ presence_of (Some d)) × HoldsChanges changes.new (inside (Some d))) }
        ensures shorter { OnOk result (length reader.new < length reader.old) }
        ensures err { result ≡ Err ReadFault.NotJson → IsNoValue depth reader.old }
    {
        *changes = ChangesSlots::new();
        match read_object(alloc, reader, depth, changes) {
            Ok(value) => {
                changes.is = Presence::of(value);
                Ok(())
            }
            Err(fault) => Err(fault),
        }
    }

    /// Returns the operation.
    pub fn operation(&self) -> Option<&'a str>
        ensures { option_copied result ≡ operation_in self.now }
    {
        text_in(self.operation)
    }

    /// Returns how many objects were added (`add`).
    pub fn added(&self) -> Option<u64>
        ensures { result ≡ added_in self.now }
    {
        whole_in(self.added)
    }

    /// Returns how many objects were changed (`change`).
    pub fn changed(&self) -> Option<u64>
        ensures { result ≡ changed_in self.now }
    {
        whole_in(self.changed)
    }

    /// Returns how many objects were removed (`remove`).
    pub fn removed(&self) -> Option<u64>
        ensures { result ≡ removed_in self.now }
    {
        whole_in(self.removed)
    }

    /// Returns how many objects were imported (`import`).
    pub fn imported(&self) -> Option<u64>
        ensures { result ≡ imported_in self.now }
    {
        whole_in(self.imported)
    }
}

impl<'a> Slots<'a> for ChangesSlots<'a> {
    ghost is_verbatim = { none_verbatim };

    ghost holds = { λ _ slots ms. HoldsChanges slots ms };

    fn take(
        &mut self,
        _alloc: Global,
        name: &str,
        reader: &mut Reader<'a>,
        depth: usize,
    ) -> Result<(), ReadFault> {
        if is_text(name, "operation") {
            read_into_slot(reader, depth, &mut self.operation)
        } else if is_text(name, "add") {
            read_into_slot(reader, depth, &mut self.added)
        } else if is_text(name, "change") {
            read_into_slot(reader, depth, &mut self.changed)
        } else if is_text(name, "remove") {
            read_into_slot(reader, depth, &mut self.removed)
        } else if is_text(name, "import") {
            read_into_slot(reader, depth, &mut self.imported)
        } else {
            skip_member(reader, depth)
        }
    }
}
