//! The members of `hook`, and of `change`.

ghost use Rattle.std.specs.Prelude.{◌≡◌, ◌<◌, Err, OnOk, Some, length};
ghost use Rattle.std.specs.Option.{option_copied};
ghost use Rattle.serde_json.specs.Data.{Data};
ghost use Rattle.apply_json.specs.Verbatim.{none_verbatim};
ghost use Rattle.apply_json.specs.Tokens.{IsNoValue, IsRead};
ghost use Rattle.stream_message.specs.Slots.{HoldsHook, inside, presence_of};
ghost use Rattle.stream_message.specs.SlotValues.{action_in, address_in, provisioner_in, seconds_in};

use crate::inner_slot::InnerSlot;
use crate::members::{read_into_slot, text_in, whole_in};
use crate::presence::Presence;
use apply_json::{ReadFault, Reader, Shallow, Slots, is_text, read_object, skip_member};
use std::alloc::Global;

/// The members of `hook`, or of `change`, which names an object and an action in the same way
/// (Machine-Readable UI, "Message Types"). Its methods count a member with another type than theirs
/// as missing.
#[derive(Clone, Copy, Drop)]
pub struct HookSlots<'a> {
    pub is: Presence,
    /// `resource`, with its `addr`.
    pub resource: InnerSlot<'a>,
    pub action: Option<Shallow<'a>>,
    /// `elapsed_seconds`.
    pub seconds: Option<Shallow<'a>>,
    pub provisioner: Option<Shallow<'a>>,
}

impl<'a> HookSlots<'a> {
    ghost use Rattle.serde_json.specs.Data.{no_members};
    ghost use Rattle.std.specs.Prelude.{None};

    /// Slots of a message without the object.
    pub(crate) fn new() -> HookSlots<'a>
        ensures is { result.is ≡ presence_of None }
        ensures holds { HoldsHook result no_members }
    {
        HookSlots {
            is: Presence::Missing,
            resource: InnerSlot::new(),
            action: None,
            seconds: None,
            provisioner: None,
        }
    }

    /// Reads the object into its slots. Arrays and objects may nest `depth` deep. `Err` with
    /// `ReadFault::NotJson` where the value is no JSON. `Err` with `ReadFault::Memory` where memory
    /// is refused.
    pub(crate) fn read(
        alloc: Global,
        reader: &mut Reader<'a>,
        depth: usize,
        hook: &mut HookSlots<'a>,
    ) -> Result<(), ReadFault>
        ensures ok { OnOk result ((d : Data) × IsRead depth reader.old d reader.new
            × (hook.new.is ≡ presence_of (Some d)) × HoldsHook hook.new (inside (Some d))) }
        ensures shorter { OnOk result (length reader.new < length reader.old) }
        ensures err { result ≡ Err ReadFault.NotJson → IsNoValue depth reader.old }
    {
        *hook = HookSlots::new();
        match read_object(alloc, reader, depth, hook) {
            Ok(value) => {
                hook.is = Presence::of(value);
                Ok(())
            }
            Err(fault) => Err(fault),
        }
    }

    /// Returns the address of the resource (`resource.addr`).
    pub fn address(&self) -> Option<&'a str>
        ensures { option_copied result ≡ address_in self.now }
    {
        self.resource.text()
    }

    /// Returns the word for the action.
    pub fn action(&self) -> Option<&'a str>
        ensures { option_copied result ≡ action_in self.now }
    {
        text_in(self.action)
    }

    /// Returns the name of the provisioner.
    pub fn provisioner(&self) -> Option<&'a str>
        ensures { option_copied result ≡ provisioner_in self.now }
    {
        text_in(self.provisioner)
    }

    /// Returns the seconds since the start (`elapsed_seconds`).
    pub fn seconds(&self) -> Option<u64>
        ensures { result ≡ seconds_in self.now }
    {
        whole_in(self.seconds)
    }
}

impl<'a> Slots<'a> for HookSlots<'a> {
    ghost is_verbatim = { none_verbatim };

    ghost holds = { λ _ slots ms. HoldsHook slots ms };

    fn take(
        &mut self,
        alloc: Global,
        name: &str,
        reader: &mut Reader<'a>,
        depth: usize,
    ) -> Result<(), ReadFault> {
        if is_text(name, "resource") {
            InnerSlot::read(alloc, reader, depth, "addr", &mut self.resource)
        } else if is_text(name, "action") {
            read_into_slot(reader, depth, &mut self.action)
        } else if is_text(name, "elapsed_seconds") {
            read_into_slot(reader, depth, &mut self.seconds)
        } else if is_text(name, "provisioner") {
            read_into_slot(reader, depth, &mut self.provisioner)
        } else {
            skip_member(reader, depth)
        }
    }
}
