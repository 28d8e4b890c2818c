//! The members of a provisioner.

ghost use Rattle.apply_plan.specs.Script.Entry.{is_verbatim_name};
ghost use Rattle.apply_plan.specs.Script.Members.{HoldsProvisioner};

use crate::members::take_member;
use crate::script::list_items::read_items;
use crate::script::raw_diag::RawDiag;
use crate::script::raw_output::RawOutput;
use apply_json::{ReadFault, Reader, Shallow, Slots, read_shallow_into};
use std::alloc::Global;

/// The members of a provisioner, while they are read.
///
/// An outer `None` means that the member is invalid.
#[derive(Drop)]
pub struct ProvisionerSlots<'a> {
    pub name: Shallow<'a>,
    pub seconds: Shallow<'a>,
    pub failed: Option<Option<RawDiag<'a>>>,
    pub output: Option<Vec<RawOutput<'a>>>,
    pub on_failure: Shallow<'a>,
}

impl<'a> ProvisionerSlots<'a> {
    ghost use Rattle.serde_json.specs.Data.{no_members};

    /// Slots before any member was read.
    pub fn new(alloc: Global) -> ProvisionerSlots<'a>
        ensures { HoldsProvisioner result no_members }
    {
        ProvisionerSlots {
            name: Shallow::Absent,
            seconds: Shallow::Absent,
            failed: Some(None),
            output: Some(Vec::new(alloc)),
            on_failure: Shallow::Absent,
        }
    }
}

impl<'a> Slots<'a> for ProvisionerSlots<'a> {
    ghost is_verbatim = { is_verbatim_name };

    ghost holds = { λ _ slots ms. HoldsProvisioner slots ms };

    fn take(
        &mut self,
        alloc: Global,
        name: &str,
        reader: &mut Reader<'a>,
        depth: usize,
    ) -> Result<(), ReadFault> {
        take_member! {
            name, reader, depth,
            "provisioner" => read_shallow_into(reader, depth, &mut self.name),
            "seconds" => read_shallow_into(reader, depth, &mut self.seconds),
            "failed" => RawDiag::read(alloc, reader, depth, &mut self.failed),
            "output" => read_items(alloc, reader, depth, false, &mut self.output),
            "on_failure" => read_shallow_into(reader, depth, &mut self.on_failure),
        }
    }
}
