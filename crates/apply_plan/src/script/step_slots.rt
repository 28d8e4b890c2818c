//! The members of a step.

ghost use Rattle.apply_plan.specs.Script.Entry.{is_verbatim_name};
ghost use Rattle.apply_plan.specs.Script.Members.{HoldsStep};

use crate::members::take_member;
use crate::script::list_items::read_items;
use crate::script::raw_diag::RawDiag;
use crate::script::raw_failure::RawFailure;
use crate::script::raw_provisioner::RawProvisioner;
use crate::script::raw_wait::RawWait;
use apply_json::{ReadFault, Reader, Shallow, Slots, read_shallow_into};
use std::alloc::Global;

/// The members of a step, while they are read. An outer `None` means that the member is invalid.
#[derive(Drop)]
pub struct StepSlots<'a> {
    pub seconds: Shallow<'a>,
    pub after: Option<Vec<RawWait<'a>>>,
    pub id: Shallow<'a>,
    pub warning: Option<Option<RawDiag<'a>>>,
    pub failed: Option<Option<RawFailure<'a>>>,
    pub provisioners: Option<Vec<RawProvisioner<'a>>>,
    pub skipped: Shallow<'a>,
}

impl<'a> StepSlots<'a> {
    ghost use Rattle.serde_json.specs.Data.{no_members};

    /// Slots before any member was read.
    pub fn new(alloc: Global) -> StepSlots<'a>
        ensures { HoldsStep result no_members }
    {
        StepSlots {
            seconds: Shallow::Absent,
            after: Some(Vec::new(alloc)),
            id: Shallow::Absent,
            warning: Some(None),
            failed: Some(None),
            provisioners: Some(Vec::new(alloc)),
            skipped: Shallow::Absent,
        }
    }
}

impl<'a> Slots<'a> for StepSlots<'a> {
    ghost is_verbatim = { is_verbatim_name };

    ghost holds = { λ _ slots ms. HoldsStep slots ms };

    fn take(
        &mut self,
        alloc: Global,
        name: &str,
        reader: &mut Reader<'a>,
        depth: usize,
    ) -> Result<(), ReadFault> {
        take_member! {
            name, reader, depth,
            "seconds" => read_shallow_into(reader, depth, &mut self.seconds),
            "after" => read_items(alloc, reader, depth, false, &mut self.after),
            "id" => read_shallow_into(reader, depth, &mut self.id),
            "warning" => RawDiag::read(alloc, reader, depth, &mut self.warning),
            "failed" => RawFailure::read(alloc, reader, depth, &mut self.failed),
            "provisioners" => read_items(alloc, reader, depth, false, &mut self.provisioners),
            "skipped" => read_shallow_into(reader, depth, &mut self.skipped),
        }
    }
}
