//! A provisioner of a script, before its texts are copied.

ghost use Rattle.std.specs.Prelude.{◌≡◌, map, true};
ghost use Rattle.apply_model.specs.Script.Outcome.{are_in_time};
ghost use Rattle.apply_plan.specs.Script.Entry.{timed};
ghost use Rattle.apply_plan.specs.Script.OutputView.{outputs_view};

use crate::filled_text::filled_text;
use crate::script::list_item::ListItem;
use crate::script::provisioner_slots::ProvisionerSlots;
use crate::script::raw_diag::RawDiag;
use crate::script::raw_output::RawOutput;
use crate::script::raw_outputs::{are_in_time, copied_outputs};
use crate::script::word_flag::word_flag;
use crate::zip_results::zip_results;
use apply_json::{ReadFault, Reader, read_object};
use apply_model::{MAX_OUTPUTS, Provisioner, Text};
use std::alloc::{AllocError, Global};

/// A provisioner whose members are all valid, and whose outputs come in time.
#[derive(Drop)]
pub struct RawProvisioner<'a> {
    pub name: &'a str,
    /// Not limited yet: the step that runs the provisioner is checked later.
    pub seconds: u64,
    /// Not limited yet: [`RawProvisioner::puts_out_too_much`] checks it later.
    pub output: Vec<RawOutput<'a>>,
    pub failed: Option<RawDiag<'a>>,
    pub may_fail: bool,
    ghost in_time: { are_in_time 0 seconds (map (timed seconds) (outputs_view output.items)) ≡ true },
}

impl<'a> ListItem<'a> for RawProvisioner<'a> {
    ghost use Rattle.apply_model.specs.declared.script.provisioner.Provisioner.{Provisioner};
    ghost use Rattle.apply_plan.specs.Script.Entry.{provisioner_from};
    ghost use Rattle.apply_plan.specs.Script.RawView.{provisioner_view};

    ghost Seen = { Provisioner };

    ghost see = { provisioner_view };

    ghost part = { provisioner_from };

    fn read(
        alloc: Global,
        reader: &mut Reader<'a>,
        depth: usize,
    ) -> Result<Option<RawProvisioner<'a>>, ReadFault> {
        let mut slots = ProvisionerSlots::new(alloc);
        let read = read_object(alloc, reader, depth, &mut slots);
        read.and(Ok(RawProvisioner::of(slots)))
    }
}

impl<'a> RawProvisioner<'a> {
    ghost use Rattle.std.specs.Prelude.{IfOk, option_map};
    ghost use Rattle.apply_model.specs.Script.Outcome.{IsSmall, puts_out_too_much};
    ghost use Rattle.apply_plan.specs.Script.Members.{provisioner_read};
    ghost use Rattle.apply_plan.specs.Script.RawView.{provisioner_view};

    /// Checks the members.
    ///
    /// `None` means that one is invalid or missing, or that an output does not come in time.
    fn of(slots: ProvisionerSlots<'a>) -> Option<RawProvisioner<'a>>
        ensures { option_map provisioner_view result ≡ provisioner_read slots.entry }
    {
        let named = filled_text(slots.name).zip(slots.seconds.whole());
        let nested = slots.failed.zip(slots.output);
        let may_fail = word_flag(slots.on_failure, "continue", "fail");
        let Some((((name, seconds), (failed, output)), may_fail)) = named.zip(nested).zip(may_fail)
        else {
            return None;
        };
        if !are_in_time(&output, seconds) {
            return None;
        }
        Some(RawProvisioner {
            name,
            seconds,
            output,
            failed,
            may_fail,
        })
    }

    /// Whether the provisioner has more than 100 outputs.
    pub fn puts_out_too_much(&self) -> bool
        ensures { result ≡ puts_out_too_much (provisioner_view self.now) }
    {
        self.output.len() > MAX_OUTPUTS
    }

    /// The provisioner, with copies of its texts. `Err` means that memory was refused.
    pub fn copied(&self, alloc: Global) -> Result<Provisioner, AllocError>
        requires { IsSmall (provisioner_view self.now) }
        ensures { IfOk result (λ copy. copy ≡ provisioner_view self.now) }
    {
        let told = zip_results(
            copied_outputs(alloc, &self.output, self.seconds),
            RawDiag::copied_option(alloc, &self.failed),
        );
        match zip_results(Text::new(alloc, self.name), told) {
            Ok((name, (output, failed))) => Ok(Provisioner {
                name,
                seconds: self.seconds as u32,
                output,
                failed,
                may_fail: self.may_fail,
            }),
            Err(refused) => Err(refused),
        }
    }
}
